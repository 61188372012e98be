// A list of sentences that is cut where it gets long.

use std::alloc::{AllocError, Global};

// So many sentences are written out.
const MOST_LISTED: u32 = 10;

/// Sentences, each on a line of its own, and how many more there would be.
#[derive(Drop)]
pub(crate) struct Listing {
    /// The sentences.
    pub(crate) text: String,
    listed: u32,
    more: u32,
}

impl Listing {
    pub(crate) fn new(alloc: Global) -> Listing {
        Listing {
            text: String::new(alloc),
            listed: 0,
            more: 0,
        }
    }

    /// Whether one more sentence is written out. It is counted in either case.
    pub(crate) fn takes_one(&mut self) -> bool {
        if self.listed >= MOST_LISTED {
            self.more = self.more.saturating_add(1);
            return false;
        }
        self.listed = self.listed.saturating_add(1);
        true
    }

    /// The sentences, and last how many more there are; nothing where there is none.
    pub(crate) fn closed(self) -> Result<String, AllocError> {
        let Listing { mut text, more, .. } = self;
        if more > 0 {
            write!(text, "  and {more} more.\n")?;
        }
        Ok(text)
    }
}
