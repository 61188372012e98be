// What a run says at its end.
ghost use Rattle.std.specs.Prelude.{string_bytes, IfOk};
ghost use Rattle.lotplan.specs.Saying.{IsSaid};

use crate::status::Status;
use std::alloc::{AllocError, Global};

/// What a run says at its end: the bytes of the line or lines to print, each with its line feed, and how the run ends.
#[derive(Debug, Drop)]
pub struct Said {
    pub line: Vec<u8>,
    pub status: Status,
}

impl Said {
    /// This line and this status.
    pub fn new(alloc: Global, line: &str, status: Status) -> Result<Said, AllocError>
        ensures { IfOk result (IsSaid line.now status) }
    {
        Ok(Said {
            line: Vec::from_slice(alloc, line.as_bytes())?,
            status,
        })
    }

    /// The line or lines of a text, and this status.
    pub fn of(text: String, status: Status) -> Said
        ensures { IsSaid (string_bytes text) status result }
    {
        Said {
            line: text.into_bytes(),
            status,
        }
    }
}
