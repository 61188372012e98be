// The budget of the heuristics: work that is left, and marks of the setups already tried. Nothing is claimed of it.
use std::alloc::{AllocError, Global};
use std::collections::BTreeSet;

/// Marks of the setups with which plans were built, what improving plans may still take, what programs may whose setups are
/// wanted, what walks may that begin with the lots of rounds, and how often rounds of prices were followed by plans.
#[derive(Debug, Drop)]
pub struct Effort {
    tried: BTreeSet<u64>,
    work: u64,
    programs: u64,
    walks: u64,
    times: u64,
}

// What improving plans may take in all: so many plans of a single item and period.
const ALL_WORK: u64 = 10_000_000;

// What programs with the setups that rounds of prices want may take in all: so much, where a program takes the square of items
// times periods.
const PROGRAM_WORK: u64 = 100_000;

// What walks by the lots of rounds of prices may take in all.
const HINT_WALK_WORK: u64 = 40_000_000;

// A walk begins once in so many times, first when the rounds at the root end.
const WALK_EACH: u64 = 200;

const WALK_FIRST: u64 = 20;

impl Effort {
    /// Nothing was tried, and there is all room for work.
    ///
    /// It takes no memory yet; each mark of setups takes some.
    pub fn new(alloc: Global) -> Effort {
        Effort {
            tried: BTreeSet::new(alloc),
            work: ALL_WORK,
            programs: PROGRAM_WORK,
            walks: HINT_WALK_WORK,
            times: 0,
        }
    }

    /// Remembers a mark of setups, and tells whether it is new.
    pub(crate) fn remember(&mut self, mark: u64) -> Result<bool, AllocError> {
        Ok(self.tried.insert(mark)?)
    }

    /// Whether there is room for so much work, which is then taken.
    pub(crate) fn takes_work(&mut self, work: u64) -> bool {
        if self.work < work {
            return false;
        }
        self.work -= work;
        true
    }

    /// Whether there is room for the work of a program whose setups are wanted. It is taken then.
    pub(crate) fn takes_programs(&mut self, work: u64) -> bool {
        if self.programs < work {
            return false;
        }
        self.programs -= work;
        true
    }

    /// Whether there is room for the work of a walk by the lots of rounds of prices. It is taken then.
    pub(crate) fn takes_walks(&mut self, work: u64) -> bool {
        if self.walks < work {
            return false;
        }
        self.walks -= work;
        true
    }

    /// Counts the times that plans follow on rounds of prices, and gives the count where a walk begins.
    pub(crate) fn next_walk(&mut self) -> Option<u64> {
        self.times = self.times.wrapping_add(1);
        if self.times % WALK_EACH == WALK_FIRST {
            Some(self.times)
        } else {
            None
        }
    }
}
