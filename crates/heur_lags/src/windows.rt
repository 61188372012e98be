// The least number of a window that moves over a list.
use crate::shop::FAR;
use integer_grids::numbers::{less, times};
use std::alloc::{AllocError, Global};

// A number of the window, at a level.
#[derive(Clone, Copy)]
struct Kept {
    level: i64,
    number: i64,
    place: usize,
}

/// What a window has least.
#[derive(Clone, Copy)]
pub(crate) struct Least {
    pub(crate) number: i64,
    /// Its place in the list, counted from 0.
    pub(crate) place: usize,
}

/// A window over costs by rising levels: those of them that may still be the least, in their order, so that the first is.
#[derive(Drop)]
pub(crate) struct Window {
    kept: Vec<Kept>,
    // The first that is still in the window.
    head: usize,
    // The first place that wasn't in it yet.
    next: usize,
}

impl Window {
    /// A window over nothing.
    pub(crate) fn new(alloc: Global) -> Window {
        Window {
            kept: Vec::new(alloc),
            head: 0,
            next: 0,
        }
    }

    // Whether the last number is no less than another.
    fn ends_no_less(&self, number: i64) -> bool {
        match self.kept.last() {
            Some(kept) => kept.number >= number,
            None => false,
        }
    }

    // Lets those numbers at the end go that are no less than a new one.
    fn drop_worse(&mut self, number: i64) {
        for _kept in self.head..self.kept.len() {
            if !self.ends_no_less(number) {
                return;
            }
            let _worse = self.kept.pop();
        }
    }

    // Takes in a cost at a level, less so much for each unit of the level.
    fn take(&mut self, level: i64, cost: i64, rate: i64, place: usize) -> Result<(), AllocError> {
        let number = less(cost, times(rate, level));
        self.drop_worse(number);
        self.kept.push(Kept {
            level,
            number,
            place,
        })?;
        Ok(())
    }

    /// Moves the end of the window on to a level, itself included. Costs count less so much for each unit of their level.
    pub(crate) fn advance(
        &mut self,
        levels: &[i64],
        costs: &[i64],
        rate: i64,
        most: i64,
    ) -> Result<(), AllocError> {
        for place in self.next..levels.len() {
            let (Some(level), Some(cost)) = (levels.get(place), costs.get(place)) else {
                return Ok(());
            };
            if *level > most {
                return Ok(());
            }
            self.next = place + 1;
            if *cost < FAR {
                self.take(*level, *cost, rate, place)?;
            }
        }
        Ok(())
    }

    // Whether the first number stands below a level.
    fn begins_below(&self, least: i64) -> bool {
        match self.kept.get(self.head) {
            Some(kept) => kept.level < least,
            None => false,
        }
    }

    /// Moves the beginning of the window on to a level.
    pub(crate) fn trim(&mut self, least: i64) {
        for _kept in self.head..self.kept.len() {
            if !self.begins_below(least) {
                return;
            }
            self.head = self.head.wrapping_add(1);
        }
    }

    /// The least number of the window, if it has any.
    pub(crate) fn least(&self) -> Option<Least> {
        match self.kept.get(self.head) {
            Some(kept) => Some(Least {
                number: kept.number,
                place: kept.place,
            }),
            None => None,
        }
    }
}
