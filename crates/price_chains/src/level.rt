// Levels of a chain.
use crate::numbers::{at, plus, times, within, write};
use std::alloc::{AllocError, Global};

/// A price of so much or more is that of a lot that there isn't, and a cost of so much or more that of no plan.
pub const NONE: i64 = 1 << 61;

/// A level of a chain: an item, by lots in the order of the positions in which they are started, of which there are `H`.
/// Lot 0 is what is there before the first position: it has no setup and takes nothing of the level below. Numbers below
/// 0 are read as 0.
#[derive(Debug, Drop)]
pub struct Level {
    /// The cost of a setup, one entry for each lot from 0 to `H`; the first one isn't read.
    pub fee: Vec<i64>,
    /// The cost of a unit, one entry for each lot from 0 to `H`.
    pub unit: Vec<i64>,
    /// Units that are asked for, other than by the next level, in all positions before each one: `H + 2` entries, of which
    /// the first two are 0.
    pub asked: Vec<i64>,
    /// Units of this level in one unit of the next one; any number at the last level.
    pub per_next: i64,
}

// Whether a level has lists for so many lots, lot 0 among them.
pub(crate) fn has_lots(level: &Level, lots: usize) -> bool {
    let sums = lots.wrapping_add(1);
    lots > 0 && level.fee.len() == lots && level.unit.len() == lots && level.asked.len() == sums
}

/// A level with all its numbers from 0 to `NONE`.
#[derive(Debug, Drop)]
pub(crate) struct Lots {
    fee: Vec<i64>,
    unit: Vec<i64>,
    pub(crate) asked: Vec<i64>,
    pub(crate) per_next: i64,
}

impl Lots {
    // No lots, without memory.
    pub(crate) fn new(alloc: Global) -> Lots {
        Lots {
            fee: Vec::new(alloc),
            unit: Vec::new(alloc),
            asked: Vec::new(alloc),
            per_next: 0,
        }
    }

    // Takes the sums of what is asked for, none of which is less than the one before.
    fn refill_asked(&mut self, asked: &[i64]) -> Result<(), AllocError> {
        self.asked.clear();
        let mut last = 0;
        for sum in asked {
            last = within(*sum).max(last);
            self.asked.push(last)?;
        }
        Ok(())
    }

    // Takes the numbers of a level. A lot with one price of `NONE` has both.
    pub(crate) fn refill(&mut self, level: &Level) -> Result<(), AllocError> {
        self.per_next = within(level.per_next);
        self.refill_asked(&level.asked)?;
        self.fee.clear();
        self.unit.clear();
        let mut is_first = true;
        for (fee, unit) in level.fee.iter().zip(level.unit.iter()) {
            let is_closed = *fee >= NONE || *unit >= NONE;
            let (fee, unit) = if is_first {
                (0, within(*unit))
            } else if is_closed {
                (NONE, NONE)
            } else {
                (within(*fee), within(*unit))
            };
            self.fee.push(fee)?;
            self.unit.push(unit)?;
            is_first = false;
        }
        Ok(())
    }

    // Takes a level that costs nothing and is never set up.
    pub(crate) fn refill_free(&mut self, lots: usize) -> Result<(), AllocError> {
        self.per_next = 0;
        self.asked.clear();
        self.asked.resize(lots.saturating_add(1), 0)?;
        self.fee.clear();
        self.unit.clear();
        self.fee.resize(lots, NONE)?;
        self.unit.resize(lots, NONE)?;
        write(&mut self.fee, 0, 0);
        write(&mut self.unit, 0, 0);
        Ok(())
    }

    // How many lots there are, lot 0 among them: the number of the end too.
    pub(crate) fn count(&self) -> usize {
        self.fee.len()
    }

    // What a setup of a lot costs; nothing at the end.
    pub(crate) fn fee(&self, lot: usize) -> i64 {
        at(&self.fee, lot)
    }

    // Whether a lot can't be set up.
    pub(crate) fn is_closed(&self, lot: usize) -> bool {
        self.fee(lot) >= NONE
    }

    // What is asked for from one lot to another.
    pub(crate) fn units(&self, from: usize, to: usize) -> i64 {
        at(&self.asked, to).saturating_sub(at(&self.asked, from))
    }

    // All that is asked for.
    pub(crate) fn total(&self) -> i64 {
        at(&self.asked, self.count())
    }

    // What a unit of a lot costs, where what goes into it costs so much.
    pub(crate) fn price(&self, lot: usize, below: i64) -> i64 {
        let unit = at(&self.unit, lot);
        if lot == 0 { unit } else { plus(unit, below) }
    }

    // What goes into one unit of the next level costs at a price of a unit.
    pub(crate) fn into_next(&self, price: i64) -> i64 {
        times(price, self.per_next)
    }
}

/// The levels of a chain that is planned.
#[derive(Clone, Copy)]
pub(crate) struct Levels<'a> {
    pub(crate) low: &'a Lots,
    pub(crate) mid: &'a Lots,
    pub(crate) top: &'a Lots,
}

impl Levels<'_> {
    // What a unit of a lot of the middle level costs that is served by a lot of the lowest one.
    fn mid_price(&self, served: usize, lot: usize) -> i64 {
        let unit = self.low.price(served, 0);
        self.mid.price(lot, self.low.into_next(unit))
    }

    // What of the middle level goes into a unit of the top level costs, by such a lot.
    pub(crate) fn into_top(&self, served: usize, lot: usize) -> i64 {
        self.mid.into_next(self.mid_price(served, lot))
    }

    // What it costs to serve what is asked of the middle level from one of its lots to another.
    pub(crate) fn mid_cost(&self, served: usize, lot: usize, to: usize) -> i64 {
        let units = self.mid.units(lot, to);
        if units == 0 {
            return 0;
        }
        times(self.mid_price(served, lot), units)
    }

    // What it costs to serve what is asked of the lowest level from one of its lots to another.
    pub(crate) fn low_cost(&self, lot: usize, to: usize) -> i64 {
        times(self.low.price(lot, 0), self.low.units(lot, to))
    }
}
