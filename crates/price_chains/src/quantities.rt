// What a plan makes of a level.
use crate::numbers::{at, plus, times};
use std::alloc::{AllocError, Global};

/// What a plan makes of a level: one entry for each lot, lot 0 first.
#[derive(Debug, Drop)]
pub(crate) struct Quantities {
    /// The units that are made.
    pub(crate) units: Vec<i64>,
    /// 1 where the lot is set up, and else 0.
    pub(crate) setups: Vec<i64>,
}

impl Quantities {
    // There is no plan, and no memory.
    pub(crate) fn new(alloc: Global) -> Quantities {
        Quantities {
            units: Vec::new(alloc),
            setups: Vec::new(alloc),
        }
    }

    // There is no plan.
    pub(crate) fn clear(&mut self) {
        self.units.clear();
        self.setups.clear();
    }

    // Nothing is made of so many lots.
    pub(crate) fn begin(&mut self, lots: usize) -> Result<(), AllocError> {
        self.clear();
        self.units.resize(lots, 0)?;
        self.setups.resize(lots, 0)?;
        Ok(())
    }

    // A lot makes more units.
    pub(crate) fn add(&mut self, lot: usize, units: i64) {
        if let Some(made) = self.units.get_mut(lot) {
            *made = plus(*made, units);
        }
    }

    // A lot is set up; lot 0 and the end never are.
    pub(crate) fn set_up(&mut self, lot: usize) {
        if lot == 0 {
            return;
        }
        if let Some(setup) = self.setups.get_mut(lot) {
            *setup = 1;
        }
    }

    // A lot of the level below makes what a lot takes, so many for each unit; lot 0 takes nothing.
    pub(crate) fn take_from(&self, lot: usize, below: &mut Quantities, served: usize, into: i64) {
        if lot > 0 {
            below.add(served, times(into, at(&self.units, lot)));
        }
    }
}
