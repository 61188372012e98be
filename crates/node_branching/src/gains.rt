// What branches on setups gained when they were tried, for later nodes. Nothing is claimed of it.
use lot_model::Instance;
use std::alloc::{AllocError, Global};

// After so many trials of a side of a setup its gain is taken from them.
const KNOWN: i128 = 4;

// What is gained for a part of a setup's cost is counted in parts of 2 to this power.
const FINE: i128 = 1 << 20;

/// A side of a branch on a setup.
#[derive(Clone, Copy, Debug, PartialEq, Eq)]
pub(crate) enum Side {
    /// It isn't made.
    Low,
    /// It is made.
    High,
}

// What a side of a setup gained in all for each part of its cost, and how often it was tried.
#[derive(Clone, Copy, Debug)]
struct Tried {
    sum: i128,
    count: i128,
}

/// What both sides of branches gained, by item and period: pseudocosts (Benichou and others 1971).
#[derive(Debug, Drop)]
pub struct Gains {
    tried: Vec<Tried>,
    periods: u32,
}

impl Gains {
    /// Nothing has been tried. The error is that memory ran out.
    pub fn new(alloc: Global, instance: &Instance) -> Result<Gains, AllocError> {
        let setups = (instance.items() as usize).saturating_mul(instance.periods() as usize);
        let mut tried = Vec::new(alloc);
        tried.resize(setups.saturating_mul(2), Tried { sum: 0, count: 0 })?;
        Ok(Gains {
            tried,
            periods: instance.periods(),
        })
    }

    // Where a side of a setup stands.
    fn place(&self, item: u32, period: u32, side: Side) -> usize {
        let row = (item as usize)
            .saturating_sub(1)
            .saturating_mul(self.periods as usize);
        let place = row
            .saturating_add((period as usize).saturating_sub(1))
            .saturating_mul(2);
        match side {
            Side::Low => place,
            Side::High => place.saturating_add(1),
        }
    }

    /// What a side is expected to gain by what it has, where that is known: `apart` is how far the setup is from the side, times its
    /// cost.
    pub(crate) fn expected(&self, item: u32, period: u32, side: Side, apart: i128) -> Option<i128> {
        let tried = self.tried.get(self.place(item, period, side))?;
        if tried.count < KNOWN {
            return None;
        }
        let mean = tried.sum.checked_div(tried.count).unwrap_or(0);
        Some(mean.saturating_mul(apart) / FINE)
    }

    /// A side has been tried: it gained so much.
    pub(crate) fn remember(&mut self, item: u32, period: u32, side: Side, apart: i128, gain: i128) {
        let place = self.place(item, period, side);
        if let Some(tried) = self.tried.get_mut(place) {
            let part = gain
                .saturating_mul(FINE)
                .checked_div(apart.max(1))
                .unwrap_or(0);
            tried.sum = tried.sum.saturating_add(part);
            tried.count = tried.count.saturating_add(1);
        }
    }
}
