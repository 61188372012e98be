// The calls that plan a chain.
use crate::late::{LateRows, Owing};
use crate::level::{Level, Levels, Lots, NONE, has_lots};
use crate::numbers::part;
use crate::quantities::Quantities;
use crate::states::States;
use crate::stretches::Stretches;
use crate::walk::{Made, Solved};
use std::alloc::{AllocError, Global};

/// Plans chains of up to three levels. It keeps the memory of its tables from one call to the next, and takes none where
/// as many lots were planned before.
///
/// Over `H` positions three levels take at most some `H^4 / 8` steps, of which two thirds fall away where nothing is asked of
/// the lower levels but by the next ones, and `H^3` numbers of 8 bytes; two levels take some `H^3 / 3` steps.
#[derive(Debug, Drop)]
pub struct ChainPlans {
    low: Lots,
    mid: Lots,
    top: Lots,
    stretches: Stretches,
    states: States,
    late: LateRows,
    made_low: Quantities,
    made_mid: Quantities,
    made_top: Quantities,
    // What is made of a level that costs nothing.
    made_free: Quantities,
}

// The least cost of three levels, of which the lowest one has its first lots only, as many as are wanted, and a plan at that
// cost; no plan is given where it is `NONE` or more.
fn plan_levels(
    levels: Levels<'_>,
    served: usize,
    stretches: &mut Stretches,
    states: &mut States,
    made: &mut Made<'_>,
) -> Result<i64, AllocError> {
    let lots = levels.top.count();
    stretches.fill(levels.low, served)?;
    states.fill(levels, served)?;
    let solved = Solved {
        levels,
        stretches,
        states,
        served,
    };
    let last = solved.last_step();
    if last.cost >= NONE {
        return Ok(NONE);
    }
    made.low.begin(lots)?;
    made.mid.begin(lots)?;
    made.top.begin(lots)?;
    solved.trace(made, last.from);
    Ok(last.cost)
}

impl ChainPlans {
    /// Nothing is planned. It takes no memory.
    pub fn new(alloc: Global) -> ChainPlans {
        ChainPlans {
            low: Lots::new(alloc),
            mid: Lots::new(alloc),
            top: Lots::new(alloc),
            stretches: Stretches::new(alloc),
            states: States::new(alloc),
            late: LateRows::new(alloc),
            made_low: Quantities::new(alloc),
            made_mid: Quantities::new(alloc),
            made_top: Quantities::new(alloc),
            made_free: Quantities::new(alloc),
        }
    }

    // Nothing is planned.
    fn clear(&mut self) {
        self.made_low.clear();
        self.made_mid.clear();
        self.made_top.clear();
        self.late.short.clear();
    }

    /// The least cost of a level, and a plan at that cost; `NONE` and no plan where it is `NONE` or more, or where the lists of
    /// the level aren't of one length. The error is that memory ran out.
    pub fn plan_one(&mut self, _alloc: Global, level: &Level) -> Result<i64, AllocError> {
        self.clear();
        let lots = level.fee.len();
        if !has_lots(level, lots) {
            return Ok(NONE);
        }
        self.low.refill(level)?;
        self.stretches.fill(&self.low, 1)?;
        let cost = self.stretches.get(0, lots);
        if cost >= NONE {
            return Ok(NONE);
        }
        self.made_low.begin(lots)?;
        self.stretches.trace(&self.low, &mut self.made_low, 0, lots);
        Ok(cost)
    }

    /// The least cost of a level whose units may fall short of what is asked for, before a position from which on nothing may, and
    /// a plan at that cost, as `plan_one`. Each unit that falls short at the end of a position costs its share: `shares` has one entry for
    /// each position from the first on, and what isn't there or is below 0 is read as 0. What is there before the first position isn't
    /// used.
    pub fn plan_late(
        &mut self,
        _alloc: Global,
        level: &Level,
        shares: &[i64],
        settled: usize,
    ) -> Result<i64, AllocError> {
        self.clear();
        let lots = level.fee.len();
        if !has_lots(level, lots) {
            return Ok(NONE);
        }
        self.low.refill(level)?;
        let cost = self.late.fill(&self.low, Owing { shares, settled })?;
        if cost >= NONE {
            return Ok(NONE);
        }
        self.late.trace(&self.low, &mut self.made_low)?;
        Ok(cost)
    }

    /// The units that fall short of what is asked for by the end of each position in the plan of `plan_late`: one entry for each
    /// lot, as `made`. It is empty where nothing may fall short.
    pub fn short(&self) -> &[i64] {
        &self.late.short
    }

    /// The least cost of two levels of which the first one goes into the other, and a plan at that cost, as `plan_one`.
    pub fn plan_two(
        &mut self,
        _alloc: Global,
        low: &Level,
        top: &Level,
    ) -> Result<i64, AllocError> {
        self.clear();
        let lots = top.fee.len();
        if !has_lots(low, lots) || !has_lots(top, lots) {
            return Ok(NONE);
        }
        self.low.refill_free(lots)?;
        self.mid.refill(low)?;
        self.top.refill(top)?;
        let levels = Levels {
            low: &self.low,
            mid: &self.mid,
            top: &self.top,
        };
        let mut made = Made {
            low: &mut self.made_free,
            mid: &mut self.made_low,
            top: &mut self.made_mid,
        };
        plan_levels(levels, 1, &mut self.stretches, &mut self.states, &mut made)
    }

    /// The least cost of three levels, each of which goes into the next one, and a plan at that cost, as `plan_one`.
    pub fn plan_three(
        &mut self,
        _alloc: Global,
        low: &Level,
        mid: &Level,
        top: &Level,
    ) -> Result<i64, AllocError> {
        self.clear();
        let lots = top.fee.len();
        if !has_lots(low, lots) || !has_lots(mid, lots) || !has_lots(top, lots) {
            return Ok(NONE);
        }
        self.low.refill(low)?;
        self.mid.refill(mid)?;
        self.top.refill(top)?;
        let levels = Levels {
            low: &self.low,
            mid: &self.mid,
            top: &self.top,
        };
        let mut made = Made {
            low: &mut self.made_low,
            mid: &mut self.made_mid,
            top: &mut self.made_top,
        };
        plan_levels(
            levels,
            lots,
            &mut self.stretches,
            &mut self.states,
            &mut made,
        )
    }

    /// The units that the plan of a level makes, the lowest level being 0: one entry for each lot, lot 0 first. It is empty
    /// where there is no plan.
    pub fn made(&self, level: usize) -> &[i64] {
        match level {
            0 => &self.made_low.units,
            1 => &self.made_mid.units,
            2 => &self.made_top.units,
            _ => part(&self.made_top.units, 0, 0),
        }
    }

    /// Whether the plan of a level sets up each lot, as `made`: 1 or 0.
    pub fn setups(&self, level: usize) -> &[i64] {
        match level {
            0 => &self.made_low.setups,
            1 => &self.made_mid.setups,
            2 => &self.made_top.setups,
            _ => part(&self.made_top.setups, 0, 0),
        }
    }
}
