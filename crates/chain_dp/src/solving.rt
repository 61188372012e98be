// The least cost of chains of one, two and three levels.
ghost use Rattle.std.specs.Prelude.{◌≡◌, ◌↔◌, ◌-◌, ◌*◌, ◌<◌, ◌≤◌, ℕ, [], ◌∷◌, length, IfOk, Err};
ghost use Rattle.lot_sizing.specs.Sums.{sum_to};
ghost use Rattle.lot_sizing.specs.Problem.{entry};
ghost use Rattle.chain_dp.specs.Chains.{HasPeriods, IsLeastChainCost, levels_of, opening_cost, opening_cost_of, period_count};
ghost use Rattle.chain_dp.specs.Numbers.{IsCapped, most};
ghost use Rattle.chain_dp.specs.declared.error.ChainError.TheVariants.{TooDear};

use crate::costs::{cost_of_one, cost_of_three, cost_of_two};
use crate::error::ChainError;
use crate::level::ChainLevel;
use crate::lists::lists_of;
use crate::spare::Spare;
use std::alloc::Global;

/// Finds the least costs of chains. It keeps the memory of its lists and of its tables of 128 bits from one call
/// to the next.
///
/// A choice of quantities, whole numbers, and of setups, at most one of a level in a period, serves a chain
/// where each level is made in time for what is asked of it and for what the next level takes of it, and
/// nothing is made without a setup. Before the first period there may be units of each level, as many as
/// are wanted, at a price of their own (`opening_price`); they take nothing of the level below. The calls
/// find the least cost of all choices. So where a stock of each level is there, the costs of any lots that
/// make do with it are at least the least cost less the value of these stocks at their prices.
///
/// Over `T` periods three levels take some `T^4 / 8` steps (5,720 over 12 periods, 63,675 over 24, 1,941,996 over
/// 60) and some `T^3 / 2` numbers of 8 bytes, which are given back; where the least cost is 2^64 - 1 or more, as many steps
/// again and some `T^3 / 6` numbers of 16 bytes. Two levels take some `T^3 / 2` steps (119,072 over 60
/// periods), and one takes `(T + 1) * (T + 2) / 2`. The lead times of all levels but the lowest add to `T`.
#[derive(Drop)]
pub struct ChainTables {
    spare: Spare,
}

// The units that are asked for in all periods.
fn total(need: &[u64]) -> u128
    ensures { result ≡ sum_to (length need.now) (entry need.now) }
{
    let mut sum = 0;
    for units in need {
        sum += u128::from(*units);
    }
    sum
}

// What it costs to serve a level from what is there before the first period.
fn opening_cost(level: &ChainLevel) -> u128
    ensures { IsCapped (opening_cost_of level.now) result }
{
    level.opening_price.saturating_mul(total(&level.need))
}

// A lead time, or all periods where it is longer: then no lot arrives.
fn lead_of(level: &ChainLevel, periods: usize) -> usize
    ensures within { result ≤ periods }
    ensures same { (t : ℕ) → t ≤ periods → t - level.now.lead ≡ t - result }
{
    if level.lead < periods {
        level.lead
    } else {
        periods
    }
}

impl ChainTables {
    /// Tables without memory.
    pub fn new(alloc: Global) -> ChainTables {
        ChainTables {
            spare: Spare {
                rows: Vec::new(alloc),
            },
        }
    }

    /// The least cost of one level.
    ///
    /// The errors are that it is too dear to serve all from opening stock, so that a least cost might not fit,
    /// and that memory ran out.
    pub fn solve_one(&mut self, alloc: Global, level: &ChainLevel) -> Result<u128, ChainError>
        requires { HasPeriods (period_count level.now) level.now }
        ensures least { IfOk result (IsLeastChainCost (period_count level.now)
            (levels_of (level.now ∷ []))) }
        ensures too_dear { (result ≡ Err TooDear) ↔
            (most ≤ opening_cost (period_count level.now) (levels_of (level.now ∷ []))) }
    {
        if opening_cost(level) == u128::MAX {
            return Err(ChainError::TooDear);
        }
        let periods = level.need.len();
        let lists = lists_of(
            alloc,
            &mut self.spare,
            level,
            lead_of(level, periods),
            0,
            periods,
        )?;
        let cost = cost_of_one(alloc, &mut self.spare, &lists)?;
        self.spare.keep_lists(lists)?;
        Ok(cost)
    }

    /// The least cost of two levels: units of `low` go into each unit of `top`.
    ///
    /// The errors are those of `solve_one`.
    pub fn solve_two(
        &mut self,
        alloc: Global,
        low: &ChainLevel,
        top: &ChainLevel,
    ) -> Result<u128, ChainError>
        requires low { HasPeriods (period_count top.now) low.now }
        requires top { HasPeriods (period_count top.now) top.now }
        ensures least { IfOk result (IsLeastChainCost (period_count top.now)
            (levels_of (low.now ∷ top.now ∷ []))) }
        ensures too_dear { (result ≡ Err TooDear) ↔
            (most ≤ opening_cost (period_count top.now) (levels_of (low.now ∷ top.now ∷ []))) }
    {
        if opening_cost(low).saturating_add(opening_cost(top)) == u128::MAX {
            return Err(ChainError::TooDear);
        }
        let periods = top.need.len();
        let top_shift = lead_of(top, periods);
        let low_shift = lead_of(low, periods) + top_shift;
        let horizon = periods + top_shift;
        let low_lists = lists_of(alloc, &mut self.spare, low, low_shift, top_shift, horizon)?;
        let top_lists = lists_of(alloc, &mut self.spare, top, top_shift, 0, horizon)?;
        let cost = cost_of_two(alloc, &mut self.spare, &low_lists, &top_lists)?;
        self.spare.keep_lists(low_lists)?;
        self.spare.keep_lists(top_lists)?;
        Ok(cost)
    }

    /// The least cost of three levels: units of `low` go into each unit of `mid`, and units of `mid` into each
    /// unit of `top`.
    ///
    /// The errors are those of `solve_one`.
    pub fn solve_three(
        &mut self,
        alloc: Global,
        low: &ChainLevel,
        mid: &ChainLevel,
        top: &ChainLevel,
    ) -> Result<u128, ChainError>
        requires low { HasPeriods (period_count top.now) low.now }
        requires mid { HasPeriods (period_count top.now) mid.now }
        requires top { HasPeriods (period_count top.now) top.now }
        ensures least { IfOk result (IsLeastChainCost (period_count top.now)
            (levels_of (low.now ∷ mid.now ∷ top.now ∷ []))) }
        ensures too_dear { (result ≡ Err TooDear) ↔
            (most ≤ opening_cost (period_count top.now)
            (levels_of (low.now ∷ mid.now ∷ top.now ∷ []))) }
    {
        let parts = opening_cost(low).saturating_add(opening_cost(mid));
        if parts.saturating_add(opening_cost(top)) == u128::MAX {
            return Err(ChainError::TooDear);
        }
        let periods = top.need.len();
        let top_shift = lead_of(top, periods);
        let mid_shift = lead_of(mid, periods) + top_shift;
        let low_shift = lead_of(low, periods) + mid_shift;
        let horizon = periods + mid_shift;
        let low_lists = lists_of(alloc, &mut self.spare, low, low_shift, mid_shift, horizon)?;
        let mid_lists = lists_of(alloc, &mut self.spare, mid, mid_shift, top_shift, horizon)?;
        let top_lists = lists_of(alloc, &mut self.spare, top, top_shift, 0, horizon)?;
        let cost = cost_of_three(alloc, &mut self.spare, &low_lists, &mid_lists, &top_lists)?;
        self.spare.keep_lists(low_lists)?;
        self.spare.keep_lists(mid_lists)?;
        self.spare.keep_lists(top_lists)?;
        Ok(cost)
    }
}
