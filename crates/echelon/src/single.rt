// An item by itself, and what a recursion answers for it.
ghost use Rattle.std.specs.Prelude.{◌≡◌, ◌≤◌, ◌↔◌, IsTrue, IfOk, IfSome};
ghost use Rattle.lot_sizing.specs.Sums.{sum_to};
ghost use Rattle.lot_sizing.specs.Problem.{IsSeries};
ghost use Rattle.lot_sizing.specs.Single.{IsWithinBounds, net_demand, period_count, positions};
ghost use Rattle.lot_sizing.specs.declared.limits.TheConstants.{MAX_AMOUNT, MAX_TOTAL};
ghost use Rattle.echelon.specs.Views.{single_of_item};

use lot_sizing::Block;
use lot_sizing::limits::{MAX_AMOUNT, MAX_PERIODS, MAX_TOTAL};
use std::alloc::{AllocError, Global};

/// An item by itself: lists with an entry for each period.
#[derive(Debug, Drop)]
pub struct SingleItem {
    /// The net demand: units to be made for the period once the opening stock is used up.
    pub net: Vec<u128>,
    /// The cost of a setup.
    pub setup: Vec<u64>,
    /// The cost of making one unit.
    pub unit: Vec<u64>,
    /// The cost of one unit in stock at the end of the period.
    pub hold: Vec<u64>,
    /// The cost of one unit owed at the end of the period; none where no backlog is allowed.
    pub back: Option<Vec<u64>>,
}

/// A cheapest way to serve an item by itself.
#[derive(Debug, Drop)]
pub struct Blocks {
    /// What it costs, in money.
    pub cost: u128,
    /// Which period serves which positions. Positions are the periods with a net demand, in order
    /// and counted from 1; the blocks cover them in order.
    pub blocks: Vec<Block>,
    /// The potential of each position. None rises over any block by more than the block costs, and
    /// the last one is the cost, so that no net plan costs less.
    pub potentials: Vec<u128>,
}

// Whether a list has an entry for each period, none above `MAX_AMOUNT`.
fn is_series(list: &[u64], periods: usize) -> bool
    ensures { IsTrue result ↔ IsSeries periods MAX_AMOUNT list.now }
{
    list.len() == periods && list.iter().all(|number| *number <= MAX_AMOUNT)
}

// Whether the backlog costs, if there are any, have an entry for each period, none above `MAX_AMOUNT`.
fn is_optional_series(list: &Option<Vec<u64>>, periods: usize) -> bool
    ensures { IsTrue result ↔ IfSome list.now (λ costs. IsSeries periods MAX_AMOUNT costs.items) }
{
    match list {
        Some(costs) => is_series(costs, periods),
        None => true,
    }
}

// Whether the net demands add to at most `MAX_TOTAL`.
fn is_small_in_all(single: &SingleItem) -> bool
    ensures { IsTrue result ↔ (sum_to (period_count (single_of_item single.now))
        (net_demand (single_of_item single.now)) ≤ MAX_TOTAL) }
{
    let mut sum = 0u128;
    for period in 0..single.net.len() {
        let net = single.net[period];
        if net > u128::from(MAX_TOTAL) - sum {
            return false;
        }
        sum += net;
    }
    true
}

/// Whether an item is within the bounds that the recursions ask for: at most `MAX_PERIODS` periods, an
/// entry for each in every list, no cost above `MAX_AMOUNT`, and net demands that add to at most `MAX_TOTAL`.
pub fn is_within_bounds(single: &SingleItem) -> bool
    ensures { IsTrue result ↔ IsWithinBounds (single_of_item single.now) }
{
    let periods = single.net.len();
    let costs = is_series(&single.setup, periods) && is_series(&single.unit, periods);
    let kept = is_series(&single.hold, periods) && is_optional_series(&single.back, periods);
    periods <= MAX_PERIODS as usize && costs && kept && is_small_in_all(single)
}

/// The positions: the periods with a net demand, in order. The error is that memory ran out.
pub fn positions(alloc: Global, single: &SingleItem) -> Result<Vec<u32>, AllocError>
    requires within { IsWithinBounds (single_of_item single.now) }
    ensures positions { IfOk result (λ periods. periods.items
        ≡ positions (single_of_item single.now)) }
{
    let mut periods = Vec::new(alloc);
    for period in 1..single.net.len() as u32 + 1 {
        if single.net[(period - 1) as usize] != 0 {
            periods.push(period)?;
        }
    }
    Ok(periods)
}
