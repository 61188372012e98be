// The first block over which potentials rise by more than it costs.
ghost use Rattle.std.specs.Prelude.{◌≡◌, ◌≤◌, ◌+◌, ◌-◌, ◌*◌, ◌^◌, length, IfOk};
ghost use Rattle.lot_sizing.specs.Sums.{sum_to};
ghost use Rattle.lot_sizing.specs.Problem.{AllAtMost, entry};
ghost use Rattle.lot_sizing.specs.Single.{position_count, potential};
ghost use Rattle.lot_sizing.specs.declared.limits.TheConstants.{MAX_PERIODS};
ghost use Rattle.echelon.specs.declared.net.TheConstants.{MAX_ASKED};
ghost use Rattle.echelon_rows.specs.Rows.{ArePriced, single_with};
ghost use Rattle.echelon_rows.specs.declared.limits.TheConstants.{MAX_PRICE, MAX_STEP};
ghost use Rattle.backlog_dp.specs.Broken.{IsFirstBrokenOrNone};
ghost use Rattle.backlog_dp.specs.Search.{BreaksOf, EndsAt, earlier_of, is_before};

use crate::costs::{UnitPrices, periods_of, serving_costs};
use crate::rising::{holds_for, may_serve};
use echelon::Block;
use std::alloc::{AllocError, Global};

// The potential before a position.
fn before(steps: &[u128], position: usize) -> u128
    requires low { 1 ≤ position }
    requires high { position ≤ length steps.now + 1 }
    ensures { result ≡ potential steps.now (position - 1) }
{
    if position == 1 {
        0
    } else {
        steps[position - 2]
    }
}

// The first position to which potentials rise by more than what a setup and the positions from one on cost.
fn ends_at(steps: &[u128], costs: &[u128], setup: u64, first: usize) -> Option<usize>
    requires steps { AllAtMost MAX_STEP steps.now }
    requires size { length costs.now ≡ length steps.now }
    requires costs { sum_to (length costs.now) (entry costs.now) ≤ MAX_PERIODS * MAX_STEP }
    requires low { 1 ≤ first }
    requires high { first ≤ length steps.now }
    ensures { EndsAt steps.now costs.now setup first (length steps.now) result }
{
    let mut cost = before(steps, first) + u128::from(setup);
    for last in first..steps.len() + 1 {
        cost += costs[last - 1];
        if steps[last - 1] > cost {
            return Some(last);
        }
    }
    None
}

// The first block of one server over which potentials rise by more than it costs, by trying all of them.
fn search_of(
    steps: &[u128],
    costs: &[u128],
    periods: &[u32],
    setup: u64,
    backlogged: bool,
    server: u32,
) -> Option<Block>
    requires steps { AllAtMost MAX_STEP steps.now }
    requires few { length steps.now ≤ MAX_PERIODS }
    requires size { length costs.now ≡ length steps.now }
    requires periods { length periods.now ≡ length steps.now }
    requires costs { sum_to (length costs.now) (entry costs.now) ≤ MAX_PERIODS * MAX_STEP }
    ensures { BreaksOf steps.now costs.now periods.now setup backlogged server (length steps.now)
        result }
{
    for first in 1..steps.len() + 1 {
        if may_serve(backlogged, server, periods[first - 1]) {
            if let Some(last) = ends_at(steps, costs, setup, first) {
                return Some(Block {
                    first: first as u32,
                    last: last as u32,
                    server,
                });
            }
        }
    }
    None
}

// The same, in one pass where there is no such block.
fn broken_of(
    steps: &[u128],
    costs: &[u128],
    periods: &[u32],
    setup: u64,
    backlogged: bool,
    server: u32,
) -> Option<Block>
    requires steps { AllAtMost MAX_STEP steps.now }
    requires few { length steps.now ≤ MAX_PERIODS }
    requires size { length costs.now ≡ length steps.now }
    requires periods { length periods.now ≡ length steps.now }
    requires costs { sum_to (length costs.now) (entry costs.now) ≤ MAX_PERIODS * MAX_STEP }
    ensures { BreaksOf steps.now costs.now periods.now setup backlogged server (length steps.now)
        result }
{
    if holds_for(steps, costs, periods, setup, backlogged, server) {
        None
    } else {
        search_of(steps, costs, periods, setup, backlogged, server)
    }
}

// Whether a block has earlier positions than another one.
fn is_before(one: Block, other: Block) -> bool
    ensures { result ≡ is_before one other }
{
    one.first < other.first || one.first == other.first && one.last < other.last
}

// Of two blocks the one with earlier positions, the first one where they are the same.
fn earlier(first: Option<Block>, second: Option<Block>) -> Option<Block>
    ensures { result ≡ earlier_of first second }
{
    match (first, second) {
        (None, other) => other,
        (Some(one), None) => Some(one),
        (Some(one), Some(other)) => {
            if is_before(other, one) {
                Some(other)
            } else {
                Some(one)
            }
        }
    }
}

/// The first block over which potentials rise by more than it costs, by its first position, then by its last
/// one and then by its server; none where they rise over no block by more. The error is that memory ran out.
///
/// It takes time in the number of periods times that of positions and periods where there is none. A server with
/// such a block takes time in the square of the number of positions, so that all may take its product with the
/// number of periods.
pub fn first_broken(
    alloc: Global,
    net: &[u128],
    setup: &[u64],
    rates: &UnitPrices<'_>,
    steps: &[u128],
) -> Result<Option<Block>, AllocError>
    requires periods { length net.now ≤ MAX_PERIODS }
    requires setup { length setup.now ≡ length net.now }
    requires prices { ArePriced (length net.now) rates.now.unit.now rates.now.hold.now
        rates.now.back.now }
    requires net { sum_to (length net.now) (entry net.now) ≤ MAX_ASKED }
    requires size { length steps.now
        ≡ position_count (single_with net.now setup.now rates.now.unit.now rates.now.hold.now
        rates.now.back.now rates.now.backlogged) }
    requires steps { AllAtMost MAX_STEP steps.now }
    ensures { IfOk result (IsFirstBrokenOrNone
        (single_with net.now setup.now rates.now.unit.now rates.now.hold.now rates.now.back.now
        rates.now.backlogged) steps.now) }
{
    let list = periods_of(alloc, net)?;
    let periods = list.as_slice();
    let mut found: Option<Block> = None;
    for server in 1..net.len() as u32 + 1 {
        let costs = serving_costs(alloc, net, periods, rates, server)?;
        let fee = setup[server as usize - 1];
        let other = broken_of(steps, &costs, periods, fee, rates.backlogged, server);
        found = earlier(found, other);
    }
    Ok(found)
}
