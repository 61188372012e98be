// The own-period plan.
ghost use Rattle.std.specs.Prelude.{◌≡◌, ◌≤◌, ◌+◌, ◌-◌, ◌*◌, ◌==◌, if◌then◌else◌, length};
ghost use Rattle.lot_sizing.specs.Problem.{EachItem, entry, item_at, item_count, per_unit};
ghost use Rattle.lot_sizing.specs.Net.{needed_to};
ghost use Rattle.lot_sizing.specs.Totals.{IsRanking};
ghost use Rattle.lot_sizing.specs.declared.limits.TheConstants.{MAX_AMOUNT, MAX_PERIODS, MAX_TOTAL};
ghost use Rattle.lot_model.specs.Views.{IsInstance};
ghost use Rattle.plan_rules.specs.Cells.{Fits, table_of};
ghost use Rattle.plan_rules.specs.Held.{plan_of, most_used_up};
ghost use Rattle.plan_rules.specs.Rows.{IfFound, IfNoneFound};
ghost use Rattle.own_plan.specs.OwnPeriod.{HasOwnPeriod, IsOwnPeriod, asked_with, one_if_some};
ghost use Rattle.own_plan.specs.Made.{CostsAsOwn, IsMade};
ghost use Rattle.own_plan.specs.Rows.{AreOwnRows, IsOwnRow, IsRowMade};

use lot_model::{Instance, is_plain};
use plan_rules::{Grid, Planned, complete_at_cost, used_up};
use std::alloc::{AllocError, Global};

/// What must have been made of an item up to a period, in units, where so much of it has been asked for by then: that and, in
/// the last period, the stock required in the end, less the opening stock; at least 0.
///
/// It takes no memory.
pub fn needed_by(instance: &Instance, item: u32, period: u32, asked: u128) -> u128
    requires low { 1 ≤ item }
    requires high { item ≤ item_count instance.now }
    requires small { asked ≤ (MAX_PERIODS + 1) * (MAX_AMOUNT + most_used_up) }
    ensures { result
        ≡ (asked + (if period
        == instance.now.periods then (item_at instance.now item).end_min else 0))
        - (item_at instance.now item).opening }
{
    let end_min = if period == instance.periods() {
        instance.end_min(item)
    } else {
        0
    };
    (asked + end_min as u128).saturating_sub(instance.opening(item) as u128)
}

// The setup that a lot takes.
fn setup_of(lot: u128) -> u64
    ensures { result ≡ one_if_some lot }
{
    if lot == 0 { 0 } else { 1 }
}

// Puts the lots of an item in its row, each in the period that asks for it, and the setups that they take.
// The rows of the items that it goes into stand by then.
fn fill_row(instance: &Instance, item: u32, make: &mut Grid, setup: &mut Grid)
    requires low { 1 ≤ item }
    requires high { item ≤ item_count instance.now }
    requires make { Fits instance.now make.old }
    requires setup { Fits instance.now setup.old }
    requires small { needed_to (asked_with instance.now (table_of make.old) item)
        instance.now.periods ≤ MAX_TOTAL }
    requires apart { per_unit instance.now item item ≡ 0 }
    ensures { IsRowMade instance.now item make.old setup.old make.new setup.new }
{
    let mut asked = 0u128;
    let mut made = 0u128;
    for period in 1..instance.periods() + 1 {
        asked += instance.demand(item, period) as u128 + used_up(instance, make, item, period);
        let lot = needed_by(instance, item, period, asked).saturating_sub(made);
        make.set(item, period, lot as u64);
        setup.set(item, period, setup_of(lot));
        made += lot;
    }
}

// Fills the row of an item if it is of a rank, once those of lower ranks are filled.
fn fill_of_rank(
    instance: &Instance,
    ranks: &[u32],
    rank: u32,
    item: u32,
    make: &mut Grid,
    setup: &mut Grid,
)
    requires within { IsInstance instance.now }
    requires size { length ranks.now ≡ item_count instance.now }
    requires ranks { IsRanking instance.now (entry ranks.now) }
    requires low { 1 ≤ item }
    requires high { item ≤ item_count instance.now }
    requires before { AreOwnRows instance.now (entry ranks.now) rank item make.old setup.old }
    ensures { AreOwnRows instance.now (entry ranks.now) rank (item + 1) make.new setup.new }
{
    if ranks[(item - 1) as usize] == rank {
        fill_row(instance, item, make, setup);
    }
}

// Fills the rows of all items of a rank.
fn fill_rank(instance: &Instance, ranks: &[u32], rank: u32, make: &mut Grid, setup: &mut Grid)
    requires size { length ranks.now ≡ item_count instance.now }
    requires ranks { IsRanking instance.now (entry ranks.now) }
    requires before { AreOwnRows instance.now (entry ranks.now) rank 1 make.old setup.old }
    ensures { AreOwnRows instance.now (entry ranks.now) (rank + 1) 1 make.new setup.new }
{
    for item in 1..instance.items() + 1 {
        fill_of_rank(instance, ranks, rank, item, make, setup);
    }
}

/// Puts the lots of all items in their rows, items before their components: each lot in the period that asks for it, and a
/// setup where there is a lot.
///
/// The grids have a number for each item and period, in units and setups; what stands there before is of no account. It takes
/// no memory, and time in the square of the number of items times that of periods.
pub fn fill_own_lots(instance: &Instance, make: &mut Grid, setup: &mut Grid)
    requires make { Fits instance.now make.old }
    requires setup { Fits instance.now setup.old }
    ensures make { Fits instance.now make.new }
    ensures setup { Fits instance.now setup.new }
    ensures rows { EachItem instance.now
        (IsOwnRow instance.now (table_of make.new) (table_of setup.new)) }
{
    let ranks = instance.ranks();
    for rank in 0..instance.items() + 1 {
        fill_rank(instance, ranks, rank, make, setup);
    }
}

/// The own-period plan with its cost, if it is feasible: items before their components, each lot in the
/// period that asks for it. None exactly where it isn't feasible, or an item has a lead time, a least lot or
/// a largest lot.
///
/// It takes memory for four grids, and time in the square of the number of items times that of periods and of
/// the lines of components. The error is that memory ran out.
pub fn own_period_plan(alloc: Global, instance: &Instance) -> Result<Option<Planned>, AllocError>
    ensures plan { IfFound result (IsMade instance.now) }
    ensures own { IfFound result (λ p. IsOwnPeriod instance.now (plan_of p.plan)) }
    ensures one { IfFound result (CostsAsOwn instance.now) }
    ensures none { IfNoneFound result (HasOwnPeriod instance.now → ⊥) }
{
    if !is_plain(instance) {
        return Ok(None);
    }
    let mut make = Grid::filled(alloc, instance.items(), instance.periods(), 0)?;
    let mut setup = Grid::filled(alloc, instance.items(), instance.periods(), 0)?;
    fill_own_lots(instance, &mut make, &mut setup);
    complete_at_cost(alloc, instance, make, setup)
}
