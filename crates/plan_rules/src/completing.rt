// The stocks and backlogs that go with given quantities.
ghost use Rattle.std.specs.Prelude.{◌≡◌, ◌≤◌, ◌<◌, ◌^◌, ℕ, IfSome, IfNone, IsTrue, false};
ghost use Rattle.lot_sizing.specs.Problem.{item_count};
ghost use Rattle.lot_sizing.specs.Plan.{IsFeasible, EachCell, cost};
ghost use Rattle.lot_model.specs.Views.{IsInstance};
ghost use Rattle.plan_rules.specs.Cells.{Fits, table_of};
ghost use Rattle.plan_rules.specs.Held.{AllFit, plan_of};
ghost use Rattle.plan_rules.specs.Rows.{HasLeast, HasChosen, IfFound, IfNoneFound, OtherRowsSame, IsTooLarge, HasTooLarge, IsLeastWith, HasNoPlan};

use crate::judging::judge;
use crate::{Grid, Plan, Planned, sums};
use lot_model::Instance;
use std::alloc::{AllocError, Global};

// Fills an item's row of stocks and backlogs with the least ones, if they fit.
fn fill_item(
    instance: &Instance,
    make: &Grid,
    item: u32,
    stock: &mut Grid,
    backlog: &mut Grid,
) -> bool
    requires make { Fits instance.now make.now }
    requires stock { Fits instance.now stock.old }
    requires backlog { Fits instance.now backlog.old }
    requires low { 1 ≤ item }
    requires high { item ≤ item_count instance.now }
    ensures stock { Fits instance.now stock.new }
    ensures backlog { Fits instance.now backlog.new }
    ensures row { IsTrue result → (t : ℕ) → 1 ≤ t → t ≤ instance.now.periods
        → HasLeast instance.now (table_of make.now) (table_of stock.new) (table_of backlog.new) item
        t }
    ensures other_stocks { OtherRowsSame stock.old stock.new item }
    ensures other_backlogs { OtherRowsSame backlog.old backlog.new item }
    ensures too_large { result ≡ false → (t : ℕ) × (1 ≤ t) × (t ≤ instance.now.periods)
        × IsTooLarge instance.now (table_of make.now) item t }
{
    let mut supply = instance.opening(item) as u128;
    let mut outflow = 0u128;
    for period in 1..instance.periods() + 1 {
        supply += sums::arriving(instance, make, item, period) as u128;
        outflow += instance.demand(item, period) as u128
            + sums::used_up(instance, make, item, period);
        let left = supply.saturating_sub(outflow);
        let owed = outflow.saturating_sub(supply);
        if left > u64::MAX as u128 || owed > u64::MAX as u128 {
            return false;
        }
        stock.set(item, period, left as u64);
        backlog.set(item, period, owed as u64);
    }
    true
}

// Fills all rows of stocks and backlogs with the least ones, if they fit.
fn fill(instance: &Instance, make: &Grid, stock: &mut Grid, backlog: &mut Grid) -> bool
    requires make { Fits instance.now make.now }
    requires stock { Fits instance.now stock.old }
    requires backlog { Fits instance.now backlog.old }
    ensures stock { Fits instance.now stock.new }
    ensures backlog { Fits instance.now backlog.new }
    ensures rows { IsTrue result → EachCell instance.now
        (HasLeast instance.now (table_of make.now) (table_of stock.new) (table_of backlog.new)) }
    ensures too_large { result ≡ false → HasTooLarge instance.now (table_of make.now) }
    ensures instance { IsInstance instance.now }
{
    for item in 1..instance.items() + 1 {
        if !fill_item(instance, make, item, stock, backlog) {
            return false;
        }
    }
    true
}

// The feasible plan with these quantities and setups and the least stocks and backlogs, which are put in
// the other two grids. It is given no allocator, so out of memory can't stand in for its answer.
fn finish(
    instance: &Instance,
    make: Grid,
    setup: Grid,
    mut stock: Grid,
    mut backlog: Grid,
) -> Option<Planned>
    requires make { Fits instance.now make }
    requires setup { Fits instance.now setup }
    requires stock { Fits instance.now stock }
    requires backlog { Fits instance.now backlog }
    ensures choice { IfSome result (λ p. HasChosen make setup p.plan) }
    ensures fits { IfSome result (λ p. AllFit instance.now p.plan) }
    ensures feasible { IfSome result (λ p. IsFeasible instance.now (plan_of p.plan)) }
    ensures least { IfSome result (λ p.
        IsLeastWith instance.now (table_of make) (table_of setup) (plan_of p.plan)) }
    ensures cost { IfSome result (λ p. p.cost ≡ cost instance.now (plan_of p.plan)) }
    ensures small { IfSome result (λ p. p.cost < 2 ^ 127) }
    ensures none { IfNone result (HasNoPlan instance.now (table_of make) (table_of setup)) }
{
    if !fill(instance, &make, &mut stock, &mut backlog) {
        return None;
    }
    let plan = Plan {
        make,
        setup,
        stock,
        backlog,
    };
    match judge(instance, &plan) {
        Ok(cost) => Some(Planned { plan, cost }),
        Err(_) => None,
    }
}

/// The feasible plan with these quantities and setups and the least stocks and backlogs, and its cost. No
/// feasible plan with them has less stock or backlog, or costs less. None exactly where no feasible plan
/// has them.
///
/// On None, and where memory runs out, the two grids are dropped. It takes memory for two grids, and time
/// as `judge` does.
pub fn complete_at_cost(
    alloc: Global,
    instance: &Instance,
    make: Grid,
    setup: Grid,
) -> Result<Option<Planned>, AllocError>
    requires make { Fits instance.now make }
    requires setup { Fits instance.now setup }
    ensures choice { IfFound result (λ p. HasChosen make setup p.plan) }
    ensures fits { IfFound result (λ p. AllFit instance.now p.plan) }
    ensures feasible { IfFound result (λ p. IsFeasible instance.now (plan_of p.plan)) }
    ensures least { IfFound result (λ p.
        IsLeastWith instance.now (table_of make) (table_of setup) (plan_of p.plan)) }
    ensures cost { IfFound result (λ p. p.cost ≡ cost instance.now (plan_of p.plan)) }
    ensures small { IfFound result (λ p. p.cost < 2 ^ 127) }
    ensures none { IfNoneFound result (HasNoPlan instance.now (table_of make) (table_of setup)) }
{
    let stock = Grid::filled(alloc, instance.items(), instance.periods(), 0)?;
    let backlog = Grid::filled(alloc, instance.items(), instance.periods(), 0)?;
    Ok(finish(instance, make, setup, stock, backlog))
}

/// The plan of `complete_at_cost` alone.
pub fn complete(
    alloc: Global,
    instance: &Instance,
    make: Grid,
    setup: Grid,
) -> Result<Option<Plan>, AllocError>
    requires make { Fits instance.now make }
    requires setup { Fits instance.now setup }
    ensures choice { IfFound result (λ plan. HasChosen make setup plan) }
    ensures feasible { IfFound result (λ plan. AllFit instance.now plan
        × IsFeasible instance.now (plan_of plan)) }
    ensures least { IfFound result (λ plan.
        IsLeastWith instance.now (table_of make) (table_of setup) (plan_of plan)) }
    ensures none { IfNoneFound result (HasNoPlan instance.now (table_of make) (table_of setup)) }
{
    match complete_at_cost(alloc, instance, make, setup)? {
        Some(planned) => Ok(Some(planned.plan)),
        None => Ok(None),
    }
}
