// The stocks and backlogs that go with given quantities, and the first rule that is broken with them.
ghost use Rattle.std.specs.Prelude.{◌≡◌, ◌≤◌, ◌<◌, ◌^◌, ℕ, IfErr, IfOk};
ghost use Rattle.lot_sizing.specs.Problem.{item_count};
ghost use Rattle.lot_sizing.specs.Plan.{EachCell, IsFeasible, cost};
ghost use Rattle.lot_model.specs.Views.{IsInstance};
ghost use Rattle.plan_rules.specs.Cells.{Fits, table_of};
ghost use Rattle.plan_rules.specs.Held.{AllFit, plan_of};
ghost use Rattle.plan_rules.specs.Rows.{HasChosen, HasNoPlan, IsLeastWith, OtherRowsSame};
ghost use Rattle.lot_quantities.specs.Completed.{HasCapped, IfCompleted, IfRefused, IsCapped, IsRefused};

use lot_model::Instance;
use plan_rules::{Broken, Grid, Plan, Planned, arriving, judge, used_up};
use std::alloc::{AllocError, Global};

// A number as far as it fits 64 bits.
fn capped(number: u128) -> u64
    ensures { IsCapped number result }
{
    if number > u64::MAX as u128 {
        return u64::MAX;
    }
    number as u64
}

// Fills an item's row of stocks and backlogs with the least ones, as far as they fit.
fn fill_item(instance: &Instance, make: &Grid, item: u32, stock: &mut Grid, backlog: &mut Grid)
    requires make { Fits instance.now make.now }
    requires stock { Fits instance.now stock.old }
    requires backlog { Fits instance.now backlog.old }
    requires low { 1 ≤ item }
    requires high { item ≤ item_count instance.now }
    ensures stock { Fits instance.now stock.new }
    ensures backlog { Fits instance.now backlog.new }
    ensures row { (t : ℕ) → 1 ≤ t → t ≤ instance.now.periods
        → HasCapped instance.now (table_of make.now) (table_of stock.new) (table_of backlog.new)
        item t }
    ensures other_stocks { OtherRowsSame stock.old stock.new item }
    ensures other_backlogs { OtherRowsSame backlog.old backlog.new item }
{
    let mut supply = instance.opening(item) as u128;
    let mut outflow = 0u128;
    for period in 1..instance.periods() + 1 {
        supply += arriving(instance, make, item, period) as u128;
        outflow += instance.demand(item, period) as u128 + used_up(instance, make, item, period);
        let there = supply.saturating_sub(outflow);
        let late = outflow.saturating_sub(supply);
        let left = capped(there);
        let owed = capped(late);
        stock.set(item, period, left);
        backlog.set(item, period, owed);
    }
}

// Fills all rows of stocks and backlogs with the least ones, as far as they fit.
fn fill(instance: &Instance, make: &Grid, stock: &mut Grid, backlog: &mut Grid)
    requires make { Fits instance.now make.now }
    requires stock { Fits instance.now stock.old }
    requires backlog { Fits instance.now backlog.old }
    ensures stock { Fits instance.now stock.new }
    ensures backlog { Fits instance.now backlog.new }
    ensures rows { EachCell instance.now
        (HasCapped instance.now (table_of make.now) (table_of stock.new) (table_of backlog.new)) }
    ensures instance { IsInstance instance.now }
{
    for item in 1..instance.items() + 1 {
        fill_item(instance, make, item, stock, backlog);
    }
}

// The feasible plan with these quantities and setups and the least stocks and backlogs, which are put in the other two
// grids, or the first rule that is broken with them. It is given no allocator, so out of memory can't stand in for it.
fn finish(
    instance: &Instance,
    make: Grid,
    setup: Grid,
    mut stock: Grid,
    mut backlog: Grid,
) -> Result<Planned, Broken>
    requires make { Fits instance.now make }
    requires setup { Fits instance.now setup }
    requires stock { Fits instance.now stock }
    requires backlog { Fits instance.now backlog }
    ensures choice { IfOk result (λ p. HasChosen make setup p.plan) }
    ensures fits { IfOk result (λ p. AllFit instance.now p.plan) }
    ensures feasible { IfOk result (λ p. IsFeasible instance.now (plan_of p.plan)) }
    ensures least { IfOk result (λ p.
        IsLeastWith instance.now (table_of make) (table_of setup) (plan_of p.plan)) }
    ensures cost { IfOk result (λ p. p.cost ≡ cost instance.now (plan_of p.plan)) }
    ensures small { IfOk result (λ p. p.cost < 2 ^ 127) }
    ensures none { IfErr result (λ _. HasNoPlan instance.now (table_of make) (table_of setup)) }
    ensures broken { IfErr result (IsRefused instance.now (table_of make) (table_of setup)) }
{
    fill(instance, &make, &mut stock, &mut backlog);
    let plan = Plan {
        make,
        setup,
        stock,
        backlog,
    };
    match judge(instance, &plan) {
        Ok(cost) => Ok(Planned { plan, cost }),
        Err(rule) => Err(rule),
    }
}

/// The feasible plan with these quantities and setups and the least stocks and backlogs, and its cost in money. No
/// feasible plan with them has less stock or backlog, or costs less.
///
/// Where no feasible plan has them, the first rule that is broken with the least stocks and backlogs: of several, the
/// one that `Broken` names first, and there the first place. A stock or backlog that doesn't fit 64 bits counts as the
/// greatest that does, and the balance is then broken there. It takes memory for two grids, and time as `judge` does.
pub fn complete_or_judge(
    alloc: Global,
    instance: &Instance,
    make: Grid,
    setup: Grid,
) -> Result<Result<Planned, Broken>, AllocError>
    requires make { Fits instance.now make }
    requires setup { Fits instance.now setup }
    ensures choice { IfCompleted result (λ p. HasChosen make setup p.plan) }
    ensures fits { IfCompleted result (λ p. AllFit instance.now p.plan) }
    ensures feasible { IfCompleted result (λ p. IsFeasible instance.now (plan_of p.plan)) }
    ensures least { IfCompleted result
        (λ p. IsLeastWith instance.now (table_of make) (table_of setup) (plan_of p.plan)) }
    ensures cost { IfCompleted result (λ p. p.cost ≡ cost instance.now (plan_of p.plan)) }
    ensures small { IfCompleted result (λ p. p.cost < 2 ^ 127) }
    ensures none { IfRefused result (λ _. HasNoPlan instance.now (table_of make) (table_of setup)) }
    ensures broken { IfRefused result (IsRefused instance.now (table_of make) (table_of setup)) }
{
    let stock = Grid::filled(alloc, instance.items(), instance.periods(), 0)?;
    let backlog = Grid::filled(alloc, instance.items(), instance.periods(), 0)?;
    Ok(finish(instance, make, setup, stock, backlog))
}
