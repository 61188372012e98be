// Plans of what walks find.
ghost use Rattle.std.specs.Prelude.{◌≤◌, ◌<◌};
ghost use Rattle.lot_sizing.specs.Problem.{item_count};
ghost use Rattle.plan_rules.specs.Cells.{Fits};
ghost use Rattle.plan_rules.specs.Rows.{IfFound};
ghost use Rattle.own_plan.specs.Made.{IsMade};

use crate::shop::Shop;
use crate::walking::{Best, walk_from};
use integer_grids::IntegerGrid;
use integer_grids::numbers::of_amount;
use lot_model::Instance;
use plan_rules::{Grid, Planned, complete_at_cost};
use std::alloc::{AllocError, Global};

// Puts the lots of an item in its row, and a setup where there is a lot.
fn put_row(instance: &Instance, lots: &IntegerGrid, item: u32, make: &mut Grid, setup: &mut Grid)
    requires low { 1 ≤ item }
    requires high { item ≤ item_count instance.now }
    requires make { Fits instance.now make.old }
    requires setup { Fits instance.now setup.old }
    ensures make { Fits instance.now make.new }
    ensures setup { Fits instance.now setup.new }
{
    for period in 1..instance.periods() + 1 {
        let lot = u64::try_from(lots.get(item, period)).unwrap_or(0);
        make.set(item, period, lot);
        setup.set(item, period, lot.min(1));
    }
}

// Puts the lots of all items in their rows.
fn put_rows(instance: &Instance, lots: &IntegerGrid, make: &mut Grid, setup: &mut Grid)
    requires make { Fits instance.now make.old }
    requires setup { Fits instance.now setup.old }
    ensures make { Fits instance.now make.new }
    ensures setup { Fits instance.now setup.new }
{
    for item in 1..instance.items() + 1 {
        put_row(instance, lots, item, make, setup);
    }
}

// The plan with these lots, if it is feasible.
fn plan_of_lots(
    alloc: Global,
    instance: &Instance,
    lots: &IntegerGrid,
) -> Result<Option<Planned>, AllocError>
    ensures { IfFound result (IsMade instance.now) }
{
    let mut make = Grid::filled(alloc, instance.items(), instance.periods(), 0)?;
    let mut setup = Grid::filled(alloc, instance.items(), instance.periods(), 0)?;
    put_rows(instance, lots, &mut make, &mut setup);
    complete_at_cost(alloc, instance, make, setup)
}

// The plan of what a walk found.
fn plan_of_best(
    alloc: Global,
    instance: &Instance,
    best: Option<Best>,
) -> Result<Option<Planned>, AllocError>
    ensures { IfFound result (IsMade instance.now) }
{
    match best {
        Some(best) => plan_of_lots(alloc, instance, &best.make),
        None => Ok(None),
    }
}

// Takes an item's lots from a plan.
fn take_row(instance: &Instance, planned: &Planned, item: u32, lots: &mut IntegerGrid)
    requires made { IsMade instance.now planned.now }
    requires low { 1 ≤ item }
    requires high { item ≤ item_count instance.now }
{
    for period in 1..instance.periods() + 1 {
        let lot = planned.plan.make.get(item, period);
        lots.put(item, period, of_amount(lot));
    }
}

// The lots of a plan.
fn lots_of(alloc: Global, instance: &Instance, planned: &Planned) -> Result<IntegerGrid, AllocError>
    requires made { IsMade instance.now planned.now }
{
    let mut lots = IntegerGrid::zero(alloc, instance.items(), instance.periods())?;
    for item in 1..instance.items() + 1 {
        take_row(instance, planned, item, &mut lots);
    }
    Ok(lots)
}

/// A feasible plan with its cost that a walk finds which begins without lots: lead times, least and largest lots, late demand
/// and the time of resources are kept to where it can. None where it finds none.
///
/// The random changes are begun with the seed. It may take so much work: about so many steps of the recursions of single items,
/// each for a period and what has been made so far. The error is that memory ran out.
pub fn lagged_plan(
    alloc: Global,
    instance: &Instance,
    seed: u64,
    work: u64,
) -> Result<Option<Planned>, AllocError>
    ensures plan { IfFound result (IsMade instance.now) }
{
    let shop = Shop::of(alloc, instance)?;
    let none = IntegerGrid::zero(alloc, instance.items(), instance.periods())?;
    let best = walk_from(alloc, &shop, none, true, seed, work)?;
    plan_of_best(alloc, instance, best)
}

// The quantity of an item and a period, and 0 where the grid doesn't have them.
fn read(grid: &Grid, item: u32, period: u32) -> u64 {
    if item == 0 || item > grid.items() || period == 0 || period > grid.periods() {
        return 0;
    }
    grid.get(item, period)
}

// Lots of an item.
fn read_row(instance: &Instance, make: &Grid, item: u32, lots: &mut IntegerGrid) {
    for period in 1..instance.periods() + 1 {
        lots.put(item, period, of_amount(read(make, item, period)));
    }
}

/// A feasible plan with its cost that a walk finds which begins with these lots, whatever rules they break; a quantity of an item
/// or period that the grid doesn't have is 0. None where it finds none.
///
/// Seed, work and error are those of `lagged_plan`.
pub fn repaired(
    alloc: Global,
    instance: &Instance,
    make: &Grid,
    seed: u64,
    work: u64,
) -> Result<Option<Planned>, AllocError>
    ensures plan { IfFound result (IsMade instance.now) }
{
    let shop = Shop::of(alloc, instance)?;
    let mut lots = IntegerGrid::zero(alloc, instance.items(), instance.periods())?;
    for item in 1..instance.items() + 1 {
        read_row(instance, make, item, &mut lots);
    }
    let best = walk_from(alloc, &shop, lots, false, seed, work)?;
    plan_of_best(alloc, instance, best)
}

/// A feasible plan that costs less than this one and that a walk from its lots finds, with its cost. None where it finds none.
///
/// Seed, work and error are those of `lagged_plan`.
pub fn improved_lagged(
    alloc: Global,
    instance: &Instance,
    planned: &Planned,
    seed: u64,
    work: u64,
) -> Result<Option<Planned>, AllocError>
    requires made { IsMade instance.now planned.now }
    ensures plan { IfFound result (IsMade instance.now) }
    ensures cheaper { IfFound result (λ p. p.cost < planned.now.cost) }
{
    let shop = Shop::of(alloc, instance)?;
    let lots = lots_of(alloc, instance, planned)?;
    let best = walk_from(alloc, &shop, lots, false, seed, work)?;
    match plan_of_best(alloc, instance, best)? {
        Some(found) if found.cost < planned.cost => Ok(Some(found)),
        _ => Ok(None),
    }
}
