// Plans that are improved by making the lots of one item after the other anew.
ghost use Rattle.std.specs.Prelude.{◌≡◌, ◌≤◌, IfOk, OnOk};
ghost use Rattle.lot_sizing.specs.Problem.{item_count};
ghost use Rattle.plan_rules.specs.Cells.{Fits};
ghost use Rattle.plan_rules.specs.Rows.{IfFound};
ghost use Rattle.own_plan.specs.Made.{IsMade};
ghost use Rattle.heur_items.specs.Improved.{IsNoDearer};

use crate::copying::copy_grid;
use crate::task::{Task, amount_at};
use lot_model::Instance;
use plan_rules::{Grid, Planned, complete_at_cost};
use std::alloc::{AllocError, Global};

// The most times that the lots of all items are made anew, in both orders.
const ROUNDS: u32 = 2;

// Whether these are the lots of an item.
fn is_row(instance: &Instance, make: &Grid, item: u32, lots: &[u64]) -> bool
    requires make { Fits instance.now make.now }
    requires low { 1 ≤ item }
    requires high { item ≤ item_count instance.now }
{
    for period in 1..instance.periods() + 1 {
        if make.get(item, period) != amount_at(lots, period) {
            return false;
        }
    }
    true
}

// Puts lots and their setups in the row of an item.
fn put_row(instance: &Instance, item: u32, lots: &[u64], make: &mut Grid, setup: &mut Grid)
    requires low { 1 ≤ item }
    requires high { item ≤ item_count instance.now }
    requires make { Fits instance.now make.old }
    requires setup { Fits instance.now setup.old }
    ensures make { Fits instance.now make.new }
    ensures setup { Fits instance.now setup.new }
{
    for period in 1..instance.periods() + 1 {
        let lot = amount_at(lots, period);
        make.set(item, period, lot);
        setup.set(item, period, lot.min(1));
    }
}

// The plan with these lots of an item, if it is feasible.
fn plan_with_row(
    alloc: Global,
    instance: &Instance,
    planned: &Planned,
    item: u32,
    lots: &[u64],
) -> Result<Option<Planned>, AllocError>
    requires made { IsMade instance.now planned.now }
    requires low { 1 ≤ item }
    requires high { item ≤ item_count instance.now }
    ensures { IfFound result (IsMade instance.now) }
{
    let mut make = Grid::filled(alloc, instance.items(), instance.periods(), 0)?;
    let mut setup = Grid::filled(alloc, instance.items(), instance.periods(), 0)?;
    copy_grid(instance, &planned.plan.make, &mut make);
    copy_grid(instance, &planned.plan.setup, &mut setup);
    put_row(instance, item, lots, &mut make, &mut setup);
    complete_at_cost(alloc, instance, make, setup)
}

// The plan with other lots of an item, which cost least while the others stay, if that is feasible.
fn anew(
    alloc: Global,
    instance: &Instance,
    planned: &Planned,
    item: u32,
) -> Result<Option<Planned>, AllocError>
    requires made { IsMade instance.now planned.now }
    requires low { 1 ≤ item }
    requires high { item ≤ item_count instance.now }
    ensures { IfFound result (IsMade instance.now) }
{
    let task = Task::of(alloc, instance, planned, item)?;
    match task.lots(alloc)? {
        Some(lots) if !is_row(instance, &planned.plan.make, item, &lots) => {
            plan_with_row(alloc, instance, planned, item, &lots)
        }
        _ => Ok(None),
    }
}

// Makes the lots of an item anew, and keeps the plan if it is cheaper.
fn improve_item(
    alloc: Global,
    instance: &Instance,
    best: &mut Planned,
    item: u32,
) -> Result<(), AllocError>
    requires low { 1 ≤ item }
    requires high { item ≤ item_count instance.now }
    requires made { IsMade instance.now best.old }
    ensures { OnOk result (IsNoDearer instance.now best.old best.new) }
{
    let found = anew(alloc, instance, best, item)?;
    if let Some(planned) = found {
        if planned.cost < best.cost {
            *best = planned;
        }
    }
    Ok(())
}

// Makes the lots of each item of a rank anew, and keeps each plan that is cheaper.
fn improve_rank(
    alloc: Global,
    instance: &Instance,
    best: &mut Planned,
    rank: u32,
) -> Result<(), AllocError>
    requires made { IsMade instance.now best.old }
    ensures { OnOk result (IsNoDearer instance.now best.old best.new) }
{
    let ranks = instance.ranks();
    for item in 1..instance.items() + 1 {
        if ranks[(item - 1) as usize] == rank {
            improve_item(alloc, instance, best, item)?;
        }
    }
    Ok(())
}

// Makes the lots of each item anew, items before their components or after them, and keeps each plan that is cheaper.
fn improve_ranks(
    alloc: Global,
    instance: &Instance,
    best: &mut Planned,
    components_first: bool,
) -> Result<(), AllocError>
    requires made { IsMade instance.now best.old }
    ensures { OnOk result (IsNoDearer instance.now best.old best.new) }
{
    let last = instance.items();
    for step in 0..last + 1 {
        let rank = if components_first { last - step } else { step };
        improve_rank(alloc, instance, best, rank)?;
    }
    Ok(())
}

/// Makes the lots of one item after the other anew, items before their components and then after them, where that makes the
/// plan cheaper: those lots that cost least while all others stay, each for whole periods, with the time and the components
/// that the others leave. It is done again while that brings something.
///
/// The error is that memory ran out.
pub fn improve_by_items(
    alloc: Global,
    instance: &Instance,
    best: &mut Planned,
) -> Result<(), AllocError>
    requires made { IsMade instance.now best.old }
    ensures made { OnOk result (IsMade instance.now best.new) }
    ensures cheap { OnOk result (best.new.cost ≤ best.old.cost) }
{
    for _round in 0..ROUNDS {
        let before = best.cost;
        improve_ranks(alloc, instance, best, false)?;
        improve_ranks(alloc, instance, best, true)?;
        if best.cost == before {
            return Ok(());
        }
    }
    Ok(())
}
