// Plans of the setups that walks find.
ghost use Rattle.std.specs.Prelude.{◌≤◌, IfOk};
ghost use Rattle.lot_sizing.specs.Problem.{item_count};
ghost use Rattle.plan_rules.specs.Cells.{Fits};
ghost use Rattle.plan_rules.specs.Rows.{IfFound};
ghost use Rattle.own_plan.specs.Made.{IsMade};

use crate::frame::Frame;
use crate::walking::{Setups, Tour, walk};
use lot_model::Instance;
use plan_rules::{Grid, Planned};
use std::alloc::{AllocError, Global};
use work_clock::Deadline;

// Most items times periods of a model over whose setups walks go.
const MAX_WALK_CELLS: u64 = 400;

// The number of an item and a period, and 0 where the grid doesn't have them.
fn read(grid: &Grid, item: u32, period: u32) -> u64 {
    if item == 0 || item > grid.items() || period == 0 || period > grid.periods() {
        return 0;
    }
    grid.get(item, period)
}

// Puts the setups of an item after others.
fn put_row(
    instance: &Instance,
    setup: &Grid,
    item: u32,
    open: &mut Vec<bool>,
) -> Result<(), AllocError> {
    for period in 1..instance.periods() + 1 {
        open.push(read(setup, item, period) > 0)?;
    }
    Ok(())
}

// The setups of a plan, item after item.
fn setups_of(alloc: Global, instance: &Instance, setup: &Grid) -> Result<Vec<bool>, AllocError> {
    let mut open = Vec::new(alloc);
    for item in 1..instance.items() + 1 {
        put_row(instance, setup, item, &mut open)?;
    }
    Ok(open)
}

/// A plan with the cheapest setups that a walk of so many steps finds from these. The programs of the walk know no lead times and no
/// bounds on lots; what comes out is judged by all rules.
pub fn walked_setups(
    alloc: Global,
    instance: &Instance,
    setup: &Grid,
    seed: u64,
    steps: u32,
    until: Deadline,
) -> Result<Option<Planned>, AllocError>
    ensures { IfFound result (IsMade instance.now) }
{
    let cells = u64::from(instance.items()) * u64::from(instance.periods());
    if cells > MAX_WALK_CELLS {
        return Ok(None);
    }
    let frame = Frame::of(alloc, instance)?;
    if !frame.is_fit() {
        return Ok(None);
    }
    let open = setups_of(alloc, instance, setup)?;
    match frame.cost_of(alloc, &open, i64::MAX)? {
        Some(cost) => {
            let from = Setups { open, cost };
            let tour = Tour::new(instance, &frame, from, seed);
            walk(alloc, instance, tour, steps, until)
        }
        None => Ok(None),
    }
}
