// Units of each item in one unit of each item.
ghost use Rattle.std.specs.Prelude.{◌≤◌};
ghost use Rattle.lot_sizing.specs.Problem.{item_count};

use integer_grids::IntegerGrid;
use integer_grids::numbers::of_amount;
use lot_model::Instance;
use std::alloc::{AllocError, Global};

// The units of all items in one unit of an item: itself once, and those of its components, whose lines are there.
fn write_line(
    alloc: Global,
    instance: &Instance,
    weights: &mut IntegerGrid,
    item: u32,
) -> Result<(), AllocError> {
    if item < 1 || item > instance.items() {
        return Ok(());
    }
    weights.put(item, item, 1);
    for need in instance.needs(item) {
        let part = weights.line(need.item).to_vec(alloc)?;
        weights.add_times(item, &part, of_amount(need.quantity));
    }
    Ok(())
}

/// A line for each item, which has for each item the units of it in one unit of the line's item. In `order` each item comes before
/// its components. The error is that memory ran out. It takes time in the number of items times that of lines of components.
pub(crate) fn weights_of(
    alloc: Global,
    instance: &Instance,
    order: &[u32],
) -> Result<IntegerGrid, AllocError> {
    let mut weights = IntegerGrid::zero(alloc, instance.items(), instance.items())?;
    for item in order.iter().rev() {
        write_line(alloc, instance, &mut weights, *item)?;
    }
    Ok(weights)
}
