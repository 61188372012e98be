// What columns cost, by their numbers.
ghost use Rattle.std.specs.Prelude.{◌≡◌, ◌≤◌, IfOk};
ghost use Rattle.lot_sizing.specs.Problem.{IsWithinLimits};
ghost use Rattle.lin_rows.specs.Columns.{column_count};
ghost use Rattle.lp_relaxation.specs.Costs.{AreCosts, IsCostAt};

use lin_rows::{column_at, column_cost, column_count};
use lot_model::Instance;
use std::alloc::{AllocError, Global};

// What one of the column of a number costs.
fn cost_at(instance: &Instance, number: u32) -> u64
    requires limits { IsWithinLimits instance.now }
    requires low { 1 ≤ number }
    requires high { number ≤ column_count instance.now }
    ensures { IsCostAt instance.now number result }
{
    match column_at(instance, number) {
        Some(column) => column_cost(instance, column),
        // There are at least so many columns.
        None => unreachable!(),
    }
}

/// What one of each column costs, by the columns' numbers. It takes time in the number of columns times that of
/// items; the error is that memory ran out.
pub fn column_costs(alloc: Global, instance: &Instance) -> Result<Vec<u64>, AllocError>
    ensures { IfOk result (λ costs. AreCosts instance.now costs.items) }
{
    // At most four columns for each item and period.
    let cells = instance.items() * instance.periods();
    let mut costs = Vec::with_capacity(alloc, 4 * cells as usize)?;
    for number in 1..column_count(instance) + 1 {
        costs.push(cost_at(instance, number))?;
    }
    Ok(costs)
}
