// Grids that are copied.
ghost use Rattle.std.specs.Prelude.{◌≤◌};
ghost use Rattle.lot_sizing.specs.Problem.{item_count};
ghost use Rattle.lot_sizing.specs.Least.{SameCells};
ghost use Rattle.plan_rules.specs.Cells.{Fits, table_of};
ghost use Rattle.heur_items.specs.Copied.{IsRowCopied};

use lot_model::Instance;
use plan_rules::Grid;

// Copies the row of an item.
fn copy_row(instance: &Instance, from: &Grid, to: &mut Grid, item: u32)
    requires from { Fits instance.now from.now }
    requires to { Fits instance.now to.old }
    requires low { 1 ≤ item }
    requires high { item ≤ item_count instance.now }
    ensures { IsRowCopied instance.now from.now to.old to.new item }
{
    for period in 1..instance.periods() + 1 {
        to.set(item, period, from.get(item, period));
    }
}

/// Copies the numbers of a grid into another one.
pub fn copy_grid(instance: &Instance, from: &Grid, to: &mut Grid)
    requires from { Fits instance.now from.now }
    requires to { Fits instance.now to.old }
    ensures fits { Fits instance.now to.new }
    ensures same { SameCells instance.now (table_of to.new) (table_of from.now) }
{
    for item in 1..instance.items() + 1 {
        copy_row(instance, from, to, item);
    }
}
