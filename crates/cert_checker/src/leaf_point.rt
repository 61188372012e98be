// What a leaf says whose path leaves each quantity and each setup one value.
ghost use Rattle.std.specs.Prelude.{◌≡◌, ◌≤◌, ℕ, List, false, IfErr, IfOk, IfSome, IsNone, IsTrue};
ghost use Rattle.lot_sizing.specs.Plan.{EachCell};
ghost use Rattle.lot_sizing.specs.Problem.{item_count};
ghost use Rattle.lin_rows.specs.Columns.{IsCell};
ghost use Rattle.lin_rows.specs.Rows.{LinRow};
ghost use Rattle.plan_rules.specs.Cells.{Fits, SameApart, table_of};
ghost use Rattle.plan_rules.specs.Rows.{OtherRowsSame};
ghost use Rattle.cert_lines.specs.Shapes.{PointLeaf};
ghost use Rattle.cert_trees.specs.Paths.{left_by};
ghost use Rattle.cert_trees.specs.Ranges.{IsChoice, WithTotals, whole_ranges};
ghost use Rattle.cert_meaning.specs.Named.{names};
ghost use Rattle.cert_meaning.specs.Says.{HasOneValue, Says};
ghost use Rattle.cert_checker.specs.Leaves.{HasOpenChoice, IfRejected, IsLeftOne, IsPointAt, IsPointFault};

use crate::{CheckFault, Rejected, Why};
use cert_meaning::LeafSays;
use cert_trees::branch_range;
use lin_rows::{Bound, Column};
use lot_model::Instance;
use plan_rules::{Grid, complete_at_cost};
use std::alloc::Global;

// The value that a path leaves to a quantity or a setup, if it is one.
fn one_value(instance: &Instance, path: &[Bound], column: Column) -> Option<u64>
    requires { IsChoice instance.now column }
    ensures some { IfSome result (λ value.
        WithTotals instance.now (λ total. IsLeftOne total path.now column value)) }
    ensures none { IsNone result → WithTotals instance.now
        (λ total. HasOneValue (left_by (whole_ranges total) path.now column) → ⊥) }
{
    let (low, high) = branch_range(instance, path, column)?;
    if low == high { Some(low) } else { None }
}

// Puts the values of an item and a period into the grids, if the path leaves one of each.
fn fill_cell(
    instance: &Instance,
    path: &[Bound],
    item: u32,
    period: u32,
    make: &mut Grid,
    setup: &mut Grid,
) -> bool
    requires cell { IsCell instance.now item period }
    requires make { Fits instance.now make.old }
    requires setup { Fits instance.now setup.old }
    ensures make { Fits instance.now make.new }
    ensures setup { Fits instance.now setup.new }
    ensures here { IsTrue result → WithTotals instance.now
        (λ total. IsPointAt total path.now (table_of make.new) (table_of setup.new) item period) }
    ensures other_quantities { SameApart make.old make.new item period }
    ensures other_setups { SameApart setup.old setup.new item period }
    ensures open { result ≡ false → HasOpenChoice instance.now path.now }
{
    let Some(quantity) = one_value(instance, path, Column::X { item, period }) else {
        return false;
    };
    let Some(choice) = one_value(instance, path, Column::Y { item, period }) else {
        return false;
    };
    make.set(item, period, quantity);
    setup.set(item, period, choice);
    true
}

// Puts the values of an item in each period into the grids, if the path leaves one of each.
fn fill_item(
    instance: &Instance,
    path: &[Bound],
    item: u32,
    make: &mut Grid,
    setup: &mut Grid,
) -> bool
    requires low { 1 ≤ item }
    requires high { item ≤ item_count instance.now }
    requires make { Fits instance.now make.old }
    requires setup { Fits instance.now setup.old }
    ensures make { Fits instance.now make.new }
    ensures setup { Fits instance.now setup.new }
    ensures row { IsTrue result → WithTotals instance.now (λ total. (t : ℕ) → 1 ≤ t
        → t ≤ instance.now.periods
        → IsPointAt total path.now (table_of make.new) (table_of setup.new) item t) }
    ensures other_quantities { OtherRowsSame make.old make.new item }
    ensures other_setups { OtherRowsSame setup.old setup.new item }
    ensures open { result ≡ false → HasOpenChoice instance.now path.now }
{
    for period in 1..instance.periods() + 1 {
        if !fill_cell(instance, path, item, period, make, setup) {
            return false;
        }
    }
    true
}

// Puts the values of each item and period into the grids, if the path leaves one of each.
fn fill(instance: &Instance, path: &[Bound], make: &mut Grid, setup: &mut Grid) -> bool
    requires make { Fits instance.now make.old }
    requires setup { Fits instance.now setup.old }
    ensures make { Fits instance.now make.new }
    ensures setup { Fits instance.now setup.new }
    ensures cells { IsTrue result → WithTotals instance.now
        (λ total. EachCell instance.now
        (IsPointAt total path.now (table_of make.new) (table_of setup.new))) }
    ensures open { result ≡ false → HasOpenChoice instance.now path.now }
{
    for item in 1..instance.items() + 1 {
        if !fill_item(instance, path, item, make, setup) {
            return false;
        }
    }
    true
}

// What a leaf says without a sum: the least cost of the feasible plans that have the one value that the path
// leaves to each quantity and each setup, or that there is none. It is refused (`NotPoint`) where the path leaves
// one of them more or fewer values. It takes time in the number of columns times the length of the path, and
// memory for four grids.
pub(crate) fn point_leaf(
    alloc: Global,
    instance: &Instance,
    path: &[Bound],
    line: u64,
) -> Result<LeafSays, CheckFault>
    ensures says { IfOk result (λ says. WithTotals instance.now (λ total. (cuts : List LinRow)
        → Says (names instance.now total cuts path.now) (whole_ranges total) PointLeaf says)) }
    ensures fault { IfErr result (λ fault. IfRejected fault (λ at why. WithTotals instance.now
        (λ total. (cuts : List LinRow)
        → IsPointFault (names instance.now total cuts path.now) (whole_ranges total) line at
        why))) }
{
    let mut make = Grid::filled(alloc, instance.items(), instance.periods(), 0)?;
    let mut setup = Grid::filled(alloc, instance.items(), instance.periods(), 0)?;
    if !fill(instance, path, &mut make, &mut setup) {
        let why = Why::NotPoint;
        return Err(CheckFault::Rejected(Rejected { line, why }));
    }
    match complete_at_cost(alloc, instance, make, setup)? {
        Some(planned) => Ok(LeafSays::AtLeast(planned.cost)),
        None => Ok(LeafSays::NoPlan),
    }
}
