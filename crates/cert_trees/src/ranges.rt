// What a path leaves to a quantity or a setup.
ghost use Rattle.std.specs.Prelude.{◌≡◌, ◌↔◌, ◌+◌, ◌<◌, ◌^◌, IfSome, IsSome, IsTrue};
ghost use Rattle.cert_trees.specs.Spans.{span_of};
ghost use Rattle.cert_trees.specs.Ranges.{IsChoice, WithTotals, whole_ranges};
ghost use Rattle.cert_trees.specs.Paths.{HasNumbersLeft, IsRangeLeft, left_to, narrowed};
ghost use Rattle.cert_trees.specs.Trees.{IsSplit};

use lin_rows::{Bound, Column, is_cell};
use lot_model::Instance;

// The range from which a quantity or a setup starts.
fn whole_range(instance: &Instance, column: Column) -> Option<(u64, u64)>
    ensures some { IsSome result ↔ IsChoice instance.now column }
    ensures range { IfSome result (λ range.
        WithTotals instance.now (λ total. span_of range ≡ whole_ranges total column)) }
{
    match column {
        Column::X { item, period } if is_cell(instance, item, period) => {
            Some((0, instance.largest_total(item)))
        }
        Column::Y { item, period } if is_cell(instance, item, period) => Some((0, 1)),
        _ => None,
    }
}

// What a bound leaves of a column's range.
fn narrow(range: (u64, u64), bound: Bound, column: Column) -> (u64, u64)
    ensures { span_of result ≡ narrowed (span_of range) bound column }
{
    let (low, high) = range;
    if bound.column != column {
        return range;
    }
    if bound.most {
        (low, high.min(bound.number))
    } else {
        (low.max(bound.number), high)
    }
}

// What the bounds of a path leave of it.
fn left_to(range: (u64, u64), path: &[Bound], column: Column) -> (u64, u64)
    ensures { span_of result ≡ left_to (span_of range) path.now column }
{
    let mut left = range;
    for bound in path {
        left = narrow(left, *bound, column);
    }
    left
}

/// The lowest and the highest number that a path leaves to a quantity or a setup, in units or in setups. The
/// quantity starts from 0 to its item's largest total, and the setup from 0 to 1. None exactly where the
/// column is no quantity and no setup of the instance.
///
/// A number is in the range (`numbers`) exactly where it is in the one from which the column starts and meets
/// each bound of the path on this column. On a path that is not one of a split tree the lowest number may be
/// above the highest.
///
/// It takes time in the length of the path, and no memory.
pub fn branch_range(instance: &Instance, path: &[Bound], column: Column) -> Option<(u64, u64)>
    ensures some { IsSome result ↔ IsChoice instance.now column }
    ensures range { IfSome result (IsRangeLeft instance.now path.now column) }
    ensures numbers { IfSome result (HasNumbersLeft instance.now path.now column) }
{
    let range = whole_range(instance, column)?;
    Some(left_to(range, path, column))
}

/// Whether a branch on a column splits what its path leaves in two parts, neither of them empty: the column is
/// a quantity or a setup of the instance, and `at` is at least the lowest number that is left to it and less
/// than the highest. Then the next number is one of 64 bits (`small`).
///
/// It takes time in the length of the path, and no memory.
pub fn is_split(instance: &Instance, path: &[Bound], column: Column, at: u64) -> bool
    ensures split { WithTotals instance.now
        (λ total. IsTrue result ↔ IsSplit instance.now (whole_ranges total) path.now column at) }
    ensures column { IsTrue result → IsChoice instance.now column }
    ensures small { IsTrue result → at + 1 < 2 ^ 64 }
{
    match branch_range(instance, path, column) {
        Some((low, high)) => low <= at && at < high,
        None => false,
    }
}
