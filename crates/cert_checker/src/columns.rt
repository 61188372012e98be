// The first column whose sum is too large.
ghost use Rattle.std.specs.Prelude.{◌≡◌, ◌↔◌, ◌*ℤ◌, ◌≤ℤ◌, pos, true, false, IfSome, IsNone, IsTrue};
ghost use Rattle.lin_rows.specs.declared.column.Column.{Column};
ghost use Rattle.lin_rows.specs.Columns.{IsColumn};
ghost use Rattle.lin_rows.specs.Sums.{item_of, period_of};
ghost use Rattle.cert_checker.specs.Named.{IsAny, IsFirstLarge, IsLarge, IsOfItem, IsOfKind, IsWithinCost};

use lin_rows::{Column, Sums, column_cost, is_cell};
use lot_model::Instance;

// The kinds of columns, in their order.
#[derive(Clone, Copy, Debug)]
enum Kind {
    X,
    Y,
    S,
    R,
}

// Whether the instance has a column.
fn has_column(instance: &Instance, column: Column) -> bool
    ensures { IsTrue result ↔ IsColumn instance.now column }
{
    match column {
        Column::X { item, period } | Column::Y { item, period } | Column::S { item, period } => {
            is_cell(instance, item, period)
        }
        Column::R { item, period } => {
            is_cell(instance, item, period)
                && period < instance.periods()
                && instance.has_backlog_cost(item)
        }
    }
}

// Whether a sum is at most so many times a cost. A product past 128 bits is more than any sum.
fn is_at_most(sum: i128, den: i128, cost: u64) -> bool
    requires { pos 0 ≤ℤ den }
    ensures { IsTrue result ↔ (sum ≤ℤ (den *ℤ pos cost)) }
{
    match den.checked_mul(cost as i128) {
        Some(most) => sum <= most,
        None => true,
    }
}

// Whether the sum of a column is at most so many times its cost, where the instance has the column.
fn is_within_cost(instance: &Instance, sums: &Sums, den: i128, column: Column) -> bool
    requires { pos 0 ≤ℤ den }
    ensures within { result ≡ true → IsWithinCost instance.now den sums.now column }
    ensures large { result ≡ false → IsLarge instance.now den sums.now column }
{
    if !has_column(instance, column) {
        return true;
    }
    is_at_most(sums.column(column), den, column_cost(instance, column))
}

// The column of a kind.
fn column_of(kind: Kind, item: u32, period: u32) -> Column
    ensures kind { IsOfKind kind result }
    ensures item { item_of result ≡ item }
    ensures period { period_of result ≡ period }
{
    match kind {
        Kind::X => Column::X { item, period },
        Kind::Y => Column::Y { item, period },
        Kind::S => Column::S { item, period },
        Kind::R => Column::R { item, period },
    }
}

// The first one of an item's columns of a kind.
fn first_of_item(
    instance: &Instance,
    sums: &Sums,
    den: i128,
    kind: Kind,
    item: u32,
) -> Option<Column>
    requires den { pos 0 ≤ℤ den }
    ensures some { IfSome result (IsFirstLarge instance.now den sums.now (IsOfItem kind item)) }
    ensures none { IsNone result → (c : Column) → IsOfItem kind item c
        → IsWithinCost instance.now den sums.now c }
{
    for period in 1..instance.periods() + 1 {
        let column = column_of(kind, item, period);
        if !is_within_cost(instance, sums, den, column) {
            return Some(column);
        }
    }
    None
}

// The first one of the columns of a kind.
fn first_of_kind(instance: &Instance, sums: &Sums, den: i128, kind: Kind) -> Option<Column>
    requires den { pos 0 ≤ℤ den }
    ensures some { IfSome result (IsFirstLarge instance.now den sums.now (IsOfKind kind)) }
    ensures none { IsNone result → (c : Column) → IsOfKind kind c
        → IsWithinCost instance.now den sums.now c }
{
    for item in 1..instance.items() + 1 {
        match first_of_item(instance, sums, den, kind, item) {
            Some(column) => return Some(column),
            None => {}
        }
    }
    None
}

// The first column of the instance, by kind, then by item, then by period, whose sum is more than so many times
// its cost. It takes time in the number of columns, and no memory.
pub(crate) fn first_large(instance: &Instance, sums: &Sums, den: i128) -> Option<Column>
    requires { pos 0 ≤ℤ den }
    ensures some { IfSome result (IsFirstLarge instance.now den sums.now IsAny) }
    ensures none { IsNone result → (c : Column) → IsWithinCost instance.now den sums.now c }
{
    if let Some(column) = first_of_kind(instance, sums, den, Kind::X) {
        return Some(column);
    }
    if let Some(column) = first_of_kind(instance, sums, den, Kind::Y) {
        return Some(column);
    }
    if let Some(column) = first_of_kind(instance, sums, den, Kind::S) {
        return Some(column);
    }
    first_of_kind(instance, sums, den, Kind::R)
}
