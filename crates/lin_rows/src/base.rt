// The rows that the rules of plans make, by their names.
ghost use Rattle.std.specs.Prelude.{◌≡◌, ◌≤◌, ◌<◌, ◌+◌, ◌↔◌, ℕ, Some, neg_ℤ, pos, IfOk, IfErr, IsTrue};
ghost use Rattle.std.specs.List.{All};
ghost use Rattle.lot_sizing.specs.Problem.{item_at};
ghost use Rattle.lot_sizing.specs.Plan.{Plan, IsFeasible};
ghost use Rattle.lot_sizing.specs.Totals.{AreLargestTotals};
ghost use Rattle.lin_rows.specs.Columns.{IsCell, IsColumn};
ghost use Rattle.lin_rows.specs.Rows.{HoldsIn, IsSmallRow};
ghost use Rattle.lin_rows.specs.declared.fault.RowFault.TheVariants.{NoSuchRow};
ghost use Rattle.lin_rows.specs.Base.{HasRow, IsBaseRow, is_equality, right_side, row_of};
ghost use Rattle.lin_rows.specs.Texts.{name_text};
ghost use Rattle.lin_rows.specs.declared.base.RowName.TheVariants.{Balance, Least, Late};

use crate::Row;
use crate::fault::RowFault;
use crate::numbers::is_cell;
use crate::row_terms::{taken, terms_of};
use lot_model::Instance;
use lot_sizing::{totals_are_bounded, totals_are_one};
use std::alloc::Global;
use std::fmt;

/// The name of a row. Items, resources and periods are counted from 1.
#[derive(Clone, Copy, Debug, PartialEq, Eq)]
pub enum RowName {
    /// What is there of an item in a period and arrives goes into other items, to demand, or stays.
    Balance(u32, u32),
    /// An item is made in a period only with a setup, and no more than its largest total and its largest
    /// lot.
    Link(u32, u32),
    /// A resource has the time that is used in a period.
    Capacity(u32, u32),
    /// The last stock of an item is at least the least one.
    EndMin(u32),
    /// The last stock of an item is at most the largest one.
    EndMax(u32),
    /// There is at most one setup of an item in a period.
    Top(u32, u32),
    /// A setup of an item makes at least its least lot in a period, where that is above 0.
    Least(u32, u32),
    /// Nothing is made of an item in a period from which it would arrive after the last one.
    Late(u32, u32),
    /// A bound on the way to a leaf of a tree of branches, counted from the root.
    Path(u32),
    /// A cut of a certificate.
    Cut(u32),
}

impl fmt::Display for RowName {
    ghost output = { λ name. Some (name_text name) };

    fn fmt<W: fmt::Write>(&self, f: &mut fmt::Formatter<W>) -> fmt::Result {
        match self {
            RowName::Balance(item, period) => write!(f, "balance {item} {period}"),
            RowName::Link(item, period) => write!(f, "link {item} {period}"),
            RowName::Capacity(resource, period) => write!(f, "capacity {resource} {period}"),
            RowName::EndMin(item) => write!(f, "endmin {item}"),
            RowName::EndMax(item) => write!(f, "endmax {item}"),
            RowName::Top(item, period) => write!(f, "top {item} {period}"),
            RowName::Least(item, period) => write!(f, "least {item} {period}"),
            RowName::Late(item, period) => write!(f, "late {item} {period}"),
            RowName::Path(number) => write!(f, "path {number}"),
            RowName::Cut(number) => write!(f, "cut {number}"),
        }
    }
}

// The right side of a balance.
fn balance_right(instance: &Instance, item: u32, period: u32) -> i128
    requires cell { IsCell instance.now item period }
    ensures { result ≡ right_side instance.now (Balance item period) }
{
    let demand = instance.demand(item, period) as i128;
    if period == 1 {
        demand - instance.opening(item) as i128
    } else {
        demand
    }
}

// The right side of a row that the model has.
fn right_of(instance: &Instance, name: RowName) -> i128
    requires some { HasRow instance.now name }
    ensures { result ≡ right_side instance.now name }
{
    match name {
        RowName::Balance(item, period) => balance_right(instance, item, period),
        RowName::Capacity(resource, period) => taken(instance.capacity(resource, period)),
        RowName::EndMin(item) => instance.end_min(item) as i128,
        RowName::EndMax(item) => taken(instance.end_max(item)),
        RowName::Top(_, _) => -1,
        RowName::Link(_, _)
        | RowName::Least(_, _)
        | RowName::Late(_, _)
        | RowName::Path(_)
        | RowName::Cut(_) => 0,
    }
}

// Whether a row is an equation.
fn is_equality(name: RowName) -> bool
    ensures { result ≡ is_equality name }
{
    match name {
        RowName::Balance(_, _) => true,
        _ => false,
    }
}

// Whether a number is one of so many, counted from 1.
fn is_one_of(number: u32, count: u32) -> bool
    ensures { IsTrue result ↔ ((1 ≤ number) × (number ≤ count)) }
{
    number >= 1 && number <= count
}

// Whether a setup of an item has a least lot in a period.
fn has_least(instance: &Instance, item: u32, period: u32) -> bool
    ensures { IsTrue result ↔ HasRow instance.now (Least item period) }
{
    is_cell(instance, item, period) && instance.min_lot(item) > 0
}

// Whether what is started of an item in a period would arrive after the last one.
fn is_late(instance: &Instance, item: u32, period: u32) -> bool
    ensures { IsTrue result ↔ HasRow instance.now (Late item period) }
{
    is_cell(instance, item, period) && instance.periods() - period < instance.lead(item)
}

/// Whether the model has the row of this name, so whether `base_row` makes it. It has none of `Path` or `Cut`.
/// It takes no memory.
pub fn has_row(instance: &Instance, name: RowName) -> bool
    ensures row { IsTrue result ↔ HasRow instance.now name }
{
    match name {
        RowName::Balance(item, period) | RowName::Link(item, period) | RowName::Top(item, period) =>
            { is_cell(instance, item, period) }
        RowName::Capacity(resource, period) => {
            is_one_of(resource, instance.resources()) && is_one_of(period, instance.periods())
        }
        RowName::EndMin(item) | RowName::EndMax(item) => is_one_of(item, instance.items()),
        RowName::Least(item, period) => has_least(instance, item, period),
        RowName::Late(item, period) => is_late(instance, item, period),
        RowName::Path(_) | RowName::Cut(_) => false,
    }
}

/// The row of this name: of those that the rules of plans make, each of which holds at every feasible plan.
///
/// | Name | Row |
/// |---|---|
/// | `Balance(i, t)` | what arrives of `i`, and its stock before less its backlog before, is its demand, what goes into other items, and its stock after less its backlog after |
/// | `Link(i, t)` | the largest total of `i`, or its largest lot where that is less, times its setup is at least what is made of it |
/// | `Capacity(k, t)` | the time that units and setups take of `k` is at most its capacity |
/// | `EndMin(i)`, `EndMax(i)` | the last stock of `i` is at least the least, and at most the largest |
/// | `Top(i, t)` | there is at most one setup of `i` |
/// | `Least(i, t)` | what is made of `i` is at least its least lot times its setup |
/// | `Late(i, t)` | nothing is made of `i` |
///
/// What arrives in a period was started the lead time before, and there is no such column where that is
/// before the first period. The opening stock stands on the right side of the first balance. A backlog is no
/// column where the item has no backlog cost, or in the last period. `NoSuchRow` comes exactly where a number
/// is out of range, where the least lot of `Least` is 0, where what is started in the period of `Late` arrives
/// by the last one, or where the name is `Path` or `Cut`. It takes time in the number of items and lines.
pub fn base_row(alloc: Global, instance: &Instance, name: RowName) -> Result<Row, RowFault>
    ensures row { IfOk result (IsBaseRow instance.now name) }
    ensures one { IfOk result (λ row. (total : ℕ → ℕ) → AreLargestTotals instance.now total
        → row ≡ row_of instance.now total name) }
    ensures holds { IfOk result (λ row. (p : Plan) → IsFeasible instance.now p → HoldsIn p row) }
    ensures columns_exist { IfOk result (λ row.
        All (λ a. IsColumn instance.now a.column) row.terms) }
    ensures small { IfOk result IsSmallRow }
    ensures some { IfOk result (λ _. HasRow instance.now name) }
    ensures none { IfErr result (λ fault. fault ≡ NoSuchRow → HasRow instance.now name → ⊥) }
{
    if !has_row(instance, name) {
        return Err(RowFault::NoSuchRow);
    }
    totals_are_bounded();
    totals_are_one();
    let terms = terms_of(alloc, instance, name)?;
    Ok(Row::new(terms, right_of(instance, name), is_equality(name)))
}
