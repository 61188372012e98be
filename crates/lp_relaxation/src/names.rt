// The names of the rows that the rules of plans make, in their order.
ghost use Rattle.std.specs.Prelude.{◌≡◌, ◌≤◌, ◌<◌, ◌^◌, ◌∷◌, [], IfOk, length};
ghost use Rattle.lot_sizing.specs.Problem.{item_count};
ghost use Rattle.lot_sizing.specs.declared.limits.TheConstants.{MAX_ITEMS};
ghost use Rattle.lin_rows.specs.Columns.{IsCell};
ghost use Rattle.lp_relaxation.specs.Names.{PutNames, base_names, count_in, end_name, is_made, kind_names, name_in, names_to};

use lin_rows::RowName;
use lot_model::Instance;
use std::alloc::{AllocError, Global};

// A kind of rows, of which there is one for each item or resource and each period, but where the rules make none.
#[derive(Clone, Copy, Debug)]
enum Kind {
    Balance,
    Link,
    Capacity,
    Top,
    Least,
    Late,
}

// The name of a kind's row. The first number is that of the item, or of the resource.
fn name_in(kind: Kind, first: u32, period: u32) -> RowName
    ensures { result ≡ name_in kind first period }
{
    match kind {
        Kind::Balance => RowName::Balance(first, period),
        Kind::Link => RowName::Link(first, period),
        Kind::Capacity => RowName::Capacity(first, period),
        Kind::Top => RowName::Top(first, period),
        Kind::Least => RowName::Least(first, period),
        Kind::Late => RowName::Late(first, period),
    }
}

// How many items or resources a kind has rows of.
fn count_in(instance: &Instance, kind: Kind) -> u32
    ensures value { result ≡ count_in instance.now kind }
    ensures small { result ≤ MAX_ITEMS }
{
    match kind {
        Kind::Capacity => instance.resources(),
        _ => instance.items(),
    }
}

// Whether the rules make a kind's row.
fn is_made(instance: &Instance, kind: Kind, first: u32, period: u32) -> bool
    requires low { 1 ≤ first }
    requires high { first ≤ count_in instance.now kind }
    requires period_high { period ≤ instance.now.periods }
    ensures { result ≡ is_made instance.now (name_in kind first period) }
{
    match kind {
        Kind::Least => instance.min_lot(first) >= 1,
        Kind::Late => instance.periods() < period + instance.lead(first),
        _ => true,
    }
}

// Puts the name of a kind's row after others, where the rules make it.
fn put_name(
    instance: &Instance,
    kind: Kind,
    first: u32,
    period: u32,
    names: &mut Vec<RowName>,
) -> Result<(), AllocError>
    requires low { 1 ≤ first }
    requires high { first ≤ count_in instance.now kind }
    requires period_high { period ≤ instance.now.periods }
    ensures { IfOk result (λ _.
        PutNames instance.now names.old.items (name_in kind first period ∷ []) names.new.items) }
{
    if is_made(instance, kind, first, period) {
        names.push(name_in(kind, first, period))?;
    }
    Ok(())
}

// Appends the names of a kind's rows of one item or resource, by periods.
fn put_periods(
    instance: &Instance,
    kind: Kind,
    first: u32,
    names: &mut Vec<RowName>,
) -> Result<(), AllocError>
    requires low { 1 ≤ first }
    requires high { first ≤ count_in instance.now kind }
    ensures { IfOk result (λ _.
        PutNames instance.now names.old.items (names_to instance.now.periods (name_in kind first))
        names.new.items) }
{
    for period in 1..instance.periods() + 1 {
        put_name(instance, kind, first, period, names)?;
    }
    Ok(())
}

// Appends the names of all rows of a kind.
fn put_kind(instance: &Instance, kind: Kind, names: &mut Vec<RowName>) -> Result<(), AllocError>
    ensures { IfOk result (λ _.
        PutNames instance.now names.old.items (kind_names instance.now kind) names.new.items) }
{
    for first in 1..count_in(instance, kind) + 1 {
        put_periods(instance, kind, first, names)?;
    }
    Ok(())
}

// The name of the row of an item's least last stock, or of its largest one.
fn end_name(largest: bool, item: u32) -> RowName
    ensures { result ≡ end_name largest item }
{
    if largest {
        RowName::EndMax(item)
    } else {
        RowName::EndMin(item)
    }
}

// Appends the names of the rows of all items' least last stocks, or of their largest ones.
fn put_ends(instance: &Instance, largest: bool, names: &mut Vec<RowName>) -> Result<(), AllocError>
    ensures { IfOk result (λ _.
        PutNames instance.now names.old.items
        (names_to (item_count instance.now) (end_name largest)) names.new.items) }
{
    for item in 1..instance.items() + 1 {
        names.push(end_name(largest, item))?;
    }
    Ok(())
}

/// The names of all rows that the rules of plans make, in the order in which they stand in the root's program:
/// balances, links, capacities, least and largest last stocks, tops, least lots and late lots; each by item or
/// resource, and then by period. An item without a least lot has no rows of it, and a lot that arrives by the last
/// period has no late row. The error is that memory ran out.
pub fn base_names(alloc: Global, instance: &Instance) -> Result<Vec<RowName>, AllocError>
    ensures { IfOk result (λ names. names.items ≡ base_names instance.now) }
{
    let mut names = Vec::new(alloc);
    put_kind(instance, Kind::Balance, &mut names)?;
    put_kind(instance, Kind::Link, &mut names)?;
    put_kind(instance, Kind::Capacity, &mut names)?;
    put_ends(instance, false, &mut names)?;
    put_ends(instance, true, &mut names)?;
    put_kind(instance, Kind::Top, &mut names)?;
    put_kind(instance, Kind::Least, &mut names)?;
    put_kind(instance, Kind::Late, &mut names)?;
    Ok(names)
}
