// The reduced costs of setups and quantities.
ghost use Rattle.std.specs.Prelude.{◌≡◌, ◌≤◌, ◌<◌, ◌^◌, pos, ◌-◌, ◌-ℤ◌, ◌*ℤ◌, ◌≤ℤ◌, IfOk, map};
ghost use Rattle.lot_sizing.specs.Problem.{item_count};
ghost use Rattle.lin_rows.specs.Columns.{IsColumn, column_cost};
ghost use Rattle.lin_rows.specs.Sums.{total_of};
ghost use Rattle.reduced_groups.specs.Laws.{AreSamePrices};
ghost use Rattle.reduced_groups.specs.Levels.{HasSeries};
ghost use Rattle.reduced_groups.specs.Prices.{ArePricesFor, price_in};
ghost use Rattle.reduced_leaf.specs.Faults.{AreSumsWithin};
ghost use Rattle.reduced_leaf.specs.Found.{HaveSeries, column_of, left_price};

use lin_rows::{Column, Sums, column_cost};
use lot_model::{Instance, an_instance_breaks_no_rule};
use reduced_groups::GroupPrices;
use std::alloc::{AllocError, Global};

// Which columns of an item are priced.
#[derive(Clone, Copy, Debug, PartialEq, Eq)]
pub(crate) enum Kind {
    Setups,
    Units,
}

// The column of an item in a period.
fn column_of(kind: Kind, item: u32, period: u32) -> Column
    ensures { result ≡ column_of kind item period }
{
    match kind {
        Kind::Setups => Column::Y { item, period },
        Kind::Units => Column::X { item, period },
    }
}

// What a sum leaves of a cost that is at least as much.
fn left_of(whole: u128, sum: i128) -> u128
    requires within { sum ≤ℤ pos whole }
    requires small { whole < 2 ^ 126 }
    ensures value { pos result ≡ pos whole -ℤ sum }
    ensures small { result < 2 ^ 128 - 1 }
{
    if sum < 0 {
        whole + sum.unsigned_abs()
    } else {
        whole - sum.unsigned_abs()
    }
}

// The reduced cost of a column, which stays below the greatest number of 128 bits.
pub(crate) fn price_of(instance: &Instance, sums: &Sums, den: u64, column: Column) -> u128
    requires column { IsColumn instance.now column }
    requires within { AreSumsWithin instance.now sums.now den }
    ensures value { result ≡ left_price instance.now sums.now den column }
    ensures small { result < 2 ^ 128 - 1 }
{
    let whole = u128::from(den) * u128::from(column_cost(instance, column));
    left_of(whole, sums.column(column))
}

// The reduced costs of an item, one for each period.
fn row_of(
    alloc: Global,
    instance: &Instance,
    sums: &Sums,
    den: u64,
    kind: Kind,
    item: u32,
) -> Result<Vec<u128>, AllocError>
    requires within { AreSumsWithin instance.now sums.now den }
    requires low { 1 ≤ item }
    requires high { item ≤ item_count instance.now }
    ensures { IfOk result (λ row. HasSeries instance.now.periods
        (λ t. left_price instance.now sums.now den (column_of kind item t)) row.items) }
{
    an_instance_breaks_no_rule(instance);
    let mut row = Vec::with_capacity(alloc, instance.periods() as usize)?;
    for period in 1..instance.periods() + 1 {
        row.push(price_of(instance, sums, den, column_of(kind, item, period)))?;
    }
    Ok(row)
}

// The reduced costs of all items.
fn rows_of(
    alloc: Global,
    instance: &Instance,
    sums: &Sums,
    den: u64,
    kind: Kind,
) -> Result<Vec<Vec<u128>>, AllocError>
    requires within { AreSumsWithin instance.now sums.now den }
    ensures { IfOk result (λ rows. HaveSeries (item_count instance.now) instance.now.periods
        (λ i t. left_price instance.now sums.now den (column_of kind i t))
        (map (λ v. v.items) rows.items)) }
{
    an_instance_breaks_no_rule(instance);
    let mut rows = Vec::with_capacity(alloc, instance.items() as usize)?;
    for item in 1..instance.items() + 1 {
        rows.push(row_of(alloc, instance, sums, den, kind, item)?)?;
    }
    Ok(rows)
}

/// The reduced costs of the setups and quantities of all items, as prices of groups.
pub(crate) fn prices_of(
    alloc: Global,
    instance: &Instance,
    sums: &Sums,
    den: u64,
) -> Result<GroupPrices, AllocError>
    requires within { AreSumsWithin instance.now sums.now den }
    ensures fit { IfOk result (ArePricesFor instance.now) }
    ensures same { IfOk result (λ prices. AreSamePrices instance.now (price_in prices)
        (left_price instance.now sums.now den)) }
{
    let setups = rows_of(alloc, instance, sums, den, Kind::Setups)?;
    let units = rows_of(alloc, instance, sums, den, Kind::Units)?;
    Ok(GroupPrices::new(setups, units))
}
