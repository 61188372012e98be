// The table of least prices, a row for each period.
ghost use Rattle.std.specs.Prelude.{◌≡◌, ◌≤◌, ◌<◌, ◌+◌, ◌-◌, ◌*◌, length, IfOk, IfSome};
ghost use Rattle.quantity_dp.specs.Lots.{IsLeastOrNone, lots_of};
ghost use Rattle.quantity_dp.specs.Limits.{IsPriced, IsWithinLimits};
ghost use Rattle.quantity_dp.specs.Window.{IsLeastIn};
ghost use Rattle.quantity_dp.specs.Table.{AreSmall, HasFirst, IsGreatestNeed, IsLesser, IsNextEntry, IsNextTo, brought, brought_in, made_by, most_in, price_in};

use crate::LotPeriod;
use crate::limits::{MAX_ENTRIES, MAX_PRICE};
use crate::window::Window;
use std::alloc::{AllocError, Global};

// All that must be started or is asked.
fn greatest_need(lots: &[LotPeriod]) -> u64
    ensures { IsGreatestNeed lots.now result }
{
    let mut most = 0;
    for lot in lots {
        most = most.max(lot.need.max(lot.asked));
    }
    most
}

// The row before the first period: nothing has been started, and nothing paid.
fn first_row(alloc: Global, most: u64) -> Result<Vec<Option<u128>>, AllocError>
    requires { most < MAX_ENTRIES }
    ensures { IfOk result (λ row. HasFirst most row.items) }
{
    let mut row = Vec::with_capacity(alloc, most as usize + 1)?;
    row.push(Some(0u128))?;
    for _ in 0..most {
        row.push(None)?;
    }
    Ok(row)
}

// The price of a quantity, and of the units that it lacks.
fn brought_to(price: Option<u128>, unit: u128, lacks: u64) -> Option<u128>
    requires price { IfSome price (λ c. c ≤ 2 * (MAX_ENTRIES * MAX_PRICE)) }
    requires unit { unit ≤ MAX_PRICE }
    requires lacks { lacks < MAX_ENTRIES }
    ensures { result ≡ brought price (unit * lacks) }
{
    match price {
        Some(price) => Some(price + unit * u128::from(lacks)),
        None => None,
    }
}

// The lesser of two prices where there are both.
fn lesser(one: Option<u128>, other: Option<u128>) -> Option<u128>
    ensures { IsLesser one other result }
{
    match (one, other) {
        (Some(one), Some(other)) => Some(one.min(other)),
        (Some(one), None) => Some(one),
        (None, other) => other,
    }
}

// The least price of a quantity that a setup makes from one of the window.
fn made(
    lot: &LotPeriod,
    before: &[Option<u128>],
    quantity: u64,
    least: Option<u128>,
) -> Option<u128>
    requires quantity { quantity < length before.now }
    requires size { length before.now ≤ MAX_ENTRIES }
    requires priced { IsPriced lot.now }
    requires small { AreSmall (MAX_ENTRIES * MAX_PRICE) before.now }
    requires least { IsLeastIn (brought_in before.now lot.now.unit) (quantity - lot.now.largest)
        (quantity + 1) least }
    ensures { result ≡ made_by lot.now before.now quantity least }
{
    let lacks = (before.len() - 1) as u64 - quantity;
    match least {
        Some(price) => Some(price - lot.unit * u128::from(lacks) + lot.setup),
        None => None,
    }
}

// The least price of a quantity: it stays, or a setup makes it, and then what it lacks of what is asked is paid.
fn entry(
    lot: &LotPeriod,
    before: &[Option<u128>],
    quantity: u64,
    least: Option<u128>,
) -> Option<u128>
    requires quantity { quantity < length before.now }
    requires size { length before.now ≤ MAX_ENTRIES }
    requires need { lot.now.need ≤ most_in before.now }
    requires asked { lot.now.asked ≤ most_in before.now }
    requires priced { IsPriced lot.now }
    requires small { AreSmall (MAX_ENTRIES * MAX_PRICE) before.now }
    requires least { IsLeastIn (brought_in before.now lot.now.unit) (quantity - lot.now.largest)
        (quantity + 1) least }
    ensures { IsNextEntry lot.now before.now quantity result }
{
    if quantity < lot.need {
        return None;
    }
    let made = made(lot, before, quantity, least);
    let started = lesser(before[quantity as usize], made);
    brought_to(started, lot.share, lot.asked.saturating_sub(quantity))
}

// The row of the next period.
fn next_row(
    alloc: Global,
    lot: &LotPeriod,
    before: &[Option<u128>],
) -> Result<Vec<Option<u128>>, AllocError>
    requires some { 1 ≤ length before.now }
    requires size { length before.now ≤ MAX_ENTRIES }
    requires need { lot.now.need ≤ most_in before.now }
    requires asked { lot.now.asked ≤ most_in before.now }
    requires priced { IsPriced lot.now }
    requires small { AreSmall (MAX_ENTRIES * MAX_PRICE) before.now }
    ensures { IfOk result (λ row. IsNextTo lot.now before.now (length before.now) row.items) }
{
    let most = (before.len() - 1) as u64;
    let mut window = Window::new(alloc);
    let mut row = Vec::with_capacity(alloc, before.len())?;
    for quantity in 0..before.len() as u64 {
        let price = before[quantity as usize];
        window.take(quantity, brought_to(price, lot.unit, most - quantity))?;
        window.leave(quantity.saturating_sub(lot.largest));
        row.push(entry(lot, before, quantity, window.least()))?;
    }
    Ok(row)
}

// The least price of a row, and none where it has none.
fn least_of(row: &[Option<u128>]) -> Option<u128>
    ensures { IsLeastIn (price_in row.now) 0 (length row.now) result }
{
    let mut least = None;
    for price in row {
        least = lesser(least, *price);
    }
    least
}

/// The least price of quantities and setups of an item that keep its largest lots and start what must have been
/// started, with what is paid for the units that fall short of what is asked, and none exactly where no quantities do.
/// The error is that memory ran out.
///
/// It takes time in the number of periods times that of the units that must be started or are asked, and memory in
/// that of the units.
pub fn least_price(alloc: Global, lots: &[LotPeriod]) -> Result<Option<u128>, AllocError>
    requires within { IsWithinLimits lots.now }
    ensures price { IfOk result (IsLeastOrNone (lots_of lots.now)) }
    ensures small { IfOk result (λ found. IfSome found (λ c. c ≤ MAX_ENTRIES * MAX_PRICE)) }
{
    let most = greatest_need(lots);
    let mut row = first_row(alloc, most)?;
    for lot in lots {
        row = next_row(alloc, lot, &row)?;
    }
    Ok(least_of(&row))
}
