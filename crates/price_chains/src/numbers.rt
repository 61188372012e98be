// Numbers of 64 bits from 0 to `NONE`, and parts of lists.
use crate::level::NONE;
use std::alloc::AllocError;

// An entry of a list, and 0 where there is none.
pub(crate) fn at(list: &[i64], place: usize) -> i64 {
    match list.get(place) {
        Some(number) => *number,
        None => 0,
    }
}

// An entry of a list is written, if there is one.
pub(crate) fn write(list: &mut [i64], place: usize, number: i64) {
    if let Some(cell) = list.get_mut(place) {
        *cell = number;
    }
}

// The entries from one place to before another one, as far as there are any.
pub(crate) fn part(list: &[i64], from: usize, to: usize) -> &[i64] {
    let stop = to.min(list.len());
    let start = from.min(stop);
    &list[start..stop]
}

// The same entries, to be written.
pub(crate) fn part_mut(list: &mut [i64], from: usize, to: usize) -> &mut [i64] {
    let stop = to.min(list.len());
    let start = from.min(stop);
    &mut list[start..stop]
}

// The nearest number from 0 to `NONE`.
pub(crate) fn within(number: i64) -> i64 {
    number.max(0).min(NONE)
}

// The sum, at most `NONE`.
pub(crate) fn plus(a: i64, b: i64) -> i64 {
    a.saturating_add(b).min(NONE)
}

// What so many units cost at a price, at most `NONE`: no units cost nothing at any price.
pub(crate) fn times(price: i64, units: i64) -> i64 {
    if units == 0 {
        0
    } else {
        price.saturating_mul(units).min(NONE)
    }
}

// A list has at least so many entries.
pub(crate) fn grow(list: &mut Vec<i64>, count: usize) -> Result<(), AllocError> {
    if list.len() < count {
        list.resize(count, 0)?;
    }
    Ok(())
}

// All costs are those of no plan.
pub(crate) fn forget(costs: &mut [i64]) {
    for cost in costs.iter_mut() {
        *cost = NONE;
    }
}

// Costs are lowered to others with so much more.
pub(crate) fn lower(costs: &mut [i64], others: &[i64], more: i64) {
    for (cost, other) in costs.iter_mut().zip(others) {
        *cost = (*cost).min(other.wrapping_add(more));
    }
}

// The same as `serve_next`, where products may not fit.
fn serve_dear(costs: &mut [i64], asked: &[i64], paid: i64, price: i64, before: i64) {
    for (cost, sum) in costs.iter_mut().zip(asked) {
        let units = sum.saturating_sub(before);
        *cost = (*cost).min(plus(paid, times(price, units)));
    }
}

// Costs of coming to the next lots are lowered to those of serving, at a price of a unit, what is asked for from a lot to
// each of them: `asked` has the sums of what is asked for up to each, and `before` the one up to the lot that serves.
pub(crate) fn serve_next(costs: &mut [i64], asked: &[i64], paid: i64, price: i64, before: i64) {
    let all = match asked.last() {
        Some(sum) => sum.saturating_sub(before),
        None => 0,
    };
    if price.saturating_mul(all) >= NONE {
        serve_dear(costs, asked, paid, price, before);
        return;
    }
    let start = paid.wrapping_sub(price.wrapping_mul(before));
    for (cost, sum) in costs.iter_mut().zip(asked) {
        *cost = (*cost).min(start.wrapping_add(price.wrapping_mul(*sum)));
    }
}

// From each cost is taken what the units cost that are asked for so far; costs of no plan stay.
pub(crate) fn take_off(costs: &mut [i64], asked: &[i64], price: i64) {
    for (cost, sum) in costs.iter_mut().zip(asked) {
        if *cost < NONE {
            *cost = (*cost).wrapping_sub(price.wrapping_mul(*sum));
        }
    }
}

// The same is added to each cost.
pub(crate) fn put_back(costs: &mut [i64], asked: &[i64], price: i64) {
    for (cost, sum) in costs.iter_mut().zip(asked) {
        if *cost < NONE {
            *cost = (*cost).wrapping_add(price.wrapping_mul(*sum)).min(NONE);
        }
    }
}
