// Numbers of 64 bits from 0 to `NONE`.

/// A price of so much or more is that of a lot that there isn't, and a cost of so much or more that of no plan.
pub const NONE: i64 = 1 << 61;

// An entry of a list, and 0 where there is none.
pub(crate) fn at(list: &[i64], place: usize) -> i64 {
    match list.get(place) {
        Some(number) => *number,
        None => 0,
    }
}

// The nearest number from 0 to `NONE`.
pub(crate) fn within(number: i64) -> i64 {
    number.max(0).min(NONE)
}

// A quantity as a place in a row.
pub(crate) fn place(quantity: i64) -> usize {
    usize::try_from(quantity).unwrap_or(0)
}

// A place in a row as a quantity.
pub(crate) fn quantity(place: usize) -> i64 {
    i64::try_from(place).unwrap_or(NONE)
}

// The entries from one place on, so many, as far as there are any.
pub(crate) fn part(list: &[i64], from: usize, count: usize) -> &[i64] {
    let start = from.min(list.len());
    let stop = start.saturating_add(count).min(list.len());
    &list[start..stop]
}

// The same, to be changed.
pub(crate) fn part_mut(list: &mut [i64], from: usize, count: usize) -> &mut [i64] {
    let start = from.min(list.len());
    let stop = start.saturating_add(count).min(list.len());
    &mut list[start..stop]
}
