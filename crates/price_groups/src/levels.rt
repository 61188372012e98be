// Items of groups as levels of chains.
use integer_grids::numbers::{at, plus};
use node_setups::Held;
use price_chains::{Level, NONE};
use std::alloc::AllocError;

/// Where the lots of an item stand in its chain.
#[derive(Clone, Copy, Debug)]
pub struct Place {
    /// A lot that is started in a period stands so many positions later: its lead time, and those of the items above it.
    pub shift: usize,
    /// What is asked of the item in a period stands so many positions later: the lead times of the items above it.
    pub asked_shift: usize,
    /// The last position.
    pub horizon: usize,
    /// Lots that are started in the first periods, so many, arrive by the last one.
    pub open: usize,
    /// The price of a unit that is there before the first period.
    pub opening_price: i64,
    /// The units of the item in one of the next item.
    pub per_next: i64,
}

// The price of setups that can't be made: the largest one of cuts.
const CLOSED: i64 = 100_000_000_000;

// What a setup costs in a plan, by what the path says of it.
fn held_fee(held: Held, fee: i64) -> i64 {
    match held {
        Held::Free => fee,
        Held::AtLeastOne(_) => 0,
        Held::AtMostZero(_) => fee.max(CLOSED),
    }
}

// The lists of an item, by period.
#[derive(Clone, Copy)]
struct Lists<'a> {
    fee: &'a [i64],
    unit: &'a [i64],
    held: &'a [Held],
}

// What the path says of the setup in a period.
fn held_at(held: &[Held], period: u32) -> Held {
    match held.get((period as usize).wrapping_sub(1)) {
        Some(found) => *found,
        None => Held::Free,
    }
}

// A lot of a period, or none where it isn't started in one of the first periods.
fn push_lot(
    level: &mut Level,
    lists: Lists<'_>,
    period: usize,
    open: usize,
) -> Result<(), AllocError> {
    if period < 1 || period > open {
        level.fee.push(NONE)?;
        level.unit.push(NONE)?;
        return Ok(());
    }
    let number = u32::try_from(period).unwrap_or(0);
    let fee = held_fee(held_at(lists.held, number), at(lists.fee, number));
    level.fee.push(fee)?;
    level.unit.push(at(lists.unit, number))?;
    Ok(())
}

// What is asked for in a position.
fn asked_at(asked: &[i64], place: Place, position: usize) -> i64 {
    let period = position.saturating_sub(place.asked_shift);
    at(asked, u32::try_from(period).unwrap_or(0))
}

/// A level of a chain is that of an item: its lots by position, from the one of what is there before the first period, and what is
/// asked for before each. `fee`, `unit` and `asked` have a number for each period, and `held` says what a path says of its setups.
///
/// The error is that memory ran out, of which none is taken where as many lots were written before.
pub fn write_level(
    level: &mut Level,
    fee: &[i64],
    unit: &[i64],
    asked: &[i64],
    held: &[Held],
    place: Place,
) -> Result<(), AllocError> {
    level.fee.clear();
    level.unit.clear();
    level.asked.clear();
    level.per_next = place.per_next;
    level.fee.push(0)?;
    level.unit.push(place.opening_price)?;
    level.asked.push(0)?;
    let lists = Lists { fee, unit, held };
    let mut sum = 0;
    for position in 1..place.horizon.saturating_add(1) {
        level.asked.push(sum)?;
        push_lot(
            level,
            lists,
            position.saturating_sub(place.shift),
            place.open,
        )?;
        sum = plus(sum, asked_at(asked, place, position));
    }
    level.asked.push(sum)?;
    Ok(())
}
