// Whole lots of setups.
ghost use Rattle.std.specs.Prelude.{◌≤◌};
ghost use Rattle.lot_sizing.specs.Problem.{item_count};
ghost use Rattle.plan_rules.specs.Cells.{Fits};
ghost use Rattle.plan_rules.specs.Rows.{IfFound};
ghost use Rattle.own_plan.specs.Made.{IsMade};

use crate::dictionary::{Dictionary, Line, NO_LOT, UNIT};
use crate::frame::{Frame, place_of};
use integer_grids::numbers::{less, plus};
use lot_model::Instance;
use plan_rules::{Grid, Planned, complete_at_cost};
use std::alloc::{AllocError, Global};

// So many lots are rounded at most.
const MOST_LOTS: u32 = 200;

/// Which lot is rounded next of those that aren't whole.
#[derive(Clone, Copy)]
pub(crate) enum Order {
    /// That which is nearest to a whole number.
    Nearest,
    /// That of the earliest period.
    Earliest,
}

// Which lot comes first: the one where this is least.
fn turn_of(frame: &Frame, row: &Line, order: Order) -> i64 {
    match order {
        Order::Nearest => row.away(),
        Order::Earliest => i64::try_from(row.name % frame.periods.max(1)).unwrap_or(0),
    }
}

// The row of the lot that is rounded next, if one isn't whole.
fn next_part(frame: &Frame, dictionary: &Dictionary, order: Order) -> Option<usize> {
    let mut first = i64::MAX;
    let mut found = None;
    for (place, row) in dictionary.rows.iter().enumerate() {
        let turn = turn_of(frame, row, order);
        if row.is_part() && turn < first {
            first = turn;
            found = Some(place);
        }
    }
    found
}

// The better one of the dictionaries where a lot is rounded up and down, if one of them costs at most this.
fn rounded_at(
    alloc: Global,
    mut dictionary: Dictionary,
    place: usize,
    most: i64,
) -> Result<Option<Dictionary>, AllocError> {
    let mut other = dictionary.copy(alloc)?;
    dictionary.bound(alloc, place, true)?;
    let up = dictionary.least_cost(alloc, most)?;
    other.bound(alloc, place, false)?;
    let down = other.least_cost(alloc, most)?;
    match (up, down) {
        (Some(dear), Some(cost)) if cost < dear => Ok(Some(other)),
        (Some(_), _) => Ok(Some(dictionary)),
        (None, Some(_)) => Ok(Some(other)),
        (None, None) => Ok(None),
    }
}

// The dictionary of whole lots that cost at most this, where one lot after the other is rounded.
fn rounded(
    alloc: Global,
    frame: &Frame,
    open: &[bool],
    order: Order,
    most: i64,
) -> Result<Option<Dictionary>, AllocError> {
    let most = less(most, frame.setup_cost(open));
    let mut dictionary = frame.dictionary(alloc, open)?;
    if dictionary.least_cost(alloc, most)?.is_none() {
        return Ok(None);
    }
    for _lot in 0..MOST_LOTS {
        let Some(place) = next_part(frame, &dictionary, order) else {
            return Ok(Some(dictionary));
        };
        match rounded_at(alloc, dictionary, place, most)? {
            Some(next) => dictionary = next,
            None => return Ok(None),
        }
    }
    Ok(None)
}

// The lots of a dictionary by their places.
fn lots_of(alloc: Global, frame: &Frame, dictionary: &Dictionary) -> Result<Vec<u64>, AllocError> {
    let mut lots = Vec::new(alloc);
    lots.resize(frame.cells, 0)?;
    for row in dictionary.rows.iter() {
        if row.name != NO_LOT {
            if let Some(lot) = lots.get_mut(row.name) {
                let units = plus(row.right, UNIT / 2) / UNIT;
                *lot = u64::try_from(units).unwrap_or(0);
            }
        }
    }
    Ok(lots)
}

// The lot of an item and period, and 0 where there is none.
fn lot_at(instance: &Instance, lots: &[u64], item: u32, period: u32) -> u64 {
    match lots.get(place_of(instance, item, period)) {
        Some(lot) => *lot,
        None => 0,
    }
}

// Writes the lots of an item, and setups where there are some.
fn write_row(instance: &Instance, lots: &[u64], item: u32, make: &mut Grid, setup: &mut Grid)
    requires low { 1 ≤ item }
    requires high { item ≤ item_count instance.now }
    requires make { Fits instance.now make.old }
    requires setup { Fits instance.now setup.old }
    ensures make { Fits instance.now make.new }
    ensures setup { Fits instance.now setup.new }
{
    for period in 1..instance.periods() + 1 {
        let lot = lot_at(instance, lots, item, period);
        make.set(item, period, lot);
        setup.set(item, period, lot.min(1));
    }
}

// The plan of these lots, if it is feasible.
fn plan_of(alloc: Global, instance: &Instance, lots: &[u64]) -> Result<Option<Planned>, AllocError>
    ensures { IfFound result (IsMade instance.now) }
{
    let mut make = Grid::filled(alloc, instance.items(), instance.periods(), 0)?;
    let mut setup = Grid::filled(alloc, instance.items(), instance.periods(), 0)?;
    for item in 1..instance.items() + 1 {
        write_row(instance, lots, item, &mut make, &mut setup);
    }
    complete_at_cost(alloc, instance, make, setup)
}

/// A plan with these setups or fewer that costs at most this, in the parts in which costs are counted.
pub(crate) fn whole_plan(
    alloc: Global,
    instance: &Instance,
    frame: &Frame,
    open: &[bool],
    order: Order,
    most: i64,
) -> Result<Option<Planned>, AllocError>
    ensures { IfFound result (IsMade instance.now) }
{
    match rounded(alloc, frame, open, order, most)? {
        Some(dictionary) => {
            let lots = lots_of(alloc, frame, &dictionary)?;
            plan_of(alloc, instance, &lots)
        }
        None => Ok(None),
    }
}
