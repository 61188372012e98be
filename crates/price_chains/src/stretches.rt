// Stretches of the lowest level: what it costs to go from one of its lots to another, with the setups on the way and all
// that is asked for between them.
use crate::level::{Lots, NONE};
use crate::numbers::{at, forget, grow, part, part_mut, plus, serve_next, times};
use crate::quantities::Quantities;
use std::alloc::{AllocError, Global};

/// What stretches cost: a row for each lot, with an entry for each later lot and the end.
#[derive(Debug, Drop)]
pub(crate) struct Stretches {
    costs: Vec<i64>,
    width: usize,
}

// Fills a row from its lot on.
fn fill_row(row: &mut [i64], low: &Lots, first: usize) {
    forget(row);
    if let Some(start) = row.first_mut() {
        *start = 0;
    }
    let end = low.count();
    let mut lot = first;
    for place in 0..row.len() {
        let fee = if place == 0 { 0 } else { low.fee(lot) };
        let paid = plus(at(row, place), fee);
        if let Some(cost) = row.get_mut(place) {
            *cost = paid;
        }
        let next = lot.wrapping_add(1);
        if paid < NONE && lot < end {
            let asked = part(&low.asked, next, next.saturating_add(end));
            let before = at(&low.asked, lot);
            let length = row.len();
            let rest = part_mut(row, place.wrapping_add(1), length);
            serve_next(rest, asked, paid, low.price(lot, 0), before);
        }
        lot = next;
    }
}

impl Stretches {
    // No stretches, without memory.
    pub(crate) fn new(alloc: Global) -> Stretches {
        Stretches {
            costs: Vec::new(alloc),
            width: 0,
        }
    }

    // Finds the stretches from the first lots on, as many as are wanted; there are none from lots that are closed.
    pub(crate) fn fill(&mut self, low: &Lots, rows: usize) -> Result<(), AllocError> {
        self.width = low.count().saturating_add(1);
        grow(&mut self.costs, rows.saturating_mul(self.width))?;
        for lot in 0..rows {
            let start = lot.wrapping_mul(self.width);
            let stop = start.wrapping_add(self.width);
            let row = part_mut(&mut self.costs, start.wrapping_add(lot), stop);
            if !low.is_closed(lot) {
                fill_row(row, low, lot);
            }
        }
        Ok(())
    }

    // What the stretch from one lot to another costs.
    pub(crate) fn get(&self, from: usize, to: usize) -> i64 {
        at(&self.costs, from.wrapping_mul(self.width).wrapping_add(to))
    }

    // The last lot before the end of a stretch.
    fn last_before(&self, low: &Lots, from: usize, to: usize) -> usize {
        let (mut least, mut best) = (i64::MAX, from);
        for lot in from..to {
            let cost = plus(
                self.get(from, lot),
                times(low.price(lot, 0), low.units(lot, to)),
            );
            if cost < least {
                least = cost;
                best = lot;
            }
        }
        best
    }

    // Adds a cheapest stretch to a plan: its lots but the first one are set up, and all but the last one serve what is asked
    // for up to the next one.
    pub(crate) fn trace(&self, low: &Lots, made: &mut Quantities, from: usize, to: usize) {
        let mut last = to;
        for _ in from..to {
            if last > from {
                let lot = self.last_before(low, from, last);
                made.add(lot, low.units(lot, last));
                made.set_up(last);
                last = lot;
            }
        }
    }
}
