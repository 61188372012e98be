// The plan behind a least cost, from the last period back.
use crate::bands::{Band, band_at};
use crate::numbers::{NONE, at, part, quantity};
use crate::terms::{Task, Term};
use std::alloc::{AllocError, Global};

/// What a plan makes of an item: an entry for each period.
#[derive(Debug, Drop)]
pub(crate) struct Made {
    pub(crate) units: Vec<i64>,
    pub(crate) setups: Vec<i64>,
    pub(crate) short: Vec<i64>,
}

// Rows of least costs, each as wide, and their bands.
#[derive(Clone, Copy)]
pub(crate) struct Rows<'a> {
    pub(crate) costs: &'a [i64],
    pub(crate) bands: &'a [Band],
    pub(crate) width: usize,
}

impl Rows<'_> {
    // The row after so many periods.
    fn row(&self, periods: usize) -> &[i64] {
        part(self.costs, periods.saturating_mul(self.width), self.width)
    }
}

// What the largest lot makes that brings what has been started to a quantity at this cost; 0 where there is none, or nothing is made.
fn lot_at(before: &[i64], from: Band, term: Term, to: usize, cost: i64) -> usize {
    if term.largest == 0 || (to >= from.low && at(before, to) <= cost) {
        return 0;
    }
    let low = from.low.max(to.saturating_sub(term.lot()));
    let mut units = to.saturating_sub(low);
    let all = term.unit.wrapping_mul(quantity(units));
    let mut paid = term.fee.wrapping_add(all);
    for other in part(before, low, units) {
        if other.wrapping_add(paid) == cost {
            return units;
        }
        paid = paid.wrapping_sub(term.unit);
        units = units.saturating_sub(1);
    }
    0
}

// An entry of a list is written, if there is one.
fn write(list: &mut [i64], place: usize, number: i64) {
    if let Some(cell) = list.get_mut(place) {
        *cell = number;
    }
}

impl Made {
    // There is no plan, and no memory.
    pub(crate) fn new(alloc: Global) -> Made {
        Made {
            units: Vec::new(alloc),
            setups: Vec::new(alloc),
            short: Vec::new(alloc),
        }
    }

    // There is no plan.
    pub(crate) fn clear(&mut self) {
        self.units.clear();
        self.setups.clear();
        self.short.clear();
    }

    // Nothing is made in so many periods.
    fn begin(&mut self, periods: usize) -> Result<(), AllocError> {
        self.clear();
        self.units.resize(periods, 0)?;
        self.setups.resize(periods, 0)?;
        self.short.resize(periods, 0)?;
        Ok(())
    }

    // A period brings what has been started to a quantity, by so many units.
    fn put(&mut self, period: usize, term: Term, to: usize, units: usize) {
        write(&mut self.units, period, quantity(units));
        if units > 0 {
            write(&mut self.setups, period, 1);
        }
        write(&mut self.short, period, term.short(to));
    }

    // Writes a cheapest plan by rows of least costs, where there is one, back from what it has started in all.
    pub(crate) fn trace(
        &mut self,
        rows: Rows<'_>,
        last: Last,
        task: Task<'_>,
    ) -> Result<(), AllocError> {
        self.begin(task.periods())?;
        let mut to = last.quantity;
        let mut cost = last.cost;
        for later in 0..task.periods() {
            let period = task.periods().saturating_sub(later).saturating_sub(1);
            let term = task.term(period);
            let before = rows.row(period);
            cost = cost.wrapping_sub(term.short_cost(to));
            let units = lot_at(before, band_at(rows.bands, period), term, to, cost);
            self.put(period, term, to, units);
            to = to.saturating_sub(units);
            cost = at(before, to);
        }
        Ok(())
    }
}

// A quantity that has been started, and what it costs at least.
#[derive(Clone, Copy, Debug)]
pub(crate) struct Last {
    pub(crate) quantity: usize,
    pub(crate) cost: i64,
}

// The cheapest quantity of a row, the first of which has so much.
pub(crate) fn least_of(row: &[i64], first: usize) -> Last {
    let mut least = Last {
        quantity: first,
        cost: NONE,
    };
    let mut quantity = first;
    for cost in row {
        if *cost < least.cost {
            least = Last {
                quantity,
                cost: *cost,
            };
        }
        quantity = quantity.saturating_add(1);
    }
    least
}
