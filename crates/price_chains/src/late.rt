// An item whose units may fall short of what is on time: lot sizing with backlogging and no price of stocks (Zangwill 1966).
// What is on time is served period by period; of the lots that serve it, each one serves the needs that follow each other.
use crate::level::{Lots, NONE};
use crate::numbers::{at, forget, grow, plus, times, within, write};
use crate::quantities::Quantities;
use std::alloc::{AllocError, Global};

/// What falls short of an item costs, and until when anything may.
#[derive(Clone, Copy, Debug)]
pub(crate) struct Owing<'a> {
    /// The price of a unit that falls short at the end of each period.
    pub(crate) shares: &'a [i64],
    /// From this period on nothing may fall short.
    pub(crate) settled: usize,
}

// A lot and what it costs that it serves what is on time last.
#[derive(Clone, Copy, Debug)]
struct Server {
    lot: usize,
    cost: i64,
}

// No lot serves.
fn no_server() -> Server {
    Server { lot: 0, cost: NONE }
}

/// What it costs to serve what is on time so far, by the lot that serves the last of it.
#[derive(Debug, Drop)]
pub(crate) struct LateRows {
    costs: Vec<i64>,
    // By period and lot 1 where the lot begins to serve in the period, and 0 where it has served before.
    begun: Vec<i64>,
    // By period the lot by which what is on time so far costs least.
    servers: Vec<usize>,
    // By lot what a unit costs that falls short in all periods before it, from period 0 on.
    owed: Vec<i64>,
    settled: usize,
    width: usize,
    /// The units that fall short at the end of each period, from period 0 on.
    pub(crate) short: Vec<i64>,
}

impl LateRows {
    // No rows, without memory.
    pub(crate) fn new(alloc: Global) -> LateRows {
        LateRows {
            costs: Vec::new(alloc),
            begun: Vec::new(alloc),
            servers: Vec::new(alloc),
            owed: Vec::new(alloc),
            settled: 0,
            width: 0,
            short: Vec::new(alloc),
        }
    }

    // What a unit costs that falls short, from the first period on.
    fn owe(&mut self, owing: Owing<'_>) -> Result<(), AllocError> {
        self.settled = owing.settled;
        self.owed.clear();
        self.owed.push(0)?;
        let mut sum = 0;
        for period in 1..self.width {
            self.owed.push(sum)?;
            sum = plus(sum, within(at(owing.shares, period.wrapping_sub(1))));
        }
        Ok(())
    }

    // There is room for so many lots, of which none serves yet.
    fn begin(&mut self, lots: usize) -> Result<(), AllocError> {
        self.width = lots;
        grow(&mut self.costs, lots)?;
        forget(&mut self.costs);
        grow(&mut self.begun, lots.saturating_mul(lots))?;
        self.servers.clear();
        self.servers.push(0)?;
        Ok(())
    }

    // What a unit costs that is on time in a period and falls short until a lot makes it.
    fn price(&self, period: usize, lot: usize) -> i64 {
        at(&self.owed, lot).saturating_sub(at(&self.owed, period.min(lot)))
    }

    // The last lot that may make what is on time in a period.
    fn last_lot(&self, period: usize) -> usize {
        period.max(self.settled).min(self.width.saturating_sub(1))
    }

    // A lot serves what is on time in a period beyond what was before it, which cost `least`.
    fn serve(&mut self, lots: &Lots, period: usize, lot: usize, least: i64) -> i64 {
        let before = at(&self.costs, lot);
        let entered = plus(least, lots.fee(lot));
        let place = period.wrapping_mul(self.width).wrapping_add(lot);
        write(&mut self.begun, place, i64::from(entered < before));
        let price = plus(lots.price(lot, 0), self.price(period, lot));
        let units = lots.units(period, period.wrapping_add(1));
        let cost = plus(before.min(entered), times(price, units));
        write(&mut self.costs, lot, cost);
        cost
    }

    // The cheapest lot to serve what is on time last in a period, where all before it cost `least`.
    fn serve_by_any(&mut self, lots: &Lots, period: usize, least: i64) -> Server {
        let mut best = no_server();
        for lot in 1..self.last_lot(period).saturating_add(1) {
            let cost = self.serve(lots, period, lot, least);
            if cost < best.cost {
                best = Server { lot, cost };
            }
        }
        best
    }

    /// The least cost of serving all that is on time.
    pub(crate) fn fill(&mut self, lots: &Lots, owing: Owing<'_>) -> Result<i64, AllocError> {
        self.begin(lots.count())?;
        self.owe(owing)?;
        let mut least = 0;
        for period in 1..lots.count() {
            let best = self.serve_by_any(lots, period, least);
            self.servers.push(best.lot)?;
            if lots.units(0, period.saturating_add(1)) > 0 {
                least = best.cost;
            }
        }
        Ok(least)
    }

    // The lot by which what is on time by a period costs least.
    fn server(&self, period: usize) -> usize {
        match self.servers.get(period) {
            Some(lot) => *lot,
            None => 0,
        }
    }

    // Whether a lot begins to serve in a period.
    fn begins(&self, period: usize, lot: usize) -> bool {
        let place = period.wrapping_mul(self.width).wrapping_add(lot);
        at(&self.begun, place) > 0
    }

    // Units that are on time in a period fall short until a lot makes them.
    fn fall_short(&mut self, period: usize, lot: usize, units: i64) {
        let stop = lot.min(self.short.len());
        let start = period.min(stop);
        for cell in self.short[start..stop].iter_mut() {
            *cell = plus(*cell, units);
        }
    }

    /// Writes a cheapest plan, where there is one: its lots, and what falls short.
    pub(crate) fn trace(&mut self, lots: &Lots, made: &mut Quantities) -> Result<(), AllocError> {
        made.begin(self.width)?;
        self.short.clear();
        self.short.resize(self.width, 0)?;
        let last = self.width.saturating_sub(1);
        let mut lot = self.server(last);
        for later in 0..last {
            let period = last.saturating_sub(later);
            let before = period.saturating_sub(1);
            let is_first = lots.units(0, period) == 0;
            if is_first && lots.units(0, period.saturating_add(1)) == 0 {
                return Ok(());
            }
            let units = lots.units(period, period.saturating_add(1));
            made.add(lot, units);
            self.fall_short(period, lot, units);
            if is_first || self.begins(period, lot) {
                made.set_up(lot);
                lot = self.server(before);
            }
        }
        Ok(())
    }
}
