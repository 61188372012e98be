// Quantities, setups, stocks and backlogs of single-item plans.
use integer_grids::numbers::{UNIT, at, less, plus, times, write};
use integer_grids::{IntegerGrid, clear};
use lot_model::Instance;
use node_setups::{Fixed, Held};
use price_items::{Item, Pricing, Served};
use std::alloc::{AllocError, Global};

/// Averages of single-item plans, by item and period, in units of 1/`UNIT`.
#[derive(Debug, Drop)]
pub struct Average {
    pub(crate) units: IntegerGrid,
    pub(crate) setups: IntegerGrid,
    // Stocks and backlogs of echelons; in groups what falls short of what is on time. A grid has no lines where nothing reads it.
    pub(crate) stocks: IntegerGrid,
    pub(crate) owed: IntegerGrid,
}

/// Units that are made beyond all demand, and when.
#[derive(Clone, Copy, Debug)]
pub(crate) struct Spare {
    /// The period.
    pub(crate) period: u32,
    /// The units.
    pub(crate) units: i64,
}

// No units, and the setups that the path fixes.
fn write_fixed(units: &mut [i64], setups: &mut [i64], held: &[Held]) {
    clear(units);
    for (cell, held) in setups.iter_mut().zip(held) {
        *cell = match held {
            Held::AtLeastOne(_) => UNIT,
            _ => 0,
        };
    }
}

// The last numbers of a list, without so many first ones.
pub(crate) fn from_place(list: &[i64], place: usize) -> &[i64] {
    &list[list.len().min(place)..]
}

// The lots of an item, from the last position to the first: each server makes all that its block asks for.
fn write_lots(units: &mut [i64], setups: &mut [i64], item: &Item, places: &[Served]) {
    let mut block: Option<Served> = None;
    let mut position = u32::try_from(places.len()).unwrap_or(0);
    for place in places.iter().rev() {
        let last = match block {
            Some(served) if position >= served.start => served,
            _ => *place,
        };
        block = Some(last);
        let more = times(at(&item.net, place.period), UNIT);
        let made = plus(at(units, last.server), more);
        write(units, last.server, made);
        write(setups, last.server, UNIT);
        position = position.saturating_sub(1);
    }
}

// What the lots leave in stock at the end of each period.
fn write_stocks(stocks: &mut [i64], units: &[i64], item: &Item) {
    let mut made = 0;
    let mut period = 0u32;
    for cell in stocks.iter_mut() {
        period = period.saturating_add(1);
        let asked = times(at(&item.net, period), UNIT);
        made = less(plus(made, at(units, period)), asked);
        let left = times(at(&item.left, period), UNIT);
        *cell = plus(made.max(0), left);
    }
}

// What they leave owed.
fn write_owed(owed: &mut [i64], units: &[i64], item: &Item) {
    let mut made = 0;
    let mut period = 0u32;
    for cell in owed.iter_mut() {
        period = period.saturating_add(1);
        let asked = times(at(&item.net, period), UNIT);
        made = less(plus(made, at(units, period)), asked);
        *cell = less(0, made.min(0));
    }
}

impl Average {
    // Of plans without lots.
    pub(crate) fn zero(alloc: Global, items: u32, periods: u32) -> Result<Average, AllocError> {
        Ok(Average {
            units: IntegerGrid::zero(alloc, items, periods)?,
            setups: IntegerGrid::zero(alloc, items, periods)?,
            stocks: IntegerGrid::zero(alloc, items, periods)?,
            owed: IntegerGrid::zero(alloc, items, periods)?,
        })
    }

    // The same, where stocks are kept of items that are planned by themselves alone, and backlogs where there may be any.
    pub(crate) fn of(
        alloc: Global,
        instance: &Instance,
        pricing: &Pricing,
    ) -> Result<Average, AllocError> {
        let (items, periods) = (instance.items(), instance.periods());
        let stocked = match pricing.grouping() {
            Some(_) => 0,
            None => items,
        };
        let may_lack = pricing.may_owe() || pricing.late_grouping().is_some();
        let owed = if may_lack { items } else { 0 };
        Ok(Average {
            units: IntegerGrid::zero(alloc, items, periods)?,
            setups: IntegerGrid::zero(alloc, items, periods)?,
            stocks: IntegerGrid::zero(alloc, stocked, periods)?,
            owed: IntegerGrid::zero(alloc, owed, periods)?,
        })
    }

    /// A copy of the averages. The error is that memory ran out.
    pub fn copy(&self, alloc: Global) -> Result<Average, AllocError> {
        Ok(Average {
            units: self.units.copy(alloc)?,
            setups: self.setups.copy(alloc)?,
            stocks: self.stocks.copy(alloc)?,
            owed: self.owed.copy(alloc)?,
        })
    }

    /// How often an item is set up in a period, in units of 1/`UNIT`: from 0 to `UNIT`.
    pub fn setup(&self, item: u32, period: u32) -> i128 {
        i128::from(self.setups.get(item, period))
    }

    /// What is made of an item in a period, as the nearest whole number.
    pub fn lot(&self, item: u32, period: u32) -> u64 {
        let units = plus(self.units.get(item, period), UNIT / 2) / UNIT;
        u64::try_from(units).unwrap_or(0)
    }

    // The lots of an item, by the servers of its positions, with what is made beyond them, if anything is.
    fn write_made(&mut self, item: &Item, places: &[Served], spare: Option<Spare>, fixed: &Fixed) {
        let Some(units) = self.units.line_mut(item.number) else {
            return;
        };
        let Some(setups) = self.setups.line_mut(item.number) else {
            return;
        };
        write_fixed(units, setups, fixed.line(item.number));
        write_lots(units, setups, item, places);
        if let Some(spare) = spare {
            let more = plus(at(units, spare.period), times(spare.units, UNIT));
            write(units, spare.period, more);
        }
    }

    // The plan of an item, by the servers of its positions.
    pub(crate) fn write_item(
        &mut self,
        item: &Item,
        places: &[Served],
        spare: Option<Spare>,
        fixed: &Fixed,
    ) {
        self.write_made(item, places, spare, fixed);
        let units = self.units.line(item.number);
        if let Some(stocks) = self.stocks.line_mut(item.number) {
            write_stocks(stocks, units, item);
        }
        if item.backlogged {
            if let Some(owed) = self.owed.line_mut(item.number) {
                write_owed(owed, units, item);
            }
        }
    }

    /// The plan of an item: what is made in each period, and whether a lot is set up. The setups that the path fixes are made. The
    /// answer is what is made in all.
    pub(crate) fn write_plan(
        &mut self,
        item: u32,
        made: &[i64],
        opened: &[i64],
        fixed: &Fixed,
    ) -> i64 {
        let (Some(units), Some(setups)) = (self.units.line_mut(item), self.setups.line_mut(item))
        else {
            return 0;
        };
        write_fixed(units, setups, fixed.line(item));
        let mut total = 0;
        for (cell, lot) in units.iter_mut().zip(made) {
            *cell = times(*lot, UNIT);
            total = plus(total, *lot);
        }
        for (cell, is_open) in setups.iter_mut().zip(opened) {
            if *is_open > 0 {
                *cell = UNIT;
            }
        }
        total
    }

    // What falls short of an item at the end of each period; nothing does where the list is empty.
    pub(crate) fn write_short(&mut self, item: u32, short: &[i64]) {
        if let Some(owed) = self.owed.line_mut(item) {
            clear(owed);
            for (cell, units) in owed.iter_mut().zip(short) {
                *cell = times(*units, UNIT);
            }
        }
    }

    /// More is made of an item.
    pub(crate) fn add_spare(&mut self, item: u32, spare: Spare) {
        let more = plus(self.units.get(item, spare.period), times(spare.units, UNIT));
        self.units.put(item, spare.period, more);
    }

    // Other plans enter with a weight, in units of 1/`UNIT`.
    pub(crate) fn mix(&mut self, plan: &Average, weight: i64) {
        self.units.mix(&plan.units, weight);
        self.setups.mix(&plan.setups, weight);
        self.stocks.mix(&plan.stocks, weight);
        self.owed.mix(&plan.owed, weight);
    }

    // These are other plans.
    pub(crate) fn take_from(&mut self, plan: &Average) {
        self.units.take_from(&plan.units);
        self.setups.take_from(&plan.setups);
        self.stocks.take_from(&plan.stocks);
        self.owed.take_from(&plan.owed);
    }
}
