// What an item by itself costs at prices.
ghost use Rattle.std.specs.Prelude.{◌≤◌};
ghost use Rattle.lot_sizing.specs.Problem.{item_count};

use crate::prices::DualPrices;
use crate::pricing::Item;
use echelon_rows::limits::MAX_PRICE;
use integer_grids::clear;
use integer_grids::numbers::{
    add_times, less, none_is_negative, of_amount, plus, refill, refill_scaled, sum_of, times,
};
use lot_model::{Instance, Usage};
use node_setups::{Fixed, Held};
use price_groups::most_by_setup;
use std::alloc::{AllocError, Global};

/// What an item costs in each period, all times the scale of the prices: lists with an entry for each period.
#[derive(Debug, Drop)]
pub struct Costs {
    /// A setup, with the time that it takes.
    pub fee: Vec<i64>,
    /// A setup where it is free, 0 where it is made anyway, and the largest price of cuts where it can't be.
    pub setup: Vec<i64>,
    /// A unit, with the time that it takes.
    pub unit: Vec<i64>,
    /// A unit in stock at the end of a period.
    pub hold: Vec<i64>,
    /// A unit owed at the end of a period.
    pub back: Vec<i64>,
    /// What is added to units in place of stocks; nothing where stocks are priced.
    pub shift: Vec<i64>,
    /// What of it keeps units from costing less than nothing.
    pub lift: i64,
}

// The time that units or setups take is added, by what it costs.
fn add_time(list: &mut [i64], uses: &[Usage], prices: &DualPrices, is_setup: bool) {
    for usage in uses {
        let time = if is_setup { usage.setup } else { usage.unit };
        if time > 0 {
            add_times(list, prices.capacity.line(usage.resource), of_amount(time));
        }
    }
}

// What the recursion takes for a setup.
fn held_fee(held: Held, fee: i64) -> i64 {
    match held {
        Held::Free => fee,
        Held::AtLeastOne(_) => 0,
        Held::AtMostZero(_) => of_amount(MAX_PRICE).max(fee),
    }
}

// By how much the cheapest unit, with what is added to it, costs less than nothing.
fn lift_of(unit: &[i64], tail: &[i64]) -> i64 {
    let mut lift = 0;
    for (cost, more) in unit.iter().zip(tail) {
        lift = lift.max(less(0, plus(*cost, *more)));
    }
    lift
}

// Each number gets as much more.
fn raise(list: &mut [i64], more: i64) {
    for cell in list.iter_mut() {
        *cell = plus(*cell, more);
    }
}

impl Costs {
    /// No costs yet. It takes no memory.
    pub fn new(alloc: Global) -> Costs {
        Costs {
            fee: Vec::new(alloc),
            setup: Vec::new(alloc),
            unit: Vec::new(alloc),
            hold: Vec::new(alloc),
            back: Vec::new(alloc),
            shift: Vec::new(alloc),
            lift: 0,
        }
    }

    /// What setups of an item cost, with the time that they take and the prices of their least and largest lots. The error is that memory ran out.
    pub fn write_fees(
        &mut self,
        instance: &Instance,
        prices: &DualPrices,
        item: u32,
    ) -> Result<(), AllocError>
        requires low { 1 ≤ item }
        requires high { item ≤ item_count instance.now }
    {
        let scale = of_amount(prices.scale);
        refill_scaled(&mut self.fee, instance.setup_costs(item), scale)?;
        add_time(&mut self.fee, instance.uses(item), prices, true);
        let least = of_amount(instance.min_lot(item));
        add_times(&mut self.fee, prices.lot.line(item), least);
        let most = less(0, most_by_setup(instance, item));
        add_times(&mut self.fee, prices.link.line(item), most);
        Ok(())
    }

    // What a setup costs, with what the path says of it.
    fn write_setups(&mut self, fixed: &Fixed, item: u32) -> Result<(), AllocError> {
        refill(&mut self.setup, &self.fee)?;
        for (cell, held) in self.setup.iter_mut().zip(fixed.line(item)) {
            *cell = held_fee(*held, *cell);
        }
        Ok(())
    }

    // What stocks and backlogs of the echelon cost: the price of an item's stock, less those of the components in it.
    fn write_stocks(
        &mut self,
        instance: &Instance,
        prices: &DualPrices,
        item: u32,
    ) -> Result<(), AllocError>
        requires low { 1 ≤ item }
        requires high { item ≤ item_count instance.now }
    {
        refill(&mut self.hold, prices.stock.line(item))?;
        for need in instance.needs(item) {
            let units = less(0, of_amount(need.quantity));
            add_times(&mut self.hold, prices.stock.line(need.item), units);
        }
        refill(&mut self.back, prices.back.line(item))
    }

    // Prices of stock from each period on, added.
    fn write_tails(&mut self) -> Result<(), AllocError> {
        let mut rest = sum_of(&self.hold);
        self.shift.clear();
        for price in self.hold.iter() {
            self.shift.push(rest)?;
            rest = less(rest, *price);
        }
        Ok(())
    }

    // The prices of stock are moved to units: a unit is in stock from its period on, so it costs their sum more; one that is
    // owed isn't in stock yet, so owing it costs the price of stock more. What all units together cost too much is known,
    // since what remains at the end is.
    fn move_stocks(&mut self, owing: bool) -> Result<(), AllocError> {
        self.write_tails()?;
        self.lift = lift_of(&self.unit, &self.shift);
        raise(&mut self.shift, self.lift);
        add_times(&mut self.unit, &self.shift, 1);
        if owing {
            add_times(&mut self.back, &self.hold, 1);
        }
        clear(&mut self.hold);
        Ok(())
    }

    /// Prices of stock are moved to units, where they aren't yet: then stock costs nothing. `owing` says whether units may be owed. The
    /// error is that memory ran out, of which none is taken where as many costs were written before.
    pub fn move_all(&mut self, owing: bool) -> Result<(), AllocError> {
        if self.shift.is_empty() {
            self.move_stocks(owing)?;
        }
        Ok(())
    }

    /// What an item of the instance costs at prices, where a path fixes some setups. The error is that memory ran out, of
    /// which none is taken where as many costs were written before. It takes time in the number of periods times that of
    /// resources and components.
    pub fn write(
        &mut self,
        instance: &Instance,
        item: &Item,
        prices: &DualPrices,
        fixed: &Fixed,
    ) -> Result<(), AllocError> {
        let number = item.number;
        if number < 1 || number > instance.items() {
            return Ok(());
        }
        self.write_fees(instance, prices, number)?;
        self.write_setups(fixed, number)?;
        let scale = of_amount(prices.scale);
        refill_scaled(&mut self.unit, instance.unit_costs(number), scale)?;
        add_time(&mut self.unit, instance.uses(number), prices, false);
        self.write_stocks(instance, prices, number)?;
        self.lift = 0;
        self.shift.clear();
        if !none_is_negative(&self.hold) {
            self.move_stocks(item.backlogged)?;
        }
        Ok(())
    }
}
