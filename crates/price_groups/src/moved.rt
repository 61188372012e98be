// What setups and units cost at prices, where prices of stock are moved to units.
ghost use Rattle.std.specs.Prelude.{◌≤◌};
ghost use Rattle.lot_sizing.specs.Problem.{item_count};

use crate::grouping::Grouping;
use integer_grids::IntegerGrid;
use integer_grids::numbers::{add_times, less, of_amount, plus, times};
use lot_model::{Instance, Usage};
use std::alloc::{AllocError, Global};

/// What setups and units of all items cost at prices of capacity, stock, least and largest lots, all times the scale of the prices.
///
/// A unit that arrives costs the price of its stock from then to the last period, and takes from its components what theirs
/// would have cost from the period on in which it takes them. Where that makes a unit cheaper than nothing, all units of the item are
/// lifted: what is made of it in all is bounded.
#[derive(Debug, Drop)]
pub struct MovedCosts {
    /// A setup, with the time that it takes, its least and its largest lot, by item and period.
    pub fee: IntegerGrid,
    /// A unit, with the time that it takes and its stock.
    pub unit: IntegerGrid,
    /// A unit in stock from the end of a period to the last one.
    pub tail: IntegerGrid,
    /// By how much all units of an item are lifted.
    pub lift: IntegerGrid,
}

/// Prices of what couples the items of a plan, and of their least and largest lots.
#[derive(Clone, Copy)]
pub struct RowPrices<'a> {
    /// A unit of time, by resource and period.
    pub capacity: &'a IntegerGrid,
    /// A unit in stock at the end of a period, by item.
    pub stock: &'a IntegerGrid,
    /// A unit by which a lot is larger than the least lot of its setup, by item and period.
    pub lot: &'a IntegerGrid,
    /// A unit by which a lot is smaller than the largest lot of its setup, by item and period; empty where none is priced.
    pub link: &'a IntegerGrid,
}

// Numbers from each place on, added.
fn write_tail(tail: &mut [i64], prices: &[i64]) {
    let mut sum = 0;
    for (cell, price) in tail.iter_mut().zip(prices).rev() {
        sum = plus(sum, *price);
        *cell = sum;
    }
}

// Each number is so many times an amount.
fn write_scaled(line: &mut [i64], amounts: &[u64], scale: i64) {
    for (cell, amount) in line.iter_mut().zip(amounts) {
        *cell = times(scale, of_amount(*amount));
    }
}

// The time that units or setups take is added, by what it costs.
fn add_time(line: &mut [i64], uses: &[Usage], capacity: &IntegerGrid, is_setup: bool) {
    for usage in uses {
        let time = if is_setup { usage.setup } else { usage.unit };
        if time > 0 {
            add_times(line, capacity.line(usage.resource), of_amount(time));
        }
    }
}

// The last numbers of a list, without so many first ones.
fn from_place(list: &[i64], place: usize) -> &[i64] {
    &list[list.len().min(place)..]
}

// By how much the cheapest one of the first numbers of a list, so many, is less than 0.
fn lift_of(line: &[i64], count: usize) -> i64 {
    let mut lift = 0;
    for cost in line.iter().take(count) {
        lift = lift.max(less(0, *cost));
    }
    lift
}

// Each of the first numbers gets as much more.
fn raise(line: &mut [i64], count: usize, more: i64) {
    for cell in line.iter_mut().take(count) {
        *cell = plus(*cell, more);
    }
}

// In how many periods lots of an item can be started that arrive by the last one.
fn open_periods(instance: &Instance, item: u32) -> usize
    requires low { 1 ≤ item }
    requires high { item ≤ item_count instance.now }
{
    instance.periods().saturating_sub(instance.lead(item)) as usize
}

/// The most that a setup of an item makes, by the row that links it to units: the largest total, or the largest lot where that is less.
pub fn most_by_setup(instance: &Instance, item: u32) -> i64
    requires low { 1 ≤ item }
    requires high { item ≤ item_count instance.now }
{
    let total = of_amount(instance.largest_total(item));
    match instance.max_lot(item) {
        Some(lot) => total.min(of_amount(lot)),
        None => total,
    }
}

impl MovedCosts {
    /// Costs of 0. The error is that memory ran out.
    pub fn zero(alloc: Global, instance: &Instance) -> Result<MovedCosts, AllocError> {
        let (items, periods) = (instance.items(), instance.periods());
        Ok(MovedCosts {
            fee: IntegerGrid::zero(alloc, items, periods)?,
            unit: IntegerGrid::zero(alloc, items, periods)?,
            tail: IntegerGrid::zero(alloc, items, periods)?,
            lift: IntegerGrid::zero(alloc, items, 1)?,
        })
    }

    // What setups of an item cost.
    fn write_fees(&mut self, instance: &Instance, scale: i64, rows: RowPrices<'_>, item: u32)
        requires low { 1 ≤ item }
        requires high { item ≤ item_count instance.now }
    {
        if let Some(line) = self.fee.line_mut(item) {
            write_scaled(line, instance.setup_costs(item), scale);
            add_time(line, instance.uses(item), rows.capacity, true);
            add_times(line, rows.lot.line(item), of_amount(instance.min_lot(item)));
            let most = less(0, most_by_setup(instance, item));
            add_times(line, rows.link.line(item), most);
        }
    }

    // What units of an item cost, without a lift.
    fn write_units(&mut self, instance: &Instance, scale: i64, rows: RowPrices<'_>, item: u32)
        requires low { 1 ≤ item }
        requires high { item ≤ item_count instance.now }
    {
        let lead = instance.lead(item) as usize;
        let Some(line) = self.unit.line_mut(item) else {
            return;
        };
        write_scaled(line, instance.unit_costs(item), scale);
        add_time(line, instance.uses(item), rows.capacity, false);
        add_times(line, rows.lot.line(item), -1);
        add_times(line, rows.link.line(item), 1);
        add_times(line, from_place(self.tail.line(item), lead), 1);
        for need in instance.needs(item) {
            let units = less(0, of_amount(need.quantity));
            add_times(line, self.tail.line(need.item), units);
        }
    }

    // The units of an item are lifted where the cheapest one costs less than nothing.
    fn lift_units(&mut self, instance: &Instance, item: u32)
        requires low { 1 ≤ item }
        requires high { item ≤ item_count instance.now }
    {
        let count = open_periods(instance, item);
        let lift = lift_of(self.unit.line(item), count);
        self.lift.put(item, 1, lift);
        if lift > 0 {
            if let Some(line) = self.unit.line_mut(item) {
                raise(line, count, lift);
            }
        }
    }

    /// The costs at these prices, which are so much larger than money. It takes no memory, and time in the number of items times
    /// that of the periods, for each resource and component.
    pub fn write(&mut self, instance: &Instance, scale: u64, rows: RowPrices<'_>) {
        let scale = of_amount(scale);
        for item in 1..instance.items() + 1 {
            if let Some(line) = self.tail.line_mut(item) {
                write_tail(line, rows.stock.line(item));
            }
        }
        for item in 1..instance.items() + 1 {
            self.write_fees(instance, scale, rows, item);
            self.write_units(instance, scale, rows, item);
            self.lift_units(instance, item);
        }
    }

    /// What a unit of an item that remains at the end costs by the lifts of all items in it.
    pub fn end_price(&self, instance: &Instance, grouping: &Grouping, item: u32) -> i64 {
        let mut sum = 0;
        for part in 1..instance.items() + 1 {
            let lift = self.lift.get(part, 1);
            if lift > 0 {
                sum = plus(sum, times(grouping.weight(part, item), lift));
            }
        }
        sum
    }
}
