// Prices of capacity, of stock and of backlog.
ghost use Rattle.std.specs.Prelude.{◌≤◌};
ghost use Rattle.lot_sizing.specs.Problem.{item_count};

use crate::pricing::Pricing;
use crate::settling::settle;
use crate::shares::Loads;
use integer_grids::IntegerGrid;
use integer_grids::numbers::{less, of_amount, over, plus, times};
use lot_model::Instance;
use price_groups::{RowPrices, most_by_setup};
use std::alloc::{AllocError, Global};

/// Prices of the time of resources, of stock and of backlog, by period, all times a scale, and within their bounds.
///
/// Each item by itself is planned with a price for the time that it takes, and with its echelon's prices of stock and
/// of backlog, in place of the capacities and of what items take of each other: any such prices bound the cost of all
/// plans from below (Lagrangean relaxation; Trigeiro, Thomas and McClain 1989).
#[derive(Debug, Drop)]
pub struct DualPrices {
    /// By how much prices are larger than money.
    pub scale: u64,
    /// A unit of time, by resource and period: at least 0.
    pub capacity: IntegerGrid,
    /// A unit of an item in stock at the end of a period, by item: at most the scale times its holding cost.
    pub stock: IntegerGrid,
    /// A unit of an item's echelon owed at the end of a period, by item: at least 0.
    pub back: IntegerGrid,
    /// A unit of an item that falls short at the end of a period, by item, where it is planned by what is on time of it: at least 0.
    pub share: IntegerGrid,
    /// A unit by which a lot is larger than the least lot of its setup, by item and period: at least 0.
    pub lot: IntegerGrid,
    /// A unit by which a lot is smaller than the largest lot of its setup, by item and period: at least 0, and no more than what a setup
    /// costs for each unit of that lot. It has no lines where no item has a largest lot.
    pub link: IntegerGrid,
}

// How many items have lines of prices of largest lots: all, or none where no item has a largest lot.
fn linked_items(instance: &Instance) -> u32 {
    for item in 1..instance.items() + 1 {
        if instance.max_lot(item).is_some() {
            return instance.items();
        }
    }
    0
}

impl DualPrices {
    // Prices of 0.
    pub(crate) fn zero(
        alloc: Global,
        instance: &Instance,
        scale: u64,
    ) -> Result<DualPrices, AllocError> {
        let periods = instance.periods();
        Ok(DualPrices {
            scale,
            capacity: IntegerGrid::zero(alloc, instance.resources(), periods)?,
            stock: IntegerGrid::zero(alloc, instance.items(), periods)?,
            back: IntegerGrid::zero(alloc, instance.items(), periods)?,
            share: IntegerGrid::zero(alloc, instance.items(), periods)?,
            lot: IntegerGrid::zero(alloc, instance.items(), periods)?,
            link: IntegerGrid::zero(alloc, linked_items(instance), periods)?,
        })
    }

    /// The prices by which costs of setups and units are written where items are planned in groups.
    pub fn rows(&self) -> RowPrices<'_> {
        RowPrices {
            capacity: &self.capacity,
            stock: &self.stock,
            lot: &self.lot,
            link: &self.link,
        }
    }

    /// What a unit of an item that remains at the end costs beyond the price of its stock; 0 where items aren't planned by what is on time
    /// of them. So much is known of each unit of the least end stock.
    pub fn end_rest(&self, instance: &Instance, pricing: &Pricing, item: u32) -> i64
        requires low { 1 ≤ item }
        requires high { item ≤ item_count instance.now }
    {
        if pricing.late_grouping().is_none() || instance.end_min(item) == 0 {
            return 0;
        }
        let cost = match instance.hold_costs(item).last() {
            Some(cost) => times(of_amount(self.scale), of_amount(*cost)),
            None => 0,
        };
        less(cost, self.stock.get(item, instance.periods())).max(0)
    }

    /// A copy of the prices. The error is that memory ran out.
    pub fn copy(&self, alloc: Global) -> Result<DualPrices, AllocError> {
        Ok(DualPrices {
            scale: self.scale,
            capacity: self.capacity.copy(alloc)?,
            stock: self.stock.copy(alloc)?,
            back: self.back.copy(alloc)?,
            share: self.share.copy(alloc)?,
            lot: self.lot.copy(alloc)?,
            link: self.link.copy(alloc)?,
        })
    }

    /// These prices are those of another list, of the same problem.
    pub fn take_from(&mut self, other: &DualPrices) {
        self.scale = other.scale;
        self.capacity.take_from(&other.capacity);
        self.stock.take_from(&other.stock);
        self.back.take_from(&other.back);
        self.share.take_from(&other.share);
        self.lot.take_from(&other.lot);
        self.link.take_from(&other.link);
    }

    /// The same prices with all costs dropped: their scale is 0, and what a unit in stock costs is taken off its price.
    /// The error is that memory ran out.
    pub fn dropped(
        &self,
        alloc: Global,
        instance: &Instance,
        pricing: &Pricing,
    ) -> Result<DualPrices, AllocError> {
        let mut found = DualPrices::zero(alloc, instance, 0)?;
        let mut loads = Loads::new(alloc, instance, pricing)?;
        found.drop_from(self, instance);
        settle(instance, pricing, &mut found, &mut loads);
        Ok(found)
    }

    /// The most that the price of the largest lot of an item may be in a period: what a setup costs, with the time that it takes and the
    /// price of its least lot, for each unit of that lot.
    pub fn most_link(&self, instance: &Instance, item: u32, period: u32) -> i64
        requires low { 1 ≤ item }
        requires high { item ≤ item_count instance.now }
        requires first { 1 ≤ period }
        requires last { period ≤ instance.now.periods }
    {
        let cost = of_amount(instance.setup_cost(item, period));
        let mut fee = times(of_amount(self.scale), cost);
        for usage in instance.uses(item) {
            let price = self.capacity.get(usage.resource, period);
            fee = plus(fee, times(of_amount(usage.setup), price));
        }
        let least = of_amount(instance.min_lot(item));
        fee = plus(fee, times(least, self.lot.get(item, period)));
        over(fee, most_by_setup(instance, item))
    }

    // These prices are those of another list, of the same problem, with all costs dropped, but may be outside their bounds.
    fn drop_from(&mut self, other: &DualPrices, instance: &Instance) {
        self.scale = 0;
        self.capacity.take_from(&other.capacity);
        self.stock.take_from(&other.stock);
        self.back.clear();
        self.share.clear();
        self.lot.take_from(&other.lot);
        self.link.take_from(&other.link);
        let scale = of_amount(other.scale);
        for item in 1..instance.items() + 1 {
            if let Some(line) = self.stock.line_mut(item) {
                take_costs(line, instance.hold_costs(item), scale);
            }
        }
    }
}

// What a unit in stock costs is taken off its price.
fn take_costs(line: &mut [i64], costs: &[u64], scale: i64) {
    for (cell, cost) in line.iter_mut().zip(costs) {
        *cell = less(*cell, times(scale, of_amount(*cost)));
    }
}
