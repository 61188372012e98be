// Where a walk stands: lots, what they take, and what they cost.
use crate::shop::{Product, Shop};
use crate::taking::is_marked;
use crate::worth::{Worth, item_worth, time_worth};
use integer_grids::IntegerGrid;
use integer_grids::numbers::{plus, times};
use std::alloc::{AllocError, Global};

/// Lots, the time that they take of each resource in each period, and what they cost.
#[derive(Drop)]
pub(crate) struct Stand {
    pub(crate) make: IntegerGrid,
    pub(crate) used: IntegerGrid,
    // What each item costs, and what each resource breaks.
    items: Vec<Worth>,
    machines: Vec<Worth>,
    pub(crate) worth: Worth,
}

// A number at a place counted from 1 is written, where there is such a place.
fn write_worth(list: &mut [Worth], place: u32, worth: Worth) {
    if let Some(cell) = list.get_mut((place as usize).wrapping_sub(1)) {
        *cell = worth;
    }
}

// The number at a place counted from 1.
fn worth_at(list: &[Worth], place: u32) -> Worth {
    match list.get((place as usize).wrapping_sub(1)) {
        Some(worth) => *worth,
        None => Worth { cost: 0, broken: 0 },
    }
}

// The time that an item's lots take of a resource is added so many times.
fn add_load(lots: &[i64], times_of: i64, setup: i64, unit: i64, used: &mut [i64]) {
    for (cell, lot) in used.iter_mut().zip(lots.iter()) {
        if *lot > 0 {
            let time = plus(setup, times(unit, *lot));
            *cell = plus(*cell, times(times_of, time));
        }
    }
}

// The same of all its resources.
fn add_loads(product: &Product, make: &IntegerGrid, times_of: i64, used: &mut IntegerGrid) {
    for load in product.loads.iter() {
        if let Some(line) = used.line_mut(load.resource) {
            let lots = make.line(product.number);
            add_load(lots, times_of, load.setup, load.unit, line);
        }
    }
}

impl Stand {
    /// These lots. The error is that memory ran out.
    pub(crate) fn of(alloc: Global, shop: &Shop, make: IntegerGrid) -> Result<Stand, AllocError> {
        let none = Worth { cost: 0, broken: 0 };
        let mut stand = Stand {
            make,
            used: IntegerGrid::zero(alloc, shop.resources(), shop.periods)?,
            items: vec![in alloc; none; shop.products.len()]?,
            machines: vec![in alloc; none; shop.machines.len()]?,
            worth: none,
        };
        for product in shop.products.iter() {
            stand.put_in(product);
        }
        stand.judge_all(shop);
        Ok(stand)
    }

    /// The same once more. The error is that memory ran out.
    pub(crate) fn copy(&self, alloc: Global) -> Result<Stand, AllocError> {
        Ok(Stand {
            make: self.make.copy(alloc)?,
            used: self.used.copy(alloc)?,
            items: self.items.as_slice().to_vec(alloc)?,
            machines: self.machines.as_slice().to_vec(alloc)?,
            worth: self.worth,
        })
    }

    /// The lots of an item take no time any more.
    pub(crate) fn take_out(&mut self, product: &Product) {
        add_loads(product, &self.make, -1, &mut self.used);
    }

    /// The lots of an item take their time.
    pub(crate) fn put_in(&mut self, product: &Product) {
        add_loads(product, &self.make, 1, &mut self.used);
    }

    /// The lots of marked items take no time any more.
    pub(crate) fn take_out_all(&mut self, shop: &Shop, marks: &[bool]) {
        for product in shop.products.iter() {
            if is_marked(marks, product.number) {
                self.take_out(product);
            }
        }
    }

    // What an item costs is found anew.
    fn judge_item(&mut self, shop: &Shop, item: u32) {
        if let Some(product) = shop.product(item) {
            let worth = item_worth(shop, &self.make, product);
            write_worth(&mut self.items, item, worth);
        }
    }

    // What a resource breaks is found anew.
    fn judge_machine(&mut self, shop: &Shop, resource: u32) {
        if let Some(machine) = shop.machine(resource) {
            let worth = time_worth(self.used.line(resource), machine);
            write_worth(&mut self.machines, resource, worth);
        }
    }

    // The components of an item.
    fn judge_parts(&mut self, shop: &Shop, product: &Product) {
        for line in product.parts.iter() {
            self.judge_item(shop, line.item);
        }
    }

    // An item whose lots changed, its components and its resources.
    fn judge_changed(&mut self, shop: &Shop, product: &Product) {
        self.judge_item(shop, product.number);
        self.judge_parts(shop, product);
        for load in product.loads.iter() {
            self.judge_machine(shop, load.resource);
        }
    }

    // The sum of what all cost and break.
    fn add_up(&mut self) {
        let mut worth = Worth { cost: 0, broken: 0 };
        for other in self.items.iter() {
            worth.add(*other);
        }
        for other in self.machines.iter() {
            worth.add(*other);
        }
        self.worth = worth;
    }

    /// What the lots cost is found anew, where those of marked items alone changed.
    pub(crate) fn judge(&mut self, shop: &Shop, marks: &[bool]) {
        for product in shop.products.iter() {
            if is_marked(marks, product.number) {
                self.judge_changed(shop, product);
            }
        }
        self.add_up();
    }

    /// The same, where all lots changed.
    pub(crate) fn judge_all(&mut self, shop: &Shop) {
        for product in shop.products.iter() {
            self.judge_item(shop, product.number);
        }
        for machine in shop.machines.iter() {
            self.judge_machine(shop, machine.number);
        }
        self.add_up();
    }

    // Whether an item breaks a rule, or a resource that it takes time on.
    pub(crate) fn is_troubled(&self, product: &Product) -> bool {
        if worth_at(&self.items, product.number).broken > 0 {
            return true;
        }
        for load in product.loads.iter() {
            if worth_at(&self.machines, load.resource).broken > 0 {
                return true;
            }
        }
        false
    }
}
