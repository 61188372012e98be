// The numbers of a model, with signs.
ghost use Rattle.std.specs.Prelude.{◌≤◌};
ghost use Rattle.lot_sizing.specs.Problem.{item_count, resource_count};

use integer_grids::numbers::{at, of_amount, plus, times};
use lot_model::Instance;
use std::alloc::{AllocError, Global};

/// More than all amounts and costs of shops: no bound, or no way.
pub(crate) const FAR: i64 = 1_000_000_000_000_000;

// A shortage of a unit costs as much as this part of the dearest setup, and so many times what holding it costs.
const SETUP_PART: i64 = 4;

const HOLD_TIMES: i64 = 4;

// Using a twentieth of a resource's time too much costs as much as the dearest setup.
const TIME_PARTS: i64 = 20;

/// A number of an item, and how many units go into one of another.
#[derive(Clone, Copy, Debug)]
pub(crate) struct Line {
    pub(crate) item: u32,
    pub(crate) units: i64,
}

/// The time that an item takes on a resource.
#[derive(Clone, Copy, Debug)]
pub(crate) struct Load {
    pub(crate) resource: u32,
    pub(crate) unit: i64,
    pub(crate) setup: i64,
}

/// An item. The lists have an entry for each period.
#[derive(Debug, Drop)]
pub(crate) struct Product {
    pub(crate) number: u32,
    pub(crate) rank: u32,
    pub(crate) lead: u32,
    /// The least and the largest lot, in units.
    pub(crate) least: i64,
    pub(crate) most: i64,
    pub(crate) opening: i64,
    pub(crate) end_min: i64,
    pub(crate) end_max: i64,
    /// Whether it may be late.
    pub(crate) late: bool,
    pub(crate) demand: Vec<i64>,
    pub(crate) unit: Vec<i64>,
    pub(crate) setup: Vec<i64>,
    pub(crate) hold: Vec<i64>,
    pub(crate) owed: Vec<i64>,
    /// Its components, and the items that it goes into.
    pub(crate) parts: Vec<Line>,
    pub(crate) users: Vec<Line>,
    pub(crate) loads: Vec<Load>,
    /// What a unit costs that is wanting, in money.
    pub(crate) penalty: i64,
}

/// A resource, with its time in each period.
#[derive(Debug, Drop)]
pub(crate) struct Machine {
    pub(crate) number: u32,
    pub(crate) time: Vec<i64>,
    /// What a time unit costs that is used too much, in money.
    pub(crate) penalty: i64,
}

/// A model.
#[derive(Debug, Drop)]
pub(crate) struct Shop {
    pub(crate) periods: u32,
    pub(crate) items: u32,
    /// All ranks are below it.
    pub(crate) depth: u32,
    pub(crate) products: Vec<Product>,
    pub(crate) machines: Vec<Machine>,
}

// Amounts with signs.
fn signed_list(alloc: Global, amounts: &[u64]) -> Result<Vec<i64>, AllocError> {
    let mut list = Vec::with_capacity(alloc, amounts.len())?;
    for amount in amounts {
        list.push(of_amount(*amount))?;
    }
    Ok(list)
}

// The largest amount.
fn largest(amounts: &[u64]) -> i64 {
    let mut most = 0;
    for amount in amounts {
        most = of_amount(*amount).max(most);
    }
    most
}

// The dearest setup.
fn dearest_setup(instance: &Instance) -> i64 {
    let mut most = 0;
    for item in 1..instance.items() + 1 {
        most = largest(instance.setup_costs(item)).max(most);
    }
    most
}

// The components of an item.
fn parts_of(alloc: Global, instance: &Instance, item: u32) -> Result<Vec<Line>, AllocError>
    requires low { 1 ≤ item }
    requires high { item ≤ item_count instance.now }
{
    let mut list = Vec::new(alloc);
    for need in instance.needs(item) {
        list.push(Line {
            item: need.item,
            units: of_amount(need.quantity),
        })?;
    }
    Ok(list)
}

// The items that an item goes into.
fn users_of(alloc: Global, instance: &Instance, item: u32) -> Result<Vec<Line>, AllocError>
    requires low { 1 ≤ item }
    requires high { item ≤ item_count instance.now }
{
    let mut list = Vec::new(alloc);
    for other in 1..instance.items() + 1 {
        let units = of_amount(instance.per_unit(item, other));
        if units > 0 {
            list.push(Line { item: other, units })?;
        }
    }
    Ok(list)
}

// The resources that an item takes time on.
fn loads_of(alloc: Global, instance: &Instance, item: u32) -> Result<Vec<Load>, AllocError>
    requires low { 1 ≤ item }
    requires high { item ≤ item_count instance.now }
{
    let mut list = Vec::new(alloc);
    for usage in instance.uses(item) {
        list.push(Load {
            resource: usage.resource,
            unit: of_amount(usage.unit),
            setup: of_amount(usage.setup),
        })?;
    }
    Ok(list)
}

// What a unit costs that is wanting.
fn shortage_penalty(instance: &Instance, item: u32, dearest: i64) -> i64
    requires low { 1 ≤ item }
    requires high { item ≤ item_count instance.now }
{
    let held = plus(
        largest(instance.hold_costs(item)),
        largest(instance.unit_costs(item)),
    );
    let owed = match instance.backlog_costs(item) {
        Some(costs) => largest(costs),
        None => 0,
    };
    let worth = plus(
        times(HOLD_TIMES, held.max(owed)),
        dearest.wrapping_div(SETUP_PART),
    );
    plus(worth, 1)
}

// The largest lot of an item, and no bound where plans don't make more in all.
fn largest_lot(instance: &Instance, item: u32) -> i64
    requires low { 1 ≤ item }
    requires high { item ≤ item_count instance.now }
{
    match instance.max_lot(item) {
        Some(most) if most < instance.largest_total(item) => of_amount(most),
        _ => FAR,
    }
}

// An item.
fn product_of(
    alloc: Global,
    instance: &Instance,
    item: u32,
    rank: u32,
    dearest: i64,
) -> Result<Product, AllocError>
    requires low { 1 ≤ item }
    requires high { item ≤ item_count instance.now }
{
    let owed = match instance.backlog_costs(item) {
        Some(costs) => signed_list(alloc, costs)?,
        None => Vec::new(alloc),
    };
    Ok(Product {
        number: item,
        rank,
        lead: instance.lead(item),
        least: of_amount(instance.min_lot(item)).max(1),
        most: largest_lot(instance, item),
        opening: of_amount(instance.opening(item)),
        end_min: of_amount(instance.end_min(item)),
        end_max: of_amount(instance.end_max(item)),
        late: instance.has_backlog_cost(item),
        demand: signed_list(alloc, instance.demands(item))?,
        unit: signed_list(alloc, instance.unit_costs(item))?,
        setup: signed_list(alloc, instance.setup_costs(item))?,
        hold: signed_list(alloc, instance.hold_costs(item))?,
        owed,
        parts: parts_of(alloc, instance, item)?,
        users: users_of(alloc, instance, item)?,
        loads: loads_of(alloc, instance, item)?,
        penalty: shortage_penalty(instance, item, dearest),
    })
}

// What a time unit costs that is used too much.
fn overtime_penalty(time: &[i64], dearest: i64) -> i64 {
    let mut total = 0;
    for number in time {
        total = plus(total, *number);
    }
    let periods = i64::try_from(time.len()).unwrap_or(1).max(1);
    let mean = total.wrapping_div(periods).max(1);
    plus(times(dearest, TIME_PARTS).wrapping_div(mean), 1)
}

// A resource.
fn machine_of(
    alloc: Global,
    instance: &Instance,
    resource: u32,
    dearest: i64,
) -> Result<Machine, AllocError>
    requires low { 1 ≤ resource }
    requires high { resource ≤ resource_count instance.now }
{
    let time = signed_list(alloc, instance.capacities(resource))?;
    Ok(Machine {
        number: resource,
        penalty: overtime_penalty(&time, dearest),
        time,
    })
}

// All items.
fn products_of(
    alloc: Global,
    instance: &Instance,
    dearest: i64,
) -> Result<Vec<Product>, AllocError> {
    let ranks = instance.ranks();
    let mut list = Vec::new(alloc);
    for item in 1..instance.items() + 1 {
        let rank = ranks[(item - 1) as usize];
        list.push(product_of(alloc, instance, item, rank, dearest)?)?;
    }
    Ok(list)
}

// All resources.
fn machines_of(
    alloc: Global,
    instance: &Instance,
    dearest: i64,
) -> Result<Vec<Machine>, AllocError> {
    let mut list = Vec::new(alloc);
    for resource in 1..instance.resources() + 1 {
        list.push(machine_of(alloc, instance, resource, dearest)?)?;
    }
    Ok(list)
}

// One more than the highest rank.
fn depth_of(instance: &Instance) -> u32 {
    let mut depth = 0u32;
    for rank in instance.ranks() {
        depth = depth.max(rank.saturating_add(1));
    }
    depth
}

impl Shop {
    /// The numbers of a model. The error is that memory ran out.
    pub(crate) fn of(alloc: Global, instance: &Instance) -> Result<Shop, AllocError> {
        let dearest = dearest_setup(instance).max(1);
        Ok(Shop {
            periods: instance.periods(),
            items: instance.items(),
            depth: depth_of(instance),
            products: products_of(alloc, instance, dearest)?,
            machines: machines_of(alloc, instance, dearest)?,
        })
    }

    /// The item with a number, if there is one.
    pub(crate) fn product(&self, item: u32) -> Option<&Product> {
        self.products.get((item as usize).wrapping_sub(1))
    }

    /// The resource with a number, if there is one.
    pub(crate) fn machine(&self, resource: u32) -> Option<&Machine> {
        self.machines.get((resource as usize).wrapping_sub(1))
    }

    /// How many resources there are.
    pub(crate) fn resources(&self) -> u32 {
        u32::try_from(self.machines.len()).unwrap_or(0)
    }

    /// The time of a resource in a period, and 0 where there is none.
    pub(crate) fn time(&self, resource: u32, period: u32) -> i64 {
        match self.machine(resource) {
            Some(machine) => at(&machine.time, period),
            None => 0,
        }
    }
}

impl Shop {
    /// Whether no item takes time on a resource or goes into another one.
    pub(crate) fn is_loose(&self) -> bool {
        for product in self.products.iter() {
            if product.parts.len() + product.loads.len() > 0 {
                return false;
            }
        }
        true
    }
}
