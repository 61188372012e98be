// What a model says at numbers that may name nothing of it.
ghost use Rattle.std.specs.Prelude.{◌≤◌, ◌↔◌, IsTrue};
ghost use Rattle.lot_sizing.specs.Problem.{item_count};

use lot_model::Instance;

// Whether a number is that of an item.
fn is_item(instance: &Instance, item: u32) -> bool
    ensures low { IsTrue result → 1 ≤ item }
    ensures high { IsTrue result → item ≤ item_count instance.now }
{
    item >= 1 && item <= instance.items()
}

// Whether a number is that of a period.
fn is_period(instance: &Instance, period: u32) -> bool
    ensures low { IsTrue result → 1 ≤ period }
    ensures high { IsTrue result → period ≤ instance.now.periods }
{
    period >= 1 && period <= instance.periods()
}

/// The name of an item.
pub fn item_name(instance: &Instance, item: u32) -> &str {
    if is_item(instance, item) {
        instance.item_name(item)
    } else {
        "?"
    }
}

/// The name of a resource.
pub fn resource_name(instance: &Instance, resource: u32) -> &str {
    if resource >= 1 && resource <= instance.resources() {
        instance.resource_name(resource)
    } else {
        "?"
    }
}

/// The time of a resource in a period.
pub fn capacity_of(instance: &Instance, resource: u32, period: u32) -> u64 {
    let is_resource = resource >= 1 && resource <= instance.resources();
    if is_resource && is_period(instance, period) {
        instance.capacity(resource, period)
    } else {
        0
    }
}

/// Units of an item asked for in a period.
pub fn demand_of(instance: &Instance, item: u32, period: u32) -> u64 {
    if is_item(instance, item) && is_period(instance, period) {
        instance.demand(item, period)
    } else {
        0
    }
}

/// Units of an item in stock before the first period.
pub fn opening_of(instance: &Instance, item: u32) -> u64 {
    if is_item(instance, item) {
        instance.opening(item)
    } else {
        0
    }
}

/// The least stock of an item at the end of the last period.
pub fn end_min_of(instance: &Instance, item: u32) -> u64 {
    if is_item(instance, item) {
        instance.end_min(item)
    } else {
        0
    }
}

/// The largest stock of an item at the end of the last period.
pub fn end_max_of(instance: &Instance, item: u32) -> u64 {
    if is_item(instance, item) {
        instance.end_max(item)
    } else {
        u64::MAX
    }
}

/// The periods from the start of a lot to its arrival.
pub fn lead_of(instance: &Instance, item: u32) -> u32 {
    if is_item(instance, item) {
        instance.lead(item)
    } else {
        0
    }
}

/// The least quantity of a setup.
pub fn min_lot_of(instance: &Instance, item: u32) -> u64 {
    if is_item(instance, item) {
        instance.min_lot(item)
    } else {
        0
    }
}

/// The largest quantity of a period.
pub fn max_lot_of(instance: &Instance, item: u32) -> u64 {
    if is_item(instance, item) {
        instance.max_lot(item).unwrap_or(u64::MAX)
    } else {
        u64::MAX
    }
}

/// Whether an item may be delivered late.
pub fn may_be_late(instance: &Instance, item: u32) -> bool {
    is_item(instance, item) && instance.has_backlog_cost(item)
}

/// How many units of an item go into one unit of another.
pub fn per_unit_of(instance: &Instance, item: u32, other: u32) -> u64 {
    if is_item(instance, other) {
        instance.per_unit(item, other)
    } else {
        0
    }
}

/// The time of one unit of an item on a resource.
pub fn unit_time_of(instance: &Instance, item: u32, resource: u32) -> u64 {
    if is_item(instance, item) {
        instance.unit_time(item, resource)
    } else {
        0
    }
}

/// The time of a setup of an item on a resource.
pub fn setup_time_of(instance: &Instance, item: u32, resource: u32) -> u64 {
    if is_item(instance, item) {
        instance.setup_time(item, resource)
    } else {
        0
    }
}

/// The time that so many units and setups of an item take on a resource.
pub fn lot_time(instance: &Instance, resource: u32, item: u32, units: u128, setups: u128) -> u128 {
    let unit = u128::from(unit_time_of(instance, item, resource));
    let setup = u128::from(setup_time_of(instance, item, resource));
    unit.saturating_mul(units)
        .saturating_add(setup.saturating_mul(setups))
}
