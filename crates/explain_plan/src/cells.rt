// What a plan says at numbers that may name nothing of it, and the numbers of names.

use lot_model::Instance;
use plan_rules::{Grid, used_up};

/// The number of a grid at an item and a period.
pub(crate) fn cell_of(grid: &Grid, item: u32, period: u32) -> u64 {
    let is_row = item >= 1 && item <= grid.items();
    if is_row && period >= 1 && period <= grid.periods() {
        grid.get(item, period)
    } else {
        0
    }
}

/// How many units of an item go into the lots of others that are started in a period.
pub(crate) fn used_up_in(instance: &Instance, make: &Grid, item: u32, period: u32) -> u128 {
    if make.fits(instance) && period >= 1 && period <= instance.periods() {
        used_up(instance, make, item, period)
    } else {
        0
    }
}

/// The item of a name; 0 where there is none.
pub(crate) fn item_of(instance: &Instance, name: &[u8]) -> u32 {
    for item in 1..instance.items() + 1 {
        if instance.item_name(item).as_bytes() == name {
            return item;
        }
    }
    0
}

/// The resource of a name; 0 where there is none.
pub(crate) fn resource_of(instance: &Instance, name: &[u8]) -> u32 {
    for resource in 1..instance.resources() + 1 {
        if instance.resource_name(resource).as_bytes() == name {
            return resource;
        }
    }
    0
}
