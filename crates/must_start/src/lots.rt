// The largest lot of an item in a period.
ghost use Rattle.std.specs.Prelude.{◌≤◌};
ghost use Rattle.lot_sizing.specs.Problem.{item_count};
ghost use Rattle.lot_sizing.specs.declared.limits.TheConstants.{MAX_TOTAL};
ghost use Rattle.must_start.specs.Lots.{IsLargestLotOf, IsMostMade};
ghost use Rattle.must_start.specs.Steps.{IsLargestOrNone, IsMostInALot};

use crate::laws::lots_hold;
use lot_model::Instance;

// The largest quantity up to the most for which a resource has the time, with a setup. None where it has not even
// the time of a setup.
fn lot_in_time(most: u64, unit: u64, setup: u64, capacity: u64) -> Option<u64>
    ensures { IsLargestOrNone most unit setup capacity result }
{
    if setup > capacity {
        return None;
    }
    if unit == 0 {
        return Some(most);
    }
    Some(most.min((capacity - setup) / unit))
}

// The most that any lot of an item may be: its largest total, and its bound on lots where it has one.
fn most_in_a_lot(instance: &Instance, item: u32) -> u64
    requires low { 1 ≤ item }
    requires high { item ≤ item_count instance.now }
    ensures { IsMostInALot instance.now item result }
{
    let total = instance.largest_total(item);
    match instance.max_lot(item) {
        None => total,
        Some(most) => total.min(most),
    }
}

/// The largest quantity of an item for which a setup in a period has the time on each resource if nothing else is
/// made, within its largest total and its bound on lots; and 0 where no quantity is possible. No feasible plan
/// makes more (`holds`). It takes no memory.
pub fn largest_lot(instance: &Instance, item: u32, period: u32) -> u64
    requires low { 1 ≤ item }
    requires high { item ≤ item_count instance.now }
    requires period_low { 1 ≤ period }
    requires period_high { period ≤ instance.now.periods }
    ensures largest { IsLargestLotOf instance.now item period result }
    ensures holds { IsMostMade instance.now item period result }
    ensures small { result ≤ MAX_TOTAL }
{
    lots_hold();
    let mut lot = most_in_a_lot(instance, item);
    for resource in 1..instance.resources() + 1 {
        let unit = instance.unit_time(item, resource);
        let setup = instance.setup_time(item, resource);
        match lot_in_time(lot, unit, setup, instance.capacity(resource, period)) {
            Some(possible) => lot = possible,
            None => return 0,
        }
    }
    lot
}
