// Whether what is left of the opening stocks has room in the end.
ghost use Rattle.std.specs.Prelude.{◌≡◌, ◌≤◌, ◌+◌, ◌↔◌, IfNone, IfSome, IsTrue};
ghost use Rattle.lot_sizing.specs.Sums.{sum_to};
ghost use Rattle.lot_sizing.specs.Problem.{EachItem, demand, item_count};
ghost use Rattle.lot_sizing.specs.Net.{HasRoom};
ghost use Rattle.lot_model.specs.Views.{IsInstance};
ghost use Rattle.uncoupled.specs.Items.{IsFirstWithoutRoom};

use lot_model::Instance;

// What is asked for of an item in all.
fn demand_in_all(instance: &Instance, item: u32) -> u64
    requires low { 1 ≤ item }
    requires high { item ≤ item_count instance.now }
    ensures { result ≡ sum_to instance.now.periods (demand instance.now item) }
{
    let mut sum = 0u64;
    for period in 1..instance.periods() + 1 {
        sum += instance.demand(item, period);
    }
    sum
}

// Whether what is left of an item's opening stock has room in the end.
fn has_room(instance: &Instance, item: u32) -> bool
    requires low { 1 ≤ item }
    requires high { item ≤ item_count instance.now }
    ensures { IsTrue result ↔ HasRoom instance.now item }
{
    let asked = u128::from(demand_in_all(instance, item));
    u128::from(instance.opening(item)) <= asked + u128::from(instance.end_max(item))
}

/// The first item that has no room in the end for what is left of its opening stock, once all demand is
/// served. None where each has room.
pub fn first_without_room(instance: &Instance) -> Option<u32>
    ensures first { IfSome result (IsFirstWithoutRoom instance.now) }
    ensures rooms { IfNone result (EachItem instance.now (HasRoom instance.now)) }
    ensures instance { IsInstance instance.now }
{
    for item in 1..instance.items() + 1 {
        if !has_room(instance, item) {
            return Some(item);
        }
    }
    None
}
