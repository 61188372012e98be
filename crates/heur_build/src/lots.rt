// The lots of a period of a plan that is built backward.
ghost use Rattle.std.specs.Prelude.{◌≡◌, ◌≤◌, length};
ghost use Rattle.lot_sizing.specs.Problem.{item_count};
ghost use Rattle.heur_build.specs.Construction.{HasShape};

use crate::construction::Construction;
use lot_model::Instance;
use plan_rules::used_up;

// The demand of an item from a period on.
fn demand_from(instance: &Instance, item: u32, first: u32) -> u64
    requires item_low { 1 ≤ item }
    requires item_high { item ≤ item_count instance.now }
    requires low { 1 ≤ first }
{
    let mut total = 0u64;
    for period in first..instance.periods() + 1 {
        total = total.saturating_add(instance.demand(item, period));
    }
    total
}

// The demand of an item that is met in a period: that of the period, or what may be late of an earlier one. None is later
// than the last period.
fn due_in(instance: &Instance, built: &Construction, item: u32, period: u32) -> u64
    requires shape { HasShape instance.now built.now }
    requires item_low { 1 ≤ item }
    requires item_high { item ≤ item_count instance.now }
    requires low { 1 ≤ period }
    requires high { period ≤ instance.now.periods }
{
    let late = built.late;
    if late == 0 || !instance.has_backlog_cost(item) {
        return instance.demand(item, period);
    }
    let from = if period > late { period - late } else { 1 };
    if period == instance.periods() {
        demand_from(instance, item, from)
    } else if period > late {
        instance.demand(item, from)
    } else {
        0
    }
}

// Units of an item that are asked for in a period: by its demand, by the lots of the items that it goes into,
// by the end, and by later periods.
fn units_asked(instance: &Instance, built: &Construction, item: u32, period: u32) -> u64
    requires shape { HasShape instance.now built.now }
    requires item_low { 1 ≤ item }
    requires item_high { item ≤ item_count instance.now }
    requires low { 1 ≤ period }
    requires high { period ≤ instance.now.periods }
{
    let carried = built.carried[(item - 1) as usize];
    let end_min = if period == instance.periods() {
        instance.end_min(item)
    } else {
        0
    };
    let used = used_up(instance, &built.make, item, period).min(u64::MAX as u128) as u64;
    let demand = due_in(instance, built, item, period);
    carried
        .saturating_add(end_min)
        .saturating_add(used)
        .saturating_add(demand)
}

// Makes as much of an item in a period as is asked for, may be made and is left.
fn set_lot(instance: &Instance, built: &mut Construction, item: u32, period: u32)
    requires shape { HasShape instance.now built.old }
    requires item_low { 1 ≤ item }
    requires item_high { item ≤ item_count instance.now }
    requires low { 1 ≤ period }
    requires high { period ≤ instance.now.periods }
    ensures { HasShape instance.now built.new }
{
    let asked = units_asked(instance, built, item, period);
    let left = built.left[(item - 1) as usize];
    let lot = match built.limit[(item - 1) as usize] {
        Some(limit) => asked.min(limit).min(left),
        None => asked.min(left),
    };
    built.make.set(item, period, lot);
    built.setup.set(item, period, lot.min(1));
}

// Sets the lots of all items of a rank.
fn set_lots_of_rank(
    instance: &Instance,
    ranks: &[u32],
    rank: u32,
    built: &mut Construction,
    period: u32,
)
    requires shape { HasShape instance.now built.old }
    requires size { length ranks.now ≡ item_count instance.now }
    requires low { 1 ≤ period }
    requires high { period ≤ instance.now.periods }
    ensures { HasShape instance.now built.new }
{
    for item in 1..instance.items() + 1 {
        if ranks[(item - 1) as usize] == rank {
            set_lot(instance, built, item, period);
        }
    }
}

/// Sets the lots of a period, items before their components.
pub fn set_lots(instance: &Instance, built: &mut Construction, period: u32)
    requires shape { HasShape instance.now built.old }
    requires low { 1 ≤ period }
    requires high { period ≤ instance.now.periods }
    ensures { HasShape instance.now built.new }
{
    let ranks = instance.ranks();
    for rank in 0..instance.items() + 1 {
        set_lots_of_rank(instance, ranks, rank, built, period);
    }
}

// Hands on what of an item isn't made in a period to the period before.
fn settle_item(instance: &Instance, built: &mut Construction, item: u32, period: u32)
    requires shape { HasShape instance.now built.old }
    requires item_low { 1 ≤ item }
    requires item_high { item ≤ item_count instance.now }
    requires low { 1 ≤ period }
    requires high { period ≤ instance.now.periods }
    ensures { HasShape instance.now built.new }
{
    let asked = units_asked(instance, built, item, period);
    let lot = built.make.get(item, period);
    let left = built.left[(item - 1) as usize];
    built.carried[(item - 1) as usize] = asked.saturating_sub(lot);
    built.left[(item - 1) as usize] = left.saturating_sub(lot);
}

/// Hands on what isn't made in a period to the period before.
pub fn settle(instance: &Instance, built: &mut Construction, period: u32)
    requires shape { HasShape instance.now built.old }
    requires low { 1 ≤ period }
    requires high { period ≤ instance.now.periods }
    ensures { HasShape instance.now built.new }
{
    for item in 1..instance.items() + 1 {
        settle_item(instance, built, item, period);
    }
}
