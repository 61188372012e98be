// Lots that are moved to an earlier period where a resource has no time left.
ghost use Rattle.std.specs.Prelude.{◌≡◌, ◌≤◌, ◌<◌, IfSome};
ghost use Rattle.lot_sizing.specs.Problem.{item_count, resource_count};
ghost use Rattle.plan_rules.specs.Cells.{Fits};
ghost use Rattle.heur_build.specs.Construction.{HasShape};
ghost use Rattle.heur_build.specs.Relief.{IsMove};

use crate::construction::{BuildState, Construction, is_wanted};
use crate::lots::set_lots;
use crate::prices::echelon_hold;
use lot_model::Instance;
use plan_rules::Grid;

// How often an item's lot may be made smaller in a period, at most.
const MOVES_OF_ITEM: u32 = 4;

// A resource that is used for more time than it has.
#[derive(Clone, Copy)]
struct Overload {
    resource: u32,
    excess: u128,
}

// A lot, or a part of one, that may be made a period earlier.
#[derive(Clone, Copy)]
pub struct Move {
    pub item: u32,
    // What stays in the period.
    pub kept: u64,
    // What the move costs, in money, and the time that it gains.
    pub price: u128,
    pub room: u128,
}

// The time that lots and setups of a period take on a resource.
fn time_taken(instance: &Instance, built: &Construction, resource: u32, period: u32) -> u128
    requires shape { HasShape instance.now built.now }
    requires low { 1 ≤ period }
    requires high { period ≤ instance.now.periods }
{
    let mut total = 0u128;
    for item in 1..instance.items() + 1 {
        let lots = instance.unit_time(item, resource) as u128
            * built.make.get(item, period) as u128;
        let setups = instance.setup_time(item, resource) as u128
            * built.setup.get(item, period) as u128;
        total = total.saturating_add(lots).saturating_add(setups);
    }
    total
}

// The first resource that is used for more time than it has in a period.
fn first_overload(instance: &Instance, built: &Construction, period: u32) -> Option<Overload>
    requires shape { HasShape instance.now built.now }
    requires low { 1 ≤ period }
    requires high { period ≤ instance.now.periods }
{
    for resource in 1..instance.resources() + 1 {
        let taken = time_taken(instance, built, resource, period);
        let room = instance.capacity(resource, period) as u128;
        if taken > room {
            let excess = taken - room;
            return Some(Overload { resource, excess });
        }
    }
    None
}

// The time that a unit of an item takes on a resource, and with it the components of which lots are made in
// the period: they move along.
fn unit_room(
    instance: &Instance,
    built: &Construction,
    item: u32,
    resource: u32,
    period: u32,
) -> u128
    requires shape { HasShape instance.now built.now }
    requires low { 1 ≤ period }
    requires high { period ≤ instance.now.periods }
    requires item_low { 1 ≤ item }
    requires item_high { item ≤ item_count instance.now }
{
    let mut total = 0u128;
    for component in 1..instance.items() + 1 {
        if built.make.get(component, period) > 0 {
            let units = instance.weight(component, item) as u128;
            total = total.saturating_add(units * instance.unit_time(component, resource) as u128);
        }
    }
    total
}

// How much of a lot has to move, so that a resource is no longer used for too much time.
fn part_to_move(lot: u64, unit: u128, excess: u128) -> u64
    requires { 1 ≤ lot }
    ensures { result ≤ lot }
{
    if unit == 0 {
        return lot;
    }
    // All units but one that have to move.
    let units = excess.saturating_sub(1) / unit;
    if units < lot as u128 {
        units as u64 + 1
    } else {
        lot
    }
}

// The move of an item's lot of a period that gains the time that is wanting, or all that the lot gains.
fn move_of(
    instance: &Instance,
    wanted: &Grid,
    built: &Construction,
    period: u32,
    over: Overload,
    item: u32,
) -> Option<Move>
    requires wanted { Fits instance.now wanted.now }
    requires shape { HasShape instance.now built.now }
    requires low { 1 < period }
    requires high { period ≤ instance.now.periods }
    requires item_low { 1 ≤ item }
    requires item_high { item ≤ item_count instance.now }
    ensures { IfSome result (IsMove instance.now) }
{
    let lot = built.make.get(item, period);
    let unit = unit_room(instance, built, item, over.resource, period);
    let setup = instance.setup_time(item, over.resource);
    if lot == 0 || (unit == 0 && setup == 0) {
        return None;
    }
    let moved = part_to_move(lot, unit, over.excess);
    let held = moved as u128 * echelon_hold(instance, item, period - 1) as u128;
    let gained = unit.saturating_mul(moved as u128);
    let is_whole = moved == lot;
    let paid = if is_wanted(instance, wanted, built, item, period - 1) {
        0
    } else {
        instance.setup_cost(item, period - 1)
    };
    let saved = if is_whole {
        instance.setup_cost(item, period)
    } else {
        0
    };
    let more = if is_whole { setup } else { 0 };
    Some(Move {
        item,
        kept: lot - moved,
        price: held
            .saturating_add(paid as u128)
            .saturating_sub(saved as u128),
        room: gained.saturating_add(more as u128),
    })
}

// Whether one move costs less than another for the time that it gains.
fn is_cheaper(one: Move, other: Move) -> bool {
    one.price.saturating_mul(other.room) < other.price.saturating_mul(one.room)
}

// The cheaper one for the time gained, of the move of an item and the best of those before.
fn better(
    state: &BuildState<'_>,
    period: u32,
    over: Overload,
    item: u32,
    best: Option<Move>,
) -> Option<Move>
    requires wanted { Fits state.now.instance.now state.now.wanted.now }
    requires shape { HasShape state.now.instance.now state.now.plan.now }
    requires low { 1 < period }
    requires high { period ≤ state.now.instance.now.periods }
    requires item_low { 1 ≤ item }
    requires item_high { item ≤ item_count state.now.instance.now }
    requires best { IfSome best (IsMove state.now.instance.now) }
    ensures { IfSome result (IsMove state.now.instance.now) }
{
    let Some(found) = move_of(state.instance, state.wanted, state.plan, period, over, item) else {
        return best;
    };
    match best {
        Some(standing) if !is_cheaper(found, standing) => Some(standing),
        _ => Some(found),
    }
}

// The move of one lot that costs least for the time that it gains.
fn cheapest_move(
    instance: &Instance,
    wanted: &Grid,
    built: &Construction,
    period: u32,
    over: Overload,
) -> Option<Move>
    requires wanted { Fits instance.now wanted.now }
    requires shape { HasShape instance.now built.now }
    requires low { 1 < period }
    requires high { period ≤ instance.now.periods }
    ensures { IfSome result (IsMove instance.now) }
{
    let state = &BuildState {
        instance,
        wanted,
        plan: built,
    };
    let mut best = None;
    for item in 1..instance.items() + 1 {
        best = better(state, period, over, item, best);
    }
    best
}

// Moves one lot out of a period if a resource is used for too much time, and says whether it did.
fn relieve_once(instance: &Instance, wanted: &Grid, built: &mut Construction, period: u32) -> bool
    requires wanted { Fits instance.now wanted.now }
    requires shape { HasShape instance.now built.old }
    requires low { 1 < period }
    requires high { period ≤ instance.now.periods }
    ensures { HasShape instance.now built.new }
{
    let Some(over) = first_overload(instance, built, period) else {
        return false;
    };
    let Some(found) = cheapest_move(instance, wanted, built, period, over) else {
        return false;
    };
    built.limit[(found.item - 1) as usize] = Some(found.kept);
    built.earlier.set(found.item, period - 1, 1);
    set_lots(instance, built, period);
    true
}

/// Moves lots out of a period, while a resource is used for more time than it has. Each move leaves less of
/// an item, and after some for each item it is given up.
pub fn relieve(instance: &Instance, wanted: &Grid, built: &mut Construction, period: u32)
    requires wanted { Fits instance.now wanted.now }
    requires shape { HasShape instance.now built.old }
    requires low { 1 < period }
    requires high { period ≤ instance.now.periods }
    ensures { HasShape instance.now built.new }
{
    for _round in 0..MOVES_OF_ITEM * instance.items() {
        if !relieve_once(instance, wanted, built, period) {
            return;
        }
    }
}
