// Plans made backward by periods under the capacities.
ghost use Rattle.std.specs.Prelude.{◌≡◌, ◌≤◌, IfOk};
ghost use Rattle.lot_sizing.specs.Problem.{item_count, resource_count};
ghost use Rattle.plan_rules.specs.Cells.{Fits};
ghost use Rattle.plan_rules.specs.Rows.{IfFound};
ghost use Rattle.own_plan.specs.Made.{IsMade};
ghost use Rattle.heur_build.specs.Construction.{HasShape};

use crate::construction::{BuildState, Construction, begin, is_wanted};
use crate::lots::{set_lots, settle};
use crate::relief::relieve;
use lot_model::Instance;
use plan_rules::{Grid, Planned, complete_at_cost};
use std::alloc::{AllocError, Global};

// How many periods late demand is met, where it may be and none is met in time.
const LATENESS: [u32; 6] = [1, 2, 4, 8, 16, 32];

// The time that the units take on a resource which are left to the periods before this one.
fn work_before(instance: &Instance, built: &Construction, resource: u32, period: u32) -> u128
    requires shape { HasShape instance.now built.now }
    requires low { 1 ≤ period }
    requires high { period ≤ instance.now.periods }
{
    let mut total = 0u128;
    for item in 1..instance.items() + 1 {
        let left = built.left[(item - 1) as usize];
        let later = left.saturating_sub(built.make.get(item, period));
        let time = later as u128 * instance.unit_time(item, resource) as u128;
        total = total.saturating_add(time);
    }
    total
}

// The time that setups take on a resource in an earlier period, of items of which units are left then: of all of them, or
// of those with a wanted setup there.
fn setups_in(state: &BuildState<'_>, resource: u32, period: u32, earlier: u32, all: bool) -> u128
    requires wanted { Fits state.now.instance.now state.now.wanted.now }
    requires shape { HasShape state.now.instance.now state.now.plan.now }
    requires earlier_low { 1 ≤ earlier }
    requires earlier_high { earlier ≤ state.now.instance.now.periods }
    requires low { 1 ≤ period }
    requires high { period ≤ state.now.instance.now.periods }
{
    let mut total = 0u128;
    for item in 1..state.instance.items() + 1 {
        let is_left = state.plan.left[(item - 1) as usize] > state.plan.make.get(item, period);
        if is_left && (all || is_wanted(state.instance, state.wanted, state.plan, item, earlier)) {
            total = total.saturating_add(state.instance.setup_time(item, resource) as u128);
        }
    }
    total
}

// Whether a resource has the time before a period for the units that are left, with the setups that are wanted there or
// with setups of all these items in each period.
fn has_time_before(
    instance: &Instance,
    wanted: &Grid,
    built: &Construction,
    resource: u32,
    period: u32,
    all: bool,
) -> bool
    requires wanted { Fits instance.now wanted.now }
    requires shape { HasShape instance.now built.now }
    requires resource_low { 1 ≤ resource }
    requires resource_high { resource ≤ resource_count instance.now }
    requires low { 1 ≤ period }
    requires high { period ≤ instance.now.periods }
{
    let state = &BuildState {
        instance,
        wanted,
        plan: built,
    };
    let mut work = work_before(instance, built, resource, period);
    let mut room = 0u128;
    for earlier in 1..period {
        let setups = setups_in(state, resource, period, earlier, all);
        work = work.saturating_add(setups);
        room = room.saturating_add(instance.capacity(resource, earlier) as u128);
    }
    work <= room
}

// Whether all resources have that time.
fn rest_fits(
    instance: &Instance,
    wanted: &Grid,
    built: &Construction,
    period: u32,
    all: bool,
) -> bool
    requires wanted { Fits instance.now wanted.now }
    requires shape { HasShape instance.now built.now }
    requires low { 1 ≤ period }
    requires high { period ≤ instance.now.periods }
{
    for resource in 1..instance.resources() + 1 {
        if !has_time_before(instance, wanted, built, resource, period, all) {
            return false;
        }
    }
    true
}

// Lets items be made in a period where a setup is wanted; in the first one, or if all may, all of them.
fn open(instance: &Instance, wanted: &Grid, built: &mut Construction, period: u32, all: bool)
    requires wanted { Fits instance.now wanted.now }
    requires shape { HasShape instance.now built.old }
    requires low { 1 ≤ period }
    requires high { period ≤ instance.now.periods }
    ensures { HasShape instance.now built.new }
{
    for item in 1..instance.items() + 1 {
        let may = all || period == 1 || is_wanted(instance, wanted, built, item, period);
        built.limit[(item - 1) as usize] = if may { None } else { Some(0) };
    }
}

// Sets the lots of a period, once those of later ones are set.
fn build_period(
    instance: &Instance,
    wanted: &Grid,
    built: &mut Construction,
    period: u32,
    careful: bool,
)
    requires wanted { Fits instance.now wanted.now }
    requires shape { HasShape instance.now built.old }
    requires low { 1 ≤ period }
    requires high { period ≤ instance.now.periods }
    ensures { HasShape instance.now built.new }
{
    open(instance, wanted, built, period, false);
    set_lots(instance, built, period);
    if !rest_fits(instance, wanted, built, period, careful) {
        open(instance, wanted, built, period, true);
        set_lots(instance, built, period);
    }
    if period > 1 {
        relieve(instance, wanted, built, period);
    }
    settle(instance, built, period);
}

// Sets the lots of all periods, the last one first.
fn build(
    alloc: Global,
    instance: &Instance,
    wanted: &Grid,
    careful: bool,
    late: u32,
) -> Result<Construction, AllocError>
    requires wanted { Fits instance.now wanted.now }
    ensures { IfOk result (HasShape instance.now) }
{
    let mut built = begin(alloc, instance, late)?;
    for back in 0..instance.periods() {
        let period = instance.periods() - back;
        build_period(instance, wanted, &mut built, period, careful);
    }
    Ok(built)
}

// The plan that is built so, if it is feasible.
fn built_so(
    alloc: Global,
    instance: &Instance,
    wanted: &Grid,
    careful: bool,
    late: u32,
) -> Result<Option<Planned>, AllocError>
    requires wanted { Fits instance.now wanted.now }
    ensures plan { IfFound result (IsMade instance.now) }
{
    let Construction { make, setup, .. } = build(alloc, instance, wanted, careful, late)?;
    complete_at_cost(alloc, instance, make, setup)
}

// The plan that is built with demand so many periods late, where that may be, or as if all setups were wanted before.
fn built_after(
    alloc: Global,
    instance: &Instance,
    wanted: &Grid,
    late: u32,
) -> Result<Option<Planned>, AllocError>
    requires wanted { Fits instance.now wanted.now }
    ensures plan { IfFound result (IsMade instance.now) }
{
    match built_so(alloc, instance, wanted, false, late)? {
        Some(planned) => Ok(Some(planned)),
        None => built_so(alloc, instance, wanted, true, late),
    }
}

// Whether some demand may be late.
fn may_be_late(instance: &Instance) -> bool {
    for item in 1..instance.items() + 1 {
        if instance.has_backlog_cost(item) {
            return true;
        }
    }
    false
}

// The plan that is built with demand late by one period, two, four or more, whichever comes to one first.
fn built_late(
    alloc: Global,
    instance: &Instance,
    wanted: &Grid,
) -> Result<Option<Planned>, AllocError>
    requires wanted { Fits instance.now wanted.now }
    ensures plan { IfFound result (IsMade instance.now) }
{
    for late in LATENESS {
        if late < instance.periods() {
            if let Some(planned) = built_after(alloc, instance, wanted, late)? {
                return Ok(Some(planned));
            }
        }
    }
    Ok(None)
}

/// A feasible plan with its cost, made backward by periods, parents before their components: an item is made
/// where a setup is wanted (1 in the grid), and earlier where a resource has no time left. Where the time before a
/// period isn't enough for what is left and the setups that are wanted there, all items are made in it. If that comes to no
/// feasible plan, it is done once more as if all setups were wanted before. Where that comes to none either and demand may
/// be late, all that may be is met late, by one period, two, four and so on. None where nothing comes to a plan.
///
/// It takes memory for five grids, and time in the number of resources times that of items and the square of that of
/// periods. The error is that memory ran out.
pub fn built_plan(
    alloc: Global,
    instance: &Instance,
    wanted: &Grid,
) -> Result<Option<Planned>, AllocError>
    requires wanted { Fits instance.now wanted.now }
    ensures plan { IfFound result (IsMade instance.now) }
{
    match built_after(alloc, instance, wanted, 0)? {
        Some(planned) => Ok(Some(planned)),
        None if may_be_late(instance) => built_late(alloc, instance, wanted),
        None => Ok(None),
    }
}
