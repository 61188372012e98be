// Feasible plans to begin with.
ghost use Rattle.std.specs.Prelude.{◌≡◌, ◌≤◌, ◌<◌, ◌*◌, ◌++◌, All, IfOk, OnOk, length};
ghost use Rattle.lot_sizing.specs.Problem.{item_count};
ghost use Rattle.plan_rules.specs.Cells.{Fits};
ghost use Rattle.plan_rules.specs.Rows.{IfFound};
ghost use Rattle.first_plans.specs.declared.listing.TheConstants.{BUILDING_WORK};
ghost use Rattle.first_plans.specs.Made.{HasOwn, IsEmptyUnlessPlain, IsGrown, IsMade, IsNoDearer, those};

use crate::by_families::{improved_by_families, tries_within};
use crate::improving::improved;
use crate::kicks::kicked;
use heur_build::{PARTS, built_plan, wanted_apart, wanted_spread};
use lot_model::{Instance, is_plain};
use own_plan::own_period_plan;
use plan_rules::{Grid, Planned};
use std::alloc::{AllocError, Global};
use work_clock::Deadline;

/// What building plans may take to improve one: so many plans of a single item and period.
pub const BUILDING_WORK: u32 = 4_000_000;

// What may be built to improve a plan once more after random changes: so many plans of a single item and period, each of which
// is compared with the other items and periods.
const KICK_WORK: u64 = 400_000_000;

// How often the plan of a whole model is changed at random and improved again, at most.
const MODEL_KICKS: u32 = 30;

// Plans are changed at random only where this many plans may be built for each item and period.
const KICK_SWEEPS: u32 = 32;

// A pattern of setups by which a plan is built.
#[derive(Clone, Copy)]
enum Pattern {
    // The setups of a cheapest way to serve each item by itself, where so many quarters of what its components cost in stock are
    // taken off of what it costs there.
    Apart(u64),
    // A setup of each item in one of so many periods, the items in turn.
    Every(u64),
}

// All patterns but that of setups everywhere, which comes first, in the order in which plans are built by them.
const PATTERNS: [Pattern; 8] = [
    Pattern::Apart(0),
    Pattern::Apart(1),
    Pattern::Apart(2),
    Pattern::Apart(3),
    Pattern::Apart(PARTS),
    Pattern::Every(2),
    Pattern::Every(3),
    Pattern::Every(4),
];

// Puts a plan to a list, if there is one.
fn keep(list: &mut Vec<Planned>, found: Option<Planned>) -> Result<(), AllocError>
    ensures { IfOk result (λ _. list.new.items ≡ list.old.items ++ those found) }
{
    if let Some(planned) = found {
        list.push(planned)?;
    }
    Ok(())
}

// Puts the plan to a list that is built with these setups, if there is one.
fn keep_built(
    alloc: Global,
    instance: &Instance,
    wanted: &Grid,
    list: &mut Vec<Planned>,
) -> Result<(), AllocError>
    requires wanted { Fits instance.now wanted.now }
    requires each { All (IsMade instance.now) list.old.items }
    ensures { OnOk result (IsGrown instance.now list.old.items list.new.items) }
{
    let built = built_plan(alloc, instance, wanted)?;
    keep(list, built)?;
    Ok(())
}

// The setups of a pattern.
fn setups_of(alloc: Global, instance: &Instance, pattern: Pattern) -> Result<Grid, AllocError>
    ensures { IfOk result (Fits instance.now) }
{
    match pattern {
        Pattern::Apart(quarters) => wanted_apart(alloc, instance, quarters),
        Pattern::Every(periods) => wanted_spread(alloc, instance, periods),
    }
}

// Puts the plan to a list that is built with the setups of a pattern, if there is one.
fn keep_pattern(
    alloc: Global,
    instance: &Instance,
    pattern: Pattern,
    list: &mut Vec<Planned>,
) -> Result<(), AllocError>
    requires each { All (IsMade instance.now) list.old.items }
    ensures { OnOk result (IsGrown instance.now list.old.items list.new.items) }
{
    let wanted = setups_of(alloc, instance, pattern)?;
    keep_built(alloc, instance, &wanted, list)
}

// Puts the plan to a list that is built with setups everywhere, if there is one.
fn keep_everywhere(
    alloc: Global,
    instance: &Instance,
    list: &mut Vec<Planned>,
) -> Result<(), AllocError>
    requires each { All (IsMade instance.now) list.old.items }
    ensures { OnOk result (IsGrown instance.now list.old.items list.new.items) }
{
    let wanted = Grid::filled(alloc, instance.items(), instance.periods(), 1)?;
    keep_built(alloc, instance, &wanted, list)
}

/// How many plans may be built to improve one within `BUILDING_WORK`: fewer of a large instance, each of which takes longer.
#[tactic(auto, using(crate::proofs::Tries::tries_fit))]
pub fn tries_for(instance: &Instance) -> u32
    ensures { result * (item_count instance.now * item_count instance.now * instance.now.periods)
        ≤ BUILDING_WORK }
{
    let size = instance.items() * instance.items() * instance.periods();
    match BUILDING_WORK.checked_div(size) {
        Some(tries) => tries,
        None => BUILDING_WORK,
    }
}

// The best plan that is found after random changes of a plan's setups, where enough plans may be built to try all other changes
// of their setups some times.
fn kicked_within(
    alloc: Global,
    instance: &Instance,
    planned: Planned,
    until: Deadline,
) -> Result<Planned, AllocError>
    requires made { IsMade instance.now planned }
    ensures { IfOk result (IsNoDearer instance.now planned) }
{
    let tries = tries_within(instance, KICK_WORK);
    if tries / KICK_SWEEPS < instance.items() * instance.periods() {
        return Ok(planned);
    }
    kicked(alloc, instance, planned, MODEL_KICKS, tries, until)
}

// The cheapest plan that is found by changing these setups.
fn improved_from(
    alloc: Global,
    instance: &Instance,
    wanted: &Grid,
    until: Deadline,
) -> Result<Option<Planned>, AllocError>
    requires wanted { Fits instance.now wanted.now }
    ensures { IfFound result (IsMade instance.now) }
{
    match built_plan(alloc, instance, wanted)? {
        Some(planned) => {
            let near = improved_by_families(alloc, instance, planned, until)?;
            let better = improved(alloc, instance, near, tries_for(instance))?;
            Ok(Some(kicked_within(alloc, instance, better, until)?))
        }
        None => Ok(None),
    }
}

// The place of a plan that none costs less than.
fn cheapest(list: &[Planned]) -> usize
    requires { 1 ≤ length list.now }
    ensures { result < length list.now }
{
    let mut best = 0;
    for place in 1..list.len() {
        if list[place].cost < list[best].cost {
            best = place;
        }
    }
    best
}

// Puts the plan to a list that the cheapest one is improved to.
fn keep_improved(
    alloc: Global,
    instance: &Instance,
    until: Deadline,
    list: &mut Vec<Planned>,
) -> Result<(), AllocError>
    requires each { All (IsMade instance.now) list.old.items }
    ensures { OnOk result (IsGrown instance.now list.old.items list.new.items) }
{
    if list.is_empty() {
        return Ok(());
    }
    let place = cheapest(list);
    let start = &list[place];
    let found = improved_from(alloc, instance, &start.plan.setup, until)?;
    keep(list, found)?;
    Ok(())
}

// The list of the own-period plan, if it is feasible.
fn own_list(alloc: Global, instance: &Instance) -> Result<Vec<Planned>, AllocError>
    ensures each { IfOk result (λ list. All (IsMade instance.now) list.items) }
    ensures own { IfOk result (λ list. HasOwn instance.now list.items) }
{
    let mut list = Vec::new(alloc);
    let own = own_period_plan(alloc, instance)?;
    keep(&mut list, own)?;
    Ok(list)
}

/// Feasible plans with their costs, in no order. The own-period plan is among them where it is feasible, so
/// the cheapest costs no more than it; otherwise the list may be empty. It is empty where an item has a lead
/// time, a least lot or a largest lot.
///
/// The others are built backward by periods with nine patterns of setups: everywhere, where each item is served most
/// cheaply by itself at five prices of stock, and in each second, third and fourth period in turn; and the cheapest of
/// these is improved, first by one family of items after the other, and again after random changes of its setups, which are
/// the same each time. Improving ends early when it is time. The error is that memory ran out.
pub fn candidates(
    alloc: Global,
    instance: &Instance,
    until: Deadline,
) -> Result<Vec<Planned>, AllocError>
    ensures each { IfOk result (λ list. All (IsMade instance.now) list.items) }
    ensures own { IfOk result (λ list. HasOwn instance.now list.items) }
    ensures plain { IfOk result (λ list. IsEmptyUnlessPlain instance.now list.items) }
{
    if !is_plain(instance) {
        return Ok(Vec::new(alloc));
    }
    let mut list = own_list(alloc, instance)?;
    keep_everywhere(alloc, instance, &mut list)?;
    for pattern in PATTERNS {
        keep_pattern(alloc, instance, pattern, &mut list)?;
    }
    keep_improved(alloc, instance, until, &mut list)?;
    Ok(list)
}
