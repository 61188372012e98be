// Plans that are built with the setups which the rounds of prices want.
ghost use Rattle.std.specs.Prelude.{◌≤◌, IfOk, OnOk};
ghost use Rattle.lot_sizing.specs.Problem.{item_count};
ghost use Rattle.plan_rules.specs.Cells.{Fits};
ghost use Rattle.plan_rules.specs.Rows.{IfFound};
ghost use Rattle.own_plan.specs.Made.{IsMade};
ghost use Rattle.incumbent.specs.Kept.{IsBestSoFar, IsNoWorseBest};

use crate::effort::Effort;
use crate::lagging::lag_from_average;
use crate::programs::{try_program, try_walk};
use crate::scope::Scope;
use first_plans::{improved, tries_for};
use heur_build::built_plan;
use incumbent::keep_within;
use integer_grids::numbers::ONE;
use lot_model::Instance;
use plan_rules::{Grid, Planned};
use price_rounds::Average;
use std::alloc::{AllocError, Global};

// How often all changes of a plan are tried: of one that is near the best.
const SWEEPS: u32 = 2;

// So many plans are built at most to try each change of an item's setup in a period once.
const CHANGES: u32 = 6;

// A plan is near the best one where it costs at most one part more of so many.
const NEAR_PART: u128 = 50;

// A setup is wanted that is made in more than a half of the rounds, and then one in more than a fifth.
const HALF: i128 = ONE / 2;

const FIFTH: i128 = ONE / 5;

// Marks of lists of numbers (FNV-1a).
const FIRST_MARK: u64 = 14_695_981_039_346_656_037;

const MARK_FACTOR: u64 = 1_099_511_628_211;

// Whether an item is set up in a period more often than so much.
fn is_wanted(average: &Average, item: u32, period: u32, least: i128) -> bool {
    average.setup(item, period) > least
}

// A mark, and whether an item is set up more often than so much in each period.
fn item_mark(instance: &Instance, average: &Average, item: u32, least: i128, before: u64) -> u64 {
    let mut mark = before;
    for period in 1..instance.periods() + 1 {
        let digit = if is_wanted(average, item, period, least) {
            1
        } else {
            2
        };
        mark = (mark ^ digit).wrapping_mul(MARK_FACTOR);
    }
    mark
}

// The mark of the setups that are made more often than so much.
fn mark_of(instance: &Instance, average: &Average, least: i128) -> u64 {
    let mut mark = FIRST_MARK;
    for item in 1..instance.items() + 1 {
        mark = item_mark(instance, average, item, least, mark);
    }
    mark
}

// An item is wanted where it is set up more often than so much.
fn want_item(instance: &Instance, average: &Average, item: u32, least: i128, wanted: &mut Grid)
    requires low { 1 ≤ item }
    requires high { item ≤ item_count instance.now }
    requires wanted { Fits instance.now wanted.old }
    ensures { Fits instance.now wanted.new }
{
    for period in 1..instance.periods() + 1 {
        if is_wanted(average, item, period, least) {
            wanted.set(item, period, 1);
        }
    }
}

// The setups whose frequency in the average of the rounds is above a threshold.
fn wanted_of(
    alloc: Global,
    instance: &Instance,
    average: &Average,
    least: i128,
) -> Result<Grid, AllocError>
    ensures { IfOk result (Fits instance.now) }
{
    let mut wanted = Grid::filled(alloc, instance.items(), instance.periods(), 0)?;
    for item in 1..instance.items() + 1 {
        want_item(instance, average, item, least, &mut wanted);
    }
    Ok(wanted)
}

// Whether a plan is near the best one, if there is one.
fn is_near(planned: &Planned, best: &Option<Planned>) -> bool {
    match best {
        Some(made) => planned.cost <= made.cost.saturating_add(made.cost / NEAR_PART),
        None => true,
    }
}

// What a plan takes to be built, in plans of a single item and period.
fn size_of(instance: &Instance) -> u32 {
    instance.items() * instance.items() * instance.periods()
}

// How many plans are built to improve one: some for each item and period, within the work that building may take.
fn tries_of(instance: &Instance) -> u32 {
    let changes = instance.items() * instance.periods();
    changes
        .saturating_mul(CHANGES * SWEEPS)
        .min(tries_for(instance))
}

// Whether a plan is worth improving, and there is room for the work, which is then taken.
fn takes_improving(
    instance: &Instance,
    planned: &Planned,
    effort: &mut Effort,
    best: &Option<Planned>,
) -> bool {
    let work = u64::from(tries_of(instance)) * u64::from(size_of(instance));
    is_near(planned, best) && effort.takes_work(work)
}

// The plan that is built with these setups; one that is near the best is improved.
fn built_near(
    alloc: Global,
    instance: &Instance,
    wanted: &Grid,
    effort: &mut Effort,
    best: &Option<Planned>,
) -> Result<Option<Planned>, AllocError>
    requires { Fits instance.now wanted.now }
    ensures { IfFound result (IsMade instance.now) }
{
    match built_plan(alloc, instance, wanted)? {
        Some(planned) => {
            if !takes_improving(instance, &planned, effort, best) {
                return Ok(Some(planned));
            }
            let better = improved(alloc, instance, planned, tries_of(instance))?;
            Ok(Some(better))
        }
        None => Ok(None),
    }
}

// Builds a plan with the setups that are made more often than so much, where that wasn't tried, and plans by the program with
// them. The better one is kept, if it lies within the ranges.
fn try_setups(
    alloc: Global,
    scope: &Scope<'_>,
    average: &Average,
    least: i128,
    effort: &mut Effort,
    best: &mut Option<Planned>,
) -> Result<(), AllocError>
    requires { IsBestSoFar scope.now.instance.now scope.now.ranges.now best.old }
    ensures { OnOk result
        (IsNoWorseBest scope.now.instance.now scope.now.ranges.now best.new best.old) }
{
    let instance = scope.instance;
    if scope.until.is_past() || !effort.remember(mark_of(instance, average, least))? {
        return Ok(());
    }
    let wanted = wanted_of(alloc, instance, average, least)?;
    let found = built_near(alloc, instance, &wanted, effort, best)?;
    keep_within(instance, scope.ranges, best, found);
    try_program(alloc, scope, &wanted, effort, best)
}

/// Makes plans with the setups that are made in more than a half of the rounds of prices, and in more than a fifth, where there
/// is still room for it and these setups weren't tried, and keeps the best plan, with its cost in money, of those that lie
/// within the ranges. Once in a while it walks from that. When it is time to end it makes no more.
///
/// `average` says how often each item is set up in each period, on the average of the rounds. The ranges have a number for each
/// item and period of the instance, and the best plan so far lies within them. The error is that memory ran out; it takes memory
/// for the plans and for a tableau.
pub(crate) fn try_average(
    alloc: Global,
    scope: &Scope<'_>,
    average: &Average,
    effort: &mut Effort,
    best: &mut Option<Planned>,
) -> Result<(), AllocError>
    requires { IsBestSoFar scope.now.instance.now scope.now.ranges.now best.old }
    ensures { OnOk result
        (IsNoWorseBest scope.now.instance.now scope.now.ranges.now best.new best.old) }
{
    lag_from_average(alloc, scope, average, effort, best)?;
    try_setups(alloc, scope, average, HALF, effort, best)?;
    try_setups(alloc, scope, average, FIFTH, effort, best)?;
    try_walk(alloc, scope, effort, best)
}
