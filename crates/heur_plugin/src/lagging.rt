// Plans by walks over the lots of single items.
ghost use Rattle.std.specs.Prelude.{◌≤◌, IfOk, IfSome, OnOk};
ghost use Rattle.lot_sizing.specs.Problem.{item_count};
ghost use Rattle.plan_rules.specs.Cells.{Fits};
ghost use Rattle.plan_rules.specs.Rows.{IfFound};
ghost use Rattle.own_plan.specs.Made.{IsMade};
ghost use Rattle.incumbent.specs.Kept.{IsBestSoFar, IsNoWorseBest};

use crate::effort::Effort;
use crate::scope::Scope;
use crate::shares::{FIRST_SHARE, limit};
use first_plans::candidates;
use heur_lags::{has_free_lots, improved_lagged, lagged_plan, plain_model, repaired};
use incumbent::keep_within;
use lot_model::Instance;
use plan_rules::{Grid, Planned};
use price_rounds::Average;
use std::alloc::{AllocError, Global};
use work_clock::Deadline;

// The random changes of the walks before the first node are begun with these seeds.
const FIRST_SEED: u64 = 1;

const THIRD_SEED: u64 = 3;

const LAST_SEED: u64 = 4;

// Where an item has a lead time, or a bound on its lots that binds, further walks from no lots are begun with these.
const FURTHER_SEED: u64 = 5;

const FURTHEST_SEED: u64 = 7;

// What each of the first walks may take for each item and period, of a model with free lots and of another one, the last one before
// the first node, one in the tree, and one that begins with the lots of rounds of prices.
const FREE_WORK: u64 = 40_000;

const FIRST_WORK: u64 = 160_000;

const LAST_WORK: u64 = 160_000;

const TREE_WORK: u64 = 10_000;

const HINT_WORK: u64 = 2_000;

// Marks of lots (FNV-1a).
const FIRST_MARK: u64 = 14_695_981_039_346_656_037;

const MARK_FACTOR: u64 = 1_099_511_628_211;

// The most that a walk may take.
const MOST_WORK: u64 = 150_000_000;

// A model is large where a first walk might take more than so much.
const LARGE_WORK: u64 = 30_000_000;

// Of the work of a walk so much is taken to need a millisecond, which is less than it does in one.
const MILLI_WORK: u64 = 10_000;

// What a walk may take at least, however little time is left.
const LEAST_WORK: u64 = 1_000_000;

// What each of the first walks may take for each item and period.
fn first_work(instance: &Instance) -> u64 {
    if has_free_lots(instance) {
        FREE_WORK
    } else {
        FIRST_WORK
    }
}

// Whether a walk goes on better from the best plan, if there is one, than from no lots: where the model is large.
fn is_large(instance: &Instance) -> bool {
    let cells = u64::from(instance.items() * instance.periods());
    cells.saturating_mul(first_work(instance)) > LARGE_WORK
}

// What a walk may take, by what it may for each item and period, and by the time that is left.
fn work_of(instance: &Instance, each: u64, until: Deadline) -> u64 {
    let cells = u64::from(instance.items() * instance.periods());
    let work = cells.saturating_mul(each).min(MOST_WORK);
    match until.millis_left() {
        Some(millis) => work.min(millis.saturating_mul(MILLI_WORK).max(LEAST_WORK)),
        None => work,
    }
}

// Walks from no lots where there is no plan yet, or the model isn't large and it isn't time to end, and keeps what is found, if it lies within the ranges.
fn walk_anew(
    alloc: Global,
    scope: &Scope<'_>,
    seed: u64,
    best: &mut Option<Planned>,
) -> Result<(), AllocError>
    requires { IsBestSoFar scope.now.instance.now scope.now.ranges.now best.old }
    ensures { OnOk result
        (IsNoWorseBest scope.now.instance.now scope.now.ranges.now best.new best.old) }
{
    let instance = scope.instance;
    let until = limit(scope.until, best);
    if best.is_some() && (until.is_past() || is_large(instance)) {
        return Ok(());
    }
    let work = work_of(instance, first_work(instance), until);
    let found = lagged_plan(alloc, instance, seed, work)?;
    keep_within(instance, scope.ranges, best, found);
    Ok(())
}

// The cheapest one of the plans of a plain model that are made without a search, if there is one.
fn cheapest_of(
    alloc: Global,
    plain: &Instance,
    until: Deadline,
) -> Result<Option<Planned>, AllocError> {
    let mut best: Option<Planned> = None;
    for made in candidates(alloc, plain, until.first_of(FIRST_SHARE))? {
        let is_cheaper = match &best {
            Some(other) => made.cost < other.cost,
            None => true,
        };
        if is_cheaper {
            best = Some(made);
        }
    }
    Ok(best)
}

// The plan that a walk finds from the lots of a plan of a plain model beside this one.
fn plan_by_plain(
    alloc: Global,
    instance: &Instance,
    plain: &Instance,
    until: Deadline,
) -> Result<Option<Planned>, AllocError>
    ensures { IfFound result (IsMade instance.now) }
{
    match cheapest_of(alloc, plain, until)? {
        Some(made) => {
            let work = work_of(instance, first_work(instance), until);
            repaired(alloc, instance, &made.plan.make, FIRST_SEED, work)
        }
        None => Ok(None),
    }
}

// The plan that a walk finds from the lots of a plan of the plain model beside an instance, where that model has other plans, and
// says enough of the instance.
fn found_by_plain(
    alloc: Global,
    instance: &Instance,
    until: Deadline,
) -> Result<Option<Planned>, AllocError>
    ensures { IfFound result (IsMade instance.now) }
{
    if has_free_lots(instance) {
        return Ok(None);
    }
    match plain_model(alloc, instance)? {
        Some(plain) => plan_by_plain(alloc, instance, &plain, until),
        None => Ok(None),
    }
}

// Keeps that plan, if it lies within the ranges.
fn walk_by_plain(
    alloc: Global,
    scope: &Scope<'_>,
    best: &mut Option<Planned>,
) -> Result<(), AllocError>
    requires { IsBestSoFar scope.now.instance.now scope.now.ranges.now best.old }
    ensures { OnOk result
        (IsNoWorseBest scope.now.instance.now scope.now.ranges.now best.new best.old) }
{
    let found = found_by_plain(alloc, scope.instance, scope.until)?;
    keep_within(scope.instance, scope.ranges, best, found);
    Ok(())
}

// A cheaper plan that a walk from the best one finds, if there is one. It takes so much work for each item and period at most.
fn lagged_from(
    alloc: Global,
    instance: &Instance,
    best: &Option<Planned>,
    seed: u64,
    each: u64,
    until: Deadline,
) -> Result<Option<Planned>, AllocError>
    requires { IfSome best.now (IsMade instance.now) }
    ensures { IfFound result (IsMade instance.now) }
{
    if until.is_past() {
        return Ok(None);
    }
    match best {
        Some(made) => {
            let work = work_of(instance, each, until);
            improved_lagged(alloc, instance, made, seed, work)
        }
        None => Ok(None),
    }
}

// Walks from the best plan where it isn't time to end, and keeps what is found, if it lies within the ranges.
fn walk_further(
    alloc: Global,
    scope: &Scope<'_>,
    seed: u64,
    each: u64,
    best: &mut Option<Planned>,
) -> Result<(), AllocError>
    requires { IsBestSoFar scope.now.instance.now scope.now.ranges.now best.old }
    ensures { OnOk result
        (IsNoWorseBest scope.now.instance.now scope.now.ranges.now best.new best.old) }
{
    let found = lagged_from(alloc, scope.instance, best, seed, each, scope.until)?;
    keep_within(scope.instance, scope.ranges, best, found);
    Ok(())
}

// Walks twice from no lots, with a seed and the next one.
fn walk_twice(
    alloc: Global,
    scope: &Scope<'_>,
    seed: u64,
    best: &mut Option<Planned>,
) -> Result<(), AllocError>
    requires { IsBestSoFar scope.now.instance.now scope.now.ranges.now best.old }
    ensures { OnOk result
        (IsNoWorseBest scope.now.instance.now scope.now.ranges.now best.new best.old) }
{
    walk_anew(alloc, scope, seed, best)?;
    walk_anew(alloc, scope, seed.wrapping_add(1), best)
}

// Walks four times more from no lots, where lots aren't free.
fn walk_often(
    alloc: Global,
    scope: &Scope<'_>,
    best: &mut Option<Planned>,
) -> Result<(), AllocError>
    requires { IsBestSoFar scope.now.instance.now scope.now.ranges.now best.old }
    ensures { OnOk result
        (IsNoWorseBest scope.now.instance.now scope.now.ranges.now best.new best.old) }
{
    if has_free_lots(scope.instance) {
        return Ok(());
    }
    walk_twice(alloc, scope, FURTHER_SEED, best)?;
    walk_twice(alloc, scope, FURTHEST_SEED, best)
}

/// Walks from no lots and from the best plan, and keeps what is found, if it lies within the ranges.
pub(crate) fn lag_at_start(
    alloc: Global,
    scope: &Scope<'_>,
    best: &mut Option<Planned>,
) -> Result<(), AllocError>
    requires { IsBestSoFar scope.now.instance.now scope.now.ranges.now best.old }
    ensures { OnOk result
        (IsNoWorseBest scope.now.instance.now scope.now.ranges.now best.new best.old) }
{
    walk_by_plain(alloc, scope, best)?;
    walk_twice(alloc, scope, FIRST_SEED, best)?;
    walk_often(alloc, scope, best)?;
    let early = scope.before_first_node(best);
    let each = first_work(scope.instance);
    walk_further(alloc, &early, THIRD_SEED, each, best)
}

/// Walks from the best plan once more before the first node.
pub(crate) fn lag_after_programs(
    alloc: Global,
    scope: &Scope<'_>,
    best: &mut Option<Planned>,
) -> Result<(), AllocError>
    requires { IsBestSoFar scope.now.instance.now scope.now.ranges.now best.old }
    ensures { OnOk result
        (IsNoWorseBest scope.now.instance.now scope.now.ranges.now best.new best.old) }
{
    let early = scope.before_first_node(best);
    walk_further(alloc, &early, LAST_SEED, LAST_WORK, best)
}

// The lots of an item that rounds of prices make on the average are written.
fn write_lots(instance: &Instance, average: &Average, item: u32, lots: &mut Grid)
    requires low { 1 ≤ item }
    requires high { item ≤ item_count instance.now }
    requires lots { Fits instance.now lots.old }
    ensures { Fits instance.now lots.new }
{
    for period in 1..instance.periods() + 1 {
        let units = average.lot(item, period);
        if units > 0 {
            lots.set(item, period, units);
        }
    }
}

// The lots that rounds of prices make on the average.
fn lots_of(alloc: Global, instance: &Instance, average: &Average) -> Result<Grid, AllocError>
    ensures { IfOk result (Fits instance.now) }
{
    let mut lots = Grid::filled(alloc, instance.items(), instance.periods(), 0)?;
    for item in 1..instance.items() + 1 {
        write_lots(instance, average, item, &mut lots);
    }
    Ok(lots)
}

// A mark, and the lots of an item.
fn item_mark(instance: &Instance, average: &Average, item: u32, before: u64) -> u64 {
    let mut mark = before;
    for period in 1..instance.periods() + 1 {
        mark = (mark ^ average.lot(item, period)).wrapping_mul(MARK_FACTOR);
    }
    mark
}

// The mark of these lots.
fn mark_of(instance: &Instance, average: &Average) -> u64 {
    let mut mark = FIRST_MARK;
    for item in 1..instance.items() + 1 {
        mark = item_mark(instance, average, item, mark);
    }
    mark
}

/// Walks from the lots that rounds of prices make on the average, where lots aren't free and these weren't tried, and keeps what is
/// found, if it lies within the ranges.
pub(crate) fn lag_from_average(
    alloc: Global,
    scope: &Scope<'_>,
    average: &Average,
    effort: &mut Effort,
    best: &mut Option<Planned>,
) -> Result<(), AllocError>
    requires { IsBestSoFar scope.now.instance.now scope.now.ranges.now best.old }
    ensures { OnOk result
        (IsNoWorseBest scope.now.instance.now scope.now.ranges.now best.new best.old) }
{
    let instance = scope.instance;
    if scope.until.is_past() || has_free_lots(instance) {
        return Ok(());
    }
    if !effort.remember(mark_of(instance, average))? {
        return Ok(());
    }
    let work = work_of(instance, HINT_WORK, scope.until);
    if !effort.takes_walks(work) {
        return Ok(());
    }
    let lots = lots_of(alloc, instance, average)?;
    let found = repaired(alloc, instance, &lots, FIRST_SEED, work)?;
    keep_within(instance, scope.ranges, best, found);
    Ok(())
}

/// Walks from the best plan in the tree.
pub(crate) fn lag_in_tree(
    alloc: Global,
    scope: &Scope<'_>,
    seed: u64,
    best: &mut Option<Planned>,
) -> Result<(), AllocError>
    requires { IsBestSoFar scope.now.instance.now scope.now.ranges.now best.old }
    ensures { OnOk result
        (IsNoWorseBest scope.now.instance.now scope.now.ranges.now best.new best.old) }
{
    walk_further(alloc, scope, seed, TREE_WORK, best)
}
