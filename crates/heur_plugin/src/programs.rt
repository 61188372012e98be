// Plans by programs whose setups are given: at the root, with the setups that rounds of prices want, and by walks from the best
// plan.
ghost use Rattle.std.specs.Prelude.{IfSome, OnOk};
ghost use Rattle.plan_rules.specs.Cells.{Fits};
ghost use Rattle.plan_rules.specs.Rows.{IfFound};
ghost use Rattle.own_plan.specs.Made.{IsMade};
ghost use Rattle.incumbent.specs.Kept.{IsBestSoFar, IsNoWorseBest};
ghost use Rattle.node_domains.specs.Within.{HaveShape};

use crate::effort::Effort;
use crate::lagging::lag_in_tree;
use crate::scope::Scope;
use heur_setup_lps::{planned, plunged, walked};
use incumbent::keep_within;
use lot_model::Instance;
use plan_rules::{Grid, Planned};
use std::alloc::{AllocError, Global};
use work_clock::Deadline;

// What the changes of a walk before the first node may take together, where each is counted as the square of items times periods.
const ROOT_WORK: u64 = 60_000;

// What the changes of a walk in the tree may take together, where each is counted as the square of items times periods.
const TREE_WORK: u64 = 60_000;

// Most changes that a walk tries.
const MOST_CHANGES: u64 = 600;

// What the programs of a plunge may take, and its most nodes.
const PLUNGE_WORK: u64 = 3_000_000;

const MOST_NODES: u64 = 3_000;

// The random changes of the walk at the root are begun with this seed.
const SEED: u64 = 1;

// What a program with given setups is counted as, and a change of a walk: the square of items times periods.
fn work_of(instance: &Instance) -> u64 {
    let places = u64::from(instance.items() * instance.periods());
    places * places
}

// How many programs this much work allows, at most `most`.
fn programs_for(instance: &Instance, work: u64, most: u64) -> u32 {
    let count = work / work_of(instance).max(1);
    u32::try_from(count.min(most)).unwrap_or(0)
}

// A plan by the program with all setups that may be, or by a plunge.
fn first_plan(alloc: Global, scope: &Scope<'_>) -> Result<Option<Planned>, AllocError>
    requires { HaveShape scope.now.instance.now scope.now.ranges.now }
    ensures { IfFound result (IsMade scope.now.instance.now) }
{
    let instance = scope.instance;
    let high = &scope.ranges.setup_high;
    if let Some(found) = planned(alloc, instance, high, high, scope.until)? {
        return Ok(Some(found));
    }
    let low = &scope.ranges.setup_low;
    let nodes = programs_for(instance, PLUNGE_WORK, MOST_NODES);
    plunged(alloc, instance, low, high, nodes, scope.until)
}

// The best plan that a walk finds from the best one, if there is one.
fn walked_from(
    alloc: Global,
    instance: &Instance,
    best: &Option<Planned>,
    seed: u64,
    work: u64,
    until: Deadline,
) -> Result<Option<Planned>, AllocError>
    requires { IfSome best.now (IsMade instance.now) }
    ensures { IfFound result (IsMade instance.now) }
{
    if until.is_past() {
        return Ok(None);
    }
    let tries = programs_for(instance, work, MOST_CHANGES);
    match best {
        Some(made) => walked(alloc, instance, made, seed, tries, until),
        None => Ok(None),
    }
}

// Walks from the best plan, and keeps what is found, if it lies within the ranges.
fn walk(
    alloc: Global,
    scope: &Scope<'_>,
    seed: u64,
    work: u64,
    best: &mut Option<Planned>,
) -> Result<(), AllocError>
    requires { IsBestSoFar scope.now.instance.now scope.now.ranges.now best.old }
    ensures { OnOk result
        (IsNoWorseBest scope.now.instance.now scope.now.ranges.now best.new best.old) }
{
    let found = walked_from(alloc, scope.instance, best, seed, work, scope.until)?;
    keep_within(scope.instance, scope.ranges, best, found);
    Ok(())
}

/// Looks for a plan with all setups or by a plunge, where there is none, and keeps it, if it lies within the ranges.
pub(crate) fn look(
    alloc: Global,
    scope: &Scope<'_>,
    best: &mut Option<Planned>,
) -> Result<(), AllocError>
    requires { IsBestSoFar scope.now.instance.now scope.now.ranges.now best.old }
    ensures { OnOk result
        (IsNoWorseBest scope.now.instance.now scope.now.ranges.now best.new best.old) }
{
    if best.is_some() || scope.until.is_past() {
        return Ok(());
    }
    let found = first_plan(alloc, scope)?;
    keep_within(scope.instance, scope.ranges, best, found);
    Ok(())
}

/// Walks from the best plan before the first node.
pub(crate) fn walk_at_start(
    alloc: Global,
    scope: &Scope<'_>,
    best: &mut Option<Planned>,
) -> Result<(), AllocError>
    requires { IsBestSoFar scope.now.instance.now scope.now.ranges.now best.old }
    ensures { OnOk result
        (IsNoWorseBest scope.now.instance.now scope.now.ranges.now best.new best.old) }
{
    let early = scope.before_first_node(best);
    walk(alloc, &early, SEED, ROOT_WORK, best)
}

/// Plans by the program with these setups, while there is room for the work, and keeps the better plan, if it lies within the
/// ranges.
pub(crate) fn try_program(
    alloc: Global,
    scope: &Scope<'_>,
    wanted: &Grid,
    effort: &mut Effort,
    best: &mut Option<Planned>,
) -> Result<(), AllocError>
    requires wanted { Fits scope.now.instance.now wanted.now }
    requires best { IsBestSoFar scope.now.instance.now scope.now.ranges.now best.old }
    ensures { OnOk result
        (IsNoWorseBest scope.now.instance.now scope.now.ranges.now best.new best.old) }
{
    let instance = scope.instance;
    if scope.until.is_past() || !effort.takes_programs(work_of(instance)) {
        return Ok(());
    }
    let found = planned(alloc, instance, wanted, wanted, scope.until)?;
    keep_within(instance, scope.ranges, best, found);
    Ok(())
}

/// Walks from the best plan once in a while: when the rounds at the root end, and then at one in so many nodes.
pub(crate) fn try_walk(
    alloc: Global,
    scope: &Scope<'_>,
    effort: &mut Effort,
    best: &mut Option<Planned>,
) -> Result<(), AllocError>
    requires { IsBestSoFar scope.now.instance.now scope.now.ranges.now best.old }
    ensures { OnOk result
        (IsNoWorseBest scope.now.instance.now scope.now.ranges.now best.new best.old) }
{
    match effort.next_walk() {
        Some(seed) => {
            walk(alloc, scope, seed, TREE_WORK, best)?;
            lag_in_tree(alloc, scope, seed, best)
        }
        None => Ok(()),
    }
}
