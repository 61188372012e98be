// Plans before the first node, of those that are made without a search and by programs.
ghost use Rattle.std.specs.Prelude.{IfSome, OnOk};
ghost use Rattle.plan_rules.specs.Rows.{IfFound};
ghost use Rattle.own_plan.specs.Made.{IsMade};
ghost use Rattle.incumbent.specs.Kept.{IsBestSoFar, IsMadeWithin, IsNoWorseBest};
ghost use Rattle.node_domains.specs.Within.{HaveShape, given_ranges};

use crate::lagging::{lag_after_programs, lag_at_start};
use crate::programs::{look, walk_at_start};
use crate::scope::Scope;
use crate::setup_walking::{best_cost, walk_over_setups};
use crate::shares::FIRST_SHARE;
use first_plans::candidates;
use heur_lags::{has_free_lots, plain_model};
use incumbent::keep_within;
use lot_model::{Instance, is_plain};
use plan_rules::{Planned, judge};
use std::alloc::{AllocError, Global};

// The best plan within the ranges of those that are made without a search, the later ones of the list first.
fn best_candidate(alloc: Global, scope: &Scope<'_>) -> Result<Option<Planned>, AllocError>
    requires { HaveShape scope.now.instance.now scope.now.ranges.now }
    ensures { IfFound result
        (IsMadeWithin scope.now.instance.now (given_ranges scope.now.ranges.now)) }
{
    let mut best = None;
    let mut list = candidates(alloc, scope.instance, scope.until.first_of(FIRST_SHARE))?;
    while let Some(made) = list.pop() {
        keep_within(scope.instance, scope.ranges, &mut best, Some(made));
    }
    Ok(best)
}

// A plan of the plain model as one of this model, if it is feasible here.
fn carried_over(instance: &Instance, made: Planned) -> Option<Planned>
    ensures { IfSome result (IsMade instance.now) }
{
    match judge(instance, &made.plan) {
        Ok(cost) => Some(Planned {
            plan: made.plan,
            cost,
        }),
        Err(_) => None,
    }
}

// The best plan within the ranges of those of the plain model, the later ones of the list first.
fn best_carried(alloc: Global, scope: &Scope<'_>) -> Result<Option<Planned>, AllocError>
    requires { HaveShape scope.now.instance.now scope.now.ranges.now }
    ensures { IfFound result
        (IsMadeWithin scope.now.instance.now (given_ranges scope.now.ranges.now)) }
{
    let Some(plain) = plain_model(alloc, scope.instance)? else {
        return Ok(None);
    };
    let mut best = None;
    let mut list = candidates(alloc, &plain, scope.until.first_of(FIRST_SHARE))?;
    while let Some(made) = list.pop() {
        let found = carried_over(scope.instance, made);
        keep_within(scope.instance, scope.ranges, &mut best, found);
    }
    Ok(best)
}

// The best plan within the ranges of those that are made without a search: of the plain model where the model isn't plain and lots are
// free nevertheless.
fn best_first(alloc: Global, scope: &Scope<'_>) -> Result<Option<Planned>, AllocError>
    requires { HaveShape scope.now.instance.now scope.now.ranges.now }
    ensures { IfFound result
        (IsMadeWithin scope.now.instance.now (given_ranges scope.now.ranges.now)) }
{
    if !is_plain(scope.instance) && has_free_lots(scope.instance) {
        best_carried(alloc, scope)
    } else {
        best_candidate(alloc, scope)
    }
}

// Keeps the best of those plans. Of plans that cost the same it is kept rather than the one before.
fn keep_candidate(
    alloc: Global,
    scope: &Scope<'_>,
    best: &mut Option<Planned>,
) -> Result<(), AllocError>
    requires { IsBestSoFar scope.now.instance.now scope.now.ranges.now best.old }
    ensures { OnOk result
        (IsNoWorseBest scope.now.instance.now scope.now.ranges.now best.new best.old) }
{
    let found = best_first(alloc, scope)?;
    let before = best.take();
    *best = found;
    keep_within(scope.instance, scope.ranges, best, before);
    Ok(())
}

// Walks over setups by programs in fixed point, and then over the lots of items where that found something.
fn walk_and_lag(
    alloc: Global,
    scope: &Scope<'_>,
    best: &mut Option<Planned>,
) -> Result<(), AllocError>
    requires { IsBestSoFar scope.now.instance.now scope.now.ranges.now best.old }
    ensures { OnOk result
        (IsNoWorseBest scope.now.instance.now scope.now.ranges.now best.new best.old) }
{
    let before = best_cost(best);
    walk_over_setups(alloc, scope, best)?;
    if best_cost(best) == before {
        return Ok(());
    }
    lag_after_programs(alloc, scope, best)
}

// Walks from the best plan: over setups by programs, over the lots of items, and once more over both.
fn walk_from_best(
    alloc: Global,
    scope: &Scope<'_>,
    best: &mut Option<Planned>,
) -> Result<(), AllocError>
    requires { IsBestSoFar scope.now.instance.now scope.now.ranges.now best.old }
    ensures { OnOk result
        (IsNoWorseBest scope.now.instance.now scope.now.ranges.now best.new best.old) }
{
    walk_at_start(alloc, scope, best)?;
    lag_after_programs(alloc, scope, best)?;
    walk_and_lag(alloc, scope, best)
}

/// Plans before the first node: those that are made without a search, walks over the lots of items, where there is no plan yet one
/// by the program with all setups or by a plunge, and walks from the best one, over setups and over lots. The best plan,
/// with its cost in money, is kept, of those that lie within the ranges. Where there is a time at which the search ends, a half of it is
/// taken at most once there is a plan.
///
/// The ranges have a number for each item and period of the instance, and the best plan so far lies within them. The error is
/// that memory ran out; it takes memory for the plans and for a tableau.
pub(crate) fn try_at_start(
    alloc: Global,
    scope: &Scope<'_>,
    best: &mut Option<Planned>,
) -> Result<(), AllocError>
    requires { IsBestSoFar scope.now.instance.now scope.now.ranges.now best.old }
    ensures { OnOk result
        (IsNoWorseBest scope.now.instance.now scope.now.ranges.now best.new best.old) }
{
    keep_candidate(alloc, scope, best)?;
    lag_at_start(alloc, scope, best)?;
    look(alloc, scope, best)?;
    walk_from_best(alloc, scope, best)
}
