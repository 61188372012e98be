// Walks over setups by programs in fixed point.
ghost use Rattle.std.specs.Prelude.{OnOk};
ghost use Rattle.plan_rules.specs.Rows.{IfFound};
ghost use Rattle.own_plan.specs.Made.{IsMade};
ghost use Rattle.incumbent.specs.Kept.{IsBestSoFar, IsNoWorseBest};

use crate::scope::Scope;
use crate::shares::limit;
use heur_lags::has_free_lots;
use heur_setup_walks::walked_setups;
use incumbent::keep_within;
use lot_model::Instance;
use plan_rules::Planned;
use std::alloc::{AllocError, Global};
use work_clock::Deadline;

// The most walks before the first node, each with a seed of its own. One that finds nothing cheaper is the last.
const WALKS: u64 = 3;

// What a walk may take, where a step takes the square of items times periods, and its most steps.
const WALK_WORK: u64 = 26_000_000;

const MOST_STEPS: u64 = 10_000;

// The steps of a walk.
fn steps_for(instance: &Instance) -> u32 {
    let cells = u64::from(instance.items()) * u64::from(instance.periods());
    let steps = WALK_WORK / cells.saturating_mul(cells).max(1);
    u32::try_from(steps.min(MOST_STEPS)).unwrap_or(0)
}

// The plan that a walk finds from the setups of the best one, if there is one and lots are free: the programs of the walk know no
// lead times and no bounds on lots.
fn walked_from(
    alloc: Global,
    instance: &Instance,
    best: &Option<Planned>,
    seed: u64,
    until: Deadline,
) -> Result<Option<Planned>, AllocError>
    ensures { IfFound result (IsMade instance.now) }
{
    if until.is_past() || !has_free_lots(instance) {
        return Ok(None);
    }
    match best {
        Some(made) => {
            let steps = steps_for(instance);
            walked_setups(alloc, instance, &made.plan.setup, seed, steps, until)
        }
        None => Ok(None),
    }
}

/// What the best plan costs, if there is one.
pub(crate) fn best_cost(best: &Option<Planned>) -> Option<u128> {
    match best {
        Some(made) => Some(made.cost),
        None => None,
    }
}

/// Walks over setups from the best plan before the first node, and keeps what is found, if it lies within the ranges. Walks go on while
/// they find something cheaper.
pub(crate) fn walk_over_setups(
    alloc: Global,
    scope: &Scope<'_>,
    best: &mut Option<Planned>,
) -> Result<(), AllocError>
    requires { IsBestSoFar scope.now.instance.now scope.now.ranges.now best.old }
    ensures { OnOk result
        (IsNoWorseBest scope.now.instance.now scope.now.ranges.now best.new best.old) }
{
    let end = limit(scope.until, best);
    for seed in 1..WALKS + 1 {
        let before = best_cost(best);
        let found = walked_from(alloc, scope.instance, best, seed, end)?;
        keep_within(scope.instance, scope.ranges, best, found);
        if best_cost(best) == before {
            return Ok(());
        }
    }
    Ok(())
}
