// The best plan so far, and which plans are kept.
ghost use Rattle.std.specs.Prelude.{◌≡◌, ◌⊎◌, IfOk, IfSome, Some};
ghost use Rattle.own_plan.specs.Made.{IsMade};
ghost use Rattle.node_domains.specs.Within.{given_ranges};
ghost use Rattle.incumbent.specs.Good.{IsGoodWithin};
ghost use Rattle.incumbent.specs.Kept.{IsBestSoFar, IsFirstBest, IsFirstWithin, IsMadeWithin, IsNoWorse, IsNoWorseBest, IsNoWorseIfWithin, KeepsGiven, cost_kept, plan_kept};

use lot_model::Instance;
use node_domains::{Ranges, is_within};
use own_plan::own_period_plan;
use plan_rules::{Plan, Planned, judge};
use std::alloc::{AllocError, Global};

/// The cost of the best plan, in money; None where there is no plan.
///
/// It takes no memory.
pub fn best_cost(best: &Option<Planned>) -> Option<u128>
    ensures { result ≡ cost_kept best.now }
{
    match best {
        Some(made) => Some(made.cost),
        None => None,
    }
}

/// The best plan without its cost; None where there is no plan.
///
/// It takes no memory.
pub fn best_plan(best: Option<Planned>) -> Option<Plan>
    ensures { result ≡ plan_kept best }
{
    match best {
        Some(made) => Some(made.plan),
        None => None,
    }
}

// The better of a plan and of the best so far.
fn better(best: Option<Planned>, made: Planned) -> Option<Planned>
    ensures either { (result ≡ best) ⊎ (result ≡ Some made) }
    ensures best { IsNoWorse result best }
    ensures made { IsNoWorse result (Some made) }
{
    match best {
        Some(old) => {
            if old.cost <= made.cost {
                Some(old)
            } else {
                Some(made)
            }
        }
        None => Some(made),
    }
}

// The plan that was given, with its cost.
fn given(instance: &Instance, ranges: &Ranges, first: Option<Plan>) -> Option<Planned>
    requires { IfSome first (IsGoodWithin instance.now (given_ranges ranges.now)) }
    ensures made { IfSome result (IsMadeWithin instance.now (given_ranges ranges.now)) }
    ensures kept { KeepsGiven instance.now first result }
{
    let plan = first?;
    match judge(instance, &plan) {
        Ok(cost) => Some(Planned { plan, cost }),
        // It is feasible, so no rule is broken.
        Err(_) => None,
    }
}

/// Keeps a plan that was found, with its cost, if it lies within the ranges and costs less than the best so far; the best plan,
/// if there is one, is never let go for a dearer one.
///
/// The ranges have a number for each item and period of the instance, and the best plan so far lies within them. It takes no
/// memory.
pub fn keep_within(
    instance: &Instance,
    ranges: &Ranges,
    best: &mut Option<Planned>,
    found: Option<Planned>,
)
    requires best { IsBestSoFar instance.now ranges.now best.old }
    requires found { IfSome found (IsMade instance.now) }
    ensures best { IsNoWorseBest instance.now ranges.now best.new best.old }
    ensures found { IfSome found (IsNoWorseIfWithin instance.now ranges.now best.new) }
{
    if let Some(made) = found {
        if is_within(instance, ranges, &made.plan) {
            let old = best.take();
            *best = better(old, made);
        }
    }
}

/// The best plan to begin with, with its cost in money: of the one that was given and of the own-period plan, where that is
/// feasible and lies within the ranges. None where there is neither.
///
/// The ranges and the plan that was given, `first`, have a number for each item and period of the instance; that plan is
/// feasible and lies within the ranges. The error is that memory ran out.
pub fn best_to_begin(
    alloc: Global,
    instance: &Instance,
    ranges: &Ranges,
    first: Option<Plan>,
) -> Result<Option<Planned>, AllocError>
    requires { IsFirstWithin instance.now ranges.now first }
    ensures { IfOk result (IsFirstBest instance.now ranges.now first) }
{
    let mut best = given(instance, ranges, first);
    let own = own_period_plan(alloc, instance)?;
    keep_within(instance, ranges, &mut best, own);
    Ok(best)
}
