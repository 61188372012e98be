// What a claim asks for: a plan that goes with it, and leaves that say enough.
ghost use Rattle.std.specs.Prelude.{◌≡◌, ◌↔◌, IfErr, IfSome, IsNone, IsTrue, OnOk, option_copied};
ghost use Rattle.cert_lines.specs.declared.parts.Claim.TheVariants.{Optimal};
ghost use Rattle.cert_meaning.specs.declared.says.LeafSays.TheVariants.{AtLeast};
ghost use Rattle.cert_meaning.specs.Accepts.{IsEnough};
ghost use Rattle.cert_checker.specs.Checks.{ComesWith, IsOptimalFault, IsPlanFault};

use crate::{Rejected, Why};
use cert_meaning::LeafSays;
use certificate::{CLAIM_LINE, Claim};
use lot_model::Instance;
use plan_rules::{Plan, judge};

// Whether what a leaf says is enough for a claim.
fn is_enough(claim: Claim, says: LeafSays) -> bool
    ensures { IsTrue result ↔ IsEnough claim says }
{
    match says {
        LeafSays::NoPlan => true,
        LeafSays::AtLeast(amount) => match claim {
            Claim::Optimal(cost) => cost <= amount,
            Claim::Infeasible => false,
            Claim::Bound(least) => least <= amount,
        },
    }
}

/// What a leaf says, in money, where it isn't enough for a claim. That there is no plan is enough for every claim, and an
/// amount for none of an infeasible problem.
pub fn shortfall(claim: Claim, says: LeafSays) -> Option<u128>
    ensures enough { IsNone result → IsEnough claim says }
    ensures short { IfSome result (λ amount. (says ≡ AtLeast amount)
        × (IsEnough claim (AtLeast amount) → ⊥)) }
{
    match says {
        LeafSays::NoPlan => None,
        LeafSays::AtLeast(_) if is_enough(claim, says) => None,
        LeafSays::AtLeast(amount) => Some(amount),
    }
}

// Whether the plan that was given is feasible and has the cost that is claimed to be optimal.
fn judge_cost(instance: &Instance, cost: u128, plan: Option<&Plan>) -> Result<(), Why>
    ensures comes { OnOk result (ComesWith instance.now (Optimal cost) (option_copied plan.entry)) }
    ensures fault { IfErr result (IsOptimalFault instance.now cost (option_copied plan.entry)) }
{
    let Some(plan) = plan else {
        return Err(Why::PlanMissing);
    };
    match judge(instance, plan) {
        Err(broken) => Err(Why::Plan(broken)),
        Ok(amount) if amount == cost => Ok(()),
        Ok(amount) => Err(Why::Costs {
            plan: amount,
            claim: cost,
        }),
    }
}

/// Whether the plan that was given goes with a claim. Only an optimal cost asks for one: it is there, feasible, and costs what
/// is claimed. The refusals are `PlanMissing`, `Plan` and `Costs`, in this order, on `CLAIM_LINE`.
pub fn judge_claim(instance: &Instance, claim: Claim, plan: Option<&Plan>) -> Result<(), Rejected>
    ensures comes { OnOk result (ComesWith instance.now claim (option_copied plan.entry)) }
    ensures fault { IfErr result (λ r.
        IsPlanFault instance.now claim (option_copied plan.entry) r.line r.why) }
{
    match claim {
        Claim::Optimal(cost) => match judge_cost(instance, cost, plan) {
            Ok(()) => Ok(()),
            Err(why) => Err(Rejected {
                line: CLAIM_LINE,
                why,
            }),
        },
        Claim::Infeasible => Ok(()),
        Claim::Bound(_) => Ok(()),
    }
}
