// From an instance and a plan to a plan of the later periods.
ghost use Rattle.std.specs.Prelude.{◌≡◌, ◌≤◌, ◌<◌, ◌^◌, ◌↔◌, ◌⊎◌, ℕ, false, Ok, Err, IfOk, IfSome};
ghost use Rattle.lot_sizing.specs.Problem.{IsUncoupled};
ghost use Rattle.lot_draft.specs.declared.fault.ModelFault.{ModelFault};
ghost use Rattle.plan_rules.specs.Held.{AllFit, plan_of};
ghost use Rattle.frozen_start.specs.Starts.{NoneAgreesWith, StartStands};
ghost use Rattle.cert_lines.specs.declared.limits.TheConstants.{MAX_CERT_VERSION};
ghost use Rattle.certificate.specs.Shapes.{shape_of};
ghost use Rattle.search_result.specs.Found.{IsProved};
ghost use Rattle.search_result.specs.declared.found.RootSays.TheVariants.{Uncoupled};
ghost use Rattle.branching.specs.Search.{DecidesSmall, GoesTogether, HasEvidence, IfBound, IsGoodPlan, IsNoLessThanApart, IsSaidAtRoot, IsUndecided, IsVersionOf, KeepsOwn, UsesRoot, WithRows, no_limits};
ghost use Rattle.replan.specs.Answers.{IsFirstLead, IsRest, IsRestRefused, MayGoOn};
ghost use Rattle.replan.specs.Whole.{DecidesWhole, IfPlanned, IsJoined, total_claimed};
ghost use Rattle.replan.specs.declared.fault.RestFault.TheVariants.{First, Lead, Draft, Memory};
ghost use Rattle.replan.specs.declared.planned.Replanned.TheVariants.{NoStart};

use crate::{Replanned, Rest, RestFault, rest};
use branching::{Limits, Plugins, Wanted, search_all};
use certificate::{Claim, MAX_CERT_VERSION};
use frozen_start::{joins_are_feasible, rests_decide};
use lot_model::Instance;
use plan_rules::Plan;
use search_plugins::{Heuristic, Proposer, Unstopped, Watch};
use search_result::Found;
use std::alloc::Global;

/// What is claimed of all plans that agree with the start, in money: what they cost at least. It is what is spent and the least
/// cost or the bound of the later periods. None where no plan of these is feasible.
pub fn total(rest: &Rest, found: &Found) -> Option<u128>
    requires { IfSome (total_claimed rest.now.spent found.now.certificate.claim)
        (λ amount. amount < 2 ^ 128) }
    ensures { result ≡ total_claimed rest.now.spent found.now.certificate.claim }
{
    match found.certificate.claim {
        Claim::Optimal(cost) => Some(rest.spent + cost),
        Claim::Infeasible => None,
        Claim::Bound(bound) => Some(rest.spent + bound),
    }
}

/// Keeps the first periods of a plan, and searches a best plan of the later ones: the plan that is found, behind the start,
/// is a plan of the whole, and what is claimed of the later periods says what the plans cost that agree with the start.
///
/// `plan` has the instance's shape; of its numbers the quantities and setups of the first periods count. `budget` is the most
/// nodes that the certificate's tree may have, branches and leaves.
///
/// | Answer | Where |
/// |---|---|
/// | `NoStart` | the start doesn't stand; no feasible plan agrees with it |
/// | `Planned` with `Optimal` | the plan behind the start is feasible, and none that agrees with the start costs less; its cost is the `total` |
/// | `Planned` with `Infeasible` | no feasible plan agrees with the start |
/// | `Planned` with `Bound` | each feasible plan that agrees with the start costs at least the `total` |
///
/// The watcher is told of the search, and doesn't end it.
///
/// `rest` is what the call `rest` gives, and so are the errors. `found` meets every clause of `search_all` of the rest's
/// instance.
///
/// It takes the memory of the search, and none before it is known that the start stands.
pub fn replan<P: Proposer, H: Heuristic<P::Hint>, W: Watch + Drop>(
    alloc: Global,
    proposer: &P,
    heuristic: &H,
    watch: W,
    instance: &Instance,
    plan: &Plan,
    first: u32,
    budget: u64,
) -> Result<Replanned, RestFault>
    requires plan { AllFit instance.now plan.now }
    requires budget { 1 ≤ budget }
    ensures first { (result ≡ Err First) ↔ (instance.now.periods ≤ first) }
    ensures lead { (item : ℕ) → (result ≡ Err (Lead item)) ↔
        ((first < instance.now.periods) × IsFirstLead instance.now item) }
    ensures draft { (fault : ModelFault) → result ≡ Err (Draft fault)
        → IsRestRefused instance.now (plan_of plan.now) first fault }
    ensures refused { (fault : ModelFault)
        → IsRestRefused instance.now (plan_of plan.now) first fault
        → (result ≡ Err (Draft fault)) ⊎ (result ≡ Err Memory) }
    ensures none { (result ≡ Ok NoStart) ↔
        (MayGoOn instance.now first × ¬ StartStands instance.now (plan_of plan.now) first) }
    ensures dead { result ≡ Ok NoStart → NoneAgreesWith instance.now (plan_of plan.now) first }
    ensures rest { IfOk result (IfPlanned
        (λ rest found. IsRest instance.now (plan_of plan.now) first rest)) }
    ensures joined { IfOk result (IfPlanned
        (λ rest found. IfSome found.plan
        (λ q. IsJoined instance.now (plan_of plan.now) first rest (plan_of q)))) }
    ensures decides { IfOk result (IfPlanned
        (λ rest found. DecidesWhole instance.now (plan_of plan.now) first rest.spent
        found.certificate.claim found.plan)) }
    ensures small { IfOk result (IfPlanned
        (λ rest found. IfSome (total_claimed rest.spent found.certificate.claim)
        (λ amount. amount < 2 ^ 128))) }
    ensures proved { IfOk result (IfPlanned (λ rest found. IsProved rest.instance found)) }
    ensures plan { IfOk result (IfPlanned
        (λ rest found. IfSome found.plan (IsGoodPlan rest.instance))) }
    ensures within { IfOk result (IfPlanned (λ rest found. found.nodes ≤ budget)) }
    ensures own { IfOk result (IfPlanned (λ rest found. KeepsOwn rest.instance found.plan)) }
    ensures goes { IfOk result (IfPlanned
        (λ rest found. GoesTogether rest.instance found.certificate.claim found.plan)) }
    ensures cause { IfOk result (IfPlanned
        (λ rest found. IfBound found.certificate.claim
        (λ amount. WithRows rest.instance found
        (IsUndecided rest.instance budget no_limits false found)))) }
    ensures evidence { IfOk result (IfPlanned
        (λ rest found. IfBound found.certificate.claim
        (λ amount. WithRows rest.instance found (HasEvidence rest.instance found amount)))) }
    ensures root { IfOk result (IfPlanned (λ rest found. IsSaidAtRoot rest.instance found.root)) }
    ensures uncoupled { IfOk result (IfPlanned
        (λ rest found. found.root ≡ Uncoupled ↔ IsUncoupled rest.instance)) }
    ensures uses { IfOk result (IfPlanned (λ rest found. UsesRoot found found.root)) }
    ensures apart { IfOk result (IfPlanned
        (λ rest found. IsNoLessThanApart rest.instance found.certificate.claim)) }
    ensures complete { IfOk result (IfPlanned
        (λ rest found. DecidesSmall rest.instance budget no_limits false found.certificate.claim)) }
    ensures version { IfOk result (IfPlanned (λ rest found.
        IsVersionOf rest.instance MAX_CERT_VERSION (shape_of found.certificate))) }
{
    joins_are_feasible();
    rests_decide();
    match rest(alloc, instance, &plan.make, &plan.setup, first) {
        Ok(Some(rest)) => {
            let later = &rest.instance;
            let watch = Unstopped { told: watch };
            let plugins = Plugins {
                proposer,
                heuristic,
            };
            let wanted = Wanted {
                budget,
                first: None,
                limits: Limits { gap: None },
                newest: MAX_CERT_VERSION,
            };
            let found = search_all(alloc, &plugins, watch, later, wanted)?;
            Ok(Replanned::Planned { rest, found })
        }
        Ok(None) => Ok(Replanned::NoStart),
        Err(fault) => Err(fault),
    }
}
