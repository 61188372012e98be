// From an instance and the start of a plan to the instance of the later periods.
ghost use Rattle.std.specs.Prelude.{◌≡◌, ◌≤◌, ◌<◌, ◌↔◌, ◌⊎◌, ℕ, Ok, Err, Some, None, IfOk, IfErr, IfSome, IfNone, MatchOption};
ghost use Rattle.lot_draft.specs.declared.fault.ModelFault.{ModelFault};
ghost use Rattle.plan_rules.specs.Cells.{Fits};
ghost use Rattle.frozen_start.specs.Starts.{HasNoLeads, NoneAgreesWith, StartStands};
ghost use Rattle.frozen_start.specs.Held.{start_of};
ghost use Rattle.replan.specs.Answers.{IsFirstLead, IsRest, IsRestRefused, LeavesRest, MayGoOn, RestMeans};
ghost use Rattle.replan.specs.declared.fault.RestFault.TheVariants.{First, Lead, Draft, Memory};

use crate::drafting::draft;
use crate::laws::caps_change_nothing;
use crate::{Rest, RestFault};
use frozen_start::{rests_decide, spent, start_stands};
use lot_model::{DraftRefusal, Instance, a_model_means_one_thing, an_instance_breaks_no_rule};
use plan_rules::Grid;
use std::alloc::Global;

// The first item with a lead time.
fn first_lead(instance: &Instance) -> Option<u32>
    ensures { MatchOption result (HasNoLeads instance.now) (IsFirstLead instance.now) }
{
    for item in 1..instance.items() + 1 {
        if instance.lead(item) > 0 {
            return Some(item);
        }
    }
    None
}

// The rest after a start that stands.
fn rest_behind(
    alloc: Global,
    instance: &Instance,
    make: &Grid,
    setup: &Grid,
    first: u32,
) -> Result<Rest, RestFault>
    requires make { Fits instance.now make.now }
    requires setup { Fits instance.now setup.now }
    requires may { LeavesRest instance.now (start_of make.now setup.now) first }
    ensures rest { IfOk result (IsRest instance.now (start_of make.now setup.now) first) }
    ensures draft { IfErr result (λ fault. (fault ≡ Memory)
        ⊎ ((why : ModelFault) × (fault ≡ Draft why)
        × RestMeans instance.now (start_of make.now setup.now) first (Err why))) }
{
    an_instance_breaks_no_rule(instance);
    caps_change_nothing();
    rests_decide();
    let draft = draft(alloc, instance, make, first)?;
    match Instance::from_draft(alloc, draft) {
        Ok(later) => Ok(Rest {
            instance: later,
            spent: spent(instance, make, setup, first),
        }),
        Err(DraftRefusal::Refused { fault, .. }) => Err(RestFault::Draft(fault)),
        Err(DraftRefusal::Memory(_)) => Err(RestFault::Memory),
    }
}

/// The instance of the periods after the first ones, which are kept as the grids have them, with what these cost.
/// None exactly where the start doesn't stand; then no feasible plan agrees with it.
///
/// It takes memory for the instance, and none before it is known that the start stands.
pub fn rest(
    alloc: Global,
    instance: &Instance,
    make: &Grid,
    setup: &Grid,
    first: u32,
) -> Result<Option<Rest>, RestFault>
    requires make { Fits instance.now make.now }
    requires setup { Fits instance.now setup.now }
    ensures rest { IfOk result (λ found.
        IfSome found (IsRest instance.now (start_of make.now setup.now) first)) }
    ensures first { (result ≡ Err First) ↔ (instance.now.periods ≤ first) }
    ensures lead { (item : ℕ) → (result ≡ Err (Lead item)) ↔
        ((first < instance.now.periods) × IsFirstLead instance.now item) }
    ensures none { (result ≡ Ok None) ↔
        (MayGoOn instance.now first
        × ¬ StartStands instance.now (start_of make.now setup.now) first) }
    ensures dead { IfOk result (λ found.
        IfNone found (NoneAgreesWith instance.now (start_of make.now setup.now) first)) }
    ensures draft { (fault : ModelFault) → result ≡ Err (Draft fault)
        → IsRestRefused instance.now (start_of make.now setup.now) first fault }
    ensures refused { (fault : ModelFault)
        → IsRestRefused instance.now (start_of make.now setup.now) first fault
        → (result ≡ Err (Draft fault)) ⊎ (result ≡ Err Memory) }
{
    if first >= instance.periods() {
        return Err(RestFault::First);
    }
    if let Some(item) = first_lead(instance) {
        return Err(RestFault::Lead(item));
    }
    rests_decide();
    a_model_means_one_thing();
    if !start_stands(instance, make, setup, first) {
        return Ok(None);
    }
    match rest_behind(alloc, instance, make, setup, first) {
        Ok(found) => Ok(Some(found)),
        Err(fault) => Err(fault),
    }
}
