// The walk along supplies and needs.
ghost use Rattle.std.specs.Prelude.{◌≡◌, ◌≤◌, ◌++◌, IfOk, OnOk};
ghost use Rattle.std.specs.List.{All};
ghost use Rattle.lot_sizing.specs.Problem.{item_count};
ghost use Rattle.lot_sizing.specs.Plan.{IsFeasible};
ghost use Rattle.plan_rules.specs.Held.{AllFit, plan_of};
ghost use Rattle.pegging.specs.Pegs.{peg_of, pegs_of, pegs_of_item};
ghost use Rattle.pegging.specs.Pegs.{supplies as supplies_in, targets as targets_in};
ghost use Rattle.pegging.specs.Sums.{IsInTime, IndicesExist, MeetNeeds, UseSupplies};

use crate::amounts::{needed, supplied};
use crate::{Peg, Supply, Target, listing};
use lot_model::Instance;
use plan_rules::Plan;
use std::alloc::{AllocError, Global};

// Adds a peg, but none of nothing.
fn add_peg(
    pegs: &mut Vec<Peg>,
    item: u32,
    from: Supply,
    to: Target,
    quantity: u64,
) -> Result<(), AllocError>
    ensures { OnOk result (pegs.new.items ≡ pegs.old.items ++ peg_of item from to quantity) }
{
    if quantity > 0 {
        pegs.push(Peg {
            item,
            from,
            to,
            quantity,
        })?;
    }
    Ok(())
}

// Adds the pegs of an item, in one walk along all supplies and needs.
fn add_pegs(
    pegs: &mut Vec<Peg>,
    instance: &Instance,
    plan: &Plan,
    item: u32,
    supplies: &[Supply],
    targets: &[Target],
) -> Result<(), AllocError>
    requires fits { AllFit instance.now plan.now }
    requires low { 1 ≤ item }
    requires high { item ≤ item_count instance.now }
    requires supplies { supplies.now ≡ supplies_in instance.now }
    requires targets { targets.now ≡ targets_in instance.now }
    ensures { OnOk result (pegs.new.items
        ≡ pegs.old.items ++ pegs_of_item instance.now (plan_of plan.now) item) }
{
    let mut supply = 0;
    let mut target = 0;
    let mut used = 0u64;
    let mut met = 0u128;
    while supply < supplies.len() && target < targets.len() {
        let (from, to) = (supplies[supply], targets[target]);
        let left = supplied(instance, plan, item, from) - used;
        let asked = needed(instance, plan, item, to) - met;
        if left as u128 <= asked {
            add_peg(pegs, item, from, to, left)?;
            supply += 1;
            used = 0;
            met += left as u128;
        } else {
            add_peg(pegs, item, from, to, asked as u64)?;
            target += 1;
            met = 0;
            used += asked as u64;
        }
    }
    Ok(())
}

/// The pegs of a feasible plan, by item, then by supply, then by need: exactly the overlaps of positive length of the
/// item's supplies with its needs, each with its length in units of the item.
///
/// The pegs from each supply add up to what it has, and those to each need to what it takes. Where an item has no
/// backlog cost, a lot has arrived when it serves a demand or goes into another item.
///
/// It walks once along the supplies and the needs of each item, and looks at the components of one item at each step.
/// The error is that memory ran out.
#[tactic(auto, using(crate::proofs::Ranges::flat_range_more))]
pub fn peg(alloc: Global, instance: &Instance, plan: &Plan) -> Result<Vec<Peg>, AllocError>
    requires fits { AllFit instance.now plan.now }
    requires feasible { IsFeasible instance.now (plan_of plan.now) }
    ensures pegs { IfOk result (λ pegs. pegs.items ≡ pegs_of instance.now (plan_of plan.now)) }
    ensures supplies { IfOk result (λ pegs.
        UseSupplies instance.now (plan_of plan.now) pegs.items) }
    ensures needs { IfOk result (λ pegs. MeetNeeds instance.now (plan_of plan.now) pegs.items) }
    ensures in_time { IfOk result (λ pegs. All (IsInTime instance.now) pegs.items) }
    ensures exist { IfOk result (λ pegs. All (IndicesExist instance.now) pegs.items) }
{
    let supplies = listing::supplies(alloc, instance)?;
    let targets = listing::targets(alloc, instance)?;
    let mut pegs = Vec::new(alloc);
    for item in 1..instance.items() + 1 {
        add_pegs(&mut pegs, instance, plan, item, &supplies, &targets)?;
    }
    Ok(pegs)
}
