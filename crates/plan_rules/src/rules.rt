// The rules on one item and period.
ghost use Rattle.std.specs.Prelude.{◌≤◌, ◌↔◌, IsTrue};
ghost use Rattle.lot_sizing.specs.Problem.{item_count};
ghost use Rattle.lot_sizing.specs.Plan.{IsBacklogAllowed, IsInHorizon, IsLot};
ghost use Rattle.plan_rules.specs.CellRules.{KeepsRule};
ghost use Rattle.plan_rules.specs.Held.{AllFit, plan_of};

use crate::{Plan, sums};
use lot_model::Instance;

/// A rule on one item and period.
#[derive(Clone, Copy)]
pub enum CellRule {
    /// Each setup is 0 or 1.
    Setup,
    /// What there is goes where it should.
    Balance,
    /// Nothing is made without a setup.
    Made,
    /// Each backlog is allowed.
    Backlog,
    /// Each lot has a size that is allowed.
    Lot,
    /// No lot would arrive after the last period.
    Horizon,
}

/// Whether a plan keeps a rule at an item and a period.
pub fn keeps(instance: &Instance, plan: &Plan, rule: CellRule, item: u32, period: u32) -> bool
    requires plan { AllFit instance.now plan.now }
    requires item_low { 1 ≤ item }
    requires item_high { item ≤ item_count instance.now }
    requires low { 1 ≤ period }
    requires high { period ≤ instance.now.periods }
    ensures { IsTrue result ↔ KeepsRule instance.now (plan_of plan.now) rule item period }
{
    match rule {
        CellRule::Setup => plan.setup.get(item, period) <= 1,
        CellRule::Balance => sums::is_balanced(instance, plan, item, period),
        CellRule::Made => plan.make.get(item, period) == 0 || plan.setup.get(item, period) == 1,
        CellRule::Backlog => is_backlog_allowed(instance, plan, item, period),
        CellRule::Lot => is_lot(instance, plan, item, period),
        CellRule::Horizon => is_in_horizon(instance, plan, item, period),
    }
}

// Whether nothing is owed of an item at the end of a period, or it may be.
fn is_backlog_allowed(instance: &Instance, plan: &Plan, item: u32, period: u32) -> bool
    requires plan { AllFit instance.now plan.now }
    requires item_low { 1 ≤ item }
    requires item_high { item ≤ item_count instance.now }
    requires low { 1 ≤ period }
    requires high { period ≤ instance.now.periods }
    ensures { IsTrue result ↔ IsBacklogAllowed instance.now (plan_of plan.now) item period }
{
    if plan.backlog.get(item, period) == 0 {
        return true;
    }
    if period == instance.periods() {
        return false;
    }
    instance.backlog_cost(item, period).is_some()
}

// Whether a setup of an item in a period makes at least the least lot, and the period no more than the
// largest.
fn is_lot(instance: &Instance, plan: &Plan, item: u32, period: u32) -> bool
    requires plan { AllFit instance.now plan.now }
    requires item_low { 1 ≤ item }
    requires item_high { item ≤ item_count instance.now }
    requires low { 1 ≤ period }
    requires high { period ≤ instance.now.periods }
    ensures { IsTrue result ↔ IsLot instance.now (plan_of plan.now) item period }
{
    let made = plan.make.get(item, period);
    // A plan may hold any setup, so the product takes more than 64 bits.
    let least = instance.min_lot(item) as u128 * plan.setup.get(item, period) as u128;
    if least > made as u128 {
        return false;
    }
    match instance.max_lot(item) {
        Some(most) => made <= most,
        None => true,
    }
}

// Whether a lot of an item that is started in a period arrives in the last period or before it, or
// none is started.
fn is_in_horizon(instance: &Instance, plan: &Plan, item: u32, period: u32) -> bool
    requires plan { AllFit instance.now plan.now }
    requires item_low { 1 ≤ item }
    requires item_high { item ≤ item_count instance.now }
    requires low { 1 ≤ period }
    requires high { period ≤ instance.now.periods }
    ensures { IsTrue result ↔ IsInHorizon instance.now (plan_of plan.now) item period }
{
    let last = instance.periods();
    period + instance.lead(item) <= last || plan.make.get(item, period) == 0
}
