// Whether a plan is feasible, and what it costs.
ghost use Rattle.std.specs.Prelude.{◌≡◌, ◌≤◌, ◌<◌, ◌^◌, ℕ, OnOk, OnErr, IfOk, IfErr, IfNone, IfSome, IsTrue, IsErrOf, ◌↔◌};
ghost use Rattle.lot_sizing.specs.Problem.{EachItem, item_count, resource_count};
ghost use Rattle.lot_sizing.specs.Plan.{Each, EachCell, IsEndStock, IsFeasible, IsWithinCapacity, cost};
ghost use Rattle.plan_rules.specs.CellRules.{KeepsRule};
ghost use Rattle.plan_rules.specs.Held.{AllFit, plan_of};
ghost use Rattle.plan_rules.specs.Order.{HoldsInRow, IsFirst, IsFirstInRow};
ghost use Rattle.plan_rules.specs.Broken.{IsFirstCell, IsFirstEnd, IsBroken, IsJudged};

use crate::rules::{self, CellRule};
use crate::{Broken, Plan, sums};
use lot_model::Instance;

// An item and a period.
#[derive(Clone, Copy, Drop)]
struct Cell {
    item: u32,
    period: u32,
}

// A resource and a period in which it is used for longer than it has time.
#[derive(Clone, Copy, Drop)]
struct Overuse {
    resource: u32,
    period: u32,
}

// Whether all grids of a plan have the problem's items and periods.
fn all_fit(instance: &Instance, plan: &Plan) -> bool
    ensures { IsTrue result ↔ AllFit instance.now plan.now }
{
    plan.make.fits(instance)
        && plan.setup.fits(instance)
        && plan.stock.fits(instance)
        && plan.backlog.fits(instance)
}

// The first period in which an item breaks a rule.
fn first_period(instance: &Instance, plan: &Plan, rule: CellRule, item: u32) -> Option<u32>
    requires plan { AllFit instance.now plan.now }
    requires item_low { 1 ≤ item }
    requires item_high { item ≤ item_count instance.now }
    ensures kept { IfNone result (HoldsInRow instance.now.periods
        (KeepsRule instance.now (plan_of plan.now) rule) item) }
    ensures broken { IfSome result (IsFirstInRow instance.now.periods
        (KeepsRule instance.now (plan_of plan.now) rule) item) }
{
    for period in 1..instance.periods() + 1 {
        if !rules::keeps(instance, plan, rule, item, period) {
            return Some(period);
        }
    }
    None
}

// The first item and period at which a rule is broken.
fn first_cell(instance: &Instance, plan: &Plan, rule: CellRule) -> Option<Cell>
    requires { AllFit instance.now plan.now }
    ensures kept { IfNone result (EachCell instance.now
        (KeepsRule instance.now (plan_of plan.now) rule)) }
    ensures broken { IfSome result (λ at.
        IsFirstCell instance.now (KeepsRule instance.now (plan_of plan.now) rule) at.item
        at.period) }
{
    for item in 1..instance.items() + 1 {
        if let Some(period) = first_period(instance, plan, rule, item) {
            return Some(Cell { item, period });
        }
    }
    None
}

// The first period in which a resource is used for longer than it has time.
fn first_overused_period(instance: &Instance, plan: &Plan, resource: u32) -> Option<u32>
    requires plan { AllFit instance.now plan.now }
    requires low { 1 ≤ resource }
    requires high { resource ≤ resource_count instance.now }
    ensures kept { IfNone result (HoldsInRow instance.now.periods
        (IsWithinCapacity instance.now (plan_of plan.now)) resource) }
    ensures broken { IfSome result (IsFirstInRow instance.now.periods
        (IsWithinCapacity instance.now (plan_of plan.now)) resource) }
{
    for period in 1..instance.periods() + 1 {
        let used = sums::time_used(instance, plan, resource, period);
        if used > instance.capacity(resource, period) as u128 {
            return Some(period);
        }
    }
    None
}

// The first resource and period in which it is used for longer than it has time.
fn first_overuse(instance: &Instance, plan: &Plan) -> Option<Overuse>
    requires { AllFit instance.now plan.now }
    ensures kept { IfNone result (Each (resource_count instance.now) instance.now.periods
        (IsWithinCapacity instance.now (plan_of plan.now))) }
    ensures broken { IfSome result (λ at.
        IsFirst (resource_count instance.now) instance.now.periods
        (IsWithinCapacity instance.now (plan_of plan.now)) at.resource at.period) }
{
    for resource in 1..instance.resources() + 1 {
        if let Some(period) = first_overused_period(instance, plan, resource) {
            return Some(Overuse { resource, period });
        }
    }
    None
}

// The first item whose last stock isn't within its bounds.
fn first_end(instance: &Instance, plan: &Plan) -> Option<u32>
    requires { AllFit instance.now plan.now }
    ensures kept { IfNone result (EachItem instance.now
        (IsEndStock instance.now (plan_of plan.now))) }
    ensures broken { IfSome result (IsFirstEnd instance.now (plan_of plan.now)) }
{
    let periods = instance.periods();
    for item in 1..instance.items() + 1 {
        let stock = plan.stock.get(item, periods);
        if stock < instance.end_min(item) || stock > instance.end_max(item) {
            return Some(item);
        }
    }
    None
}

/// The cost of a feasible plan, or the first rule that is broken: of several, the one that `Broken` names
/// first, and there the first by item or resource, then by period.
///
/// It answers for every number in the grids, and takes no memory. It takes time in the number of periods
/// times that of items times that of the bill's lines. The cost is in money, and below 2^127.
pub fn judge(instance: &Instance, plan: &Plan) -> Result<u128, Broken>
    ensures judged { IsJudged instance.now plan.now result }
    ensures feasible { OnOk result (AllFit instance.now plan.now
        × IsFeasible instance.now (plan_of plan.now)) }
    ensures cost { IfOk result (λ amount. amount ≡ cost instance.now (plan_of plan.now)) }
    ensures small { IfOk result (λ amount. amount < 2 ^ 127) }
    ensures refused { OnErr result (AllFit instance.now plan.now
        → IsFeasible instance.now (plan_of plan.now) → ⊥) }
    ensures shape { IsErrOf result Broken.Shape ↔ (AllFit instance.now plan.now → ⊥) }
    ensures broken { AllFit instance.now plan.now
        → IfErr result (IsBroken instance.now (plan_of plan.now)) }
{
    if !all_fit(instance, plan) {
        return Err(Broken::Shape);
    }
    if let Some(Cell { item, period }) = first_cell(instance, plan, CellRule::Setup) {
        return Err(Broken::SetupRange { item, period });
    }
    if let Some(Cell { item, period }) = first_cell(instance, plan, CellRule::Balance) {
        return Err(Broken::Balance {
            item,
            period,
            left: sums::balance_left(instance, plan, item, period),
            right: sums::balance_right(instance, plan, item, period),
        });
    }
    if let Some(Cell { item, period }) = first_cell(instance, plan, CellRule::Made) {
        return Err(Broken::SetupMissing { item, period });
    }
    if let Some(Overuse { resource, period }) = first_overuse(instance, plan) {
        return Err(Broken::Capacity {
            resource,
            period,
            used: sums::time_used(instance, plan, resource, period),
        });
    }
    if let Some(item) = first_end(instance, plan) {
        return Err(Broken::EndStock { item });
    }
    if let Some(Cell { item, period }) = first_cell(instance, plan, CellRule::Backlog) {
        return Err(Broken::BacklogNotAllowed { item, period });
    }
    if let Some(Cell { item, period }) = first_cell(instance, plan, CellRule::Lot) {
        return Err(Broken::Lot { item, period });
    }
    if let Some(Cell { item, period }) = first_cell(instance, plan, CellRule::Horizon) {
        return Err(Broken::Late { item, period });
    }
    Ok(sums::cost(instance, plan))
}
