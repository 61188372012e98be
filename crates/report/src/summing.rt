// The summary of a plan.
ghost use Rattle.std.specs.Prelude.{◌≡◌, ◌≤◌, ◌<◌, ◌^◌, IfOk};
ghost use Rattle.serde_json.specs.Data.{array, string};
ghost use Rattle.serde_json.specs.View.{items_of, view};
ghost use Rattle.lot_sizing.specs.Problem.{item_count, resource_count};
ghost use Rattle.lot_sizing.specs.Plan.{IsFeasible, cost, time_used};
ghost use Rattle.lot_model.specs.Views.{IsInstance};
ghost use Rattle.plan_rules.specs.Held.{AllFit, plan_of};
ghost use Rattle.report.specs.Summary.{PartsAddUp, amount, item_data, json_line, list_to, resource_data, summary_data, summary_text};
ghost use Rattle.report.specs.Totals.{AreTotals};

use lot_model::Instance;
use plan_rules::{Plan, cost_parts, judge, time_used};
use serde_json::{Map, Value};
use std::alloc::{AllocError, Global};

/// The parts of all items' costs in a summary add up to the cost of the plan.
pub fn parts_add_up()
    ensures { PartsAddUp }
{}

/// What a plan has of an item over all periods.
#[derive(Clone, Copy)]
pub struct ItemTotals {
    /// The cost of backlogs, in money.
    pub backlog: u128,
    /// The cost of stocks, in money.
    pub hold: u128,
    /// Units made.
    pub made: u128,
    /// The cost of setups, in money.
    pub setup: u128,
    /// The number of setups.
    pub setups: u128,
    /// The cost of units made, in money.
    pub unit: u128,
}

// What a plan has of an item over all periods.
#[tactic(auto, using(lot_sizing::proofs::Sums::sum_to_more))]
fn item_totals(instance: &Instance, plan: &Plan, item: u32) -> ItemTotals
    requires fits { AllFit instance.now plan.now }
    requires low { 1 ≤ item }
    requires high { item ≤ item_count instance.now }
    ensures { AreTotals instance.now (plan_of plan.now) item result }
{
    let mut totals = ItemTotals {
        backlog: 0,
        hold: 0,
        made: 0,
        setup: 0,
        setups: 0,
        unit: 0,
    };
    for period in 1..instance.periods() + 1 {
        let parts = cost_parts(instance, plan, item, period);
        totals.backlog += parts.backlog;
        totals.hold += parts.hold;
        totals.made += plan.make.get(item, period) as u128;
        totals.setup += parts.setup;
        totals.setups += plan.setup.get(item, period) as u128;
        totals.unit += parts.unit;
    }
    totals
}

// An amount as a text.
fn amount(alloc: Global, value: u128) -> Result<Value, AllocError>
    ensures { IfOk result (λ v. view v ≡ amount value) }
{
    Ok(Value::String(value.to_string(alloc)?))
}

// What a feasible plan costs.
fn cost_of(instance: &Instance, plan: &Plan) -> u128
    requires fits { AllFit instance.now plan.now }
    requires feasible { IsFeasible instance.now (plan_of plan.now) }
    ensures value { result ≡ cost instance.now (plan_of plan.now) }
    ensures small { result < 2 ^ 127 }
{
    match judge(instance, plan) {
        Ok(cost) => cost,
        Err(_) => unreachable!(),
    }
}

// A name as a text.
fn name(alloc: Global, text: &str) -> Result<Value, AllocError>
    ensures { IfOk result (λ v. view v ≡ string text.now) }
{
    Ok(Value::String(String::from_str(alloc, text)?))
}

// The part of the summary on an item.
fn item_value(
    alloc: Global,
    instance: &Instance,
    plan: &Plan,
    item: u32,
) -> Result<Value, AllocError>
    requires fits { AllFit instance.now plan.now }
    requires low { 1 ≤ item }
    requires high { item ≤ item_count instance.now }
    ensures { IfOk result (λ v. view v ≡ item_data instance.now (plan_of plan.now) item) }
{
    let totals = item_totals(instance, plan, item);
    let mut map = Map::new(alloc);
    serde_json::put(&mut map, alloc, "backlog", amount(alloc, totals.backlog)?)?;
    serde_json::put(&mut map, alloc, "hold", amount(alloc, totals.hold)?)?;
    serde_json::put(&mut map, alloc, "made", amount(alloc, totals.made)?)?;
    serde_json::put(
        &mut map,
        alloc,
        "name",
        name(alloc, instance.item_name(item))?,
    )?;
    serde_json::put(&mut map, alloc, "setup", amount(alloc, totals.setup)?)?;
    serde_json::put(&mut map, alloc, "setups", amount(alloc, totals.setups)?)?;
    serde_json::put(&mut map, alloc, "unit", amount(alloc, totals.unit)?)?;
    Ok(Value::Object(map))
}

// The parts of the summary on items.
fn item_values(alloc: Global, instance: &Instance, plan: &Plan) -> Result<Value, AllocError>
    requires { AllFit instance.now plan.now }
    ensures { IfOk result (λ v. view v
        ≡ array (items_of
        (list_to (item_count instance.now) (item_data instance.now (plan_of plan.now))))) }
{
    let mut list = Vec::new(alloc);
    for item in 1..instance.items() + 1 {
        list.push(item_value(alloc, instance, plan, item)?)?;
    }
    Ok(Value::Array(list))
}

// The use of a resource in each period.
fn used_values(
    alloc: Global,
    instance: &Instance,
    plan: &Plan,
    resource: u32,
) -> Result<Value, AllocError>
    requires { AllFit instance.now plan.now }
    ensures { IfOk result (λ v. view v
        ≡ array (items_of
        (list_to instance.now.periods
        (λ t. amount (time_used instance.now (plan_of plan.now) resource t))))) }
{
    let mut list = Vec::new(alloc);
    for period in 1..instance.periods() + 1 {
        list.push(amount(alloc, time_used(instance, plan, resource, period))?)?;
    }
    Ok(Value::Array(list))
}

// The part of the summary on a resource.
fn resource_value(
    alloc: Global,
    instance: &Instance,
    plan: &Plan,
    resource: u32,
) -> Result<Value, AllocError>
    requires fits { AllFit instance.now plan.now }
    requires low { 1 ≤ resource }
    requires high { resource ≤ resource_count instance.now }
    ensures { IfOk result (λ v. view v ≡ resource_data instance.now (plan_of plan.now) resource) }
{
    let mut map = Map::new(alloc);
    serde_json::put(
        &mut map,
        alloc,
        "name",
        name(alloc, instance.resource_name(resource))?,
    )?;
    serde_json::put(
        &mut map,
        alloc,
        "used",
        used_values(alloc, instance, plan, resource)?,
    )?;
    Ok(Value::Object(map))
}

// The parts of the summary on resources.
fn resource_values(alloc: Global, instance: &Instance, plan: &Plan) -> Result<Value, AllocError>
    requires { AllFit instance.now plan.now }
    ensures { IfOk result (λ v. view v
        ≡ array (items_of
        (list_to (resource_count instance.now) (resource_data instance.now (plan_of plan.now))))) }
{
    let mut list = Vec::new(alloc);
    for resource in 1..instance.resources() + 1 {
        list.push(resource_value(alloc, instance, plan, resource)?)?;
    }
    Ok(Value::Array(list))
}

// The summary as a value.
fn summary_value(alloc: Global, instance: &Instance, plan: &Plan) -> Result<Value, AllocError>
    requires fits { AllFit instance.now plan.now }
    requires feasible { IsFeasible instance.now (plan_of plan.now) }
    ensures value { IfOk result (λ v. view v ≡ summary_data instance.now (plan_of plan.now)) }
    ensures instance { IfOk result (λ _. IsInstance instance.now) }
{
    let cost = cost_of(instance, plan);
    let mut map = Map::new(alloc);
    serde_json::put(&mut map, alloc, "cost", amount(alloc, cost)?)?;
    serde_json::put(
        &mut map,
        alloc,
        "items",
        item_values(alloc, instance, plan)?,
    )?;
    serde_json::put(&mut map, alloc, "periods", Value::from(instance.periods()))?;
    serde_json::put(
        &mut map,
        alloc,
        "resources",
        resource_values(alloc, instance, plan)?,
    )?;
    Ok(Value::Object(map))
}

/// The summary of a feasible plan: one compact JSON object and a line feed. Amounts are texts: `cost` in
/// money; for each item its name, the four parts of its cost in money, the units that are `made` in all, and
/// the number of its `setups`; for each resource its name and the time that it is used in each period. The
/// error is that memory ran out.
///
/// It takes time in the number of periods times that of items and of lines of uses.
pub fn summary(alloc: Global, instance: &Instance, plan: &Plan) -> Result<Vec<u8>, AllocError>
    requires fits { AllFit instance.now plan.now }
    requires feasible { IsFeasible instance.now (plan_of plan.now) }
    ensures text { IfOk result (λ text. text.items ≡ summary_text instance.now (plan_of plan.now)) }
    ensures json { IfOk result (λ text. text.items ≡ json_line instance.now (plan_of plan.now)) }
{
    let mut text = summary_value(alloc, instance, plan)?.to_vec(alloc)?;
    text.push(b'\n')?;
    Ok(text)
}
