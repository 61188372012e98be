// All of a plan as one line of JSON.
ghost use Rattle.std.specs.Prelude.{◌≡◌, ◌≤◌, ◌++◌, IfOk, OnOk, string_bytes};
ghost use Rattle.lot_sizing.specs.Problem.{item_count, resource_count};
ghost use Rattle.lot_sizing.specs.Plan.{IsFeasible};
ghost use Rattle.plan_rules.specs.Held.{AllFit, plan_of};
ghost use Rattle.plan_report.specs.Figures.{row_count};
ghost use Rattle.plan_report.specs.Full.{costs_text, full_text, item_costs, item_entries, item_entry, item_object, name_member, plan_costs, resource_entries, resource_entry, resource_object};

use crate::figures::Series;
use crate::numbers::{add_comma, add_named_list, add_quantity};
use crate::parts::{Part, item_cost, part_of, part_total, plan_cost};
use lot_model::Instance;
use plan_rules::Plan;
use std::alloc::{AllocError, Global};

// A cost and its four parts, in money.
#[derive(Clone, Copy)]
struct Costs {
    total: u128,
    backlog: u128,
    holding: u128,
    making: u128,
    setups: u128,
}

// Adds a cost and its parts.
#[tactic(auto, unfolding(crate::specs::Full::costs_text))]
fn add_costs(text: &mut String, costs: Costs) -> Result<(), AllocError>
    ensures { OnOk result (string_bytes text.new ≡ string_bytes text.old
        ++ costs_text costs.total costs.backlog costs.holding costs.making costs.setups) }
{
    text.push_str("\"cost\":")?;
    add_quantity(text, costs.total)?;
    text.push_str(",\"costs\":{\"backlog\":")?;
    add_quantity(text, costs.backlog)?;
    text.push_str(",\"holding\":")?;
    add_quantity(text, costs.holding)?;
    text.push_str(",\"making\":")?;
    add_quantity(text, costs.making)?;
    text.push_str(",\"setups\":")?;
    add_quantity(text, costs.setups)?;
    text.push_str("}")?;
    Ok(())
}

// Adds what an item costs.
#[tactic(auto, unfolding(crate::specs::Full::item_costs))]
fn add_item_costs(
    text: &mut String,
    instance: &Instance,
    plan: &Plan,
    item: u32,
) -> Result<(), AllocError>
    requires fits { AllFit instance.now plan.now }
    requires low { 1 ≤ item }
    requires high { item ≤ item_count instance.now }
    ensures { OnOk result (string_bytes text.new ≡ string_bytes text.old
        ++ item_costs instance.now (plan_of plan.now) item) }
{
    let total = item_cost(instance, plan, item);
    let backlog = part_of(instance, plan, Part::Owing, item);
    let holding = part_of(instance, plan, Part::Holding, item);
    let making = part_of(instance, plan, Part::Making, item);
    let setups = part_of(instance, plan, Part::Setups, item);
    let costs = Costs {
        total,
        backlog,
        holding,
        making,
        setups,
    };
    add_costs(text, costs)?;
    Ok(())
}

// Adds what the plan costs.
#[tactic(auto, unfolding(crate::specs::Full::plan_costs))]
fn add_plan_costs(text: &mut String, instance: &Instance, plan: &Plan) -> Result<(), AllocError>
    requires { AllFit instance.now plan.now }
    ensures { OnOk result (string_bytes text.new ≡ string_bytes text.old
        ++ plan_costs instance.now (plan_of plan.now)) }
{
    let total = plan_cost(instance, plan);
    let backlog = part_total(instance, plan, Part::Owing);
    let holding = part_total(instance, plan, Part::Holding);
    let making = part_total(instance, plan, Part::Making);
    let setups = part_total(instance, plan, Part::Setups);
    let costs = Costs {
        total,
        backlog,
        holding,
        making,
        setups,
    };
    add_costs(text, costs)?;
    Ok(())
}

// Adds a name, between other members.
#[tactic(auto, unfolding(crate::specs::Full::name_member, crate::specs::Numbers::in_quotes))]
fn add_name(text: &mut String, name: &str) -> Result<(), AllocError>
    ensures { OnOk result (string_bytes text.new ≡ string_bytes text.old ++ name_member name.now) }
{
    write!(text, ",\"name\":\"{name}\",")?;
    Ok(())
}

// Adds an item.
#[tactic(auto, unfolding(crate::specs::Full::item_object, crate::specs::Figures::row_count))]
fn add_item(
    text: &mut String,
    instance: &Instance,
    plan: &Plan,
    item: u32,
) -> Result<(), AllocError>
    requires fits { AllFit instance.now plan.now }
    requires low { 1 ≤ item }
    requires high { item ≤ item_count instance.now }
    ensures { OnOk result (string_bytes text.new ≡ string_bytes text.old
        ++ item_object instance.now (plan_of plan.now) item) }
{
    let name = instance.item_name(item);
    text.push_str("{")?;
    add_named_list(text, instance, plan, Series::Backlog, item)?;
    text.push_str(",")?;
    add_item_costs(text, instance, plan, item)?;
    text.push_str(",")?;
    add_named_list(text, instance, plan, Series::Made, item)?;
    add_name(text, name)?;
    add_named_list(text, instance, plan, Series::Setup, item)?;
    text.push_str(",")?;
    add_named_list(text, instance, plan, Series::Stock, item)?;
    text.push_str("}")?;
    Ok(())
}

// Adds a resource.
#[tactic(auto, unfolding(crate::specs::Full::resource_object, crate::specs::Figures::row_count))]
fn add_resource(
    text: &mut String,
    instance: &Instance,
    plan: &Plan,
    resource: u32,
) -> Result<(), AllocError>
    requires fits { AllFit instance.now plan.now }
    requires low { 1 ≤ resource }
    requires high { resource ≤ resource_count instance.now }
    ensures { OnOk result (string_bytes text.new ≡ string_bytes text.old
        ++ resource_object instance.now (plan_of plan.now) resource) }
{
    let name = instance.resource_name(resource);
    text.push_str("{")?;
    add_named_list(text, instance, plan, Series::Capacity, resource)?;
    text.push_str(",")?;
    add_named_list(text, instance, plan, Series::Free, resource)?;
    add_name(text, name)?;
    add_named_list(text, instance, plan, Series::Used, resource)?;
    text.push_str("}")?;
    Ok(())
}

// Adds an item, after a comma if it isn't the first.
#[tactic(auto, unfolding(crate::specs::Full::item_entry))]
fn add_item_entry(
    text: &mut String,
    instance: &Instance,
    plan: &Plan,
    item: u32,
) -> Result<(), AllocError>
    requires fits { AllFit instance.now plan.now }
    requires low { 1 ≤ item }
    requires high { item ≤ item_count instance.now }
    ensures { OnOk result (string_bytes text.new ≡ string_bytes text.old
        ++ item_entry instance.now (plan_of plan.now) item) }
{
    add_comma(text, item)?;
    add_item(text, instance, plan, item)?;
    Ok(())
}

// Adds a resource, after a comma if it isn't the first.
#[tactic(auto, unfolding(crate::specs::Full::resource_entry))]
fn add_resource_entry(
    text: &mut String,
    instance: &Instance,
    plan: &Plan,
    resource: u32,
) -> Result<(), AllocError>
    requires fits { AllFit instance.now plan.now }
    requires low { 1 ≤ resource }
    requires high { resource ≤ resource_count instance.now }
    ensures { OnOk result (string_bytes text.new ≡ string_bytes text.old
        ++ resource_entry instance.now (plan_of plan.now) resource) }
{
    add_comma(text, resource)?;
    add_resource(text, instance, plan, resource)?;
    Ok(())
}

// Adds all items.
#[tactic(auto, using(crate::proofs::Joins::join_more), unfolding(crate::specs::Full::item_entries))]
fn add_items(text: &mut String, instance: &Instance, plan: &Plan) -> Result<(), AllocError>
    requires { AllFit instance.now plan.now }
    ensures { OnOk result (string_bytes text.new ≡ string_bytes text.old
        ++ item_entries instance.now (plan_of plan.now)) }
{
    for item in 1..instance.items() + 1 {
        add_item_entry(text, instance, plan, item)?;
    }
    Ok(())
}

// Adds all resources.
#[tactic(auto, using(crate::proofs::Joins::join_more), unfolding(crate::specs::Full::resource_entries))]
fn add_resources(text: &mut String, instance: &Instance, plan: &Plan) -> Result<(), AllocError>
    requires { AllFit instance.now plan.now }
    ensures { OnOk result (string_bytes text.new ≡ string_bytes text.old
        ++ resource_entries instance.now (plan_of plan.now)) }
{
    for resource in 1..instance.resources() + 1 {
        add_resource_entry(text, instance, plan, resource)?;
    }
    Ok(())
}

// Adds the line.
#[tactic(auto, unfolding(crate::specs::Full::full_text))]
fn add_line(text: &mut String, instance: &Instance, plan: &Plan) -> Result<(), AllocError>
    requires { AllFit instance.now plan.now }
    ensures { OnOk result (string_bytes text.new ≡ string_bytes text.old
        ++ full_text instance.now (plan_of plan.now)) }
{
    let periods = instance.periods();
    text.push_str("{")?;
    add_plan_costs(text, instance, plan)?;
    text.push_str(",\"items\":[")?;
    add_items(text, instance, plan)?;
    write!(text, "],\"periods\":{periods},\"resources\":[")?;
    add_resources(text, instance, plan)?;
    text.push_str("]}\n")?;
    Ok(())
}

/// All of a feasible plan as one line of JSON: its cost, by kinds too; for each item its name, what is made, the setups,
/// stocks and backlogs with an entry for each period, and its cost by kinds; for each resource its name, and the time that
/// there is, that is used and that is free, with an entry for each period. Amounts are in money, quantities in units of the
/// items and times in time units of the resources; each is a number where it is at most 2^53, and else a text of its
/// digits. The error is that memory ran out.
///
/// It takes time in the number of periods times that of items and of lines of uses.
pub fn full_line(alloc: Global, instance: &Instance, plan: &Plan) -> Result<String, AllocError>
    requires fits { AllFit instance.now plan.now }
    ensures { IfOk result (λ text. string_bytes text ≡ full_text instance.now (plan_of plan.now)) }
{
    let mut text = String::new(alloc);
    add_line(&mut text, instance, plan)?;
    Ok(text)
}
