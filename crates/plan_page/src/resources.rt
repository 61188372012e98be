// The section of a resource.
ghost use Rattle.std.specs.Prelude.{◌≡◌, ◌≤◌, ◌<◌, ◌^◌, ◌++◌, OnOk, string_bytes};
ghost use Rattle.lot_sizing.specs.Problem.{item_count, resource_count};
ghost use Rattle.plan_rules.specs.Held.{AllFit, plan_of};
ghost use Rattle.plan_page.specs.Resources.{all_loads, legend, legend_entries, legend_entry, load_chart, load_line, resource_head, resource_text, resource_texts, swatch};

use crate::chart::Chart;
use crate::loads::{add_capacity_line, add_period};
use crate::marks::{close_chart, open_chart};
use crate::numbers::{Grouped, Paint, percent};
use crate::peaks::resource_chart;
use crate::rows::{add_load_table, takes_time};
use crate::totals::{Load, resource_load};
use lot_model::Instance;
use plan_rules::Plan;
use std::alloc::AllocError;

// Adds the heading of a resource.
#[tactic(auto, unfolding(crate::specs::Resources::resource_head))]
fn add_head(text: &mut String, instance: &Instance, resource: u32) -> Result<(), AllocError>
    requires low { 1 ≤ resource }
    requires high { resource ≤ resource_count instance.now }
    ensures { OnOk result (string_bytes text.new
        ≡ string_bytes text.old ++ resource_head instance.now resource) }
{
    let name = instance.resource_name(resource);
    write!(text, "<section id=\"r{resource}\"><h2>{name}</h2>\n")?;
    Ok(())
}

// Adds how much of a resource is used in all.
#[tactic(auto, unfolding(crate::specs::Resources::load_line))]
fn add_load(text: &mut String, load: Load) -> Result<(), AllocError>
    requires { load.used < 2 ^ 120 }
    ensures { OnOk result (string_bytes text.new
        ≡ string_bytes text.old ++ load_line load.used load.capacity) }
{
    let (used, capacity) = (Grouped(load.used), Grouped(load.capacity));
    let share = percent(load.used, load.capacity);
    write!(
        text,
        "<p>Time used <b>{used}</b> of <b>{capacity}</b>, {share}%</p>\n"
    )?;
    Ok(())
}

// Adds what is shown of all periods.
#[tactic(auto, using(crate::proofs::Joins::join_more), unfolding(crate::specs::Resources::all_loads))]
fn add_periods(
    text: &mut String,
    chart: Chart,
    instance: &Instance,
    plan: &Plan,
    resource: u32,
) -> Result<(), AllocError>
    requires fits { AllFit instance.now plan.now }
    requires low { 1 ≤ resource }
    requires high { resource ≤ resource_count instance.now }
    ensures { OnOk result (string_bytes text.new
        ≡ string_bytes text.old ++ all_loads chart instance.now (plan_of plan.now) resource) }
{
    for period in 1..instance.periods() + 1 {
        add_period(text, chart, instance, plan, resource, period)?;
    }
    Ok(())
}

// Adds the chart of a resource.
#[tactic(auto, unfolding(crate::specs::Resources::load_chart))]
fn add_chart(
    text: &mut String,
    chart: Chart,
    instance: &Instance,
    plan: &Plan,
    resource: u32,
) -> Result<(), AllocError>
    requires fits { AllFit instance.now plan.now }
    requires low { 1 ≤ resource }
    requires high { resource ≤ resource_count instance.now }
    ensures { OnOk result (string_bytes text.new
        ≡ string_bytes text.old ++ load_chart chart instance.now (plan_of plan.now) resource) }
{
    open_chart(text, chart, "Time used by period")?;
    add_periods(text, chart, instance, plan, resource)?;
    add_capacity_line(text, chart, instance, resource)?;
    close_chart(text, chart)?;
    Ok(())
}

// Adds what an item's marks look like.
#[tactic(auto, unfolding(crate::specs::Resources::swatch))]
fn add_swatch(text: &mut String, item: u32, name: &str) -> Result<(), AllocError>
    ensures { OnOk result (string_bytes text.new ≡ string_bytes text.old ++ swatch item name.now) }
{
    let paint = Paint(item);
    write!(text, "<span><i class=\"{paint}\"></i>{name}</span>\n")?;
    Ok(())
}

// Adds what an item's marks look like, if it takes time of the resource.
#[tactic(auto, unfolding(crate::specs::Resources::legend_entry))]
fn add_entry(
    text: &mut String,
    instance: &Instance,
    resource: u32,
    item: u32,
) -> Result<(), AllocError>
    requires low { 1 ≤ item }
    requires high { item ≤ item_count instance.now }
    ensures { OnOk result (string_bytes text.new
        ≡ string_bytes text.old ++ legend_entry instance.now resource item) }
{
    if takes_time(instance, resource, item) {
        let name = instance.item_name(item);
        add_swatch(text, item, name)?;
    }
    Ok(())
}

// Adds what the marks of all items look like.
#[tactic(auto, using(crate::proofs::Joins::join_more), unfolding(crate::specs::Resources::legend_entries))]
fn add_entries(text: &mut String, instance: &Instance, resource: u32) -> Result<(), AllocError>
    ensures { OnOk result (string_bytes text.new
        ≡ string_bytes text.old ++ legend_entries instance.now resource) }
{
    for item in 1..instance.items() + 1 {
        add_entry(text, instance, resource, item)?;
    }
    Ok(())
}

// Adds what the marks of the items look like.
#[tactic(auto, unfolding(crate::specs::Resources::legend))]
fn add_legend(text: &mut String, instance: &Instance, resource: u32) -> Result<(), AllocError>
    ensures { OnOk result (string_bytes text.new
        ≡ string_bytes text.old ++ legend instance.now resource) }
{
    text.push_str("<p class=\"legend\">")?;
    add_entries(text, instance, resource)?;
    text.push_str("<span>paler: setups</span><span>line: capacity</span></p>\n")?;
    Ok(())
}

// Adds the section of a resource.
#[tactic(auto, unfolding(crate::specs::Resources::resource_text))]
fn add_resource(
    text: &mut String,
    instance: &Instance,
    plan: &Plan,
    resource: u32,
) -> Result<(), AllocError>
    requires fits { AllFit instance.now plan.now }
    requires low { 1 ≤ resource }
    requires high { resource ≤ resource_count instance.now }
    ensures { OnOk result (string_bytes text.new
        ≡ string_bytes text.old ++ resource_text instance.now (plan_of plan.now) resource) }
{
    let load = resource_load(instance, plan, resource);
    let chart = resource_chart(instance, plan, resource);
    add_head(text, instance, resource)?;
    add_load(text, load)?;
    add_chart(text, chart, instance, plan, resource)?;
    add_legend(text, instance, resource)?;
    add_load_table(text, instance, plan, resource)?;
    text.push_str("</section>\n")?;
    Ok(())
}

/// Adds the sections of all resources.
#[tactic(auto, using(crate::proofs::Joins::join_more), unfolding(crate::specs::Resources::resource_texts))]
pub fn add_resources(text: &mut String, instance: &Instance, plan: &Plan) -> Result<(), AllocError>
    requires { AllFit instance.now plan.now }
    ensures { OnOk result (string_bytes text.new
        ≡ string_bytes text.old ++ resource_texts instance.now (plan_of plan.now)) }
{
    for resource in 1..instance.resources() + 1 {
        add_resource(text, instance, plan, resource)?;
    }
    Ok(())
}
