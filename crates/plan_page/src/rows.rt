// The table of a resource: its numbers by period, with a column for each item that takes time of it.
ghost use Rattle.std.specs.Prelude.{◌≡◌, ◌≤◌, ◌<◌, ◌^◌, ◌++◌, OnOk, string_bytes};
ghost use Rattle.lot_sizing.specs.Problem.{item_count, resource_count};
ghost use Rattle.plan_rules.specs.Held.{AllFit, plan_of};
ghost use Rattle.plan_page.specs.Rows.{load_cell, load_cells, load_heads, load_row, load_rows, load_start, load_table, name_cell, name_cells, table_start, takes_time, time_cell};

use crate::loads::{run_time, setup_time_used};
use crate::numbers::{Grouped, percent};
use lot_model::Instance;
use plan_rules::{Plan, time_used};
use std::alloc::AllocError;

/// Whether an item takes time of a resource.
#[tactic(auto, unfolding(crate::specs::Rows::takes_time))]
pub fn takes_time(instance: &Instance, resource: u32, item: u32) -> bool
    requires low { 1 ≤ item }
    requires high { item ≤ item_count instance.now }
    ensures { result ≡ takes_time instance.now resource item }
{
    instance.unit_time(item, resource) + instance.setup_time(item, resource) > 0
}

// Adds the name of an item, if it takes time of the resource.
#[tactic(auto, unfolding(crate::specs::Rows::name_cell))]
fn add_name(
    text: &mut String,
    instance: &Instance,
    resource: u32,
    item: u32,
) -> Result<(), AllocError>
    requires low { 1 ≤ item }
    requires high { item ≤ item_count instance.now }
    ensures { OnOk result (string_bytes text.new
        ≡ string_bytes text.old ++ name_cell instance.now resource item) }
{
    if takes_time(instance, resource, item) {
        let name = instance.item_name(item);
        write!(text, "<th>{name}</th>")?;
    }
    Ok(())
}

// Begins the row of names.
#[tactic(auto, unfolding(crate::specs::Rows::table_start))]
fn open_table(text: &mut String) -> Result<(), AllocError>
    ensures { OnOk result (string_bytes text.new ≡ string_bytes text.old ++ table_start) }
{
    text.push_str(
        "<details><summary>Numbers</summary><p>For each item: run time + setup time</p><div class=\"scroll\"><table><thead><tr><th>Period</th><th>Capacity</th><th>Used</th><th>Share</th>",
    )
}

// Adds the names of all items that take time of the resource.
#[tactic(auto, using(crate::proofs::Joins::join_more), unfolding(crate::specs::Rows::name_cells))]
fn add_names(text: &mut String, instance: &Instance, resource: u32) -> Result<(), AllocError>
    ensures { OnOk result (string_bytes text.new
        ≡ string_bytes text.old ++ name_cells instance.now resource) }
{
    for item in 1..instance.items() + 1 {
        add_name(text, instance, resource, item)?;
    }
    Ok(())
}

// Adds the row of names.
#[tactic(auto, unfolding(crate::specs::Rows::load_heads))]
fn add_heads(text: &mut String, instance: &Instance, resource: u32) -> Result<(), AllocError>
    ensures { OnOk result (string_bytes text.new
        ≡ string_bytes text.old ++ load_heads instance.now resource) }
{
    open_table(text)?;
    add_names(text, instance, resource)?;
    text.push_str("</tr></thead><tbody>\n")?;
    Ok(())
}

// Adds the time of a lot: its run and its setup.
#[tactic(auto, unfolding(crate::specs::Rows::time_cell))]
fn add_time(text: &mut String, run: u128, setup: u128) -> Result<(), AllocError>
    ensures { OnOk result (string_bytes text.new ≡ string_bytes text.old ++ time_cell run setup) }
{
    let (units, setups) = (Grouped(run), Grouped(setup));
    write!(text, "<td>{units} + {setups}</td>")?;
    Ok(())
}

// Adds the time of an item in a period, if it takes time of the resource.
#[tactic(auto, unfolding(crate::specs::Rows::load_cell))]
fn add_cell(
    text: &mut String,
    instance: &Instance,
    plan: &Plan,
    resource: u32,
    period: u32,
    item: u32,
) -> Result<(), AllocError>
    requires fits { AllFit instance.now plan.now }
    requires low { 1 ≤ period }
    requires high { period ≤ instance.now.periods }
    requires item_low { 1 ≤ item }
    requires item_high { item ≤ item_count instance.now }
    ensures { OnOk result (string_bytes text.new
        ≡ string_bytes text.old ++ load_cell instance.now (plan_of plan.now) resource period item) }
{
    if takes_time(instance, resource, item) {
        let run = run_time(instance, plan, resource, period, item);
        let setup = setup_time_used(instance, plan, resource, period, item);
        add_time(text, run, setup)?;
    }
    Ok(())
}

// Adds the times of all items in a period.
#[tactic(auto, using(crate::proofs::Joins::join_more), unfolding(crate::specs::Rows::load_cells))]
fn add_cells(
    text: &mut String,
    instance: &Instance,
    plan: &Plan,
    resource: u32,
    period: u32,
) -> Result<(), AllocError>
    requires fits { AllFit instance.now plan.now }
    requires low { 1 ≤ period }
    requires high { period ≤ instance.now.periods }
    ensures { OnOk result (string_bytes text.new
        ≡ string_bytes text.old ++ load_cells instance.now (plan_of plan.now) resource period) }
{
    for item in 1..instance.items() + 1 {
        add_cell(text, instance, plan, resource, period, item)?;
    }
    Ok(())
}

// Adds the first cells of a row.
#[tactic(auto, unfolding(crate::specs::Rows::load_start))]
fn add_start(text: &mut String, period: u32, used: u128, capacity: u128) -> Result<(), AllocError>
    requires { used < 2 ^ 120 }
    ensures { OnOk result (string_bytes text.new
        ≡ string_bytes text.old ++ load_start period used capacity) }
{
    let share = percent(used, capacity);
    let (shown, all) = (Grouped(used), Grouped(capacity));
    write!(
        text,
        "<tr><td>{period}</td><td>{all}</td><td>{shown}</td><td>{share}%</td>"
    )?;
    Ok(())
}

// Adds the row of a period.
#[tactic(auto, unfolding(crate::specs::Rows::load_row))]
fn add_row(
    text: &mut String,
    instance: &Instance,
    plan: &Plan,
    resource: u32,
    period: u32,
) -> Result<(), AllocError>
    requires fits { AllFit instance.now plan.now }
    requires resource_low { 1 ≤ resource }
    requires resource_high { resource ≤ resource_count instance.now }
    requires low { 1 ≤ period }
    requires high { period ≤ instance.now.periods }
    ensures { OnOk result (string_bytes text.new
        ≡ string_bytes text.old ++ load_row instance.now (plan_of plan.now) resource period) }
{
    let used = time_used(instance, plan, resource, period);
    let capacity = instance.capacity(resource, period) as u128;
    add_start(text, period, used, capacity)?;
    add_cells(text, instance, plan, resource, period)?;
    text.push_str("</tr>\n")?;
    Ok(())
}

// Adds the rows of all periods.
#[tactic(auto, using(crate::proofs::Joins::join_more), unfolding(crate::specs::Rows::load_rows))]
fn add_rows(
    text: &mut String,
    instance: &Instance,
    plan: &Plan,
    resource: u32,
) -> Result<(), AllocError>
    requires fits { AllFit instance.now plan.now }
    requires low { 1 ≤ resource }
    requires high { resource ≤ resource_count instance.now }
    ensures { OnOk result (string_bytes text.new
        ≡ string_bytes text.old ++ load_rows instance.now (plan_of plan.now) resource) }
{
    for period in 1..instance.periods() + 1 {
        add_row(text, instance, plan, resource, period)?;
    }
    Ok(())
}

/// Adds the table of a resource.
#[tactic(auto, unfolding(crate::specs::Rows::load_table))]
pub fn add_load_table(
    text: &mut String,
    instance: &Instance,
    plan: &Plan,
    resource: u32,
) -> Result<(), AllocError>
    requires fits { AllFit instance.now plan.now }
    requires low { 1 ≤ resource }
    requires high { resource ≤ resource_count instance.now }
    ensures { OnOk result (string_bytes text.new
        ≡ string_bytes text.old ++ load_table instance.now (plan_of plan.now) resource) }
{
    add_heads(text, instance, resource)?;
    add_rows(text, instance, plan, resource)?;
    text.push_str("</tbody></table></div></details>\n")?;
    Ok(())
}
