// The section of an item.
ghost use Rattle.std.specs.Prelude.{◌≡◌, ◌≤◌, ◌<◌, ◌+◌, ◌^◌, ◌++◌, OnOk, string_bytes};
ghost use Rattle.lot_sizing.specs.Problem.{item_at, item_count};
ghost use Rattle.plan_rules.specs.Held.{AllFit, plan_of};
ghost use Rattle.plan_page.specs.Items.{all_marks, amounts_line, costs_line, item_chart_text, item_head, item_heads, item_row, item_row_at, item_rows, item_table, item_text, item_texts, lead_line, stock_line, stock_point, stock_points, stock_start, row_back, row_front};

use crate::cells::{Cell, add_period, cell_of};
use crate::chart::{Chart, level, right_of};
use crate::marks::{close_chart, open_chart};
use crate::numbers::Grouped;
use crate::peaks::item_chart;
use crate::totals::{Amounts, item_amounts, item_parts};
use lot_model::Instance;
use plan_rules::{CostParts, Plan};
use std::alloc::AllocError;

// Adds the heading of an item.
#[tactic(auto, unfolding(crate::specs::Items::item_head))]
fn add_head(text: &mut String, instance: &Instance, item: u32) -> Result<(), AllocError>
    requires low { 1 ≤ item }
    requires high { item ≤ item_count instance.now }
    ensures { OnOk result (string_bytes text.new
        ≡ string_bytes text.old ++ item_head instance.now item) }
{
    let name = instance.item_name(item);
    write!(text, "<section id=\"i{item}\"><h2>{name}</h2>\n")?;
    Ok(())
}

// Adds an item's units in all.
#[tactic(auto, unfolding(crate::specs::Items::amounts_line))]
fn add_amounts(text: &mut String, amounts: Amounts) -> Result<(), AllocError>
    ensures { OnOk result (string_bytes text.new
        ≡ string_bytes text.old
        ++ amounts_line amounts.demand amounts.used amounts.made amounts.setups) }
{
    let (demand, used) = (Grouped(amounts.demand), Grouped(amounts.used));
    let (made, setups) = (Grouped(amounts.made), Grouped(amounts.setups));
    write!(
        text,
        "<p>Demand <b>{demand}</b>, use by other items <b>{used}</b>, made <b>{made}</b>, setups <b>{setups}</b>"
    )?;
    Ok(())
}

// Adds an item's stock before the first period and its lead time.
#[tactic(auto, unfolding(crate::specs::Items::lead_line))]
fn add_lead(text: &mut String, opening: u64, lead: u32) -> Result<(), AllocError>
    ensures { OnOk result (string_bytes text.new
        ≡ string_bytes text.old ++ lead_line opening lead) }
{
    let opening = Grouped(opening as u128);
    write!(
        text,
        ", opening stock <b>{opening}</b>, lead time <b>{lead}</b></p>\n"
    )?;
    Ok(())
}

// Adds what an item costs.
#[tactic(auto, unfolding(crate::specs::Items::costs_line))]
fn add_costs(text: &mut String, parts: CostParts) -> Result<(), AllocError>
    requires { parts.setup + parts.unit + parts.hold + parts.backlog < 2 ^ 110 }
    ensures { OnOk result (string_bytes text.new
        ≡ string_bytes text.old ++ costs_line parts.setup parts.unit parts.hold parts.backlog) }
{
    let (setup, unit) = (Grouped(parts.setup), Grouped(parts.unit));
    let (hold, backlog) = (Grouped(parts.hold), Grouped(parts.backlog));
    let total = Grouped(parts.setup + parts.unit + parts.hold + parts.backlog);
    write!(
        text,
        "<p>Cost <b>{total}</b>: setups <b>{setup}</b>, making <b>{unit}</b>, holding <b>{hold}</b>, backlog <b>{backlog}</b></p>\n"
    )?;
    Ok(())
}

// Adds the point of the stock's line at the end of a period.
#[tactic(auto, unfolding(crate::specs::Items::stock_point))]
fn add_point(
    text: &mut String,
    chart: Chart,
    plan: &Plan,
    item: u32,
    period: u32,
) -> Result<(), AllocError>
    requires item_low { 1 ≤ item }
    requires item_high { item ≤ plan.now.stock.items }
    requires low { 1 ≤ period }
    requires high { period ≤ plan.now.stock.periods }
    ensures { OnOk result (string_bytes text.new
        ≡ string_bytes text.old ++ stock_point chart (plan_of plan.now) item period) }
{
    let x = right_of(chart, period);
    let y = level(chart, plan.stock.get(item, period) as u128);
    write!(text, " {x},{y}")?;
    Ok(())
}

// Begins the line of the stock, at the opening stock.
#[tactic(auto, unfolding(crate::specs::Items::stock_start))]
fn add_opening(text: &mut String, chart: Chart, opening: u64) -> Result<(), AllocError>
    ensures { OnOk result (string_bytes text.new
        ≡ string_bytes text.old ++ stock_start chart opening) }
{
    let x = chart.gutter;
    let y = level(chart, opening as u128);
    write!(text, "<polyline class=\"stocks\" points=\"{x},{y}")?;
    Ok(())
}

// Adds the points of all periods.
#[tactic(auto, using(crate::proofs::Joins::join_more), unfolding(crate::specs::Items::stock_points))]
fn add_points(
    text: &mut String,
    chart: Chart,
    instance: &Instance,
    plan: &Plan,
    item: u32,
) -> Result<(), AllocError>
    requires fits { AllFit instance.now plan.now }
    requires low { 1 ≤ item }
    requires high { item ≤ item_count instance.now }
    ensures { OnOk result (string_bytes text.new
        ≡ string_bytes text.old ++ stock_points chart instance.now (plan_of plan.now) item) }
{
    for period in 1..instance.periods() + 1 {
        add_point(text, chart, plan, item, period)?;
    }
    Ok(())
}

// Adds the line of the stock, from the opening stock on.
#[tactic(auto, unfolding(crate::specs::Items::stock_line))]
fn add_stock_line(
    text: &mut String,
    chart: Chart,
    instance: &Instance,
    plan: &Plan,
    item: u32,
) -> Result<(), AllocError>
    requires fits { AllFit instance.now plan.now }
    requires low { 1 ≤ item }
    requires high { item ≤ item_count instance.now }
    ensures { OnOk result (string_bytes text.new
        ≡ string_bytes text.old ++ stock_line chart instance.now (plan_of plan.now) item) }
{
    add_opening(text, chart, instance.opening(item))?;
    add_points(text, chart, instance, plan, item)?;
    text.push_str("\"/>\n")?;
    Ok(())
}

// Adds what is shown of all periods.
#[tactic(auto, using(crate::proofs::Joins::join_more), unfolding(crate::specs::Items::all_marks))]
fn add_periods(
    text: &mut String,
    chart: Chart,
    instance: &Instance,
    plan: &Plan,
    item: u32,
) -> Result<(), AllocError>
    requires fits { AllFit instance.now plan.now }
    requires low { 1 ≤ item }
    requires high { item ≤ item_count instance.now }
    ensures { OnOk result (string_bytes text.new
        ≡ string_bytes text.old ++ all_marks chart instance.now (plan_of plan.now) item) }
{
    for period in 1..instance.periods() + 1 {
        add_period(text, chart, instance, plan, item, period)?;
    }
    Ok(())
}

// Adds the chart of an item.
#[tactic(auto, unfolding(crate::specs::Items::item_chart_text))]
fn add_chart(
    text: &mut String,
    chart: Chart,
    instance: &Instance,
    plan: &Plan,
    item: u32,
) -> Result<(), AllocError>
    requires fits { AllFit instance.now plan.now }
    requires low { 1 ≤ item }
    requires high { item ≤ item_count instance.now }
    ensures { OnOk result (string_bytes text.new
        ≡ string_bytes text.old ++ item_chart_text chart instance.now (plan_of plan.now) item) }
{
    open_chart(text, chart, "Demand, lots and stock by period")?;
    add_periods(text, chart, instance, plan, item)?;
    add_stock_line(text, chart, instance, plan, item)?;
    close_chart(text, chart)?;
    Ok(())
}

// Adds a period, what is asked for, what goes into other items, and what is made.
#[tactic(auto, unfolding(crate::specs::Items::row_front))]
fn add_front(
    text: &mut String,
    period: u32,
    demand: u64,
    used: u128,
    made: u64,
) -> Result<(), AllocError>
    ensures { OnOk result (string_bytes text.new
        ≡ string_bytes text.old ++ row_front period demand used made) }
{
    let (asked, parts) = (Grouped(demand as u128), Grouped(used));
    let lot = Grouped(made as u128);
    write!(
        text,
        "<tr><td>{period}</td><td>{asked}</td><td>{parts}</td><td>{lot}</td>"
    )?;
    Ok(())
}

// Adds a setup, and what is left and owed at the end.
#[tactic(auto, unfolding(crate::specs::Items::row_back))]
fn add_back(text: &mut String, setup: u64, stock: u64, backlog: u64) -> Result<(), AllocError>
    ensures { OnOk result (string_bytes text.new
        ≡ string_bytes text.old ++ row_back setup stock backlog) }
{
    let (left, owed) = (Grouped(stock as u128), Grouped(backlog as u128));
    write!(
        text,
        "<td>{setup}</td><td>{left}</td><td>{owed}</td></tr>\n"
    )?;
    Ok(())
}

// Adds the row of a period.
#[tactic(auto, unfolding(crate::specs::Items::item_row))]
fn add_row(text: &mut String, period: u32, cell: Cell) -> Result<(), AllocError>
    ensures { OnOk result (string_bytes text.new ≡ string_bytes text.old ++ item_row period cell) }
{
    add_front(text, period, cell.demand, cell.used, cell.made)?;
    add_back(text, cell.setup, cell.stock, cell.backlog)?;
    Ok(())
}

// Adds the row of an item in a period.
#[tactic(auto, unfolding(crate::specs::Items::item_row_at))]
fn add_row_at(
    text: &mut String,
    instance: &Instance,
    plan: &Plan,
    item: u32,
    period: u32,
) -> Result<(), AllocError>
    requires fits { AllFit instance.now plan.now }
    requires item_low { 1 ≤ item }
    requires item_high { item ≤ item_count instance.now }
    requires low { 1 ≤ period }
    requires high { period ≤ instance.now.periods }
    ensures { OnOk result (string_bytes text.new
        ≡ string_bytes text.old ++ item_row_at instance.now (plan_of plan.now) item period) }
{
    let cell = cell_of(instance, plan, item, period);
    add_row(text, period, cell)?;
    Ok(())
}

// Begins the table of an item.
#[tactic(auto, unfolding(crate::specs::Items::item_heads))]
fn add_heads(text: &mut String) -> Result<(), AllocError>
    ensures { OnOk result (string_bytes text.new ≡ string_bytes text.old ++ item_heads) }
{
    text.push_str(
        "<details><summary>Numbers</summary><div class=\"scroll\"><table><thead><tr><th>Period</th><th>Demand</th><th>Use</th><th>Lot</th><th>Setup</th><th>End stock</th><th>Backlog</th></tr></thead><tbody>\n",
    )
}

// Adds the rows of all periods.
#[tactic(auto, using(crate::proofs::Joins::join_more), unfolding(crate::specs::Items::item_rows))]
fn add_rows(
    text: &mut String,
    instance: &Instance,
    plan: &Plan,
    item: u32,
) -> Result<(), AllocError>
    requires fits { AllFit instance.now plan.now }
    requires low { 1 ≤ item }
    requires high { item ≤ item_count instance.now }
    ensures { OnOk result (string_bytes text.new
        ≡ string_bytes text.old ++ item_rows instance.now (plan_of plan.now) item) }
{
    for period in 1..instance.periods() + 1 {
        add_row_at(text, instance, plan, item, period)?;
    }
    Ok(())
}

// Adds the table of an item.
#[tactic(auto, unfolding(crate::specs::Items::item_table))]
fn add_table(
    text: &mut String,
    instance: &Instance,
    plan: &Plan,
    item: u32,
) -> Result<(), AllocError>
    requires fits { AllFit instance.now plan.now }
    requires low { 1 ≤ item }
    requires high { item ≤ item_count instance.now }
    ensures { OnOk result (string_bytes text.new
        ≡ string_bytes text.old ++ item_table instance.now (plan_of plan.now) item) }
{
    add_heads(text)?;
    add_rows(text, instance, plan, item)?;
    text.push_str("</tbody></table></div></details>\n")?;
    Ok(())
}

// Adds the section of an item.
#[tactic(auto, unfolding(crate::specs::Items::item_text))]
fn add_item(
    text: &mut String,
    instance: &Instance,
    plan: &Plan,
    item: u32,
) -> Result<(), AllocError>
    requires fits { AllFit instance.now plan.now }
    requires low { 1 ≤ item }
    requires high { item ≤ item_count instance.now }
    ensures { OnOk result (string_bytes text.new
        ≡ string_bytes text.old ++ item_text instance.now (plan_of plan.now) item) }
{
    let amounts = item_amounts(instance, plan, item);
    let (opening, lead) = (instance.opening(item), instance.lead(item));
    let parts = item_parts(instance, plan, item);
    let chart = item_chart(instance, plan, item);
    add_head(text, instance, item)?;
    add_amounts(text, amounts)?;
    add_lead(text, opening, lead)?;
    add_costs(text, parts)?;
    add_chart(text, chart, instance, plan, item)?;
    add_table(text, instance, plan, item)?;
    text.push_str("</section>\n")?;
    Ok(())
}

/// Adds the sections of all items.
#[tactic(auto, using(crate::proofs::Joins::join_more), unfolding(crate::specs::Items::item_texts))]
pub fn add_items(text: &mut String, instance: &Instance, plan: &Plan) -> Result<(), AllocError>
    requires { AllFit instance.now plan.now }
    ensures { OnOk result (string_bytes text.new
        ≡ string_bytes text.old ++ item_texts instance.now (plan_of plan.now)) }
{
    for item in 1..instance.items() + 1 {
        add_item(text, instance, plan, item)?;
    }
    Ok(())
}
