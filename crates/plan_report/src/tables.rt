// A plan as tables for a terminal.
ghost use Rattle.std.specs.Prelude.{◌≡◌, ◌≤◌, ◌++◌, IfOk, OnOk, string_bytes};
ghost use Rattle.lot_sizing.specs.Problem.{item_count};
ghost use Rattle.plan_rules.specs.Held.{AllFit, plan_of};
ghost use Rattle.plan_report.specs.Figures.{row_count};
ghost use Rattle.plan_report.specs.Tables.{backlog_table, cost_line, head_cell, head_cells, head_line, largest_backlog, load_tables, plan_cost_line, row_cell, row_cells, row_line, row_lines, table, table_of_widths, table_text};
ghost use Rattle.plan_report.specs.Widths.{max_to};

use crate::figures::{Series, row_count, row_name, title_of};
use crate::padding::{add_at_left, add_at_right};
use crate::parts::{Part, part_total, plan_cost};
use crate::widths::{cell_text, column_width, label_width};
use lot_model::Instance;
use plan_rules::Plan;
use std::alloc::{AllocError, Global};

// The widths of a table's first column and of the others.
#[derive(Clone, Copy)]
struct Widths {
    labels: usize,
    numbers: usize,
}

// The numbers of a plan that a table shows.
#[derive(Clone, Copy)]
struct Shown<'a> {
    instance: &'a Instance,
    plan: &'a Plan,
    series: Series,
}

// Adds the number of a period at the head of its column.
#[tactic(auto, unfolding(crate::specs::Tables::head_cell))]
fn add_head_cell(
    alloc: Global,
    text: &mut String,
    width: usize,
    period: u32,
) -> Result<(), AllocError>
    ensures { OnOk result (string_bytes text.new ≡ string_bytes text.old
        ++ head_cell width period) }
{
    let shown = period.to_string(alloc)?;
    add_at_right(text, width, shown.as_str())?;
    Ok(())
}

// Adds the numbers of all periods.
#[tactic(auto, using(crate::proofs::Joins::join_more), unfolding(crate::specs::Tables::head_cells))]
fn add_head_cells(
    alloc: Global,
    text: &mut String,
    width: usize,
    instance: &Instance,
) -> Result<(), AllocError>
    ensures { OnOk result (string_bytes text.new ≡ string_bytes text.old
        ++ head_cells width instance.now.periods) }
{
    for period in 1..instance.periods() + 1 {
        add_head_cell(alloc, text, width, period)?;
    }
    Ok(())
}

// Adds the head of a table: its title and the periods.
#[tactic(auto, unfolding(crate::specs::Tables::head_line))]
fn add_head(
    alloc: Global,
    text: &mut String,
    widths: Widths,
    instance: &Instance,
    series: Series,
) -> Result<(), AllocError>
    ensures { OnOk result (string_bytes text.new ≡ string_bytes text.old
        ++ head_line widths.labels widths.numbers instance.now.periods series) }
{
    let title = title_of(series);
    add_at_left(text, widths.labels, title)?;
    add_head_cells(alloc, text, widths.numbers, instance)?;
    text.push_str("\n")?;
    Ok(())
}

// Adds a number in its column.
#[tactic(auto, unfolding(crate::specs::Tables::row_cell))]
fn add_row_cell(
    alloc: Global,
    text: &mut String,
    width: usize,
    shown: &Shown<'_>,
    row: u32,
    period: u32,
) -> Result<(), AllocError>
    requires fits { AllFit shown.now.instance.now shown.now.plan.now }
    requires row_low { 1 ≤ row }
    requires row_high { row ≤ row_count shown.now.instance.now shown.now.series }
    requires low { 1 ≤ period }
    requires high { period ≤ shown.now.instance.now.periods }
    ensures { OnOk result (string_bytes text.new ≡ string_bytes text.old
        ++ row_cell width shown.now.instance.now (plan_of shown.now.plan.now) shown.now.series row
        period) }
{
    let number = cell_text(alloc, shown.instance, shown.plan, shown.series, row, period)?;
    add_at_right(text, width, number.as_str())?;
    Ok(())
}

// Adds the numbers of a row.
#[tactic(auto, using(crate::proofs::Joins::join_more), unfolding(crate::specs::Tables::row_cells))]
fn add_row_cells(
    alloc: Global,
    text: &mut String,
    width: usize,
    shown: &Shown<'_>,
    row: u32,
) -> Result<(), AllocError>
    requires fits { AllFit shown.now.instance.now shown.now.plan.now }
    requires low { 1 ≤ row }
    requires high { row ≤ row_count shown.now.instance.now shown.now.series }
    ensures { OnOk result (string_bytes text.new ≡ string_bytes text.old
        ++ row_cells width shown.now.instance.now (plan_of shown.now.plan.now) shown.now.series row) }
{
    for period in 1..shown.instance.periods() + 1 {
        add_row_cell(alloc, text, width, shown, row, period)?;
    }
    Ok(())
}

// Adds the line of an item or of a resource.
#[tactic(auto, unfolding(crate::specs::Tables::row_line))]
fn add_row(
    alloc: Global,
    text: &mut String,
    widths: Widths,
    shown: &Shown<'_>,
    row: u32,
) -> Result<(), AllocError>
    requires fits { AllFit shown.now.instance.now shown.now.plan.now }
    requires low { 1 ≤ row }
    requires high { row ≤ row_count shown.now.instance.now shown.now.series }
    ensures { OnOk result (string_bytes text.new ≡ string_bytes text.old
        ++ row_line widths.labels widths.numbers shown.now.instance.now (plan_of shown.now.plan.now)
        shown.now.series row) }
{
    let name = row_name(shown.instance, shown.series, row);
    add_at_left(text, widths.labels, name)?;
    add_row_cells(alloc, text, widths.numbers, shown, row)?;
    text.push_str("\n")?;
    Ok(())
}

// Adds the lines of all.
#[tactic(auto, using(crate::proofs::Joins::join_more), unfolding(crate::specs::Tables::row_lines))]
fn add_rows(
    alloc: Global,
    text: &mut String,
    widths: Widths,
    shown: &Shown<'_>,
) -> Result<(), AllocError>
    requires { AllFit shown.now.instance.now shown.now.plan.now }
    ensures { OnOk result (string_bytes text.new ≡ string_bytes text.old
        ++ row_lines widths.labels widths.numbers shown.now.instance.now (plan_of
        shown.now.plan.now) shown.now.series) }
{
    for row in 1..row_count(shown.instance, shown.series) + 1 {
        add_row(alloc, text, widths, shown, row)?;
    }
    Ok(())
}

// Adds a table with columns of these widths.
#[tactic(auto, unfolding(crate::specs::Tables::table_of_widths))]
fn add_lines(
    alloc: Global,
    text: &mut String,
    widths: Widths,
    instance: &Instance,
    plan: &Plan,
    series: Series,
) -> Result<(), AllocError>
    requires { AllFit instance.now plan.now }
    ensures { OnOk result (string_bytes text.new ≡ string_bytes text.old
        ++ table_of_widths widths.labels widths.numbers instance.now (plan_of plan.now) series) }
{
    add_head(alloc, text, widths, instance, series)?;
    let shown = &Shown {
        instance,
        plan,
        series,
    };
    add_rows(alloc, text, widths, shown)?;
    text.push_str("\n")?;
    Ok(())
}

// Adds a table.
#[tactic(auto, unfolding(crate::specs::Tables::table))]
fn add_table(
    alloc: Global,
    text: &mut String,
    instance: &Instance,
    plan: &Plan,
    series: Series,
) -> Result<(), AllocError>
    requires { AllFit instance.now plan.now }
    ensures { OnOk result (string_bytes text.new ≡ string_bytes text.old
        ++ table instance.now (plan_of plan.now) series) }
{
    let labels = label_width(instance);
    let numbers = column_width(alloc, instance, plan, series)?;
    let widths = Widths { labels, numbers };
    add_lines(alloc, text, widths, instance, plan, series)?;
    Ok(())
}

// The largest backlog of an item.
#[tactic(auto, using(crate::proofs::Maxima::max_to_more))]
fn item_backlog(instance: &Instance, plan: &Plan, item: u32) -> u64
    requires fits { AllFit instance.now plan.now }
    requires low { 1 ≤ item }
    requires high { item ≤ item_count instance.now }
    ensures { result ≡ max_to instance.now.periods ((plan_of plan.now).backlog item) }
{
    let mut largest = 0u64;
    for period in 1..instance.periods() + 1 {
        largest = largest.max(plan.backlog.get(item, period));
    }
    largest
}

// The largest backlog of all.
#[tactic(auto, using(crate::proofs::Maxima::max_to_more), unfolding(crate::specs::Tables::largest_backlog))]
fn largest_backlog(instance: &Instance, plan: &Plan) -> u64
    requires { AllFit instance.now plan.now }
    ensures { result ≡ largest_backlog instance.now (plan_of plan.now) }
{
    let mut largest = 0u64;
    for item in 1..instance.items() + 1 {
        largest = largest.max(item_backlog(instance, plan, item));
    }
    largest
}

// Adds the backlogs, where there is one.
#[tactic(auto, unfolding(crate::specs::Tables::backlog_table))]
fn add_backlogs(
    alloc: Global,
    text: &mut String,
    instance: &Instance,
    plan: &Plan,
) -> Result<(), AllocError>
    requires { AllFit instance.now plan.now }
    ensures { OnOk result (string_bytes text.new ≡ string_bytes text.old
        ++ backlog_table instance.now (plan_of plan.now)) }
{
    if largest_backlog(instance, plan) > 0 {
        add_table(alloc, text, instance, plan, Series::Backlog)?;
    }
    Ok(())
}

// Adds the loads and the free times, where there are resources.
#[tactic(auto, unfolding(crate::specs::Tables::load_tables))]
fn add_loads(
    alloc: Global,
    text: &mut String,
    instance: &Instance,
    plan: &Plan,
) -> Result<(), AllocError>
    requires { AllFit instance.now plan.now }
    ensures { OnOk result (string_bytes text.new ≡ string_bytes text.old
        ++ load_tables instance.now (plan_of plan.now)) }
{
    if instance.resources() > 0 {
        add_table(alloc, text, instance, plan, Series::Load)?;
        add_table(alloc, text, instance, plan, Series::Free)?;
    }
    Ok(())
}

// Adds the cost and its parts.
#[tactic(auto, unfolding(crate::specs::Tables::plan_cost_line, crate::specs::Tables::cost_line))]
fn add_cost(text: &mut String, instance: &Instance, plan: &Plan) -> Result<(), AllocError>
    requires { AllFit instance.now plan.now }
    ensures { OnOk result (string_bytes text.new ≡ string_bytes text.old
        ++ plan_cost_line instance.now (plan_of plan.now)) }
{
    let total = plan_cost(instance, plan);
    let setups = part_total(instance, plan, Part::Setups);
    let making = part_total(instance, plan, Part::Making);
    let holding = part_total(instance, plan, Part::Holding);
    let backlog = part_total(instance, plan, Part::Owing);
    write!(
        text,
        "Cost {total} = setups {setups} + making {making} + holding {holding} + backlog {backlog}\n"
    )?;
    Ok(())
}

// Adds all tables and the cost.
#[tactic(auto, unfolding(crate::specs::Tables::table_text))]
fn add_tables(
    alloc: Global,
    text: &mut String,
    instance: &Instance,
    plan: &Plan,
) -> Result<(), AllocError>
    requires { AllFit instance.now plan.now }
    ensures { OnOk result (string_bytes text.new ≡ string_bytes text.old
        ++ table_text instance.now (plan_of plan.now)) }
{
    add_table(alloc, text, instance, plan, Series::Made)?;
    add_table(alloc, text, instance, plan, Series::Stock)?;
    add_backlogs(alloc, text, instance, plan)?;
    add_loads(alloc, text, instance, plan)?;
    add_cost(text, instance, plan)?;
    Ok(())
}

/// A feasible plan as tables for a terminal, with a column for each period: what is made of each item, its stocks, its
/// backlogs where there are some, and of each resource the share of its time that is used, in percent, rounded down, and
/// the time that is free; then the cost and its parts. Quantities are in units of the items, times in time units of the
/// resources and amounts in money. The error is that memory ran out.
///
/// It takes time in the number of periods times that of items and of lines of uses.
pub fn table_text(alloc: Global, instance: &Instance, plan: &Plan) -> Result<String, AllocError>
    requires fits { AllFit instance.now plan.now }
    ensures { IfOk result (λ text. string_bytes text ≡ table_text instance.now (plan_of plan.now)) }
{
    let mut text = String::new(alloc);
    add_tables(alloc, &mut text, instance, plan)?;
    Ok(text)
}
