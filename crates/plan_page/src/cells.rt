// The marks of an item in a period.
ghost use Rattle.std.specs.Prelude.{◌≡◌, ◌≤◌, ◌<◌, ◌+◌, ◌^◌, ◌++◌, OnOk, string_bytes};
ghost use Rattle.lot_sizing.specs.Problem.{item_count};
ghost use Rattle.plan_rules.specs.Held.{AllFit, plan_of, most_used_up};
ghost use Rattle.plan_page.specs.Marks.{bar_end};
ghost use Rattle.plan_page.specs.Cells.{cell_of, cell_marks, demand_mark, idle_mark, late_mark, lot_mark, period_marks, room_mark, stock_mark, use_mark};

use crate::chart::{Bar, Chart, TOP, hanging, left_of, level, middle_of, right_of, stacked};
use crate::marks::{add_bar, add_painted_bar, add_period_label};
use crate::numbers::Grouped;
use lot_model::Instance;
use plan_rules::{Plan, used_up};
use std::alloc::AllocError;

/// What is shown of an item in a period, in units.
#[derive(Clone, Copy)]
pub struct Cell {
    /// Units asked for.
    pub demand: u64,
    /// Units that go into other items.
    pub used: u128,
    /// Units made.
    pub made: u64,
    /// 1 where the item is set up, else 0.
    pub setup: u64,
    /// The stock at the end.
    pub stock: u64,
    /// The backlog at the end.
    pub backlog: u64,
}

/// The numbers of an item in a period.
#[tactic(auto, unfolding(crate::specs::Cells::cell_of))]
pub fn cell_of(instance: &Instance, plan: &Plan, item: u32, period: u32) -> Cell
    requires fits { AllFit instance.now plan.now }
    requires item_low { 1 ≤ item }
    requires item_high { item ≤ item_count instance.now }
    requires low { 1 ≤ period }
    requires high { period ≤ instance.now.periods }
    ensures value { result ≡ cell_of instance.now (plan_of plan.now) item period }
    ensures small { result.used < 2 ^ 120 }
{
    Cell {
        demand: instance.demand(item, period),
        used: used_up(instance, &plan.make, item, period),
        made: plan.make.get(item, period),
        setup: plan.setup.get(item, period),
        stock: plan.stock.get(item, period),
        backlog: plan.backlog.get(item, period),
    }
}

// Adds what stands behind the marks of a period: its numbers are shown where no mark is.
#[tactic(auto, unfolding(crate::specs::Cells::room_mark))]
fn add_room(text: &mut String, chart: Chart, period: u32, cell: Cell) -> Result<(), AllocError>
    ensures { OnOk result (string_bytes text.new
        ≡ string_bytes text.old ++ room_mark chart period cell) }
{
    let bar = Bar {
        x: left_of(chart, period),
        y: TOP as u128,
        width: chart.step as u128,
        height: 120 + chart.depth as u128,
    };
    let (demand, used) = (Grouped(cell.demand as u128), Grouped(cell.used));
    let (made, stock) = (Grouped(cell.made as u128), Grouped(cell.stock as u128));
    let backlog = Grouped(cell.backlog as u128);
    add_bar(text, "slot", bar)?;
    write!(
        text,
        "Period {period}: demand {demand}, use {used}, lot {made}, end stock {stock}, backlog {backlog}</title></rect>\n"
    )?;
    Ok(())
}

// Adds the bar of a lot.
#[tactic(auto, unfolding(crate::specs::Cells::lot_mark))]
fn add_lot(
    text: &mut String,
    chart: Chart,
    item: u32,
    period: u32,
    made: u64,
) -> Result<(), AllocError>
    ensures { OnOk result (string_bytes text.new
        ≡ string_bytes text.old ++ lot_mark chart item period made) }
{
    if made > 0 {
        let shown = Grouped(made as u128);
        add_painted_bar(
            text,
            "lot",
            item,
            stacked(chart, period, 8, 0, made as u128),
        )?;
        write!(text, "Period {period}: lot of {shown}</title></rect>\n")?;
    }
    Ok(())
}

// Adds the outline of a demand.
#[tactic(auto, unfolding(crate::specs::Cells::demand_mark))]
fn add_demand(text: &mut String, chart: Chart, period: u32, demand: u64) -> Result<(), AllocError>
    ensures { OnOk result (string_bytes text.new
        ≡ string_bytes text.old ++ demand_mark chart period demand) }
{
    if demand > 0 {
        let shown = Grouped(demand as u128);
        add_bar(text, "demand", stacked(chart, period, 3, 0, demand as u128))?;
        write!(text, "Period {period}: demand {shown}</title></rect>\n")?;
    }
    Ok(())
}

// Adds the outline of what goes into other items, above that of the demand.
#[tactic(auto, unfolding(crate::specs::Cells::use_mark))]
fn add_use(
    text: &mut String,
    chart: Chart,
    period: u32,
    demand: u64,
    used: u128,
) -> Result<(), AllocError>
    requires { used < 2 ^ 120 }
    ensures { OnOk result (string_bytes text.new
        ≡ string_bytes text.old ++ use_mark chart period demand used) }
{
    if used > 0 {
        let shown = Grouped(used);
        let below = demand as u128;
        add_bar(text, "use", stacked(chart, period, 3, below, below + used))?;
        write!(
            text,
            "Period {period}: {shown} go into other items</title></rect>\n"
        )?;
    }
    Ok(())
}

// Adds the mark of a setup without a lot.
#[tactic(auto, unfolding(crate::specs::Cells::idle_mark))]
fn add_idle(
    text: &mut String,
    chart: Chart,
    period: u32,
    setup: u64,
    made: u64,
) -> Result<(), AllocError>
    ensures { OnOk result (string_bytes text.new
        ≡ string_bytes text.old ++ idle_mark chart period setup made) }
{
    if setup > 0 && made == 0 {
        let middle = middle_of(chart, period);
        write!(
            text,
            "<path class=\"idle\" d=\"M{middle} 143l7 -12h-14z\"><title>Period {period}: setup without a lot</title></path>\n"
        )?;
    }
    Ok(())
}

// Adds the bar of a backlog, below the axis.
#[tactic(auto, unfolding(crate::specs::Cells::late_mark))]
fn add_late(text: &mut String, chart: Chart, period: u32, backlog: u64) -> Result<(), AllocError>
    ensures { OnOk result (string_bytes text.new
        ≡ string_bytes text.old ++ late_mark chart period backlog) }
{
    if backlog > 0 {
        let shown = Grouped(backlog as u128);
        add_bar(text, "late", hanging(chart, period, 8, backlog as u128))?;
        write!(text, "Period {period}: backlog {shown}</title></rect>\n")?;
    }
    Ok(())
}

// Adds the point of a stock, at the end of its period.
#[tactic(auto, unfolding(crate::specs::Cells::stock_mark))]
fn add_stock(text: &mut String, chart: Chart, period: u32, stock: u64) -> Result<(), AllocError>
    ensures { OnOk result (string_bytes text.new
        ≡ string_bytes text.old ++ stock_mark chart period stock) }
{
    let x = right_of(chart, period);
    let y = level(chart, stock as u128);
    let shown = Grouped(stock as u128);
    write!(
        text,
        "<circle class=\"stock\" cx=\"{x}\" cy=\"{y}\" r=\"3\"><title>Period {period}: end stock {shown}</title></circle>\n"
    )?;
    Ok(())
}

// Adds the marks of an item's numbers in a period.
#[tactic(auto, unfolding(crate::specs::Cells::cell_marks))]
fn add_marks(
    text: &mut String,
    chart: Chart,
    item: u32,
    period: u32,
    cell: Cell,
) -> Result<(), AllocError>
    requires { cell.used < 2 ^ 120 }
    ensures { OnOk result (string_bytes text.new
        ≡ string_bytes text.old ++ cell_marks chart item period cell) }
{
    add_room(text, chart, period, cell)?;
    add_lot(text, chart, item, period, cell.made)?;
    add_demand(text, chart, period, cell.demand)?;
    add_use(text, chart, period, cell.demand, cell.used)?;
    add_idle(text, chart, period, cell.setup, cell.made)?;
    add_late(text, chart, period, cell.backlog)?;
    add_stock(text, chart, period, cell.stock)?;
    Ok(())
}

/// Adds all that is shown of an item in a period.
#[tactic(auto, unfolding(crate::specs::Cells::period_marks))]
pub fn add_period(
    text: &mut String,
    chart: Chart,
    instance: &Instance,
    plan: &Plan,
    item: u32,
    period: u32,
) -> Result<(), AllocError>
    requires fits { AllFit instance.now plan.now }
    requires item_low { 1 ≤ item }
    requires item_high { item ≤ item_count instance.now }
    requires low { 1 ≤ period }
    requires high { period ≤ instance.now.periods }
    ensures { OnOk result (string_bytes text.new
        ≡ string_bytes text.old ++ period_marks chart instance.now (plan_of plan.now) item period) }
{
    add_marks(
        text,
        chart,
        item,
        period,
        cell_of(instance, plan, item, period),
    )?;
    add_period_label(text, chart, period)?;
    Ok(())
}
