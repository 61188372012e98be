// The marks that all charts have: rectangles with a title, the axis, and the numbers of the periods.
ghost use Rattle.std.specs.Prelude.{◌≡◌, ◌≤◌, ◌++◌, OnOk, string_bytes};
ghost use Rattle.plan_page.specs.Marks.{axis_text, bar_start, chart_start, label_every, line_text, painted_bar_start, period_label, tick_text};

use crate::chart::{AXIS, Bar, Chart, TOP, foot, middle_of, right_of, width_of};
use crate::numbers::{Grouped, Paint};
use std::alloc::AllocError;

/// Begins a rectangle, up to its title.
#[tactic(auto, unfolding(crate::specs::Marks::bar_start))]
pub fn add_bar(text: &mut String, class: &str, bar: Bar) -> Result<(), AllocError>
    ensures { OnOk result (string_bytes text.new
        ≡ string_bytes text.old ++ bar_start class.now bar) }
{
    let (x, y, width, height) = (bar.x, bar.y, bar.width, bar.height);
    write!(
        text,
        "<rect class=\"{class}\" x=\"{x}\" y=\"{y}\" width=\"{width}\" height=\"{height}\"><title>"
    )?;
    Ok(())
}

/// Begins a rectangle in the colour of an item, up to its title.
#[tactic(auto, unfolding(crate::specs::Marks::painted_bar_start))]
pub fn add_painted_bar(
    text: &mut String,
    class: &str,
    item: u32,
    bar: Bar,
) -> Result<(), AllocError>
    ensures { OnOk result (string_bytes text.new
        ≡ string_bytes text.old ++ painted_bar_start class.now item bar) }
{
    let (x, y, width, height) = (bar.x, bar.y, bar.width, bar.height);
    let paint = Paint(item);
    write!(
        text,
        "<rect class=\"{class} {paint}\" x=\"{x}\" y=\"{y}\" width=\"{width}\" height=\"{height}\"><title>"
    )?;
    Ok(())
}

/// Begins a chart.
#[tactic(auto, unfolding(crate::specs::Marks::chart_start))]
pub fn open_chart(text: &mut String, chart: Chart, label: &str) -> Result<(), AllocError>
    ensures { OnOk result (string_bytes text.new
        ≡ string_bytes text.old ++ chart_start chart label.now) }
{
    let width = width_of(chart);
    let height = foot(chart) + 24;
    write!(
        text,
        "<div class=\"scroll\"><svg width=\"{width}\" height=\"{height}\" viewBox=\"0 0 {width} {height}\" role=\"img\" aria-label=\"{label}\">\n"
    )?;
    Ok(())
}

// Adds a line along all periods.
#[tactic(auto, unfolding(crate::specs::Marks::line_text))]
fn add_line(text: &mut String, class: &str, chart: Chart, y: u32) -> Result<(), AllocError>
    ensures { OnOk result (string_bytes text.new
        ≡ string_bytes text.old ++ line_text class.now chart y) }
{
    let left = chart.gutter;
    let right = right_of(chart, chart.periods);
    write!(
        text,
        "<path class=\"{class}\" d=\"M{left} {y}H{right}\"/>\n"
    )?;
    Ok(())
}

// Adds a number left of the first period.
#[tactic(auto, unfolding(crate::specs::Marks::tick_text))]
fn add_tick(text: &mut String, chart: Chart, y: u32, value: u64) -> Result<(), AllocError>
    ensures { OnOk result (string_bytes text.new
        ≡ string_bytes text.old ++ tick_text chart y value) }
{
    let at = chart.gutter.saturating_sub(6);
    let shown = Grouped(value as u128);
    write!(
        text,
        "<text class=\"tick\" x=\"{at}\" y=\"{y}\">{shown}</text>\n"
    )?;
    Ok(())
}

/// Adds the axis, the line at the largest number, and both numbers, and ends the chart.
#[tactic(auto, unfolding(crate::specs::Marks::axis_text))]
pub fn close_chart(text: &mut String, chart: Chart) -> Result<(), AllocError>
    ensures { OnOk result (string_bytes text.new ≡ string_bytes text.old ++ axis_text chart) }
{
    add_line(text, "rule", chart, TOP)?;
    add_line(text, "axis", chart, AXIS)?;
    add_tick(text, chart, TOP + 4, chart.most)?;
    add_tick(text, chart, AXIS + 4, 0)?;
    text.push_str("</svg></div>\n")
}

// Every how many periods have their number below the axis.
#[tactic(auto, unfolding(crate::specs::Marks::label_every))]
fn label_every(periods: u32) -> u32
    ensures value { result ≡ label_every periods }
    ensures some { 1 ≤ result }
{
    if periods <= 30 {
        1
    } else if periods <= 60 {
        2
    } else {
        5
    }
}

/// Adds the number of a period below the axis, where it has one.
#[tactic(auto, unfolding(crate::specs::Marks::period_label))]
pub fn add_period_label(text: &mut String, chart: Chart, period: u32) -> Result<(), AllocError>
    ensures { OnOk result (string_bytes text.new
        ≡ string_bytes text.old ++ period_label chart period) }
{
    if period % label_every(chart.periods) == 0 {
        let middle = middle_of(chart, period);
        let at = foot(chart) + 16;
        write!(
            text,
            "<text class=\"at\" x=\"{middle}\" y=\"{at}\">{period}</text>\n"
        )?;
    }
    Ok(())
}
