// How wide the columns of a table are.
ghost use Rattle.std.specs.Prelude.{◌≡◌, ◌≤◌, IfOk, length, string_bytes};
ghost use Rattle.plan_rules.specs.Held.{AllFit, plan_of};
ghost use Rattle.plan_report.specs.Figures.{row_count};
ghost use Rattle.plan_report.specs.Widths.{cell_text, column_width, has_dots, head_width, label_width, max_to, row_width, shown};
ghost use Rattle.lot_sizing.specs.Problem.{item_at, item_count, resource_at, resource_count};

use crate::figures::{Series, number_of, row_count};
use lot_model::Instance;
use plan_rules::Plan;
use std::alloc::{AllocError, Global};

// The width of the longest title of a table.
pub(crate) const TITLE_WIDTH: usize = 7;

// Whether a table of these has a dot for 0.
#[tactic(auto, unfolding(crate::specs::Widths::has_dots))]
fn has_dots(series: Series) -> bool
    ensures { result ≡ has_dots series }
{
    !matches!(series, Series::Free | Series::Load)
}

/// A number as a table has it.
#[tactic(auto, unfolding(crate::specs::Widths::shown))]
pub(crate) fn shown(alloc: Global, series: Series, number: u128) -> Result<String, AllocError>
    ensures { IfOk result (λ text. string_bytes text ≡ shown series number) }
{
    if has_dots(series) && number == 0 {
        return ".".to_string(alloc);
    }
    number.to_string(alloc)
}

/// The number of an item, or of a resource, in a period, as a table has it.
#[tactic(auto, unfolding(crate::specs::Widths::cell_text))]
pub(crate) fn cell_text(
    alloc: Global,
    instance: &Instance,
    plan: &Plan,
    series: Series,
    row: u32,
    period: u32,
) -> Result<String, AllocError>
    requires fits { AllFit instance.now plan.now }
    requires row_low { 1 ≤ row }
    requires row_high { row ≤ row_count instance.now series }
    requires low { 1 ≤ period }
    requires high { period ≤ instance.now.periods }
    ensures { IfOk result (λ text. string_bytes text
        ≡ cell_text instance.now (plan_of plan.now) series row period) }
{
    let number = number_of(instance, plan, series, row, period);
    shown(alloc, series, number)
}

// The width of the widest number of a period.
#[tactic(auto, using(crate::proofs::Maxima::max_to_more), unfolding(crate::specs::Widths::head_width))]
fn head_width(alloc: Global, instance: &Instance) -> Result<usize, AllocError>
    ensures { IfOk result (λ width. width ≡ head_width instance.now.periods) }
{
    let mut widest = 0usize;
    for period in 1..instance.periods() + 1 {
        let number = period.to_string(alloc)?;
        widest = widest.max(number.len());
    }
    Ok(widest)
}

// The width of the widest number of a row.
#[tactic(auto, using(crate::proofs::Maxima::max_to_more), unfolding(crate::specs::Widths::row_width))]
fn row_width(
    alloc: Global,
    instance: &Instance,
    plan: &Plan,
    series: Series,
    row: u32,
) -> Result<usize, AllocError>
    requires fits { AllFit instance.now plan.now }
    requires low { 1 ≤ row }
    requires high { row ≤ row_count instance.now series }
    ensures { IfOk result (λ width. width ≡ row_width instance.now (plan_of plan.now) series row) }
{
    let mut widest = 0usize;
    for period in 1..instance.periods() + 1 {
        let cell = cell_text(alloc, instance, plan, series, row, period)?;
        widest = widest.max(cell.len());
    }
    Ok(widest)
}

// The width of the widest number of all rows.
#[tactic(auto, using(crate::proofs::Maxima::max_to_more))]
fn rows_width(
    alloc: Global,
    instance: &Instance,
    plan: &Plan,
    series: Series,
) -> Result<usize, AllocError>
    requires { AllFit instance.now plan.now }
    ensures { IfOk result (λ width. width ≡ max_to (row_count instance.now series)
        (row_width instance.now (plan_of plan.now) series)) }
{
    let mut widest = 0usize;
    for row in 1..row_count(instance, series) + 1 {
        widest = widest.max(row_width(alloc, instance, plan, series, row)?);
    }
    Ok(widest)
}

/// The width of all columns of a table.
#[tactic(auto, unfolding(crate::specs::Widths::column_width))]
pub(crate) fn column_width(
    alloc: Global,
    instance: &Instance,
    plan: &Plan,
    series: Series,
) -> Result<usize, AllocError>
    requires { AllFit instance.now plan.now }
    ensures { IfOk result (λ width. width ≡ column_width instance.now (plan_of plan.now) series) }
{
    let head = head_width(alloc, instance)?;
    let rows = rows_width(alloc, instance, plan, series)?;
    Ok(head.max(rows))
}

// The length of the longest name of an item.
#[tactic(auto, using(crate::proofs::Maxima::max_to_more))]
fn item_names_width(instance: &Instance) -> usize
    ensures { result
        ≡ max_to (item_count instance.now) (λ i. length (item_at instance.now i).name) }
{
    let mut widest = 0usize;
    for item in 1..instance.items() + 1 {
        widest = widest.max(instance.item_name(item).len());
    }
    widest
}

// The length of the longest name of a resource.
#[tactic(auto, using(crate::proofs::Maxima::max_to_more))]
fn resource_names_width(instance: &Instance) -> usize
    ensures { result
        ≡ max_to (resource_count instance.now) (λ k. length (resource_at instance.now k).name) }
{
    let mut widest = 0usize;
    for resource in 1..instance.resources() + 1 {
        widest = widest.max(instance.resource_name(resource).len());
    }
    widest
}

/// The width of the first column of all tables.
#[tactic(auto, unfolding(crate::specs::Widths::label_width))]
pub(crate) fn label_width(instance: &Instance) -> usize
    ensures { result ≡ label_width instance.now }
{
    let items = item_names_width(instance);
    let resources = resource_names_width(instance);
    items.max(resources.max(TITLE_WIDTH))
}
