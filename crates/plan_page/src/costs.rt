// The section of a plan's costs.
ghost use Rattle.std.specs.Prelude.{◌≡◌, ◌≤◌, ◌<◌, ◌+◌, ◌^◌, ◌++◌, OnOk, string_bytes};
ghost use Rattle.lot_sizing.specs.Problem.{item_count};
ghost use Rattle.lot_sizing.specs.Plan.{cost};
ghost use Rattle.plan_rules.specs.Held.{AllFit, plan_of};
ghost use Rattle.plan_page.specs.Costs.{cost_back, cost_bar, cost_front, cost_heads, cost_mark, cost_row, cost_rows, cost_table, costs_text, item_costs, part_row, part_rows, shown_width};

use crate::numbers::{Grouped, share};
use crate::totals::{item_parts, plan_cost, plan_parts};
use lot_model::Instance;
use plan_rules::{CostParts, Plan};
use std::alloc::AllocError;

// How wide a part of the costs is drawn, in pixels.
#[tactic(auto, unfolding(crate::specs::Costs::shown_width))]
fn shown_width(part: u128, whole: u128) -> u128
    requires { part < 2 ^ 110 }
    ensures { result ≡ shown_width part whole }
{
    part * 800 / whole.max(1)
}

// Adds the mark of a part, behind what was before it.
#[tactic(auto, unfolding(crate::specs::Costs::cost_mark))]
fn add_mark(
    text: &mut String,
    label: &str,
    whole: u128,
    before: u128,
    part: u128,
) -> Result<(), AllocError>
    requires { before + part < 2 ^ 110 }
    ensures { OnOk result (string_bytes text.new
        ≡ string_bytes text.old ++ cost_mark label.now whole before part) }
{
    let x = shown_width(before, whole);
    let width = shown_width(before + part, whole).saturating_sub(x);
    let shown = Grouped(part);
    write!(
        text,
        "<rect class=\"{label}\" x=\"{x}\" y=\"0\" width=\"{width}\" height=\"24\"><title>{label}: {shown}</title></rect>\n"
    )?;
    Ok(())
}

// Adds the bar of all parts.
#[tactic(auto, unfolding(crate::specs::Costs::cost_bar))]
fn add_bar(text: &mut String, parts: CostParts, whole: u128) -> Result<(), AllocError>
    requires { parts.setup + parts.unit + parts.hold + parts.backlog < 2 ^ 110 }
    ensures { OnOk result (string_bytes text.new
        ≡ string_bytes text.old ++ cost_bar parts.setup parts.unit parts.hold parts.backlog whole) }
{
    let (setup, unit, hold, backlog) = (parts.setup, parts.unit, parts.hold, parts.backlog);
    text.push_str(
        "<svg class=\"bar\" viewBox=\"0 0 800 24\" preserveAspectRatio=\"none\" role=\"img\" aria-label=\"Costs by part\">\n",
    )?;
    add_mark(text, "Setups", whole, 0, setup)?;
    add_mark(text, "Making", whole, setup, unit)?;
    add_mark(text, "Holding", whole, setup + unit, hold)?;
    add_mark(text, "Backlog", whole, setup + unit + hold, backlog)?;
    text.push_str("</svg>\n")?;
    Ok(())
}

// Adds the row of a part.
#[tactic(auto, unfolding(crate::specs::Costs::part_row))]
fn add_part_row(text: &mut String, label: &str, part: u128, whole: u128) -> Result<(), AllocError>
    requires part { part < 2 ^ 110 }
    requires whole { whole < 2 ^ 110 }
    ensures { OnOk result (string_bytes text.new
        ≡ string_bytes text.old ++ part_row label.now part whole) }
{
    let shown = Grouped(part);
    let percent = share(part, whole);
    write!(
        text,
        "<tr><th scope=\"row\"><i class=\"{label}\"></i>{label}</th><td>{shown}</td><td>{percent}%</td></tr>\n"
    )?;
    Ok(())
}

// Adds the table of all parts.
#[tactic(auto, unfolding(crate::specs::Costs::part_rows))]
fn add_part_rows(text: &mut String, parts: CostParts, whole: u128) -> Result<(), AllocError>
    requires parts { parts.setup + parts.unit + parts.hold + parts.backlog < 2 ^ 110 }
    requires whole { whole < 2 ^ 110 }
    ensures { OnOk result (string_bytes text.new
        ≡ string_bytes text.old
        ++ part_rows parts.setup parts.unit parts.hold parts.backlog whole) }
{
    text.push_str(
        "<div class=\"scroll\"><table><thead><tr><th>Part</th><th>Cost</th><th>Share</th></tr></thead><tbody>\n",
    )?;
    add_part_row(text, "Setups", parts.setup, whole)?;
    add_part_row(text, "Making", parts.unit, whole)?;
    add_part_row(text, "Holding", parts.hold, whole)?;
    add_part_row(text, "Backlog", parts.backlog, whole)?;
    add_part_row(text, "Total", whole, whole)?;
    text.push_str("</tbody></table></div>\n")?;
    Ok(())
}

// Adds the name of an item, and what its setups and its units cost.
#[tactic(auto, unfolding(crate::specs::Costs::cost_front))]
fn add_front(text: &mut String, name: &str, setup: u128, unit: u128) -> Result<(), AllocError>
    ensures { OnOk result (string_bytes text.new
        ≡ string_bytes text.old ++ cost_front name.now setup unit) }
{
    let (setups, units) = (Grouped(setup), Grouped(unit));
    write!(
        text,
        "<tr><th scope=\"row\">{name}</th><td>{setups}</td><td>{units}</td>"
    )?;
    Ok(())
}

// Adds what its stocks and backlogs cost, and all of it.
#[tactic(auto, unfolding(crate::specs::Costs::cost_back))]
fn add_back(text: &mut String, hold: u128, backlog: u128, total: u128) -> Result<(), AllocError>
    ensures { OnOk result (string_bytes text.new
        ≡ string_bytes text.old ++ cost_back hold backlog total) }
{
    let (stocks, owed, all) = (Grouped(hold), Grouped(backlog), Grouped(total));
    write!(
        text,
        "<td>{stocks}</td><td>{owed}</td><td>{all}</td></tr>\n"
    )?;
    Ok(())
}

// Adds a row of costs.
#[tactic(auto, unfolding(crate::specs::Costs::cost_row))]
fn add_cost_row(text: &mut String, name: &str, parts: CostParts) -> Result<(), AllocError>
    requires { parts.setup + parts.unit + parts.hold + parts.backlog < 2 ^ 110 }
    ensures { OnOk result (string_bytes text.new
        ≡ string_bytes text.old
        ++ cost_row name.now parts.setup parts.unit parts.hold parts.backlog) }
{
    let total = parts.setup + parts.unit + parts.hold + parts.backlog;
    add_front(text, name, parts.setup, parts.unit)?;
    add_back(text, parts.hold, parts.backlog, total)?;
    Ok(())
}

// Adds the costs of an item.
#[tactic(auto, unfolding(crate::specs::Costs::item_costs))]
fn add_item(
    text: &mut String,
    instance: &Instance,
    plan: &Plan,
    item: u32,
) -> Result<(), AllocError>
    requires fits { AllFit instance.now plan.now }
    requires low { 1 ≤ item }
    requires high { item ≤ item_count instance.now }
    ensures { OnOk result (string_bytes text.new
        ≡ string_bytes text.old ++ item_costs instance.now (plan_of plan.now) item) }
{
    let name = instance.item_name(item);
    let parts = item_parts(instance, plan, item);
    add_cost_row(text, name, parts)?;
    Ok(())
}

// Begins the table of all items' costs.
#[tactic(auto, unfolding(crate::specs::Costs::cost_heads))]
fn add_heads(text: &mut String) -> Result<(), AllocError>
    ensures { OnOk result (string_bytes text.new ≡ string_bytes text.old ++ cost_heads) }
{
    text.push_str(
        "<details><summary>By item</summary><div class=\"scroll\"><table><thead><tr><th>Item</th><th>Setups</th><th>Making</th><th>Holding</th><th>Backlog</th><th>Total</th></tr></thead><tbody>\n",
    )
}

// Adds the rows of all items.
#[tactic(auto, using(crate::proofs::Joins::join_more), unfolding(crate::specs::Costs::cost_rows))]
fn add_rows(text: &mut String, instance: &Instance, plan: &Plan) -> Result<(), AllocError>
    requires { AllFit instance.now plan.now }
    ensures { OnOk result (string_bytes text.new
        ≡ string_bytes text.old ++ cost_rows instance.now (plan_of plan.now)) }
{
    for item in 1..instance.items() + 1 {
        add_item(text, instance, plan, item)?;
    }
    Ok(())
}

// Adds the table of all items' costs.
#[tactic(auto, unfolding(crate::specs::Costs::cost_table))]
fn add_items(text: &mut String, instance: &Instance, plan: &Plan) -> Result<(), AllocError>
    requires { AllFit instance.now plan.now }
    ensures { OnOk result (string_bytes text.new
        ≡ string_bytes text.old ++ cost_table instance.now (plan_of plan.now)) }
{
    add_heads(text)?;
    add_rows(text, instance, plan)?;
    text.push_str("</tbody></table></div></details>\n")?;
    Ok(())
}

/// Adds the section of a plan's costs.
#[tactic(auto, unfolding(crate::specs::Costs::costs_text))]
pub fn add_costs(text: &mut String, instance: &Instance, plan: &Plan) -> Result<(), AllocError>
    requires { AllFit instance.now plan.now }
    ensures { OnOk result (string_bytes text.new
        ≡ string_bytes text.old ++ costs_text instance.now (plan_of plan.now)) }
{
    let parts = plan_parts(instance, plan);
    let whole = plan_cost(instance, plan);
    text.push_str("<section id=\"costs\"><h2>Costs</h2>\n")?;
    add_bar(text, parts, whole)?;
    add_part_rows(text, parts, whole)?;
    add_items(text, instance, plan)?;
    text.push_str("</section>\n")?;
    Ok(())
}
