// The page of a plan.
ghost use Rattle.std.specs.Prelude.{◌≡◌, ◌≤◌, ◌<◌, ◌^◌, ◌++◌, Err, IfOk, OnOk, length, string_bytes};
ghost use Rattle.lot_sizing.specs.Plan.{cost};
ghost use Rattle.plan_rules.specs.Held.{AllFit, plan_of};
ghost use Rattle.plan_page.specs.Page.{end_text, head_text, main_text, marks_text, page_text, style_text, title_text};
ghost use Rattle.plan_page.specs.declared.limits.TheConstants.{MAX_PAGE};

use crate::costs::add_costs;
use crate::framing::{add_contents, add_key};
use crate::items::add_items;
use crate::proving::add_proof;
use crate::resources::add_resources;
use crate::style::{END, HEAD, ITEMS, STYLE, TITLE};
use crate::totals::plan_cost;
use crate::{MAX_PAGE, PageFault, Proved};
use lot_model::Instance;
use plan_rules::Plan;
use std::alloc::{AllocError, Global};

// Adds the head, up to the style.
#[tactic(auto, unfolding(crate::specs::Page::head_text))]
fn add_head(text: &mut String) -> Result<(), AllocError>
    ensures { OnOk result (string_bytes text.new ≡ string_bytes text.old ++ head_text) }
{
    text.push_str(HEAD)
}

// Adds the style.
#[tactic(auto, unfolding(crate::specs::Page::style_text))]
fn add_style(text: &mut String) -> Result<(), AllocError>
    ensures { OnOk result (string_bytes text.new ≡ string_bytes text.old ++ style_text) }
{
    text.push_str(STYLE)
}

// Adds the title.
#[tactic(auto, unfolding(crate::specs::Page::title_text))]
fn add_title(text: &mut String) -> Result<(), AllocError>
    ensures { OnOk result (string_bytes text.new ≡ string_bytes text.old ++ title_text) }
{
    text.push_str(TITLE)
}

// Adds what the marks of the items' charts look like.
#[tactic(auto, unfolding(crate::specs::Page::marks_text))]
fn add_marks(text: &mut String) -> Result<(), AllocError>
    ensures { OnOk result (string_bytes text.new ≡ string_bytes text.old ++ marks_text) }
{
    text.push_str(ITEMS)
}

// Adds the end.
#[tactic(auto, unfolding(crate::specs::Page::end_text))]
fn add_end(text: &mut String) -> Result<(), AllocError>
    ensures { OnOk result (string_bytes text.new ≡ string_bytes text.old ++ end_text) }
{
    text.push_str(END)
}

// Adds the sections of a plan.
#[tactic(auto, unfolding(crate::specs::Page::main_text))]
fn add_main(
    text: &mut String,
    instance: &Instance,
    plan: &Plan,
    proved: Proved,
) -> Result<(), AllocError>
    requires { AllFit instance.now plan.now }
    ensures { OnOk result (string_bytes text.new
        ≡ string_bytes text.old ++ main_text instance.now (plan_of plan.now) proved) }
{
    let cost = plan_cost(instance, plan);
    add_title(text)?;
    add_key(text, instance, cost)?;
    add_proof(text, cost, proved)?;
    add_costs(text, instance, plan)?;
    add_resources(text, instance, plan)?;
    add_marks(text)?;
    add_items(text, instance, plan)?;
    add_end(text)?;
    Ok(())
}

// The text of a page of any length.
#[tactic(auto, unfolding(crate::specs::Page::page_text))]
fn page_of(
    alloc: Global,
    instance: &Instance,
    plan: &Plan,
    proved: Proved,
) -> Result<String, AllocError>
    requires { AllFit instance.now plan.now }
    ensures { IfOk result (λ text. string_bytes text
        ≡ page_text instance.now (plan_of plan.now) proved) }
{
    let mut text = String::new(alloc);
    add_head(&mut text)?;
    add_style(&mut text)?;
    add_contents(&mut text, instance)?;
    add_main(&mut text, instance, plan, proved)?;
    Ok(text)
}

/// The page of a plan: HTML with charts in SVG, in at most `MAX_PAGE` bytes. Numbers are in units of the items, in time
/// units of the resources and in money. `proved` is shown as it is given: the caller has checked it.
///
/// The error is that the page would be longer, or that memory ran out.
pub fn page(
    alloc: Global,
    instance: &Instance,
    plan: &Plan,
    proved: Proved,
) -> Result<String, PageFault>
    requires { AllFit instance.now plan.now }
    ensures text { IfOk result (λ text. string_bytes text
        ≡ page_text instance.now (plan_of plan.now) proved) }
    ensures short { OnOk result (length (page_text instance.now (plan_of plan.now) proved)
        ≤ MAX_PAGE) }
    ensures long { result ≡ Err PageFault.Long
        → MAX_PAGE < length (page_text instance.now (plan_of plan.now) proved) }
{
    let text = page_of(alloc, instance, plan, proved)?;
    if text.len() > MAX_PAGE {
        return Err(PageFault::Long);
    }
    Ok(text)
}
