// What stands around the sections: the contents, and the numbers at the top.
ghost use Rattle.std.specs.Prelude.{◌≡◌, ◌≤◌, ◌<◌, ◌^◌, ◌++◌, OnOk, string_bytes};
ghost use Rattle.lot_sizing.specs.Problem.{item_count, resource_count};
ghost use Rattle.plan_page.specs.Framing.{contents, item_link, item_links, key_line, resource_link, resource_links};

use crate::numbers::Grouped;
use lot_model::Instance;
use std::alloc::AllocError;

// Adds the link to a resource.
#[tactic(auto, unfolding(crate::specs::Framing::resource_link))]
fn add_resource(text: &mut String, instance: &Instance, resource: u32) -> Result<(), AllocError>
    requires low { 1 ≤ resource }
    requires high { resource ≤ resource_count instance.now }
    ensures { OnOk result (string_bytes text.new
        ≡ string_bytes text.old ++ resource_link instance.now resource) }
{
    let name = instance.resource_name(resource);
    write!(text, "<li><a href=\"#r{resource}\">{name}</a></li>\n")?;
    Ok(())
}

// Adds the links to all resources.
#[tactic(auto, using(crate::proofs::Joins::join_more), unfolding(crate::specs::Framing::resource_links))]
fn add_resources(text: &mut String, instance: &Instance) -> Result<(), AllocError>
    ensures { OnOk result (string_bytes text.new
        ≡ string_bytes text.old ++ resource_links instance.now) }
{
    for resource in 1..instance.resources() + 1 {
        add_resource(text, instance, resource)?;
    }
    Ok(())
}

// Adds the link to an item.
#[tactic(auto, unfolding(crate::specs::Framing::item_link))]
fn add_item(text: &mut String, instance: &Instance, item: u32) -> Result<(), AllocError>
    requires low { 1 ≤ item }
    requires high { item ≤ item_count instance.now }
    ensures { OnOk result (string_bytes text.new
        ≡ string_bytes text.old ++ item_link instance.now item) }
{
    let name = instance.item_name(item);
    write!(text, "<li><a href=\"#i{item}\">{name}</a></li>\n")?;
    Ok(())
}

// Adds the links to all items.
#[tactic(auto, using(crate::proofs::Joins::join_more), unfolding(crate::specs::Framing::item_links))]
fn add_items(text: &mut String, instance: &Instance) -> Result<(), AllocError>
    ensures { OnOk result (string_bytes text.new
        ≡ string_bytes text.old ++ item_links instance.now) }
{
    for item in 1..instance.items() + 1 {
        add_item(text, instance, item)?;
    }
    Ok(())
}

/// Adds the contents: a link to the costs, each resource and each item.
#[tactic(auto, unfolding(crate::specs::Framing::contents))]
pub fn add_contents(text: &mut String, instance: &Instance) -> Result<(), AllocError>
    ensures { OnOk result (string_bytes text.new ≡ string_bytes text.old ++ contents instance.now) }
{
    text.push_str(
        "<nav aria-label=\"Contents\"><ul>\n<li><a href=\"#costs\">Costs</a></li>\n</ul><h2>Resources</h2><ul>\n",
    )?;
    add_resources(text, instance)?;
    text.push_str("</ul><h2>Items</h2><ul>\n")?;
    add_items(text, instance)?;
    text.push_str("</ul></nav>\n")?;
    Ok(())
}

/// Adds the plan's cost, and how many items, resources and periods there are.
#[tactic(auto, unfolding(crate::specs::Framing::key_line))]
pub fn add_key(text: &mut String, instance: &Instance, cost: u128) -> Result<(), AllocError>
    ensures { OnOk result (string_bytes text.new
        ≡ string_bytes text.old ++ key_line instance.now cost) }
{
    let shown = Grouped(cost);
    let (items, resources) = (instance.items(), instance.resources());
    let periods = instance.periods();
    write!(
        text,
        "<p class=\"key\"><span>Cost <b>{shown}</b></span><span>Items <b>{items}</b></span><span>Resources <b>{resources}</b></span><span>Periods <b>{periods}</b></span></p>\n"
    )?;
    Ok(())
}
