// What pegs are, by their definition alone: each supply beside each need along one line.
ghost use Rattle.std.specs.Prelude.{◌≤◌};
ghost use Rattle.lot_sizing.specs.Problem.{item_count};
ghost use Rattle.plan_rules.specs.Held.{AllFit};

use lot_model::Instance;
use plan_rules::Plan;
use std::alloc::Global;
use std::process::Abort;

// A supply or a need, as it is written, and where it lies on the line.
#[derive(Drop)]
struct Stretch {
    name: String,
    start: u64,
    end: u64,
}

// Adds one that begins where the last one ends.
fn add_stretch(rt: &impl Abort, list: &mut Vec<Stretch>, name: String, size: u64) {
    let start = match list.last() {
        Some(last) => last.end,
        None => 0,
    };
    list.push(Stretch {
        name,
        start,
        end: start.saturating_add(size),
    })
    .expect(rt, "memory");
}

// The supplies of an item.
fn supplies(
    rt: &impl Abort,
    alloc: Global,
    instance: &Instance,
    plan: &Plan,
    item: u32,
) -> Vec<Stretch>
    requires fits { AllFit instance.now plan.now }
    requires low { 1 ≤ item }
    requires high { item ≤ item_count instance.now }
{
    let mut list = Vec::new(alloc);
    let opening = String::from_str(alloc, "opening").expect(rt, "memory");
    add_stretch(rt, &mut list, opening, instance.opening(item));
    for period in 1..instance.periods() + 1 {
        let name = format!(in alloc; "lot {period}").expect(rt, "memory");
        add_stretch(rt, &mut list, name, plan.make.get(item, period));
    }
    list
}

// The needs of an item.
fn needs(
    rt: &impl Abort,
    alloc: Global,
    instance: &Instance,
    plan: &Plan,
    item: u32,
) -> Vec<Stretch>
    requires fits { AllFit instance.now plan.now }
    requires low { 1 ≤ item }
    requires high { item ≤ item_count instance.now }
    requires some { 1 ≤ instance.now.periods }
{
    let mut list = Vec::new(alloc);
    for period in 1..instance.periods() + 1 {
        let name = format!(in alloc; "demand {period}").expect(rt, "memory");
        add_stretch(rt, &mut list, name, instance.demand(item, period));
        for other in 1..instance.items() + 1 {
            let name = instance.item_name(other);
            let name = format!(in alloc; "use {name} {period}").expect(rt, "memory");
            let units = instance.per_unit(item, other);
            let lot = plan.make.get(other, period);
            add_stretch(rt, &mut list, name, units.saturating_mul(lot));
        }
    }
    let end = String::from_str(alloc, "end").expect(rt, "memory");
    let left = plan.stock.get(item, instance.periods());
    add_stretch(rt, &mut list, end, left);
    list
}

// Adds the records of a supply.
fn add_records(
    rt: &impl Abort,
    text: &mut String,
    item: &str,
    supply: &Stretch,
    needs: &[Stretch],
) {
    for need in needs {
        let start = supply.start.max(need.start);
        let end = supply.end.min(need.end);
        if start < end {
            let (from, to) = (supply.name.as_str(), need.name.as_str());
            let quantity = end - start;
            write!(text, "{item},{from},{to},{quantity}\n").expect(rt, "memory");
        }
    }
}

// Adds the records of an item.
fn add_item(
    rt: &impl Abort,
    alloc: Global,
    text: &mut String,
    instance: &Instance,
    plan: &Plan,
    item: u32,
)
    requires fits { AllFit instance.now plan.now }
    requires low { 1 ≤ item }
    requires high { item ≤ item_count instance.now }
    requires some { 1 ≤ instance.now.periods }
{
    let needs = needs(rt, alloc, instance, plan, item);
    for supply in &supplies(rt, alloc, instance, plan, item) {
        add_records(rt, text, instance.item_name(item), supply, &needs);
    }
}

/// Adds the text of all overlaps of supplies and needs.
pub fn add_pegs(rt: &impl Abort, alloc: Global, text: &mut String, instance: &Instance, plan: &Plan)
    requires { AllFit instance.now plan.now }
{
    text.push_str("item,from,to,quantity\n")
        .expect(rt, "memory");
    if instance.periods() < 1 {
        return;
    }
    for item in 1..instance.items() + 1 {
        add_item(rt, alloc, text, instance, plan, item);
    }
}
