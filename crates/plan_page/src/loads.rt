// The marks of a resource's chart.
ghost use Rattle.std.specs.Prelude.{◌≡◌, ◌≤◌, ◌<◌, ◌+◌, ◌*◌, ◌^◌, ◌++◌, IfOk, OnOk, string_bytes};
ghost use Rattle.lot_sizing.specs.Problem.{item_at, item_count, resource_count};
ghost use Rattle.plan_rules.specs.Held.{AllFit, plan_of, most_time};
ghost use Rattle.plan_page.specs.Loads.{capacity_line, capacity_start, capacity_step, capacity_steps, load_marks, period_loads, run_mark, run_time, setup_mark, setup_time_used, share_label, slot_mark, stack, time_to};

use crate::chart::{Bar, Chart, TOP, left_of, level, middle_of, right_of, stacked};
use crate::marks::{add_bar, add_painted_bar, add_period_label};
use crate::numbers::{Grouped, percent};
use lot_model::Instance;
use plan_rules::{Plan, time_used};
use std::alloc::AllocError;

// A time that is stacked above what is used before it.
#[derive(Clone, Copy)]
struct Layer {
    before: u128,
    time: u128,
}

// A resource in a period of a plan.
#[derive(Clone, Copy)]
struct Loaded<'a> {
    instance: &'a Instance,
    plan: &'a Plan,
    resource: u32,
    period: u32,
}

// Adds the mark of a run time, above what is used by the items before.
#[tactic(auto, unfolding(crate::specs::Loads::run_mark))]
fn add_run(
    text: &mut String,
    chart: Chart,
    name: &str,
    item: u32,
    period: u32,
    layer: Layer,
) -> Result<(), AllocError>
    requires { layer.before + layer.time < 2 ^ 120 }
    ensures { OnOk result (string_bytes text.new
        ≡ string_bytes text.old ++ run_mark chart name.now item period layer.before layer.time) }
{
    if layer.time > 0 {
        let shown = Grouped(layer.time);
        add_painted_bar(
            text,
            "run",
            item,
            stacked(chart, period, 4, layer.before, layer.before + layer.time),
        )?;
        write!(
            text,
            "Period {period}, {name}: run time {shown}</title></rect>\n"
        )?;
    }
    Ok(())
}

// Adds the mark of a setup time, above the run time.
#[tactic(auto, unfolding(crate::specs::Loads::setup_mark))]
fn add_setup(
    text: &mut String,
    chart: Chart,
    name: &str,
    item: u32,
    period: u32,
    layer: Layer,
) -> Result<(), AllocError>
    requires { layer.before + layer.time < 2 ^ 120 }
    ensures { OnOk result (string_bytes text.new
        ≡ string_bytes text.old ++ setup_mark chart name.now item period layer.before layer.time) }
{
    if layer.time > 0 {
        let shown = Grouped(layer.time);
        add_painted_bar(
            text,
            "setup",
            item,
            stacked(chart, period, 4, layer.before, layer.before + layer.time),
        )?;
        write!(
            text,
            "Period {period}, {name}: setup time {shown}</title></rect>\n"
        )?;
    }
    Ok(())
}

/// The run time of an item on a resource in a period.
#[tactic(auto, unfolding(crate::specs::Loads::run_time))]
pub fn run_time(instance: &Instance, plan: &Plan, resource: u32, period: u32, item: u32) -> u128
    requires fits { AllFit instance.now plan.now }
    requires low { 1 ≤ period }
    requires high { period ≤ instance.now.periods }
    requires item_low { 1 ≤ item }
    requires item_high { item ≤ item_count instance.now }
    ensures value { result ≡ run_time instance.now (plan_of plan.now) resource period item }
    ensures small { result < 2 ^ 100 }
{
    instance.unit_time(item, resource) as u128 * plan.make.get(item, period) as u128
}

/// The setup time of an item on a resource in a period.
#[tactic(auto, unfolding(crate::specs::Loads::setup_time_used))]
pub fn setup_time_used(
    instance: &Instance,
    plan: &Plan,
    resource: u32,
    period: u32,
    item: u32,
) -> u128
    requires fits { AllFit instance.now plan.now }
    requires low { 1 ≤ period }
    requires high { period ≤ instance.now.periods }
    requires item_low { 1 ≤ item }
    requires item_high { item ≤ item_count instance.now }
    ensures value { result ≡ setup_time_used instance.now (plan_of plan.now) resource period item }
    ensures small { result < 2 ^ 100 }
{
    instance.setup_time(item, resource) as u128 * plan.setup.get(item, period) as u128
}

// Adds the marks of an item in a period, above what is used by the items before, and gives what is used with it.
#[tactic(auto, unfolding(crate::specs::Loads::stack))]
fn add_stack(
    text: &mut String,
    chart: Chart,
    load: &Loaded<'_>,
    item: u32,
    before: u128,
) -> Result<u128, AllocError>
    requires fits { AllFit load.now.instance.now load.now.plan.now }
    requires low { 1 ≤ load.now.period }
    requires high { load.now.period ≤ load.now.instance.now.periods }
    requires item_low { 1 ≤ item }
    requires item_high { item ≤ item_count load.now.instance.now }
    requires small { before < 2 ^ 119 }
    ensures text { OnOk result (string_bytes text.new
        ≡ string_bytes text.old
        ++ stack chart load.now.instance.now (plan_of load.now.plan.now) load.now.resource
        load.now.period item before) }
    ensures used { IfOk result (λ used. used
        ≡ before + (run_time load.now.instance.now (plan_of load.now.plan.now) load.now.resource
        load.now.period item
        + setup_time_used load.now.instance.now (plan_of load.now.plan.now) load.now.resource
        load.now.period item)) }
    ensures more { IfOk result (λ used. used ≤ before + 2 ^ 101) }
{
    let name = load.instance.item_name(item);
    let run = run_time(load.instance, load.plan, load.resource, load.period, item);
    let setup = setup_time_used(load.instance, load.plan, load.resource, load.period, item);
    let first = Layer { before, time: run };
    let second = Layer {
        before: before + run,
        time: setup,
    };
    add_run(text, chart, name, item, load.period, first)?;
    add_setup(text, chart, name, item, load.period, second)?;
    Ok(before + (run + setup))
}

// Adds the marks of all items in a period.
#[tactic(auto, using(crate::proofs::Joins::join_more), unfolding(crate::specs::Loads::load_marks))]
fn add_stacks(
    text: &mut String,
    chart: Chart,
    instance: &Instance,
    plan: &Plan,
    resource: u32,
    period: u32,
) -> Result<(), AllocError>
    requires fits { AllFit instance.now plan.now }
    requires low { 1 ≤ period }
    requires high { period ≤ instance.now.periods }
    ensures { OnOk result (string_bytes text.new
        ≡ string_bytes text.old
        ++ load_marks chart instance.now (plan_of plan.now) resource period) }
{
    let load = &Loaded {
        instance,
        plan,
        resource,
        period,
    };
    let mut used = 0u128;
    for item in 1..instance.items() + 1 {
        used = add_stack(text, chart, load, item, used)?;
    }
    Ok(())
}

// Adds what stands behind the marks of a period: its numbers are shown where no mark is.
#[tactic(auto, unfolding(crate::specs::Loads::slot_mark))]
fn add_slot(
    text: &mut String,
    chart: Chart,
    period: u32,
    used: u128,
    capacity: u128,
) -> Result<(), AllocError>
    requires { used < 2 ^ 120 }
    ensures { OnOk result (string_bytes text.new
        ≡ string_bytes text.old ++ slot_mark chart period used capacity) }
{
    let bar = Bar {
        x: left_of(chart, period),
        y: TOP as u128,
        width: chart.step as u128,
        height: 120,
    };
    let share = percent(used, capacity);
    let (shown, all) = (Grouped(used), Grouped(capacity));
    add_bar(text, "slot", bar)?;
    write!(
        text,
        "Period {period}: {shown} of {all} used, {share}%</title></rect>\n"
    )?;
    Ok(())
}

// Adds the share that is used in a period.
#[tactic(auto, unfolding(crate::specs::Loads::share_label))]
fn add_share(
    text: &mut String,
    chart: Chart,
    period: u32,
    used: u128,
    capacity: u128,
) -> Result<(), AllocError>
    requires { used < 2 ^ 120 }
    ensures { OnOk result (string_bytes text.new
        ≡ string_bytes text.old ++ share_label chart period used capacity) }
{
    let middle = middle_of(chart, period);
    let share = percent(used, capacity);
    write!(
        text,
        "<text class=\"share\" x=\"{middle}\" y=\"16\">{share}%</text>\n"
    )?;
    Ok(())
}

/// Adds all that is shown of a resource in a period.
#[tactic(auto, unfolding(crate::specs::Loads::period_loads))]
pub fn add_period(
    text: &mut String,
    chart: Chart,
    instance: &Instance,
    plan: &Plan,
    resource: u32,
    period: u32,
) -> Result<(), AllocError>
    requires fits { AllFit instance.now plan.now }
    requires resource_low { 1 ≤ resource }
    requires resource_high { resource ≤ resource_count instance.now }
    requires low { 1 ≤ period }
    requires high { period ≤ instance.now.periods }
    ensures { OnOk result (string_bytes text.new
        ≡ string_bytes text.old
        ++ period_loads chart instance.now (plan_of plan.now) resource period) }
{
    let used = time_used(instance, plan, resource, period);
    let capacity = instance.capacity(resource, period) as u128;
    add_slot(text, chart, period, used, capacity)?;
    add_stacks(text, chart, instance, plan, resource, period)?;
    add_share(text, chart, period, used, capacity)?;
    add_period_label(text, chart, period)?;
    Ok(())
}

// Adds the step of the capacity's line over a period.
#[tactic(auto, unfolding(crate::specs::Loads::capacity_step))]
fn add_capacity(
    text: &mut String,
    chart: Chart,
    instance: &Instance,
    resource: u32,
    period: u32,
) -> Result<(), AllocError>
    requires resource_low { 1 ≤ resource }
    requires resource_high { resource ≤ resource_count instance.now }
    requires low { 1 ≤ period }
    requires high { period ≤ instance.now.periods }
    ensures { OnOk result (string_bytes text.new
        ≡ string_bytes text.old ++ capacity_step chart instance.now resource period) }
{
    let y = level(chart, instance.capacity(resource, period) as u128);
    let x = right_of(chart, period);
    write!(text, "V{y}H{x}")?;
    Ok(())
}

// Begins the line of the capacity, at that of the first period.
#[tactic(auto, unfolding(crate::specs::Loads::capacity_start))]
fn add_first(text: &mut String, chart: Chart, capacity: u64) -> Result<(), AllocError>
    ensures { OnOk result (string_bytes text.new
        ≡ string_bytes text.old ++ capacity_start chart capacity) }
{
    let left = chart.gutter;
    let first = level(chart, capacity as u128);
    write!(text, "<path class=\"capacity\" d=\"M{left} {first}")?;
    Ok(())
}

// Adds the steps of all periods.
#[tactic(auto, using(crate::proofs::Joins::join_more), unfolding(crate::specs::Loads::capacity_steps))]
fn add_steps(
    text: &mut String,
    chart: Chart,
    instance: &Instance,
    resource: u32,
) -> Result<(), AllocError>
    requires low { 1 ≤ resource }
    requires high { resource ≤ resource_count instance.now }
    ensures { OnOk result (string_bytes text.new
        ≡ string_bytes text.old ++ capacity_steps chart instance.now resource) }
{
    for period in 1..instance.periods() + 1 {
        add_capacity(text, chart, instance, resource, period)?;
    }
    Ok(())
}

/// Adds the line of the capacity: a step for each period.
#[tactic(auto, unfolding(crate::specs::Loads::capacity_line))]
pub fn add_capacity_line(
    text: &mut String,
    chart: Chart,
    instance: &Instance,
    resource: u32,
) -> Result<(), AllocError>
    requires low { 1 ≤ resource }
    requires high { resource ≤ resource_count instance.now }
    ensures { OnOk result (string_bytes text.new
        ≡ string_bytes text.old ++ capacity_line chart instance.now resource) }
{
    // There is at least one period.
    let periods = instance.periods();
    prove!(periods >= 1);
    add_first(text, chart, instance.capacity(resource, 1))?;
    add_steps(text, chart, instance, resource)?;
    text.push_str("\"><title>Capacity</title></path>\n")?;
    Ok(())
}
