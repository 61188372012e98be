// The largest numbers that charts show.
ghost use Rattle.std.specs.Prelude.{◌≡◌, ◌≤◌};
ghost use Rattle.lot_sizing.specs.Problem.{item_count, resource_count};
ghost use Rattle.plan_rules.specs.Held.{AllFit, plan_of};
ghost use Rattle.plan_page.specs.Peaks.{backlog_peak, item_chart, item_peak, load_at, max_to, peak_at, resource_chart};

use crate::chart::{Chart, DEPTH, chart_of};
use lot_model::Instance;
use plan_rules::{Plan, time_used, used_up};

// The largest number that is shown of an item in a period; below the axis there is a third of the room.
#[tactic(auto, unfolding(crate::specs::Peaks::peak_at))]
fn peak_at(instance: &Instance, plan: &Plan, item: u32, period: u32) -> u128
    requires fits { AllFit instance.now plan.now }
    requires item_low { 1 ≤ item }
    requires item_high { item ≤ item_count instance.now }
    requires low { 1 ≤ period }
    requires high { period ≤ instance.now.periods }
    ensures { result ≡ peak_at instance.now (plan_of plan.now) item period }
{
    let demand = instance.demand(item, period) as u128;
    let needed = demand + used_up(instance, &plan.make, item, period);
    let made = plan.make.get(item, period) as u128;
    let stock = plan.stock.get(item, period) as u128;
    let owed = plan.backlog.get(item, period) as u128 * 3;
    needed.max(made).max(stock).max(owed)
}

// The largest number that is shown of an item.
#[tactic(auto, using(crate::proofs::Maxima::max_to_more), unfolding(crate::specs::Peaks::item_peak))]
fn item_peak(instance: &Instance, plan: &Plan, item: u32) -> u128
    requires fits { AllFit instance.now plan.now }
    requires low { 1 ≤ item }
    requires high { item ≤ item_count instance.now }
    ensures { result ≡ item_peak instance.now (plan_of plan.now) item }
{
    let mut peak = 0u128;
    for period in 1..instance.periods() + 1 {
        peak = peak.max(peak_at(instance, plan, item, period));
    }
    peak.max(instance.opening(item) as u128)
}

// The largest backlog of an item.
#[tactic(auto, using(crate::proofs::Maxima::max_to_more), unfolding(crate::specs::Peaks::backlog_peak))]
fn backlog_peak(instance: &Instance, plan: &Plan, item: u32) -> u64
    requires fits { AllFit instance.now plan.now }
    requires low { 1 ≤ item }
    requires high { item ≤ item_count instance.now }
    ensures { result ≡ backlog_peak instance.now (plan_of plan.now) item }
{
    let mut peak = 0u64;
    for period in 1..instance.periods() + 1 {
        peak = peak.max(plan.backlog.get(item, period));
    }
    peak
}

/// The chart of an item; it has room below the axis where there is a backlog.
#[tactic(auto, unfolding(crate::specs::Peaks::item_chart))]
pub fn item_chart(instance: &Instance, plan: &Plan, item: u32) -> Chart
    requires fits { AllFit instance.now plan.now }
    requires low { 1 ≤ item }
    requires high { item ≤ item_count instance.now }
    ensures { result ≡ item_chart instance.now (plan_of plan.now) item }
{
    let depth = if backlog_peak(instance, plan, item) == 0 {
        0
    } else {
        DEPTH
    };
    chart_of(instance.periods(), depth, item_peak(instance, plan, item))
}

// The larger of the time that a resource has and that it is used in a period.
#[tactic(auto, unfolding(crate::specs::Peaks::load_at))]
fn load_at(instance: &Instance, plan: &Plan, resource: u32, period: u32) -> u128
    requires fits { AllFit instance.now plan.now }
    requires resource_low { 1 ≤ resource }
    requires resource_high { resource ≤ resource_count instance.now }
    requires low { 1 ≤ period }
    requires high { period ≤ instance.now.periods }
    ensures { result ≡ load_at instance.now (plan_of plan.now) resource period }
{
    let capacity = instance.capacity(resource, period) as u128;
    capacity.max(time_used(instance, plan, resource, period))
}

/// The chart of a resource.
#[tactic(auto, using(crate::proofs::Maxima::max_to_more), unfolding(crate::specs::Peaks::resource_chart))]
pub fn resource_chart(instance: &Instance, plan: &Plan, resource: u32) -> Chart
    requires fits { AllFit instance.now plan.now }
    requires low { 1 ≤ resource }
    requires high { resource ≤ resource_count instance.now }
    ensures { result ≡ resource_chart instance.now (plan_of plan.now) resource }
{
    let mut peak = 0u128;
    for period in 1..instance.periods() + 1 {
        peak = peak.max(load_at(instance, plan, resource, period));
    }
    chart_of(instance.periods(), 0, peak)
}
