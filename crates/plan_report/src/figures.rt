// What is told of a plan by period.
ghost use Rattle.std.specs.Prelude.{◌≡◌, ◌≤◌, ◌<◌, ◌^◌};
ghost use Rattle.lot_sizing.specs.declared.limits.TheConstants.{MAX_ITEMS};
ghost use Rattle.plan_rules.specs.Held.{AllFit, plan_of};
ghost use Rattle.plan_report.specs.Figures.{key_of, number_of, percent, row_count, row_name, title_of};

use lot_model::Instance;
use plan_rules::{Plan, time_used};

/// What is told of an item, or of a resource, in each period.
#[derive(Clone, Copy, Debug, PartialEq, Eq)]
pub enum Series {
    /// Units of an item that are made.
    Made,
    /// Its setups, 0 or 1.
    Setup,
    /// Its units in stock at the end of the period.
    Stock,
    /// Its units owed at the end of the period.
    Backlog,
    /// The time that there is of a resource, in its time units.
    Capacity,
    /// The time that is used.
    Used,
    /// The time that is free.
    Free,
    /// The share of the time that is used, in percent, rounded down.
    Load,
}

// How many hundredths of the whole a part is, rounded down.
#[tactic(auto, unfolding(crate::specs::Figures::percent))]
fn percent(part: u128, whole: u128) -> u128
    requires { part < 2 ^ 120 }
    ensures { result ≡ percent part whole }
{
    part * 100 / whole.max(1)
}

// The share of its time that a resource is used in a period, in percent.
#[tactic(auto, unfolding(crate::specs::Figures::number_of, crate::specs::Figures::row_count))]
fn load(instance: &Instance, plan: &Plan, resource: u32, period: u32) -> u128
    requires fits { AllFit instance.now plan.now }
    requires resource_low { 1 ≤ resource }
    requires resource_high { resource ≤ row_count instance.now Series.Load }
    requires low { 1 ≤ period }
    requires high { period ≤ instance.now.periods }
    ensures { result ≡ number_of instance.now (plan_of plan.now) Series.Load resource period }
{
    let used = time_used(instance, plan, resource, period);
    percent(used, instance.capacity(resource, period) as u128)
}

// The time of a resource that is free in a period.
#[tactic(auto, unfolding(crate::specs::Figures::number_of, crate::specs::Figures::row_count))]
fn free(instance: &Instance, plan: &Plan, resource: u32, period: u32) -> u128
    requires fits { AllFit instance.now plan.now }
    requires resource_low { 1 ≤ resource }
    requires resource_high { resource ≤ row_count instance.now Series.Free }
    requires low { 1 ≤ period }
    requires high { period ≤ instance.now.periods }
    ensures { result ≡ number_of instance.now (plan_of plan.now) Series.Free resource period }
{
    let used = time_used(instance, plan, resource, period);
    (instance.capacity(resource, period) as u128).saturating_sub(used)
}

/// The number of an item, or of a resource, in a period.
#[tactic(auto, unfolding(crate::specs::Figures::number_of, crate::specs::Figures::row_count))]
pub(crate) fn number_of(
    instance: &Instance,
    plan: &Plan,
    series: Series,
    row: u32,
    period: u32,
) -> u128
    requires fits { AllFit instance.now plan.now }
    requires row_low { 1 ≤ row }
    requires row_high { row ≤ row_count instance.now series }
    requires low { 1 ≤ period }
    requires high { period ≤ instance.now.periods }
    ensures { result ≡ number_of instance.now (plan_of plan.now) series row period }
{
    match series {
        Series::Made => plan.make.get(row, period) as u128,
        Series::Setup => plan.setup.get(row, period) as u128,
        Series::Stock => plan.stock.get(row, period) as u128,
        Series::Backlog => plan.backlog.get(row, period) as u128,
        Series::Capacity => instance.capacity(row, period) as u128,
        Series::Used => time_used(instance, plan, row, period),
        Series::Free => free(instance, plan, row, period),
        Series::Load => load(instance, plan, row, period),
    }
}

/// How many items, or resources, have one.
#[tactic(auto, unfolding(crate::specs::Figures::row_count))]
pub(crate) fn row_count(instance: &Instance, series: Series) -> u32
    ensures value { result ≡ row_count instance.now series }
    ensures small { result ≤ MAX_ITEMS }
{
    match series {
        Series::Made | Series::Setup | Series::Stock | Series::Backlog => instance.items(),
        Series::Capacity | Series::Used | Series::Free | Series::Load => instance.resources(),
    }
}

/// The name of the item, or of the resource.
#[tactic(auto, unfolding(crate::specs::Figures::row_name, crate::specs::Figures::row_count))]
pub(crate) fn row_name(instance: &Instance, series: Series, row: u32) -> &str
    requires low { 1 ≤ row }
    requires high { row ≤ row_count instance.now series }
    ensures { result.now ≡ row_name instance.now series row }
{
    match series {
        Series::Made | Series::Setup | Series::Stock | Series::Backlog => instance.item_name(row),
        Series::Capacity | Series::Used | Series::Free | Series::Load => {
            instance.resource_name(row)
        }
    }
}

/// What it is called in JSON.
#[tactic(auto, unfolding(crate::specs::Figures::key_of))]
pub(crate) fn key_of(series: Series) -> &'static str
    ensures { result.now ≡ key_of series }
{
    match series {
        Series::Made => "made",
        Series::Setup => "setup",
        Series::Stock => "stock",
        Series::Backlog => "backlog",
        Series::Capacity => "capacity",
        Series::Used => "used",
        Series::Free => "free",
        Series::Load => "load",
    }
}

/// What its table is called.
#[tactic(auto, unfolding(crate::specs::Figures::title_of))]
pub(crate) fn title_of(series: Series) -> &'static str
    ensures { result.now ≡ title_of series }
{
    match series {
        Series::Made => "Made",
        Series::Setup => "Setup",
        Series::Stock => "Stock",
        Series::Backlog => "Backlog",
        Series::Capacity => "Time",
        Series::Used => "Used",
        Series::Free => "Free",
        Series::Load => "Load %",
    }
}
