// What is asked of the items of a group in each period.
ghost use Rattle.std.specs.Prelude.{◌≡◌, ◌≤◌, ◌+◌, ◌-◌, ◌*◌, ◌==◌, if◌then◌else◌, IfOk};
ghost use Rattle.lot_sizing.specs.Sums.{sum_to};
ghost use Rattle.lot_sizing.specs.Problem.{demand, item_at, item_count, per_unit};
ghost use Rattle.must_start.specs.Rows.{IsMustStartOf, start_in};
ghost use Rattle.reduced_groups.specs.Groups.{asked_besides};
ghost use Rattle.reduced_groups.specs.Levels.{HasSeries};

use lot_model::{Instance, an_instance_breaks_no_rule};
use must_start::{MustStart, must_start_holds};
use std::alloc::{AllocError, Global};

/// What must have been started of an item by the end of each period, beyond what must have been before.
pub(crate) fn needs_of_last(
    alloc: Global,
    instance: &Instance,
    started: &MustStart,
    item: u32,
) -> Result<Vec<u64>, AllocError>
    requires started { IsMustStartOf instance.now started.now }
    requires low { 1 ≤ item }
    requires high { item ≤ item_count instance.now }
    ensures { IfOk result (λ list. HasSeries instance.now.periods
        (λ t. start_in started.now item t - start_in started.now item (t - 1)) list.items) }
{
    let mut list = Vec::with_capacity(alloc, instance.periods() as usize)?;
    for period in 1..instance.periods() + 1 {
        let before = started.by_end(item, period - 1);
        list.push(started.by_end(item, period).saturating_sub(before))?;
    }
    Ok(list)
}

// What another item takes of an item by the end of a period, and nothing where it is the next one in its chain.
fn taken_by(
    instance: &Instance,
    started: &MustStart,
    item: u32,
    next: u32,
    other: u32,
    period: u32,
) -> u64
    requires started { IsMustStartOf instance.now started.now }
    requires low { 1 ≤ item }
    requires high { item ≤ item_count instance.now }
    requires other_low { 1 ≤ other }
    requires other_high { other ≤ item_count instance.now }
    requires period { period ≤ instance.now.periods }
    ensures { result ≡ per_unit instance.now item other
        * (if other == next then 0 else start_in started.now other period) }
{
    must_start_holds();
    an_instance_breaks_no_rule(instance);
    if other == next {
        return 0;
    }
    instance.per_unit(item, other) * started.by_end(other, period)
}

// What all items take of an item by the end of a period but the next one in its chain.
fn taken_besides(instance: &Instance, started: &MustStart, item: u32, next: u32, period: u32) -> u64
    requires started { IsMustStartOf instance.now started.now }
    requires low { 1 ≤ item }
    requires high { item ≤ item_count instance.now }
    requires period { period ≤ instance.now.periods }
    ensures { result ≡ sum_to (item_count instance.now)
        (λ j. per_unit instance.now item j
        * (if j == next then 0 else start_in started.now j period)) }
{
    must_start_holds();
    let mut taken = 0;
    for other in 1..instance.items() + 1 {
        taken += taken_by(instance, started, item, next, other, period);
    }
    taken
}

// The required end stock in the last period, and 0 before.
fn end_min_by(instance: &Instance, item: u32, period: u32) -> u64
    requires low { 1 ≤ item }
    requires high { item ≤ item_count instance.now }
    ensures { result ≡ (if period == instance.now.periods
        then (item_at instance.now item).end_min else 0) }
{
    if period == instance.periods() {
        instance.end_min(item)
    } else {
        0
    }
}

// What is asked of an item by the end of a period but by the next one in its chain, where so much was demanded so far.
fn asked_besides(
    instance: &Instance,
    started: &MustStart,
    item: u32,
    next: u32,
    period: u32,
    demanded: u64,
) -> u64
    requires started { IsMustStartOf instance.now started.now }
    requires low { 1 ≤ item }
    requires high { item ≤ item_count instance.now }
    requires period { period ≤ instance.now.periods }
    requires demanded { demanded ≡ sum_to period (demand instance.now item) }
    ensures { result ≡ asked_besides instance.now (start_in started.now) item next period }
{
    must_start_holds();
    an_instance_breaks_no_rule(instance);
    let end_min = end_min_by(instance, item, period);
    let taken = taken_besides(instance, started, item, next, period);
    demanded + end_min + taken
}

/// What is asked of an item in each period but by the next one in its chain.
pub(crate) fn needs_of_lower(
    alloc: Global,
    instance: &Instance,
    started: &MustStart,
    item: u32,
    next: u32,
) -> Result<Vec<u64>, AllocError>
    requires started { IsMustStartOf instance.now started.now }
    requires low { 1 ≤ item }
    requires high { item ≤ item_count instance.now }
    ensures { IfOk result (λ list. HasSeries instance.now.periods
        (λ t. asked_besides instance.now (start_in started.now) item next t
        - asked_besides instance.now (start_in started.now) item next (t - 1)) list.items) }
{
    must_start_holds();
    an_instance_breaks_no_rule(instance);
    let mut list = Vec::with_capacity(alloc, instance.periods() as usize)?;
    let mut demanded = 0;
    let mut before = 0;
    for period in 1..instance.periods() + 1 {
        demanded += instance.demand(item, period);
        let asked = asked_besides(instance, started, item, next, period, demanded);
        list.push(asked.saturating_sub(before))?;
        before = asked;
    }
    Ok(list)
}
