// What is asked of items in each period.
ghost use Rattle.std.specs.Prelude.{◌≤◌};
ghost use Rattle.lot_sizing.specs.Problem.{item_count};
ghost use Rattle.must_start.specs.Rows.{IsMustStartOf};
ghost use Rattle.late_starts.specs.Rows.{IsOnTimeOf};

use integer_grids::IntegerGrid;
use integer_grids::numbers::{less, of_amount, plus, times};
use late_starts::OnTime;
use lot_model::Instance;
use must_start::{MustStart, must_start_holds};

/// What must be started of an item in each period beyond what must have been before is written to its line.
pub(crate) fn ask_by_starts(
    instance: &Instance,
    started: &MustStart,
    item: u32,
    asked: &mut IntegerGrid,
)
    requires started { IsMustStartOf instance.now started.now }
    requires low { 1 ≤ item }
    requires high { item ≤ item_count instance.now }
{
    for period in 1..instance.periods() + 1 {
        let before = of_amount(started.by_end(item, period - 1));
        let more = less(of_amount(started.by_end(item, period)), before);
        asked.put(item, period, more);
    }
}

/// What is on time of an item in each period beyond what was before is written to its line.
pub(crate) fn ask_on_time(instance: &Instance, on_time: &OnTime, item: u32, asked: &mut IntegerGrid)
    requires on_time { IsOnTimeOf instance.now on_time.now }
    requires low { 1 ≤ item }
    requires high { item ≤ item_count instance.now }
{
    for period in 1..instance.periods() + 1 {
        let before = of_amount(on_time.by_end(item, period - 1));
        let more = less(of_amount(on_time.by_end(item, period)), before);
        asked.put(item, period, more.max(0));
    }
}

/// What is on time of an item by the end of each period is written to its line.
pub(crate) fn write_on_time(
    instance: &Instance,
    on_time: &OnTime,
    item: u32,
    asked: &mut IntegerGrid,
)
    requires on_time { IsOnTimeOf instance.now on_time.now }
    requires low { 1 ≤ item }
    requires high { item ≤ item_count instance.now }
{
    for period in 1..instance.periods() + 1 {
        asked.put(item, period, of_amount(on_time.by_end(item, period)));
    }
}

// What all items but one take of an item by the end of a period, by what must have been started of them.
fn taken_besides(instance: &Instance, started: &MustStart, item: u32, next: u32, period: u32) -> i64
    requires started { IsMustStartOf instance.now started.now }
    requires low { 1 ≤ item }
    requires high { item ≤ item_count instance.now }
    requires period { period ≤ instance.now.periods }
{
    let mut taken = 0;
    for other in 1..instance.items() + 1 {
        if other != next {
            let units = of_amount(instance.per_unit(item, other));
            let made = of_amount(started.by_end(other, period));
            taken = plus(taken, times(units, made));
        }
    }
    taken
}

/// What is asked of an item in each period but by the next one in its chain is written to its line.
pub(crate) fn ask_besides(
    instance: &Instance,
    started: &MustStart,
    item: u32,
    next: u32,
    asked: &mut IntegerGrid,
)
    requires started { IsMustStartOf instance.now started.now }
    requires low { 1 ≤ item }
    requires high { item ≤ item_count instance.now }
{
    must_start_holds();
    let mut demanded = 0;
    let mut before = 0;
    for period in 1..instance.periods() + 1 {
        demanded = plus(demanded, of_amount(instance.demand(item, period)));
        let mut sum = plus(
            demanded,
            taken_besides(instance, started, item, next, period),
        );
        if period == instance.periods() {
            sum = plus(sum, of_amount(instance.end_min(item)));
        }
        asked.put(item, period, less(sum, before).max(0));
        before = sum;
    }
}
