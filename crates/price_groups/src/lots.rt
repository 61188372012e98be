// What is known of items that are planned in whole quantities.
ghost use Rattle.std.specs.Prelude.{◌≤◌};
ghost use Rattle.lot_sizing.specs.Problem.{item_count};
ghost use Rattle.must_start.specs.Rows.{IsMustStartOf};
ghost use Rattle.late_starts.specs.Rows.{IsOnTimeOf};

use crate::groups::ItemGroup;
use integer_grids::IntegerGrid;
use integer_grids::numbers::{at, of_amount, plus, times};
use late_starts::OnTime;
use lot_model::Instance;
use must_start::{MustStart, largest_lot};
use std::alloc::{AllocError, Global};

// An item is planned in whole quantities where the periods times one more than these are no more than so many.
const MOST_OF_ITEM: i64 = 40_000;

// And all items together.
const MOST_OF_ALL: i64 = 200_000;

// A plan takes so many steps for each quantity and period.
const STEPS: u64 = 3;

// Whether what is asked of an item in all is twice its largest lot or more, in some period.
fn is_bound(instance: &Instance, item: u32, total: i64) -> bool
    requires low { 1 ≤ item }
    requires high { item ≤ item_count instance.now }
{
    for period in 1..instance.periods() + 1 {
        let lot = of_amount(largest_lot(instance, item, period));
        if times(2, lot) <= total {
            return true;
        }
    }
    false
}

/// How many more entries tables of whole quantities may have.
#[derive(Debug, Drop)]
pub(crate) struct Limits {
    left: i64,
    periods: i64,
}

impl Limits {
    /// Before the first item.
    pub(crate) fn new(instance: &Instance) -> Limits {
        Limits {
            left: MOST_OF_ALL,
            periods: i64::from(instance.periods()),
        }
    }

    /// Whether an item of which so much is asked in all is planned in whole quantities. Then its entries are taken.
    pub(crate) fn take(&mut self, instance: &Instance, item: u32, total: i64) -> bool {
        if item < 1 || item > instance.items() || !is_bound(instance, item, total) {
            return false;
        }
        let entries = times(self.periods, plus(total, 1));
        if entries > MOST_OF_ITEM || entries > self.left {
            return false;
        }
        self.left = self.left.wrapping_sub(entries);
        true
    }
}

/// What must have been started of items in whole quantities, and their largest lots.
#[derive(Debug, Drop)]
pub(crate) struct LotBounds {
    // By item what must have been started by the end of each period.
    needed: IntegerGrid,
    // By item the largest lot of each period.
    largest: IntegerGrid,
    // By item the largest quantity.
    most: IntegerGrid,
}

// Whether a group is an item in whole quantities.
fn whole_in(group: &ItemGroup) -> Option<u32> {
    match group {
        ItemGroup::Quantities { item } | ItemGroup::LateQuantities { item } => Some(*item),
        _ => None,
    }
}

// Whether some group is.
fn some_whole(groups: &[ItemGroup]) -> bool {
    groups.iter().any(|group| whole_in(group).is_some())
}

// What must have been started of an item in whole quantities by the end of a period: what is on time from the last period on whose lots
// arrive, if it may fall short before.
fn needed_by(
    instance: &Instance,
    started: &MustStart,
    on_time: &OnTime,
    group: &ItemGroup,
    item: u32,
    period: u32,
) -> i64
    requires started { IsMustStartOf instance.now started.now }
    requires on_time { IsOnTimeOf instance.now on_time.now }
    requires low { 1 ≤ item }
    requires high { item ≤ item_count instance.now }
    requires within { period ≤ instance.now.periods }
{
    let last = instance.periods().saturating_sub(instance.lead(item));
    let is_late = matches!(group, ItemGroup::LateQuantities { .. });
    of_amount(if is_late && period >= last {
        on_time.by_end(item, period)
    } else {
        started.by_end(item, period)
    })
}

impl LotBounds {
    /// Of no item yet, and without memory where none of the groups is an item in whole quantities.
    pub(crate) fn of(
        alloc: Global,
        instance: &Instance,
        groups: &[ItemGroup],
    ) -> Result<LotBounds, AllocError> {
        let items = if some_whole(groups) {
            instance.items()
        } else {
            0
        };
        Ok(LotBounds {
            needed: IntegerGrid::zero(alloc, items, instance.periods())?,
            largest: IntegerGrid::zero(alloc, items, instance.periods())?,
            most: IntegerGrid::zero(alloc, items, 1)?,
        })
    }

    /// Those of the item of a group are written, if it is in whole quantities.
    pub(crate) fn put(
        &mut self,
        instance: &Instance,
        started: &MustStart,
        on_time: &OnTime,
        group: &ItemGroup,
    )
        requires started { IsMustStartOf instance.now started.now }
        requires on_time { IsOnTimeOf instance.now on_time.now }
    {
        let Some(item) = whole_in(group) else {
            return;
        };
        if item < 1 || item > instance.items() {
            return;
        }
        for period in 1..instance.periods() + 1 {
            let needed = needed_by(instance, started, on_time, group, item, period);
            self.needed.put(item, period, needed);
            let lot = of_amount(largest_lot(instance, item, period));
            self.largest.put(item, period, lot);
        }
        let last = at(self.needed.line(item), instance.periods());
        self.most.put(item, 1, last);
    }

    /// What must have been started of an item by the end of each period.
    pub(crate) fn needed(&self, item: u32) -> &[i64] {
        self.needed.line(item)
    }

    /// The largest lots of an item, by period.
    pub(crate) fn largest(&self, item: u32) -> &[i64] {
        self.largest.line(item)
    }

    /// About how many steps a plan of an item takes for each period.
    pub(crate) fn steps(&self, item: u32) -> u64 {
        let most = u64::try_from(self.most.get(item, 1)).unwrap_or(0);
        most.saturating_add(1).saturating_mul(STEPS)
    }
}
