// Groups of the items of an instance, with what is asked of them.
ghost use Rattle.std.specs.Prelude.{◌≤◌};
ghost use Rattle.lot_sizing.specs.Problem.{item_count};
ghost use Rattle.must_start.specs.Rows.{IsMustStartOf};
ghost use Rattle.late_starts.specs.Rows.{IsOnTimeOf};

use crate::asked::{ask_besides, ask_by_starts, ask_on_time, write_on_time};
use crate::cover::{Cover, Kind};
use crate::groups::ItemGroup;
use crate::lots::{Limits, LotBounds};
use crate::weights::weights_of;
use integer_grids::IntegerGrid;
use integer_grids::numbers::{less, of_amount, plus, times};
use late_starts::OnTime;
use lot_model::Instance;
use must_start::MustStart;
use std::alloc::{AllocError, Global};

/// The groups in which items of an instance are planned, and what is asked of each item there.
#[derive(Debug, Drop)]
pub struct Grouping {
    groups: Vec<ItemGroup>,
    // By item what is asked of it in each period, other than by the next one in its chain.
    asked: IntegerGrid,
    // By item the units of each item in one of it.
    weights: IntegerGrid,
    // By item the most that can be made of it in all.
    most: IntegerGrid,
    // What of each item may fall short.
    lateness: Lateness,
    // The needs and the largest lots of items in whole quantities.
    bounds: LotBounds,
}

// What of each item may fall short.
#[derive(Debug, Drop)]
struct Lateness {
    // By item whether it is planned by what is on time of it.
    late: Vec<bool>,
    // By item whether it has a price of backlog, and goes into no other one that has.
    last: Vec<bool>,
    // By item what is on time of it by the end of each period, where it may fall short.
    on_time: IntegerGrid,
}

// Whether something of an item is ever late, its components left out.
fn is_late(instance: &Instance, item: u32) -> bool {
    item >= 1 && item <= instance.items() && instance.has_backlog_cost(item)
}

// Whether an item has a lead time.
fn has_lead(instance: &Instance, item: u32) -> bool {
    item >= 1 && item <= instance.items() && instance.lead(item) >= 1
}

// Whether an item may fall short of what is on time: it may be late, or goes into one that may be.
fn may_fall_short(instance: &Instance, weights: &IntegerGrid, item: u32) -> bool {
    for other in 1..instance.items() + 1 {
        if weights.get(other, item) > 0 && is_late(instance, other) {
            return true;
        }
    }
    false
}

// By item whether it may fall short.
fn short_of(
    alloc: Global,
    instance: &Instance,
    weights: &IntegerGrid,
) -> Result<Vec<bool>, AllocError> {
    let mut short = Vec::with_capacity(alloc, instance.items() as usize)?;
    for item in 1..instance.items() + 1 {
        short.push(may_fall_short(instance, weights, item))?;
    }
    Ok(short)
}

// Whether an item may be late and goes into no other one that may be.
fn is_last(instance: &Instance, weights: &IntegerGrid, item: u32) -> bool {
    for other in 1..instance.items() + 1 {
        if other != item && weights.get(other, item) > 0 && is_late(instance, other) {
            return false;
        }
    }
    is_late(instance, item)
}

// By item whether it may be late and goes into no other one that may be.
fn last_of(
    alloc: Global,
    instance: &Instance,
    weights: &IntegerGrid,
) -> Result<Vec<bool>, AllocError> {
    let mut last = Vec::with_capacity(alloc, instance.items() as usize)?;
    for item in 1..instance.items() + 1 {
        last.push(is_last(instance, weights, item))?;
    }
    Ok(last)
}

// Whether a list says so of some item.
fn are_some(list: &[bool]) -> bool {
    list.iter().any(|is_so| *is_so)
}

// Whether an item or one that it goes into has a lead time.
fn waits(instance: &Instance, weights: &IntegerGrid, item: u32) -> bool {
    for other in 1..instance.items() + 1 {
        if weights.get(other, item) > 0 && has_lead(instance, other) {
            return true;
        }
    }
    false
}

// Whether some item that may fall short has a lead time, or goes into one that has.
fn some_wait(instance: &Instance, weights: &IntegerGrid, short: &[bool]) -> bool {
    let mut item = 0u32;
    for is_short in short {
        item = item.saturating_add(1);
        if *is_short && waits(instance, weights, item) {
            return true;
        }
    }
    false
}

// What remains of an item at the end at most, and what is demanded of it beyond the opening stock.
fn end_most(instance: &Instance, item: u32) -> i64
    requires low { 1 ≤ item }
    requires high { item ≤ item_count instance.now }
{
    let mut sum = of_amount(instance.end_max(item));
    for amount in instance.demands(item) {
        sum = plus(sum, of_amount(*amount));
    }
    less(sum, of_amount(instance.opening(item)))
}

// The most that can be made of each item in all: what remains of all that it goes into, and what is demanded of them.
fn most_of(
    alloc: Global,
    instance: &Instance,
    weights: &IntegerGrid,
) -> Result<IntegerGrid, AllocError> {
    let mut most = IntegerGrid::zero(alloc, instance.items(), 1)?;
    for other in 1..instance.items() + 1 {
        let units = end_most(instance, other);
        for item in 1..instance.items() + 1 {
            let more = times(weights.get(other, item), units);
            most.put(item, 1, plus(most.get(item, 1), more));
        }
    }
    Ok(most)
}

// What is asked of an item that another one of its chain follows, or none.
fn ask(
    instance: &Instance,
    started: &MustStart,
    item: u32,
    next: Option<u32>,
    asked: &mut IntegerGrid,
)
    requires started { IsMustStartOf instance.now started.now }
{
    if item < 1 || item > instance.items() {
        return;
    }
    match next {
        Some(next) => ask_besides(instance, started, item, next, asked),
        None => ask_by_starts(instance, started, item, asked),
    }
}

// What is asked of an item that may fall short.
fn ask_late(instance: &Instance, on_time: &OnTime, item: u32, asked: &mut IntegerGrid)
    requires on_time { IsOnTimeOf instance.now on_time.now }
{
    if item >= 1 && item <= instance.items() {
        ask_on_time(instance, on_time, item, asked);
    }
}

// What is asked of the items of a group.
fn ask_group(
    instance: &Instance,
    started: &MustStart,
    on_time: &OnTime,
    group: &ItemGroup,
    asked: &mut IntegerGrid,
)
    requires started { IsMustStartOf instance.now started.now }
    requires on_time { IsOnTimeOf instance.now on_time.now }
{
    match group {
        ItemGroup::Late { item } | ItemGroup::LateQuantities { item } => {
            ask_late(instance, on_time, *item, asked);
        }
        ItemGroup::Item { item } | ItemGroup::Quantities { item } => {
            ask(instance, started, *item, None, asked);
        }
        ItemGroup::Pair { low, top } => {
            ask(instance, started, low.item, Some(top.item), asked);
            ask(instance, started, top.item, None, asked);
        }
        ItemGroup::Triple { low, mid, top } => {
            ask(instance, started, low.item, Some(mid.item), asked);
            ask(instance, started, mid.item, Some(top.item), asked);
            ask(instance, started, top.item, None, asked);
        }
    }
}

// Whether a group says more than its items do alone: it has several, or one that has a lead time or goes into such an item.
fn is_useful(instance: &Instance, weights: &IntegerGrid, group: &ItemGroup) -> bool {
    match group {
        ItemGroup::Item { item }
        | ItemGroup::Quantities { item }
        | ItemGroup::Late { item }
        | ItemGroup::LateQuantities { item } => waits(instance, weights, *item),
        ItemGroup::Pair { .. } | ItemGroup::Triple { .. } => true,
    }
}

// Whether some group says more than its items do alone.
fn are_useful(instance: &Instance, weights: &IntegerGrid, groups: &[ItemGroup]) -> bool {
    groups
        .iter()
        .any(|group| is_useful(instance, weights, group))
}

// What is known of items in lots of any size: those that may fall short are late, or planned alone.
fn kinds_of(alloc: Global, short: &[bool], are_alone: bool) -> Result<Vec<Kind>, AllocError> {
    let mut kinds = Vec::with_capacity(alloc, short.len())?;
    for is_short in short {
        kinds.push(match (*is_short, are_alone) {
            (true, true) => Kind::Alone,
            (true, false) => Kind::Late,
            (false, _) => Kind::Chained,
        })?;
    }
    Ok(kinds)
}

// What is known of items where those are planned in whole quantities that have few enough of them and whose lots are too small.
fn whole_kinds(
    alloc: Global,
    instance: &Instance,
    started: &MustStart,
    on_time: &OnTime,
    short: &[bool],
) -> Result<Vec<Kind>, AllocError>
    requires started { IsMustStartOf instance.now started.now }
    requires on_time { IsOnTimeOf instance.now on_time.now }
{
    let mut kinds = Vec::with_capacity(alloc, short.len())?;
    let mut limits = Limits::new(instance);
    let mut item = 0u32;
    for is_short in short {
        item = item.saturating_add(1);
        let total = total_of(instance, started, on_time, item, *is_short);
        kinds.push(match (limits.take(instance, item, total), *is_short) {
            (true, true) => Kind::LateWhole,
            (true, false) => Kind::Whole,
            (false, true) => Kind::Late,
            (false, false) => Kind::Chained,
        })?;
    }
    Ok(kinds)
}

// All that is on time of an item that may fall short, and else all that must have been started.
fn total_of(
    instance: &Instance,
    started: &MustStart,
    on_time: &OnTime,
    item: u32,
    is_short: bool,
) -> i64
    requires started { IsMustStartOf instance.now started.now }
    requires on_time { IsOnTimeOf instance.now on_time.now }
{
    if item < 1 || item > instance.items() {
        return 0;
    }
    let last = instance.periods();
    of_amount(if is_short {
        on_time.by_end(item, last)
    } else {
        started.by_end(item, last)
    })
}

// The groups of items of these kinds. In `order` each item comes before its components.
fn groups_of(
    alloc: Global,
    instance: &Instance,
    order: &[u32],
    kinds: Vec<Kind>,
) -> Result<Vec<ItemGroup>, AllocError> {
    let mut cover = Cover::new(alloc, kinds)?;
    for item in order {
        cover.put(instance, *item)?;
    }
    Ok(cover.into_groups())
}

// Whether an item is planned in such a group by what is on time of it.
fn late_in(group: &ItemGroup) -> Option<u32> {
    match group {
        ItemGroup::Late { item } | ItemGroup::LateQuantities { item } => Some(*item),
        _ => None,
    }
}

impl Lateness {
    // What of each item may fall short, where none is planned so yet.
    fn of(
        alloc: Global,
        instance: &Instance,
        weights: &IntegerGrid,
    ) -> Result<Lateness, AllocError> {
        let mut late = Vec::new(alloc);
        late.resize(instance.items() as usize, false)?;
        Ok(Lateness {
            late,
            last: last_of(alloc, instance, weights)?,
            on_time: IntegerGrid::zero(alloc, instance.items(), instance.periods())?,
        })
    }

    // The item of a group may fall short, if it is planned so.
    fn put(&mut self, instance: &Instance, on_time: &OnTime, group: &ItemGroup)
        requires on_time { IsOnTimeOf instance.now on_time.now }
    {
        let Some(item) = late_in(group) else {
            return;
        };
        if item < 1 || item > instance.items() {
            return;
        }
        if let Some(late) = self.late.get_mut((item as usize).wrapping_sub(1)) {
            *late = true;
        }
        write_on_time(instance, on_time, item, &mut self.on_time);
    }
}

// What a list says of an item.
fn is_true(list: &[bool], item: u32) -> bool {
    match list.get((item as usize).wrapping_sub(1)) {
        Some(found) => *found,
        None => false,
    }
}

// The grouping of these groups.
fn grouping_of(
    alloc: Global,
    instance: &Instance,
    weights: IntegerGrid,
    groups: Vec<ItemGroup>,
    started: &MustStart,
    on_time: &OnTime,
) -> Result<Grouping, AllocError>
    requires started { IsMustStartOf instance.now started.now }
    requires on_time { IsOnTimeOf instance.now on_time.now }
{
    let mut asked = IntegerGrid::zero(alloc, instance.items(), instance.periods())?;
    let mut lateness = Lateness::of(alloc, instance, &weights)?;
    let mut bounds = LotBounds::of(alloc, instance, &groups)?;
    for group in groups.iter() {
        ask_group(instance, started, on_time, group, &mut asked);
        lateness.put(instance, on_time, group);
        bounds.put(instance, started, on_time, group);
    }
    Ok(Grouping {
        groups,
        asked,
        most: most_of(alloc, instance, &weights)?,
        weights,
        lateness,
        bounds,
    })
}

impl Grouping {
    /// The groups of an instance: each item that may be late, or goes into one that may be, by what is on time of it, and a chain from
    /// each other item that is in none yet down to the components whose setups cost most, at most three items long. Where no item that
    /// may be late, or goes into such an item, has a lead time there, these are left to be planned alone. None where groups say no more
    /// than each item by itself: where no item has a lead time, and none of those that are never late goes into another one. In `order`
    /// each item comes before its components.
    ///
    /// The error is that memory ran out. It takes time in the square of the number of items times that of the periods.
    pub fn of(
        alloc: Global,
        instance: &Instance,
        order: &[u32],
    ) -> Result<Option<Grouping>, AllocError> {
        let weights = weights_of(alloc, instance, order)?;
        let short = short_of(alloc, instance, &weights)?;
        let are_alone = !some_wait(instance, &weights, &short);
        let kinds = kinds_of(alloc, &short, are_alone)?;
        let groups = groups_of(alloc, instance, order, kinds)?;
        if !are_useful(instance, &weights, &groups) {
            return Ok(None);
        }
        let started = MustStart::of(alloc, instance)?;
        let on_time = OnTime::of(alloc, instance)?;
        let found = grouping_of(alloc, instance, weights, groups, &started, &on_time)?;
        Ok(Some(found))
    }

    /// Other groups of an instance in which some items may fall short: the same, but none of these is planned alone. None where nothing
    /// may fall short, and where none is planned alone in `of`.
    ///
    /// The error is that memory ran out. It takes time in the square of the number of items times that of the periods.
    pub fn late(
        alloc: Global,
        instance: &Instance,
        order: &[u32],
    ) -> Result<Option<Grouping>, AllocError> {
        let weights = weights_of(alloc, instance, order)?;
        let short = short_of(alloc, instance, &weights)?;
        if !are_some(&short) || some_wait(instance, &weights, &short) {
            return Ok(None);
        }
        let started = MustStart::of(alloc, instance)?;
        let on_time = OnTime::of(alloc, instance)?;
        let kinds = kinds_of(alloc, &short, false)?;
        let groups = groups_of(alloc, instance, order, kinds)?;
        let found = grouping_of(alloc, instance, weights, groups, &started, &on_time)?;
        Ok(Some(found))
    }

    /// Groups in whole quantities: each item by itself whose lots are too small for what is asked of it, and which has few enough of
    /// them; the others as in `of`, but none is planned alone. None where no item is in whole quantities.
    ///
    /// The error is that memory ran out. It takes time in the square of the number of items times that of the periods.
    pub fn whole(
        alloc: Global,
        instance: &Instance,
        order: &[u32],
    ) -> Result<Option<Grouping>, AllocError> {
        let weights = weights_of(alloc, instance, order)?;
        let short = short_of(alloc, instance, &weights)?;
        let started = MustStart::of(alloc, instance)?;
        let on_time = OnTime::of(alloc, instance)?;
        let kinds = whole_kinds(alloc, instance, &started, &on_time, &short)?;
        let groups = groups_of(alloc, instance, order, kinds)?;
        let found = grouping_of(alloc, instance, weights, groups, &started, &on_time)?;
        Ok(if found.has_whole() { Some(found) } else { None })
    }

    /// The groups, in the order in which they were found.
    pub fn groups(&self) -> &[ItemGroup] {
        &self.groups
    }

    /// About how many steps a plan of all groups takes over so many periods: for each item, pair and triple so many as their recursions
    /// make, and for whole quantities a few for each of them and each period.
    pub fn steps(&self, periods: u32) -> u64 {
        let many = u64::from(periods);
        let square = many.saturating_mul(many);
        let mut sum = 0u64;
        for group in self.groups.iter() {
            let steps = match group {
                ItemGroup::Item { .. } | ItemGroup::Late { .. } => square,
                ItemGroup::Quantities { item } | ItemGroup::LateQuantities { item } => {
                    many.saturating_mul(self.bounds.steps(*item))
                }
                ItemGroup::Pair { .. } => square.saturating_mul(many) / 2,
                ItemGroup::Triple { .. } => square.saturating_mul(square) / 8,
            };
            sum = sum.saturating_add(steps);
        }
        sum
    }

    /// The price of what is there of an item before the first period, where it stands below another one in a group, is another one.
    pub fn set_opening_price(&mut self, item: u32, price: u64) {
        for group in self.groups.iter_mut() {
            *group = group.with_price(item, u128::from(price));
        }
    }

    /// Whether an item is planned by what is on time of it: it may be late, or goes into an item that may be.
    pub fn is_late(&self, item: u32) -> bool {
        is_true(&self.lateness.late, item)
    }

    /// Whether some item is.
    pub fn has_late(&self) -> bool {
        are_some(&self.lateness.late)
    }

    /// Whether an item has a price of backlog, and goes into no other one that has: what its components leave of the price is its own.
    pub fn is_last(&self, item: u32) -> bool {
        is_true(&self.lateness.last, item)
    }

    /// What is on time of an item by the end of each period, where it may fall short.
    pub fn on_time(&self, item: u32) -> &[i64] {
        self.lateness.on_time.line(item)
    }

    /// Whether some item is planned in whole quantities.
    pub fn has_whole(&self) -> bool {
        self.groups.iter().any(|group| {
            matches!(
                group,
                ItemGroup::Quantities { .. } | ItemGroup::LateQuantities { .. }
            )
        })
    }

    /// What must have been started of an item in whole quantities by the end of each period.
    pub fn needed(&self, item: u32) -> &[i64] {
        self.bounds.needed(item)
    }

    /// The largest lot of an item in whole quantities in each period.
    pub fn largest(&self, item: u32) -> &[i64] {
        self.bounds.largest(item)
    }

    /// What is asked of an item in each period, other than by the next one in its chain; nothing of an item in no group.
    pub fn asked(&self, item: u32) -> &[i64] {
        self.asked.line(item)
    }

    /// The units of an item in one unit of another one; one of itself.
    pub fn weight(&self, item: u32, other: u32) -> i64 {
        self.weights.get(other, item)
    }

    /// The most that can be made of an item in all: what is demanded of all that it goes into and what may remain of them at the end,
    /// less their opening stocks.
    pub fn most(&self, item: u32) -> i64 {
        self.most.get(item, 1)
    }
}
