// Whether groups lie apart.
ghost use Rattle.std.specs.Prelude.{◌≡◌, ◌↔◌, ◌≤◌, IsTrue, MatchOption, length, map};
ghost use Rattle.lot_sizing.specs.Problem.{item_count};
ghost use Rattle.lot_sizing.specs.Bill.{one_if_same};
ghost use Rattle.reduced_groups.specs.Apart.{IsGroupOf, IsItem, LieApart, items_in, times_in, times_of};
ghost use Rattle.reduced_groups.specs.Floors.{AreGroupsOf, AreOnceTo, GoesInto, IsFirstOther, IsFirstTwice, IsGroupFaultOf, shape_of};

use item_groups::{ChainLink, Group, Shares};
use lot_model::Instance;

/// What is wrong with a list of groups.
#[derive(Clone, Copy, Debug, PartialEq, Eq)]
pub enum GroupFault {
    /// The group at this place, counted from 0, is the first with an item that the model hasn't, with one in a chain
    /// that doesn't go into the next one, or whose shares are not one for each period.
    Group(usize),
    /// This item is the first that is in more than one place of the groups.
    Twice(u32),
}

// Whether the model has an item.
fn is_item(instance: &Instance, item: u32) -> bool
    ensures { IsTrue result ↔ IsItem instance.now item }
{
    1 <= item && item <= instance.items()
}

// Whether an item of the model is never late and goes into another one.
fn goes_into(instance: &Instance, item: u32, next: u32) -> bool
    requires item { IsItem instance.now item }
    requires next { IsItem instance.now next }
    ensures { IsTrue result ↔ GoesInto instance.now item next }
{
    !instance.has_backlog_cost(item) && instance.per_unit(item, next) >= 1
}

// Whether two items of a chain are in the model, and the first goes into the second.
fn is_pair(instance: &Instance, low: &ChainLink, next: &ChainLink) -> bool
    ensures { IsTrue result ↔ (IsItem instance.now low.now.item × IsItem instance.now next.now.item
        × GoesInto instance.now low.now.item next.now.item) }
{
    if !is_item(instance, low.item) || !is_item(instance, next.item) {
        return false;
    }
    goes_into(instance, low.item, next.item)
}

// Whether an item is in the model, and there is a share for each period.
fn is_shared(instance: &Instance, item: u32, shares: &Shares) -> bool
    ensures { IsTrue result ↔ (IsItem instance.now item
        × (length shares.now ≡ instance.now.periods)) }
{
    is_item(instance, item) && shares.len() == instance.periods() as usize
}

/// Whether a group has items of the model, of which those in a chain are never late and go into the next one, and a
/// share for each period where its item may fall short.
pub fn is_group(instance: &Instance, group: &Group) -> bool
    ensures { IsTrue result ↔ IsGroupOf instance.now (shape_of group.now) }
{
    match group {
        Group::Item { item } => is_item(instance, *item),
        Group::Late { item, shares } => is_shared(instance, *item, shares),
        Group::Quantities { item } => is_item(instance, *item),
        Group::LateQuantities { item, shares } => is_shared(instance, *item, shares),
        Group::Pair { low, top } => is_pair(instance, low, top),
        Group::Triple { low, mid, top } => {
            is_pair(instance, low, mid) && is_pair(instance, mid, top)
        }
    }
}

// 1 where the items are the same.
fn one_if_same(one: u32, other: u32) -> u128
    ensures { result ≡ one_if_same one other }
{
    if one == other { 1 } else { 0 }
}

// In how many places of a group an item is.
fn times_in_group(group: &Group, item: u32) -> u128
    ensures value { result ≡ times_of (items_in (shape_of group.now)) item }
    ensures small { result ≤ 3 }
{
    match group {
        Group::Item { item: own } => one_if_same(*own, item),
        Group::Late { item: own, .. } => one_if_same(*own, item),
        Group::Quantities { item: own } => one_if_same(*own, item),
        Group::LateQuantities { item: own, .. } => one_if_same(*own, item),
        Group::Pair { low, top } => one_if_same(low.item, item) + one_if_same(top.item, item),
        Group::Triple { low, mid, top } => {
            one_if_same(low.item, item) + one_if_same(mid.item, item) + one_if_same(top.item, item)
        }
    }
}

// In how many places of groups an item is.
fn times_in(groups: &[Group], item: u32) -> u128
    ensures { result ≡ times_in (map shape_of groups.now) item }
{
    let mut times = 0;
    for group in groups {
        times += times_in_group(group, item);
    }
    times
}

// The first group with an item that the model hasn't, whose items don't go into each other, or whose shares are not
// one for each period.
fn first_other(instance: &Instance, groups: &[Group]) -> Option<usize>
    ensures { MatchOption result (AreGroupsOf instance.now groups.now)
        (IsFirstOther instance.now groups.now) }
{
    for place in 0..groups.len() {
        if !is_group(instance, &groups[place]) {
            return Some(place);
        }
    }
    None
}

// The first item that is in more than one place.
fn first_twice(instance: &Instance, groups: &[Group]) -> Option<u32>
    ensures { MatchOption result (AreOnceTo (item_count instance.now) (map shape_of groups.now))
        (IsFirstTwice instance.now (map shape_of groups.now)) }
{
    for item in 1..instance.items() + 1 {
        if times_in(groups, item) > 1 {
            return Some(item);
        }
    }
    None
}

/// What is wrong with a list of groups, and none exactly where each has items of the model, those of a chain go into
/// each other, those that may fall short have a share for each period, and no item is in two places. Groups come before
/// items. It takes no memory, and time in the number of items times that of groups.
pub fn find_group_fault(instance: &Instance, groups: &[Group]) -> Option<GroupFault>
    ensures { MatchOption result (LieApart instance.now (map shape_of groups.now))
        (IsGroupFaultOf instance.now groups.now) }
{
    match first_other(instance, groups) {
        Some(place) => Some(GroupFault::Group(place)),
        None => match first_twice(instance, groups) {
            Some(item) => Some(GroupFault::Twice(item)),
            None => None,
        },
    }
}
