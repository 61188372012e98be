// The sum of rows and groups.
ghost use Rattle.std.specs.Prelude.{map, IfErr, IfOk, MatchOption};
ghost use Rattle.std.specs.List.{All};
ghost use Rattle.reduced_groups.specs.Apart.{AreCharged, LieApart};
ghost use Rattle.reduced_groups.specs.Floors.{IsWithinWork, WhateverIsKnown, shape_of};
ghost use Rattle.reduced_leaf.specs.Leaf.{IsAnswerOf};
ghost use Rattle.reduced_leaf.specs.Faults.{AreSumsWithin, IsReducedFaultOf, OfSums};
ghost use Rattle.reduced_leaf.specs.Found.{IsAnswerFrom, IsFaultFrom, IsSumOfFloors, IsSumWith, PassesSum, StopsBy, left_price};

use crate::charges::pay_shares;
use crate::floors::floors_of;
use crate::laws::known_exists;
use crate::prices::prices_of;
use item_groups::Group;
use late_starts::{OnTime, charges_cover};
use lin_rows::Sums;
use lot_model::{Instance, an_instance_breaks_no_rule};
use must_start::MustStart;
use reduced_groups::{Floor, GroupFault, find_group_fault, numbers_are_one};
use std::alloc::{AllocError, Global};
use thiserror::Error;

/// What rows and groups of items add to.
#[derive(Clone, Copy, Debug, PartialEq, Eq)]
pub enum ReducedSum {
    /// `den` times the cost of a feasible plan, at which the rows hold, is at least this.
    Sum(i128),
    /// A group has no choice, so no plan is feasible.
    NoChoice,
}

/// Why rows and groups have no sum.
#[derive(Clone, Copy, Debug, PartialEq, Eq, Error)]
pub enum ReducedFault {
    /// The group at this place, counted from 0, is the first that is none of the model.
    #[error("group {0} is none of the model")]
    Group(usize),
    /// This item is the first in more than one place of the groups.
    #[error("item {0} is in more than one group")]
    Twice(u32),
    /// What falls short at the shares of late groups and late quantities charges more on the backlog of this item at the
    /// end of this period than its reduced cost. It is the first one by item and then by period.
    #[error("more is charged on the backlog of item {item} in period {period} than it costs")]
    Charge {
        /// The item, counted from 1.
        item: u32,
        /// The period, counted from 1.
        period: u32,
    },
    /// The group at this place, counted from 0, is the first that takes too much work or has numbers that are too large.
    #[error("group {0} is past the limits")]
    Work(usize),
    /// The numbers of the groups, or the sum, reach 2^127.
    #[error("the numbers reach 2^127")]
    TooLarge,
    /// Memory ran out.
    #[error("out of memory")]
    Memory,
}

impl From<AllocError> for ReducedFault {
    ghost use Rattle.std.specs.Prelude.{◌≡◌};
    ghost use Rattle.reduced_leaf.specs.declared.sums.ReducedFault.TheVariants.{Memory};

    ghost from_gives = { λ _ e. e ≡ Memory };

    fn from(_: AllocError) -> ReducedFault {
        ReducedFault::Memory
    }
}

// The fault of groups that don't lie apart.
fn fault_of(fault: GroupFault) -> ReducedFault
    ensures { IsFaultFrom fault result }
{
    match fault {
        GroupFault::Group(place) => ReducedFault::Group(place),
        GroupFault::Twice(item) => ReducedFault::Twice(item),
    }
}

// The right sides and the numbers of groups, added.
fn sum_with(right: i128, amount: u128) -> Option<i128>
    ensures { MatchOption result (PassesSum right amount) (IsSumWith right amount) }
{
    if amount > i128::MAX as u128 {
        return None;
    }
    right.checked_add(amount as i128)
}

// The answer that the right sides and the numbers of groups give.
fn answer_of(right: i128, floor: Floor) -> Result<ReducedSum, ReducedFault>
    ensures { IsAnswerFrom right floor result }
{
    match floor {
        Floor::NoChoice => Ok(ReducedSum::NoChoice),
        Floor::Least(amount) => match sum_with(right, amount) {
            Some(sum) => Ok(ReducedSum::Sum(sum)),
            None => Err(ReducedFault::TooLarge),
        },
    }
}

// The numbers of groups that lie apart, added, at the reduced costs, where these pay for their shares. Without groups
// nothing is computed.
fn floors_at(
    alloc: Global,
    instance: &Instance,
    sums: &Sums,
    den: u64,
    groups: &[Group],
) -> Result<Floor, ReducedFault>
    requires costs { AreSumsWithin instance.now sums.now den }
    requires apart { LieApart instance.now (map shape_of groups.now) }
    ensures floor { IfOk result
        (IsSumOfFloors instance.now (left_price instance.now sums.now den)
        (map shape_of groups.now)) }
    ensures within { IfOk result (λ _. WhateverIsKnown instance.now (λ known.
        All (IsWithinWork instance.now known.start known.on_time
        (left_price instance.now sums.now den)) (map shape_of groups.now))) }
    ensures charged { IfOk result (λ _. WhateverIsKnown instance.now (λ known.
        AreCharged instance.now known (left_price instance.now sums.now den)
        (map shape_of groups.now))) }
    ensures fault { IfErr result (λ fault. WhateverIsKnown instance.now
        (StopsBy instance.now (left_price instance.now sums.now den)
        (map shape_of groups.now) fault)) }
{
    numbers_are_one();
    charges_cover();
    an_instance_breaks_no_rule(instance);
    if groups.is_empty() {
        return Ok(Floor::Least(0));
    }
    let on_time = OnTime::of(alloc, instance)?;
    pay_shares(alloc, instance, sums, den, &on_time, groups)?;
    let started = MustStart::of(alloc, instance)?;
    let prices = prices_of(alloc, instance, sums, den)?;
    floors_of(alloc, instance, &started, &on_time, &prices, groups)
}

// The sum of rows and of groups that lie apart.
fn sum_apart(
    alloc: Global,
    instance: &Instance,
    sums: &Sums,
    den: u64,
    groups: &[Group],
) -> Result<ReducedSum, ReducedFault>
    requires costs { AreSumsWithin instance.now sums.now den }
    requires apart { LieApart instance.now (map shape_of groups.now) }
    ensures answer { IfOk result (λ answer. OfSums instance.now sums.now (λ total rows times.
        IsAnswerOf instance.now total rows times den (map shape_of groups.now) answer)) }
    ensures fault { IfErr result (λ fault. OfSums instance.now sums.now (λ total rows times.
        IsReducedFaultOf instance.now total rows times den groups.now fault)) }
{
    known_exists();
    an_instance_breaks_no_rule(instance);
    match floors_at(alloc, instance, sums, den, groups) {
        Ok(floor) => answer_of(sums.right(), floor),
        Err(fault) => Err(fault),
    }
}

/// The right sides of rows and the numbers of groups, added: by the sums of the columns and of the right sides, none of
/// which takes a column more often than `den` times its cost. `den` times the cost of each feasible plan at which the
/// rows hold is at least as much (`reduced_sum_bounds`), in the unit of the columns' costs.
///
/// The errors are, in this order: the first group that is none of the model, the first item in two places, shares that
/// charge more on a backlog than its reduced cost, the first group whose work is past the limits, and a sum that is too
/// large; and that memory ran out. A group without a choice counts only where no group is refused.
///
/// Without groups it takes no time; with them, time in the number of periods times lines of components, and that of
/// `group_floor` for each group; where shares are more than 0, also in the number of periods times pairs of items, and
/// in that of items times groups.
pub fn reduced_sum(
    alloc: Global,
    instance: &Instance,
    sums: &Sums,
    den: u64,
    groups: &[Group],
) -> Result<ReducedSum, ReducedFault>
    requires costs { AreSumsWithin instance.now sums.now den }
    ensures answer { IfOk result (λ answer. OfSums instance.now sums.now (λ total rows times.
        IsAnswerOf instance.now total rows times den (map shape_of groups.now) answer)) }
    ensures fault { IfErr result (λ fault. OfSums instance.now sums.now (λ total rows times.
        IsReducedFaultOf instance.now total rows times den groups.now fault)) }
{
    match find_group_fault(instance, groups) {
        Some(fault) => Err(fault_of(fault)),
        None => sum_apart(alloc, instance, sums, den, groups),
    }
}
