// Prices of what is there of the lower items of chains before the first period.
use crate::groups::{self, GroupPlanning};
use crate::lots::Average;
use integer_grids::numbers::of_amount;
use lot_model::Instance;
use node_setups::{Fixed, fixed_setups};
use price_groups::{Grouping, ItemGroup};
use price_items::{DualPrices, Pricing};
use std::alloc::{AllocError, Global};
use work_clock::Deadline;

// A price is halved or not so many times, from the largest one on.
const HALVINGS: u32 = 34;

const MOST_PRICE: u64 = 1 << 36;

// In models with at most so many periods the prices of chains with two such items are found twice.
const FEW_PERIODS: u32 = 24;

// What is given to all prices.
#[derive(Clone, Copy)]
struct Given<'a> {
    alloc: Global,
    instance: &'a Instance,
    fixed: &'a Fixed,
}

// An item at a level of the group at a place of the list.
#[derive(Clone, Copy)]
struct Spot {
    place: usize,
    level: usize,
    item: u32,
}

// The units of an item that are there before the first period.
fn opening_of(instance: &Instance, item: u32) -> i64 {
    if item < 1 || item > instance.items() {
        return 0;
    }
    of_amount(instance.opening(item))
}

// The group at a place of the list.
fn group_at(grouping: &Grouping, place: usize) -> Option<ItemGroup> {
    match grouping.groups().get(place) {
        Some(group) => Some(*group),
        None => None,
    }
}

// What a group takes at a price of the stock that is there of an item.
fn used_at(
    given: Given<'_>,
    planning: &mut GroupPlanning,
    grouping: &mut Grouping,
    spot: Spot,
    price: u64,
    plan: &mut Average,
) -> Result<i64, AllocError> {
    grouping.set_opening_price(spot.item, price);
    let Some(group) = group_at(grouping, spot.place) else {
        return Ok(0);
    };
    let given = groups::Given {
        alloc: given.alloc,
        instance: given.instance,
        grouping,
        fixed: given.fixed,
    };
    planning.used_of(given, &group, spot.level, plan)
}

// Finds the price at which a group takes as much of the stock that is there as there is: where it takes more, the price is too low.
fn tune_item(
    given: Given<'_>,
    planning: &mut GroupPlanning,
    grouping: &mut Grouping,
    spot: Spot,
    plan: &mut Average,
) -> Result<(), AllocError> {
    let there = opening_of(given.instance, spot.item);
    if there <= 0 {
        return Ok(());
    }
    let mut low = 0u64;
    let mut step = MOST_PRICE;
    for _halving in 0..HALVINGS {
        step /= 2;
        let price = low.saturating_add(step);
        if used_at(given, planning, grouping, spot, price, plan)? > there {
            low = price;
        }
    }
    grouping.set_opening_price(spot.item, low);
    Ok(())
}

// Finds the prices at which the lower items of a group take as much of the stock that is there as there is.
fn tune_group(
    given: Given<'_>,
    planning: &mut GroupPlanning,
    grouping: &mut Grouping,
    place: usize,
    plan: &mut Average,
) -> Result<(), AllocError> {
    let spot = |level: usize, item: u32| Spot { place, level, item };
    match group_at(grouping, place) {
        Some(ItemGroup::Pair { low, .. }) => {
            tune_item(given, planning, grouping, spot(0, low.item), plan)
        }
        Some(ItemGroup::Triple { low, mid, .. }) => {
            tune_item(given, planning, grouping, spot(0, low.item), plan)?;
            tune_item(given, planning, grouping, spot(1, mid.item), plan)?;
            if given.instance.periods() <= FEW_PERIODS {
                tune_item(given, planning, grouping, spot(0, low.item), plan)?;
                tune_item(given, planning, grouping, spot(1, mid.item), plan)?;
            }
            Ok(())
        }
        _ => Ok(()),
    }
}

/// Prices of what is there of the lower items of chains before the first period are found, at which the chains take as much of it as there
/// is; at these prices of capacity and stock. Where items are planned by themselves there is nothing to find.
///
/// It ends early, with the prices that are there, once the time is past. The error is that memory ran out. It takes time in the
/// number of chains, for each of which up to some hundred plans are made.
pub fn tune_openings(
    alloc: Global,
    instance: &Instance,
    pricing: &mut Pricing,
    prices: &DualPrices,
    until: Deadline,
) -> Result<(), AllocError> {
    let Some(grouping) = pricing.grouping_mut() else {
        return Ok(());
    };
    let fixed = fixed_setups(alloc, instance, &[])?;
    let given = Given {
        alloc,
        instance,
        fixed: &fixed,
    };
    let mut planning = GroupPlanning::new(alloc, instance)?;
    let mut plan = Average::zero(alloc, instance.items(), instance.periods())?;
    planning.write_costs(instance, prices);
    for place in 0..grouping.groups().len() {
        if until.is_past() {
            break;
        }
        tune_group(given, &mut planning, grouping, place, &mut plan)?;
    }
    Ok(())
}
