// What the shares of late groups and late quantities charge on backlogs, and whether the reduced costs of the backlogs
// pay for it.
ghost use Rattle.std.specs.Prelude.{◌≡◌, ℕ, ◌≤◌, IfErr, IfOk, IsTrue, MatchOption, length, map};
ghost use Rattle.lot_sizing.specs.Problem.{entry, item_count};
ghost use Rattle.late_starts.specs.Rows.{HaveCells, IsOnTimeOf, rows_of};
ghost use Rattle.reduced_groups.specs.Apart.{AreCharged, LieApart, share_in, share_of, times_in};
ghost use Rattle.reduced_groups.specs.Levels.{HasSeries};
ghost use Rattle.reduced_groups.specs.Floors.{WhateverIsKnown, shape_of};
ghost use Rattle.reduced_leaf.specs.Faults.{AreSumsWithin};
ghost use Rattle.reduced_leaf.specs.Found.{ArePaidOf, ArePaidTo, HasShares, HaveSeries, IsFirstOverOf, IsOverAs, StopsBy, left_price};

use crate::prices::price_of;
use crate::sums::ReducedFault;
use item_groups::{Group, Shares};
use late_starts::{OnTime, charges, charges_cover, on_time_is_one};
use lin_rows::{Column, Sums};
use lot_model::{Instance, an_instance_breaks_no_rule};
use std::alloc::{AllocError, Global};

// What units of an item that fall short cost in a group, where it has shares of the item.
fn shares_of(group: &Group, item: u32) -> Option<&Shares>
    ensures { MatchOption result ((t : ℕ) → share_of (shape_of group.now) item t ≡ 0)
        (λ shares. HasShares (shape_of group.now) item shares.now) }
{
    match group {
        Group::Late { item: own, shares } | Group::LateQuantities { item: own, shares } => {
            if *own == item { Some(shares) } else { None }
        }
        Group::Item { .. } | Group::Quantities { .. } | Group::Pair { .. } | Group::Triple { .. } =>
            None,
    }
}

// And in groups of which one at most has the item.
fn find_shares(groups: &[Group], item: u32) -> Option<&Shares>
    requires once { times_in (map shape_of groups.now) item ≤ 1 }
    ensures { MatchOption result ((t : ℕ) → share_in (map shape_of groups.now) item t ≡ 0)
        (λ shares. (t : ℕ) → share_in (map shape_of groups.now) item t
        ≡ entry shares.now t) }
{
    for group in groups {
        if let Some(shares) = shares_of(group, item) {
            return Some(shares);
        }
    }
    None
}

// Whether no share is more than 0.
fn are_zero(shares: &Shares) -> bool
    ensures { IsTrue result → (t : ℕ) → entry shares.now t ≡ 0 }
{
    shares.as_slice().iter().all(|share| *share == 0)
}

// Whether a group has no share that is more than 0.
fn is_free(group: &Group) -> bool
    ensures { IsTrue result → (i t : ℕ) → share_of (shape_of group.now) i t ≡ 0 }
{
    match group {
        Group::Late { shares, .. } | Group::LateQuantities { shares, .. } => are_zero(shares),
        Group::Item { .. } | Group::Quantities { .. } | Group::Pair { .. } | Group::Triple { .. } =>
            true,
    }
}

// And whether none of all groups has.
fn are_free(groups: &[Group]) -> bool
    ensures { IsTrue result → (i t : ℕ) → share_in (map shape_of groups.now) i t ≡ 0 }
{
    for group in groups {
        if !is_free(group) {
            return false;
        }
    }
    true
}

// These shares, one for each period.
fn row_of(alloc: Global, instance: &Instance, shares: &Shares) -> Result<Vec<u128>, AllocError>
    ensures { IfOk result
        (λ row. HasSeries instance.now.periods (entry shares.now) row.items) }
{
    an_instance_breaks_no_rule(instance);
    let mut row = Vec::with_capacity(alloc, instance.periods() as usize)?;
    for period in 1..instance.periods() + 1 {
        row.push(u128::from(shares.of(period)))?;
    }
    Ok(row)
}

// Nothing for each period.
fn free_row(alloc: Global, instance: &Instance) -> Result<Vec<u128>, AllocError>
    ensures { IfOk result (λ row. HasSeries instance.now.periods (λ t. 0) row.items) }
{
    vec![in alloc; 0u128; instance.periods() as usize]
}

// The shares of an item in groups of which one at most has it, one for each period.
fn row_in(
    alloc: Global,
    instance: &Instance,
    groups: &[Group],
    item: u32,
) -> Result<Vec<u128>, AllocError>
    requires once { times_in (map shape_of groups.now) item ≤ 1 }
    ensures { IfOk result (λ row. HasSeries instance.now.periods
        (share_in (map shape_of groups.now) item) row.items) }
{
    match find_shares(groups, item) {
        Some(shares) => row_of(alloc, instance, shares),
        None => free_row(alloc, instance),
    }
}

// The shares of all items, in groups that lie apart.
fn rows_in(
    alloc: Global,
    instance: &Instance,
    groups: &[Group],
) -> Result<Vec<Vec<u128>>, AllocError>
    requires apart { LieApart instance.now (map shape_of groups.now) }
    ensures { IfOk result (λ rows. HaveSeries (item_count instance.now) instance.now.periods
        (share_in (map shape_of groups.now)) (map (λ v. v.items) rows.items)) }
{
    an_instance_breaks_no_rule(instance);
    let mut rows = Vec::with_capacity(alloc, instance.items() as usize)?;
    for item in 1..instance.items() + 1 {
        rows.push(row_in(alloc, instance, groups, item)?)?;
    }
    Ok(rows)
}

// The first period in which more is charged on the backlog of an item than its reduced cost.
fn first_over(instance: &Instance, sums: &Sums, den: u64, row: &[u128], item: u32) -> Option<u32>
    requires costs { AreSumsWithin instance.now sums.now den }
    requires low { 1 ≤ item }
    requires high { item ≤ item_count instance.now }
    requires row { length row.now ≡ instance.now.periods }
    ensures { MatchOption result (ArePaidOf instance.now sums.now den item row.now)
        (IsFirstOverOf instance.now sums.now den item row.now) }
{
    if !instance.has_backlog_cost(item) {
        return None;
    }
    for period in 1..instance.periods() {
        let price = price_of(instance, sums, den, Column::R { item, period });
        if row[(period - 1) as usize] > price {
            return Some(period);
        }
    }
    None
}

// Whether no charge is above the reduced cost of its backlog. The error is the first one that is.
fn pay(instance: &Instance, sums: &Sums, den: u64, rows: &[Vec<u128>]) -> Result<(), ReducedFault>
    requires costs { AreSumsWithin instance.now sums.now den }
    requires rows { HaveCells instance.now (rows_of rows.now) }
    ensures paid { IfOk result (λ _. ArePaidTo instance.now sums.now den
        (rows_of rows.now) (item_count instance.now)) }
    ensures fault { IfErr result (IsOverAs instance.now sums.now den (rows_of rows.now)) }
{
    for item in 1..instance.items() + 1 {
        let row: &[u128] = &rows[(item - 1) as usize];
        if let Some(period) = first_over(instance, sums, den, row, item) {
            return Err(ReducedFault::Charge { item, period });
        }
    }
    Ok(())
}

/// Whether what falls short at the shares of groups that lie apart charges no more on any backlog than its reduced cost.
/// The errors are the first backlog on which it does, and that memory ran out. Where no share is more than 0 nothing is
/// computed.
pub(crate) fn pay_shares(
    alloc: Global,
    instance: &Instance,
    sums: &Sums,
    den: u64,
    on_time: &OnTime,
    groups: &[Group],
) -> Result<(), ReducedFault>
    requires costs { AreSumsWithin instance.now sums.now den }
    requires on_time { IsOnTimeOf instance.now on_time.now }
    requires apart { LieApart instance.now (map shape_of groups.now) }
    ensures charged { IfOk result (λ _. WhateverIsKnown instance.now (λ known.
        AreCharged instance.now known (left_price instance.now sums.now den)
        (map shape_of groups.now))) }
    ensures fault { IfErr result (λ fault. WhateverIsKnown instance.now
        (StopsBy instance.now (left_price instance.now sums.now den)
        (map shape_of groups.now) fault)) }
{
    charges_cover();
    on_time_is_one();
    an_instance_breaks_no_rule(instance);
    if are_free(groups) {
        return Ok(());
    }
    let shares = rows_in(alloc, instance, groups)?;
    let rows = charges(alloc, instance, on_time, &shares)?;
    pay(instance, sums, den, &rows)
}
