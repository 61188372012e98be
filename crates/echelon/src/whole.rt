// What is asked of an item and of all items that it goes into.
ghost use Rattle.std.specs.Prelude.{◌≡◌, ◌≤◌, ◌*◌, ◌↔◌, ℕ, length, IfOk, IsTrue};
ghost use Rattle.lot_sizing.specs.Problem.{item_at, item_count};
ghost use Rattle.lot_sizing.specs.Plan.{IsFeasible, Plan};
ghost use Rattle.lot_sizing.specs.Echelon.{IsLeadFree, asked_in_echelon, echelon_demand};
ghost use Rattle.lot_sizing.specs.Totals.{AreLargestTotals};
ghost use Rattle.lot_sizing.specs.declared.limits.TheConstants.{MAX_TOTAL};
ghost use Rattle.echelon.specs.Views.{HasEach, IsEchelonWithinBounds, net_of_all};
ghost use Rattle.echelon.specs.Weights.{AreBacks, AsksAs, IsBacklogged, IsEchelonOf, IsExplosionOf, weight_in};
ghost use Rattle.echelon.specs.Balance.{IsBalancedIn};

use crate::{EchelonItem, Explosion};
use lot_model::Instance;
use std::alloc::{AllocError, Global};

// What is asked for of an item and of all items that it goes into, in a period.
fn demand_of(instance: &Instance, explosion: &Explosion, item: u32, period: u32) -> u128
    requires explosion { IsExplosionOf instance.now explosion.now }
    requires low { 1 ≤ item }
    requires high { item ≤ item_count instance.now }
    requires period_low { 1 ≤ period }
    requires period_high { period ≤ instance.now.periods }
    ensures { result ≡ echelon_demand instance.now (weight_in explosion.now) item period }
{
    let mut sum = 0u128;
    for other in 1..instance.items() + 1 {
        let units = u128::from(explosion.weight(item, other));
        sum += units * u128::from(instance.demand(other, period));
    }
    sum
}

// The opening stocks of an item and of all items that it goes into.
fn opening_of(instance: &Instance, explosion: &Explosion, item: u32) -> u128
    requires explosion { IsExplosionOf instance.now explosion.now }
    requires low { 1 ≤ item }
    requires high { item ≤ item_count instance.now }
    ensures { result ≡ (asked_in_echelon instance.now (weight_in explosion.now) item).opening }
{
    let mut sum = 0u128;
    for other in 1..instance.items() + 1 {
        let units = u128::from(explosion.weight(item, other));
        sum += units * u128::from(instance.opening(other));
    }
    sum
}

// The required end stocks of an item and of all items that it goes into.
fn end_min_of(instance: &Instance, explosion: &Explosion, item: u32) -> u128
    requires explosion { IsExplosionOf instance.now explosion.now }
    requires low { 1 ≤ item }
    requires high { item ≤ item_count instance.now }
    ensures { result ≡ (asked_in_echelon instance.now (weight_in explosion.now) item).end_min }
{
    let mut sum = 0u128;
    for other in 1..instance.items() + 1 {
        let units = u128::from(explosion.weight(item, other));
        sum += units * u128::from(instance.end_min(other));
    }
    sum
}

// What is asked for in each period.
fn demands_of(
    alloc: Global,
    instance: &Instance,
    explosion: &Explosion,
    item: u32,
) -> Result<Vec<u128>, AllocError>
    requires explosion { IsExplosionOf instance.now explosion.now }
    requires low { 1 ≤ item }
    requires high { item ≤ item_count instance.now }
    ensures { IfOk result (λ found.
        HasEach instance.now.periods (echelon_demand instance.now (weight_in explosion.now) item)
        found.items) }
{
    let mut list = Vec::with_capacity(alloc, instance.periods() as usize)?;
    for period in 1..instance.periods() + 1 {
        list.push(demand_of(instance, explosion, item, period))?;
    }
    Ok(list)
}

// The weights of an item in each item.
fn weights_of(
    alloc: Global,
    instance: &Instance,
    explosion: &Explosion,
    item: u32,
) -> Result<Vec<u64>, AllocError>
    requires explosion { IsExplosionOf instance.now explosion.now }
    requires low { 1 ≤ item }
    requires high { item ≤ item_count instance.now }
    ensures { IfOk result (λ found.
        HasEach (item_count instance.now) (weight_in explosion.now item) found.items) }
{
    let mut list = Vec::with_capacity(alloc, instance.items() as usize)?;
    for other in 1..instance.items() + 1 {
        list.push(explosion.weight(item, other))?;
    }
    Ok(list)
}

// For each item whether it has a backlog cost.
fn backs_of(alloc: Global, instance: &Instance) -> Result<Vec<bool>, AllocError>
    ensures { IfOk result (λ found. AreBacks instance.now (item_count instance.now) found.items) }
{
    let mut list = Vec::with_capacity(alloc, instance.items() as usize)?;
    for item in 1..instance.items() + 1 {
        list.push(instance.has_backlog_cost(item))?;
    }
    Ok(list)
}

// Whether an item that an item goes into, or the item itself, has a backlog cost.
fn is_backlogged(instance: &Instance, explosion: &Explosion, item: u32) -> bool
    requires explosion { IsExplosionOf instance.now explosion.now }
    requires low { 1 ≤ item }
    requires high { item ≤ item_count instance.now }
    ensures { IsTrue result ↔ IsBacklogged instance.now (weight_in explosion.now) item }
{
    for other in 1..instance.items() + 1 {
        if explosion.weight(item, other) > 0 && instance.has_backlog_cost(other) {
            return true;
        }
    }
    false
}

/// Whether neither an item nor an item that it goes into has a lead time. It takes no memory.
pub fn lead_free(instance: &Instance, explosion: &Explosion, item: u32) -> bool
    requires explosion { IsExplosionOf instance.now explosion.now }
    requires low { 1 ≤ item }
    requires high { item ≤ item_count instance.now }
    ensures { IsTrue result ↔ IsLeadFree instance.now (weight_in explosion.now) item }
{
    for other in 1..instance.items() + 1 {
        if explosion.weight(item, other) > 0 && instance.lead(other) > 0 {
            return false;
        }
    }
    true
}

/// What is asked of a lead-free item and of all items that it goes into, in units of the item. The
/// explosion is that of the instance. The error is that memory ran out.
///
/// In every feasible plan the echelon balances (`balances`), and its net demands add to at most the
/// item's largest total (`net`).
///
/// It takes time in the number of items times that of the periods, and keeps a list of weights and
/// one of backlog marks: make one echelon of an item and use it for all its cuts.
pub fn echelon_of(
    alloc: Global,
    instance: &Instance,
    explosion: &Explosion,
    item: u32,
) -> Result<EchelonItem, AllocError>
    requires explosion { IsExplosionOf instance.now explosion.now }
    requires low { 1 ≤ item }
    requires high { item ≤ item_count instance.now }
    requires lead_free { IsLeadFree instance.now (weight_in explosion.now) item }
    ensures echelon { IfOk result (IsEchelonOf instance.now (weight_in explosion.now) item) }
    ensures asks { IfOk result (AsksAs instance.now (weight_in explosion.now) item) }
    ensures within { IfOk result IsEchelonWithinBounds }
    ensures balances { IfOk result (λ e. (p : Plan) → IsFeasible instance.now p
        → IsBalancedIn instance.now p e) }
    ensures net { IfOk result (λ e. (total : ℕ → ℕ) → AreLargestTotals instance.now total
        → net_of_all e ≤ total item) }
    ensures net_small { IfOk result (λ e. net_of_all e ≤ MAX_TOTAL) }
{
    Ok(EchelonItem {
        item,
        demand: demands_of(alloc, instance, explosion, item)?,
        opening: opening_of(instance, explosion, item),
        end_min: end_min_of(instance, explosion, item),
        weights: weights_of(alloc, instance, explosion, item)?,
        backs: backs_of(alloc, instance)?,
        backlogged: is_backlogged(instance, explosion, item),
    })
}
