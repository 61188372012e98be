// An item of an instance by itself.
ghost use Rattle.std.specs.Prelude.{◌≡◌, ◌≤◌, ◌+◌, IfOk, IfSome, option_map};
ghost use Rattle.lot_sizing.specs.Problem.{IsUncoupled, item_at, item_count};
ghost use Rattle.lot_sizing.specs.Single.{IsWithinBounds};
ghost use Rattle.lot_sizing.specs.Net.{IsSingleOf};
ghost use Rattle.echelon.specs.Views.{single_in, single_of_item};

use crate::net::net_of_demand;
use crate::{Net, SingleItem};
use lot_model::Instance;
use std::alloc::{AllocError, Global};

// The costs of owing one unit, by period, and 0 where there are none.
fn owing_costs(alloc: Global, instance: &Instance, item: u32) -> Result<Vec<u64>, AllocError>
    requires low { 1 ≤ item }
    requires high { item ≤ item_count instance.now }
    ensures { IfOk result (λ found.
        IfSome (item_at instance.now item).backlog_cost (λ costs. found.items ≡ costs)) }
{
    let mut list = Vec::new(alloc);
    for period in 1..instance.periods() + 1 {
        list.push(instance.backlog_cost(item, period).unwrap_or(0))?;
    }
    Ok(list)
}

// The costs of owing one unit, by period; none where no backlog is allowed.
fn backlog_costs(
    alloc: Global,
    instance: &Instance,
    item: u32,
) -> Result<Option<Vec<u64>>, AllocError>
    requires low { 1 ≤ item }
    requires high { item ≤ item_count instance.now }
    ensures { IfOk result (λ found. option_map (λ v. v.items) found
        ≡ (item_at instance.now item).backlog_cost) }
{
    if !instance.has_backlog_cost(item) {
        return Ok(None);
    }
    Ok(Some(owing_costs(alloc, instance, item)?))
}

/// An item by itself: what remains to be made of it once its opening stock is used up, and its costs.
///
/// The error is that memory ran out.
pub fn single_of(alloc: Global, instance: &Instance, item: u32) -> Result<SingleItem, AllocError>
    requires low { 1 ≤ item }
    requires high { item ≤ item_count instance.now }
    requires uncoupled { IsUncoupled instance.now }
    ensures single { IfOk result (λ found. single_of_item found ≡ single_in instance.now item) }
    ensures of_item { IfOk result (λ found. IsSingleOf instance.now item (single_of_item found)) }
    ensures within { IfOk result (λ found. IsWithinBounds (single_of_item found)) }
{
    let mut demands = Vec::with_capacity(alloc, instance.periods() as usize)?;
    for demand in instance.demands(item) {
        demands.push(u128::from(*demand))?;
    }
    let opening = u128::from(instance.opening(item));
    let end_min = u128::from(instance.end_min(item));
    let Net { net, left: _ } = net_of_demand(alloc, &demands, opening, end_min)?;
    Ok(SingleItem {
        net,
        setup: instance.setup_costs(item).to_vec(alloc)?,
        unit: instance.unit_costs(item).to_vec(alloc)?,
        hold: instance.hold_costs(item).to_vec(alloc)?,
        back: backlog_costs(alloc, instance, item)?,
    })
}
