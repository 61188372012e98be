// The numbers of items that may fall short of what is on time of them.
ghost use Rattle.std.specs.Prelude.{◌≡◌, ◌≤◌, ◌-◌, IfOk};
ghost use Rattle.lot_sizing.specs.Problem.{item_at, item_count};
ghost use Rattle.late_starts.specs.Rows.{IsOnTimeOf};
ghost use Rattle.must_start.specs.Rows.{row_in, start_in};
ghost use Rattle.reduced_groups.specs.declared.floors.Floor.TheVariants.{Least};
ghost use Rattle.reduced_groups.specs.Groups.{LateGroup};
ghost use Rattle.reduced_groups.specs.Floors.{AreLateLotsFor, IsFloorOf};
ghost use Rattle.reduced_groups.specs.Prices.{AreSmall, ArePricesFor, price_in};

use crate::prices::GroupPrices;
use item_groups::Shares;
use late_starts::{LateLot, OnTime, least_late_price, on_time_is_one};
use lot_model::{Instance, an_instance_breaks_no_rule};
use std::alloc::{AllocError, Global};

// The late lots of an item: its prices, what is on time of it, and what a unit costs that falls short by the end of
// each period.
fn late_lots_of_item(
    alloc: Global,
    instance: &Instance,
    on_time: &OnTime,
    prices: &GroupPrices,
    item: u32,
    shares: &Shares,
) -> Result<Vec<LateLot>, AllocError>
    requires on_time { IsOnTimeOf instance.now on_time.now }
    requires prices { ArePricesFor instance.now prices.now }
    requires low { 1 ≤ item }
    requires high { item ≤ item_count instance.now }
    ensures { IfOk result (λ lots. AreLateLotsFor (start_in on_time.now)
        (price_in prices.now) item shares.now instance.now.periods lots.items) }
{
    let setups = prices.setups(item);
    let units = prices.units(item);
    let mut lots = Vec::with_capacity(alloc, instance.periods() as usize)?;
    for period in 1..instance.periods() + 1 {
        lots.push(LateLot {
            setup: setups[(period - 1) as usize],
            unit: units[(period - 1) as usize],
            share: u128::from(shares.of(period)),
            need: on_time.by_end(item, period),
        })?;
    }
    Ok(lots)
}

/// The first period whose lots arrive in the last one or later, and 0 where the lead time is as long as all periods.
pub(crate) fn settled_from(instance: &Instance, item: u32) -> u32
    requires low { 1 ≤ item }
    requires high { item ≤ item_count instance.now }
    ensures value { result ≡ instance.now.periods - (item_at instance.now item).lead }
    ensures high { result ≤ instance.now.periods }
{
    instance.periods().saturating_sub(instance.lead(item))
}

/// The least that setups, quantities and shortfalls of an item cost that keep what is on time of it, where a unit that
/// falls short by the end of a period costs the share of the period. The error is that memory ran out.
pub(crate) fn late_floor(
    alloc: Global,
    instance: &Instance,
    on_time: &OnTime,
    prices: &GroupPrices,
    item: u32,
    shares: &Shares,
) -> Result<u128, AllocError>
    requires on_time { IsOnTimeOf instance.now on_time.now }
    requires prices { ArePricesFor instance.now prices.now }
    requires low { 1 ≤ item }
    requires high { item ≤ item_count instance.now }
    requires setups { AreSmall (row_in prices.now.setups item) }
    requires units { AreSmall (row_in prices.now.units item) }
    ensures { IfOk result (λ cost.
        IsFloorOf instance.now prices.now (LateGroup item shares.now) (Least cost)) }
{
    on_time_is_one();
    an_instance_breaks_no_rule(instance);
    let lots = late_lots_of_item(alloc, instance, on_time, prices, item, shares)?;
    least_late_price(alloc, &lots, settled_from(instance, item))
}
