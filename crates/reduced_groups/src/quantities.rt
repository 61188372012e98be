// The numbers of items in whole quantities.
ghost use Rattle.std.specs.Prelude.{◌≤◌, ◌-◌, IfErr, IfOk};
ghost use Rattle.lot_sizing.specs.Problem.{entry, item_count};
ghost use Rattle.late_starts.specs.Rows.{IsOnTimeOf};
ghost use Rattle.must_start.specs.Rows.{IsMustStartOf, row_in, start_in};
ghost use Rattle.quantity_dp.specs.Limits.{IsWithinLimits};
ghost use Rattle.reduced_groups.specs.Groups.{LateQuantityGroup, QuantityGroup};
ghost use Rattle.reduced_groups.specs.Floors.{AreLotsFor, HasFewEntries, IsFloorFaultOf, IsFloorOf, IsFoundOf, IsLotFor, IsLotsFault, settled_start};
ghost use Rattle.reduced_groups.specs.Prices.{AreSmall, ArePricesFor, price_in};

use crate::floors::{Floor, FloorFault};
use crate::given::Given;
use crate::late::settled_from;
use item_groups::Shares;
use late_starts::on_time_is_one;
use lot_model::an_instance_breaks_no_rule;
use must_start::{largest_lot, lots_hold, must_start_holds};
use quantity_dp::{LotPeriod, find_fault, least_price};
use std::alloc::{AllocError, Global};

// The lot of an item in a period: its prices, what must have been started of it, and its largest lot.
fn lot_of(given: Given<'_>, item: u32, period: u32) -> LotPeriod
    requires started { IsMustStartOf given.instance.now given.started.now }
    requires prices { ArePricesFor given.instance.now given.prices.now }
    requires low { 1 ≤ item }
    requires high { item ≤ item_count given.instance.now }
    requires period_low { 1 ≤ period }
    requires period_high { period ≤ given.instance.now.periods }
    ensures { IsLotFor given.entry.instance.now (start_in given.entry.started.now item period) 0 0
        (price_in given.entry.prices.now) item period result }
{
    LotPeriod {
        setup: given.prices.setups(item)[(period - 1) as usize],
        unit: given.prices.units(item)[(period - 1) as usize],
        need: given.started.by_end(item, period),
        asked: 0,
        share: 0,
        largest: largest_lot(given.instance, item, period),
    }
}

// The same where what is on time is asked, and a unit that falls short costs its share. Lots that arrive in the last
// period or later may not fall short.
fn short_lot_of(given: Given<'_>, item: u32, shares: &Shares, period: u32) -> LotPeriod
    requires started { IsMustStartOf given.instance.now given.started.now }
    requires on_time { IsOnTimeOf given.instance.now given.on_time.now }
    requires prices { ArePricesFor given.instance.now given.prices.now }
    requires low { 1 ≤ item }
    requires high { item ≤ item_count given.instance.now }
    requires period_low { 1 ≤ period }
    requires period_high { period ≤ given.instance.now.periods }
    ensures { IsLotFor given.entry.instance.now
        (settled_start given.entry.instance.now (start_in given.entry.started.now)
        (start_in given.entry.on_time.now) item period)
        (start_in given.entry.on_time.now item period) (entry shares.now period)
        (price_in given.entry.prices.now) item period result }
{
    let lot = lot_of(given, item, period);
    let asked = given.on_time.by_end(item, period);
    let need = if settled_from(given.instance, item) <= period {
        asked
    } else {
        lot.need
    };
    LotPeriod {
        need,
        asked,
        share: u128::from(shares.of(period)),
        ..lot
    }
}

// The lots of an item, period by period.
fn lots_of_item(alloc: Global, given: Given<'_>, item: u32) -> Result<Vec<LotPeriod>, AllocError>
    requires started { IsMustStartOf given.instance.now given.started.now }
    requires prices { ArePricesFor given.instance.now given.prices.now }
    requires low { 1 ≤ item }
    requires high { item ≤ item_count given.instance.now }
    ensures { IfOk result (λ lots. AreLotsFor given.entry.instance.now
        (start_in given.entry.started.now item) (λ t. 0) (λ t. 0)
        (price_in given.entry.prices.now) item given.entry.instance.now.periods lots.items) }
{
    let mut lots = Vec::with_capacity(alloc, given.instance.periods() as usize)?;
    for period in 1..given.instance.periods() + 1 {
        lots.push(lot_of(given, item, period))?;
    }
    Ok(lots)
}

// The lots of an item that may fall short, period by period.
fn short_lots_of_item(
    alloc: Global,
    given: Given<'_>,
    item: u32,
    shares: &Shares,
) -> Result<Vec<LotPeriod>, AllocError>
    requires started { IsMustStartOf given.instance.now given.started.now }
    requires on_time { IsOnTimeOf given.instance.now given.on_time.now }
    requires prices { ArePricesFor given.instance.now given.prices.now }
    requires low { 1 ≤ item }
    requires high { item ≤ item_count given.instance.now }
    ensures { IfOk result (λ lots. AreLotsFor given.entry.instance.now
        (settled_start given.entry.instance.now (start_in given.entry.started.now)
        (start_in given.entry.on_time.now) item)
        (start_in given.entry.on_time.now item) (entry shares.now)
        (price_in given.entry.prices.now) item given.entry.instance.now.periods lots.items) }
{
    let mut lots = Vec::with_capacity(alloc, given.instance.periods() as usize)?;
    for period in 1..given.instance.periods() + 1 {
        lots.push(short_lot_of(given, item, shares, period))?;
    }
    Ok(lots)
}

// What is found of lots: their least price, or that they have no choice. The errors are that they are past the limits
// of the table, and that memory ran out.
fn floor_of(alloc: Global, lots: &[LotPeriod]) -> Result<Floor, FloorFault>
    ensures floor { IfOk result (IsFoundOf lots.now) }
    ensures within { IfOk result (λ _. IsWithinLimits lots.now) }
    ensures fault { IfErr result (IsLotsFault lots.now) }
{
    if find_fault(lots).is_some() {
        return Err(FloorFault::Entries);
    }
    match least_price(alloc, lots)? {
        Some(price) => Ok(Floor::Least(price)),
        None => Ok(Floor::NoChoice),
    }
}

/// The least that whole quantities and setups of an item cost that have started what must have been started and keep
/// the largest lots, or that there are none. The errors are that the table has too many entries, and that memory ran
/// out.
pub(crate) fn quantity_floor(
    alloc: Global,
    given: Given<'_>,
    item: u32,
) -> Result<Floor, FloorFault>
    requires started { IsMustStartOf given.instance.now given.started.now }
    requires prices { ArePricesFor given.instance.now given.prices.now }
    requires low { 1 ≤ item }
    requires high { item ≤ item_count given.instance.now }
    requires setups { AreSmall (row_in given.prices.now.setups item) }
    requires units { AreSmall (row_in given.prices.now.units item) }
    ensures floor { IfOk result
        (IsFloorOf given.entry.instance.now given.entry.prices.now (QuantityGroup item)) }
    ensures few { IfOk result (λ _. HasFewEntries given.entry.instance.now
        (start_in given.entry.started.now) item) }
    ensures fault { IfErr result
        (IsFloorFaultOf given.entry.instance.now (start_in given.entry.started.now)
        (start_in given.entry.on_time.now) given.entry.prices.now (QuantityGroup item)) }
{
    must_start_holds();
    lots_hold();
    an_instance_breaks_no_rule(given.instance);
    let lots = lots_of_item(alloc, given, item)?;
    floor_of(alloc, &lots)
}

/// The same where units may fall short of what is on time at their shares, but not in lots that arrive in the last
/// period or later.
pub(crate) fn late_quantity_floor(
    alloc: Global,
    given: Given<'_>,
    item: u32,
    shares: &Shares,
) -> Result<Floor, FloorFault>
    requires started { IsMustStartOf given.instance.now given.started.now }
    requires on_time { IsOnTimeOf given.instance.now given.on_time.now }
    requires prices { ArePricesFor given.instance.now given.prices.now }
    requires low { 1 ≤ item }
    requires high { item ≤ item_count given.instance.now }
    requires setups { AreSmall (row_in given.prices.now.setups item) }
    requires units { AreSmall (row_in given.prices.now.units item) }
    ensures floor { IfOk result (IsFloorOf given.entry.instance.now given.entry.prices.now
        (LateQuantityGroup item shares.now)) }
    ensures few { IfOk result (λ _. HasFewEntries given.entry.instance.now
        (start_in given.entry.on_time.now) item) }
    ensures fault { IfErr result
        (IsFloorFaultOf given.entry.instance.now (start_in given.entry.started.now)
        (start_in given.entry.on_time.now) given.entry.prices.now
        (LateQuantityGroup item shares.now)) }
{
    must_start_holds();
    on_time_is_one();
    lots_hold();
    an_instance_breaks_no_rule(given.instance);
    let lots = short_lots_of_item(alloc, given, item, shares)?;
    floor_of(alloc, &lots)
}
