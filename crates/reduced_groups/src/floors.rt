// The number of a group.
ghost use Rattle.std.specs.Prelude.{◌≤◌, [], ◌∷◌, IfErr, IfOk};
ghost use Rattle.lot_sizing.specs.Problem.{item_count};
ghost use Rattle.late_starts.specs.Rows.{IsOnTimeOf};
ghost use Rattle.must_start.specs.Rows.{IsMustStartOf, start_in};
ghost use Rattle.reduced_groups.specs.Groups.{ChainGroup, ItemGroup, LateGroup, LateQuantityGroup, QuantityGroup};
ghost use Rattle.reduced_groups.specs.Apart.{IsGroupOf};
ghost use Rattle.reduced_groups.specs.Floors.{HasLargePriceAs, HasSmallPrices, HasSmallPricesOf, IsFaultFrom, IsFloorFaultOf, IsFloorOf, IsPastLimits, IsWithinWork, shape_of};
ghost use Rattle.reduced_groups.specs.Prices.{ArePricesFor, price_in};

use crate::chains::{item_floor, pair_floor, triple_floor};
use crate::given::Given;
use crate::late::late_floor;
use crate::prices::{GroupPrices, first_large};
use crate::quantities::{late_quantity_floor, quantity_floor};
use chain_dp::{ChainError, ChainTables};
use item_groups::{ChainLink, Group, Shares};
use late_starts::OnTime;
use lot_model::{Instance, an_instance_breaks_no_rule};
use must_start::{MustStart, must_start_holds};
use std::alloc::{AllocError, Global};
use thiserror::Error;

/// The most periods over which a chain of three items is planned, with the lead time of the second: it takes some
/// 63,000,000 steps over as many.
pub const MAX_HORIZON: u32 = 150;

/// What is found of a group.
#[derive(Clone, Copy, Debug, PartialEq, Eq)]
pub enum Floor {
    /// No feasible plan pays less for it at these prices.
    Least(u128),
    /// Nothing can be made as the group asks, so no plan is feasible.
    NoChoice,
}

/// Why nothing is found of a group.
#[derive(Clone, Copy, Debug, PartialEq, Eq, Error)]
pub enum FloorFault {
    /// A price of this item in this period is above `MAX_PRICE`.
    #[error("a reduced cost of item {item} in period {period} is too large")]
    Price {
        /// The item.
        item: u32,
        /// The period.
        period: u32,
    },
    /// The table of whole quantities has more entries than `MAX_ENTRIES`.
    #[error("too many quantities")]
    Entries,
    /// With the lead time of the second of three items there are more than `MAX_HORIZON` periods.
    #[error("too many periods for three items")]
    Horizon,
    /// To buy all that is asked of a chain before the first period costs 2^128 - 1 or more.
    #[error("opening stocks are too dear")]
    TooDear,
    /// Memory ran out.
    #[error("out of memory")]
    Memory,
}

impl From<AllocError> for FloorFault {
    ghost use Rattle.std.specs.Prelude.{◌≡◌};
    ghost use Rattle.reduced_groups.specs.declared.floors.FloorFault.TheVariants.{Memory};

    ghost from_gives = { λ _ e. e ≡ Memory };

    fn from(_: AllocError) -> FloorFault {
        FloorFault::Memory
    }
}

// The fault of a group for that of a chain.
fn fault_of(error: ChainError) -> FloorFault
    ensures { IsFaultFrom error result }
{
    match error {
        ChainError::TooDear => FloorFault::TooDear,
        ChainError::Memory => FloorFault::Memory,
    }
}

// Whether no price of an item is above the limit; if not, a period in which one is.
fn test_prices(instance: &Instance, prices: &GroupPrices, item: u32) -> Result<(), FloorFault>
    requires prices { ArePricesFor instance.now prices.now }
    requires low { 1 ≤ item }
    requires high { item ≤ item_count instance.now }
    ensures small { IfOk result (λ _. HasSmallPrices prices.now item) }
    ensures within { IfOk result
        (λ _. HasSmallPricesOf instance.now (price_in prices.now) item) }
    ensures large { IfErr result (HasLargePriceAs instance.now prices.now item) }
{
    an_instance_breaks_no_rule(instance);
    if let Some(period) = first_large(prices.setups(item)) {
        return Err(FloorFault::Price { item, period });
    }
    match first_large(prices.units(item)) {
        Some(period) => Err(FloorFault::Price { item, period }),
        None => Ok(()),
    }
}

// The number of an item by itself.
fn item_group(
    alloc: Global,
    tables: &mut ChainTables,
    given: Given<'_>,
    item: u32,
) -> Result<Floor, FloorFault>
    requires started { IsMustStartOf given.instance.now given.started.now }
    requires prices { ArePricesFor given.instance.now given.prices.now }
    requires low { 1 ≤ item }
    requires high { item ≤ item_count given.instance.now }
    ensures floor { IfOk result
        (IsFloorOf given.entry.instance.now given.entry.prices.now
        (ItemGroup item)) }
    ensures within { IfOk result (λ _. IsWithinWork given.entry.instance.now
        (start_in given.entry.started.now) (start_in given.entry.on_time.now)
        (price_in given.entry.prices.now) (ItemGroup item)) }
    ensures fault { IfErr result (IsFloorFaultOf given.entry.instance.now
        (start_in given.entry.started.now) (start_in given.entry.on_time.now)
        given.entry.prices.now (ItemGroup item)) }
{
    must_start_holds();
    an_instance_breaks_no_rule(given.instance);
    if let Err(fault) = test_prices(given.instance, given.prices, item) {
        return Err(fault);
    }
    match item_floor(alloc, tables, given, item) {
        Ok(cost) => Ok(Floor::Least(cost)),
        Err(_) => Err(FloorFault::Memory),
    }
}

// The number of an item that may fall short of what is on time of it.
fn late_group(
    alloc: Global,
    given: Given<'_>,
    item: u32,
    shares: &Shares,
) -> Result<Floor, FloorFault>
    requires on_time { IsOnTimeOf given.instance.now given.on_time.now }
    requires prices { ArePricesFor given.instance.now given.prices.now }
    requires low { 1 ≤ item }
    requires high { item ≤ item_count given.instance.now }
    ensures floor { IfOk result
        (IsFloorOf given.entry.instance.now given.entry.prices.now
        (LateGroup item shares.now)) }
    ensures within { IfOk result (λ _. IsWithinWork given.entry.instance.now
        (start_in given.entry.started.now) (start_in given.entry.on_time.now)
        (price_in given.entry.prices.now) (LateGroup item shares.now)) }
    ensures fault { IfErr result (IsFloorFaultOf given.entry.instance.now
        (start_in given.entry.started.now) (start_in given.entry.on_time.now)
        given.entry.prices.now (LateGroup item shares.now)) }
{
    if let Err(fault) = test_prices(given.instance, given.prices, item) {
        return Err(fault);
    }
    match late_floor(
        alloc,
        given.instance,
        given.on_time,
        given.prices,
        item,
        shares,
    ) {
        Ok(cost) => Ok(Floor::Least(cost)),
        Err(_) => Err(FloorFault::Memory),
    }
}

// The number of an item in whole quantities.
fn quantity_group(alloc: Global, given: Given<'_>, item: u32) -> Result<Floor, FloorFault>
    requires started { IsMustStartOf given.instance.now given.started.now }
    requires prices { ArePricesFor given.instance.now given.prices.now }
    requires low { 1 ≤ item }
    requires high { item ≤ item_count given.instance.now }
    ensures floor { IfOk result
        (IsFloorOf given.entry.instance.now given.entry.prices.now
        (QuantityGroup item)) }
    ensures within { IfOk result (λ _. IsWithinWork given.entry.instance.now
        (start_in given.entry.started.now) (start_in given.entry.on_time.now)
        (price_in given.entry.prices.now) (QuantityGroup item)) }
    ensures fault { IfErr result (IsFloorFaultOf given.entry.instance.now
        (start_in given.entry.started.now) (start_in given.entry.on_time.now)
        given.entry.prices.now (QuantityGroup item)) }
{
    if let Err(fault) = test_prices(given.instance, given.prices, item) {
        return Err(fault);
    }
    quantity_floor(alloc, given, item)
}

// The number of an item in whole quantities that may fall short of what is on time of it.
fn late_quantity_group(
    alloc: Global,
    given: Given<'_>,
    item: u32,
    shares: &Shares,
) -> Result<Floor, FloorFault>
    requires started { IsMustStartOf given.instance.now given.started.now }
    requires on_time { IsOnTimeOf given.instance.now given.on_time.now }
    requires prices { ArePricesFor given.instance.now given.prices.now }
    requires low { 1 ≤ item }
    requires high { item ≤ item_count given.instance.now }
    ensures floor { IfOk result
        (IsFloorOf given.entry.instance.now given.entry.prices.now
        (LateQuantityGroup item shares.now)) }
    ensures within { IfOk result (λ _. IsWithinWork given.entry.instance.now
        (start_in given.entry.started.now) (start_in given.entry.on_time.now)
        (price_in given.entry.prices.now) (LateQuantityGroup item shares.now)) }
    ensures fault { IfErr result (IsFloorFaultOf given.entry.instance.now
        (start_in given.entry.started.now) (start_in given.entry.on_time.now)
        given.entry.prices.now (LateQuantityGroup item shares.now)) }
{
    if let Err(fault) = test_prices(given.instance, given.prices, item) {
        return Err(fault);
    }
    late_quantity_floor(alloc, given, item, shares)
}

// Both items of a pair are in the model. It computes nothing.
fn items_of_pair(instance: &Instance, low: &ChainLink, top: &ChainLink)
    requires group { IsGroupOf instance.now (ChainGroup low.now (top.now ∷ [])) }
    ensures low_low { 1 ≤ low.now.item }
    ensures low_high { low.now.item ≤ item_count instance.now }
    ensures top_low { 1 ≤ top.now.item }
    ensures top_high { top.now.item ≤ item_count instance.now }
{}

// All items of a triple are in the model. It computes nothing.
fn items_of_triple(instance: &Instance, low: &ChainLink, mid: &ChainLink, top: &ChainLink)
    requires group { IsGroupOf instance.now (ChainGroup low.now (mid.now ∷ (top.now ∷ []))) }
    ensures low_low { 1 ≤ low.now.item }
    ensures low_high { low.now.item ≤ item_count instance.now }
    ensures mid_low { 1 ≤ mid.now.item }
    ensures mid_high { mid.now.item ≤ item_count instance.now }
    ensures top_low { 1 ≤ top.now.item }
    ensures top_high { top.now.item ≤ item_count instance.now }
{}

// The number of a chain of two items.
fn pair_group(
    alloc: Global,
    tables: &mut ChainTables,
    given: Given<'_>,
    low: &ChainLink,
    top: &ChainLink,
) -> Result<Floor, FloorFault>
    requires started { IsMustStartOf given.instance.now given.started.now }
    requires prices { ArePricesFor given.instance.now given.prices.now }
    requires group { IsGroupOf given.instance.now (ChainGroup low.now (top.now ∷ [])) }
    ensures floor { IfOk result
        (IsFloorOf given.entry.instance.now given.entry.prices.now
        (ChainGroup low.now (top.now ∷ []))) }
    ensures within { IfOk result (λ _. IsWithinWork given.entry.instance.now
        (start_in given.entry.started.now) (start_in given.entry.on_time.now)
        (price_in given.entry.prices.now) (ChainGroup low.now (top.now ∷ []))) }
    ensures fault { IfErr result (IsFloorFaultOf given.entry.instance.now
        (start_in given.entry.started.now) (start_in given.entry.on_time.now)
        given.entry.prices.now (ChainGroup low.now (top.now ∷ []))) }
{
    items_of_pair(given.instance, low, top);
    must_start_holds();
    an_instance_breaks_no_rule(given.instance);
    if let Err(fault) = test_prices(given.instance, given.prices, low.item) {
        return Err(fault);
    }
    if let Err(fault) = test_prices(given.instance, given.prices, top.item) {
        return Err(fault);
    }
    match pair_floor(alloc, tables, given, low, top) {
        Ok(cost) => Ok(Floor::Least(cost)),
        Err(error) => Err(fault_of(error)),
    }
}

// The number of a chain of three items.
fn triple_group(
    alloc: Global,
    tables: &mut ChainTables,
    given: Given<'_>,
    low: &ChainLink,
    mid: &ChainLink,
    top: &ChainLink,
) -> Result<Floor, FloorFault>
    requires started { IsMustStartOf given.instance.now given.started.now }
    requires prices { ArePricesFor given.instance.now given.prices.now }
    requires group { IsGroupOf given.instance.now (ChainGroup low.now (mid.now ∷ (top.now ∷ []))) }
    ensures floor { IfOk result
        (IsFloorOf given.entry.instance.now given.entry.prices.now
        (ChainGroup low.now (mid.now ∷ (top.now ∷ [])))) }
    ensures within { IfOk result (λ _. IsWithinWork given.entry.instance.now
        (start_in given.entry.started.now) (start_in given.entry.on_time.now)
        (price_in given.entry.prices.now) (ChainGroup low.now (mid.now ∷ (top.now ∷ [])))) }
    ensures fault { IfErr result (IsFloorFaultOf given.entry.instance.now
        (start_in given.entry.started.now) (start_in given.entry.on_time.now)
        given.entry.prices.now (ChainGroup low.now (mid.now ∷ (top.now ∷ [])))) }
{
    items_of_triple(given.instance, low, mid, top);
    must_start_holds();
    an_instance_breaks_no_rule(given.instance);
    if let Err(fault) = test_prices(given.instance, given.prices, low.item) {
        return Err(fault);
    }
    if let Err(fault) = test_prices(given.instance, given.prices, mid.item) {
        return Err(fault);
    }
    if let Err(fault) = test_prices(given.instance, given.prices, top.item) {
        return Err(fault);
    }
    if given.instance.periods() + given.instance.lead(mid.item) > MAX_HORIZON {
        return Err(FloorFault::Horizon);
    }
    match triple_floor(alloc, tables, given, low, mid, top) {
        Ok(cost) => Ok(Floor::Least(cost)),
        Err(error) => Err(fault_of(error)),
    }
}

// The number of a group.
fn floor_in(
    alloc: Global,
    tables: &mut ChainTables,
    given: Given<'_>,
    group: &Group,
) -> Result<Floor, FloorFault>
    requires started { IsMustStartOf given.instance.now given.started.now }
    requires on_time { IsOnTimeOf given.instance.now given.on_time.now }
    requires prices { ArePricesFor given.instance.now given.prices.now }
    requires group { IsGroupOf given.instance.now (shape_of group.now) }
    ensures floor { IfOk result
        (IsFloorOf given.entry.instance.now given.entry.prices.now
        (shape_of group.now)) }
    ensures within { IfOk result (λ _. IsWithinWork given.entry.instance.now
        (start_in given.entry.started.now) (start_in given.entry.on_time.now)
        (price_in given.entry.prices.now) (shape_of group.now)) }
    ensures fault { IfErr result (IsFloorFaultOf given.entry.instance.now
        (start_in given.entry.started.now) (start_in given.entry.on_time.now)
        given.entry.prices.now (shape_of group.now)) }
{
    match group {
        Group::Item { item } => item_group(alloc, tables, given, *item),
        Group::Late { item, shares } => late_group(alloc, given, *item, shares),
        Group::Quantities { item } => quantity_group(alloc, given, *item),
        Group::LateQuantities { item, shares } => late_quantity_group(alloc, given, *item, shares),
        Group::Pair { low, top } => pair_group(alloc, tables, given, low, top),
        Group::Triple { low, mid, top } => triple_group(alloc, tables, given, low, mid, top),
    }
}

/// What is found of a group at these prices: the least that it can cost, which of a chain is the least with opening
/// stocks bought at their prices, less what those that are there are worth; or that nothing can be made as it asks.
/// Prices are reduced costs, all in one unit; the number is in the same.
///
/// The errors are that a price of an item of the group is above `MAX_PRICE`, that the table of whole quantities
/// has more than `MAX_ENTRIES` entries, by what must have been started or, where they may fall short, by what is on
/// time, that a chain of three items has more than `MAX_HORIZON` periods, that opening
/// stocks are too dear, and that memory ran out.
///
/// Over `T` periods an item takes some `T^2 / 2` steps, a late item some `T^2`, two items some `T^3 / 2`, three some
/// `T^4 / 8`, and whole quantities some `T` times the units that must be started or are asked on time.
pub fn group_floor(
    alloc: Global,
    tables: &mut ChainTables,
    instance: &Instance,
    started: &MustStart,
    on_time: &OnTime,
    prices: &GroupPrices,
    group: &Group,
) -> Result<Floor, FloorFault>
    requires started { IsMustStartOf instance.now started.now }
    requires on_time { IsOnTimeOf instance.now on_time.now }
    requires prices { ArePricesFor instance.now prices.now }
    requires group { IsGroupOf instance.now (shape_of group.now) }
    ensures floor { IfOk result (IsFloorOf instance.now prices.now (shape_of group.now)) }
    ensures within { IfOk result (λ _. IsWithinWork instance.now (start_in started.now)
        (start_in on_time.now) (price_in prices.now) (shape_of group.now)) }
    ensures fault { IfErr result (IsFloorFaultOf instance.now (start_in started.now)
        (start_in on_time.now) prices.now (shape_of group.now)) }
    ensures past { IfErr result (IsPastLimits instance.now (start_in started.now)
        (start_in on_time.now) prices.now (shape_of group.now)) }
{
    let given = Given {
        instance,
        started,
        on_time,
        prices,
    };
    floor_in(alloc, tables, given, group)
}
