// The numbers of items and of chains.
ghost use Rattle.std.specs.Prelude.{◌≡◌, ◌≤◌, ◌<◌, ◌+◌, ◌-◌, ◌*◌, [], ◌∷◌, Err, IfErr, IfOk};
ghost use Rattle.lot_sizing.specs.Problem.{item_at, item_count};
ghost use Rattle.lin_rows.specs.declared.column.Column.TheVariants.{X, Y};
ghost use Rattle.must_start.specs.Rows.{IsMustStartOf, row_in, start_in};
ghost use Rattle.chain_dp.specs.Chains.{opening_cost};
ghost use Rattle.chain_dp.specs.Numbers.{IsCapped, most};
ghost use Rattle.chain_dp.specs.declared.error.ChainError.TheVariants.{Memory, TooDear};
ghost use Rattle.quantity_dp.specs.declared.limits.TheConstants.{MAX_PRICE};
ghost use Rattle.reduced_groups.specs.Groups.{chain_levels};
ghost use Rattle.reduced_groups.specs.Numbers.{IsChainFloor, IsLeastItem};
ghost use Rattle.reduced_groups.specs.Prices.{AreSmall, ArePricesFor, price_in};

use crate::given::Given;
use crate::levels::{last_level, lower_level};
use crate::prices::GroupPrices;
use chain_dp::laws::stocks_are_unused;
use chain_dp::{ChainError, ChainTables};
use item_groups::ChainLink;
use lot_model::{Instance, an_instance_breaks_no_rule};
use must_start::must_start_holds;
use std::alloc::Global;

// What the first unit of an item costs that is made in the first period.
fn first_unit(instance: &Instance, prices: &GroupPrices, item: u32) -> u128
    requires prices { ArePricesFor instance.now prices.now }
    requires low { 1 ≤ item }
    requires high { item ≤ item_count instance.now }
    requires setups { AreSmall (row_in prices.now.setups item) }
    requires units { AreSmall (row_in prices.now.units item) }
    ensures { result ≡ price_in prices.now (Y item 1) + price_in prices.now (X item 1) }
{
    an_instance_breaks_no_rule(instance);
    prices.setups(item)[0] + prices.units(item)[0]
}

/// The least that setups and quantities of an item cost that have started what must have been started. The error is
/// that memory ran out.
pub(crate) fn item_floor(
    alloc: Global,
    tables: &mut ChainTables,
    given: Given<'_>,
    item: u32,
) -> Result<u128, ChainError>
    requires started { IsMustStartOf given.instance.now given.started.now }
    requires prices { ArePricesFor given.instance.now given.prices.now }
    requires low { 1 ≤ item }
    requires high { item ≤ item_count given.instance.now }
    requires setups { AreSmall (row_in given.prices.now.setups item) }
    requires units { AreSmall (row_in given.prices.now.units item) }
    ensures least { IfOk result
        (IsLeastItem given.entry.instance.now (start_in given.entry.started.now)
        (price_in given.entry.prices.now) item) }
    ensures memory { IfErr result (λ e. e ≡ Memory) }
{
    stocks_are_unused();
    must_start_holds();
    an_instance_breaks_no_rule(given.instance);
    let link = ChainLink {
        item,
        opening_price: first_unit(given.instance, given.prices, item),
    };
    let level = last_level(alloc, given.instance, given.started, given.prices, &link)?;
    match tables.solve_one(alloc, &level) {
        Ok(cost) => Ok(cost),
        Err(error) => Err(error),
    }
}

// What the opening stock of an item is worth at its price.
fn worth(instance: &Instance, link: &ChainLink) -> u128
    requires low { 1 ≤ link.now.item }
    requires high { link.now.item ≤ item_count instance.now }
    ensures { IsCapped (link.now.opening_price * (item_at instance.now link.now.item).opening)
        result }
{
    link.opening_price
        .saturating_mul(u128::from(instance.opening(link.item)))
}

// What is left of a cost.
fn left_of(cost: u128, worth: u128) -> u128
    ensures value { result ≡ cost - worth }
    ensures small { cost ≤ most }
{
    cost.saturating_sub(worth)
}

/// The number of a chain of two items. The errors are that it is too dear to buy all from opening stocks, and that
/// memory ran out.
pub(crate) fn pair_floor(
    alloc: Global,
    tables: &mut ChainTables,
    given: Given<'_>,
    low: &ChainLink,
    top: &ChainLink,
) -> Result<u128, ChainError>
    requires started { IsMustStartOf given.instance.now given.started.now }
    requires prices { ArePricesFor given.instance.now given.prices.now }
    requires low_low { 1 ≤ low.now.item }
    requires low_high { low.now.item ≤ item_count given.instance.now }
    requires top_low { 1 ≤ top.now.item }
    requires top_high { top.now.item ≤ item_count given.instance.now }
    ensures floor { IfOk result
        (IsChainFloor given.entry.instance.now (start_in given.entry.started.now)
        (price_in given.entry.prices.now) low.now (top.now ∷ [])) }
    ensures too_dear { (result ≡ Err TooDear) → most ≤ opening_cost given.entry.instance.now.periods
        (chain_levels given.entry.instance.now (start_in given.entry.started.now)
        (price_in given.entry.prices.now) low.now (top.now ∷ [])) }
    ensures fits { IfOk result (λ _. opening_cost given.entry.instance.now.periods
        (chain_levels given.entry.instance.now (start_in given.entry.started.now)
        (price_in given.entry.prices.now) low.now (top.now ∷ [])) < most) }
{
    let lower = lower_level(
        alloc,
        given.instance,
        given.started,
        given.prices,
        low,
        top.item,
    )?;
    let upper = last_level(alloc, given.instance, given.started, given.prices, top)?;
    match tables.solve_two(alloc, &lower, &upper) {
        Ok(cost) => Ok(left_of(cost, worth(given.instance, low))),
        Err(error) => Err(error),
    }
}

/// The number of a chain of three items. The errors are those of `pair_floor`.
pub(crate) fn triple_floor(
    alloc: Global,
    tables: &mut ChainTables,
    given: Given<'_>,
    low: &ChainLink,
    mid: &ChainLink,
    top: &ChainLink,
) -> Result<u128, ChainError>
    requires started { IsMustStartOf given.instance.now given.started.now }
    requires prices { ArePricesFor given.instance.now given.prices.now }
    requires low_low { 1 ≤ low.now.item }
    requires low_high { low.now.item ≤ item_count given.instance.now }
    requires mid_low { 1 ≤ mid.now.item }
    requires mid_high { mid.now.item ≤ item_count given.instance.now }
    requires top_low { 1 ≤ top.now.item }
    requires top_high { top.now.item ≤ item_count given.instance.now }
    ensures floor { IfOk result
        (IsChainFloor given.entry.instance.now (start_in given.entry.started.now)
        (price_in given.entry.prices.now) low.now (mid.now ∷ (top.now ∷ []))) }
    ensures too_dear { (result ≡ Err TooDear) → most ≤ opening_cost given.entry.instance.now.periods
        (chain_levels given.entry.instance.now (start_in given.entry.started.now)
        (price_in given.entry.prices.now) low.now (mid.now ∷ (top.now ∷ []))) }
    ensures fits { IfOk result (λ _. opening_cost given.entry.instance.now.periods
        (chain_levels given.entry.instance.now (start_in given.entry.started.now)
        (price_in given.entry.prices.now) low.now (mid.now ∷ (top.now ∷ []))) < most) }
{
    let lower = lower_level(
        alloc,
        given.instance,
        given.started,
        given.prices,
        low,
        mid.item,
    )?;
    let middle = lower_level(
        alloc,
        given.instance,
        given.started,
        given.prices,
        mid,
        top.item,
    )?;
    let upper = last_level(alloc, given.instance, given.started, given.prices, top)?;
    let worth = worth(given.instance, low).saturating_add(worth(given.instance, mid));
    match tables.solve_three(alloc, &lower, &middle, &upper) {
        Ok(cost) => Ok(left_of(cost, worth)),
        Err(error) => Err(error),
    }
}
