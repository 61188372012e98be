// The items of chains with their prices and what is asked of them.
ghost use Rattle.std.specs.Prelude.{◌≡◌, ◌≤◌, IfOk};
ghost use Rattle.lot_sizing.specs.Problem.{item_count};
ghost use Rattle.must_start.specs.Rows.{IsMustStartOf, start_in};
ghost use Rattle.chain_dp.specs.Chains.{HasPeriods, level_of};
ghost use Rattle.reduced_groups.specs.Groups.{last_level, lower_level};
ghost use Rattle.reduced_groups.specs.Levels.{IsAlikeLevel};
ghost use Rattle.reduced_groups.specs.Prices.{ArePricesFor, price_in};

use crate::needs::{needs_of_last, needs_of_lower};
use crate::prices::GroupPrices;
use chain_dp::ChainLevel;
use item_groups::ChainLink;
use lot_model::{Instance, an_instance_breaks_no_rule};
use must_start::MustStart;
use std::alloc::{AllocError, Global};

/// The last item of a chain, by what must have been started of it.
pub(crate) fn last_level(
    alloc: Global,
    instance: &Instance,
    started: &MustStart,
    prices: &GroupPrices,
    link: &ChainLink,
) -> Result<ChainLevel, AllocError>
    requires started { IsMustStartOf instance.now started.now }
    requires prices { ArePricesFor instance.now prices.now }
    requires low { 1 ≤ link.now.item }
    requires high { link.now.item ≤ item_count instance.now }
    ensures sizes { IfOk result (HasPeriods instance.now.periods) }
    ensures level { IfOk result (λ level. IsAlikeLevel instance.now.periods (level_of level)
        (last_level instance.now (start_in started.now) (price_in prices.now) link.now)) }
{
    an_instance_breaks_no_rule(instance);
    let setup_cost = prices.setups(link.item).to_vec(alloc)?;
    let unit_cost = prices.units(link.item).to_vec(alloc)?;
    let need = needs_of_last(alloc, instance, started, link.item)?;
    Ok(ChainLevel {
        setup_cost,
        unit_cost,
        need,
        opening_price: link.opening_price,
        per_next: 1,
        lead: 0,
    })
}

/// An item of a chain that goes into the next one.
pub(crate) fn lower_level(
    alloc: Global,
    instance: &Instance,
    started: &MustStart,
    prices: &GroupPrices,
    link: &ChainLink,
    next: u32,
) -> Result<ChainLevel, AllocError>
    requires started { IsMustStartOf instance.now started.now }
    requires prices { ArePricesFor instance.now prices.now }
    requires low { 1 ≤ link.now.item }
    requires high { link.now.item ≤ item_count instance.now }
    requires next_low { 1 ≤ next }
    requires next_high { next ≤ item_count instance.now }
    ensures sizes { IfOk result (HasPeriods instance.now.periods) }
    ensures level { IfOk result (λ level. IsAlikeLevel instance.now.periods (level_of level)
        (lower_level instance.now (start_in started.now) (price_in prices.now) link.now next)) }
{
    an_instance_breaks_no_rule(instance);
    let setup_cost = prices.setups(link.item).to_vec(alloc)?;
    let unit_cost = prices.units(link.item).to_vec(alloc)?;
    let need = needs_of_lower(alloc, instance, started, link.item, next)?;
    Ok(ChainLevel {
        setup_cost,
        unit_cost,
        need,
        opening_price: link.opening_price,
        per_next: instance.per_unit(link.item, next),
        lead: instance.lead(link.item) as usize,
    })
}
