// What a setup can gain by prices.
ghost use Rattle.std.specs.Prelude.{◌≡◌, ◌≤◌, ◌-◌, ◌*◌, ◌||◌, length, nat_le, if◌then◌else◌, IfOk};
ghost use Rattle.lot_sizing.specs.Sums.{sum_to};
ghost use Rattle.lot_sizing.specs.Problem.{AllAtMost, IsSeries, entry};
ghost use Rattle.lot_sizing.specs.declared.limits.TheConstants.{MAX_PERIODS};
ghost use Rattle.echelon.specs.Views.{HasEach};
ghost use Rattle.echelon.specs.declared.net.TheConstants.{MAX_ASKED};
ghost use Rattle.echelon_rows.specs.Rows.{AreServingPrices};
ghost use Rattle.echelon_rows.specs.declared.limits.TheConstants.{MAX_PRICE, MAX_STEP};
ghost use Rattle.facility_form.specs.PriceRow.{AreSmall, HaveLengths, gain_by, gain_over};

use echelon_rows::serving_prices;
use lin_rows::Prices;
use std::alloc::{AllocError, Global};

// Whether a period may serve another one.
fn may_serve(backlogged: bool, server: u32, period: u32) -> bool
    ensures { result ≡ (backlogged || nat_le server period) }
{
    backlogged || server <= period
}

// How much more a net demand is worth than it costs, where it may be served.
fn gain_at(net: u128, price: u64, cost: u64, serves: bool) -> u128
    requires net { net ≤ MAX_ASKED }
    requires price { price ≤ MAX_PRICE }
    ensures value { result ≡ (if serves then net * (price - cost) else 0) }
    ensures small { result ≤ MAX_PRICE * net }
{
    if serves {
        net * price.saturating_sub(cost) as u128
    } else {
        0
    }
}

// What a setup in a period can gain in all, by what a unit costs that it makes for each other one.
fn gain_of(net: &[u128], price: &[u64], costs: &[u64], backlogged: bool, server: u32) -> u128
    requires periods { length net.now ≤ MAX_PERIODS }
    requires price { IsSeries (length net.now) MAX_PRICE price.now }
    requires costs { length costs.now ≡ length net.now }
    requires net { sum_to (length net.now) (entry net.now) ≤ MAX_ASKED }
    ensures value { result ≡ sum_to (length net.now)
        (gain_by net.now price.now costs.now backlogged server) }
    ensures small { result ≤ MAX_STEP }
{
    let mut sum = 0u128;
    for period in 1..net.len() as u32 + 1 {
        let place = period as usize - 1;
        let serves = may_serve(backlogged, server, period);
        sum += gain_at(net[place], price[place], costs[place], serves);
    }
    sum
}

// What a unit costs that a period makes for each other one.
fn costs_of(
    alloc: Global,
    prices: &Prices,
    backlogged: bool,
    server: u32,
) -> Result<Vec<u64>, AllocError>
    requires periods { length prices.now.unit.items ≤ MAX_PERIODS }
    requires lengths { HaveLengths (length prices.now.unit.items) prices.now }
    requires small { AreSmall prices.now }
    requires low { 1 ≤ server }
    requires high { server ≤ length prices.now.unit.items }
    ensures { IfOk result (λ found.
        AreServingPrices prices.now.unit.items prices.now.hold.items prices.now.back.items
        backlogged server found.items) }
{
    serving_prices(
        alloc,
        &prices.unit,
        &prices.hold,
        &prices.back,
        backlogged,
        server,
    )
}

// What a setup in each period can gain.
pub(crate) fn gains_of(
    alloc: Global,
    net: &[u128],
    prices: &Prices,
    backlogged: bool,
) -> Result<Vec<u128>, AllocError>
    requires periods { length net.now ≤ MAX_PERIODS }
    requires lengths { HaveLengths (length net.now) prices.now }
    requires small { AreSmall prices.now }
    requires net { sum_to (length net.now) (entry net.now) ≤ MAX_ASKED }
    ensures each { IfOk result (λ found.
        HasEach (length net.now) (gain_over net.now prices.now backlogged) found.items) }
    ensures small { IfOk result (λ found. AllAtMost MAX_STEP found.items) }
{
    let mut list = Vec::with_capacity(alloc, net.len())?;
    for server in 1..net.len() as u32 + 1 {
        let costs = costs_of(alloc, prices, backlogged, server)?;
        list.push(gain_of(net, &prices.price, &costs, backlogged, server))?;
    }
    Ok(list)
}
