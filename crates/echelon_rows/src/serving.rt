// What a unit costs that one period makes for each other one.
ghost use Rattle.std.specs.Prelude.{◌≡◌, ◌≤◌, ◌+◌, ◌-◌, ◌*◌, Some, None, [], length, nat_le, if◌then◌else◌, IfOk};
ghost use Rattle.lot_sizing.specs.Problem.{AllAtMost, IsSeries, backlog_price};
ghost use Rattle.lot_sizing.specs.Single.{unit_price};
ghost use Rattle.lot_sizing.specs.declared.limits.TheConstants.{MAX_PERIODS};
ghost use Rattle.echelon_rows.specs.Rows.{ArePriced, AreServingPrices, single_with};
ghost use Rattle.echelon_rows.specs.declared.limits.TheConstants.{MAX_PRICE};

use std::alloc::{AllocError, Global};

// The price of a unit owed at the end of a period, 0 where no backlog is allowed.
fn back_price(back: &[u64], backlogged: bool, period: u32) -> u64
    requires backs { AllAtMost MAX_PRICE back.now }
    requires low { 1 ≤ period }
    requires high { period ≤ length back.now }
    ensures value { result ≡ backlog_price (if backlogged then Some back.now else None) period }
    ensures small { result ≤ MAX_PRICE }
{
    if backlogged {
        back[period as usize - 1]
    } else {
        0
    }
}

// What a unit costs that a period makes for the first one.
fn first_price(unit: &[u64], hold: &[u64], back: &[u64], backlogged: bool, server: u32) -> u64
    requires prices { ArePriced (length unit.now) unit.now hold.now back.now }
    requires periods { length unit.now ≤ MAX_PERIODS }
    requires low { 1 ≤ server }
    requires high { server ≤ length unit.now }
    ensures { result ≡ unit_price (single_with [] [] unit.now hold.now back.now backlogged) server
        1 }
{
    let mut price = unit[server as usize - 1];
    for period in 1..server {
        price += back_price(back, backlogged, period);
    }
    price
}

// What a unit costs that a period makes for the next one, by what it costs for this one.
fn next_price(price: u64, hold: u64, back: u64, server: u32, period: u32) -> u64
    requires hold { hold ≤ MAX_PRICE }
    requires small { price ≤ MAX_PERIODS * MAX_PRICE }
    ensures { result ≡ (if nat_le server period then price + hold else price - back) }
{
    if server <= period {
        price + hold
    } else {
        price.saturating_sub(back)
    }
}

/// What a unit costs that a period makes for each other one: making it, and keeping it until then or owing it up
/// to there. The lists of prices have an entry for each period; where no backlog is allowed those of backlogs count
/// for nothing. The error is that memory ran out.
///
/// It takes time in the number of periods.
pub fn serving_prices(
    alloc: Global,
    unit: &[u64],
    hold: &[u64],
    back: &[u64],
    backlogged: bool,
    server: u32,
) -> Result<Vec<u64>, AllocError>
    requires prices { ArePriced (length unit.now) unit.now hold.now back.now }
    requires periods { length unit.now ≤ MAX_PERIODS }
    requires low { 1 ≤ server }
    requires high { server ≤ length unit.now }
    ensures each { IfOk result (λ found.
        AreServingPrices unit.now hold.now back.now backlogged server found.items) }
    ensures small { IfOk result (λ found. AllAtMost (MAX_PERIODS * MAX_PRICE) found.items) }
{
    let mut list = Vec::with_capacity(alloc, unit.len())?;
    let mut price = first_price(unit, hold, back, backlogged, server);
    for period in 1..unit.len() as u32 + 1 {
        list.push(price)?;
        let owed = back_price(back, backlogged, period);
        price = next_price(price, hold[period as usize - 1], owed, server, period);
    }
    Ok(list)
}
