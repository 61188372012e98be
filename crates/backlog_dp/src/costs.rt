// What it costs that one period serves each position.
ghost use Rattle.std.specs.Prelude.{◌≡◌, ◌≤◌, ◌+◌, ◌*◌, ◌++◌, ◌∷◌, ◌==◌, ℕ, List, [], false, length, if◌then◌else◌, IfOk};
ghost use Rattle.lot_sizing.specs.Sums.{sum_to};
ghost use Rattle.lot_sizing.specs.Problem.{AllAtMost, IsSeries, entry};
ghost use Rattle.lot_sizing.specs.Single.{positions};
ghost use Rattle.lot_sizing.specs.declared.limits.TheConstants.{MAX_PERIODS};
ghost use Rattle.echelon.specs.Views.{HasEach};
ghost use Rattle.echelon.specs.declared.net.TheConstants.{MAX_ASKED};
ghost use Rattle.echelon_rows.specs.Rows.{ArePriced, single_with};
ghost use Rattle.echelon_rows.specs.declared.limits.TheConstants.{MAX_PRICE, MAX_STEP};
ghost use Rattle.backlog_dp.specs.Search.{AreServingCosts};

use echelon_rows::serving_prices;
use std::alloc::{AllocError, Global};

/// What a unit costs that a period makes, or that is held or owed for a period, with an entry for each period.
#[derive(Clone, Copy)]
pub struct UnitPrices<'a> {
    /// Of making a unit.
    pub unit: &'a [u64],
    /// Of holding a unit.
    pub hold: &'a [u64],
    /// Of owing a unit.
    pub back: &'a [u64],
    /// Whether units may be owed.
    pub backlogged: bool,
}

/// The periods of the positions: those with a net demand, in order. The error is that memory ran out.
pub fn periods_of(alloc: Global, net: &[u128]) -> Result<Vec<u32>, AllocError>
    requires { length net.now ≤ MAX_PERIODS }
    ensures { IfOk result (λ found. found.items
        ≡ positions (single_with net.now [] [] [] [] false)) }
{
    let mut periods = Vec::new(alloc);
    for period in 1..net.len() as u32 + 1 {
        put_period(&mut periods, net[period as usize - 1], period)?;
    }
    Ok(periods)
}

// A period, where something is asked for.
fn put_period(list: &mut Vec<u32>, asked: u128, period: u32) -> Result<(), AllocError>
    ensures { IfOk result (λ _. list.new.items
        ≡ list.old.items ++ (if asked == 0 then [] else period ∷ [])) }
{
    if asked != 0 {
        list.push(period)?;
    }
    Ok(())
}

// What each position costs, by what a unit costs for each period.
fn costs_at(
    alloc: Global,
    net: &[u128],
    periods: &[u32],
    prices: &[u64],
) -> Result<Vec<u128>, AllocError>
    requires net { AllAtMost MAX_ASKED net.now }
    requires prices { IsSeries (length net.now) (MAX_PERIODS * MAX_PRICE) prices.now }
    requires low { (p : ℕ) → 1 ≤ p → p ≤ length periods.now → 1 ≤ entry periods.now p }
    requires high { (p : ℕ) → 1 ≤ p → p ≤ length periods.now
        → entry periods.now p ≤ length net.now }
    ensures { IfOk result (λ costs.
        HasEach (length periods.now)
        (λ p. entry net.now (entry periods.now p) * entry prices.now (entry periods.now p))
        costs.items) }
{
    let mut costs = Vec::with_capacity(alloc, periods.len())?;
    for position in 1..periods.len() + 1 {
        let place = periods[position - 1] as usize - 1;
        costs.push(net[place] * u128::from(prices[place]))?;
    }
    Ok(costs)
}

/// What it costs that a period serves each position; the periods of the positions are handed in. The error is
/// that memory ran out. It takes time in the number of periods.
pub fn serving_costs(
    alloc: Global,
    net: &[u128],
    periods: &[u32],
    rates: &UnitPrices<'_>,
    server: u32,
) -> Result<Vec<u128>, AllocError>
    requires count { length net.now ≤ MAX_PERIODS }
    requires prices { ArePriced (length net.now) rates.now.unit.now rates.now.hold.now
        rates.now.back.now }
    requires net { sum_to (length net.now) (entry net.now) ≤ MAX_ASKED }
    requires periods { periods.now ≡ positions (single_with net.now [] [] [] [] false) }
    requires low { 1 ≤ server }
    requires high { server ≤ length net.now }
    ensures each { IfOk result (λ found.
        AreServingCosts net.now rates.now.unit.now rates.now.hold.now rates.now.back.now
        rates.now.backlogged server found.items) }
    ensures small { IfOk result (λ found. sum_to (length found.items) (entry found.items)
        ≤ MAX_PERIODS * MAX_STEP) }
{
    let prices = serving_prices(
        alloc,
        rates.unit,
        rates.hold,
        rates.back,
        rates.backlogged,
        server,
    )?;
    let costs = costs_at(alloc, net, periods, &prices)?;
    Ok(costs)
}
