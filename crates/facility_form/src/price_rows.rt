// The price row of an echelon.
ghost use Rattle.std.specs.Prelude.{◌≡◌, ◌↔◌, length, pos, IfErr, IfOk, IsTrue};
ghost use Rattle.lot_sizing.specs.Net.{left_after, net_in};
ghost use Rattle.echelon.specs.Views.{HasEach, IsEchelonWithinBounds, asked_of_echelon};
ghost use Rattle.lin_rows.specs.Base.{some_terms};
ghost use Rattle.lin_rows.specs.Rows.{HoldsIn};
ghost use Rattle.echelon_rows.specs.Rows.{echelon_in};
ghost use Rattle.echelon_rows.specs.Plans.{AreColumnsOf, AtPlansOf};
ghost use Rattle.facility_form.specs.PriceRow.{AreSmall, HaveLengths, IsPriceFault, price_right, price_row_of, price_terms};

use crate::gains::gains_of;
use crate::laws::price_rows_hold;
use echelon::{EchelonItem, net_of};
use echelon_rows::{
    are_prices, cost_terms_are_terms, cost_terms_of, held_of, nets_are_small, priced_is_net,
    worth_of,
};
use lin_rows::{CutFault, Prices, Row, Term};
use std::alloc::{AllocError, Global};

// What units, stocks and backlogs cost and setups gain, as terms.
fn terms_of(
    alloc: Global,
    echelon: &EchelonItem,
    net: &[u128],
    prices: &Prices,
) -> Result<Vec<Term>, AllocError>
    requires within { IsEchelonWithinBounds echelon.now }
    requires net { HasEach (length echelon.now.demand.items) (net_in (asked_of_echelon echelon.now))
        net.now }
    requires lengths { HaveLengths (length echelon.now.demand.items) prices.now }
    requires small { AreSmall prices.now }
    ensures { IfOk result (λ terms. terms.items
        ≡ some_terms (price_terms (echelon_in echelon.now) prices.now.price.items
        prices.now.unit.items prices.now.hold.items prices.now.back.items)) }
{
    nets_are_small();
    priced_is_net();
    let gains = gains_of(alloc, net, prices, echelon.backlogged)?;
    let terms = cost_terms_of(
        alloc,
        echelon,
        &gains,
        &prices.unit,
        &prices.hold,
        &prices.back,
    )?;
    Ok(terms)
}

// What the net demands are worth, and the holding of what is left.
fn right_of(echelon: &EchelonItem, net: &[u128], left: &[u128], prices: &Prices) -> i128
    requires within { IsEchelonWithinBounds echelon.now }
    requires net { HasEach (length echelon.now.demand.items) (net_in (asked_of_echelon echelon.now))
        net.now }
    requires left { HasEach (length echelon.now.demand.items)
        (left_after (asked_of_echelon echelon.now)) left.now }
    requires lengths { HaveLengths (length echelon.now.demand.items) prices.now }
    requires small { AreSmall prices.now }
    ensures { result
        ≡ pos (price_right (asked_of_echelon echelon.now) prices.now.price.items
        prices.now.hold.items) }
{
    nets_are_small();
    let worth = worth_of(net, &prices.price);
    let held = held_of(left, &prices.hold);
    (worth + held) as i128
}

// The row of prices that have an entry for each period.
fn row_by(alloc: Global, echelon: &EchelonItem, prices: &Prices) -> Result<Row, AllocError>
    requires within { IsEchelonWithinBounds echelon.now }
    requires lengths { HaveLengths (length echelon.now.demand.items) prices.now }
    requires small { AreSmall prices.now }
    ensures { IfOk result (λ row. row ≡ price_row_of (echelon_in echelon.now) prices.now) }
{
    cost_terms_are_terms();
    let found = net_of(alloc, echelon)?;
    let terms = terms_of(alloc, echelon, &found.net, prices)?;
    let right = right_of(echelon, &found.net, &found.left, prices);
    Ok(Row::new(terms, right, false))
}

// Whether each list has an entry for each period.
fn have_lengths(prices: &Prices, periods: usize) -> bool
    ensures { IsTrue result ↔ HaveLengths periods prices.now }
{
    prices.price.len() == periods
        && prices.unit.len() == periods
        && prices.hold.len() == periods
        && prices.back.len() == periods
}

// Whether no entry is past the largest price.
fn are_small(prices: &Prices) -> bool
    ensures { IsTrue result ↔ AreSmall prices.now }
{
    are_prices(&prices.price)
        && are_prices(&prices.unit)
        && are_prices(&prices.hold)
        && are_prices(&prices.back)
}

/// The price row of an echelon, a projection of the facility location form (Krarup and Bilde 1977; Pochet and
/// Wolsey): what units, stocks and backlogs cost by the prices, and what setups gain, is at least what the net
/// demands are worth and the holding of what is left of the opening stock.
///
/// A setup gains, over all periods that it may serve, what a net demand is worth more than a unit costs that is
/// made then and kept, or owed, until that period. Without backlog it serves its own period and later ones.
///
/// The row holds at every feasible plan of any problem whose lead-free item has this echelon (`holds`), and has only
/// columns of such a problem (`columns_exist`). `Length` comes exactly where a list hasn't an entry for each period,
/// and `TooLarge` exactly where the lists have these entries and one of them is past `MAX_PRICE`. It takes time in the
/// square of the number of periods, and in the number of items times that of the periods.
pub fn price_row(alloc: Global, echelon: &EchelonItem, prices: &Prices) -> Result<Row, CutFault>
    requires within { IsEchelonWithinBounds echelon.now }
    ensures row { IfOk result (λ row. row ≡ price_row_of (echelon_in echelon.now) prices.now) }
    ensures holds { IfOk result (λ row. AtPlansOf echelon.now (λ p. HoldsIn p row)) }
    ensures columns_exist { IfOk result (λ row. AreColumnsOf echelon.now row.terms) }
    ensures lengths { IfOk result (λ _. HaveLengths (length echelon.now.demand.items) prices.now) }
    ensures small { IfOk result (λ _. AreSmall prices.now) }
    ensures fault { IfErr result (IsPriceFault (length echelon.now.demand.items) prices.now) }
{
    if !have_lengths(prices, echelon.demand.len()) {
        return Err(CutFault::Length);
    }
    if !are_small(prices) {
        return Err(CutFault::TooLarge);
    }
    price_rows_hold();
    cost_terms_are_terms();
    let row = row_by(alloc, echelon, prices)?;
    Ok(row)
}
