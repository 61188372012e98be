// What plans cost by the prices of a cut, and what can't be avoided.
ghost use Rattle.std.specs.Prelude.{◌≡◌, ◌≤◌, ◌+◌, ◌*◌, ◌↔◌, length, IfOk, IsTrue};
ghost use Rattle.lot_sizing.specs.Sums.{sum_to};
ghost use Rattle.lot_sizing.specs.Problem.{AllAtMost, IsSeries, entry};
ghost use Rattle.lot_sizing.specs.declared.limits.TheConstants.{MAX_PERIODS};
ghost use Rattle.echelon.specs.Views.{IsEchelonWithinBounds};
ghost use Rattle.echelon.specs.declared.net.TheConstants.{MAX_ASKED};
ghost use Rattle.echelon_rows.specs.Rows.{AreCostTerms, ArePriced, echelon_in};
ghost use Rattle.echelon_rows.specs.declared.limits.TheConstants.{MAX_PRICE, MAX_STEP};

use crate::limits::{MAX_PRICE, MAX_STEP};
use crate::terms::{push_backlogs, push_setups, push_stocks, push_units};
use echelon::EchelonItem;
use lin_rows::Term;
use std::alloc::{AllocError, Global};

/// Whether no entry of a list is past the largest price. It takes no memory.
pub fn are_prices(list: &[u64]) -> bool
    ensures { IsTrue result ↔ AllAtMost MAX_PRICE list.now }
{
    list.iter().all(|price| *price <= MAX_PRICE)
}

/// Whether no entry of a list is past the largest potential. It takes no memory.
pub fn are_steps(list: &[u128]) -> bool
    ensures { IsTrue result ↔ AllAtMost MAX_STEP list.now }
{
    list.iter().all(|step| *step <= MAX_STEP)
}

/// What net demands are worth in all, by a price for a unit of each period. It takes no memory.
pub fn worth_of(net: &[u128], price: &[u64]) -> u128
    requires price { IsSeries (length net.now) MAX_PRICE price.now }
    requires net { sum_to (length net.now) (entry net.now) ≤ MAX_ASKED }
    ensures value { result ≡ sum_to (length net.now) (λ t. entry net.now t * entry price.now t) }
    ensures small { result ≤ MAX_STEP }
{
    let mut sum = 0u128;
    for period in 1..net.len() + 1 {
        sum += net[period - 1] * price[period - 1] as u128;
    }
    sum
}

/// What the holding of leftovers costs in all, by a price for a unit of each period. It takes no memory.
pub fn held_of(left: &[u128], hold: &[u64]) -> u128
    requires periods { length left.now ≤ MAX_PERIODS }
    requires hold { IsSeries (length left.now) MAX_PRICE hold.now }
    requires left { AllAtMost MAX_ASKED left.now }
    ensures value { result ≡ sum_to (length left.now) (λ t. entry hold.now t * entry left.now t) }
    ensures small { result ≤ MAX_PERIODS * MAX_STEP }
{
    let mut sum = 0u128;
    for period in 1..left.len() + 1 {
        sum += hold[period - 1] as u128 * left[period - 1];
    }
    sum
}

/// The terms of what units, setups, stocks and backlogs of an echelon cost: of one in each period so much. The
/// lists have an entry for each period. The error is that memory ran out.
///
/// It takes time in the number of items times that of the periods.
pub fn cost_terms_of(
    alloc: Global,
    echelon: &EchelonItem,
    setup: &[u128],
    unit: &[u64],
    hold: &[u64],
    back: &[u64],
) -> Result<Vec<Term>, AllocError>
    requires within { IsEchelonWithinBounds echelon.now }
    requires setup { IsSeries (length echelon.now.demand.items) MAX_STEP setup.now }
    requires prices { ArePriced (length echelon.now.demand.items) unit.now hold.now back.now }
    ensures { IfOk result (λ terms.
        AreCostTerms (echelon_in echelon.now) setup.now unit.now hold.now back.now terms.items) }
{
    let mut terms = Vec::new(alloc);
    let periods = echelon.demand.len();
    push_units(&mut terms, echelon.item, unit)?;
    push_setups(&mut terms, echelon.item, setup)?;
    push_stocks(&mut terms, &echelon.weights, hold)?;
    push_backlogs(&mut terms, &echelon.weights, &echelon.backs, periods, back)?;
    Ok(terms)
}
