// Terms of an echelon's rows, by lists of how often each column is taken.
ghost use Rattle.std.specs.Prelude.{◌≡◌, ◌≤◌, ◌∷◌, [], length, pos, IfOk};
ghost use Rattle.lot_sizing.specs.Problem.{AllAtMost};
ghost use Rattle.lot_sizing.specs.declared.limits.TheConstants.{MAX_ITEMS, MAX_PERIODS, MAX_TOTAL};
ghost use Rattle.lin_rows.specs.Base.{term};
ghost use Rattle.lin_rows.specs.Made.{PutTerms};
ghost use Rattle.echelon_rows.specs.Rows.{backlogs_by, backlogs_of, owed_by, setups_by, stocks_by, stocks_of, units_by};
ghost use Rattle.echelon_rows.specs.declared.limits.TheConstants.{MAX_PRICE, MAX_STEP};

use lin_rows::{Column, Term};
use std::alloc::AllocError;

// A term is put after the others, where it isn't 0 times its column.
fn push_term(terms: &mut Vec<Term>, column: Column, times: u128) -> Result<(), AllocError>
    requires { times ≤ MAX_STEP }
    ensures { IfOk result (λ _.
        PutTerms terms.old.items (term column (pos times) ∷ []) terms.new.items) }
{
    if times != 0 {
        terms.push(Term {
            column,
            times: times as i128,
        })?;
    }
    Ok(())
}

/// Puts the quantities of an item after some terms, each period's so many times, where that isn't 0 times. The
/// error is that memory ran out.
pub fn push_units(terms: &mut Vec<Term>, item: u32, times: &[u64]) -> Result<(), AllocError>
    requires periods { length times.now ≤ MAX_PERIODS }
    ensures { IfOk result (λ _.
        PutTerms terms.old.items (units_by item times.now) terms.new.items) }
{
    for period in 1..times.len() as u32 + 1 {
        let units = times[period as usize - 1] as u128;
        push_term(terms, Column::X { item, period }, units)?;
    }
    Ok(())
}

/// Puts the setups of an item after some terms, each period's so many times, where that isn't 0 times. The error
/// is that memory ran out.
pub fn push_setups(terms: &mut Vec<Term>, item: u32, times: &[u128]) -> Result<(), AllocError>
    requires periods { length times.now ≤ MAX_PERIODS }
    requires small { AllAtMost MAX_STEP times.now }
    ensures { IfOk result (λ _.
        PutTerms terms.old.items (setups_by item times.now) terms.new.items) }
{
    for period in 1..times.len() as u32 + 1 {
        let setups = times[period as usize - 1];
        push_term(terms, Column::Y { item, period }, setups)?;
    }
    Ok(())
}

// The stocks of one item of an echelon.
fn push_item_stocks(
    terms: &mut Vec<Term>,
    item: u32,
    weight: u64,
    times: &[u64],
) -> Result<(), AllocError>
    requires weight { weight ≤ MAX_TOTAL }
    requires periods { length times.now ≤ MAX_PERIODS }
    requires small { AllAtMost MAX_PRICE times.now }
    ensures { IfOk result (λ _.
        PutTerms terms.old.items (stocks_of item weight times.now) terms.new.items) }
{
    for period in 1..times.len() as u32 + 1 {
        let stocks = times[period as usize - 1] as u128 * weight as u128;
        push_term(terms, Column::S { item, period }, stocks)?;
    }
    Ok(())
}

// How much of an echelon's backlog the backlog of an item is.
fn owed_times(periods: usize, back: bool, weight: u64, period: usize) -> u64
    ensures value { result ≡ owed_by periods back weight period }
    ensures small { result ≤ weight }
{
    if period >= 1 && period < periods && back {
        weight
    } else {
        0
    }
}

// The backlogs of one item of an echelon over so many periods.
fn push_item_backlogs(
    terms: &mut Vec<Term>,
    item: u32,
    weight: u64,
    back: bool,
    periods: usize,
    times: &[u64],
) -> Result<(), AllocError>
    requires weight { weight ≤ MAX_TOTAL }
    requires periods { length times.now ≤ MAX_PERIODS }
    requires small { AllAtMost MAX_PRICE times.now }
    ensures { IfOk result (λ _.
        PutTerms terms.old.items (backlogs_of item weight back periods times.now) terms.new.items) }
{
    for period in 1..times.len() as u32 + 1 {
        let owed = owed_times(periods, back, weight, period as usize);
        let backlogs = times[period as usize - 1] as u128 * owed as u128;
        push_term(terms, Column::R { item, period }, backlogs)?;
    }
    Ok(())
}

/// Puts the stocks of an echelon after some terms: item by item its weight, each period's so many times, where
/// that isn't 0 times. The error is that memory ran out.
pub fn push_stocks(terms: &mut Vec<Term>, weights: &[u64], times: &[u64]) -> Result<(), AllocError>
    requires weights { AllAtMost MAX_TOTAL weights.now }
    requires items { length weights.now ≤ MAX_ITEMS }
    requires periods { length times.now ≤ MAX_PERIODS }
    requires small { AllAtMost MAX_PRICE times.now }
    ensures { IfOk result (λ _.
        PutTerms terms.old.items (stocks_by weights.now times.now) terms.new.items) }
{
    for item in 1..weights.len() as u32 + 1 {
        push_item_stocks(terms, item, weights[item as usize - 1], times)?;
    }
    Ok(())
}

/// Puts the backlogs of an echelon over so many periods after some terms: item by item its weight, each period's
/// so many times, where that isn't 0 times and the backlog is a column. The error is that memory ran out.
///
/// `backs` marks the items that have a backlog cost; the backlog of the last of `periods` is no column. `times` may
/// have fewer entries than there are periods.
pub fn push_backlogs(
    terms: &mut Vec<Term>,
    weights: &[u64],
    backs: &[bool],
    periods: usize,
    times: &[u64],
) -> Result<(), AllocError>
    requires weights { AllAtMost MAX_TOTAL weights.now }
    requires backs { length backs.now ≡ length weights.now }
    requires items { length weights.now ≤ MAX_ITEMS }
    requires periods { length times.now ≤ MAX_PERIODS }
    requires small { AllAtMost MAX_PRICE times.now }
    ensures { IfOk result (λ _.
        PutTerms terms.old.items (backlogs_by weights.now backs.now periods times.now)
        terms.new.items) }
{
    for item in 1..weights.len() as u32 + 1 {
        let place = item as usize - 1;
        push_item_backlogs(terms, item, weights[place], backs[place], periods, times)?;
    }
    Ok(())
}
