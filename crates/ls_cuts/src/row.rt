// The (l,S) row of an echelon.
ghost use Rattle.std.specs.Prelude.{◌≡◌, ◌≤◌, ◌++◌, length, if◌then◌else◌, IfErr, IfOk};
ghost use Rattle.lot_sizing.specs.Problem.{AllAtMost};
ghost use Rattle.lot_sizing.specs.declared.limits.TheConstants.{MAX_PERIODS};
ghost use Rattle.echelon.specs.Views.{HasEach, IsEchelonWithinBounds, asked_of_echelon, marked};
ghost use Rattle.echelon.specs.declared.net.TheConstants.{MAX_ASKED};
ghost use Rattle.lin_rows.specs.declared.fault.RowFault.TheVariants.{NoSuchRow};
ghost use Rattle.lin_rows.specs.Base.{some_terms};
ghost use Rattle.lin_rows.specs.Rows.{AreTerms, HoldsIn};
ghost use Rattle.echelon_rows.specs.Plans.{AreColumnsOf, AtPlansOf};
ghost use Rattle.echelon_rows.specs.Rows.{backlogs_by, echelon_in, setups_by, units_by};
ghost use Rattle.ls_cuts.specs.Rows.{HasLsRow, backlog_times, ls_right, ls_row, setup_times, unit_times};

use crate::demand::demand_to;
use crate::laws::{ls_rows_are_rows, ls_rows_hold};
use echelon::EchelonItem;
use echelon_rows::{push_backlogs, push_setups, push_units};
use lin_rows::{Row, RowFault, Term};
use std::alloc::{AllocError, Global};

// How often the row takes what each period makes: where it isn't chosen.
fn unit_times(alloc: Global, chosen: &[bool]) -> Result<Vec<u64>, AllocError>
    ensures each { IfOk result (λ found.
        HasEach (length chosen.now) (unit_times (marked chosen.now)) found.items) }
{
    let mut list = Vec::with_capacity(alloc, chosen.len())?;
    for period in 1..chosen.len() + 1 {
        list.push(if chosen[period - 1] { 0 } else { 1 })?;
    }
    Ok(list)
}

// So many times, where a period is chosen.
fn taken(chosen: bool, times: u128) -> u128
    ensures { result ≡ (if chosen then times else 0) }
{
    if chosen { times } else { 0 }
}

// How often it takes each setup: what is asked for from the period on, where it is chosen.
fn setup_times(
    alloc: Global,
    echelon: &EchelonItem,
    chosen: &[bool],
) -> Result<Vec<u128>, AllocError>
    requires within { IsEchelonWithinBounds echelon.now }
    requires high { length chosen.now ≤ length echelon.now.demand.items }
    ensures each { IfOk result (λ found.
        HasEach (length chosen.now)
        (setup_times (asked_of_echelon echelon.now) (length chosen.now) (marked chosen.now))
        found.items) }
{
    let mut list = Vec::with_capacity(alloc, chosen.len())?;
    let mut rest = demand_to(echelon, chosen.len() as u32);
    for period in 1..chosen.len() + 1 {
        list.push(taken(chosen[period - 1], rest))?;
        rest -= echelon.demand[period - 1];
    }
    Ok(list)
}

// How often it takes each backlog: in the last period, and before a chosen one.
fn backlog_times(alloc: Global, chosen: &[bool]) -> Result<Vec<u64>, AllocError>
    ensures each { IfOk result (λ found.
        HasEach (length chosen.now) (backlog_times (length chosen.now) (marked chosen.now))
        found.items) }
{
    let l = chosen.len();
    let mut list = Vec::with_capacity(alloc, l)?;
    for period in 1..l + 1 {
        list.push(if period == l || chosen[period] { 1 } else { 0 })?;
    }
    Ok(list)
}

// The terms of these multiples of quantities, setups and backlogs.
fn terms_of(
    alloc: Global,
    echelon: &EchelonItem,
    units: &[u64],
    setups: &[u128],
    backlogs: &[u64],
) -> Result<Vec<Term>, AllocError>
    requires within { IsEchelonWithinBounds echelon.now }
    requires units { length units.now ≤ MAX_PERIODS }
    requires setups { length setups.now ≤ MAX_PERIODS }
    requires setups_small { AllAtMost MAX_ASKED setups.now }
    requires backlogs { length backlogs.now ≤ MAX_PERIODS }
    requires backlogs_small { AllAtMost 1 backlogs.now }
    ensures { IfOk result (λ terms. terms.items
        ≡ some_terms (units_by echelon.now.item units.now
        ++ (setups_by echelon.now.item setups.now
        ++ backlogs_by echelon.now.weights.items echelon.now.backs.items
        (length echelon.now.demand.items) backlogs.now))) }
{
    let mut terms = Vec::new(alloc);
    let periods = echelon.demand.len();
    push_units(&mut terms, echelon.item, units)?;
    push_setups(&mut terms, echelon.item, setups)?;
    push_backlogs(
        &mut terms,
        &echelon.weights,
        &echelon.backs,
        periods,
        backlogs,
    )?;
    Ok(terms)
}

// The terms of the row whose set is chosen.
fn ls_terms_of(
    alloc: Global,
    echelon: &EchelonItem,
    chosen: &[bool],
) -> Result<Vec<Term>, AllocError>
    requires within { IsEchelonWithinBounds echelon.now }
    requires high { length chosen.now ≤ length echelon.now.demand.items }
    ensures { IfOk result (λ terms. terms.items
        ≡ (ls_row (echelon_in echelon.now) (length chosen.now) (marked chosen.now)).terms) }
{
    let units = unit_times(alloc, chosen)?;
    let setups = setup_times(alloc, echelon, chosen)?;
    let backlogs = backlog_times(alloc, chosen)?;
    terms_of(alloc, echelon, &units, &setups, &backlogs)
}

// What is asked for in the first periods less the opening stock.
fn right_of(echelon: &EchelonItem, l: u32) -> i128
    requires within { IsEchelonWithinBounds echelon.now }
    requires high { l ≤ length echelon.now.demand.items }
    ensures { result ≡ ls_right (asked_of_echelon echelon.now) l }
{
    let opening = echelon.opening;
    demand_to(echelon, l) as i128 - opening as i128
}

/// The (l,S) row of an echelon with its backlogs (Barany, Van Roy and Wolsey, 1984). `chosen` has an entry for
/// each period up to `l`, and period `t` is in `S` where it has true at `t`. With D(b,l) for the echelon's demand
/// of the periods `b` to `l`, R\[t\] for its backlog at the end of `t` and O for its opening stock, the row says that
/// the quantities made in periods outside `S`, with D(t,l) times the setup and R\[t-1\] for each period in `S`, and with
/// R\[l\], are at least D(1,l) - O. A backlog that is no column is left out.
///
/// `NoSuchRow` comes exactly where `l` is no period of the echelon or `chosen` hasn't `l` entries. It takes time in
/// `l` times the number of items.
pub fn ls_row(
    alloc: Global,
    echelon: &EchelonItem,
    l: u32,
    chosen: &[bool],
) -> Result<Row, RowFault>
    requires within { IsEchelonWithinBounds echelon.now }
    ensures row { IfOk result (λ row. row ≡ ls_row (echelon_in echelon.now) l (marked chosen.now)) }
    ensures holds { IfOk result (λ row. AtPlansOf echelon.now (λ p. HoldsIn p row)) }
    ensures rising { IfOk result (λ row. AreTerms 0 row.terms) }
    ensures columns { IfOk result (λ row. AreColumnsOf echelon.now row.terms) }
    ensures some { IfOk result (λ _. HasLsRow echelon.now l chosen.now) }
    ensures none { IfErr result (λ fault. fault ≡ NoSuchRow → HasLsRow echelon.now l chosen.now
        → ⊥) }
{
    if l == 0 || l as usize > echelon.demand.len() || chosen.len() != l as usize {
        return Err(RowFault::NoSuchRow);
    }
    ls_rows_hold();
    ls_rows_are_rows();
    let terms = ls_terms_of(alloc, echelon, chosen)?;
    Ok(Row::new(terms, right_of(echelon, l), false))
}
