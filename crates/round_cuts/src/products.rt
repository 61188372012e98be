// The terms and the right sides of multiples of rows.
ghost use Rattle.std.specs.Prelude.{◌≡◌, ◌≤◌, ◌<◌, ◌^◌, ◌++◌, ◌⊎◌, ◌↔◌, ◌*ℤ◌, ◌≤ℤ◌, ℕ, false, pos, IfErr, IfOk, IfSome, IsNone, IsTrue, Err, length, unsigned_abs};
ghost use Rattle.std.specs.List.{All};
ghost use Rattle.lin_rows.specs.declared.column.Column.{Column};
ghost use Rattle.lin_rows.specs.declared.fault.CutFault.TheVariants.{TooLarge};
ghost use Rattle.lin_rows.specs.Base.{term};
ghost use Rattle.lin_rows.specs.Combining.{AreSigned, right_sum};
ghost use Rattle.lin_rows.specs.Rows.{AreTerms};
ghost use Rattle.lin_rows.specs.Sums.{FitsAdded, IsTotal, coefficient, with_more};
ghost use Rattle.round_cuts.specs.Merging.{AreProducts, IsOfSum, IsSmallTerm, products};
ghost use Rattle.round_cuts.specs.Rounding.{column_amount, right_amount};

use crate::merging::push;
use lin_rows::{CutFault, Row, Term, Total};
use std::alloc::Global;

// Whether a row is an equation, where it is taken a negative number of times.
fn is_signed(row: &Row, times: i128) -> bool
    ensures { IsTrue result ↔ (row.now.equal ≡ false → pos 0 ≤ℤ times) }
{
    times >= 0 || row.is_equal()
}

// Whether only equations are taken a negative number of times.
pub(crate) fn are_signed(rows: &[Row], multipliers: &[i128]) -> bool
    requires { length rows.now ≡ length multipliers.now }
    ensures { IsTrue result ↔ AreSigned rows.now multipliers.now }
{
    for place in 0..rows.len() {
        if !is_signed(&rows[place], multipliers[place]) {
            return false;
        }
    }
    true
}

// A term taken so many times. None where that is 2^127 or more in absolute value.
fn product(one: Term, times: i128) -> Option<Term>
    ensures made { IfSome result (λ made. made ≡ term one.column (times *ℤ one.times)) }
    ensures small { IfSome result IsSmallTerm }
    ensures large { IsNone result → unsigned_abs (times *ℤ one.times) < 2 ^ 127 → ⊥ }
{
    if !Total::none().fits_added(times, one.times) {
        return None;
    }
    Some(Term {
        column: one.column,
        times: times * one.times,
    })
}

// Puts the multiples of a row's terms after others.
fn push_products(made: &mut Vec<Term>, terms: &[Term], times: i128) -> Result<(), CutFault>
    requires rising { AreTerms 0 terms.now }
    requires small { All IsSmallTerm made.old.items }
    ensures put { IfOk result (λ _. made.new.items ≡ made.old.items ++ products times terms.now) }
    ensures small { IfOk result (λ _. All IsSmallTerm made.new.items) }
    ensures fault { IfErr result IsOfSum }
    ensures large { result ≡ Err TooLarge
        → (c : Column) × (2 ^ 127 ≤ unsigned_abs (times *ℤ coefficient terms.now c)) }
{
    for place in 0..terms.len() {
        match product(terms[place], times) {
            Some(term) => push(made, term)?,
            None => return Err(CutFault::TooLarge),
        }
    }
    Ok(())
}

// The multiples of all terms of rows.
pub(crate) fn all_products(
    alloc: Global,
    rows: &[Row],
    multipliers: &[i128],
) -> Result<Vec<Term>, CutFault>
    requires { length rows.now ≡ length multipliers.now }
    ensures products { IfOk result (λ made. AreProducts rows.now multipliers.now made.items) }
    ensures fault { IfErr result IsOfSum }
    ensures large { result ≡ Err TooLarge
        → (c : Column) × (2 ^ 127 ≤ column_amount rows.now multipliers.now c) }
{
    let mut made = Vec::new(alloc);
    for place in 0..rows.len() {
        push_products(&mut made, rows[place].terms(), multipliers[place])?;
    }
    Ok(made)
}

// The total with a multiple of a right side. None where there is no room for it.
fn with_right(total: Total, row: &Row, times: i128) -> Option<Total>
    requires { IsTotal total }
    ensures sum { IfSome result (λ next. next ≡ with_more total (times *ℤ row.now.right)) }
    ensures total { IfSome result IsTotal }
    ensures large { IsNone result → FitsAdded total (times *ℤ row.now.right) → ⊥ }
{
    if !total.fits_added(times, row.right()) {
        return None;
    }
    Some(total.with_more(times, row.right()))
}

// The sum of the multiples of right sides. None where their absolute values reach 2^127.
pub(crate) fn right_total(rows: &[Row], multipliers: &[i128]) -> Option<Total>
    requires { length rows.now ≡ length multipliers.now }
    ensures sum { IfSome result (λ total. total.sum ≡ right_sum rows.now multipliers.now) }
    ensures amount { IfSome result (λ total. total.amount ≡ right_amount rows.now multipliers.now) }
    ensures total { IfSome result IsTotal }
    ensures large { IsNone result → 2 ^ 127 ≤ right_amount rows.now multipliers.now }
{
    let mut total = Total::none();
    for place in 0..rows.len() {
        total = with_right(total, &rows[place], multipliers[place])?;
    }
    Some(total)
}
