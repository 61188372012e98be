// A sum of rows, divided and rounded up.
ghost use Rattle.std.specs.Prelude.{◌≡◌, ◌≢◌, ◌≤◌, ◌<◌, ◌^◌, ◌⊎◌, ◌↔◌, ◌++◌, ◌∷◌, [], ℕ, pos, IfErr, IfOk, Ok, Err, length, unsigned_abs};
ghost use Rattle.std.specs.List.{All};
ghost use Rattle.lin_rows.specs.declared.column.Column.{Column};
ghost use Rattle.lin_rows.specs.declared.fault.CutFault.TheVariants.{Length, Potential, Sign, TooLarge};
ghost use Rattle.lin_rows.specs.Combining.{AllHold, AreSigned};
ghost use Rattle.lin_rows.specs.Rows.{HoldsAt, LinPoint, LinRow};
ghost use Rattle.round_cuts.specs.declared.rounding.TheConstants.{MAX_DIVISOR};
ghost use Rattle.round_cuts.specs.Merging.{AreSums, IsOfSum, IsSmallTerm, ceiling, rounded_terms};
ghost use Rattle.round_cuts.specs.Rounding.{HasShortColumns, IsRounded, IsTooLarge, column_amount};

use crate::merging::{merged, sort};
use crate::products::{all_products, are_signed, right_total};
use lin_rows::{CutFault, Row, Term, sums_hold};
use std::alloc::{AllocError, Global};

/// The largest divisor of a rounding cut.
pub const MAX_DIVISOR: u64 = 1_000_000_000_000_000_000;

// The least whole number that isn't below a number over a divisor.
fn ceiling(number: i128, divisor: u64) -> i128
    requires divisor { 1 ≤ divisor }
    requires small { unsigned_abs number < 2 ^ 127 }
    ensures { result ≡ ceiling (pos divisor) number }
{
    -(-number).div_euclid(divisor as i128)
}

// Puts a term after others, divided and rounded up, where that isn't 0.
fn push_rounded(rounded: &mut Vec<Term>, term: Term, divisor: u64) -> Result<(), AllocError>
    requires divisor { 1 ≤ divisor }
    requires small { IsSmallTerm term }
    requires short { HasShortColumns rounded.old.items }
    ensures short { IfOk result (λ _. HasShortColumns rounded.new.items) }
    ensures terms { IfOk result (λ _. rounded.new.items
        ≡ rounded.old.items ++ rounded_terms (pos divisor) (term ∷ [])) }
{
    let times = ceiling(term.times, divisor);
    if times != 0 {
        rounded.push(Term {
            column: term.column,
            times,
        })?;
    }
    Ok(())
}

// Terms divided and rounded up, but for those that become 0.
fn rounded(alloc: Global, terms: &[Term], divisor: u64) -> Result<Vec<Term>, AllocError>
    requires divisor { 1 ≤ divisor }
    requires small { All IsSmallTerm terms.now }
    ensures terms { IfOk result (λ rounded. rounded.items ≡ rounded_terms (pos divisor) terms.now) }
    ensures short { IfOk result (λ rounded. HasShortColumns rounded.items) }
{
    let mut rounded = Vec::new(alloc);
    for place in 0..terms.len() {
        push_rounded(&mut rounded, terms[place], divisor)?;
    }
    Ok(rounded)
}

// The terms of a sum of rows, one of each column.
fn summed(alloc: Global, rows: &[Row], multipliers: &[i128]) -> Result<Vec<Term>, CutFault>
    requires { length rows.now ≡ length multipliers.now }
    ensures sums { IfOk result (λ terms. AreSums rows.now multipliers.now terms.items) }
    ensures room { IfOk result (λ _. (c : Column)
        → column_amount rows.now multipliers.now c < 2 ^ 127) }
    ensures fault { IfErr result IsOfSum }
    ensures large { result ≡ Err TooLarge
        → (c : Column) × (2 ^ 127 ≤ column_amount rows.now multipliers.now c) }
{
    let mut terms = all_products(alloc, rows, multipliers)?;
    sort(&mut terms);
    merged(alloc, &terms)
}

/// The rounding row of rows, each taken as often as its multiplier says: from their sum
/// `sum a[j]*v[j] >= b` it follows at whole values that `sum ceil(a[j]/divisor)*v[j] >= ceil(b/divisor)`. It is no
/// equation; the columns of its terms rise, and none is taken 0 times.
///
/// `multipliers` has an entry for each row. Of the errors the first that holds comes: `Length` exactly where the
/// lists differ in length; `Sign` exactly where a row that isn't equal has a negative multiplier; `TooLarge` where
/// the absolute values of what is added up of one column, or of the right sides, reach 2^127; and `Memory`.
///
/// It takes time in n log n, for n terms in all rows, and memory for twice as many terms.
pub fn round_row(
    alloc: Global,
    rows: &[Row],
    multipliers: &[i128],
    divisor: u64,
) -> Result<Row, CutFault>
    requires least { 1 ≤ divisor }
    requires most { divisor ≤ MAX_DIVISOR }
    ensures rounded { IfOk result (λ row. IsRounded rows.now multipliers.now divisor row) }
    ensures one { IfOk result (λ row. (other : LinRow) → HasShortColumns other.terms
        → IsRounded rows.now multipliers.now divisor other → other ≡ row) }
    ensures holds { IfOk result (λ row. (q : LinPoint) → q.den ≡ 1 → AllHold q rows.now
        → HoldsAt q row) }
    ensures length { (result ≡ Err Length) ↔ (length rows.now ≢ length multipliers.now) }
    ensures sign { (result ≡ Err Sign) ↔
        ((length rows.now ≡ length multipliers.now) × (AreSigned rows.now multipliers.now → ⊥)) }
    ensures large { result ≡ Err TooLarge
        → (length rows.now ≡ length multipliers.now) × AreSigned rows.now multipliers.now
        × IsTooLarge rows.now multipliers.now }
    ensures room { IfOk result (λ _. IsTooLarge rows.now multipliers.now → ⊥) }
    ensures others { (first last server : ℕ) → result ≢ Err (Potential first last server) }
{
    if rows.len() != multipliers.len() {
        return Err(CutFault::Length);
    }
    if !are_signed(rows, multipliers) {
        return Err(CutFault::Sign);
    }
    sums_hold();
    let Some(right) = right_total(rows, multipliers) else {
        return Err(CutFault::TooLarge);
    };
    let terms = summed(alloc, rows, multipliers)?;
    let terms = rounded(alloc, &terms, divisor)?;
    Ok(Row::new(terms, ceiling(right.sum, divisor), false))
}
