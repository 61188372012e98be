// Adding a row to sums, term by term.
ghost use Rattle.std.specs.Prelude.{◌≡◌, ◌↔◌, ℕ, IfOk, IsTrue, Err, true, false};
ghost use Rattle.lin_rows.specs.Rows.{AreTerms};
ghost use Rattle.lin_rows.specs.Sums.{AddsRow, AddsTerms, AreWithin, EachHasRoom, HasRoomFor, LacksRoom, PassesWith, SameShape};
ghost use Rattle.lin_rows.specs.declared.column.Column.{Column};
ghost use Rattle.lin_rows.specs.declared.sums.SumFault.TheVariants.{Passed128};

use crate::sums::{SumFault, Sums};
use crate::{Row, Term};

// Whether all columns of some terms are those of the sums.
pub(crate) fn has_columns(sums: &Sums, terms: &[Term]) -> bool
    ensures { IsTrue result ↔ AreWithin sums.now terms.now }
{
    for place in 0..terms.len() {
        if !sums.has_column(terms[place].column) {
            return false;
        }
    }
    true
}

// Whether a multiple of each term can be added.
fn fits_added(sums: &Sums, terms: &[Term], times: i128) -> bool
    ensures all { result ≡ true → EachHasRoom sums.now terms.now times }
    ensures none { result ≡ false → LacksRoom sums.now terms.now times }
{
    for place in 0..terms.len() {
        if !sums.has_room_for_term(terms[place], times) {
            return false;
        }
    }
    true
}

// Adds a multiple of each term.
fn add_terms(sums: &mut Sums, terms: &[Term], times: i128)
    requires terms { AreTerms 0 terms.now }
    requires within { AreWithin sums.old terms.now }
    requires room { EachHasRoom sums.old terms.now times }
    ensures adds { AddsTerms sums.old sums.new terms.now times }
    ensures shape { SameShape sums.old sums.new }
    ensures right { sums.new.right ≡ sums.old.right }
{
    for place in 0..terms.len() {
        sums.add_term(terms[place], times);
    }
}

// Adds a multiple of a row, or leaves the sums as they were.
pub(crate) fn add_times(sums: &mut Sums, row: &Row, times: i128) -> Result<(), SumFault>
    requires within { AreWithin sums.old row.now.terms }
    ensures added { IfOk result (λ _. AddsRow sums.old sums.new row.now times) }
    ensures room { IfOk result (λ _. HasRoomFor sums.old row.now times) }
    ensures passed { result ≡ Err Passed128 → PassesWith sums.old row.now times }
    ensures kept { result ≡ Err Passed128 → sums.new ≡ sums.old }
{
    let terms = row.terms();
    if !fits_added(sums, terms, times) || !sums.has_room_for_right(row.right(), times) {
        return Err(SumFault::Passed128);
    }
    add_terms(sums, terms, times);
    sums.add_right(row.right(), times);
    Ok(())
}
