// Terms brought together, so that each column has one.
ghost use Rattle.std.specs.Prelude.{◌≡◌, ◌≤◌, ◌<◌, ◌^◌, ◌⊎◌, ◌↔◌, ◌++◌, ◌∷◌, [], ℕ, true, false, IfErr, IfOk, IsTrue, Err, length, unsigned_abs};
ghost use Rattle.std.specs.List.{All};
ghost use Rattle.std.specs.List.Sorted.{IsNonDecreasingBy, IsPermutation};
ghost use Rattle.lin_rows.specs.declared.column.Column.{Column};
ghost use Rattle.lin_rows.specs.declared.fault.CutFault.TheVariants.{TooLarge};
ghost use Rattle.lin_rows.specs.Columns.{order_of};
ghost use Rattle.lin_rows.specs.Sums.{FitsAdded, IsTotal, item_of, period_of, same_column};
ghost use Rattle.round_cuts.specs.Merging.{IsMerged, IsOfSum, IsSmallTerm, TakesTerm, amount_in, stretch_term};

use lin_rows::{Column, CutFault, Term, Total};
use std::alloc::{AllocError, Global};

// How far kinds, and items, of columns stand apart in their order.
const KIND: u128 = 1 << 64;

const ITEM: u128 = 1 << 32;

// The place of a column in the order of columns.
fn order(column: Column) -> u128
    ensures value { result ≡ order_of column }
    ensures item { item_of column < 2 ^ 32 }
    ensures period { period_of column < 2 ^ 32 }
{
    match column {
        Column::X { item, period } => item as u128 * ITEM + period as u128,
        Column::Y { item, period } => KIND + item as u128 * ITEM + period as u128,
        Column::S { item, period } => 2 * KIND + item as u128 * ITEM + period as u128,
        Column::R { item, period } => 3 * KIND + item as u128 * ITEM + period as u128,
    }
}

// Whether two columns are the same.
fn is_same(one: Column, other: Column) -> bool
    ensures same { IsTrue result → same_column one other ≡ true }
    ensures apart { result ≡ false → order_of one ≡ order_of other → ⊥ }
{
    order(one) == order(other)
}

// Puts terms into the order of their columns.
pub(crate) fn sort(terms: &mut Vec<Term>)
    ensures permutation { IsPermutation terms.old.items terms.new.items }
    ensures rising { IsNonDecreasingBy (λ a. order_of a.column) terms.new.items }
{
    terms.sort_unstable_by_key(|term| order(term.column));
}

// What has been added up of the terms of a column.
#[derive(Clone, Copy, Debug, PartialEq, Eq)]
pub(crate) struct Stretch {
    pub(crate) column: Column,
    pub(crate) total: Total,
}

impl Stretch {
    // The one term that the stretch becomes.
    fn term(self) -> Term
        ensures { result ≡ stretch_term self }
    {
        Term {
            column: self.column,
            times: self.total.sum,
        }
    }
}

// Puts a term after others.
pub(crate) fn push(terms: &mut Vec<Term>, term: Term) -> Result<(), AllocError>
    ensures { IfOk result (λ _. terms.new.items ≡ terms.old.items ++ term ∷ []) }
{
    terms.push(term)?;
    Ok(())
}

// The stretch with one more term of its column; or the stretch is done, and the term begins the next.
fn take_term(done: &mut Vec<Term>, stretch: Stretch, term: Term) -> Result<Stretch, CutFault>
    requires total { IsTotal stretch.total }
    requires small { IsSmallTerm term }
    ensures takes { IfOk result (λ next.
        TakesTerm done.old.items stretch term done.new.items next) }
    ensures total { IfOk result (λ next. IsTotal next.total) }
    ensures fault { IfErr result IsOfSum }
    ensures same { result ≡ Err TooLarge → same_column stretch.column term.column ≡ true }
    ensures large { result ≡ Err TooLarge → FitsAdded stretch.total term.times → ⊥ }
{
    if is_same(stretch.column, term.column) {
        if !stretch.total.fits_added(1, term.times) {
            return Err(CutFault::TooLarge);
        }
        return Ok(Stretch {
            column: stretch.column,
            total: stretch.total.with_more(1, term.times),
        });
    }
    push(done, stretch.term())?;
    Ok(Stretch {
        column: term.column,
        total: Total::none().with_more(1, term.times),
    })
}

// One term of each column, of terms in the order of columns.
pub(crate) fn merged(alloc: Global, terms: &[Term]) -> Result<Vec<Term>, CutFault>
    requires rising { IsNonDecreasingBy (λ a. order_of a.column) terms.now }
    requires small { All IsSmallTerm terms.now }
    ensures merged { IfOk result (λ done. IsMerged terms.now done.items) }
    ensures room { IfOk result (λ _. (c : Column) → amount_in terms.now c < 2 ^ 127) }
    ensures fault { IfErr result IsOfSum }
    ensures large { result ≡ Err TooLarge → (c : Column) × (2 ^ 127 ≤ amount_in terms.now c) }
{
    let mut done = Vec::new(alloc);
    if terms.is_empty() {
        return Ok(done);
    }
    let mut stretch = Stretch {
        column: terms[0].column,
        total: Total::none(),
    };
    for place in 0..terms.len() {
        stretch = take_term(&mut done, stretch, terms[place])?;
    }
    push(&mut done, stretch.term())?;
    Ok(done)
}
