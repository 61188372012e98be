//! An echelon of two periods and the texts of rows: what several files of tests have in common.

use echelon::EchelonItem;
use lin_rows::{Row, Term};
use std::alloc::Global;
use std::process::Abort;

/// The echelon of one item that goes into no other, with demands of 4 and 6 and an opening stock.
pub fn alone(rt: &impl Abort, alloc: Global, backlogged: bool, opening: u128) -> EchelonItem {
    EchelonItem {
        item: 1,
        demand: vec![in alloc; 4u128, 6].expect(rt, "memory"),
        opening,
        end_min: 0,
        weights: vec![in alloc; 1u64].expect(rt, "memory"),
        backs: vec![in alloc; backlogged].expect(rt, "memory"),
        backlogged,
    }
}

/// The text of terms, each with a comma after it.
pub fn terms_text(rt: &impl Abort, alloc: Global, terms: &[Term]) -> String {
    let mut out = String::new(alloc);
    for term in terms {
        write!(&mut out, "{} {}, ", term.times, term.column).expect(rt, "memory");
    }
    out
}

/// The text of a row.
pub fn text(rt: &impl Abort, alloc: Global, row: &Row) -> String {
    let mut out = terms_text(rt, alloc, row.terms());
    write!(&mut out, ">= {}", row.right()).expect(rt, "memory");
    out
}
