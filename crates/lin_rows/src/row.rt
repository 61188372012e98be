// Rows: sums of multiples of columns, and what they are at least or equal to.
ghost use Rattle.std.specs.Prelude.{◌≡◌};
ghost use Rattle.lin_rows.specs.Rows.{AreTerms};

use crate::Column;
use std::marker::Model;

/// A multiple of a column.
#[derive(Clone, Copy, Debug, PartialEq, Eq)]
pub struct Term {
    /// The column.
    pub column: Column,
    /// How many times it is taken.
    pub times: i128,
}

/// A row: its terms add to at least the right side, or to it where the row is equal. The columns of its
/// terms rise, and none is taken 0 times.
#[derive(Debug, Drop)]
pub struct Row {
    terms: Vec<Term>,
    right: i128,
    equal: bool,
}

impl Model for Row {
    ghost use Rattle.lin_rows.specs.Rows.{LinRow};

    ghost Value = { LinRow };

    ghost use Rattle.lin_rows.specs.Held.{IsRowInside, row_in};

    ghost view = { row_in };

    ghost invariant = { IsRowInside };
}

impl Row {
    /// The row with these terms, whose columns rise and of which none is 0 times its column.
    pub fn new(terms: Vec<Term>, right: i128, equal: bool) -> Row
        requires terms { AreTerms 0 terms.items }
        ensures terms { result.terms ≡ terms.items }
        ensures right { result.right ≡ right }
        ensures equal { result.equal ≡ equal }
    {
        Row {
            terms,
            right,
            equal,
        }
    }

    /// The terms, their columns rising.
    pub fn terms(&self) -> &[Term]
        ensures value { result.now ≡ self.now.terms }
        ensures rising { AreTerms 0 self.now.terms }
    {
        &self.terms
    }

    /// What the terms add to, at least or exactly.
    pub fn right(&self) -> i128
        ensures { result ≡ self.now.right }
    {
        self.right
    }

    /// Whether the terms add to the right side exactly.
    pub fn is_equal(&self) -> bool
        ensures { result ≡ self.now.equal }
    {
        self.equal
    }
}
