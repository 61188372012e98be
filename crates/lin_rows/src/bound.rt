// Bounds of columns.
ghost use Rattle.std.specs.Prelude.{◌≡◌, ◌↔◌, IfOk};
ghost use Rattle.lin_rows.specs.Bounds.{MeetsBound, bound_right, bound_row, bound_times};
ghost use Rattle.lin_rows.specs.Rows.{HoldsAt, LinPoint};

use crate::{Column, Row, Term};
use std::alloc::{AllocError, Global};

/// What one side of a branch says of a column: it has at most, or at least, a number of units or setups.
#[derive(Clone, Copy, Debug, PartialEq, Eq)]
pub struct Bound {
    /// The column.
    pub column: Column,
    /// Whether the number is the greatest value, and not the least.
    pub most: bool,
    /// The greatest or the least value.
    pub number: u64,
}

// How many times the row takes the column.
fn times_of(most: bool) -> i128
    ensures { result ≡ bound_times most }
{
    if most { -1 } else { 1 }
}

// The right side of the row.
fn right_of(most: bool, number: u64) -> i128
    ensures { result ≡ bound_right most number }
{
    let number = number as i128;
    if most { -number } else { number }
}

impl Bound {
    /// The row of the bound: `-column >= -number` where the number is the greatest value, and
    /// `column >= number` where it is the least. It holds at exactly the points within the bound. The error is
    /// that memory ran out.
    pub fn row(self, alloc: Global) -> Result<Row, AllocError>
        ensures row { IfOk result (λ row. row ≡ bound_row self) }
        ensures holds { IfOk result (λ row. (q : LinPoint) → (HoldsAt q row ↔ MeetsBound q self)) }
    {
        let times = times_of(self.most);
        let terms = vec![in alloc;
            Term {
                column: self.column,
                times
            },
        ]?;
        Ok(Row::new(terms, right_of(self.most, self.number), false))
    }
}
