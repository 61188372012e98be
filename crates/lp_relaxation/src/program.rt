// The rows of a linear program from named rows.
ghost use Rattle.std.specs.Prelude.{◌≡◌, ◌++◌, ◌∷◌, [], IfOk};
ghost use Rattle.std.specs.List.{All};
ghost use Rattle.frac128.specs.Limits.{IsSmall};
ghost use Rattle.lot_model.specs.Views.{IsInstance};
ghost use Rattle.lin_rows.specs.Columns.{IsColumn, column_count};
ghost use Rattle.tableau.specs.Held.{inequality_of};
ghost use Rattle.tableau.specs.Program.{IsRow};
ghost use Rattle.lp_relaxation.specs.Laws.{HasSmallNumbers};
ghost use Rattle.lp_relaxation.specs.Made.{FitProgram, PutSides};
ghost use Rattle.lp_relaxation.specs.Sides.{lp_term, sides_of, turn, turned_row};

use crate::laws::sides_are_rows;
use lin_rows::{Row, RowName, Term, column_number};
use lot_model::Instance;
use std::alloc::{AllocError, Global};
use tableau::{LpRow, LpTerm};

/// Which row a row of the program is, and whether its signs are changed.
#[derive(Clone, Copy, Debug, PartialEq, Eq)]
pub struct Side {
    /// The row's name.
    pub name: RowName,
    /// Whether the signs are changed, as in the second of the two rows that stand for an equal one.
    pub turned: bool,
}

// A number with its sign changed, or as it is.
pub(crate) fn turn(number: i128, turned: bool) -> i128
    requires { IsSmall number }
    ensures value { result ≡ turn turned number }
    ensures small { IsSmall result }
{
    if turned { -number } else { number }
}

// A term by the number of its column.
fn lp_term(instance: &Instance, term: Term, turned: bool) -> LpTerm
    requires column { IsColumn instance.now term.column }
    requires small { IsSmall term.times }
    ensures value { result ≡ lp_term instance.now turned term }
{
    let column = column_number(instance, term.column).unwrap_or(0);
    LpTerm {
        column,
        times: turn(term.times, turned),
    }
}

// A row over the columns by their numbers, as it is or with all signs changed.
pub(crate) fn lp_row(
    alloc: Global,
    instance: &Instance,
    row: &Row,
    turned: bool,
) -> Result<LpRow, AllocError>
    requires instance { IsInstance instance.now }
    requires columns { All (λ a. IsColumn instance.now a.column) row.now.terms }
    requires small { HasSmallNumbers row.now }
    ensures value { IfOk result (λ r. inequality_of r ≡ turned_row instance.now turned row.now) }
    ensures fits { IfOk result (λ r. IsRow (column_count instance.now) (inequality_of r)) }
{
    sides_are_rows();
    let mut terms = Vec::new(alloc);
    for term in row.terms() {
        terms.push(lp_term(instance, *term, turned))?;
    }
    Ok(LpRow {
        terms,
        right: turn(row.right(), turned),
    })
}

// Puts a side of a row after others.
fn put_side(
    alloc: Global,
    instance: &Instance,
    row: &Row,
    one: Side,
    sides: &mut Vec<Side>,
    rows: &mut Vec<LpRow>,
) -> Result<(), AllocError>
    requires instance { IsInstance instance.now }
    requires columns { All (λ a. IsColumn instance.now a.column) row.now.terms }
    requires small { HasSmallNumbers row.now }
    ensures sides { IfOk result (λ _. sides.new.items ≡ sides.old.items ++ (one ∷ [])) }
    ensures rows { IfOk result (λ _.
        PutSides instance.now row.now (one ∷ []) rows.old.items rows.new.items) }
    ensures fit { IfOk result (λ _. FitProgram instance.now rows.old.items
        → FitProgram instance.now rows.new.items) }
{
    rows.push(lp_row(alloc, instance, row, one.turned)?)?;
    sides.push(one)?;
    Ok(())
}

// Puts the sides of a row of this name after those of other rows, and their inequalities after theirs: an equal row
// twice, first as it is and then with all signs changed.
pub(crate) fn put_row(
    alloc: Global,
    instance: &Instance,
    name: RowName,
    row: &Row,
    sides: &mut Vec<Side>,
    rows: &mut Vec<LpRow>,
) -> Result<(), AllocError>
    requires instance { IsInstance instance.now }
    requires columns { All (λ a. IsColumn instance.now a.column) row.now.terms }
    requires small { HasSmallNumbers row.now }
    ensures sides { IfOk result (λ _. sides.new.items
        ≡ sides.old.items ++ sides_of name row.now.equal) }
    ensures rows { IfOk result (λ _.
        PutSides instance.now row.now (sides_of name row.now.equal) rows.old.items rows.new.items) }
    ensures fit { IfOk result (λ _. FitProgram instance.now rows.old.items
        → FitProgram instance.now rows.new.items) }
{
    let plain = Side {
        name,
        turned: false,
    };
    put_side(alloc, instance, row, plain, sides, rows)?;
    if row.is_equal() {
        let changed = Side { name, turned: true };
        put_side(alloc, instance, row, changed, sides, rows)?;
    }
    Ok(())
}
