// The program of a round: all rows that the rules of plans make, and then cuts.
ghost use Rattle.std.specs.Prelude.{◌≡◌, ◌≤◌, ◌+◌, ◌++◌, ◌∷◌, [], false, IfOk};
ghost use Rattle.std.specs.List.{All};
ghost use Rattle.lot_model.specs.Views.{IsInstance};
ghost use Rattle.lin_rows.specs.Base.{HasRow};
ghost use Rattle.lin_rows.specs.Columns.{IsColumn, column_count};
ghost use Rattle.tableau.specs.Program.{IsProgram, column_count as width_of, row_count, with_row};
ghost use Rattle.lp_relaxation.specs.declared.limits.TheConstants.{MAX_ROUND_SIZE};
ghost use Rattle.lp_relaxation.specs.Laws.{HasSmallNumbers, IsSized};
ghost use Rattle.lp_relaxation.specs.Made.{AreRowsFor, AreSidesFor, FitProgram, IsRowFor};
ghost use Rattle.lp_relaxation.specs.Rounds.{IsFirstRound};
ghost use Rattle.lp_relaxation.specs.Sides.{side, turned_row};

use crate::costs::column_costs;
use crate::laws::{base_names_are_all, rounds_are_few, rows_are_small};
use crate::names::base_names;
use crate::program::{Side, lp_row, put_row};
use lin_rows::{Row, RowFault, RowName, base_row};
use lot_model::{Instance, an_instance_breaks_no_rule};
use std::alloc::{AllocError, Global};
use tableau::{Lp, LpRow};

/// The linear program of a round, and which row each of its rows is.
#[derive(Debug, Drop)]
pub struct RoundProgram {
    /// The program.
    pub lp: Lp,
    /// One side of a row for each of its rows.
    pub sides: Vec<Side>,
}

// The row of a name that the rules make.
fn named_row(alloc: Global, instance: &Instance, name: RowName) -> Result<Row, AllocError>
    requires { HasRow instance.now name }
    ensures row { IfOk result (IsRowFor instance.now name) }
    ensures columns { IfOk result (λ row. All (λ a. IsColumn instance.now a.column) row.terms) }
    ensures small { IfOk result HasSmallNumbers }
{
    rows_are_small();
    match base_row(alloc, instance, name) {
        Ok(row) => Ok(row),
        Err(RowFault::Memory) => Err(AllocError),
        // The rules make a row of this name.
        Err(RowFault::NoSuchRow) => unreachable!(),
    }
}

// Puts the sides of the rows of names into empty lists, and their inequalities.
fn put_named(
    alloc: Global,
    instance: &Instance,
    names: &[RowName],
    sides: &mut Vec<Side>,
    rows: &mut Vec<LpRow>,
) -> Result<(), AllocError>
    requires instance { IsInstance instance.now }
    requires named { All (HasRow instance.now) names.now }
    requires no_side { sides.old.items ≡ [] }
    requires no_row { rows.old.items ≡ [] }
    ensures sides { IfOk result (λ _. AreSidesFor instance.now names.now sides.new.items) }
    ensures rows { IfOk result (λ _. AreRowsFor instance.now names.now rows.new.items) }
    ensures fit { IfOk result (λ _. FitProgram instance.now rows.new.items) }
{
    for index in 0..names.len() {
        let row = named_row(alloc, instance, names[index])?;
        put_row(alloc, instance, names[index], &row, sides, rows)?;
    }
    Ok(())
}

/// The program of the first round: all rows that the rules of plans make, in the order of `base_names`, an equal one
/// twice. The error is that memory ran out.
pub fn base_program(alloc: Global, instance: &Instance) -> Result<RoundProgram, AllocError>
    ensures round { IfOk result (λ found. IsFirstRound instance.now found.lp found.sides.items) }
    ensures fits { IfOk result (λ found. IsProgram found.lp) }
    ensures width { IfOk result (λ found. width_of found.lp ≡ column_count instance.now) }
    ensures sized { IfOk result (λ found. IsSized found.lp found.sides.items) }
{
    base_names_are_all();
    rounds_are_few();
    an_instance_breaks_no_rule(instance);
    let costs = column_costs(alloc, instance)?;
    let names = base_names(alloc, instance)?;
    let mut sides = Vec::new(alloc);
    let mut rows = Vec::new(alloc);
    put_named(alloc, instance, &names, &mut sides, &mut rows)?;
    Ok(RoundProgram {
        lp: Lp::new(costs, rows),
        sides,
    })
}

/// Adds a row that isn't equal after the others, as a cut. The program, which can be given to `Lp::new`, has at most
/// `MAX_ROUND_SIZE` columns and rows so far. With the name of the next cut it is that of the next round, as `rounds_grow`
/// says. The error is that memory ran out; the round is no further use then.
pub fn push_row(
    alloc: Global,
    instance: &Instance,
    name: RowName,
    row: &Row,
    round: &mut RoundProgram,
) -> Result<(), AllocError>
    requires columns { All (λ a. IsColumn instance.now a.column) row.now.terms }
    requires small { HasSmallNumbers row.now }
    requires unequal { row.now.equal ≡ false }
    requires program { IsProgram round.old.lp }
    requires width { width_of round.old.lp ≡ column_count instance.now }
    requires few { width_of round.old.lp + row_count round.old.lp ≤ MAX_ROUND_SIZE }
    ensures lp { IfOk result (λ _. round.new.lp
        ≡ with_row round.old.lp (turned_row instance.now false row.now)) }
    ensures sides { IfOk result (λ _. round.new.sides.items
        ≡ round.old.sides.items ++ (side name false ∷ [])) }
    ensures fits { IfOk result (λ _. IsProgram round.new.lp) }
{
    an_instance_breaks_no_rule(instance);
    let made = lp_row(alloc, instance, row, false)?;
    round.sides.push(Side {
        name,
        turned: false,
    })?;
    round.lp.push(made)?;
    Ok(())
}
