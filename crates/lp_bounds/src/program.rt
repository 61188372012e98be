// The program of all base rows and of the bounds of a path.
ghost use Rattle.std.specs.Prelude.{◌≡◌, ◌≤◌, ◌<◌, ◌+◌, ◌^◌, ◌++◌, ◌∷◌, [], false, length, IfOk};
ghost use Rattle.lin_rows.specs.declared.base.RowName.TheVariants.{Path};
ghost use Rattle.lin_rows.specs.Bounds.{bound_row};
ghost use Rattle.lin_rows.specs.Columns.{column_count};
ghost use Rattle.cert_lines.specs.declared.limits.TheConstants.{MAX_BRANCHES};
ghost use Rattle.tableau.specs.Program.{IsProgram, column_count as width_of, row_count, with_row};
ghost use Rattle.cert_trees.specs.Paths.{AreChoices};
ghost use Rattle.cert_trees.specs.Ranges.{IsChoice};
ghost use Rattle.lp_relaxation.specs.declared.limits.TheConstants.{MAX_ROUND_SIZE};
ghost use Rattle.lp_relaxation.specs.Sides.{side, turned_row};
ghost use Rattle.lp_bounds.specs.Steps.{IsReady};

use lin_rows::{Bound, RowName};
use lot_model::{Instance, an_instance_breaks_no_rule};
use lp_relaxation::{RoundProgram, base_names_are_all, base_program, push_row};
use std::alloc::{AllocError, Global};

// The number of a bound has 64 bits.
fn is_short(number: u64)
    ensures { number < 2 ^ 64 }
{}

// Puts the row of the bound of a number on the path into the program.
fn push_bound(
    alloc: Global,
    instance: &Instance,
    number: u32,
    bound: Bound,
    program: &mut RoundProgram,
) -> Result<(), AllocError>
    requires choice { IsChoice instance.now bound.column }
    requires program { IsProgram program.old.lp }
    requires width { width_of program.old.lp ≡ column_count instance.now }
    requires few { width_of program.old.lp + row_count program.old.lp ≤ MAX_ROUND_SIZE }
    ensures lp { IfOk result (λ _. program.new.lp
        ≡ with_row program.old.lp (turned_row instance.now false (bound_row bound))) }
    ensures sides { IfOk result (λ _. program.new.sides.items
        ≡ program.old.sides.items ++ (side (Path number) false ∷ [])) }
    ensures fits { IfOk result (λ _. IsProgram program.new.lp) }
{
    is_short(bound.number);
    let row = bound.row(alloc)?;
    push_row(alloc, instance, RowName::Path(number), &row, program)
}

// The program of all rows that the rules of plans make, and of the bounds of a path.
pub(crate) fn path_program(
    alloc: Global,
    instance: &Instance,
    path: &[Bound],
) -> Result<RoundProgram, AllocError>
    requires choices { AreChoices instance.now path.now }
    requires short { length path.now ≤ MAX_BRANCHES }
    ensures { IfOk result (IsReady instance.now path.now) }
{
    base_names_are_all();
    an_instance_breaks_no_rule(instance);
    let mut program = base_program(alloc, instance)?;
    for index in 0..path.len() {
        push_bound(alloc, instance, index as u32 + 1, path[index], &mut program)?;
    }
    Ok(program)
}
