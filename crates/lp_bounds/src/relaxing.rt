// The relaxation on a path.
ghost use Rattle.std.specs.Prelude.{◌≤◌, IfOk, length};
ghost use Rattle.cert_lines.specs.declared.limits.TheConstants.{MAX_BRANCHES};
ghost use Rattle.cert_trees.specs.Paths.{AreChoices};
ghost use Rattle.lp_bounds.specs.Path.{IfAtLeast, IfExempt, IfNoPoint, IsExempt, IsMetAt, SaysAtLeast, SaysNone};
ghost use Rattle.lp_bounds.specs.Steps.{EndsEmpty, EndsLeast, IsReady, IsSaid};

use crate::leaf::{farkas_leaf, linear_leaf};
use crate::program::path_program;
use crate::{Exempt, PathSays};
use frac128::Frac;
use lin_rows::Bound;
use lot_model::{Instance, an_instance_breaks_no_rule};
use lp_relaxation::{MAX_PIVOTS, RoundProgram, base_names_are_all, empty_is_said, least_is_said};
use std::alloc::{AllocError, Global};
use tableau::Outcome;

// What is said by the multipliers of a least point.
fn least_says(
    alloc: Global,
    instance: &Instance,
    path: &[Bound],
    program: &RoundProgram,
    multipliers: &[Frac],
) -> Result<PathSays, AllocError>
    requires choices { AreChoices instance.now path.now }
    requires short { length path.now ≤ MAX_BRANCHES }
    requires ready { IsReady instance.now path.now program.now }
    requires ends { EndsLeast program.now.lp multipliers.now }
    ensures { IfOk result (IsSaid instance.now path.now) }
{
    least_is_said();
    base_names_are_all();
    an_instance_breaks_no_rule(instance);
    linear_leaf(alloc, instance, path, &program.sides, multipliers)
}

// What is said by multipliers that leave no point.
fn empty_says(
    alloc: Global,
    instance: &Instance,
    path: &[Bound],
    program: &RoundProgram,
    multipliers: &[Frac],
) -> Result<PathSays, AllocError>
    requires choices { AreChoices instance.now path.now }
    requires short { length path.now ≤ MAX_BRANCHES }
    requires ready { IsReady instance.now path.now program.now }
    requires ends { EndsEmpty program.now.lp multipliers.now }
    ensures { IfOk result (IsSaid instance.now path.now) }
{
    empty_is_said();
    base_names_are_all();
    an_instance_breaks_no_rule(instance);
    farkas_leaf(alloc, instance, path, &program.sides, multipliers)
}

// What is said by the run over the program.
fn program_says(
    alloc: Global,
    instance: &Instance,
    path: &[Bound],
    program: &RoundProgram,
) -> Result<PathSays, AllocError>
    requires choices { AreChoices instance.now path.now }
    requires short { length path.now ≤ MAX_BRANCHES }
    requires ready { IsReady instance.now path.now program.now }
    ensures { IfOk result (IsSaid instance.now path.now) }
{
    match program.lp.solve(alloc, MAX_PIVOTS)? {
        Outcome::Least { multipliers, .. } => {
            least_says(alloc, instance, path, program, &multipliers)
        }
        Outcome::Empty { multipliers } => empty_says(alloc, instance, path, program, &multipliers),
        Outcome::Stopped { .. } => Ok(PathSays::Exempt(Exempt::Pivots)),
        Outcome::Passed { pivot, row, column } => {
            Ok(PathSays::Exempt(Exempt::Cell { pivot, row, column }))
        }
    }
}

/// The relaxation without cuts of the plans that lie in a node, by the path to it: of the points that meet all rows
/// which the rules of plans make, and each bound of the path, the least cost rounded up; or that there is no such point.
///
/// The program has all rows that the rules of plans make, in the order of `lp_relaxation::base_names` with an equal row
/// twice, and then the rows of the bounds in their order. It is solved from its slack basis by the least-index rule, with
/// at most `MAX_PIVOTS` pivots.
///
/// | Answer | Where |
/// |---|---|
/// | `AtLeast` | some point that meets the rows and bounds costs at most this amount of money; the leaf is `Linear` and says that no plan of the node costs less |
/// | `NoPoint` | no point meets them; the leaf is `Farkas` and says so |
/// | `Exempt` | the run has more pivots than it may, a number of it doesn't fit 128 bits, or a number of the leaf that its multipliers make, or a sum of absolute values in it, is 2^127 or more |
///
/// The leaves name rows of the instance and bounds of the path, which are counted from 1, and no cuts. Each can be
/// written. Bounds are of quantities and setups of the instance. The error is that memory ran out.
///
/// It keeps one program and its tableau, which takes time in the number of cells for each pivot.
pub fn path_relaxation(
    alloc: Global,
    instance: &Instance,
    path: &[Bound],
) -> Result<PathSays, AllocError>
    requires choices { AreChoices instance.now path.now }
    requires short { length path.now ≤ MAX_BRANCHES }
    ensures bound { IfOk result (IfAtLeast (SaysAtLeast instance.now path.now)) }
    ensures point { IfOk result (IfAtLeast (λ _ bound. IsMetAt instance.now path.now bound)) }
    ensures none { IfOk result (IfNoPoint (SaysNone instance.now path.now)) }
    ensures exempt { IfOk result (IfExempt (IsExempt instance.now path.now)) }
{
    let program = path_program(alloc, instance, path)?;
    program_says(alloc, instance, path, &program)
}
