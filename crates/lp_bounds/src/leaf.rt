// The leaf that multipliers of the program make, and what it says.
ghost use Rattle.std.specs.Prelude.{◌≡◌, ◌+◌, ◌<◌, ◌^◌, length, IfOk, MatchOption};
ghost use Rattle.cert_lines.specs.Shapes.{leaf_shape};
ghost use Rattle.certificate.specs.Values.{leaf_values};
ghost use Rattle.cert_trees.specs.Paths.{AreChoices};
ghost use Rattle.cert_checker.specs.Leaves.{HasDenominator};
ghost use Rattle.lp_bounds.specs.Steps.{IsFarkasFound, IsLinearFound, IsRefused, SaysSmall};

use crate::{Exempt, PathSays};
use cert_checker::{CheckFault, leaf_bound};
use cert_lines::Leaf;
use cert_meaning::LeafSays;
use frac128::Frac;
use lin_rows::Bound;
use lot_model::{Instance, an_instance_breaks_no_rule};
use lp_relaxation::{LEAF_LINE, Side, WholeLeaf, whole_leaf};
use std::alloc::{AllocError, Global};

// What a leaf says on the path, without cuts; and None where it is refused.
fn said(
    alloc: Global,
    instance: &Instance,
    path: &[Bound],
    leaf: &Leaf,
) -> Result<Option<LeafSays>, AllocError>
    requires choices { AreChoices instance.now path.now }
    requires den { HasDenominator (leaf_shape leaf.now) }
    requires lines { 1 + length (leaf_values (leaf_shape leaf.now)) < 2 ^ 64 }
    ensures { IfOk result (λ found.
        MatchOption found (IsRefused instance.now path.now (leaf_shape leaf.now))
        (SaysSmall instance.now path.now (leaf_shape leaf.now))) }
{
    match leaf_bound(alloc, instance, &[], path, leaf, LEAF_LINE) {
        Ok(says) => Ok(Some(says)),
        Err(CheckFault::Memory) => Err(AllocError),
        Err(CheckFault::Rejected(_)) => Ok(None),
    }
}

// The leaf by linear duality of multipliers, with what it says.
pub(crate) fn linear_leaf(
    alloc: Global,
    instance: &Instance,
    path: &[Bound],
    sides: &[Side],
    multipliers: &[Frac],
) -> Result<PathSays, AllocError>
    requires choices { AreChoices instance.now path.now }
    requires size { length multipliers.now ≡ length sides.now }
    ensures { IfOk result (IsLinearFound instance.now path.now sides.now multipliers.now) }
{
    an_instance_breaks_no_rule(instance);
    let Some(WholeLeaf { den, parts }) = whole_leaf(alloc, sides, multipliers)? else {
        return Ok(PathSays::Exempt(Exempt::Leaf));
    };
    let leaf = Leaf::Linear { den, parts };
    match said(alloc, instance, path, &leaf)? {
        Some(LeafSays::AtLeast(bound)) => Ok(PathSays::AtLeast { leaf, bound }),
        // A leaf by linear duality says a number.
        Some(LeafSays::NoPlan) => unreachable!(),
        None => Ok(PathSays::Exempt(Exempt::Leaf)),
    }
}

// The leaf by Farkas' lemma of multipliers.
pub(crate) fn farkas_leaf(
    alloc: Global,
    instance: &Instance,
    path: &[Bound],
    sides: &[Side],
    multipliers: &[Frac],
) -> Result<PathSays, AllocError>
    requires choices { AreChoices instance.now path.now }
    requires size { length multipliers.now ≡ length sides.now }
    ensures { IfOk result (IsFarkasFound instance.now path.now sides.now multipliers.now) }
{
    an_instance_breaks_no_rule(instance);
    let Some(WholeLeaf { den: _, parts }) = whole_leaf(alloc, sides, multipliers)? else {
        return Ok(PathSays::Exempt(Exempt::Leaf));
    };
    let leaf = Leaf::Farkas { parts };
    match said(alloc, instance, path, &leaf)? {
        Some(LeafSays::NoPlan) => Ok(PathSays::NoPoint { leaf }),
        // A leaf by Farkas' lemma says no number.
        Some(LeafSays::AtLeast(_)) => unreachable!(),
        None => Ok(PathSays::Exempt(Exempt::Leaf)),
    }
}
