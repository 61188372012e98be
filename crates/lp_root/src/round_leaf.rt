// The leaf of a round, and what it says.
ghost use Rattle.std.specs.Prelude.{◌≡◌, length, IfOk, IsNone};
ghost use Rattle.lin_rows.specs.Combining.{AreOfProblem};
ghost use Rattle.cert_lines.specs.Shapes.{leaf_shape};
ghost use Rattle.cert_checker.specs.Leaves.{HasDenominator};
ghost use Rattle.search_result.specs.declared.found.PassedAt.TheVariants as passed;
ghost use Rattle.search_result.specs.declared.found.RootSays.TheVariants.{Passed};
ghost use Rattle.lp_relaxation.specs.Leaves.{farkas, linear};
ghost use Rattle.lp_root.specs.RootSteps.{IsJudged, IsLeafOf};

use cert_checker::{CheckFault, leaf_bound};
use cert_meaning::LeafSays;
use certificate::{Cut, Leaf};
use frac128::Frac;
use lin_rows::Row;
use lot_model::Instance;
use lp_relaxation::{LEAF_LINE, Side, WholeLeaf, whole_leaf};
use search_result::{PassedAt, RootSays};
use std::alloc::{AllocError, Global};

/// What is said at the root, with what proves it.
#[derive(Debug, Drop)]
pub struct Root {
    /// What is said.
    pub says: RootSays,
    /// The (l,S) cuts that were found, in their order.
    pub cuts: Vec<Cut>,
    /// Where the relaxation is closed or empty, a leaf that says so over the rows of the cuts.
    pub leaf: Option<Leaf>,
}

// What is said at the root, with its leaf.
#[derive(Debug, Drop)]
pub(crate) struct Verdict {
    pub(crate) says: RootSays,
    pub(crate) leaf: Option<Leaf>,
}

// What is said without a leaf.
pub(crate) fn without_leaf(says: RootSays) -> Verdict
    ensures says { result.says ≡ says }
    ensures leaf { IsNone result.leaf }
{
    Verdict { says, leaf: None }
}

// A number or a sum of the leaf of a round isn't small.
fn leaf_passed(round: u32) -> Verdict
    ensures says { result.says ≡ Passed round passed.Leaf }
    ensures leaf { IsNone result.leaf }
{
    let at = PassedAt::Leaf;
    without_leaf(RootSays::Passed { round, at })
}

// What a leaf says over the rows of the cuts, without a path; or that it is refused.
fn judge(
    alloc: Global,
    instance: &Instance,
    rows: &[Row],
    leaf: Leaf,
    round: u32,
) -> Result<Verdict, AllocError>
    requires columns { AreOfProblem instance.now rows.now }
    requires den { HasDenominator (leaf_shape leaf) }
    ensures { IfOk result (λ verdict.
        IsJudged instance.now rows.now (leaf_shape leaf) round verdict.says verdict.leaf) }
{
    let says = match leaf_bound(alloc, instance, rows, &[], &leaf, LEAF_LINE) {
        Ok(LeafSays::AtLeast(amount)) => RootSays::Closed(amount),
        Ok(LeafSays::NoPlan) => RootSays::Empty,
        Err(CheckFault::Memory) => return Err(AllocError),
        Err(CheckFault::Rejected(_)) => return Ok(leaf_passed(round)),
    };
    Ok(Verdict {
        says,
        leaf: Some(leaf),
    })
}

// What the leaf by linear duality of multipliers says.
pub(crate) fn linear_leaf(
    alloc: Global,
    instance: &Instance,
    rows: &[Row],
    sides: &[Side],
    multipliers: &[Frac],
    round: u32,
) -> Result<Verdict, AllocError>
    requires columns { AreOfProblem instance.now rows.now }
    requires size { length multipliers.now ≡ length sides.now }
    ensures { IfOk result (IsLeafOf instance.now rows.now sides.now multipliers.now linear round) }
{
    match whole_leaf(alloc, sides, multipliers)? {
        Some(WholeLeaf { den, parts }) => {
            judge(alloc, instance, rows, Leaf::Linear { den, parts }, round)
        }
        None => Ok(leaf_passed(round)),
    }
}

// What the leaf by Farkas' lemma of multipliers says.
pub(crate) fn farkas_leaf(
    alloc: Global,
    instance: &Instance,
    rows: &[Row],
    sides: &[Side],
    multipliers: &[Frac],
    round: u32,
) -> Result<Verdict, AllocError>
    requires columns { AreOfProblem instance.now rows.now }
    requires size { length multipliers.now ≡ length sides.now }
    ensures { IfOk result (IsLeafOf instance.now rows.now sides.now multipliers.now farkas round) }
{
    match whole_leaf(alloc, sides, multipliers)? {
        Some(WholeLeaf { den: _, parts }) => {
            judge(alloc, instance, rows, Leaf::Farkas { parts }, round)
        }
        None => Ok(leaf_passed(round)),
    }
}
