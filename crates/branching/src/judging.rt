// Leaves that are proposed, judged as the checker of certificates does.
ghost use Rattle.std.specs.Prelude.{◌≡◌, false, IfSome, OnOk};
ghost use Rattle.cert_lines.specs.Shapes.{leaf_shape};
ghost use Rattle.plan_rules.specs.Rows.{IfFound};
ghost use Rattle.tree_search.specs.Costs.{IsAtMost};
ghost use Rattle.branching.specs.Adding.{IsTested};
ghost use Rattle.branching.specs.Knowing.{IsJudgedIn, IsLastingIn, IsReached, KnowsTheSame};
ghost use Rattle.branching.specs.Leaves.{said};
ghost use Rattle.leaf_growth.specs.Growth.{IsOfRows};

use crate::guiding::Model;
use crate::knowing::Known;
use cert_checker::{CheckFault, leaf_bound_in};
use cert_meaning::LeafSays;
use certificate::{Leaf, has_leaf_lines};
use lot_model::an_instance_breaks_no_rule;
use std::alloc::{AllocError, Global};
use tree_search::{Node, Proposal, is_below};

// A leaf with what it says.
fn proposal_of(leaf: Leaf, says: LeafSays) -> Proposal
    ensures leaf { result.leaf ≡ leaf }
    ensures says { said result.says ≡ says }
    ensures examined { result.examined ≡ false }
{
    Proposal {
        leaf,
        says: match says {
            LeafSays::NoPlan => None,
            LeafSays::AtLeast(amount) => Some(amount),
        },
        examined: false,
        note: None,
    }
}

// What the checker says of a leaf whose lines are those of texts; None where it refuses the leaf.
fn bound_of(
    alloc: Global,
    model: &Model,
    node: &Node,
    known: &mut Known,
    leaf: Leaf,
) -> Result<Option<Proposal>, AllocError>
    requires reached { IsReached model.now known.old node.now }
    requires tested { IsTested model.now.version (leaf_shape leaf) }
    ensures same { OnOk result (KnowsTheSame model.now known.old known.new) }
    ensures judged { IfFound result (IsJudgedIn model.now known.old node.now.path.items) }
{
    an_instance_breaks_no_rule(model.instance);
    let sums = &mut known.sums;
    let said = leaf_bound_in(
        alloc,
        model.instance,
        sums,
        &known.rows,
        &node.path,
        &leaf,
        0,
    );
    match said {
        Ok(says) => Ok(Some(proposal_of(leaf, says))),
        Err(CheckFault::Memory) => Err(AllocError),
        Err(CheckFault::Rejected(_)) => Ok(None),
    }
}

/// A leaf with what the checker says of it at a node; None where the leaf is refused, or has no lines in
/// texts of the latest version.
pub(crate) fn judged(
    alloc: Global,
    model: &Model,
    node: &Node,
    known: &mut Known,
    leaf: Leaf,
) -> Result<Option<Proposal>, AllocError>
    requires reached { IsReached model.now known.old node.now }
    requires rows { IsOfRows (leaf_shape leaf) }
    ensures same { OnOk result (KnowsTheSame model.now known.old known.new) }
    ensures judged { IfFound result (IsJudgedIn model.now known.old node.now.path.items) }
{
    if has_leaf_lines(&leaf, model.version) {
        bound_of(alloc, model, node, known, leaf)
    } else {
        Ok(None)
    }
}

/// The leaf that says more: the one that was there, or the one that was found.
pub(crate) fn stronger(
    model: &Model,
    node: &Node,
    known: &Known,
    proposal: Proposal,
    found: Option<Proposal>,
) -> Proposal
    requires lasting { IsLastingIn model.now known.now node.now.path.items proposal }
    requires judged { IfSome found (IsJudgedIn model.now known.now node.now.path.items) }
    requires examined { proposal.examined ≡ false }
    ensures lasting { IsLastingIn model.now known.now node.now.path.items result }
    ensures more { IsAtMost proposal.says result.says }
    ensures examined { result.examined ≡ false }
{
    match found {
        Some(other) => {
            if is_below(proposal.says, other.says) {
                other
            } else {
                proposal
            }
        }
        None => proposal,
    }
}
