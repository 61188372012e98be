// The leaves of both sides of a branch.
ghost use Rattle.std.specs.Prelude.{◌≡◌, ℕ, true, false, List, OnOk, IfOk};
ghost use Rattle.tree_search.specs.Guided.{AreSoundSides, AtNode, AtSide, IsBranchOf, IsGuided, IsLater, IsSameNode, IsSoundLeaf};

use crate::side::{Side, enter, leave};
use crate::{Guide, Node, Proposal, Split};
use std::alloc::{AllocError, Global};

/// The leaves of the two sides of a branch.
#[derive(Debug, Drop)]
pub struct Sides {
    /// Of the low side.
    pub low: Proposal,
    /// Of the high side.
    pub high: Proposal,
}

// A leaf for a side of a branch, which may take over that of the node.
fn propose_side<S, G: Guide<S>>(
    alloc: Global,
    guide: &G,
    node: &mut Node,
    state: &mut S,
    above: &Proposal,
    side: Side,
) -> Result<Proposal, AllocError>
    requires node { AtNode node.old (IsGuided G.Guide guide.now) }
    requires state { G.IsState guide.now state.old }
    requires branch { AtNode node.old (IsBranchOf (G.rules guide.now) side.split) }
    requires holds { G.Holds guide.now state.old node.old.ranges.items node.old.path.items
        above.now }
    ensures same_node { OnOk result (IsSameNode node.old node.new) }
    ensures later { OnOk result (IsLater G.Guide guide.now state.old state.new) }
    ensures sound { IfOk result (λ p.
        AtSide side.most node.old side.split (IsSoundLeaf G.Guide guide.now state.new p)) }
{
    let range = enter::<S, G>(guide, node, side.split, side.most)?;
    let proposal = guide.propose(alloc, node, above, state)?;
    leave(node, side.split.place, range);
    Ok(proposal)
}

// Leaves for both sides of a branch. The node is as before.
pub fn propose_sides<S, G: Guide<S>>(
    alloc: Global,
    guide: &G,
    node: &mut Node,
    state: &mut S,
    above: &Proposal,
    split: Split,
) -> Result<Sides, AllocError>
    requires node { AtNode node.old (IsGuided G.Guide guide.now) }
    requires state { G.IsState guide.now state.old }
    requires branch { AtNode node.old (IsBranchOf (G.rules guide.now) split) }
    requires holds { G.Holds guide.now state.old node.old.ranges.items node.old.path.items
        above.now }
    ensures same_node { OnOk result (IsSameNode node.old node.new) }
    ensures later { OnOk result (IsLater G.Guide guide.now state.old state.new) }
    ensures node { OnOk result (AtNode node.new (IsGuided G.Guide guide.now)) }
    ensures branch { OnOk result (AtNode node.new (IsBranchOf (G.rules guide.now) split)) }
    ensures sound { IfOk result (AreSoundSides G.Guide guide.now state.new node.new split) }
{
    let low_side = Side { split, most: true };
    let high_side = Side { split, most: false };
    let low = propose_side(alloc, guide, node, state, above, low_side)?;
    let high = propose_side(alloc, guide, node, state, above, high_side)?;
    Ok(Sides { low, high })
}
