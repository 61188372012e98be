// A round of asking for evidence at the leaves that say a number.
ghost use Rattle.std.specs.Prelude.{◌≡◌, ◌≤◌, ◌+◌, ◌<◌, ℕ, List, OnOk, IfOk, length, true, false, None};
ghost use Rattle.tree_search.specs.Costs.{IsAtMost, lesser};
ghost use Rattle.tree_search.specs.Counts.{branches};
ghost use Rattle.tree_search.specs.Trees.{least_said};
ghost use Rattle.tree_search.specs.Growing.{unexamined, unexamined_at, wanted, wanted_at};
ghost use Rattle.tree_search.specs.Guided.{AtNode, AtSide, IsBranchOf, IsGuided, IsLater, IsSameNode, IsSoundLeaf, IsSoundTree, StaysDeep, StaysDeepJoined};

use crate::counting::is_wanted;
use crate::growing::join;
use crate::side::{enter, leave};
use crate::{Guide, Node, Proposal, Sought, Split};
use std::alloc::{AllocError, Global};
use std::boxed::Box;

/// What a round of asking goes by.
#[derive(Drop)]
pub struct Asking<'a, G> {
    /// Where its answers get their memory.
    pub alloc: Global,
    /// The guide, which is asked.
    pub guide: &'a G,
    /// Leaves that say just this number are asked at.
    pub bound: u128,
}

// A leaf, after evidence was asked for if it says just this number.
fn ask_leaf<S, G: Guide<S>>(
    alloc: Global,
    guide: &G,
    node: &Node,
    state: &mut S,
    bound: u128,
    proposal: Proposal,
) -> Result<Proposal, AllocError>
    requires node { AtNode node.now (IsGuided G.Guide guide.now) }
    requires state { G.IsState guide.now state.old }
    requires sound { AtNode node.now (IsSoundLeaf G.Guide guide.now state.old proposal) }
    ensures later { OnOk result (IsLater G.Guide guide.now state.old state.new) }
    ensures sound { IfOk result (λ p. AtNode node.now (IsSoundLeaf G.Guide guide.now state.new p)) }
    ensures fewer { IfOk result (λ p. unexamined_at p + wanted_at bound proposal
        ≡ unexamined_at proposal) }
    ensures more { IfOk result (λ p. IsAtMost proposal.says p.says) }
{
    if is_wanted(&proposal, bound) {
        return guide.ask(alloc, node, proposal, state);
    }
    Ok(proposal)
}

// The tree, after evidence was asked for at each leaf that says just this number and at which it wasn't asked for
// before. The node is as before. It calls itself for each branch on the way to a leaf.
#[cycle(ask)]
pub fn ask_tree<S, G: Guide<S>>(
    asking: &Asking<'_, G>,
    node: &mut Node,
    state: &mut S,
    tree: Sought,
) -> Result<Sought, AllocError>
    requires node { AtNode node.old (IsGuided G.Guide asking.now.guide.now) }
    requires state { G.IsState asking.now.guide.now state.old }
    requires tree { AtNode node.old (IsSoundTree G.Guide asking.now.guide.now state.old tree) }
    ensures same_node { OnOk result (IsSameNode node.old node.new) }
    ensures later { OnOk result (IsLater G.Guide asking.now.guide.now state.old state.new) }
    ensures count { IfOk result (λ t. branches t ≡ branches tree) }
    ensures tree { IfOk result (λ t. AtNode node.old (IsSoundTree G.Guide asking.now.guide.now
        state.new t)) }
    ensures fewer { IfOk result (λ t. unexamined t + wanted asking.now.bound tree
        ≡ unexamined tree) }
    ensures deep { IfOk result (λ t.
        AtNode node.old (StaysDeep G.Guide state.old state.new tree t)) }
    ensures risen { IfOk result (λ t. IsAtMost (least_said tree) (least_said t)) }
{
    match tree {
        Sought::Branch {
            column,
            place,
            at,
            low,
            high,
        } => ask_branch(
            asking,
            node,
            state,
            Split { column, place, at },
            Box::into_inner(low),
            Box::into_inner(high),
        ),
        Sought::Leaf(proposal) => Ok(Sought::Leaf(ask_leaf(
            asking.alloc,
            asking.guide,
            node,
            state,
            asking.bound,
            proposal,
        )?)),
    }
}

// Asks for evidence at the leaves below a branch with these sides.
#[cycle(ask)]
fn ask_branch<S, G: Guide<S>>(
    asking: &Asking<'_, G>,
    node: &mut Node,
    state: &mut S,
    split: Split,
    low: Sought,
    high: Sought,
) -> Result<Sought, AllocError>
    requires node { AtNode node.old (IsGuided G.Guide asking.now.guide.now) }
    requires state { G.IsState asking.now.guide.now state.old }
    requires branch { AtNode node.old (IsBranchOf (G.rules asking.now.guide.now) split) }
    requires low { AtSide true node.old split (IsSoundTree G.Guide asking.now.guide.now state.old
        low) }
    requires high { AtSide false node.old split (IsSoundTree G.Guide asking.now.guide.now state.old
        high) }
    ensures same_node { OnOk result (IsSameNode node.old node.new) }
    ensures later { OnOk result (IsLater G.Guide asking.now.guide.now state.old state.new) }
    ensures count { IfOk result (λ t. branches t ≡ branches low + branches high + 1) }
    ensures tree { IfOk result (λ t. AtNode node.old (IsSoundTree G.Guide asking.now.guide.now
        state.new t)) }
    ensures fewer { IfOk result (λ t.
        unexamined t + wanted asking.now.bound low + wanted asking.now.bound high
        ≡ unexamined low + unexamined high) }
    ensures deep { IfOk result (StaysDeepJoined G.Guide state.old state.new node.old split low
        high) }
    ensures risen { IfOk result (λ t.
        IsAtMost (lesser (least_said low) (least_said high)) (least_said t)) }
{
    let left = ask_side(asking, node, state, split, true, low)?;
    let right = ask_side(asking, node, state, split, false, high)?;
    Ok(join(asking.alloc, split, left, right)?)
}

// Asks for evidence at the leaves below one side of a branch.
#[cycle(ask)]
fn ask_side<S, G: Guide<S>>(
    asking: &Asking<'_, G>,
    node: &mut Node,
    state: &mut S,
    split: Split,
    most: bool,
    tree: Sought,
) -> Result<Sought, AllocError>
    requires node { AtNode node.old (IsGuided G.Guide asking.now.guide.now) }
    requires state { G.IsState asking.now.guide.now state.old }
    requires branch { AtNode node.old (IsBranchOf (G.rules asking.now.guide.now) split) }
    requires tree { AtSide most node.old split (IsSoundTree G.Guide asking.now.guide.now state.old
        tree) }
    ensures same_node { OnOk result (IsSameNode node.old node.new) }
    ensures later { OnOk result (IsLater G.Guide asking.now.guide.now state.old state.new) }
    ensures count { IfOk result (λ t. branches t ≡ branches tree) }
    ensures tree { IfOk result (λ t.
        AtSide most node.old split (IsSoundTree G.Guide asking.now.guide.now state.new t)) }
    ensures fewer { IfOk result (λ t. unexamined t + wanted asking.now.bound tree
        ≡ unexamined tree) }
    ensures deep { IfOk result (λ t.
        AtSide most node.old split (StaysDeep G.Guide state.old state.new tree t)) }
    ensures risen { IfOk result (λ t. IsAtMost (least_said tree) (least_said t)) }
{
    let range = enter::<S, G>(asking.guide, node, split, most)?;
    let examined = ask_tree(asking, node, state, tree)?;
    leave(node, split.place, range);
    Ok(examined)
}
