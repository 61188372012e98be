// Evidence at the leaves that say the least number.
ghost use Rattle.std.specs.Prelude.{◌≡◌, ◌≤◌, ◌<◌, ◌+◌, ℕ, List, OnOk, IfOk, IfSome, None, Some, true, false};
ghost use Rattle.tree_search.specs.Counts.{branches};
ghost use Rattle.tree_search.specs.Growing.{IsSettled, IsWanting, unexamined};
ghost use Rattle.tree_search.specs.Guided.{AtNode, IsGuided, IsLater, IsSameNode, IsSoundTree, StaysEnded};

use crate::asking::{Asking, ask_tree};
use crate::costs::is_below;
use crate::counting::{has_wanted, least_number};
use crate::{Guide, Node, Sought};
use std::alloc::{AllocError, Global};

// Whether the least number that a leaf says is below the best cost, and evidence is still to be asked for there.
fn wants_evidence(best: Option<u128>, tree: &Sought) -> bool
    ensures more { result ≡ true → IsWanting tree.now }
    ensures settled { result ≡ false → IsSettled best tree.now }
{
    match least_number(tree) {
        Some(bound) => is_below(Some(bound), best) && has_wanted(tree, bound),
        None => false,
    }
}

// The tree after evidence was asked for at the leaves that say the least number.
fn ask_least<S, G: Guide<S>>(
    alloc: Global,
    guide: &G,
    node: &mut Node,
    state: &mut S,
    tree: Sought,
) -> Result<Sought, AllocError>
    requires node { AtNode node.old (IsGuided G.Guide guide.now) }
    requires state { G.IsState guide.now state.old }
    requires tree { AtNode node.old (IsSoundTree G.Guide guide.now state.old tree) }
    ensures same_node { OnOk result (IsSameNode node.old node.new) }
    ensures later { OnOk result (IsLater G.Guide guide.now state.old state.new) }
    ensures count { IfOk result (λ t. branches t ≡ branches tree) }
    ensures tree { IfOk result (λ t. AtNode node.old (IsSoundTree G.Guide guide.now state.new t)) }
    ensures fewer { IfOk result (λ t. IsWanting tree → unexamined t < unexamined tree) }
    ensures ended { IfOk result (λ t.
        AtNode node.old (StaysEnded G.Guide state.old state.new tree t)) }
{
    match least_number(&tree) {
        Some(bound) => {
            let asking = &Asking {
                alloc,
                guide,
                bound,
            };
            let asked = ask_tree(asking, node, state, tree)?;
            Ok(asked)
        }
        None => Ok(tree),
    }
}

// The tree after evidence was asked for wherever a leaf says the least number, if that is below the best cost. A
// number may rise, so that another one is least: then evidence is asked for there. Each leaf is asked once.
pub fn settle<S, G: Guide<S>>(
    alloc: Global,
    guide: &G,
    node: &mut Node,
    state: &mut S,
    first: Sought,
) -> Result<Sought, AllocError>
    requires node { AtNode node.old (IsGuided G.Guide guide.now) }
    requires state { G.IsState guide.now state.old }
    requires tree { AtNode node.old (IsSoundTree G.Guide guide.now state.old first) }
    ensures later { OnOk result (IsLater G.Guide guide.now state.old state.new) }
    ensures count { IfOk result (λ t. branches t ≡ branches first) }
    ensures tree { IfOk result (λ t. AtNode node.old (IsSoundTree G.Guide guide.now state.new t)) }
    ensures settled { IfOk result (λ t. IsSettled (G.cost state.new) t) }
    ensures ended { IfOk result (λ t.
        AtNode node.old (StaysEnded G.Guide state.old state.new first t)) }
{
    let mut tree = first;
    while wants_evidence(guide.best(state), &tree) {
        tree = ask_least(alloc, guide, node, state, tree)?;
    }
    Ok(tree)
}
