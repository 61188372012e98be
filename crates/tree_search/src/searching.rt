// A search of all ranges, and what it shows.
ghost use Rattle.std.specs.Prelude.{◌≡◌, ◌≤◌, ◌+◌, ◌*◌, ℕ, [], length, None, Option, OnOk, IfOk, false};
ghost use Rattle.cert_lines.specs.declared.limits.TheConstants.{MAX_BRANCHES};
ghost use Rattle.tree_search.specs.Counts.{branches, longest, nodes};
ghost use Rattle.tree_search.specs.Ranges.{AreOrdered, height, volume};
ghost use Rattle.tree_search.specs.Costs.{IsAtMost};
ghost use Rattle.tree_search.specs.Trees.{EachLeaf, IsSplitTree};
ghost use Rattle.tree_search.specs.Growing.{IsSettled};
ghost use Rattle.tree_search.specs.Guided.{IsEnded, IsGuided, IsLater, IsSoundTree};
ghost use Rattle.tree_search.specs.Claims.{HasCause, IsBound, IsLeastClaim, IsShown, IsEvidenced};

use crate::counting::least_number;
use crate::passes::{Passes, grow_all};
use crate::settling::settle;
use crate::{Guide, Limits, Node, Range, Searched, Sought};
use cert_lines::Claim;
use std::alloc::{AllocError, Global};

// The claim of a cost and the least number that a leaf says.
fn claim_of(best: Option<u128>, least: Option<u128>) -> Claim
    ensures { IsLeastClaim best least result }
{
    match (least, best) {
        (Some(bound), None) => Claim::Bound(bound),
        (Some(bound), Some(cost)) => {
            if bound < cost {
                Claim::Bound(bound)
            } else {
                Claim::Optimal(cost)
            }
        }
        (None, Some(cost)) => Claim::Optimal(cost),
        (None, None) => Claim::Infeasible,
    }
}

// The tree of a search with room for so many branches.
fn search_tree<S, G: Guide<S>>(
    alloc: Global,
    guide: &G,
    ranges: Vec<Range>,
    state: &mut S,
    limits: Limits,
    room: &mut u64,
) -> Result<Sought, AllocError>
    requires node { IsGuided G.Guide guide.now ranges.items [] }
    requires state { G.IsState guide.now state.old }
    ensures later { OnOk result (IsLater G.Guide guide.now state.old state.new) }
    ensures rest { IfOk result (λ t. branches t + room.new ≡ room.old) }
    ensures tree { IfOk result (λ t. IsSoundTree G.Guide guide.now state.new t ranges.items []) }
    ensures settled { IfOk result (λ t. IsSettled (G.cost state.new) t) }
    ensures ended { IfOk result (λ t. G.may_stop guide.now state.old ≡ false
        → 1 ≤ room.new → IsEnded limits.gap (G.cost state.new) t ranges.items []) }
{
    let mut node = Node {
        ranges,
        path: Vec::new(alloc),
    };
    let first = guide.start(alloc, &node, state)?;
    let passes = &Passes {
        alloc,
        guide,
        limits,
        root: first.says,
    };
    let leaf = Sought::Leaf(first);
    let grown = grow_all(passes, &mut node, state, room, leaf)?;
    let settled = settle(alloc, guide, &mut node, state, grown)?;
    Ok(settled)
}

/// Searches all choices in the ranges, with at most so many nodes. The claim is a bound only for one of four
/// causes: two more nodes would pass the budget; all leaves that are left open have `MAX_BRANCHES` branches above
/// them; the best cost lies within the gap of the limits above the bound; or the guide may end the search. Where a bound
/// is claimed, evidence was asked for at each leaf that says just this number. It fails only where memory runs out.
///
/// Whether the search is over is looked at before each pass over the tree; the guide's word is asked for before each
/// branch too.
pub fn search<S, G: Guide<S>>(
    alloc: Global,
    guide: &G,
    ranges: Vec<Range>,
    state: &mut S,
    budget: u64,
    limits: Limits,
) -> Result<Searched, AllocError>
    requires ordered { AreOrdered ranges.items }
    requires node { G.IsNode guide.now ranges.items [] }
    requires state { G.IsState guide.now state.old }
    requires budget { 1 ≤ budget }
    ensures state { OnOk result (G.IsState guide.now state.new) }
    ensures grows { OnOk result (G.Grows state.old state.new) }
    ensures kept { OnOk result (IsAtMost (G.cost state.new) (G.cost state.old)) }
    ensures nodes { IfOk result (λ s. nodes s.tree ≡ s.nodes) }
    ensures within { IfOk result (λ s. s.nodes ≤ budget) }
    ensures short { IfOk result (λ s. longest s.tree ≤ MAX_BRANCHES) }
    ensures split { IfOk result (λ s. IsSplitTree (G.rules guide.now).place ranges.items s.tree) }
    ensures holds { IfOk result (λ s.
        EachLeaf (G.rules guide.now).place (G.Holds guide.now state.new) ranges.items [] s.tree) }
    ensures shown { IfOk result (λ s.
        IsShown (G.rules guide.now) (G.cost state.new) ranges.items s.tree s.claim) }
    ensures evidence { IfOk result (λ s.
        IsEvidenced (G.rules guide.now) (G.IsEvident guide.now) ranges.items s.tree s.claim) }
    ensures cause { IfOk result (λ s.
        HasCause (G.rules guide.now) (G.cost state.new) budget limits.gap
        (G.may_stop guide.now state.old) ranges.items s.tree s.claim) }
    ensures decided { IfOk result (λ s. limits.gap ≡ None → G.may_stop guide.now state.old ≡ false
        → 2 * volume ranges.items ≤ budget + 1 → height ranges.items ≤ MAX_BRANCHES
        → IsBound s.claim → ⊥) }
{
    let all = (budget - 1) / 2;
    let mut room = all;
    let tree = search_tree(alloc, guide, ranges, state, limits, &mut room)?;
    Ok(Searched {
        claim: claim_of(guide.best(state), least_number(&tree)),
        tree,
        nodes: 2 * (all - room) + 1,
    })
}
