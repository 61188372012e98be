// What the leaves of a tree say together.
ghost use Rattle.std.specs.Prelude.{◌≡◌, ◌≤◌, true, false};
ghost use Rattle.tree_search.specs.Trees.{least_said};
ghost use Rattle.tree_search.specs.Growing.{unexamined_at, wanted, wanted_at};

use crate::costs::least_of;
use crate::{Proposal, Sought};

// The least number that a leaf says, and none where no leaf says one.
pub fn least_number(tree: &Sought) -> Option<u128>
    ensures { result ≡ least_said tree.now }
{
    match tree {
        Sought::Branch { low, high, .. } => least_of(least_number(low), least_number(high)),
        Sought::Leaf(proposal) => proposal.says,
    }
}

// Whether evidence is still to be asked for at a leaf, if it says just this number.
pub fn is_wanted(proposal: &Proposal, bound: u128) -> bool
    ensures is { result ≡ true → (wanted_at bound proposal.now ≡ 1)
        × (unexamined_at proposal.now ≡ 1) }
    ensures not { result ≡ false → wanted_at bound proposal.now ≡ 0 }
{
    match proposal.says {
        Some(number) => number == bound && !proposal.examined,
        None => false,
    }
}

// Whether evidence is still to be asked for at a leaf that says just this number.
pub fn has_wanted(tree: &Sought, bound: u128) -> bool
    ensures is { result ≡ true → 1 ≤ wanted bound tree.now }
    ensures not { result ≡ false → wanted bound tree.now ≡ 0 }
{
    match tree {
        Sought::Branch { low, high, .. } => has_wanted(low, bound) || has_wanted(high, bound),
        Sought::Leaf(proposal) => is_wanted(proposal, bound),
    }
}
