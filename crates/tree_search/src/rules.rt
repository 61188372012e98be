// What a guide says of the nodes of a search.
ghost use Rattle.std.specs.Prelude.{◌≡◌, ℕ, Bool, true, false, List, length, Option, IfOk, OnOk};
ghost use Rattle.tree_search.specs.Ranges.{AreOrdered, IsAllowed, IsPoint, IsSplitAt};
ghost use Rattle.tree_search.specs.Costs.{IsAtMost, IsBelow};
ghost use Rattle.tree_search.specs.Trees.{Rules};
ghost use Rattle.tree_search.specs.Sides.{side_path, side_ranges};
ghost use Rattle.lin_rows.specs.declared.column.Column.{Column};
ghost use Rattle.tree_search.specs.declared.proposal.Proposal.{Proposal};
ghost use Rattle.tree_search.specs.declared.node.Range.{Range};
ghost use Rattle.lin_rows.specs.declared.bound.Bound.{Bound};

use crate::{Node, Proposal, Split};
use std::alloc::{AllocError, Global};

/// What a guide says of the nodes of a search, with a state of type `S` that has the best plan so far and whatever
/// the leaves stand on. The state only grows: what holds of a leaf goes on to hold.
pub trait Guide<S> {
    /// Where the columns' ranges stand.
    ghost rules: { Self → Rules };

    /// What holds of each node's ranges and path.
    ghost IsNode: { Self → List Range → List Bound → Type 0 };

    /// The second state is the first one or comes after it.
    ghost Grows: { S → S → Type 0 };

    /// What holds of each leaf in a state, with the ranges and the path there.
    ghost Holds: { Self → S → List Range → List Bound → Proposal → Type 0 };

    /// The leaf of the node above may be taken over here.
    ghost IsHeir: { Self → S → List Range → List Bound → Proposal → Type 0 };

    /// What holds of each leaf at which evidence was asked for. It depends on no state and not on the note.
    ghost IsEvident: { Self → List Range → List Bound → Proposal → Type 0 };

    /// What holds of the state, as that its plan is feasible and has the cost.
    ghost IsState: { Self → S → Type 0 };

    /// The cost of the best plan so far, and none where there is no plan.
    ghost cost: { S → Option ℕ };

    /// Whether the guide may end the search, in a state. It is the same in each later state.
    ghost may_stop: { Self → S → Bool };

    /// The cost of the best plan so far.
    fn best(&self, state: &S) -> Option<u128>
        ensures { result ≡ cost state.now };

    /// A leaf for the root. It may better the best plan, and does so at a point that the leaf leaves open.
    fn start(&self, alloc: Global, node: &Node, state: &mut S) -> Result<Proposal, AllocError>
        requires ordered { AreOrdered node.now.ranges.items }
        requires node { IsNode self.now node.now.ranges.items node.now.path.items }
        requires state { IsState self.now state.old }
        ensures state { OnOk result (IsState self.now state.new) }
        ensures grows { OnOk result (Grows state.old state.new) }
        ensures kept { OnOk result (IsAtMost (cost state.new) (cost state.old)) }
        ensures holds { IfOk result (λ p.
            Holds self.now state.new node.now.ranges.items node.now.path.items p) }
        ensures evident { IfOk result (λ p. p.examined ≡ true
            → IsEvident self.now node.now.ranges.items node.now.path.items p) }
        ensures point { IfOk result (λ p. IsBelow p.says (cost state.new)
            → IsPoint node.now.ranges.items → ⊥) };

    /// A leaf for a side of a branch, where `above` is the leaf of the node that was branched on. It may better
    /// the best plan, and does so at a point that the leaf leaves open.
    fn propose(
        &self,
        alloc: Global,
        node: &Node,
        above: &Proposal,
        state: &mut S,
    ) -> Result<Proposal, AllocError>
        requires ordered { AreOrdered node.now.ranges.items }
        requires node { IsNode self.now node.now.ranges.items node.now.path.items }
        requires state { IsState self.now state.old }
        requires heir { IsHeir self.now state.old node.now.ranges.items node.now.path.items
            above.now }
        ensures state { OnOk result (IsState self.now state.new) }
        ensures grows { OnOk result (Grows state.old state.new) }
        ensures kept { OnOk result (IsAtMost (cost state.new) (cost state.old)) }
        ensures holds { IfOk result (λ p.
            Holds self.now state.new node.now.ranges.items node.now.path.items p) }
        ensures evident { IfOk result (λ p. p.examined ≡ true
            → IsEvident self.now node.now.ranges.items node.now.path.items p) }
        ensures point { IfOk result (λ p. IsBelow p.says (cost state.new)
            → IsPoint node.now.ranges.items → ⊥) };

    /// A branch of a node with this leaf.
    fn branch(&self, node: &Node, proposal: &Proposal, state: &S) -> Split
        requires ordered { AreOrdered node.now.ranges.items }
        requires node { IsNode self.now node.now.ranges.items node.now.path.items }
        requires state { IsState self.now state.now }
        requires open { IsPoint node.now.ranges.items → ⊥ }
        ensures place { (rules self.now).place result.column ≡ result.place }
        ensures split { IsSplitAt node.now.ranges.items result.place result.at }
        ensures allowed { IsAllowed (length node.now.path.items) node.now.ranges.items result.place
            result.at };

    /// The leaf of a node once evidence was asked for there: it says at least as much.
    fn ask(
        &self,
        alloc: Global,
        node: &Node,
        proposal: Proposal,
        state: &mut S,
    ) -> Result<Proposal, AllocError>
        requires ordered { AreOrdered node.now.ranges.items }
        requires node { IsNode self.now node.now.ranges.items node.now.path.items }
        requires state { IsState self.now state.old }
        requires holds { Holds self.now state.old node.now.ranges.items node.now.path.items
            proposal }
        requires point { IsBelow proposal.says (cost state.old) → IsPoint node.now.ranges.items
            → ⊥ }
        ensures state { OnOk result (IsState self.now state.new) }
        ensures grows { OnOk result (Grows state.old state.new) }
        ensures kept { OnOk result (IsAtMost (cost state.new) (cost state.old)) }
        ensures holds { IfOk result (λ p.
            Holds self.now state.new node.now.ranges.items node.now.path.items p) }
        ensures examined { IfOk result (λ p. p.examined ≡ true) }
        ensures evident { IfOk result (λ p.
            IsEvident self.now node.now.ranges.items node.now.path.items p) }
        ensures more { IfOk result (λ p. IsAtMost proposal.says p.says) };

    /// Whether the search is to end now, though leaves are open. It is asked before each pass over the tree, with the
    /// least number that a leaf says, which is below the best cost, and before each branch, with none.
    fn stops(&self, bound: Option<u128>, state: &mut S) -> bool
        requires state { IsState self.now state.old }
        ensures state { IsState self.now state.new }
        ensures grows { Grows state.old state.new }
        ensures kept { IsAtMost (cost state.new) (cost state.old) }
        ensures never { may_stop self.now state.old ≡ false → result ≡ false };

    /// Both sides of a branch are nodes where it is one.
    ghost sides: { (guide : Self) (most : Bool) (rs : List Range) (path : List Bound) (c : Column) (at : ℕ) → IsNode guide rs path → IsSplitAt rs ((rules guide).place c) at → IsNode guide (side_ranges most rs ((rules guide).place c) at) (side_path most path c at) };

    /// A state comes after itself, or is it.
    ghost same: { (a : S) → Grows a a };

    /// What comes after a later state comes after the first one.
    ghost grows_on: { (a b c : S) → Grows a b → Grows b c → Grows a c };

    /// Whether the guide may end the search is the same in each later state.
    ghost may_on: { (guide : Self) (a b : S) → Grows a b → may_stop guide a ≡ may_stop guide b };

    /// What holds of a leaf holds in each later state.
    ghost stays: { (guide : Self) (a b : S) (rs : List Range) (path : List Bound) (p : Proposal) → Grows a b → Holds guide a rs path p → Holds guide b rs path p };

    /// Both sides of a branch may take over the leaf of the node.
    ghost heirs: { (guide : Self) (state : S) (most : Bool) (rs : List Range) (path : List Bound) (c : Column) (at : ℕ) (p : Proposal) → Holds guide state rs path p → IsSplitAt rs ((rules guide).place c) at → IsHeir guide state (side_ranges most rs ((rules guide).place c) at) (side_path most path c at) p };
}
