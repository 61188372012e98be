// One pass over a tree: leaves below a mark are branched on.
ghost use Rattle.std.specs.Prelude.{◌≡◌, ◌≤◌, ◌+◌, ◌<◌, ℕ, List, OnOk, IfOk, length, true, false};
ghost use Rattle.cert_lines.specs.declared.limits.TheConstants.{MAX_BRANCHES};
ghost use Rattle.tree_search.specs.Costs.{IsBelow};
ghost use Rattle.tree_search.specs.Counts.{branches};
ghost use Rattle.tree_search.specs.Guided.{AreDeep, AtNode, AtSide, IsBranchOf, IsGuided, IsLater, IsSameNode, IsSoundLeaf, IsSoundTree};
ghost use Rattle.tree_search.specs.Joined.{IsBranch};

use crate::costs::is_below;
use crate::side::{Side, enter, leave};
use crate::splitting::propose_sides;
use crate::{Guide, Node, Proposal, Sought, Split};
use cert_lines::MAX_BRANCHES;
use std::alloc::{AllocError, Global};
use std::boxed::Box;

/// What a pass over a tree goes by.
#[derive(Drop)]
pub struct Pass<'a, G> {
    /// Where branches get their memory.
    pub alloc: Global,
    /// The guide.
    pub guide: &'a G,
    /// Leaves below it are branched on; all that are left open, where there is none.
    pub mark: Option<u128>,
}

// The trees of the two sides of a branch.
#[derive(Drop)]
struct Halves {
    low: Sought,
    high: Sought,
}

// Whether a leaf is branched on: there is room for a branch, and the leaf is below the mark and the best cost.
fn is_branched(
    room: u64,
    depth: usize,
    says: Option<u128>,
    mark: Option<u128>,
    best: Option<u128>,
) -> bool
    ensures open { result ≡ true → ((1 ≤ room) × (depth < MAX_BRANCHES) × IsBelow says best) }
    ensures shut { result ≡ false → 1 ≤ room → IsBelow says mark → IsBelow says best
        → MAX_BRANCHES ≤ depth }
{
    room >= 1 && depth < MAX_BRANCHES as usize && is_below(says, mark) && is_below(says, best)
}

// Whether a leaf is branched on, and the guide doesn't end the search there.
fn goes_on<S, G: Guide<S>>(
    guide: &G,
    state: &mut S,
    room: u64,
    depth: usize,
    says: Option<u128>,
    mark: Option<u128>,
) -> bool
    requires state { G.IsState guide.now state.old }
    ensures later { IsLater G.Guide guide.now state.old state.new }
    ensures open { result ≡ true → ((1 ≤ room) × (depth < MAX_BRANCHES)
        × IsBelow says (G.cost state.old)) }
    ensures shut { result ≡ false → G.may_stop guide.now state.old ≡ false
        → 1 ≤ room → IsBelow says mark → IsBelow says (G.cost state.new) → MAX_BRANCHES ≤ depth }
{
    let best = guide.best(state);
    is_branched(room, depth, says, mark, best) && !guide.stops(None, state)
}

// A branch with its two sides.
pub fn join(alloc: Global, split: Split, low: Sought, high: Sought) -> Result<Sought, AllocError>
    ensures { IfOk result (λ t. IsBranch t split.column split.place split.at low high) }
{
    Ok(Sought::Branch {
        column: split.column,
        place: split.place,
        at: split.at,
        low: Box::new(alloc, low)?,
        high: Box::new(alloc, high)?,
    })
}

// The tree with branches in the place of each leaf below the mark, and below them, as long as there is room and the
// guide doesn't end the search. The node is as before. It calls itself for each branch on the way to a leaf.
#[cycle(grow)]
pub fn grow<S, G: Guide<S>>(
    pass: &Pass<'_, G>,
    node: &mut Node,
    state: &mut S,
    room: &mut u64,
    tree: Sought,
) -> Result<Sought, AllocError>
    requires node { AtNode node.old (IsGuided G.Guide pass.now.guide.now) }
    requires state { G.IsState pass.now.guide.now state.old }
    requires tree { AtNode node.old (IsSoundTree G.Guide pass.now.guide.now state.old tree) }
    ensures same_node { OnOk result (IsSameNode node.old node.new) }
    ensures later { OnOk result (IsLater G.Guide pass.now.guide.now state.old state.new) }
    ensures less { OnOk result (room.new ≤ room.old) }
    ensures rest { IfOk result (λ t. branches t + room.new ≡ branches tree + room.old) }
    ensures tree { IfOk result (λ t. AtNode node.old (IsSoundTree G.Guide pass.now.guide.now
        state.new t)) }
    ensures deep { IfOk result (λ t. G.may_stop pass.now.guide.now state.old ≡ false
        → 1 ≤ room.new → AtNode node.old (AreDeep pass.now.mark (G.cost state.new) t)) }
{
    match tree {
        Sought::Branch {
            column,
            place,
            at,
            low,
            high,
        } => {
            let split = Split { column, place, at };
            let halves = Halves {
                low: Box::into_inner(low),
                high: Box::into_inner(high),
            };
            grow_branch(pass, node, state, room, split, halves)
        }
        Sought::Leaf(proposal) => grow_leaf(pass, node, state, room, proposal),
    }
}

// Grows a leaf: where it is below the mark, a branch takes its place.
#[cycle(grow)]
fn grow_leaf<S, G: Guide<S>>(
    pass: &Pass<'_, G>,
    node: &mut Node,
    state: &mut S,
    room: &mut u64,
    proposal: Proposal,
) -> Result<Sought, AllocError>
    requires node { AtNode node.old (IsGuided G.Guide pass.now.guide.now) }
    requires state { G.IsState pass.now.guide.now state.old }
    requires sound { AtNode node.old (IsSoundLeaf G.Guide pass.now.guide.now state.old proposal) }
    ensures same_node { OnOk result (IsSameNode node.old node.new) }
    ensures later { OnOk result (IsLater G.Guide pass.now.guide.now state.old state.new) }
    ensures less { OnOk result (room.new ≤ room.old) }
    ensures rest { IfOk result (λ t. branches t + room.new ≡ room.old) }
    ensures tree { IfOk result (λ t. AtNode node.old (IsSoundTree G.Guide pass.now.guide.now
        state.new t)) }
    ensures deep { IfOk result (λ t. G.may_stop pass.now.guide.now state.old ≡ false
        → 1 ≤ room.new → AtNode node.old (AreDeep pass.now.mark (G.cost state.new) t)) }
{
    if !goes_on(
        pass.guide,
        state,
        *room,
        node.path.len(),
        proposal.says,
        pass.mark,
    ) {
        return Ok(Sought::Leaf(proposal));
    }
    let split = pass.guide.branch(node, &proposal, state);
    let sides = propose_sides(pass.alloc, pass.guide, node, state, &proposal, split)?;
    *room -= 1;
    let halves = Halves {
        low: Sought::Leaf(sides.low),
        high: Sought::Leaf(sides.high),
    };
    grow_branch(pass, node, state, room, split, halves)
}

// Grows the leaves below a branch with these sides.
#[cycle(grow)]
fn grow_branch<S, G: Guide<S>>(
    pass: &Pass<'_, G>,
    node: &mut Node,
    state: &mut S,
    room: &mut u64,
    split: Split,
    halves: Halves,
) -> Result<Sought, AllocError>
    requires node { AtNode node.old (IsGuided G.Guide pass.now.guide.now) }
    requires state { G.IsState pass.now.guide.now state.old }
    requires branch { AtNode node.old (IsBranchOf (G.rules pass.now.guide.now) split) }
    requires low { AtSide true node.old split (IsSoundTree G.Guide pass.now.guide.now state.old
        halves.low) }
    requires high { AtSide false node.old split (IsSoundTree G.Guide pass.now.guide.now state.old
        halves.high) }
    ensures same_node { OnOk result (IsSameNode node.old node.new) }
    ensures later { OnOk result (IsLater G.Guide pass.now.guide.now state.old state.new) }
    ensures less { OnOk result (room.new ≤ room.old) }
    ensures rest { IfOk result (λ t. branches t + room.new
        ≡ branches halves.low + branches halves.high + 1 + room.old) }
    ensures tree { IfOk result (λ t. AtNode node.old (IsSoundTree G.Guide pass.now.guide.now
        state.new t)) }
    ensures deep { IfOk result (λ t. G.may_stop pass.now.guide.now state.old ≡ false
        → 1 ≤ room.new → AtNode node.old (AreDeep pass.now.mark (G.cost state.new) t)) }
{
    let Halves { low, high } = halves;
    let low_side = Side { split, most: true };
    let high_side = Side { split, most: false };
    let left = grow_side(pass, node, state, room, low_side, low)?;
    let right = grow_side(pass, node, state, room, high_side, high)?;
    Ok(join(pass.alloc, split, left, right)?)
}

// Grows the leaves below one side of a branch.
#[cycle(grow)]
fn grow_side<S, G: Guide<S>>(
    pass: &Pass<'_, G>,
    node: &mut Node,
    state: &mut S,
    room: &mut u64,
    side: Side,
    tree: Sought,
) -> Result<Sought, AllocError>
    requires node { AtNode node.old (IsGuided G.Guide pass.now.guide.now) }
    requires state { G.IsState pass.now.guide.now state.old }
    requires branch { AtNode node.old (IsBranchOf (G.rules pass.now.guide.now) side.split) }
    requires tree { AtSide side.most node.old side.split (IsSoundTree G.Guide pass.now.guide.now
        state.old tree) }
    ensures same_node { OnOk result (IsSameNode node.old node.new) }
    ensures later { OnOk result (IsLater G.Guide pass.now.guide.now state.old state.new) }
    ensures less { OnOk result (room.new ≤ room.old) }
    ensures rest { IfOk result (λ t. branches t + room.new ≡ branches tree + room.old) }
    ensures tree { IfOk result (λ t.
        AtSide side.most node.old side.split (IsSoundTree G.Guide pass.now.guide.now state.new t)) }
    ensures deep { IfOk result (λ t. G.may_stop pass.now.guide.now state.old ≡ false
        → 1 ≤ room.new → AtSide side.most node.old side.split (AreDeep pass.now.mark (G.cost
        state.new) t)) }
{
    let range = enter::<S, G>(pass.guide, node, side.split, side.most)?;
    let grown = grow(pass, node, state, room, tree)?;
    leave(node, side.split.place, range);
    Ok(grown)
}
