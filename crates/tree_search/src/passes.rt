// Passes over a tree with a rising mark.
ghost use Rattle.std.specs.Prelude.{◌≡◌, ◌≤◌, ◌+◌, ℕ, List, OnOk, IfOk, None, true, false};
ghost use Rattle.tree_search.specs.Counts.{branches};
ghost use Rattle.tree_search.specs.Gaps.{IsNear};
ghost use Rattle.tree_search.specs.Guided.{AtNode, IsEnded, IsGuided, IsLater, IsSameNode, IsSoundTree};

use crate::costs::is_below;
use crate::counting::least_number;
use crate::growing::{Pass, grow};
use crate::limits::is_near;
use crate::{Guide, Limits, Node, Sought};
use std::alloc::{AllocError, Global};

// How many passes have a mark.
const PASSES: u32 = 64;

// In how many steps a mark goes from the root's number to the best cost: one for each pass.
const STEPS_TO_COST: u128 = PASSES as u128;

// In how many steps it would go from 0 to the least number, where there is no plan.
const STEPS_TO_NUMBER: u128 = 250;

// The next mark: the least number and one step, which is at least 1.
fn next_mark(least: Option<u128>, root: Option<u128>, best: Option<u128>) -> Option<u128> {
    let number = least?;
    let step = match root {
        Some(from) => match best {
            Some(cost) => cost.saturating_sub(from) / STEPS_TO_COST,
            None => number / STEPS_TO_NUMBER,
        },
        None => 1,
    };
    Some(number.saturating_add(step.max(1)))
}

// Whether the search ends before a pass: the best cost lies within the gap above the least number that a leaf says, or the
// guide ends it.
fn is_over<S, G: Guide<S>>(
    guide: &G,
    state: &mut S,
    limits: Limits,
    least: Option<u128>,
    best: Option<u128>,
) -> bool
    requires state { G.IsState guide.now state.old }
    ensures later { IsLater G.Guide guide.now state.old state.new }
    ensures over { result ≡ true → G.may_stop guide.now state.old ≡ false
        → IsNear limits.gap least best }
{
    is_near(limits.gap, least, best) || guide.stops(least, state)
}

// The mark of a pass; the last one has none.
fn mark_of(
    is_last: bool,
    least: Option<u128>,
    root: Option<u128>,
    best: Option<u128>,
) -> Option<u128>
    ensures { is_last ≡ true → result ≡ None }
{
    if is_last {
        return None;
    }
    next_mark(least, root, best)
}

/// What all passes of a search go by.
#[derive(Drop)]
pub struct Passes<'a, G> {
    /// Where branches get their memory.
    pub alloc: Global,
    /// The guide.
    pub guide: &'a G,
    /// Where the search may end though its plan isn't shown to be best.
    pub limits: Limits,
    /// The number that the root's leaf said.
    pub root: Option<u128>,
}

// What a pass leaves.
#[derive(Drop)]
struct Passed {
    // The tree.
    tree: Sought,
    // Whether the search is over.
    is_over: bool,
}

// The tree after one pass. The search is over where there is no room for a branch or no leaf is open, where it ends before
// the pass, and after the last one.
fn grow_once<S, G: Guide<S>>(
    passes: &Passes<'_, G>,
    node: &mut Node,
    state: &mut S,
    room: &mut u64,
    is_last: bool,
    first: Sought,
) -> Result<Passed, AllocError>
    requires node { AtNode node.old (IsGuided G.Guide passes.now.guide.now) }
    requires state { G.IsState passes.now.guide.now state.old }
    requires tree { AtNode node.old (IsSoundTree G.Guide passes.now.guide.now state.old first) }
    ensures same_node { OnOk result (IsSameNode node.old node.new) }
    ensures later { OnOk result (IsLater G.Guide passes.now.guide.now state.old state.new) }
    ensures rest { IfOk result (λ p. branches p.tree + room.new ≡ branches first + room.old) }
    ensures tree { IfOk result (λ p.
        AtNode node.old (IsSoundTree G.Guide passes.now.guide.now state.new p.tree)) }
    ensures ended { IfOk result (λ p. p.is_over ≡ true → G.may_stop passes.now.guide.now state.old ≡
        false
        → 1 ≤ room.new → AtNode node.old (IsEnded passes.now.limits.gap (G.cost state.new) p.tree)) }
    ensures last { IfOk result (λ p. is_last ≡ true → p.is_over ≡ true) }
{
    if *room == 0 {
        return Ok(Passed {
            tree: first,
            is_over: true,
        });
    }
    let least = least_number(&first);
    let best = passes.guide.best(state);
    if !is_below(least, best) {
        return Ok(Passed {
            tree: first,
            is_over: true,
        });
    }
    if is_over(passes.guide, state, passes.limits, least, best) {
        return Ok(Passed {
            tree: first,
            is_over: true,
        });
    }
    let mark = mark_of(is_last, least, passes.root, best);
    let pass = &Pass {
        alloc: passes.alloc,
        guide: passes.guide,
        mark,
    };
    let grown = grow(pass, node, state, room, first)?;
    Ok(Passed {
        tree: grown,
        is_over: is_last,
    })
}

// The tree after all passes, or after those before the search was over.
pub fn grow_all<S, G: Guide<S>>(
    passes: &Passes<'_, G>,
    node: &mut Node,
    state: &mut S,
    room: &mut u64,
    first: Sought,
) -> Result<Sought, AllocError>
    requires node { AtNode node.old (IsGuided G.Guide passes.now.guide.now) }
    requires state { G.IsState passes.now.guide.now state.old }
    requires tree { AtNode node.old (IsSoundTree G.Guide passes.now.guide.now state.old first) }
    ensures same_node { OnOk result (IsSameNode node.old node.new) }
    ensures later { OnOk result (IsLater G.Guide passes.now.guide.now state.old state.new) }
    ensures rest { IfOk result (λ t. branches t + room.new ≡ branches first + room.old) }
    ensures tree { IfOk result (λ t. AtNode node.old (IsSoundTree G.Guide passes.now.guide.now
        state.new t)) }
    ensures ended { IfOk result (λ t. G.may_stop passes.now.guide.now state.old ≡ false
        → 1 ≤ room.new → AtNode node.old (IsEnded passes.now.limits.gap (G.cost state.new) t)) }
{
    let mut tree = first;
    for _ in 0..PASSES {
        let passed = grow_once(passes, node, state, room, false, tree)?;
        tree = passed.tree;
        if passed.is_over {
            return Ok(tree);
        }
    }
    let passed = grow_once(passes, node, state, room, true, tree)?;
    Ok(passed.tree)
}
