// Leaves that are proposed, and the plans that their work leads to.
ghost use Rattle.std.specs.Prelude.{◌≡◌, ◌≤◌, false, IfOk, IfSome, OnOk, length};
ghost use Rattle.cert_lines.specs.declared.limits.TheConstants.{MAX_CUTS};
ghost use Rattle.cert_lines.specs.Shapes.{leaf_shape};
ghost use Rattle.plan_rules.specs.Rows.{IfFound};
ghost use Rattle.branching.specs.Knowing.{IsJudgedIn, IsKnown, IsLastingIn, IsReached, KnowsMore, KnowsMoreRows, KnowsTheSame};
ghost use Rattle.leaf_growth.specs.Growth.{IsOfRows};

use crate::adding::add_cuts;
use crate::guiding::Model;
use crate::judging::{judged, stronger};
use crate::knowing::Known;
use crate::plugged::{Guided, State};
use cert_lines::Leaf;
use certificate::{Cut, MAX_CUTS};
use incumbent::best_cost;
use lot_model::Instance;
use search_plugins::{Heuristic, LeafWanted, OpenNode, Progress, Proposed, Proposer, Space};
use std::alloc::{AllocError, Global};
use tree_search::{Node, Proposal, is_below};

// Whether there is room for a cut of each item.
fn may_add_cuts(instance: &Instance, known: &Known) -> bool {
    let most = MAX_CUTS as usize;
    known.cuts.len() <= most && most - known.cuts.len() >= instance.items() as usize
}

// The work at a node goes on until no more is of use. Plans are proposed in between.
fn improve<P: Proposer, H: Heuristic<P::Hint>>(
    alloc: Global,
    guided: &Guided<'_, P, H>,
    node: &Node,
    state: &mut State<P::State, H::State>,
    work: &mut P::Work,
) -> Result<(), AllocError>
    requires { IsKnown guided.now.model state.old.known }
    ensures { OnOk result (KnowsMore guided.now.model state.old.known state.new.known) }
{
    let instance = guided.model.instance;
    let ranges = guided.model.ranges;
    let proposer = guided.proposer;
    for _time in 0..proposer.times(node) {
        let cost = best_cost(&state.known.best);
        let at = OpenNode {
            instance,
            node,
            cost,
        };
        match proposer.improve(alloc, at, &state.notes, work)? {
            Progress::Open => {}
            Progress::Done => return Ok(()),
        }
        let hint = proposer.hint(work);
        let space = Space { instance, ranges };
        let best = &mut state.known.best;
        let effort = &mut state.effort;
        guided.heuristic.by_hint(alloc, space, hint, effort, best)?;
    }
    Ok(())
}

// The number of the next cut, counted from 1.
fn next_number(known: &Known) -> u32
    requires { length known.now.cuts.items ≤ MAX_CUTS }
{
    known.cuts.len() as u32 + 1
}

// Adds the cuts of a leaf, and judges it.
fn judged_with(
    alloc: Global,
    model: &Model,
    node: &Node,
    known: &mut Known,
    cuts: Vec<Cut>,
    leaf: Leaf,
) -> Result<Option<Proposal>, AllocError>
    requires reached { IsReached model.now known.old node.now }
    requires rows { IsOfRows (leaf_shape leaf) }
    ensures more { OnOk result (KnowsMoreRows model.now known.old known.new) }
    ensures judged { IfFound result (IsJudgedIn model.now known.new node.now.path.items) }
{
    if !add_cuts(alloc, model, known, cuts)? {
        return Ok(None);
    }
    judged(alloc, model, node, known, leaf)
}

// The leaf that is proposed, judged.
fn leaf_of<P: Proposer, H: Heuristic<P::Hint>>(
    alloc: Global,
    guided: &Guided<'_, P, H>,
    node: &Node,
    state: &mut State<P::State, H::State>,
    work: &P::Work,
    says: Option<u128>,
) -> Result<Option<Proposal>, AllocError>
    requires reached { IsReached guided.now.model state.old.known node.now }
    ensures more { OnOk result (KnowsMoreRows guided.now.model state.old.known state.new.known) }
    ensures judged { IfFound result (IsJudgedIn guided.now.model state.new.known
        node.now.path.items) }
{
    let model = &guided.model;
    let first_cut = next_number(&state.known);
    let wanted = LeafWanted { says, first_cut };
    let found = guided
        .proposer
        .leaf(alloc, model.instance, &state.notes, work, wanted)?;
    let known = &mut state.known;
    match found {
        Some(Proposed { cuts, leaf }) => judged_with(alloc, model, node, known, cuts, leaf),
        None => Ok(None),
    }
}

// The proposal with another note.
fn with_note(proposal: Proposal, note: Option<usize>) -> Proposal
    ensures leaf { result.leaf ≡ proposal.leaf }
    ensures says { result.says ≡ proposal.says }
    ensures examined { result.examined ≡ proposal.examined }
{
    Proposal { note, ..proposal }
}

// The place of a note for those below a node; None where the node isn't open.
fn noted<P: Proposer, H: Heuristic<P::Hint>>(
    alloc: Global,
    guided: &Guided<'_, P, H>,
    node: &Node,
    state: &mut State<P::State, H::State>,
    work: P::Work,
    says: Option<u128>,
) -> Result<Option<usize>, AllocError>
    ensures { OnOk result (state.new.known ≡ state.old.known) }
{
    let instance = guided.model.instance;
    let cost = best_cost(&state.known.best);
    if !is_below(says, cost) {
        return Ok(None);
    }
    let at = OpenNode {
        instance,
        node,
        cost,
    };
    let notes = &mut state.notes;
    guided.proposer.close(alloc, at, work, notes)
}

/// The leaf of a node: the one that was there, or one that is proposed where it says more. One is asked for where the
/// leaf that was there leaves the node open, and where there is room for cuts. Plans are proposed beside.
pub(crate) fn priced<P: Proposer, H: Heuristic<P::Hint>>(
    alloc: Global,
    guided: &Guided<'_, P, H>,
    node: &Node,
    proposal: Proposal,
    state: &mut State<P::State, H::State>,
) -> Result<Proposal, AllocError>
    requires reached { IsReached guided.now.model state.old.known node.now }
    requires lasting { IsLastingIn guided.now.model state.old.known node.now.path.items proposal }
    requires examined { proposal.examined ≡ false }
    ensures more { OnOk result (KnowsMore guided.now.model state.old.known state.new.known) }
    ensures lasting { IfOk result (IsLastingIn guided.now.model state.new.known
        node.now.path.items) }
    ensures examined { IfOk result (λ p. p.examined ≡ false) }
{
    let model = &guided.model;
    let proposer = guided.proposer;
    let is_open = is_below(proposal.says, best_cost(&state.known.best));
    if !is_open || !may_add_cuts(model.instance, &state.known) {
        return Ok(proposal);
    }
    let above = proposal.note;
    let notes = &mut state.notes;
    let mut work = proposer.open(alloc, model.instance, node, above, notes)?;
    improve(alloc, guided, node, state, &mut work)?;
    let says = proposal.says;
    let found = leaf_of(alloc, guided, node, state, &work, says)?;
    let stronger = stronger(model, node, &mut state.known, proposal, found);
    let says = stronger.says;
    let note = noted(alloc, guided, node, state, work, says)?;
    Ok(with_note(stronger, note))
}
