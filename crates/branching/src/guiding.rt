// What the guide of a model's search says of its nodes.
ghost use Rattle.std.specs.Prelude.{◌≡◌, true, false, IfOk, OnOk};
ghost use Rattle.cert_lines.specs.Shapes.{leaf_shape};
ghost use Rattle.tree_search.specs.Costs.{IsBelow};
ghost use Rattle.tree_search.specs.Ranges.{AreOrdered, IsPoint};
ghost use Rattle.branching.specs.Branching.{after_on_with, after_same_with, kept_lasts, kept_stays};
ghost use Rattle.node_domains.specs.Sides.{node_side};
ghost use Rattle.branching.specs.Knowing.{IsAfterWith, IsKeptIn, IsKnownBy, IsLastingIn, IsNodeIn, IsReached, IsEvidentIn, KnowsMore, ranges_in};
ghost use Rattle.incumbent.specs.Kept.{cost_kept};
ghost use Rattle.node_domains.specs.Nodes.{choice_rules};

use crate::asking::with_evidence;
use crate::knowing::Known;
use crate::plugged::{Guided, State, Watched};
use crate::pointing::{at_point, keep_built};
use crate::pricing::priced;
use crate::splitting::split_of;
use cert_lines::copy_leaf;
use echelon::Explosion;
use incumbent::best_cost;
use lot_model::Instance;
use node_domains::{Ranges, open_setup};
use search_plugins::{Heuristic, Proposer, Watch};
use search_result::RootSays;
use std::alloc::{AllocError, Global};
use tree_search::{Guide, Node, Proposal, Split, is_below, open_place};

/// The immutable data of a search: the model, the ranges, and what the root or the items apart prove.
#[derive(Drop)]
pub(crate) struct Model<'a> {
    /// The model.
    pub(crate) instance: &'a Instance,
    /// The ranges within which plans are sought.
    pub(crate) ranges: &'a Ranges,
    /// The units of each item in each other.
    pub(crate) explosion: Explosion,
    /// The newest version that the certificate's text may have, whose lines leaves may take.
    pub(crate) version: u32,
    /// What was said at the root.
    pub(crate) root: RootSays,
    /// No plan costs less, in money.
    pub(crate) least: u128,
    /// The leaf that says so.
    pub(crate) first: Proposal,
}

// The leaf of the node above, for a node below it.
fn taken_over(alloc: Global, above: &Proposal) -> Result<Proposal, AllocError>
    ensures leaf { IfOk result (λ p. leaf_shape p.leaf ≡ leaf_shape above.now.leaf) }
    ensures says { IfOk result (λ p. p.says ≡ above.now.says) }
    ensures examined { IfOk result (λ p. p.examined ≡ false) }
{
    Ok(Proposal {
        leaf: copy_leaf(alloc, &above.leaf)?,
        says: above.says,
        examined: false,
        note: above.note,
    })
}

// The leaf of the node above, which says as much here.
fn inherited(
    alloc: Global,
    model: &Model,
    node: &Node,
    above: &Proposal,
    known: &Known,
) -> Result<Proposal, AllocError>
    requires above { IsLastingIn model.now known.now node.now.path.items above.now }
    ensures lasting { IfOk result (IsLastingIn model.now known.now node.now.path.items) }
    ensures examined { IfOk result (λ p. p.examined ≡ false) }
{
    taken_over(alloc, above)
}

// Whether the relaxation on the path is solved at a node: where all setups are chosen and the leaf leaves the node open,
// so that it says what they cost at least but for whole quantities.
fn is_relaxed(model: &Model, node: &Node, proposal: &Proposal, known: &Known) -> bool
    requires { IsNodeIn model.now node.now.ranges.items node.now.path.items }
{
    is_below(proposal.says, best_cost(&known.best))
        && open_setup(model.instance, &node.ranges).is_none()
}

// A leaf for a node that isn't one choice: that of the node above, that of a proposal, or what the relaxation on the
// path says, where it is solved. Plans with the setups that are chosen by then are tried beside.
fn leaf_between<P: Proposer, H: Heuristic<P::Hint>>(
    alloc: Global,
    guided: &Guided<'_, P, H>,
    node: &Node,
    above: &Proposal,
    state: &mut State<P::State, H::State>,
) -> Result<Proposal, AllocError>
    requires reached { IsReached guided.now.model state.old.known node.now }
    requires above { IsLastingIn guided.now.model state.old.known node.now.path.items above.now }
    ensures more { OnOk result (KnowsMore guided.now.model state.old.known state.new.known) }
    ensures leaf { IfOk result (IsKeptIn guided.now.model state.new.known node.now.ranges.items
        node.now.path.items) }
    ensures evident { IfOk result (λ p. p.examined ≡ true
        → IsEvidentIn guided.now.model node.now.path.items p) }
{
    let model = &guided.model;
    let same = inherited(alloc, model, node, above, &state.known)?;
    let proposal = priced(alloc, guided, node, same, state)?;
    if !is_relaxed(model, node, &proposal, &state.known) {
        return Ok(proposal);
    }
    let effort = &mut state.effort;
    keep_built(
        alloc,
        model,
        guided.heuristic,
        node,
        effort,
        &mut state.known,
    )?;
    with_evidence(alloc, model, node, proposal)
}

// A leaf for a node, where that of the node above says as much here.
fn leaf_for<P: Proposer, H: Heuristic<P::Hint>>(
    alloc: Global,
    guided: &Guided<'_, P, H>,
    node: &Node,
    above: &Proposal,
    state: &mut State<P::State, H::State>,
) -> Result<Proposal, AllocError>
    requires ordered { AreOrdered node.now.ranges.items }
    requires reached { IsReached guided.now.model state.old.known node.now }
    requires above { IsLastingIn guided.now.model state.old.known node.now.path.items above.now }
    ensures more { OnOk result (KnowsMore guided.now.model state.old.known state.new.known) }
    ensures leaf { IfOk result (IsKeptIn guided.now.model state.new.known node.now.ranges.items
        node.now.path.items) }
    ensures evident { IfOk result (λ p. p.examined ≡ true
        → IsEvidentIn guided.now.model node.now.path.items p) }
    ensures closed { IfOk result (λ p. IsBelow p.says (cost_kept state.new.known.best)
        → IsPoint node.now.ranges.items → ⊥) }
{
    if open_place(&node.ranges).is_none() {
        return at_point(alloc, &guided.model, node, &mut state.known);
    }
    leaf_between(alloc, guided, node, above, state)
}

// A leaf for a node, of which the watcher is told.
fn watched_leaf<P: Proposer, H: Heuristic<P::Hint>, W: Watch>(
    alloc: Global,
    guided: &Guided<'_, P, H>,
    node: &Node,
    above: &Proposal,
    state: &mut Watched<P::State, H::State, W>,
) -> Result<Proposal, AllocError>
    requires ordered { AreOrdered node.now.ranges.items }
    requires reached { IsReached guided.now.model state.old.work.known node.now }
    requires above { IsLastingIn guided.now.model state.old.work.known node.now.path.items
        above.now }
    ensures more { OnOk result (KnowsMore guided.now.model state.old.work.known
        state.new.work.known) }
    ensures leaf { IfOk result (IsKeptIn guided.now.model state.new.work.known node.now.ranges.items
        node.now.path.items) }
    ensures evident { IfOk result (λ p. p.examined ≡ true
        → IsEvidentIn guided.now.model node.now.path.items p) }
    ensures closed { IfOk result (λ p. IsBelow p.says (cost_kept state.new.work.known.best)
        → IsPoint node.now.ranges.items → ⊥) }
    ensures may { W.may_stop state.new.watch ≡ W.may_stop state.old.watch }
    ensures ended { state.new.is_ended ≡ state.old.is_ended }
{
    let leaf = leaf_for(alloc, guided, node, above, &mut state.work)?;
    let cost = best_cost(&state.work.known.best);
    state.watch.node(node.path.len(), leaf.says, cost);
    Ok(leaf)
}

// Whether what watches ends the search. Before a pass it is told of it. Once it has ended the search it is asked no more.
fn is_stopped<W: Watch>(
    watch: &mut W,
    is_ended: bool,
    bound: Option<u128>,
    cost: Option<u128>,
) -> bool
    requires ended { W.may_stop watch.old ≡ false → is_ended ≡ false }
    ensures may { W.may_stop watch.new ≡ W.may_stop watch.old }
    ensures never { W.may_stop watch.old ≡ false → result ≡ false }
{
    if is_ended {
        return true;
    }
    if bound.is_some() {
        watch.pass(bound, cost);
    }
    watch.stops()
}

impl<P: Proposer, H: Heuristic<P::Hint>, W: Watch> Guide<Watched<P::State, H::State, W>>
    for Guided<'_, P, H> {
    ghost rules = { λ g. choice_rules g.model.instance.now };

    ghost IsNode = { λ g rs path. IsNodeIn g.model rs path };

    ghost Grows = { λ a b. IsAfterWith a.work.known b.work.known (W.may_stop a.watch) (W.may_stop b.watch) };

    ghost Holds = { λ g k rs path p. IsKeptIn g.model k.work.known rs path p };

    ghost IsHeir = { λ g k rs path p. IsLastingIn g.model k.work.known path p };

    ghost IsEvident = { λ g rs path p. IsEvidentIn g.model path p };

    ghost IsState = { λ g k. IsKnownBy g.model k.work.known k.is_ended (W.may_stop k.watch) };

    ghost cost = { λ k. cost_kept k.work.known.best };

    ghost may_stop = { λ g k. W.may_stop k.watch };

    fn best(&self, state: &Watched<P::State, H::State, W>) -> Option<u128> {
        best_cost(&state.work.known.best)
    }

    fn start(
        &self,
        alloc: Global,
        node: &Node,
        state: &mut Watched<P::State, H::State, W>,
    ) -> Result<Proposal, AllocError> {
        watched_leaf(alloc, self, node, &self.model.first, state)
    }

    fn propose(
        &self,
        alloc: Global,
        node: &Node,
        above: &Proposal,
        state: &mut Watched<P::State, H::State, W>,
    ) -> Result<Proposal, AllocError> {
        watched_leaf(alloc, self, node, above, state)
    }

    fn branch(
        &self,
        node: &Node,
        proposal: &Proposal,
        state: &Watched<P::State, H::State, W>,
    ) -> Split {
        let instance = self.model.instance;
        let place = self
            .proposer
            .branch(instance, &node.ranges, proposal.note, &state.work.notes);
        split_of(instance, &node.ranges, place)
    }

    fn ask(
        &self,
        alloc: Global,
        node: &Node,
        proposal: Proposal,
        _state: &mut Watched<P::State, H::State, W>,
    ) -> Result<Proposal, AllocError> {
        with_evidence(alloc, &self.model, node, proposal)
    }

    fn stops(&self, bound: Option<u128>, state: &mut Watched<P::State, H::State, W>) -> bool {
        let cost = best_cost(&state.work.known.best);
        state.is_ended = is_stopped(&mut state.watch, state.is_ended, bound, cost);
        state.is_ended
    }

    ghost sides = { λ g most rs path c at node split. node_side g.model.instance.now (ranges_in g.model) most rs path c at node split };

    ghost same = { λ a. after_same_with a.work.known (W.may_stop a.watch) };

    ghost grows_on = { λ a b c. after_on_with a.work.known b.work.known c.work.known (W.may_stop a.watch) (W.may_stop b.watch) (W.may_stop c.watch) };

    ghost may_on = { λ g a b after. after.may };

    ghost stays = { λ g a b rs path p after is. kept_stays g.model.instance.now (ranges_in g.model) g.model.version g.model.least a.work.known b.work.known rs path p after.after is };

    ghost heirs = { λ g k most rs path c at p is split. kept_lasts g.model.instance.now (ranges_in g.model) g.model.version g.model.least k.work.known.rows.items most rs path c ((choice_rules g.model.instance.now).place c) at p is split };
}
