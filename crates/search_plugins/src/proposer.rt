// What proposes leaves and branches.
ghost use Rattle.std.specs.Prelude.{◌≡◌, length};
ghost use Rattle.tree_search.specs.Ranges.{AreOrdered, IsPoint};
ghost use Rattle.node_domains.specs.Nodes.{choice_count};
ghost use Rattle.plan_rules.specs.Rows.{IfFound};
ghost use Rattle.search_plugins.specs.Proposals.{IsProposal};

use cert_lines::{Cut, Leaf};
use lot_model::Instance;
use std::alloc::{AllocError, Global};
use tree_search::{Node, Range};

/// Cuts, and a leaf over them and over those that are there.
#[derive(Debug, Drop)]
pub struct Proposed {
    /// The cuts, which are tested.
    pub cuts: Vec<Cut>,
    /// The leaf, which is judged.
    pub leaf: Leaf,
}

/// Whether more work at a node may be of use.
#[derive(Clone, Copy, Debug, PartialEq, Eq)]
pub enum Progress {
    /// It may be.
    Open,
    /// It isn't.
    Done,
}

/// An open node of a model, while the search is at it.
#[derive(Clone, Copy)]
pub struct OpenNode<'a> {
    /// The model.
    pub instance: &'a Instance,
    /// The node.
    pub node: &'a Node,
    /// What the best plan so far costs, None where there is none.
    pub cost: Option<u128>,
}

/// What a leaf is asked for.
#[derive(Clone, Copy, Debug)]
pub struct LeafWanted {
    /// It is expected to say more than this, which is None where the node's leaf says that there is no plan.
    pub says: Option<u128>,
    /// The number of its first cut, counted from 1.
    pub first_cut: u32,
}

/// What proposes leaves and branches. Each leaf is judged and each cut tested by the search: nothing is claimed of what a leaf
/// says, and a place is taken only where it can be branched on.
///
/// Amounts are in money. An error is that memory ran out; the search then ends with the same error.
pub trait Proposer {
    /// What is remembered from node to node.
    type State: Drop;

    /// The work at a node.
    type Work: Drop;

    /// What those that propose plans are told of the work at a node.
    type Hint;

    /// The state before the first node.
    fn begin(&self, alloc: Global, instance: &Instance) -> Result<Self::State, AllocError>;

    /// The work at a node begins. `above` is the place of the note of the node above, as `close` gave it, where there is one.
    fn open(
        &self,
        alloc: Global,
        instance: &Instance,
        node: &Node,
        above: Option<usize>,
        state: &mut Self::State,
    ) -> Result<Self::Work, AllocError>;

    /// How often it is gone on with, at most.
    fn times(&self, node: &Node) -> u32;

    /// It is gone on with.
    fn improve(
        &self,
        alloc: Global,
        at: OpenNode<'_>,
        state: &Self::State,
        work: &mut Self::Work,
    ) -> Result<Progress, AllocError>;

    /// What those that propose plans are told.
    fn hint<'a>(&self, work: &'a Self::Work) -> &'a Self::Hint;

    /// A leaf, where it is expected to say more than what is wanted. It takes rows by their names; a leaf that has no lines in
    /// certificates isn't taken.
    fn leaf(
        &self,
        alloc: Global,
        instance: &Instance,
        state: &Self::State,
        work: &Self::Work,
        wanted: LeafWanted,
    ) -> Result<Option<Proposed>, AllocError>
        ensures { IfFound result IsProposal };

    /// The work at a node that stays open ends, and a note of it is kept, whose place is given.
    fn close(
        &self,
        alloc: Global,
        at: OpenNode<'_>,
        work: Self::Work,
        state: &mut Self::State,
    ) -> Result<Option<usize>, AllocError>;

    /// The place of the range on which a node with this note is to be branched, counted from 0. The list has a range for each
    /// quantity and each setup, none is upside down, and some range leaves more than one number.
    fn branch(
        &self,
        instance: &Instance,
        ranges: &[Range],
        note: Option<usize>,
        state: &Self::State,
    ) -> Option<usize>
        requires size { length ranges.now ≡ choice_count instance.now }
        requires ordered { AreOrdered ranges.now }
        requires open { IsPoint ranges.now → ⊥ };
}
