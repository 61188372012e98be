// What proposes nothing.
use crate::heuristic::{Heuristic, Space};
use crate::proposer::{LeafWanted, OpenNode, Progress, Proposed, Proposer};
use lot_model::Instance;
use plan_rules::Planned;
use std::alloc::{AllocError, Global};
use tree_search::{Node, Range};

/// What proposes no leaf, no place to branch on and no plan. A search with it has the root's leaf and the plans at nodes where
/// all is chosen.
#[derive(Clone, Copy, Debug)]
pub struct Nothing;

impl Proposer for Nothing {
    type State = ();

    type Work = ();

    type Hint = ();

    fn begin(&self, _alloc: Global, _instance: &Instance) -> Result<(), AllocError> {
        Ok(())
    }

    fn open(
        &self,
        _alloc: Global,
        _instance: &Instance,
        _node: &Node,
        _above: Option<usize>,
        _state: &mut (),
    ) -> Result<(), AllocError> {
        Ok(())
    }

    fn times(&self, _node: &Node) -> u32 {
        0
    }

    fn improve(
        &self,
        _alloc: Global,
        _at: OpenNode<'_>,
        _state: &(),
        _work: &mut (),
    ) -> Result<Progress, AllocError> {
        Ok(Progress::Done)
    }

    fn hint<'a>(&self, work: &'a ()) -> &'a () {
        work
    }

    fn leaf(
        &self,
        _alloc: Global,
        _instance: &Instance,
        _state: &(),
        _work: &(),
        _wanted: LeafWanted,
    ) -> Result<Option<Proposed>, AllocError> {
        Ok(None)
    }

    fn close(
        &self,
        _alloc: Global,
        _at: OpenNode<'_>,
        _work: (),
        _state: &mut (),
    ) -> Result<Option<usize>, AllocError> {
        Ok(None)
    }

    fn branch(
        &self,
        _instance: &Instance,
        _ranges: &[Range],
        _note: Option<usize>,
        _state: &(),
    ) -> Option<usize> {
        None
    }
}

impl<T> Heuristic<T> for Nothing {
    type State = ();

    fn begin(&self, _alloc: Global, _instance: &Instance) -> Result<(), AllocError> {
        Ok(())
    }

    fn at_start(
        &self,
        _alloc: Global,
        _space: Space<'_>,
        _state: &mut (),
        _best: &mut Option<Planned>,
    ) -> Result<(), AllocError> {
        Ok(())
    }

    fn by_hint(
        &self,
        _alloc: Global,
        _space: Space<'_>,
        _hint: &T,
        _state: &mut (),
        _best: &mut Option<Planned>,
    ) -> Result<(), AllocError> {
        Ok(())
    }

    fn at_node(
        &self,
        _alloc: Global,
        _space: Space<'_>,
        _left: &[Range],
        _state: &mut (),
        _best: &mut Option<Planned>,
    ) -> Result<(), AllocError> {
        Ok(())
    }
}
