// What proposes plans.
ghost use Rattle.std.specs.Prelude.{◌≡◌, OnOk, length};
ghost use Rattle.node_domains.specs.Nodes.{choice_count};
ghost use Rattle.incumbent.specs.Kept.{IsBestSoFar, IsNoWorseBest};

use lot_model::Instance;
use node_domains::Ranges;
use plan_rules::Planned;
use std::alloc::{AllocError, Global};
use tree_search::Range;

/// The space in which plans are sought.
#[derive(Clone, Copy)]
pub struct Space<'a> {
    /// The model.
    pub instance: &'a Instance,
    /// The ranges within which plans are to lie.
    pub ranges: &'a Ranges,
}

/// What proposes plans, by hints of type `T`. It may better the best plan, by plans that were made within the ranges alone:
/// `incumbent::keep_within` is such a step.
///
/// The ranges have a number for each item and period of the instance, and the best plan so far lies within them, with its cost
/// in money. An error is that memory ran out; the search then ends with the same error.
pub trait Heuristic<T> {
    /// What is remembered from node to node.
    type State: Drop;

    /// The state before the first plan.
    fn begin(&self, alloc: Global, instance: &Instance) -> Result<Self::State, AllocError>;

    /// Plans before the first node, beside the plan that was given and the own-period plan.
    fn at_start(
        &self,
        alloc: Global,
        space: Space<'_>,
        state: &mut Self::State,
        best: &mut Option<Planned>,
    ) -> Result<(), AllocError>
        requires { IsBestSoFar space.instance.now space.ranges.now best.old }
        ensures { OnOk result (IsNoWorseBest space.entry.instance.now space.entry.ranges.now
            best.new best.old) };

    /// Plans after some work at a node, by what the proposer tells of it.
    fn by_hint(
        &self,
        alloc: Global,
        space: Space<'_>,
        hint: &T,
        state: &mut Self::State,
        best: &mut Option<Planned>,
    ) -> Result<(), AllocError>
        requires { IsBestSoFar space.instance.now space.ranges.now best.old }
        ensures { OnOk result (IsNoWorseBest space.entry.instance.now space.entry.ranges.now
            best.new best.old) };

    /// Plans at a node whose setups are all chosen. `left` has what its path leaves: a range for each quantity and each setup.
    fn at_node(
        &self,
        alloc: Global,
        space: Space<'_>,
        left: &[Range],
        state: &mut Self::State,
        best: &mut Option<Planned>,
    ) -> Result<(), AllocError>
        requires size { length left.now ≡ choice_count space.instance.now }
        requires best { IsBestSoFar space.instance.now space.ranges.now best.old }
        ensures { OnOk result (IsNoWorseBest space.entry.instance.now space.entry.ranges.now
            best.new best.old) };
}
