// A node that is one choice of quantities and setups.
ghost use Rattle.std.specs.Prelude.{◌≡◌, false, IfOk, OnOk};
ghost use Rattle.tree_search.specs.Costs.{IsBelow};
ghost use Rattle.tree_search.specs.Ranges.{IsPoint};
ghost use Rattle.branching.specs.Knowing.{IsKeptIn, IsKnown, IsReached, KnowsMore};
ghost use Rattle.incumbent.specs.Kept.{IsNoWorse, cost_kept};

use crate::guiding::Model;
use crate::knowing::Known;
use cert_lines::Leaf;
use cert_trees::ranges_are_left;
use incumbent::{best_cost, keep_within, plan_at};
use search_plugins::{Heuristic, Space};
use std::alloc::{AllocError, Global};
use tree_search::{Node, Proposal};

/// The leaf of a node that is one choice: what a cheapest plan costs that has it, or that there is none. The plan is kept
/// where it is better than the best so far.
pub(crate) fn at_point(
    alloc: Global,
    model: &Model,
    node: &Node,
    known: &mut Known,
) -> Result<Proposal, AllocError>
    requires reached { IsReached model.now known.old node.now }
    requires point { IsPoint node.now.ranges.items }
    ensures more { OnOk result (KnowsMore model.now known.old known.new) }
    ensures leaf { IfOk result (IsKeptIn model.now known.new node.now.ranges.items
        node.now.path.items) }
    ensures examined { IfOk result (λ p. p.examined ≡ false) }
    ensures closed { IfOk result (λ p. IsBelow p.says (cost_kept known.new.best) → ⊥) }
{
    // A plan that has the numbers of a node lies within the ranges of its path.
    ranges_are_left();
    let found = plan_at(alloc, model.instance, &node.ranges)?;
    let says = best_cost(&found);
    keep_within(model.instance, model.ranges, &mut known.best, found);
    Ok(Proposal {
        leaf: Leaf::Point,
        says,
        examined: false,
        note: None,
    })
}

/// Plans at a node whose setups are all chosen. The best plan is kept.
pub(crate) fn keep_built<T, H: Heuristic<T>>(
    alloc: Global,
    model: &Model,
    heuristic: &H,
    node: &Node,
    effort: &mut H::State,
    known: &mut Known,
) -> Result<(), AllocError>
    requires reached { IsReached model.now known.old node.now }
    ensures known { OnOk result (IsKnown model.now known.new) }
    ensures rows { OnOk result (known.new.rows ≡ known.old.rows) }
    ensures kept { OnOk result (IsNoWorse known.new.best known.old.best) }
{
    let instance = model.instance;
    let ranges = model.ranges;
    let space = Space { instance, ranges };
    let best = &mut known.best;
    heuristic.at_node(alloc, space, &node.ranges, effort, best)
}
