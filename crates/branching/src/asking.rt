// Evidence that no more could be said of a node without cuts.
ghost use Rattle.std.specs.Prelude.{◌≡◌, true, IfOk, Some};
ghost use Rattle.leaf_growth.specs.Written.{HasVersion};
ghost use Rattle.tree_search.specs.Costs.{IsAtMost};
ghost use Rattle.branching.specs.Knowing.{IsKeptAs, IsNodeIn, IsEvidentIn};
ghost use Rattle.branching.specs.Leaves.{IsRaised, marked_examined};

use crate::guiding::Model;
use cert_lines::{Leaf, MAX_BRANCHES};
use lot_model::an_instance_breaks_no_rule;
use lp_bounds::{PathSays, path_relaxation};
use search_result::RootSays;
use std::alloc::{AllocError, Global};
use tree_search::{Node, Proposal};

// The proposal as it was, now that evidence was asked for.
fn mark_examined(proposal: Proposal) -> Proposal
    ensures { result ≡ marked_examined proposal }
{
    Proposal {
        examined: true,
        ..proposal
    }
}

// The leaf of the relaxation where it says more, and otherwise the one that was there.
fn raised(proposal: Proposal, leaf: Leaf, bound: u128) -> Proposal
    ensures { IsRaised proposal leaf bound result }
{
    if let Some(amount) = proposal.says {
        if amount < bound {
            return Proposal {
                leaf,
                says: Some(bound),
                examined: true,
                note: proposal.note,
            };
        }
    }
    mark_examined(proposal)
}

/// Certifies that the bound of a node is tight, by the LP without cuts on its path: where the LP says more than the leaf, its
/// leaf takes the place, and otherwise its least point shows that no leaf without cuts says more. Where the root's program
/// has too many cells, no LP is solved.
pub(crate) fn with_evidence(
    alloc: Global,
    model: &Model,
    node: &Node,
    proposal: Proposal,
) -> Result<Proposal, AllocError>
    requires version { HasVersion model.now.instance.now model.now.version }
    requires node { IsNodeIn model.now node.now.ranges.items node.now.path.items }
    ensures kept { IfOk result (IsKeptAs model.now node.now.ranges.items node.now.path.items
        proposal) }
    ensures evident { IfOk result (IsEvidentIn model.now node.now.path.items) }
    ensures examined { IfOk result (λ p. p.examined ≡ true) }
    ensures more { IfOk result (λ p. IsAtMost proposal.says p.says) }
{
    an_instance_breaks_no_rule(model.instance);
    if let RootSays::Skipped { .. } = model.root {
        return Ok(mark_examined(proposal));
    }
    // No path of a certificate is longer.
    if node.path.len() > MAX_BRANCHES as usize {
        return Ok(mark_examined(proposal));
    }
    match path_relaxation(alloc, model.instance, &node.path)? {
        PathSays::AtLeast { leaf, bound } => Ok(raised(proposal, leaf, bound)),
        PathSays::NoPoint { leaf } => Ok(Proposal {
            leaf,
            says: None,
            examined: true,
            note: None,
        }),
        PathSays::Exempt(_) => Ok(mark_examined(proposal)),
    }
}
