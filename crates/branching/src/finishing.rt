// What is found, with its certificate.
ghost use Rattle.std.specs.Prelude.{◌≡◌, ◌≤◌, ℕ, Bool, List, IfOk};
ghost use Rattle.cert_lines.specs.declared.limits.TheConstants.{LOTS_CERT_VERSION};
ghost use Rattle.certificate.specs.Shapes.{shape_of};
ghost use Rattle.lp_root.specs.Root.{HasFigures};
ghost use Rattle.tree_search.specs.declared.limits.Limits.{Limits};
ghost use Rattle.tree_search.specs.declared.node.Range.{Range};
ghost use Rattle.branching.specs.Finishing.{IsFinished, IsSearched};
ghost use Rattle.incumbent.specs.Kept.{plan_kept};
ghost use Rattle.branching.specs.Knowing.{ranges_in};
ghost use Rattle.branching.specs.Search.{IsVersionOf};
ghost use Rattle.branching.specs.SearchWithin.{IsProvedWithin};

use crate::guiding::Model;
use crate::knowing::Known;
use crate::versions::{in_least_version, usual_version};
use cert_meaning::{accepted_over_ranges, says_are_one};
use certificate::{Certificate, shapes_are_counted};
use incumbent::best_plan;
use leaf_growth::{MAX_NODES, few_lines, made_is_writable};
use lot_model::an_instance_breaks_no_rule;
use lot_sizing::totals_are_one;
use search_result::Found;
use std::alloc::{AllocError, Global};
use tree_search::{Searched, strip, whole_is_measured};

/// What a search has found, with the certificate of it: the search takes the lines of the newest version that the text may have,
/// and the text is of the least one that has those that were taken.
pub(crate) fn finish(
    alloc: Global,
    model: &Model,
    known: Known,
    searched: Searched,
) -> Result<Found, AllocError>
    requires figures { HasFigures model.now.instance.now }
    requires oldest { LOTS_CERT_VERSION ≤ model.now.version }
    requires searched { (budget : ℕ) × (limits : Limits) × (stopping : Bool) × (rs : List Range)
        × IsSearched model.now known budget limits stopping rs searched }
    ensures proved { IfOk result (IsProvedWithin model.now.instance.now (ranges_in model.now)) }
    ensures plan { IfOk result (λ found. found.plan ≡ plan_kept known.best) }
    ensures root { IfOk result (λ found. found.root ≡ model.now.root) }
    ensures version { IfOk result (λ found.
        IsVersionOf model.now.instance.now model.now.version (shape_of found.certificate)) }
    ensures shown { IfOk result (λ found.
        (budget : ℕ) (limits : Limits) (stopping : Bool) (rs : List Range)
        → IsSearched model.now known budget limits stopping rs searched
        → IsFinished model.now known budget limits stopping found) }
{
    accepted_over_ranges();
    few_lines();
    made_is_writable();
    says_are_one();
    shapes_are_counted();
    totals_are_one();
    whole_is_measured();
    an_instance_breaks_no_rule(model.instance);
    if searched.nodes > MAX_NODES {
        return Err(AllocError);
    }
    let tree = strip(alloc, searched.tree)?;
    let usual = usual_version(model.instance);
    let made = Certificate {
        version: model.version,
        claim: searched.claim,
        cuts: known.cuts,
        tree,
    };
    Ok(Found {
        certificate: in_least_version(made, usual),
        plan: best_plan(known.best),
        root: model.root,
        nodes: searched.nodes,
    })
}
