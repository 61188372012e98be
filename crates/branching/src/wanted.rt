// What a search is given.
ghost use Rattle.std.specs.Prelude.{◌≡◌, None};
ghost use Rattle.cert_lines.specs.declared.limits.TheConstants.{MAX_CERT_VERSION};
ghost use Rattle.branching.specs.Search.{no_limits};

use certificate::MAX_CERT_VERSION;
use item_bound::Apart;
use lot_model::Instance;
use lp_root::Root;
use node_domains::Ranges;
use plan_rules::Plan;
use tree_search::Limits;

/// What is wanted of a search: from which plan it begins, and where it may end.
#[derive(Debug, Drop)]
pub struct Wanted {
    /// The most nodes that the certificate's tree may have, branches and leaves.
    pub budget: u64,
    /// A feasible plan to begin with, if one is given: what is found costs no more.
    pub first: Option<Plan>,
    /// Where it may end though its plan isn't shown to be best.
    pub limits: Limits,
    /// The newest version that the certificate's text may have, from `LOTS_CERT_VERSION` to `MAX_CERT_VERSION`. A leaf whose lines are
    /// only in texts of later versions isn't taken.
    pub newest: u32,
}

impl Wanted {
    /// A search with a budget alone: from no plan, without a gap, and with a certificate of any version.
    pub fn with_budget(budget: u64) -> Wanted
        ensures budget { result.budget ≡ budget }
        ensures first { result.first ≡ None }
        ensures limits { result.limits ≡ no_limits }
        ensures newest { result.newest ≡ MAX_CERT_VERSION }
    {
        Wanted {
            budget,
            first: None,
            limits: Limits { gap: None },
            newest: MAX_CERT_VERSION,
        }
    }
}

/// What a search starts from: the model, the ranges, and the bounds of the root and of the items apart.
#[derive(Drop)]
pub(crate) struct Start<'a> {
    /// The model.
    pub(crate) instance: &'a Instance,
    /// The ranges within which plans are sought.
    pub(crate) ranges: &'a Ranges,
    /// What is said at the root.
    pub(crate) said: Root,
    /// What the items cost apart.
    pub(crate) apart: Apart,
}
