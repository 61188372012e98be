// The certificate that the relaxation has no point.
ghost use Rattle.std.specs.Prelude.{◌≡◌, IfSome, None};
ghost use Rattle.certificate.specs.declared.tree.Tree.TheVariants.{Leaf as OneLeaf};
ghost use Rattle.search_result.specs.declared.found.RootSays.TheVariants.{Empty};
ghost use Rattle.leaf_growth.specs.Written.{HasVersion};
ghost use Rattle.branching.specs.Answer.{IsRootOf};
ghost use Rattle.branching.specs.Search.{IsImpossibleByOne};
ghost use Rattle.branching.specs.SearchWithin.{IsProvedWithin};
ghost use Rattle.node_domains.specs.Within.{AreInside, given_ranges};

use cert_meaning::accepted_over_ranges;
use certificate::{Certificate, Claim, Leaf, Tree};
use leaf_growth::{few_lines, made_is_writable};
use lot_model::{Instance, an_instance_breaks_no_rule};
use lot_sizing::totals_are_one;
use lp_root::Root;
use node_domains::Ranges;
use search_result::Found;

// The tree of a leaf alone. The root has one.
fn tree_of(leaf: Option<Leaf>) -> Tree
    ensures { IfSome leaf (λ given. result ≡ OneLeaf given) }
{
    match leaf {
        Some(given) => Tree::Leaf(given),
        None => Tree::Leaf(Leaf::Point),
    }
}

/// The certificate that no plan is feasible, since the root's relaxation has no point: the root's cuts, and its leaf. It is
/// accepted over any ranges.
pub(crate) fn none_found(instance: &Instance, ranges: &Ranges, version: u32, root: Root) -> Found
    requires inside { AreInside instance.now (given_ranges ranges.now) }
    requires version { HasVersion instance.now version }
    requires root { IsRootOf instance.now root }
    requires none { root.says ≡ Empty }
    ensures proved { IsProvedWithin instance.now (given_ranges ranges.now) result }
    ensures plan { result.plan ≡ None }
    ensures root { result.root ≡ root.says }
    ensures alone { IsImpossibleByOne result }
    ensures version { result.certificate.version ≡ version }
{
    accepted_over_ranges();
    few_lines();
    made_is_writable();
    totals_are_one();
    an_instance_breaks_no_rule(instance);
    let Root { says, cuts, leaf } = root;
    let tree = tree_of(leaf);
    Found {
        certificate: Certificate {
            version,
            claim: Claim::Infeasible,
            cuts,
            tree,
        },
        plan: None,
        root: says,
        nodes: 1,
    }
}
