ghost use Rattle.std.specs.Prelude.{◌≤◌};
ghost use Rattle.tree_search.specs.Ranges.{AreOrdered};
ghost use Rattle.tests_search.specs.Weak.{IsWeakCost};

use crate::weak::Weak;
use cert_lines::Claim;
use certificate::longest;
use std::alloc::Global;
use std::process::Abort;
use tree_search::{Limits, Range, search, strip};

// Ranges of 4 and of 3 choices.
fn two_ranges(rt: &impl Abort, alloc: Global) -> Vec<Range>
    ensures { AreOrdered result.items }
{
    let mut ranges = Vec::new(alloc);
    ranges.push(Range { low: 2, high: 5 }).expect(rt, "memory");
    ranges.push(Range { low: 0, high: 2 }).expect(rt, "memory");
    ranges
}

// The claim, the nodes and the longest path of a search of 4 times 3 choices by a weak guide, after a first cost.
fn searched_by(
    rt: &impl Abort,
    alloc: Global,
    guide: &Weak,
    first: Option<u128>,
    budget: u64,
    gap: Option<u32>,
) -> (Claim, u64, u64)
    requires first { IsWeakCost first }
    requires budget { 1 ≤ budget }
{
    let ranges = two_ranges(rt, alloc);
    let mut best = first;
    let found = search(alloc, guide, ranges, &mut best, budget, Limits { gap }).expect(
        rt, "memory",
    );
    (
        found.claim,
        found.nodes,
        longest(&strip(alloc, found.tree).expect(rt, "memory")),
    )
}

// The same without a cost and a gap.
fn searched(rt: &impl Abort, alloc: Global, budget: u64, evidence: u128) -> (Claim, u64, u64)
    requires { 1 ≤ budget }
{
    let guide = Weak {
        evidence,
        is_ending: false,
    };
    searched_by(rt, alloc, &guide, None, budget, None)
}

#[test]
fn twelve_choices_take_23_nodes(rt: HostRuntime) {
    let alloc = rt.alloc();
    assert_eq!(rt; searched(&rt, alloc, 24, 0), (Claim::Optimal(1), 23, 4));
    assert_eq!(rt; searched(&rt, alloc, 23, 0), (Claim::Optimal(1), 23, 4));
    assert_eq!(rt; searched(&rt, alloc, 22, 0), (Claim::Bound(0), 21, 4));
    assert_eq!(rt; searched(&rt, alloc, 1, 0), (Claim::Bound(0), 1, 0));
}

#[test]
fn numbers_rise_where_evidence_is_asked_for(rt: HostRuntime) {
    let alloc = rt.alloc();
    assert_eq!(rt; searched(&rt, alloc, 22, 1), (Claim::Optimal(1), 21, 4));
    assert_eq!(rt; searched(&rt, alloc, 1, 1), (Claim::Bound(1), 1, 0));
}

// A leaf says 0 where the best cost is 1: the whole cost lies above the bound.
#[test]
fn a_gap_ends_a_search(rt: HostRuntime) {
    let alloc = rt.alloc();
    let guide = Weak {
        evidence: 0,
        is_ending: false,
    };
    for (gap, found) in [
        (None, (Claim::Optimal(1), 23, 4)),
        (Some(9_999u32), (Claim::Optimal(1), 23, 4)),
        (Some(10_000), (Claim::Bound(0), 1, 0)),
        (Some(u32::MAX), (Claim::Bound(0), 1, 0)),
    ] {
        assert_eq!(rt; searched_by(&rt, alloc, &guide, Some(1), 24, gap), found);
    }
}

// A guide that ends the search at once leaves the root's leaf, at which evidence is asked for.
#[test]
fn a_guide_ends_a_search(rt: HostRuntime) {
    let alloc = rt.alloc();
    let guide = Weak {
        evidence: 1,
        is_ending: true,
    };
    assert_eq!(rt;
        searched_by(&rt, alloc, &guide, None, 24, None),
        (Claim::Bound(1), 1, 0)
    );
}
