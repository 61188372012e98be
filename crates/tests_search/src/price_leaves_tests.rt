use cert_checker::{check, lines_are_bytes};
use cert_lines::{Claim, Cut, Leaf, Part};
use certificate::{Certificate, Tree, read_certificate, write_certificate};
use echelon::Explosion;
use fixtures::{Item, MADE, Resource, instance};
use lin_rows::{Bound, Column, RowName};
use lot_model::Instance;
use price_leaves::{
    DualPrices, Fixed, Grouped, Held, NodePricing, Priced, Pricing, Reached, Rounds,
    dropped_grouped_leaf, dropped_leaf, fixed_setups, grouped_leaf, priced_leaf, split_prices,
    tune_openings,
};
use std::alloc::Global;
use std::boxed::Box;
use std::process::Abort;
use work_clock::Deadline;

// The resource, with so many hours in each period.
fn machine(hours: &[i64]) -> Resource {
    Resource {
        name: "m",
        capacity: hours,
    }
}

// One item with demands 2 and 8: what it costs at least without whole setups is 77/4.
fn alone(rt: &impl Abort, alloc: Global, hours: i64) -> Instance {
    instance(alloc, 2, &[machine(&[hours])], &[MADE]).expect(rt, "an instance")
}

// A goes into nothing and takes two of B.
const FIRST: Item<'static> = Item {
    demand: &[3, 0, 7, 4],
    hold_cost: &[5],
    needs: &[("B", 2)],
    ..MADE
};

// B takes one of C, and is there at first.
const SECOND: Item<'static> = Item {
    name: "B",
    demand: &[0, 5, 1, 1],
    opening: 4,
    end_max: Some(0),
    needs: &[("C", 1)],
    ..MADE
};

// C takes nothing, and is there at first.
const THIRD: Item<'static> = Item {
    name: "C",
    demand: &[0, 0, 2, 0],
    opening: 9,
    end_max: Some(0),
    ..MADE
};

// The chain of these items.
fn chain(rt: &impl Abort, alloc: Global, items: &[Item]) -> Instance {
    instance(alloc, 4, &[machine(&[22])], items).expect(rt, "an instance")
}

// Whether the checker takes the text of a certificate.
fn is_taken(alloc: Global, instance: &Instance, bytes: &[u8]) -> bool {
    lines_are_bytes();
    if bytes.len() > 100_000 {
        return false;
    }
    match read_certificate(alloc, bytes) {
        Ok(read) => check(alloc, instance, &read, None).is_ok(),
        Err(_) => false,
    }
}

// Whether the checker takes a certificate.
fn is_accepted(rt: &impl Abort, alloc: Global, instance: &Instance, made: &Certificate) -> bool {
    let bytes = write_certificate(alloc, made).expect(rt, "memory");
    is_taken(alloc, instance, &bytes)
}

// A bound on the first setup of the first item.
fn first_setup(most: bool) -> Bound {
    Bound {
        column: Column::Y { item: 1, period: 1 },
        most,
        number: if most { 0 } else { 1 },
    }
}

// What a leaf says, rounded up.
fn rounded(number: i128, scale: u64) -> u128 {
    let scale = i128::from(scale);
    let rest = number.checked_rem(scale).unwrap_or(0);
    let whole = number.checked_div(scale).unwrap_or(0);
    let up = if rest > 0 { 1 } else { 0 };
    u128::try_from(whole.saturating_add(up)).unwrap_or(0)
}

// What is needed of an instance.
fn pricing_of(rt: &impl Abort, alloc: Global, instance: &Instance) -> Pricing {
    let explosion = Explosion::of(alloc, instance).expect(rt, "memory");
    let mut pricing = Pricing::new(alloc, instance, &explosion).expect(rt, "memory");
    let prices = split_prices(alloc, instance, &pricing).expect(rt, "memory");
    tune_openings(alloc, instance, &mut pricing, &prices, Deadline::none()).expect(rt, "memory");
    pricing
}

// Rounds that start at the prices of the split.
fn started(rt: &impl Abort, alloc: Global, node: NodePricing<'_>) -> Rounds {
    let start = split_prices(alloc, node.instance, node.pricing).expect(rt, "memory");
    Rounds::start(alloc, node, start, None).expect(rt, "memory")
}

// The prices of so many rounds at a node, what their leaf is to say, and what was reached.
fn improved(
    rt: &impl Abort,
    alloc: Global,
    instance: &Instance,
    path: &[Bound],
    count: u32,
) -> (DualPrices, u128, Reached) {
    let pricing = pricing_of(rt, alloc, instance);
    let fixed = fixed_setups(alloc, instance, path).expect(rt, "memory");
    let node = NodePricing {
        instance,
        pricing: &pricing,
        fixed: &fixed,
    };
    let mut rounds = started(rt, alloc, node);
    let reached = rounds.go_on(alloc, node, None, count).expect(rt, "memory");
    let found = rounds.number().expect(rt, "no number");
    let improved = rounds.into_improved();
    let says = rounded(found, improved.prices.scale);
    (improved.prices, says, reached)
}

// A leaf and the cuts that it takes.
#[derive(Drop)]
struct Proposal {
    cuts: Vec<Cut>,
    leaf: Leaf,
    // The version of texts that have its lines.
    version: u32,
}

// Block cuts, and the leaf by linear duality that takes them.
fn linear(found: Priced) -> Proposal {
    Proposal {
        cuts: found.cuts,
        leaf: Leaf::Linear {
            den: i128::try_from(found.den).unwrap_or(0),
            parts: found.parts,
        },
        version: 1,
    }
}

// Block cuts, and the leaf over reduced costs that takes them.
fn reduced(found: Grouped) -> Proposal {
    Proposal {
        cuts: found.cuts,
        leaf: Leaf::Reduced {
            den: found.den,
            parts: found.parts,
            lists: found.lists,
            groups: found.groups,
        },
        version: 3,
    }
}

// The leaf of prices at a node.
fn leaf_of_prices(
    rt: &impl Abort,
    alloc: Global,
    instance: &Instance,
    path: &[Bound],
    prices: &DualPrices,
    first: u32,
) -> Proposal {
    let pricing = pricing_of(rt, alloc, instance);
    let fixed = fixed_setups(alloc, instance, path).expect(rt, "memory");
    match pricing.grouping() {
        Some(groups) => {
            let node = NodePricing {
                instance,
                pricing: &pricing,
                fixed: &fixed,
            };
            let found = grouped_leaf(alloc, node, groups, prices, first).expect(rt, "memory");
            reduced(found.expect(rt, "no leaf"))
        }
        None => {
            let found = priced_leaf(alloc, instance, &pricing, prices, &fixed, first).expect(
                rt, "memory",
            );
            linear(found.expect(rt, "no leaf"))
        }
    }
}

// Whether the leaf of prices at the root says an amount.
fn says(
    rt: &impl Abort,
    alloc: Global,
    instance: &Instance,
    prices: &DualPrices,
    amount: u128,
) -> bool {
    let found = leaf_of_prices(rt, alloc, instance, &[], prices, 1);
    let made = Certificate {
        version: found.version,
        claim: Claim::Bound(amount),
        cuts: found.cuts,
        tree: Tree::Leaf(found.leaf),
    };
    is_accepted(rt, alloc, instance, &made)
}

// The leaf of so many rounds at a node, and what it is to say.
fn leaf_of_rounds(
    rt: &impl Abort,
    alloc: Global,
    instance: &Instance,
    path: &[Bound],
    count: u32,
    first_cut: u32,
) -> (Proposal, u128) {
    let (prices, amount, _) = improved(rt, alloc, instance, path, count);
    let found = leaf_of_prices(rt, alloc, instance, path, &prices, first_cut);
    (found, amount)
}

// The cuts of one leaf, and those of another after them.
fn joined(rt: &impl Abort, cuts: Vec<Cut>, more: Vec<Cut>) -> Vec<Cut> {
    let mut all = cuts;
    for cut in more {
        all.push(cut).expect(rt, "memory");
    }
    all
}

// A tree with one leaf where the first setup is 0 and another where it is 1.
fn split(rt: &impl Abort, alloc: Global, low: Leaf, high: Leaf) -> Tree {
    Tree::Branch {
        column: first_setup(true).column,
        at: 0,
        low: Box::new(alloc, Tree::Leaf(low)).expect(rt, "memory"),
        high: Box::new(alloc, Tree::Leaf(high)).expect(rt, "memory"),
    }
}

// A certificate of a claim with leaves at both sides of the first setup.
fn split_certificate(
    rt: &impl Abort,
    alloc: Global,
    claim: Claim,
    low: Proposal,
    high: Proposal,
) -> Certificate {
    let version = low.version.max(high.version);
    let tree = split(rt, alloc, low.leaf, high.leaf);
    let cuts = joined(rt, low.cuts, high.cuts);
    Certificate {
        version,
        claim,
        cuts,
        tree,
    }
}

// Whether the leaves of rounds at both sides of the first setup say an amount that takes them both.
fn split_says(rt: &impl Abort, alloc: Global, instance: &Instance, count: u32, more: u128) -> bool {
    let (low, low_says) = leaf_of_rounds(rt, alloc, instance, &[first_setup(true)], count, 1);
    let first = u32::try_from(low.cuts.len().saturating_add(1)).expect(rt, "too many");
    let (high, high_says) = leaf_of_rounds(
        rt,
        alloc,
        instance,
        &[first_setup(false)],
        count,
        first,
    );
    let claim = Claim::Bound(low_says.min(high_says).saturating_add(more));
    let made = split_certificate(rt, alloc, claim, low, high);
    is_accepted(rt, alloc, instance, &made)
}

// The scale of the prices of the split, and what their leaf is to say.
fn scale_and_amount(rt: &impl Abort, alloc: Global, instance: &Instance) -> (u64, u128) {
    let (prices, amount, _) = improved(rt, alloc, instance, &[], 0);
    (prices.scale, amount)
}

#[test]
fn a_split_leaf_has_an_amount(rt: HostRuntime) {
    let alloc = rt.alloc();
    let instance = alone(&rt, alloc, 6);
    // All is made in the first period: 10 and the holding of 8 units.
    assert_eq!(rt; scale_and_amount(&rt, alloc, &instance), (4096, 18));
}

// The leaf of the prices of the split, whose cuts have numbers from this one.
fn split_leaf(rt: &impl Abort, alloc: Global, hours: i64, first_cut: u32) -> Priced {
    let instance = alone(rt, alloc, hours);
    let (prices, _, _) = improved(rt, alloc, &instance, &[], 0);
    let pricing = pricing_of(rt, alloc, &instance);
    let fixed = fixed_setups(alloc, &instance, &[]).expect(rt, "memory");
    let found = priced_leaf(alloc, &instance, &pricing, &prices, &fixed, first_cut).expect(
        rt, "memory",
    );
    found.expect(rt, "no leaf")
}

#[test]
fn a_split_leaf_has_a_cut(rt: HostRuntime) {
    let alloc = rt.alloc();
    let found = split_leaf(&rt, alloc, 6, 7);
    let part = Part {
        row: RowName::Cut(7),
        times: 1,
    };
    assert_eq!(rt; (found.cuts.len(), found.den), (1, 4096));
    assert!(rt; found.parts.as_slice() == &[part][..]);
    assert!(rt; matches!(found.cuts.first(), Some(Cut::Block { item: 1, .. })));
}

// What so many rounds at the root claim, whether the leaf of their prices says it, and whether it says one more.
fn claimed(rt: &impl Abort, alloc: Global, instance: &Instance, count: u32) -> (u128, bool, bool) {
    let (prices, amount, _) = improved(rt, alloc, instance, &[], count);
    let as_much = says(rt, alloc, instance, &prices, amount);
    let more = says(rt, alloc, instance, &prices, amount.saturating_add(1));
    (amount, as_much, more)
}

#[test]
fn rounds_come_near_their_limit(rt: HostRuntime) {
    let alloc = rt.alloc();
    let instance = alone(&rt, alloc, 6);
    assert_eq!(rt; claimed(&rt, alloc, &instance, 100), (20, true, false));
}

// What is reached where a plan costs 18, and where one costs 30 after that.
fn two_ends(
    rt: &impl Abort,
    alloc: Global,
    instance: &Instance,
    pricing: &Pricing,
    fixed: &Fixed,
) -> (Reached, Reached) {
    let node = NodePricing {
        instance,
        pricing,
        fixed,
    };
    let mut rounds = started(rt, alloc, node);
    let first = rounds.go_on(alloc, node, Some(18), 10).expect(rt, "memory");
    let second = rounds.go_on(alloc, node, Some(30), 10).expect(rt, "memory");
    (first, second)
}

#[test]
fn rounds_end_at_the_cost_of_a_plan(rt: HostRuntime) {
    let alloc = rt.alloc();
    let instance = alone(&rt, alloc, 6);
    let pricing = pricing_of(&rt, alloc, &instance);
    let fixed = fixed_setups(alloc, &instance, &[]).expect(&rt, "memory");
    let ends = two_ends(&rt, alloc, &instance, &pricing, &fixed);
    // The leaf of the first prices says 18.
    assert_eq!(rt; ends, (Reached::Closed, Reached::Open));
}

// Whether the leaf of rounds at the root of a chain says what they claim, and one more; and whether the leaves at both sides of
// the first setup do.
fn leaves_say(rt: &impl Abort, alloc: Global, items: &[Item]) -> ((bool, bool), (bool, bool)) {
    let instance = chain(rt, alloc, items);
    let (_, at_root, more) = claimed(rt, alloc, &instance, 25);
    let at_sides = split_says(rt, alloc, &instance, 25, 0);
    let more_there = split_says(rt, alloc, &instance, 25, 1);
    ((at_root, more), (at_sides, more_there))
}

const SAY_NO_MORE: ((bool, bool), (bool, bool)) = ((true, false), (true, false));

#[test]
fn leaves_say_what_rounds_claim(rt: HostRuntime) {
    let found = leaves_say(&rt, rt.alloc(), &[FIRST, SECOND, THIRD]);
    assert_eq!(rt; found, SAY_NO_MORE);
}

// A has end stocks from 1 to 6.
#[test]
fn leaves_say_what_rounds_claim_with_end_stocks(rt: HostRuntime) {
    let loose = Item {
        end_min: 1,
        end_max: Some(6),
        ..FIRST
    };
    let found = leaves_say(&rt, rt.alloc(), &[loose, SECOND, THIRD]);
    assert_eq!(rt; found, SAY_NO_MORE);
}

#[test]
fn leaves_say_what_rounds_claim_with_backlogs(rt: HostRuntime) {
    let late = Item {
        backlog_cost: Some(&[6]),
        ..FIRST
    };
    let found = leaves_say(&rt, rt.alloc(), &[late, SECOND, THIRD]);
    assert_eq!(rt; found, SAY_NO_MORE);
}

#[test]
fn leaves_say_what_rounds_claim_with_a_lead_time(rt: HostRuntime) {
    let slow = Item { lead: 1, ..THIRD };
    let found = leaves_say(&rt, rt.alloc(), &[FIRST, SECOND, slow]);
    assert_eq!(rt; found, SAY_NO_MORE);
}

// The leaf of prices with all costs dropped.
fn dropped(rt: &impl Abort, alloc: Global, instance: &Instance, prices: &DualPrices) -> Priced {
    let pricing = pricing_of(rt, alloc, instance);
    let fixed = fixed_setups(alloc, instance, &[]).expect(rt, "memory");
    let found = dropped_leaf(alloc, instance, &pricing, prices, &fixed, 1).expect(rt, "memory");
    found.expect(rt, "no leaf")
}

// Whether the checker takes a leaf as one that refutes the rows.
fn refutes(rt: &impl Abort, alloc: Global, instance: &Instance, found: Priced) -> bool {
    let made = Certificate {
        version: 1,
        claim: Claim::Infeasible,
        cuts: found.cuts,
        tree: Tree::Leaf(Leaf::Farkas { parts: found.parts }),
    };
    is_accepted(rt, alloc, instance, &made)
}

// What so many rounds reach, and whether the leaf of their prices with all costs dropped refutes the rows.
fn refuted(rt: &impl Abort, alloc: Global, instance: &Instance, count: u32) -> (Reached, bool) {
    let (prices, _, reached) = improved(rt, alloc, instance, &[], count);
    let found = dropped(rt, alloc, instance, &prices);
    (reached, refutes(rt, alloc, instance, found))
}

#[test]
fn too_few_hours_are_refuted(rt: HostRuntime) {
    let alloc = rt.alloc();
    // 10 units and a setup take 11 hours.
    let instance = alone(&rt, alloc, 5);
    assert_eq!(rt;
        refuted(&rt, alloc, &instance, 60),
        (Reached::Refuted, true)
    );
}

// What so many rounds reach of a chain whose machine has so many hours, and whether the leaf of their prices with all costs dropped
// refutes that there is a plan.
fn refuted_in_groups(rt: &impl Abort, alloc: Global, hours: i64, count: u32) -> (Reached, bool) {
    let instance = instance(alloc, 4, &[machine(&[hours])], &[FIRST, SECOND, THIRD]).expect(
        rt,
        "an instance",
    );
    let (prices, _, reached) = improved(rt, alloc, &instance, &[], count);
    let pricing = pricing_of(rt, alloc, &instance);
    let fixed = fixed_setups(alloc, &instance, &[]).expect(rt, "memory");
    let groups = pricing.grouping().expect(rt, "no groups");
    let node = NodePricing {
        instance: &instance,
        pricing: &pricing,
        fixed: &fixed,
    };
    let found = dropped_grouped_leaf(alloc, node, groups, &prices, 1).expect(rt, "memory");
    let found = reduced(found.expect(rt, "no leaf"));
    let made = Certificate {
        version: found.version,
        claim: Claim::Infeasible,
        cuts: found.cuts,
        tree: Tree::Leaf(found.leaf),
    };
    (reached, is_accepted(rt, alloc, &instance, &made))
}

#[test]
fn too_few_hours_are_refuted_in_groups(rt: HostRuntime) {
    // 14 units of A, 31 of B and 24 of C are to be made, and 40 hours are there.
    assert_eq!(rt;
        refuted_in_groups(&rt, rt.alloc(), 10, 60),
        (Reached::Refuted, true)
    );
}

// What a bound on the first setup holds of the first two setups.
fn held(rt: &impl Abort, alloc: Global, instance: &Instance, most: bool) -> (Held, Held) {
    let fixed = fixed_setups(alloc, instance, &[first_setup(most)]).expect(rt, "memory");
    (fixed.get(1, 1), fixed.get(1, 2))
}

#[test]
fn paths_fix_setups(rt: HostRuntime) {
    let alloc = rt.alloc();
    let instance = alone(&rt, alloc, 6);
    assert_eq!(rt;
        held(&rt, alloc, &instance, false),
        (Held::AtLeastOne(1), Held::Free)
    );
    assert_eq!(rt;
        held(&rt, alloc, &instance, true),
        (Held::AtMostZero(1), Held::Free)
    );
}

// A may be late and has a lead time, and is there at first.
const LATE: Item<'static> = Item {
    backlog_cost: Some(&[6, 9, 6, 6]),
    opening: 4,
    lead: 1,
    ..FIRST
};

#[test]
fn leaves_say_what_rounds_claim_of_late_items(rt: HostRuntime) {
    let slow = Item {
        lead: 1,
        min_lot: 5,
        opening: 8,
        ..SECOND
    };
    let found = leaves_say(&rt, rt.alloc(), &[LATE, slow, THIRD]);
    assert_eq!(rt; found, SAY_NO_MORE);
}

// One that goes into A is never late besides, and there are end stocks.
#[test]
fn leaves_say_what_rounds_claim_of_late_items_with_end_stocks(rt: HostRuntime) {
    let loose = Item {
        end_min: 1,
        end_max: Some(6),
        lead: 0,
        min_lot: 3,
        ..LATE
    };
    let slow = Item {
        lead: 2,
        min_lot: 6,
        end_min: 3,
        end_max: Some(20),
        ..THIRD
    };
    let found = leaves_say(&rt, rt.alloc(), &[loose, SECOND, slow]);
    assert_eq!(rt; found, SAY_NO_MORE);
}

// Too few hours for items that may be late.
#[test]
fn too_few_hours_are_refuted_of_late_items(rt: HostRuntime) {
    let alloc = rt.alloc();
    let slow = Item {
        lead: 1,
        opening: 8,
        ..SECOND
    };
    let instance = instance(alloc, 4, &[machine(&[8])], &[LATE, slow, THIRD]).expect(
        &rt,
        "an instance",
    );
    let (prices, _, reached) = improved(&rt, alloc, &instance, &[], 60);
    let pricing = pricing_of(&rt, alloc, &instance);
    let fixed = fixed_setups(alloc, &instance, &[]).expect(&rt, "memory");
    let groups = pricing.grouping().expect(&rt, "no groups");
    let node = NodePricing {
        instance: &instance,
        pricing: &pricing,
        fixed: &fixed,
    };
    let found = dropped_grouped_leaf(alloc, node, groups, &prices, 1).expect(&rt, "memory");
    let found = reduced(found.expect(&rt, "no leaf"));
    let made = Certificate {
        version: found.version,
        claim: Claim::Infeasible,
        cuts: found.cuts,
        tree: Tree::Leaf(found.leaf),
    };
    assert_eq!(rt;
        (reached, is_accepted(&rt, alloc, &instance, &made)),
        (Reached::Refuted, true)
    );
}
