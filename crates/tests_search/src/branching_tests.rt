ghost use Rattle.std.specs.Prelude.{◌≡◌, ◌≤◌, Bool, true};
ghost use Rattle.cert_lines.specs.declared.limits.TheConstants.{LOTS_CERT_VERSION, MAX_CERT_VERSION};

use branching::{Found, Limits, Plugins, Ranges, RootSays, Wanted, search, search_all};
use cert_checker::check;
use certificate::{Claim, is_writable};
use fixtures::{Item, MADE, Resource, instance};
use heur_plugin::Plans;
use lot_model::Instance;
use price_plugin::Prices;
use search_plugins::{Heuristic, Nothing, Proposer, Watch};
use std::alloc::Global;
use std::process::Abort;
use work_clock::Deadline;

// One item on a resource of this capacity.
fn model(rt: &impl Abort, alloc: Global, demand: &[i64], capacity: i64) -> Instance {
    let periods = u32::try_from(demand.len()).unwrap_or(0);
    let machine = Resource {
        name: "m",
        capacity: &[capacity],
    };
    instance(alloc, periods, &[machine], &[Item { demand, ..MADE }]).expect(rt, "an instance")
}

// An item without a resource.
const ALONE: Item<'static> = Item { uses: &[], ..MADE };

// That item with this demand.
fn alone(rt: &impl Abort, alloc: Global, periods: u32, demand: &[i64]) -> Instance {
    instance(alloc, periods, &[], &[Item { demand, ..ALONE }]).expect(rt, "an instance")
}

// What proposes nothing.
const NOTHING: Plugins<'static, Nothing, Nothing> = Plugins {
    proposer: &Nothing,
    heuristic: &Nothing,
};

// Counts the nodes and passes of which it is told, and ends the search before so many passes.
#[derive(Debug, Drop)]
struct Count {
    nodes: u64,
    passes: u64,
    most: u64,
}

impl Watch for Count {
    ghost may_stop = { λ _. true };

    fn node(&mut self, _depth: usize, _says: Option<u128>, _best: Option<u128>) {
        self.nodes = self.nodes.wrapping_add(1);
    }

    fn pass(&mut self, _bound: Option<u128>, _best: Option<u128>) {
        self.passes = self.passes.wrapping_add(1);
    }

    fn stops(&mut self) -> bool {
        self.passes > self.most
    }
}

// What is found by these plugins of an instance, once the checker accepts it, and of how many nodes a watcher is told.
fn found_by<P: Proposer, H: Heuristic<P::Hint>>(
    rt: &impl Abort,
    alloc: Global,
    plugins: &Plugins<'_, P, H>,
    instance: &Instance,
    budget: u64,
) -> (Found, u64)
    requires { 1 ≤ budget }
{
    let mut count = Count {
        nodes: 0,
        passes: 0,
        most: u64::MAX,
    };
    let wanted = Wanted::with_budget(budget);
    let found = search_all(alloc, plugins, &mut count, instance, wanted).expect(rt, "memory");
    if check(alloc, instance, &found.certificate, found.plan.as_ref()).is_err() {
        panic!(rt; "not accepted");
    }
    (found, count.nodes)
}

// What is found where nothing is proposed.
fn found(rt: &impl Abort, alloc: Global, demand: &[i64], capacity: i64, budget: u64) -> Found
    requires { 1 ≤ budget }
{
    let instance = model(rt, alloc, demand, capacity);
    let (found, _) = found_by(rt, alloc, &NOTHING, &instance, budget);
    found
}

// How much a plan makes in the first and the second of two periods.
fn made(rt: &impl Abort, found: &Found) -> (u64, u64) {
    match &found.plan {
        Some(plan) => {
            if (plan.make.items(), plan.make.periods()) != (1, 2) {
                panic!(rt; "another instance");
            }
            (plan.make.get(1, 1), plan.make.get(1, 2))
        }
        None => panic!(rt; "no plan"),
    }
}

// The claim of one item in two periods on a resource of 6, whether its certificate can be written, and how much its plan
// makes in each period.
fn best(rt: &impl Abort, alloc: Global, demand: &[i64]) -> (Claim, bool, (u64, u64)) {
    let found = found(rt, alloc, demand, 6, 1_000);
    let quantities = made(rt, &found);
    (
        found.certificate.claim,
        is_writable(&found.certificate),
        quantities,
    )
}

// Both periods make 5 units, of which 3 are held.
#[test]
fn a_best_plan_is_found(rt: HostRuntime) {
    let alloc = rt.alloc();
    assert_eq!(rt;
        best(&rt, alloc, &[2, 8]),
        (Claim::Optimal(23), true, (5, 5))
    );
}

// One item in two periods on a resource of 6, with a largest lot or none.
fn lots_up_to(rt: &impl Abort, alloc: Global, max_lot: Option<i64>) -> Instance {
    let machine = Resource {
        name: "m",
        capacity: &[6],
    };
    instance(alloc, 2, &[machine], &[Item { max_lot, ..MADE }]).expect(rt, "an instance")
}

// With prices and plans the same plan is best, and each node of the tree is told once; so it is with a largest lot that no lot reaches.
#[test]
fn a_best_plan_is_found_by_prices(rt: HostRuntime) {
    let alloc = rt.alloc();
    let until = Deadline::none();
    let plugins = Plugins {
        proposer: &Prices { until },
        heuristic: &Plans { until },
    };
    for max_lot in [None, Some(1_000)] {
        let instance = lots_up_to(&rt, alloc, max_lot);
        let (found, nodes) = found_by(&rt, alloc, &plugins, &instance, 1_000);
        let claim = found.certificate.claim;
        assert_eq!(rt; (claim, made(&rt, &found)), (Claim::Optimal(23), (5, 5)));
        assert_eq!(rt; nodes, found.nodes);
    }
}

// With a capacity of 9 no plan makes 10 units in one period.
#[test]
fn that_there_is_no_plan_is_found(rt: HostRuntime) {
    let alloc = rt.alloc();
    let found = found(&rt, alloc, &[10], 9, 1);
    let claim = found.certificate.claim;
    assert_eq!(rt; (claim, found.plan.is_none()), (Claim::Infeasible, true));
    assert_eq!(rt; (found.root, found.nodes), (RootSays::Empty, 1));
}

// What is claimed of one item without a resource, what the root says, and the nodes of the search.
fn said_alone(rt: &impl Abort, alloc: Global, demand: &[i64]) -> (Claim, RootSays, u64) {
    let instance = alone(rt, alloc, 2, demand);
    let found = search_all(alloc, &NOTHING, (), &instance, Wanted::with_budget(1)).expect(
        rt, "memory",
    );
    (found.certificate.claim, found.root, found.nodes)
}

// Without a resource the items are planned by themselves: one setup for both periods costs 10, and holding 8 units costs 8.
#[test]
fn an_uncoupled_model_takes_one_node(rt: HostRuntime) {
    let alloc = rt.alloc();
    let said = (Claim::Optimal(18), RootSays::Uncoupled, 1);
    assert_eq!(rt; said_alone(&rt, alloc, &[2, 8]), said);
}

// The ranges of an item in two periods, of which between so much and so much is made in the first one.
fn ranges_of(rt: &impl Abort, alloc: Global, instance: &Instance, low: u64, high: u64) -> Ranges {
    let mut ranges = Ranges::all(alloc, instance).expect(rt, "memory");
    if (ranges.low.items(), ranges.low.periods()) != (1, 2)
        || (ranges.high.items(), ranges.high.periods()) != (1, 2)
    {
        panic!(rt; "another instance");
    }
    ranges.low.set(1, 1, low);
    ranges.high.set(1, 1, high);
    ranges
}

// What is found within these ranges.
fn between(rt: &impl Abort, alloc: Global, instance: &Instance, low: u64, high: u64) -> Found {
    let ranges = ranges_of(rt, alloc, instance, low, high);
    if !ranges.are_of(instance) {
        panic!(rt; "no ranges of the instance");
    }
    let wanted = Wanted::with_budget(1_000);
    search(alloc, &NOTHING, (), instance, ranges, wanted).expect(rt, "memory")
}

// A demand of 2 and of 8, on a resource of 11 or by itself.
fn two_lots(rt: &impl Abort, alloc: Global, is_shared: bool) -> Instance {
    if is_shared {
        model(rt, alloc, &[2, 8], 11)
    } else {
        alone(rt, alloc, 2, &[2, 8])
    }
}

// The claim of a search over all ranges, and how much its plan makes in each period.
fn best_of_all(rt: &impl Abort, alloc: Global, is_shared: bool) -> (Claim, (u64, u64)) {
    let instance = two_lots(rt, alloc, is_shared);
    let wanted = Wanted::with_budget(1_000);
    let found = search_all(alloc, &NOTHING, (), &instance, wanted).expect(rt, "memory");
    let quantities = made(rt, &found);
    (found.certificate.claim, quantities)
}

// What is claimed within ranges, and whether there is no plan.
fn claimed(rt: &impl Abort, alloc: Global, is_shared: bool, low: u64, high: u64) -> (Claim, bool) {
    let instance = two_lots(rt, alloc, is_shared);
    let found = between(rt, alloc, &instance, low, high);
    (found.certificate.claim, found.plan.is_none())
}

// How much the plan within ranges makes in each period.
fn made_within(rt: &impl Abort, alloc: Global, is_shared: bool, low: u64, high: u64) -> (u64, u64) {
    let instance = two_lots(rt, alloc, is_shared);
    let found = between(rt, alloc, &instance, low, high);
    made(rt, &found)
}

// Both lots in one period cost 18.
#[test]
fn a_best_plan_of_all_is_found(rt: HostRuntime) {
    let alloc = rt.alloc();
    let best = (Claim::Optimal(18), (10, 0));
    assert_eq!(rt; best_of_all(&rt, alloc, true), best);
    assert_eq!(rt; best_of_all(&rt, alloc, false), best);
}

// With at most 5 units in the first period two setups are needed, and to hold nothing is best; with no more than 1 unit there
// nothing is feasible.
#[test]
fn a_best_plan_within_ranges_is_found(rt: HostRuntime) {
    let alloc = rt.alloc();
    for (is_shared, low, high, claim) in [
        (true, 0u64, 10u64, Claim::Optimal(18)),
        (true, 0, 5, Claim::Optimal(20)),
        (true, 5, 5, Claim::Optimal(23)),
        (true, 0, 1, Claim::Infeasible),
        (false, 0, 10, Claim::Optimal(18)),
        (false, 0, 5, Claim::Optimal(20)),
        (false, 5, 5, Claim::Optimal(23)),
        (false, 0, 1, Claim::Infeasible),
    ] {
        let want = (claim, claim == Claim::Infeasible);
        assert_eq!(rt;
            claimed(&rt, alloc, is_shared, low, high),
            want,
            "at most {high}"
        );
    }
}

#[test]
fn a_plan_stays_within_its_ranges(rt: HostRuntime) {
    let alloc = rt.alloc();
    assert_eq!(rt; made_within(&rt, alloc, true, 0, 5), (2, 8));
    assert_eq!(rt; made_within(&rt, alloc, false, 0, 5), (2, 8));
}

// Whether the ranges of so many periods are ranges of three.
fn fit(rt: &impl Abort, alloc: Global, periods: u32) -> bool {
    let demand = [2i64];
    let ranges = Ranges::all(alloc, &alone(rt, alloc, periods, &demand)).expect(rt, "memory");
    let instance = alone(rt, alloc, 3, &demand);
    ranges.are_of(&instance)
}

#[test]
fn ranges_of_another_shape_are_told(rt: HostRuntime) {
    let alloc = rt.alloc();
    assert_eq!(rt; (fit(&rt, alloc, 2), fit(&rt, alloc, 3)), (false, true));
}

// What is found from the one plan on of one item in two periods on a resource of 6, within a gap and by a watcher that ends the
// search before so many passes and one: whether a bound is claimed, whether the tree has one node, and how much is made.
fn cut_short(
    rt: &impl Abort,
    alloc: Global,
    gap: Option<u32>,
    most: u64,
) -> (bool, bool, (u64, u64)) {
    let instance = model(rt, alloc, &[2, 8], 6);
    let known = search_all(alloc, &NOTHING, (), &instance, Wanted::with_budget(1_000)).expect(
        rt, "memory",
    );
    let mut count = Count {
        nodes: 0,
        passes: 0,
        most,
    };
    let wanted = Wanted {
        first: known.plan,
        limits: Limits { gap },
        ..Wanted::with_budget(1_000)
    };
    let found = search_all(alloc, &NOTHING, &mut count, &instance, wanted).expect(rt, "memory");
    let is_bound = matches!(&found.certificate.claim, Claim::Bound(_));
    let quantities = made(rt, &found);
    (is_bound, found.nodes == 1, quantities)
}

// The relaxation at the root costs less than the plan, by more than a hundredth of a percent.
#[test]
fn a_search_ends_early(rt: HostRuntime) {
    let alloc = rt.alloc();
    for (gap, most, is_bound) in [
        (None, u64::MAX, false),
        (Some(1u32), u64::MAX, false),
        (Some(10_000), u64::MAX, true),
        (None, 0, true),
    ] {
        assert_eq!(rt;
            cut_short(&rt, alloc, gap, most),
            (is_bound, is_bound, (5, 5))
        );
    }
}

// What arrives one period after it was started.
const LATE: Item<'static> = Item {
    lead: 1,
    setup_cost: &[9],
    ..ALONE
};

// The claim of a search whose certificate has this version at most, the version that it has, and whether the checker accepts it.
fn found_in(rt: &impl Abort, alloc: Global, newest: u32) -> (Claim, u32, bool)
    requires oldest { LOTS_CERT_VERSION ≤ newest }
    requires latest { newest ≤ MAX_CERT_VERSION }
{
    let item = Item {
        demand: &[0, 1, 1],
        ..LATE
    };
    let instance = instance(alloc, 3, &[], &[item]).expect(rt, "an instance");
    let until = Deadline::none();
    let plugins = Plugins {
        proposer: &Prices { until },
        heuristic: &Plans { until },
    };
    let wanted = Wanted {
        newest,
        ..Wanted::with_budget(1_000)
    };
    let found = search_all(alloc, &plugins, (), &instance, wanted).expect(rt, "memory");
    let certificate = &found.certificate;
    let is_accepted = check(alloc, &instance, certificate, found.plan.as_ref()).is_ok();
    (certificate.claim, certificate.version, is_accepted)
}

// Both units are started in the first period, and one is held for a period: that costs 10. Where leaves over reduced costs may be
// taken, one of them says so of the root; a tree without them decides it too, since it has room for all choices.
#[test]
fn a_certificate_keeps_to_a_version(rt: HostRuntime) {
    let alloc = rt.alloc();
    for version in [2u32, 3] {
        assert_eq!(rt;
            found_in(&rt, alloc, version),
            (Claim::Optimal(10), version, true)
        );
    }
}
