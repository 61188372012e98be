use echelon::single_of;
use instance_reader::read_instance;
use lot_model::{Instance, is_uncoupled};
use own_plan::own_period_plan;
use report::{GenFault, generate, parts_add_up};
use std::alloc::Global;
use std::process::Abort;
use wagner_whitin::laws::solve_plain;
use wagner_whitin::solve;

// The instance of a model that is drawn from seed 7.
fn drawn(rt: &impl Abort, alloc: Global, items: u32, periods: u32, coupled: bool) -> Instance {
    let text = generate(alloc, 7, items, periods, coupled).expect(rt, "not generated");
    read_instance(alloc, &text).expect(rt, "not read")
}

// The numbers and lines of each item.
fn told(rt: &impl Abort, alloc: Global, instance: &Instance) -> String {
    let mut text = String::new(alloc);
    for item in 1..instance.items() + 1 {
        let name = instance.item_name(item);
        let demand = instance.demands(item);
        let setup_cost = instance.setup_costs(item);
        let hold_cost = instance.hold_costs(item);
        let back = instance.backlog_costs(item);
        write!(
            &mut text,
            "{name} {demand:?} {setup_cost:?} {hold_cost:?} {back:?}\n"
        )
        .expect(rt, "memory");
        let needs = instance.needs(item);
        let uses = instance.uses(item);
        write!(&mut text, "{needs:?} {uses:?}\n").expect(rt, "memory");
    }
    text
}

// The numbers and lines of each item of a model that is drawn, and how many resources it has.
fn told_of_drawn(
    rt: &impl Abort,
    alloc: Global,
    items: u32,
    periods: u32,
    coupled: bool,
) -> (String, u32) {
    let instance = drawn(rt, alloc, items, periods, coupled);
    let resources = instance.resources();
    (told(rt, alloc, &instance), resources)
}

// The words of the generator of seed 7 and stream 54 were worked out by another program.
#[test]
fn numbers_are_drawn_item_by_item(rt: HostRuntime) {
    parts_add_up();
    let (text, resources) = told_of_drawn(&rt, rt.alloc(), 2, 3, false);
    let want = "i1 [3, 28, 33] [230, 180, 299] [3, 3, 3] Some([5, 5, 5])\n[] []\n\
         i2 [35, 79, 68] [106, 234, 154] [3, 3, 3] None\n[] []\n";
    assert_eq!(rt; (text.as_str(), resources), (want, 0));
}

// What is told of a drawn model whose items use one resource.
fn coupled_text(rt: &impl Abort, alloc: Global) -> String {
    let usage = "[Usage { resource: 1, unit: 1, setup: 5 }]";
    format!(in alloc;
        "i1 [3, 28, 33, 30] [180, 299, 106, 113] [2, 2, 2, 2] None\n\
         [Need {{ item: 2, quantity: 1 }}] {usage}\n\
         i2 [9, 8, 6, 4] [154, 130, 165, 237] [1, 1, 1, 1] None\n\
         [Need {{ item: 3, quantity: 1 }}] {usage}\n\
         i3 [6, 9, 9, 0] [286, 246, 273, 185] [1, 1, 1, 1] None\n\
         [] {usage}\n"
    )
    .expect(rt, "memory")
}

#[test]
fn lines_are_drawn_item_by_item(rt: HostRuntime) {
    let alloc = rt.alloc();
    let want = coupled_text(&rt, alloc);
    let (text, resources) = told_of_drawn(&rt, alloc, 3, 4, true);
    assert_eq!(rt; (text.as_str(), resources), (want.as_str(), 1));
}

// Whether an instance has a plan that makes each item where it is asked for.
fn has_own_period_plan(rt: &impl Abort, alloc: Global, instance: &Instance) -> bool {
    let plan = own_period_plan(alloc, instance).expect(rt, "memory");
    plan.is_some()
}

#[test]
fn the_largest_model_has_its_own_period_plan(rt: HostRuntime) {
    let alloc = rt.alloc();
    let instance = drawn(&rt, alloc, 40, 60, true);
    assert_eq!(rt; (instance.items(), instance.periods()), (40, 60));
    assert!(rt; has_own_period_plan(&rt, alloc, &instance));
}

#[test]
fn sizes_out_of_range_are_refused(rt: HostRuntime) {
    let alloc = rt.alloc();
    for (items, periods) in [(0, 1), (41, 4), (1, 0), (3, 61)] {
        assert_eq!(rt;
            generate(alloc, 1, items, periods, true).err(),
            Some(GenFault::Range)
        );
    }
}

// The least cost of an item by both recursions, where it has no backlog cost.
fn both_costs(
    rt: &impl Abort,
    alloc: Global,
    instance: &Instance,
    item: u32,
) -> Option<(u128, u128)> {
    if item < 1 || item > instance.items() || !is_uncoupled(instance) {
        panic!(rt; "no such item by itself");
    }
    let single = single_of(alloc, instance, item).expect(rt, "memory");
    if single.back.is_some() {
        return None;
    }
    let found = solve(alloc, &single).expect(rt, "memory").cost;
    Some((found, solve_plain(alloc, &single).expect(rt, "memory").cost))
}

// The model that `demo 7` plans first. Its items 1, 3, 5 .. have a backlog cost.
#[test]
fn both_recursions_find_the_same_cost(rt: HostRuntime) {
    let alloc = rt.alloc();
    let instance = drawn(&rt, alloc, 12, 60, false);
    assert_eq!(rt; instance.items(), 12);
    for item in 1..13u32 {
        match both_costs(&rt, alloc, &instance, item) {
            Some((found, plain)) => assert_eq!(rt; (found, item % 2), (plain, 0)),
            None => assert_eq!(rt; item % 2, 1),
        }
    }
}
