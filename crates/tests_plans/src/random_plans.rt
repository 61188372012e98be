// Small models and choices of lots and setups, drawn at random. Each has at most three items, resources and periods.
ghost use Rattle.std.specs.Prelude.{◌≤◌, ◌<◌};

use fixtures::{PLAIN, instance_of, item_named};
use lot_model::{Draft, DraftItem, DraftNeed, DraftResource, DraftUse, Instance};
use plan_rules::Grid;
use rand_core::utils::NextWord;
use rand_pcg::Lcg64Xsh32;
use std::alloc::Global;
use std::process::Abort;

/// One of so many numbers, from 0 on.
pub fn draw(words: &mut Lcg64Xsh32, count: u32) -> u32
    requires { 1 ≤ count }
    ensures { result < count }
{
    words.next_word() % count
}

// The same as a number of a draft.
fn draw_amount(words: &mut Lcg64Xsh32, count: u32) -> i64
    requires { 1 ≤ count }
{
    i64::from(draw(words, count))
}

// So many of them.
fn draw_amounts(
    rt: &impl Abort,
    alloc: Global,
    words: &mut Lcg64Xsh32,
    periods: u32,
    count: u32,
) -> Vec<i64>
    requires { 1 ≤ count }
{
    let mut list = Vec::new(alloc);
    for _period in 0..periods {
        list.push(draw_amount(words, count)).expect(rt, "memory");
    }
    list
}

// Resources m1, m2 and so on, whose time may be short.
fn draw_resources(
    rt: &impl Abort,
    alloc: Global,
    words: &mut Lcg64Xsh32,
    periods: u32,
    count: u32,
) -> Vec<DraftResource> {
    let mut list = Vec::new(alloc);
    for before in 0..count {
        list.push(DraftResource {
            name: format!(in alloc; "m{}", u64::from(before) + 1).expect(rt, "memory"),
            capacity: draw_amounts(rt, alloc, words, periods, 14),
        })
        .expect(rt, "memory");
    }
    list
}

// Two of three times a resource takes time for units, for setups, for both or for none.
fn draw_uses(
    rt: &impl Abort,
    alloc: Global,
    words: &mut Lcg64Xsh32,
    resources: u32,
) -> Vec<DraftUse> {
    let mut list = Vec::new(alloc);
    for before in 0..resources {
        if draw(words, 3) > 0 {
            list.push(DraftUse {
                resource: format!(in alloc; "m{}", u64::from(before) + 1).expect(rt, "memory"),
                unit: draw_amount(words, 3),
                setup: draw_amount(words, 3),
            })
            .expect(rt, "memory");
        }
    }
    list
}

// Of three items i1 may take i2 and i3, and i3 may take i2.
fn draw_needs(
    rt: &impl Abort,
    alloc: Global,
    words: &mut Lcg64Xsh32,
    items: u32,
    number: u32,
) -> Vec<DraftNeed> {
    let mut list = Vec::new(alloc);
    for (user, component) in [(1u32, 2u32), (1, 3), (3, 2)] {
        if user == number && component <= items && draw(words, 2) == 0 {
            list.push(DraftNeed {
                item: format!(in alloc; "i{component}").expect(rt, "memory"),
                quantity: draw_amount(words, 2).saturating_add(1),
            })
            .expect(rt, "memory");
        }
    }
    list
}

// An item. The first may be late, if it is to be.
fn draw_item(
    rt: &impl Abort,
    alloc: Global,
    words: &mut Lcg64Xsh32,
    periods: u32,
    number: u32,
) -> DraftItem {
    let name = format!(in alloc; "i{number}").expect(rt, "memory");
    let mut item = item_named(alloc, periods as usize, &PLAIN, name).expect(rt, "memory");
    item.demand = draw_amounts(rt, alloc, words, periods, 3);
    item.opening = draw_amount(words, 7);
    item.end_max = Some(100);
    if draw(words, 4) == 0 {
        item.lead = 1;
    }
    if number == 1 && draw(words, 2) == 0 {
        item.backlog_cost = Some(draw_amounts(rt, alloc, words, periods, 2));
    }
    item
}

// Items i1, i2 and so on.
fn draw_items(
    rt: &impl Abort,
    alloc: Global,
    words: &mut Lcg64Xsh32,
    periods: u32,
    resources: u32,
    count: u32,
) -> Vec<DraftItem>
    requires { count ≤ 3 }
{
    let mut list = Vec::new(alloc);
    for before in 0..count {
        let number = before + 1;
        let mut item = draw_item(rt, alloc, words, periods, number);
        item.needs = draw_needs(rt, alloc, words, count, number);
        item.uses = draw_uses(rt, alloc, words, resources);
        list.push(item).expect(rt, "memory");
    }
    list
}

/// An instance.
pub fn draw_instance(rt: &impl Abort, alloc: Global, words: &mut Lcg64Xsh32) -> Instance {
    let periods = draw(words, 3) + 1;
    let resources = draw(words, 4);
    let items = draw(words, 3) + 1;
    let draft = Draft {
        periods: i64::from(periods),
        resources: draw_resources(rt, alloc, words, periods, resources),
        items: draw_items(rt, alloc, words, periods, resources, items),
    };
    instance_of(alloc, draft).expect(rt, "an instance")
}

// How much is made of an item in a period: nothing where it would arrive too late, and half of the time elsewhere.
fn draw_lot(words: &mut Lcg64Xsh32, instance: &Instance, item: u32, period: u32) -> u64 {
    let is_item = 1 <= item && item <= instance.items();
    if !is_item || draw(words, 2) == 0 {
        return 0;
    }
    let left = instance.periods().saturating_sub(period);
    if instance.lead(item) > left {
        return 0;
    }
    u64::from(draw(words, 3)) + 1
}

// Puts the lot of an item in a period, and a setup where there is one, and now and then where there is none.
fn put_lot(words: &mut Lcg64Xsh32, make: &mut Grid, setup: &mut Grid, place: (u32, u32), lot: u64) {
    let (item, period) = place;
    let is_made = 1 <= item && item <= make.items() && 1 <= period && period <= make.periods();
    let is_set = 1 <= item && item <= setup.items() && 1 <= period && period <= setup.periods();
    if is_made && is_set && (lot > 0 || draw(words, 4) == 0) {
        make.set(item, period, lot);
        setup.set(item, period, 1);
    }
}

/// What is made of the items of an instance, and their setups.
pub fn draw_choices(
    rt: &impl Abort,
    alloc: Global,
    words: &mut Lcg64Xsh32,
    instance: &Instance,
) -> (Grid, Grid) {
    let mut make = Grid::filled(alloc, instance.items(), instance.periods(), 0).expect(
        rt, "memory",
    );
    let mut setup = Grid::filled(alloc, instance.items(), instance.periods(), 0).expect(
        rt, "memory",
    );
    for place in 0..9u32 {
        let (item, period) = (1 + place / 3, 1 + place % 3);
        let lot = draw_lot(words, instance, item, period);
        put_lot(words, &mut make, &mut setup, (item, period), lot);
    }
    (make, setup)
}
