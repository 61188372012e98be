ghost use Rattle.std.specs.Prelude.{◌≡◌, ◌<◌, IfOk, IfSome};
ghost use Rattle.lot_sizing.specs.Single.{IsLeastNetCost};
ghost use Rattle.echelon.specs.Views.{single_of_item};

use echelon::is_within_bounds;
use std::alloc::{AllocError, Global};
use std::marker::Brand;
use std::sync::ledger::{Blank, Ledger};
use std::test::Fail;
use wagner_whitin::laws::{lines_are_potentials, solve_plain};
use wagner_whitin::{
    Block, Blocks, SingleItem, Steps, less_counted, plain_least_cost, solve, solve_counted,
    solve_over_servers,
};

fn item(
    alloc: Global,
    net: &[u128],
    setup: &[u64],
    unit: &[u64],
    hold: &[u64],
    back: Option<&[u64]>,
) -> Result<SingleItem, AllocError> {
    Ok(SingleItem {
        net: net.to_vec(alloc)?,
        setup: setup.to_vec(alloc)?,
        unit: unit.to_vec(alloc)?,
        hold: hold.to_vec(alloc)?,
        back: match back {
            Some(costs) => Some(costs.to_vec(alloc)?),
            None => None,
        },
    })
}

// What the recursion finds for an item within bounds.
fn blocks_of(alloc: Global, single: &SingleItem) -> Result<Blocks, Fail> {
    if !is_within_bounds(single) {
        return Err("not within bounds".into());
    }
    match &single.back {
        Some(_) => Ok(solve_over_servers(alloc, single)?),
        None => Ok(solve(alloc, single)?),
    }
}

// The least cost of an item without backlog; none where it isn't within bounds, or has backlog costs.
fn least_cost(alloc: Global, single: &SingleItem) -> Result<Option<u128>, AllocError>
    ensures least { IfOk result (λ found.
        IfSome found (IsLeastNetCost (single_of_item single.now))) }
{
    if !is_within_bounds(single) || single.back.is_some() {
        return Ok(None);
    }
    Ok(Some(solve(alloc, single)?.cost))
}

// What the recursion whose steps aren't counted finds for an item within bounds, or that over servers where
// there is backlog.
fn uncounted(alloc: Global, single: &SingleItem) -> Result<Blocks, Fail> {
    if !is_within_bounds(single) {
        return Err("not within bounds".into());
    }
    if single.back.is_some() {
        return Ok(solve_over_servers(alloc, single)?);
    }
    Ok(solve_plain(alloc, single)?)
}

// What the recursion with counted steps finds for an item within bounds, or that over servers where there is
// backlog.
fn counted_on<L: Ledger>(alloc: Global, single: &SingleItem, blank: Blank) -> Result<Blocks, Fail>
    requires name { blank.name ≡ L.name }
    requires parts { blank.parts ≡ L.parts }
    requires some { 0 < L.parts }
{
    if !is_within_bounds(single) {
        return Err("not within bounds".into());
    }
    if single.back.is_some() {
        return Ok(solve_over_servers(alloc, single)?);
    }
    let mut steps = Steps::<L>::new(blank);
    Ok(solve_counted(alloc, single, &mut steps)?)
}

// The same on a ledger of its own.
fn counted(alloc: Global, single: &SingleItem) -> Result<Blocks, Fail> {
    counted_on::<Brand>(alloc, single, Blank::new(1))
}

// The costs that these two find.
fn other_costs(alloc: Global, single: &SingleItem) -> Result<(u128, u128), Fail> {
    let uncounted = uncounted(alloc, single)?.cost;
    let counted = counted(alloc, single)?.cost;
    Ok((uncounted, counted))
}

// The cost that the recursion finds for an item within bounds.
fn cost_of(alloc: Global, single: &SingleItem) -> Result<u128, Fail> {
    let found = blocks_of(alloc, single)?;
    Ok(found.cost)
}

// What the plain form finds for an item within bounds.
fn plain_of(alloc: Global, single: &SingleItem) -> Result<u128, Fail> {
    if !is_within_bounds(single) {
        return Err("not within bounds".into());
    }
    Ok(plain_least_cost(alloc, single)?)
}

fn at(list: &[u64], period: usize) -> u64 {
    list.get(period).copied().unwrap_or(0)
}

// What a unit costs that period `made` makes for period `needed`.
fn price(single: &SingleItem, made: usize, needed: usize) -> u64 {
    let mut price = at(&single.unit, made);
    for period in made..needed {
        price = price.wrapping_add(at(&single.hold, period));
    }
    if let Some(back) = &single.back {
        for period in needed..made {
            price = price.wrapping_add(at(back, period));
        }
    }
    price
}

// Whether a mask sets a period up.
fn is_set(mask: u64, period: usize) -> bool {
    (mask >> (period % 64) as u32) & 1 == 1
}

// The price of a unit for a period from its cheapest setup, if it has one.
fn cheapest_price(single: &SingleItem, mask: u64, needed: usize) -> Option<u64> {
    let mut best: Option<u64> = None;
    for made in 0..single.net.len() {
        if is_set(mask, made) && (single.back.is_some() || made <= needed) {
            let now = price(single, made, needed);
            best = Some(best.unwrap_or(now).min(now));
        }
    }
    best
}

// The least cost with the setups of a mask, where each net demand is served by its cheapest setup.
fn cost_of_setups(single: &SingleItem, mask: u64) -> Option<u128> {
    let mut cost = 0u128;
    for period in 0..single.net.len() {
        if is_set(mask, period) {
            cost = cost.wrapping_add(at(&single.setup, period) as u128);
        }
    }
    for needed in 0..single.net.len() {
        let net = single.net.get(needed).copied().unwrap_or(0);
        if net > 0 {
            let price = cheapest_price(single, mask, needed)?;
            cost = cost.wrapping_add(net.wrapping_mul(price as u128));
        }
    }
    Some(cost)
}

// Whether each of two numbers is less than the other one, as two steps.
fn both_ways<L: Ledger>(left: i128, right: i128, blank: Blank) -> (bool, bool)
    requires name { blank.name ≡ L.name }
    requires parts { blank.parts ≡ L.parts }
    requires some { 0 < L.parts }
{
    let mut steps = Steps::<L>::new(blank);
    let one = less_counted(left, right, &mut steps);
    (one, less_counted(right, left, &mut steps))
}

#[test]
fn numbers_are_compared(rt: HostRuntime) -> Result<(), Fail> {
    lines_are_potentials();
    assert_eq!(rt; both_ways::<Brand>(-1, 0, Blank::new(1)), (true, false));
    assert_eq!(rt;
        both_ways::<Brand>(i128::MIN, i128::MAX, Blank::new(1)),
        (true, false)
    );
    assert_eq!(rt; both_ways::<Brand>(7, 7, Blank::new(1)), (false, false));
    Ok(())
}

// The least cost over all ways to place setups.
fn least_of_all_setups(single: &SingleItem) -> Option<u128> {
    let mut best: Option<u128> = None;
    for mask in 0..1u64 << (single.net.len() % 16) as u32 {
        if let Some(cost) = cost_of_setups(single, mask) {
            best = Some(best.unwrap_or(cost).min(cost));
        }
    }
    best
}

// An item over twelve periods.
fn twelve(alloc: Global) -> Result<SingleItem, AllocError> {
    let net = [69u128, 29, 36, 61, 61, 26, 34, 67, 45, 67, 79, 56];
    let setup = [85u64, 102, 102, 101, 98, 114, 105, 86, 119, 110, 98, 114];
    item(alloc, &net, &setup, &[0u64; 12], &[1u64; 12], None)
}

// What the recursion finds for it.
fn blocks_of_twelve(alloc: Global) -> Result<Blocks, Fail> {
    let single = twelve(alloc)?;
    blocks_of(alloc, &single)
}

#[test]
fn twelve_periods(rt: HostRuntime) -> Result<(), Fail> {
    let found = blocks_of_twelve(rt.alloc())?;
    let last = found.potentials.last().copied();
    assert_eq!(rt; (found.cost, last), (864, Some(864)));
    let blocks = [
        (1u32, 2u32, 1u32),
        (3, 4, 3),
        (5, 7, 5),
        (8, 9, 8),
        (10, 10, 10),
        (11, 12, 11),
    ];
    assert_eq!(rt; found.blocks.len(), blocks.len());
    for (block, (first, last, server)) in found.blocks.iter().zip(blocks.iter()) {
        assert_eq!(rt;
            *block,
            Block {
                first: *first,
                last: *last,
                server: *server
            }
        );
    }
    Ok(())
}

// The cost of what is found, and whether its blocks and potentials are those that were found before.
fn beside(found: &Blocks, before: &Blocks) -> (u128, bool, bool) {
    let is_blocks = found.blocks == before.blocks;
    (found.cost, is_blocks, found.potentials == before.potentials)
}

// What the recursion finds whose steps aren't counted, beside what was found before.
fn uncounted_beside(
    alloc: Global,
    single: &SingleItem,
    before: &Blocks,
) -> Result<(u128, bool, bool), Fail> {
    let found = uncounted(alloc, single)?;
    Ok(beside(&found, before))
}

// The same of the recursion with counted steps.
fn counted_beside(
    alloc: Global,
    single: &SingleItem,
    before: &Blocks,
) -> Result<(u128, bool, bool), Fail> {
    let found = counted(alloc, single)?;
    Ok(beside(&found, before))
}

#[test]
fn other_recursions_over_twelve_periods(rt: HostRuntime) -> Result<(), Fail> {
    let alloc = rt.alloc();
    let single = twelve(alloc)?;
    let before = blocks_of(alloc, &single)?;
    let uncounted = uncounted_beside(alloc, &single, &before)?;
    let counted = counted_beside(alloc, &single, &before)?;
    assert_eq!(rt;
        (uncounted, counted),
        ((864, true, true), (864, true, true))
    );
    Ok(())
}

// The cost that is found for an item within bounds, and how many blocks and potentials.
fn sizes_of(alloc: Global, single: &SingleItem) -> Result<(u128, usize, usize), Fail> {
    let found = blocks_of(alloc, single)?;
    Ok((found.cost, found.blocks.len(), found.potentials.len()))
}

#[test]
fn an_item_of_which_nothing_is_asked(rt: HostRuntime) -> Result<(), Fail> {
    let alloc = rt.alloc();
    let none = item(alloc, &[0u128], &[5u64], &[0u64], &[0u64], None)?;
    assert_eq!(rt; sizes_of(alloc, &none)?, (0, 0, 0));
    Ok(())
}

#[test]
fn an_item_over_one_period(rt: HostRuntime) -> Result<(), Fail> {
    let alloc = rt.alloc();
    let one = item(alloc, &[10u128], &[5u64], &[2u64], &[0u64], None)?;
    assert_eq!(rt; cost_of(alloc, &one)?, 25);
    Ok(())
}

// An item over two periods, with these backlog costs.
fn two_periods(alloc: Global, back: Option<&[u64]>) -> Result<SingleItem, AllocError> {
    let (net, setup) = ([4u128, 6], [100u64, 20]);
    item(alloc, &net, &setup, &[0u64, 0], &[1u64, 1], back)
}

#[test]
fn an_item_over_two_periods(rt: HostRuntime) -> Result<(), Fail> {
    let alloc = rt.alloc();
    let two = two_periods(alloc, None)?;
    assert_eq!(rt; least_cost(alloc, &two)?, Some(106));
    Ok(())
}

// The cost that is found for an item within bounds, and the first block.
fn first_of(alloc: Global, single: &SingleItem) -> Result<(u128, Option<Block>), Fail> {
    let found = blocks_of(alloc, single)?;
    Ok((found.cost, found.blocks.first().copied()))
}

#[test]
fn an_item_that_may_be_late(rt: HostRuntime) -> Result<(), Fail> {
    let alloc = rt.alloc();
    let late = two_periods(alloc, Some(&[2u64, 2]))?;
    assert_eq!(rt; least_cost(alloc, &late)?, None);
    let block = Block {
        first: 1,
        last: 2,
        server: 2,
    };
    assert_eq!(rt; first_of(alloc, &late)?, (28, Some(block)));
    Ok(())
}

// An item whose numbers are all at their limits, with these backlog costs.
fn largest(alloc: Global, back: Option<&[u64]>) -> Result<SingleItem, AllocError> {
    let costs = [1_000_000_000u64; 120];
    item(
        alloc,
        &[8_333_333_333u128; 120],
        &costs,
        &costs,
        &costs,
        back,
    )
}

// Each net demand is made in its own period.
const LARGEST_COST: u128 = 120 * (1_000_000_000 + 8_333_333_333 * 1_000_000_000);

#[test]
fn numbers_at_their_limits(rt: HostRuntime) -> Result<(), Fail> {
    let alloc = rt.alloc();
    let late = largest(alloc, Some(&[1_000_000_000u64; 120]))?;
    assert_eq!(rt; cost_of(alloc, &late)?, LARGEST_COST);
    Ok(())
}

#[test]
fn numbers_at_their_limits_without_backlog(rt: HostRuntime) -> Result<(), Fail> {
    let alloc = rt.alloc();
    let single = largest(alloc, None)?;
    assert_eq!(rt; cost_of(alloc, &single)?, LARGEST_COST);
    assert_eq!(rt; other_costs(alloc, &single)?, (LARGEST_COST, LARGEST_COST));
    Ok(())
}

// Compares the recursion with its plain form and with all ways to place setups, for one item.
fn compare(alloc: Global, single: &SingleItem) -> Result<(), Fail> {
    let cost = cost_of(alloc, single)?;
    if Some(cost) != least_of_all_setups(single) {
        return Err("another cost than that of all ways to place setups".into());
    }
    if plain_of(alloc, single)? != cost {
        return Err("another cost than that of the plain form".into());
    }
    if other_costs(alloc, single)? != (cost, cost) {
        return Err("another cost than that of the other recursions".into());
    }
    Ok(())
}

// Compares for each choice of unit and holding costs, without backlog and with each choice of its costs.
fn compare_costs(
    alloc: Global,
    net: &[u128],
    setup: &[u64],
    units: &[[u64; 5]],
    holds: &[[u64; 5]],
    backs: &[[u64; 5]],
) -> Result<(), Fail> {
    for unit in units {
        for hold in holds {
            compare(alloc, &item(alloc, net, setup, unit, hold, None)?)?;
            compare_backs(alloc, net, setup, unit, hold, backs)?;
        }
    }
    Ok(())
}

// Compares with each choice of backlog costs.
fn compare_backs(
    alloc: Global,
    net: &[u128],
    setup: &[u64],
    unit: &[u64],
    hold: &[u64],
    backs: &[[u64; 5]],
) -> Result<(), Fail> {
    for back in backs {
        compare(alloc, &item(alloc, net, setup, unit, hold, Some(back))?)?;
    }
    Ok(())
}

#[test]
fn all_ways_to_place_setups(rt: HostRuntime) -> Result<(), Fail> {
    let alloc = rt.alloc();
    let nets = [
        [0u128, 0, 0, 0, 0],
        [3, 0, 4, 0, 2],
        [0, 0, 5, 1, 0],
        [1, 1, 1, 1, 1],
        [7, 2, 0, 9, 4],
        [0, 6, 6, 6, 30],
        [0, 0, 0, 0, 1_000_000_000],
    ];
    let setups = [
        [0u64, 0, 0, 0, 0],
        [5, 5, 5, 5, 5],
        [20, 3, 14, 8, 1],
        [100, 20, 1, 50, 7],
        [1_000_000_000, 1, 1_000_000_000, 1, 1_000_000_000],
    ];
    let units = [[0u64, 0, 0, 0, 0], [3, 1, 4, 1, 5], [9, 7, 5, 3, 1]];
    let holds = [[1u64, 1, 1, 1, 1], [0, 0, 0, 0, 0], [2, 0, 5, 1, 3]];
    let backs = [[2u64, 2, 2, 2, 2], [0, 0, 0, 0, 0], [1, 4, 1, 5, 9]];
    for net in &nets {
        for setup in &setups {
            compare_costs(alloc, net, setup, &units, &holds, &backs)?;
        }
    }
    Ok(())
}
