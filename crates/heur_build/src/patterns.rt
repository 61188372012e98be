// Which setups items want, each planned by itself.
ghost use Rattle.std.specs.Prelude.{◌≡◌, ◌≤◌, IfOk, IsNone, OnOk};
ghost use Rattle.lot_sizing.specs.Problem.{item_count};
ghost use Rattle.lot_sizing.specs.Single.{Cover, period_count};
ghost use Rattle.echelon.specs.Views.{single_of_item};
ghost use Rattle.plan_rules.specs.Cells.{Fits};

use crate::nets::net_demands;
use crate::prices::echelon_hold;
use echelon::{Block, SingleItem, is_within_bounds};
use lot_model::Instance;
use lot_sizing::limits::MAX_AMOUNT;
use plan_rules::Grid;
use std::alloc::{AllocError, Global};

/// The parts of a whole in which costs are counted.
pub const PARTS: u64 = 4;

// What a unit in stock costs, in parts: its holding cost, less so many parts of the components' holding costs.
fn stock_price(instance: &Instance, item: u32, period: u32, less: u64) -> u64
    requires item_low { 1 ≤ item }
    requires item_high { item ≤ item_count instance.now }
    requires low { 1 ≤ period }
    requires high { period ≤ instance.now.periods }
{
    let own = instance.hold_cost(item, period);
    let echelon = echelon_hold(instance, item, period);
    own.saturating_mul(PARTS.saturating_sub(less))
        .saturating_add(echelon.saturating_mul(less))
        .min(MAX_AMOUNT)
}

// What a unit in stock costs in each period, in parts.
fn stock_prices(
    alloc: Global,
    instance: &Instance,
    item: u32,
    less: u64,
) -> Result<Vec<u64>, AllocError>
    requires low { 1 ≤ item }
    requires high { item ≤ item_count instance.now }
{
    let mut list = Vec::new(alloc);
    for period in 1..instance.periods() + 1 {
        list.push(stock_price(instance, item, period, less))?;
    }
    Ok(list)
}

// Costs counted in parts, none above `MAX_AMOUNT`.
fn in_parts(alloc: Global, costs: &[u64]) -> Result<Vec<u64>, AllocError> {
    let mut list = Vec::new(alloc);
    for cost in costs {
        list.push(cost.saturating_mul(PARTS).min(MAX_AMOUNT))?;
    }
    Ok(list)
}

// The item by itself, without backlog.
fn single_with(
    alloc: Global,
    instance: &Instance,
    item: u32,
    less: u64,
    make: &Grid,
) -> Result<SingleItem, AllocError>
    requires low { 1 ≤ item }
    requires high { item ≤ item_count instance.now }
    requires make { Fits instance.now make.now }
    ensures periods { IfOk result (λ single. period_count (single_of_item single)
        ≡ instance.now.periods) }
    ensures no_backlog { IfOk result (λ single. IsNone single.back) }
{
    let net = net_demands(alloc, instance, item, make)?;
    let setup = in_parts(alloc, instance.setup_costs(item))?;
    let unit = in_parts(alloc, instance.unit_costs(item))?;
    let hold = stock_prices(alloc, instance, item, less)?;
    Ok(SingleItem {
        net,
        setup,
        unit,
        hold,
        back: None,
    })
}

// Wants a setup of an item in the period of each block.
fn want_servers(_single: &SingleItem, blocks: &[Block], item: u32, wanted: &mut Grid)
    requires blocks { Cover (single_of_item _single.now) blocks.now }
    requires periods { period_count (single_of_item _single.now) ≡ wanted.old.periods }
    requires low { 1 ≤ item }
    requires high { item ≤ wanted.old.items }
    ensures items { wanted.new.items ≡ wanted.old.items }
    ensures periods { wanted.new.periods ≡ wanted.old.periods }
{
    for block in blocks {
        wanted.set(item, block.server, 1);
    }
}

// Puts lots in the row of an item: each wanted setup makes what is needed up to the next one.
fn put_lots(single: &SingleItem, wanted: &Grid, item: u32, make: &mut Grid)
    requires periods { period_count (single_of_item single.now) ≡ wanted.now.periods }
    requires make_periods { make.old.periods ≡ wanted.now.periods }
    requires make_items { make.old.items ≡ wanted.now.items }
    requires low { 1 ≤ item }
    requires high { item ≤ wanted.now.items }
    ensures items { make.new.items ≡ make.old.items }
    ensures periods { make.new.periods ≡ make.old.periods }
{
    let mut carried = 0u64;
    for back in 0..wanted.periods() {
        let period = wanted.periods() - back;
        let net = single.net[(period - 1) as usize].min(u64::MAX as u128) as u64;
        carried = carried.saturating_add(net);
        let lot = if wanted.get(item, period) == 1 {
            carried
        } else {
            0
        };
        make.set(item, period, lot);
        carried -= lot;
    }
}

// Wants the setups of a cheapest way to serve an item by itself, and puts its lots in its row.
fn want_item(
    alloc: Global,
    instance: &Instance,
    item: u32,
    less: u64,
    make: &mut Grid,
    wanted: &mut Grid,
) -> Result<(), AllocError>
    requires low { 1 ≤ item }
    requires high { item ≤ item_count instance.now }
    requires make { Fits instance.now make.old }
    requires wanted { Fits instance.now wanted.old }
    ensures make { OnOk result (Fits instance.now make.new) }
    ensures wanted { OnOk result (Fits instance.now wanted.new) }
{
    let single = single_with(alloc, instance, item, less, make)?;
    if !is_within_bounds(&single) {
        return Ok(());
    }
    let found = wagner_whitin::solve(alloc, &single)?;
    want_servers(&single, &found.blocks, item, wanted);
    put_lots(&single, wanted, item, make);
    Ok(())
}

// Wants the setups of a cheapest way to serve each item of a rank by itself, and puts its lots in its row.
fn want_rank(
    alloc: Global,
    instance: &Instance,
    rank: u32,
    less: u64,
    make: &mut Grid,
    wanted: &mut Grid,
) -> Result<(), AllocError>
    requires make { Fits instance.now make.old }
    requires wanted { Fits instance.now wanted.old }
    ensures make { OnOk result (Fits instance.now make.new) }
    ensures wanted { OnOk result (Fits instance.now wanted.new) }
{
    let ranks = instance.ranks();
    for item in 1..instance.items() + 1 {
        if ranks[(item - 1) as usize] == rank {
            want_item(alloc, instance, item, less, make, wanted)?;
        }
    }
    Ok(())
}

/// The setups of a plan in which each item is served as cheaply as it can be by itself, items before their
/// components: 1 where there is one, else 0. From the cost of a unit in stock so many quarters are taken off of
/// what its components would cost there, none to `PARTS`.
pub fn wanted_apart(alloc: Global, instance: &Instance, less: u64) -> Result<Grid, AllocError>
    ensures { IfOk result (Fits instance.now) }
{
    let mut make = Grid::filled(alloc, instance.items(), instance.periods(), 0)?;
    let mut wanted = Grid::filled(alloc, instance.items(), instance.periods(), 0)?;
    for rank in 0..instance.items() + 1 {
        want_rank(alloc, instance, rank, less, &mut make, &mut wanted)?;
    }
    Ok(wanted)
}

// Wants a setup of an item where its number and that of the period add up to a multiple of this.
fn want_spread(instance: &Instance, item: u32, every: u64, wanted: &mut Grid)
    requires low { 1 ≤ item }
    requires high { item ≤ item_count instance.now }
    requires wanted { Fits instance.now wanted.old }
    ensures { Fits instance.now wanted.new }
{
    for period in 1..instance.periods() + 1 {
        let turn = u64::from(item) + u64::from(period);
        if turn % every.max(1) == 0 {
            wanted.set(item, period, 1);
        }
    }
}

/// Setups of each item in one of so many periods, the items in turn: 1 where there is one, else 0.
pub fn wanted_spread(alloc: Global, instance: &Instance, every: u64) -> Result<Grid, AllocError>
    ensures { IfOk result (Fits instance.now) }
{
    let mut wanted = Grid::filled(alloc, instance.items(), instance.periods(), 0)?;
    for item in 1..instance.items() + 1 {
        want_spread(instance, item, every, &mut wanted);
    }
    Ok(wanted)
}
