// Leaves over reduced costs, where items are planned in groups.
ghost use Rattle.std.specs.Prelude.{◌≤◌};
ghost use Rattle.lot_sizing.specs.Problem.{item_count};

use crate::cutting::item_cut;
use crate::leaf::Making;
use cert_lines::{Cut, ListKind, Part, PartList};
use integer_grids::numbers::{less, of_amount, times};
use item_groups::{Group, Shares};
use lin_rows::RowName;
use lot_model::Instance;
use node_setups::Fixed;
use price_groups::{Grouping, ItemGroup, MovedCosts};
use price_items::{Costs, DualPrices, Item, NodePricing, Pricing, Serving};
use std::alloc::{AllocError, Global};

/// Block cuts, and what a leaf over reduced costs has.
#[derive(Debug, Drop)]
pub struct Grouped {
    /// Block cuts of the items that are planned alone, in rising order.
    pub cuts: Vec<Cut>,
    /// The parts: the cuts by their numbers, least lots, end stocks, lots that come too late, and bounds of the path.
    pub parts: Vec<Part>,
    /// Balances, capacities and largest lots, by period.
    pub lists: Vec<PartList>,
    /// The groups.
    pub groups: Vec<Group>,
    /// The denominator: the scale of the prices, 0 where all costs are dropped.
    pub den: u64,
}

// What a leaf is made of.
#[derive(Clone, Copy)]
struct Given<'a> {
    instance: &'a Instance,
    pricing: &'a Pricing,
    grouping: &'a Grouping,
    prices: &'a DualPrices,
    fixed: &'a Fixed,
}

// Whether a number is other than 0.
fn some_is_there(list: &[i128]) -> bool {
    list.iter().any(|number| *number != 0)
}

// How often the balances of an item are taken: as often as a unit in stock costs from each period on, with a negative sign.
fn balance_times(
    alloc: Global,
    given: Given<'_>,
    moved: &MovedCosts,
    item: u32,
) -> Result<Vec<i128>, AllocError> {
    let price = moved.end_price(given.instance, given.grouping, item);
    let mut list = Vec::new(alloc);
    for tail in moved.tail.line(item) {
        list.push(i128::from(less(less(0, *tail), price)))?;
    }
    Ok(list)
}

// The numbers of a line.
fn wide_line(alloc: Global, line: &[i64]) -> Result<Vec<i128>, AllocError> {
    let mut list = Vec::new(alloc);
    for number in line {
        list.push(i128::from(*number))?;
    }
    Ok(list)
}

// A list is put to others, if it has a number other than 0.
fn put_list(
    lists: &mut Vec<PartList>,
    kind: ListKind,
    index: u32,
    times: Vec<i128>,
) -> Result<(), AllocError> {
    if some_is_there(&times) {
        lists.push(PartList { kind, index, times })?;
    }
    Ok(())
}

// The balances of all items, the capacities of all resources, and the largest lots of all items.
fn lists_of(
    alloc: Global,
    given: Given<'_>,
    moved: &MovedCosts,
) -> Result<Vec<PartList>, AllocError> {
    let mut lists = Vec::new(alloc);
    for item in 1..given.instance.items() + 1 {
        let times = balance_times(alloc, given, moved, item)?;
        put_list(&mut lists, ListKind::Balance, item, times)?;
    }
    for resource in 1..given.instance.resources() + 1 {
        let times = wide_line(alloc, given.prices.capacity.line(resource))?;
        put_list(&mut lists, ListKind::Capacity, resource, times)?;
    }
    for item in 1..given.instance.items() + 1 {
        let times = wide_line(alloc, given.prices.link.line(item))?;
        put_list(&mut lists, ListKind::Link, item, times)?;
    }
    Ok(lists)
}

// What the components of a unit of an item take from their prices at the end.
fn part_prices(given: Given<'_>, moved: &MovedCosts, item: u32) -> i64
    requires low { 1 ≤ item }
    requires high { item ≤ item_count given.instance.now }
{
    let mut sum = 0;
    for need in given.instance.needs(item) {
        let price = moved.end_price(given.instance, given.grouping, need.item);
        sum = less(sum, times(of_amount(need.quantity), price));
    }
    sum
}

// Lots of an item that come too late are taken as often as one would cost less than nothing.
fn put_late(
    given: Given<'_>,
    moved: &MovedCosts,
    item: u32,
    making: &mut Making,
) -> Result<(), AllocError>
    requires low { 1 ≤ item }
    requires high { item ≤ item_count given.instance.now }
{
    let instance = given.instance;
    let lead = instance.lead(item);
    if lead == 0 {
        return Ok(());
    }
    let parts = part_prices(given, moved, item);
    let first = instance.periods().saturating_sub(lead) + 1;
    for period in first..instance.periods() + 1 {
        let cost = less(moved.unit.get(item, period), less(0, parts));
        making.put(RowName::Late(item, period), less(0, cost).max(0))?;
    }
    Ok(())
}

// Least lots of an item are taken as often as they are priced.
fn put_lots(given: Given<'_>, item: u32, making: &mut Making) -> Result<(), AllocError> {
    for period in 1..given.instance.periods() + 1 {
        let price = given.prices.lot.get(item, period);
        making.put(RowName::Least(item, period), price)?;
    }
    Ok(())
}

// The end stocks of an item are taken as often as they are priced.
fn put_ends(
    given: Given<'_>,
    moved: &MovedCosts,
    item: u32,
    making: &mut Making,
) -> Result<(), AllocError>
    requires low { 1 ≤ item }
    requires high { item ≤ item_count given.instance.now }
{
    let Given {
        instance,
        pricing,
        grouping,
        prices,
        ..
    } = given;
    let rest = prices.end_rest(instance, pricing, item);
    making.put(RowName::EndMin(item), rest)?;
    making.put(
        RowName::EndMax(item),
        moved.end_price(instance, grouping, item),
    )
}

// The lists in which items are planned that are planned alone.
#[derive(Debug, Drop)]
struct Planning {
    alloc: Global,
    costs: Costs,
    serving: Serving,
    // The number of the first cut.
    first_cut: u32,
}

// The cut of an item that is planned alone.
fn put_alone(
    given: Given<'_>,
    item: &Item,
    planning: &mut Planning,
    making: &mut Making,
) -> Result<(), AllocError> {
    let Planning {
        alloc,
        costs,
        serving,
        first_cut,
    } = planning;
    costs.write(given.instance, item, given.prices, given.fixed)?;
    costs.move_all(item.backlogged)?;
    serving.serve_all(item, costs)?;
    match item_cut(*alloc, item, costs, serving)? {
        Some(cut) => making.put_cut(cut, *first_cut)?,
        None => making.fail(),
    }
    making.put_fixed(&costs.fee, &costs.setup, given.fixed, item.number)
}

// What a setup costs in a group, by what the path says of it, is no less than the largest price of cuts where it can't be made.
fn closed_fees(alloc: Global, fee: &[i64]) -> Result<Vec<i64>, AllocError> {
    let mut list = Vec::new(alloc);
    for cost in fee {
        list.push((*cost).max(CLOSED))?;
    }
    Ok(list)
}

// The price of setups that can't be made.
const CLOSED: i64 = 100_000_000_000;

// What is taken for an item beside balances and capacities.
fn put_item(
    given: Given<'_>,
    moved: &MovedCosts,
    number: u32,
    planning: &mut Planning,
    making: &mut Making,
) -> Result<(), AllocError>
    requires low { 1 ≤ number }
    requires high { number ≤ item_count given.instance.now }
{
    if let Some(item) = given.pricing.get(number) {
        if given.pricing.is_backlogged(number) {
            return put_alone(given, item, planning, making);
        }
    }
    let fees = moved.fee.line(number);
    let setups = closed_fees(planning.alloc, fees)?;
    making.put_fixed(fees, &setups, given.fixed, number)?;
    put_lots(given, number, making)?;
    put_late(given, moved, number, making)
}

// The shares of what falls short of an item by the prices, by period.
fn shares_of(alloc: Global, prices: &DualPrices, item: u32) -> Result<Shares, AllocError> {
    let mut list = Vec::new(alloc);
    for price in prices.share.line(item) {
        list.push(u64::try_from(*price).unwrap_or(0))?;
    }
    Ok(Shares::new(list))
}

// A group as leaves have it, with the shares of what falls short by the prices.
fn with_shares(alloc: Global, prices: &DualPrices, group: ItemGroup) -> Result<Group, AllocError> {
    Ok(match group {
        ItemGroup::Item { item } => Group::Item { item },
        ItemGroup::Late { item } => Group::Late {
            item,
            shares: shares_of(alloc, prices, item)?,
        },
        ItemGroup::Quantities { item } => Group::Quantities { item },
        ItemGroup::LateQuantities { item } => Group::LateQuantities {
            item,
            shares: shares_of(alloc, prices, item)?,
        },
        ItemGroup::Pair { low, top } => Group::Pair { low, top },
        ItemGroup::Triple { low, mid, top } => Group::Triple { low, mid, top },
    })
}

// All groups.
fn groups_of(alloc: Global, given: Given<'_>) -> Result<Vec<Group>, AllocError> {
    let mut groups = Vec::new(alloc);
    for group in given.grouping.groups() {
        groups.push(with_shares(alloc, given.prices, *group)?)?;
    }
    Ok(groups)
}

// What is taken for all items beside balances and capacities.
fn make(
    alloc: Global,
    given: Given<'_>,
    moved: &MovedCosts,
    first_cut: u32,
) -> Result<Making, AllocError> {
    let mut making = Making::new(alloc, given.instance)?;
    let mut planning = Planning {
        alloc,
        costs: Costs::new(alloc),
        serving: Serving::new(alloc),
        first_cut,
    };
    for number in 1..given.instance.items() + 1 {
        put_item(given, moved, number, &mut planning, &mut making)?;
        put_ends(given, moved, number, &mut making)?;
    }
    Ok(making)
}

// The leaf.
fn leaf_at(alloc: Global, given: Given<'_>, first_cut: u32) -> Result<Option<Grouped>, AllocError> {
    let mut moved = MovedCosts::zero(alloc, given.instance)?;
    moved.write(given.instance, given.prices.scale, given.prices.rows());
    let making = make(alloc, given, &moved, first_cut)?;
    let lists = lists_of(alloc, given, &moved)?;
    let Some((cuts, parts)) = making.into_lines() else {
        return Ok(None);
    };
    Ok(Some(Grouped {
        cuts,
        parts,
        lists,
        groups: groups_of(alloc, given)?,
        den: given.prices.scale,
    }))
}

/// The leaf over reduced costs of prices at a node whose path fixes some setups: balances as often as stock costs from each period
/// on, so that all of it is moved to units, capacities as often as they are priced, the bounds of the path so that the fixed
/// setups are counted, a block cut of each item that is planned alone, and the groups of all others.
///
/// Nothing is claimed of what it says: who takes it judges it. None where a number of a cut is past its limit. The parts name the
/// cuts `first_cut`, `first_cut + 1` and so on, and the bounds by their numbers in `fixed`.
///
/// The error is that memory ran out. It takes time in the square of the number of items times that of the periods.
pub fn grouped_leaf(
    alloc: Global,
    node: NodePricing<'_>,
    grouping: &Grouping,
    prices: &DualPrices,
    first_cut: u32,
) -> Result<Option<Grouped>, AllocError> {
    let given = Given {
        instance: node.instance,
        pricing: node.pricing,
        grouping,
        prices,
        fixed: node.fixed,
    };
    leaf_at(alloc, given, first_cut)
}

/// The leaf of `grouped_leaf` with all costs dropped, which says that there is no plan where the resources can't hold what is asked for; its
/// denominator is 0.
pub fn dropped_grouped_leaf(
    alloc: Global,
    node: NodePricing<'_>,
    grouping: &Grouping,
    prices: &DualPrices,
    first_cut: u32,
) -> Result<Option<Grouped>, AllocError> {
    let free = prices.dropped(alloc, node.instance, node.pricing)?;
    grouped_leaf(alloc, node, grouping, &free, first_cut)
}
