// A problem within its limits.
ghost use Rattle.std.specs.Prelude.{◌≡◌, ◌≤◌, ◌*◌, ◌^◌, ◌↔◌, ℕ, length, Ok, Some, None, MatchOption, IfOk, IfErr, IfSome, IsNone, IsSome, IsTrue, option_map, unwrap_or};
ghost use Rattle.std.specs.List.{All};
ghost use Rattle.lot_sizing.specs.Problem.{item_at, item_count, resource_at, resource_count, capacity, demand, unit_cost, setup_cost, hold_cost, backlog_cost, entry, per_unit, setup_time, unit_time, IsName, IsPlain, IsPlainItem, IsSeries, IsUncoupled};
ghost use Rattle.lot_sizing.specs.declared.limits.TheConstants.{MAX_AMOUNT, MAX_BILL_LINES, MAX_END_STOCK, MAX_LEAD, MAX_QUANTITY, MAX_RESOURCES, MAX_TOTAL};
ghost use Rattle.lot_sizing.specs.Bill.{AreWeights, bill_of};
ghost use Rattle.lot_sizing.specs.Totals.{AreLargestTotals, IsRanking};
ghost use Rattle.lot_draft.specs.Raw.{raw_model};
ghost use Rattle.lot_model.specs.Meaning.{IsRefused, Means};
ghost use Rattle.lot_model.specs.Views.{IsInstance};

use crate::data::{ItemData, ResourceData};
use crate::making::instance;
use crate::{Draft, DraftRefusal, Need, Usage};
use bill::Totals;
use std::alloc::Global;
use std::marker::Model;

/// A problem within its limits. Items, resources and periods are counted from 1.
///
/// No reader takes memory.
#[derive(Drop)]
pub struct Instance {
    pub(crate) periods: u32,
    pub(crate) resources: Vec<ResourceData>,
    pub(crate) items: Vec<ItemData>,
    pub(crate) totals: Totals,
    pub(crate) ranks: Vec<u32>,
}

impl Model for Instance {
    ghost use Rattle.lot_sizing.specs.Problem.{Problem};

    ghost Value = { Problem };

    ghost use Rattle.lot_model.specs.Views.{problem_in, IsKept};

    ghost view = { problem_in };

    ghost invariant = { IsKept };
}

impl Instance {
    /// The instance with the draft's values, or the first rule that it breaks. The draft then comes
    /// back as it was.
    ///
    /// It takes time in the square of the number of items times that of the lines of components.
    pub fn from_draft(alloc: Global, draft: Draft) -> Result<Instance, DraftRefusal>
        ensures values { IfOk result (λ made. Means (raw_model draft) (Ok made)) }
        ensures refused { IfErr result (IsRefused draft) }
    {
        match instance(alloc, &draft) {
            Ok(Ok(made)) => Ok(made),
            Ok(Err(fault)) => Err(DraftRefusal::Refused { fault, draft }),
            Err(_) => Err(DraftRefusal::Memory(draft)),
        }
    }

    /// The number of periods.
    pub fn periods(&self) -> u32
        ensures value { result ≡ self.now.periods }
        ensures instance { IsInstance self.now }
    {
        self.periods
    }

    /// The number of items.
    pub fn items(&self) -> u32
        ensures value { result ≡ item_count self.now }
        ensures instance { IsInstance self.now }
    {
        self.items.len() as u32
    }

    /// The number of resources.
    pub fn resources(&self) -> u32
        ensures value { result ≡ resource_count self.now }
        ensures instance { IsInstance self.now }
    {
        self.resources.len() as u32
    }

    /// The name of an item.
    pub fn item_name(&self, item: u32) -> &str
        requires low { 1 ≤ item }
        requires high { item ≤ item_count self.now }
        ensures value { result.now ≡ (item_at self.now item).name }
        ensures name { IsName result.now }
    {
        let data = &self.items[(item - 1) as usize];
        data.name.as_str()
    }

    /// The name of a resource.
    pub fn resource_name(&self, resource: u32) -> &str
        requires low { 1 ≤ resource }
        requires high { resource ≤ resource_count self.now }
        ensures value { result.now ≡ (resource_at self.now resource).name }
        ensures name { IsName result.now }
    {
        let data = &self.resources[(resource - 1) as usize];
        data.name.as_str()
    }

    /// Units of an item asked for in a period.
    pub fn demand(&self, item: u32, period: u32) -> u64
        requires item_low { 1 ≤ item }
        requires item_high { item ≤ item_count self.now }
        requires low { 1 ≤ period }
        requires high { period ≤ self.now.periods }
        ensures value { result ≡ demand self.now item period }
        ensures small { result ≤ MAX_AMOUNT }
    {
        let data = &self.items[(item - 1) as usize];
        data.demand[(period - 1) as usize]
    }

    /// The cost of making one unit of an item in a period.
    pub fn unit_cost(&self, item: u32, period: u32) -> u64
        requires item_low { 1 ≤ item }
        requires item_high { item ≤ item_count self.now }
        requires low { 1 ≤ period }
        requires high { period ≤ self.now.periods }
        ensures value { result ≡ unit_cost self.now item period }
        ensures small { result ≤ MAX_AMOUNT }
    {
        let data = &self.items[(item - 1) as usize];
        data.unit_cost[(period - 1) as usize]
    }

    /// The cost of a setup of an item in a period.
    pub fn setup_cost(&self, item: u32, period: u32) -> u64
        requires item_low { 1 ≤ item }
        requires item_high { item ≤ item_count self.now }
        requires low { 1 ≤ period }
        requires high { period ≤ self.now.periods }
        ensures value { result ≡ setup_cost self.now item period }
        ensures small { result ≤ MAX_AMOUNT }
    {
        let data = &self.items[(item - 1) as usize];
        data.setup_cost[(period - 1) as usize]
    }

    /// The cost of one unit of an item in stock at the end of a period.
    pub fn hold_cost(&self, item: u32, period: u32) -> u64
        requires item_low { 1 ≤ item }
        requires item_high { item ≤ item_count self.now }
        requires low { 1 ≤ period }
        requires high { period ≤ self.now.periods }
        ensures value { result ≡ hold_cost self.now item period }
        ensures small { result ≤ MAX_AMOUNT }
    {
        let data = &self.items[(item - 1) as usize];
        data.hold_cost[(period - 1) as usize]
    }

    /// The cost of one unit of an item owed at the end of a period. None exactly where the item has
    /// no backlog cost.
    pub fn backlog_cost(&self, item: u32, period: u32) -> Option<u64>
        requires item_low { 1 ≤ item }
        requires item_high { item ≤ item_count self.now }
        requires low { 1 ≤ period }
        requires high { period ≤ self.now.periods }
        ensures value { MatchOption (item_at self.now item).backlog_cost (result ≡ None)
            (λ prices. result ≡ Some (entry prices period)) }
        ensures price { unwrap_or result 0 ≡ backlog_cost self.now item period }
        ensures small { unwrap_or result 0 ≤ MAX_AMOUNT }
        ensures allowed { IsNone result ↔ IsNone (item_at self.now item).backlog_cost }
    {
        let data = &self.items[(item - 1) as usize];
        match &data.backlog_cost {
            None => None,
            Some(prices) => Some(prices[(period - 1) as usize]),
        }
    }

    /// Units of an item in stock before the first period.
    pub fn opening(&self, item: u32) -> u64
        requires low { 1 ≤ item }
        requires high { item ≤ item_count self.now }
        ensures value { result ≡ (item_at self.now item).opening }
        ensures small { result ≤ MAX_AMOUNT }
    {
        let data = &self.items[(item - 1) as usize];
        data.opening
    }

    /// The least stock of an item at the end of the last period.
    pub fn end_min(&self, item: u32) -> u64
        requires low { 1 ≤ item }
        requires high { item ≤ item_count self.now }
        ensures value { result ≡ (item_at self.now item).end_min }
        ensures small { result ≤ MAX_AMOUNT }
    {
        let data = &self.items[(item - 1) as usize];
        data.end_min
    }

    /// The largest stock of an item at the end of the last period.
    pub fn end_max(&self, item: u32) -> u64
        requires low { 1 ≤ item }
        requires high { item ≤ item_count self.now }
        ensures value { result ≡ (item_at self.now item).end_max }
        ensures small { result ≤ MAX_END_STOCK }
    {
        let data = &self.items[(item - 1) as usize];
        data.end_max
    }

    /// Units of an item asked for, one entry for each period.
    pub fn demands(&self, item: u32) -> &[u64]
        requires low { 1 ≤ item }
        requires high { item ≤ item_count self.now }
        ensures value { result.now ≡ (item_at self.now item).demand }
        ensures series { IsSeries self.now.periods MAX_AMOUNT result.now }
    {
        let data = &self.items[(item - 1) as usize];
        &data.demand
    }

    /// The costs of making one unit of an item, one for each period.
    pub fn unit_costs(&self, item: u32) -> &[u64]
        requires low { 1 ≤ item }
        requires high { item ≤ item_count self.now }
        ensures value { result.now ≡ (item_at self.now item).unit_cost }
        ensures series { IsSeries self.now.periods MAX_AMOUNT result.now }
    {
        let data = &self.items[(item - 1) as usize];
        &data.unit_cost
    }

    /// The costs of a setup of an item, one for each period.
    pub fn setup_costs(&self, item: u32) -> &[u64]
        requires low { 1 ≤ item }
        requires high { item ≤ item_count self.now }
        ensures value { result.now ≡ (item_at self.now item).setup_cost }
        ensures series { IsSeries self.now.periods MAX_AMOUNT result.now }
    {
        let data = &self.items[(item - 1) as usize];
        &data.setup_cost
    }

    /// The costs of one unit of an item in stock, one for each period.
    pub fn hold_costs(&self, item: u32) -> &[u64]
        requires low { 1 ≤ item }
        requires high { item ≤ item_count self.now }
        ensures value { result.now ≡ (item_at self.now item).hold_cost }
        ensures series { IsSeries self.now.periods MAX_AMOUNT result.now }
    {
        let data = &self.items[(item - 1) as usize];
        &data.hold_cost
    }

    /// The costs of one unit of an item owed, one for each period. None exactly where the item has no
    /// backlog cost.
    pub fn backlog_costs(&self, item: u32) -> Option<&[u64]>
        requires low { 1 ≤ item }
        requires high { item ≤ item_count self.now }
        ensures value { option_map (λ list. list.now) result
            ≡ (item_at self.now item).backlog_cost }
        ensures series { IfSome result (λ list. IsSeries self.now.periods MAX_AMOUNT list.now) }
    {
        let data = &self.items[(item - 1) as usize];
        match &data.backlog_cost {
            None => None,
            Some(prices) => Some(prices.as_slice()),
        }
    }

    /// The times of a resource, one for each period.
    pub fn capacities(&self, resource: u32) -> &[u64]
        requires low { 1 ≤ resource }
        requires high { resource ≤ resource_count self.now }
        ensures value { result.now ≡ (resource_at self.now resource).capacity }
        ensures series { IsSeries self.now.periods MAX_AMOUNT result.now }
    {
        let data = &self.resources[(resource - 1) as usize];
        &data.capacity
    }

    /// The periods from the start of a lot of an item to its arrival.
    pub fn lead(&self, item: u32) -> u32
        requires low { 1 ≤ item }
        requires high { item ≤ item_count self.now }
        ensures value { result ≡ (item_at self.now item).lead }
        ensures small { result ≤ MAX_LEAD }
    {
        let data = &self.items[(item - 1) as usize];
        data.lead as u32
    }

    /// The least quantity of an item that a setup makes.
    pub fn min_lot(&self, item: u32) -> u64
        requires low { 1 ≤ item }
        requires high { item ≤ item_count self.now }
        ensures value { result ≡ (item_at self.now item).min_lot }
        ensures small { result ≤ MAX_AMOUNT }
    {
        let data = &self.items[(item - 1) as usize];
        data.min_lot
    }

    /// The largest quantity of an item that a period makes. None exactly where there is no bound.
    pub fn max_lot(&self, item: u32) -> Option<u64>
        requires low { 1 ≤ item }
        requires high { item ≤ item_count self.now }
        ensures value { result ≡ (item_at self.now item).max_lot }
        ensures small { IfSome result (λ most. (1 ≤ most) × (most ≤ MAX_AMOUNT)) }
    {
        let data = &self.items[(item - 1) as usize];
        data.max_lot
    }

    /// Whether an item has a backlog cost, so that it may be delivered late.
    pub fn has_backlog_cost(&self, item: u32) -> bool
        requires low { 1 ≤ item }
        requires high { item ≤ item_count self.now }
        ensures { IsTrue result ↔ IsSome (item_at self.now item).backlog_cost }
    {
        let data = &self.items[(item - 1) as usize];
        data.backlog_cost.is_some()
    }

    /// How many units of an item go into one unit of another.
    pub fn per_unit(&self, item: u32, other: u32) -> u64
        requires low { 1 ≤ other }
        requires high { other ≤ item_count self.now }
        ensures value { result ≡ per_unit self.now item other }
        ensures small { result ≤ MAX_BILL_LINES * MAX_QUANTITY }
    {
        let mut total = 0;
        for need in self.needs(other) {
            if need.item == item {
                total += need.quantity;
            }
        }
        total
    }

    /// The time that one unit of an item takes on a resource, in time units of the resource.
    pub fn unit_time(&self, item: u32, resource: u32) -> u64
        requires low { 1 ≤ item }
        requires high { item ≤ item_count self.now }
        ensures value { result ≡ unit_time self.now item resource }
        ensures small { result ≤ MAX_RESOURCES * MAX_AMOUNT }
    {
        let mut total = 0;
        for usage in self.uses(item) {
            if usage.resource == resource {
                total += usage.unit;
            }
        }
        total
    }

    /// The time that a setup of an item takes on a resource, in time units of the resource.
    pub fn setup_time(&self, item: u32, resource: u32) -> u64
        requires low { 1 ≤ item }
        requires high { item ≤ item_count self.now }
        ensures value { result ≡ setup_time self.now item resource }
        ensures small { result ≤ MAX_RESOURCES * MAX_AMOUNT }
    {
        let mut total = 0;
        for usage in self.uses(item) {
            if usage.resource == resource {
                total += usage.setup;
            }
        }
        total
    }

    /// The components of an item.
    pub fn needs(&self, item: u32) -> &[Need]
        requires low { 1 ≤ item }
        requires high { item ≤ item_count self.now }
        ensures value { result.now ≡ (item_at self.now item).needs }
        ensures count { length result.now ≤ MAX_BILL_LINES }
        ensures small { All (λ need. (1 ≤ need.quantity) × (need.quantity ≤ MAX_QUANTITY))
            result.now }
        ensures items_exist { All (λ need. (1 ≤ need.item) × (need.item ≤ item_count self.now))
            result.now }
    {
        let data = &self.items[(item - 1) as usize];
        &data.needs
    }

    /// The resources that an item takes time on.
    pub fn uses(&self, item: u32) -> &[Usage]
        requires low { 1 ≤ item }
        requires high { item ≤ item_count self.now }
        ensures value { result.now ≡ (item_at self.now item).uses }
        ensures count { length result.now ≤ MAX_RESOURCES }
        ensures small { All (λ usage. (usage.unit ≤ MAX_AMOUNT) × (usage.setup ≤ MAX_AMOUNT))
            result.now }
        ensures resources_exist { All (λ usage. (1 ≤ usage.resource)
            × (usage.resource ≤ resource_count self.now)) result.now }
    {
        let data = &self.items[(item - 1) as usize];
        &data.uses
    }

    /// The time of a resource in a period.
    pub fn capacity(&self, resource: u32, period: u32) -> u64
        requires low { 1 ≤ resource }
        requires high { resource ≤ resource_count self.now }
        requires period_low { 1 ≤ period }
        requires period_high { period ≤ self.now.periods }
        ensures value { result ≡ capacity self.now resource period }
        ensures small { result ≤ MAX_AMOUNT }
    {
        let data = &self.resources[(resource - 1) as usize];
        data.capacity[(period - 1) as usize]
    }

    /// The largest total: no feasible plan makes more of an item in all.
    pub fn largest_total(&self, item: u32) -> u64
        requires low { 1 ≤ item }
        requires high { item ≤ item_count self.now }
        ensures value { (total : ℕ → ℕ) × AreLargestTotals self.now total × (result ≡ total item) }
        ensures all { (total : ℕ → ℕ) → AreLargestTotals self.now total → result ≡ total item }
        ensures small { result ≤ MAX_TOTAL }
    {
        self.totals.total(item)
    }

    /// The weight of an item in another: how many units of it one unit of the other takes over all paths
    /// of the bill, with one of an item in itself.
    pub fn weight(&self, item: u32, other: u32) -> u64
        requires low { 1 ≤ item }
        requires high { item ≤ item_count self.now }
        requires other_low { 1 ≤ other }
        requires other_high { other ≤ item_count self.now }
        ensures value { (weight : ℕ → ℕ → ℕ) → AreWeights (bill_of self.now) weight
            → result ≡ weight item other }
        ensures small { result ≤ MAX_TOTAL }
    {
        self.totals.weight(item, other)
    }

    /// A rank for each item, above that of each item that it goes into.
    pub fn ranks(&self) -> &[u32]
        ensures size { length result.now ≡ item_count self.now }
        ensures small { (i : ℕ) → entry result.now i ≤ item_count self.now }
        ensures ranks { IsRanking self.now (entry result.now) }
    {
        &self.ranks
    }
}

// Whether a lot of an item arrives in the period in which it is started, and may have any size.
fn is_plain_item(instance: &Instance, item: u32) -> bool
    requires low { 1 ≤ item }
    requires high { item ≤ item_count instance.now }
    ensures { IsTrue result ↔ IsPlainItem (item_at instance.now item) }
{
    instance.lead(item) == 0 && instance.min_lot(item) == 0 && instance.max_lot(item).is_none()
}

/// Whether no item has a lead time, a least lot or a largest lot. It takes no memory.
pub fn is_plain(instance: &Instance) -> bool
    ensures { IsTrue result ↔ IsPlain instance.now }
{
    for item in 1..instance.items() + 1 {
        if !is_plain_item(instance, item) {
            return false;
        }
    }
    true
}

/// Whether no item takes time on a resource or needs another item, and all are plain. It takes no
/// memory.
pub fn is_uncoupled(instance: &Instance) -> bool
    ensures { IsTrue result ↔ IsUncoupled instance.now }
{
    for item in 1..instance.items() + 1 {
        if !instance.uses(item).is_empty() || !instance.needs(item).is_empty() {
            return false;
        }
    }
    is_plain(instance)
}
