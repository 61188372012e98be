// Items that lines of components tie together, as a model of their own under the time that the others leave.
ghost use Rattle.std.specs.Prelude.{◌≡◌, ◌≤◌, IfOk};
ghost use Rattle.lot_sizing.specs.Problem.{item_count, resource_count};
ghost use Rattle.first_plans.specs.Families.{AreLots};

use lot_model::{Draft, DraftItem, DraftNeed, DraftRefusal, DraftResource, DraftUse, Instance};
use plan_rules::Grid;
use std::alloc::{AllocError, Global};

/// Families of items: those that lines of components tie together, over others too.
#[derive(Drop)]
pub struct Families {
    // The least number of an item of the same family, by item.
    marks: Vec<u32>,
}

impl Families {
    // Each item is a family of its own.
    fn apart(alloc: Global, instance: &Instance) -> Result<Families, AllocError> {
        let mut marks = Vec::new(alloc);
        for item in 1..instance.items() + 1 {
            marks.push(item)?;
        }
        Ok(Families { marks })
    }

    /// The families of a model.
    pub(crate) fn of(alloc: Global, instance: &Instance) -> Result<Families, AllocError> {
        let mut families = Families::apart(alloc, instance)?;
        for _round in 0..instance.items() {
            families.tie(instance);
        }
        Ok(families)
    }

    // The mark of an item, if there is such an item.
    fn mark(&self, item: u32) -> Option<u32> {
        match self.marks.get(item.wrapping_sub(1) as usize) {
            Some(mark) => Some(*mark),
            None => None,
        }
    }

    // Gives an item a mark.
    fn set(&mut self, item: u32, mark: u32) {
        if let Some(cell) = self.marks.get_mut(item.wrapping_sub(1) as usize) {
            *cell = mark;
        }
    }

    // Gives an item and its components the least of their marks.
    fn tie_item(&mut self, instance: &Instance, item: u32)
        requires low { 1 ≤ item }
        requires high { item ≤ item_count instance.now }
    {
        for need in instance.needs(item) {
            if let (Some(own), Some(other)) = (self.mark(item), self.mark(need.item)) {
                let least = own.min(other);
                self.set(item, least);
                self.set(need.item, least);
            }
        }
    }

    // Gives each item and its components the least of their marks.
    fn tie(&mut self, instance: &Instance) {
        for item in 1..instance.items() + 1 {
            self.tie_item(instance, item);
        }
    }

    /// Whether all items are of one family.
    pub(crate) fn is_one(&self, instance: &Instance) -> bool {
        for item in 1..instance.items() + 1 {
            if self.mark(item) != Some(1) {
                return false;
            }
        }
        true
    }
}

/// A family of items.
#[derive(Clone, Copy)]
pub struct Family<'a> {
    /// All families of the model.
    pub(crate) families: &'a Families,
    /// The least number of an item of this one.
    pub(crate) least: u32,
}

impl Family<'_> {
    /// Whether an item is of the family.
    pub(crate) fn has(&self, item: u32) -> bool {
        self.families.mark(item) == Some(self.least)
    }
}

// An amount, with a sign.
fn signed(amount: u64) -> i64 {
    i64::try_from(amount).unwrap_or(i64::MAX)
}

// Amounts, with signs.
fn signed_list(alloc: Global, amounts: &[u64]) -> Result<Vec<i64>, AllocError> {
    let mut list = Vec::new(alloc);
    for amount in amounts {
        list.push(signed(*amount))?;
    }
    Ok(list)
}

fn item_name(alloc: Global, item: u32) -> Result<String, AllocError> {
    format!(in alloc; "i{item}")
}

fn resource_name(alloc: Global, resource: u32) -> Result<String, AllocError> {
    format!(in alloc; "r{resource}")
}

// The cost of what is owed of an item, where it may be late.
fn late_costs(alloc: Global, instance: &Instance, item: u32) -> Result<Option<Vec<i64>>, AllocError>
    requires low { 1 ≤ item }
    requires high { item ≤ item_count instance.now }
{
    match instance.backlog_costs(item) {
        Some(costs) => Ok(Some(signed_list(alloc, costs)?)),
        None => Ok(None),
    }
}

// The components of an item.
fn needs_of(alloc: Global, instance: &Instance, item: u32) -> Result<Vec<DraftNeed>, AllocError>
    requires low { 1 ≤ item }
    requires high { item ≤ item_count instance.now }
{
    let mut list = Vec::new(alloc);
    for need in instance.needs(item) {
        list.push(DraftNeed {
            item: item_name(alloc, need.item)?,
            quantity: signed(need.quantity),
        })?;
    }
    Ok(list)
}

// The resources that an item takes time on.
fn uses_of(alloc: Global, instance: &Instance, item: u32) -> Result<Vec<DraftUse>, AllocError>
    requires low { 1 ≤ item }
    requires high { item ≤ item_count instance.now }
{
    let mut list = Vec::new(alloc);
    for usage in instance.uses(item) {
        list.push(DraftUse {
            resource: resource_name(alloc, usage.resource)?,
            unit: signed(usage.unit),
            setup: signed(usage.setup),
        })?;
    }
    Ok(list)
}

// An item as it stands in the model.
fn item_of(alloc: Global, instance: &Instance, item: u32) -> Result<DraftItem, AllocError>
    requires low { 1 ≤ item }
    requires high { item ≤ item_count instance.now }
{
    Ok(DraftItem {
        name: item_name(alloc, item)?,
        demand: signed_list(alloc, instance.demands(item))?,
        unit_cost: signed_list(alloc, instance.unit_costs(item))?,
        setup_cost: signed_list(alloc, instance.setup_costs(item))?,
        hold_cost: signed_list(alloc, instance.hold_costs(item))?,
        backlog_cost: late_costs(alloc, instance, item)?,
        opening: signed(instance.opening(item)),
        end_min: signed(instance.end_min(item)),
        end_max: Some(signed(instance.end_max(item))),
        lead: i64::from(instance.lead(item)),
        min_lot: signed(instance.min_lot(item)),
        max_lot: instance.max_lot(item).map(signed),
        needs: needs_of(alloc, instance, item)?,
        uses: uses_of(alloc, instance, item)?,
    })
}

// The items of a family.
fn items_of(
    alloc: Global,
    instance: &Instance,
    family: Family<'_>,
) -> Result<Vec<DraftItem>, AllocError> {
    let mut list = Vec::new(alloc);
    for item in 1..instance.items() + 1 {
        if family.has(item) {
            list.push(item_of(alloc, instance, item)?)?;
        }
    }
    Ok(list)
}

/// Lots, and their setups.
#[derive(Clone, Copy)]
pub struct Lots<'a> {
    pub make: &'a Grid,
    pub setup: &'a Grid,
}

// The time of a resource in a period that the lots of other families leave.
fn time_left(
    instance: &Instance,
    family: Family<'_>,
    lots: Lots<'_>,
    resource: u32,
    period: u32,
) -> u64
    requires lots { AreLots instance.now lots }
    requires resource_low { 1 ≤ resource }
    requires resource_high { resource ≤ resource_count instance.now }
    requires low { 1 ≤ period }
    requires high { period ≤ instance.now.periods }
{
    let mut left = instance.capacity(resource, period) as u128;
    for item in 1..instance.items() + 1 {
        if !family.has(item) {
            let units = instance.unit_time(item, resource) as u128
                * lots.make.get(item, period) as u128;
            let setups = instance.setup_time(item, resource) as u128
                * lots.setup.get(item, period) as u128;
            left = left.saturating_sub(units).saturating_sub(setups);
        }
    }
    u64::try_from(left).unwrap_or(0)
}

// A resource, with the time that the lots of other families leave.
fn resource_of(
    alloc: Global,
    instance: &Instance,
    family: Family<'_>,
    lots: Lots<'_>,
    resource: u32,
) -> Result<DraftResource, AllocError>
    requires lots { AreLots instance.now lots }
    requires low { 1 ≤ resource }
    requires high { resource ≤ resource_count instance.now }
{
    let mut capacity = Vec::new(alloc);
    for period in 1..instance.periods() + 1 {
        let left = time_left(instance, family, lots, resource, period);
        capacity.push(signed(left))?;
    }
    Ok(DraftResource {
        name: resource_name(alloc, resource)?,
        capacity,
    })
}

// All resources so.
fn resources_of(
    alloc: Global,
    instance: &Instance,
    family: Family<'_>,
    lots: Lots<'_>,
) -> Result<Vec<DraftResource>, AllocError>
    requires lots { AreLots instance.now lots }
{
    let mut list = Vec::new(alloc);
    for resource in 1..instance.resources() + 1 {
        list.push(resource_of(alloc, instance, family, lots, resource)?)?;
    }
    Ok(list)
}

/// The model of a family alone: its items in their order, and the time that these lots of the others leave. None where that
/// is no model.
pub(crate) fn family_alone(
    alloc: Global,
    instance: &Instance,
    family: Family<'_>,
    lots: Lots<'_>,
) -> Result<Option<Instance>, AllocError>
    requires lots { AreLots instance.now lots }
{
    let draft = Draft {
        periods: i64::from(instance.periods()),
        resources: resources_of(alloc, instance, family, lots)?,
        items: items_of(alloc, instance, family)?,
    };
    match Instance::from_draft(alloc, draft) {
        Ok(alone) => Ok(Some(alone)),
        Err(DraftRefusal::Memory(_)) => Err(AllocError),
        Err(DraftRefusal::Refused { .. }) => Ok(None),
    }
}

// Copies a row of a grid to a row of another one, where both have them.
fn copy_row(from: &Grid, item: u32, to: &mut Grid, other: u32)
    ensures items { to.new.items ≡ to.old.items }
    ensures periods { to.new.periods ≡ to.old.periods }
{
    if item < 1 || item > from.items() || other < 1 || other > to.items() {
        return;
    }
    let periods = from.periods().min(to.periods());
    for before in 0..periods {
        let period = before + 1;
        to.set(other, period, from.get(item, period));
    }
}

/// Copies the rows of a family out of the grid of all items.
pub fn take_rows(instance: &Instance, family: Family<'_>, all: &Grid, own: &mut Grid)
    ensures items { own.new.items ≡ own.old.items }
    ensures periods { own.new.periods ≡ own.old.periods }
{
    let mut row = 0u32;
    for item in 1..instance.items() + 1 {
        if family.has(item) {
            row = row.saturating_add(1);
            copy_row(all, item, own, row);
        }
    }
}

/// Copies the rows of a family into the grid of all items.
pub fn give_rows(instance: &Instance, family: Family<'_>, own: &Grid, all: &mut Grid)
    ensures items { all.new.items ≡ all.old.items }
    ensures periods { all.new.periods ≡ all.old.periods }
{
    let mut row = 0u32;
    for item in 1..instance.items() + 1 {
        if family.has(item) {
            row = row.saturating_add(1);
            copy_row(own, row, all, item);
        }
    }
}
