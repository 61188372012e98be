// What the tables of a model are read as, key by key.
ghost use Rattle.std.specs.Prelude.{◌≡◌, ◌+◌, ◌≤◌, ◌^◌, Ok, map, pos, IfOk, IfErr};
ghost use Rattle.toml.specs.View.{items_view, table_view, view};
ghost use Rattle.lot_draft.specs.Raw.{raw_item, raw_model, raw_need, raw_resource, raw_use};
ghost use Rattle.lot_draft.specs.declared.fault.Place.TheVariants.{Item, Root};
ghost use Rattle.lot_draft.specs.declared.fault.Key.TheVariants as key;
ghost use Rattle.lot_sizing.specs.declared.limits.TheConstants.{MAX_PERIODS};
ghost use Rattle.instance_reader.specs.Document.{has_only};
ghost use Rattle.instance_reader.specs.Reading.{IsWhyNot};
ghost use Rattle.instance_reader.specs.Tables.{are_tables, body_read, first_item_keys, item_keys, item_read, items_read, later_item_keys, model_read, most_periods, need_read, needs_read, no_tables, periods_read, resource_read, resources_read, table_list, table_read, tables_in, use_read, uses_read, version_read};
ghost use Rattle.instance_reader.specs.declared.fault.ReadModelFault.TheVariants.{Memory};

use crate::ReadModelFault;
use crate::document::{has_only, value_at};
use crate::fault::{fault_at, unknown_key};
use crate::reading::{
    needed_number, needed_series, needed_text, number_or_zero, optional_number, optional_series,
    series_or_zeros,
};
use crate::versions::{FIRST_VERSION, FIRST_VERSION_PERIODS};
use lot_model::{Draft, DraftItem, DraftNeed, DraftResource, DraftUse, Key, ModelCode, Place};
use lot_sizing::limits::MAX_PERIODS;
use std::alloc::Global;
use toml::{Table, Value};

// The number after this one. A list of 2^32 elements, which no text of fewer bytes has, is out of memory.
fn next(number: u32) -> Result<u32, ReadModelFault>
    ensures ok { IfOk result (λ n. n ≡ number + 1) }
    ensures refused { IfErr result (λ e. (e ≡ Memory) × (2 ^ 32 ≤ number + 1)) }
{
    match number.checked_add(1) {
        Some(n) => Ok(n),
        None => Err(ReadModelFault::Memory),
    }
}

// Whether each element of a list is a table.
fn are_tables(list: &[Value]) -> bool
    ensures { result ≡ are_tables (items_view list.now) }
{
    for value in list {
        if value.as_table().is_none() {
            return false;
        }
    }
    true
}

// The array of tables that a value is.
fn tables<'a>(value: &'a Value, place: Place, key: Key) -> Result<&'a [Value], ReadModelFault>
    ensures ok { IfOk result (λ list. table_list (no_tables place key) (view value.entry.now)
        ≡ Ok (items_view list.now)) }
    ensures refused { IfErr result (IsWhyNot
        (table_list (no_tables place key) (view value.entry.now))) }
{
    match value.as_array() {
        Some(list) => {
            if are_tables(list) {
                Ok(list)
            } else {
                Err(fault_at(ModelCode::WrongKind, place, key))
            }
        }
        None => Err(fault_at(ModelCode::WrongKind, place, key)),
    }
}

// A line of components.
fn need(alloc: Global, table: &Table, item: u32, line: u32) -> Result<DraftNeed, ReadModelFault>
    ensures ok { IfOk result (λ found. need_read item line (table_view table.now)
        ≡ Ok (raw_need found)) }
    ensures refused { IfErr result (IsWhyNot (need_read item line (table_view table.now))) }
{
    let place = Place::Need(item, line);
    if !has_only(table, &["item", "quantity"]) {
        return Err(unknown_key(place));
    }
    let item = needed_text(alloc, table, place, Key::Item)?;
    let quantity = needed_number(table, place, Key::Quantity)?;
    Ok(DraftNeed { item, quantity })
}

fn need_in(alloc: Global, value: &Value, item: u32, line: u32) -> Result<DraftNeed, ReadModelFault>
    ensures ok { IfOk result (λ found.
        table_read (need_read item) (no_tables (Item item) key.Needs) line (view value.now)
        ≡ Ok (raw_need found)) }
    ensures refused { IfErr result (IsWhyNot
        (table_read (need_read item) (no_tables (Item item) key.Needs) line (view value.now))) }
{
    match value.as_table() {
        Some(table) => need(alloc, table, item, line),
        None => Err(fault_at(ModelCode::WrongKind, Place::Item(item), Key::Needs)),
    }
}

// The lines of components of an array of tables.
fn needs_in(alloc: Global, list: &[Value], item: u32) -> Result<Vec<DraftNeed>, ReadModelFault>
    ensures ok { IfOk result (λ found.
        tables_in (need_read item) (no_tables (Item item) key.Needs) (items_view list.now)
        ≡ Ok (map raw_need found.items)) }
    ensures refused { IfErr result (IsWhyNot
        (tables_in (need_read item) (no_tables (Item item) key.Needs) (items_view list.now))) }
{
    let mut needs = Vec::new(alloc);
    let mut line = 0u32;
    for value in list {
        line = next(line)?;
        needs.push(need_in(alloc, value, item, line)?)?;
    }
    Ok(needs)
}

// The components of an item.
fn needs(alloc: Global, table: &Table, item: u32) -> Result<Vec<DraftNeed>, ReadModelFault>
    ensures ok { IfOk result (λ found. needs_read item (table_view table.now)
        ≡ Ok (map raw_need found.items)) }
    ensures refused { IfErr result (IsWhyNot (needs_read item (table_view table.now))) }
{
    match value_at(table, Key::Needs) {
        Some(value) => needs_in(alloc, tables(value, Place::Item(item), Key::Needs)?, item),
        None => Ok(Vec::new(alloc)),
    }
}

// A line of resources.
fn usage(alloc: Global, table: &Table, item: u32, line: u32) -> Result<DraftUse, ReadModelFault>
    ensures ok { IfOk result (λ found. use_read item line (table_view table.now)
        ≡ Ok (raw_use found)) }
    ensures refused { IfErr result (IsWhyNot (use_read item line (table_view table.now))) }
{
    let place = Place::Usage(item, line);
    if !has_only(table, &["resource", "unit", "setup"]) {
        return Err(unknown_key(place));
    }
    let resource = needed_text(alloc, table, place, Key::Resource)?;
    let unit = number_or_zero(table, place, Key::Unit)?;
    let setup = number_or_zero(table, place, Key::Setup)?;
    Ok(DraftUse {
        resource,
        unit,
        setup,
    })
}

fn usage_in(alloc: Global, value: &Value, item: u32, line: u32) -> Result<DraftUse, ReadModelFault>
    ensures ok { IfOk result (λ found.
        table_read (use_read item) (no_tables (Item item) key.Uses) line (view value.now)
        ≡ Ok (raw_use found)) }
    ensures refused { IfErr result (IsWhyNot
        (table_read (use_read item) (no_tables (Item item) key.Uses) line (view value.now))) }
{
    match value.as_table() {
        Some(table) => usage(alloc, table, item, line),
        None => Err(fault_at(ModelCode::WrongKind, Place::Item(item), Key::Uses)),
    }
}

// The lines of resources of an array of tables.
fn usages_in(alloc: Global, list: &[Value], item: u32) -> Result<Vec<DraftUse>, ReadModelFault>
    ensures ok { IfOk result (λ found.
        tables_in (use_read item) (no_tables (Item item) key.Uses) (items_view list.now)
        ≡ Ok (map raw_use found.items)) }
    ensures refused { IfErr result (IsWhyNot
        (tables_in (use_read item) (no_tables (Item item) key.Uses) (items_view list.now))) }
{
    let mut usages = Vec::new(alloc);
    let mut line = 0u32;
    for value in list {
        line = next(line)?;
        usages.push(usage_in(alloc, value, item, line)?)?;
    }
    Ok(usages)
}

// The resources that an item takes time on.
fn usages(alloc: Global, table: &Table, item: u32) -> Result<Vec<DraftUse>, ReadModelFault>
    ensures ok { IfOk result (λ found. uses_read item (table_view table.now)
        ≡ Ok (map raw_use found.items)) }
    ensures refused { IfErr result (IsWhyNot (uses_read item (table_view table.now))) }
{
    match value_at(table, Key::Uses) {
        Some(value) => usages_in(alloc, tables(value, Place::Item(item), Key::Uses)?, item),
        None => Ok(Vec::new(alloc)),
    }
}

// A resource.
fn resource(
    alloc: Global,
    table: &Table,
    periods: u32,
    number: u32,
) -> Result<DraftResource, ReadModelFault>
    ensures ok { IfOk result (λ found. resource_read periods number (table_view table.now)
        ≡ Ok (raw_resource found)) }
    ensures refused { IfErr result (IsWhyNot
        (resource_read periods number (table_view table.now))) }
{
    let place = Place::Resource(number);
    if !has_only(table, &["name", "capacity"]) {
        return Err(unknown_key(place));
    }
    let name = needed_text(alloc, table, place, Key::Name)?;
    let capacity = needed_series(alloc, table, place, Key::Capacity, periods)?;
    Ok(DraftResource { name, capacity })
}

fn resource_in(
    alloc: Global,
    value: &Value,
    periods: u32,
    number: u32,
) -> Result<DraftResource, ReadModelFault>
    ensures ok { IfOk result (λ found.
        table_read (resource_read periods) (no_tables Root key.Resource) number (view value.now)
        ≡ Ok (raw_resource found)) }
    ensures refused { IfErr result (IsWhyNot
        (table_read (resource_read periods) (no_tables Root key.Resource) number
        (view value.now))) }
{
    match value.as_table() {
        Some(table) => resource(alloc, table, periods, number),
        None => Err(fault_at(ModelCode::WrongKind, Place::Root, Key::Resource)),
    }
}

// The resources of an array of tables.
fn resources_in(
    alloc: Global,
    list: &[Value],
    periods: u32,
) -> Result<Vec<DraftResource>, ReadModelFault>
    ensures ok { IfOk result (λ found.
        tables_in (resource_read periods) (no_tables Root key.Resource) (items_view list.now)
        ≡ Ok (map raw_resource found.items)) }
    ensures refused { IfErr result (IsWhyNot
        (tables_in (resource_read periods) (no_tables Root key.Resource) (items_view list.now))) }
{
    let mut resources = Vec::new(alloc);
    let mut number = 0u32;
    for value in list {
        number = next(number)?;
        resources.push(resource_in(alloc, value, periods, number)?)?;
    }
    Ok(resources)
}

// The resources of a model.
fn resources(
    alloc: Global,
    table: &Table,
    periods: u32,
) -> Result<Vec<DraftResource>, ReadModelFault>
    ensures ok { IfOk result (λ found. resources_read periods (table_view table.now)
        ≡ Ok (map raw_resource found.items)) }
    ensures refused { IfErr result (IsWhyNot (resources_read periods (table_view table.now))) }
{
    match value_at(table, Key::Resource) {
        Some(value) => resources_in(alloc, tables(value, Place::Root, Key::Resource)?, periods),
        None => Ok(Vec::new(alloc)),
    }
}

// Whether an item of a model of the first version has no unknown key.
fn has_first_item_keys(table: &Table) -> bool
    ensures { result ≡ has_only first_item_keys (table_view table.now) }
{
    has_only(
        table,
        &[
            "name",
            "demand",
            "unit_cost",
            "setup_cost",
            "hold_cost",
            "backlog_cost",
            "opening",
            "end_min",
            "end_max",
            "needs",
            "uses",
        ],
    )
}

// Whether an item of a later model has no unknown key.
fn has_later_item_keys(table: &Table) -> bool
    ensures { result ≡ has_only later_item_keys (table_view table.now) }
{
    has_only(
        table,
        &[
            "name",
            "demand",
            "unit_cost",
            "setup_cost",
            "hold_cost",
            "backlog_cost",
            "opening",
            "end_min",
            "end_max",
            "lead",
            "min_lot",
            "max_lot",
            "needs",
            "uses",
        ],
    )
}

// Whether an item of a model of a version has no unknown key.
fn has_item_keys(table: &Table, version: u32) -> bool
    ensures { result ≡ has_only (item_keys version) (table_view table.now) }
{
    if version == FIRST_VERSION {
        has_first_item_keys(table)
    } else {
        has_later_item_keys(table)
    }
}

// An item.
fn item(
    alloc: Global,
    table: &Table,
    version: u32,
    periods: u32,
    number: u32,
) -> Result<DraftItem, ReadModelFault>
    ensures ok { IfOk result (λ found. item_read version periods number (table_view table.now)
        ≡ Ok (raw_item found)) }
    ensures refused { IfErr result (IsWhyNot
        (item_read version periods number (table_view table.now))) }
{
    let place = Place::Item(number);
    if !has_item_keys(table, version) {
        return Err(unknown_key(place));
    }
    let name = needed_text(alloc, table, place, Key::Name)?;
    let demand = needed_series(alloc, table, place, Key::Demand, periods)?;
    let unit_cost = series_or_zeros(alloc, table, place, Key::UnitCost, periods)?;
    let setup_cost = series_or_zeros(alloc, table, place, Key::SetupCost, periods)?;
    let hold_cost = series_or_zeros(alloc, table, place, Key::HoldCost, periods)?;
    let backlog_cost = optional_series(alloc, table, place, Key::BacklogCost, periods)?;
    let opening = number_or_zero(table, place, Key::Opening)?;
    let end_min = number_or_zero(table, place, Key::EndMin)?;
    let end_max = optional_number(table, place, Key::EndMax)?;
    let lead = number_or_zero(table, place, Key::Lead)?;
    let min_lot = number_or_zero(table, place, Key::MinLot)?;
    let max_lot = optional_number(table, place, Key::MaxLot)?;
    let needs = needs(alloc, table, number)?;
    let uses = usages(alloc, table, number)?;
    Ok(DraftItem {
        name,
        demand,
        unit_cost,
        setup_cost,
        hold_cost,
        backlog_cost,
        opening,
        end_min,
        end_max,
        lead,
        min_lot,
        max_lot,
        needs,
        uses,
    })
}

fn item_in(
    alloc: Global,
    value: &Value,
    version: u32,
    periods: u32,
    number: u32,
) -> Result<DraftItem, ReadModelFault>
    ensures ok { IfOk result (λ found.
        table_read (item_read version periods) (no_tables Root key.Item) number (view value.now)
        ≡ Ok (raw_item found)) }
    ensures refused { IfErr result (IsWhyNot
        (table_read (item_read version periods) (no_tables Root key.Item) number
        (view value.now))) }
{
    match value.as_table() {
        Some(table) => item(alloc, table, version, periods, number),
        None => Err(fault_at(ModelCode::WrongKind, Place::Root, Key::Item)),
    }
}

// The items of an array of tables.
fn items_in(
    alloc: Global,
    list: &[Value],
    version: u32,
    periods: u32,
) -> Result<Vec<DraftItem>, ReadModelFault>
    ensures ok { IfOk result (λ found.
        tables_in (item_read version periods) (no_tables Root key.Item) (items_view list.now)
        ≡ Ok (map raw_item found.items)) }
    ensures refused { IfErr result (IsWhyNot
        (tables_in (item_read version periods) (no_tables Root key.Item) (items_view list.now))) }
{
    let mut items = Vec::new(alloc);
    let mut number = 0u32;
    for value in list {
        number = next(number)?;
        items.push(item_in(alloc, value, version, periods, number)?)?;
    }
    Ok(items)
}

// The items of a model.
fn items(
    alloc: Global,
    table: &Table,
    version: u32,
    periods: u32,
) -> Result<Vec<DraftItem>, ReadModelFault>
    ensures ok { IfOk result (λ found. items_read version periods (table_view table.now)
        ≡ Ok (map raw_item found.items)) }
    ensures refused { IfErr result (IsWhyNot (items_read version periods (table_view table.now))) }
{
    match value_at(table, Key::Item) {
        Some(value) => items_in(
            alloc,
            tables(value, Place::Root, Key::Item)?,
            version,
            periods,
        ),
        None => Err(fault_at(ModelCode::MissingKey, Place::Root, Key::Item)),
    }
}

// The version of a model, which is at most the newest.
fn version(table: &Table, newest: u32) -> Result<u32, ReadModelFault>
    ensures ok { IfOk result (λ found. version_read newest (table_view table.now) ≡ Ok found) }
    ensures refused { IfErr result (IsWhyNot (version_read newest (table_view table.now))) }
{
    let version = needed_number(table, Place::Root, Key::Version)?;
    if version >= i64::from(FIRST_VERSION) && version <= i64::from(newest) {
        Ok(version as u32)
    } else {
        Err(fault_at(ModelCode::Version, Place::Root, Key::Version))
    }
}

// The most periods of a model of a version.
fn most_periods(version: u32) -> u32
    ensures value { result ≡ most_periods version }
    ensures small { result ≤ MAX_PERIODS }
{
    if version == FIRST_VERSION {
        FIRST_VERSION_PERIODS
    } else {
        MAX_PERIODS
    }
}

// The number of periods of a model of a version.
fn periods(table: &Table, version: u32) -> Result<u32, ReadModelFault>
    ensures ok { IfOk result (λ found. periods_read version (table_view table.now) ≡ Ok found) }
    ensures refused { IfErr result (IsWhyNot (periods_read version (table_view table.now))) }
{
    let periods = needed_number(table, Place::Root, Key::Periods)?;
    if periods >= 1 && periods <= i64::from(most_periods(version)) {
        Ok(periods as u32)
    } else {
        Err(fault_at(ModelCode::OutOfRange, Place::Root, Key::Periods))
    }
}

// The periods, resources and items of a model of a version.
fn body(alloc: Global, table: &Table, version: u32) -> Result<Draft, ReadModelFault>
    ensures ok { IfOk result (λ found. body_read version (table_view table.now)
        ≡ Ok (raw_model found)) }
    ensures refused { IfErr result (IsWhyNot (body_read version (table_view table.now))) }
{
    let periods = periods(table, version)?;
    let resources = resources(alloc, table, periods)?;
    let items = items(alloc, table, version, periods)?;
    Ok(Draft {
        periods: i64::from(periods),
        resources,
        items,
    })
}

/// The draft of a document's model, whose version is at most the newest.
pub fn model(alloc: Global, table: &Table, newest: u32) -> Result<Draft, ReadModelFault>
    ensures ok { IfOk result (λ found. model_read newest (table_view table.now)
        ≡ Ok (raw_model found)) }
    ensures refused { IfErr result (IsWhyNot (model_read newest (table_view table.now))) }
{
    let version = version(table, newest)?;
    if !has_only(table, &["version", "periods", "resource", "item"]) {
        return Err(unknown_key(Place::Root));
    }
    body(alloc, table, version)
}
