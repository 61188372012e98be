// The text of an instance.
ghost use Rattle.std.specs.Prelude.{◌≡◌, ◌≤◌, ◌<◌, ◌^◌, IfOk, OnOk, option_map};
ghost use Rattle.std.specs.List.{All};
ghost use Rattle.toml.specs.Data.{array, string, table};
ghost use Rattle.toml.specs.View.{table_view, view};
ghost use Rattle.lot_sizing.specs.Problem.{AllAtMost, item_at, item_count, resource_at, resource_count};
ghost use Rattle.lot_sizing.specs.declared.limits.TheConstants.{MAX_AMOUNT, MAX_QUANTITY};
ghost use Rattle.instance_reader.specs.Written.{IsModelText, item_table, model_table, need_table, number, number_list, plain_table, resource_table, some_tables, tables_of, use_table, with_key, with_numbers, with_some};

use crate::versions::NEWEST_VERSION;
use lot_model::{Instance, Key, Need, Usage};
use std::alloc::{AllocError, Global};
use toml::{Table, Value};

// A number.
fn number(amount: u64) -> Value
    requires { amount < 2 ^ 63 }
    ensures { view result ≡ number amount }
{
    Value::Integer(amount as i64)
}

// A list of numbers.
fn number_list(alloc: Global, amounts: &[u64]) -> Result<Value, AllocError>
    requires { AllAtMost MAX_AMOUNT amounts.now }
    ensures { IfOk result (λ value. view value ≡ number_list amounts.now) }
{
    let mut list = Vec::with_capacity(alloc, amounts.len())?;
    for amount in amounts {
        list.push(number(*amount))?;
    }
    Ok(Value::Array(list))
}

/// Puts a value for a key of models into a table. The error is that memory ran out; nothing is said
/// of the table then.
pub fn put(alloc: Global, table: &mut Table, key: Key, value: Value) -> Result<(), AllocError>
    ensures table { OnOk result (table_view table.new
        ≡ with_key key (view value) (table_view table.old)) }
{
    let name = String::from_str(alloc, key.name())?;
    drop(table.insert(name, value)?);
    Ok(())
}

/// The same where there is a value, and nothing otherwise.
pub fn put_some(
    alloc: Global,
    table: &mut Table,
    key: Key,
    value: Option<Value>,
) -> Result<(), AllocError>
    ensures table { OnOk result (table_view table.new
        ≡ with_some key (option_map view value) (table_view table.old)) }
{
    match value {
        Some(value) => put(alloc, table, key, value),
        None => Ok(()),
    }
}

// A name.
fn text(alloc: Global, name: &str) -> Result<Value, AllocError>
    ensures { IfOk result (λ value. view value ≡ string name.now) }
{
    Ok(Value::String(String::from_str(alloc, name)?))
}

// A line of components.
fn need(alloc: Global, instance: &Instance, line: Need) -> Result<Value, AllocError>
    requires low { 1 ≤ line.item }
    requires high { line.item ≤ item_count instance.now }
    requires small { line.quantity ≤ MAX_QUANTITY }
    ensures { IfOk result (λ value. view value ≡ table (need_table instance.now line)) }
{
    let mut table = Table::new(alloc);
    let name = text(alloc, instance.item_name(line.item))?;
    put(alloc, &mut table, Key::Item, name)?;
    put(alloc, &mut table, Key::Quantity, number(line.quantity))?;
    Ok(Value::Table(table))
}

// The lines of components of an item.
fn need_list(alloc: Global, instance: &Instance, lines: &[Need]) -> Result<Value, AllocError>
    requires there { All (λ line. (1 ≤ line.item) × (line.item ≤ item_count instance.now))
        lines.now }
    requires small { All (λ line. (1 ≤ line.quantity) × (line.quantity ≤ MAX_QUANTITY)) lines.now }
    ensures { IfOk result (λ value. view value
        ≡ array (tables_of (need_table instance.now) lines.now)) }
{
    let mut list = Vec::with_capacity(alloc, lines.len())?;
    for line in lines {
        list.push(need(alloc, instance, *line)?)?;
    }
    Ok(Value::Array(list))
}

// The components of an item, if it has any.
fn needs(alloc: Global, instance: &Instance, item: u32) -> Result<Option<Value>, AllocError>
    requires low { 1 ≤ item }
    requires high { item ≤ item_count instance.now }
    ensures { IfOk result (λ value. option_map view value
        ≡ some_tables (need_table instance.now) (item_at instance.now item).needs) }
{
    let lines = instance.needs(item);
    if lines.is_empty() {
        return Ok(None);
    }
    Ok(Some(need_list(alloc, instance, lines)?))
}

// A line of resources.
fn usage(alloc: Global, instance: &Instance, line: Usage) -> Result<Value, AllocError>
    requires low { 1 ≤ line.resource }
    requires high { line.resource ≤ resource_count instance.now }
    requires unit { line.unit ≤ MAX_AMOUNT }
    requires setup { line.setup ≤ MAX_AMOUNT }
    ensures { IfOk result (λ value. view value ≡ table (use_table instance.now line)) }
{
    let mut table = Table::new(alloc);
    let name = text(alloc, instance.resource_name(line.resource))?;
    put(alloc, &mut table, Key::Resource, name)?;
    put(alloc, &mut table, Key::Unit, number(line.unit))?;
    put(alloc, &mut table, Key::Setup, number(line.setup))?;
    Ok(Value::Table(table))
}

// The lines of resources of an item.
fn usage_list(alloc: Global, instance: &Instance, lines: &[Usage]) -> Result<Value, AllocError>
    requires there { All (λ line. (1 ≤ line.resource)
        × (line.resource ≤ resource_count instance.now)) lines.now }
    requires small { All (λ line. (line.unit ≤ MAX_AMOUNT) × (line.setup ≤ MAX_AMOUNT)) lines.now }
    ensures { IfOk result (λ value. view value
        ≡ array (tables_of (use_table instance.now) lines.now)) }
{
    let mut list = Vec::with_capacity(alloc, lines.len())?;
    for line in lines {
        list.push(usage(alloc, instance, *line)?)?;
    }
    Ok(Value::Array(list))
}

// The resources that an item takes time on, if there are any.
fn uses(alloc: Global, instance: &Instance, item: u32) -> Result<Option<Value>, AllocError>
    requires low { 1 ≤ item }
    requires high { item ≤ item_count instance.now }
    ensures { IfOk result (λ value. option_map view value
        ≡ some_tables (use_table instance.now) (item_at instance.now item).uses) }
{
    let lines = instance.uses(item);
    if lines.is_empty() {
        return Ok(None);
    }
    Ok(Some(usage_list(alloc, instance, lines)?))
}

// The backlog costs of an item, if it has any.
fn backlog_costs(alloc: Global, instance: &Instance, item: u32) -> Result<Option<Value>, AllocError>
    requires low { 1 ≤ item }
    requires high { item ≤ item_count instance.now }
    ensures { IfOk result (λ value. option_map view value
        ≡ option_map number_list (item_at instance.now item).backlog_cost) }
{
    match instance.backlog_costs(item) {
        Some(prices) => Ok(Some(number_list(alloc, prices)?)),
        None => Ok(None),
    }
}

// The largest lot of an item, if there is a bound.
fn max_lot(instance: &Instance, item: u32) -> Option<Value>
    requires low { 1 ≤ item }
    requires high { item ≤ item_count instance.now }
    ensures { option_map view result ≡ option_map number (item_at instance.now item).max_lot }
{
    match instance.max_lot(item) {
        Some(most) => Some(number(most)),
        None => None,
    }
}

// Puts the keys that each item has with a single number into a table.
fn put_numbers(
    alloc: Global,
    instance: &Instance,
    item: u32,
    table: &mut Table,
) -> Result<(), AllocError>
    requires low { 1 ≤ item }
    requires high { item ≤ item_count instance.now }
    ensures table { OnOk result (table_view table.new
        ≡ with_numbers (item_at instance.now item) (table_view table.old)) }
{
    let lead = u64::from(instance.lead(item));
    put(alloc, table, Key::Opening, number(instance.opening(item)))?;
    put(alloc, table, Key::EndMin, number(instance.end_min(item)))?;
    put(alloc, table, Key::EndMax, number(instance.end_max(item)))?;
    put(alloc, table, Key::Lead, number(lead))?;
    put(alloc, table, Key::MinLot, number(instance.min_lot(item)))?;
    Ok(())
}

// The keys that each item has.
fn plain(alloc: Global, instance: &Instance, item: u32) -> Result<Table, AllocError>
    requires low { 1 ≤ item }
    requires high { item ≤ item_count instance.now }
    ensures { IfOk result (λ made. table_view made ≡ plain_table (item_at instance.now item)) }
{
    let mut table = Table::new(alloc);
    let name = text(alloc, instance.item_name(item))?;
    let demand = number_list(alloc, instance.demands(item))?;
    let unit_cost = number_list(alloc, instance.unit_costs(item))?;
    let setup_cost = number_list(alloc, instance.setup_costs(item))?;
    let hold_cost = number_list(alloc, instance.hold_costs(item))?;
    put(alloc, &mut table, Key::Name, name)?;
    put(alloc, &mut table, Key::Demand, demand)?;
    put(alloc, &mut table, Key::UnitCost, unit_cost)?;
    put(alloc, &mut table, Key::SetupCost, setup_cost)?;
    put(alloc, &mut table, Key::HoldCost, hold_cost)?;
    put_numbers(alloc, instance, item, &mut table)?;
    Ok(table)
}

// An item.
fn item(alloc: Global, instance: &Instance, item: u32) -> Result<Value, AllocError>
    requires low { 1 ≤ item }
    requires high { item ≤ item_count instance.now }
    ensures { IfOk result (λ value. view value
        ≡ table (item_table instance.now (item_at instance.now item))) }
{
    let mut table = plain(alloc, instance, item)?;
    let back = backlog_costs(alloc, instance, item)?;
    let needs = needs(alloc, instance, item)?;
    let uses = uses(alloc, instance, item)?;
    put_some(alloc, &mut table, Key::BacklogCost, back)?;
    put_some(alloc, &mut table, Key::MaxLot, max_lot(instance, item))?;
    put_some(alloc, &mut table, Key::Needs, needs)?;
    put_some(alloc, &mut table, Key::Uses, uses)?;
    Ok(Value::Table(table))
}

// The items.
fn items(alloc: Global, instance: &Instance) -> Result<Value, AllocError>
    ensures { IfOk result (λ value. view value
        ≡ array (tables_of (item_table instance.now) instance.now.items)) }
{
    let mut list = Vec::with_capacity(alloc, instance.items() as usize)?;
    for number in 1..instance.items() + 1 {
        list.push(item(alloc, instance, number)?)?;
    }
    Ok(Value::Array(list))
}

// A resource.
fn resource(alloc: Global, instance: &Instance, resource: u32) -> Result<Value, AllocError>
    requires low { 1 ≤ resource }
    requires high { resource ≤ resource_count instance.now }
    ensures { IfOk result (λ value. view value
        ≡ table (resource_table (resource_at instance.now resource))) }
{
    let mut table = Table::new(alloc);
    let name = text(alloc, instance.resource_name(resource))?;
    let capacity = number_list(alloc, instance.capacities(resource))?;
    put(alloc, &mut table, Key::Name, name)?;
    put(alloc, &mut table, Key::Capacity, capacity)?;
    Ok(Value::Table(table))
}

// The resources.
fn resource_list(alloc: Global, instance: &Instance) -> Result<Value, AllocError>
    ensures { IfOk result (λ value. view value
        ≡ array (tables_of resource_table instance.now.resources)) }
{
    let mut list = Vec::with_capacity(alloc, instance.resources() as usize)?;
    for number in 1..instance.resources() + 1 {
        list.push(resource(alloc, instance, number)?)?;
    }
    Ok(Value::Array(list))
}

// The resources, if there are any.
fn resources(alloc: Global, instance: &Instance) -> Result<Option<Value>, AllocError>
    ensures { IfOk result (λ value. option_map view value
        ≡ some_tables resource_table instance.now.resources) }
{
    if instance.resources() == 0 {
        return Ok(None);
    }
    Ok(Some(resource_list(alloc, instance)?))
}

// The table of a model of the newest version.
fn model(alloc: Global, instance: &Instance) -> Result<Table, AllocError>
    ensures { IfOk result (λ made. table_view made ≡ model_table instance.now) }
{
    let mut table = Table::new(alloc);
    let items = items(alloc, instance)?;
    let resources = resources(alloc, instance)?;
    put(
        alloc,
        &mut table,
        Key::Version,
        number(u64::from(NEWEST_VERSION)),
    )?;
    put(
        alloc,
        &mut table,
        Key::Periods,
        number(u64::from(instance.periods())),
    )?;
    put(alloc, &mut table, Key::Item, items)?;
    put_some(alloc, &mut table, Key::Resource, resources)?;
    Ok(table)
}

/// The text of an instance: a model of the newest version, as a TOML document, with every list written
/// out. The error is that memory ran out.
///
/// Read again, the bytes mean the instance's problem (`model_texts_are_read`). It takes time and memory in
/// the number of items times that of the periods, and in the lines.
pub fn write_model(alloc: Global, instance: &Instance) -> Result<Vec<u8>, AllocError>
    ensures { IfOk result (λ text. IsModelText instance.now text.items) }
{
    let table = model(alloc, instance)?;
    match toml::table_to_string(alloc, &table) {
        Ok(text) => Ok(text.into_bytes()),
        Err(_) => Err(AllocError),
    }
}
