// The document of a model that is drawn.
ghost use Rattle.std.specs.Prelude.{◌≡◌, ◌≤◌, ◌<◌, ◌^◌, [], ◌∷◌, IfOk, option_map};
ghost use Rattle.toml.specs.Data.{array, string, table};
ghost use Rattle.toml.specs.View.{table_view, view};
ghost use Rattle.lot_sizing.specs.declared.limits.TheConstants.{MAX_ITEMS};
ghost use Rattle.instance_reader.specs.Written.{number, number_list, some_tables, tables_of};
ghost use Rattle.report.specs.Draws.{drawn};
ghost use Rattle.report.specs.Generated.{capacities, generated_table, has_next, item_name, item_table, need_table, needs_of, resource_name, resource_table, use_table, uses_of};

use crate::generating_draws::{DrawnItem, draw_item, generator};
use instance_reader::{FIRST_VERSION, put, put_some};
use lot_model::Key;
use std::alloc::{AllocError, Global};
use toml::{Table, Value};

// A number.
fn number(amount: u32) -> Value
    ensures { view result ≡ number amount }
{
    Value::Integer(i64::from(amount))
}

// A list of numbers.
fn number_list(alloc: Global, amounts: &[u32]) -> Result<Value, AllocError>
    ensures { IfOk result (λ value. view value ≡ number_list amounts.now) }
{
    let mut list = Vec::with_capacity(alloc, amounts.len())?;
    for amount in amounts {
        list.push(number(*amount))?;
    }
    Ok(Value::Array(list))
}

// The name of an item.
fn item_name(alloc: Global, number: u32) -> Result<Value, AllocError>
    ensures { IfOk result (λ value. view value ≡ string (item_name number)) }
{
    Ok(Value::String(format!(in alloc; "i{number}")?))
}

// The name of the resource.
fn resource_name(alloc: Global) -> Result<Value, AllocError>
    ensures { IfOk result (λ value. view value ≡ string resource_name) }
{
    Ok(Value::String(String::from_str(alloc, "r1")?))
}

// An array of one table.
fn only(alloc: Global, table: Table) -> Result<Value, AllocError>
    ensures { IfOk result (λ value. view value ≡ array (tables_of table_view (table ∷ []))) }
{
    let mut list = Vec::with_capacity(alloc, 1)?;
    list.push(Value::Table(table))?;
    Ok(Value::Array(list))
}

// A line of components: one unit of an item.
fn need(alloc: Global, component: u32) -> Result<Table, AllocError>
    ensures { IfOk result (λ made. table_view made
        ≡ need_table (record { item = component; quantity = 1 })) }
{
    let mut table = Table::new(alloc);
    let name = item_name(alloc, component)?;
    put(alloc, &mut table, Key::Item, name)?;
    put(alloc, &mut table, Key::Quantity, number(1))?;
    Ok(table)
}

// Whether the next item is of the same group of three.
fn has_next(coupled: bool, items: u32, number: u32) -> bool
    requires { number ≤ MAX_ITEMS }
    ensures { result ≡ has_next coupled items number }
{
    coupled && number + 1 <= items && (number + 1) % 3 != 1
}

// The components of an item, if it has any.
fn needs(alloc: Global, coupled: bool, items: u32, number: u32) -> Result<Option<Value>, AllocError>
    requires { number ≤ MAX_ITEMS }
    ensures { IfOk result (λ value. option_map view value
        ≡ some_tables need_table (needs_of coupled items number)) }
{
    if !has_next(coupled, items, number) {
        return Ok(None);
    }
    Ok(Some(only(alloc, need(alloc, number + 1)?)?))
}

// A line of the resource: 1 for a unit and 5 for a setup.
fn usage(alloc: Global) -> Result<Table, AllocError>
    ensures { IfOk result (λ made. table_view made
        ≡ use_table (record { resource = 1; unit = 1; setup = 5 })) }
{
    let mut table = Table::new(alloc);
    let name = resource_name(alloc)?;
    put(alloc, &mut table, Key::Resource, name)?;
    put(alloc, &mut table, Key::Unit, number(1))?;
    put(alloc, &mut table, Key::Setup, number(5))?;
    Ok(table)
}

// The resources that an item takes time on, if there are any.
fn uses(alloc: Global, coupled: bool) -> Result<Option<Value>, AllocError>
    ensures { IfOk result (λ value. option_map view value
        ≡ some_tables use_table (uses_of coupled)) }
{
    if !coupled {
        return Ok(None);
    }
    Ok(Some(only(alloc, usage(alloc)?)?))
}

// The backlog cost of an item, if it has one.
fn backlog_cost(cost: Option<u32>) -> Option<Value>
    ensures { option_map view result ≡ option_map number cost }
{
    match cost {
        Some(cost) => Some(number(cost)),
        None => None,
    }
}

// An item.
fn item(alloc: Global, coupled: bool, items: u32, drawn: &DrawnItem) -> Result<Value, AllocError>
    requires { drawn.now.number ≤ MAX_ITEMS }
    ensures { IfOk result (λ value. view value ≡ table (item_table coupled items drawn.now)) }
{
    let mut table = Table::new(alloc);
    let name = item_name(alloc, drawn.number)?;
    let demand = number_list(alloc, &drawn.demand)?;
    let setup_cost = number_list(alloc, &drawn.setup_cost)?;
    let back = backlog_cost(drawn.backlog_cost);
    let needs = needs(alloc, coupled, items, drawn.number)?;
    let uses = uses(alloc, coupled)?;
    put(alloc, &mut table, Key::Name, name)?;
    put(alloc, &mut table, Key::Demand, demand)?;
    put(alloc, &mut table, Key::SetupCost, setup_cost)?;
    put(alloc, &mut table, Key::HoldCost, number(drawn.hold_cost))?;
    put_some(alloc, &mut table, Key::BacklogCost, back)?;
    put_some(alloc, &mut table, Key::Needs, needs)?;
    put_some(alloc, &mut table, Key::Uses, uses)?;
    Ok(Value::Table(table))
}

// The items, drawn one after the other.
fn item_list(
    alloc: Global,
    seed: u64,
    items: u32,
    periods: u32,
    coupled: bool,
) -> Result<Value, AllocError>
    requires { items ≤ MAX_ITEMS }
    ensures { IfOk result (λ value. view value
        ≡ array (tables_of (item_table coupled items) (drawn seed items periods coupled))) }
{
    let mut rng = generator(seed);
    let mut list = Vec::with_capacity(alloc, items as usize)?;
    for done in 0..items {
        let drawn = draw_item(alloc, &mut rng, coupled, done + 1, periods)?;
        list.push(item(alloc, coupled, items, &drawn)?)?;
    }
    Ok(Value::Array(list))
}

// A resource with the same time in each period.
fn resource(alloc: Global, capacity: u32) -> Result<Table, AllocError>
    ensures { IfOk result (λ made. table_view made ≡ resource_table capacity) }
{
    let mut table = Table::new(alloc);
    let name = resource_name(alloc)?;
    put(alloc, &mut table, Key::Name, name)?;
    put(alloc, &mut table, Key::Capacity, number(capacity))?;
    Ok(table)
}

// The resources, if there are any.
fn resources(alloc: Global, coupled: bool, items: u32) -> Result<Option<Value>, AllocError>
    requires { items ≤ MAX_ITEMS }
    ensures { IfOk result (λ value. option_map view value
        ≡ some_tables resource_table (capacities coupled items)) }
{
    if !coupled {
        return Ok(None);
    }
    Ok(Some(only(alloc, resource(alloc, 80 * items)?)?))
}

/// The table of a model that is drawn.
pub fn model(
    alloc: Global,
    seed: u64,
    items: u32,
    periods: u32,
    coupled: bool,
) -> Result<Table, AllocError>
    requires { items ≤ MAX_ITEMS }
    ensures { IfOk result (λ made. table_view made ≡ generated_table seed items periods coupled) }
{
    let mut table = Table::new(alloc);
    let list = item_list(alloc, seed, items, periods, coupled)?;
    let resources = resources(alloc, coupled, items)?;
    put(alloc, &mut table, Key::Version, number(FIRST_VERSION))?;
    put(alloc, &mut table, Key::Periods, number(periods))?;
    put(alloc, &mut table, Key::Item, list)?;
    put_some(alloc, &mut table, Key::Resource, resources)?;
    Ok(table)
}
