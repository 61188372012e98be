// What is read from a value, or the fault where it is absent or of another kind.
ghost use Rattle.std.specs.Prelude.{◌≡◌, Ok, Some, None, IfOk, IfErr, option_map, replicate, string_bytes};
ghost use Rattle.toml.specs.View.{items_view, table_view, view};
ghost use Rattle.instance_reader.specs.Reading.{IsWhyNot, entries, entry, needed_number, needed_series, needed_text, number, number_or_zero, optional_number, optional_series, series, series_or_zeros, text};

use crate::ReadModelFault;
use crate::document::value_at;
use crate::fault::{fault_at, no_number};
use lot_model::{Key, ModelCode, Place};
use std::alloc::{AllocError, Global};
use toml::{Table, Value};

// The text that a value is.
fn text<'a>(value: &'a Value, place: Place, key: Key) -> Result<&'a str, ReadModelFault>
    ensures ok { IfOk result (λ found. text place key (view value.entry.now) ≡ Ok found.now) }
    ensures refused { IfErr result (IsWhyNot (text place key (view value.entry.now))) }
{
    match value.as_str() {
        Some(found) => Ok(found),
        None => Err(fault_at(ModelCode::WrongKind, place, key)),
    }
}

// The whole number that a value is.
fn number(value: &Value, place: Place, key: Key) -> Result<i64, ReadModelFault>
    ensures ok { IfOk result (λ found. number place key (view value.now) ≡ Ok found) }
    ensures refused { IfErr result (IsWhyNot (number place key (view value.now))) }
{
    match value.as_integer() {
        Some(found) => Ok(found),
        None => Err(fault_at(ModelCode::WrongKind, place, key)),
    }
}

/// The text under a key.
pub fn needed_text(
    alloc: Global,
    table: &Table,
    place: Place,
    key: Key,
) -> Result<String, ReadModelFault>
    ensures ok { IfOk result (λ found. needed_text place key (table_view table.now)
        ≡ Ok (string_bytes found)) }
    ensures refused { IfErr result (IsWhyNot (needed_text place key (table_view table.now))) }
{
    match value_at(table, key) {
        Some(value) => Ok(String::from_str(alloc, text(value, place, key)?)?),
        None => Err(fault_at(ModelCode::MissingKey, place, key)),
    }
}

/// The whole number under a key.
pub fn needed_number(table: &Table, place: Place, key: Key) -> Result<i64, ReadModelFault>
    ensures ok { IfOk result (λ found. needed_number place key (table_view table.now) ≡ Ok found) }
    ensures refused { IfErr result (IsWhyNot (needed_number place key (table_view table.now))) }
{
    match value_at(table, key) {
        Some(value) => number(value, place, key),
        None => Err(fault_at(ModelCode::MissingKey, place, key)),
    }
}

/// The whole number under a key, and 0 where the key is absent.
pub fn number_or_zero(table: &Table, place: Place, key: Key) -> Result<i64, ReadModelFault>
    ensures ok { IfOk result (λ found. number_or_zero place key (table_view table.now) ≡ Ok found) }
    ensures refused { IfErr result (IsWhyNot (number_or_zero place key (table_view table.now))) }
{
    match value_at(table, key) {
        Some(value) => number(value, place, key),
        None => Ok(0),
    }
}

/// The whole number under a key, if the key is there.
pub fn optional_number(table: &Table, place: Place, key: Key) -> Result<Option<i64>, ReadModelFault>
    ensures ok { IfOk result (λ found. optional_number place key (table_view table.now)
        ≡ Ok found) }
    ensures refused { IfErr result (IsWhyNot (optional_number place key (table_view table.now))) }
{
    match value_at(table, key) {
        Some(value) => Ok(Some(number(value, place, key)?)),
        None => Ok(None),
    }
}

// The entry of a list for a period.
fn entry(value: &Value, place: Place, key: Key, period: u64) -> Result<i64, ReadModelFault>
    ensures ok { IfOk result (λ found. entry place key period (view value.now) ≡ Ok found) }
    ensures refused { IfErr result (IsWhyNot (entry place key period (view value.now))) }
{
    match value.as_integer() {
        Some(found) => Ok(found),
        None => Err(no_number(place, key, period)),
    }
}

// The entries of a list.
fn entries(
    alloc: Global,
    list: &[Value],
    place: Place,
    key: Key,
) -> Result<Vec<i64>, ReadModelFault>
    ensures ok { IfOk result (λ found. entries place key (items_view list.now) ≡ Ok found.items) }
    ensures refused { IfErr result (IsWhyNot (entries place key (items_view list.now))) }
{
    let mut numbers = Vec::new(alloc);
    let mut period = 0u64;
    for value in list {
        period += 1;
        numbers.push(entry(value, place, key, period)?)?;
    }
    Ok(numbers)
}

// One number for each period.
fn copies(alloc: Global, number: i64, periods: u32) -> Result<Vec<i64>, AllocError>
    ensures { IfOk result (λ found. found.items ≡ replicate periods number) }
{
    let mut list = Vec::new(alloc);
    for _period in 0..periods {
        list.push(number)?;
    }
    Ok(list)
}

// The list that a value is, or the number that it is for every period.
fn series(
    alloc: Global,
    value: &Value,
    place: Place,
    key: Key,
    periods: u32,
) -> Result<Vec<i64>, ReadModelFault>
    ensures ok { IfOk result (λ found. series periods place key (view value.now) ≡ Ok found.items) }
    ensures refused { IfErr result (IsWhyNot (series periods place key (view value.now))) }
{
    if let Some(list) = value.as_array() {
        return entries(alloc, list, place, key);
    }
    match value.as_integer() {
        Some(number) => Ok(copies(alloc, number, periods)?),
        None => Err(fault_at(ModelCode::WrongKind, place, key)),
    }
}

/// The list under a key.
pub fn needed_series(
    alloc: Global,
    table: &Table,
    place: Place,
    key: Key,
    periods: u32,
) -> Result<Vec<i64>, ReadModelFault>
    ensures ok { IfOk result (λ found. needed_series periods place key (table_view table.now)
        ≡ Ok found.items) }
    ensures refused { IfErr result (IsWhyNot
        (needed_series periods place key (table_view table.now))) }
{
    match value_at(table, key) {
        Some(value) => series(alloc, value, place, key, periods),
        None => Err(fault_at(ModelCode::MissingKey, place, key)),
    }
}

/// The list under a key, and zeros where the key is absent.
pub fn series_or_zeros(
    alloc: Global,
    table: &Table,
    place: Place,
    key: Key,
    periods: u32,
) -> Result<Vec<i64>, ReadModelFault>
    ensures ok { IfOk result (λ found. series_or_zeros periods place key (table_view table.now)
        ≡ Ok found.items) }
    ensures refused { IfErr result (IsWhyNot
        (series_or_zeros periods place key (table_view table.now))) }
{
    match value_at(table, key) {
        Some(value) => series(alloc, value, place, key, periods),
        None => Ok(copies(alloc, 0, periods)?),
    }
}

/// The list under a key, if the key is there.
pub fn optional_series(
    alloc: Global,
    table: &Table,
    place: Place,
    key: Key,
    periods: u32,
) -> Result<Option<Vec<i64>>, ReadModelFault>
    ensures ok { IfOk result (λ found. optional_series periods place key (table_view table.now)
        ≡ Ok (option_map (λ v. v.items) found)) }
    ensures refused { IfErr result (IsWhyNot
        (optional_series periods place key (table_view table.now))) }
{
    match value_at(table, key) {
        Some(value) => Ok(Some(series(alloc, value, place, key, periods)?)),
        None => Ok(None),
    }
}
