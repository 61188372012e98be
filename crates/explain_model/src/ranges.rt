// Numbers and counts that are out of their ranges.
use crate::kinds::add_period;
use explain_source::{ModelFile, Refusal, add_head, element, needs_of};
use instance_reader::{FIRST_VERSION, FIRST_VERSION_PERIODS};
use lot_draft::{Key, Place};
use lot_sizing::limits::{
    MAX_AMOUNT, MAX_BILL_LINES, MAX_END_STOCK, MAX_ITEMS, MAX_LEAD, MAX_PERIODS, MAX_QUANTITY,
    MAX_RESOURCES,
};
use std::alloc::AllocError;
use toml::Value;

// The least and the largest number under a key.
#[derive(Clone, Copy)]
struct Limits {
    least: u64,
    most: u64,
}

// From a least number to a largest one.
fn from_to(least: u64, most: u64) -> Limits {
    Limits { least, most }
}

// The most periods of a model.
fn most_periods(model: ModelFile) -> u32 {
    if model.version() == Some(i64::from(FIRST_VERSION)) {
        FIRST_VERSION_PERIODS
    } else {
        MAX_PERIODS
    }
}

// The limits of the number under a key.
fn limits_of(model: ModelFile, key: Key) -> Limits {
    match key {
        Key::Periods => from_to(1, u64::from(most_periods(model))),
        Key::EndMax => from_to(0, MAX_END_STOCK),
        Key::Lead => from_to(0, u64::from(MAX_LEAD)),
        Key::MaxLot => from_to(1, MAX_AMOUNT),
        Key::Quantity => from_to(1, MAX_QUANTITY),
        _ => from_to(0, MAX_AMOUNT),
    }
}

// The number under a key, or that of a period.
fn number_of(value: &Value, period: Option<u32>) -> Option<i64> {
    match element(value, period) {
        Some(found) => found.as_integer(),
        None => None,
    }
}

// Adds that more periods want the second version, where that would do.
fn add_later(out: &mut String, key: Key, number: i64, most: u64) -> Result<(), AllocError> {
    let last = i64::from(MAX_PERIODS);
    if key == Key::Periods && most < u64::from(MAX_PERIODS) && number >= 1 && number <= last {
        write!(out, " With version = 2 it may be {last}.")?;
    }
    Ok(())
}

// Adds a number and its range.
fn add_number(
    out: &mut String,
    model: ModelFile,
    refusal: Refusal,
    key: Key,
    number: i64,
) -> Result<(), AllocError> {
    let Limits { least, most } = limits_of(model, key);
    add_head(out, model, refusal.place, key.name())?;
    write!(out, "{key}")?;
    add_period(out, refusal.period)?;
    write!(out, " is {number}; it may be from {least} to {most}.")?;
    add_later(out, key, number, most)?;
    out.push_str("\n")
}

// How many lines of components all items have.
fn count_needs(items: &[Value]) -> usize {
    let mut count = 0usize;
    for item in items {
        count = count.saturating_add(needs_of(item).len());
    }
    count
}

// Adds how many tables there are, and how many there may be.
fn add_count(
    out: &mut String,
    model: ModelFile,
    what: &str,
    count: usize,
    range: Limits,
) -> Result<(), AllocError> {
    let Limits { least, most } = range;
    add_head(out, model, Place::Root, "")?;
    write!(
        out,
        "there are {count} {what}; there may be from {least} to {most}.\n"
    )
}

/// Adds a value and its range.
pub fn add_range(out: &mut String, model: ModelFile, refusal: Refusal) -> Result<bool, AllocError> {
    let Some(key) = refusal.key else {
        return Ok(false);
    };
    match (refusal.place, key) {
        (Place::Root, Key::Item) => {
            let range = from_to(1, u64::from(MAX_ITEMS));
            add_count(out, model, "items", model.items().len(), range)?;
        }
        (Place::Root, Key::Resource) => {
            let range = from_to(0, u64::from(MAX_RESOURCES));
            add_count(out, model, "resources", model.resources().len(), range)?;
        }
        (Place::Root, Key::Needs) => {
            let range = from_to(0, u64::from(MAX_BILL_LINES));
            let count = count_needs(model.items());
            add_count(out, model, "lines of needs in all items", count, range)?;
        }
        (place, key) => {
            let Some(value) = model.value_at(place, key) else {
                return Ok(false);
            };
            let Some(number) = number_of(value, refusal.period) else {
                return Ok(false);
            };
            add_number(out, model, refusal, key, number)?;
        }
    }
    Ok(true)
}
