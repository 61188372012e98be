// The records of a schedule file, and words on those that hold no slot.

use crate::cells::{item_of, resource_of};
use crate::name_words::{Kind, on_unknown_name};
use csv::ByteRecord;
use csv_records::field;
use explain_lookup::{item_name, number_of, quoted, resource_name};
use lot_model::Instance;
use std::alloc::{AllocError, Global};
use std::str;

/// What a record says: 0 where a name or a period is none, and no time where it is none.
#[derive(Clone, Copy)]
pub(crate) struct FoundSlot {
    pub(crate) resource: u32,
    pub(crate) period: u32,
    pub(crate) item: u32,
    pub(crate) start: Option<u128>,
    pub(crate) end: Option<u128>,
}

// The number in a field.
fn number_in(part: &[u8]) -> Option<u128> {
    match str::from_utf8(part) {
        Ok(text) => number_of(text),
        Err(_) => None,
    }
}

// The period in a field; 0 where the model hasn't it.
fn period_in(instance: &Instance, part: &[u8]) -> u32 {
    let number = number_in(part).unwrap_or(0);
    if number <= u128::from(instance.periods()) {
        u32::try_from(number).unwrap_or(0)
    } else {
        0
    }
}

/// What a record says.
pub(crate) fn found_slot(instance: &Instance, row: &ByteRecord) -> FoundSlot {
    FoundSlot {
        resource: resource_of(instance, field(row, 1)),
        period: period_in(instance, field(row, 2)),
        item: item_of(instance, field(row, 3)),
        start: number_in(field(row, 4)),
        end: number_in(field(row, 5)),
    }
}

/// Whether two records are of the same lot.
pub(crate) fn is_same_lot(slot: FoundSlot, other: FoundSlot) -> bool {
    is_same_place(slot, other) && slot.item == other.item
}

/// Whether two records are of the same resource and period.
pub(crate) fn is_same_place(slot: FoundSlot, other: FoundSlot) -> bool {
    slot.resource == other.resource && slot.period == other.period
}

/// Whether two records take the same time.
pub(crate) fn do_overlap(slot: FoundSlot, other: FoundSlot) -> bool {
    let (start, end) = (slot.start.unwrap_or(0), slot.end.unwrap_or(0));
    let (from, until) = (other.start.unwrap_or(0), other.end.unwrap_or(0));
    start < until && from < end
}

// Words on a field that is no whole number.
fn on_time(alloc: Global, column: &str, part: &[u8]) -> Result<String, AllocError> {
    let shown = quoted(alloc, part)?;
    format!(in alloc; "Column `{column}` has {shown}, and a whole number is wanted.\n")
}

/// Words on a record that holds no slot.
pub(crate) fn on_no_slot(
    alloc: Global,
    instance: &Instance,
    row: &ByteRecord,
) -> Result<String, AllocError> {
    let (count, found) = (row.len(), found_slot(instance, row));
    if count != 5 {
        return format!(in alloc; "It has {count} columns in place of 5.\n");
    }
    if found.resource == 0 {
        return on_unknown_name(alloc, instance, Kind::Resource, field(row, 1));
    }
    if found.period == 0 {
        let (shown, last) = (quoted(alloc, field(row, 2))?, instance.periods());
        return format!(in alloc; "The period is {shown}, and the model has periods 1 to {last}.\n");
    }
    if found.item == 0 {
        return on_unknown_name(alloc, instance, Kind::Item, field(row, 3));
    }
    if found.start.is_none() {
        return on_time(alloc, "start", field(row, 4));
    }
    on_time(alloc, "end", field(row, 5))
}

/// What a record says, in words: the lot of an item on a resource in a period.
pub(crate) fn lot_words(
    alloc: Global,
    instance: &Instance,
    slot: FoundSlot,
) -> Result<String, AllocError> {
    let (item, resource) = (
        item_name(instance, slot.item),
        resource_name(instance, slot.resource),
    );
    let period = slot.period;
    format!(in alloc; "the lot of `{item}` on `{resource}` in period {period}")
}
