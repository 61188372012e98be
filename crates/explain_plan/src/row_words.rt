// Words on a row that isn't that of its item and period, and on too few or too many.

use crate::cells::item_of;
use crate::name_words::{Kind, on_unknown_name};
use crate::rows::row_of;
use csv::ByteRecord;
use csv_records::field;
use explain_lookup::{item_name, number_of, quoted};
use lot_model::Instance;
use std::alloc::{AllocError, Global};
use std::str;

/// An item and a period; 0 names none.
#[derive(Clone, Copy, PartialEq, Eq)]
pub(crate) struct Cell {
    pub(crate) item: u32,
    pub(crate) period: u32,
}

/// The item and the period of a record, counted from 1 after the header.
pub(crate) fn cell_of_record(instance: &Instance, number: u64) -> Cell {
    let place = number.saturating_sub(1);
    let periods = u64::from(instance.periods());
    let item = place.checked_div(periods).unwrap_or(0).saturating_add(1);
    let period = place.checked_rem(periods).unwrap_or(0).saturating_add(1);
    Cell {
        item: u32::try_from(item).unwrap_or(0),
        period: u32::try_from(period).unwrap_or(0),
    }
}

// The number in a field; 0 where there is none.
fn period_in(part: &[u8]) -> u32 {
    let Ok(text) = str::from_utf8(part) else {
        return 0;
    };
    match number_of(text) {
        Some(number) => u32::try_from(number).unwrap_or(0),
        None => 0,
    }
}

// The item and the period that a record has.
fn found_cell(instance: &Instance, row: &ByteRecord) -> Cell {
    Cell {
        item: item_of(instance, field(row, 1)),
        period: period_in(field(row, 2)),
    }
}

// How a row that is another's may have come there.
fn on_order(
    alloc: Global,
    instance: &Instance,
    number: u64,
    found: Cell,
) -> Result<String, AllocError> {
    if found == cell_of_record(instance, number.saturating_add(1)) {
        return String::from_str(alloc, "The row that is wanted seems to be missing.\n");
    }
    if found == cell_of_record(instance, number.saturating_sub(1)) {
        return String::from_str(alloc, "The row above it seems to stand there twice.\n");
    }
    String::from_str(
        alloc,
        "Rows come by item in the order of the model, and of each item all periods in order; don't sort them in another way.\n",
    )
}

// What is wrong with a row of six columns.
fn on_cell(
    alloc: Global,
    instance: &Instance,
    row: &ByteRecord,
    number: u64,
) -> Result<String, AllocError> {
    let found = found_cell(instance, row);
    if found.item == 0 {
        return on_unknown_name(alloc, instance, Kind::Item, field(row, 1));
    }
    if found == cell_of_record(instance, number) {
        return String::from_str(
            alloc,
            "Write the period in digits alone, with no 0 in front.\n",
        );
    }
    on_order(alloc, instance, number, found)
}

/// Words on a record that isn't that of its item and period.
pub(crate) fn on_row(
    alloc: Global,
    instance: &Instance,
    file: &str,
    bytes: &[u8],
    row: &ByteRecord,
    number: u64,
) -> Result<String, AllocError> {
    let wanted = cell_of_record(instance, number);
    let (item, period) = (item_name(instance, wanted.item), wanted.period);
    let (place, count) = (row_of(bytes, row), row.len());
    if count != 6 {
        return format!(in alloc;
            "{file}, row {place}: it has {count} columns in place of 6. It is to be the row of `{item}`, period {period}.\nA comma in a number makes one column more.\n"
        );
    }
    let name = quoted(alloc, field(row, 1))?;
    let time = quoted(alloc, field(row, 2))?;
    let mut words = format!(in alloc;
        "{file}, row {place}: the row of `{item}`, period {period}, is wanted, and {name}, period {time}, is there.\n"
    )?;
    words.push_str(on_cell(alloc, instance, row, number)?.as_str())?;
    Ok(words)
}

/// Words on a file with too few records, or too many, where there are so many of the first ones after the header.
pub(crate) fn on_count(
    alloc: Global,
    instance: &Instance,
    file: &str,
    bytes: &[u8],
    rows: &[ByteRecord],
) -> Result<String, AllocError> {
    let (items, periods) = (instance.items(), instance.periods());
    let wanted = u64::from(items).saturating_mul(u64::from(periods));
    let count = (rows.len() as u64).saturating_sub(1);
    if count < wanted {
        let missing = cell_of_record(instance, count.saturating_add(1));
        let (item, period) = (item_name(instance, missing.item), missing.period);
        return format!(in alloc;
            "{file} has {count} rows after the first, and {items} items by {periods} periods are {wanted}.\nThe row of `{item}`, period {period}, is the first that is missing.\n"
        );
    }
    let place = match rows.last() {
        Some(row) => row_of(bytes, row),
        None => 0,
    };
    format!(in alloc;
        "{file}, row {place}: one more row than {items} items by {periods} periods are. Take out all from there on.\n"
    )
}
