// Words on a schedule file.

use crate::cells::cell_of;
use crate::header_words::on_header;
use crate::rows::row_of;
use crate::slot_words::{
    FoundSlot, do_overlap, found_slot, is_same_lot, is_same_place, lot_words, on_no_slot,
};
use csv::ByteRecord;
use csv_records::first_records;
use explain_lookup::{capacity_of, lot_time, place_at, plain, word_at};
use lot_model::Instance;
use plan_rules::Plan;
use std::alloc::{AllocError, Global};

const NAMES: [&str; 5] = ["resource", "period", "item", "start", "end"];

const HEADER: &str = "resource,period,item,start,end";

// A schedule file: its name, as it is shown, and its bytes.
#[derive(Clone, Copy)]
struct ScheduleFile<'a, 'b> {
    name: &'a str,
    bytes: &'b [u8],
}

// A record of a file, by its number, with the records that the file begins with; the header is number 0.
#[derive(Clone, Copy)]
struct Numbered<'a, 'b> {
    bytes: &'a [u8],
    rows: &'b [ByteRecord],
    number: u32,
}

// The time that the lot of a slot takes. None where the plan isn't at hand.
fn time_of(instance: &Instance, plan: Option<&Plan>, slot: FoundSlot) -> Option<u128> {
    let plan = plan?;
    let made = u128::from(cell_of(&plan.make, slot.item, slot.period));
    let setups = u128::from(cell_of(&plan.setup, slot.item, slot.period));
    Some(lot_time(instance, slot.resource, slot.item, made, setups))
}

// Which of two things is looked for further up.
#[derive(Clone, Copy)]
enum Earlier {
    SameLot,
    Overlap,
}

// The row of the first record before this one that is of the same lot, or takes the same time; 0 where there is none.
fn earlier_row(
    instance: &Instance,
    record: Numbered<'_, '_>,
    slot: FoundSlot,
    wanted: Earlier,
) -> u64 {
    for row in record.rows.iter().take(record.number as usize).skip(1) {
        let other = found_slot(instance, row);
        let is_found = match wanted {
            Earlier::SameLot => is_same_lot(slot, other),
            Earlier::Overlap => is_same_place(slot, other) && do_overlap(slot, other),
        };
        if is_found {
            return row_of(record.bytes, row);
        }
    }
    0
}

// Words on a slot of a lot that takes no time, or has a record further up.
fn on_extra(alloc: Global, lot: &str, earlier: u64) -> Result<String, AllocError> {
    if earlier > 0 {
        format!(in alloc; "{lot} stands in row {earlier} too. Take one of them out.\n")
    } else {
        format!(in alloc;
            "{lot} takes no time: the plan makes nothing there, or the item has no time in its `uses`. Take the row out.\n"
        )
    }
}

// Words on a slot that is longer or shorter than its lot.
fn on_length(
    alloc: Global,
    lot: &str,
    slot: FoundSlot,
    time: Option<u128>,
) -> Result<String, AllocError> {
    let (start, end) = (slot.start.unwrap_or(0), slot.end.unwrap_or(0));
    match time {
        Some(time) => {
            let until = start.saturating_add(time);
            format!(in alloc;
                "{lot} takes {time}, so from {start} it lasts until {until} and not until {end}.\n"
            )
        }
        None => format!(in alloc; "{lot} doesn't last from {start} until {end}.\n"),
    }
}

// Words on a slot that ends after the capacity.
fn on_past(
    alloc: Global,
    instance: &Instance,
    lot: &str,
    slot: FoundSlot,
) -> Result<String, AllocError> {
    let end = slot.end.unwrap_or(0);
    let time = capacity_of(instance, slot.resource, slot.period);
    format!(in alloc;
        "{lot} ends at {end}, and the resource has {time} in this period. Begin earlier, without a gap before it.\n"
    )
}

// Words on a record whose slot is at fault.
fn on_slot(
    alloc: Global,
    instance: &Instance,
    plan: Option<&Plan>,
    record: Numbered<'_, '_>,
    fault: &str,
    slot: FoundSlot,
) -> Result<String, AllocError> {
    let lot = lot_words(alloc, instance, slot)?;
    match fault {
        "1" => {
            let earlier = earlier_row(instance, record, slot, Earlier::SameLot);
            on_extra(alloc, lot.as_str(), earlier)
        }
        "2" => on_length(alloc, lot.as_str(), slot, time_of(instance, plan, slot)),
        "3" => on_past(alloc, instance, lot.as_str(), slot),
        _ => {
            let earlier = earlier_row(instance, record, slot, Earlier::Overlap);
            format!(in alloc;
                "{lot} begins before the one in row {earlier} ends. Let one begin where the other ends.\n"
            )
        }
    }
}

// Words on the record of a number, which holds no slot, or one with this fault.
fn on_record(
    alloc: Global,
    instance: &Instance,
    plan: Option<&Plan>,
    file: ScheduleFile<'_, '_>,
    number: u32,
    fault: &str,
) -> Result<String, AllocError> {
    let ScheduleFile { name, bytes } = file;
    let rows = first_records(alloc, bytes, (number as usize).saturating_add(1))?;
    let Some(row) = rows.get(number as usize) else {
        return Ok(String::new(alloc));
    };
    let place = row_of(bytes, row);
    let what = if fault.is_empty() {
        on_no_slot(alloc, instance, row)?
    } else {
        let slot = found_slot(instance, row);
        let record = Numbered {
            bytes,
            rows: &rows,
            number,
        };
        on_slot(alloc, instance, plan, record, fault, slot)?
    };
    format!(in alloc; "{name}, row {place}: {what}")
}

// Words on a lot without a slot: `rejected slot 5 resource K period T item I`.
fn on_absent(
    alloc: Global,
    instance: &Instance,
    plan: Option<&Plan>,
    file: &str,
    line: &str,
) -> Result<String, AllocError> {
    let slot = FoundSlot {
        resource: place_at(line, 4),
        period: place_at(line, 6),
        item: place_at(line, 8),
        start: None,
        end: None,
    };
    let lot = lot_words(alloc, instance, slot)?;
    match time_of(instance, plan, slot) {
        Some(time) => format!(in alloc; "{file}: {lot} has no row; it takes {time}. Add it.\n"),
        None => format!(in alloc; "{file}: {lot} has no row. Add it.\n"),
    }
}

// Words on slots that are no schedule of a plan: `rejected slot ..`.
fn on_rejected(
    alloc: Global,
    instance: &Instance,
    plan: Option<&Plan>,
    file: ScheduleFile<'_, '_>,
    line: &str,
) -> Result<String, AllocError> {
    match word_at(line, 2) {
        "5" => on_absent(alloc, instance, plan, file.name, line),
        fault => on_record(alloc, instance, plan, file, place_at(line, 4), fault),
    }
}

/// Words on a schedule file that holds no slots, or slots that are no schedule of a plan; none where the line says nothing of
/// a schedule.
///
/// `line` is what was printed: `slot ..` or `rejected slot ..`. Rows are those of a spreadsheet, counted from 1 with the header.
/// With the plan at hand the words have the time that a lot takes.
pub fn words_on_schedule(
    alloc: Global,
    instance: &Instance,
    plan: Option<&Plan>,
    file: &str,
    bytes: &[u8],
    line: &str,
) -> Result<String, AllocError> {
    let name = plain(alloc, file)?;
    let file = ScheduleFile {
        name: name.as_str(),
        bytes,
    };
    match (word_at(line, 0), word_at(line, 1)) {
        ("slot", "header") => on_header(alloc, file.name, bytes, NAMES.as_slice(), HEADER),
        ("slot", "row") => on_record(alloc, instance, plan, file, place_at(line, 2), ""),
        ("rejected", "slot") => on_rejected(alloc, instance, plan, file, line),
        _ => Ok(String::new(alloc)),
    }
}
