// From the records of a text to slots.
ghost use Rattle.std.specs.Prelude.{◌≡◌, IfErr, IfOk, IsTrue, ◌↔◌, map};
ghost use Rattle.csv.specs.Records.{fields_of};
ghost use Rattle.csv_records.specs.Records.{records_of};
ghost use Rattle.lot_schedule.specs.Records.{AreRowsOf, HasHeader};
ghost use Rattle.lot_schedule.specs.Slots.{AllExist};
ghost use Rattle.lot_schedule.specs.Faults.{IsSlotFault};

use crate::header::header;
use crate::rows::slot_of;
use crate::{Slot, SlotFault};
use csv::ByteRecord;
use csv_records::all_records;
use lot_model::Instance;
use std::alloc::Global;

// Whether the first record is the header.
fn has_header(rows: &[ByteRecord]) -> bool
    ensures { IsTrue result ↔ HasHeader (map fields_of rows.now) }
{
    csv_records::has_header(rows, &header())
}

// The slots whose rows are the records after the header.
fn read_rows(
    alloc: Global,
    instance: &Instance,
    rows: &[ByteRecord],
) -> Result<Vec<Slot>, SlotFault>
    requires { HasHeader (map fields_of rows.now) }
    ensures slots { IfOk result (λ slots.
        AreRowsOf instance.now (map fields_of rows.now) slots.items) }
    ensures refused { IfErr result (IsSlotFault instance.now (map fields_of rows.now)) }
{
    let mut slots = Vec::new(alloc);
    for place in 1..rows.len() {
        match slot_of(instance, &rows[place]) {
            Some(slot) => slots.push(slot)?,
            None => return Err(SlotFault::Row(place as u64)),
        }
    }
    Ok(slots)
}

/// The slots whose rows these bytes are, after a header, or the first fault in their order. What
/// is read of the text that `write_schedule` gives is its slots.
///
/// It takes time and memory in the length of the bytes, and for each record time in the number of
/// names.
pub fn read_schedule(
    alloc: Global,
    instance: &Instance,
    bytes: &[u8],
) -> Result<Vec<Slot>, SlotFault>
    ensures slots { IfOk result (λ slots.
        AreRowsOf instance.now (records_of bytes.now) slots.items) }
    ensures exist { IfOk result (λ slots. AllExist instance.now slots.items) }
    ensures refused { IfErr result (IsSlotFault instance.now (records_of bytes.now)) }
{
    let rows = all_records(alloc, bytes)?;
    if !has_header(&rows) {
        return Err(SlotFault::Header);
    }
    let slots = read_rows(alloc, instance, &rows)?;
    Ok(slots)
}
