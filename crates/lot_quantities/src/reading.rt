// From the records of a table to quantities and setups.
ghost use Rattle.std.specs.Prelude.{◌≤◌, ◌<◌, ◌+◌, IfErr, IfNone, IfOk, IfSome, OnOk, map};
ghost use Rattle.csv.specs.Records.{fields_of};
ghost use Rattle.lot_sizing.specs.Problem.{item_count};
ghost use Rattle.plan_rules.specs.Cells.{table_of};
ghost use Rattle.csv_records.specs.Records.{records_of};
ghost use Rattle.lot_quantities.specs.Tables.{HasHeader, IsTableOf};
ghost use Rattle.lot_quantities.specs.Numbers.{AreRead, AreReadBefore, BothFit, IsPut, IsPutFrom};
ghost use Rattle.lot_quantities.specs.Faults.{IsCellFault, IsQuantityFault, IsRecordFault};

use crate::columns::columns_of;
use crate::rows::{Lot, is_row, lot_of};
use crate::{Columns, Quantities, QuantityFault};
use csv::ByteRecord;
use csv_records::first_records;
use lot_model::Instance;
use plan_rules::Grid;
use std::alloc::Global;

// Puts a quantity and a setup in their places.
fn put(instance: &Instance, into: &mut Quantities, item: u32, period: u32, lot: Lot)
    requires fits { BothFit instance.now into.old }
    requires item_low { 1 ≤ item }
    requires item_high { item ≤ item_count instance.now }
    requires low { 1 ≤ period }
    requires high { period ≤ instance.now.periods }
    ensures fits { BothFit instance.now into.new }
    ensures put { IsPut instance.now into.old into.new item period lot }
{
    into.make.set(item, period, lot.make);
    into.setup.set(item, period, lot.setup);
}

// Reads the record of an item and a period. It takes no memory.
fn read_record(
    instance: &Instance,
    rows: &[ByteRecord],
    columns: Columns,
    item: u32,
    period: u32,
    into: &mut Quantities,
) -> Result<(), QuantityFault>
    requires fits { BothFit instance.now into.old }
    requires item_low { 1 ≤ item }
    requires item_high { item ≤ item_count instance.now }
    requires low { 1 ≤ period }
    requires high { period ≤ instance.now.periods }
    ensures fits { BothFit instance.now into.new }
    ensures read { OnOk result (IsPutFrom instance.now (map fields_of rows.now) columns into.old
        into.new item period) }
    ensures refused { IfErr result (IsRecordFault instance.now (map fields_of rows.now) columns item
        period) }
{
    let number = (item - 1) * instance.periods() + period;
    if number as usize >= rows.len() {
        return Err(QuantityFault::RowCount);
    }
    let row = &rows[number as usize];
    if !is_row(instance, item, period, columns, row) {
        return Err(QuantityFault::Row(number as u64));
    }
    match lot_of(row, columns) {
        Ok(lot) => {
            put(instance, into, item, period, lot);
            Ok(())
        }
        Err(column) => Err(QuantityFault::Number(number as u64, column as u64)),
    }
}

// Reads the records of an item where those of all earlier items were read. It takes no memory.
fn read_item(
    instance: &Instance,
    rows: &[ByteRecord],
    columns: Columns,
    item: u32,
    into: &mut Quantities,
) -> Result<(), QuantityFault>
    requires fits { BothFit instance.now into.old }
    requires low { 1 ≤ item }
    requires high { item ≤ item_count instance.now }
    requires earlier { AreReadBefore instance.now (map fields_of rows.now) columns into.old item 1 }
    ensures fits { OnOk result (BothFit instance.now into.new) }
    ensures read { OnOk result (AreReadBefore instance.now (map fields_of rows.now) columns into.new
        (item + 1) 1) }
    ensures refused { IfErr result (IsCellFault instance.now (map fields_of rows.now) columns) }
{
    for period in 1..instance.periods() + 1 {
        read_record(instance, rows, columns, item, period, into)?;
    }
    Ok(())
}

// Reads all records after the first. It takes no memory.
fn read_records(
    instance: &Instance,
    rows: &[ByteRecord],
    columns: Columns,
    into: &mut Quantities,
) -> Result<(), QuantityFault>
    requires fits { BothFit instance.now into.old }
    ensures fits { OnOk result (BothFit instance.now into.new) }
    ensures read { OnOk result (AreRead instance.now (map fields_of rows.now) columns into.new) }
    ensures refused { IfErr result (IsCellFault instance.now (map fields_of rows.now) columns) }
{
    for item in 1..instance.items() + 1 {
        read_item(instance, rows, columns, item, into)?;
    }
    Ok(())
}

// Where the columns stand, by the first record.
fn header_of(rows: &[ByteRecord]) -> Option<Columns>
    ensures some { IfSome result (HasHeader (map fields_of rows.now)) }
    ensures none { IfNone result ((k : Columns) → HasHeader (map fields_of rows.now) k → ⊥) }
{
    match rows.first() {
        Some(row) => columns_of(row),
        None => None,
    }
}

/// The quantities and setups in the records of these bytes, after a first record that names the
/// columns, or the first fault in their order.
///
/// The columns `item`, `period` and `make` are needed and `setup` may be there, in any order and
/// among any others. Without it there is a setup where something is made. It takes time in the
/// length of the bytes, and memory for no more records than there are items times periods and two.
pub fn read_quantities(
    alloc: Global,
    instance: &Instance,
    bytes: &[u8],
) -> Result<Quantities, QuantityFault>
    ensures fits { IfOk result (BothFit instance.now) }
    ensures quantities { IfOk result (λ q.
        IsTableOf instance.now (records_of bytes.now) (table_of q.make) (table_of q.setup)) }
    ensures refused { IfErr result (IsQuantityFault instance.now (records_of bytes.now)) }
{
    let (items, periods) = (instance.items(), instance.periods());
    let count = (items * periods) as usize;
    let rows = first_records(alloc, bytes, count + 2)?;
    let Some(columns) = header_of(&rows) else {
        return Err(QuantityFault::Header);
    };
    let mut quantities = Quantities {
        make: Grid::filled(alloc, items, periods, 0)?,
        setup: Grid::filled(alloc, items, periods, 0)?,
    };
    read_records(instance, &rows, columns, &mut quantities)?;
    if rows.len() != count + 1 {
        return Err(QuantityFault::RowCount);
    }
    Ok(quantities)
}
