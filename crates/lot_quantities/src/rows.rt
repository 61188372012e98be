// The record of an item and a period.
ghost use Rattle.std.specs.Prelude.{◌≡◌, ◌≤◌, IfErr, IfOk, Some};
ghost use Rattle.csv.specs.Records.{fields_of};
ghost use Rattle.lot_sizing.specs.Problem.{item_count};
ghost use Rattle.lot_quantities.specs.Tables.{is_row, setup_for};
ghost use Rattle.lot_quantities.specs.Numbers.{HasLot};
ghost use Rattle.lot_quantities.specs.Faults.{IsFirstBad};

use crate::Columns;
use csv::ByteRecord;
use csv_records::{field, is_number, number};
use lot_model::Instance;

// Whether a record is that of an item and a period.
pub(crate) fn is_row(
    instance: &Instance,
    item: u32,
    period: u32,
    columns: Columns,
    row: &ByteRecord,
) -> bool
    requires low { 1 ≤ item }
    requires high { item ≤ item_count instance.now }
    ensures { result ≡ is_row instance.now columns item period (fields_of row.now) }
{
    row.len() == columns.width
        && field(row, columns.item) == instance.item_name(item).as_bytes()
        && is_number(field(row, columns.period), period as u64)
}

/// A quantity and a setup.
#[derive(Clone, Copy)]
pub struct Lot {
    pub make: u64,
    pub setup: u64,
}

// The setup that goes with a quantity where no setups are given.
fn setup_for(make: u64) -> u64
    ensures { result ≡ setup_for make }
{
    if make == 0 { 0 } else { 1 }
}

// The quantity and the setup in two columns of a record, or the first of them that holds no
// number.
fn both_of(row: &ByteRecord, make_at: usize, setup_at: usize) -> Result<Lot, usize>
    ensures ok { IfOk result (HasLot (fields_of row.now) make_at (Some setup_at)) }
    ensures bad { IfErr result (IsFirstBad (fields_of row.now) make_at (Some setup_at)) }
{
    match (number(field(row, make_at)), number(field(row, setup_at))) {
        (Some(make), Some(setup)) => Ok(Lot { make, setup }),
        (Some(_), None) => Err(setup_at),
        (None, Some(_)) => Err(make_at),
        (None, None) => {
            if make_at < setup_at {
                Err(make_at)
            } else {
                Err(setup_at)
            }
        }
    }
}

// The quantity and the setup of a record, or the first column with one of them that holds no
// number.
pub(crate) fn lot_of(row: &ByteRecord, columns: Columns) -> Result<Lot, usize>
    ensures ok { IfOk result (HasLot (fields_of row.now) columns.make columns.setup) }
    ensures bad { IfErr result (IsFirstBad (fields_of row.now) columns.make columns.setup) }
{
    match columns.setup {
        Some(setup_at) => both_of(row, columns.make, setup_at),
        None => match number(field(row, columns.make)) {
            Some(make) => Ok(Lot {
                make,
                setup: setup_for(make),
            }),
            None => Err(columns.make),
        },
    }
}
