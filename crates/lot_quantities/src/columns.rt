// Where the columns of a table stand, by the names in its first record.
ghost use Rattle.std.specs.Prelude.{◌≤◌, ◌<◌, ◌+◌, ℕ, IfNone, IfSome, length};
ghost use Rattle.csv.specs.Records.{fields_of};
ghost use Rattle.lot_quantities.specs.Columns.{HasColumns, HasText, IsColumn, IsFound, NoneBetween};

use csv::ByteRecord;
use csv_records::field;

/// Where the columns of a table stand, counted from 1.
#[derive(Clone, Copy, Debug, PartialEq, Eq)]
pub struct Columns {
    /// How many columns there are.
    pub width: usize,
    /// That of the items' names.
    pub item: usize,
    /// That of the periods, from 1 on.
    pub period: usize,
    /// That of the quantities made.
    pub make: usize,
    /// That of the setups, where the table has one.
    pub setup: Option<usize>,
}

// Where a name stands among the columns.
#[derive(Clone, Copy)]
pub enum Found {
    // Nowhere.
    Nowhere,
    // In this column alone.
    At(usize),
    // In two columns or more.
    Twice,
}

// The first column after this one that has a name.
fn next_column(row: &ByteRecord, name: &[u8], after: usize) -> Option<usize>
    ensures found { IfSome result (λ c. (after < c) × (c ≤ length (fields_of row.now))
        × HasText (fields_of row.now) c name.now) }
    ensures first { IfSome result (NoneBetween (fields_of row.now) name.now after) }
    ensures none { IfNone result (NoneBetween (fields_of row.now) name.now after
        (length (fields_of row.now) + 1)) }
{
    for place in after..row.len() {
        if field(row, place + 1) == name {
            return Some(place + 1);
        }
    }
    None
}

// Where a name stands among the columns.
fn column(row: &ByteRecord, name: &[u8]) -> Found
    ensures { IsFound (fields_of row.now) name.now result }
{
    match next_column(row, name, 0) {
        Some(first) => match next_column(row, name, first) {
            Some(_) => Found::Twice,
            None => Found::At(first),
        },
        None => Found::Nowhere,
    }
}

// The one column that has a name.
fn wanted(row: &ByteRecord, name: &[u8]) -> Option<usize>
    ensures some { IfSome result (IsColumn (fields_of row.now) name.now) }
    ensures none { IfNone result ((c : ℕ) → IsColumn (fields_of row.now) name.now c → ⊥) }
{
    match column(row, name) {
        Found::At(at) => Some(at),
        Found::Nowhere => None,
        Found::Twice => None,
    }
}

// Where the columns of a table stand whose first record this is.
pub(crate) fn columns_of(row: &ByteRecord) -> Option<Columns>
    ensures some { IfSome result (HasColumns (fields_of row.now)) }
    ensures none { IfNone result ((k : Columns) → HasColumns (fields_of row.now) k → ⊥) }
{
    let item = wanted(row, b"item".as_slice())?;
    let period = wanted(row, b"period".as_slice())?;
    let make = wanted(row, b"make".as_slice())?;
    let setup = match column(row, b"setup".as_slice()) {
        Found::Nowhere => None,
        Found::At(at) => Some(at),
        Found::Twice => return None,
    };
    Some(Columns {
        width: row.len(),
        item,
        period,
        make,
        setup,
    })
}
