// The fields of a record.
ghost use Rattle.std.specs.Prelude.{◌≡◌, ◌≢◌, ◌↔◌, ◌<◌, ◌^◌, ℕ, IfNone, IfSome, IsTrue, decimal, map};
ghost use Rattle.std.specs.Str.{bytes_eq};
ghost use Rattle.std.specs.Str.Parse.{digits_value};
ghost use Rattle.csv.specs.Records.{fields_of};
ghost use Rattle.csv_records.specs.Records.{BeginsWith, IsNumber, are_fields, field};

use csv::ByteRecord;
use whole_numbers::read_whole;

/// A field of a record, counted from 1, and nothing where it is absent.
pub fn field(row: &ByteRecord, number: usize) -> &[u8]
    ensures { result.now ≡ field (fields_of row.entry.now) number }
{
    match row.get(number.saturating_sub(1)) {
        Some(found) => found,
        None => &[],
    }
}

// Whether the fields of a record are these texts.
fn are_fields(row: &ByteRecord, texts: &[&[u8]]) -> bool
    ensures { IsTrue result ↔ (fields_of row.now ≡ map (λ text. text.now) texts.now) }
{
    if row.len() != texts.len() {
        return false;
    }
    for place in 0..texts.len() {
        if field(row, place + 1) != texts[place] {
            return false;
        }
    }
    true
}

/// Whether the first record is this header.
pub fn has_header(rows: &[ByteRecord], header: &[&[u8]]) -> bool
    ensures { IsTrue result ↔
        BeginsWith (map fields_of rows.now) (map (λ text. text.now) header.now) }
{
    match rows.first() {
        Some(row) => are_fields(row, header),
        None => false,
    }
}

/// The number that a field holds, where it is a whole number of 64 bits with no 0 before it.
pub fn number(text: &[u8]) -> Option<u64>
    ensures some { IfSome result (λ n. IsNumber text.now × (n ≡ digits_value 10 text.now)) }
    ensures none { IfNone result (IsNumber text.now → ⊥) }
    ensures written { IfSome result (λ n. text.now ≡ decimal n) }
    ensures unwritten { IfNone result ((n : ℕ) → n < 2 ^ 64 → text.now ≢ decimal n) }
{
    match read_whole(text, u64::MAX as u128) {
        Ok(n) => Some(n as u64),
        Err(_) => None,
    }
}

/// Whether a field is what is written of a number.
pub fn is_number(text: &[u8], number: u64) -> bool
    ensures { result ≡ bytes_eq text.now (decimal number) }
{
    match read_whole(text, u64::MAX as u128) {
        Ok(n) => n == number as u128,
        Err(_) => false,
    }
}
