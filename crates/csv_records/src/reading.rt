// The records of a text.
ghost use Rattle.std.specs.Prelude.{◌≡◌, IfOk, map, take};
ghost use Rattle.csv.specs.Records.{fields_of};
ghost use Rattle.csv_records.specs.Records.{records_of};

use csv::{ByteRecord, ReaderBuilder};
use std::alloc::{AllocError, Global};

/// The first records of a text, at most so many. Records may have any number of fields; a byte
/// order mark before the first is passed over.
///
/// It takes time in the length of the bytes up to the last of these records. The error is that
/// memory ran out.
pub fn first_records(
    alloc: Global,
    bytes: &[u8],
    most: usize,
) -> Result<Vec<ByteRecord>, AllocError>
    ensures { IfOk result (λ v. map fields_of v.items ≡ take most (records_of bytes.now)) }
{
    let rdr = ReaderBuilder::new()
        .has_headers(false)
        .flexible(true)
        .from_reader(alloc, bytes);
    let mut rows = Vec::new(alloc);
    for row in rdr.into_byte_records() {
        if rows.len() == most {
            return Ok(rows);
        }
        // Over bytes in memory the reader has no other cause, which its contract leaves open.
        let Ok(row) = row else {
            return Err(AllocError);
        };
        rows.push(row)?;
    }
    Ok(rows)
}

/// All records of a text. The error is that memory ran out.
pub fn all_records(alloc: Global, bytes: &[u8]) -> Result<Vec<ByteRecord>, AllocError>
    ensures { IfOk result (λ v. map fields_of v.items ≡ records_of bytes.now) }
{
    // No record has less than one byte.
    let rows = first_records(alloc, bytes, bytes.len())?;
    Ok(rows)
}
