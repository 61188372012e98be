// The text of records.
ghost use Rattle.std.specs.Prelude.{◌≡◌, ◌∷◌, [], List, IfOk, OnOk, map};
ghost use Rattle.csv_records.specs.Records.{Record};
ghost use Rattle.csv_records.specs.Written.{HasAdded, HasWritten, records_text};

use csv::{Writer, WriterBuilder};
use std::alloc::{AllocError, Global};

/// A writer of records into memory.
pub type RecordWriter = Writer<Vec<u8>>;

/// A writer that has written nothing.
pub fn new_writer(alloc: Global) -> RecordWriter
    ensures { HasWritten result [] }
{
    WriterBuilder::new()
        .flexible(true)
        .from_writer(Vec::new(alloc))
}

/// Writes a record: its fields, with quotes where they need them, and a line feed. The error is
/// that memory ran out, and then nothing is known of the text.
pub fn add_record(writer: &mut RecordWriter, fields: &[&[u8]]) -> Result<(), AllocError>
    ensures { OnOk result (HasAdded writer.old writer.new
        (map (λ field. field.now) fields.now ∷ [])) }
{
    // Over bytes in memory, and where records may have any length, the writer has no other cause.
    let Ok(()) = writer.write_fields(fields) else {
        return Err(AllocError);
    };
    Ok(())
}

/// The text of the records that were written. The error is that memory ran out.
pub fn written(writer: RecordWriter) -> Result<Vec<u8>, AllocError>
    ensures { IfOk result (λ bytes.
        (rs : List Record) → HasWritten writer rs → bytes.items ≡ records_text rs) }
{
    match writer.into_inner() {
        Ok(bytes) => Ok(bytes),
        Err(_) => Err(AllocError),
    }
}
