// The rows of a spreadsheet that the records of a file stand in.

use csv::ByteRecord;

// Where the first byte from a place on stands that ends no line.
fn after_line_ends(bytes: &[u8], from: usize) -> usize {
    let mut place = from;
    for byte in bytes.iter().skip(from) {
        if *byte != b'\n' && *byte != b'\r' {
            return place;
        }
        place = place.saturating_add(1);
    }
    place
}

// How many lines end among the first bytes; a carriage return and a line feed after it end one.
fn line_ends(bytes: &[u8], most: usize) -> u64 {
    let mut count = 0u64;
    let mut before = b' ';
    for byte in bytes.iter().take(most) {
        if *byte == b'\r' || (*byte == b'\n' && before != b'\r') {
            count = count.saturating_add(1);
        }
        before = *byte;
    }
    count
}

/// The row of a spreadsheet, counted from 1, that a record of these bytes stands in. Blank lines are rows.
pub(crate) fn row_of(bytes: &[u8], record: &ByteRecord) -> u64 {
    let from = match record.position() {
        Some(position) => position.byte() as usize,
        None => 0,
    };
    line_ends(bytes, after_line_ends(bytes, from)).saturating_add(1)
}
