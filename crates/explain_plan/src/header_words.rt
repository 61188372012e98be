// Words on the first row of a file of records.

use csv::ByteRecord;
use csv_records::{field, first_records};
use explain_lookup::quoted;
use std::alloc::{AllocError, Global};

// Whether bytes are text of two bytes a character, as some programs save it.
fn is_wide_text(bytes: &[u8]) -> bool {
    bytes.starts_with(b"\xFF\xFE".as_slice())
        || bytes.starts_with(b"\xFE\xFF".as_slice())
        || bytes.iter().take(100).any(|byte| *byte == 0)
}

// How often a byte stands in the first line that isn't blank.
fn count_in_first_line(bytes: &[u8], wanted: u8) -> u32 {
    let mut count = 0u32;
    let mut has_begun = false;
    for byte in bytes {
        let ends = *byte == b'\n' || *byte == b'\r';
        if ends && has_begun {
            return count;
        }
        has_begun = has_begun || !ends;
        if *byte == wanted {
            count = count.saturating_add(1);
        }
    }
    count
}

// The first column whose name isn't the one that is wanted.
fn on_columns(alloc: Global, row: &ByteRecord, names: &[&str]) -> Result<String, AllocError> {
    for (place, name) in names.iter().enumerate() {
        let column = place.saturating_add(1);
        let found = field(row, column);
        if found != name.as_bytes() {
            let shown = quoted(alloc, found)?;
            return format!(in alloc;
                "Column {column} has {shown}, and `{name}` is wanted, in small letters and without blanks.\n"
            );
        }
    }
    let (count, wanted) = (row.len(), names.len());
    if count == wanted {
        return Ok(String::new(alloc));
    }
    format!(in alloc; "It has {count} columns in place of {wanted}.\n")
}

// What is wrong with a first row, where it is text.
fn on_first_row(
    alloc: Global,
    bytes: &[u8],
    names: &[&str],
    commas: u32,
) -> Result<String, AllocError> {
    if commas == 0 && count_in_first_line(bytes, b';') > 0 {
        return String::from_str(
            alloc,
            "Its columns stand apart by semicolons, as some spreadsheets save them: save with commas (CSV UTF-8), or replace each `;` by `,`.\n",
        );
    }
    if commas == 0 && count_in_first_line(bytes, b'\t') > 0 {
        return String::from_str(
            alloc,
            "Its columns stand apart by tabs: save with commas (CSV UTF-8).\n",
        );
    }
    let rows = first_records(alloc, bytes, 1)?;
    match rows.first() {
        Some(row) => on_columns(alloc, row, names),
        None => String::from_str(alloc, "The file is empty.\n"),
    }
}

/// Words on a file whose first row doesn't have these names.
pub(crate) fn on_header(
    alloc: Global,
    file: &str,
    bytes: &[u8],
    names: &[&str],
    header: &str,
) -> Result<String, AllocError> {
    let mut words = format!(in alloc; "{file}: the first row has to be {header}\n")?;
    if is_wide_text(bytes) {
        words.push_str(
            "The file is saved as Unicode of two bytes (UTF-16): save it as CSV UTF-8.\n",
        )?;
        return Ok(words);
    }
    let commas = count_in_first_line(bytes, b',');
    words.push_str(on_first_row(alloc, bytes, names, commas)?.as_str())?;
    Ok(words)
}
