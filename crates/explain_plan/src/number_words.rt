// Words on a field that is to hold a whole number.

use explain_lookup::quoted;
use std::alloc::{AllocError, Global};
use std::str;

// Whether there is a point, a comma or an apostrophe.
fn has_separator(part: &[u8]) -> bool {
    for byte in part {
        if matches!(*byte, b'.' | b',' | b'\'') {
            return true;
        }
    }
    false
}

// Whether all bytes are decimal digits.
fn are_digits(part: &[u8]) -> bool {
    for byte in part {
        if !byte.is_ascii_digit() {
            return false;
        }
    }
    true
}

// Whether there is a blank of any kind.
fn has_blank(part: &[u8]) -> bool {
    match str::from_utf8(part) {
        Ok(text) => text.chars().any(|letter| letter.is_whitespace()),
        Err(_) => false,
    }
}

// What to do about a field that is no whole number.
fn advice(part: &[u8]) -> &'static str {
    if part.is_empty() {
        "write 0 where there is nothing"
    } else if part.first() == Some(&b'-') {
        "it may not be below 0"
    } else if has_separator(part) {
        "write whole units, with no point or comma in them; in a spreadsheet, format the column as a number without decimals and separators"
    } else if has_blank(part) {
        "take the blanks out"
    } else if !are_digits(part) {
        "decimal digits alone make a number"
    } else if part.len() > 1 && part.first() == Some(&b'0') {
        "take the 0 in front away"
    } else {
        "it is 2^64 or more"
    }
}

/// Words on a field that is no whole number.
pub(crate) fn on_number(
    alloc: Global,
    file: &str,
    row: u64,
    column: &str,
    part: &[u8],
) -> Result<String, AllocError> {
    let (shown, mend) = (quoted(alloc, part)?, advice(part));
    format!(in alloc;
        "{file}, row {row}, column `{column}`: {shown} is there, and a whole number is wanted: {mend}.\n"
    )
}
