// Parts of files, as they are shown on a terminal.

use std::alloc::{AllocError, Global};
use std::str;

// So many characters of a part are shown.
const MOST_SHOWN: usize = 40;

/// A text without what would move a terminal's cursor.
pub fn plain(alloc: Global, text: &str) -> Result<String, AllocError> {
    let mut shown = String::new(alloc);
    for letter in text.chars() {
        shown.push(if letter.is_control() { '?' } else { letter })?;
    }
    Ok(shown)
}

// A text, cut where it is long, and without what would move a terminal's cursor.
fn quoted_text(alloc: Global, text: &str) -> Result<String, AllocError> {
    let mut shown = String::from_str(alloc, "`")?;
    let mut place = 0usize;
    for letter in text.chars() {
        if place >= MOST_SHOWN {
            shown.push_str("..")?;
            break;
        }
        place = place.saturating_add(1);
        shown.push(if letter.is_control() { '?' } else { letter })?;
    }
    shown.push_str("`")?;
    Ok(shown)
}

/// A part of a file in quotes.
pub fn quoted(alloc: Global, part: &[u8]) -> Result<String, AllocError> {
    if part.is_empty() {
        return String::from_str(alloc, "nothing");
    }
    match str::from_utf8(part) {
        Ok(text) => quoted_text(alloc, text),
        Err(_) => String::from_str(alloc, "bytes that are no text in UTF-8"),
    }
}
