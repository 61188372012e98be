// Files that are no TOML documents: the line, a mark, and what was expected.
use explain_source::{visible, whole};
use std::alloc::{AllocError, Global};
use std::str;

// How many characters of a line are shown before its fault, and in all.
const SHOWN_BEFORE: usize = 60;

const SHOWN_IN_ALL: usize = 76;

// What some editors write before the first line.
const BYTE_ORDER_MARK: char = '\u{feff}';

// A place in a text: its line, counted from 1, how many characters of the line stand before it, and the line.
#[derive(Clone, Copy)]
struct Spot<'a> {
    line: usize,
    before: usize,
    text: &'a str,
}

// How many characters of a line begin before a byte.
fn chars_before(line: &str, byte: usize) -> usize {
    let mut count = 0usize;
    for (at, ch) in line.char_indices() {
        if at < byte && ch != BYTE_ORDER_MARK {
            count = count.saturating_add(1);
        }
    }
    count
}

// Where a byte of a text stands.
fn spot_at(text: &str, byte: usize) -> Spot<'_> {
    let mut line = 0usize;
    let mut left = byte;
    for row in text.split('\n') {
        line = line.saturating_add(1);
        if left <= row.len() {
            return Spot {
                line,
                before: chars_before(row, left),
                text: row,
            };
        }
        left = left.saturating_sub(row.len()).saturating_sub(1);
    }
    Spot {
        line,
        before: 0,
        text: "",
    }
}

// The character at a place.
fn char_at(spot: Spot) -> Option<char> {
    let mut before = 0usize;
    for ch in spot.text.chars() {
        if before == spot.before {
            return Some(ch);
        }
        before = before.saturating_add(1);
    }
    None
}

// Adds the line of a place, from a character on.
fn add_line(out: &mut String, text: &str, from: usize) -> Result<(), AllocError> {
    out.push_str("  ")?;
    for ch in text.chars().skip(from).take(SHOWN_IN_ALL) {
        if ch == '\t' {
            out.push(' ')?;
        } else if ch != '\r' && ch != BYTE_ORDER_MARK {
            out.push(visible(ch))?;
        }
    }
    out.push('\n')
}

// Adds a mark below the line of a place.
fn add_mark(out: &mut String, blanks: usize) -> Result<(), AllocError> {
    out.push_str("  ")?;
    for _blank in 0..blanks {
        out.push(' ')?;
    }
    out.push_str("^\n")
}

// Adds the line of a place with a mark below it.
fn add_marked(out: &mut String, spot: Spot) -> Result<(), AllocError> {
    let from = spot.before.saturating_sub(SHOWN_BEFORE);
    add_line(out, spot.text, from)?;
    add_mark(out, spot.before.saturating_sub(from))
}

// Whether a line is a table's name in single brackets, where there are many of its kind.
fn is_single(line: &str) -> bool {
    matches!(
        line.trim(),
        "[item]" | "[resource]" | "[item.needs]" | "[item.uses]"
    )
}

// Whether nothing but blanks stands before a place in its line.
fn is_at_start(spot: Spot) -> bool {
    let blank = spot.text.len().saturating_sub(spot.text.trim_start().len());
    spot.before <= blank
}

// What is often meant where a message of the reader of TOML stands.
fn hint(message: &str, spot: Spot) -> &'static str {
    let ch = char_at(spot);
    if message.starts_with("duplicate key") && is_single(spot.text) {
        " Write it in two brackets, as [[item]]."
    } else if message.starts_with("duplicate key") {
        " It stands twice in one table."
    } else if message.starts_with("missing comma") && is_at_start(spot) {
        " A comma or a bracket may be missing at the end of the line above."
    } else if message.starts_with("invalid value") && ch.is_some_and(|ch| ch.is_alphabetic()) {
        " Names stand in quotes."
    } else if message.starts_with("invalid value") && ch.is_some_and(|ch| ch.is_ascii_digit()) {
        " A comma may be missing, or a number has points or blanks between its digits."
    } else if message.starts_with("unexpected key or value") && ch == Some(',') {
        " A number has no comma, and a list stands in brackets."
    } else if message.starts_with("unexpected key or value") && ch == Some('.') {
        " A number has no point for thousands."
    } else if message.starts_with("invalid string") {
        " A quote may be missing."
    } else {
        ""
    }
}

// The bytes after a byte order mark in UTF-8.
fn after_mark(bytes: &[u8]) -> &[u8] {
    match bytes {
        [0xef, 0xbb, 0xbf, rest @ ..] => rest,
        _ => bytes,
    }
}

// What a file is that begins with the header of another kind of file, or the words of one.
fn other_kind(bytes: &[u8]) -> Option<&'static str> {
    let bytes = after_mark(bytes);
    if bytes.starts_with(b"\xff\xfe") || bytes.starts_with(b"\xfe\xff") {
        Some("this is UTF-16, which is also called Unicode. Save it as UTF-8.")
    } else if bytes.starts_with(b"item,period,") || bytes.starts_with(b"item;period;") {
        Some("this is a plan, and no model. The model's name comes first.")
    } else if bytes.starts_with(b"resource,period,") {
        Some("this is a schedule, and no model. The model's name comes first.")
    } else if bytes.starts_with(b"lotcert ") {
        Some("this is a certificate, and no model. The model's name comes first.")
    } else {
        None
    }
}

// Adds what a reader of TOML says of a place, with its line and a mark.
fn add_fault(out: &mut String, file: &str, message: &str, spot: Spot) -> Result<(), AllocError> {
    let file = whole(file);
    let line = spot.line;
    let column = spot.before.saturating_add(1);
    let hint = hint(message, spot);
    write!(
        out,
        "{file}, line {line}, column {column}: {message}.{hint}\n"
    )?;
    add_marked(out, spot)
}

// Adds where a text is no TOML, and gives whether it is none.
fn add_no_toml(
    alloc: Global,
    out: &mut String,
    file: &str,
    text: &str,
) -> Result<bool, AllocError> {
    let Err(e) = toml::table_from_str(alloc, text) else {
        return Ok(false);
    };
    match e.span() {
        Some(span) => {
            add_fault(out, file, e.message(), spot_at(text, span.start))?;
            Ok(true)
        }
        None => Err(AllocError),
    }
}

// Adds where bytes are no UTF-8: the text up to there is.
fn add_no_text(
    out: &mut String,
    file: &str,
    bytes: &[u8],
    good: usize,
) -> Result<bool, AllocError> {
    let Some(front) = bytes.get(..good) else {
        return Ok(false);
    };
    let Ok(text) = str::from_utf8(front) else {
        return Ok(false);
    };
    let message =
        "this letter isn't UTF-8, as an umlaut of an older encoding. Save the file as UTF-8";
    add_fault(out, file, message, spot_at(text, good))?;
    Ok(true)
}

/// Adds where a file is no TOML document, and gives whether it says so.
pub fn add_syntax(
    alloc: Global,
    out: &mut String,
    file: &str,
    bytes: &[u8],
) -> Result<bool, AllocError> {
    if let Some(kind) = other_kind(bytes) {
        let file = whole(file);
        write!(out, "{file}: {kind}\n")?;
        return Ok(true);
    }
    match str::from_utf8(bytes) {
        Ok(text) => add_no_toml(alloc, out, file, text),
        Err(e) => add_no_text(out, file, bytes, e.valid_up_to()),
    }
}
