// What a file or a named text holds.
use crate::fault::Fault;
use crate::keys::{Keys, has_only, keys_of, list_of, number_of, text_of};
use std::alloc::Global;
use std::collections::BTreeMap;
use std::str;
use toml::{Table, Value};

/// The texts that have names.
pub type Texts = BTreeMap<String, Vec<u8>>;

// The first line of a plan file.
const HEADER: &[u8] = b"item,period,make,setup,stock,backlog\n";

/// The bytes that a value of a data file stands for.
pub fn content(alloc: Global, value: &Value, texts: &Texts) -> Result<Vec<u8>, Fault> {
    let mut bytes = Vec::new(alloc);
    match value.as_array() {
        Some(parts) => add_parts(alloc, &mut bytes, parts.as_slice(), texts)?,
        None => add_part(alloc, &mut bytes, value, texts)?,
    }
    Ok(bytes)
}

// Adds one part after the other.
fn add_parts(
    alloc: Global,
    bytes: &mut Vec<u8>,
    parts: &[Value],
    texts: &Texts,
) -> Result<(), Fault> {
    for part in parts {
        add_part(alloc, bytes, part, texts)?;
    }
    Ok(())
}

// Adds a text, or what a table says.
fn add_part(alloc: Global, bytes: &mut Vec<u8>, value: &Value, texts: &Texts) -> Result<(), Fault> {
    if let Some(text) = value.as_str() {
        bytes.extend_from_slice(text.as_bytes())?;
        return Ok(());
    }
    let keys = keys_of(value, "files")?;
    if keys.get("text").is_some() {
        add_named(alloc, bytes, keys, texts)
    } else if keys.get("of").is_some() {
        add_copies(alloc, bytes, keys)
    } else {
        add_other(alloc, bytes, keys.first)
    }
}

// Adds the records of a plan, or bytes by their digits.
fn add_other(alloc: Global, bytes: &mut Vec<u8>, table: &Table) -> Result<(), Fault> {
    has_only(alloc, table, &["records", "hex"])?;
    if let Some(value) = table.get("records") {
        bytes.extend_from_slice(HEADER)?;
        bytes.extend_from_slice(text_of(value, "records")?.as_bytes())?;
    }
    match table.get("hex") {
        Some(value) => add_digits(bytes, text_of(value, "hex")?.as_bytes()),
        None => Ok(()),
    }
}

// The value of a digit of base 16.
fn digit(byte: u8) -> Option<u8> {
    match byte {
        b'0'..=b'9' => Some(byte - b'0'),
        b'a'..=b'f' => Some(byte - b'a' + 10),
        _ => None,
    }
}

// Adds the bytes that digits write, two for each.
fn add_digits(bytes: &mut Vec<u8>, digits: &[u8]) -> Result<(), Fault> {
    let mut high = None;
    for byte in digits {
        match (digit(*byte), high) {
            (None, _) => return Err(Fault::NoBytes),
            (Some(value), None) => high = Some(value),
            (Some(value), Some(first)) => {
                bytes.push(joined(first, value))?;
                high = None;
            }
        }
    }
    if high.is_some() {
        return Err(Fault::NoBytes);
    }
    Ok(())
}

// The byte of two digits.
fn joined(high: u8, low: u8) -> u8 {
    high.wrapping_mul(16).wrapping_add(low)
}

// The text of a name.
fn named<'a>(alloc: Global, name: &str, texts: &'a Texts) -> Result<&'a [u8], Fault> {
    match texts.get(name) {
        Some(bytes) => Ok(bytes.as_slice()),
        None => Err(match String::from_str(alloc, name) {
            Ok(name) => Fault::NoText(name),
            Err(_) => Fault::Memory,
        }),
    }
}

// Adds a named text, with other lines where it says so.
fn add_named(alloc: Global, bytes: &mut Vec<u8>, keys: Keys, texts: &Texts) -> Result<(), Fault> {
    has_only(alloc, keys.first, &["text", "lines", "by"])?;
    let name = keys.text("text")?.ok_or(Fault::Missing("text"))?;
    let text = named(alloc, name, texts)?;
    match keys.get("lines") {
        Some(lines) => {
            let by = keys.text("by")?.ok_or(Fault::Missing("by"))?;
            add_changed(bytes, text, list_of(lines, "lines")?, by)
        }
        None => {
            bytes.extend_from_slice(text)?;
            Ok(())
        }
    }
}

// The first and the last of some lines.
fn first_and_last(lines: &[Value]) -> Result<(u64, u64), Fault> {
    match lines {
        [first, last] => Ok((number_of(first, "lines")?, number_of(last, "lines")?)),
        _ => Err(Fault::Kind("lines")),
    }
}

// Adds a text with others in the place of some lines.
fn add_changed(bytes: &mut Vec<u8>, text: &[u8], lines: &[Value], by: &str) -> Result<(), Fault> {
    let (first, last) = first_and_last(lines)?;
    match str::from_utf8(text) {
        Ok(text) => add_lines(bytes, text, first, last, by),
        Err(_) => Err(Fault::NoLines),
    }
}

// Adds a text with others in the place of its first to its last of these lines, counted from 1.
fn add_lines(
    bytes: &mut Vec<u8>,
    text: &str,
    first: u64,
    last: u64,
    by: &str,
) -> Result<(), Fault> {
    let mut place = 0u64;
    for line in text.lines() {
        place = place.saturating_add(1);
        if place == first {
            bytes.extend_from_slice(by.as_bytes())?;
        }
        if place < first || place > last {
            bytes.extend_from_slice(line.as_bytes())?;
            bytes.push(b'\n')?;
        }
    }
    if first < 1 || first > last || last > place {
        return Err(Fault::NoLines);
    }
    Ok(())
}

// Adds a text some times, with the number of each in it.
fn add_copies(alloc: Global, bytes: &mut Vec<u8>, keys: Keys) -> Result<(), Fault> {
    has_only(alloc, keys.first, &["count", "from", "of"])?;
    let text = keys.text("of")?.ok_or(Fault::Missing("of"))?;
    let count = match keys.get("count") {
        Some(value) => number_of(value, "count")?,
        None => return Err(Fault::Missing("count")),
    };
    let from = match keys.get("from") {
        Some(value) => number_of(value, "from")?,
        None => 1,
    };
    for number in from..from.saturating_add(count) {
        add_copy(alloc, bytes, text, number)?;
    }
    Ok(())
}

// Adds a text with a number in the place of each `#`.
fn add_copy(alloc: Global, bytes: &mut Vec<u8>, text: &str, number: u64) -> Result<(), Fault> {
    let digits = format!(in alloc; "{number}")?;
    let mut first = true;
    for piece in text.split('#') {
        if !first {
            bytes.extend_from_slice(digits.as_bytes())?;
        }
        bytes.extend_from_slice(piece.as_bytes())?;
        first = false;
    }
    Ok(())
}
