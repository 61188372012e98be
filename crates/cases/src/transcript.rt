// What the transcript shows of words, texts and files.
use crate::outside::{Counts, Files};
use std::alloc::AllocError;
use std::str;

/// Adds the words of a run.
pub fn add_words(out: &mut String, words: &[String]) -> Result<(), AllocError> {
    out.push_str("run")?;
    for word in words {
        out.push_str(" ")?;
        out.push_str(if word.is_empty() {
            "\"\""
        } else {
            word.as_str()
        })?;
    }
    out.push_str("\n")
}

/// Adds how many there are of something.
pub fn add_count(out: &mut String, count: u64, name: &str) -> Result<(), AllocError> {
    write!(out, "{count} {name}")?;
    if count == 1 {
        Ok(())
    } else {
        out.push_str("s")
    }
}

// Adds how many there are of something, where there are some.
fn add_some(out: &mut String, count: u64, name: &str) -> Result<(), AllocError> {
    if count == 0 {
        return Ok(());
    }
    out.push_str(", ")?;
    add_count(out, count, name)
}

/// Adds the counts of a run.
pub fn add_counts(out: &mut String, counts: Counts) -> Result<(), AllocError> {
    add_some(out, counts.starts, "start")?;
    out.push_str(", ")?;
    add_count(out, counts.prints, "print")?;
    if counts.fetches == 0 {
        out.push_str(", nothing read")?;
    }
    add_some(out, counts.faults, "fault")?;
    add_some(out, counts.wants, "want")?;
    out.push_str("\n")
}

// Adds a line, two blanks to the right.
fn add_line(out: &mut String, line: &str) -> Result<(), AllocError> {
    if !line.is_empty() {
        out.push_str("  ")?;
        out.push_str(line)?;
    }
    out.push_str("\n")
}

// Adds lines, two blanks to the right.
fn add_lines(out: &mut String, text: &str) -> Result<(), AllocError> {
    for line in text.lines() {
        add_line(out, line)?;
    }
    if text.ends_with("\n") {
        Ok(())
    } else {
        out.push_str("(no line feed)\n")
    }
}

/// Adds what was printed, or what a file holds.
pub fn add_text(out: &mut String, bytes: &[u8]) -> Result<(), AllocError> {
    match str::from_utf8(bytes) {
        Ok("") => out.push_str("(nothing)\n"),
        Ok(text) => add_lines(out, text),
        Err(_) => out.push_str("(no text)\n"),
    }
}

// Adds the name and the text of a file.
fn add_whole(out: &mut String, name: &str, bytes: &[u8]) -> Result<(), AllocError> {
    write!(out, "{name}\n")?;
    add_text(out, bytes)
}

/// The bytes of a file, if it is there.
pub fn bytes_of<'a>(files: &'a Files, name: &str) -> Option<&'a [u8]> {
    match files.get(name) {
        Some(bytes) => Some(bytes.as_slice()),
        None => None,
    }
}

// What a run did to a file.
fn fate(before: Option<&[u8]>, after: &[u8]) -> &'static str {
    match before {
        Some(bytes) => { if bytes == after { "stays" } else { "changes" } }
        None => "comes",
    }
}

/// Adds what a run did to each file.
pub fn add_fates(out: &mut String, before: &Files, after: &Files) -> Result<(), AllocError> {
    let mut first = true;
    for (name, bytes) in after.iter() {
        let fate = fate(bytes_of(before, name.as_str()), bytes.as_slice());
        out.push_str(if first { "" } else { ", " })?;
        write!(out, "{name} {fate}")?;
        first = false;
    }
    if first { Ok(()) } else { out.push_str("\n") }
}

/// Adds the text of a file that came or changed.
pub fn add_new(
    out: &mut String,
    name: &str,
    before: &Files,
    after: &Files,
) -> Result<(), AllocError> {
    match bytes_of(after, name) {
        Some(bytes) if fate(bytes_of(before, name), bytes) != "stays" => {
            add_whole(out, name, bytes)
        }
        _ => Ok(()),
    }
}
