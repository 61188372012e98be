// Runs in which each single call on files and output fails once.
use crate::fault::Fault;
use crate::outside::{Fails, Files, Left, left_by};
use crate::transcript::{add_count, bytes_of};
use std::alloc::{AllocError, Global};
use std::str;

// The most calls of a kind that are tried.
const MOST_CALLS: u64 = 1_000;

// The kinds of calls.
#[derive(Clone, Copy, PartialEq, Eq)]
enum Call {
    Fetch,
    Start,
    Append,
    Print,
}

impl Call {
    // Its name.
    fn name(self) -> &'static str {
        match self {
            Call::Fetch => "fetch",
            Call::Start => "start",
            Call::Append => "append",
            Call::Print => "print",
        }
    }
}

// The words and the files of a case, and what they leave without a fault.
#[derive(Clone, Copy)]
struct Tried<'a> {
    words: &'a [String],
    before: &'a Files,
    clean: &'a Left,
}

// Runs the words with one failing call.
fn left_with(
    alloc: Global,
    tried: &Tried,
    call: Call,
    number: u64,
    told: bool,
) -> Result<Left, AllocError> {
    let mut fails = Fails::none(alloc);
    match call {
        Call::Fetch => fails.fetch.push(number)?,
        Call::Start => fails.start.push(number)?,
        Call::Append => fails.append.push(number)?,
        Call::Print => fails.print.push(number)?,
    }
    left_by(alloc, tried.words, tried.before, fails, told)
}

// The first half of some bytes.
fn half(bytes: &[u8]) -> &[u8] {
    &bytes[..bytes.len() / 2]
}

// What has become of a file.
fn fate(before: Option<&[u8]>, clean: &[u8], now: Option<&[u8]>) -> &'static str {
    if now == before {
        "stays"
    } else if now == Some(clean) {
        "done"
    } else if now == Some(half(clean)) {
        "half"
    } else {
        "otherwise"
    }
}

// Adds what has become of each file.
fn add_fates(out: &mut String, tried: &Tried, left: &Left) -> Result<(), AllocError> {
    let mut first = true;
    for (name, bytes) in tried.clean.files.iter() {
        let before = bytes_of(tried.before, name.as_str());
        let now = bytes_of(&left.files, name.as_str());
        if before.is_some() || now.is_some() {
            let fate = fate(before, bytes.as_slice(), now);
            out.push_str(if first { "; " } else { ", " })?;
            write!(out, "{name} {fate}")?;
            first = false;
        }
    }
    Ok(())
}

// Adds a printed line, or what else was printed.
fn add_line(out: &mut String, printed: &[u8]) -> Result<(), AllocError> {
    match str::from_utf8(printed) {
        Ok(text) => match text.strip_suffix("\n") {
            Some(line) if !line.contains("\n") => out.push_str(line),
            _ => write!(out, "{text:?}"),
        },
        Err(_) => out.push_str("no text"),
    }
}

// Adds what was printed where a call of this kind failed.
fn add_printed(out: &mut String, tried: &Tried, left: &Left, call: Call) -> Result<(), AllocError> {
    let printed = left.printed.as_slice();
    if call == Call::Print && printed == half(tried.clean.printed.as_slice()) {
        out.push_str("half of the text")
    } else {
        add_line(out, printed)
    }
}

// Adds what a run with a failing call left.
fn add_left(
    out: &mut String,
    tried: &Tried,
    left: &Left,
    call: Call,
    number: u64,
) -> Result<(), AllocError> {
    let (name, status) = (call.name(), left.status);
    write!(out, "{name} {number} fails: status {status}, ")?;
    add_printed(out, tried, left, call)?;
    if left.counts.faults != 1 {
        out.push_str(", ")?;
        add_count(out, left.counts.faults, "fault")?;
    }
    add_fates(out, tried, left)?;
    out.push_str("\n")
}

// Adds that a run without a failing call left something else.
fn add_unlike(out: &mut String, tried: &Tried, left: &Left) -> Result<(), AllocError> {
    if left.is_same(tried.clean) {
        Ok(())
    } else {
        out.push_str("not the same without a fault\n")
    }
}

// Adds what a run with a failing call left, over files and output that tell what they hold and over others. It gives whether
// there is such a call.
fn add_try(
    alloc: Global,
    out: &mut String,
    tried: &Tried,
    call: Call,
    number: u64,
) -> Result<bool, AllocError> {
    let told = left_with(alloc, tried, call, number, true)?;
    let untold = left_with(alloc, tried, call, number, false)?;
    let alike = told.is_same(&untold);
    if told.counts.faults == 0 {
        add_unlike(out, tried, &told)?;
        add_unlike(out, tried, &untold)?;
        return Ok(false);
    }
    add_left(out, tried, &told, call, number)?;
    if !alike {
        out.push_str("untold ")?;
        add_left(out, tried, &untold, call, number)?;
    }
    Ok(true)
}

// Adds a line for each call of a kind, and gives how many there are.
fn add_tries(alloc: Global, out: &mut String, tried: &Tried, call: Call) -> Result<u64, Fault> {
    for number in 1..MOST_CALLS {
        if !add_try(alloc, out, tried, call, number)? {
            return Ok(number.saturating_sub(1));
        }
    }
    Err(Fault::Calls)
}

/// Adds a line for each call of each kind, in which it fails, and how many calls there are.
pub fn add_each_call(
    alloc: Global,
    out: &mut String,
    words: &[String],
    before: &Files,
) -> Result<(), Fault> {
    let clean = left_by(alloc, words, before, Fails::none(alloc), true)?;
    let tried = Tried {
        words,
        before,
        clean: &clean,
    };
    let fetches = add_tries(alloc, out, &tried, Call::Fetch)?;
    let starts = add_tries(alloc, out, &tried, Call::Start)?;
    let appends = add_tries(alloc, out, &tried, Call::Append)?;
    let prints = add_tries(alloc, out, &tried, Call::Print)?;
    add_all(out, fetches, starts, appends, prints)?;
    Ok(())
}

// Adds how many calls of each kind there are.
fn add_all(
    out: &mut String,
    fetches: u64,
    starts: u64,
    appends: u64,
    prints: u64,
) -> Result<(), AllocError> {
    write!(out, "{fetches} fetch")?;
    out.push_str(if fetches == 1 { ", " } else { "es, " })?;
    add_count(out, starts, "start")?;
    out.push_str(", ")?;
    add_count(out, appends, "append")?;
    out.push_str(", ")?;
    add_count(out, prints, "print")?;
    out.push_str("\n")
}
