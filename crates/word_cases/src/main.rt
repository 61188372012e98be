//! The program of the word cases: it gives `explain` the words, the status and the lines of runs over the files of `data/`, and prints
//! what it says of each.
//!
//! Family: tests. It stands on `explain` for what is said, and on `lot_io` for the files; nothing stands on it.
#![tactic(auto)]

use explain::{Course, Seen, explain};
use lot_io::{DiskShelf, Shelf, Sink, StdSink};
use std::alloc::{AllocError, Global};
use std::process::ExitCode;
use std::{fs, io};

// The words of a command line.
fn words_of(alloc: Global, text: &str) -> Result<Vec<String>, AllocError> {
    let mut words = Vec::new(alloc);
    for word in text.split_whitespace() {
        words.push(String::from_str(alloc, word)?)?;
    }
    Ok(words)
}

// The lines of a run, as it would print them.
fn lines_of(alloc: Global, text: &str) -> Result<String, AllocError> {
    let mut lines = String::new(alloc);
    for line in text.split(';') {
        lines.push_str(line.trim())?;
        lines.push_str("\n")?;
    }
    Ok(lines)
}

// The number behind a word, if it stands there.
fn number_behind(text: &str, wanted: &str) -> Option<u64> {
    let mut words = text.split_whitespace();
    words.find(|word| *word == wanted);
    words.next().unwrap_or("").parse::<u64>().ok()
}

// The word behind a word, if it stands there.
fn word_behind<'a>(text: &'a str, wanted: &str) -> Option<&'a str> {
    let mut words = text.split_whitespace();
    words.find(|word| *word == wanted);
    words.next()
}

// What was seen of a run: `nodes N bound N plan N` of its search, and `over` where the time ended it, or `output NAME same NAME`.
fn seen_of(text: &str) -> Seen<'_> {
    Seen {
        same: word_behind(text, "output").zip(word_behind(text, "same")),
        course: number_behind(text, "nodes").map(|nodes| Course {
            nodes,
            bound_since: number_behind(text, "bound"),
            plan_since: number_behind(text, "plan"),
            is_over: text.split_whitespace().any(|word| word == "over"),
        }),
    }
}

// What is said of a run: the words, the status, the lines and what was seen, with bars between.
fn told<S: Shelf>(alloc: Global, case: &str, shelf: &mut S) -> Result<String, AllocError> {
    let mut parts = case.split('|');
    let words = words_of(alloc, parts.next().unwrap_or(""))?;
    let status = parts.next().unwrap_or("").trim().parse::<u8>().unwrap_or(0);
    let lines = lines_of(alloc, parts.next().unwrap_or(""))?;
    let seen = seen_of(parts.next().unwrap_or(""));
    let said = explain(alloc, words.as_slice(), status, lines.as_str(), seen, shelf)?;
    format!(in alloc; "{case}\n{said}\n")
}

// Prints what is said of each run of a text.
fn show<S: Shelf, K: Sink>(
    alloc: Global,
    text: &str,
    shelf: &mut S,
    out: &mut K,
) -> Result<bool, AllocError> {
    for case in text.lines() {
        let said = told(alloc, case, shelf)?;
        if out.put(said.as_bytes()).is_err() {
            return Ok(false);
        }
    }
    Ok(true)
}

fn main(rt: HostRuntime) -> ExitCode {
    let alloc = rt.alloc();
    let mut shelf = DiskShelf::new(&rt);
    let mut out = StdSink::new(io::writer(&rt));
    let Ok(text) = fs::read_to_string(&rt, "cases.txt") else {
        return ExitCode::from(1);
    };
    match show(alloc, text.as_str(), &mut shelf, &mut out) {
        Ok(true) => ExitCode::from(0),
        _ => ExitCode::from(1),
    }
}
