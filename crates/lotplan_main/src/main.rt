//! The program: `main` gives `lotplan::run` what proposes leaves and plans, the words of the command line, the machine's files
//! and standard output, so that each output is whole or as it was (`safe_files`), and ends with its status. Before that it writes
//! to the error stream what `explain` says of the run. No other crate but of tests names `Prices` and `Plans`. A `Teller` watches:
//! with the word `--progress` it tells on the error stream how far the search is, and with `--seconds` it ends the search when the
//! time is over, which `Prices` and `Plans` know too. A `History` watches too, for the words.
//!
//! Family: commands. It stands on `lotplan` for what is done, on `price_plugin` and `heur_plugin` for what proposes, on
//! `search_plugins` for what watches, on `work_clock` and `command_line` for the seconds, on `explain` for words, and on `lot_io` and `safe_files` for
//! files and output; nothing stands on it.
#![tactic(auto)]

mod history;
mod progress;

use crate::history::{History, Watched};
use crate::progress::Teller;
use command_line::seconds_asked;
use explain::{Remembering, Seen, explain};
use heur_plugin::Plans;
use lot_io::{Sink, StdSink};
use lotplan::status::{NO_MEMORY, UNPRINTED, UNWRITTEN};
use lotplan::{refuse_words, run};
use price_plugin::Prices;
use safe_files::{Outputs, SafeShelf, SafeSink};
use std::alloc::{AllocError, Global};
use std::io::ErrorKind;
use std::process::ExitCode;
use std::{env, io};
use work_clock::Deadline;

// Writes words on a run to the error stream. Where that fails, or memory for them is short, the status and the lines stand as they
// are.
fn say_why<R: Eprint>(rt: &R, why: Result<String, AllocError>) {
    if let Ok(said) = why {
        if !said.is_empty() {
            let _ = rt.eprint(said);
        }
    }
}

// Prints that a file could not be written which was whole beside its place, and gives the status of that.
fn end_unplaced<K: Sink>(alloc: Global, name: &str, out: &mut K) -> Result<u8, AllocError> {
    let line = format!(in alloc; "refused write {name}\n")?;
    match out.put(line.as_bytes()) {
        Ok(()) => Ok(UNWRITTEN),
        Err(_) => Ok(UNPRINTED),
    }
}

// The status of a run that ended with this one. Its lines aren't printed before all files are in their places; where one can't be
// put there, the run takes the lines for unprintable, and that file is named in their stead.
fn status_of<K: Sink>(alloc: Global, status: u8, unplaced: Option<&str>, out: &mut K) -> u8 {
    match unplaced {
        Some(name) => end_unplaced(alloc, name, out).unwrap_or(NO_MEMORY),
        None => status,
    }
}

// The time at which work on a plan is to end, where so many seconds are given for it.
fn deadline(rt: &HostRuntime, seconds: Option<u32>) -> Deadline {
    match seconds {
        Some(seconds) => Deadline::after(rt, seconds),
        None => Deadline::none(),
    }
}

// Does what the words ask for, says why it came out so, and gives the status.
fn run_words(rt: &HostRuntime, alloc: Global, words: &[String]) -> Result<u8, AllocError> {
    let outputs = Outputs::new(alloc, words)?;
    let mut shelf = SafeShelf::new(rt, &outputs);
    let mut out = Remembering::new(alloc, SafeSink::new(rt, &outputs, io::writer(rt)));
    let is_asked = words.iter().any(|word| word.as_str() == "--progress");
    let seconds = seconds_asked(alloc, words).unwrap_or(None);
    let until = deadline(rt, seconds);
    let mut watched = Watched {
        teller: Teller::new(rt, is_asked, seconds.is_some(), until),
        history: History::default(),
    };
    let ended = run(
        alloc,
        &Prices { until },
        &Plans { until },
        &mut watched,
        words,
        &mut shelf,
        &mut out,
    );
    let status = status_of(alloc, ended, outputs.unplaced(), &mut out);
    let seen = Seen {
        same: outputs.same(),
        course: watched.history.course(),
    };
    let why = explain(alloc, words, status, out.printed(), seen, &mut shelf);
    say_why(rt, why);
    Ok(status)
}

// Where the arguments can't be read for another cause than a word that is no text, as where memory
// runs out, the status is that of memory: std has no other cause on Linux.
fn main(rt: HostRuntime) -> ExitCode {
    let alloc = rt.alloc();
    let status = match env::args(&rt) {
        Ok(args) => match args.skip(1).collect::<Vec<String>>(alloc) {
            Ok(words) => run_words(&rt, alloc, words.as_slice()).unwrap_or(NO_MEMORY),
            Err(_) => NO_MEMORY,
        },
        Err(error) if error.kind() == ErrorKind::InvalidData => {
            refuse_words(&mut StdSink::new(io::writer(&rt)))
        }
        Err(_) => NO_MEMORY,
    };
    ExitCode::from(status)
}
