//! The program of the cases: it runs `lotplan::run` over files and output in memory, as the data files say whose names are its
//! words, and prints a transcript.
//!
//! Family: tests. It stands on `lotplan` for what is run, on `lot_io` for files and output, and on `toml` for the data; nothing
//! stands on it.
#![tactic(auto)]

mod cases;
mod content;
mod each_call;
mod fault;
mod forms;
mod keys;
mod outside;
mod runs;
mod transcript;

use crate::cases::run_files;
use crate::fault::Fault;
use lot_io::{DiskShelf, Shelf, Sink, StdSink};
use std::alloc::Global;
use std::process::ExitCode;
use std::{env, io};

// Runs the cases of the files of these names, prints their transcript, and gives whether all went well.
fn show<S: Shelf, K: Sink>(
    alloc: Global,
    names: &[String],
    shelf: &mut S,
    out: &mut K,
) -> Result<bool, Fault> {
    let mut text = String::new(alloc);
    let fine = run_files(alloc, &mut text, shelf, names)?;
    match out.put(text.as_bytes()) {
        Ok(()) => Ok(fine),
        Err(_) => Ok(false),
    }
}

fn main(rt: HostRuntime) -> ExitCode {
    let alloc = rt.alloc();
    let mut out = StdSink::new(io::writer(&rt));
    let mut shelf = DiskShelf::new(&rt);
    let names = match env::args(&rt) {
        Ok(args) => match args.skip(1).collect::<Vec<String>>(alloc) {
            Ok(names) => names,
            Err(_) => return ExitCode::from(1),
        },
        Err(_) => return ExitCode::from(1),
    };
    match show(alloc, names.as_slice(), &mut shelf, &mut out) {
        Ok(true) => ExitCode::from(0),
        _ => ExitCode::from(1),
    }
}
