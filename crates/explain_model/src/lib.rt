//! Words on a model file that was refused, for the person who wrote it.
//!
//! Family: commands. It stands on `explain_source` for what stands where in the file, on `lot_sizing`, `lot_draft` and
//! `instance_reader` for limits, keys and codes, on `toml` for the document and on `strsim` for how alike two words are.
//!
//! The program prints one line on a model that it refuses, for other programs: a code, and a place by numbers.
//! `words_on_model` reads that line and the file, and says the same in one to three lines of words: where it stands in the
//! file, which item it is by name, what stands there and what belongs there, and how to mend it. Each code has its sentence,
//! also where the file doesn't show the fault.
#![tactic(auto)]

mod bills;
mod cycle;
mod general;
mod keys;
mod kinds;
mod lengths;
mod names;
mod nearest;
mod pairs;
mod ranges;
mod syntax;

use crate::general::general;
use explain_source::{ModelFile, Refusal, read_refusal, whole};
use lot_draft::{Key, ModelCode};
use std::alloc::{AllocError, Global};
use std::str;

// Adds what the document shows of a fault, and gives whether it shows anything.
fn add_shown(
    alloc: Global,
    out: &mut String,
    model: ModelFile,
    refusal: Refusal,
) -> Result<bool, AllocError> {
    match refusal.code {
        ModelCode::NotToml => Ok(false),
        ModelCode::UnknownKey => keys::add_unknown(alloc, out, model, refusal),
        ModelCode::MissingKey => keys::add_missing(out, model, refusal),
        ModelCode::WrongKind => kinds::add_kind(out, model, refusal),
        ModelCode::OutOfRange => ranges::add_range(out, model, refusal),
        ModelCode::WrongLength => lengths::add_length(out, model, refusal),
        ModelCode::BadName => names::add_bad(alloc, out, model, refusal),
        ModelCode::RepeatedName => names::add_repeated(out, model, refusal),
        ModelCode::UnknownName => names::add_unknown(alloc, out, model, refusal),
        ModelCode::Cycle => cycle::add_cycle(alloc, out, model, refusal),
        ModelCode::BacklogOnComponent => bills::add_backlog(out, model, refusal),
        ModelCode::QuantityBound => bills::add_total(out, model, refusal),
        ModelCode::EndsCrossed => { pairs::add_pair(out, model, refusal, Key::EndMin, Key::EndMax) }
        ModelCode::Version => pairs::add_version(out, model, refusal),
        ModelCode::LotsCrossed => { pairs::add_pair(out, model, refusal, Key::MinLot, Key::MaxLot) }
    }
}

// Adds what a file that is a document shows of a fault, and gives whether it shows anything.
fn add_of_document(
    alloc: Global,
    out: &mut String,
    file: &str,
    bytes: &[u8],
    refusal: Refusal,
) -> Result<bool, AllocError> {
    let Ok(text) = str::from_utf8(bytes) else {
        return Ok(false);
    };
    match toml::table_from_str(alloc, text) {
        Ok(table) => {
            let model = ModelFile {
                file,
                text,
                table: &table,
            };
            add_shown(alloc, out, model, refusal)
        }
        Err(e) => {
            if e.is_memory() {
                Err(AllocError)
            } else {
                Ok(false)
            }
        }
    }
}

// Adds the sentence of a code, which tells nothing of the file.
fn add_general(out: &mut String, file: &str, code: ModelCode) -> Result<(), AllocError> {
    let file = whole(file);
    let sentence = general(code);
    write!(out, "{file}: {sentence}\n")
}

// Adds words on a refusal.
fn add_words(
    alloc: Global,
    out: &mut String,
    file: &str,
    bytes: &[u8],
    refusal: Refusal,
) -> Result<(), AllocError> {
    let said = match refusal.code {
        ModelCode::NotToml => syntax::add_syntax(alloc, out, file, bytes)?,
        _ => add_of_document(alloc, out, file, bytes, refusal)?,
    };
    if said {
        Ok(())
    } else {
        add_general(out, file, refusal.code)
    }
}

/// Words on a model file that was refused, for its reader; empty where the line says nothing of a model.
///
/// `file` is the name of the file and `bytes` is what it holds; `line` is what the program printed, `refused model`, a code
/// and a place. The words are one to three lines, each ended by a line feed, in UTF-8 and without control characters. They
/// are for people: programs read the line. It takes time in the length of the bytes, and where names are compared in the
/// number of the names. The error is that memory ran out.
pub fn words_on_model(
    alloc: Global,
    file: &str,
    bytes: &[u8],
    line: &str,
) -> Result<String, AllocError> {
    let mut out = String::new(alloc);
    if let Some(refusal) = read_refusal(alloc, line)? {
        add_words(alloc, &mut out, file, bytes, refusal)?;
    }
    Ok(out)
}
