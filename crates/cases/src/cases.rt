// The cases of a data file.
use crate::content::{Texts, content};
use crate::each_call::add_each_call;
use crate::fault::Fault;
use crate::keys::{Keys, has_only, keys_of, list_of};
use crate::runs::{files_of, run_first, run_later, words_of};
use lot_io::{ReadFault, Shelf, read_file};
use std::alloc::Global;
use std::collections::BTreeMap;
use toml::{Table, Value};

// The most bytes of a data file.
const MOST_BYTES: u64 = 4_194_304;

// The keys of a case.
const CASE_KEYS: [&str; 11] = [
    "name",
    "files",
    "run",
    "show",
    "fail",
    "form",
    "forms",
    "then",
    "untold",
    "each_call_fails",
    "each",
];

// The table of a data file.
fn data_of<S: Shelf>(alloc: Global, shelf: &mut S, name: &str) -> Result<Table, Fault> {
    let bytes = match read_file(alloc, shelf, name, MOST_BYTES) {
        Ok(bytes) => bytes,
        Err(ReadFault::Memory) => return Err(Fault::Memory),
        Err(_) => return Err(Fault::Unread),
    };
    match toml::table_from_slice(alloc, bytes.as_slice()) {
        Ok(table) => Ok(table),
        Err(e) => Err(match format!(in alloc; "{e}") {
            Ok(line) => Fault::NoToml(line),
            Err(_) => Fault::Memory,
        }),
    }
}

// Adds a text to those that have names.
fn add_text(alloc: Global, value: &Value, texts: &mut Texts) -> Result<(), Fault> {
    let keys = keys_of(value, "text")?;
    has_only(alloc, keys.first, &["name", "is"])?;
    let name = keys.text("name")?.ok_or(Fault::Missing("name"))?;
    let bytes = match keys.get("is") {
        Some(value) => content(alloc, value, texts)?,
        None => return Err(Fault::Missing("is")),
    };
    texts.insert(String::from_str(alloc, name)?, bytes)?;
    Ok(())
}

// Adds the name of a case, and that of its variation.
fn add_name(out: &mut String, keys: Keys) -> Result<(), Fault> {
    let name = keys.text("name")?.ok_or(Fault::Missing("name"))?;
    match keys.second {
        Some(case) => match case.get("name") {
            Some(value) => match value.as_str() {
                Some(of) => write!(out, "\ncase {of}: {name}\n")?,
                None => return Err(Fault::Kind("name")),
            },
            None => return Err(Fault::Missing("name")),
        },
        None => write!(out, "\ncase {name}\n")?,
    }
    Ok(())
}

// Runs a case, or a variation of one.
fn run_case(alloc: Global, out: &mut String, keys: Keys, texts: &Texts) -> Result<(), Fault> {
    add_name(out, keys)?;
    let before = files_of(alloc, keys, texts)?;
    let (mut files, mut chosen) = run_first(alloc, out, keys, &before)?;
    for value in keys.list("then")? {
        (files, chosen) = run_later(alloc, out, value, &files, chosen)?;
    }
    if keys.is_set("each_call_fails")? {
        let words = words_of(alloc, keys)?;
        add_each_call(alloc, out, words.as_slice(), &before)?;
    }
    Ok(())
}

// Runs the variations of a case, and gives how many there are.
fn run_each(
    alloc: Global,
    out: &mut String,
    case: &Table,
    list: &[Value],
    texts: &Texts,
) -> Result<u64, Fault> {
    for value in list {
        let own = keys_of(value, "each")?.first;
        has_only(alloc, own, &CASE_KEYS[..10])?;
        let keys = Keys {
            first: own,
            second: Some(case),
        };
        run_case(alloc, out, keys, texts)?;
    }
    Ok(list.len() as u64)
}

// Runs a case of a data file, and gives how many cases it is.
fn run_value(alloc: Global, out: &mut String, value: &Value, texts: &Texts) -> Result<u64, Fault> {
    let keys = keys_of(value, "case")?;
    has_only(alloc, keys.first, &CASE_KEYS)?;
    match keys.get("each") {
        Some(list) => run_each(alloc, out, keys.first, list_of(list, "each")?, texts),
        None => {
            run_case(alloc, out, keys, texts)?;
            Ok(1)
        }
    }
}

// Takes the texts of a data file and runs its cases, and gives how many there are.
fn run_table(
    alloc: Global,
    out: &mut String,
    table: &Table,
    texts: &mut Texts,
) -> Result<u64, Fault> {
    let keys = Keys {
        first: table,
        second: None,
    };
    has_only(alloc, table, &["text", "case"])?;
    for value in keys.list("text")? {
        add_text(alloc, value, texts)?;
    }
    let mut count = 0u64;
    for value in keys.list("case")? {
        count = count.saturating_add(run_value(alloc, out, value, texts)?);
    }
    Ok(count)
}

// Runs the cases of a file.
fn run_file<S: Shelf>(
    alloc: Global,
    out: &mut String,
    shelf: &mut S,
    name: &str,
    texts: &mut Texts,
) -> Result<u64, Fault> {
    let table = data_of(alloc, shelf, name)?;
    run_table(alloc, out, &table, texts)
}

// Adds what is wrong with a file.
fn add_fault(out: &mut String, name: &str, fault: &Fault) -> Result<(), Fault> {
    write!(out, "{name}: {fault}\n")?;
    Ok(())
}

/// Runs the cases of all files, and adds their transcript. It gives whether nothing is wrong with the files.
pub fn run_files<S: Shelf>(
    alloc: Global,
    out: &mut String,
    shelf: &mut S,
    names: &[String],
) -> Result<bool, Fault> {
    let mut texts = BTreeMap::new(alloc);
    let mut count = 0u64;
    for name in names {
        match run_file(alloc, out, shelf, name.as_str(), &mut texts) {
            Ok(more) => count = count.saturating_add(more),
            Err(fault) => {
                add_fault(out, name.as_str(), &fault)?;
                return Ok(false);
            }
        }
    }
    write!(out, "\n{count} cases\n")?;
    Ok(true)
}
