// How words begin: the file, the line in it, and the item or resource by name.
use crate::lines::line_of;
use crate::model_file::ModelFile;
use crate::shown::{Name, whole};
use lot_draft::Place;
use std::alloc::AllocError;

// Adds what a thing is, and its name, or its number where it has none.
fn add_thing(out: &mut String, what: &str, name: Option<&str>, n: u32) -> Result<(), AllocError> {
    match name {
        Some(name) => {
            let name = Name(name);
            write!(out, ", {what} {name}")
        }
        None => write!(out, ", {what} number {n}"),
    }
}

// Adds the item or resource of a place, and the line within it.
fn add_place(out: &mut String, model: ModelFile, place: Place) -> Result<(), AllocError> {
    let name = model.name_at(place);
    match place {
        Place::Root => Ok(()),
        Place::Resource(n) => add_thing(out, "resource", name, n),
        Place::Item(n) => add_thing(out, "item", name, n),
        Place::Need(item, n) => {
            add_thing(out, "item", model.name_at(Place::Item(item)), item)?;
            add_thing(out, "needs", name, n)
        }
        Place::Usage(item, n) => {
            add_thing(out, "item", model.name_at(Place::Item(item)), item)?;
            add_thing(out, "uses", name, n)
        }
    }
}

/// Adds a second line, which says how to mend a fault.
pub fn add_mend(out: &mut String, mend: &str) -> Result<(), AllocError> {
    write!(out, "\n  {mend}\n")
}

/// Adds where a fault stands: the file, the line of the key or of the place, and names.
pub fn add_head(
    out: &mut String,
    model: ModelFile,
    place: Place,
    key: &str,
) -> Result<(), AllocError> {
    let file = whole(model.file);
    write!(out, "{file}")?;
    if let Some(line) = line_of(model.text, place, key) {
        write!(out, ", line {line}")?;
    }
    add_place(out, model, place)?;
    out.push_str(": ")
}
