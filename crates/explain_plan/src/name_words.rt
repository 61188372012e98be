// Words on a name that the model hasn't.

use explain_lookup::{item_name, quoted, resource_name};
use lot_model::Instance;
use std::alloc::{AllocError, Global};
use std::str;
use strsim::osa_distance;

// Names of more bytes are compared with none.
const MOST_BYTES: usize = 64;

/// What a name is to name.
#[derive(Clone, Copy)]
pub(crate) enum Kind {
    /// An item.
    Item,
    /// A resource.
    Resource,
}

// A name of the model, by its number, and how many edits lead to it, but for capital letters.
#[derive(Clone, Copy)]
struct Near {
    number: u32,
    edits: usize,
}

impl Kind {
    fn word(self) -> &'static str {
        match self {
            Kind::Item => "item",
            Kind::Resource => "resource",
        }
    }

    // How many the model has.
    fn count(self, instance: &Instance) -> u32 {
        match self {
            Kind::Item => instance.items(),
            Kind::Resource => instance.resources(),
        }
    }
}

// The name of an item or a resource.
fn name_of(instance: &Instance, kind: Kind, number: u32) -> &str {
    match kind {
        Kind::Item => item_name(instance, number),
        Kind::Resource => resource_name(instance, number),
    }
}

// How many edits lead from one name to another, but for capital letters.
fn edits(alloc: Global, name: &str, other: &str) -> Result<usize, AllocError> {
    let (from, to) = (
        name.to_ascii_lowercase(alloc)?,
        other.to_ascii_lowercase(alloc)?,
    );
    osa_distance(alloc, from.as_str(), to.as_str())
}

// Whether a name is nearer than the nearest so far; two edits are the most, and one at short names.
fn is_nearer(best: Option<Near>, name: &str, edits: usize) -> bool {
    let most = if name.len() <= 3 { 1 } else { 2 };
    match best {
        Some(near) => edits < near.edits,
        None => edits <= most,
    }
}

// The nearest name of the model.
fn nearest(
    alloc: Global,
    instance: &Instance,
    kind: Kind,
    name: &str,
) -> Result<Option<Near>, AllocError> {
    let mut best = None;
    for number in 1..kind.count(instance).saturating_add(1) {
        let edits = edits(alloc, name, name_of(instance, kind, number))?;
        if is_nearer(best, name, edits) {
            best = Some(Near { number, edits });
        }
    }
    Ok(best)
}

// The nearest name of the model to what stands in a field.
fn nearest_to(
    alloc: Global,
    instance: &Instance,
    kind: Kind,
    part: &[u8],
) -> Result<Option<Near>, AllocError> {
    match str::from_utf8(part) {
        Ok(name) if name.len() <= MOST_BYTES => nearest(alloc, instance, kind, name),
        _ => Ok(None),
    }
}

/// Words on a field that names nothing of the model.
pub(crate) fn on_unknown_name(
    alloc: Global,
    instance: &Instance,
    kind: Kind,
    part: &[u8],
) -> Result<String, AllocError> {
    let (shown, word) = (quoted(alloc, part)?, kind.word());
    match nearest_to(alloc, instance, kind, part)? {
        Some(near) => {
            let name = name_of(instance, kind, near.number);
            if near.edits == 0 {
                return format!(in alloc;
                    "The model has the {word} `{name}`, not {shown}: capital letters count.\n"
                );
            }
            format!(in alloc; "The model has no {word} {shown}. Did you mean `{name}`?\n")
        }
        None => format!(in alloc; "The model has no {word} {shown}.\n"),
    }
}
