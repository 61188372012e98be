// Items that go into themselves.
use explain_source::{ModelFile, Name, Refusal, add_head, name_of, needs_of, part_of, place_named};
use lot_draft::{Key, Place};
use lot_sizing::limits::MAX_ITEMS;
use std::alloc::{AllocError, Global};
use toml::Value;

// Notes from which item another one was reached first.
fn note(above: &mut Vec<Option<usize>>, part: usize, at: usize) {
    if let Some(slot) = above.get_mut(part)
        && slot.is_none()
    {
        *slot = Some(at);
    }
}

// The item from which one was reached.
fn above_of(above: &[Option<usize>], at: usize) -> Option<usize> {
    match above.get(at) {
        Some(from) => *from,
        None => None,
    }
}

// Notes the components of an item as reached from it.
fn reach_parts(above: &mut Vec<Option<usize>>, items: &[Value], at: usize) {
    if let Some(item) = items.get(at) {
        for line in needs_of(item) {
            if let Some(part) = place_named(items, part_of(line)) {
                note(above, part, at);
            }
        }
    }
}

// Notes what is reached from the items that were reached so far.
fn reach_once(above: &mut Vec<Option<usize>>, items: &[Value], start: usize) {
    for at in 0..items.len() {
        if at == start || above_of(above.as_slice(), at).is_some() {
            reach_parts(above, items, at);
        }
    }
}

// For each item the one from which it was reached first, beginning with one item.
fn reached(alloc: Global, items: &[Value], start: usize) -> Result<Vec<Option<usize>>, AllocError> {
    let mut above = Vec::new(alloc);
    for _item in items {
        above.push(None)?;
    }
    for _round in 0..items.len() {
        reach_once(&mut above, items, start);
    }
    Ok(above)
}

// The places on the way from an item back to itself, the last one first; none where it isn't reached.
fn way_back(
    alloc: Global,
    above: &[Option<usize>],
    start: usize,
) -> Result<Vec<usize>, AllocError> {
    let mut way = Vec::new(alloc);
    let mut at = start;
    for _step in 0..above.len() {
        match above_of(above, at) {
            Some(from) => {
                way.push(from)?;
                at = from;
            }
            None => break,
        }
        if at == start {
            break;
        }
    }
    Ok(way)
}

// Adds the name of an item.
fn add_item(out: &mut String, items: &[Value], at: usize) -> Result<(), AllocError> {
    match items.get(at) {
        Some(value) => {
            let name = Name(name_of(value));
            write!(out, "{name}")
        }
        None => Ok(()),
    }
}

// Adds a way from an item back to itself.
fn add_way(
    out: &mut String,
    items: &[Value],
    way: &[usize],
    start: usize,
) -> Result<(), AllocError> {
    out.push_str("it goes into itself: ")?;
    for at in way.iter().rev() {
        add_item(out, items, *at)?;
        out.push_str(" -> ")?;
    }
    add_item(out, items, start)?;
    out.push_str(", where each needs the next.\n  Take one of these lines out of needs.\n")
}

/// Adds a way from an item over its components back to itself.
pub fn add_cycle(
    alloc: Global,
    out: &mut String,
    model: ModelFile,
    refusal: Refusal,
) -> Result<bool, AllocError> {
    let items = model.items();
    let Place::Item(number) = refusal.place else {
        return Ok(false);
    };
    if items.len() > MAX_ITEMS as usize {
        return Ok(false);
    }
    let start = number.saturating_sub(1) as usize;
    let above = reached(alloc, items, start)?;
    let way = way_back(alloc, above.as_slice(), start)?;
    if way.is_empty() {
        return Ok(false);
    }
    add_head(out, model, refusal.place, Key::Needs.name())?;
    add_way(out, items, way.as_slice(), start)?;
    Ok(true)
}
