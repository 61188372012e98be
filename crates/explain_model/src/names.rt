// Names that are none, that stand twice, and that nothing has.
use crate::nearest::nearest_name;
use explain_source::{
    ModelFile, Name, Refusal, add_head, add_mend, is_plain, line_of, name_key, name_of,
    place_named, visible,
};
use lot_draft::Place;
use lot_sizing::limits::MAX_NAME;
use std::alloc::{AllocError, Global};
use toml::Value;

// How many names are listed.
const MOST_LISTED: usize = 10;

// What a character is written as in a name.
fn spelling(ch: char) -> &'static str {
    match ch {
        'ä' => "ae",
        'ö' => "oe",
        'ü' => "ue",
        'Ä' => "Ae",
        'Ö' => "Oe",
        'Ü' => "Ue",
        'ß' => "ss",
        'á' | 'à' | 'â' | 'å' => "a",
        'é' | 'è' | 'ê' | 'ë' => "e",
        'í' | 'ì' | 'î' | 'ï' => "i",
        'ó' | 'ò' | 'ô' | 'ø' => "o",
        'ú' | 'ù' | 'û' => "u",
        'ç' => "c",
        'ñ' => "n",
        _ => "_",
    }
}

// A name that may stand, as near to a text as can be.
fn mended(alloc: Global, text: &str) -> Result<String, AllocError> {
    let mut name = String::new(alloc);
    for ch in text.chars() {
        if name.len() >= MAX_NAME {
            break;
        }
        if is_plain(ch) {
            name.push(ch)?;
        } else {
            name.push_str(spelling(ch))?;
        }
    }
    Ok(name)
}

// The first character of a text that may not stand in a name.
fn bad_in(text: &str) -> Option<char> {
    text.chars().find(|ch| !is_plain(*ch))
}

// Adds what is wrong with a name.
fn add_fault(alloc: Global, out: &mut String, text: &str) -> Result<(), AllocError> {
    match bad_in(text) {
        Some(bad) => {
            let bad = visible(bad);
            let name = mended(alloc, text)?;
            write!(
                out,
                "'{bad}' may not stand in a name; a to z, A to Z, digits, '_', '-' and '.' may.\n  Write {name}, here and where it is named.\n"
            )
        }
        None => {
            let length = text.len();
            write!(
                out,
                "the name has {length} letters; it may have from 1 to {MAX_NAME}.\n"
            )
        }
    }
}

/// Adds what is wrong with a name.
pub fn add_bad(
    alloc: Global,
    out: &mut String,
    model: ModelFile,
    refusal: Refusal,
) -> Result<bool, AllocError> {
    let place = refusal.place;
    let Some(text) = model.name_at(place) else {
        return Ok(false);
    };
    add_head(out, model, place, name_key(place).name())?;
    add_fault(alloc, out, text)?;
    Ok(true)
}

// The place in the model of a resource or an item by its place in their list.
fn place_like(place: Place, at: usize) -> Place {
    let number = u32::try_from(at).unwrap_or(u32::MAX).saturating_add(1);
    match place {
        Place::Resource(_) => Place::Resource(number),
        _ => Place::Item(number),
    }
}

// The line of the first resource or item of a name.
fn first_line(model: ModelFile, place: Place, name: &str) -> Option<usize> {
    let list = match place {
        Place::Resource(_) => model.resources(),
        _ => model.items(),
    };
    match place_named(list, name) {
        Some(at) => line_of(model.text, place_like(place, at), "name"),
        None => None,
    }
}

// Adds that a resource or an item has the name of an earlier one.
fn add_twice(
    out: &mut String,
    model: ModelFile,
    place: Place,
    name: &str,
) -> Result<(), AllocError> {
    out.push_str("an earlier one has this name too")?;
    if let Some(line) = first_line(model, place, name) {
        write!(out, ", in line {line}")?;
    }
    out.push_str(". Rename one of them.\n")
}

/// Adds that a name stands twice.
pub fn add_repeated(
    out: &mut String,
    model: ModelFile,
    refusal: Refusal,
) -> Result<bool, AllocError> {
    let place = refusal.place;
    let Some(name) = model.name_at(place) else {
        return Ok(false);
    };
    add_head(out, model, place, name_key(place).name())?;
    match place {
        Place::Need(_, _) => {
            out.push_str("an earlier line needs it too. Add the quantities in one line.\n")?
        }
        Place::Usage(_, _) => {
            out.push_str("an earlier line uses it too. Add the times in one line.\n")?
        }
        _ => add_twice(out, model, place, name)?,
    }
    Ok(true)
}

// What stands before a name of a list.
fn gap_before(first: bool) -> &'static str {
    if first { " " } else { ", " }
}

// Adds the names of a list, ten at most.
fn add_names(out: &mut String, list: &[Value], what: &str) -> Result<(), AllocError> {
    if list.is_empty() {
        return write!(out, "\n  There are no {what}s.\n");
    }
    write!(out, "\n  There are")?;
    let mut first = true;
    for value in list.iter().take(MOST_LISTED) {
        let gap = gap_before(first);
        let name = Name(name_of(value));
        write!(out, "{gap}{name}")?;
        first = false;
    }
    if list.len() > MOST_LISTED {
        out.push_str(" and more")?;
    }
    out.push_str(".\n")
}

// Adds what is meant by a name that nothing has.
fn add_meant(
    alloc: Global,
    out: &mut String,
    list: &[Value],
    name: &str,
    what: &str,
) -> Result<(), AllocError> {
    let near = match nearest_name(alloc, name, list)? {
        Some(at) => list.get(at),
        None => None,
    };
    match near {
        Some(value) => {
            let meant = Name(name_of(value));
            write!(out, " Did you mean {meant}?\n")
        }
        None => add_names(out, list, what),
    }
}

// Adds that no item or resource has a name, and which is meant.
fn add_absent(
    alloc: Global,
    out: &mut String,
    list: &[Value],
    name: &str,
    what: &str,
) -> Result<(), AllocError> {
    write!(out, "no {what} has this name.")?;
    add_meant(alloc, out, list, name, what)
}

// Adds that a name is that of another kind of thing than a line asks for.
fn add_other_kind(out: &mut String, what: &str) -> Result<(), AllocError> {
    write!(out, "no {what} has this name.")?;
    if what == "item" {
        add_mend(
            out,
            "It is a resource: what an item takes time on stands in uses.",
        )
    } else {
        add_mend(
            out,
            "It is an item: what goes into an item stands in needs.",
        )
    }
}

/// Adds which name nothing has, and which is meant.
pub fn add_unknown(
    alloc: Global,
    out: &mut String,
    model: ModelFile,
    refusal: Refusal,
) -> Result<bool, AllocError> {
    let place = refusal.place;
    let Some(name) = model.name_at(place) else {
        return Ok(false);
    };
    let (list, others, what) = match place {
        Place::Usage(_, _) => (model.resources(), model.items(), "resource"),
        _ => (model.items(), model.resources(), "item"),
    };
    add_head(out, model, place, name_key(place).name())?;
    if place_named(others, name).is_some() {
        add_other_kind(out, what)?;
    } else {
        add_absent(alloc, out, list, name, what)?;
    }
    Ok(true)
}
