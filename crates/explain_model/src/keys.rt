// Keys that aren't known, and keys that are missing.
use crate::nearest::nearest_key;
use explain_source::{ModelFile, Name, Refusal, add_head, add_mend, key_of};
use instance_reader::FIRST_VERSION;
use lot_draft::{Key, Place};
use std::alloc::{AllocError, Global};
use toml::Table;

const ROOT_KEYS: [Key; 4] = [Key::Version, Key::Periods, Key::Resource, Key::Item];

const RESOURCE_KEYS: [Key; 2] = [Key::Name, Key::Capacity];

const NEED_KEYS: [Key; 2] = [Key::Item, Key::Quantity];

const USAGE_KEYS: [Key; 3] = [Key::Resource, Key::Unit, Key::Setup];

const ITEM_KEYS: [Key; 14] = [
    Key::Name,
    Key::Demand,
    Key::UnitCost,
    Key::SetupCost,
    Key::HoldCost,
    Key::BacklogCost,
    Key::Opening,
    Key::EndMin,
    Key::EndMax,
    Key::Lead,
    Key::MinLot,
    Key::MaxLot,
    Key::Needs,
    Key::Uses,
];

// The keys of the table at a place.
fn keys_at(place: Place) -> &'static [Key] {
    match place {
        Place::Root => &ROOT_KEYS,
        Place::Resource(_) => &RESOURCE_KEYS,
        Place::Item(_) => &ITEM_KEYS,
        Place::Need(_, _) => &NEED_KEYS,
        Place::Usage(_, _) => &USAGE_KEYS,
    }
}

// Whether a key is one of some keys.
fn is_among(keys: &[Key], key: Key) -> bool {
    for one in keys {
        if *one == key {
            return true;
        }
    }
    false
}

// Whether a key is known from the second version on alone.
fn is_later(key: Key) -> bool {
    matches!(key, Key::Lead | Key::MinLot | Key::MaxLot)
}

// Whether a word is a key of a place in the first version or a later one.
fn is_known(word: &str, place: Place, first: bool) -> bool {
    match key_of(word) {
        Some(key) => is_among(keys_at(place), key) && !(first && is_later(key)),
        None => false,
    }
}

// The first key of a table, by the alphabet, that it can't have.
fn unknown_in<'a>(table: &'a Table, place: Place, first: bool) -> Option<&'a str> {
    for (key, _value) in table.iter() {
        if !is_known(key.as_str(), place, first) {
            return Some(key.as_str());
        }
    }
    None
}

// Whether a model is of the first version.
fn is_first(model: ModelFile) -> bool {
    model.version() == Some(i64::from(FIRST_VERSION))
}

// The key that is meant where a table has another one in its place, though its letters are others.
fn meant(word: &str, place: Place) -> Option<Key> {
    match (place, word) {
        (Place::Need(_, _), "name") | (Place::Need(_, _), "component") => Some(Key::Item),
        (Place::Need(_, _), "amount") | (Place::Need(_, _), "units") => Some(Key::Quantity),
        (Place::Usage(_, _), "name") | (Place::Usage(_, _), "machine") => Some(Key::Resource),
        (Place::Usage(_, _), "time") | (Place::Usage(_, _), "unit_time") => Some(Key::Unit),
        (Place::Usage(_, _), "setup_time") => Some(Key::Setup),
        (Place::Item(_), "holding_cost") => Some(Key::HoldCost),
        (Place::Item(_), "stock") | (Place::Item(_), "opening_stock") => Some(Key::Opening),
        (Place::Item(_), "lead_time") => Some(Key::Lead),
        _ => None,
    }
}

// What tables of a place are called.
fn table_words(place: Place) -> &'static str {
    match place {
        Place::Root => "the model itself",
        Place::Resource(_) => "a resource",
        Place::Item(_) => "an item",
        Place::Need(_, _) => "a line of needs",
        Place::Usage(_, _) => "a line of uses",
    }
}

// Adds the keys of a place that are known in the first version or a later one.
fn add_keys(out: &mut String, place: Place, first: bool) -> Result<(), AllocError> {
    let what = table_words(place);
    write!(out, "\n  Keys of {what} are")?;
    let mut gap = " ";
    for key in keys_at(place) {
        let key = *key;
        if !(first && is_later(key)) {
            write!(out, "{gap}{key}")?;
            gap = ", ";
        }
    }
    out.push_str(".\n")
}

// Adds that a key stands in the table of another place.
fn add_misplaced(out: &mut String, key: Key, place: Place) -> Result<(), AllocError> {
    let what = table_words(place);
    write!(
        out,
        "\n  {key} is a key of {what}: in a file a key belongs to the last [[..]] above it.\n"
    )
}

// The place of the item that a line stands in, or the model itself.
fn place_above(place: Place) -> Place {
    match place {
        Place::Need(item, _) | Place::Usage(item, _) => Place::Item(item),
        _ => Place::Root,
    }
}

// Adds where a known key belongs that stands in a table which can't have it.
fn add_elsewhere(out: &mut String, key: Key, place: Place) -> Result<bool, AllocError> {
    if is_later(key) && is_among(keys_at(place), key) {
        add_mend(
            out,
            "It is known from version 2 on: write version = 2 at the top.",
        )?;
        return Ok(true);
    }
    let above = place_above(place);
    if is_among(keys_at(above), key) {
        add_misplaced(out, key, above)?;
        return Ok(true);
    }
    Ok(false)
}

// Adds the key that is meant, in place of an unknown one; `lead` and its like want the second version too.
fn add_meant(out: &mut String, key: Key, first: bool) -> Result<(), AllocError> {
    if first && is_later(key) {
        write!(out, " Did you mean {key}? It wants version = 2.\n")
    } else {
        write!(out, " Did you mean {key}?\n")
    }
}

// Adds how to mend a key that isn't known.
fn add_right_key(
    alloc: Global,
    out: &mut String,
    word: &str,
    place: Place,
    first: bool,
) -> Result<(), AllocError> {
    if let Some(key) = meant(word, place) {
        return add_meant(out, key, first);
    }
    if let Some(key) = key_of(word)
        && add_elsewhere(out, key, place)?
    {
        return Ok(());
    }
    match nearest_key(alloc, word, keys_at(place))? {
        Some(key) => add_meant(out, key, first),
        None => add_keys(out, place, first),
    }
}

/// Adds which key isn't known, and what is meant.
pub fn add_unknown(
    alloc: Global,
    out: &mut String,
    model: ModelFile,
    refusal: Refusal,
) -> Result<bool, AllocError> {
    let place = refusal.place;
    let first = is_first(model);
    let Some(table) = model.table_at(place) else {
        return Ok(false);
    };
    let Some(word) = unknown_in(table, place, first) else {
        return Ok(false);
    };
    add_head(out, model, place, word)?;
    let name = Name(word);
    write!(out, "the key {name} isn't known here.")?;
    add_right_key(alloc, out, word, place, first)?;
    Ok(true)
}

// How to write a key that is missing.
fn how_to_write(place: Place, key: Key) -> &'static str {
    match (place, key) {
        (_, Key::Version) => "Write version = 2 in the first line, above all [[..]].",
        (_, Key::Periods) => "Write how many there are, as periods = 12, above all [[..]].",
        (Place::Root, _) => "Each item stands below a line [[item]].",
        (_, Key::Item) => "Each line of needs says which item is needed, as item = \"NAME\".",
        (_, Key::Resource) => {
            "Each line of uses says which resource is used, as resource = \"NAME\"."
        }
        (_, Key::Name) => "Each item and each resource has a name, as name = \"NAME\".",
        (_, Key::Quantity) => "Write how many units go into one, as quantity = 1.",
        _ => "Write one number for all periods, or a list with one for each.",
    }
}

/// Adds which key is missing.
pub fn add_missing(
    out: &mut String,
    model: ModelFile,
    refusal: Refusal,
) -> Result<bool, AllocError> {
    let Some(key) = refusal.key else {
        return Ok(false);
    };
    if model.text.trim().is_empty() {
        add_head(out, model, Place::Root, "")?;
        out.push_str("the file is empty.\n")?;
        return Ok(true);
    }
    add_head(out, model, refusal.place, "")?;
    write!(out, "{key} is missing.")?;
    add_mend(out, how_to_write(refusal.place, key))?;
    Ok(true)
}
