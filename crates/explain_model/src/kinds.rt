// Values of another kind than their key asks for.
use explain_source::{ModelFile, Refusal, add_head, add_mend, cut, element};
use lot_draft::{Key, Place};
use std::alloc::AllocError;
use toml::Value;

// What a key asks for.
#[derive(Clone, Copy, PartialEq, Eq)]
enum Asked {
    Tables,
    Text,
    List,
    Number,
}

// What a key of a place asks for.
fn asked_by(place: Place, key: Key) -> Asked {
    match (place, key) {
        (Place::Root, Key::Item | Key::Resource) => Asked::Tables,
        (_, Key::Needs | Key::Uses) => Asked::Tables,
        (_, Key::Name | Key::Item | Key::Resource) => Asked::Text,
        (_, Key::Capacity | Key::Demand | Key::UnitCost | Key::SetupCost) => Asked::List,
        (_, Key::HoldCost | Key::BacklogCost) => Asked::List,
        _ => Asked::Number,
    }
}

// What a value is, for a reader.
fn kind_of(value: &Value) -> &'static str {
    match value {
        Value::String(_) => "a text",
        Value::Integer(_) => "a number",
        Value::Float(_) => "a number with a point",
        Value::Boolean(_) => "a truth value",
        Value::Datetime(_) => "a date or a time",
        Value::Array(_) => "a list",
        Value::Table(_) => "a table",
    }
}

// Adds what a value is; a text or a number with a point is shown too.
fn add_value(out: &mut String, value: &Value) -> Result<(), AllocError> {
    let kind = kind_of(value);
    match value {
        Value::String(text) => {
            let text = cut(text.as_str());
            write!(out, "is \"{text}\", {kind}")
        }
        Value::Integer(_) | Value::Float(_) => write!(out, "is {value}, {kind}"),
        _ => write!(out, "is {kind}"),
    }
}

// What belongs there where a single number does.
fn number_words(value: &Value) -> &'static str {
    match value {
        Value::String(_) => "Write the number without quotes.",
        Value::Float(_) => {
            "Numbers are whole, without a point for decimals or thousands. Choose smaller units, as cents."
        }
        _ => "One whole number belongs there.",
    }
}

// What belongs there where a list does.
fn list_words(value: &Value) -> &'static str {
    match value {
        Value::String(_) | Value::Float(_) => number_words(value),
        _ => "One whole number for all periods belongs there, or a list with one for each.",
    }
}

// What belongs there where tables do.
fn table_words(place: Place, key: Key) -> &'static str {
    match (place, key) {
        (Place::Root, Key::Item) => "Write [[item]] in two brackets above each item.",
        (Place::Root, _) => "Write [[resource]] in two brackets above each resource.",
        (_, Key::Needs) => "Write needs = [{ item = \"NAME\", quantity = 1 }].",
        _ => "Write uses = [{ resource = \"NAME\", unit = 1, setup = 1 }].",
    }
}

// What belongs under a key, or into its list.
fn mend_words(value: &Value, refusal: Refusal, key: Key) -> &'static str {
    if refusal.period.is_some() {
        return number_words(value);
    }
    let place = refusal.place;
    match asked_by(place, key) {
        Asked::Tables => table_words(place, key),
        Asked::Text => "A name belongs there, in quotes.",
        Asked::List => list_words(value),
        Asked::Number => number_words(value),
    }
}

/// Adds ` of period T` where there is one.
pub fn add_period(out: &mut String, period: Option<u32>) -> Result<(), AllocError> {
    match period {
        Some(period) => write!(out, " of period {period}"),
        None => Ok(()),
    }
}

/// Adds what a value is, and what belongs there.
pub fn add_kind(out: &mut String, model: ModelFile, refusal: Refusal) -> Result<bool, AllocError> {
    let Some(key) = refusal.key else {
        return Ok(false);
    };
    let Some(value) = model.value_at(refusal.place, key) else {
        return Ok(false);
    };
    let Some(value) = element(value, refusal.period) else {
        return Ok(false);
    };
    add_head(out, model, refusal.place, key.name())?;
    write!(out, "{key}")?;
    add_period(out, refusal.period)?;
    out.push_str(" ")?;
    add_value(out, value)?;
    out.push_str(".")?;
    add_mend(out, mend_words(value, refusal, key))?;
    Ok(true)
}
