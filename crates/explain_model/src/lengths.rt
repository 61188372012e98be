// Lists that don't have a number for each period.
use explain_source::{ModelFile, Refusal, add_head, add_mend, number_at};
use lot_draft::Key;
use std::alloc::AllocError;
use toml::{Table, Value};

// How many lists are as long as one, and how many are not.
#[derive(Clone, Copy)]
struct Alike {
    same: usize,
    others: usize,
}

// Whether a key has numbers by periods.
fn is_by_period(word: &str) -> bool {
    matches!(
        word,
        "capacity" | "demand" | "unit_cost" | "setup_cost" | "hold_cost" | "backlog_cost"
    )
}

// Counts a list that is or isn't as long as one.
fn with_list(alike: Alike, length: usize, same: bool) -> Alike {
    let Alike { same: old, others } = alike;
    if same && length > 0 {
        Alike {
            same: old.saturating_add(1),
            others,
        }
    } else {
        Alike {
            same: old,
            others: others.saturating_add(1),
        }
    }
}

// Counts the lists of a table.
fn with_table(alike: Alike, table: &Table, length: usize) -> Alike {
    let mut counted = alike;
    for (key, value) in table.iter() {
        if is_by_period(key.as_str())
            && let Some(list) = value.as_array()
        {
            counted = with_list(counted, length, list.len() == length);
        }
    }
    counted
}

// Counts the lists of all tables of a list.
fn with_tables(alike: Alike, tables: &[Value], length: usize) -> Alike {
    let mut counted = alike;
    for value in tables {
        if let Some(table) = value.as_table() {
            counted = with_table(counted, table, length);
        }
    }
    counted
}

// Whether all lists of a model, of which there are several, are as long as one.
fn are_alike(model: ModelFile, length: usize) -> bool {
    let none = Alike { same: 0, others: 0 };
    let counted = with_tables(none, model.resources(), length);
    let counted = with_tables(counted, model.items(), length);
    counted.same >= 2 && counted.others == 0
}

// Adds what to do about a list of another length.
fn add_right_length(out: &mut String, model: ModelFile, length: usize) -> Result<(), AllocError> {
    if are_alike(model, length) {
        write!(
            out,
            "\n  All lists have {length}: is it periods = {length}?\n"
        )
    } else {
        add_mend(
            out,
            "One number alone, without brackets, stands for all periods.",
        )
    }
}

// How many numbers there are, in words.
fn numbers(length: usize) -> &'static str {
    if length == 1 { "number" } else { "numbers" }
}

/// Adds how many numbers a list has, and how many it should have.
pub fn add_length(
    out: &mut String,
    model: ModelFile,
    refusal: Refusal,
) -> Result<bool, AllocError> {
    let Some(key) = refusal.key else {
        return Ok(false);
    };
    let Some(value) = model.value_at(refusal.place, key) else {
        return Ok(false);
    };
    let (Some(list), Some(periods)) = (value.as_array(), number_at(model.table, Key::Periods))
    else {
        return Ok(false);
    };
    let length = list.len();
    add_head(out, model, refusal.place, key.name())?;
    let numbers = numbers(length);
    write!(
        out,
        "{key} has {length} {numbers}, and periods = {periods} asks for {periods}."
    )?;
    add_right_length(out, model, length)?;
    Ok(true)
}
