// Components that may be late, and amounts that can't be counted.
use explain_source::{ModelFile, Name, Refusal, add_head, name_of, needs_of, part_of};
use lot_draft::Key;
use lot_sizing::limits::MAX_TOTAL;
use std::alloc::AllocError;
use toml::Value;

// Whether an item needs another one.
fn needs_it(item: &Value, name: &str) -> bool {
    for line in needs_of(item) {
        if part_of(line) == name {
            return true;
        }
    }
    false
}

// The name of the first item that needs another one.
fn user_of<'a>(items: &'a [Value], name: &str) -> Option<&'a str> {
    for item in items {
        if needs_it(item, name) {
            return Some(name_of(item));
        }
    }
    None
}

/// Adds that a component has a backlog cost, and what needs it.
pub fn add_backlog(
    out: &mut String,
    model: ModelFile,
    refusal: Refusal,
) -> Result<bool, AllocError> {
    let Some(name) = model.name_at(refusal.place) else {
        return Ok(false);
    };
    let Some(user) = user_of(model.items(), name) else {
        return Ok(false);
    };
    add_head(out, model, refusal.place, Key::BacklogCost.name())?;
    let user = Name(user);
    write!(
        out,
        "{user} needs it, so it may not be late: take backlog_cost out.\n  Where it is also sold, make an item for sale that needs one unit of it.\n"
    )?;
    Ok(true)
}

/// Adds that more of an item may be needed than can be counted.
pub fn add_total(out: &mut String, model: ModelFile, refusal: Refusal) -> Result<bool, AllocError> {
    add_head(out, model, refusal.place, "")?;
    write!(
        out,
        "more than {MAX_TOTAL} units may be needed, by demand times the quantities of needs.\n  Choose larger units.\n"
    )?;
    Ok(true)
}
