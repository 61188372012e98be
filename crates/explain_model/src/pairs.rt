// Pairs of numbers of which the first is above the second, and versions.
use explain_source::{ModelFile, Refusal, add_head, number_at};
use instance_reader::NEWEST_VERSION;
use lot_draft::Key;
use std::alloc::AllocError;

/// Adds that the number under one key is above that under another.
pub fn add_pair(
    out: &mut String,
    model: ModelFile,
    refusal: Refusal,
    least: Key,
    most: Key,
) -> Result<bool, AllocError> {
    let place = refusal.place;
    let Some(table) = model.table_at(place) else {
        return Ok(false);
    };
    let (Some(low), Some(high)) = (number_at(table, least), number_at(table, most)) else {
        return Ok(false);
    };
    add_head(out, model, place, least.name())?;
    write!(out, "{least} is {low}, above {most}, which is {high}.\n")?;
    Ok(true)
}

/// Adds which version there is, and which there may be.
pub fn add_version(
    out: &mut String,
    model: ModelFile,
    refusal: Refusal,
) -> Result<bool, AllocError> {
    let Some(version) = model.version() else {
        return Ok(false);
    };
    add_head(out, model, refusal.place, Key::Version.name())?;
    if version == i64::from(NEWEST_VERSION) {
        write!(
            out,
            "version is {version}, the newest one: only a model of version 1 can be upgraded.\n"
        )?;
    } else {
        write!(
            out,
            "version is {version}; it may be 1 or 2. Write version = 2.\n"
        )?;
    }
    Ok(true)
}
