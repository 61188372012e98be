// The keys of texts, cases and runs, and what stands under them.
use crate::fault::Fault;
use std::alloc::Global;
use toml::{Table, Value};

/// The keys of a case or of a later run. Those of a variation stand before those of its case.
#[derive(Clone, Copy, Drop)]
pub struct Keys<'a> {
    pub first: &'a Table,
    pub second: Option<&'a Table>,
}

impl<'a> Keys<'a> {
    /// What stands under a key.
    pub fn get(self, key: &str) -> Option<&'a Value> {
        match self.first.get(key) {
            Some(value) => Some(value),
            None => match self.second {
                Some(table) => table.get(key),
                None => None,
            },
        }
    }

    /// Whether `true` stands under a key.
    pub fn is_set(self, key: &'static str) -> Result<bool, Fault> {
        match self.get(key) {
            Some(value) => value.as_bool().ok_or(Fault::Kind(key)),
            None => Ok(false),
        }
    }

    /// The text under a key, if the key is there.
    pub fn text(self, key: &'static str) -> Result<Option<&'a str>, Fault> {
        match self.get(key) {
            Some(value) => match value.as_str() {
                Some(text) => Ok(Some(text)),
                None => Err(Fault::Kind(key)),
            },
            None => Ok(None),
        }
    }

    /// The list under a key, which is empty where the key is absent.
    pub fn list(self, key: &'static str) -> Result<&'a [Value], Fault> {
        match self.get(key) {
            Some(value) => list_of(value, key),
            None => Ok(&[]),
        }
    }
}

/// The keys of a table alone.
pub fn keys_of<'a>(value: &'a Value, key: &'static str) -> Result<Keys<'a>, Fault> {
    match value.as_table() {
        Some(first) => Ok(Keys {
            first,
            second: None,
        }),
        None => Err(Fault::Kind(key)),
    }
}

/// The list that a value is.
pub fn list_of<'a>(value: &'a Value, key: &'static str) -> Result<&'a [Value], Fault> {
    match value.as_array() {
        Some(list) => Ok(list.as_slice()),
        None => Err(Fault::Kind(key)),
    }
}

/// The text that a value is.
pub fn text_of<'a>(value: &'a Value, key: &'static str) -> Result<&'a str, Fault> {
    match value.as_str() {
        Some(text) => Ok(text),
        None => Err(Fault::Kind(key)),
    }
}

/// The whole number, not below 0, that a value is.
pub fn number_of(value: &Value, key: &'static str) -> Result<u64, Fault> {
    match value.as_integer() {
        Some(number) if number >= 0 => Ok(number as u64),
        _ => Err(Fault::Kind(key)),
    }
}

// The refusal of a key.
fn unknown(alloc: Global, key: &str) -> Fault {
    match String::from_str(alloc, key) {
        Ok(key) => Fault::Unknown(key),
        Err(_) => Fault::Memory,
    }
}

/// Refuses a table that has another key than these.
pub fn has_only(alloc: Global, table: &Table, known: &[&str]) -> Result<(), Fault> {
    for (key, _value) in table.iter() {
        if !(&*known).contains(&key.as_str()) {
            return Err(unknown(alloc, key.as_str()));
        }
    }
    Ok(())
}

/// Adds the numbers of a list.
pub fn add_numbers(numbers: &mut Vec<u64>, list: &[Value], key: &'static str) -> Result<(), Fault> {
    for value in list {
        numbers.push(number_of(value, key)?)?;
    }
    Ok(())
}

/// Whether a list of texts has this one.
pub fn has_text(list: &[Value], text: &str) -> bool {
    for value in list {
        if value.as_str() == Some(text) {
            return true;
        }
    }
    false
}
