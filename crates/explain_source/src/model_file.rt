// A model file whose text is a TOML document, and what stands at the places of a model.
use lot_draft::{Key, Place};
use toml::{Table, Value};

/// A model file that is a document.
#[derive(Clone, Copy, Drop)]
pub struct ModelFile<'a> {
    /// Its name.
    pub file: &'a str,
    /// Its text.
    pub text: &'a str,
    /// The table of its text.
    pub table: &'a Table,
}

/// The value under a key of a table.
pub fn value_at<'a>(table: &'a Table, key: Key) -> Option<&'a Value> {
    table.get(key.name())
}

/// The list under a key of a table, which is empty where there is none.
pub fn list_at<'a>(table: &'a Table, key: Key) -> &'a [Value] {
    match value_at(table, key) {
        Some(value) => match value.as_array() {
            Some(list) => list.as_slice(),
            None => &[],
        },
        None => &[],
    }
}

/// The text under a key of a table.
pub fn text_at<'a>(table: &'a Table, key: Key) -> Option<&'a str> {
    match value_at(table, key) {
        Some(value) => value.as_str(),
        None => None,
    }
}

/// The whole number under a key of a table.
pub fn number_at(table: &Table, key: Key) -> Option<i64> {
    match value_at(table, key) {
        Some(value) => value.as_integer(),
        None => None,
    }
}

/// Element n of a list, counted from 1.
pub fn nth<'a>(list: &'a [Value], n: u32) -> Option<&'a Value> {
    match n.checked_sub(1) {
        Some(at) => list.get(at as usize),
        None => None,
    }
}

/// Table n of a list, counted from 1.
pub fn table_in<'a>(list: &'a [Value], n: u32) -> Option<&'a Table> {
    match nth(list, n) {
        Some(value) => value.as_table(),
        None => None,
    }
}

/// The value of a list for a period, or the value itself where no period is named.
pub fn element<'a>(value: &'a Value, period: Option<u32>) -> Option<&'a Value> {
    match (value.as_array(), period) {
        (Some(list), Some(period)) => nth(list.as_slice(), period),
        _ => Some(value),
    }
}

/// The name of a table, or no letter where it has none.
pub fn name_of(value: &Value) -> &str {
    match value.as_table() {
        Some(table) => text_at(table, Key::Name).unwrap_or(""),
        None => "",
    }
}

/// The lines of components of an item.
pub fn needs_of(item: &Value) -> &[Value] {
    match item.as_table() {
        Some(table) => list_at(table, Key::Needs),
        None => &[],
    }
}

/// The name of the component of a line, or no letter where it has none.
pub fn part_of(line: &Value) -> &str {
    match line.as_table() {
        Some(table) => text_at(table, Key::Item).unwrap_or(""),
        None => "",
    }
}

/// The place in a list of tables of the first one that has a name.
pub fn place_named(list: &[Value], name: &str) -> Option<usize> {
    let mut at = 0usize;
    for value in list {
        if name_of(value) == name {
            return Some(at);
        }
        at = at.saturating_add(1);
    }
    None
}

impl<'a> ModelFile<'a> {
    /// The items.
    pub fn items(self) -> &'a [Value] {
        list_at(self.table, Key::Item)
    }

    /// The resources.
    pub fn resources(self) -> &'a [Value] {
        list_at(self.table, Key::Resource)
    }

    // A line under a key of an item.
    fn line(self, item: u32, key: Key, line: u32) -> Option<&'a Table> {
        match table_in(self.items(), item) {
            Some(table) => table_in(list_at(table, key), line),
            None => None,
        }
    }

    /// The table at a place.
    pub fn table_at(self, place: Place) -> Option<&'a Table> {
        match place {
            Place::Root => Some(self.table),
            Place::Resource(resource) => table_in(self.resources(), resource),
            Place::Item(item) => table_in(self.items(), item),
            Place::Need(item, line) => self.line(item, Key::Needs, line),
            Place::Usage(item, line) => self.line(item, Key::Uses, line),
        }
    }

    /// The name at a place: its own, or that which a line names.
    pub fn name_at(self, place: Place) -> Option<&'a str> {
        match self.table_at(place) {
            Some(table) => text_at(table, name_key(place)),
            None => None,
        }
    }

    /// The value under a key of a place.
    pub fn value_at(self, place: Place, key: Key) -> Option<&'a Value> {
        match self.table_at(place) {
            Some(table) => value_at(table, key),
            None => None,
        }
    }

    /// The version, where it is a whole number.
    pub fn version(self) -> Option<i64> {
        number_at(self.table, Key::Version)
    }
}

/// The key whose value names what stands at a place.
pub fn name_key(place: Place) -> Key {
    match place {
        Place::Need(_, _) => Key::Item,
        Place::Usage(_, _) => Key::Resource,
        _ => Key::Name,
    }
}
