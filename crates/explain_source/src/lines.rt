// The lines of a model file at which tables and keys stand.
use lot_draft::{Key, Place};

// Where a reader of the lines is: how many tables came, those of lines within the last item, and the table of
// this line.
#[derive(Clone, Copy)]
struct Section {
    resources: u32,
    items: u32,
    needs: u32,
    uses: u32,
    place: Place,
}

// The name that stands before the first closing bracket, if it has letters and no blanks.
fn name_before_bracket(text: &str) -> Option<&str> {
    match text.split_once(']') {
        Some((name, _)) => {
            let name = name.trim();
            if name.chars().any(|ch| ch.is_ascii_alphabetic()) && !name.contains(' ') {
                Some(name)
            } else {
                None
            }
        }
        None => None,
    }
}

// The name in the brackets of a line that begins a table.
fn header_of(line: &str) -> Option<&str> {
    match line.trim().strip_prefix('[') {
        Some(rest) => match rest.strip_prefix('[') {
            Some(inner) => name_before_bracket(inner),
            None => name_before_bracket(rest),
        },
        None => None,
    }
}

// Goes on to a table of this name.
fn begin_table(section: &mut Section, name: &str) {
    match name {
        "resource" => {
            section.resources = section.resources.saturating_add(1);
            section.place = Place::Resource(section.resources);
        }
        "item" => {
            section.items = section.items.saturating_add(1);
            section.needs = 0;
            section.uses = 0;
            section.place = Place::Item(section.items);
        }
        "item.needs" => {
            section.needs = section.needs.saturating_add(1);
            section.place = Place::Need(section.items, section.needs);
        }
        "item.uses" => {
            section.uses = section.uses.saturating_add(1);
            section.place = Place::Usage(section.items, section.uses);
        }
        _ => {}
    }
}

// Whether a key stands at the beginning of a line.
fn has_key(line: &str, key: &str) -> bool {
    match line.trim_start().strip_prefix(key) {
        Some(rest) => rest.trim_start().starts_with('='),
        None => false,
    }
}

// The number of the line, from 1 on, at which a key of a place stands; where the key isn't found, that at which the
// place begins.
fn line_of_key(text: &str, place: Place, key: &str) -> Option<usize> {
    let mut section = Section {
        resources: 0,
        items: 0,
        needs: 0,
        uses: 0,
        place: Place::Root,
    };
    let mut header = None;
    let mut number = 0usize;
    for line in text.lines() {
        number = number.saturating_add(1);
        if let Some(name) = header_of(line) {
            if place == Place::Root && name == key {
                return Some(number);
            }
            begin_table(&mut section, name);
            if section.place == place && header.is_none() {
                header = Some(number);
            }
        }
        if section.place == place && has_key(line, key) {
            return Some(number);
        }
    }
    header
}

// How many tables in braces begin within a line.
fn tables_in(line: &str) -> u32 {
    let mut count = 0u32;
    for ch in line.chars() {
        if ch == '#' {
            return count;
        }
        if ch == '{' {
            count = count.saturating_add(1);
        }
    }
    count
}

// The number of the line, from this one on, at which the nth table in braces begins.
fn line_of_table(text: &str, first: usize, n: u32) -> Option<usize> {
    let mut count = 0u32;
    let mut number = 0usize;
    for line in text.lines() {
        number = number.saturating_add(1);
        if number >= first {
            count = count.saturating_add(tables_in(line));
            if count >= n {
                return Some(number);
            }
        }
    }
    None
}

// The same of a line in the list under a key of an item.
fn line_in_list(text: &str, item: u32, key: Key, line: u32) -> Option<usize> {
    match line_of_key(text, Place::Item(item), key.name()) {
        Some(first) => line_of_table(text, first, line),
        None => None,
    }
}

/// The number of the line, from 1 on, at which a key of a place stands, or the place itself where the key isn't
/// found.
pub fn line_of(text: &str, place: Place, key: &str) -> Option<usize> {
    match (line_of_key(text, place, key), place) {
        (Some(line), _) => Some(line),
        (None, Place::Need(item, line)) => line_in_list(text, item, Key::Needs, line),
        (None, Place::Usage(item, line)) => line_in_list(text, item, Key::Uses, line),
        _ => None,
    }
}
