// What stands in a line that was printed.

/// The word at a place of a line, counted from 0; nothing where there are fewer.
pub fn word_at(line: &str, place: usize) -> &str {
    let mut number = 0usize;
    for word in line.split_whitespace() {
        if number == place {
            return word;
        }
        number = number.saturating_add(1);
    }
    ""
}

/// The number that a text writes in decimal digits.
pub fn number_of(text: &str) -> Option<u128> {
    match text.parse::<u128>() {
        Ok(number) => Some(number),
        Err(_) => None,
    }
}

/// The number at a place of a line.
pub fn number_at(line: &str, place: usize) -> Option<u128> {
    number_of(word_at(line, place))
}

/// The number at a place of a line, where it may be that of an item, a resource, a period or a record; else 0, which is none's.
pub fn place_at(line: &str, place: usize) -> u32 {
    match number_at(line, place) {
        Some(number) => u32::try_from(number).unwrap_or(0),
        None => 0,
    }
}

/// The first line of a text that begins with this word; nothing where there is none.
pub fn line_with<'a>(text: &'a str, word: &str) -> &'a str {
    for line in text.lines() {
        if word_at(line, 0) == word {
            return line;
        }
    }
    ""
}
