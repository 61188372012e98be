// Words on a command line that was refused by `refused words`.

use command_line::{LARGEST_BUDGET, LARGEST_SECONDS, NEWEST_CERTIFICATE, OLDEST_CERTIFICATE};
use explain_lookup::plain;
use instance_reader::FIRST_VERSION_PERIODS;
use lot_sizing::limits::MAX_ITEMS;
use std::alloc::{AllocError, Global};

// A number that a command takes: what it is, to begin a sentence, and its bounds.
#[derive(Clone, Copy)]
struct Bounds {
    what: &'static str,
    least: u64,
    most: u64,
}

const NODES: Bounds = Bounds {
    what: "The number behind `--nodes`",
    least: 1,
    most: LARGEST_BUDGET,
};

const SECONDS: Bounds = Bounds {
    what: "The number behind `--seconds`",
    least: 1,
    most: LARGEST_SECONDS,
};

const CERTIFICATE: Bounds = Bounds {
    what: "The number behind `--certificate`",
    least: OLDEST_CERTIFICATE as u64,
    most: NEWEST_CERTIFICATE as u64,
};

// The whole part of a percentage.
const PERCENT: Bounds = Bounds {
    what: "The percentage",
    least: 0,
    most: 100,
};

const SEED: Bounds = Bounds {
    what: "The seed",
    least: 0,
    most: u64::MAX,
};

const ITEMS: Bounds = Bounds {
    what: "The number of items",
    least: 1,
    most: MAX_ITEMS as u64,
};

const PERIODS: Bounds = Bounds {
    what: "The number of periods",
    least: 1,
    most: FIRST_VERSION_PERIODS as u64,
};

const KEPT: Bounds = Bounds {
    what: "The number of periods that stay",
    least: 0,
    most: u32::MAX as u64,
};

// The numbers of a command, by its name and the place of a word behind that name.
fn bounds_of(command: &str, place: usize) -> Option<Bounds> {
    match (command, place) {
        ("gen", 1) | ("demo", 1) => Some(SEED),
        ("gen", 2) => Some(ITEMS),
        ("gen", 3) => Some(PERIODS),
        ("replan", 3) => Some(KEPT),
        _ => None,
    }
}

// Whether a word is a whole number in digits, with no 0 before others, within bounds.
fn is_within(word: &str, bounds: Bounds) -> bool {
    let is_plain = word.bytes().all(|byte| byte.is_ascii_digit())
        && (word.len() == 1 || !word.starts_with('0'));
    match word.parse::<u64>() {
        Ok(number) => is_plain && bounds.least <= number && number <= bounds.most,
        Err(_) => false,
    }
}

// Words on a number that isn't within its bounds; none where it is.
fn on_number(alloc: Global, word: &str, bounds: Bounds) -> Result<Option<String>, AllocError> {
    if is_within(word, bounds) {
        return Ok(None);
    }
    let (what, least, most) = (bounds.what, bounds.least, bounds.most);
    let shown = plain(alloc, word)?;
    let words = format!(in alloc;
        "{what} is a whole number from {least} to {most}, in digits alone and without a 0 in front; `{shown}` stands there.\n"
    )?;
    Ok(Some(words))
}

// The words that are no options and no values of them, with the command's name first.
fn plain_words<'a>(alloc: Global, words: &'a [String]) -> Result<Vec<&'a str>, AllocError> {
    let mut found: Vec<&'a str> = Vec::new(alloc);
    let mut is_value = false;
    for word in words {
        let word = word.as_str();
        if !is_value && !word.starts_with('-') {
            found.push(word)?;
        }
        is_value = word.starts_with("--") && word != "--progress" && !word.contains('=');
    }
    Ok(found)
}

// What an option takes: a whole number, or a percentage.
#[derive(Clone, Copy)]
enum Form {
    Whole(Bounds),
    Percent,
}

// What options take, by their names.
fn form_of(name: &str) -> Option<Form> {
    match name {
        "--nodes" => Some(Form::Whole(NODES)),
        "--seconds" => Some(Form::Whole(SECONDS)),
        "--certificate" => Some(Form::Whole(CERTIFICATE)),
        "--gap" => Some(Form::Percent),
        _ => None,
    }
}

// Whether a text is a percentage of at most 100 with a whole part and these decimals.
fn is_percentage(whole: &str, decimals: &str) -> bool {
    let are_digits = decimals.bytes().all(|byte| byte.is_ascii_digit());
    let is_in = whole != "100" || decimals.bytes().all(|byte| byte == b'0');
    let length = decimals.len();
    is_within(whole, PERCENT) && is_in && are_digits && 1 <= length && length <= 2
}

// Words on a percentage that isn't one, or is too large; none where it is.
fn on_percentage(alloc: Global, word: &str) -> Result<Option<String>, AllocError> {
    let is_one = match word.split_once('.') {
        Some((whole, decimals)) => is_percentage(whole, decimals),
        None => is_within(word, PERCENT),
    };
    if is_one {
        return Ok(None);
    }
    let shown = plain(alloc, word)?;
    let words = format!(in alloc;
        "The number behind `--gap` is a percentage from 0 to 100, with one or two digits behind a point or none; `{shown}` stands there.\n"
    )?;
    Ok(Some(words))
}

// Words on the value of an option that isn't what it takes; none where it is.
fn on_value(alloc: Global, word: &str, form: Form) -> Result<Option<String>, AllocError> {
    match form {
        Form::Whole(bounds) => on_number(alloc, word, bounds),
        Form::Percent => on_percentage(alloc, word),
    }
}

// Words on the value of an option that stands in one word with it, where it isn't what the option takes.
fn on_joined(alloc: Global, word: &str) -> Result<Option<String>, AllocError> {
    let Some((name, value)) = word.split_once('=') else {
        return Ok(None);
    };
    match form_of(name) {
        Some(form) => on_value(alloc, value, form),
        None => Ok(None),
    }
}

// Words on the first value that isn't what its option takes.
fn on_options(alloc: Global, words: &[String]) -> Result<Option<String>, AllocError> {
    let mut before = "";
    for word in words {
        let word = word.as_str();
        let found = match form_of(before) {
            Some(form) => on_value(alloc, word, form)?,
            None => on_joined(alloc, word)?,
        };
        if found.is_some() {
            return Ok(found);
        }
        before = word;
    }
    Ok(None)
}

// Words on the first number among plain words that is out of its bounds.
fn on_numbers(alloc: Global, words: &[&str]) -> Result<Option<String>, AllocError> {
    let command = words.first().copied().unwrap_or("");
    for (place, word) in words.iter().enumerate() {
        if let Some(bounds) = bounds_of(command, place) {
            if let Some(found) = on_number(alloc, *word, bounds)? {
                return Ok(Some(found));
            }
        }
    }
    Ok(None)
}

// Whether a word stands again further on.
fn stands_again(words: &[&str], place: usize, word: &str) -> bool {
    words
        .iter()
        .skip(place.saturating_add(1))
        .any(|other| *other == word)
}

// Words on the first name that is empty or stands there twice.
fn on_names(alloc: Global, words: &[&str]) -> Result<Option<String>, AllocError> {
    for (place, word) in words.iter().enumerate().skip(1) {
        let word = *word;
        if word.is_empty() {
            return Ok(Some(String::from_str(alloc, "A name of a file is empty.\n")?));
        }
        if stands_again(words, place, word) {
            let shown = plain(alloc, word)?;
            let words = format!(in alloc;
                "`{shown}` stands there twice: each file of a command has a name of its own.\n"
            )?;
            return Ok(Some(words));
        }
    }
    Ok(None)
}

/// Words on a command line whose words make a command, but for a name or a number; none where none of them shows a fault.
pub(crate) fn on_words(alloc: Global, words: &[String]) -> Result<String, AllocError> {
    if let Some(found) = on_options(alloc, words)? {
        return Ok(found);
    }
    let words = plain_words(alloc, words)?;
    if let Some(found) = on_numbers(alloc, words.as_slice())? {
        return Ok(found);
    }
    match on_names(alloc, words.as_slice())? {
        Some(found) => Ok(found),
        None => Ok(String::new(alloc)),
    }
}
