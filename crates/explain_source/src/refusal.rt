// The line that the program prints on a model that it refuses.
use lot_draft::{Key, ModelCode, Place};
use std::alloc::{AllocError, Global};

// The keys of models.
const KEYS: [Key; 22] = [
    Key::Version,
    Key::Periods,
    Key::Resource,
    Key::Item,
    Key::Name,
    Key::Capacity,
    Key::Demand,
    Key::UnitCost,
    Key::SetupCost,
    Key::HoldCost,
    Key::BacklogCost,
    Key::Opening,
    Key::EndMin,
    Key::EndMax,
    Key::Lead,
    Key::MinLot,
    Key::MaxLot,
    Key::Needs,
    Key::Uses,
    Key::Quantity,
    Key::Unit,
    Key::Setup,
];

/// What such a line says. Resources, items, lines and periods are counted from 1.
#[derive(Clone, Copy)]
pub struct Refusal {
    /// The rule that is broken.
    pub code: ModelCode,
    /// Where.
    pub place: Place,
    /// The key at fault, where one is named.
    pub key: Option<Key>,
    /// The number of a list at fault, where one is named.
    pub period: Option<u32>,
}

// The code of a word.
fn code_of(word: &str) -> Option<ModelCode> {
    match word {
        "M1" => Some(ModelCode::NotToml),
        "M2" => Some(ModelCode::UnknownKey),
        "M3" => Some(ModelCode::MissingKey),
        "M4" => Some(ModelCode::WrongKind),
        "M5" => Some(ModelCode::OutOfRange),
        "M6" => Some(ModelCode::WrongLength),
        "M7" => Some(ModelCode::BadName),
        "M8" => Some(ModelCode::RepeatedName),
        "M9" => Some(ModelCode::UnknownName),
        "M10" => Some(ModelCode::Cycle),
        "M11" => Some(ModelCode::BacklogOnComponent),
        "M12" => Some(ModelCode::QuantityBound),
        "M13" => Some(ModelCode::EndsCrossed),
        "M14" => Some(ModelCode::Version),
        "M15" => Some(ModelCode::LotsCrossed),
        _ => None,
    }
}

// The word at a place of a line, or no letter where there is none.
fn word_at<'a>(words: &[&'a str], at: usize) -> &'a str {
    match words.get(at) {
        Some(word) => *word,
        None => "",
    }
}

// The number at a place of a line.
fn number_at(words: &[&str], at: usize) -> Option<u32> {
    word_at(words, at).parse::<u32>().ok()
}

// The place that a line names from its fourth word on, and how many words name it; the model itself where it names none.
fn place_of(words: &[&str]) -> (Place, usize) {
    match (word_at(words, 3), number_at(words, 4)) {
        ("resource", Some(resource)) => (Place::Resource(resource), 2),
        ("item", Some(item)) => place_in_item(words, item),
        _ => (Place::Root, 1),
    }
}

// The same within an item: `needs` and `uses` are lines where a number follows, and else a key.
fn place_in_item(words: &[&str], item: u32) -> (Place, usize) {
    match (word_at(words, 5), number_at(words, 6)) {
        ("needs", Some(line)) => (Place::Need(item, line), 4),
        ("uses", Some(line)) => (Place::Usage(item, line), 4),
        _ => (Place::Item(item), 2),
    }
}

/// The key that a word is.
pub fn key_of(word: &str) -> Option<Key> {
    for key in KEYS {
        if key.name() == word {
            return Some(key);
        }
    }
    None
}

// The period that a line names after its key.
fn period_of(words: &[&str], at: usize) -> Option<u32> {
    if word_at(words, at) == "period" {
        number_at(words, at.saturating_add(1))
    } else {
        None
    }
}

// What the words of a line say.
fn refusal_of(words: &[&str]) -> Option<Refusal> {
    if word_at(words, 0) != "refused" || word_at(words, 1) != "model" {
        return None;
    }
    let code = code_of(word_at(words, 2))?;
    let (place, used) = place_of(words);
    let after = used.saturating_add(3);
    Some(Refusal {
        code,
        place,
        key: key_of(word_at(words, after)),
        period: period_of(words, after.saturating_add(1)),
    })
}

/// What a line says, if it is one on a model.
pub fn read_refusal(alloc: Global, line: &str) -> Result<Option<Refusal>, AllocError> {
    let words = line.split_whitespace().collect::<Vec<&str>>(alloc)?;
    Ok(refusal_of(words.as_slice()))
}
