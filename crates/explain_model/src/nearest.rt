// The known word that is nearest to one that isn't known.
use explain_source::name_of;
use lot_draft::Key;
use std::alloc::{AllocError, Global};
use toml::Value;

// Words of more bytes are compared with none.
const MOST_BYTES: usize = 64;

/// A word of a list, by its place there, and by how many edits it is apart.
#[derive(Clone, Copy)]
pub struct Near {
    at: usize,
    edits: usize,
}

// A word in small letters.
fn small(alloc: Global, word: &str) -> Result<String, AllocError> {
    word.chars()
        .map(|ch| ch.to_ascii_lowercase())
        .collect(alloc)
}

// The most edits at which a word of so many bytes is taken for another one.
fn most_edits(length: usize) -> usize {
    if length <= 3 { 1 } else { 2 }
}

// How many edits two words are apart, but for capital letters, if they are few.
fn edits(alloc: Global, word: &str, known: &str) -> Result<Option<usize>, AllocError> {
    if word.len() > MOST_BYTES || known.len() > MOST_BYTES {
        return Ok(None);
    }
    let word = small(alloc, word)?;
    let known = small(alloc, known)?;
    let edits = strsim::osa_distance(alloc, word.as_str(), known.as_str())?;
    if edits <= most_edits(word.len()) && edits < known.len() {
        Ok(Some(edits))
    } else {
        Ok(None)
    }
}

// The nearer one of two words, the first where both are as near.
fn nearer(best: Option<Near>, at: usize, edits: Option<usize>) -> Option<Near> {
    match (best, edits) {
        (Some(near), Some(edits)) => {
            if edits < near.edits {
                Some(Near { at, edits })
            } else {
                best
            }
        }
        (None, Some(edits)) => Some(Near { at, edits }),
        _ => best,
    }
}

/// The nearest one of keys.
pub fn nearest_key(alloc: Global, word: &str, keys: &[Key]) -> Result<Option<Key>, AllocError> {
    let mut best = None;
    let mut at = 0usize;
    for key in keys {
        best = nearer(best, at, edits(alloc, word, key.name())?);
        at = at.saturating_add(1);
    }
    match best {
        Some(near) => Ok(keys.get(near.at).copied()),
        None => Ok(None),
    }
}

/// The place in a list of tables of the one whose name is nearest to a word.
pub fn nearest_name(
    alloc: Global,
    word: &str,
    list: &[Value],
) -> Result<Option<usize>, AllocError> {
    let mut best = None;
    let mut at = 0usize;
    for value in list {
        best = nearer(best, at, edits(alloc, word, name_of(value))?);
        at = at.saturating_add(1);
    }
    match best {
        Some(near) => Ok(Some(near.at)),
        None => Ok(None),
    }
}
