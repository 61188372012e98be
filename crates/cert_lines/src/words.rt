// The words of a line.
ghost use Rattle.std.specs.Prelude.{◌≡◌, ◌≤◌, ◌<◌, ◌↔◌, ◌^◌, ℕ, ℤ, unsigned_abs, IfOk, IfSome, IsNone, IsTrue, decimal, length, map};
ghost use Rattle.std.specs.Fmt.{signed_decimal};
ghost use Rattle.cert_lines.specs.Words.{IsSplit, word_at};
ghost use Rattle.cert_lines.specs.Limits.{bound_127};

use crate::head::number_after;
use crate::limits::MOST_127;
use std::alloc::{AllocError, Global};

// The most words of a line without lists, for which there is room at once.
const SHORT_LINE: usize = 5;

/// The words of a line, which are separated by one space: parts of the line itself, so that none is copied.
pub fn split<'a>(alloc: Global, line: &'a [u8]) -> Result<Vec<&'a [u8]>, AllocError>
    ensures { IfOk result (λ words. IsSplit line.now (map (λ w. w.now) words.items)) }
{
    let mut words = Vec::with_capacity(alloc, SHORT_LINE)?;
    words.extend(line.split(|byte| *byte == b' '))?;
    Ok(words)
}

/// Whether a word is this text, which isn't empty.
pub fn is_word(words: &[&[u8]], place: usize, text: &[u8]) -> bool
    requires { 0 < length text.now }
    ensures { IsTrue result ↔ (word_at (map (λ w. w.now) words.now) place ≡ text.now) }
{
    if place >= words.len() {
        return false;
    }
    let word = words[place];
    word == text
}

/// The number that a word is, if it lies between these.
pub fn number_at(words: &[&[u8]], place: usize, least: u128, most: u128) -> Option<u128>
    ensures some { IfSome result (λ n. (word_at (map (λ w. w.now) words.now) place ≡ decimal n)
        × (least ≤ n) × (n ≤ most)) }
    ensures none { IsNone result → (n : ℕ) → least ≤ n → n ≤ most
        → word_at (map (λ w. w.now) words.now) place ≡ decimal n → ⊥ }
{
    if place >= words.len() {
        return None;
    }
    let word = words[place];
    match number_after(word, &[], most) {
        Some(number) => {
            if number < least {
                return None;
            }
            Some(number)
        }
        None => None,
    }
}

/// The number with its sign that a word is, if its absolute value is below 2^127.
pub fn integer_at(words: &[&[u8]], place: usize) -> Option<i128>
    ensures some { IfSome result (λ z.
        (word_at (map (λ w. w.now) words.now) place ≡ signed_decimal z)
        × (unsigned_abs z < bound_127)) }
    ensures none { IsNone result → (z : ℤ) → unsigned_abs z < bound_127
        → word_at (map (λ w. w.now) words.now) place ≡ signed_decimal z → ⊥ }
{
    if let Some(number) = number_at(words, place, 0, MOST_127) {
        return Some(number as i128);
    }
    if place >= words.len() {
        return None;
    }
    let word = words[place];
    match number_after(word, b"-", MOST_127) {
        Some(number) => {
            if number == 0 {
                return None;
            }
            Some(-(number as i128))
        }
        None => None,
    }
}
