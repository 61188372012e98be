// The parts of a line that are lists.
ghost use Rattle.std.specs.Prelude.{◌≡◌, ◌+◌, ◌≤◌, ◌<◌, ◌^◌, ℕ, IfOk, IfSome, IsNone, Bool, List, codes, length, map};
ghost use Rattle.cert_lines.specs.Text.{bits_text};
ghost use Rattle.cert_lines.specs.Words.{HasWords, HasBlockWords, IsFour, IsListFrom, ls_words, word_at};
ghost use Rattle.cert_lines.specs.Limits.{Is32};
ghost use Rattle.cert_lines.specs.Limits.{bound_127, bound_64};

use crate::limits::{MOST_32, MOST_64, MOST_127};
use crate::words::{is_word, number_at};
use lin_rows::{Potentials, Prices};
use std::alloc::{AllocError, Global};

// The bits of a word.
pub(crate) fn read_bits(alloc: Global, word: &[u8]) -> Result<Option<Vec<bool>>, AllocError>
    ensures some { IfOk result (λ read. IfSome read (λ bits. word.now ≡ bits_text bits.items)) }
    ensures none { IfOk result (λ read. IsNone read → (bits : List Bool) → word.now ≡ bits_text bits
        → ⊥) }
{
    let mut bits = Vec::new(alloc);
    for place in 0..word.len() {
        let byte = word[place];
        if byte == b'1' {
            bits.push(true)?;
        } else if byte == b'0' {
            bits.push(false)?;
        } else {
            return Ok(None);
        }
    }
    Ok(Some(bits))
}

// The numbers of 64 bits from a place on, as many as there are.
pub(crate) fn numbers_from(
    alloc: Global,
    words: &[&[u8]],
    from: usize,
) -> Result<Vec<u64>, AllocError>
    requires { from ≤ length words.now }
    ensures list { IfOk result (λ list.
        IsListFrom (map (λ w. w.now) words.now) bound_64 from list.items) }
    ensures room { IfOk result (λ list. from + length list.items ≤ length words.now) }
{
    let mut list = Vec::new(alloc);
    for place in from..words.len() {
        match number_at(words, place, 0, MOST_64) {
            Some(number) => list.push(number as u64)?,
            None => return Ok(list),
        }
    }
    Ok(list)
}

// The amounts from a place on, as many as there are.
fn amounts_from(alloc: Global, words: &[&[u8]], from: usize) -> Result<Vec<u128>, AllocError>
    requires { from ≤ length words.now }
    ensures list { IfOk result (λ list.
        IsListFrom (map (λ w. w.now) words.now) bound_127 from list.items) }
    ensures room { IfOk result (λ list. from + length list.items ≤ length words.now) }
{
    let mut list = Vec::new(alloc);
    for place in from..words.len() {
        match number_at(words, place, 0, MOST_127) {
            Some(number) => list.push(number)?,
            None => return Ok(list),
        }
    }
    Ok(list)
}

// The numbers after a letter.
fn list_after(
    alloc: Global,
    words: &[&[u8]],
    place: usize,
    letter: &[u8],
) -> Result<Option<Vec<u64>>, AllocError>
    requires { 0 < length letter.now }
    ensures letter { IfOk result (λ read.
        IfSome read (λ list. word_at (map (λ w. w.now) words.now) place ≡ letter.now)) }
    ensures list { IfOk result (λ read.
        IfSome read (λ list.
        IsListFrom (map (λ w. w.now) words.now) bound_64 (place + 1) list.items)) }
    ensures room { IfOk result (λ read.
        IfSome read (λ list. place + 1 + length list.items ≤ length words.now)) }
    ensures none { IfOk result (λ read. IsNone read
        → word_at (map (λ w. w.now) words.now) place ≡ letter.now → ⊥) }
{
    if place >= words.len() {
        return Ok(None);
    }
    if !is_word(words, place, letter) {
        return Ok(None);
    }
    Ok(Some(numbers_from(alloc, words, place + 1)?))
}

// The start that `price` and `block` have in common.
#[derive(Debug, Drop)]
struct Four {
    item: u32,
    first: Vec<u64>,
    unit: Vec<u64>,
    hold: Vec<u64>,
    back: Vec<u64>,
    next: usize,
}

// This start, with the line's first word and the letter of its first list.
fn read_four(
    alloc: Global,
    words: &[&[u8]],
    word: &[u8],
    letter: &[u8],
) -> Result<Option<Four>, AllocError>
    requires word { 0 < length word.now }
    requires letter { 0 < length letter.now }
    ensures some { IfOk result (λ read. IfSome read (λ f.
        IsFour (map (λ w. w.now) words.now) word.now letter.now f.item f.first.items f.unit.items
        f.hold.items f.back.items f.next)) }
    ensures room { IfOk result (λ read. IfSome read (λ f. f.next ≤ length words.now)) }
    ensures none { IfOk result (λ read. IsNone read → (item : ℕ) (xs bs cs ds : List ℕ) (next : ℕ)
        → IsFour (map (λ w. w.now) words.now) word.now letter.now item xs bs cs ds next → ⊥) }
{
    if !is_word(words, 0, word) {
        return Ok(None);
    }
    let Some(item) = number_at(words, 1, 0, MOST_32) else {
        return Ok(None);
    };
    let Some(first) = list_after(alloc, words, 2, letter)? else {
        return Ok(None);
    };
    let place = 3 + first.len();
    let Some(unit) = list_after(alloc, words, place, b"g")? else {
        return Ok(None);
    };
    let after_unit = place + 1 + unit.len();
    let Some(hold) = list_after(alloc, words, after_unit, b"h")? else {
        return Ok(None);
    };
    let after_hold = after_unit + 1 + hold.len();
    let Some(back) = list_after(alloc, words, after_hold, b"b")? else {
        return Ok(None);
    };
    let next = after_hold + 1 + back.len();
    Ok(Some(Four {
        item: item as u32,
        first,
        unit,
        hold,
        back,
        next,
    }))
}

// The line of a cut by prices.
pub(crate) fn read_price(
    alloc: Global,
    words: &[&[u8]],
) -> Result<Option<(u32, Prices)>, AllocError>
    ensures some { IfOk result (λ read. IfSome read (λ p.
        IsFour (map (λ w. w.now) words.now) (codes "price") (codes "w")
        p.0 p.1.price.items p.1.unit.items p.1.hold.items p.1.back.items (length words.now))) }
    ensures none { IfOk result (λ read. IsNone read → (item : ℕ) (xs bs cs ds : List ℕ)
        → IsFour (map (λ w. w.now) words.now) (codes "price") (codes "w")
        item xs bs cs ds (length words.now) → ⊥) }
{
    let Some(four) = read_four(alloc, words, b"price", b"w")? else {
        return Ok(None);
    };
    if four.next != words.len() {
        return Ok(None);
    }
    let Four {
        item,
        first,
        unit,
        hold,
        back,
        next: _,
    } = four;
    Ok(Some((
        item,
        Prices {
            price: first,
            unit,
            hold,
            back,
        },
    )))
}

// The line of a cut of a block.
pub(crate) fn read_block(
    alloc: Global,
    words: &[&[u8]],
) -> Result<Option<(u32, Potentials)>, AllocError>
    ensures some { IfOk result (λ read. IfSome read (λ p.
        HasBlockWords (map (λ w. w.now) words.now) p.0 p.1.setup.items p.1.unit.items p.1.hold.items
        p.1.back.items p.1.steps.items)) }
    ensures none { IfOk result (λ read. IsNone read → (item : ℕ) (xs bs cs ds es : List ℕ)
        → HasBlockWords (map (λ w. w.now) words.now) item xs bs cs ds es → ⊥) }
{
    let Some(four) = read_four(alloc, words, b"block", b"f")? else {
        return Ok(None);
    };
    let Four {
        item,
        first,
        unit,
        hold,
        back,
        next,
    } = four;
    if next >= words.len() {
        return Ok(None);
    }
    if !is_word(words, next, b"p") {
        return Ok(None);
    }
    let steps = amounts_from(alloc, words, next + 1)?;
    if next + 1 + steps.len() != words.len() {
        return Ok(None);
    }
    Ok(Some((
        item,
        Potentials {
            setup: first,
            unit,
            hold,
            back,
            steps,
        },
    )))
}

// The line of an (l,S) cut.
pub(crate) fn read_ls(
    alloc: Global,
    words: &[&[u8]],
) -> Result<Option<(u32, u32, Vec<bool>)>, AllocError>
    ensures some { IfOk result (λ read. IfSome read (λ p.
        HasWords (map (λ w. w.now) words.now) (ls_words p.0 p.1 p.2.items) × Is32 p.0 × (1 ≤ p.1)
        × Is32 p.1
        × (length p.2.items ≡ p.1))) }
    ensures none { IfOk result (λ read. IsNone read → (item last : ℕ) (chosen : List Bool)
        → Is32 item → 1 ≤ last
        → Is32 last → length chosen ≡ last
        → HasWords (map (λ w. w.now) words.now) (ls_words item last chosen) → ⊥) }
{
    if words.len() != 4 || !is_word(words, 0, b"ls") {
        return Ok(None);
    }
    let Some(item) = number_at(words, 1, 0, MOST_32) else {
        return Ok(None);
    };
    let Some(last) = number_at(words, 2, 1, MOST_32) else {
        return Ok(None);
    };
    let Some(chosen) = read_bits(alloc, words[3])? else {
        return Ok(None);
    };
    if chosen.len() as u128 != last {
        return Ok(None);
    }
    Ok(Some((item as u32, last as u32, chosen)))
}
