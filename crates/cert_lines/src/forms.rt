// The lines with a fixed number of words.
ghost use Rattle.std.specs.Prelude.{◌≡◌, ◌≤◌, ◌<◌, ◌^◌, ℕ, ℤ, pos, unsigned_abs, IfSome, IsNone, List, map, length, codes};
ghost use Rattle.lin_rows.specs.declared.column.Column.{Column};
ghost use Rattle.lin_rows.specs.declared.base.RowName.{RowName};
ghost use Rattle.cert_lines.specs.Line.{IsSmallColumn, IsSmallName};
ghost use Rattle.cert_lines.specs.Limits.{Is32, Is64};
ghost use Rattle.cert_lines.specs.declared.parts.Part.{Part};
ghost use Rattle.cert_lines.specs.Limits.{IsSmallPart};
ghost use Rattle.cert_lines.specs.Words.{HasNoColumn, HasNoLongName, HasNoOne, HasNoShortName, HasNoTwo, HasWords, StandFrom, branch_words, column_words, farkas_words, linear_words, name_words, one_words, part_words, round_words, two_words};
ghost use Rattle.cert_lines.specs.declared.limits.TheConstants.{MAX_PARTS, MAX_ROUND_PARTS};
ghost use Rattle.round_cuts.specs.declared.rounding.TheConstants.{MAX_DIVISOR};
ghost use Rattle.cert_lines.specs.Limits.{bound_127};

use crate::Part;
use crate::limits::{MAX_PARTS, MAX_ROUND_PARTS, MOST_32, MOST_64, MOST_127};
use crate::words::{integer_at, is_word, number_at};
use lin_rows::{Column, RowName};
use round_cuts::MAX_DIVISOR;

// The number after this word.
pub(crate) fn one_after(words: &[&[u8]], place: usize, text: &[u8]) -> Option<u32>
    requires low { place ≤ 1 }
    requires some { 0 < length text.now }
    ensures some { IfSome result (λ a.
        StandFrom (map (λ w. w.now) words.now) place (one_words text.now a) × Is32 a) }
    ensures none { IsNone result → HasNoOne (map (λ w. w.now) words.now) place text.now }
{
    if !is_word(words, place, text) {
        return None;
    }
    match number_at(words, place + 1, 0, MOST_32) {
        Some(number) => Some(number as u32),
        None => None,
    }
}

// The two numbers after this word.
fn two_after(words: &[&[u8]], place: usize, text: &[u8]) -> Option<(u32, u32)>
    requires low { place ≤ 1 }
    requires some { 0 < length text.now }
    ensures some { IfSome result (λ p.
        StandFrom (map (λ w. w.now) words.now) place (two_words text.now p.0 p.1) × Is32 p.0
        × Is32 p.1) }
    ensures none { IsNone result → HasNoTwo (map (λ w. w.now) words.now) place text.now }
{
    if !is_word(words, place, text) {
        return None;
    }
    match number_at(words, place + 1, 0, MOST_32) {
        Some(first) => match number_at(words, place + 2, 0, MOST_32) {
            Some(second) => Some((first as u32, second as u32)),
            None => None,
        },
        None => None,
    }
}

// The column at place 1.
fn column_at(words: &[&[u8]]) -> Option<Column>
    ensures some { IfSome result (λ column.
        StandFrom (map (λ w. w.now) words.now) 1 (column_words column) × IsSmallColumn column) }
    ensures none { IsNone result → HasNoColumn (map (λ w. w.now) words.now) }
{
    if let Some((item, period)) = two_after(words, 1, b"x") {
        return Some(Column::X { item, period });
    }
    if let Some((item, period)) = two_after(words, 1, b"y") {
        return Some(Column::Y { item, period });
    }
    if let Some((item, period)) = two_after(words, 1, b"s") {
        return Some(Column::S { item, period });
    }
    match two_after(words, 1, b"r") {
        Some((item, period)) => Some(Column::R { item, period }),
        None => None,
    }
}

// The name with one number at place 1.
fn short_name_at(words: &[&[u8]]) -> Option<RowName>
    ensures some { IfSome result (λ row. StandFrom (map (λ w. w.now) words.now) 1 (name_words row)
        × IsSmallName row
        × (length (name_words row) ≡ 2)) }
    ensures none { IsNone result → HasNoShortName (map (λ w. w.now) words.now) }
{
    if let Some(item) = one_after(words, 1, b"endmin") {
        return Some(RowName::EndMin(item));
    }
    if let Some(item) = one_after(words, 1, b"endmax") {
        return Some(RowName::EndMax(item));
    }
    if let Some(number) = one_after(words, 1, b"path") {
        return Some(RowName::Path(number));
    }
    match one_after(words, 1, b"cut") {
        Some(number) => Some(RowName::Cut(number)),
        None => None,
    }
}

// The name with two numbers at place 1.
fn long_name_at(words: &[&[u8]]) -> Option<RowName>
    ensures some { IfSome result (λ row. StandFrom (map (λ w. w.now) words.now) 1 (name_words row)
        × IsSmallName row
        × (length (name_words row) ≡ 3)) }
    ensures none { IsNone result → HasNoLongName (map (λ w. w.now) words.now) }
{
    if let Some((item, period)) = two_after(words, 1, b"balance") {
        return Some(RowName::Balance(item, period));
    }
    if let Some((item, period)) = two_after(words, 1, b"link") {
        return Some(RowName::Link(item, period));
    }
    if let Some((resource, period)) = two_after(words, 1, b"capacity") {
        return Some(RowName::Capacity(resource, period));
    }
    if let Some((item, period)) = two_after(words, 1, b"top") {
        return Some(RowName::Top(item, period));
    }
    if let Some((item, period)) = two_after(words, 1, b"least") {
        return Some(RowName::Least(item, period));
    }
    match two_after(words, 1, b"late") {
        Some((item, period)) => Some(RowName::Late(item, period)),
        None => None,
    }
}

// A divisor and a number of parts.
pub(crate) fn read_round(words: &[&[u8]]) -> Option<(u64, u32)>
    ensures some { IfSome result (λ p. HasWords (map (λ w. w.now) words.now) (round_words p.0 p.1)
        × (1 ≤ p.0)
        × (p.0 ≤ MAX_DIVISOR) × (p.1 ≤ MAX_ROUND_PARTS)) }
    ensures none { IsNone result → (divisor parts : ℕ) → 1 ≤ divisor → divisor ≤ MAX_DIVISOR
        → parts ≤ MAX_ROUND_PARTS
        → HasWords (map (λ w. w.now) words.now) (round_words divisor parts) → ⊥ }
{
    if words.len() != 3 || !is_word(words, 0, b"round") {
        return None;
    }
    match number_at(words, 1, 1, MAX_DIVISOR as u128) {
        Some(divisor) => match number_at(words, 2, 0, MAX_ROUND_PARTS as u128) {
            Some(parts) => Some((divisor as u64, parts as u32)),
            None => None,
        },
        None => None,
    }
}

// A denominator and a number of parts.
pub(crate) fn read_linear(words: &[&[u8]]) -> Option<(u128, u32)>
    ensures some { IfSome result (λ p.
        HasWords (map (λ w. w.now) words.now) (linear_words (pos p.0) p.1)
        × (1 ≤ p.0) × (p.0 < bound_127) × (p.1 ≤ MAX_PARTS)) }
    ensures none { IsNone result → (den parts : ℕ) → 1 ≤ den → den < bound_127 → parts ≤ MAX_PARTS
        → HasWords (map (λ w. w.now) words.now) (linear_words (pos den) parts) → ⊥ }
{
    if words.len() != 3 || !is_word(words, 0, b"linear") {
        return None;
    }
    match number_at(words, 1, 1, MOST_127) {
        Some(den) => match number_at(words, 2, 0, MAX_PARTS as u128) {
            Some(parts) => Some((den, parts as u32)),
            None => None,
        },
        None => None,
    }
}

// A number of parts.
pub(crate) fn read_farkas(words: &[&[u8]]) -> Option<u32>
    ensures some { IfSome result (λ parts.
        HasWords (map (λ w. w.now) words.now) (farkas_words parts) × (parts ≤ MAX_PARTS)) }
    ensures none { IsNone result → (parts : ℕ) → parts ≤ MAX_PARTS
        → HasWords (map (λ w. w.now) words.now) (farkas_words parts) → ⊥ }
{
    if words.len() != 2 || !is_word(words, 0, b"farkas") {
        return None;
    }
    match number_at(words, 1, 0, MAX_PARTS as u128) {
        Some(parts) => Some(parts as u32),
        None => None,
    }
}

// A column and the greatest value on the low side.
pub(crate) fn read_branch(words: &[&[u8]]) -> Option<(Column, u64)>
    ensures some { IfSome result (λ p. HasWords (map (λ w. w.now) words.now) (branch_words p.0 p.1)
        × IsSmallColumn p.0 × Is64 p.1) }
    ensures none { IsNone result → (column : Column) (at : ℕ) → IsSmallColumn column → Is64 at
        → HasWords (map (λ w. w.now) words.now) (branch_words column at) → ⊥ }
{
    if words.len() != 5 || !is_word(words, 0, b"branch") {
        return None;
    }
    match column_at(words) {
        Some(column) => match number_at(words, 4, 0, MOST_64) {
            Some(at) => Some((column, at as u64)),
            None => None,
        },
        None => None,
    }
}

// A multiple of a row.
pub(crate) fn read_part(words: &[&[u8]]) -> Option<Part>
    ensures some { IfSome result (λ part.
        HasWords (map (λ w. w.now) words.now) (part_words part.row part.times)
        × IsSmallName part.row × IsSmallPart part) }
    ensures none { IsNone result → (part : Part) → IsSmallName part.row → IsSmallPart part
        → HasWords (map (λ w. w.now) words.now) (part_words part.row part.times) → ⊥ }
{
    if !is_word(words, 0, b"part") {
        return None;
    }
    if words.len() == 4 {
        return match short_name_at(words) {
            Some(row) => match integer_at(words, 3) {
                Some(times) => Some(Part { row, times }),
                None => None,
            },
            None => None,
        };
    }
    if words.len() != 5 {
        return None;
    }
    match long_name_at(words) {
        Some(row) => match integer_at(words, 4) {
            Some(times) => Some(Part { row, times }),
            None => None,
        },
        None => None,
    }
}
