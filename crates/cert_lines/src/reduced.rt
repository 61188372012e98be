// The lines of a leaf over reduced costs: its first one, lists of multiples, and groups.
ghost use Rattle.std.specs.Prelude.{◌≡◌, ◌≤◌, ◌+◌, ◌<◌, ◌^◌, ℕ, ℤ, IfOk, IfSome, IsNone, List, length, map};
ghost use Rattle.std.specs.Fmt.{signed_decimal};
ghost use Rattle.std.specs.List.{All};
ghost use Rattle.item_groups.specs.declared.group.ChainLink.{ChainLink};
ghost use Rattle.item_groups.specs.declared.group.Group.{Group};
ghost use Rattle.item_groups.specs.declared.group.Group.TheVariants as group;
ghost use Rattle.cert_lines.specs.declared.limits.TheConstants.{MAX_GROUPS, MAX_LISTS, MAX_PARTS};
ghost use Rattle.cert_lines.specs.declared.parts.ListKind.{ListKind};
ghost use Rattle.cert_lines.specs.Limits.{Is32, Is64, IsSmallTimes};
ghost use Rattle.cert_lines.specs.Line.{IsSmallGroup, IsSmallLink, IsSmallList};
ghost use Rattle.cert_lines.specs.Shapes.{ListShape, list_shape};
ghost use Rattle.cert_lines.specs.Text.{kind_text};
ghost use Rattle.cert_lines.specs.Words.{HasWords, StandFrom, group_words, link_words, parts_words, reduced_words, shares_words, word_at};

use crate::forms::one_after;
use crate::limits::{MAX_GROUPS, MAX_LISTS, MAX_PARTS, MOST_32, MOST_64, MOST_127};
use crate::lists::numbers_from;
use crate::words::{integer_at, is_word, number_at};
use crate::{ListKind, PartList};
use item_groups::{ChainLink, Group, Shares};
use std::alloc::{AllocError, Global};

// A denominator, and how many parts, lists and groups follow.
pub(crate) fn read_reduced(words: &[&[u8]]) -> Option<(u64, u32, u32, u32)>
    ensures some { IfSome result (λ p.
        HasWords (map (λ w. w.now) words.now) (reduced_words p.0 p.1 p.2 p.3) × Is64 p.0
        × (p.1 ≤ MAX_PARTS) × (p.2 ≤ MAX_LISTS) × (p.3 ≤ MAX_GROUPS)) }
    ensures none { IsNone result → (den parts lists groups : ℕ) → Is64 den
        → parts ≤ MAX_PARTS → lists ≤ MAX_LISTS → groups ≤ MAX_GROUPS
        → HasWords (map (λ w. w.now) words.now) (reduced_words den parts lists groups) → ⊥ }
{
    if words.len() != 5 || !is_word(words, 0, b"reduced") {
        return None;
    }
    let Some(den) = number_at(words, 1, 0, MOST_64) else {
        return None;
    };
    let Some(parts) = number_at(words, 2, 0, MAX_PARTS as u128) else {
        return None;
    };
    let Some(lists) = number_at(words, 3, 0, MAX_LISTS as u128) else {
        return None;
    };
    match number_at(words, 4, 0, MAX_GROUPS as u128) {
        Some(groups) => Some((den as u64, parts as u32, lists as u32, groups as u32)),
        None => None,
    }
}

// The kind of rows at place 1.
fn kind_at(words: &[&[u8]]) -> Option<ListKind>
    ensures some { IfSome result (λ kind. word_at (map (λ w. w.now) words.now) 1 ≡ kind_text kind) }
    ensures none { IsNone result → (kind : ListKind)
        → word_at (map (λ w. w.now) words.now) 1 ≡ kind_text kind → ⊥ }
{
    if is_word(words, 1, b"balance") {
        return Some(ListKind::Balance);
    }
    if is_word(words, 1, b"link") {
        return Some(ListKind::Link);
    }
    if is_word(words, 1, b"capacity") {
        return Some(ListKind::Capacity);
    }
    if is_word(words, 1, b"top") {
        return Some(ListKind::Top);
    }
    if is_word(words, 1, b"least") {
        return Some(ListKind::Least);
    }
    if is_word(words, 1, b"late") {
        return Some(ListKind::Late);
    }
    None
}

// The numbers with their signs from a place on, to the end of the line.
fn times_from(alloc: Global, words: &[&[u8]], from: usize) -> Result<Option<Vec<i128>>, AllocError>
    requires { from ≤ length words.now }
    ensures some { IfOk result (λ read. IfSome read (λ times.
        StandFrom (map (λ w. w.now) words.now) from (map signed_decimal times.items)
        × All IsSmallTimes times.items × (length words.now ≡ from + length times.items))) }
    ensures none { IfOk result (λ read. IsNone read → (times : List ℤ) → All IsSmallTimes times
        → length words.now ≡ from + length times
        → StandFrom (map (λ w. w.now) words.now) from (map signed_decimal times) → ⊥) }
{
    let mut times = Vec::new(alloc);
    for place in from..words.len() {
        match integer_at(words, place) {
            Some(number) => times.push(number)?,
            None => return Ok(None),
        }
    }
    Ok(Some(times))
}

// A list of multiples.
pub(crate) fn read_parts_list(
    alloc: Global,
    words: &[&[u8]],
) -> Result<Option<PartList>, AllocError>
    ensures some { IfOk result (λ read. IfSome read (λ a.
        HasWords (map (λ w. w.now) words.now) (parts_words (list_shape a))
        × IsSmallList (list_shape a))) }
    ensures none { IfOk result (λ read. IsNone read → (a : ListShape) → IsSmallList a
        → HasWords (map (λ w. w.now) words.now) (parts_words a) → ⊥) }
{
    if words.len() < 3 || !is_word(words, 0, b"parts") {
        return Ok(None);
    }
    let Some(kind) = kind_at(words) else {
        return Ok(None);
    };
    let Some(index) = number_at(words, 2, 0, MOST_32) else {
        return Ok(None);
    };
    let Some(times) = times_from(alloc, words, 3)? else {
        return Ok(None);
    };
    Ok(Some(PartList {
        kind,
        index: index as u32,
        times,
    }))
}

// The item of a chain at a place, and its opening price after it.
fn link_at(words: &[&[u8]], place: usize) -> Option<ChainLink>
    requires { place ≤ 5 }
    ensures some { IfSome result (λ link.
        StandFrom (map (λ w. w.now) words.now) place (link_words link) × IsSmallLink link) }
    ensures none { IsNone result → (link : ChainLink) → IsSmallLink link
        → StandFrom (map (λ w. w.now) words.now) place (link_words link) → ⊥ }
{
    let Some(item) = number_at(words, place, 0, MOST_32) else {
        return None;
    };
    match number_at(words, place + 1, 0, MOST_127) {
        Some(opening_price) => Some(ChainLink {
            item: item as u32,
            opening_price,
        }),
        None => None,
    }
}

// A group of one item.
fn read_single(words: &[&[u8]]) -> Option<Group>
    ensures some { IfSome result (λ g.
        HasWords (map (λ w. w.now) words.now) (group_words g) × IsSmallGroup g) }
    ensures no_item { IsNone result → (item : ℕ) → Is32 item
        → HasWords (map (λ w. w.now) words.now) (group_words (group.Item item)) → ⊥ }
    ensures no_quantities { IsNone result → (item : ℕ) → Is32 item
        → HasWords (map (λ w. w.now) words.now) (group_words (group.Quantities item)) → ⊥ }
{
    if words.len() != 2 {
        return None;
    }
    if let Some(item) = one_after(words, 0, b"item") {
        return Some(Group::Item { item });
    }
    match one_after(words, 0, b"quantities") {
        Some(item) => Some(Group::Quantities { item }),
        None => None,
    }
}

// The item after this word, and its shares to the end of the line.
fn shares_after(
    alloc: Global,
    words: &[&[u8]],
    word: &[u8],
) -> Result<Option<(u32, Shares)>, AllocError>
    requires { 0 < length word.now }
    ensures some { IfOk result (λ read. IfSome read (λ p.
        HasWords (map (λ w. w.now) words.now) (shares_words word.now p.0 p.1)
        × Is32 p.0 × All Is64 p.1)) }
    ensures none { IfOk result (λ read. IsNone read → (item : ℕ) (shares : List ℕ)
        → Is32 item → All Is64 shares
        → HasWords (map (λ w. w.now) words.now) (shares_words word.now item shares) → ⊥) }
{
    if words.len() < 2 || !is_word(words, 0, word) {
        return Ok(None);
    }
    let Some(item) = number_at(words, 1, 0, MOST_32) else {
        return Ok(None);
    };
    let shares = numbers_from(alloc, words, 2)?;
    if 2 + shares.len() != words.len() {
        return Ok(None);
    }
    Ok(Some((item as u32, Shares::new(shares))))
}

// A chain of two items.
fn read_pair(words: &[&[u8]]) -> Option<(ChainLink, ChainLink)>
    ensures some { IfSome result (λ p.
        HasWords (map (λ w. w.now) words.now) (group_words (group.Pair p.0 p.1))
        × IsSmallLink p.0 × IsSmallLink p.1) }
    ensures none { IsNone result → (low top : ChainLink) → IsSmallLink low → IsSmallLink top
        → HasWords (map (λ w. w.now) words.now) (group_words (group.Pair low top)) → ⊥ }
{
    if words.len() != 5 || !is_word(words, 0, b"pair") {
        return None;
    }
    let Some(low) = link_at(words, 1) else {
        return None;
    };
    match link_at(words, 3) {
        Some(top) => Some((low, top)),
        None => None,
    }
}

// A chain of three items.
fn read_triple(words: &[&[u8]]) -> Option<(ChainLink, ChainLink, ChainLink)>
    ensures some { IfSome result (λ p.
        HasWords (map (λ w. w.now) words.now) (group_words (group.Triple p.0 p.1 p.2))
        × IsSmallLink p.0 × IsSmallLink p.1 × IsSmallLink p.2) }
    ensures none { IsNone result → (low mid top : ChainLink)
        → IsSmallLink low → IsSmallLink mid → IsSmallLink top
        → HasWords (map (λ w. w.now) words.now) (group_words (group.Triple low mid top)) → ⊥ }
{
    if words.len() != 7 || !is_word(words, 0, b"triple") {
        return None;
    }
    let Some(low) = link_at(words, 1) else {
        return None;
    };
    let Some(mid) = link_at(words, 3) else {
        return None;
    };
    match link_at(words, 5) {
        Some(top) => Some((low, mid, top)),
        None => None,
    }
}

// A group.
pub(crate) fn read_group(alloc: Global, words: &[&[u8]]) -> Result<Option<Group>, AllocError>
    ensures some { IfOk result (λ read. IfSome read (λ g.
        HasWords (map (λ w. w.now) words.now) (group_words g) × IsSmallGroup g)) }
    ensures none { IfOk result (λ read. IsNone read → (g : Group) → IsSmallGroup g
        → HasWords (map (λ w. w.now) words.now) (group_words g) → ⊥) }
{
    if let Some(group) = read_single(words) {
        return Ok(Some(group));
    }
    if let Some((item, shares)) = shares_after(alloc, words, b"late")? {
        return Ok(Some(Group::Late { item, shares }));
    }
    if let Some((item, shares)) = shares_after(alloc, words, b"late_quantities")? {
        return Ok(Some(Group::LateQuantities { item, shares }));
    }
    if let Some((low, top)) = read_pair(words) {
        return Ok(Some(Group::Pair { low, top }));
    }
    match read_triple(words) {
        Some((low, mid, top)) => Ok(Some(Group::Triple { low, mid, top })),
        None => Ok(None),
    }
}
