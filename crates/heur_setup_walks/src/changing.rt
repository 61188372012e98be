// Random changes of setups.
ghost use Rattle.std.specs.Prelude.{◌≤◌};
ghost use Rattle.lot_sizing.specs.Problem.{item_count};

use crate::frame::place_of;
use lot_model::Instance;
use rand_core::utils::NextWord;
use rand_pcg::Lcg64Xsh32;

// Kinds of changes are drawn of so many.
const KINDS: u32 = 8;

/// A random number below this, and 0 below 0.
pub(crate) fn below(words: &mut Lcg64Xsh32, count: u32) -> u32 {
    words.next_word() % count.max(1)
}

// Whether there is a setup at a place.
fn is_open(open: &[bool], place: usize) -> bool {
    matches!(open.get(place), Some(true))
}

// Puts a setup in or takes it out.
fn put(open: &mut [bool], place: usize, is: bool) {
    if let Some(cell) = open.get_mut(place) {
        *cell = is;
    }
}

// Puts a setup in that isn't there, or takes it out.
fn flip(open: &mut [bool], place: usize) {
    let is = is_open(open, place);
    put(open, place, !is);
}

// A setup goes from one place to another, if it is there.
fn go(open: &mut [bool], from: usize, to: usize) {
    if is_open(open, from) {
        put(open, from, false);
        put(open, to, true);
    }
}

// The setups of an item and of its components go to another period.
fn go_together(instance: &Instance, open: &mut [bool], item: u32, from: u32, to: u32)
    requires low { 1 ≤ item }
    requires high { item ≤ item_count instance.now }
{
    for other in 1..instance.items() + 1 {
        if other == item || instance.weight(other, item) > 0 {
            go(
                open,
                place_of(instance, other, from),
                place_of(instance, other, to),
            );
        }
    }
}

// A period beside this one.
fn beside(words: &mut Lcg64Xsh32, periods: u32, period: u32) -> u32 {
    if period <= 1 || below(words, 2) == 0 && period < periods {
        period.wrapping_add(1).min(periods)
    } else {
        period.wrapping_sub(1)
    }
}

// The place of a random item and period.
fn any_place(instance: &Instance, words: &mut Lcg64Xsh32) -> usize {
    let item = below(words, instance.items()).wrapping_add(1);
    let period = below(words, instance.periods()).wrapping_add(1);
    place_of(instance, item, period)
}

/// Changes setups at random: one is put in or taken out, goes to a period beside it, alone or with those of the item's components,
/// or two are changed.
pub(crate) fn change(instance: &Instance, open: &mut [bool], words: &mut Lcg64Xsh32) {
    let item = below(words, instance.items()).wrapping_add(1);
    let period = below(words, instance.periods()).wrapping_add(1);
    let other = beside(words, instance.periods(), period);
    let from = place_of(instance, item, period);
    match below(words, KINDS) {
        0 | 1 => flip(open, from),
        2 | 3 => go(open, from, place_of(instance, item, other)),
        4 | 5 if item >= 1 && item <= instance.items() => {
            go_together(instance, open, item, period, other)
        }
        6 => {
            flip(open, from);
            flip(open, any_place(instance, words));
        }
        _ => {
            let second = below(words, instance.items()).wrapping_add(1);
            flip(open, from);
            flip(open, place_of(instance, second, period));
        }
    }
}
