// Which items are made anew, drawn at random.
use crate::shop::{Product, Shop};
use crate::taking::{is_marked, mark};
use rand_core::utils::NextWord;
use rand_pcg::Lcg64Xsh32;
use std::alloc::{AllocError, Global};

// So many levels of components are gone down where all are taken.
const LEVELS: u32 = 4;

/// A random number below so many, and 0 where that is none.
pub(crate) fn below(words: &mut Lcg64Xsh32, many: u32) -> u32 {
    words.next_word() % many.max(1)
}

// At most so many items are drawn beside the first one.
const OTHERS: u32 = 3;

// A toll is a random number below so much, in one of so many periods.
const TOLLS: u32 = 8;

const TOLL_PERIODS: u32 = 3;

// Of a long horizon so many periods are made anew at most, but in one of so many moves.
const WINDOW: u32 = 16;

const LONG: u32 = 32;

const WHOLE_EACH: u32 = 16;

/// An item that breaks a rule, and a period in which it does, or in which what it lacks had to be made.
#[derive(Clone, Copy)]
pub(crate) struct Trouble {
    pub(crate) item: u32,
    pub(crate) period: u32,
}

// Marks an item.
fn mark_any(shop: &Shop, words: &mut Lcg64Xsh32, marks: &mut [bool]) {
    let item = below(words, shop.items).wrapping_add(1);
    mark(marks, item, true);
}

// Whether two items take time of the same resource.
fn share_time(product: &Product, other: &Product) -> bool {
    for load in product.loads.iter() {
        if other.loads.iter().any(|it| it.resource == load.resource) {
            return true;
        }
    }
    false
}

// The first item from a random one on that isn't marked and takes time of the same resource as a marked one.
fn mark_rival(shop: &Shop, product: &Product, words: &mut Lcg64Xsh32, marks: &mut [bool]) {
    let first = below(words, shop.items);
    for step in 0..shop.items {
        let place = first.wrapping_add(step) % shop.items;
        if let Some(other) = shop.products.get(place as usize) {
            if !is_marked(marks, other.number) && share_time(product, other) {
                return mark(marks, other.number, true);
            }
        }
    }
}

// Marks some more items that take time of the same resource.
fn mark_others(shop: &Shop, first: u32, words: &mut Lcg64Xsh32, marks: &mut [bool]) {
    let many = below(words, OTHERS).wrapping_add(1);
    for _other in 0..many {
        match shop.product(first) {
            Some(product) if !product.loads.is_empty() => mark_rival(shop, product, words, marks),
            _ => mark_any(shop, words, marks),
        }
    }
}

// Marks some of the items that an item goes into.
fn mark_users_of(product: &Product, words: &mut Lcg64Xsh32, marks: &mut [bool]) {
    for user in product.users.iter() {
        if below(words, 2) == 0 {
            mark(marks, user.item, true);
        }
    }
}

// The same for each marked item.
fn mark_users(shop: &Shop, words: &mut Lcg64Xsh32, marks: &mut [bool]) {
    for product in shop.products.iter() {
        if is_marked(marks, product.number) {
            mark_users_of(product, words, marks);
        }
    }
}

// Marks the components of an item, all or two in three.
fn mark_parts_of(product: &Product, words: &mut Lcg64Xsh32, all: bool, marks: &mut [bool]) {
    for part in product.parts.iter() {
        if all || below(words, 3) > 0 {
            mark(marks, part.item, true);
        }
    }
}

// The same for each marked item.
fn mark_parts(shop: &Shop, words: &mut Lcg64Xsh32, all: bool, marks: &mut [bool]) {
    for product in shop.products.iter() {
        if is_marked(marks, product.number) {
            mark_parts_of(product, words, all, marks);
        }
    }
}

// Marks components of the marked items: none, some, or all of all levels.
fn mark_below(shop: &Shop, words: &mut Lcg64Xsh32, marks: &mut [bool]) {
    match below(words, 3) {
        0 => {}
        1 => mark_parts(shop, words, false, marks),
        _ => {
            for _level in 0..LEVELS {
                mark_parts(shop, words, true, marks);
            }
        }
    }
}

/// Marks of some items: of one, which may be given, one and a few others, or one and some that it goes into, with none, some or all of their components. The
/// error is that memory ran out.
pub(crate) fn drawn_marks(
    alloc: Global,
    shop: &Shop,
    words: &mut Lcg64Xsh32,
    aim: Option<Trouble>,
) -> Result<Vec<bool>, AllocError> {
    let mut marks = vec![in alloc; false; shop.items as usize]?;
    let first = match aim {
        Some(aim) => aim.item,
        None => below(words, shop.items).wrapping_add(1),
    };
    mark(&mut marks, first, true);
    match below(words, 4) {
        0 => mark_others(shop, first, words, &mut marks),
        1 => mark_users(shop, words, &mut marks),
        _ => {}
    }
    mark_below(shop, words, &mut marks);
    Ok(marks)
}

/// How many items are marked.
pub(crate) fn count_marks(marks: &[bool]) -> u32 {
    let mut count = 0u32;
    for mark in marks {
        count = count.saturating_add(u32::from(*mark));
    }
    count
}

/// The least rank of the marked items.
pub(crate) fn least_rank(shop: &Shop, marks: &[bool]) -> u32 {
    let mut least = shop.depth;
    for product in shop.products.iter() {
        if is_marked(marks, product.number) {
            least = least.min(product.rank);
        }
    }
    least
}

/// Tolls of periods, drawn at random, most of them 0. The error is that memory ran out.
pub(crate) fn drawn_tolls(
    alloc: Global,
    shop: &Shop,
    words: &mut Lcg64Xsh32,
) -> Result<Vec<i64>, AllocError> {
    let mut tolls = Vec::new(alloc);
    for _period in 0..shop.periods {
        let toll = if below(words, TOLL_PERIODS) == 0 {
            below(words, TOLLS)
        } else {
            0
        };
        tolls.push(i64::from(toll))?;
    }
    Ok(tolls)
}

/// The first and the last of some periods.
#[derive(Clone, Copy)]
pub(crate) struct Span {
    pub(crate) first: u32,
    pub(crate) last: u32,
}

// How many periods are made anew; None for all of them.
fn drawn_length(shop: &Shop, words: &mut Lcg64Xsh32) -> Option<u32> {
    if shop.periods > LONG && below(words, WHOLE_EACH) > 0 {
        return Some(below(words, WINDOW).wrapping_add(1));
    }
    if below(words, 2) == 0 {
        return None;
    }
    Some(below(words, shop.periods / 2).wrapping_add(1))
}

// The first of so many periods, so that a given one is among them.
fn drawn_first(shop: &Shop, words: &mut Lcg64Xsh32, length: u32, aim: Option<Trouble>) -> u32 {
    match aim {
        Some(aim) => aim
            .period
            .saturating_sub(below(words, length.saturating_add(1)))
            .max(1),
        None => below(words, shop.periods).wrapping_add(1),
    }
}

/// All periods, or some of at most about a half of them, drawn at random; of a long horizon mostly few. A given one is among them.
pub(crate) fn drawn_span(shop: &Shop, words: &mut Lcg64Xsh32, aim: Option<Trouble>) -> Span {
    match drawn_length(shop, words) {
        Some(length) => {
            let first = drawn_first(shop, words, length, aim);
            Span {
                first,
                last: first.saturating_add(length).min(shop.periods),
            }
        }
        None => Span {
            first: 1,
            last: shop.periods,
        },
    }
}
