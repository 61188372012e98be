// How much may have been made of an item so far: the levels that its recursion knows.
use crate::shop::{FAR, Product};
use integer_grids::numbers::{at, less, plus};
use std::alloc::{AllocError, Global};

/// Which levels are wanted.
#[derive(Clone, Copy)]
pub(crate) struct Wanted<'a> {
    /// All levels are taken where there are at most so many. Else so many are taken at equal distances, beside others.
    pub(crate) most: i64,
    /// Levels that are taken in any case: what is made so far by the lots that stand, and what components allow.
    pub(crate) made: &'a [i64],
    pub(crate) allowed: &'a [i64],
}

// A level, if it is none below a bottom and none past a top.
fn put_level(list: &mut Vec<i64>, level: i64, bottom: i64, top: i64) -> Result<(), AllocError> {
    if level >= bottom && level <= top {
        list.push(level)?;
    }
    Ok(())
}

// What is needed up to each period, with and without a least lot more or less.
fn put_needs(
    list: &mut Vec<i64>,
    needed: &[i64],
    least: i64,
    bottom: i64,
    top: i64,
) -> Result<(), AllocError> {
    for level in needed {
        put_level(list, *level, bottom, top)?;
        put_level(list, plus(*level, least), bottom, top)?;
        put_level(list, less(*level, least), bottom, top)?;
    }
    Ok(())
}

// Puts levels that are wanted in any case.
fn put_levels(
    list: &mut Vec<i64>,
    levels: &[i64],
    bottom: i64,
    top: i64,
) -> Result<(), AllocError> {
    for level in levels {
        put_level(list, *level, bottom, top)?;
    }
    Ok(())
}

// Levels at equal distances from a bottom to a top: so many, and one more.
fn spread(alloc: Global, bottom: i64, top: i64, most: i64) -> Result<Vec<i64>, AllocError> {
    let step = plus(less(top, bottom).max(0).wrapping_div(most.max(1)), 1);
    let mut list = Vec::new(alloc);
    let mut level = bottom;
    for _ in 0..most.saturating_add(1) {
        put_level(&mut list, level, bottom, top)?;
        level = plus(level, step);
    }
    Ok(list)
}

// All levels of an item, rising from a first one to a last one, where so much is needed of it up to each period, but those at
// which nothing starts or ends.
fn all_levels(
    alloc: Global,
    product: &Product,
    needed: &[i64],
    wanted: Wanted<'_>,
    first: i64,
    end: i64,
) -> Result<Vec<i64>, AllocError> {
    let total = at(needed, u32::try_from(needed.len()).unwrap_or(0));
    let least = plus(total, product.end_min);
    let top = plus(total, product.end_max).min(end);
    let mut list = spread(alloc, first, top, wanted.most)?;
    if less(top, first) > wanted.most {
        put_needs(&mut list, needed, product.least, first, top)?;
        put_levels(&mut list, wanted.made, first, top)?;
        put_levels(&mut list, wanted.allowed, first, top)?;
        put_level(&mut list, least, first, top)?;
        put_level(&mut list, less(least, product.least), first, top)?;
        put_level(&mut list, top, first, top)?;
        list.sort()?;
        list.dedup();
    }
    Ok(list)
}

/// The levels of an item, rising from a first one to a last one, if that is given, where so much is needed of it up to each
/// period.
pub(crate) fn levels_of(
    alloc: Global,
    product: &Product,
    needed: &[i64],
    wanted: Wanted<'_>,
    first: i64,
    last: Option<i64>,
) -> Result<Vec<i64>, AllocError> {
    let end = last.unwrap_or(FAR);
    let all = all_levels(alloc, product, needed, wanted, first, end)?;
    let mut list = Vec::with_capacity(alloc, all.len())?;
    list.push(first)?;
    for level in all {
        if first < level && level < end {
            list.push(level)?;
        }
    }
    if first < end && end < FAR {
        list.push(end)?;
    }
    Ok(list)
}
