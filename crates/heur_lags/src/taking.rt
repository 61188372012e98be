// What is asked of items and arrives of them, and marks of items.
use crate::shop::{Product, Shop};
use integer_grids::IntegerGrid;
use integer_grids::numbers::{at, less, plus, times};

/// Whether an item, counted from 1, is among those that are marked.
pub(crate) fn is_marked(marks: &[bool], item: u32) -> bool {
    match marks.get((item as usize).wrapping_sub(1)) {
        Some(mark) => *mark,
        None => false,
    }
}

/// Marks an item or takes its mark away, if there is such an item.
pub(crate) fn mark(marks: &mut [bool], item: u32, is: bool) {
    if let Some(cell) = marks.get_mut((item as usize).wrapping_sub(1)) {
        *cell = is;
    }
}

/// Units of an item that are asked for in a period: by demand, and by the lots of the items that it goes into.
pub(crate) fn asked(product: &Product, make: &IntegerGrid, period: u32) -> i64 {
    let mut total = at(&product.demand, period);
    for user in product.users.iter() {
        total = plus(total, times(user.units, make.get(user.item, period)));
    }
    total
}

/// Units of an item that arrive in a period: those whose lot started its lead before.
pub(crate) fn arriving(product: &Product, make: &IntegerGrid, period: u32) -> i64 {
    if period > product.lead {
        make.get(product.number, period - product.lead)
    } else {
        0
    }
}
