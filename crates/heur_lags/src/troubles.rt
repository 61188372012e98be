// Where a walk breaks rules, drawn at random.
use crate::drawing::{Trouble, below};
use crate::shop::{Product, Shop};
use crate::standing::Stand;
use crate::taking::{arriving, asked};
use integer_grids::numbers::{at, less, plus};
use rand_pcg::Lcg64Xsh32;

// Whether an item's lot of a period takes part in using more time than there is.
fn is_over(shop: &Shop, stand: &Stand, product: &Product, period: u32) -> bool {
    if stand.make.get(product.number, period) == 0 {
        return false;
    }
    for load in product.loads.iter() {
        let taken = stand.used.get(load.resource, period);
        if taken > shop.time(load.resource, period) {
            return true;
        }
    }
    false
}

// Whether so much in stock at the end of a period breaks a rule.
fn is_stock_broken(shop: &Shop, product: &Product, stock: i64, period: u32) -> bool {
    if stock < 0 && !product.late {
        return true;
    }
    period == shop.periods && (stock < product.end_min || stock > product.end_max)
}

// The period in which what is in stock then had to be made.
fn start_of(product: &Product, period: u32) -> u32 {
    period.saturating_sub(product.lead).max(1)
}

// The first period from a start on in which an item breaks a rule, or the last one before it.
fn broken_period(shop: &Shop, stand: &Stand, product: &Product, start: u32) -> Option<u32> {
    let mut stock = product.opening;
    let mut found = None;
    for period in 1..shop.periods.saturating_add(1) {
        let more = arriving(product, &stand.make, period);
        stock = less(plus(stock, more), asked(product, &stand.make, period));
        if is_stock_broken(shop, product, stock, period) {
            found = Some(start_of(product, period));
        } else if is_over(shop, stand, product, period) {
            found = Some(period);
        }
        if period >= start && found.is_some() {
            return found;
        }
    }
    found
}

/// An item that breaks a rule and a period of it, beginning with a random one of each. None where all rules are kept.
pub(crate) fn drawn_trouble(shop: &Shop, stand: &Stand, words: &mut Lcg64Xsh32) -> Option<Trouble> {
    let first = below(words, shop.items);
    let start = below(words, shop.periods).wrapping_add(1);
    for step in 0..shop.items {
        let place = first.wrapping_add(step) % shop.items;
        if let Some(product) = shop.products.get(place as usize) {
            if stand.is_troubled(product) {
                if let Some(period) = broken_period(shop, stand, product, start) {
                    return Some(Trouble {
                        item: product.number,
                        period,
                    });
                }
            }
        }
    }
    None
}
