// The lots of an item, made anew while those of other items stay or are still to be made.
use crate::levels::{Wanted, levels_of};
use crate::recursion::{Offer, Task};
use crate::shop::{FAR, Line, Product, Shop};
use crate::standing::Stand;
use crate::taking::{arriving, asked, is_marked};
use integer_grids::IntegerGrid;
use integer_grids::numbers::{at, less, plus, times, write};
use std::alloc::{AllocError, Global};

/// A whole setup or credit, of which parts are taken.
pub(crate) const WHOLE: i64 = 16;

/// All of a penalty, of which parts are taken.
pub(crate) const STRICT: i64 = 1024;

// All of a penalty, of which tolls are parts.
const TOLL: i64 = 64;

// Each period of a recursion costs as much work as so many levels.
const LEVELS_OF_PERIOD: u64 = 20;

/// What making an item anew goes by.
#[derive(Clone, Copy)]
pub(crate) struct Manner<'a> {
    /// Items whose lots will be made anew after this one's.
    pub(crate) open: &'a [bool],
    /// So many parts of all of the penalties are taken.
    pub(crate) strict: i64,
    /// So many parts of a whole of what a setup costs.
    pub(crate) setup: i64,
    /// So many parts of a whole of what a component costs in stock whose lots will be made anew.
    pub(crate) credit: i64,
    /// What time is taken to cost in each period beside: so many parts of `TOLL` of the penalty.
    pub(crate) tolls: &'a [i64],
    /// The periods whose lots are made anew.
    pub(crate) first: u32,
    pub(crate) last: u32,
    /// How many levels of what has been made so far are looked at, beside those of needs, lots and components.
    pub(crate) levels: i64,
}

impl Manner<'_> {
    // So much of a penalty, at least 1.
    fn penalty(&self, whole: i64) -> i64 {
        plus(times(whole, self.strict).wrapping_div(STRICT), 1)
    }

    // What so much time costs beside, by a penalty for each unit of it.
    fn toll(&self, period: u32, penalty: i64, time: i64) -> i64 {
        times(times(penalty, time), at(self.tolls, period)).wrapping_div(TOLL)
    }
}

// Units that are asked for up to each period, less the opening stock.
fn needed_of(
    alloc: Global,
    shop: &Shop,
    make: &IntegerGrid,
    product: &Product,
) -> Result<Vec<i64>, AllocError> {
    let mut total = less(0, product.opening);
    let mut list = Vec::with_capacity(alloc, shop.periods as usize)?;
    for period in 1..shop.periods.saturating_add(1) {
        total = plus(total, asked(product, make, period));
        list.push(total)?;
    }
    Ok(list)
}

// What a unit that is owed costs in each period: a penalty where the item may not be late.
fn owed_of(
    alloc: Global,
    shop: &Shop,
    product: &Product,
    manner: &Manner<'_>,
) -> Result<Vec<i64>, AllocError> {
    if product.late {
        return product.owed.as_slice().to_vec(alloc);
    }
    vec![in alloc; manner.penalty(product.penalty); shop.periods as usize]
}

// What a unit saves in each period, since so many of a component aren't held.
fn add_saved(saved: &mut [i64], part: &Product, units: i64, share: i64) {
    for (cell, hold) in saved.iter_mut().zip(part.hold.iter()) {
        let whole = times(times(units, *hold), share);
        *cell = plus(*cell, whole.wrapping_div(WHOLE));
    }
}

// What a unit saves, since its components aren't held.
fn saved_of(
    alloc: Global,
    shop: &Shop,
    product: &Product,
    manner: &Manner<'_>,
) -> Result<Vec<i64>, AllocError> {
    let mut saved = vec![in alloc; 0i64; shop.periods as usize]?;
    for line in product.parts.iter() {
        if let Some(part) = shop.product(line.item) {
            let share = if is_marked(manner.open, line.item) {
                manner.credit
            } else {
                WHOLE
            };
            add_saved(&mut saved, part, line.units, share);
        }
    }
    Ok(saved)
}

// Bounds what may have been made by what is left of a component.
fn bound_by(
    shop: &Shop,
    make: &IntegerGrid,
    product: &Product,
    part: &Product,
    line: Line,
    allowed: &mut [i64],
) {
    let mut stock = part.opening;
    let mut made = 0;
    for period in 1..shop.periods.saturating_add(1) {
        let more = arriving(part, make, period);
        stock = less(plus(stock, more), asked(part, make, period));
        made = plus(made, make.get(product.number, period));
        let most = plus(made, stock.wrapping_div(line.units.max(1)));
        write(allowed, period, at(allowed, period).min(most));
    }
}

// Units that may have been made by each period, as far as those components go whose lots stay.
fn allowed_of(
    alloc: Global,
    shop: &Shop,
    make: &IntegerGrid,
    product: &Product,
    manner: &Manner<'_>,
) -> Result<Vec<i64>, AllocError> {
    let mut allowed = vec![in alloc; FAR; shop.periods as usize]?;
    for line in product.parts.iter() {
        if let Some(part) = shop.product(line.item) {
            if !is_marked(manner.open, line.item) {
                bound_by(shop, make, product, part, *line, &mut allowed);
            }
        }
    }
    Ok(allowed)
}

// What a unit costs that is made beyond that.
fn missing_of(shop: &Shop, product: &Product, manner: &Manner<'_>) -> i64 {
    let mut total = 0;
    for line in product.parts.iter() {
        if let Some(part) = shop.product(line.item) {
            total = plus(total, times(manner.penalty(part.penalty), line.units));
        }
    }
    total
}

// What a lot of a period costs, and how large it may be, under the time that the others leave.
fn offer_of(
    shop: &Shop,
    used: &IntegerGrid,
    product: &Product,
    manner: &Manner<'_>,
    period: u32,
) -> Offer {
    let whole = times(at(&product.setup, period), manner.setup);
    let mut offer = Offer {
        setup: whole.wrapping_div(WHOLE),
        unit: at(&product.unit, period),
        least: product.least,
        most: product.most,
        room: FAR,
        over: 0,
    };
    for load in product.loads.iter() {
        if let Some(machine) = shop.machine(load.resource) {
            let taken = used.get(machine.number, period);
            let room = less(at(&machine.time, period), taken).max(0);
            let penalty = manner.penalty(machine.penalty);
            let setup = manner.toll(period, machine.penalty, load.setup);
            let unit = manner.toll(period, machine.penalty, load.unit);
            offer.setup = plus(offer.setup, setup);
            offer.unit = plus(offer.unit, unit);
            let left = less(room, load.setup);
            if left < 0 {
                offer.setup = less(offer.setup, times(penalty, left));
            }
            if load.unit > 0 {
                let most = left.max(0).wrapping_div(load.unit);
                offer.room = offer.room.min(most);
            }
            offer.over = plus(offer.over, times(penalty, load.unit));
        }
    }
    offer
}

// The same for the periods up to a last one.
fn offers_of(
    alloc: Global,
    shop: &Shop,
    used: &IntegerGrid,
    product: &Product,
    manner: &Manner<'_>,
    last: u32,
) -> Result<Vec<Offer>, AllocError> {
    let mut list = Vec::new(alloc);
    for period in manner.first..last.saturating_add(1) {
        list.push(offer_of(shop, used, product, manner, period))?;
    }
    Ok(list)
}

// Units that are made before a period.
fn made_before(make: &IntegerGrid, product: &Product, period: u32) -> i64 {
    let mut total = 0;
    for before in 1..period {
        total = plus(total, make.get(product.number, before));
    }
    total
}

// Units that are made up to each period.
fn made_up_to(
    alloc: Global,
    shop: &Shop,
    make: &IntegerGrid,
    product: &Product,
) -> Result<Vec<i64>, AllocError> {
    let mut total = 0;
    let mut list = Vec::with_capacity(alloc, shop.periods as usize)?;
    for period in 1..shop.periods.saturating_add(1) {
        total = plus(total, make.get(product.number, period));
        list.push(total)?;
    }
    Ok(list)
}

// What bounds the lots of an item up to a last period, and what they cost.
fn task_of(
    alloc: Global,
    shop: &Shop,
    stand: &Stand,
    product: &Product,
    manner: &Manner<'_>,
    last: u32,
) -> Result<Task, AllocError> {
    let make = &stand.make;
    let needed = needed_of(alloc, shop, make, product)?;
    let free = last.saturating_add(product.lead) >= shop.periods;
    let begun = made_before(make, product, manner.first);
    let end = if free {
        None
    } else {
        Some(made_before(make, product, last.saturating_add(1)))
    };
    let made = made_up_to(alloc, shop, make, product)?;
    let allowed = allowed_of(alloc, shop, make, product, manner)?;
    let wanted = Wanted {
        most: manner.levels,
        made: &made,
        allowed: &allowed,
    };
    let levels = levels_of(alloc, product, &needed, wanted, begun, end)?;
    Ok(Task {
        periods: shop.periods,
        lead: product.lead,
        first: manner.first,
        levels,
        free,
        needed,
        hold: product.hold.as_slice().to_vec(alloc)?,
        owed: owed_of(alloc, shop, product, manner)?,
        end_min: product.end_min,
        end_max: product.end_max,
        outside: times(manner.penalty(product.penalty), 4),
        saved: saved_of(alloc, shop, product, manner)?,
        allowed,
        missing: missing_of(shop, product, manner),
        offers: offers_of(alloc, shop, &stand.used, product, manner, last)?,
    })
}

// What a recursion takes.
fn work_of(shop: &Shop, task: &Task) -> u64 {
    let levels = (task.levels.len() as u64).saturating_add(LEVELS_OF_PERIOD);
    let steps = levels.saturating_mul(task.offers.len() as u64);
    let cells = u64::from(shop.items).saturating_mul(u64::from(shop.periods));
    steps.saturating_add(cells)
}

/// Makes the lots of an item anew, whose lots that stand take no time: those that cost least while the others stay, where a way was
/// found. It gives what that took, in levels and periods. The error is that memory ran out.
pub(crate) fn remake(
    alloc: Global,
    shop: &Shop,
    stand: &mut Stand,
    product: &Product,
    manner: &Manner<'_>,
) -> Result<u64, AllocError> {
    let last = shop.periods.saturating_sub(product.lead).min(manner.last);
    let task = task_of(alloc, shop, stand, product, manner, last)?;
    if let Some(lots) = task.lots(alloc)? {
        let mut period = manner.first;
        for lot in lots {
            stand.make.put(product.number, period, lot);
            period = period.saturating_add(1);
        }
    }
    Ok(work_of(shop, &task))
}
