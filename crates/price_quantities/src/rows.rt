// Rows of least costs, by the quantity that has been started by the end of a period.
use crate::bands::Band;
use crate::numbers::{NONE, part, part_mut};
use crate::terms::Term;
use std::alloc::{AllocError, Global};

// The least costs of windows of quantities, by blocks as long as a window: the least from each quantity to the end of its block is
// kept, and that from the start of the next block runs along. So a window that ends in a block is the less of the two.
#[derive(Debug, Drop)]
pub(crate) struct Windows {
    // The least of the quantities after each one, up to the end of its block.
    after: Vec<i64>,
}

// What a block has come to: the least cost of its quantities so far, and what the units up to the next quantity cost.
#[derive(Clone, Copy)]
struct Running {
    least: i64,
    paid: i64,
}

// What lots of a period cost, and how many quantities a window has.
#[derive(Clone, Copy)]
struct Lots {
    fee: i64,
    unit: i64,
    block: usize,
}

// The least of costs, each without what the units up to its quantity cost.
fn run_over(before: &[i64], unit: i64, from: Running) -> Running {
    let mut run = from;
    for cost in before {
        run.least = run.least.min(cost.wrapping_sub(run.paid));
        run.paid = run.paid.wrapping_add(unit);
    }
    run
}

// The least of the costs after each quantity of a block, each without what the units up to its quantity cost; `end` is what
// those up to the end of the block do.
fn write_after(after: &mut [i64], before: &[i64], unit: i64, end: i64) {
    let mut least = NONE;
    let mut paid = end;
    for (cell, cost) in after.iter_mut().zip(before).rev() {
        paid = paid.wrapping_sub(unit);
        *cell = least;
        least = least.min(cost.wrapping_sub(paid));
    }
}

// The costs of a block of quantities: what they cost before the period, or the least of their windows with a lot.
fn write_block(
    next: &mut [i64],
    before: &[i64],
    after: &[i64],
    lots: Lots,
    from: Running,
) -> Running {
    let mut run = from;
    let mut paid = run.paid.wrapping_add(lots.fee);
    for ((cell, cost), rest) in next.iter_mut().zip(before).zip(after) {
        run.least = run.least.min(cost.wrapping_sub(run.paid));
        run.paid = run.paid.wrapping_add(lots.unit);
        *cell = run.least.min(*rest).wrapping_add(paid).min(*cost);
        paid = paid.wrapping_add(lots.unit);
    }
    run
}

// Units that fall short cost their share; the first of these costs is that of a quantity.
fn add_short(next: &mut [i64], share: i64, first: i64) {
    let mut paid = first;
    for cell in next.iter_mut() {
        *cell = cell.saturating_add(paid).min(NONE);
        paid = paid.wrapping_sub(share);
    }
}

// Each cost is that of another row.
fn copy(to: &mut [i64], from: &[i64]) {
    for (cell, cost) in to.iter_mut().zip(from) {
        *cell = *cost;
    }
}

// There is no plan of these quantities.
pub(crate) fn clear(list: &mut [i64]) {
    for cell in list.iter_mut() {
        *cell = NONE;
    }
}

impl Windows {
    // Without memory.
    pub(crate) fn new(alloc: Global) -> Windows {
        Windows {
            after: Vec::new(alloc),
        }
    }

    // There is room for so many quantities.
    pub(crate) fn begin(&mut self, width: usize) -> Result<(), AllocError> {
        self.after.resize(width, NONE)
    }

    // The costs of the quantities from the first window on, block by block; the first ones of the first block have no cost that is
    // wanted.
    fn write_blocks(&mut self, next: &mut [i64], before: &[i64], lots: Lots, first: usize) {
        let skipped = part(before, 0, first);
        let mut run = run_over(
            skipped,
            lots.unit,
            Running {
                least: NONE,
                paid: 0,
            },
        );
        let mut place = first;
        let mut stop = lots.block;
        clear(part_mut(&mut self.after, 0, lots.block));
        for _block in 0..before.len() {
            let count = stop.saturating_sub(place);
            let cells = part_mut(next, place.saturating_sub(first), count);
            let costs = part(before, place, count);
            let rest = part(&self.after, lots.block.saturating_sub(count), count);
            run = write_block(cells, costs, rest, lots, run);
            if stop >= before.len() {
                break;
            }
            let block = part(before, stop.saturating_sub(lots.block), lots.block);
            write_after(&mut self.after, block, lots.unit, run.paid);
            run.least = NONE;
            place = stop;
            stop = stop.saturating_add(lots.block);
        }
    }

    // The row after a period, within its band, by that before it. Quantities of the row before that are beyond its band have no plan.
    pub(crate) fn write_next(
        &mut self,
        next: &mut [i64],
        before: &mut [i64],
        from: Band,
        to: Band,
        term: Term,
    ) {
        clear(part_mut(before, from.end, to.end.saturating_sub(from.end)));
        let cells = part_mut(next, to.low, to.count());
        if term.largest == 0 {
            copy(cells, part(before, to.low, to.count()));
        } else {
            let lots = Lots {
                fee: term.fee,
                unit: term.unit,
                block: term.lot().saturating_add(1),
            };
            let start = from.low.max(to.low.saturating_sub(term.lot()));
            let costs = part(before, start, to.end.saturating_sub(start));
            self.write_blocks(cells, costs, lots, to.low.saturating_sub(start));
        }
        let shorts = part_mut(next, to.low, to.shorts(term));
        add_short(shorts, term.share, term.short_cost(to.low));
    }
}
