// Costs of states of three levels: which lot of the middle level is open, which lot of the lowest level serves it, and which
// lot of the top level comes next.
use crate::level::{Levels, Lots, NONE};
use crate::numbers::{
    at, forget, grow, lower, part, part_mut, plus, put_back, serve_next, take_off,
};
use std::alloc::{AllocError, Global};

/// The costs of states. There is a row for each lot of the middle level and each lot of the lowest one up to it, where both
/// may be set up. It has an entry for each later lot of the top level, and one for the end.
#[derive(Debug, Drop)]
pub(crate) struct States {
    costs: Vec<i64>,
    // What is paid before a lot of the middle level is entered, a row for each lot of the lowest level, and that lot.
    gaps: Vec<i64>,
    gap_lot: usize,
    // What is paid before a lot of the lowest level, where a lot of the middle level is entered.
    entered: Vec<i64>,
    // What it costs to go from one lot of the top level to another, without what goes into its units.
    top_costs: Vec<i64>,
    // How many lots of the lowest level there may be.
    served: usize,
    width: usize,
}

// A state: lots of the lowest and of the middle level, and the next lot of the top level.
#[derive(Clone, Copy, Debug)]
pub(crate) struct State {
    pub(crate) low: usize,
    pub(crate) mid: usize,
    pub(crate) next: usize,
}

// A row of states, from a lot of the top level on, is completed by lots of the top level, where what goes into a unit costs
// so much.
fn go_on_dear(row: &mut [i64], top: &Lots, below: i64, first: usize) {
    let length = row.len();
    let mut place = 0usize;
    for lot in first..top.count() {
        let paid = plus(at(row, place), top.fee(lot));
        place = place.wrapping_add(1);
        if paid < NONE {
            let rest = part_mut(row, place, length);
            let asked = part(&top.asked, lot.wrapping_add(1), usize::MAX);
            serve_next(
                rest,
                asked,
                paid,
                top.price(lot, below),
                at(&top.asked, lot),
            );
        }
    }
}

// The same where products fit. What goes into all units up to a lot costs the same however they are made: it is taken off
// first and put back afterwards.
fn go_on(row: &mut [i64], top: &Lots, costs: &[i64], below: i64, first: usize) {
    let end = top.count();
    let width = end.saturating_add(1);
    let length = row.len();
    let asked = part(&top.asked, first, width);
    take_off(row, asked, below);
    let mut place = 0usize;
    for lot in first..end {
        let paid = at(row, place);
        place = place.wrapping_add(1);
        if paid < NONE && !top.is_closed(lot) {
            let start = lot.wrapping_mul(width);
            let stop = start.wrapping_add(width);
            let next = part(costs, start.wrapping_add(lot).wrapping_add(1), stop);
            lower(part_mut(row, place, length), next, paid);
        }
    }
    put_back(row, asked, below);
}

impl States {
    // No states, without memory.
    pub(crate) fn new(alloc: Global) -> States {
        States {
            costs: Vec::new(alloc),
            gaps: Vec::new(alloc),
            gap_lot: 0,
            entered: Vec::new(alloc),
            top_costs: Vec::new(alloc),
            served: 0,
            width: 0,
        }
    }

    // There is room for so many lots of the middle level, and of the lowest one.
    fn begin(&mut self, lots: usize, served: usize) -> Result<(), AllocError> {
        self.served = served;
        self.width = lots.saturating_add(1);
        self.gap_lot = 0;
        let plane = served.saturating_mul(self.width);
        grow(&mut self.entered, self.width)?;
        grow(&mut self.gaps, plane)?;
        grow(&mut self.top_costs, lots.saturating_mul(self.width))?;
        grow(&mut self.costs, plane.saturating_mul(lots))
    }

    // Where a row begins.
    fn start(&self, low: usize, mid: usize) -> usize {
        mid.wrapping_mul(self.served)
            .wrapping_add(low)
            .wrapping_mul(self.width)
    }

    // What a state costs.
    pub(crate) fn get(&self, state: State) -> i64 {
        at(
            &self.costs,
            self.start(state.low, state.mid).wrapping_add(state.next),
        )
    }

    // Writes what it costs to go from one lot of the top level to another.
    fn fill_top(&mut self, top: &Lots) {
        for lot in 0..top.count() {
            let start = lot.wrapping_mul(self.width);
            let stop = start.wrapping_add(self.width);
            let next = lot.wrapping_add(1);
            let row = part_mut(&mut self.top_costs, start.wrapping_add(next), stop);
            forget(row);
            if !top.is_closed(lot) {
                let asked = part(&top.asked, next, usize::MAX);
                serve_next(
                    row,
                    asked,
                    top.fee(lot),
                    top.price(lot, 0),
                    at(&top.asked, lot),
                );
            }
        }
    }

    // Writes what is paid before lot `to` of the middle level, where its lot before is served by lot `served`.
    fn fill_gap(&mut self, levels: Levels<'_>, served: usize, to: usize) {
        let start = served.wrapping_mul(self.width);
        let stop = start.wrapping_add(self.width);
        let gap = part_mut(&mut self.gaps, start.wrapping_add(to), stop);
        if served >= self.gap_lot {
            forget(gap);
        }
        for lot in served.max(self.gap_lot)..to {
            let more = levels.mid_cost(served, lot, to);
            if more < NONE && !levels.mid.is_closed(lot) {
                let begin = lot
                    .wrapping_mul(self.served)
                    .wrapping_add(served)
                    .wrapping_mul(self.width);
                let stop = begin.wrapping_add(self.width);
                lower(gap, part(&self.costs, begin.wrapping_add(to), stop), more);
            }
        }
    }

    // Writes what is paid before lot `to` of the middle level. Where nothing was asked of the level since they were written
    // last, only the lots since then are new.
    fn fill_gaps(&mut self, levels: Levels<'_>, to: usize) {
        if levels.mid.units(self.gap_lot, to) > 0 {
            self.gap_lot = 0;
        }
        for served in 0..to.min(self.served) {
            if !levels.low.is_closed(served) {
                self.fill_gap(levels, served, to);
            }
        }
        self.gap_lot = to;
    }

    // Writes what is paid before lot `to` of the lowest level where a lot of the middle level is entered, if its lots before
    // `from` are written.
    fn fill_entered(&mut self, levels: Levels<'_>, lot: usize, from: usize, to: usize) {
        let entered = part_mut(&mut self.entered, lot, self.width);
        for served in from..to {
            let more = levels.low_cost(served, to);
            if more < NONE && !levels.low.is_closed(served) {
                let begin = lot
                    .wrapping_mul(self.served)
                    .wrapping_add(served)
                    .wrapping_mul(self.width);
                let stop = begin.wrapping_add(self.width);
                lower(
                    entered,
                    part(&self.costs, begin.wrapping_add(lot), stop),
                    more,
                );
            }
        }
    }

    // Writes the row of a lot of the middle level that is entered with lot `served` of the lowest one.
    fn enter(&mut self, levels: Levels<'_>, served: usize, lot: usize) {
        let start = self.start(served, lot);
        let stop = start.wrapping_add(self.width);
        let row = part_mut(&mut self.costs, start.wrapping_add(lot), stop);
        forget(row);
        if served < lot {
            let begin = served.wrapping_mul(self.width);
            let stop = begin.wrapping_add(self.width);
            lower(
                row,
                part(&self.gaps, begin.wrapping_add(lot), stop),
                levels.mid.fee(lot),
            );
        }
        lower(
            row,
            part(&self.entered, lot, self.width),
            levels.low.fee(served),
        );
    }

    // Writes all rows of a lot of the middle level that is entered.
    fn enter_all(&mut self, levels: Levels<'_>, lot: usize) {
        forget(part_mut(&mut self.entered, lot, self.width));
        let mut from = 0;
        for served in 0..lot.saturating_add(1).min(self.served) {
            if !levels.low.is_closed(served) {
                if levels.low.units(from, served) > 0 {
                    forget(part_mut(&mut self.entered, lot, self.width));
                    from = 0;
                }
                self.fill_entered(levels, lot, from, served);
                from = served;
                self.enter(levels, served, lot);
            }
        }
    }

    // Goes on with the top level in a row.
    fn complete(&mut self, levels: Levels<'_>, served: usize, lot: usize) {
        let below = levels.into_top(served, lot);
        let first = lot.max(1);
        let start = self.start(served, lot);
        let stop = start.wrapping_add(self.width);
        let row = part_mut(&mut self.costs, start.wrapping_add(first), stop);
        if below.saturating_mul(levels.top.total()) < NONE {
            go_on(row, levels.top, &self.top_costs, below, first);
        } else {
            go_on_dear(row, levels.top, below, first);
        }
    }

    // Writes all rows of a lot of the middle level.
    fn fill_lot(&mut self, levels: Levels<'_>, lot: usize) {
        self.fill_gaps(levels, lot);
        self.enter_all(levels, lot);
        for served in 0..lot.saturating_add(1).min(self.served) {
            if !levels.low.is_closed(served) {
                self.complete(levels, served, lot);
            }
        }
    }

    // Writes the row where all levels are at lot 0: nothing is paid yet.
    fn start_with_stock(&mut self, levels: Levels<'_>) {
        let row = part_mut(&mut self.costs, 0, self.width);
        forget(row);
        lower(row, part(&self.top_costs, 0, self.width), 0);
        if let Some(cost) = row.first_mut() {
            *cost = 0;
        }
        self.complete(levels, 0, 0);
    }

    // Finds the costs of all states, with the first lots of the lowest level only, as many as are wanted.
    pub(crate) fn fill(&mut self, levels: Levels<'_>, served: usize) -> Result<(), AllocError> {
        let lots = levels.top.count();
        self.begin(lots, served)?;
        self.fill_top(levels.top);
        self.start_with_stock(levels);
        for lot in 1..lots {
            if !levels.mid.is_closed(lot) {
                self.fill_lot(levels, lot);
            }
        }
        Ok(())
    }
}
