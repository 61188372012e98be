// The way back through the states of a cheapest plan.
use crate::level::{Levels, NONE};
use crate::numbers::{plus, times};
use crate::quantities::Quantities;
use crate::states::{State, States};
use crate::stretches::Stretches;

// A state and what it costs to come from it to another one, or to the end.
#[derive(Clone, Copy, Debug)]
pub(crate) struct Step {
    pub(crate) from: State,
    pub(crate) cost: i64,
}

// The cheaper one of two steps, the first one where they cost as much.
fn cheaper(one: Step, other: Step) -> Step {
    if other.cost < one.cost { other } else { one }
}

/// What a chain is planned by: its levels, and the tables of their costs.
#[derive(Clone, Copy)]
pub(crate) struct Solved<'a> {
    pub(crate) levels: Levels<'a>,
    pub(crate) stretches: &'a Stretches,
    pub(crate) states: &'a States,
    // How many lots of the lowest level there may be.
    pub(crate) served: usize,
}

/// What is made of all levels.
#[derive(Drop)]
pub(crate) struct Made<'a> {
    pub(crate) low: &'a mut Quantities,
    pub(crate) mid: &'a mut Quantities,
    pub(crate) top: &'a mut Quantities,
}

// No step.
fn no_step() -> Step {
    let from = State {
        low: 0,
        mid: 0,
        next: 0,
    };
    Step { from, cost: NONE }
}

impl Solved<'_> {
    // What it costs to go from a state to lot `to` of the middle level and lot `served` of the lowest one, or to the end.
    fn leave(&self, from: State, served: usize, to: usize) -> Step {
        let units = self.levels.mid_cost(from.low, from.mid, to);
        let more = plus(units, self.stretches.get(from.low, served));
        Step {
            from,
            cost: plus(self.states.get(from), more),
        }
    }

    // The cheapest way to leave a lot of the middle level.
    fn leave_lot(&self, lot: usize, next: usize, served: usize, to: usize) -> Step {
        let mut best = no_step();
        for low in 0..lot.min(served).saturating_add(1).min(self.served) {
            if !self.levels.low.is_closed(low) {
                let from = State {
                    low,
                    mid: lot,
                    next,
                };
                best = cheaper(best, self.leave(from, served, to));
            }
        }
        best
    }

    // The cheapest way to come to lot `to` of the middle level from its lots before, or to the end.
    fn leave_any(&self, next: usize, served: usize, to: usize) -> Step {
        let mut best = no_step();
        for lot in 0..to {
            if !self.levels.mid.is_closed(lot) {
                best = cheaper(best, self.leave_lot(lot, next, served, to));
            }
        }
        best
    }

    /// The last state of a cheapest plan, and what the plan costs.
    pub(crate) fn last_step(&self) -> Step {
        let end = self.levels.top.count();
        self.leave_any(end, end, end)
    }

    // The cheapest way to come to a state by a lot of the top level.
    fn top_step(&self, state: State) -> Step {
        let top = self.levels.top;
        let into = self.levels.into_top(state.low, state.mid);
        let mut best = no_step();
        for lot in state.mid..state.next {
            let from = State { next: lot, ..state };
            let units = times(top.price(lot, into), top.units(lot, state.next));
            let paid = plus(self.states.get(from), top.fee(lot));
            let cost = plus(paid, units);
            best = cheaper(best, Step { from, cost });
        }
        best
    }

    // Adds a lot of the top level to a plan.
    fn add_top(&self, made: &mut Made<'_>, from: State, to: State) {
        let units = self.levels.top.units(from.next, to.next);
        made.top.add(from.next, units);
        made.top.set_up(from.next);
        if from.next > 0 {
            made.mid
                .add(from.mid, times(self.levels.mid.per_next, units));
        }
    }

    // Ends a lot of the middle level that a plan goes on to, and adds what the lot before serves.
    fn add_mid(&self, made: &mut Made<'_>, from: State, to: State) {
        let Levels { low, mid, .. } = self.levels;
        made.mid.set_up(to.mid);
        made.mid.take_from(to.mid, made.low, to.low, low.per_next);
        made.mid.add(from.mid, mid.units(from.mid, to.mid));
        self.stretches.trace(low, made.low, from.low, to.low);
    }

    // One step back from a state, which is added to the plan.
    fn step_back(&self, made: &mut Made<'_>, state: State) -> State {
        let step = self.top_step(state);
        if step.cost < NONE && step.cost <= self.states.get(state) {
            self.add_top(made, step.from, state);
            return step.from;
        }
        let step = self.leave_any(state.next, state.low, state.mid);
        self.add_mid(made, step.from, state);
        step.from
    }

    /// Adds a cheapest plan, by its last state.
    pub(crate) fn trace(&self, made: &mut Made<'_>, last: State) {
        let Levels { low, mid, top } = self.levels;
        let end = top.count();
        made.mid.add(last.mid, mid.units(last.mid, end));
        self.stretches.trace(low, made.low, last.low, end);
        let mut state = last;
        for _ in 0..end.saturating_mul(2) {
            if state.mid > 0 || state.next > 0 {
                state = self.step_back(made, state);
            }
        }
    }
}
