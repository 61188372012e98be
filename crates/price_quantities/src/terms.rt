// What lots of an item cost, and what is asked of it.
use crate::numbers::{NONE, at, place, quantity, within};

// The prices of all units together are at most so small a part of all costs.
const PARTS: i64 = 4;

/// What lots of an item cost, and what is asked of it: lists with an entry for each period, of which those of `fee` say how many
/// there are. Numbers below 0 are read as 0.
#[derive(Clone, Copy)]
pub struct Terms<'a> {
    /// The cost of a setup.
    pub fee: &'a [i64],
    /// The cost of a unit.
    pub unit: &'a [i64],
    /// Units that must have been started by the end of each period.
    pub need: &'a [i64],
    /// Units that are asked to have been started by then, of which some may fall short.
    pub asked: &'a [i64],
    /// What each unit costs that falls short of them.
    pub share: &'a [i64],
    /// The most units that a setup makes.
    pub largest: &'a [i64],
}

// What a lot of a period costs, and what is asked by its end.
#[derive(Clone, Copy)]
pub(crate) struct Term {
    pub(crate) fee: i64,
    pub(crate) unit: i64,
    pub(crate) need: i64,
    pub(crate) asked: i64,
    pub(crate) share: i64,
    pub(crate) largest: i64,
}

// The greatest number of a list, and 0.
fn greatest(list: &[i64]) -> i64 {
    let mut most = 0i64;
    for number in list {
        most = most.max(*number);
    }
    most
}

// Terms as they are planned: prices are so low that no sum of them is past all costs.
#[derive(Clone, Copy)]
pub(crate) struct Task<'a> {
    pub(crate) terms: Terms<'a>,
    // How many quantities there are, from none on.
    pub(crate) width: usize,
    // The largest quantity.
    most: i64,
    // The largest price of a unit.
    price: i64,
    // A setup that costs so much or more is none.
    dear: i64,
}

impl Terms<'_> {
    // Those of a period, counted from 0.
    pub(crate) fn of(&self, period: usize) -> Term {
        Term {
            fee: within(at(self.fee, period)),
            unit: within(at(self.unit, period)),
            need: within(at(self.need, period)),
            asked: within(at(self.asked, period)),
            share: within(at(self.share, period)),
            largest: within(at(self.largest, period)),
        }
    }
}

impl<'a> Task<'a> {
    // Lots cost less than `dear`.
    pub(crate) fn of(terms: Terms<'a>, dear: i64) -> Task<'a> {
        let most = greatest(terms.need).max(greatest(terms.asked));
        let parts = most.saturating_add(1).saturating_mul(PARTS);
        Task {
            terms,
            width: place(most).saturating_add(1),
            most,
            price: NONE.checked_div(parts).unwrap_or(0),
            dear,
        }
    }

    // How many periods there are.
    pub(crate) fn periods(&self) -> usize {
        self.terms.fee.len()
    }

    // What must have been started in the end.
    pub(crate) fn last_need(&self) -> i64 {
        within(at(self.terms.need, self.periods().saturating_sub(1)))
    }

    // The terms of a period, counted from 0. Where there is no lot the largest one is 0.
    pub(crate) fn term(&self, period: usize) -> Term {
        let mut term = self.terms.of(period);
        term.largest = term.largest.min(self.most);
        if term.fee >= self.dear || term.unit >= NONE {
            term.largest = 0;
        }
        term.unit = term.unit.min(self.price);
        term.share = term.share.min(self.price);
        term
    }
}

impl Term {
    // The most units that a setup makes, as a place in a row.
    pub(crate) fn lot(&self) -> usize {
        place(self.largest)
    }

    // What falls short of what is asked, where so much has been started.
    pub(crate) fn short(&self, started: usize) -> i64 {
        self.asked.saturating_sub(quantity(started)).max(0)
    }

    // What that costs.
    pub(crate) fn short_cost(&self, started: usize) -> i64 {
        self.share.wrapping_mul(self.short(started))
    }
}
