// The lots of an item by a recursion over periods and what has been made so far.
use crate::shop::FAR;
use crate::windows::{Least, Window};
use integer_grids::numbers::{at, less, plus, times, write};
use std::alloc::{AllocError, Global};

/// What a lot of a period costs, and how large it may be.
#[derive(Clone, Copy)]
pub(crate) struct Offer {
    /// What a setup costs, and a unit.
    pub(crate) setup: i64,
    pub(crate) unit: i64,
    /// The least and the largest lot, in units.
    pub(crate) least: i64,
    pub(crate) most: i64,
    /// The largest lot for which there is time, and what a unit more costs.
    pub(crate) room: i64,
    pub(crate) over: i64,
}

// A way to have made so much, and the place of the level before.
#[derive(Clone, Copy)]
struct Way {
    cost: i64,
    before: usize,
}

// The cheaper one of two ways, of which the second one may be missing: it costs so much more than its number.
fn cheaper(way: Way, other: Option<Least>, more: i64) -> Way {
    match other {
        Some(least) => {
            let cost = plus(least.number, more);
            if cost < way.cost {
                Way {
                    cost,
                    before: least.place,
                }
            } else {
                way
            }
        }
        None => way,
    }
}

// The ways by a lot of a period, to levels that rise: within its time, and past it.
#[derive(Drop)]
struct Lots {
    offer: Offer,
    near: Window,
    far: Window,
}

impl Lots {
    fn new(alloc: Global, offer: Offer) -> Lots {
        Lots {
            offer,
            near: Window::new(alloc),
            far: Window::new(alloc),
        }
    }

    // The better one of a way and the best one by a lot within the time.
    fn within(
        &mut self,
        levels: &[i64],
        costs: &[i64],
        level: i64,
        way: Way,
    ) -> Result<Way, AllocError> {
        let Offer {
            setup,
            unit,
            least,
            most,
            room,
            ..
        } = self.offer;
        if room.min(most) < least {
            return Ok(way);
        }
        self.near.advance(levels, costs, unit, less(level, least))?;
        self.near.trim(less(level, room.min(most)));
        let more = plus(setup, times(unit, level));
        Ok(cheaper(way, self.near.least(), more))
    }

    // The better one of a way and the best one by a lot past the time.
    fn past(
        &mut self,
        levels: &[i64],
        costs: &[i64],
        level: i64,
        way: Way,
    ) -> Result<Way, AllocError> {
        let Offer {
            setup,
            unit,
            least,
            most,
            room,
            over,
        } = self.offer;
        let first = least.max(plus(room, 1));
        if most < first {
            return Ok(way);
        }
        let rate = plus(unit, over);
        self.far.advance(levels, costs, rate, less(level, first))?;
        self.far.trim(less(level, most));
        let more = less(plus(setup, times(rate, level)), times(over, room));
        Ok(cheaper(way, self.far.least(), more))
    }
}

// What it costs to have made so much by the end of a period: in stock or owed when the lots then arrived, outside the bounds of the end
// stock, and in components.
#[derive(Clone, Copy)]
struct Stage {
    hold: i64,
    owed: i64,
    needed: i64,
    end_min: i64,
    end_max: i64,
    outside: i64,
    saved: i64,
    allowed: i64,
    missing: i64,
}

impl Stage {
    // What a level costs.
    fn cost(&self, level: i64) -> i64 {
        let stock = less(level, self.needed);
        let rate = if stock < 0 {
            less(0, self.owed)
        } else {
            self.hold
        };
        let mut cost = less(times(rate, stock), times(self.saved, level));
        if level > self.allowed {
            cost = plus(cost, times(self.missing, less(level, self.allowed)));
        }
        if stock < self.end_min {
            cost = plus(cost, times(self.outside, less(self.end_min, stock)));
        }
        if stock > self.end_max {
            cost = plus(cost, times(self.outside, less(stock, self.end_max)));
        }
        cost
    }
}

/// What an item has to make in some periods, and what that costs. The lists have an entry for each period, counted from 1.
#[derive(Drop)]
pub(crate) struct Task {
    pub(crate) periods: u32,
    pub(crate) lead: u32,
    /// The first of these periods.
    pub(crate) first: u32,
    /// How much may have been made so far: these levels, which rise from what was made before.
    pub(crate) levels: Vec<i64>,
    /// Whether any level may be the last one, or the highest alone.
    pub(crate) free: bool,
    /// Units that are asked for up to each period, less the opening stock.
    pub(crate) needed: Vec<i64>,
    /// What a unit costs in stock, and one that is owed.
    pub(crate) hold: Vec<i64>,
    pub(crate) owed: Vec<i64>,
    /// The bounds of the end stock, and what a unit outside of them costs.
    pub(crate) end_min: i64,
    pub(crate) end_max: i64,
    pub(crate) outside: i64,
    /// What a unit that has been made by a period saves there, since its components aren't held.
    pub(crate) saved: Vec<i64>,
    /// Units that may have been made, as far as the lots of the components go, and what a unit more costs in each period.
    pub(crate) allowed: Vec<i64>,
    pub(crate) missing: i64,
    /// What is offered in each of these periods.
    pub(crate) offers: Vec<Offer>,
}

impl Task {
    // What it costs to have made so much by the end of a period.
    fn stage(&self, period: u32) -> Stage {
        let arrival = period.saturating_add(self.lead);
        let is_last = arrival == self.periods;
        Stage {
            hold: at(&self.hold, arrival),
            owed: at(&self.owed, arrival),
            needed: at(&self.needed, arrival),
            end_min: if is_last { self.end_min } else { less(0, FAR) },
            end_max: if is_last { self.end_max } else { FAR },
            outside: self.outside,
            saved: at(&self.saved, period),
            allowed: at(&self.allowed, period),
            missing: self.missing,
        }
    }

    // The costs of all levels after a period, and the places of the levels before, which are added to a list.
    fn costs_after(
        &self,
        alloc: Global,
        period: u32,
        offer: Offer,
        costs: &[i64],
        places: &mut Vec<usize>,
    ) -> Result<Vec<i64>, AllocError> {
        let mut list = Vec::with_capacity(alloc, costs.len())?;
        let mut lots = Lots::new(alloc, offer);
        let stage = self.stage(period);
        for (place, (level, cost)) in self.levels.iter().zip(costs.iter()).enumerate() {
            let stay = Way {
                cost: *cost,
                before: place,
            };
            let near = lots.within(&self.levels, costs, *level, stay)?;
            let way = lots.past(&self.levels, costs, *level, near)?;
            let more = stage.cost(*level);
            list.push(if way.cost < FAR {
                plus(way.cost, more)
            } else {
                FAR
            })?;
            places.push(way.before)?;
        }
        Ok(list)
    }

    // The costs before the first of the periods: the first level stands.
    fn first_costs(&self, alloc: Global) -> Result<Vec<i64>, AllocError> {
        let mut list = vec![in alloc; FAR; self.levels.len()]?;
        write(&mut list, 1, 0);
        Ok(list)
    }

    // The place of the level at which the cheapest way ends, if there is a way.
    fn cheapest(costs: &[i64]) -> Option<usize> {
        let mut best = None;
        let mut least = FAR;
        for (place, cost) in costs.iter().enumerate() {
            if *cost < least {
                least = *cost;
                best = Some(place);
            }
        }
        best
    }

    // The place of the last level, if a way ends there.
    fn highest(costs: &[i64]) -> Option<usize> {
        match costs.last() {
            Some(cost) if *cost < FAR => Some(costs.len().wrapping_sub(1)),
            _ => None,
        }
    }

    // The level at a place.
    fn level(&self, place: usize) -> i64 {
        match self.levels.get(place) {
            Some(level) => *level,
            None => 0,
        }
    }

    // The lots of a way that ends at a place, found back from the last of the periods.
    fn lots_back(
        &self,
        alloc: Global,
        places: &[usize],
        end: usize,
    ) -> Result<Vec<i64>, AllocError> {
        let many = self.offers.len();
        let mut lots = vec![in alloc; 0i64; many]?;
        let mut place = end;
        for back in 0..many {
            let step = many - 1 - back;
            let row = step.wrapping_mul(self.levels.len());
            let before = match places.get(row.wrapping_add(place)) {
                Some(before) => *before,
                None => place,
            };
            if let Some(lot) = lots.get_mut(step) {
                *lot = less(self.level(place), self.level(before));
            }
            place = before;
        }
        Ok(lots)
    }

    /// The lots of a cheapest way, by period. None where there is no way. The error is that memory ran out.
    pub(crate) fn lots(&self, alloc: Global) -> Result<Option<Vec<i64>>, AllocError> {
        let mut costs = self.first_costs(alloc)?;
        let mut places = Vec::new(alloc);
        let mut period = self.first;
        for offer in self.offers.iter() {
            costs = self.costs_after(alloc, period, *offer, &costs, &mut places)?;
            period = period.saturating_add(1);
        }
        let end = if self.free {
            Task::cheapest(&costs)
        } else {
            Task::highest(&costs)
        };
        match end {
            Some(end) => Ok(Some(self.lots_back(alloc, &places, end)?)),
            None => Ok(None),
        }
    }
}
