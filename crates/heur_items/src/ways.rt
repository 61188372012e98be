// An item's lots by a recursion over whole blocks of periods, while the lots of all other items stay as they are.
use crate::task::{Task, amount_at, cost_at, is_at_most, most_at};
use std::alloc::{AllocError, Global};

// A cheapest way to meet what is needed up to a period: as up to an earlier one, and by a lot of one period for the rest.
#[derive(Clone, Copy)]
struct Way {
    cost: i128,
    // The last period that the lots before meet.
    before: u32,
    // The period of the lot, if something is needed in the rest.
    server: Option<u32>,
}

// The cheaper one of two ways.
fn cheaper(one: Option<Way>, other: Option<Way>) -> Option<Way> {
    match (one, other) {
        (Some(first), Some(second)) if second.cost < first.cost => other,
        (None, _) => other,
        _ => one,
    }
}

// The way up to a period, if one was found.
fn way_at(ways: &[Option<Way>], period: u32) -> Option<Way> {
    match ways.get(period as usize) {
        Some(way) => *way,
        None => None,
    }
}

impl Task {
    // Units that are needed after one period and up to another.
    fn units(&self, before: u32, last: u32) -> u64 {
        amount_at(&self.needed, last).saturating_sub(amount_at(&self.needed, before))
    }

    // What units cost that a lot makes for periods after it, or for its own.
    fn early_cost(&self, server: u32, before: u32, last: u32) -> i128 {
        let price = cost_at(&self.unit, server).saturating_sub(cost_at(&self.held, server));
        let held = cost_at(&self.held_sum, last).saturating_sub(cost_at(&self.held_sum, before));
        i128::from(self.units(before, last))
            .saturating_mul(price)
            .saturating_add(held)
    }

    // What units cost that a lot makes for periods before it.
    fn late_cost(&self, server: u32, before: u32, last: u32) -> i128 {
        let price = cost_at(&self.unit, server).saturating_add(cost_at(&self.owed, server));
        let owed = cost_at(&self.owed_sum, last).saturating_sub(cost_at(&self.owed_sum, before));
        i128::from(self.units(before, last))
            .saturating_mul(price)
            .saturating_sub(owed)
    }

    // What a lot costs that makes what is needed after one period and up to another.
    fn lot_cost(&self, server: u32, before: u32, last: u32) -> i128 {
        let turn = server.saturating_sub(1).max(before).min(last);
        cost_at(&self.setup, server)
            .saturating_add(self.late_cost(server, before, turn))
            .saturating_add(self.early_cost(server, turn, last))
    }

    // The way with such a lot.
    fn way_with(&self, ways: &[Option<Way>], server: u32, before: u32, last: u32) -> Option<Way> {
        let way = way_at(ways, before)?;
        Some(Way {
            cost: way.cost.saturating_add(self.lot_cost(server, before, last)),
            before,
            server: Some(server),
        })
    }

    // The cheapest way up to a period whose last lot is one of another period: there is time for it, and components.
    fn way_by(&self, ways: &[Option<Way>], last: u32, server: u32) -> Option<Way> {
        let needed = amount_at(&self.needed, last);
        if !is_at_most(needed, most_at(&self.allowed, server)) {
            return None;
        }
        let most = most_at(&self.largest, server);
        let mut best = None;
        for back in 0..last {
            let before = last - 1 - back;
            let is_late = before + 1 < server;
            if (is_late && !self.late) || !is_at_most(self.units(before, last), most) {
                return best;
            }
            best = cheaper(best, self.way_with(ways, server, before, last));
        }
        best
    }

    // Whether what is needed in a period is made more cheaply in it than together with that of periods before.
    fn is_too_early(&self, server: u32, last: u32) -> bool {
        let before = last.saturating_sub(1);
        let units = self.units(before, last);
        let may = is_at_most(units, most_at(&self.largest, last))
            && is_at_most(amount_at(&self.needed, last), most_at(&self.allowed, last));
        may && self.early_cost(server, before, last) > self.lot_cost(last, before, last)
    }

    // The cheapest way up to a period whose last lot isn't made after it.
    fn way_in_time(&self, ways: &[Option<Way>], last: u32) -> Option<Way> {
        let mut best = None;
        for back in 0..last {
            let server = last - back;
            if self.is_too_early(server, last) {
                return best;
            }
            best = cheaper(best, self.way_by(ways, last, server));
        }
        best
    }

    // The cheapest way up to a period whose last lot is made after it.
    fn way_in_arrears(&self, ways: &[Option<Way>], last: u32) -> Option<Way> {
        let mut best = None;
        for before in last..self.periods {
            best = cheaper(best, self.way_by(ways, last, before + 1));
        }
        best
    }

    // The cheapest way up to a period. Where nothing is needed in it, it is that up to the period before.
    fn way_to(&self, ways: &[Option<Way>], last: u32) -> Option<Way> {
        let before = last.saturating_sub(1);
        if self.units(before, last) == 0 {
            let way = way_at(ways, before)?;
            return Some(Way {
                cost: way.cost,
                before,
                server: None,
            });
        }
        let best = self.way_in_time(ways, last);
        if self.late {
            cheaper(best, self.way_in_arrears(ways, last))
        } else {
            best
        }
    }

    // The cheapest ways up to all periods, and before the first one.
    fn ways(&self, alloc: Global) -> Result<Vec<Option<Way>>, AllocError> {
        let none = Way {
            cost: 0,
            before: 0,
            server: None,
        };
        let mut ways = Vec::new(alloc);
        ways.push(Some(none))?;
        for step in 0..self.periods {
            let way = self.way_to(&ways, step + 1);
            ways.push(way)?;
        }
        Ok(ways)
    }

    // Puts the lot of a way up to a period, if it has one.
    fn put_lot(&self, way: Way, last: u32, lots: &mut [u64]) {
        if let Some(server) = way.server {
            if let Some(lot) = lots.get_mut(server as usize) {
                *lot = lot.saturating_add(self.units(way.before, last));
            }
        }
    }

    /// The lots of a cheapest way to meet all that is needed, each for whole periods one after the other, by period, after an
    /// entry that stands before the first. None where no way was found.
    pub(crate) fn lots(&self, alloc: Global) -> Result<Option<Vec<u64>>, AllocError> {
        let ways = self.ways(alloc)?;
        let mut lots = vec![in alloc; 0u64; self.largest.len()]?;
        let mut last = self.periods;
        for _step in 0..self.periods {
            let Some(way) = way_at(&ways, last) else {
                return Ok(None);
            };
            self.put_lot(way, last, &mut lots);
            last = way.before;
        }
        Ok(Some(lots))
    }
}
