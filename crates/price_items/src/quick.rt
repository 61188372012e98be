// The recursion over servers of one item, where all numbers fit 64 bits: most items at most prices.
use crate::costs::Costs;
use crate::pricing::Item;
use crate::recursion::Served;
use integer_grids::numbers::{less, plus, times};
use std::alloc::{AllocError, Global};

// No cost is as large where all numbers fit.
const NO_COST: i64 = i64::MAX / 2;

// Up to here sums of two costs fit.
const MOST_COST: i64 = i64::MAX / 8;

// A server: a period that may make units.
#[derive(Clone, Copy, Debug)]
struct Server {
    // What a unit costs, less what it costs to hold it from the first period to this one, and with what it costs to owe it as long.
    early: i64,
    late: i64,
    // What it costs to hold a unit from the first period to this one, and to owe it.
    held: i64,
    owed: i64,
    setup: i64,
    // What all positions so far cost with this server for the last one, and the first position of that block.
    cost: i64,
    start: u32,
}

// The largest numbers of all servers, without their signs.
#[derive(Clone, Copy)]
struct Most {
    unit: i64,
    stock: i64,
    setup: i64,
}

// The cheapest server of a position so far.
#[derive(Clone, Copy)]
struct Cheapest {
    cost: i64,
    server: u32,
    start: u32,
}

// A position: its number, how much is asked, and what all positions before it cost.
#[derive(Clone, Copy)]
struct Position {
    number: u32,
    asked: i64,
    before: i64,
}

/// The servers of an item, in numbers of 64 bits.
#[derive(Debug, Drop)]
pub(crate) struct Quick {
    servers: Vec<Server>,
}

// A number without its sign.
fn size(number: i64) -> i64 {
    number.saturating_abs()
}

// What a server costs more for a position: units early or late.
fn unit_cost(server: &Server, is_late: bool) -> i64 {
    if is_late { server.late } else { server.early }
}

// A position is served by some servers, the first of which comes after so many periods: all of them go on or begin, and the
// cheapest one is taken, where it is cheaper than the one at hand.
fn serve(
    servers: &mut [Server],
    is_late: bool,
    more: i64,
    position: Position,
    first: u32,
    best: Cheapest,
) -> Cheapest {
    let mut best = best;
    let mut number = first;
    for server in servers.iter_mut() {
        number = number.wrapping_add(1);
        let begun = position.before.wrapping_add(server.setup);
        if begun < server.cost {
            server.cost = begun;
            server.start = position.number;
        }
        let unit = unit_cost(server, is_late).wrapping_add(more);
        let cost = server.cost.wrapping_add(position.asked.wrapping_mul(unit));
        server.cost = cost;
        if cost < best.cost {
            best = Cheapest {
                cost,
                server: number,
                start: server.start,
            };
        }
    }
    best
}

impl Quick {
    // It takes no memory.
    pub(crate) fn new(alloc: Global) -> Quick {
        Quick {
            servers: Vec::new(alloc),
        }
    }

    // What units cost, and no server is open.
    fn begin(&mut self, costs: &Costs) -> Result<Most, AllocError> {
        let mut most = Most {
            unit: 0,
            stock: 0,
            setup: 0,
        };
        self.servers.clear();
        let (mut held, mut owed) = (0i64, 0i64);
        let stocks = costs.hold.iter().zip(costs.back.iter());
        let units = costs.unit.iter().zip(costs.setup.iter());
        for ((unit, setup), (hold, back)) in units.zip(stocks) {
            let (early, late) = (less(*unit, held), plus(*unit, owed));
            most.unit = most.unit.max(size(early)).max(size(late));
            most.stock = most.stock.max(size(held)).max(size(owed));
            most.setup = most.setup.max(size(*setup));
            self.servers.push(Server {
                early,
                late,
                held,
                owed,
                setup: *setup,
                cost: NO_COST,
                start: 0,
            })?;
            held = plus(held, *hold);
            owed = plus(owed, *back);
        }
        Ok(most)
    }

    // Whether no sum of costs can get too large.
    fn fits(&self, item: &Item, most: Most) -> bool {
        let blocks = i64::try_from(self.servers.len()).unwrap_or(i64::MAX);
        let units = times(item.total, plus(most.unit, most.stock));
        plus(units, times(blocks, most.setup)) <= MOST_COST
    }

    // The server of a period, counted from 1.
    fn stocks(&self, period: u32) -> (i64, i64) {
        match self.servers.get((period as usize).wrapping_sub(1)) {
            Some(server) => (server.held, server.owed),
            None => (0, 0),
        }
    }

    // A position is served by the periods up to it, and by later ones where it may be owed.
    fn serve_one(&mut self, period: u32, position: Position, may_wait: bool) -> Cheapest {
        let none = Cheapest {
            cost: i64::MAX,
            server: 0,
            start: 0,
        };
        let (held, owed) = self.stocks(period);
        let split = (period as usize).min(self.servers.len());
        let (first, last) = self.servers.split_at_mut(split);
        let best = serve(first, false, held, position, 0, none);
        if !may_wait {
            return best;
        }
        serve(last, true, less(0, owed), position, period, best)
    }

    // A cheapest way to serve what remains to be made of an item, where all numbers fit: one entry for each position. The answer
    // is whether they do; the list is cleared where not.
    pub(crate) fn serve_all(
        &mut self,
        item: &Item,
        costs: &Costs,
        places: &mut Vec<Served>,
    ) -> Result<bool, AllocError> {
        places.clear();
        let most = self.begin(costs)?;
        if !self.fits(item, most) {
            return Ok(false);
        }
        let mut before = 0i64;
        let (mut period, mut number) = (0u32, 0u32);
        for asked in item.net.iter() {
            period = period.wrapping_add(1);
            if *asked == 0 {
                continue;
            }
            number = number.wrapping_add(1);
            let position = Position {
                number,
                asked: *asked,
                before,
            };
            let best = self.serve_one(period, position, item.backlogged);
            before = best.cost;
            places.push(Served {
                period,
                server: best.server,
                start: best.start,
                cost: i128::from(best.cost),
            })?;
        }
        Ok(true)
    }
}
