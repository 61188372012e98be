// The recursion over servers of one item (Pochet and Wolsey).
use crate::costs::Costs;
use crate::pricing::Item;
use crate::quick::Quick;
use integer_grids::numbers::{add_times, at, less, plus, refill, wide};
use std::alloc::{AllocError, Global};

// A server that is open: what all positions so far cost with it, and the first position that it serves.
#[derive(Clone, Copy, Debug)]
struct Open {
    cost: i128,
    start: u32,
}

/// Which period serves a position in a cheapest way, from which position on, and what all positions so far cost.
#[derive(Clone, Copy, Debug)]
pub struct Served {
    /// The period that asks.
    pub period: u32,
    /// The period that serves it.
    pub server: u32,
    /// The first position of the same block, counted from 1.
    pub start: u32,
    /// What all positions up to this one cost, times the scale of the prices.
    pub cost: i128,
}

// A position: the period that asks, how much, and what all positions before it cost.
#[derive(Clone, Copy)]
struct Position {
    number: u32,
    period: u32,
    asked: i64,
    before: i128,
}

/// A cheapest way to serve an item by itself: one entry for each position, and the lists that are needed to find it.
#[derive(Debug, Drop)]
pub struct Serving {
    /// The positions served, in order: the periods that ask for something, up to the first one that can't be served at a
    /// cost that fits.
    pub places: Vec<Served>,
    // Whether these are all positions.
    is_whole: bool,
    // The servers, one for each period; None where one isn't open yet, or costs what doesn't fit.
    open: Vec<Option<Open>>,
    // What a unit costs that a server makes for a period on, less what it costs to hold, or owe, from the first one.
    early: Vec<i64>,
    late: Vec<i64>,
    // What a unit costs that is held from the first period to each one, and that is owed.
    held: Vec<i64>,
    owed: Vec<i64>,
    // The same recursion in shorter numbers, which is taken where they fit.
    quick: Quick,
}

// For each period the sum of the numbers before it.
fn write_sums(sums: &mut Vec<i64>, list: &[i64]) -> Result<(), AllocError> {
    sums.clear();
    let mut sum = 0;
    for number in list {
        sums.push(sum)?;
        sum = plus(sum, *number);
    }
    Ok(())
}

// The numbers after so many.
fn after(list: &[i64], count: usize) -> &[i64] {
    let start = list.len().min(count);
    &list[start..]
}

// A server after one more position: it goes on, or begins there. None where that costs what doesn't fit.
fn next_open(open: Option<Open>, begun: i128, position: u32, serving: i128) -> Option<Open> {
    let before = match open {
        Some(open) if open.cost <= begun => open,
        _ => Open {
            cost: begun,
            start: position,
        },
    };
    Some(Open {
        cost: before.cost.checked_add(serving)?,
        start: before.start,
    })
}

// The cheaper one of the server at hand, if there is one, and another one.
fn cheaper(best: Option<Served>, other: Served) -> Served {
    match best {
        Some(best) if best.cost <= other.cost => best,
        _ => other,
    }
}

// A position is served by some servers, the first of which comes after a period: all of them go on or begin, and the
// cheapest one is taken, where it is cheaper than the one at hand. None where there is none whose cost fits.
fn serve(
    open: &mut [Option<Open>],
    units: &[i64],
    setups: &[i64],
    more: i64,
    position: Position,
    first: u32,
    best: Option<Served>,
) -> Option<Served> {
    let mut best = best;
    let mut server = first;
    for ((now, unit), setup) in open.iter_mut().zip(units).zip(setups) {
        server = server.saturating_add(1);
        let serving = wide(position.asked, plus(*unit, more));
        let begun = position.before.saturating_add(i128::from(*setup));
        let next = next_open(*now, begun, position.number, serving);
        *now = next;
        if let Some(Open { cost, start }) = next {
            let served = Served {
                period: position.period,
                server,
                start,
                cost,
            };
            best = Some(cheaper(best, served));
        }
    }
    best
}

impl Serving {
    /// Nothing is served yet. It takes no memory.
    pub fn new(alloc: Global) -> Serving {
        Serving {
            places: Vec::new(alloc),
            is_whole: false,
            open: Vec::new(alloc),
            early: Vec::new(alloc),
            late: Vec::new(alloc),
            held: Vec::new(alloc),
            owed: Vec::new(alloc),
            quick: Quick::new(alloc),
        }
    }

    // What units cost, and no server is open.
    fn begin(&mut self, costs: &Costs) -> Result<(), AllocError> {
        write_sums(&mut self.held, &costs.hold)?;
        refill(&mut self.early, &costs.unit)?;
        add_times(&mut self.early, &self.held, -1);
        write_sums(&mut self.owed, &costs.back)?;
        refill(&mut self.late, &costs.unit)?;
        add_times(&mut self.late, &self.owed, 1);
        self.open.clear();
        self.open.resize(costs.unit.len(), None)?;
        self.places.clear();
        self.is_whole = false;
        Ok(())
    }

    // A position is served by the periods up to it, and by later ones where it may be owed. None where no cost fits.
    fn serve_one(&mut self, costs: &Costs, position: Position, may_wait: bool) -> Option<Served> {
        let split = (position.period as usize).min(self.open.len());
        let (first, last) = self.open.split_at_mut(split);
        let held = at(&self.held, position.period);
        let best = serve(first, &self.early, &costs.setup, held, position, 0, None);
        if !may_wait {
            return best;
        }
        let owed = less(0, at(&self.owed, position.period));
        let units = after(&self.late, split);
        let setups = after(&costs.setup, split);
        serve(last, units, setups, owed, position, position.period, best)
    }

    /// A cheapest way to serve what remains to be made of an item at its costs. The error is that memory ran out, of which
    /// none is taken where as much was served before. It takes time in the square of the number of periods.
    pub fn serve_all(&mut self, item: &Item, costs: &Costs) -> Result<(), AllocError> {
        self.is_whole = self.quick.serve_all(item, costs, &mut self.places)?;
        if self.is_whole {
            return Ok(());
        }
        self.serve_wide(item, costs)
    }

    // Serves all periods by the recursion over servers, in 128 bits.
    fn serve_wide(&mut self, item: &Item, costs: &Costs) -> Result<(), AllocError> {
        self.begin(costs)?;
        let mut before = 0i128;
        let (mut period, mut number) = (0u32, 0u32);
        for asked in item.net.iter() {
            period = period.saturating_add(1);
            if *asked == 0 {
                continue;
            }
            number = number.saturating_add(1);
            let position = Position {
                number,
                period,
                asked: *asked,
                before,
            };
            let Some(best) = self.serve_one(costs, position, item.backlogged) else {
                return Ok(());
            };
            before = best.cost;
            self.places.push(best)?;
        }
        self.is_whole = true;
        Ok(())
    }

    /// What all positions cost, times the scale of the prices; None where that doesn't fit.
    pub fn cost(&self) -> Option<i128> {
        if !self.is_whole {
            return None;
        }
        match self.places.last() {
            Some(place) => Some(place.cost),
            None => Some(0),
        }
    }
}
