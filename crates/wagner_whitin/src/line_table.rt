// The least cost up to each position, by the cheapest line there.
ghost use Rattle.std.specs.Prelude.{◌≡◌, ◌+◌, ◌-◌, ◌*◌, ◌^◌, ◌<◌, ◌≤◌, ℕ, length, IfOk, IsNone};
ghost use Rattle.lot_sizing.specs.Single.{IsWithinBounds, period_count, period_of, position_count, positions, potential};
ghost use Rattle.echelon.specs.Views.{single_of_item};
ghost use Rattle.wagner_whitin.specs.Tables.{IsTable, most_cost};
ghost use Rattle.wagner_whitin.specs.Lines.{AreLineSums, IsCheapest, IsHull, entry_of, line_cost};

use crate::counting::Steps;
use crate::hull::{self, Stretch};
use crate::lines::{self, Line, LineSums, SummedItem};
use crate::server_blocks::last_potential;
use crate::table::LeastCosts;
use echelon::{Block, SingleItem};
use std::alloc::{AllocError, Global};
use std::sync::ledger::Ledger;

// The servers after one of them, up to another one.
#[derive(Clone, Copy)]
struct Servers {
    after: u32,
    last: u32,
}

// Puts the lines of servers that begin with the next position.
fn enter<L: Ledger>(
    item: &SummedItem<'_>,
    potentials: &[u128],
    servers: Servers,
    level: u32,
    slots: &mut [Option<Line>],
    steps: &mut Steps<L>,
)
    requires within { IsWithinBounds (single_of_item item.now.single.now) }
    requires no_backlog { IsNone (single_of_item item.now.single.now).back }
    requires sums { AreLineSums (single_of_item item.now.single.now) item.now.sums.now }
    requires some { length potentials.now < position_count (single_of_item item.now.single.now) }
    requires small { potential potentials.now (length potentials.now) ≤ most_cost }
    requires order { servers.after ≤ servers.last }
    requires high { servers.last ≤ period_count (single_of_item item.now.single.now) }
    requires entries { (u : ℕ) → servers.after < u → u ≤ servers.last
        → entry_of (single_of_item item.now.single.now) u ≡ length potentials.now + 1 }
    requires level { position_count (single_of_item item.now.single.now) < 2 ^ level }
    requires hull { IsHull (single_of_item item.now.single.now) potentials.now servers.after
        (length potentials.now + 1) level slots.old }
    ensures hull { IsHull (single_of_item item.now.single.now) potentials.now servers.last
        (length potentials.now + 1) level slots.new }
    ensures steps { steps.new ≤ steps.old + (servers.last - servers.after) * level }
{
    let first = potentials.len() as u32 + 1;
    let before = last_potential(potentials);
    let whole = Stretch {
        level,
        low: 1,
        high: slots.len() as u32 + 1,
    };
    for server in servers.after + 1..servers.last + 1 {
        let line = Line {
            before: before + item.single.setup[(server - 1) as usize] as u128,
            first,
            server,
        };
        hull::insert(item, slots, line, first, whole, steps);
    }
}

// The cheapest line at the next position.
fn cheapest_line<L: Ledger>(
    item: &SummedItem<'_>,
    potentials: &[u128],
    period: u32,
    level: u32,
    slots: &[Option<Line>],
    steps: &mut Steps<L>,
) -> Line
    requires within { IsWithinBounds (single_of_item item.now.single.now) }
    requires no_backlog { IsNone (single_of_item item.now.single.now).back }
    requires sums { AreLineSums (single_of_item item.now.single.now) item.now.sums.now }
    requires some { length potentials.now < position_count (single_of_item item.now.single.now) }
    requires period { period ≡ period_of (single_of_item item.now.single.now) (length potentials.now
        + 1) }
    requires level { position_count (single_of_item item.now.single.now) < 2 ^ level }
    requires hull { IsHull (single_of_item item.now.single.now) potentials.now period
        (length potentials.now + 1) level slots.now }
    ensures cheapest { IsCheapest (single_of_item item.now.single.now) potentials.now
        (length potentials.now + 1) result }
    ensures steps { steps.new ≤ steps.old + level }
{
    let position = potentials.len() as u32 + 1;
    let whole = Stretch {
        level,
        low: 1,
        high: slots.len() as u32 + 1,
    };
    match hull::cheapest(item, slots, position, whole, steps) {
        Some(line) => line,
        None => unreachable!(),
    }
}

/// The table of all positions.
pub fn least_costs<L: Ledger>(
    alloc: Global,
    single: &SingleItem,
    sums: &LineSums,
    needed: &[u32],
    level: u32,
    steps: &mut Steps<L>,
) -> Result<LeastCosts, AllocError>
    requires within { IsWithinBounds (single_of_item single.now) }
    requires no_backlog { IsNone (single_of_item single.now).back }
    requires sums { AreLineSums (single_of_item single.now) sums.now }
    requires needed { needed.now ≡ positions (single_of_item single.now) }
    requires level { position_count (single_of_item single.now) < 2 ^ level }
    ensures table { IfOk result (λ table.
        IsTable (single_of_item single.now) (position_count (single_of_item single.now))
        table.potentials.items table.lasts.items) }
    ensures steps { steps.new ≤ steps.old
        + (period_count (single_of_item single.now) + position_count (single_of_item single.now))
        * level }
{
    let mut slots = vec![in alloc; None; needed.len()]?;
    let mut potentials = Vec::with_capacity(alloc, needed.len())?;
    let mut lasts = Vec::with_capacity(alloc, needed.len())?;
    let item = &SummedItem { single, sums };
    let mut entered = 0;
    for place in 0..needed.len() {
        let period = needed[place];
        let servers = Servers {
            after: entered,
            last: period,
        };
        enter(item, &potentials, servers, level, &mut slots, steps);
        let line = cheapest_line(item, &potentials, period, level, &slots, steps);
        let last = place as u32 + 1;
        lasts.push(Block {
            first: line.first,
            last,
            server: line.server,
        })?;
        potentials.push(lines::cost_at(single, sums, line, last))?;
        entered = period;
    }
    Ok(LeastCosts { potentials, lasts })
}
