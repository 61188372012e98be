// Slots of lines, one for each position, met by halving.
ghost use Rattle.std.specs.Prelude.{◌≡◌, ◌+◌, ◌-◌, ◌*◌, ◌^◌, ◌<◌, ◌≤◌, ◌⊎◌, ℕ, length, Option, IfSome, IsNone, Some};
ghost use Rattle.lot_sizing.specs.Single.{IsWithinBounds, position_count};
ghost use Rattle.echelon.specs.Views.{single_of_item};
ghost use Rattle.wagner_whitin.specs.Lines.{AreLineSums, AreLines, CostsAtMost, IsInserted, IsLine, IsReached, line_cost, slot_at};

use crate::counting::Steps;
use crate::lines::{self, Line, SummedItem};
use std::sync::ledger::Ledger;

/// Positions that are halved at their middle one: from `low` on, before `high`, fewer than 2 to the power of `level`.
#[derive(Clone, Copy)]
pub struct Stretch {
    /// The most halvings that are left.
    pub level: u32,
    /// The first position.
    pub low: u32,
    /// The position after the last one.
    pub high: u32,
}

/// Puts a line to the slots of some positions. At the middle one the cheaper line stays, and the other
/// goes on to the side where it may be cheaper.
pub fn insert<L: Ledger>(
    item: &SummedItem<'_>,
    slots: &mut [Option<Line>],
    line: Line,
    from: u32,
    stretch: Stretch,
    steps: &mut Steps<L>,
)
    requires within { IsWithinBounds (single_of_item item.now.single.now) }
    requires no_backlog { IsNone (single_of_item item.now.single.now).back }
    requires sums { AreLineSums (single_of_item item.now.single.now) item.now.sums.now }
    requires line { IsLine (single_of_item item.now.single.now) from line }
    requires lines { AreLines (single_of_item item.now.single.now) from slots.old }
    requires size { length slots.old ≡ position_count (single_of_item item.now.single.now) }
    requires low { 1 ≤ stretch.low }
    requires high { stretch.high ≤ position_count (single_of_item item.now.single.now) + 1 }
    requires level { stretch.high - stretch.low < 2 ^ stretch.level }
    ensures inserted { IsInserted (line_cost (single_of_item item.now.single.now)) from
        stretch.level stretch.low stretch.high line
        slots.old slots.new }
    ensures steps { steps.new ≤ steps.old + stretch.level }
{
    if stretch.high <= stretch.low {
        return;
    }
    let middle = stretch.low + (stretch.high - stretch.low) / 2;
    let left = Stretch {
        level: stretch.level - 1,
        low: stretch.low,
        high: middle,
    };
    let right = Stretch {
        level: stretch.level - 1,
        low: middle + 1,
        high: stretch.high,
    };
    if middle < from {
        insert(item, slots, line, from, right, steps);
        return;
    }
    let place = (middle - 1) as usize;
    let Some(other) = slots[place] else {
        slots[place] = Some(line);
        return;
    };
    let (kept, rest) = lines::ordered(item.single, item.sums, line, other, middle, steps);
    slots[place] = Some(kept);
    if lines::is_no_dearer(item.single, item.sums, rest.server, kept.server) {
        insert(item, slots, rest, from, right, steps);
    } else {
        insert(item, slots, rest, from, left, steps);
    }
}

// The cheaper of two lines at a position, where there are both.
fn cheaper<L: Ledger>(
    item: &SummedItem<'_>,
    one: Option<Line>,
    other: Option<Line>,
    position: u32,
    steps: &mut Steps<L>,
) -> Option<Line>
    requires within { IsWithinBounds (single_of_item item.now.single.now) }
    requires no_backlog { IsNone (single_of_item item.now.single.now).back }
    requires sums { AreLineSums (single_of_item item.now.single.now) item.now.sums.now }
    requires one { IfSome one (IsLine (single_of_item item.now.single.now) position) }
    requires other { IfSome other (IsLine (single_of_item item.now.single.now) position) }
    requires high { position ≤ position_count (single_of_item item.now.single.now) }
    ensures either { (result ≡ one) ⊎ (result ≡ other) }
    ensures least { (x : ℕ) → CostsAtMost (line_cost (single_of_item item.now.single.now)) one
        position x
        → CostsAtMost (line_cost (single_of_item item.now.single.now)) result position x }
    ensures least_other { (x : ℕ) → CostsAtMost (line_cost (single_of_item item.now.single.now))
        other
        position x → CostsAtMost (line_cost (single_of_item item.now.single.now)) result position x }
    ensures steps { steps.new ≤ steps.old + 1 }
{
    let Some(left) = one else {
        return other;
    };
    let Some(right) = other else {
        return one;
    };
    Some(lines::ordered(item.single, item.sums, left, right, position, steps).0)
}

/// The cheapest of the lines that are met on the way to a position, if there is one.
pub fn cheapest<L: Ledger>(
    item: &SummedItem<'_>,
    slots: &[Option<Line>],
    position: u32,
    stretch: Stretch,
    steps: &mut Steps<L>,
) -> Option<Line>
    requires within { IsWithinBounds (single_of_item item.now.single.now) }
    requires no_backlog { IsNone (single_of_item item.now.single.now).back }
    requires sums { AreLineSums (single_of_item item.now.single.now) item.now.sums.now }
    requires lines { AreLines (single_of_item item.now.single.now) position slots.now }
    requires size { length slots.now ≡ position_count (single_of_item item.now.single.now) }
    requires low { 1 ≤ stretch.low }
    requires at_low { stretch.low ≤ position }
    requires at_high { position < stretch.high }
    requires high { stretch.high ≤ position_count (single_of_item item.now.single.now) + 1 }
    requires level { stretch.high - stretch.low < 2 ^ stretch.level }
    ensures least { (x : ℕ) → IsReached (line_cost (single_of_item item.now.single.now)) slots.now
        stretch.level stretch.low
        stretch.high position x → CostsAtMost (line_cost (single_of_item item.now.single.now))
        result position x }
    ensures kept { IfSome result (λ line. (k : ℕ) × (1 ≤ k) × (slot_at slots.now k ≡ Some line)) }
    ensures steps { steps.new ≤ steps.old + stretch.level }
{
    let middle = stretch.low + (stretch.high - stretch.low) / 2;
    let here = slots[(middle - 1) as usize];
    if position < middle {
        let below = Stretch {
            level: stretch.level - 1,
            low: stretch.low,
            high: middle,
        };
        let left = cheapest(item, slots, position, below, steps);
        cheaper(item, here, left, position, steps)
    } else if middle < position {
        let above = Stretch {
            level: stretch.level - 1,
            low: middle + 1,
            high: stretch.high,
        };
        let right = cheapest(item, slots, position, above, steps);
        cheaper(item, here, right, position, steps)
    } else {
        here
    }
}
