// Lines: what all positions up to one cost where a server serves the last of them.
ghost use Rattle.std.specs.Prelude.{◌≡◌, ◌+◌, ◌*◌, ◌^◌, ◌<◌, ◌≤◌, ◌⊎◌, ℕ, Bool, true, false, IsNone};
ghost use Rattle.lot_sizing.specs.Single.{IsWithinBounds, IsServer, period_count, period_of, position_count};
ghost use Rattle.echelon.specs.Views.{single_of_item};
ghost use Rattle.wagner_whitin.specs.Lines.{AreLineSums, IsLine, IsNoDearer, line_cost};

use crate::counting::{Steps, less_counted};
use echelon::SingleItem;
use std::sync::ledger::Ledger;

/// A server from the first position on that it may serve: what all positions before that one cost,
/// with the server's setup.
#[derive(Clone, Copy)]
pub struct Line {
    pub before: u128,
    pub first: u32,
    pub server: u32,
}

/// Sums over the first periods of the costs of holding a unit, and over the first positions of the net
/// demands and of what it costs to hold them from the first period on.
#[derive(Drop)]
pub struct LineSums {
    pub held: Vec<u64>,
    pub net: Vec<u64>,
    pub held_net: Vec<u128>,
}

/// A single item with the sums that tell what its lines cost.
#[derive(Clone, Copy)]
pub struct SummedItem<'a> {
    /// The item.
    pub single: &'a SingleItem,
    /// The sums over its first periods and positions.
    pub sums: &'a LineSums,
}

/// What all positions up to one cost.
pub fn cost_at(single: &SingleItem, sums: &LineSums, line: Line, position: u32) -> u128
    requires within { IsWithinBounds (single_of_item single.now) }
    requires no_backlog { IsNone (single_of_item single.now).back }
    requires sums { AreLineSums (single_of_item single.now) sums.now }
    requires line { IsLine (single_of_item single.now) position line }
    requires high { position ≤ position_count (single_of_item single.now) }
    ensures value { result ≡ line_cost (single_of_item single.now) line position }
    ensures small { result < 2 ^ 127 }
{
    let units = sums.net[position as usize] - sums.net[(line.first - 1) as usize];
    let held = sums.held_net[position as usize] - sums.held_net[(line.first - 1) as usize];
    let unit = single.unit[(line.server - 1) as usize];
    let before = sums.held[(line.server - 1) as usize];
    line.before + (units as u128 * unit as u128 + held - units as u128 * before as u128)
}

// Whether the left number is less, as one step.
fn is_less<L: Ledger>(left: u128, right: u128, steps: &mut Steps<L>) -> bool
    requires left { left < 2 ^ 127 }
    requires right { right < 2 ^ 127 }
    ensures less { result ≡ true → left < right }
    ensures not_less { result ≡ false → right ≤ left }
    ensures step { steps.new ≡ steps.old + 1 }
{
    less_counted(left as i128, right as i128, steps)
}

/// The cheaper of two lines at a position, and the other one. It takes one step.
pub fn ordered<L: Ledger>(
    single: &SingleItem,
    sums: &LineSums,
    one: Line,
    other: Line,
    position: u32,
    steps: &mut Steps<L>,
) -> (Line, Line)
    requires within { IsWithinBounds (single_of_item single.now) }
    requires no_backlog { IsNone (single_of_item single.now).back }
    requires sums { AreLineSums (single_of_item single.now) sums.now }
    requires one { IsLine (single_of_item single.now) position one }
    requires other { IsLine (single_of_item single.now) position other }
    requires high { position ≤ position_count (single_of_item single.now) }
    ensures either { ((result.0 ≡ one) × (result.1 ≡ other))
        ⊎ ((result.0 ≡ other) × (result.1 ≡ one)) }
    ensures order { line_cost (single_of_item single.now) result.0 position
        ≤ line_cost (single_of_item single.now) result.1 position }
    ensures step { steps.new ≡ steps.old + 1 }
{
    let here = cost_at(single, sums, one, position);
    let there = cost_at(single, sums, other, position);
    if is_less(here, there, steps) {
        (one, other)
    } else {
        (other, one)
    }
}

/// Whether a server costs no more than another at the positions that both may serve.
pub fn is_no_dearer(single: &SingleItem, sums: &LineSums, one: u32, other: u32) -> bool
    requires within { IsWithinBounds (single_of_item single.now) }
    requires no_backlog { IsNone (single_of_item single.now).back }
    requires sums { AreLineSums (single_of_item single.now) sums.now }
    requires one_low { 1 ≤ one }
    requires one_high { one ≤ period_count (single_of_item single.now) }
    requires other_low { 1 ≤ other }
    requires other_high { other ≤ period_count (single_of_item single.now) }
    ensures yes { result ≡ true → IsNoDearer (single_of_item single.now) one other }
    ensures no { result ≡ false → IsNoDearer (single_of_item single.now) other one }
{
    let left = single.unit[(one - 1) as usize] + sums.held[(other - 1) as usize];
    let right = single.unit[(other - 1) as usize] + sums.held[(one - 1) as usize];
    left <= right
}
