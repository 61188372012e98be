// An echelon, and what remains to be made for it.
ghost use Rattle.std.specs.Prelude.{◌≡◌, ◌≤◌, ◌+◌, ◌↔◌, ◌==◌, if◌then◌else◌, length, IfOk, IsTrue};
ghost use Rattle.lot_sizing.specs.Sums.{sum_to};
ghost use Rattle.lot_sizing.specs.Problem.{entry};
ghost use Rattle.lot_sizing.specs.Net.{left_after, net_in};
ghost use Rattle.echelon.specs.Views.{HasEach, HasMarked, IsEchelonWithinBounds, asked_in, asked_of_echelon};
ghost use Rattle.echelon.specs.declared.net.TheConstants.{MAX_ASKED};

use lot_sizing::limits::{MAX_ITEMS, MAX_PERIODS, MAX_TOTAL};
use std::alloc::{AllocError, Global};

/// What is asked of an item and of all items that it goes into, in units of the item.
#[derive(Debug, Drop)]
pub struct EchelonItem {
    /// The item's number.
    pub item: u32,
    /// Demand, an entry for each period.
    pub demand: Vec<u128>,
    /// Stock before the first period.
    pub opening: u128,
    /// The stock that is required at the end of the last period.
    pub end_min: u128,
    /// For each item the units of this one in one unit of it, over all paths of the bill.
    pub weights: Vec<u64>,
    /// For each item whether it has a backlog cost.
    pub backs: Vec<bool>,
    /// Whether an item that this one goes into, or this one, has a backlog cost.
    pub backlogged: bool,
}

/// What remains to be made for an echelon once its opening stock is used up.
#[derive(Debug, Drop)]
pub struct Net {
    /// The net demand of each period: the opening stock serves first, and the required end stock is asked
    /// for in the last period.
    pub net: Vec<u128>,
    /// What is left of the opening stock at the end of each period, with the required end stock in the last
    /// one.
    pub left: Vec<u128>,
}

/// The most that the demands, the opening stock and the required end stock of an echelon add to.
pub const MAX_ASKED: u128 = 10_000_000_000_000_000_000_000_000;

// Whether all demands, the opening stock and the required end stock add to at most the most.
fn is_small_in_all(echelon: &EchelonItem) -> bool
    ensures { IsTrue result ↔ (sum_to (length echelon.now.demand.items)
        (entry echelon.now.demand.items) + echelon.now.opening + echelon.now.end_min ≤ MAX_ASKED) }
{
    if echelon.opening > MAX_ASKED || echelon.end_min > MAX_ASKED - echelon.opening {
        return false;
    }
    let mut sum = echelon.opening + echelon.end_min;
    for period in 0..echelon.demand.len() {
        let demand = echelon.demand[period];
        if demand > MAX_ASKED - sum {
            return false;
        }
        sum += demand;
    }
    true
}

// Whether an item with a weight above 0 is marked.
fn has_marked(weights: &[u64], marks: &[bool]) -> bool
    requires { length marks.now ≡ length weights.now }
    ensures { IsTrue result ↔ HasMarked weights.now marks.now }
{
    for item in 1..weights.len() + 1 {
        if weights[item - 1] > 0 && marks[item - 1] {
            return true;
        }
    }
    false
}

// Whether the echelon says that it may be owed exactly where an item that counts has a backlog mark.
fn marks_agree(echelon: &EchelonItem) -> bool
    requires { length echelon.now.backs.items ≡ length echelon.now.weights.items }
    ensures { IsTrue result ↔ (IsTrue echelon.now.backlogged ↔ HasMarked echelon.now.weights.items
        echelon.now.backs.items) }
{
    let marked = has_marked(&echelon.weights, &echelon.backs);
    echelon.backlogged == marked
}

/// Whether an echelon is within the bounds that `net_of` asks for: one of at most `MAX_ITEMS` items, over
/// at most `MAX_PERIODS` periods, with a weight of at most `MAX_TOTAL` and a backlog mark for each item, and
/// demands, opening stock and required end stock that add to at most `MAX_ASKED`; and it may be owed
/// exactly where an item with a weight above 0 has a backlog mark. It takes no memory.
pub fn is_echelon_within_bounds(echelon: &EchelonItem) -> bool
    ensures { IsTrue result ↔ IsEchelonWithinBounds echelon.now }
{
    let weights: &[u64] = &echelon.weights;
    let items = weights.len();
    let numbered = 1 <= echelon.item && echelon.item as usize <= items;
    let sized = items <= MAX_ITEMS as usize && echelon.demand.len() <= MAX_PERIODS as usize;
    numbered
        && sized
        && echelon.backs.len() == items
        && weights.iter().all(|weight| *weight <= MAX_TOTAL)
        && is_small_in_all(echelon)
        && marks_agree(echelon)
}

// The required end stock in the last period, and 0 before.
fn end_at(periods: usize, end_min: u128, period: usize) -> u128
    ensures { result ≡ (if period == periods then end_min else 0) }
{
    if period == periods { end_min } else { 0 }
}

// The net demands for demands by period, an opening stock and a required end stock, and what is left of
// the opening stock.
pub(crate) fn net_of_demand(
    alloc: Global,
    demands: &[u128],
    opening: u128,
    end_min: u128,
) -> Result<Net, AllocError>
    requires { sum_to (length demands.now) (entry demands.now) + opening + end_min ≤ MAX_ASKED }
    ensures net { IfOk result (λ found.
        HasEach (length demands.now) (net_in (asked_in demands.now opening end_min))
        found.net.items) }
    ensures left { IfOk result (λ found.
        HasEach (length demands.now) (left_after (asked_in demands.now opening end_min))
        found.left.items) }
{
    let periods = demands.len();
    let mut net = Vec::with_capacity(alloc, periods)?;
    let mut left = Vec::with_capacity(alloc, periods)?;
    let mut demand = 0u128;
    let mut made = 0u128;
    for period in 1..periods + 1 {
        demand += demands[period - 1];
        let end = end_at(periods, end_min, period);
        let asked = demand + end;
        let needed = asked.saturating_sub(opening);
        net.push(needed - made)?;
        left.push(opening.saturating_sub(asked) + end)?;
        made = needed;
    }
    Ok(Net { net, left })
}

/// The net demands of an echelon, and what is left of its opening stock. The error is that memory ran out.
pub fn net_of(alloc: Global, echelon: &EchelonItem) -> Result<Net, AllocError>
    requires within { IsEchelonWithinBounds echelon.now }
    ensures net { IfOk result (λ found.
        HasEach (length echelon.now.demand.items) (net_in (asked_of_echelon echelon.now))
        found.net.items) }
    ensures left { IfOk result (λ found.
        HasEach (length echelon.now.demand.items) (left_after (asked_of_echelon echelon.now))
        found.left.items) }
{
    net_of_demand(alloc, &echelon.demand, echelon.opening, echelon.end_min)
}
