// The limits within which least prices are found.
ghost use Rattle.std.specs.Prelude.{◌≤◌, ◌↔◌, IsTrue, MatchOption};
ghost use Rattle.lot_sizing.specs.declared.limits.TheConstants.{MAX_PERIODS};
ghost use Rattle.quantity_dp.specs.Limits.{IsFaultOf, IsPriced, IsSmall, IsWithinLimits};

use crate::LotPeriod;
use lot_sizing::limits::MAX_PERIODS;

/// The largest price of a setup, of a unit, and of a unit that falls short. The least prices of forty items of
/// `MAX_TOTAL` units each over `MAX_PERIODS` periods, at no more than this, add to less than 2^127.
pub const MAX_PRICE: u128 = 1_000_000_000_000_000_000_000_000;

/// Most entries of a table: the periods, times one more than the units that must be started or are asked.
pub const MAX_ENTRIES: u64 = 10_000_000;

/// What is past the limits.
#[derive(Clone, Copy, Debug, PartialEq, Eq)]
pub enum LotsFault {
    /// There are more periods than `MAX_PERIODS`.
    Periods,
    /// A price of this period, the first past the limits, is above `MAX_PRICE`.
    Price(u32),
    /// By what must have been started or is asked by the end of this period, the first past the limits, the table has
    /// more entries than `MAX_ENTRIES`.
    Need(u32),
}

// Whether no price of a period is above `MAX_PRICE`.
fn is_priced(lot: &LotPeriod) -> bool
    ensures { IsTrue result ↔ IsPriced lot.now }
{
    lot.setup <= MAX_PRICE && lot.unit <= MAX_PRICE && lot.share <= MAX_PRICE
}

// Whether a table over so many periods has few enough entries for what is needed or asked in one.
fn is_small(periods: u32, lot: &LotPeriod) -> bool
    requires { periods ≤ MAX_PERIODS }
    ensures { IsTrue result ↔ IsSmall periods lot.now }
{
    u128::from(periods) * (u128::from(lot.need.max(lot.asked)) + 1) <= u128::from(MAX_ENTRIES)
}

/// The first that is past the limits of `least_price`, and none exactly where all is within. It takes no memory.
pub fn find_fault(lots: &[LotPeriod]) -> Option<LotsFault>
    ensures { MatchOption result (IsWithinLimits lots.now) (IsFaultOf lots.now) }
{
    if lots.len() > MAX_PERIODS as usize {
        return Some(LotsFault::Periods);
    }
    for period in 1..lots.len() as u32 + 1 {
        let lot = &lots[(period - 1) as usize];
        if !is_priced(lot) {
            return Some(LotsFault::Price(period));
        }
        if !is_small(lots.len() as u32, lot) {
            return Some(LotsFault::Need(period));
        }
    }
    None
}
