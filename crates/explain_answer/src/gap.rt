// How far a bound is below a cost.

use std::alloc::{AllocError, Global};

// The largest numerator whose thousandfold fits.
const MOST_EXACT: u128 = u128::MAX / 1000;

// By how much a cost is above a bound, in tenths of a percent of the cost, rounded up.
fn gap_in_tenths(bound: u128, cost: u128) -> u128 {
    let gap = cost.saturating_sub(bound);
    let whole = if gap <= MOST_EXACT {
        gap.saturating_mul(1000).checked_div(cost)
    } else {
        gap.checked_div(cost.checked_div(1000).unwrap_or(1))
    };
    let tenths = whole.unwrap_or(0);
    if tenths.saturating_mul(cost) < gap.saturating_mul(1000) {
        tenths.saturating_add(1)
    } else {
        tenths
    }
}

/// By how much a cost is above a bound, in percent of the cost with one digit behind the point, rounded up.
pub(crate) fn percent(alloc: Global, bound: u128, cost: u128) -> Result<String, AllocError> {
    let tenths = gap_in_tenths(bound, cost);
    let whole = tenths.checked_div(10).unwrap_or(0);
    let rest = tenths.checked_rem(10).unwrap_or(0);
    format!(in alloc; "{whole}.{rest}")
}
