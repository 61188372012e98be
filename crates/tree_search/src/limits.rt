// Where a search may end though leaves are open.
ghost use Rattle.std.specs.Prelude.{◌≡◌, true, Some};
ghost use Rattle.tree_search.specs.Gaps.{IsNear};

/// Where a search may end though leaves are open, beside its budget of nodes.
#[derive(Clone, Copy, Debug, PartialEq, Eq)]
pub struct Limits {
    /// It ends where the cost of the best plan lies no more than this above the least number that a leaf says, in
    /// hundredths of a percent of that cost. With none it doesn't end so.
    pub gap: Option<u32>,
}

// How many hundredths of a percent the whole has.
const WHOLE: u128 = 10_000;

// Whether a cost lies within the gap above a number, so far as it can be counted with 128 bits: what would need more
// isn't taken to lie within it.
fn is_within(gap: u32, bound: u128, cost: u128) -> bool
    ensures { result ≡ true → IsNear (Some gap) (Some bound) (Some cost) }
{
    let above = cost.saturating_sub(bound).checked_mul(WHOLE);
    let allowed = cost.checked_mul(u128::from(gap));
    match (above, allowed) {
        (Some(above), Some(allowed)) => above <= allowed,
        _ => false,
    }
}

// Whether the best cost lies within the gap above the least number that a leaf says.
pub fn is_near(gap: Option<u32>, least: Option<u128>, best: Option<u128>) -> bool
    ensures { result ≡ true → IsNear gap least best }
{
    match (gap, least, best) {
        (Some(gap), Some(bound), Some(cost)) => is_within(gap, bound, cost),
        _ => false,
    }
}
