// Which range is split, and where.
ghost use Rattle.std.specs.Prelude.{◌≡◌, ◌≤◌, ◌<◌, ◌+◌, ◌/◌, ℕ, IfSome, IsNone, IsSome, length, take};
ghost use Rattle.tree_search.specs.Ranges.{AreOrdered, IsAllowed, IsLowered, IsPoint, IsSplitAt, range_at, width};

use crate::Range;

/// The first place whose range leaves more than one number, counted from 0, if there is one.
pub fn open_place(ranges: &[Range]) -> Option<usize>
    requires { AreOrdered ranges.now }
    ensures place { IfSome result (λ k. (k < length ranges.now)
        × ((range_at ranges.now k).low < (range_at ranges.now k).high)) }
    ensures first { IfSome result (λ k. IsPoint (take k ranges.now)) }
    ensures point { IsNone result → IsPoint ranges.now }
    ensures open { IsSome result → IsPoint ranges.now → ⊥ }
{
    for (k, range) in ranges.iter().enumerate() {
        if range.low < range.high {
            return Some(k);
        }
    }
    None
}

/// The middle of the range at a place, rounded down: a branch there leaves less height on both sides.
pub fn middle(ranges: &[Range], place: usize) -> u64
    requires place { place < length ranges.now }
    requires wide { (range_at ranges.now place).low < (range_at ranges.now place).high }
    ensures middle { result ≡ (range_at ranges.now place).low
        + width (range_at ranges.now place) / 2 }
    ensures split { IsSplitAt ranges.now place result }
    ensures lowered { IsLowered ranges.now place result }
    ensures allowed { (depth : ℕ) → IsAllowed depth ranges.now place result }
{
    let range = ranges[place];
    range.low + (range.high - range.low) / 2
}
