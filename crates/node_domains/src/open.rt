// Places whose ranges leave more than one number.
ghost use Rattle.std.specs.Prelude.{◌≡◌, ◌<◌, ◌+◌, ◌*◌, ℕ, IfSome, length};
ghost use Rattle.tree_search.specs.Ranges.{AreOrdered, IsPoint};
ghost use Rattle.node_domains.specs.Nodes.{IsOpenAt, choice_count};

use lot_model::Instance;
use tree_search::{Range, open_place};

// The first of so many places, each so many after the one before, whose range leaves more than one number.
fn open_among(ranges: &[Range], first: usize, count: u32, step: u32) -> Option<usize>
    requires { (k : ℕ) → k < count → first + k * step < length ranges.now }
    ensures { IfSome result (IsOpenAt ranges.now) }
{
    for number in 0..count {
        let place = first + number as usize * step as usize;
        let range = ranges[place];
        if range.low < range.high {
            return Some(place);
        }
    }
    None
}

/// The place of a setup whose range leaves more than one number, in the earliest period that has one, and of its setups that of
/// the first item; None where each setup has one number.
///
/// It takes no memory.
pub fn open_setup(instance: &Instance, ranges: &[Range]) -> Option<usize>
    requires { length ranges.now ≡ choice_count instance.now }
    ensures { IfSome result (IsOpenAt ranges.now) }
{
    let items = instance.items();
    let periods = instance.periods();
    let setups = items as usize * periods as usize;
    for period in 0..periods {
        let place = open_among(ranges, setups + period as usize, items, periods);
        if place.is_some() {
            return place;
        }
    }
    None
}

/// The place of a setup whose range leaves more than one number, as `open_setup` gives it, and where there is none, that of the
/// first such quantity.
///
/// The list has a range for each quantity and each setup of the instance, none of them upside down, and some range leaves more
/// than one number. It takes no memory.
pub fn first_place(instance: &Instance, ranges: &[Range]) -> usize
    requires size { length ranges.now ≡ choice_count instance.now }
    requires ordered { AreOrdered ranges.now }
    requires open { IsPoint ranges.now → ⊥ }
    ensures { IsOpenAt ranges.now result }
{
    match open_setup(instance, ranges) {
        Some(place) => place,
        None => match open_place(ranges) {
            Some(place) => place,
            None => unreachable!(),
        },
    }
}
