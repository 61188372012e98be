// Where a node is branched: at a place that was proposed, where it can be.
ghost use Rattle.std.specs.Prelude.{◌≡◌, IfSome, length};
ghost use Rattle.tree_search.specs.Ranges.{AreOrdered, IsAllowed, IsPoint, IsSplitAt};
ghost use Rattle.node_domains.specs.Nodes.{IsOpenAt, choice_count, choice_place};

use lot_model::Instance;
use node_domains::{column_of, first_place};
use tree_search::{Range, Split, middle};

// The place, where it leaves more than one number.
fn open_place_of(ranges: &[Range], place: Option<usize>) -> Option<usize>
    ensures { IfSome result (IsOpenAt ranges.now) }
{
    let place = place?;
    if place < ranges.len() {
        let range = ranges[place];
        if range.low < range.high {
            return Some(place);
        }
    }
    None
}

// The place that was proposed, and where none was that can be branched on, the first one.
fn place_to_split(instance: &Instance, ranges: &[Range], place: Option<usize>) -> usize
    requires size { length ranges.now ≡ choice_count instance.now }
    requires ordered { AreOrdered ranges.now }
    requires open { IsPoint ranges.now → ⊥ }
    ensures { IsOpenAt ranges.now result }
{
    match open_place_of(ranges, place) {
        Some(place) => place,
        None => first_place(instance, ranges),
    }
}

/// The branch at a node, in the middle of what is left.
pub(crate) fn split_of(instance: &Instance, ranges: &[Range], place: Option<usize>) -> Split
    requires size { length ranges.now ≡ choice_count instance.now }
    requires ordered { AreOrdered ranges.now }
    requires open { IsPoint ranges.now → ⊥ }
    ensures place { choice_place instance.now result.column ≡ result.place }
    ensures split { IsSplitAt ranges.now result.place result.at }
    ensures allowed { (depth : _) → IsAllowed depth ranges.now result.place result.at }
{
    let place = place_to_split(instance, ranges, place);
    Split {
        column: column_of(instance, place),
        place,
        at: middle(ranges, place),
    }
}
