// The two sides of a branch.
ghost use Rattle.std.specs.Prelude.{◌≡◌, ◌≤◌, ◌+◌, ◌-◌, ◌<◌, ◌++◌, ◌∷◌, [], ℕ, List, OnOk, IfOk, length, slice_set, take};
ghost use Rattle.tree_search.specs.Ranges.{AreOrdered, IsSplitAt, range_at};
ghost use Rattle.tree_search.specs.Guided.{AtNode, IsBranchOf, IsGuided, IsSideOf};
ghost use Rattle.tree_search.specs.Sides.{side_bound, side_part};

use crate::{Guide, Node, Range, Split};
use lin_rows::{Bound, Column};
use std::alloc::AllocError;

/// A side of a branch.
#[derive(Clone, Copy)]
pub struct Side {
    /// The branch.
    pub split: Split,
    /// Whether it is the low side, where the column is at most the number of the branch.
    pub most: bool,
}

// The part of a range on a side.
fn part(most: bool, range: Range, at: u64) -> Range
    requires { at < range.high }
    ensures { result ≡ side_part most range at }
{
    if most {
        Range {
            low: range.low,
            high: at,
        }
    } else {
        Range {
            low: at + 1,
            high: range.high,
        }
    }
}

// What a side says of the column.
fn bound(most: bool, column: Column, range: Range, at: u64) -> Bound
    requires { at < range.high }
    ensures { result ≡ side_bound most column at }
{
    let number = if most { at } else { at + 1 };
    Bound {
        column,
        most,
        number,
    }
}

// Goes to a side of a branch, and gives the range that the column had.
fn go_down(node: &mut Node, split: Split, most: bool) -> Result<Range, AllocError>
    requires { IsSplitAt node.old.ranges.items split.place split.at }
    ensures side { OnOk result (IsSideOf most node.old split node.new) }
    ensures range { IfOk result (λ range. range ≡ range_at node.old.ranges.items split.place) }
    ensures ordered { OnOk result (AreOrdered node.old.ranges.items
        → AreOrdered node.new.ranges.items) }
{
    let range = node.ranges[split.place];
    node.path.push(bound(most, split.column, range, split.at))?;
    node.ranges[split.place] = part(most, range, split.at);
    Ok(range)
}

// Goes to a side of a branch of a node, which is a node too, and gives the range that the column had.
pub fn enter<S, G: Guide<S>>(
    guide: &G,
    node: &mut Node,
    split: Split,
    most: bool,
) -> Result<Range, AllocError>
    requires node { AtNode node.old (IsGuided G.Guide guide.now) }
    requires branch { AtNode node.old (IsBranchOf (G.rules guide.now) split) }
    ensures node { OnOk result (AtNode node.new (IsGuided G.Guide guide.now)) }
    ensures side { OnOk result (IsSideOf most node.old split node.new) }
    ensures range { IfOk result (λ range. range ≡ range_at node.old.ranges.items split.place) }
{
    Ok(go_down(node, split, most)?)
}

// Goes back up from a side of a branch.
pub fn leave(node: &mut Node, place: usize, range: Range)
    requires { place < length node.old.ranges.items }
    ensures ranges { node.new.ranges.items ≡ slice_set node.old.ranges.items place range }
    ensures path { node.new.path.items ≡ take (length node.old.path.items - 1) node.old.path.items }
{
    node.path.pop();
    node.ranges[place] = range;
}
