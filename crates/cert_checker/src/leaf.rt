// What a leaf says.
ghost use Rattle.std.specs.Prelude.{◌+◌, ◌<◌, ◌^◌, length, IfErr, IfOk};
ghost use Rattle.lin_rows.specs.Combining.{AreOfProblem};
ghost use Rattle.cert_lines.specs.Shapes.{leaf_shape};
ghost use Rattle.certificate.specs.Values.{leaf_values};
ghost use Rattle.cert_trees.specs.Paths.{AreChoices};
ghost use Rattle.cert_checker.specs.Named.{IsReadyFor};
ghost use Rattle.cert_checker.specs.Leaves.{HasDenominator, IsFaultOfLeaf, IsSoOfPlans, LeafIsSmall, LeafSaysThis};

use crate::leaf_point::point_leaf;
use crate::leaf_reduced::reduced_leaf;
use crate::leaf_sum::{farkas_leaf, linear_leaf};
use crate::{CheckFault, NamedSums};
use cert_meaning::{LeafSays, leaves_bound};
use cert_trees::plans_are_within;
use certificate::Leaf;
use lin_rows::{Bound, Row};
use lot_model::{Instance, an_instance_breaks_no_rule};
use std::alloc::Global;

// What a leaf says, or why it says nothing.
fn leaf_says(
    alloc: Global,
    instance: &Instance,
    named: &mut NamedSums,
    cuts: &[Row],
    path: &[Bound],
    leaf: &Leaf,
    line: u64,
) -> Result<LeafSays, CheckFault>
    requires ready { IsReadyFor instance.now named.old }
    requires cuts { AreOfProblem instance.now cuts.now }
    requires path { AreChoices instance.now path.now }
    requires den { HasDenominator (leaf_shape leaf.now) }
    requires lines { line + length (leaf_values (leaf_shape leaf.now)) < 2 ^ 64 }
    ensures ready { IsReadyFor instance.now named.new }
    ensures says { IfOk result (LeafSaysThis instance.now cuts.now path.now (leaf_shape leaf.now)) }
    ensures small { IfOk result (λ _.
        LeafIsSmall instance.now cuts.now path.now (leaf_shape leaf.now)) }
    ensures fault { IfErr result (IsFaultOfLeaf instance.now cuts.now path.now (leaf_shape leaf.now)
        line) }
{
    match leaf {
        Leaf::Linear { den, parts } => {
            linear_leaf(alloc, instance, named, cuts, path, *den, parts, line)
        }
        Leaf::Farkas { parts } => farkas_leaf(alloc, instance, named, cuts, path, parts, line),
        Leaf::Point => point_leaf(alloc, instance, path, line),
        Leaf::Reduced {
            den,
            parts,
            lists,
            groups,
        } => reduced_leaf(
            alloc, instance, named, cuts, path, *den, parts, lists, groups, line,
        ),
    }
}

/// What a leaf says of the feasible plans that lie in it, at which the bounds of its path hold: that there is none, or
/// that each costs at least an amount of money. That is so of each such plan (`bounds`), where the rows of the cuts
/// hold at every feasible plan.
///
/// | Leaf | What it says |
/// |---|---|
/// | `Linear` | it sums parts, which are multiples of rows: where the sum takes no column more often than the denominator times its cost, each plan costs at least the right side over the denominator, rounded up, and at least 0 (linear duality) |
/// | `Farkas` | where the sum of its parts takes no column a positive number of times and its right side is positive, there is no plan (Farkas' lemma) |
/// | `Point` | where the path leaves each quantity and each setup one value, the least cost of a feasible plan that has them; or that none has them |
/// | `Reduced` | it sums its parts and those of its lists, and each column has a reduced cost: the denominator times its cost, less how often the sum takes it. Where none is below 0, a group of items has a number that its setups and quantities never cost less than, at their reduced costs. The item of a late group, and that of late quantities, may fall short of what is on time of it, that is, started in time for nothing to be late; each unit short by the end of a period pays the group's share of that period, and the shares of all groups are charged on the backlogs that let items fall short. The right side and the numbers of groups that lie apart, and charge no backlog above its reduced cost, over the denominator, bound each plan as the right side does in `Linear`; with a denominator of 0 they refute where they are positive, and a group without any choice refutes with every one |
///
/// The rows are those of the instance, of the cuts and of the path's bounds, by their names; cuts and bounds are
/// counted from 1. `line` is the first line of the leaf in the text of its certificate, and its parts are on the lines
/// after it, then its lists, and then its groups. A leaf that says nothing is refused by the first of these that holds:
///
/// | Refusal | Line | Where |
/// |---|---|---|
/// | `Range` | the part's | there is no row of this name; the parts are looked at one by one |
/// | `Sign` | the part's | a row that isn't an equation is taken a negative number of times |
/// | `Range` | the list's | it hasn't an entry for each period; the lists are looked at one by one, after all parts |
/// | `Range`, `Sign` | the list's | the first of its rows that may not be taken: it doesn't exist, or it is an inequality and is taken a negative number of times |
/// | `TooLarge` | the leaf's | the absolute values of what is added up of one column, or of the right sides, reach 2^127 |
/// | `Column` | the leaf's | the sum takes a column more often than it may: the first one by kind, then by item, then by period |
/// | `Range` | the group's | an item of it doesn't exist, or doesn't go into the next one of its chain or may be late, or it hasn't a share for each period |
/// | `Range` | the leaf's | an item is in two places of groups |
/// | `Column` | the leaf's | what falls short at the shares of late groups and late quantities charges more on a backlog than its reduced cost: the first by item, then by period |
/// | `Work` | the group's | to find its number is too much work |
/// | `TooLarge` | the leaf's | the numbers of groups, or what they and the right side add to, reach 2^127 |
/// | `Short` | the leaf's | the sum of `Farkas`, or of `Reduced` with a denominator of 0, is 0 or less; it says 0 |
/// | `NotPoint` | the leaf's | the path of `Point` leaves a quantity or a setup more values than one, or none |
///
/// `Memory` may come instead of any answer, and none of the others comes where memory ran out. `named` was made for the
/// same instance, and stays ready for the next leaf, whatever the answer is.
///
/// A sum takes time in the number of columns and the terms of the rows of its parts; a row of the instance also takes
/// the time in which it is made, where `named` doesn't have it yet, and memory. `Point` takes time in the number of
/// quantities and setups times the length of the path, and memory for four grids. The groups of `Reduced` take what
/// `reduced_sum` says, and its lists memory for a part of each entry.
pub fn leaf_bound_in(
    alloc: Global,
    instance: &Instance,
    named: &mut NamedSums,
    cuts: &[Row],
    path: &[Bound],
    leaf: &Leaf,
    line: u64,
) -> Result<LeafSays, CheckFault>
    requires ready { IsReadyFor instance.now named.old }
    requires cuts { AreOfProblem instance.now cuts.now }
    requires path { AreChoices instance.now path.now }
    requires den { HasDenominator (leaf_shape leaf.now) }
    requires lines { line + length (leaf_values (leaf_shape leaf.now)) < 2 ^ 64 }
    ensures ready { IsReadyFor instance.now named.new }
    ensures says { IfOk result (LeafSaysThis instance.now cuts.now path.now (leaf_shape leaf.now)) }
    ensures small { IfOk result (λ _.
        LeafIsSmall instance.now cuts.now path.now (leaf_shape leaf.now)) }
    ensures bounds { IfOk result (IsSoOfPlans instance.now cuts.now path.now) }
    ensures fault { IfErr result (IsFaultOfLeaf instance.now cuts.now path.now (leaf_shape leaf.now)
        line) }
{
    leaves_bound();
    plans_are_within();
    an_instance_breaks_no_rule(instance);
    leaf_says(alloc, instance, named, cuts, path, leaf, line)
}

/// What a leaf says, as `leaf_bound_in` does, with sums of its own for this one leaf: it takes time and memory in the
/// number of the instance's columns and rows beside.
pub fn leaf_bound(
    alloc: Global,
    instance: &Instance,
    cuts: &[Row],
    path: &[Bound],
    leaf: &Leaf,
    line: u64,
) -> Result<LeafSays, CheckFault>
    requires cuts { AreOfProblem instance.now cuts.now }
    requires path { AreChoices instance.now path.now }
    requires den { HasDenominator (leaf_shape leaf.now) }
    requires lines { line + length (leaf_values (leaf_shape leaf.now)) < 2 ^ 64 }
    ensures says { IfOk result (LeafSaysThis instance.now cuts.now path.now (leaf_shape leaf.now)) }
    ensures small { IfOk result (λ _.
        LeafIsSmall instance.now cuts.now path.now (leaf_shape leaf.now)) }
    ensures bounds { IfOk result (IsSoOfPlans instance.now cuts.now path.now) }
    ensures fault { IfErr result (IsFaultOfLeaf instance.now cuts.now path.now (leaf_shape leaf.now)
        line) }
{
    let mut named = NamedSums::new(alloc, instance)?;
    leaf_bound_in(alloc, instance, &mut named, cuts, path, leaf, line)
}
