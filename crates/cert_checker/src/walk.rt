// The walk over the tree of a certificate.
ghost use Rattle.std.specs.Prelude.{◌≡◌, ℕ, List, [], ◌∷◌, ◌+◌, ◌++◌, ◌<◌, ◌^◌, length, IfErr, IfOk};
ghost use Rattle.lin_rows.specs.declared.bound.Bound.{Bound};
ghost use Rattle.lin_rows.specs.Combining.{AreOfProblem};
ghost use Rattle.cert_lines.specs.Shapes.{leaf_shape};
ghost use Rattle.certificate.specs.Shapes.{tree_shape};
ghost use Rattle.certificate.specs.Values.{leaf_values, tree_values};
ghost use Rattle.cert_trees.specs.Paths.{AreChoices};
ghost use Rattle.cert_checker.specs.Named.{IsReadyFor};
ghost use Rattle.cert_checker.specs.Leaves.{HasDenominator};
ghost use Rattle.cert_checker.specs.Checks.{HaveDenominators, LeafHasFault, LeafIsGood, TreeHasFault, TreeIsGood};

use crate::claims::shortfall;
use crate::{CheckFault, NamedSums, Rejected, Why, leaf_bound_in};
use cert_trees::is_split;
use certificate::{Claim, Leaf, Tree, leaf_lines_count};
use lin_rows::{Bound, Column, Row};
use lot_model::Instance;
use std::alloc::{AllocError, Global};

// Goes down to one side of a branch.
fn go_down(path: &mut Vec<Bound>, column: Column, most: bool, number: u64) -> Result<(), AllocError>
    ensures { IfOk result (λ _. path.new.items
        ≡ path.old.items ++ (record { column = column; most = most; number = number } ∷ [])) }
{
    path.push(Bound {
        column,
        most,
        number,
    })?;
    Ok(())
}

// Goes back up.
fn go_up(path: &mut Vec<Bound>)
    ensures { (before : List Bound) (last : Bound) → path.old.items ≡ before ++ (last ∷ [])
        → path.new.items ≡ before }
{
    path.pop();
}

// Whether a leaf says enough: the line after it.
fn check_leaf(
    alloc: Global,
    instance: &Instance,
    named: &mut NamedSums,
    cuts: &[Row],
    claim: Claim,
    path: &[Bound],
    leaf: &Leaf,
    line: u64,
) -> Result<u64, CheckFault>
    requires ready { IsReadyFor instance.now named.old }
    requires cuts { AreOfProblem instance.now cuts.now }
    requires path { AreChoices instance.now path.now }
    requires den { HasDenominator (leaf_shape leaf.now) }
    requires lines { line + length (leaf_values (leaf_shape leaf.now)) < 2 ^ 64 }
    ensures ready { IsReadyFor instance.now named.new }
    ensures good { IfOk result (λ _.
        LeafIsGood instance.now cuts.now claim path.now (leaf_shape leaf.now)) }
    ensures line { IfOk result (λ next. next ≡ line + length (leaf_values (leaf_shape leaf.now))) }
    ensures fault { IfErr result (LeafHasFault instance.now cuts.now claim path.now
        (leaf_shape leaf.now) line) }
{
    let says = leaf_bound_in(alloc, instance, named, cuts, path, leaf, line)?;
    match shortfall(claim, says) {
        None => Ok(line + leaf_lines_count(leaf)),
        Some(amount) => Err(CheckFault::Rejected(Rejected {
            line,
            why: Why::Short { says: amount },
        })),
    }
}

// Whether the branches of a tree split and its leaves say enough: the line after it. The path leads to the tree, which
// starts on this line, and is as it was afterwards, unless there is a fault.
//
// It calls itself once for each branch on the way to a leaf.
pub fn walk(
    alloc: Global,
    instance: &Instance,
    named: &mut NamedSums,
    cuts: &[Row],
    claim: Claim,
    path: &mut Vec<Bound>,
    tree: &Tree,
    line: u64,
) -> Result<u64, CheckFault>
    requires ready { IsReadyFor instance.now named.old }
    requires cuts { AreOfProblem instance.now cuts.now }
    requires path { AreChoices instance.now path.old.items }
    requires dens { HaveDenominators (tree_shape tree.now) }
    requires lines { line + length (tree_values (tree_shape tree.now)) < 2 ^ 64 }
    ensures ready { IsReadyFor instance.now named.new }
    ensures path { IfOk result (λ _. path.new.items ≡ path.old.items) }
    ensures good { IfOk result (λ _.
        TreeIsGood instance.now cuts.now claim path.old.items (tree_shape tree.now)) }
    ensures line { IfOk result (λ next. next ≡ line + length (tree_values (tree_shape tree.now))) }
    ensures fault { IfErr result (TreeHasFault instance.now cuts.now claim path.old.items
        (tree_shape tree.now) line) }
{
    match tree {
        Tree::Branch {
            column,
            at,
            low,
            high,
        } => {
            if !is_split(instance, path, *column, *at) {
                return Err(CheckFault::Rejected(Rejected {
                    line,
                    why: Why::Range,
                }));
            }
            go_down(path, *column, true, *at)?;
            let next = walk(alloc, instance, named, cuts, claim, path, low, line + 1)?;
            go_up(path);
            go_down(path, *column, false, *at + 1)?;
            let end = walk(alloc, instance, named, cuts, claim, path, high, next)?;
            go_up(path);
            Ok(end)
        }
        Tree::Leaf(leaf) => check_leaf(alloc, instance, named, cuts, claim, path, leaf, line),
    }
}
