// The nodes of a certificate's tree, one after the other. The path to the node that comes next is all that is kept: a
// low side on it says that its high side is still to come.
ghost use Rattle.std.specs.Prelude.{◌≡◌, ℕ, ◌+◌, ◌<◌, ◌≤◌, ◌^◌, ◌++◌, ◌∷◌, [], true, false, IfErr, IfOk, OnOk, length};
ghost use Rattle.lot_sizing.specs.Problem.{Problem};
ghost use Rattle.lot_sizing.specs.Plan.{Plan, IsFeasible};
ghost use Rattle.lin_rows.specs.Columns.{value_in};
ghost use Rattle.lin_rows.specs.Combining.{AreOfProblem};
ghost use Rattle.cert_lines.specs.Limits.{IsVersion};
ghost use Rattle.cert_lines.specs.Shapes.{EndLine, leaf_shape};
ghost use Rattle.cert_lines.specs.declared.limits.TheConstants.{MAX_BRANCHES};
ghost use Rattle.certificate.specs.Counts.{longest_path};
ghost use Rattle.certificate.specs.Shapes.{TreeShape};
ghost use Rattle.certificate.specs.Values.{leaf_values, tree_values};
ghost use Rattle.cert_trees.specs.Paths.{AreChoices, AreMet};
ghost use Rattle.cert_trees.specs.Trees.{low_path};
ghost use Rattle.cert_meaning.specs.Laws.{HoldAtPlans};
ghost use Rattle.cert_checker.specs.Named.{IsReadyFor};
ghost use Rattle.cert_checker.specs.Leaves.{HasDenominator};
ghost use Rattle.cert_checker.specs.Checks.{LeafIsGood, TreeIsGood};
ghost use Rattle.cert_stream.specs.Reader.{IsSound, left_of};
ghost use Rattle.stream_check.specs.Nodes.{AreCovered, AreLeftOf, AreSmall, IsBranchStop, IsLeafStop, IsSafe, Splits, TreeIsRefused, later, trees_due};
ghost use Rattle.stream_check.specs.Passes.{Gives, HasLeft, IsStep};

use crate::StreamFault;
use crate::units::{CertText, Node, read_node};
use cert_checker::{NamedSums, Rejected, Why, leaf_bound_in, shortfall};
use cert_stream::LineReader;
use cert_trees::is_split;
use certificate::{CertTextFault, Claim, Leaf, MAX_BRANCHES};
use lin_rows::{Bound, Column, Row};
use lot_io::Shelf;
use lot_model::Instance;
use std::alloc::{AllocError, Global};

// Goes down to the low side of a branch on this line.
fn go_down(
    instance: &Instance,
    path: &mut Vec<Bound>,
    column: Column,
    at: u64,
    line: u64,
) -> Result<(), StreamFault>
    requires choices { AreChoices instance.now path.old.items }
    requires small { AreSmall path.old.items }
    ensures down { OnOk result (path.new.items ≡ low_path path.old.items column at) }
    ensures split { OnOk result (Splits instance.now path.old.items column at) }
    ensures choices { OnOk result (AreChoices instance.now path.new.items) }
    ensures small { OnOk result (AreSmall path.new.items) }
    ensures stop { IfErr result (IsBranchStop instance.now path.old.items column at line) }
{
    if path.len() >= MAX_BRANCHES as usize {
        return Err(StreamFault::Text(CertTextFault::Deep(line)));
    }
    if !is_split(instance, path, column, at) {
        return Err(StreamFault::Rejected(Rejected {
            line,
            why: Why::Range,
        }));
    }
    path.push(Bound {
        column,
        most: true,
        number: at,
    })?;
    Ok(())
}

// Goes on from a leaf to the high side of the last branch whose low side was done, if there is one.
fn go_over(path: &mut Vec<Bound>) -> Result<bool, AllocError>
    requires small { AreSmall path.old.items }
    ensures trees_due { IfOk result (λ more. trees_due more path.new.items ≡ later path.old.items) }
    ensures choices { OnOk result ((m : Problem) → AreChoices m path.old.items
        → AreChoices m path.new.items) }
    ensures small { OnOk result (AreSmall path.new.items) }
{
    while let Some(bound) = path.pop() {
        if bound.most {
            path.push(Bound {
                column: bound.column,
                most: false,
                number: bound.number + 1,
            })?;
            return Ok(true);
        }
    }
    Ok(false)
}

// What is given to all nodes of a tree: the instance, the rows of the cuts, and the claim.
#[derive(Clone, Copy)]
struct Given<'a> {
    instance: &'a Instance,
    rows: &'a [Row],
    claim: Claim,
}

// Whether a leaf on this line says enough.
fn check_leaf(
    alloc: Global,
    given: Given<'_>,
    named: &mut NamedSums,
    path: &[Bound],
    leaf: &Leaf,
    line: u64,
) -> Result<(), StreamFault>
    requires ready { IsReadyFor given.instance.now named.old }
    requires rows { AreOfProblem given.instance.now given.rows.now }
    requires path { AreChoices given.instance.now path.now }
    requires den { HasDenominator (leaf_shape leaf.now) }
    requires lines { line + length (leaf_values (leaf_shape leaf.now)) < 2 ^ 64 }
    ensures ready { IsReadyFor given.entry.instance.now named.new }
    ensures good { OnOk result (LeafIsGood given.entry.instance.now given.entry.rows.now
        given.entry.claim path.now (leaf_shape leaf.now)) }
    ensures safe { OnOk result (HoldAtPlans given.entry.instance.now given.entry.rows.now
        → (p : Plan)
        → IsFeasible given.entry.instance.now p → AreMet (value_in p) path.now
        → IsSafe given.entry.instance.now given.entry.claim p) }
    ensures stop { IfErr result (IsLeafStop given.entry.instance.now given.entry.rows.now
        given.entry.claim path.now (leaf_shape leaf.now) line) }
{
    let says = leaf_bound_in(alloc, given.instance, named, given.rows, path, leaf, line)?;
    match shortfall(given.claim, says) {
        None => Ok(()),
        Some(amount) => Err(StreamFault::Rejected(Rejected {
            line,
            why: Why::Short { says: amount },
        })),
    }
}

// Whether the next node, to which the path leads, is good. The path then leads to the node after it, if one is needed.
fn check_node<S: Shelf>(
    given: Given<'_>,
    named: &mut NamedSums,
    path: &mut Vec<Bound>,
    reader: &mut LineReader,
    shelf: &mut S,
    text: CertText<'_>,
) -> Result<bool, StreamFault>
    requires ready { IsReadyFor given.instance.now named.old }
    requires rows { AreOfProblem given.instance.now given.rows.now }
    requires hold { HoldAtPlans given.instance.now given.rows.now }
    requires choices { AreChoices given.instance.now path.old.items }
    requires small { AreSmall path.old.items }
    requires sound { IsSound reader.old }
    requires version { IsVersion text.version }
    ensures ready { OnOk result (IsReadyFor given.entry.instance.now named.new) }
    ensures choices { OnOk result (AreChoices given.entry.instance.now path.new.items) }
    ensures small { OnOk result (AreSmall path.new.items) }
    ensures left { OnOk result (left_of reader.new < left_of reader.old) }
    ensures covered { IfOk result (λ more.
        AreCovered given.entry.instance.now given.entry.claim (trees_due true path.old.items)
        → AreCovered given.entry.instance.now given.entry.claim (trees_due more path.new.items)) }
    ensures awaited { (whole : TreeShape) (first : ℕ)
        → AreLeftOf given.entry text.entry whole first (trees_due true path.old.items)
        (S.shown shelf.old) reader.old
        → Gives (λ more.
        AreLeftOf given.entry text.entry whole first (trees_due more path.new.items)
        (S.shown shelf.new) reader.new)
        (TreeIsRefused given.entry.instance.now given.entry.rows.now given.entry.claim whole first)
        result }
    ensures step { IsStep text.entry.name.now (S.shown shelf.old) (S.shown shelf.new) reader.old
        reader.new result }
{
    let line = reader.number;
    match read_node(reader, shelf, text)? {
        Node::Branch { column, at } => {
            go_down(given.instance, path, column, at, line)?;
            Ok(true)
        }
        Node::Leaf(leaf) => {
            check_leaf(text.alloc, given, named, path, &leaf, line)?;
            Ok(go_over(path)?)
        }
    }
}

// Whether the nodes of the tree are good, whose first one comes next.
pub fn check_tree<S: Shelf>(
    instance: &Instance,
    rows: &[Row],
    claim: Claim,
    reader: &mut LineReader,
    shelf: &mut S,
    text: CertText<'_>,
) -> Result<(), StreamFault>
    requires rows { AreOfProblem instance.now rows.now }
    requires hold { HoldAtPlans instance.now rows.now }
    requires sound { IsSound reader.old }
    requires version { IsVersion text.version }
    ensures safe { OnOk result ((p : Plan) → IsFeasible instance.now p
        → IsSafe instance.now claim p) }
    ensures awaited { (tree : TreeShape) → longest_path tree ≤ MAX_BRANCHES
        → HasLeft text.entry (S.shown shelf.old) reader.old (tree_values tree ++ EndLine ∷ [])
        → Gives (λ _. TreeIsGood instance.now rows.now claim [] tree
        × HasLeft text.entry (S.shown shelf.new) reader.new (EndLine ∷ []))
        (TreeIsRefused instance.now rows.now claim tree reader.old.number) result }
    ensures step { IsStep text.entry.name.now (S.shown shelf.old) (S.shown shelf.new) reader.old
        reader.new result }
{
    let given = Given {
        instance,
        rows,
        claim,
    };
    let mut named = NamedSums::new(text.alloc, instance)?;
    let mut path = Vec::new(text.alloc);
    let mut more = true;
    while more {
        more = check_node(given, &mut named, &mut path, reader, shelf, text)?;
    }
    Ok(())
}
