// What a leaf says by a sum of multiples of rows.
ghost use Rattle.std.specs.Prelude.{◌≡◌, ◌+◌, ◌<◌, ◌^◌, ◌≤ℤ◌, ℕ, pos, length, IfErr, IfOk};
ghost use Rattle.lin_rows.specs.declared.column.Column.{Column};
ghost use Rattle.lin_rows.specs.Combining.{AreOfProblem};
ghost use Rattle.cert_lines.specs.Shapes.{FarkasLeaf, LinearLeaf};
ghost use Rattle.cert_trees.specs.Paths.{AreChoices};
ghost use Rattle.cert_meaning.specs.Named.{names};
ghost use Rattle.cert_meaning.specs.Parts.{AreParts, sum_of_right};
ghost use Rattle.cert_meaning.specs.Says.{IsRoundedUp};
ghost use Rattle.cert_checker.specs.Named.{AreSumsOf, IsReadyFor, IsWithinCost};
ghost use Rattle.cert_checker.specs.Leaves.{IsFaultOfLeaf, IsGoodSum, LeafIsSmall, LeafSaysThis, WithNames, linear_most};

use crate::columns::first_large;
use crate::named::AddFault;
use crate::parts::test_parts;
use crate::{CheckFault, NamedSums, Rejected, Why};
use cert_meaning::LeafSays;
use certificate::Part;
use lin_rows::{Bound, Row};
use lot_model::Instance;
use std::alloc::Global;

// A sum divided by a denominator and rounded up, and 0 where that is negative.
pub(crate) fn rounded_up(sum: i128, den: i128) -> u128
    requires { pos 1 ≤ℤ den }
    ensures { IsRoundedUp den sum result }
{
    if sum <= 0 {
        return 0;
    }
    sum.unsigned_abs().div_ceil(den.unsigned_abs())
}

// Sums parts that may be taken, no column more often than `den` times its cost. It is refused where the amounts are too
// large, and then where the sum of a column is.
pub(crate) fn sum_within_costs(
    alloc: Global,
    instance: &Instance,
    named: &mut NamedSums,
    cuts: &[Row],
    path: &[Bound],
    den: i128,
    parts: &[Part],
    line: u64,
) -> Result<i128, CheckFault>
    requires ready { IsReadyFor instance.now named.old }
    requires cuts { AreOfProblem instance.now cuts.now }
    requires path { AreChoices instance.now path.now }
    requires den { pos 0 ≤ℤ den }
    requires parts { (total : ℕ → ℕ) → AreParts (names instance.now total cuts.now path.now)
        parts.now }
    ensures ready { IsReadyFor instance.now named.new }
    ensures good { IfOk result (λ _. WithNames instance.now cuts.now path.now
        (λ n ranges. IsGoodSum n (linear_most n den) parts.now)) }
    ensures right { IfOk result (λ right. WithNames instance.now cuts.now path.now
        (λ n ranges. right ≡ sum_of_right n parts.now)) }
    ensures sums { IfOk result (λ _. WithNames instance.now cuts.now path.now
        (λ n ranges. AreSumsOf n parts.now named.new.sums)) }
    ensures within { IfOk result (λ _. (c : Column)
        → IsWithinCost instance.now den named.new.sums c) }
    ensures fault { IfErr result (IsFaultOfLeaf instance.now cuts.now path.now
        (LinearLeaf den parts.now) line) }
{
    match named.sum_parts(alloc, instance, cuts, path, parts) {
        Ok(()) => {}
        Err(AddFault::TooLarge) => {
            let why = Why::TooLarge;
            return Err(CheckFault::Rejected(Rejected { line, why }));
        }
        Err(AddFault::Memory) => return Err(CheckFault::Memory),
    }
    match first_large(instance, &named.sums, den) {
        Some(column) => {
            let why = Why::Column(column);
            Err(CheckFault::Rejected(Rejected { line, why }))
        }
        None => Ok(named.sums.right()),
    }
}

// Sums parts as `sum_within_costs` does, where each may be taken. Else the first that may not be is refused.
fn summed(
    alloc: Global,
    instance: &Instance,
    named: &mut NamedSums,
    cuts: &[Row],
    path: &[Bound],
    den: i128,
    parts: &[Part],
    line: u64,
) -> Result<i128, CheckFault>
    requires ready { IsReadyFor instance.now named.old }
    requires cuts { AreOfProblem instance.now cuts.now }
    requires path { AreChoices instance.now path.now }
    requires den { pos 0 ≤ℤ den }
    requires lines { line + length parts.now < 2 ^ 64 }
    ensures ready { IsReadyFor instance.now named.new }
    ensures good { IfOk result (λ _. WithNames instance.now cuts.now path.now
        (λ n ranges. IsGoodSum n (linear_most n den) parts.now)) }
    ensures right { IfOk result (λ right. WithNames instance.now cuts.now path.now
        (λ n ranges. right ≡ sum_of_right n parts.now)) }
    ensures fault { IfErr result (IsFaultOfLeaf instance.now cuts.now path.now
        (LinearLeaf den parts.now) line) }
{
    match test_parts(instance, cuts, path, parts, line) {
        Ok(()) => {}
        Err(rejected) => return Err(CheckFault::Rejected(rejected)),
    }
    sum_within_costs(alloc, instance, named, cuts, path, den, parts, line)
}

// What a leaf says by linear duality: the sum takes no column more often than `den` times its cost, so each plan
// that lies in the leaf costs at least the right side over `den`, rounded up.
pub(crate) fn linear_leaf(
    alloc: Global,
    instance: &Instance,
    named: &mut NamedSums,
    cuts: &[Row],
    path: &[Bound],
    den: i128,
    parts: &[Part],
    line: u64,
) -> Result<LeafSays, CheckFault>
    requires ready { IsReadyFor instance.now named.old }
    requires cuts { AreOfProblem instance.now cuts.now }
    requires path { AreChoices instance.now path.now }
    requires den { pos 1 ≤ℤ den }
    requires lines { line + length parts.now < 2 ^ 64 }
    ensures ready { IsReadyFor instance.now named.new }
    ensures says { IfOk result (LeafSaysThis instance.now cuts.now path.now
        (LinearLeaf den parts.now)) }
    ensures small { IfOk result (λ _.
        LeafIsSmall instance.now cuts.now path.now (LinearLeaf den parts.now)) }
    ensures fault { IfErr result (IsFaultOfLeaf instance.now cuts.now path.now
        (LinearLeaf den parts.now) line) }
{
    let right = match summed(alloc, instance, named, cuts, path, den, parts, line) {
        Ok(right) => right,
        Err(fault) => return Err(fault),
    };
    Ok(LeafSays::AtLeast(rounded_up(right, den)))
}

// What a leaf says by Farkas' lemma: the sum takes no column a positive number of times and its right side is
// positive, so no plan lies in the leaf.
pub(crate) fn farkas_leaf(
    alloc: Global,
    instance: &Instance,
    named: &mut NamedSums,
    cuts: &[Row],
    path: &[Bound],
    parts: &[Part],
    line: u64,
) -> Result<LeafSays, CheckFault>
    requires ready { IsReadyFor instance.now named.old }
    requires cuts { AreOfProblem instance.now cuts.now }
    requires path { AreChoices instance.now path.now }
    requires lines { line + length parts.now < 2 ^ 64 }
    ensures ready { IsReadyFor instance.now named.new }
    ensures says { IfOk result (LeafSaysThis instance.now cuts.now path.now
        (FarkasLeaf parts.now)) }
    ensures small { IfOk result (λ _.
        LeafIsSmall instance.now cuts.now path.now (FarkasLeaf parts.now)) }
    ensures fault { IfErr result (IsFaultOfLeaf instance.now cuts.now path.now
        (FarkasLeaf parts.now) line) }
{
    let right = match summed(alloc, instance, named, cuts, path, 0, parts, line) {
        Ok(right) => right,
        Err(fault) => return Err(fault),
    };
    if right <= 0 {
        let why = Why::Short { says: 0 };
        return Err(CheckFault::Rejected(Rejected { line, why }));
    }
    Ok(LeafSays::NoPlan)
}
