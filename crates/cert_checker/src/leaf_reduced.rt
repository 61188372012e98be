// What a leaf says by reduced costs: a sum of multiples of rows, and the numbers of groups of items.
ghost use Rattle.std.specs.Prelude.{◌≡◌, ◌+◌, ◌<◌, ◌^◌, ℕ, length, map, IfErr, IfOk};
ghost use Rattle.std.specs.List.{All};
ghost use Rattle.lin_rows.specs.Combining.{AreOfProblem};
ghost use Rattle.cert_lines.specs.Shapes.{ReducedLeaf, list_shape};
ghost use Rattle.cert_trees.specs.Paths.{AreChoices};
ghost use Rattle.cert_meaning.specs.Named.{names};
ghost use Rattle.cert_meaning.specs.Lists.{all_parts, list_row, parts_of_list};
ghost use Rattle.cert_checker.specs.Named.{IsReadyFor};
ghost use Rattle.cert_checker.specs.Cuts.{rejected};
ghost use Rattle.cert_checker.specs.Leaves.{HasLine, IfRejected, IsFaultOfLeaf, IsFirstWrongList, IsList, IsRefusedAs, IsSaidBy, IsShortBy, IsWrongList, LeafIsSmall, LeafSaysThis};

use crate::leaf_sum::{rounded_up, sum_within_costs};
use crate::parts::test_parts;
use crate::{CheckFault, NamedSums, Rejected, Why};
use cert_meaning::LeafSays;
use certificate::{Group, ListKind, Part, PartList};
use lin_rows::{Bound, Column, Row, RowName};
use lot_model::{Instance, an_instance_breaks_no_rule};
use reduced_leaf::{ReducedFault, ReducedSum, reduced_sum, reduced_sums_are_one};
use std::alloc::{AllocError, Global};

// The row of a kind that an item, or a resource, has in a period.
fn row_in(kind: ListKind, index: u32, period: u32) -> RowName
    ensures { result ≡ list_row kind index period }
{
    match kind {
        ListKind::Balance => RowName::Balance(index, period),
        ListKind::Link => RowName::Link(index, period),
        ListKind::Capacity => RowName::Capacity(index, period),
        ListKind::Top => RowName::Top(index, period),
        ListKind::Least => RowName::Least(index, period),
        ListKind::Late => RowName::Late(index, period),
    }
}

// The parts that a list stands for, which has an entry for each period.
fn spread(alloc: Global, instance: &Instance, list: &PartList) -> Result<Vec<Part>, AllocError>
    requires { length list.now.times.items ≡ instance.now.periods }
    ensures { IfOk result (λ parts. parts.items ≡ parts_of_list (list_shape list.now)) }
{
    let mut parts = Vec::with_capacity(alloc, list.times.len())?;
    for period in 1..instance.periods() + 1 {
        let row = row_in(list.kind, list.index, period);
        let times = list.times[(period - 1) as usize];
        parts.push(Part { row, times })?;
    }
    Ok(parts)
}

// The parts of a list, if it may be taken. Else it is refused on its line: it hasn't an entry for each period (`Range`), or
// the first of its parts that may not be taken is why.
fn list_parts(
    alloc: Global,
    instance: &Instance,
    cuts: &[Row],
    path: &[Bound],
    list: &PartList,
    line: u64,
) -> Result<Vec<Part>, CheckFault>
    ensures parts { IfOk result (λ parts. parts.items ≡ parts_of_list (list_shape list.now)) }
    ensures list { IfOk result (λ _. (total : ℕ → ℕ)
        → IsList (names instance.now total cuts.now path.now) (list_shape list.now)) }
    ensures wrong { IfErr result (λ fault. IfRejected fault (λ at why. (at ≡ line)
        × ((total : ℕ → ℕ)
        → IsWrongList (names instance.now total cuts.now path.now) (list_shape list.now) why))) }
{
    if list.times.len() != instance.periods() as usize {
        return Err(refused(line, Why::Range));
    }
    let parts = spread(alloc, instance, list)?;
    match test_parts(instance, cuts, path, &parts, 0) {
        Ok(()) => Ok(parts),
        Err(rejected) => Err(refused(line, rejected.why)),
    }
}

// Parts, and those of lists after them, if each list may be taken. Else the first that may not be is refused; the lines of
// the lists follow the given one.
fn with_lists(
    alloc: Global,
    instance: &Instance,
    cuts: &[Row],
    path: &[Bound],
    parts: &[Part],
    lists: &[PartList],
    line: u64,
) -> Result<Vec<Part>, CheckFault>
    requires lines { line + length lists.now < 2 ^ 64 }
    ensures all { IfOk result (λ all. all.items ≡ all_parts parts.now (map list_shape lists.now)) }
    ensures lists { IfOk result (λ _. (total : ℕ → ℕ)
        → All (IsList (names instance.now total cuts.now path.now)) (map list_shape lists.now)) }
    ensures fault { IfErr result (λ fault. IfRejected fault (λ at why. (total : ℕ → ℕ)
        → IsFirstWrongList (names instance.now total cuts.now path.now) (map list_shape lists.now)
        line at why)) }
{
    let mut all = Vec::new(alloc);
    all.extend_from_slice(parts)?;
    for place in 0..lists.len() {
        let list_line = line + 1 + place as u64;
        let more = list_parts(alloc, instance, cuts, path, &lists[place], list_line)?;
        all.extend_from_slice(&more)?;
    }
    Ok(all)
}

// A refusal on this line.
fn refused(line: u64, why: Why) -> CheckFault
    ensures { result ≡ rejected line why }
{
    CheckFault::Rejected(Rejected { line, why })
}

// A fault of groups as a refusal, where the leaf is on `line` and its first group on `first`.
fn refusal(fault: ReducedFault, line: u64, first: u64) -> CheckFault
    requires { HasLine fault first }
    ensures { IfRejected result (IsRefusedAs fault line first) }
{
    match fault {
        ReducedFault::Group(place) => refused(first + place as u64, Why::Range),
        ReducedFault::Twice(_) => refused(line, Why::Range),
        ReducedFault::Charge { item, period } => {
            refused(line, Why::Column(Column::R { item, period }))
        }
        ReducedFault::Work(place) => refused(first + place as u64, Why::Work),
        ReducedFault::TooLarge => refused(line, Why::TooLarge),
        ReducedFault::Memory => CheckFault::Memory,
    }
}

// What a leaf says whose right sides and numbers of groups add to this.
fn said_by(sum: i128, den: u64, line: u64) -> Result<LeafSays, CheckFault>
    ensures says { IfOk result (IsSaidBy den sum) }
    ensures short { IfErr result (λ fault.
        IfRejected fault (λ at why. IsShortBy den sum line at why)) }
{
    if den > 0 {
        return Ok(LeafSays::AtLeast(rounded_up(sum, den as i128)));
    }
    if sum > 0 {
        return Ok(LeafSays::NoPlan);
    }
    Err(refused(line, Why::Short { says: 0 }))
}

// What a leaf says by reduced costs: the right sides of its parts and lists, and the numbers of its groups, bound each plan
// that lies in it, or refute them all.
pub(crate) fn reduced_leaf(
    alloc: Global,
    instance: &Instance,
    named: &mut NamedSums,
    cuts: &[Row],
    path: &[Bound],
    den: u64,
    parts: &[Part],
    lists: &[PartList],
    groups: &[Group],
    line: u64,
) -> Result<LeafSays, CheckFault>
    requires ready { IsReadyFor instance.now named.old }
    requires cuts { AreOfProblem instance.now cuts.now }
    requires path { AreChoices instance.now path.now }
    requires lines { line + 1 + length parts.now + length lists.now + length groups.now < 2 ^ 64 }
    ensures ready { IsReadyFor instance.now named.new }
    ensures says { IfOk result (LeafSaysThis instance.now cuts.now path.now
        (ReducedLeaf den parts.now (map list_shape lists.now) groups.now)) }
    ensures small { IfOk result (λ _.
        LeafIsSmall instance.now cuts.now path.now
        (ReducedLeaf den parts.now (map list_shape lists.now) groups.now)) }
    ensures fault { IfErr result (IsFaultOfLeaf instance.now cuts.now path.now
        (ReducedLeaf den parts.now (map list_shape lists.now) groups.now) line) }
{
    reduced_sums_are_one();
    an_instance_breaks_no_rule(instance);
    if let Err(rejected) = test_parts(instance, cuts, path, parts, line) {
        return Err(CheckFault::Rejected(rejected));
    }
    let last_part = line + parts.len() as u64;
    let all = with_lists(alloc, instance, cuts, path, parts, lists, last_part)?;
    sum_within_costs(alloc, instance, named, cuts, path, den as i128, &all, line)?;
    match reduced_sum(alloc, instance, &named.sums, den, groups) {
        Ok(ReducedSum::Sum(sum)) => said_by(sum, den, line),
        Ok(ReducedSum::NoChoice) => Ok(LeafSays::NoPlan),
        Err(fault) => {
            let first = last_part + 1 + lists.len() as u64;
            Err(refusal(fault, line, first))
        }
    }
}
