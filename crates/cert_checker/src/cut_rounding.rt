// The row of a rounding cut.
ghost use Rattle.std.specs.Prelude.{◌≡◌, ◌≤◌, ◌<◌, ◌+◌, ◌^◌, [], length, IfErr, IfOk, ℕ};
ghost use Rattle.std.specs.List.{All};
ghost use Rattle.lot_model.specs.Views.{IsInstance};
ghost use Rattle.lin_rows.specs.Combining.{AreOfProblem};
ghost use Rattle.round_cuts.specs.declared.rounding.TheConstants.{MAX_DIVISOR};
ghost use Rattle.cert_lines.specs.Shapes.{RoundCut};
ghost use Rattle.cert_trees.specs.Ranges.{WithTotals};
ghost use Rattle.cert_meaning.specs.Named.{HasName, names};
ghost use Rattle.cert_meaning.specs.Parts.{AreParts, AreSmall, times_of};
ghost use Rattle.cert_checker.specs.declared.fault.CheckFault.TheVariants.{Memory};
ghost use Rattle.cert_checker.specs.Cuts.{AreRowsOf, HasItsColumns, HoldsAfter, IsFaultOfCut, IsRowNamed, IsRowOfCut};

use crate::parts::test_parts;
use crate::{CheckFault, Rejected, Why};
use certificate::Part;
use lin_rows::{CutFault, Row, RowFault, RowName, base_row};
use lot_model::Instance;
use round_cuts::round_row;
use std::alloc::{AllocError, Global};

// A copy of a row.
fn copy_of(alloc: Global, row: &Row) -> Result<Row, AllocError>
    ensures { IfOk result (λ copy. copy ≡ row.now) }
{
    let terms = row.terms().to_vec(alloc)?;
    Ok(Row::new(terms, row.right(), row.is_equal()))
}

// The row of a name, which exists: one of the instance, or a copy of that of an earlier cut.
fn row_by(
    alloc: Global,
    instance: &Instance,
    earlier: &[Row],
    name: RowName,
) -> Result<Row, CheckFault>
    requires earlier { AreOfProblem instance.now earlier.now }
    requires named { HasName instance.now (length earlier.now) 0 name }
    ensures row { IfOk result (IsRowNamed instance.now earlier.now name) }
    ensures memory { IfErr result (λ fault. fault ≡ Memory) }
{
    match name {
        RowName::Cut(number) => Ok(copy_of(alloc, &earlier[(number - 1) as usize])?),
        name => match base_row(alloc, instance, name) {
            Ok(row) => Ok(row),
            Err(RowFault::Memory) => Err(CheckFault::Memory),
            Err(RowFault::NoSuchRow) => unreachable!(),
        },
    }
}

// The rows of parts.
fn rows_of(
    alloc: Global,
    instance: &Instance,
    earlier: &[Row],
    parts: &[Part],
) -> Result<Vec<Row>, CheckFault>
    requires earlier { AreOfProblem instance.now earlier.now }
    requires named { All (λ part. HasName instance.now (length earlier.now) 0 part.row) parts.now }
    ensures rows { IfOk result (λ rows. AreRowsOf instance.now earlier.now parts.now rows.items) }
    ensures memory { IfErr result (λ fault. fault ≡ Memory) }
{
    let mut rows = Vec::with_capacity(alloc, parts.len())?;
    for place in 0..parts.len() {
        let row = row_by(alloc, instance, earlier, parts[place].row)?;
        rows.push(row)?;
    }
    Ok(rows)
}

// How many times each is taken.
fn times_of(alloc: Global, parts: &[Part]) -> Result<Vec<i128>, AllocError>
    ensures { IfOk result (λ times. times.items ≡ times_of parts.now) }
{
    let mut times = Vec::with_capacity(alloc, parts.len())?;
    for place in 0..parts.len() {
        times.push(parts[place].times)?;
    }
    Ok(times)
}

// The rounding row of parts that may be taken.
fn rounded(
    alloc: Global,
    instance: &Instance,
    earlier: &[Row],
    divisor: u64,
    parts: &[Part],
    line: u64,
) -> Result<Row, CheckFault>
    requires instance { IsInstance instance.now }
    requires earlier { AreOfProblem instance.now earlier.now }
    requires least { 1 ≤ divisor }
    requires most { divisor ≤ MAX_DIVISOR }
    requires parts { (total : ℕ → ℕ) → AreParts (names instance.now total earlier.now [])
        parts.now }
    ensures row { IfOk result (IsRowOfCut instance.now earlier.now (RoundCut divisor parts.now)) }
    ensures small { IfOk result (λ _.
        WithTotals instance.now
        (λ total. AreSmall (names instance.now total earlier.now []) parts.now)) }
    ensures holds { IfOk result (HoldsAfter instance.now earlier.now) }
    ensures columns_exist { IfOk result (HasItsColumns instance.now) }
    ensures fault { IfErr result (IsFaultOfCut instance.now earlier.now (RoundCut divisor parts.now)
        line) }
{
    let rows = rows_of(alloc, instance, earlier, parts)?;
    let times = times_of(alloc, parts)?;
    match round_row(alloc, &rows, &times, divisor) {
        Ok(row) => Ok(row),
        Err(CutFault::TooLarge) => {
            let why = Why::TooLarge;
            Err(CheckFault::Rejected(Rejected { line, why }))
        }
        Err(CutFault::Memory) => Err(CheckFault::Memory),
        // Each row is taken a number of times, and only an equation a negative one.
        Err(CutFault::Length) => unreachable!(),
        Err(CutFault::Sign) => unreachable!(),
        Err(CutFault::Potential { .. }) => unreachable!(),
    }
}

// The row of a rounding cut.
pub(crate) fn round_cut(
    alloc: Global,
    instance: &Instance,
    earlier: &[Row],
    divisor: u64,
    parts: &[Part],
    line: u64,
) -> Result<Row, CheckFault>
    requires instance { IsInstance instance.now }
    requires earlier { AreOfProblem instance.now earlier.now }
    requires least { 1 ≤ divisor }
    requires most { divisor ≤ MAX_DIVISOR }
    requires lines { line + length parts.now < 2 ^ 64 }
    ensures row { IfOk result (IsRowOfCut instance.now earlier.now (RoundCut divisor parts.now)) }
    ensures small { IfOk result (λ _.
        WithTotals instance.now
        (λ total. AreSmall (names instance.now total earlier.now []) parts.now)) }
    ensures holds { IfOk result (HoldsAfter instance.now earlier.now) }
    ensures columns_exist { IfOk result (HasItsColumns instance.now) }
    ensures fault { IfErr result (IsFaultOfCut instance.now earlier.now (RoundCut divisor parts.now)
        line) }
{
    match test_parts(instance, earlier, &[], parts, line) {
        Ok(()) => rounded(alloc, instance, earlier, divisor, parts, line),
        Err(rejected) => Err(CheckFault::Rejected(rejected)),
    }
}
