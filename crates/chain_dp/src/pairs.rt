// Tables of two levels.
ghost use Rattle.std.specs.Prelude.{◌≡◌, ◌+◌, ◌-◌, ◌^◌, ◌<◌, ◌≤◌, ℕ, length, min, IfOk};
ghost use Rattle.chain_dp.specs.Numbers.{IsCapped, IsLeastOf, most};
ghost use Rattle.chain_dp.specs.Lists.{AreTriangular, AreWide, HaveWidth, at, row_of};
ghost use Rattle.chain_dp.specs.Tables.{AreFirsts, AreGaps, IsGapEntry, IsLeastEnd, IsPairPlane, IsPairRow, end_cost, enter_cost, leave_cost};

use crate::lists::{LevelLists, Plane, Row, asked_between, lot_cost};
use crate::numbers::lesser;
use crate::spare::Spare;
use std::alloc::{AllocError, Global};

// What it costs to leave a lot of the second level for lot `to`.
fn leave_cost(
    low: &LevelLists,
    mid: &LevelLists,
    plane: &[Row],
    served: usize,
    lot: usize,
    to: usize,
) -> u128
    requires low { served < length low.now.unit_cost.items }
    requires mid { HaveWidth (length mid.now.asked.items) mid.now }
    requires plane { AreTriangular plane.now }
    requires lot { lot < length plane.now }
    requires order { served ≤ lot }
    requires before { lot < length mid.now.asked.items }
    requires to { to < length mid.now.asked.items }
    ensures { IsCapped (leave_cost low.now mid.now plane.now served to lot) result }
{
    let units = asked_between(mid, lot, to);
    let cost = lot_cost(mid, low.per_next, low.unit_cost[served], lot, units);
    plane[lot].get(served).saturating_add(cost)
}

// The least cost of leaving a lot of the second level, served by lot `served`, for lot `to`.
fn least_leave(low: &LevelLists, mid: &LevelLists, plane: &[Row], served: usize, to: usize) -> u128
    requires low { served < length low.now.unit_cost.items }
    requires mid { HaveWidth (length mid.now.asked.items) mid.now }
    requires plane { AreTriangular plane.now }
    requires size { to ≤ length plane.now }
    requires to { to < length mid.now.asked.items }
    requires order { served ≤ to }
    ensures { IsLeastOf served to (leave_cost low.now mid.now plane.now served to) result }
{
    let mut least = u128::MAX;
    for lot in served..to {
        least = lesser(least, leave_cost(low, mid, plane, served, lot, to));
    }
    least
}

// What it costs before lot `to` of the second level, by the lots of the first one.
fn gaps(
    alloc: Global,
    spare: &mut Spare,
    low: &LevelLists,
    mid: &LevelLists,
    plane: &[Row],
    to: usize,
) -> Result<Row, AllocError>
    requires low { to ≤ length low.now.unit_cost.items }
    requires mid { HaveWidth (length mid.now.asked.items) mid.now }
    requires plane { AreTriangular plane.now }
    requires size { to ≤ length plane.now }
    requires to { to < length mid.now.asked.items }
    ensures { IfOk result (AreGaps low.now mid.now plane.now to) }
{
    let mut cells = spare.take(alloc);
    for served in 0..to {
        let gap = least_leave(low, mid, plane, served, to);
        cells.push(gap)?;
    }
    Ok(Row { cells })
}

// How many lots of the first level may serve the lot before lot `to` of the second level, and go on to
// lot `served`.
fn lots_before(served: usize, to: usize) -> usize
    ensures { result ≡ min (served + 1) to }
{
    if served < to { served + 1 } else { to }
}

// The least cost of going on to lot `served` of the first level, from one of the first lots.
fn least_enter(gaps: &Row, stretches: &[Row], lots: usize, served: usize) -> u128
    requires gaps { lots ≤ length gaps.now }
    requires stretches { lots ≤ length stretches.now }
    requires wide { (u : ℕ) → u < lots → served < length (row_of stretches.now u) }
    ensures { IsLeastOf 0 lots (enter_cost gaps.now stretches.now served) result }
{
    let mut least = u128::MAX;
    for lot in 0..lots {
        let cost = gaps.get(lot).saturating_add(stretches[lot].get(served));
        least = lesser(least, cost);
    }
    least
}

// The entry of lots `lot` and `served`, where it costs `first` without another lot of the second level.
fn pair_entry(
    mid: &LevelLists,
    gaps: &Row,
    stretches: &[Row],
    first: u128,
    served: usize,
    lot: usize,
) -> u128
    requires mid { lot < length mid.now.setup_cost.items }
    requires gaps { length gaps.now ≡ lot }
    requires stretches { lot ≤ length stretches.now }
    requires wide { (u : ℕ) → u < lot → served < length (row_of stretches.now u) }
    ensures { IsGapEntry mid.now gaps.now stretches.now first served lot result }
{
    let lots = lots_before(served, lot);
    let entered = least_enter(gaps, stretches, lots, served).saturating_add(mid.setup_cost[lot]);
    lesser(first, entered)
}

// The row of lot `lot` of the second level, by the gaps before it.
fn gap_entries(
    alloc: Global,
    spare: &mut Spare,
    mid: &LevelLists,
    gaps: &Row,
    stretches: &[Row],
    firsts: &Row,
    lot: usize,
) -> Result<Row, AllocError>
    requires mid { lot < length mid.now.setup_cost.items }
    requires gaps { length gaps.now ≡ lot }
    requires stretches { lot ≤ length stretches.now }
    requires wide { (u : ℕ) → u < lot → lot < length (row_of stretches.now u) }
    requires firsts { length firsts.now ≡ lot + 1 }
    ensures length { IfOk result (λ row. length row ≡ lot + 1) }
    ensures row { IfOk result (λ row. (v : ℕ) → v ≤ lot
        → IsGapEntry mid.now gaps.now stretches.now (at firsts.now v) v lot (at row v)) }
{
    let mut cells = spare.take(alloc);
    for served in 0..lot + 1 {
        let entry = pair_entry(mid, gaps, stretches, firsts.get(served), served, lot);
        cells.push(entry)?;
    }
    Ok(Row { cells })
}

// The row of lot `lot` of the second level.
fn pair_row(
    alloc: Global,
    spare: &mut Spare,
    low: &LevelLists,
    mid: &LevelLists,
    stretches: &[Row],
    plane: &[Row],
    firsts: &Row,
    lot: usize,
) -> Result<Row, AllocError>
    requires low { lot ≤ length low.now.unit_cost.items }
    requires mid { HaveWidth (length mid.now.asked.items) mid.now }
    requires stretches { lot ≤ length stretches.now }
    requires wide { AreWide (length mid.now.asked.items) stretches.now }
    requires plane { AreTriangular plane.now }
    requires size { lot ≤ length plane.now }
    requires lot { lot < length mid.now.asked.items }
    requires firsts { length firsts.now ≡ lot + 1 }
    ensures { IfOk result (IsPairRow low.now mid.now stretches.now plane.now firsts.now lot) }
{
    let before = gaps(alloc, spare, low, mid, plane, lot)?;
    let row = gap_entries(alloc, spare, mid, &before, stretches, firsts, lot)?;
    spare.keep(before)?;
    Ok(row)
}

/// The rows of the first lots of the second level, where each entry may begin with the one of `firsts`.
pub(crate) fn pair_plane(
    alloc: Global,
    spare: &mut Spare,
    low: &LevelLists,
    mid: &LevelLists,
    stretches: &[Row],
    firsts: &[Row],
) -> Result<Vec<Row>, AllocError>
    requires low { length firsts.now ≤ length low.now.unit_cost.items }
    requires mid { HaveWidth (length mid.now.asked.items) mid.now }
    requires stretches { length firsts.now ≤ length stretches.now }
    requires wide { AreWide (length mid.now.asked.items) stretches.now }
    requires lots { length firsts.now ≤ length mid.now.asked.items }
    requires firsts { AreTriangular firsts.now }
    ensures { IfOk result (λ plane.
        IsPairPlane low.now mid.now stretches.now firsts.now (length firsts.now) plane.items) }
{
    let mut plane = Vec::new(alloc);
    for lot in 0..firsts.len() {
        let row = pair_row(alloc, spare, low, mid, stretches, &plane, &firsts[lot], lot)?;
        plane.push(row)?;
    }
    Ok(plane)
}

// The row of lot `lot` where there is one way to begin: with lots 0.
fn firsts_row(alloc: Global, spare: &mut Spare, lot: usize) -> Result<Row, AllocError>
    requires { lot < 2 ^ 64 - 1 }
    ensures length { IfOk result (λ row. length row ≡ lot + 1) }
    ensures start { IfOk result (λ row. lot ≡ 0 → at row 0 ≡ 0) }
    ensures others { IfOk result (λ row. 1 ≤ lot → (v : ℕ) → v ≤ lot → at row v ≡ most) }
{
    let mut cells = spare.take(alloc);
    let cost = if lot == 0 { 0 } else { u128::MAX };
    for _served in 0..lot + 1 {
        cells.push(cost)?;
    }
    Ok(Row { cells })
}

/// What two levels begin with: lots 0.
pub(crate) fn pair_firsts(
    alloc: Global,
    spare: &mut Spare,
    lots: usize,
) -> Result<Vec<Row>, AllocError>
    ensures { IfOk result (λ rows. AreFirsts lots rows.items) }
{
    let mut rows = Vec::new(alloc);
    for lot in 0..lots {
        rows.push(firsts_row(alloc, spare, lot)?)?;
    }
    Ok(rows)
}

// What it costs to end with lots `lot` and `served`.
fn end_cost(
    low: &LevelLists,
    mid: &LevelLists,
    stretches: &[Row],
    plane: &[Row],
    last: usize,
    lot: usize,
    served: usize,
) -> u128
    requires low { served < length low.now.unit_cost.items }
    requires mid { HaveWidth (length mid.now.asked.items) mid.now }
    requires stretches { served < length stretches.now }
    requires wide { last < length (row_of stretches.now served) }
    requires plane { AreTriangular plane.now }
    requires lot { lot < length plane.now }
    requires order { served ≤ lot }
    requires before { lot < length mid.now.asked.items }
    requires last { last < length mid.now.asked.items }
    ensures { IsCapped (end_cost low.now mid.now stretches.now plane.now last lot served) result }
{
    leave_cost(low, mid, plane, served, lot, last).saturating_add(stretches[served].get(last))
}

// The least cost of ending with lot `lot` of the second level.
fn least_end(
    low: &LevelLists,
    mid: &LevelLists,
    stretches: &[Row],
    plane: &[Row],
    last: usize,
    lot: usize,
) -> u128
    requires low { lot < length low.now.unit_cost.items }
    requires mid { HaveWidth (length mid.now.asked.items) mid.now }
    requires stretches { lot < length stretches.now }
    requires wide { AreWide (length mid.now.asked.items) stretches.now }
    requires plane { AreTriangular plane.now }
    requires lot { lot < length plane.now }
    requires before { lot < length mid.now.asked.items }
    requires last { last < length mid.now.asked.items }
    ensures { IsLeastOf 0 (lot + 1) (end_cost low.now mid.now stretches.now plane.now last lot)
        result }
{
    let mut least = u128::MAX;
    for served in 0..lot + 1 {
        let cost = end_cost(low, mid, stretches, plane, last, lot, served);
        least = lesser(least, cost);
    }
    least
}

/// The least cost of an end: the last entry of two levels.
pub(crate) fn least_of_ends(
    low: &LevelLists,
    mid: &LevelLists,
    stretches: &[Row],
    plane: &[Row],
    last: usize,
) -> u128
    requires low { length plane.now ≤ length low.now.unit_cost.items }
    requires mid { HaveWidth (length mid.now.asked.items) mid.now }
    requires stretches { length plane.now ≤ length stretches.now }
    requires wide { AreWide (length mid.now.asked.items) stretches.now }
    requires plane { AreTriangular plane.now }
    requires lots { length plane.now ≤ length mid.now.asked.items }
    requires last { last < length mid.now.asked.items }
    ensures { IsLeastEnd low.now mid.now stretches.now plane.now (length plane.now) last result }
{
    let mut least = u128::MAX;
    for lot in 0..plane.len() {
        least = lesser(least, least_end(low, mid, stretches, plane, last, lot));
    }
    least
}
