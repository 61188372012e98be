// Tables of three levels.
ghost use Rattle.std.specs.Prelude.{◌≡◌, ◌+◌, ◌-◌, ◌*◌, ◌<◌, ◌≤◌, ℕ, length, min, IfOk};
ghost use Rattle.chain_dp.specs.Numbers.{IsCapped, IsLeastOf};
ghost use Rattle.chain_dp.specs.Lists.{AreWide, HasLots, HaveWidth, at, mid_at, plane_of, row_of, top_at};
ghost use Rattle.chain_dp.specs.Tables.{AreChainPlanes, ArePlanes, AreTopFirsts, IsChainPlane, lots_up_to, top_step};

use crate::lists::{LevelLists, Plane, Row, asked_between, lot_cost, lot_price};
use crate::numbers::lesser;
use crate::pairs::pair_plane;
use crate::spare::Spare;
use std::alloc::{AllocError, Global};

// What so many units of lot `opened` of the third level cost, where a unit of what goes into it costs `below`.
fn top_cost(
    low: &LevelLists,
    mid: &LevelLists,
    top: &LevelLists,
    below: u128,
    lot: usize,
    served: usize,
    opened: usize,
    units: u128,
) -> u128
    requires below { IsCapped (mid_at low.now mid.now served lot) below }
    requires opened { opened < length top.now.unit_cost.items }
    ensures { IsCapped (top_at low.now mid.now top.now served lot opened * units) result }
{
    lot_cost(top, mid.per_next, below, opened, units)
}

// What it costs to open lot `opened` of the third level, which serves up to lot `to`, where a unit of what goes
// into it costs `below`.
fn top_step(
    low: &LevelLists,
    mid: &LevelLists,
    top: &LevelLists,
    planes: &[Plane],
    below: u128,
    to: usize,
    lot: usize,
    served: usize,
    opened: usize,
) -> u128
    requires top { HaveWidth (length top.now.asked.items) top.now }
    requires planes { ArePlanes (length top.now.asked.items) planes.now }
    requires below { IsCapped (mid_at low.now mid.now served lot) below }
    requires served { served ≤ lot }
    requires lot { lot ≤ opened }
    requires count { lot + 1 < length top.now.asked.items }
    requires opened { opened < length planes.now }
    requires high { opened < length top.now.asked.items }
    requires to { to < length top.now.asked.items }
    ensures { IsCapped (top_step low.now mid.now top.now planes.now to lot served opened) result }
{
    let units = asked_between(top, opened, to);
    let cost = top_cost(low, mid, top, below, lot, served, opened, units);
    planes[opened]
        .get(lot, served)
        .saturating_add(top.setup_cost[opened])
        .saturating_add(cost)
}

// The least cost of going on to lot `to` of the third level.
fn least_top(
    low: &LevelLists,
    mid: &LevelLists,
    top: &LevelLists,
    planes: &[Plane],
    to: usize,
    lot: usize,
    served: usize,
) -> u128
    requires low { served < length low.now.unit_cost.items }
    requires mid { lot < length mid.now.unit_cost.items }
    requires top { HaveWidth (length top.now.asked.items) top.now }
    requires planes { ArePlanes (length top.now.asked.items) planes.now }
    requires served { served ≤ lot }
    requires lot { lot ≤ to }
    requires count { lot + 1 < length top.now.asked.items }
    requires to { to ≤ length planes.now }
    requires high { to < length top.now.asked.items }
    ensures { IsLeastOf lot to (top_step low.now mid.now top.now planes.now to lot served) result }
{
    let below = lot_price(mid, low.per_next, low.unit_cost[served], lot);
    let mut least = u128::MAX;
    for opened in lot..to {
        let cost = top_step(low, mid, top, planes, below, to, lot, served, opened);
        least = lesser(least, cost);
    }
    least
}

// The entries of lot `lot` of the second level that begin with another lot of the third level.
fn top_row(
    alloc: Global,
    spare: &mut Spare,
    low: &LevelLists,
    mid: &LevelLists,
    top: &LevelLists,
    planes: &[Plane],
    to: usize,
    lot: usize,
) -> Result<Row, AllocError>
    requires low { lot < length low.now.unit_cost.items }
    requires mid { lot < length mid.now.unit_cost.items }
    requires top { HaveWidth (length top.now.asked.items) top.now }
    requires planes { ArePlanes (length top.now.asked.items) planes.now }
    requires lot { lot ≤ to }
    requires count { lot + 1 < length top.now.asked.items }
    requires to { to ≤ length planes.now }
    requires high { to < length top.now.asked.items }
    ensures length { IfOk result (λ row. length row ≡ lot + 1) }
    ensures row { IfOk result (λ row. (v : ℕ) → v ≤ lot
        → IsLeastOf lot to (top_step low.now mid.now top.now planes.now to lot v) (at row v)) }
{
    let mut cells = spare.take(alloc);
    for served in 0..lot + 1 {
        let entry = least_top(low, mid, top, planes, to, lot, served);
        cells.push(entry)?;
    }
    Ok(Row { cells })
}

// What each entry of the plane of lot `to` may begin with.
fn top_firsts(
    alloc: Global,
    spare: &mut Spare,
    low: &LevelLists,
    mid: &LevelLists,
    top: &LevelLists,
    planes: &[Plane],
    to: usize,
    lots: usize,
) -> Result<Vec<Row>, AllocError>
    requires low { lots ≤ length low.now.unit_cost.items }
    requires mid { lots ≤ length mid.now.unit_cost.items }
    requires top { HaveWidth (length top.now.asked.items) top.now }
    requires planes { ArePlanes (length top.now.asked.items) planes.now }
    requires lots { lots ≤ to + 1 }
    requires count { lots < length top.now.asked.items }
    requires to { to ≤ length planes.now }
    requires high { to < length top.now.asked.items }
    ensures { IfOk result (λ rows.
        AreTopFirsts low.now mid.now top.now planes.now to lots rows.items) }
{
    let mut rows = Vec::new(alloc);
    for lot in 0..lots {
        rows.push(top_row(alloc, spare, low, mid, top, planes, to, lot)?)?;
    }
    Ok(rows)
}

// How many lots of the second level are not after lot `to`, the end left out.
fn lots_up_to(width: usize, to: usize) -> usize
    requires some { 1 ≤ width }
    requires to { to < width }
    ensures { result ≡ lots_up_to width to }
{
    if to + 1 < width { to + 1 } else { width - 1 }
}

// The plane of lot 0 of the third level: nothing is paid at lots 0.
fn first_plane(alloc: Global, spare: &mut Spare) -> Result<Plane, AllocError>
    ensures lots { IfOk result (HasLots 1) }
    ensures start { IfOk result (λ plane. at (row_of plane 0) 0 ≡ 0) }
{
    let mut cells = spare.take(alloc);
    cells.push(0)?;
    let mut rows = Vec::new(alloc);
    rows.push(Row { cells })?;
    Ok(Plane { rows })
}

// The plane of lot `to` of the third level, which isn't lot 0.
fn later_plane(
    alloc: Global,
    spare: &mut Spare,
    low: &LevelLists,
    mid: &LevelLists,
    top: &LevelLists,
    stretches: &[Row],
    planes: &[Plane],
    to: usize,
) -> Result<Plane, AllocError>
    requires low { HaveWidth (length top.now.asked.items) low.now }
    requires mid { HaveWidth (length top.now.asked.items) mid.now }
    requires top { HaveWidth (length top.now.asked.items) top.now }
    requires stretches { length stretches.now + 1 ≡ length top.now.asked.items }
    requires wide { AreWide (length top.now.asked.items) stretches.now }
    requires planes { ArePlanes (length top.now.asked.items) planes.now }
    requires to { to ≤ length planes.now }
    requires high { to < length top.now.asked.items }
    requires some { 1 ≤ to }
    ensures { IfOk result (IsChainPlane low.now mid.now top.now stretches.now planes.now
        (length top.now.asked.items) to) }
{
    let lots = lots_up_to(top.asked.len(), to);
    let firsts = top_firsts(alloc, spare, low, mid, top, planes, to, lots)?;
    let rows = pair_plane(alloc, spare, low, mid, stretches, &firsts)?;
    spare.keep_rows(firsts)?;
    Ok(Plane { rows })
}

// The plane of lot `to` of the third level.
fn plane(
    alloc: Global,
    spare: &mut Spare,
    low: &LevelLists,
    mid: &LevelLists,
    top: &LevelLists,
    stretches: &[Row],
    planes: &[Plane],
    to: usize,
) -> Result<Plane, AllocError>
    requires low { HaveWidth (length top.now.asked.items) low.now }
    requires mid { HaveWidth (length top.now.asked.items) mid.now }
    requires top { HaveWidth (length top.now.asked.items) top.now }
    requires stretches { length stretches.now + 1 ≡ length top.now.asked.items }
    requires wide { AreWide (length top.now.asked.items) stretches.now }
    requires planes { ArePlanes (length top.now.asked.items) planes.now }
    requires to { to ≤ length planes.now }
    requires high { to < length top.now.asked.items }
    requires some { 2 ≤ length top.now.asked.items }
    ensures { IfOk result (IsChainPlane low.now mid.now top.now stretches.now planes.now
        (length top.now.asked.items) to) }
{
    if to == 0 {
        first_plane(alloc, spare)
    } else {
        later_plane(alloc, spare, low, mid, top, stretches, planes, to)
    }
}

/// The planes of all lots of the third level, and of the end.
pub(crate) fn all_planes(
    alloc: Global,
    spare: &mut Spare,
    low: &LevelLists,
    mid: &LevelLists,
    top: &LevelLists,
    stretches: &[Row],
) -> Result<Vec<Plane>, AllocError>
    requires low { HaveWidth (length top.now.asked.items) low.now }
    requires mid { HaveWidth (length top.now.asked.items) mid.now }
    requires top { HaveWidth (length top.now.asked.items) top.now }
    requires stretches { length stretches.now + 1 ≡ length top.now.asked.items }
    requires wide { AreWide (length top.now.asked.items) stretches.now }
    requires some { 2 ≤ length top.now.asked.items }
    ensures length { IfOk result (λ planes. length planes.items ≡ length top.now.asked.items) }
    ensures planes { IfOk result (λ planes.
        AreChainPlanes low.now mid.now top.now stretches.now (length top.now.asked.items)
        planes.items) }
{
    let mut planes = Vec::new(alloc);
    for to in 0..top.asked.len() {
        let plane = plane(alloc, spare, low, mid, top, stretches, &planes, to)?;
        planes.push(plane)?;
    }
    Ok(planes)
}
