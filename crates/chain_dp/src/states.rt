// Tables of three levels in numbers of 64 bits.
ghost use Rattle.std.specs.Prelude.{◌≡◌, ◌+◌, ◌<◌, ◌≤◌, ℕ, length, min, IfOk};
ghost use Rattle.chain_dp.specs.Numbers.{IsCapped};
ghost use Rattle.chain_dp.specs.Lists.{AreWide, HaveWidth, at, mid_at, row_of, top_at};
ghost use Rattle.chain_dp.specs.States.{AreGapRows, AreLotRows, AreStates, AreTables, AreUnitRows, AreUnits, IsBegun, IsCompleted, IsEntered, IsGapRow, IsNarrow, IsNarrowEnd, IsNarrowLeast, ending, leaving, most_64};
ghost use Rattle.chain_dp.specs.Tables.{AreStretches};
ghost use Rattle.chain_dp.specs.Costs.{IsCostOfThree};

use crate::lists::{LevelLists, Row, asked_between, lot_cost, lot_price};
use crate::narrow::{NarrowPlane, NarrowRow, full, lesser, narrow, row_at, table_row};
use std::alloc::{AllocError, Global};

// A lot of the second level and the lot of the first one that serves it.
#[derive(Clone, Copy)]
struct State {
    lot: usize,
    served: usize,
}

// Units that are asked for from lot `lot` of the third level on, before each lot.
fn units_row(alloc: Global, top: &LevelLists, lot: usize) -> Result<NarrowRow, AllocError>
    requires { lot < length top.now.asked.items }
    ensures { IfOk result (AreUnits top.now lot (length top.now.asked.items)) }
{
    let mut cells = Vec::new(alloc);
    for to in 0..top.asked.len() {
        cells.push(narrow(asked_between(top, lot, to)))?;
    }
    Ok(NarrowRow { cells })
}

// The same for all lots.
fn unit_rows(alloc: Global, top: &LevelLists) -> Result<Vec<NarrowRow>, AllocError>
    ensures { IfOk result (λ rows. AreUnitRows top.now (length top.now.asked.items) rows.items) }
{
    let mut rows = Vec::new(alloc);
    for lot in 0..top.asked.len() {
        rows.push(units_row(alloc, top, lot)?)?;
    }
    Ok(rows)
}

// What it costs to go on from a lot of the second level, served by lot `served`, to lot `to`, with the setup of that one.
fn leaving(low: &LevelLists, mid: &LevelLists, served: usize, lot: usize, to: usize) -> u64
    requires low { served < length low.now.unit_cost.items }
    requires mid { HaveWidth (length mid.now.asked.items) mid.now }
    requires lot { lot < length mid.now.asked.items }
    requires to { to < length mid.now.asked.items }
    ensures { IsNarrow (leaving low.now mid.now served to lot) result }
{
    let units = asked_between(mid, lot, to);
    let cost = lot_cost(mid, low.per_next, low.unit_cost[served], lot, units);
    narrow(cost.saturating_add(mid.setup_cost[to]))
}

// What it costs to come to a lot of the second level, by the next lot of the third one, where lot `served` serves the lot
// before.
fn gap_row(
    alloc: Global,
    low: &LevelLists,
    mid: &LevelLists,
    table: &[NarrowPlane],
    served: usize,
    lot: usize,
) -> Result<NarrowRow, AllocError>
    requires low { served < length low.now.unit_cost.items }
    requires mid { HaveWidth (length mid.now.asked.items) mid.now }
    requires table { AreStates (length mid.now.asked.items) lot table.now }
    requires order { served ≤ lot }
    requires lot { lot < length mid.now.asked.items }
    ensures { IfOk result (IsGapRow low.now mid.now table.now served lot lot) }
{
    let mut gap = full(alloc, mid.asked.len())?;
    for before in served..lot {
        let more = leaving(low, mid, served, before, lot);
        gap.lower(table_row(table, before, served), more, lot);
    }
    Ok(gap)
}

// The same for all lots of the first level before that lot.
fn gap_rows(
    alloc: Global,
    low: &LevelLists,
    mid: &LevelLists,
    table: &[NarrowPlane],
    lot: usize,
) -> Result<Vec<NarrowRow>, AllocError>
    requires low { lot ≤ length low.now.unit_cost.items }
    requires mid { HaveWidth (length mid.now.asked.items) mid.now }
    requires table { AreStates (length mid.now.asked.items) lot table.now }
    requires lot { lot < length mid.now.asked.items }
    ensures { IfOk result (λ gaps. AreGapRows low.now mid.now table.now lot lot gaps.items) }
{
    let mut gaps = Vec::new(alloc);
    for served in 0..lot {
        gaps.push(gap_row(alloc, low, mid, table, served, lot)?)?;
    }
    Ok(gaps)
}

// How many lots of the first level may serve the lot before lot `lot` of the second one, and go on to lot `served`.
fn lots_before(served: usize, lot: usize) -> usize
    ensures { result ≡ min (served + 1) lot }
{
    if served < lot { served + 1 } else { lot }
}

// What it costs to come to lots `lot` and `served`, by the next lot of the third level.
fn entered(
    alloc: Global,
    gaps: &[NarrowRow],
    stretches: &[Row],
    width: usize,
    served: usize,
    lot: usize,
) -> Result<NarrowRow, AllocError>
    requires gaps { length gaps.now ≡ lot }
    requires rows { (u : ℕ) → u < lot → length (row_of gaps.now u) ≡ width }
    requires stretches { lot ≤ length stretches.now }
    requires wide { AreWide width stretches.now }
    requires served { served < width }
    ensures { IfOk result
        (IsEntered gaps.now stretches.now width served lot (min (served + 1) lot)) }
{
    let mut row = full(alloc, width)?;
    for before in 0..lots_before(served, lot) {
        let more = narrow(stretches[before].get(served));
        row.lower(row_at(gaps, before), more, lot);
    }
    Ok(row)
}

// The same, where nothing is paid yet at lots 0.
fn begun(
    alloc: Global,
    gaps: &[NarrowRow],
    stretches: &[Row],
    width: usize,
    served: usize,
    lot: usize,
) -> Result<NarrowRow, AllocError>
    requires gaps { length gaps.now ≡ lot }
    requires rows { (u : ℕ) → u < lot → length (row_of gaps.now u) ≡ width }
    requires stretches { lot ≤ length stretches.now }
    requires wide { AreWide width stretches.now }
    requires served { served < width }
    ensures { IfOk result (IsBegun gaps.now stretches.now width served lot) }
{
    let mut row = entered(alloc, gaps, stretches, width, served, lot)?;
    if lot == 0 {
        row.cells[0] = 0;
    }
    Ok(row)
}

// The price of a unit of a lot of the third level, where a unit of what goes into it costs `below`.
fn top_price(
    low: &LevelLists,
    mid: &LevelLists,
    top: &LevelLists,
    below: u128,
    state: State,
    opened: usize,
) -> u64
    requires below { IsCapped (mid_at low.now mid.now state.served state.lot) below }
    requires opened { opened < length top.now.unit_cost.items }
    ensures { IsNarrow (top_at low.now mid.now top.now state.served state.lot opened) result }
{
    narrow(lot_price(top, mid.per_next, below, opened))
}

// What is paid where a lot of the third level is opened.
fn paid(top: &LevelLists, cost: u64, lot: usize) -> u64
    requires { lot < length top.now.setup_cost.items }
    ensures { IsNarrow (cost + at top.now.setup_cost.items lot) result }
{
    cost.saturating_add(narrow(top.setup_cost[lot]))
}

// Goes on with lots of the third level, from the first one that may be made of the lots of a state.
fn complete(
    low: &LevelLists,
    mid: &LevelLists,
    top: &LevelLists,
    units: &[NarrowRow],
    state: State,
    row: &mut NarrowRow,
)
    requires low { state.served < length low.now.unit_cost.items }
    requires mid { HaveWidth (length top.now.asked.items) mid.now }
    requires top { HaveWidth (length top.now.asked.items) top.now }
    requires lot { state.lot < length top.now.asked.items }
    requires units { AreUnitRows top.now (length top.now.asked.items) units.now }
    requires size { length row.old ≡ length top.now.asked.items }
    ensures { IsCompleted low.now mid.now top.now state.lot state.served
        (length top.now.asked.items) row.old row.new }
{
    let below = lot_price(mid, low.per_next, low.unit_cost[state.served], state.lot);
    for opened in state.lot..top.asked.len() {
        let price = top_price(low, mid, top, below, state, opened);
        let paid = paid(top, row.get(opened), opened);
        row.serve(row_at(units, opened), paid, price, opened + 1);
    }
}

// The rows of a lot of the second level.
fn lot_rows(
    alloc: Global,
    low: &LevelLists,
    mid: &LevelLists,
    top: &LevelLists,
    stretches: &[Row],
    units: &[NarrowRow],
    table: &[NarrowPlane],
    lot: usize,
) -> Result<NarrowPlane, AllocError>
    requires low { HaveWidth (length top.now.asked.items) low.now }
    requires mid { HaveWidth (length top.now.asked.items) mid.now }
    requires top { HaveWidth (length top.now.asked.items) top.now }
    requires stretches { lot ≤ length stretches.now }
    requires wide { AreWide (length top.now.asked.items) stretches.now }
    requires units { AreUnitRows top.now (length top.now.asked.items) units.now }
    requires table { AreStates (length top.now.asked.items) lot table.now }
    requires lot { lot < length top.now.asked.items }
    ensures { IfOk result (AreLotRows low.now mid.now top.now stretches.now table.now lot (lot + 1)) }
{
    let gaps = gap_rows(alloc, low, mid, table, lot)?;
    let mut rows = Vec::new(alloc);
    for served in 0..lot + 1 {
        let mut row = begun(alloc, &gaps, stretches, top.asked.len(), served, lot)?;
        complete(low, mid, top, units, State { lot, served }, &mut row);
        rows.push(row)?;
    }
    Ok(NarrowPlane { rows })
}

// The rows of all lots.
fn states(
    alloc: Global,
    low: &LevelLists,
    mid: &LevelLists,
    top: &LevelLists,
    stretches: &[Row],
) -> Result<Vec<NarrowPlane>, AllocError>
    requires low { HaveWidth (length top.now.asked.items) low.now }
    requires mid { HaveWidth (length top.now.asked.items) mid.now }
    requires top { HaveWidth (length top.now.asked.items) top.now }
    requires stretches { length stretches.now + 1 ≡ length top.now.asked.items }
    requires wide { AreWide (length top.now.asked.items) stretches.now }
    ensures { IfOk result (λ table.
        AreTables low.now mid.now top.now stretches.now (length stretches.now) table.items) }
{
    let units = unit_rows(alloc, top)?;
    let mut table = Vec::new(alloc);
    for lot in 0..stretches.len() {
        let rows = lot_rows(alloc, low, mid, top, stretches, &units, &table, lot)?;
        table.push(rows)?;
    }
    Ok(table)
}

// What it costs to end with the lots of a state.
fn end_cost(
    low: &LevelLists,
    mid: &LevelLists,
    stretches: &[Row],
    table: &[NarrowPlane],
    state: State,
    last: usize,
) -> u64
    requires low { HaveWidth (length mid.now.asked.items) low.now }
    requires mid { HaveWidth (length mid.now.asked.items) mid.now }
    requires stretches { length stretches.now ≡ last }
    requires wide { AreWide (length mid.now.asked.items) stretches.now }
    requires table { AreStates (length mid.now.asked.items) last table.now }
    requires order { state.served ≤ state.lot }
    requires lot { state.lot < last }
    requires last { last < length mid.now.asked.items }
    ensures { IsNarrow (ending low.now mid.now stretches.now table.now last state.lot state.served)
        result }
{
    let units = asked_between(mid, state.lot, last);
    let price = low.unit_cost[state.served];
    let cost = lot_cost(mid, low.per_next, price, state.lot, units);
    let rest = narrow(cost.saturating_add(stretches[state.served].get(last)));
    table_row(table, state.lot, state.served)
        .get(last)
        .saturating_add(rest)
}

// The least cost of ending with lot `lot` of the second level.
fn least_end(
    low: &LevelLists,
    mid: &LevelLists,
    stretches: &[Row],
    table: &[NarrowPlane],
    lot: usize,
    last: usize,
) -> u64
    requires low { HaveWidth (length mid.now.asked.items) low.now }
    requires mid { HaveWidth (length mid.now.asked.items) mid.now }
    requires stretches { length stretches.now ≡ last }
    requires wide { AreWide (length mid.now.asked.items) stretches.now }
    requires table { AreStates (length mid.now.asked.items) last table.now }
    requires lot { lot < last }
    requires last { last < length mid.now.asked.items }
    ensures { IsNarrowLeast 0 (lot + 1)
        (ending low.now mid.now stretches.now table.now last lot) result }
{
    let mut least = u64::MAX;
    for served in 0..lot + 1 {
        let cost = end_cost(low, mid, stretches, table, State { lot, served }, last);
        least = lesser(least, cost);
    }
    least
}

// The least cost of an end.
fn least_of_ends(
    low: &LevelLists,
    mid: &LevelLists,
    stretches: &[Row],
    table: &[NarrowPlane],
    last: usize,
) -> u64
    requires low { HaveWidth (length mid.now.asked.items) low.now }
    requires mid { HaveWidth (length mid.now.asked.items) mid.now }
    requires stretches { length stretches.now ≡ last }
    requires wide { AreWide (length mid.now.asked.items) stretches.now }
    requires table { AreStates (length mid.now.asked.items) last table.now }
    requires last { last < length mid.now.asked.items }
    ensures { IsNarrowEnd low.now mid.now stretches.now table.now last last result }
{
    let mut least = u64::MAX;
    for lot in 0..last {
        least = lesser(least, least_end(low, mid, stretches, table, lot, last));
    }
    least
}

/// The least cost of three levels, the lowest first, by the stretches of that one; or the greatest number where
/// it isn't below that.
pub(crate) fn narrow_cost(
    alloc: Global,
    low: &LevelLists,
    mid: &LevelLists,
    top: &LevelLists,
    stretches: &[Row],
) -> Result<u64, AllocError>
    requires low { HaveWidth (length top.now.asked.items) low.now }
    requires mid { HaveWidth (length top.now.asked.items) mid.now }
    requires top { HaveWidth (length top.now.asked.items) top.now }
    requires stretches { length stretches.now + 1 ≡ length top.now.asked.items }
    requires wide { AreWide (length top.now.asked.items) stretches.now }
    requires rows { AreStretches low.now stretches.now }
    ensures { IfOk result (λ cost. cost < most_64 → IsCostOfThree low.now mid.now top.now cost) }
{
    let table = states(alloc, low, mid, top, stretches)?;
    Ok(least_of_ends(low, mid, stretches, &table, stretches.len()))
}
