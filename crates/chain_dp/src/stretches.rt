// Tables of one level.
ghost use Rattle.std.specs.Prelude.{◌≡◌, ◌+◌, ◌<◌, ◌≤◌, ℕ, length, IfOk};
ghost use Rattle.chain_dp.specs.Numbers.{IsCapped, IsLeastOf};
ghost use Rattle.chain_dp.specs.Lists.{AreWide, HaveWidth, at};
ghost use Rattle.chain_dp.specs.Tables.{AreStretches, IsStretchRow, step_cost};

use crate::lists::{LevelLists, Row, asked_between};
use crate::numbers::{lesser, times};
use crate::spare::Spare;
use std::alloc::{AllocError, Global};

// What it costs to go on from a lot to lot `to`.
fn step_cost(row: &[u128], level: &LevelLists, lot: usize, to: usize) -> u128
    requires row { lot < length row.now }
    requires unit { lot < length level.now.unit_cost.items }
    requires lot { lot < length level.now.asked.items }
    requires to { to < length level.now.asked.items }
    ensures { IsCapped (step_cost row.now level.now to lot) result }
{
    let units = asked_between(level, lot, to);
    row[lot].saturating_add(times(level.unit_cost[lot], units))
}

// The least cost of going on to lot `to`, from lot `first` or a later one.
fn least_step(row: &[u128], level: &LevelLists, first: usize, to: usize) -> u128
    requires row { to ≤ length row.now }
    requires level { HaveWidth (length level.now.asked.items) level.now }
    requires to { to < length level.now.asked.items }
    requires order { first ≤ to }
    ensures { IsLeastOf first to (step_cost row.now level.now to) result }
{
    let mut least = u128::MAX;
    for lot in first..to {
        least = lesser(least, step_cost(row, level, lot, to));
    }
    least
}

// The entry of lot `to` in a row that begins with lot `first`.
fn stretch_entry(row: &[u128], level: &LevelLists, first: usize, to: usize) -> u128
    requires row { length row.now ≡ to }
    requires level { HaveWidth (length level.now.asked.items) level.now }
    requires to { to < length level.now.asked.items }
    ensures none { to ≤ first → result ≡ 0 }
    ensures next { first < to → IsLeastOf first to
        (λ w. step_cost row.now level.now to w + at level.now.setup_cost.items to) result }
{
    if to <= first {
        return 0;
    }
    least_step(row, level, first, to).saturating_add(level.setup_cost[to])
}

/// The row of stretches that begins with lot `first`.
pub(crate) fn stretch_row(
    alloc: Global,
    spare: &mut Spare,
    level: &LevelLists,
    first: usize,
) -> Result<Row, AllocError>
    requires level { HaveWidth (length level.now.asked.items) level.now }
    ensures length { IfOk result (λ row. length row ≡ length level.now.asked.items) }
    ensures row { IfOk result (IsStretchRow level.now first) }
{
    let mut cells = spare.take(alloc);
    for lot in 0..level.asked.len() {
        let entry = stretch_entry(&cells, level, first, lot);
        cells.push(entry)?;
    }
    Ok(Row { cells })
}

/// The rows of stretches that begin with the first lots.
pub(crate) fn stretch_rows(
    alloc: Global,
    spare: &mut Spare,
    level: &LevelLists,
    lots: usize,
) -> Result<Vec<Row>, AllocError>
    requires level { HaveWidth (length level.now.asked.items) level.now }
    ensures length { IfOk result (λ rows. length rows.items ≡ lots) }
    ensures wide { IfOk result (λ rows. AreWide (length level.now.asked.items) rows.items) }
    ensures rows { IfOk result (λ rows. AreStretches level.now rows.items) }
{
    let mut rows = Vec::new(alloc);
    for first in 0..lots {
        rows.push(stretch_row(alloc, spare, level, first)?)?;
    }
    Ok(rows)
}
