// Rows of numbers of 64 bits, in which what doesn't fit is the greatest one.
ghost use Rattle.std.specs.Prelude.{◌≡◌, ◌<◌, length, min, IfOk};
ghost use Rattle.chain_dp.specs.Lists.{at, plane_of, row_of};
ghost use Rattle.chain_dp.specs.States.{AreFull, AreLowered, AreServed, IsNarrow};

use std::alloc::{AllocError, Global};
use std::marker::Model;

/// A row of a table.
#[derive(Drop)]
pub(crate) struct NarrowRow {
    pub(crate) cells: Vec<u64>,
}

impl Model for NarrowRow {
    ghost use Rattle.std.specs.Prelude.{ℕ, List};

    ghost Value = { List ℕ };

    ghost view = { λ r. r.cells.items };
}

/// Rows of a table.
#[derive(Drop)]
pub(crate) struct NarrowPlane {
    pub(crate) rows: Vec<NarrowRow>,
}

impl Model for NarrowPlane {
    ghost use Rattle.std.specs.Prelude.{ℕ, List};

    ghost Value = { List (List ℕ) };

    ghost view = { λ p. p.rows.items };
}

/// A number, or the greatest one of 64 bits where it isn't below that.
pub(crate) fn narrow(number: u128) -> u64
    ensures { IsNarrow number result }
{
    if number < u64::MAX as u128 {
        number as u64
    } else {
        u64::MAX
    }
}

/// A row of so many of the greatest number.
pub(crate) fn full(alloc: Global, width: usize) -> Result<NarrowRow, AllocError>
    ensures { IfOk result (AreFull width) }
{
    let cells = vec![in alloc; u64::MAX; width]?;
    Ok(NarrowRow { cells })
}

/// A row of rows.
pub(crate) fn row_at(rows: &[NarrowRow], place: usize) -> &NarrowRow
    requires { place < length rows.now }
    ensures { result.now ≡ row_of rows.now place }
{
    &rows[place]
}

/// A row of a table.
pub(crate) fn table_row(table: &[NarrowPlane], lot: usize, served: usize) -> &NarrowRow
    requires lot { lot < length table.now }
    requires served { served < length (plane_of table.now lot) }
    ensures { result.now ≡ row_of (plane_of table.now lot) served }
{
    let plane = &table[lot];
    &plane.rows[served]
}

/// The lesser of two numbers.
pub(crate) fn lesser(one: u64, other: u64) -> u64
    ensures { result ≡ min one other }
{
    if other < one { other } else { one }
}

// From a place on, lowers costs to others with so much more.
fn lower(costs: &mut [u64], others: &[u64], more: u64, first: usize)
    requires { length others.now ≡ length costs.old }
    ensures { AreLowered first (length costs.old) more others.now costs.old costs.new }
{
    // The check of a place is done once for all.
    let added = &others[..costs.len()];
    for place in first..costs.len() {
        let cost = added[place].saturating_add(more);
        if cost < costs[place] {
            costs[place] = cost;
        }
    }
}

// From a place on, lowers costs to what it costs to serve so many units at a price, where so much is paid before.
fn serve(costs: &mut [u64], units: &[u64], paid: u64, price: u64, first: usize)
    requires { length units.now ≡ length costs.old }
    ensures { AreServed first (length costs.old) paid price units.now costs.old costs.new }
{
    // The check of a place is done once for all.
    let asked = &units[..costs.len()];
    for place in first..costs.len() {
        let cost = paid.saturating_add(price.saturating_mul(asked[place]));
        if cost < costs[place] {
            costs[place] = cost;
        }
    }
}

impl NarrowRow {
    /// An entry.
    pub(crate) fn get(&self, place: usize) -> u64
        requires { place < length self.now }
        ensures { result ≡ at self.now place }
    {
        self.cells[place]
    }

    /// From a place on, lowers costs to others with so much more.
    pub(crate) fn lower(&mut self, others: &NarrowRow, more: u64, first: usize)
        requires { length others.now ≡ length self.old }
        ensures { AreLowered first (length self.old) more others.now self.old self.new }
    {
        lower(&mut self.cells, &others.cells, more, first);
    }

    /// From a place on, lowers costs to what it costs to serve so many units at a price, where so much is paid before.
    pub(crate) fn serve(&mut self, units: &NarrowRow, paid: u64, price: u64, first: usize)
        requires { length units.now ≡ length self.old }
        ensures { AreServed first (length self.old) paid price units.now self.old self.new }
    {
        serve(&mut self.cells, &units.cells, paid, price, first);
    }
}
