// Lists of levels by lots, rows of tables, and prices of lots.
ghost use Rattle.std.specs.Prelude.{◌≡◌, ◌*◌, ◌^◌, ◌<◌, length, IfOk};
ghost use Rattle.lot_sizing.specs.Problem.{entry};
ghost use Rattle.chain_dp.specs.Chains.{HasPeriods, level_of, period_count};
ghost use Rattle.chain_dp.specs.Numbers.{IsCapped};
ghost use Rattle.chain_dp.specs.Lists.{AreByLots, AreListsOf, IsAskedBefore, asked_between, at, moved, moved_level, price_at, row_of};

use crate::level::ChainLevel;
use crate::numbers::times;
use crate::spare::Spare;
use std::alloc::{AllocError, Global};
use std::marker::Model;

/// What a level costs, with an entry for lot 0, for each period, and for the end.
#[derive(Drop)]
pub(crate) struct LevelLists {
    /// Of a setup; lot 0 and the end have none.
    pub(crate) setup_cost: Vec<u128>,
    /// Of a unit.
    pub(crate) unit_cost: Vec<u128>,
    /// Units that are asked for before the lot.
    pub(crate) asked: Vec<u128>,
    /// Units in one unit of the next level.
    pub(crate) per_next: u128,
}

/// A row of a table.
#[derive(Drop)]
pub(crate) struct Row {
    pub(crate) cells: Vec<u128>,
}

impl Model for Row {
    ghost use Rattle.std.specs.Prelude.{ℕ, List};

    ghost Value = { List ℕ };

    ghost view = { λ r. r.cells.items };
}

impl Row {
    /// An entry.
    pub(crate) fn get(&self, column: usize) -> u128
        requires { column < length self.now }
        ensures { result ≡ at self.now column }
    {
        self.cells[column]
    }
}

/// Rows of a table.
#[derive(Drop)]
pub(crate) struct Plane {
    pub(crate) rows: Vec<Row>,
}

impl Model for Plane {
    ghost use Rattle.std.specs.Prelude.{ℕ, List};

    ghost Value = { List (List ℕ) };

    ghost view = { λ p. p.rows.items };
}

impl Plane {
    /// An entry of a row.
    pub(crate) fn get(&self, row: usize, column: usize) -> u128
        requires row { row < length self.now }
        requires column { column < length (row_of self.now row) }
        ensures { result ≡ at (row_of self.now row) column }
    {
        self.rows[row].get(column)
    }
}

// The cost of a lot whose periods come so many periods later.
fn moved_cost(costs: &[u128], other: u128, shift: usize, lot: usize) -> u128
    ensures { result ≡ moved other shift (length costs.now) (entry costs.now) lot }
{
    if lot <= shift || lot - shift > costs.len() {
        return other;
    }
    costs[lot - shift - 1]
}

// The units that are asked for at a lot whose periods come so many periods later.
fn moved_need(need: &[u64], shift: usize, lot: usize) -> u128
    ensures value { result ≡ moved 0 shift (length need.now) (entry need.now) lot }
    ensures small { result < 2 ^ 64 }
{
    if lot <= shift || lot - shift > need.len() {
        return 0;
    }
    u128::from(need[lot - shift - 1])
}

// The list of costs with `first` for lot 0, and 0 for the end.
fn by_lots(
    alloc: Global,
    spare: &mut Spare,
    first: u128,
    costs: &[u128],
    other: u128,
    shift: usize,
    horizon: usize,
) -> Result<Vec<u128>, AllocError>
    requires { horizon < 2 ^ 63 }
    ensures { IfOk result (λ list. AreByLots first other shift horizon costs.now list.items) }
{
    let mut list = spare.take(alloc);
    list.push(first)?;
    for lot in 1..horizon + 1 {
        list.push(moved_cost(costs, other, shift, lot))?;
    }
    list.push(0)?;
    Ok(list)
}

// What is asked for before lot 0, the lot of each period, and the end.
fn asked_before(
    alloc: Global,
    spare: &mut Spare,
    need: &[u64],
    shift: usize,
    horizon: usize,
) -> Result<Vec<u128>, AllocError>
    requires { horizon < 2 ^ 63 }
    ensures { IfOk result (λ list. IsAskedBefore shift horizon need.now list.items) }
{
    let mut list = spare.take(alloc);
    list.push(0)?;
    list.push(0)?;
    let mut sum = 0;
    for lot in 1..horizon + 1 {
        sum += moved_need(need, shift, lot);
        list.push(sum)?;
    }
    Ok(list)
}

/// The lists of a level whose lots come `shift` periods later, and its needs `next` periods later, over
/// `horizon` periods.
pub(crate) fn lists_of(
    alloc: Global,
    spare: &mut Spare,
    level: &ChainLevel,
    shift: usize,
    next: usize,
    horizon: usize,
) -> Result<LevelLists, AllocError>
    requires level { HasPeriods (period_count level.now) level.now }
    requires horizon { horizon < 2 ^ 63 }
    ensures { IfOk result (AreListsOf horizon
        (moved_level shift next (period_count level.now) (level_of level.now))) }
{
    let setup_cost = by_lots(alloc, spare, 0, &level.setup_cost, 0, shift, horizon)?;
    let price = level.opening_price;
    let unit_cost = by_lots(alloc, spare, price, &level.unit_cost, price, shift, horizon)?;
    let asked = asked_before(alloc, spare, &level.need, next, horizon)?;
    Ok(LevelLists {
        setup_cost,
        unit_cost,
        asked,
        per_next: u128::from(level.per_next),
    })
}

/// What is asked of a level from one lot to another.
pub(crate) fn asked_between(level: &LevelLists, from: usize, to: usize) -> u128
    requires from { from < length level.now.asked.items }
    requires to { to < length level.now.asked.items }
    ensures { result ≡ asked_between level.now from to }
{
    level.asked[to].saturating_sub(level.asked[from])
}

/// The price of a unit of a lot, where what goes into it costs so much.
pub(crate) fn lot_price(level: &LevelLists, into: u128, below: u128, lot: usize) -> u128
    requires { lot < length level.now.unit_cost.items }
    ensures { IsCapped (price_at level.now into below lot) result }
{
    if lot == 0 {
        level.unit_cost[0]
    } else {
        level.unit_cost[lot].saturating_add(times(into, below))
    }
}

/// What so many units of a lot cost.
pub(crate) fn lot_cost(level: &LevelLists, into: u128, below: u128, lot: usize, units: u128) -> u128
    requires { lot < length level.now.unit_cost.items }
    ensures { IsCapped (price_at level.now into below lot * units) result }
{
    times(lot_price(level, into, below, lot), units)
}
