// A plan of the program where setups are given.
ghost use Rattle.std.specs.Prelude.{◌≤◌, ◌*◌, ◌↔◌, IfOk, IfSome, IsTrue};
ghost use Rattle.lot_sizing.specs.Problem.{item_count};
ghost use Rattle.plan_rules.specs.Cells.{Fits};
ghost use Rattle.plan_rules.specs.Rows.{IfFound};
ghost use Rattle.own_plan.specs.Made.{IsMade};
ghost use Rattle.heur_setup_lps.specs.Within.{IsFew, SetsUpWithin};

use crate::limits::{MAX_GRID_CELLS, MAX_TIMES};
use crate::lots::{plan_of, value_at};
use crate::program::{Base, Solved};
use lin_rows::{Bound, Column};
use lot_model::Instance;
use plan_rules::{Grid, Planned};
use std::alloc::{AllocError, Global};
use work_clock::Deadline;

// A plan, if one was found, and whether there is more to be tried.
#[derive(Drop)]
struct Tried {
    found: Option<Planned>,
    more: bool,
}

/// Whether the model has at most `MAX_GRID_CELLS` items times periods.
pub(crate) fn is_few(instance: &Instance) -> bool
    ensures { IsTrue result ↔ IsFew instance.now }
{
    instance.items() * instance.periods() <= MAX_GRID_CELLS
}

// The bound of the first quantity of a period that isn't whole: at least that, rounded up. None too where that doesn't fit.
fn part_in(instance: &Instance, solved: &Solved, period: u32) -> Option<Bound> {
    for item in 1..instance.items() + 1 {
        let column = Column::X { item, period };
        let value = value_at(instance, solved, column);
        if value.den() != 1 {
            return Some(Bound {
                column,
                most: false,
                number: u64::try_from(value.ceil()).ok()?,
            });
        }
    }
    None
}

// The bound of the first quantity that isn't whole, of all periods: at least that, rounded up.
fn first_part(instance: &Instance, solved: &Solved) -> Option<Bound> {
    for period in 1..instance.periods() + 1 {
        if let Some(bound) = part_in(instance, solved, period) {
            return Some(bound);
        }
    }
    None
}

// Turns the last bound around, if it wasn't turned yet: less than it asked for.
fn turn_last(bounds: &mut Vec<Bound>) -> Result<bool, AllocError> {
    match bounds.pop() {
        Some(bound) if !bound.most && bound.number > 0 => {
            bounds.push(Bound {
                column: bound.column,
                most: true,
                number: bound.number - 1,
            })?;
            Ok(true)
        }
        _ => Ok(false),
    }
}

// Puts a bound after others, if there is one.
fn put_bound(bounds: &mut Vec<Bound>, bound: Option<Bound>) -> Result<bool, AllocError> {
    match bound {
        Some(bound) => {
            bounds.push(bound)?;
            Ok(true)
        }
        None => Ok(false),
    }
}

// A plan of the program within bounds; or else a next bound is put to them, and it is said whether there is one.
fn try_bounds(
    alloc: Global,
    instance: &Instance,
    base: &Base,
    low: &Grid,
    high: &Grid,
    bounds: &mut Vec<Bound>,
) -> Result<Tried, AllocError>
    requires { Fits instance.now high.now }
    ensures plan { IfOk result (λ tried. IfSome tried.found (IsMade instance.now)) }
    ensures within { IfOk result (λ tried.
        IfSome tried.found (SetsUpWithin instance.now high.now)) }
{
    let Some(solved) = base.solve(alloc, instance, low, high, bounds)? else {
        let more = turn_last(bounds)?;
        return Ok(Tried { found: None, more });
    };
    let found = plan_of(alloc, instance, high, &solved)?;
    let more = put_bound(bounds, first_part(instance, &solved))?;
    Ok(Tried { found, more })
}

/// `planned` over rows that are there already, with a limit on how often the program is solved.
pub(crate) fn planned_on(
    alloc: Global,
    instance: &Instance,
    base: &Base,
    low: &Grid,
    high: &Grid,
    times: u32,
) -> Result<Option<Planned>, AllocError>
    requires { Fits instance.now high.now }
    ensures plan { IfFound result (IsMade instance.now) }
    ensures within { IfFound result (SetsUpWithin instance.now high.now) }
{
    let mut bounds = Vec::new(alloc);
    for _time in 0..times {
        let Tried { found, more } = try_bounds(alloc, instance, base, low, high, &mut bounds)?;
        if found.is_some() {
            return Ok(found);
        }
        if !more || base.is_over() {
            return Ok(None);
        }
    }
    Ok(None)
}

/// A plan of the program where setups are given by their least and their greatest numbers: `low` and `high` have a number for
/// each item and period, and where these are the same, the setup is given. A setup that isn't given is a column of the
/// program from 0 to 1, which bounds the lot by the time that there is for it.
///
/// The quantities are those of a least point, rounded up along their sums where they aren't whole; nothing is set up where
/// nothing is made, nor where `high` is 0. Where that isn't feasible, the first quantity that isn't whole is bounded from
/// below by the next whole number, or from above where there is no such point, and so on a few times. None where there is no
/// point, where nothing that comes out is feasible before it is time to end, and past the limits: `MAX_GRID_CELLS` items times periods,
/// `MAX_PROGRAM_CELLS` cells and `MAX_PIVOTS` pivots.
///
/// The error is that memory ran out. It takes memory for the program and its tableau.
pub fn planned(
    alloc: Global,
    instance: &Instance,
    low: &Grid,
    high: &Grid,
    until: Deadline,
) -> Result<Option<Planned>, AllocError>
    requires low { Fits instance.now low.now }
    requires high { Fits instance.now high.now }
    ensures plan { IfFound result (IsMade instance.now) }
    ensures within { IfFound result (SetsUpWithin instance.now high.now) }
    ensures few { IfFound result (λ _. IsFew instance.now) }
{
    if !is_few(instance) {
        return Ok(None);
    }
    let base = Base::of(alloc, instance, until)?;
    planned_on(alloc, instance, &base, low, high, MAX_TIMES)
}
