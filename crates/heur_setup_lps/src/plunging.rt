// A plunge over setups for a plan.
ghost use Rattle.std.specs.Prelude.{◌≡◌, ◌≤◌, IfOk, OnOk};
ghost use Rattle.lot_sizing.specs.Problem.{Problem, item_count};
ghost use Rattle.plan_rules.specs.Cells.{Fits};
ghost use Rattle.plan_rules.specs.Rows.{IfFound};
ghost use Rattle.own_plan.specs.Made.{IsMade};
ghost use Rattle.heur_setup_lps.specs.Within.{IsFew};
ghost use Rattle.heur_setup_lps.specs.Plunging.{HasShape, IsAfter};

use crate::limits::MAX_STEP_TIMES;
use crate::lots::{plan_of, value_at};
use crate::planning::{is_few, planned_on};
use crate::program::{Base, Solved};
use crate::walking::copy;
use frac128::Frac;
use lin_rows::Column;
use lot_model::Instance;
use plan_rules::{Grid, Planned};
use std::alloc::{AllocError, Global};
use std::cmp::Ordering;
use work_clock::Deadline;

// A setup that is given on the way down.
#[derive(Clone, Copy, Debug)]
struct Choice {
    item: u32,
    period: u32,
    made: bool,
    /// Whether the other side was tried.
    last: bool,
}

// The least and the greatest numbers of setups at a node, and the way to it.
#[derive(Debug, Drop)]
pub(crate) struct Dive {
    low: Grid,
    high: Grid,
    way: Vec<Choice>,
}

// What a node leads to: a plan, a next node, or the end.
#[derive(Debug, Drop)]
pub(crate) enum After {
    Found(Planned),
    Open,
    Ended,
}

// Writes a number, where the grid has the item and the period.
fn write(grid: &mut Grid, item: u32, period: u32, number: u64)
    ensures items { grid.new.items ≡ grid.old.items }
    ensures periods { grid.new.periods ≡ grid.old.periods }
{
    if item == 0 || item > grid.items() || period == 0 || period > grid.periods() {
        return;
    }
    grid.set(item, period, number);
}

// Gives a setup.
fn give(dive: &mut Dive, choice: Choice)
    ensures { (m : Problem) → HasShape m dive.old → HasShape m dive.new }
{
    let number = if choice.made { 1 } else { 0 };
    write(&mut dive.low, choice.item, choice.period, number);
    write(&mut dive.high, choice.item, choice.period, number);
}

// Takes a setup back.
fn take_back(dive: &mut Dive, choice: Choice)
    ensures { (m : Problem) → HasShape m dive.old → HasShape m dive.new }
{
    write(&mut dive.low, choice.item, choice.period, 0);
    write(&mut dive.high, choice.item, choice.period, 1);
}

// Takes the last setup back, and gives its other side where that wasn't tried. It says whether it was given.
fn turn(dive: &mut Dive, choice: Choice) -> Result<bool, AllocError>
    ensures { (m : Problem) → HasShape m dive.old → HasShape m dive.new }
{
    take_back(dive, choice);
    if choice.last {
        return Ok(false);
    }
    let other = Choice {
        made: !choice.made,
        last: true,
        ..choice
    };
    give(dive, other);
    dive.way.push(other)?;
    Ok(true)
}

// Goes back to the last setup whose other side wasn't tried, and gives that.
fn go_back(dive: &mut Dive) -> Result<After, AllocError>
    ensures shape { (m : Problem) → HasShape m dive.old → HasShape m dive.new }
    ensures after { (m : Problem) → IfOk result (IsAfter m) }
{
    for _step in 0..dive.way.len() {
        if let Some(choice) = dive.way.pop() {
            if turn(dive, choice)? {
                return Ok(After::Open);
            }
        }
    }
    Ok(After::Ended)
}

// How far the value of a setup is from the nearer whole number, and whether that is 1.
#[derive(Drop)]
struct Near {
    item: u32,
    period: u32,
    away: Frac,
    made: bool,
}

// How far the LP value of a setup is from a whole number; None if it is 0 or 1.
fn near_of(item: u32, period: u32, value: Frac) -> Option<Near> {
    let up = Frac::from(1i64).sub(value)?;
    if value.num() <= 0 || up.num() <= 0 {
        return None;
    }
    let made = matches!(up.compare(value), Ordering::Less);
    let away = if made { up } else { value };
    Some(Near {
        item,
        period,
        away,
        made,
    })
}

// Whether a setup is nearer to a whole number than the nearest one so far.
fn is_nearer(other: &Near, so_far: &Option<Near>) -> bool {
    match so_far {
        Some(near) => matches!(other.away.compare(near.away), Ordering::Less),
        None => true,
    }
}

// The least fractional setup seen, after those of one more item.
fn nearest_of(
    instance: &Instance,
    solved: &Solved,
    item: u32,
    so_far: Option<Near>,
) -> Option<Near> {
    let mut nearest = so_far;
    for period in 1..instance.periods() + 1 {
        let value = value_at(instance, solved, Column::Y { item, period });
        if let Some(near) = near_of(item, period, value) {
            if is_nearer(&near, &nearest) {
                nearest = Some(near);
            }
        }
    }
    nearest
}

// The setup that is to be given next, if one isn't whole.
fn next_choice(instance: &Instance, solved: &Solved) -> Option<Choice> {
    let mut nearest = None;
    for item in 1..instance.items() + 1 {
        nearest = nearest_of(instance, solved, item, nearest);
    }
    match nearest {
        Some(near) => Some(Choice {
            item: near.item,
            period: near.period,
            made: near.made,
            last: false,
        }),
        None => None,
    }
}

// Puts the setups of an item in, where the point has some of them.
fn put_some(instance: &Instance, solved: &Solved, item: u32, setup: &mut Grid)
    requires setup { Fits instance.now setup.old }
    requires low { 1 ≤ item }
    requires high { item ≤ item_count instance.now }
    ensures { Fits instance.now setup.new }
{
    for period in 1..instance.periods() + 1 {
        let value = value_at(instance, solved, Column::Y { item, period });
        if value.num() > 0 {
            setup.set(item, period, 1);
        }
    }
}

// The setups of which the point has some.
fn some_setups(alloc: Global, instance: &Instance, solved: &Solved) -> Result<Grid, AllocError>
    ensures { IfOk result (Fits instance.now) }
{
    let mut setup = Grid::filled(alloc, instance.items(), instance.periods(), 0)?;
    for item in 1..instance.items() + 1 {
        put_some(instance, solved, item, &mut setup);
    }
    Ok(setup)
}

// The plan of a point, or that of the program with the setups of which the point has some.
fn plan_near(
    alloc: Global,
    instance: &Instance,
    base: &Base,
    dive: &Dive,
    solved: &Solved,
) -> Result<Option<Planned>, AllocError>
    requires { HasShape instance.now dive.now }
    ensures { IfFound result (IsMade instance.now) }
{
    if let Some(planned) = plan_of(alloc, instance, &dive.high, solved)? {
        return Ok(Some(planned));
    }
    let setup = some_setups(alloc, instance, solved)?;
    planned_on(alloc, instance, base, &setup, &setup, MAX_STEP_TIMES)
}

// Goes on below a node, or back where all of its setups are whole.
fn go_on(instance: &Instance, dive: &mut Dive, solved: &Solved) -> Result<After, AllocError>
    requires { HasShape instance.now dive.old }
    ensures shape { HasShape instance.now dive.new }
    ensures after { IfOk result (IsAfter instance.now) }
{
    match next_choice(instance, solved) {
        Some(choice) => {
            give(dive, choice);
            dive.way.push(choice)?;
            Ok(After::Open)
        }
        None => go_back(dive),
    }
}

// What a node leads to.
fn visit(
    alloc: Global,
    instance: &Instance,
    base: &Base,
    dive: &mut Dive,
) -> Result<After, AllocError>
    requires { HasShape instance.now dive.old }
    ensures shape { HasShape instance.now dive.new }
    ensures after { IfOk result (IsAfter instance.now) }
{
    let Some(solved) = base.solve(alloc, instance, &dive.low, &dive.high, &[])? else {
        return go_back(dive);
    };
    match plan_near(alloc, instance, base, dive, &solved)? {
        Some(planned) => Ok(After::Found(planned)),
        None => go_on(instance, dive, &solved),
    }
}

/// A plan that is found by a plunge over setups of at most so many nodes, from the least and the greatest numbers that they
/// may have: depth first, at each node by the program where the setups of the nodes above are given. The setup that is
/// nearest to a whole number in its least point is given next, that number first. Where the quantities of the point, rounded
/// up along their sums, come to no plan, the program is solved once more with all setups of which the point has some.
///
/// None where no plan is found within so many nodes or before it is time to end, and where the model has more than `MAX_GRID_CELLS` items times periods.
///
/// The error is that memory ran out. Each node takes the time of one or two programs.
pub fn plunged(
    alloc: Global,
    instance: &Instance,
    low: &Grid,
    high: &Grid,
    nodes: u32,
    until: Deadline,
) -> Result<Option<Planned>, AllocError>
    requires low { Fits instance.now low.now }
    requires high { Fits instance.now high.now }
    ensures plan { IfFound result (IsMade instance.now) }
    ensures few { IfFound result (λ _. IsFew instance.now) }
{
    if !is_few(instance) {
        return Ok(None);
    }
    let base = Base::of(alloc, instance, until)?;
    let mut dive = Dive {
        low: copy(alloc, instance, low)?,
        high: copy(alloc, instance, high)?,
        way: Vec::new(alloc),
    };
    for _node in 0..nodes {
        match visit(alloc, instance, &base, &mut dive)? {
            After::Found(planned) => return Ok(Some(planned)),
            After::Open if !base.is_over() => {}
            After::Open | After::Ended => return Ok(None),
        }
    }
    Ok(None)
}
