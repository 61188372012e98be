// The program in lots and shortfalls, with all setups. Nothing is claimed of it.
ghost use Rattle.std.specs.Prelude.{◌≤◌};
ghost use Rattle.lot_sizing.specs.Problem.{item_count, resource_count};

use crate::dictionary::{Dictionary, Line, NO_LOT, UNIT};
use integer_grids::numbers::{less, of_amount, plus, times};
use lot_model::Instance;
use std::alloc::{AllocError, Global};

/// Costs are counted in so many parts.
pub(crate) const MONEY: i64 = 256;

// Numbers of a model are at most so large.
const MOST_AMOUNT: i64 = 100_000_000;

// A row: its right side and coefficients, the time of each setup that is taken from the right side, and the column without which
// it says nothing that the rows after it don't.
#[derive(Drop)]
struct Row {
    line: Line,
    setups: Vec<i64>,
    gate: Option<usize>,
}

/// All rows and costs of a program. A column stands for the lot of an item in a period, item after item, and after these for what
/// an item falls short of its demand.
#[derive(Drop)]
pub(crate) struct Frame {
    rows: Vec<Row>,
    costs: Line,
    setup_costs: Vec<i64>,
    // Which columns stand for shortfalls that may be.
    late: Vec<bool>,
    pub(crate) periods: usize,
    pub(crate) cells: usize,
}

// The number of items times periods.
fn cells_of(instance: &Instance) -> usize {
    (instance.items() as usize).saturating_mul(instance.periods() as usize)
}

/// The place of an item and period.
pub(crate) fn place_of(instance: &Instance, item: u32, period: u32) -> usize {
    let before = (item as usize)
        .wrapping_sub(1)
        .saturating_mul(instance.periods() as usize);
    before.wrapping_add(period as usize).wrapping_sub(1)
}

// Adds to the number at a place.
fn add_at(list: &mut [i64], place: usize, number: i64) {
    if let Some(cell) = list.get_mut(place) {
        *cell = plus(*cell, number);
    }
}

// A line of so many numbers, all 0.
fn empty(alloc: Global, count: usize) -> Result<Line, AllocError> {
    let mut terms = Vec::new(alloc);
    terms.resize(count, 0)?;
    Ok(Line {
        name: NO_LOT,
        right: 0,
        terms,
    })
}

// So many units of lots of an item up to a period.
fn add_lots(instance: &Instance, item: u32, period: u32, units: i64, line: &mut Line) {
    for other in 1..instance.periods() + 1 {
        if other <= period {
            add_at(&mut line.terms, place_of(instance, item, other), units);
        }
    }
}

// What lots of other items take of an item up to a period.
fn add_users(instance: &Instance, item: u32, period: u32, line: &mut Line)
    requires low { 1 ≤ item }
    requires high { item ≤ item_count instance.now }
{
    for other in 1..instance.items() + 1 {
        let units = of_amount(instance.per_unit(item, other));
        if units > 0 {
            add_lots(instance, other, period, less(0, times(units, UNIT)), line);
        }
    }
}

// The units of an item that are asked for up to a period.
fn asked(instance: &Instance, item: u32, period: u32) -> i64
    requires low { 1 ≤ item }
    requires high { item ≤ item_count instance.now }
{
    let mut total = 0;
    for other in 1..instance.periods() + 1 {
        if other <= period {
            total = plus(total, of_amount(instance.demand(item, other)));
        }
    }
    total
}

// Whether an item may fall short in a period.
fn may_be_late(instance: &Instance, item: u32, period: u32) -> bool
    requires low { 1 ≤ item }
    requires high { item ≤ item_count instance.now }
{
    period < instance.periods() && instance.has_backlog_cost(item)
}

// The stock of an item at the end of a period: its row.
fn stock_row(alloc: Global, instance: &Instance, item: u32, period: u32) -> Result<Row, AllocError>
    requires low { 1 ≤ item }
    requires high { item ≤ item_count instance.now }
    requires least { 1 ≤ period }
    requires most { period ≤ instance.now.periods }
{
    let cells = cells_of(instance);
    let mut line = empty(alloc, cells.saturating_mul(2))?;
    let place = place_of(instance, item, period);
    let is_last = period == instance.periods();
    let kept = if is_last {
        of_amount(instance.end_min(item))
    } else {
        0
    };
    let rest = less(
        of_amount(instance.opening(item)),
        asked(instance, item, period),
    );
    line.right = times(less(rest, kept), UNIT);
    add_lots(instance, item, period, UNIT, &mut line);
    add_users(instance, item, period, &mut line);
    let late = may_be_late(instance, item, period);
    if late {
        add_at(&mut line.terms, cells.saturating_add(place), UNIT);
    }
    let gate = if late || is_last {
        None
    } else {
        Some(place.wrapping_add(1))
    };
    Ok(Row {
        line,
        setups: Vec::new(alloc),
        gate,
    })
}

// The time that is left of a resource in a period: its row.
fn time_row(
    alloc: Global,
    instance: &Instance,
    resource: u32,
    period: u32,
) -> Result<Row, AllocError>
    requires low { 1 ≤ resource }
    requires high { resource ≤ resource_count instance.now }
    requires least { 1 ≤ period }
    requires most { period ≤ instance.now.periods }
{
    let cells = cells_of(instance);
    let mut line = empty(alloc, cells.saturating_mul(2))?;
    let mut setups = empty(alloc, cells)?.terms;
    line.right = times(of_amount(instance.capacity(resource, period)), UNIT);
    for item in 1..instance.items() + 1 {
        let place = place_of(instance, item, period);
        let unit = times(of_amount(instance.unit_time(item, resource)), UNIT);
        let setup = times(of_amount(instance.setup_time(item, resource)), UNIT);
        add_at(&mut line.terms, place, less(0, unit));
        add_at(&mut setups, place, setup);
    }
    Ok(Row {
        line,
        setups,
        gate: None,
    })
}

// Adds so many times a list to another one, of which each number is in parts of `UNIT`.
fn add_priced(costs: &mut Line, row: &Line, price: i64) {
    costs.right = plus(costs.right, times(row.right / UNIT, price));
    for (cost, term) in costs.terms.iter_mut().zip(&row.terms) {
        *cost = plus(*cost, times(*term / UNIT, price));
    }
}

// Puts the rows of an item in, with what its stock costs.
fn put_item(
    alloc: Global,
    instance: &Instance,
    item: u32,
    frame: &mut Frame,
) -> Result<(), AllocError>
    requires low { 1 ≤ item }
    requires high { item ≤ item_count instance.now }
{
    for period in 1..instance.periods() + 1 {
        let row = stock_row(alloc, instance, item, period)?;
        let hold = times(of_amount(instance.hold_cost(item, period)), MONEY);
        add_priced(&mut frame.costs, &row.line, hold);
        frame.rows.push(row)?;
    }
    Ok(())
}

// Puts in what lots, shortfalls and setups of an item cost.
fn put_costs(instance: &Instance, item: u32, frame: &mut Frame)
    requires low { 1 ≤ item }
    requires high { item ≤ item_count instance.now }
{
    for period in 1..instance.periods() + 1 {
        let place = place_of(instance, item, period);
        let unit = times(of_amount(instance.unit_cost(item, period)), MONEY);
        let setup = times(of_amount(instance.setup_cost(item, period)), MONEY);
        add_at(&mut frame.costs.terms, place, unit);
        add_at(&mut frame.setup_costs, place, setup);
        if let Some(cost) = instance.backlog_cost(item, period) {
            let late = times(of_amount(cost), MONEY);
            add_at(
                &mut frame.costs.terms,
                frame.cells.saturating_add(place),
                late,
            );
        }
        if may_be_late(instance, item, period) {
            if let Some(is) = frame.late.get_mut(place) {
                *is = true;
            }
        }
    }
}

// Puts the rows of a resource in.
fn put_resource(
    alloc: Global,
    instance: &Instance,
    resource: u32,
    frame: &mut Frame,
) -> Result<(), AllocError>
    requires low { 1 ≤ resource }
    requires high { resource ≤ resource_count instance.now }
{
    for period in 1..instance.periods() + 1 {
        let row = time_row(alloc, instance, resource, period)?;
        frame.rows.push(row)?;
    }
    Ok(())
}

// What the setups among these cost or take.
fn sum_open(numbers: &[i64], open: &[bool]) -> i64 {
    let mut total = 0;
    for (number, is) in numbers.iter().zip(open) {
        if *is {
            total = plus(total, *number);
        }
    }
    total
}

// Puts the terms of columns that are open after others.
fn put_open(terms: &[i64], open: &[bool], list: &mut Vec<i64>) -> Result<(), AllocError> {
    for (term, is) in terms.iter().zip(open) {
        if *is {
            list.push(*term)?;
        }
    }
    Ok(())
}

// The names of so many columns, of which the first are the lots of setups.
fn names_of(alloc: Global, open: &[bool], count: usize) -> Result<Vec<usize>, AllocError> {
    let mut names = Vec::new(alloc);
    for (place, is) in open.iter().enumerate() {
        if *is {
            names.push(place)?;
        }
    }
    names.resize(count, NO_LOT)?;
    Ok(names)
}

// Numbers that are at most as large as a model's may be.
fn is_small(list: &[i64]) -> bool {
    list.iter()
        .all(|number| *number >= 0 && *number < MOST_AMOUNT * MONEY)
}

impl Frame {
    /// That of a model.
    pub(crate) fn of(alloc: Global, instance: &Instance) -> Result<Frame, AllocError> {
        let cells = cells_of(instance);
        let mut late = Vec::new(alloc);
        late.resize(cells, false)?;
        let mut frame = Frame {
            rows: Vec::new(alloc),
            costs: empty(alloc, cells.saturating_mul(2))?,
            setup_costs: empty(alloc, cells)?.terms,
            late,
            periods: instance.periods() as usize,
            cells,
        };
        for item in 1..instance.items() + 1 {
            put_item(alloc, instance, item, &mut frame)?;
            put_costs(instance, item, &mut frame);
        }
        for resource in 1..instance.resources() + 1 {
            put_resource(alloc, instance, resource, &mut frame)?;
        }
        Ok(frame)
    }

    /// Whether no lots are a dual point, which they are where each column costs at least 0, and numbers are small.
    pub(crate) fn is_fit(&self) -> bool {
        is_small(&self.costs.terms) && is_small(&self.setup_costs)
    }

    // A row's line with the columns of setups, if it says something.
    fn put_row(
        &self,
        alloc: Global,
        row: &Row,
        open: &[bool],
        rows: &mut Vec<Line>,
    ) -> Result<(), AllocError> {
        if let Some(gate) = row.gate {
            if !matches!(open.get(gate), Some(true)) {
                return Ok(());
            }
        }
        rows.push(self.line(alloc, &row.line, &row.setups, open)?)?;
        Ok(())
    }

    // A line with the columns of setups.
    fn line(
        &self,
        alloc: Global,
        line: &Line,
        setups: &[i64],
        open: &[bool],
    ) -> Result<Line, AllocError> {
        let mut terms = Vec::new(alloc);
        put_open(&line.terms, open, &mut terms)?;
        let rest = line.terms.get(self.cells..).unwrap_or(&[]);
        put_open(rest, &self.late, &mut terms)?;
        Ok(Line {
            name: NO_LOT,
            right: less(line.right, sum_open(setups, open)),
            terms,
        })
    }

    /// The dictionary of setups without lots.
    pub(crate) fn dictionary(
        &self,
        alloc: Global,
        open: &[bool],
    ) -> Result<Dictionary, AllocError> {
        let mut rows = Vec::new(alloc);
        for row in self.rows.iter() {
            self.put_row(alloc, row, open, &mut rows)?;
        }
        let costs = self.line(alloc, &self.costs, &[], open)?;
        let names = names_of(alloc, open, costs.terms.len())?;
        Ok(Dictionary { rows, costs, names })
    }

    /// What these setups cost.
    pub(crate) fn setup_cost(&self, open: &[bool]) -> i64 {
        sum_open(&self.setup_costs, open)
    }

    /// What the cheapest lots for these setups cost with them, if it isn't past this.
    pub(crate) fn cost_of(
        &self,
        alloc: Global,
        open: &[bool],
        most: i64,
    ) -> Result<Option<i64>, AllocError> {
        let setups = self.setup_cost(open);
        let mut dictionary = self.dictionary(alloc, open)?;
        match dictionary.least_cost(alloc, less(most, setups))? {
            Some(cost) => Ok(Some(plus(cost, setups))),
            None => Ok(None),
        }
    }
}
