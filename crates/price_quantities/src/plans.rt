// A cheapest plan of an item in whole quantities.
use crate::bands::{Band, band_at, write_bands};
use crate::numbers::{NONE, part};
use crate::rows::Windows;
use crate::terms::{Task, Terms};
use crate::tracing::{Last, Made, Rows, least_of};
use std::alloc::{AllocError, Global};

// A setup that costs so much or more is planned only where there is no plan without: the largest price of cuts, which is that of
// setups that a path closes.
const DEAR: i64 = 100_000_000_000;

/// Tables of least costs, and the plan that was found last.
#[derive(Debug, Drop)]
pub struct QuantityPlans {
    // A row of least costs for each period, that before the first one at the start, each within its band alone.
    rows: Vec<i64>,
    bands: Vec<Band>,
    windows: Windows,
    made: Made,
}

impl QuantityPlans {
    /// There is no plan yet. It takes no memory.
    pub fn new(alloc: Global) -> QuantityPlans {
        QuantityPlans {
            rows: Vec::new(alloc),
            bands: Vec::new(alloc),
            windows: Windows::new(alloc),
            made: Made::new(alloc),
        }
    }

    // There is room for a row before each period and one after the last; before the first nothing costs nothing.
    fn begin(&mut self, task: Task<'_>) -> Result<(), AllocError> {
        write_bands(&mut self.bands, task)?;
        let rows = task.periods().saturating_add(1);
        self.rows.resize(rows.saturating_mul(task.width), NONE)?;
        if let Some(cell) = self.rows.get_mut(0) {
            *cell = 0;
        }
        self.windows.begin(task.width)
    }

    // The row after a period, counted from 0.
    fn fill(&mut self, task: Task<'_>, period: usize) {
        let next = period.saturating_add(1);
        let start = next.saturating_mul(task.width);
        let middle = start.min(self.rows.len());
        let (done, rest) = self.rows.split_at_mut(middle);
        let first = middle.saturating_sub(task.width);
        let count = task.width.min(rest.len());
        let (from, to) = (band_at(&self.bands, period), band_at(&self.bands, next));
        self.windows.write_next(
            &mut rest[..count],
            &mut done[first..],
            from,
            to,
            task.term(period),
        );
    }

    // The least cost of a task, and what it has started in all.
    fn least(&mut self, task: Task<'_>) -> Result<Last, AllocError> {
        self.begin(task)?;
        for period in 0..task.periods() {
            self.fill(task, period);
        }
        let start = task.periods().saturating_mul(task.width);
        let band = band_at(&self.bands, task.periods());
        let row = part(&self.rows, start.saturating_add(band.low), band.count());
        Ok(least_of(row, band.low))
    }

    // The least cost of a task. A plan at that cost is kept.
    fn plan_task(&mut self, task: Task<'_>) -> Result<i64, AllocError> {
        let last = self.least(task)?;
        self.made.clear();
        if last.cost < NONE {
            let rows = Rows {
                costs: &self.rows,
                bands: &self.bands,
                width: task.width,
            };
            self.made.trace(rows, last, task)?;
        }
        Ok(last.cost)
    }

    /// The least cost of starting what must have been started, with what falls short of what is asked, and `NONE` where the largest lots
    /// are too small. A plan at that cost is kept.
    ///
    /// The error is that memory ran out; as many entries as a call before are kept from it. It takes memory in the number of
    /// periods times that of the units that are asked for, and time in that of those that can have been started, and must have been, by
    /// the end of each.
    pub fn plan(&mut self, terms: Terms<'_>) -> Result<i64, AllocError> {
        let cost = self.plan_task(Task::of(terms, DEAR))?;
        if cost < NONE {
            return Ok(cost);
        }
        self.plan_task(Task::of(terms, NONE))
    }

    /// What the plan makes in each period; empty where there is none.
    pub fn made(&self) -> &[i64] {
        &self.made.units
    }

    /// 1 where it is set up in a period, and else 0.
    pub fn setups(&self) -> &[i64] {
        &self.made.setups
    }

    /// What falls short by the end of each period.
    pub fn short(&self) -> &[i64] {
        &self.made.short
    }
}
