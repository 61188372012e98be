// The program where some setups are given, and its least point.
ghost use Rattle.std.specs.Prelude.{◌≤◌, ◌+◌, ◌*◌};
ghost use Rattle.tableau.specs.Program.{column_count, row_count};
ghost use Rattle.plan_rules.specs.Rows.{IfFound};
ghost use Rattle.heur_setup_lps.specs.declared.limits.TheConstants.{MAX_PROGRAM_CELLS};

use crate::columns::{Columns, Role, columns_of};
use crate::limits::MAX_PROGRAM_CELLS;
use crate::reducing::{NamedRow, put_reduced};
use frac128::Frac;
use lin_rows::{Bound, Column, RowFault, RowName, base_row, column_at};
use lot_model::Instance;
use lp_relaxation::{MAX_PIVOTS, base_names, column_costs};
use plan_rules::Grid;
use std::alloc::{AllocError, Global};
use tableau::{Lp, LpRow, Outcome, is_program};
use work_clock::Deadline;

/// What the programs of a model are made of: its rows, and its columns with their costs; and when solving them is to end.
#[derive(Drop)]
pub(crate) struct Base {
    rows: Vec<NamedRow>,
    columns: Vec<Column>,
    costs: Vec<u64>,
    until: Deadline,
}

/// A least point of a program: the roles of the model's columns in it, and the values of its own columns.
#[derive(Debug, Drop)]
pub(crate) struct Solved {
    pub(crate) roles: Vec<Role>,
    pub(crate) point: Vec<Frac>,
}

// Puts the row of a name after others, if the rules of plans make it.
fn put_base(
    alloc: Global,
    instance: &Instance,
    name: RowName,
    rows: &mut Vec<NamedRow>,
) -> Result<(), AllocError> {
    match base_row(alloc, instance, name) {
        Ok(row) => {
            rows.push(NamedRow { name, row })?;
            Ok(())
        }
        Err(RowFault::NoSuchRow) => Ok(()),
        Err(RowFault::Memory) => Err(AllocError),
    }
}

// All rows that the rules of plans make.
fn rows_of(alloc: Global, instance: &Instance) -> Result<Vec<NamedRow>, AllocError> {
    let names = base_names(alloc, instance)?;
    let mut rows = Vec::new(alloc);
    for name in &names {
        put_base(alloc, instance, *name, &mut rows)?;
    }
    Ok(rows)
}

// The columns of so many numbers.
fn all_columns(
    alloc: Global,
    instance: &Instance,
    count: usize,
) -> Result<Vec<Column>, AllocError> {
    let mut columns = Vec::new(alloc);
    for place in 0..count {
        let number = u32::try_from(place).unwrap_or(u32::MAX).saturating_add(1);
        if let Some(column) = column_at(instance, number) {
            columns.push(column)?;
        }
    }
    Ok(columns)
}

impl Base {
    /// The rows and columns of a model's program.
    pub(crate) fn of(
        alloc: Global,
        instance: &Instance,
        until: Deadline,
    ) -> Result<Base, AllocError> {
        let costs = column_costs(alloc, instance)?;
        let columns = all_columns(alloc, instance, costs.len())?;
        let rows = rows_of(alloc, instance)?;
        Ok(Base {
            rows,
            columns,
            costs,
            until,
        })
    }

    /// Whether no more programs are to be solved.
    pub(crate) fn is_over(&self) -> bool {
        self.until.is_past()
    }

    // The rows with the values of given setups put in.
    fn reduced(
        &self,
        alloc: Global,
        instance: &Instance,
        low: &Grid,
        roles: &[Role],
    ) -> Result<Vec<LpRow>, AllocError> {
        let mut rows = Vec::new(alloc);
        for named in &self.rows {
            put_reduced(alloc, instance, low, roles, named, &mut rows)?;
        }
        Ok(rows)
    }

    // The rows with the values of given setups put in, and then those of bounds.
    fn bounded(
        &self,
        alloc: Global,
        instance: &Instance,
        low: &Grid,
        roles: &[Role],
        bounds: &[Bound],
    ) -> Result<Vec<LpRow>, AllocError> {
        let mut rows = self.reduced(alloc, instance, low, roles)?;
        for bound in bounds {
            let named = NamedRow {
                name: RowName::Path(1),
                row: bound.row(alloc)?,
            };
            put_reduced(alloc, instance, low, roles, &named, &mut rows)?;
        }
        Ok(rows)
    }

    /// A least point within bounds of the program where setups are given by their least and their greatest numbers, if there
    /// is one, and the run is within the limits.
    pub(crate) fn solve(
        &self,
        alloc: Global,
        instance: &Instance,
        low: &Grid,
        high: &Grid,
        bounds: &[Bound],
    ) -> Result<Option<Solved>, AllocError> {
        let Columns { roles, costs } = columns_of(alloc, low, high, &self.columns, &self.costs)?;
        let rows = self.bounded(alloc, instance, low, &roles, bounds)?;
        if !is_program(&costs, &rows) {
            return Ok(None);
        }
        match least_point(alloc, &Lp::new(costs, rows))? {
            Some(point) => Ok(Some(Solved { roles, point })),
            None => Ok(None),
        }
    }
}

// A least point of a program, if it has one and the run is within the limits.
fn least_point(alloc: Global, program: &Lp) -> Result<Option<Vec<Frac>>, AllocError>
    ensures { IfFound result (λ _. (row_count program.now + 1) * (column_count program.now + 1)
        ≤ MAX_PROGRAM_CELLS) }
{
    if program.cells() > MAX_PROGRAM_CELLS {
        return Ok(None);
    }
    match program.solve(alloc, MAX_PIVOTS)? {
        Outcome::Least { point, .. } => Ok(Some(point)),
        Outcome::Empty { .. } | Outcome::Stopped { .. } | Outcome::Passed { .. } => Ok(None),
    }
}
