// Rows that were used before, so that tables take no new memory.
ghost use Rattle.std.specs.Prelude.{◌≡◌, [], IfOk};

use crate::lists::{LevelLists, Plane, Row};
use std::alloc::{AllocError, Global};

/// Rows whose memory is taken again.
#[derive(Drop)]
pub(crate) struct Spare {
    pub(crate) rows: Vec<Row>,
}

impl Spare {
    /// An empty list, in the memory of a spare row if there is one.
    pub(crate) fn take(&mut self, alloc: Global) -> Vec<u128>
        ensures { result.items ≡ [] }
    {
        match self.rows.pop() {
            Some(row) => {
                let mut cells = row.cells;
                cells.clear();
                cells
            }
            None => Vec::new(alloc),
        }
    }

    /// Keeps the memory of a row.
    pub(crate) fn keep(&mut self, row: Row) -> Result<(), AllocError> {
        self.rows.push(row)?;
        Ok(())
    }

    /// Keeps the memory of the lists of a level.
    pub(crate) fn keep_lists(&mut self, lists: LevelLists) -> Result<(), AllocError> {
        self.keep(Row {
            cells: lists.setup_cost,
        })?;
        self.keep(Row {
            cells: lists.unit_cost,
        })?;
        self.keep(Row { cells: lists.asked })
    }

    /// Keeps the memory of rows.
    pub(crate) fn keep_rows(&mut self, rows: Vec<Row>) -> Result<(), AllocError> {
        for row in rows {
            self.rows.push(row)?;
        }
        Ok(())
    }

    /// Keeps the memory of the rows of planes.
    pub(crate) fn keep_planes(&mut self, planes: Vec<Plane>) -> Result<(), AllocError> {
        for plane in planes {
            self.keep_rows(plane.rows)?;
        }
        Ok(())
    }
}
