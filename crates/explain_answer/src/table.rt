// An amount for each item and period.

use std::alloc::{AllocError, Global};

/// An amount for each item and period, both counted from 1; elsewhere 0.
#[derive(Drop)]
pub(crate) struct Table {
    periods: u32,
    cells: Vec<u128>,
}

impl Table {
    /// The table of so many items and periods, of 0 throughout.
    pub(crate) fn new(alloc: Global, items: u32, periods: u32) -> Result<Table, AllocError> {
        let size = u64::from(items).saturating_mul(u64::from(periods));
        let mut cells = Vec::new(alloc);
        cells.resize(size as usize, 0u128)?;
        Ok(Table { periods, cells })
    }

    // Where the amount of an item and a period stands; past the end where there is none.
    fn place(&self, item: u32, period: u32) -> usize {
        if item == 0 || period == 0 || period > self.periods {
            return usize::MAX;
        }
        let row = u64::from(item.saturating_sub(1)).saturating_mul(u64::from(self.periods));
        row.saturating_add(u64::from(period.saturating_sub(1))) as usize
    }

    /// The amount of an item and a period.
    pub(crate) fn at(&self, item: u32, period: u32) -> u128 {
        self.cells
            .get(self.place(item, period))
            .copied()
            .unwrap_or(0)
    }

    /// Writes the amount of an item and a period, where there is one.
    pub(crate) fn write(&mut self, item: u32, period: u32, amount: u128) {
        let place = self.place(item, period);
        if let Some(cell) = self.cells.get_mut(place) {
            *cell = amount;
        }
    }
}
