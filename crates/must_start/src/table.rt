// What must have been started of each item by the end of each period, as a table.
ghost use Rattle.std.specs.Prelude.{◌≡◌, ◌≤◌, ◌<◌, ◌+◌, ◌-◌, length, slice_set, IfOk};
ghost use Rattle.lot_sizing.specs.Problem.{entry, item_count};
ghost use Rattle.lot_sizing.specs.Totals.{IsRanking};
ghost use Rattle.must_start.specs.MustStart.{AllHaveStarted};
ghost use Rattle.must_start.specs.Rows.{IsMustStartOf, row_in, start_in};
ghost use Rattle.must_start.specs.Steps.{IsFilledTo, IsTable};

use crate::arrivals::row_of;
use crate::laws::must_start_holds;
use lot_model::{Instance, an_instance_breaks_no_rule};
use std::alloc::{AllocError, Global};
use std::marker::Model;

/// For each item and the end of each period the quantity that every feasible plan has started by then.
#[derive(Debug, Drop)]
pub struct MustStart {
    // a row for each item: 0, then a quantity for each period
    rows: Vec<Vec<u64>>,
}

impl Model for MustStart {
    ghost use Rattle.std.specs.Prelude.{List, map, ℕ};

    ghost Value = { List (List ℕ) };

    ghost view = { λ a. map (λ v. v.items) a.rows.items };
}

impl MustStart {
    // A row of zeros for each item.
    fn none_yet(alloc: Global, instance: &Instance) -> Result<MustStart, AllocError>
        ensures { IfOk result (IsTable instance.now) }
    {
        let mut rows = Vec::with_capacity(alloc, instance.items() as usize)?;
        for _ in 0..instance.items() {
            rows.push(vec![in alloc; 0u64; instance.periods() as usize + 1]?)?;
        }
        Ok(MustStart { rows })
    }

    // Puts a row in the place of an item's.
    fn put(&mut self, item: u32, row: Vec<u64>)
        requires low { 1 ≤ item }
        requires high { item ≤ length self.old }
        ensures { self.new ≡ slice_set self.old (item - 1) row.items }
    {
        self.rows[(item - 1) as usize] = row;
    }

    // Puts the row of an item in its place, where those of all items that it goes into have theirs.
    fn fill(
        &mut self,
        alloc: Global,
        instance: &Instance,
        ranks: &[u32],
        item: u32,
    ) -> Result<(), AllocError>
        requires ranks { IsRanking instance.now (entry ranks.now) }
        requires low { 1 ≤ item }
        requires high { item ≤ item_count instance.now }
        requires before { IsFilledTo instance.now (entry ranks.now) (entry ranks.now item) item
            self.old }
        ensures { IfOk result (λ _.
            IsFilledTo instance.now (entry ranks.now) (entry ranks.now item) (item + 1) self.new) }
    {
        an_instance_breaks_no_rule(instance);
        let row = row_of(alloc, instance, self, item)?;
        self.put(item, row);
        Ok(())
    }

    // Puts the rows of the items of a rank in their places.
    fn fill_rank(
        &mut self,
        alloc: Global,
        instance: &Instance,
        ranks: &[u32],
        rank: u32,
    ) -> Result<(), AllocError>
        requires size { length ranks.now ≡ item_count instance.now }
        requires ranks { IsRanking instance.now (entry ranks.now) }
        requires before { IsFilledTo instance.now (entry ranks.now) rank 1 self.old }
        ensures { IfOk result (λ _.
            IsFilledTo instance.now (entry ranks.now) rank (item_count instance.now + 1) self.new) }
    {
        for item in 1..instance.items() + 1 {
            if ranks[(item - 1) as usize] == rank {
                self.fill(alloc, instance, ranks, item)?;
            }
        }
        Ok(())
    }

    /// What must have been started of each item of an instance (`starts`): every feasible plan has (`holds`). No
    /// quantity is above `MAX_TOTAL`. The error is that memory ran out.
    ///
    /// It takes time in the number of items and periods times that of the lines of components.
    pub fn of(alloc: Global, instance: &Instance) -> Result<MustStart, AllocError>
        ensures starts { IfOk result (IsMustStartOf instance.now) }
        ensures holds { IfOk result (λ found. AllHaveStarted instance.now (start_in found)) }
    {
        must_start_holds();
        let mut table = MustStart::none_yet(alloc, instance)?;
        let ranks = instance.ranks();
        for rank in 0..instance.items() + 1 {
            table.fill_rank(alloc, instance, ranks, rank)?;
        }
        Ok(table)
    }

    /// What must have been started of an item by the end of a period, and 0 for period 0, in units of the item.
    pub fn by_end(&self, item: u32, period: u32) -> u64
        requires low { 1 ≤ item }
        requires high { item ≤ length self.now }
        requires period { period < length (row_in self.now item) }
        ensures { result ≡ start_in self.now item period }
    {
        let row: &[u64] = &self.rows[(item - 1) as usize];
        row[period as usize]
    }
}
