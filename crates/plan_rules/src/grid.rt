// A number for each item and period.
ghost use Rattle.std.specs.Prelude.{◌≡◌, ◌≤◌, ◌*◌, ◌↔◌, replicate, IfOk, IsTrue};
ghost use Rattle.plan_rules.specs.Cells.{place, table_of, Fits, HoldsOnly, SameApart};

use lot_model::Instance;
use std::alloc::{AllocError, Global};
use std::marker::Model;

/// A number for each item and period, item by item.
#[derive(Debug, Drop)]
pub struct Grid {
    items: u32,
    periods: u32,
    cells: Vec<u64>,
}

impl Model for Grid {
    ghost use Rattle.std.specs.Prelude.{◌≡◌, ◌*◌, length};
    ghost use Rattle.plan_rules.specs.Cells.{Cells};

    ghost Value = { Cells };

    ghost view = { λ a. record { items = a.items; periods = a.periods; cells = a.cells.items } };

    ghost invariant = { λ a. length a.cells.items ≡ a.items * a.periods };
}

// Where the number of an item and a period stands.
fn cell_place(periods: u32, item: u32, period: u32) -> usize
    requires item_low { 1 ≤ item }
    requires period_low { 1 ≤ period }
    ensures { result ≡ place periods item period }
{
    (item - 1) as usize * periods as usize + (period - 1) as usize
}

impl Grid {
    /// The grid that holds this value throughout.
    pub fn filled(alloc: Global, items: u32, periods: u32, value: u64) -> Result<Grid, AllocError>
        ensures { IfOk result (HoldsOnly items periods value) }
    {
        let size = items as usize * periods as usize;
        let mut cells = Vec::new(alloc);
        cells.resize(size, value)?;
        Ok(Grid {
            items,
            periods,
            cells,
        })
    }

    /// The number of items.
    pub fn items(&self) -> u32
        ensures { result ≡ self.now.items }
    {
        self.items
    }

    /// The number of periods.
    pub fn periods(&self) -> u32
        ensures { result ≡ self.now.periods }
    {
        self.periods
    }

    /// Whether it has a number for each item and period of an instance, and no other.
    pub fn fits(&self, instance: &Instance) -> bool
        ensures { IsTrue result ↔ Fits instance.now self.now }
    {
        self.items == instance.items() && self.periods == instance.periods()
    }

    /// All numbers, item by item, each item's by period.
    pub fn cells(&self) -> &[u64]
        ensures { result.now ≡ self.now.cells }
    {
        &self.cells
    }

    /// The number of an item and a period.
    pub fn get(&self, item: u32, period: u32) -> u64
        requires item_low { 1 ≤ item }
        requires item_high { item ≤ self.now.items }
        requires period_low { 1 ≤ period }
        requires period_high { period ≤ self.now.periods }
        ensures { result ≡ table_of self.now item period }
    {
        let place = cell_place(self.periods, item, period);
        self.cells[place]
    }

    /// Puts a number in the place of that of an item and a period.
    pub fn set(&mut self, item: u32, period: u32, value: u64)
        requires item_low { 1 ≤ item }
        requires item_high { item ≤ self.old.items }
        requires period_low { 1 ≤ period }
        requires period_high { period ≤ self.old.periods }
        ensures here { table_of self.new item period ≡ value }
        ensures others { SameApart self.old self.new item period }
        ensures items { self.new.items ≡ self.old.items }
        ensures periods { self.new.periods ≡ self.old.periods }
    {
        let place = cell_place(self.periods, item, period);
        self.cells[place] = value;
    }
}

impl PartialEq for Grid {
    ghost use Rattle.std.specs.Prelude.{◌==◌};
    ghost use Rattle.std.proofs.Common.{rules};
    ghost use Rattle.std.specs.Cmp.Rules.{comparing};
    ghost use Rattle.std.specs.Ordering.{on, eq_of_both};
    ghost use Rattle.std.specs.Cmp.Lexicographic.{pointwise};

    ghost eq = { eq_of_both (on (λ g. g.items) ◌==◌) (eq_of_both (on (λ g. g.periods) ◌==◌) (on (λ g. g.cells) (pointwise ◌==◌))) };

    ghost laws = { Prim.search (comparing, rules) };

    fn eq(&self, other: &Grid) -> bool {
        self.items == other.items && self.periods == other.periods && self.cells == other.cells
    }
}
