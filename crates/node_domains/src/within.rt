// Ranges of quantities and setups that are given, and whether plans lie within them.
ghost use Rattle.std.specs.Prelude.{◌≡◌, ◌≤◌, ◌↔◌, ℕ, IfOk, IfSome, IsTrue};
ghost use Rattle.lot_sizing.specs.Problem.{item_count};
ghost use Rattle.plan_rules.specs.Cells.{Fits, HoldsOnly, table_of};
ghost use Rattle.plan_rules.specs.Held.{AllFit, plan_of};
ghost use Rattle.plan_rules.specs.Rows.{OtherRowsSame};
ghost use Rattle.cert_trees.specs.Ranges.{IsWithin, WithTotals};
ghost use Rattle.node_domains.specs.Within.{AreGiven, HaveShape, IsCellUpTo, IsCellWithin, IsWhole, given_ranges};

use lot_model::Instance;
use plan_rules::{Grid, Plan};
use std::alloc::{AllocError, Global};

/// The least and the greatest number of each quantity, in units, and of each setup: a grid of each, with a number for each
/// item and period.
#[derive(Debug, Drop)]
pub struct Ranges {
    /// The least quantities.
    pub low: Grid,
    /// The greatest quantities.
    pub high: Grid,
    /// The least setups.
    pub setup_low: Grid,
    /// The greatest setups.
    pub setup_high: Grid,
}

impl Ranges {
    /// The whole ranges of an instance: each quantity from 0 to its item's largest total, and each setup from 0 to 1.
    ///
    /// The error is that memory ran out.
    pub fn all(alloc: Global, instance: &Instance) -> Result<Ranges, AllocError>
        ensures given { IfOk result (AreGiven instance.now) }
        ensures whole { IfOk result (λ r. IsWhole instance.now (given_ranges r)) }
    {
        let items = instance.items();
        let periods = instance.periods();
        let low = Grid::filled(alloc, items, periods, 0)?;
        let high = largest_totals(alloc, instance)?;
        let setup_low = Grid::filled(alloc, items, periods, 0)?;
        let setup_high = Grid::filled(alloc, items, periods, 1)?;
        Ok(Ranges {
            low,
            high,
            setup_low,
            setup_high,
        })
    }

    /// Whether they are ranges of an instance: each grid has a number for each of its items and periods, none lies outside
    /// the whole ranges, and no low number is above its high number.
    ///
    /// It takes no memory.
    pub fn are_of(&self, instance: &Instance) -> bool
        ensures { IsTrue result ↔ AreGiven instance.now self.now }
    {
        have_shape(instance, self) && are_in_order(instance, self)
    }
}

// Whether a grid has a number for each item and period.
fn fits(instance: &Instance, grid: &Grid) -> bool
    ensures { IsTrue result ↔ Fits instance.now grid.now }
{
    grid.items() == instance.items() && grid.periods() == instance.periods()
}

// Whether each of the grids has.
fn have_shape(instance: &Instance, ranges: &Ranges) -> bool
    ensures { IsTrue result ↔ HaveShape instance.now ranges.now }
{
    fits(instance, &ranges.low)
        && fits(instance, &ranges.high)
        && fits(instance, &ranges.setup_low)
        && fits(instance, &ranges.setup_high)
}

// Whether the ranges of an item and a period are in order, and go no higher than this, and than 1.
fn is_cell_up_to(instance: &Instance, ranges: &Ranges, most: u64, item: u32, period: u32) -> bool
    requires shape { HaveShape instance.now ranges.now }
    requires item_low { 1 ≤ item }
    requires item_high { item ≤ item_count instance.now }
    requires low { 1 ≤ period }
    requires high { period ≤ instance.now.periods }
    ensures { IsTrue result ↔ IsCellUpTo (given_ranges ranges.now) most item period }
{
    let high = ranges.high.get(item, period);
    let setup_high = ranges.setup_high.get(item, period);
    ranges.low.get(item, period) <= high
        && high <= most
        && ranges.setup_low.get(item, period) <= setup_high
        && setup_high <= 1
}

// Whether those of an item are, in all periods.
fn is_item_up_to(instance: &Instance, ranges: &Ranges, most: u64, item: u32) -> bool
    requires shape { HaveShape instance.now ranges.now }
    requires item_low { 1 ≤ item }
    requires item_high { item ≤ item_count instance.now }
    ensures { IsTrue result ↔ ((t : ℕ) → 1 ≤ t → t ≤ instance.now.periods
        → IsCellUpTo (given_ranges ranges.now) most item t) }
{
    for period in 1..instance.periods() + 1 {
        if !is_cell_up_to(instance, ranges, most, item, period) {
            return false;
        }
    }
    true
}

// Whether those of all items are, up to their largest totals.
fn are_in_order(instance: &Instance, ranges: &Ranges) -> bool
    requires shape { HaveShape instance.now ranges.now }
    ensures { IsTrue result ↔ AreGiven instance.now ranges.now }
{
    for item in 1..instance.items() + 1 {
        let most = instance.largest_total(item);
        if !is_item_up_to(instance, ranges, most, item) {
            return false;
        }
    }
    true
}

// Puts a number in each period of an item.
fn set_row(grid: &mut Grid, item: u32, value: u64)
    requires low { 1 ≤ item }
    requires high { item ≤ grid.old.items }
    ensures here { (t : ℕ) → 1 ≤ t → t ≤ grid.old.periods → table_of grid.new item t ≡ value }
    ensures others { OtherRowsSame grid.old grid.new item }
    ensures items { grid.new.items ≡ grid.old.items }
    ensures periods { grid.new.periods ≡ grid.old.periods }
{
    for period in 0..grid.periods() {
        grid.set(item, period + 1, value);
    }
}

// The largest total of each item in each period.
fn largest_totals(alloc: Global, instance: &Instance) -> Result<Grid, AllocError>
    ensures fits { IfOk result (Fits instance.now) }
    ensures totals { IfOk result (λ grid.
        WithTotals instance.now (λ total. (i t : ℕ) → 1 ≤ i → i ≤ item_count instance.now → 1 ≤ t
        → t ≤ instance.now.periods → table_of grid i t ≡ total i)) }
{
    let mut grid = Grid::filled(alloc, instance.items(), instance.periods(), 0)?;
    for item in 1..instance.items() + 1 {
        set_row(&mut grid, item, instance.largest_total(item));
    }
    Ok(grid)
}

// Whether the quantity and the setup of an item in a period are in their ranges.
fn is_cell_within(instance: &Instance, ranges: &Ranges, plan: &Plan, item: u32, period: u32) -> bool
    requires shape { HaveShape instance.now ranges.now }
    requires plan { AllFit instance.now plan.now }
    requires item_low { 1 ≤ item }
    requires item_high { item ≤ item_count instance.now }
    requires low { 1 ≤ period }
    requires high { period ≤ instance.now.periods }
    ensures { IsTrue result ↔ IsCellWithin (given_ranges ranges.now) (plan_of plan.now) item
        period }
{
    let made = plan.make.get(item, period);
    let setup = plan.setup.get(item, period);
    ranges.low.get(item, period) <= made
        && made <= ranges.high.get(item, period)
        && ranges.setup_low.get(item, period) <= setup
        && setup <= ranges.setup_high.get(item, period)
}

// Whether those of an item are, in all periods.
fn is_item_within(instance: &Instance, ranges: &Ranges, plan: &Plan, item: u32) -> bool
    requires shape { HaveShape instance.now ranges.now }
    requires plan { AllFit instance.now plan.now }
    requires item_low { 1 ≤ item }
    requires item_high { item ≤ item_count instance.now }
    ensures { IsTrue result ↔ ((t : ℕ) → 1 ≤ t → t ≤ instance.now.periods
        → IsCellWithin (given_ranges ranges.now) (plan_of plan.now) item t) }
{
    for period in 1..instance.periods() + 1 {
        if !is_cell_within(instance, ranges, plan, item, period) {
            return false;
        }
    }
    true
}

/// Whether a plan lies within the ranges: each of its quantities, in units, and each of its setups does.
///
/// The ranges and the plan have a number for each item and period of the instance. It takes no memory.
pub fn is_within(instance: &Instance, ranges: &Ranges, plan: &Plan) -> bool
    requires shape { HaveShape instance.now ranges.now }
    requires plan { AllFit instance.now plan.now }
    ensures { IsTrue result ↔ IsWithin instance.now (given_ranges ranges.now) (plan_of plan.now) }
{
    for item in 1..instance.items() + 1 {
        if !is_item_within(instance, ranges, plan, item) {
            return false;
        }
    }
    true
}

/// Whether a plan lies within the ranges, if there is one; true where there is none.
///
/// The ranges and the plan have a number for each item and period of the instance. It takes no memory.
pub fn lies_within(instance: &Instance, ranges: &Ranges, plan: &Option<Plan>) -> bool
    requires shape { HaveShape instance.now ranges.now }
    requires plan { IfSome plan.now (AllFit instance.now) }
    ensures { IsTrue result ↔ IfSome plan.now
        (λ p. IsWithin instance.now (given_ranges ranges.now) (plan_of p)) }
{
    match plan {
        Some(plan) => is_within(instance, ranges, plan),
        None => true,
    }
}
