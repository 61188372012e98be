// The ranges of all quantities and setups in one list, and what stands at a place of it.
ghost use Rattle.std.specs.Prelude.{◌≡◌, ◌≤◌, ◌<◌, ◌+◌, ◌-◌, ◌++◌, ℕ, [], IfOk, OnOk, length};
ghost use Rattle.lot_sizing.specs.Problem.{item_count};
ghost use Rattle.lin_rows.specs.Columns.{cell_count};
ghost use Rattle.plan_rules.specs.Cells.{Fits, table_of};
ghost use Rattle.plan_rules.specs.Rows.{OtherRowsSame};
ghost use Rattle.tree_search.specs.Ranges.{AreOrdered, range_at};
ghost use Rattle.node_domains.specs.Listed.{AreListed, grid_list, row_list};
ghost use Rattle.node_domains.specs.Nodes.{HasLeastFrom, IsNodeOf, choice_count, choice_place};
ghost use Rattle.node_domains.specs.Within.{AreGiven, given_ranges};

use crate::within::Ranges;
use lin_rows::Column;
use lot_model::Instance;
use plan_rules::Grid;
use std::alloc::{AllocError, Global};
use tree_search::{Range, whole_is_measured};

// Adds the range of each period of an item.
fn push_row(
    ranges: &mut Vec<Range>,
    low: &Grid,
    high: &Grid,
    item: u32,
    periods: u32,
) -> Result<(), AllocError>
    requires item_low { 1 ≤ item }
    requires low_items { item ≤ low.now.items }
    requires high_items { item ≤ high.now.items }
    requires low_periods { low.now.periods ≡ periods }
    requires high_periods { high.now.periods ≡ periods }
    ensures { OnOk result (ranges.new.items
        ≡ ranges.old.items ++ row_list (table_of low.now) (table_of high.now) item periods) }
{
    for period in 0..periods {
        let least = low.get(item, period + 1);
        let most = high.get(item, period + 1);
        ranges.push(Range {
            low: least,
            high: most,
        })?;
    }
    Ok(())
}

// Adds the range of each period of each item.
fn push_grids(
    instance: &Instance,
    ranges: &mut Vec<Range>,
    low: &Grid,
    high: &Grid,
) -> Result<(), AllocError>
    requires low { Fits instance.now low.now }
    requires high { Fits instance.now high.now }
    ensures { OnOk result (ranges.new.items
        ≡ ranges.old.items
        ++ grid_list (table_of low.now) (table_of high.now) (item_count instance.now)
        instance.now.periods) }
{
    let periods = instance.periods();
    for item in 1..instance.items() + 1 {
        push_row(ranges, low, high, item, periods)?;
    }
    Ok(())
}

/// The ranges in one list: those of all quantities, in units, and then those of all setups, item by item, with one range for
/// each item and period. It is the list of a node whose path has no branch (`node`).
///
/// The error is that memory ran out.
pub fn listed(alloc: Global, instance: &Instance, ranges: &Ranges) -> Result<Vec<Range>, AllocError>
    requires given { AreGiven instance.now ranges.now }
    ensures node { IfOk result (λ list.
        IsNodeOf instance.now (given_ranges ranges.now) list.items []) }
    ensures ordered { IfOk result (λ list. AreOrdered list.items) }
    ensures listed { IfOk result (λ list.
        AreListed instance.now (given_ranges ranges.now) list.items) }
{
    whole_is_measured();
    let mut list = Vec::new(alloc);
    push_grids(instance, &mut list, &ranges.low, &ranges.high)?;
    push_grids(instance, &mut list, &ranges.setup_low, &ranges.setup_high)?;
    Ok(list)
}

// Puts the least numbers of the ranges of an item, from this place on, in its row.
fn set_least(grid: &mut Grid, ranges: &[Range], first: usize, item: u32)
    requires low { 1 ≤ item }
    requires high { item ≤ grid.old.items }
    requires inside { first + grid.old.periods ≤ length ranges.now }
    ensures here { (t : ℕ) → 1 ≤ t → t ≤ grid.old.periods
        → table_of grid.new item t ≡ (range_at ranges.now (first + t - 1)).low }
    ensures others { OtherRowsSame grid.old grid.new item }
    ensures items { grid.new.items ≡ grid.old.items }
    ensures periods { grid.new.periods ≡ grid.old.periods }
{
    for period in 0..grid.periods() {
        let range = ranges[first + period as usize];
        grid.set(item, period + 1, range.low);
    }
}

/// The least numbers of a half of a list of ranges, with a number for each item and period: of the quantities, in units, where
/// `first`, the place of the first range, is 0, and of the setups where it is the number of items times periods.
///
/// The error is that memory ran out.
pub fn least_grid(
    alloc: Global,
    instance: &Instance,
    ranges: &[Range],
    first: usize,
) -> Result<Grid, AllocError>
    requires { first + cell_count instance.now ≤ length ranges.now }
    ensures fits { IfOk result (Fits instance.now) }
    ensures least { IfOk result (HasLeastFrom instance.now ranges.now first) }
{
    let periods = instance.periods();
    let mut grid = Grid::filled(alloc, instance.items(), periods, 0)?;
    for item in 1..instance.items() + 1 {
        let place = first + (item - 1) as usize * periods as usize;
        set_least(&mut grid, ranges, place, item);
    }
    Ok(grid)
}

/// The quantity or the setup whose range stands at a place of a list of ranges.
///
/// It takes no memory.
pub fn column_of(instance: &Instance, place: usize) -> Column
    requires { place < choice_count instance.now }
    ensures { choice_place instance.now result ≡ place }
{
    let periods = instance.periods() as usize;
    let cells = instance.items() as usize * periods;
    if place < cells {
        Column::X {
            item: (place / periods) as u32 + 1,
            period: (place % periods) as u32 + 1,
        }
    } else {
        Column::Y {
            item: ((place - cells) / periods) as u32 + 1,
            period: ((place - cells) % periods) as u32 + 1,
        }
    }
}
