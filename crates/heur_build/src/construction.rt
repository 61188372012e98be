// A plan while it is built backward by periods.
ghost use Rattle.std.specs.Prelude.{◌≡◌, ◌≤◌, IfOk, length};
ghost use Rattle.lot_sizing.specs.Problem.{item_count};
ghost use Rattle.plan_rules.specs.Cells.{Fits};
ghost use Rattle.heur_build.specs.Construction.{HasShape};

use lot_model::Instance;
use own_plan::fill_own_lots;
use plan_rules::Grid;
use std::alloc::{AllocError, Global};

/// A plan while it is built backward by periods. The lists have an entry for each item.
#[derive(Drop)]
pub struct Construction {
    /// The lots of the period at hand and of later ones.
    pub make: Grid,
    /// Their setups.
    pub setup: Grid,
    /// 1 where a lot was moved to, beside the setups that were wanted.
    pub earlier: Grid,
    /// Units that are still to be made.
    pub left: Vec<u64>,
    /// Units that later periods ask for.
    pub carried: Vec<u64>,
    /// The most that may be made in the period at hand; None where it isn't bounded.
    pub limit: Vec<Option<u64>>,
    /// By how many periods demand that may be late is met late.
    pub late: u32,
}

/// A plan while it is built, with the instance and the setups that are wanted.
#[derive(Clone, Copy)]
pub struct BuildState<'a> {
    /// The instance.
    pub instance: &'a Instance,
    /// 1 where a setup is wanted.
    pub wanted: &'a Grid,
    /// The plan so far.
    pub plan: &'a Construction,
}

// All units of an item that a grid has, or the most that the type holds.
fn row_total(grid: &Grid, instance: &Instance, item: u32) -> u64
    requires fits { Fits instance.now grid.now }
    requires low { 1 ≤ item }
    requires high { item ≤ item_count instance.now }
{
    let mut total = 0u64;
    for period in 1..instance.periods() + 1 {
        total = total.saturating_add(grid.get(item, period));
    }
    total
}

// All units of each item that a grid has.
fn row_totals(alloc: Global, instance: &Instance, grid: &Grid) -> Result<Vec<u64>, AllocError>
    requires fits { Fits instance.now grid.now }
    ensures { IfOk result (λ list. length list.items ≡ item_count instance.now) }
{
    let mut totals = Vec::new(alloc);
    for item in 1..instance.items() + 1 {
        totals.push(row_total(grid, instance, item))?;
    }
    Ok(totals)
}

/// Nothing is built yet. Of each item as much is to be made as in the own-period plan, and demand that may be late is met so
/// many periods late.
pub fn begin(alloc: Global, instance: &Instance, late: u32) -> Result<Construction, AllocError>
    ensures { IfOk result (HasShape instance.now) }
{
    let mut make = Grid::filled(alloc, instance.items(), instance.periods(), 0)?;
    let mut setup = Grid::filled(alloc, instance.items(), instance.periods(), 0)?;
    let earlier = Grid::filled(alloc, instance.items(), instance.periods(), 0)?;
    fill_own_lots(instance, &mut make, &mut setup);
    let left = row_totals(alloc, instance, &make)?;
    let carried = vec![in alloc; 0u64; instance.items() as usize]?;
    let limit = vec![in alloc; Some(0u64); instance.items() as usize]?;
    Ok(Construction {
        make,
        setup,
        earlier,
        left,
        carried,
        limit,
        late,
    })
}

/// Whether a setup of an item is wanted in a period, or a lot was moved there.
pub(crate) fn is_wanted(
    _instance: &Instance,
    wanted: &Grid,
    built: &Construction,
    item: u32,
    period: u32,
) -> bool
    requires wanted { Fits _instance.now wanted.now }
    requires shape { HasShape _instance.now built.now }
    requires item_low { 1 ≤ item }
    requires item_high { item ≤ item_count _instance.now }
    requires low { 1 ≤ period }
    requires high { period ≤ _instance.now.periods }
{
    wanted.get(item, period) == 1 || built.earlier.get(item, period) == 1
}
