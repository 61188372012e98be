// The bill of an instance, and what its largest totals go by.
ghost use Rattle.std.specs.Prelude.{◌≡◌, ◌≤◌, ◌+◌, length, map, IfOk};
ghost use Rattle.lot_sizing.specs.Sums.{sum_to};
ghost use Rattle.lot_sizing.specs.declared.limits.TheConstants.{MAX_ITEMS, MAX_PERIODS};
ghost use Rattle.lot_sizing.specs.Problem.{entry, item_count, IsWithinLimits};
ghost use Rattle.bill.specs.Lines.{AreLines};
ghost use Rattle.lot_model.specs.Meaning.{most_asked, there_of};
ghost use Rattle.lot_model.specs.Held.{AreOf, HasSmallDemand, problem_of_parts};

use crate::building::Parts;
use crate::data::ItemData;
use bill::BillLines;
use lot_sizing::Need;
use std::alloc::{AllocError, Global};

/// The components of each item.
pub fn bill_lines<'a>(alloc: Global, items: &'a [ItemData]) -> Result<BillLines<'a>, AllocError>
    requires { AreLines (map (λ a. a.needs) items.now) }
    ensures { IfOk result (λ lines. lines ≡ map (λ a. a.needs) items.now) }
{
    let mut lines: Vec<&'a [Need]> = Vec::with_capacity(alloc, items.len())?;
    for item in items {
        let needs: &'a [Need] = &item.needs;
        lines.push(needs)?;
    }
    Ok(BillLines::of(lines))
}

// What is asked of an item from outside: its demands and its largest end stock.
fn most_asked(item: &ItemData, periods: u32) -> u64
    requires periods { periods ≤ MAX_PERIODS }
    requires item { HasSmallDemand periods item.now }
    ensures { result ≡ sum_to periods (entry item.now.demand) + item.now.end_max }
{
    let mut sum = item.end_max;
    for period in 1..periods + 1 {
        sum += item.demand[(period - 1) as usize];
    }
    sum
}

/// Writes what is asked of each item from outside.
pub fn write_asked(parts: &Parts, list: &mut [u64])
    requires limits { IsWithinLimits (problem_of_parts parts.now) }
    requires size { length list.now ≡ item_count (problem_of_parts parts.now) }
    ensures size { length list.new ≡ length list.old }
    ensures each { AreOf (problem_of_parts parts.now) (most_asked (problem_of_parts parts.now))
        list.new }
{
    for item in 1..parts.items.len() as u32 + 1 {
        let data = &parts.items[(item - 1) as usize];
        list[(item - 1) as usize] = most_asked(data, parts.periods);
    }
}

/// Writes what is there of each item.
pub fn write_there(parts: &Parts, list: &mut [u64])
    requires few { item_count (problem_of_parts parts.now) ≤ MAX_ITEMS }
    requires size { length list.now ≡ item_count (problem_of_parts parts.now) }
    ensures size { length list.new ≡ length list.old }
    ensures each { AreOf (problem_of_parts parts.now) (there_of (problem_of_parts parts.now))
        list.new }
{
    for item in 1..parts.items.len() as u32 + 1 {
        let data = &parts.items[(item - 1) as usize];
        list[(item - 1) as usize] = data.opening;
    }
}

/// Room for a number of each item.
pub fn no_numbers(alloc: Global, items: u32) -> Result<Vec<u64>, AllocError>
    requires { items ≤ MAX_ITEMS }
    ensures { IfOk result (λ list. length list.items ≡ items) }
{
    let mut list = Vec::with_capacity(alloc, items as usize)?;
    for _ in 0..items {
        list.push(0u64)?;
    }
    Ok(list)
}
