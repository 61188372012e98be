// What remains to be made of an item for each period.
ghost use Rattle.std.specs.Prelude.{◌≤◌, IfOk};
ghost use Rattle.lot_sizing.specs.Problem.{item_count};
ghost use Rattle.lot_sizing.specs.Net.{net_in};
ghost use Rattle.echelon.specs.Views.{HasEach};
ghost use Rattle.plan_rules.specs.Cells.{Fits, table_of};
ghost use Rattle.own_plan.specs.OwnPeriod.{asked_with};

use lot_model::Instance;
use own_plan::needed_by;
use plan_rules::{Grid, used_up};
use std::alloc::{AllocError, Global};

/// What must be made of an item for each period: what is asked for by its demand, by these quantities of the items that it
/// goes into and by the stock required in the end, once the opening stock is used up. In units, with an entry for each period.
///
/// It takes time in the number of items times that of periods. The error is that memory ran out.
pub fn net_demands(
    alloc: Global,
    instance: &Instance,
    item: u32,
    make: &Grid,
) -> Result<Vec<u128>, AllocError>
    requires low { 1 ≤ item }
    requires high { item ≤ item_count instance.now }
    requires make { Fits instance.now make.now }
    ensures { IfOk result (λ nets.
        HasEach instance.now.periods (net_in (asked_with instance.now (table_of make.now) item))
        nets.items) }
{
    let mut list = Vec::new(alloc);
    let mut asked = 0u128;
    let mut before = 0u128;
    for period in 1..instance.periods() + 1 {
        asked += instance.demand(item, period) as u128 + used_up(instance, make, item, period);
        let needed = needed_by(instance, item, period, asked);
        list.push(needed.saturating_sub(before))?;
        before = needed;
    }
    Ok(list)
}
