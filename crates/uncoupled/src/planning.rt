// Plans of uncoupled instances, item by item.
ghost use Rattle.std.specs.Prelude.{◌≡◌, ◌≤◌, ◌+◌, IfOk, IfSome, OnOk, option_map};
ghost use Rattle.lot_sizing.specs.Problem.{IsSeries, IsUncoupled, item_count};
ghost use Rattle.lot_sizing.specs.declared.limits.TheConstants.{MAX_AMOUNT};
ghost use Rattle.uncoupled.specs.Rows.{AreBestBefore};
ghost use Rattle.uncoupled.specs.Floors.{AreAllPlanned, ProvesBest};
ghost use Rattle.uncoupled.specs.Items.{ArePlanned};

use crate::lots::set_lots;
use crate::room::first_without_room;
use lin_rows::Potentials;
use lot_model::Instance;
use plan_rules::{Grid, Plan, complete_at_cost};
use std::alloc::{AllocError, Global};

/// A best plan, made item by item, and what proves it.
#[derive(Debug, Drop)]
pub struct ItemPlans {
    /// The plan.
    pub plan: Plan,
    /// What it costs, in money.
    pub cost: u128,
    /// For each item, in their order, its own costs and the potentials of its positions. The last
    /// potential and the holding of what is left of the opening stock is what the item costs.
    pub potentials: Vec<Potentials>,
}

/// What planning each item by itself comes to.
#[derive(Debug, Drop)]
pub enum PlannedItems {
    /// There is a best plan.
    Best(ItemPlans),
    /// No plan is feasible: what is left of this item's opening stock, once all demand is served, has
    /// no room in the end. It is the first such item.
    NoRoom(u32),
}

// The costs of owing a unit, by period, and zeros where no backlog is allowed.
fn owing_costs(alloc: Global, periods: u32, costs: Option<Vec<u64>>) -> Result<Vec<u64>, AllocError>
    requires { IfSome (option_map (λ v. v.items) costs) (IsSeries periods MAX_AMOUNT) }
    ensures own { IfOk result (λ list.
        IfSome (option_map (λ v. v.items) costs) (λ own. list.items ≡ own)) }
    ensures series { IfOk result (λ list. IsSeries periods MAX_AMOUNT list.items) }
{
    match costs {
        Some(costs) => Ok(costs),
        None => vec![in alloc; 0u64; periods as usize],
    }
}

// Puts the lots and setups of a cheapest net plan in the row of an item, and gives its costs and the
// potentials that prove that no net plan is cheaper.
fn plan_item(
    alloc: Global,
    instance: &Instance,
    item: u32,
    make: &mut Grid,
    setup: &mut Grid,
) -> Result<Potentials, AllocError>
    requires low { 1 ≤ item }
    requires high { item ≤ item_count instance.now }
    requires uncoupled { IsUncoupled instance.now }
    requires before { AreBestBefore instance.now make.old setup.old item }
    ensures rows { OnOk result (AreBestBefore instance.now make.new setup.new (item + 1)) }
    ensures proves { IfOk result (ProvesBest instance.now item) }
{
    let single = echelon::single_of(alloc, instance, item)?;
    let found = backlog_dp::solve(alloc, &single)?;
    let positions = echelon::positions(alloc, &single)?;
    lot_sizing::blocks_serve();
    set_lots(&single, &positions, &found.blocks, item, make, setup);
    let back = owing_costs(alloc, instance.periods(), single.back)?;
    Ok(Potentials {
        setup: single.setup,
        unit: single.unit,
        hold: single.hold,
        back,
        steps: found.potentials,
    })
}

// The quantities and setups of a plan, and for each item what proves its own.
#[derive(Drop)]
struct Lots {
    make: Grid,
    setup: Grid,
    potentials: Vec<Potentials>,
}

// The lots and setups of a cheapest net plan of each item.
fn cheapest_lots(alloc: Global, instance: &Instance) -> Result<Lots, AllocError>
    requires uncoupled { IsUncoupled instance.now }
    ensures { IfOk result (λ lots.
        AreAllPlanned instance.now lots.make lots.setup lots.potentials.items) }
{
    let mut make = Grid::filled(alloc, instance.items(), instance.periods(), 0)?;
    let mut setup = Grid::filled(alloc, instance.items(), instance.periods(), 0)?;
    let mut potentials = Vec::with_capacity(alloc, instance.items() as usize)?;
    for item in 1..instance.items() + 1 {
        let proved = plan_item(alloc, instance, item, &mut make, &mut setup)?;
        potentials.push(proved)?;
    }
    Ok(Lots {
        make,
        setup,
        potentials,
    })
}

/// Plans each item of an uncoupled instance by itself: a best plan with the lists that prove it, or the
/// first item without room, where no plan is feasible.
///
/// Items without room are found before memory is taken. It takes time in the number of items times the
/// square of that of periods. The error is that memory ran out.
pub fn plan_items(alloc: Global, instance: &Instance) -> Result<PlannedItems, AllocError>
    requires { IsUncoupled instance.now }
    ensures { IfOk result (ArePlanned instance.now) }
{
    if let Some(item) = first_without_room(instance) {
        return Ok(PlannedItems::NoRoom(item));
    }
    let Lots {
        make,
        setup,
        potentials,
    } = cheapest_lots(alloc, instance)?;
    lot_sizing::room_decides();
    lot_sizing::items_are_best_apart();
    lot_sizing::costs_apart();
    let found = complete_at_cost(alloc, instance, make, setup)?;
    // With room for all items, their net plans make a feasible plan.
    let Some(planned) = found else {
        unreachable!();
    };
    Ok(PlannedItems::Best(ItemPlans {
        plan: planned.plan,
        cost: planned.cost,
        potentials,
    }))
}
