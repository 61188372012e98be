// Plans of uncoupled instances, with their certificates.
ghost use Rattle.std.specs.Prelude.{IfOk};
ghost use Rattle.lot_sizing.specs.Problem.{IsUncoupled};
ghost use Rattle.uncoupled.specs.Items.{AreBestPlans, HasNoRoom};
ghost use Rattle.search_result.specs.Found.{IsDecidedAlone, IsProved};

use crate::blocks::blocks_certificate;
use crate::no_room::no_room_certificate;
use crate::planning::{ItemPlans, PlannedItems, plan_items};
use crate::{block_leaves_are_certified, no_room_is_certified};
use lot_model::{Instance, an_instance_breaks_no_rule};
use lot_sizing::room_decides;
use search_result::{Found, RootSays};
use std::alloc::{AllocError, Global};

// A best plan with its certificate, whose only node is a leaf.
fn best_found(alloc: Global, instance: &Instance, plans: ItemPlans) -> Result<Found, AllocError>
    requires uncoupled { IsUncoupled instance.now }
    requires best { AreBestPlans instance.now plans }
    ensures proved { IfOk result (IsProved instance.now) }
    ensures decided { IfOk result IsDecidedAlone }
{
    block_leaves_are_certified();
    an_instance_breaks_no_rule(instance);
    let ItemPlans {
        plan,
        cost,
        potentials,
    } = plans;
    Ok(Found {
        certificate: blocks_certificate(alloc, cost, potentials)?,
        plan: Some(plan),
        root: RootSays::Uncoupled,
        nodes: 1,
    })
}

// The certificate that no plan is feasible, whose only node is a leaf.
fn none_found(alloc: Global, instance: &Instance, item: u32) -> Result<Found, AllocError>
    requires uncoupled { IsUncoupled instance.now }
    requires no_room { HasNoRoom instance.now item }
    ensures proved { IfOk result (IsProved instance.now) }
    ensures decided { IfOk result IsDecidedAlone }
{
    no_room_is_certified();
    room_decides();
    an_instance_breaks_no_rule(instance);
    Ok(Found {
        certificate: no_room_certificate(alloc, instance, item)?,
        plan: None,
        root: RootSays::Uncoupled,
        nodes: 1,
    })
}

/// Plans an uncoupled instance, and proves the plan.
///
/// The certificate is of `FIRST_CERT_VERSION` and has one node. Where there is a plan, it claims that the plan's cost, in money,
/// is optimal; where an item has no room for what is left of its opening stock, that no plan is feasible. `cert_checker`
/// accepts it with the plan (`proved`). The error is that memory ran out.
///
/// It takes time in the number of items times the square of that of periods, and memory in the size of the plan.
pub fn plan_uncoupled(alloc: Global, instance: &Instance) -> Result<Found, AllocError>
    requires { IsUncoupled instance.now }
    ensures proved { IfOk result (IsProved instance.now) }
    ensures decided { IfOk result IsDecidedAlone }
{
    match plan_items(alloc, instance)? {
        PlannedItems::Best(plans) => best_found(alloc, instance, plans),
        PlannedItems::NoRoom(item) => none_found(alloc, instance, item),
    }
}
