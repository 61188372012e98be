// The plan that quantities and setups are completed to.
ghost use Rattle.std.specs.Prelude.{◌≡◌, length};
ghost use Rattle.plan_rules.specs.Held.{plan_of};
ghost use Rattle.plan_rules.specs.Rows.{IfFound, IfNoneFound};
ghost use Rattle.own_plan.specs.Made.{IsMade};
ghost use Rattle.node_domains.specs.Nodes.{choice_count};
ghost use Rattle.incumbent.specs.Completed.{HasLeastNumbers, IsLeastCostOfLeast, NoneHasLeast};

use lot_model::Instance;
use node_domains::least_grid;
use plan_rules::{Planned, complete_at_cost};
use std::alloc::{AllocError, Global};
use tree_search::Range;

/// A cheapest plan that has the least numbers of a list of ranges, quantities in units and setups, with its cost in money; None
/// where no feasible plan has them.
///
/// The list has a range for each quantity and each setup of the instance. The error is that memory ran out.
pub fn plan_at(
    alloc: Global,
    instance: &Instance,
    ranges: &[Range],
) -> Result<Option<Planned>, AllocError>
    requires { length ranges.now ≡ choice_count instance.now }
    ensures made { IfFound result (IsMade instance.now) }
    ensures choice { IfFound result (λ made.
        HasLeastNumbers instance.now ranges.now (plan_of made.plan)) }
    ensures least { IfFound result (λ made. IsLeastCostOfLeast instance.now ranges.now made.cost) }
    ensures none { IfNoneFound result (NoneHasLeast instance.now ranges.now) }
{
    let cells = instance.items() as usize * instance.periods() as usize;
    let make = least_grid(alloc, instance, ranges, 0)?;
    let setup = least_grid(alloc, instance, ranges, cells)?;
    complete_at_cost(alloc, instance, make, setup)
}
