// The supplies and needs of each item, in order.
ghost use Rattle.std.specs.Prelude.{◌≡◌, ◌++◌, IfOk, OnOk};
ghost use Rattle.pegging.specs.Pegs.{supplies, targets, targets_in};

use crate::{Supply, Target};
use lot_model::Instance;
use std::alloc::{AllocError, Global};

// The supplies, in order.
#[tactic(auto, using(crate::proofs::Ranges::range_more))]
pub fn supplies(alloc: Global, instance: &Instance) -> Result<Vec<Supply>, AllocError>
    ensures { IfOk result (λ list. list.items ≡ supplies instance.now) }
{
    let mut list = Vec::new(alloc);
    list.push(Supply::Opening)?;
    for period in 1..instance.periods() + 1 {
        list.push(Supply::Lot(period))?;
    }
    Ok(list)
}

// Adds the needs of a period, in order.
#[tactic(auto, using(crate::proofs::Ranges::range_more))]
fn add_targets(list: &mut Vec<Target>, instance: &Instance, period: u32) -> Result<(), AllocError>
    ensures { OnOk result (list.new.items ≡ list.old.items ++ targets_in instance.now period) }
{
    list.push(Target::Demand(period))?;
    for item in 1..instance.items() + 1 {
        list.push(Target::Part { item, period })?;
    }
    Ok(())
}

// The needs, in order.
#[tactic(auto, using(crate::proofs::Ranges::flat_range_more))]
pub fn targets(alloc: Global, instance: &Instance) -> Result<Vec<Target>, AllocError>
    ensures { IfOk result (λ list. list.items ≡ targets instance.now) }
{
    let mut list = Vec::new(alloc);
    for period in 1..instance.periods() + 1 {
        add_targets(&mut list, instance, period)?;
    }
    list.push(Target::End)?;
    Ok(list)
}
