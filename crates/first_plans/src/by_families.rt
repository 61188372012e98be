// Plans that are improved by one family of items after the other.
ghost use Rattle.std.specs.Prelude.{IfOk, IfSome, OnOk};
ghost use Rattle.plan_rules.specs.Rows.{IfFound};
ghost use Rattle.first_plans.specs.Families.{AreLots};
ghost use Rattle.first_plans.specs.Made.{IsMade, IsNoDearer};

use crate::families::{Families, Family, Lots, family_alone, give_rows, take_rows};
use crate::improving::{Improving, improved_so};
use crate::kicks::kicked;
use heur_items::copy_grid;
use lot_model::Instance;
use plan_rules::{Grid, Planned, complete_at_cost};
use std::alloc::{AllocError, Global};
use work_clock::Deadline;

// The most times that all families are improved.
const ROUNDS: u32 = 6;

// What building plans of families may take in all: so many plans of a single item and period, each of which is compared with
// the other items and periods.
const FAMILY_WORK: u64 = 800_000_000;

// How often a family is improved once more, each time after some changes of its setups.
const FAMILY_KICKS: u32 = 40;

// The most items times periods of a family of which that is done. A larger one takes too long for what it gains.
const KICKED_CELLS: u32 = 100;

// How often that is done: never with an item alone, for which the recursion finds the best lots.
fn kicks_of(alone: &Instance) -> u32 {
    let small = alone.items() * alone.periods() <= KICKED_CELLS;
    if alone.items() > 1 && small {
        FAMILY_KICKS
    } else {
        0
    }
}

// What a plan takes to be built.
fn size_of(instance: &Instance) -> u64 {
    let (items, periods) = (u64::from(instance.items()), u64::from(instance.periods()));
    items * periods * (items + periods)
}

/// How many plans may be built within so much work.
pub(crate) fn tries_within(instance: &Instance, work: u64) -> u32 {
    u32::try_from(work / size_of(instance).max(1)).unwrap_or(u32::MAX)
}

// The plan of a family alone.
fn own_plan(
    alloc: Global,
    instance: &Instance,
    alone: &Instance,
    family: Family<'_>,
    lots: Lots<'_>,
) -> Result<Option<Planned>, AllocError>
    ensures { IfFound result (IsMade alone.now) }
{
    let mut make = Grid::filled(alloc, alone.items(), alone.periods(), 0)?;
    let mut setup = Grid::filled(alloc, alone.items(), alone.periods(), 0)?;
    take_rows(instance, family, lots.make, &mut make);
    take_rows(instance, family, lots.setup, &mut setup);
    complete_at_cost(alloc, alone, make, setup)
}

// The plan of all items, with these lots of a family.
fn plan_with(
    alloc: Global,
    instance: &Instance,
    family: Family<'_>,
    lots: Lots<'_>,
    own: Lots<'_>,
) -> Result<Option<Planned>, AllocError>
    requires lots { AreLots instance.now lots }
    ensures { IfFound result (IsMade instance.now) }
{
    let mut make = Grid::filled(alloc, instance.items(), instance.periods(), 0)?;
    let mut setup = Grid::filled(alloc, instance.items(), instance.periods(), 0)?;
    copy_grid(instance, lots.make, &mut make);
    copy_grid(instance, lots.setup, &mut setup);
    give_rows(instance, family, own.make, &mut make);
    give_rows(instance, family, own.setup, &mut setup);
    complete_at_cost(alloc, instance, make, setup)
}

// A plan, where one was found, and the work that is left.
#[derive(Drop)]
struct Tried {
    found: Option<Planned>,
    work: u64,
}

// The plan with the improved lots of a family, under the time that the others leave.
fn try_family(
    alloc: Global,
    instance: &Instance,
    family: Family<'_>,
    lots: Lots<'_>,
    work: u64,
    until: Deadline,
) -> Result<Tried, AllocError>
    requires lots { AreLots instance.now lots }
    ensures { IfOk result (λ tried. IfSome tried.found (IsMade instance.now)) }
{
    let none = Tried { found: None, work };
    let Some(alone) = family_alone(alloc, instance, family, lots)? else {
        return Ok(none);
    };
    let Some(start) = own_plan(alloc, instance, &alone, family, lots)? else {
        return Ok(none);
    };
    let tries = tries_within(&alone, work);
    let Improving {
        best,
        tries: left,
        ..
    } = improved_so(alloc, &alone, start, tries, until)?;
    let used = u64::from(tries.saturating_sub(left));
    let best = kicked(alloc, &alone, best, kicks_of(&alone), 0, until)?;
    let own = Lots {
        make: &best.plan.make,
        setup: &best.plan.setup,
    };
    Ok(Tried {
        found: plan_with(alloc, instance, family, lots, own)?,
        work: work.saturating_sub(used.saturating_mul(size_of(&alone))),
    })
}

// Improves the lots of a family, and gives the work that is left.
fn improve_family(
    alloc: Global,
    instance: &Instance,
    family: Family<'_>,
    best: &mut Planned,
    work: u64,
    until: Deadline,
) -> Result<u64, AllocError>
    requires made { IsMade instance.now best.old }
    ensures { OnOk result (IsNoDearer instance.now best.old best.new) }
{
    let lots = Lots {
        make: &best.plan.make,
        setup: &best.plan.setup,
    };
    let Tried { found, work } = try_family(alloc, instance, family, lots, work, until)?;
    if let Some(planned) = found {
        if planned.cost < best.cost {
            *best = planned;
        }
    }
    Ok(work)
}

// Improves all families, one after the other until it is time to end, and gives the work that is left.
fn improve_all(
    alloc: Global,
    instance: &Instance,
    families: &Families,
    best: &mut Planned,
    work: u64,
    until: Deadline,
) -> Result<u64, AllocError>
    requires made { IsMade instance.now best.old }
    ensures { OnOk result (IsNoDearer instance.now best.old best.new) }
{
    let mut left = work;
    for least in 1..instance.items() + 1 {
        let family = Family { families, least };
        if left > 0 && family.has(least) && !until.is_past() {
            left = improve_family(alloc, instance, family, best, left, until)?;
        }
    }
    Ok(left)
}

/// A feasible plan that costs no more than this one: the plan of each family of items, which lines of components tie
/// together, is improved under the time that the others leave, also after random changes of its setups, until that brings
/// nothing more, takes too long, or it is time. A model of one family stays as it is.
///
/// The error is that memory ran out; the plan is lost then.
pub fn improved_by_families(
    alloc: Global,
    instance: &Instance,
    planned: Planned,
    until: Deadline,
) -> Result<Planned, AllocError>
    requires made { IsMade instance.now planned }
    ensures { IfOk result (IsNoDearer instance.now planned) }
{
    let families = Families::of(alloc, instance)?;
    let mut best = planned;
    if families.is_one(instance) {
        return Ok(best);
    }
    let mut work = FAMILY_WORK;
    for _round in 0..ROUNDS {
        let before = best.cost;
        work = improve_all(alloc, instance, &families, &mut best, work, until)?;
        if best.cost == before {
            return Ok(best);
        }
    }
    Ok(best)
}
