// The numbers of groups, added.
ghost use Rattle.std.specs.Prelude.{◌≡◌, ◌≤◌, ◌<◌, ◌+◌, ◌^◌, pos, ◌+ℤ◌, length, map, IfErr, IfOk, IfSome, IsNone};
ghost use Rattle.std.specs.List.{All};
ghost use Rattle.must_start.specs.Rows.{IsMustStartOf, start_in};
ghost use Rattle.late_starts.specs.Rows.{IsOnTimeOf};
ghost use Rattle.reduced_groups.specs.Prices.{ArePricesFor, price_in};
ghost use Rattle.reduced_groups.specs.Floors.{AreGroupsOf, IsWithinWork, shape_of};
ghost use Rattle.reduced_leaf.specs.Found.{AreBoth, IsSumOfFloors, IsWorkFault, StopsAt};

use crate::sums::ReducedFault;
use chain_dp::ChainTables;
use item_groups::Group;
use late_starts::OnTime;
use lot_model::Instance;
use must_start::MustStart;
use reduced_groups::{Floor, FloorFault, GroupPrices, group_floor};
use std::alloc::Global;

// Two numbers added, but at most 2^128 - 1; and no choice where one has none.
fn both(one: Floor, other: Floor) -> Floor
    ensures { AreBoth one other result }
{
    match one {
        Floor::NoChoice => Floor::NoChoice,
        Floor::Least(least) => match other {
            Floor::NoChoice => Floor::NoChoice,
            Floor::Least(more) => Floor::Least(least.saturating_add(more)),
        },
    }
}

// The fault of the group at a place.
fn fault_at(place: usize, fault: FloorFault) -> ReducedFault
    ensures { IsWorkFault place fault result }
{
    match fault {
        FloorFault::Memory => ReducedFault::Memory,
        FloorFault::Price { .. }
        | FloorFault::Entries
        | FloorFault::Horizon
        | FloorFault::TooDear => ReducedFault::Work(place),
    }
}

/// The numbers of groups, added, but at most 2^128 - 1; or that one has no choice. The errors are the first group that
/// is past the limits, and that memory ran out.
pub(crate) fn floors_of(
    alloc: Global,
    instance: &Instance,
    started: &MustStart,
    on_time: &OnTime,
    prices: &GroupPrices,
    groups: &[Group],
) -> Result<Floor, ReducedFault>
    requires started { IsMustStartOf instance.now started.now }
    requires on_time { IsOnTimeOf instance.now on_time.now }
    requires prices { ArePricesFor instance.now prices.now }
    requires groups { AreGroupsOf instance.now groups.now }
    ensures floor { IfOk result
        (IsSumOfFloors instance.now (price_in prices.now) (map shape_of groups.now)) }
    ensures within { IfOk result (λ _.
        All (IsWithinWork instance.now (start_in started.now) (start_in on_time.now)
        (price_in prices.now)) (map shape_of groups.now)) }
    ensures fault { IfErr result
        (StopsAt instance.now (start_in started.now) (start_in on_time.now)
        (price_in prices.now) (map shape_of groups.now)) }
{
    let mut tables = ChainTables::new(alloc);
    let mut floor = Floor::Least(0);
    for place in 0..groups.len() {
        match group_floor(
            alloc,
            &mut tables,
            instance,
            started,
            on_time,
            prices,
            &groups[place],
        ) {
            Ok(own) => floor = both(floor, own),
            Err(fault) => return Err(fault_at(place, fault)),
        }
    }
    Ok(floor)
}
