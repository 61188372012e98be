// Laws about the definitions, each the contract of a function that does nothing.
ghost use Rattle.std.specs.Prelude.{◌≤◌};
ghost use Rattle.lot_sizing.specs.Laws.{BlocksServe, BoundsTotals, CostsApart, EchelonsBalance, ItemsAreBestApart, KeepsLeast, LastPotentialIsFloor, NetIsWithinTotals, PlansHaveRoom, RoomIsEnough, TotalsAreOne, WeightsAreOne};

/// Every feasible plan makes at most the largest total of each item, in a problem whose items have a
/// ranking: no item is its own component, over any number of bill lines.
pub fn totals_are_bounded()
    ensures { BoundsTotals }
{}

/// Of the feasible plans with given quantities and setups, the one with the least stocks and
/// backlogs is feasible, has the least of each, and costs the least.
pub fn least_stocks_are_best()
    ensures { KeepsLeast }
{}

/// Potentials that rise over any block by no more than the block costs end in a number that no net
/// plan costs less than.
pub fn last_potential_is_floor()
    ensures { LastPotentialIsFloor }
{}

/// Blocks that cover all positions give a net plan that serves what is asked for, no more, and costs
/// no more than the blocks.
pub fn blocks_serve()
    ensures { BlocksServe }
{}

/// In a problem without coupling, lead times and bounds on lots, net plans of least cost for each item
/// by itself, with the least stocks and backlogs, cost no more than any feasible plan.
pub fn items_are_best_apart()
    ensures { ItemsAreBestApart }
{}

/// A feasible plan exists, in such a problem, exactly where for each item the opening stock is at
/// most all demand and the largest end stock: where one exists there is this room (`plans`), and with
/// it the least stocks and backlogs of net plans for each item are feasible (`room`).
pub fn room_decides()
    ensures plans { PlansHaveRoom }
    ensures room { RoomIsEnough }
{}

/// In such a problem, the least stocks and backlogs of net plans cost, for each item, what its net plan
/// costs and the holding of what is left of its opening stock.
pub fn costs_apart()
    ensures { CostsApart }
{}

/// In every feasible plan of a problem without an item that is its own component, the echelon of a
/// lead-free item balances: what the item and all items that it goes into have of it.
pub fn echelons_balance()
    ensures { EchelonsBalance }
{}

/// What must be made of an item for its echelon, once the opening stocks are used up, is at most the
/// item's largest total.
pub fn net_is_within_totals()
    ensures { NetIsWithinTotals }
{}

/// Where no item is its own component, each item has one largest total.
pub fn totals_are_one()
    ensures { TotalsAreOne }
{}

/// Where no item is its own component, each item has one weight in each other.
pub fn weights_are_one()
    ensures { WeightsAreOne }
{}
