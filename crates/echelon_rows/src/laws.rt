// Laws about the rows of echelons, each the contract of a function that does nothing.
ghost use Rattle.echelon_rows.specs.Laws.{CostRowsHold, CostTermsAreTerms, EchelonsGo, LeftIsSmall, NetIsSmall, PricedIsNet};

/// In every feasible plan in which an echelon balances, its stock and backlog, as sums over columns, go a way
/// through the periods. An echelon of `echelon_of` balances in each feasible plan.
pub fn echelons_go()
    ensures { EchelonsGo }
{}

/// The item by itself, with the prices of a row, has the echelon's net demands.
pub fn priced_is_net()
    ensures { PricedIsNet }
{}

/// Where an echelon goes a way, a row of costs holds whose right side is at most what the way costs.
pub fn cost_rows_hold()
    ensures { CostRowsHold }
{}

/// The columns of a row of costs rise, and each problem with the echelon has them.
pub fn cost_terms_are_terms()
    ensures { CostTermsAreTerms }
{}

/// The net demands of an echelon within the bounds add to at most `MAX_ASKED` (`net`), and at most this is left
/// of its opening stock in each period (`left`).
pub fn nets_are_small()
    ensures net { NetIsSmall }
    ensures left { LeftIsSmall }
{}
