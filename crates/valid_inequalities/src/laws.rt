// Laws about the inequalities, each the contract of a function that does nothing.
ghost use Rattle.valid_inequalities.specs.Laws.{BlockHolds, LsHolds, PlansNet, PriceHolds};

use lot_sizing::last_potential_is_floor;

/// Quantities and setups of an echelon's item are a net plan of its net demands.
pub fn plans_net()
    ensures { PlansNet }
{}

/// The (l,S) inequality with the echelon's backlogs holds for each period `l` and each set `S`.
pub fn ls_holds()
    ensures { LsHolds }
{}

/// The price inequality holds for each list of prices.
pub fn price_holds()
    ensures { PriceHolds }
{
    last_potential_is_floor();
}

/// The block inequality holds for potentials that rise over any block by no more than it costs.
pub fn block_holds()
    ensures { BlockHolds }
{
    last_potential_is_floor();
}
