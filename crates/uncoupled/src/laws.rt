// Laws about certificates of plans that are made item by item, each the contract of a function that does nothing.
ghost use Rattle.uncoupled.specs.Blocks.{BlockLeavesAreCertified, EchelonsAreItems};

use cert_trees::plans_are_within;

/// Without coupling the echelon of an item asks for what the item itself is asked for: the item counts once in it, and
/// no other item does.
pub fn echelons_are_items()
    ensures { EchelonsAreItems }
{}

/// The certificate that a plan of an uncoupled problem is best is accepted, and its sums stay small: it has a block
/// cut of each item, by the item's own costs, and one leaf, which takes each cut once. It needs potentials whose
/// floors add to what the plan costs.
pub fn block_leaves_are_certified()
    ensures { BlockLeavesAreCertified }
{
    echelons_are_items();
    plans_are_within();
}
