// Laws about split trees, each the contract of a function that does nothing.
ghost use Rattle.cert_trees.specs.Laws.{BoundsAreMet, FeasibleLieAtOneLeaf, LeavesAreOpen, LiesWhereMet, NumbersAreLeft, OneLeafForEach, PlansAreWithin, PlansLieAtOneLeaf, RangesAreLeft, TreesAreOdd, WholeAreOpen};

/// Values meet a bound exactly where they are within it as a point of whole numbers, so where its row holds.
pub fn bounds_are_met()
    ensures { BoundsAreMet }
{}

/// What a path leaves of ranges. A number is in what it leaves of a column's range exactly where it is in the
/// range and meets each bound of the path on the column (`numbers`). A plan is within what it leaves exactly
/// where it is within the ranges and meets all bounds of the path, which are on quantities and setups
/// (`plans`).
pub fn ranges_are_left()
    ensures numbers { NumbersAreLeft }
    ensures plans { RangesAreLeft }
{}

/// Every choice of values lies at exactly one leaf of a tree (`one`): it meets all bounds of the path to it
/// (`lies`).
pub fn one_leaf_for_each()
    ensures one { OneLeafForEach }
    ensures lies { LiesWhereMet }
{}

/// A split tree leaves no empty range at any leaf, where no range from which it starts is empty (`leaves`); no
/// whole range is (`whole`).
pub fn leaves_are_open()
    ensures leaves { LeavesAreOpen }
    ensures whole { WholeAreOpen }
{}

/// A tree has one leaf more than it has branches, and one path to each leaf.
pub fn trees_are_odd()
    ensures { TreesAreOdd }
{}

/// Every feasible plan is within the whole ranges: it makes no more of an item in a period than the item's
/// largest total, and no more than one setup.
pub fn plans_are_within()
    ensures { PlansAreWithin }
{}

/// Every plan within the ranges from which a split tree starts is within the ranges of exactly one leaf
/// (`within`); so is every feasible plan, where it starts from the whole ranges (`feasible`).
pub fn plans_lie_at_one_leaf()
    ensures within { PlansLieAtOneLeaf }
    ensures feasible { FeasibleLieAtOneLeaf }
{}
