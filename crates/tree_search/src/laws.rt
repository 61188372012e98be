// Laws about the definitions, each the contract of a function that does nothing.
ghost use Rattle.tree_search.specs.Whole.{WholeIsMeasured};

/// The ranges of a whole problem, each quantity from 0 to its item's largest total and each setup from 0 to
/// 1, leave the product over items and periods of twice one more than the largest total, and their height is
/// the sum over items and periods of 1 and the binary digits of the largest total.
pub fn whole_is_measured()
    ensures { WholeIsMeasured }
{}
