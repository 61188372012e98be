// Laws of runs by the least-index rule, each the contract of a function that does nothing.
ghost use Rattle.least_index.specs.Laws.{BasesHaveOneDictionary, EndsAreOutcomes, NoBasisComesTwice, RunsAreShort};

use tableau::{dictionaries_are_kept, outcomes_are_one};

/// Dictionaries of a program have the same number for each basic and nonbasic variable where the same variables are
/// basic.
pub fn bases_have_one_dictionary()
    ensures { BasesHaveOneDictionary }
{}

/// A run never meets one basis twice: after one pivot or more, the variables that are basic are others.
pub fn no_basis_comes_twice()
    ensures { NoBasisComesTwice }
{
    dictionaries_are_kept();
}

/// A run has fewer pivots than 2 to the number of variables, which are columns and slacks.
pub fn runs_are_short()
    ensures { RunsAreShort }
{
    dictionaries_are_kept();
}

/// What `Lp::solve` gives is `Stopped`, or the same outcome as that of `solve_to_end`.
pub fn ends_are_outcomes()
    ensures { EndsAreOutcomes }
{
    outcomes_are_one();
}
