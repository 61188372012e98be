// Laws of runs.
ghost use Rattle.tableau.specs.Laws.{DictionariesAreKept, OutcomesAreOne, RunsAreOne, SmallNumbersFit, StopsExactly};
ghost use Rattle.tableau.specs.Leaves.{AllLeavesProve};
ghost use Rattle.tableau.specs.Denominators.{AllLeavesAreOne};
ghost use Rattle.tableau.specs.Proves.{AllOutcomesProve};

/// Each dictionary says what its program says and has no negative reduced cost, by whatever rule pivots are chosen, if
/// only they take a column of positive coefficient and least ratio.
pub fn dictionaries_are_kept()
    ensures { DictionariesAreKept }
{}

/// A run is never `Passed` while the numerators and denominators of all cells are below 2^31.
pub fn small_numbers_fit()
    ensures { SmallNumbersFit }
{}

/// No two dictionaries come after the same number of pivots.
pub fn runs_are_one()
    ensures { RunsAreOne }
{}

/// Where a run has made all its pivots and would make another, its outcome is `Stopped` and no other.
pub fn stops_exactly()
    ensures { StopsExactly }
{}

/// A run has one outcome: the same point, multipliers and value, or the pivot before which something didn't fit.
pub fn outcomes_are_one()
    ensures { OutcomesAreOne }
{}

/// Multipliers times their least common denominator, which are whole, prove what the multipliers prove.
pub fn leaves_prove()
    ensures { AllLeavesProve }
{}

/// Fractions have one least common denominator, and one numerator each over it.
pub fn leaves_are_one()
    ensures { AllLeavesAreOne }
{}

/// No point that meets all rows costs less than the value that a point and multipliers give, and multipliers that leave
/// no point leave none: weak duality.
pub fn outcomes_prove()
    ensures { AllOutcomesProve }
{}
