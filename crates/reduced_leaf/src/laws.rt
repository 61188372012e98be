// Laws, each the contract of a function that does nothing.
ghost use Rattle.reduced_leaf.specs.Laws.{ChoicesAreOne, FaultsAreOne, FaultsExclude, KnownExists, LacksByBoth, ReducedSumBounds, ReducedSumRefutes, SumByBoth, SumsAreOne};

use late_starts::{charges_cover, on_time_is_one};
use lot_sizing::totals_are_one;
use must_start::must_start_holds;
use reduced_groups::{groups_bound, numbers_are_one, reduced_costs_bound};

/// Of every problem in which no item is its own component it is known what must have been started, what is on time and
/// what the largest lots are, so that what is said of all of them is said of some.
pub fn known_exists()
    ensures { KnownExists }
{
    on_time_is_one();
}

/// The sum of rows that hold at a feasible plan, and of groups, is at most `den` times its cost (`bound`). Where one of
/// the groups has no choice, no plan is feasible (`refute`).
pub fn reduced_sum_bounds()
    ensures bound { ReducedSumBounds }
    ensures refute { ReducedSumRefutes }
{
    groups_bound();
    reduced_costs_bound();
}

/// Rows and groups have one sum (`one`), and none where a group has no choice (`choices`). Where there is a fault, there
/// is neither a sum that is small nor a group without a choice (`faults`), nor another fault but that memory ran out
/// (`told`).
pub fn reduced_sums_are_one()
    ensures one { SumsAreOne }
    ensures choices { ChoicesAreOne }
    ensures faults { FaultsExclude }
    ensures told { FaultsAreOne }
{
    numbers_are_one();
    charges_cover();
}

/// Rows and groups have the same sum by all largest totals of a problem (`sum`), and a group has no choice by all of
/// them or by none (`lacks`).
pub fn reduced_by_both()
    ensures sum { SumByBoth }
    ensures lacks { LacksByBoth }
{
    totals_are_one();
}
