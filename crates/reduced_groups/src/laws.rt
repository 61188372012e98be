// Laws, each the contract of a function that does nothing.
ghost use Rattle.reduced_groups.specs.Laws.{ApartByBoth, ChoicesByBoth, GroupsBound, GroupsRefute, KnownAreAlike, NumbersAreChoices, NumbersAreOne, NumbersByBoth, ReducedCostsBound, RowsAndGroupsBound, WorkByBoth};

use late_starts::{charges_cover, late_items_bound, late_starts_hold, on_time_is_one};
use lin_rows::sums_bound;
use must_start::{lots_hold, must_start_holds};

/// In every problem whose items have a ranking: the numbers of groups that lie apart, and whose shares charge no more
/// than its price on any backlog, add to no more than what all columns of a feasible plan cost, at any prices
/// (`bound`). Where one of the groups has no choice, no plan is feasible (`refute`).
pub fn groups_bound()
    ensures bound { GroupsBound }
    ensures refute { GroupsRefute }
{
    must_start_holds();
    lots_hold();
    late_starts_hold();
    late_items_bound();
    charges_cover();
}

/// Where no reduced cost is below 0, and the rows hold at a feasible plan, `den` times its cost is at least what the
/// right sides add to and all its columns at their reduced costs (`costs`), and at least what the right sides and the
/// numbers of groups add to that lie apart (`groups`).
pub fn reduced_costs_bound()
    ensures costs { ReducedCostsBound }
    ensures groups { RowsAndGroupsBound }
{
    sums_bound();
    groups_bound();
}

/// Groups have one list of numbers (`one`), and none where one of them has no choice (`choices`). Whichever tables are
/// taken of what must have been started, of what is on time and of the largest lots (`known`), groups lie apart by all
/// of them or by none (`apart`), have the same numbers (`both`), have no choice by all of them or by none (`none`), and
/// are within the limits of work by all of them or by none (`work`).
pub fn numbers_are_one()
    ensures one { NumbersAreOne }
    ensures choices { NumbersAreChoices }
    ensures known { KnownAreAlike }
    ensures apart { ApartByBoth }
    ensures both { NumbersByBoth }
    ensures none { ChoicesByBoth }
    ensures work { WorkByBoth }
{
    must_start_holds();
    on_time_is_one();
    charges_cover();
}
