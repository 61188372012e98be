// Laws about rows and points, each the contract of a function that does nothing.
ghost use Rattle.lin_rows.specs.Combining.{BaseColumnsExist, BaseRowsHold, PlansCost, SumsBound, SumsBoundPlans, SumsHold, SumsRefute};

use lot_sizing::totals_are_bounded;

/// In a problem in which no item is its own component, each row that the rules of plans make holds at every feasible
/// plan, of any size of number.
pub fn base_rows_hold()
    ensures { BaseRowsHold }
{
    totals_are_bounded();
}

/// The columns of each row that the rules of plans make are those of the problem, whatever the largest totals are.
pub fn base_columns_exist()
    ensures { BaseColumnsExist }
{}

/// A point at which rows hold meets each sum of multiples of them, where only equations are taken a negative
/// number of times. So terms that take each column at least as often as the sum does, once they are multiplied
/// by `den`, add there to at least the sum of the right sides over `den`. (Values are at least 0.)
pub fn sums_hold()
    ensures { SumsHold }
{}

/// What the columns of a feasible plan cost adds up to what the plan costs.
pub fn plans_cost()
    ensures { PlansCost }
{}

/// The bound of linear duality: where a sum of multiples of rows takes no column more often than `den` times
/// its cost, no point at which the rows hold costs less than the sum of the right sides over `den` (`points`),
/// and no feasible plan does (`plans`).
pub fn sums_bound()
    ensures points { SumsBound }
    ensures plans { SumsBoundPlans }
{}

/// Farkas' lemma, the part that a proof needs: where a sum of multiples of rows takes no column a positive
/// number of times and its right side is positive, there is no point at which the rows hold.
pub fn sums_refute()
    ensures { SumsRefute }
{}
