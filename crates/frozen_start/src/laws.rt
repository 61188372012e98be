// Laws about replanning, each the contract of a function that does nothing.
ghost use Rattle.frozen_start.specs.Laws.{AgreeingPlansCut, BestGoOn, FloorsGoOn, JoinsAreFeasible, LeastsAreSigned, NoneAgrees, RestOfAllIsItself, RestsStayUncoupled, StartsAreNeeded, ThereIsOneRest};
ghost use Rattle.frozen_start.specs.Worked.{AreWorked};

use lot_sizing::least_stocks_are_best;

/// A start that stands and a feasible plan of the rest make a feasible plan, which costs what is spent
/// and what the rest's plan costs.
pub fn joins_are_feasible()
    ensures { JoinsAreFeasible }
{}

/// Where a feasible plan agrees with the start, the start stands, and the later periods of the plan,
/// with the least stocks and backlogs, are a feasible plan of the rest that costs no more.
pub fn cuts_are_feasible()
    ensures { AgreeingPlansCut }
{
    least_stocks_are_best();
}

/// What holds of all plans of the rest holds of all plans that agree with the start.
pub fn rests_decide()
    ensures starts { StartsAreNeeded }
    ensures none { NoneAgrees }
    ensures floors { FloorsGoOn }
    ensures best { BestGoOn }
    ensures one { ThereIsOneRest }
{
    least_stocks_are_best();
}

/// The numbers of the rest in signed words, and what stays.
pub fn rests_keep()
    ensures signed { LeastsAreSigned }
    ensures uncoupled { RestsStayUncoupled }
    ensures whole { RestOfAllIsItself }
{}

/// What the definitions give of starts that were worked out by hand.
pub fn worked_starts()
    ensures { AreWorked }
{}
