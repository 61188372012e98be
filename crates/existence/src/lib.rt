//! Laws of existence: bytes and records mean something, each plan is judged, and each problem has a feasible plan or none.
//!
//! Family: plans. It stands on `instance_reader`, `plan_rules` and `plan_file`, and for runs on `tableau` and
//! `least_index`; `answers_exist` and `lotplan` stand on it.
//!
//! Beside the laws by which nothing has two answers, these say that each has one. So what bytes mean and what is
//! found of a plan are functions, though the definitions are relations. Others say when a model is accepted, and that
//! exact runs come to something; the law of runs stands on `tableau` and `least_index`.
#![tactic(auto)]

ghost use Rattle.existence.specs.Plans.{GridsAreJudged, PlansAreDecided, PlansAreJudged};
ghost use Rattle.existence.specs.Readings.{BytesMeanSomething, RecordsMeanSomething};
ghost use Rattle.existence.specs.Rules.{AcceptedExactly};
ghost use Rattle.existence.specs.Runs.{RunsComeOut};

use bill::totals_exist;
use least_index::runs_are_short;
use lot_model::a_model_means_something;
use lot_sizing::{least_stocks_are_best, totals_are_bounded};

/// All bytes mean something as a model: a problem, or the first rule that they break.
pub fn bytes_mean_something()
    ensures { BytesMeanSomething }
{
    a_model_means_something();
}

/// A model as it was read means a problem exactly where it meets all rules, each a field of `MeetsRules`, and the problem
/// is the one that it stands for.
pub fn accepted_exactly()
    ensures { AcceptedExactly }
{
    totals_exist();
    a_model_means_something();
}

/// All records mean something as a plan file of a problem: a plan, or a fault that isn't out of memory.
pub fn records_mean_something()
    ensures { RecordsMeanSomething }
{}

/// Each plan, of numbers of any size, is feasible, or it isn't and has a rule that it breaks first (`plans`). So of
/// four grids something is found: a cost, another shape, or a rule that is broken first (`grids`).
pub fn plans_are_judged()
    ensures plans { PlansAreJudged }
    ensures grids { GridsAreJudged }
{}

/// A problem in which no item is its own component has a feasible plan, or no plan is feasible. The proof goes
/// through all quantities up to the largest totals and all setups.
pub fn plans_are_decided()
    ensures { PlansAreDecided }
{
    totals_exist();
    totals_are_bounded();
    least_stocks_are_best();
}

/// The exact run of each linear program by the least-index rule comes to its end, with a point that is proved best or with
/// none, or to a number that doesn't fit 128 bits.
pub fn runs_come_out()
    ensures { RunsComeOut }
{
    runs_are_short();
}
