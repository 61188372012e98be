// Laws of runs.
ghost use Rattle.lotplan.specs.Laws.{StatusesAreOne, StatusesExist};
ghost use Rattle.lotplan.specs.Scheduling.{SchedulesAreDecided};

use answers_exist::{bounds_come_out, certificates_come_out, plans_are_held, texts_come_out};
use bill::totals_exist;
use cert_checker::certified_is_not_refused;
use certificate::texts_mean_one_thing;
use existence::{
    bytes_mean_something, plans_are_decided, plans_are_judged, records_mean_something,
};
use frozen_start::rests_decide;
use lot_model::{a_model_means_one_thing, a_model_means_something};
use lot_schedule::{
    records_mean_one_thing, records_mean_slots, same_plans_same_schedules, slots_are_judged,
};
use lp_bounds::base_bounds_are_one;

/// No words and files call for two statuses, but for `plan` and `replan` where the search may leave a coupled model open, and for
/// `bound` where a number of the exact run doesn't fit 128 bits: one of the two is `UNDECIDED` then.
pub fn statuses_are_one()
    ensures { StatusesAreOne }
{
    totals_exist();
    texts_mean_one_thing();
    certified_is_not_refused();
    base_bounds_are_one();
    same_plans_same_schedules();
    rests_decide();
    a_model_means_one_thing();
}

// Bytes are a schedule of a plan, or they aren't.
fn schedules_are_decided()
    ensures { SchedulesAreDecided }
{
    records_mean_one_thing();
    records_mean_slots();
    slots_are_judged();
}

/// All words and files call for some status.
pub fn statuses_exist()
    ensures { StatusesExist }
{
    totals_exist();
    bytes_mean_something();
    records_mean_something();
    plans_are_judged();
    plans_are_decided();
    bounds_come_out();
    texts_come_out();
    certificates_come_out();
    plans_are_held();
    schedules_are_decided();
    a_model_means_something();
}
