// How the time is shared. Nothing is claimed of it.
use plan_rules::Planned;
use work_clock::Deadline;

/// Plans that are made without a search have one part of the time in so many.
pub(crate) const FIRST_SHARE: u64 = 4;

// All plans before the first node have one part in so many, so that bounds have the rest.
const START_SHARE: u64 = 2;

/// When work on plans before the first node is to end: with a part of the time where there is a plan, and else with all of it.
pub(crate) fn limit(until: Deadline, best: &Option<Planned>) -> Deadline {
    match best {
        Some(_) => until.first_of(START_SHARE),
        None => until,
    }
}
