// Laws of schedules and their files, each the contract of a function that does nothing.
ghost use Rattle.lot_schedule.specs.Laws.{RecordsMeanOneThing, RecordsMeanSlots, SamePlansSameSchedules, SlotsAreJudged, SlotsAreOneThing};

/// No records mean two things: two lists of slots, slots and a fault, or two faults. So what `write_schedule` wrote
/// is read by `read_schedule` as the slots that it was given.
pub fn records_mean_one_thing()
    ensures { RecordsMeanOneThing }
{}

/// No slots are a schedule and have a fault, or have two faults.
pub fn slots_are_one_thing()
    ensures { SlotsAreOneThing }
{}

/// All records mean something as a schedule file of a problem: slots, or a fault that isn't out of memory.
pub fn records_mean_slots()
    ensures { RecordsMeanSlots }
{}

/// Slots whose resources, periods and items exist, with times of any size, are a schedule of a plan, or they aren't
/// and something is wrong with them first.
pub fn slots_are_judged()
    ensures { SlotsAreJudged }
{}

/// Whether slots are a schedule goes by the quantities and setups of a plan, at the items and periods that there are.
pub fn same_plans_same_schedules()
    ensures { SamePlansSameSchedules }
{}
