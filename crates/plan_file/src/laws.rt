// Laws of plan files, each the contract of a function that does nothing.
ghost use Rattle.plan_file.specs.Laws.{PlanTextsAreShort, RecordsMeanOneThing};

/// No records mean two things: a plan is meant exactly where there is no fault, up to what no record says, and
/// of the faults the first alone is.
pub fn records_mean_one_thing()
    ensures { RecordsMeanOneThing }
{}

/// The text of a plan has at most `MAX_FILE` bytes, for each problem within the limits and each plan
/// whose numbers fit 64 bits.
pub fn plan_texts_are_short()
    ensures { PlanTextsAreShort }
{}
