// `schedcheck`: checks the schedule in a file, by the plan in another and the model in a third.
ghost use Rattle.std.specs.Prelude.{◌≡◌, ◌≤◌, ◌+◌, ◌*◌, string_bytes, IfOk};
ghost use Rattle.lot_io.specs.Outside.{OnlyReads, piece_size};
ghost use Rattle.lot_sizing.specs.Plan.{IsFeasible};
ghost use Rattle.plan_rules.specs.Held.{AllFit, plan_of};
ghost use Rattle.lotplan.specs.Meaning.{Says};
ghost use Rattle.lotplan.specs.Reading.{file_limit};
ghost use Rattle.lotplan.specs.Saying.{IsSaid};
ghost use Rattle.lotplan.specs.Scheduling.{schedcheck_meaning, SlotBytesSay, SlotFileSays, schedcheck_line, schedcheck_meant, schedcheck_status};
ghost use Rattle.lotplan.specs.Fetching.{FetchesAs};

use crate::commands::judge::{NotFeasible, read_feasible};
use crate::model_file::{ReadAnswer, Stop, read_bytes};
use crate::said::Said;
use crate::status::Status;
use lot_io::Shelf;
use lot_model::{Instance, an_instance_breaks_no_rule};
use lot_schedule::{SlotBroken, SlotFault, check_schedule, read_schedule, records_mean_one_thing};
use plan_rules::Plan;
use std::alloc::{AllocError, Global};

/// What `schedcheck` answers of a feasible plan.
#[derive(Clone, Copy, Debug, PartialEq, Eq)]
pub enum SchedcheckAnswer<'a> {
    /// The slots are a schedule of the plan.
    Accepted,
    /// The schedule file holds no slots.
    NoSlots(SlotFault),
    /// This is wrong first with its slots.
    Rejected(SlotBroken),
    /// The schedule file gave no bytes.
    NoInput(ReadAnswer<'a>),
}

impl SchedcheckAnswer<'_> {
    /// The line and the status.
    pub fn answer_line(&self, alloc: Global) -> Result<Said, AllocError>
        ensures { IfOk result (IsSaid (schedcheck_line (schedcheck_meant self.now))
            (schedcheck_status (schedcheck_meant self.now))) }
    {
        Ok(Said::of(self.line(alloc)?, self.status()))
    }

    /// The status.
    pub fn status(&self) -> Status
        ensures { result ≡ schedcheck_status (schedcheck_meant self.now) }
    {
        match self {
            SchedcheckAnswer::Accepted => Status::Done,
            SchedcheckAnswer::NoSlots(_) | SchedcheckAnswer::Rejected(_) => Status::Faulty,
            SchedcheckAnswer::NoInput(why) => why.status(),
        }
    }

    /// The line that is printed, with its line feed.
    pub fn line(&self, alloc: Global) -> Result<String, AllocError>
        ensures { IfOk result (λ line. string_bytes line
            ≡ schedcheck_line (schedcheck_meant self.now)) }
    {
        match self {
            SchedcheckAnswer::Accepted => String::from_str(alloc, "accepted schedule\n"),
            SchedcheckAnswer::NoSlots(fault) => format!(in alloc; "{fault}\n"),
            SchedcheckAnswer::Rejected(broken) => format!(in alloc; "{broken}\n"),
            SchedcheckAnswer::NoInput(why) => why.line(alloc),
        }
    }
}

// Checks the slots that bytes hold.
fn check_bytes(
    alloc: Global,
    instance: &Instance,
    given: &Plan,
    bytes: &[u8],
) -> Result<Said, AllocError>
    requires fits { AllFit instance.now given.now }
    requires feasible { IsFeasible instance.now (plan_of given.now) }
    ensures { IfOk result (SlotBytesSay instance.now (plan_of given.now) bytes.now) }
{
    an_instance_breaks_no_rule(instance);
    records_mean_one_thing();
    match read_schedule(alloc, instance, bytes) {
        Ok(slots) => match check_schedule(instance, given, &slots) {
            Ok(()) => SchedcheckAnswer::Accepted.answer_line(alloc),
            Err(broken) => SchedcheckAnswer::Rejected(broken).answer_line(alloc),
        },
        Err(SlotFault::Memory) => Err(AllocError),
        Err(fault) => SchedcheckAnswer::NoSlots(fault).answer_line(alloc),
    }
}

// Checks the schedule in a file, of a feasible plan.
fn check_file<S: Shelf>(
    alloc: Global,
    instance: &Instance,
    given: &Plan,
    file: &str,
    shelf: &mut S,
) -> Result<Said, AllocError>
    requires fits { AllFit instance.now given.now }
    requires feasible { IsFeasible instance.now (plan_of given.now) }
    ensures said { IfOk result (SlotFileSays instance.now (plan_of given.now) file.now
        (S.shown shelf.old) (S.shown shelf.new)) }
    ensures reads { OnlyReads (S.shown shelf.old) (S.shown shelf.new) }
    ensures found { IfOk result (λ said. FetchesAs said.status (S.shown shelf.old)
        (S.shown shelf.new)) }
    ensures given { (S.shown shelf.new).given
        ≤ (S.shown shelf.old).given + (file_limit + piece_size) }
{
    match read_bytes(alloc, file, shelf) {
        Ok(bytes) => check_bytes(alloc, instance, given, bytes.as_slice()),
        Err(Stop::Answered(why)) => SchedcheckAnswer::NoInput(why).answer_line(alloc),
        Err(Stop::Memory) => Err(AllocError),
    }
}

/// Checks the schedule in a file, by the plan in another and the model in a third; where the plan isn't feasible, says what `judge`
/// says.
pub fn schedcheck_files<S: Shelf>(
    alloc: Global,
    model: &str,
    plan: &str,
    file: &str,
    shelf: &mut S,
) -> Result<Said, AllocError>
    ensures said { IfOk result (Says (schedcheck_meaning model.now plan.now file.now)
        (S.shown shelf.old) (S.shown shelf.new)) }
    ensures reads { OnlyReads (S.shown shelf.old) (S.shown shelf.new) }
    ensures found { IfOk result (λ said. FetchesAs said.status (S.shown shelf.old)
        (S.shown shelf.new)) }
    ensures given { (S.shown shelf.new).given
        ≤ (S.shown shelf.old).given + 3 * (file_limit + piece_size) }
{
    match read_feasible(alloc, model, plan, shelf) {
        Ok(read) => check_file(alloc, &read.instance, &read.plan, file, shelf),
        Err(NotFeasible::Judged(answer)) => answer.answer_line(alloc),
        Err(NotFeasible::Memory) => Err(AllocError),
    }
}
