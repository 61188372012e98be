// `schedule`: lays the lots of the plan in a file as times on each resource, by the model in another, and writes these to a third.
ghost use Rattle.std.specs.Prelude.{◌≡◌, ◌≤◌, ◌+◌, ◌*◌, ◌∷◌, [], IfOk, OnErr};
ghost use Rattle.lot_io.specs.Outside.{Finds, OnlyReads, piece_size};
ghost use Rattle.lot_sizing.specs.Plan.{IsFeasible};
ghost use Rattle.plan_rules.specs.Held.{AllFit, plan_of};
ghost use Rattle.lotplan.specs.Meaning.{Says};
ghost use Rattle.lotplan.specs.Extracting.{extract_meaning, GivenSays};
ghost use Rattle.lotplan.specs.Reading.{file_limit};
ghost use Rattle.lotplan.specs.Scheduling.{Laid, scheduled_word};
ghost use Rattle.lotplan.specs.Fetching.{FetchesAs};
ghost use Rattle.lotplan.specs.Writing.{AppendsAs};

use crate::commands::judge::{NotFeasible, read_feasible};
use crate::extract::write_extract;
use crate::said::Said;
use lot_io::Shelf;
use lot_model::Instance;
use lot_schedule::{schedule, write_schedule};
use plan_rules::Plan;
use std::alloc::{AllocError, Global};

// Lays a feasible plan and writes its schedule. All memory is taken before the file is started.
fn write_laid<S: Shelf>(
    alloc: Global,
    instance: &Instance,
    given: &Plan,
    file: &str,
    shelf: &mut S,
) -> Result<Said, AllocError>
    requires fits { AllFit instance.now given.now }
    requires feasible { IsFeasible instance.now (plan_of given.now) }
    ensures said { IfOk result (GivenSays (Laid file.now) scheduled_word instance.now
        (plan_of given.now) file.now (S.shown shelf.old) (S.shown shelf.new)) }
    ensures memory { OnErr result (S.shown shelf.new ≡ S.shown shelf.old) }
    ensures found { Finds (S.shown shelf.old) (S.shown shelf.new) }
    ensures appended { IfOk result (λ said. AppendsAs (file.now ∷ []) said.status
        (S.shown shelf.old) (S.shown shelf.new)) }
    ensures given { (S.shown shelf.new).given ≡ (S.shown shelf.old).given }
{
    let slots = schedule(alloc, instance, given)?;
    let bytes = write_schedule(alloc, instance, &slots)?;
    write_extract(
        alloc,
        "scheduled",
        slots.len() as u64,
        file,
        bytes.as_slice(),
        shelf,
    )
}

/// Lays the plan in a file, by the model in another, and writes its schedule to a third; where it isn't feasible, says what `judge`
/// says.
pub fn schedule_files<S: Shelf>(
    alloc: Global,
    model: &str,
    plan: &str,
    file: &str,
    shelf: &mut S,
) -> Result<Said, AllocError>
    ensures said { IfOk result (Says (extract_meaning
        (Laid file.now) scheduled_word model.now plan.now file.now) (S.shown shelf.old)
        (S.shown shelf.new)) }
    ensures memory { OnErr result (OnlyReads (S.shown shelf.old) (S.shown shelf.new)) }
    ensures found { IfOk result (λ said. FetchesAs said.status (S.shown shelf.old)
        (S.shown shelf.new)) }
    ensures appended { IfOk result (λ said. AppendsAs (file.now ∷ []) said.status
        (S.shown shelf.old) (S.shown shelf.new)) }
    ensures given { (S.shown shelf.new).given
        ≤ (S.shown shelf.old).given + 2 * (file_limit + piece_size) }
{
    match read_feasible(alloc, model, plan, shelf) {
        Ok(read) => write_laid(alloc, &read.instance, &read.plan, file, shelf),
        Err(NotFeasible::Judged(answer)) => answer.answer_line(alloc),
        Err(NotFeasible::Memory) => Err(AllocError),
    }
}
