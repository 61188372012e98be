// `peg`: finds which supply of the plan in a file serves which need, by the model in another, and writes that to a third.
ghost use Rattle.std.specs.Prelude.{◌≡◌, ◌≤◌, ◌+◌, ◌*◌, ◌∷◌, [], IfOk, OnErr};
ghost use Rattle.lot_io.specs.Outside.{Finds, OnlyReads, piece_size};
ghost use Rattle.lot_sizing.specs.Plan.{IsFeasible};
ghost use Rattle.plan_rules.specs.Held.{AllFit, plan_of};
ghost use Rattle.lotplan.specs.Meaning.{Says};
ghost use Rattle.lotplan.specs.Extracting.{extract_meaning, GivenSays};
ghost use Rattle.lotplan.specs.Pegging.{Pegged, pegged_word};
ghost use Rattle.lotplan.specs.Reading.{file_limit};
ghost use Rattle.lotplan.specs.Fetching.{FetchesAs};
ghost use Rattle.lotplan.specs.Writing.{AppendsAs};

use crate::commands::judge::{NotFeasible, read_feasible};
use crate::extract::write_extract;
use crate::said::Said;
use lot_io::Shelf;
use lot_model::Instance;
use pegging::{peg, write_pegs};
use plan_rules::Plan;
use std::alloc::{AllocError, Global};

// Writes the pegs of a feasible plan. All memory is taken before the file is started.
fn write_pegged<S: Shelf>(
    alloc: Global,
    instance: &Instance,
    given: &Plan,
    file: &str,
    shelf: &mut S,
) -> Result<Said, AllocError>
    requires fits { AllFit instance.now given.now }
    requires feasible { IsFeasible instance.now (plan_of given.now) }
    ensures said { IfOk result (GivenSays (Pegged file.now) pegged_word instance.now
        (plan_of given.now) file.now (S.shown shelf.old) (S.shown shelf.new)) }
    ensures memory { OnErr result (S.shown shelf.new ≡ S.shown shelf.old) }
    ensures found { Finds (S.shown shelf.old) (S.shown shelf.new) }
    ensures appended { IfOk result (λ said. AppendsAs (file.now ∷ []) said.status
        (S.shown shelf.old) (S.shown shelf.new)) }
    ensures given { (S.shown shelf.new).given ≡ (S.shown shelf.old).given }
{
    let pegs = peg(alloc, instance, given)?;
    let bytes = write_pegs(alloc, instance, &pegs)?;
    write_extract(
        alloc,
        "pegged",
        pegs.len() as u64,
        file,
        bytes.as_slice(),
        shelf,
    )
}

/// Pegs the plan in a file, by the model in another, and writes its pegs to a third; where it isn't feasible, says what `judge` says.
pub fn peg_files<S: Shelf>(
    alloc: Global,
    model: &str,
    plan: &str,
    file: &str,
    shelf: &mut S,
) -> Result<Said, AllocError>
    ensures said { IfOk result (Says (extract_meaning
        (Pegged file.now) pegged_word model.now plan.now file.now) (S.shown shelf.old)
        (S.shown shelf.new)) }
    ensures memory { OnErr result (OnlyReads (S.shown shelf.old) (S.shown shelf.new)) }
    ensures found { IfOk result (λ said. FetchesAs said.status (S.shown shelf.old)
        (S.shown shelf.new)) }
    ensures appended { IfOk result (λ said. AppendsAs (file.now ∷ []) said.status
        (S.shown shelf.old) (S.shown shelf.new)) }
    ensures given { (S.shown shelf.new).given
        ≤ (S.shown shelf.old).given + 2 * (file_limit + piece_size) }
{
    match read_feasible(alloc, model, plan, shelf) {
        Ok(read) => write_pegged(alloc, &read.instance, &read.plan, file, shelf),
        Err(NotFeasible::Judged(answer)) => answer.answer_line(alloc),
        Err(NotFeasible::Memory) => Err(AllocError),
    }
}
