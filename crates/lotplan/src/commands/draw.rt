// `draw`: draws the plan in a file, by the model in another, as a page, and writes that to a third. Where a certificate is asked
// for, that in a fourth is checked first, and the page says what it proves.
ghost use Rattle.std.specs.Prelude.{◌≡◌, ◌≤◌, ◌+◌, ◌*◌, ◌∷◌, [], length, IsTrue, IfOk, IfErr, OnOk, OnErr, option_map};
ghost use Rattle.lot_io.specs.Outside.{Finds, OnlyReads, piece_size};
ghost use Rattle.lot_sizing.specs.Plan.{IsFeasible};
ghost use Rattle.plan_rules.specs.Held.{AllFit, plan_of};
ghost use Rattle.stream_check.specs.Streams.{pass_size};
ghost use Rattle.lotplan.specs.Meaning.{Says};
ghost use Rattle.lotplan.specs.Checking.{check_meant};
ghost use Rattle.lotplan.specs.Drawing.{draw_meaning, ExplainsNotDrawn, ExplainsNoProof, IsShown, IsSo, PageSays, WithPlanExplains, proof_files, proved_of};
ghost use Rattle.lotplan.specs.Judging.{HoldFeasible, HoldsBoth};
ghost use Rattle.lotplan.specs.Reading.{file_limit};
ghost use Rattle.lotplan.specs.Fetching.{FetchesAs, NotDrawnFetches};
ghost use Rattle.lotplan.specs.Writing.{AppendsAs};

use crate::commands::check::{CheckAnswer, check_with};
use crate::commands::judge::{JudgeAnswer, NotFeasible, read_feasible};
use crate::extract::write_extract;
use crate::said::Said;
use crate::status::Status;
use certificate::Claim;
use command_line::DrawNames;
use lot_io::Shelf;
use lot_model::Instance;
use plan_page::{MAX_PAGE, PageFault, Proved, page};
use plan_rules::Plan;
use std::alloc::{AllocError, Global};

/// A model, a feasible plan of it, and what is proved of its cost.
#[derive(Drop)]
pub struct Drawing {
    pub instance: Instance,
    pub plan: Plan,
    pub proved: Proved,
}

/// Why the plan in a file isn't drawn.
#[derive(Clone, Copy, Debug, PartialEq, Eq)]
pub enum NotDrawn<'a> {
    /// There is no feasible plan: what `judge` answers.
    Judged(JudgeAnswer<'a>),
    /// The certificate isn't accepted: what `check` answers.
    Unproved(CheckAnswer<'a>),
    /// Memory ran out.
    Memory,
}

/// What a page says of an accepted claim. None is accepted beside a feasible plan that says there is no plan.
fn proved_of(claim: Claim) -> Proved
    ensures { result ≡ proved_of claim }
{
    match claim {
        Claim::Optimal(_) => Proved::Optimal,
        Claim::Infeasible => Proved::Nothing,
        Claim::Bound(bound) => Proved::Bound(bound),
    }
}

// What is proved of a feasible plan's cost, by the certificate in a file where one is asked for.
fn read_proved<'a, S: Shelf>(
    alloc: Global,
    instance: &Instance,
    plan: &Plan,
    certificate: Option<&'a str>,
    shelf: &mut S,
) -> Result<Proved, NotDrawn<'a>>
    requires feasible { IsFeasible instance.now (plan_of plan.now) }
    ensures shown { IfOk result (λ proved. IsTrue (S.shown shelf.old).told
        → IsShown (S.shown shelf.old).file
        (option_map (λ c. c.now) certificate.entry) instance.now plan.now proved) }
    ensures so { IfOk result (IsSo instance.now (plan_of plan.now)) }
    ensures stop { IfErr result (ExplainsNoProof instance.now plan.now
        (option_map (λ c. c.now) certificate.entry) (S.shown shelf.old) (S.shown shelf.new)) }
    ensures reads { OnlyReads (S.shown shelf.old) (S.shown shelf.new) }
    ensures found { OnOk result (Finds (S.shown shelf.old) (S.shown shelf.new)) }
    ensures stopped { IfErr result (NotDrawnFetches (S.shown shelf.old) (S.shown shelf.new)) }
    ensures given { (S.shown shelf.new).given
        ≤ (S.shown shelf.old).given + length
        (proof_files (option_map (λ c. c.now) certificate.entry)) * (3 * pass_size) }
{
    let Some(name) = certificate else {
        return Ok(Proved::Nothing);
    };
    match check_with(alloc, instance, plan, name, shelf) {
        Ok(CheckAnswer::Accepted(claim)) => Ok(proved_of(claim)),
        Ok(answer) => Err(NotDrawn::Unproved(answer)),
        Err(_) => Err(NotDrawn::Memory),
    }
}

// What is drawn: the model in a file, the plan in another where it is feasible, and what is proved of it.
fn read_drawing<'a, S: Shelf>(
    alloc: Global,
    model: &'a str,
    plan: &'a str,
    certificate: Option<&'a str>,
    shelf: &mut S,
) -> Result<Drawing, NotDrawn<'a>>
    ensures files { IfOk result (λ read. IsTrue (S.shown shelf.old).told
        → HoldsBoth (S.shown shelf.old).file model.entry.now plan.entry.now read.instance
        read.plan) }
    ensures fits { IfOk result (λ read. AllFit read.instance read.plan) }
    ensures feasible { IfOk result (λ read. IsFeasible read.instance (plan_of read.plan)) }
    ensures shown { IfOk result (λ read. IsTrue (S.shown shelf.old).told
        → IsShown (S.shown shelf.old).file
        (option_map (λ c. c.now) certificate.entry) read.instance read.plan read.proved) }
    ensures so { IfOk result (λ read. IsSo read.instance (plan_of read.plan) read.proved) }
    ensures stop { IfErr result (ExplainsNotDrawn model.entry.now plan.entry.now
        (option_map (λ c. c.now) certificate.entry) (S.shown shelf.old) (S.shown shelf.new)) }
    ensures reads { OnlyReads (S.shown shelf.old) (S.shown shelf.new) }
    ensures found { OnOk result (Finds (S.shown shelf.old) (S.shown shelf.new)) }
    ensures stopped { IfErr result (NotDrawnFetches (S.shown shelf.old) (S.shown shelf.new)) }
    ensures given { (S.shown shelf.new).given
        ≤ (S.shown shelf.old).given
        + (2 * (file_limit + piece_size)
        + length (proof_files (option_map (λ c. c.now) certificate.entry)) * (3 * pass_size)) }
{
    let read = match read_feasible(alloc, model, plan, shelf) {
        Ok(read) => read,
        Err(NotFeasible::Judged(answer)) => return Err(NotDrawn::Judged(answer)),
        Err(NotFeasible::Memory) => return Err(NotDrawn::Memory),
    };
    match read_proved(alloc, &read.instance, &read.plan, certificate, shelf) {
        Ok(proved) => Ok(Drawing {
            instance: read.instance,
            plan: read.plan,
            proved,
        }),
        Err(stop) => Err(stop),
    }
}

// Writes the page of a feasible plan, unless it is too long. All memory is taken before the file is started.
fn write_page<S: Shelf>(
    alloc: Global,
    instance: &Instance,
    plan: &Plan,
    proved: Proved,
    file: &str,
    shelf: &mut S,
) -> Result<Said, AllocError>
    requires fits { AllFit instance.now plan.now }
    ensures said { IfOk result (PageSays instance.now (plan_of plan.now) proved file.now
        (S.shown shelf.old) (S.shown shelf.new)) }
    ensures memory { OnErr result (S.shown shelf.new ≡ S.shown shelf.old) }
    ensures found { Finds (S.shown shelf.old) (S.shown shelf.new) }
    ensures given { (S.shown shelf.new).given ≡ (S.shown shelf.old).given }
{
    match page(alloc, instance, plan, proved) {
        Ok(text) => {
            let bytes = text.as_bytes();
            write_extract(alloc, "drawn", bytes.len() as u64, file, bytes, shelf)
        }
        Err(PageFault::Long) => {
            let most = MAX_PAGE;
            let line = format!(in alloc; "refused page {most}\n")?;
            Ok(Said::of(line, Status::TooLong))
        }
        Err(PageFault::Memory) => Err(AllocError),
    }
}

/// Draws the plan in a file, by the model in another, and writes the page to a third; where it isn't feasible, says what `judge`
/// says. Where a certificate is asked for it is checked first, and what `check` says is said where it isn't accepted.
pub fn draw_files<S: Shelf>(
    alloc: Global,
    names: DrawNames<'_>,
    certificate: Option<&str>,
    shelf: &mut S,
) -> Result<Said, AllocError>
    ensures said { IfOk result (Says (draw_meaning names.entry.model.now names.entry.plan.now
        names.entry.page.now (option_map (λ c. c.now) certificate.entry)) (S.shown shelf.old)
        (S.shown shelf.new)) }
    ensures memory { OnErr result (OnlyReads (S.shown shelf.old) (S.shown shelf.new)) }
    ensures found { IfOk result (λ said. FetchesAs said.status (S.shown shelf.old)
        (S.shown shelf.new)) }
    ensures appended { IfOk result (λ said. AppendsAs (names.entry.page.now ∷ []) said.status
        (S.shown shelf.old) (S.shown shelf.new)) }
    ensures given { (S.shown shelf.new).given
        ≤ (S.shown shelf.old).given
        + (2 * (file_limit + piece_size)
        + length (proof_files (option_map (λ c. c.now) certificate.entry)) * (3 * pass_size)) }
{
    match read_drawing(alloc, names.model, names.plan, certificate, shelf) {
        Ok(read) => write_page(
            alloc,
            &read.instance,
            &read.plan,
            read.proved,
            names.page,
            shelf,
        ),
        Err(NotDrawn::Judged(answer)) => answer.answer_line(alloc),
        Err(NotDrawn::Unproved(answer)) => answer.answer_line(alloc),
        Err(NotDrawn::Memory) => Err(AllocError),
    }
}
