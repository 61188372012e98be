// `replan`: keeps the first periods of the plan in a file, by the model in another, and plans the later ones. Writes these as a
// model of their own, the plan that was found of them, and the certificate of what is claimed, to three others.
ghost use Rattle.std.specs.Prelude.{◌≡◌, ◌≤◌, ◌<◌, ◌+◌, ◌*◌, ◌^◌, ◌++◌, ◌∷◌, [], string_bytes, IsTrue, Some, None, IfOk, IfErr, IfSome, OnOk, OnErr};
ghost use Rattle.lot_io.specs.Outside.{Finds, OnlyReads, piece_size};
ghost use Rattle.plan_rules.specs.Held.{AllFit, plan_of};
ghost use Rattle.command_line.specs.Words.{AreApart};
ghost use Rattle.replan.specs.Whole.{total_claimed};
ghost use Rattle.branching.specs.Search.{IsGoodPlan};
ghost use Rattle.lotplan.specs.Meaning.{Says};
ghost use Rattle.lotplan.specs.Finding.{IsFound, only};
ghost use Rattle.lotplan.specs.Judging.{HoldsBoth};
ghost use Rattle.lotplan.specs.Reading.{file_limit};
ghost use Rattle.lotplan.specs.Replanning.{ExplainsGivenStop, IsFoundLine, NextSays, replan_meaning, StartSays, replan_line, replan_meant, replan_status, whole_line};
ghost use Rattle.lotplan.specs.Saying.{IsSaid};
ghost use Rattle.lotplan.specs.Fetching.{FetchesAs, PlanStopFetches};
ghost use Rattle.lotplan.specs.Writing.{AppendsAs};

use crate::commands::plan::{PlanAnswer, answer_of};
use crate::commands::upgrade::texts_mean_it;
use crate::model_file::{PlanStop, ReadAnswer, Stop, no_plan_line, read_model, read_plan_file};
use crate::said::Said;
use crate::status::Status;
use crate::writing::{Output, write_all};
use certificate::{Claim, write_certificate};
use command_line::ReplanNames;
use frozen_start::{joins_are_feasible, rests_decide};
use instance_reader::write_model;
use lot_io::Shelf;
use lot_model::Instance;
use plan_file::{PlanFault, write_plan};
use plan_rules::Plan;
use replan::{Replanned, Rest, RestFault, replan, total};
use search_plugins::{Heuristic, Proposer, Watch};
use search_result::Found;
use std::alloc::{AllocError, Global};

/// What `replan` answers where nothing was searched.
#[derive(Clone, Copy, Debug, PartialEq, Eq)]
pub enum ReplanAnswer<'a> {
    /// The start doesn't stand, so no feasible plan agrees with it.
    NoStart,
    /// No later periods can be planned.
    NoRest(RestFault),
    /// The plan file holds no plan.
    NoPlan(PlanFault),
    /// The model file gave no instance, or the plan file no bytes.
    NoInput(ReadAnswer<'a>),
}

impl ReplanAnswer<'_> {
    /// The line and the status.
    pub fn answer_line(&self, alloc: Global) -> Result<Said, AllocError>
        ensures { IfOk result (IsSaid (replan_line (replan_meant self.now))
            (replan_status (replan_meant self.now))) }
    {
        Ok(Said::of(self.line(alloc)?, self.status()))
    }

    /// The status.
    pub fn status(&self) -> Status
        ensures { result ≡ replan_status (replan_meant self.now) }
    {
        match self {
            ReplanAnswer::NoStart => Status::NoPlan,
            ReplanAnswer::NoRest(_) => Status::NoRest,
            ReplanAnswer::NoPlan(_) => Status::Faulty,
            ReplanAnswer::NoInput(why) => why.status(),
        }
    }

    /// The line that is printed, with its line feed.
    pub fn line(&self, alloc: Global) -> Result<String, AllocError>
        ensures { IfOk result (λ line. string_bytes line ≡ replan_line (replan_meant self.now)) }
    {
        match self {
            ReplanAnswer::NoStart => String::from_str(alloc, "infeasible\n"),
            ReplanAnswer::NoRest(fault) => format!(in alloc; "refused rest {fault}\n"),
            ReplanAnswer::NoPlan(fault) => no_plan_line(alloc, fault),
            ReplanAnswer::NoInput(why) => why.line(alloc),
        }
    }
}

// The line of what the plans cost that agree with the start, where a cost or a bound of the later periods is claimed.
fn line_of_whole(alloc: Global, rest: &Rest, found: &Found) -> Result<String, AllocError>
    requires { IfSome (total_claimed rest.now.spent found.now.certificate.claim) (λ amount.
        amount < 2 ^ 128) }
    ensures { IfOk result (λ line. string_bytes line
        ≡ whole_line found.now.certificate.claim
        (total_claimed rest.now.spent found.now.certificate.claim)) }
{
    let Some(amount) = total(rest, found) else {
        return String::from_str(alloc, "");
    };
    match found.certificate.claim {
        Claim::Optimal(_) => format!(in alloc; "total {amount}\n"),
        Claim::Infeasible => String::from_str(alloc, ""),
        Claim::Bound(_) => format!(in alloc; "total floor {amount}\n"),
    }
}

// The lines of what was found of the later periods: what `plan` prints of them, and the line of the whole.
fn found_line(alloc: Global, rest: &Rest, found: &Found) -> Result<Said, AllocError>
    requires plan { IfSome found.now.plan (IsGoodPlan rest.now.instance) }
    requires small { IfSome (total_claimed rest.now.spent found.now.certificate.claim) (λ amount.
        amount < 2 ^ 128) }
    ensures { IfOk result (IsFoundLine rest.now found.now) }
{
    let answer = answer_of(&rest.instance, found);
    let lines = answer.line(alloc)?;
    let whole = line_of_whole(alloc, rest, found)?;
    Ok(Said::of(format!(in alloc; "{lines}{whole}")?, answer.status()))
}

// Writes the later periods, the plan that was found of them, and then the certificate. All memory is taken before the first of
// the three files is started.
fn write_three<S: Shelf>(
    alloc: Global,
    rest: &Rest,
    budget: u64,
    found: &Found,
    chosen: &Plan,
    names: ReplanNames<'_>,
    shelf: &mut S,
) -> Result<Said, AllocError>
    requires found { IsFound rest.now.instance (only budget) found.now }
    requires small { IfSome (total_claimed rest.now.spent found.now.certificate.claim) (λ amount.
        amount < 2 ^ 128) }
    requires chosen { found.now.plan ≡ Some chosen.now }
    requires apart { AreApart names.next_model.now names.next_plan.now names.certificate.now }
    ensures said { IfOk result (NextSays rest.now names.entry.next_model.now
        names.entry.next_plan.now names.entry.certificate.now budget (S.shown shelf.old)
        (S.shown shelf.new)) }
    ensures memory { OnErr result (S.shown shelf.new ≡ S.shown shelf.old) }
    ensures found { Finds (S.shown shelf.old) (S.shown shelf.new) }
    ensures appended { IfOk result (λ said. AppendsAs
        (names.entry.next_model.now ∷ names.entry.next_plan.now ∷ names.entry.certificate.now ∷ [])
        said.status (S.shown shelf.old) (S.shown shelf.new)) }
    ensures given { (S.shown shelf.new).given ≡ (S.shown shelf.old).given }
{
    texts_mean_it(&rest.instance);
    let model = write_model(alloc, &rest.instance)?;
    let plan = write_plan(alloc, &rest.instance, chosen)?;
    let proof = write_certificate(alloc, &found.certificate)?;
    let written = found_line(alloc, rest, found)?;
    let unmodelled = PlanAnswer::Unwritten(names.next_model).answer_line(alloc)?;
    let unplanned = PlanAnswer::Unwritten(names.next_plan).answer_line(alloc)?;
    let unproved = PlanAnswer::Unwritten(names.certificate).answer_line(alloc)?;
    let three = [
        Output {
            name: names.next_model,
            bytes: model.as_slice(),
        },
        Output {
            name: names.next_plan,
            bytes: plan.as_slice(),
        },
        Output {
            name: names.certificate,
            bytes: proof.as_slice(),
        },
    ];
    match write_all(shelf, &three) {
        Ok(()) => Ok(written),
        Err(0) => Ok(unmodelled),
        Err(1) => Ok(unplanned),
        Err(_) => Ok(unproved),
    }
}

// Writes the later periods, and then the certificate, where no plan was found of them.
fn write_two<S: Shelf>(
    alloc: Global,
    rest: &Rest,
    budget: u64,
    found: &Found,
    names: ReplanNames<'_>,
    shelf: &mut S,
) -> Result<Said, AllocError>
    requires found { IsFound rest.now.instance (only budget) found.now }
    requires small { IfSome (total_claimed rest.now.spent found.now.certificate.claim) (λ amount.
        amount < 2 ^ 128) }
    requires none { found.now.plan ≡ None }
    requires apart { AreApart names.next_model.now names.next_plan.now names.certificate.now }
    ensures said { IfOk result (NextSays rest.now names.entry.next_model.now
        names.entry.next_plan.now names.entry.certificate.now budget (S.shown shelf.old)
        (S.shown shelf.new)) }
    ensures memory { OnErr result (S.shown shelf.new ≡ S.shown shelf.old) }
    ensures found { Finds (S.shown shelf.old) (S.shown shelf.new) }
    ensures appended { IfOk result (λ said. AppendsAs
        (names.entry.next_model.now ∷ names.entry.next_plan.now ∷ names.entry.certificate.now ∷ [])
        said.status (S.shown shelf.old) (S.shown shelf.new)) }
    ensures given { (S.shown shelf.new).given ≡ (S.shown shelf.old).given }
{
    texts_mean_it(&rest.instance);
    let model = write_model(alloc, &rest.instance)?;
    let proof = write_certificate(alloc, &found.certificate)?;
    let written = found_line(alloc, rest, found)?;
    let unmodelled = PlanAnswer::Unwritten(names.next_model).answer_line(alloc)?;
    let unproved = PlanAnswer::Unwritten(names.certificate).answer_line(alloc)?;
    let two = [
        Output {
            name: names.next_model,
            bytes: model.as_slice(),
        },
        Output {
            name: names.certificate,
            bytes: proof.as_slice(),
        },
    ];
    match write_all(shelf, &two) {
        Ok(()) => Ok(written),
        Err(0) => Ok(unmodelled),
        Err(_) => Ok(unproved),
    }
}

// Writes the later periods, the plan that was found of them, where there is one, and the certificate.
fn write_next<S: Shelf>(
    alloc: Global,
    rest: &Rest,
    budget: u64,
    found: &Found,
    names: ReplanNames<'_>,
    shelf: &mut S,
) -> Result<Said, AllocError>
    requires found { IsFound rest.now.instance (only budget) found.now }
    requires small { IfSome (total_claimed rest.now.spent found.now.certificate.claim) (λ amount.
        amount < 2 ^ 128) }
    requires apart { AreApart names.next_model.now names.next_plan.now names.certificate.now }
    ensures said { IfOk result (NextSays rest.now names.entry.next_model.now
        names.entry.next_plan.now names.entry.certificate.now budget (S.shown shelf.old)
        (S.shown shelf.new)) }
    ensures memory { OnErr result (S.shown shelf.new ≡ S.shown shelf.old) }
    ensures found { Finds (S.shown shelf.old) (S.shown shelf.new) }
    ensures appended { IfOk result (λ said. AppendsAs
        (names.entry.next_model.now ∷ names.entry.next_plan.now ∷ names.entry.certificate.now ∷ [])
        said.status (S.shown shelf.old) (S.shown shelf.new)) }
    ensures given { (S.shown shelf.new).given ≡ (S.shown shelf.old).given }
{
    match &found.plan {
        Some(chosen) => write_three(alloc, rest, budget, found, chosen, names, shelf),
        None => write_two(alloc, rest, budget, found, names, shelf),
    }
}

// Plans on from the start of a plan, and writes what was found.
fn replan_instance<S: Shelf, P: Proposer, H: Heuristic<P::Hint>, W: Watch>(
    alloc: Global,
    proposer: &P,
    heuristic: &H,
    watch: &mut W,
    instance: &Instance,
    plan: &Plan,
    first: u32,
    budget: u64,
    names: ReplanNames<'_>,
    shelf: &mut S,
) -> Result<Said, AllocError>
    requires plan { AllFit instance.now plan.now }
    requires budget { 1 ≤ budget }
    requires apart { AreApart names.next_model.now names.next_plan.now names.certificate.now }
    ensures said { IfOk result (StartSays instance.now
        (plan_of plan.now) first names.entry.next_model.now names.entry.next_plan.now
        names.entry.certificate.now budget (S.shown shelf.old) (S.shown shelf.new)) }
    ensures memory { OnErr result (S.shown shelf.new ≡ S.shown shelf.old) }
    ensures found { Finds (S.shown shelf.old) (S.shown shelf.new) }
    ensures appended { IfOk result (λ said. AppendsAs
        (names.entry.next_model.now ∷ names.entry.next_plan.now ∷ names.entry.certificate.now ∷ [])
        said.status (S.shown shelf.old) (S.shown shelf.new)) }
    ensures given { (S.shown shelf.new).given ≡ (S.shown shelf.old).given }
{
    joins_are_feasible();
    rests_decide();
    match replan(
        alloc, proposer, heuristic, watch, instance, plan, first, budget,
    ) {
        Ok(Replanned::Planned { rest, found }) => {
            write_next(alloc, &rest, budget, &found, names, shelf)
        }
        Ok(Replanned::NoStart) => ReplanAnswer::NoStart.answer_line(alloc),
        Err(RestFault::Memory) => Err(AllocError),
        Err(fault) => ReplanAnswer::NoRest(fault).answer_line(alloc),
    }
}

/// A model, and a plan of it, feasible or not.
#[derive(Drop)]
struct GivenPlan {
    pub instance: Instance,
    pub plan: Plan,
}

// The model in a file, and the plan in another.
fn read_given<'a, S: Shelf>(
    alloc: Global,
    model: &'a str,
    plan: &'a str,
    shelf: &mut S,
) -> Result<GivenPlan, PlanStop<'a>>
    ensures holds { IfOk result (λ read. IsTrue (S.shown shelf.old).told
        → HoldsBoth (S.shown shelf.old).file model.entry.now plan.entry.now read.instance
        read.plan) }
    ensures fits { IfOk result (λ read. AllFit read.instance read.plan) }
    ensures stop { IfErr result (ExplainsGivenStop model.entry.now plan.entry.now
        (S.shown shelf.old) (S.shown shelf.new)) }
    ensures reads { OnlyReads (S.shown shelf.old) (S.shown shelf.new) }
    ensures found { OnOk result (Finds (S.shown shelf.old) (S.shown shelf.new)) }
    ensures stopped { IfErr result (PlanStopFetches (S.shown shelf.old) (S.shown shelf.new)) }
    ensures given { (S.shown shelf.new).given
        ≤ (S.shown shelf.old).given + 2 * (file_limit + piece_size) }
{
    let instance = match read_model(alloc, model, shelf) {
        Ok(instance) => instance,
        Err(Stop::Answered(why)) => return Err(PlanStop::Answered(why)),
        Err(Stop::Memory) => return Err(PlanStop::Memory),
    };
    match read_plan_file(alloc, &instance, plan, shelf) {
        Ok(plan) => Ok(GivenPlan { instance, plan }),
        Err(stop) => Err(stop),
    }
}

/// Keeps the first periods of the plan in a file, plans the later ones with a budget of nodes, and writes them as a model, the
/// plan that was found and the certificate of what is claimed to three others. Where the start doesn't stand, or no later
/// periods can be planned, it writes nothing.
pub fn replan_files<S: Shelf, P: Proposer, H: Heuristic<P::Hint>, W: Watch>(
    alloc: Global,
    proposer: &P,
    heuristic: &H,
    watch: &mut W,
    names: ReplanNames<'_>,
    first: u32,
    budget: u64,
    shelf: &mut S,
) -> Result<Said, AllocError>
    requires budget { 1 ≤ budget }
    requires apart { AreApart names.next_model.now names.next_plan.now names.certificate.now }
    ensures said { IfOk result (Says (replan_meaning names.entry.model.now names.entry.plan.now
        first names.entry.next_model.now names.entry.next_plan.now names.entry.certificate.now
        budget) (S.shown shelf.old) (S.shown shelf.new)) }
    ensures memory { OnErr result (OnlyReads (S.shown shelf.old) (S.shown shelf.new)) }
    ensures found { IfOk result (λ said. FetchesAs said.status (S.shown shelf.old)
        (S.shown shelf.new)) }
    ensures appended { IfOk result (λ said. AppendsAs
        (names.entry.next_model.now ∷ names.entry.next_plan.now ∷ names.entry.certificate.now ∷ [])
        said.status (S.shown shelf.old) (S.shown shelf.new)) }
    ensures given { (S.shown shelf.new).given
        ≤ (S.shown shelf.old).given + 2 * (file_limit + piece_size) }
{
    match read_given(alloc, names.model, names.plan, shelf) {
        Ok(read) => replan_instance(
            alloc,
            proposer,
            heuristic,
            watch,
            &read.instance,
            &read.plan,
            first,
            budget,
            names,
            shelf,
        ),
        Err(PlanStop::NoPlan(fault)) => ReplanAnswer::NoPlan(fault).answer_line(alloc),
        Err(PlanStop::Answered(why)) => ReplanAnswer::NoInput(why).answer_line(alloc),
        Err(PlanStop::Memory) => Err(AllocError),
    }
}
