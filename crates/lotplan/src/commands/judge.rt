// `judge`: judges the plan in a file, by the model in another.
ghost use Rattle.std.specs.Prelude.{◌≡◌, ◌≤◌, ◌+◌, ◌*◌, string_bytes, IsTrue, IfOk, IfErr, OnOk};
ghost use Rattle.lot_io.specs.Outside.{Finds, OnlyReads, piece_size};
ghost use Rattle.lotplan.specs.Meaning.{Says};
ghost use Rattle.lotplan.specs.Judging.{ExplainsNone, HoldFeasible, HoldsBoth, JudgeExplains, judge_meaning, PlanFileExplains, judge_line, judge_meant, judge_status};
ghost use Rattle.lotplan.specs.Reading.{HoldsPlan, file_limit};
ghost use Rattle.lotplan.specs.Saying.{IsSaid};
ghost use Rattle.lotplan.specs.Fetching.{FetchesAs, NotFeasibleFetches};

use crate::model_file::{PlanStop, ReadAnswer, Stop, no_plan_line, read_model, read_plan_file};
use crate::said::Said;
use crate::status::Status;
use lot_io::Shelf;
use lot_model::Instance;
use plan_file::PlanFault;
use plan_rules::{Broken, Plan, judge};
use std::alloc::{AllocError, Global};

/// What `judge` answers.
#[derive(Clone, Copy, Debug, PartialEq, Eq)]
pub enum JudgeAnswer<'a> {
    /// The plan is feasible, and costs this.
    Feasible(u128),
    /// The plan file holds no plan.
    NoPlan(PlanFault),
    /// The plan breaks this rule first.
    Broken(Broken),
    /// The model file gave no instance, or the plan file no bytes.
    NoInput(ReadAnswer<'a>),
}

impl JudgeAnswer<'_> {
    /// The line and the status.
    pub fn answer_line(&self, alloc: Global) -> Result<Said, AllocError>
        ensures { IfOk result (IsSaid (judge_line (judge_meant self.now))
            (judge_status (judge_meant self.now))) }
    {
        Ok(Said::of(self.line(alloc)?, self.status()))
    }

    /// The status.
    pub fn status(&self) -> Status
        ensures { result ≡ judge_status (judge_meant self.now) }
    {
        match self {
            JudgeAnswer::Feasible(_) => Status::Done,
            JudgeAnswer::NoPlan(_) | JudgeAnswer::Broken(_) => Status::Faulty,
            JudgeAnswer::NoInput(why) => why.status(),
        }
    }

    /// The line that is printed, with its line feed.
    pub fn line(&self, alloc: Global) -> Result<String, AllocError>
        ensures { IfOk result (λ line. string_bytes line ≡ judge_line (judge_meant self.now)) }
    {
        match self {
            JudgeAnswer::Feasible(cost) => format!(in alloc; "feasible {cost}\n"),
            JudgeAnswer::NoPlan(fault) => no_plan_line(alloc, fault),
            JudgeAnswer::Broken(rule) => format!(in alloc; "{rule}\n"),
            JudgeAnswer::NoInput(why) => why.line(alloc),
        }
    }
}

/// A plan that is feasible, and what it costs.
#[derive(Drop)]
struct JudgedPlan {
    pub plan: Plan,
    pub cost: u128,
}

/// A model, a feasible plan of it, and what the plan costs.
#[derive(Drop)]
pub struct FeasiblePlan {
    pub instance: Instance,
    pub plan: Plan,
    pub cost: u128,
}

/// Why files hold no feasible plan.
#[derive(Clone, Copy, Debug, PartialEq, Eq)]
pub enum NotFeasible<'a> {
    /// What `judge` answers.
    Judged(JudgeAnswer<'a>),
    /// Memory ran out.
    Memory,
}

// The plan in a file, where it is feasible.
fn read_judged<'a, S: Shelf>(
    alloc: Global,
    instance: &Instance,
    plan: &'a str,
    shelf: &mut S,
) -> Result<JudgedPlan, NotFeasible<'a>>
    ensures plan { IfOk result (λ read. IsTrue (S.shown shelf.old).told
        → HoldsPlan (S.shown shelf.old).file plan.entry.now instance.now read.plan) }
    ensures feasible { IfOk result (λ read. HoldFeasible instance.now read.plan read.cost) }
    ensures stop { IfErr result (ExplainsNone
        (PlanFileExplains instance.now plan.entry.now (S.shown shelf.old) (S.shown shelf.new))) }
    ensures reads { OnlyReads (S.shown shelf.old) (S.shown shelf.new) }
    ensures found { OnOk result (Finds (S.shown shelf.old) (S.shown shelf.new)) }
    ensures stopped { IfErr result (NotFeasibleFetches (S.shown shelf.old) (S.shown shelf.new)) }
    ensures given { (S.shown shelf.new).given
        ≤ (S.shown shelf.old).given + (file_limit + piece_size) }
{
    let given = match read_plan_file(alloc, instance, plan, shelf) {
        Ok(given) => given,
        Err(PlanStop::NoPlan(fault)) => return Err(NotFeasible::Judged(JudgeAnswer::NoPlan(fault))),
        Err(PlanStop::Answered(why)) => return Err(NotFeasible::Judged(JudgeAnswer::NoInput(why))),
        Err(PlanStop::Memory) => return Err(NotFeasible::Memory),
    };
    match judge(instance, &given) {
        Ok(cost) => Ok(JudgedPlan { plan: given, cost }),
        Err(rule) => Err(NotFeasible::Judged(JudgeAnswer::Broken(rule))),
    }
}

/// The model in a file, and the plan in another where it is feasible.
pub fn read_feasible<'a, S: Shelf>(
    alloc: Global,
    model: &'a str,
    plan: &'a str,
    shelf: &mut S,
) -> Result<FeasiblePlan, NotFeasible<'a>>
    ensures holds { IfOk result (λ read. IsTrue (S.shown shelf.old).told
        → HoldsBoth (S.shown shelf.old).file model.entry.now plan.entry.now read.instance
        read.plan) }
    ensures feasible { IfOk result (λ read. HoldFeasible read.instance read.plan read.cost) }
    ensures stop { IfErr result (ExplainsNone
        (JudgeExplains model.entry.now plan.entry.now (S.shown shelf.old) (S.shown shelf.new))) }
    ensures reads { OnlyReads (S.shown shelf.old) (S.shown shelf.new) }
    ensures found { OnOk result (Finds (S.shown shelf.old) (S.shown shelf.new)) }
    ensures stopped { IfErr result (NotFeasibleFetches (S.shown shelf.old) (S.shown shelf.new)) }
    ensures given { (S.shown shelf.new).given
        ≤ (S.shown shelf.old).given + 2 * (file_limit + piece_size) }
{
    let instance = match read_model(alloc, model, shelf) {
        Ok(instance) => instance,
        Err(Stop::Answered(why)) => return Err(NotFeasible::Judged(JudgeAnswer::NoInput(why))),
        Err(Stop::Memory) => return Err(NotFeasible::Memory),
    };
    match read_judged(alloc, &instance, plan, shelf) {
        Ok(read) => Ok(FeasiblePlan {
            instance,
            plan: read.plan,
            cost: read.cost,
        }),
        Err(stop) => Err(stop),
    }
}

/// Judges the plan in a file, by the model in another.
pub fn judge_files<S: Shelf>(
    alloc: Global,
    model: &str,
    plan: &str,
    shelf: &mut S,
) -> Result<Said, AllocError>
    ensures said { IfOk result (Says (judge_meaning model.now plan.now) (S.shown shelf.old)
        (S.shown shelf.new)) }
    ensures reads { OnlyReads (S.shown shelf.old) (S.shown shelf.new) }
    ensures found { IfOk result (λ said. FetchesAs said.status (S.shown shelf.old)
        (S.shown shelf.new)) }
    ensures given { (S.shown shelf.new).given
        ≤ (S.shown shelf.old).given + 2 * (file_limit + piece_size) }
{
    match read_feasible(alloc, model, plan, shelf) {
        Ok(read) => JudgeAnswer::Feasible(read.cost).answer_line(alloc),
        Err(NotFeasible::Judged(answer)) => answer.answer_line(alloc),
        Err(NotFeasible::Memory) => Err(AllocError),
    }
}
