// Reading files: the model in one, and the plan in another.
ghost use Rattle.std.specs.Prelude.{◌≡◌, ◌≤◌, ◌+◌, length, string_bytes, IsTrue, Some, IfOk, IfErr, OnOk};
ghost use Rattle.lot_io.specs.Outside.{Finds, OnlyReads, piece_size};
ghost use Rattle.plan_rules.specs.Held.{AllFit};
ghost use Rattle.lotplan.specs.Reading.{FileExplains, FirstExplains, HoldsFirst, HoldsPlan, HoldsProblem, ExplainsPlanStop, ExplainsStop, ModelExplains, file_limit, no_plan_line, read_line, read_meant, read_status};
ghost use Rattle.lotplan.specs.Fetching.{PlanStopFetches, StopFetches};

use crate::status::Status;
use instance_reader::{ReadModelFault, read_first_version, read_instance};
use lot_io::{ReadFault, Shelf, read_file};
use lot_model::{Instance, ModelFault};
use plan_file::{MAX_FILE, PlanFault, read_plan};
use plan_rules::Plan;
use std::alloc::{AllocError, Global};

/// Why the files of a command gave nothing to go on with, with the name of the file that it concerns.
#[derive(Clone, Copy, Debug, PartialEq, Eq)]
pub enum ReadAnswer<'a> {
    /// The model is refused.
    Refused(ModelFault),
    /// The file is absent.
    Missing(&'a str),
    /// The file could not be read.
    Unread(&'a str),
    /// The file is too long.
    TooLong(&'a str),
}

impl ReadAnswer<'_> {
    /// The status.
    pub fn status(&self) -> Status
        ensures { result ≡ read_status (read_meant self.now) }
    {
        match self {
            ReadAnswer::Refused(_) => Status::Refused,
            ReadAnswer::Missing(_) => Status::Missing,
            ReadAnswer::Unread(_) => Status::Unread,
            ReadAnswer::TooLong(_) => Status::TooLong,
        }
    }

    /// The line that is printed, with its line feed.
    pub fn line(&self, alloc: Global) -> Result<String, AllocError>
        ensures { IfOk result (λ line. string_bytes line ≡ read_line (read_meant self.now)) }
    {
        match self {
            ReadAnswer::Refused(fault) => format!(in alloc; "refused model {fault}\n"),
            ReadAnswer::Missing(file) => format!(in alloc; "refused missing {file}\n"),
            ReadAnswer::Unread(file) => format!(in alloc; "refused read {file}\n"),
            ReadAnswer::TooLong(file) => format!(in alloc; "refused long {file}\n"),
        }
    }
}

/// Why a command can't go on.
#[derive(Clone, Copy, Debug, PartialEq, Eq)]
pub enum Stop<'a> {
    /// What the run answers.
    Answered(ReadAnswer<'a>),
    /// Memory ran out.
    Memory,
}

/// Why a plan file gives no plan.
#[derive(Clone, Copy, Debug, PartialEq, Eq)]
pub enum PlanStop<'a> {
    /// It holds none, for this fault.
    NoPlan(PlanFault),
    /// What the run answers.
    Answered(ReadAnswer<'a>),
    /// Memory ran out.
    Memory,
}

/// The line that is printed of a plan file that holds no plan, with its line feed.
pub fn no_plan_line(alloc: Global, fault: &PlanFault) -> Result<String, AllocError>
    ensures { IfOk result (λ line. string_bytes line ≡ no_plan_line fault.now) }
{
    format!(in alloc; "{fault}\n")
}

/// The bytes of a file that a command reads.
pub fn read_bytes<'a, S: Shelf>(
    alloc: Global,
    name: &'a str,
    shelf: &mut S,
) -> Result<Vec<u8>, Stop<'a>>
    ensures bytes { IfOk result (λ bytes. IsTrue (S.shown shelf.old).told
        → (S.shown shelf.old).file name.entry.now ≡ Some bytes.items) }
    ensures short { IfOk result (λ bytes. length bytes.items ≤ file_limit) }
    ensures stop { IfErr result (ExplainsStop
        (FileExplains name.entry.now (S.shown shelf.old) (S.shown shelf.new))) }
    ensures reads { OnlyReads (S.shown shelf.old) (S.shown shelf.new) }
    ensures found { OnOk result (Finds (S.shown shelf.old) (S.shown shelf.new)) }
    ensures stopped { IfErr result (StopFetches (S.shown shelf.old) (S.shown shelf.new)) }
    ensures given { (S.shown shelf.new).given
        ≤ (S.shown shelf.old).given + (file_limit + piece_size) }
{
    match read_file(alloc, shelf, name, MAX_FILE) {
        Ok(bytes) => Ok(bytes),
        Err(ReadFault::Missing) => Err(Stop::Answered(ReadAnswer::Missing(name))),
        Err(ReadFault::Failed) => Err(Stop::Answered(ReadAnswer::Unread(name))),
        Err(ReadFault::TooLong) => Err(Stop::Answered(ReadAnswer::TooLong(name))),
        Err(ReadFault::Memory) => Err(Stop::Memory),
    }
}

/// The instance in a model file.
pub fn read_model<'a, S: Shelf>(
    alloc: Global,
    model: &'a str,
    shelf: &mut S,
) -> Result<Instance, Stop<'a>>
    ensures ok { IfOk result (λ instance. IsTrue (S.shown shelf.old).told
        → HoldsProblem (S.shown shelf.old).file model.entry.now instance) }
    ensures stop { IfErr result (ExplainsStop
        (ModelExplains model.entry.now (S.shown shelf.old) (S.shown shelf.new))) }
    ensures reads { OnlyReads (S.shown shelf.old) (S.shown shelf.new) }
    ensures found { OnOk result (Finds (S.shown shelf.old) (S.shown shelf.new)) }
    ensures stopped { IfErr result (StopFetches (S.shown shelf.old) (S.shown shelf.new)) }
    ensures given { (S.shown shelf.new).given
        ≤ (S.shown shelf.old).given + (file_limit + piece_size) }
{
    let bytes = match read_bytes(alloc, model, shelf) {
        Ok(bytes) => bytes,
        Err(stop) => return Err(stop),
    };
    match read_instance(alloc, bytes.as_slice()) {
        Ok(instance) => Ok(instance),
        Err(ReadModelFault::Refused(fault)) => Err(Stop::Answered(ReadAnswer::Refused(fault))),
        Err(ReadModelFault::Memory) => Err(Stop::Memory),
    }
}

/// The instance in a model file of the first version.
pub fn read_first_model<'a, S: Shelf>(
    alloc: Global,
    model: &'a str,
    shelf: &mut S,
) -> Result<Instance, Stop<'a>>
    ensures ok { IfOk result (λ instance. IsTrue (S.shown shelf.old).told
        → HoldsFirst (S.shown shelf.old).file model.entry.now instance) }
    ensures stop { IfErr result (ExplainsStop
        (FirstExplains model.entry.now (S.shown shelf.old) (S.shown shelf.new))) }
    ensures reads { OnlyReads (S.shown shelf.old) (S.shown shelf.new) }
    ensures found { OnOk result (Finds (S.shown shelf.old) (S.shown shelf.new)) }
    ensures stopped { IfErr result (StopFetches (S.shown shelf.old) (S.shown shelf.new)) }
    ensures given { (S.shown shelf.new).given
        ≤ (S.shown shelf.old).given + (file_limit + piece_size) }
{
    let bytes = match read_bytes(alloc, model, shelf) {
        Ok(bytes) => bytes,
        Err(stop) => return Err(stop),
    };
    match read_first_version(alloc, bytes.as_slice()) {
        Ok(instance) => Ok(instance),
        Err(ReadModelFault::Refused(fault)) => Err(Stop::Answered(ReadAnswer::Refused(fault))),
        Err(ReadModelFault::Memory) => Err(Stop::Memory),
    }
}

/// The plan in a file.
pub fn read_plan_file<'a, S: Shelf>(
    alloc: Global,
    instance: &Instance,
    plan: &'a str,
    shelf: &mut S,
) -> Result<Plan, PlanStop<'a>>
    ensures fits { IfOk result (AllFit instance.now) }
    ensures plan { IfOk result (λ given. IsTrue (S.shown shelf.old).told
        → HoldsPlan (S.shown shelf.old).file plan.entry.now instance.now given) }
    ensures stop { IfErr result (ExplainsPlanStop instance.now plan.entry.now (S.shown shelf.old)
        (S.shown shelf.new)) }
    ensures reads { OnlyReads (S.shown shelf.old) (S.shown shelf.new) }
    ensures found { OnOk result (Finds (S.shown shelf.old) (S.shown shelf.new)) }
    ensures stopped { IfErr result (PlanStopFetches (S.shown shelf.old) (S.shown shelf.new)) }
    ensures given { (S.shown shelf.new).given
        ≤ (S.shown shelf.old).given + (file_limit + piece_size) }
{
    let bytes = match read_bytes(alloc, plan, shelf) {
        Ok(bytes) => bytes,
        Err(Stop::Answered(why)) => return Err(PlanStop::Answered(why)),
        Err(Stop::Memory) => return Err(PlanStop::Memory),
    };
    match read_plan(alloc, instance, bytes.as_slice()) {
        Ok(given) => Ok(given),
        Err(PlanFault::Memory) => Err(PlanStop::Memory),
        Err(fault) => Err(PlanStop::NoPlan(fault)),
    }
}
