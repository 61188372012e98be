// `bound`: the bound of the linear relaxation without cuts of the model in a file.
ghost use Rattle.std.specs.Prelude.{◌≡◌, ◌≤◌, ◌+◌, string_bytes, IfOk};
ghost use Rattle.lot_io.specs.Outside.{OnlyReads, piece_size};
ghost use Rattle.lotplan.specs.Meaning.{Says};
ghost use Rattle.lotplan.specs.Bounding.{bound_meaning, MayBeBoundAnswer, bound_line, bound_meant, bound_status};
ghost use Rattle.lotplan.specs.Reading.{file_limit};
ghost use Rattle.lotplan.specs.Saying.{IsSaid};
ghost use Rattle.lotplan.specs.Fetching.{FetchesAs};

use crate::model_file::{ReadAnswer, Stop, read_model};
use crate::said::Said;
use crate::status::Status;
use lot_io::Shelf;
use lot_model::Instance;
use lp_bounds::{BoundSays, base_bound};
use std::alloc::{AllocError, Global};

/// What `bound` answers.
#[derive(Clone, Copy, Debug, PartialEq, Eq)]
pub enum BoundAnswer<'a> {
    /// The least cost of a point that meets all base rows, rounded up to a whole number of units of money.
    Bound(u128),
    /// No point meets all base rows.
    Empty,
    /// The tableau has more than `MAX_CELLS` cells.
    Skipped,
    /// A number of the run doesn't fit 128 bits.
    Passed,
    /// The model file gave no instance.
    NoInput(ReadAnswer<'a>),
}

impl BoundAnswer<'_> {
    /// The line and the status.
    pub fn answer_line(&self, alloc: Global) -> Result<Said, AllocError>
        ensures { IfOk result (IsSaid (bound_line (bound_meant self.now))
            (bound_status (bound_meant self.now))) }
    {
        Ok(Said::of(self.line(alloc)?, self.status()))
    }

    /// The status.
    pub fn status(&self) -> Status
        ensures { result ≡ bound_status (bound_meant self.now) }
    {
        match self {
            BoundAnswer::Bound(_) => Status::Done,
            BoundAnswer::Empty => Status::NoPlan,
            BoundAnswer::Skipped | BoundAnswer::Passed => Status::Undecided,
            BoundAnswer::NoInput(why) => why.status(),
        }
    }

    /// The line that is printed, with its line feed.
    pub fn line(&self, alloc: Global) -> Result<String, AllocError>
        ensures { IfOk result (λ line. string_bytes line ≡ bound_line (bound_meant self.now)) }
    {
        match self {
            BoundAnswer::Bound(least) => format!(in alloc; "bound {least}\n"),
            BoundAnswer::Empty => String::from_str(alloc, "empty\n"),
            BoundAnswer::Skipped => String::from_str(alloc, "skipped\n"),
            BoundAnswer::Passed => String::from_str(alloc, "passed\n"),
            BoundAnswer::NoInput(why) => why.line(alloc),
        }
    }
}

// What is known of the base bound of an instance.
fn bound_instance(alloc: Global, instance: &Instance) -> Result<BoundAnswer<'static>, AllocError>
    ensures { IfOk result (λ answer. MayBeBoundAnswer instance.now (bound_meant answer)) }
{
    match base_bound(alloc, instance)? {
        BoundSays::Bound(least) => Ok(BoundAnswer::Bound(least)),
        BoundSays::Empty => Ok(BoundAnswer::Empty),
        BoundSays::Skipped { .. } => Ok(BoundAnswer::Skipped),
        BoundSays::Passed { .. } => Ok(BoundAnswer::Passed),
    }
}

/// Bounds the cost of all plans of the model in a file.
pub fn bound_files<S: Shelf>(alloc: Global, model: &str, shelf: &mut S) -> Result<Said, AllocError>
    ensures said { IfOk result (Says (bound_meaning model.now) (S.shown shelf.old)
        (S.shown shelf.new)) }
    ensures reads { OnlyReads (S.shown shelf.old) (S.shown shelf.new) }
    ensures found { IfOk result (λ said. FetchesAs said.status (S.shown shelf.old)
        (S.shown shelf.new)) }
    ensures given { (S.shown shelf.new).given
        ≤ (S.shown shelf.old).given + (file_limit + piece_size) }
{
    match read_model(alloc, model, shelf) {
        Ok(instance) => {
            let answer = bound_instance(alloc, &instance)?;
            answer.answer_line(alloc)
        }
        Err(Stop::Answered(why)) => BoundAnswer::NoInput(why).answer_line(alloc),
        Err(Stop::Memory) => Err(AllocError),
    }
}
