// `upgrade`: writes the model in a file of the first version to another, as one of the newest.
ghost use Rattle.std.specs.Prelude.{◌≡◌, ◌≤◌, ◌+◌, ◌∷◌, [], ℕ, List, Ok, string_bytes, IfOk, OnErr};
ghost use Rattle.instance_reader.specs.Model.{BytesMean};
ghost use Rattle.instance_reader.specs.Written.{IsModelText};
ghost use Rattle.lot_io.specs.Outside.{Finds, OnlyReads, piece_size};
ghost use Rattle.lotplan.specs.Meaning.{Says};
ghost use Rattle.lotplan.specs.Reading.{file_limit};
ghost use Rattle.lotplan.specs.Saying.{IsSaid};
ghost use Rattle.lotplan.specs.Upgrading.{RewriteSays, upgrade_meaning, upgrade_line, upgrade_meant, upgrade_status};
ghost use Rattle.lotplan.specs.Fetching.{FetchesAs};
ghost use Rattle.lotplan.specs.Writing.{AppendsAs};

use crate::model_file::{ReadAnswer, Stop, read_first_model};
use crate::said::Said;
use crate::status::Status;
use crate::writing::{unwritten_line, written_line};
use instance_reader::{model_texts_are_read, write_model};
use lot_io::{Shelf, write_file};
use lot_model::{Instance, an_instance_breaks_no_rule};
use std::alloc::{AllocError, Global};

/// What `upgrade` answers.
#[derive(Clone, Copy, Debug, PartialEq, Eq)]
pub enum UpgradeAnswer<'a> {
    /// The model was written to the file of this name.
    Written(&'a str),
    /// The file of this name could not be written.
    Unwritten(&'a str),
    /// The model file gave no instance.
    NoInput(ReadAnswer<'a>),
}

impl UpgradeAnswer<'_> {
    /// The line and the status.
    pub fn answer_line(&self, alloc: Global) -> Result<Said, AllocError>
        ensures { IfOk result (IsSaid (upgrade_line (upgrade_meant self.now))
            (upgrade_status (upgrade_meant self.now))) }
    {
        Ok(Said::of(self.line(alloc)?, self.status()))
    }

    /// The status.
    pub fn status(&self) -> Status
        ensures { result ≡ upgrade_status (upgrade_meant self.now) }
    {
        match self {
            UpgradeAnswer::Written(_) => Status::Done,
            UpgradeAnswer::Unwritten(_) => Status::Unwritten,
            UpgradeAnswer::NoInput(why) => why.status(),
        }
    }

    /// The line that is printed, with its line feed.
    pub fn line(&self, alloc: Global) -> Result<String, AllocError>
        ensures { IfOk result (λ line. string_bytes line ≡ upgrade_line (upgrade_meant self.now)) }
    {
        match self {
            UpgradeAnswer::Written(file) => written_line(alloc, *file),
            UpgradeAnswer::Unwritten(file) => unwritten_line(alloc, *file),
            UpgradeAnswer::NoInput(why) => why.line(alloc),
        }
    }
}

/// Each text of an instance means its problem. It computes nothing.
pub fn texts_mean_it(instance: &Instance)
    ensures { (bytes : List ℕ) → IsModelText instance.now bytes
        → BytesMean bytes (Ok instance.now) }
{
    an_instance_breaks_no_rule(instance);
    model_texts_are_read();
}

// Writes an instance as a model. All memory is taken before the file is started.
fn write_upgraded<S: Shelf>(
    alloc: Global,
    instance: &Instance,
    upgraded: &str,
    shelf: &mut S,
) -> Result<Said, AllocError>
    ensures said { IfOk result (RewriteSays instance.now upgraded.now (S.shown shelf.old)
        (S.shown shelf.new)) }
    ensures memory { OnErr result (S.shown shelf.new ≡ S.shown shelf.old) }
    ensures found { Finds (S.shown shelf.old) (S.shown shelf.new) }
    ensures appended { IfOk result (λ said. AppendsAs (upgraded.now ∷ []) said.status
        (S.shown shelf.old) (S.shown shelf.new)) }
    ensures given { (S.shown shelf.new).given ≡ (S.shown shelf.old).given }
{
    texts_mean_it(instance);
    let bytes = write_model(alloc, instance)?;
    let written = UpgradeAnswer::Written(upgraded).answer_line(alloc)?;
    let unwritten = UpgradeAnswer::Unwritten(upgraded).answer_line(alloc)?;
    match write_file(shelf, upgraded, bytes.as_slice()) {
        Ok(()) => Ok(written),
        Err(_) => Ok(unwritten),
    }
}

/// Writes the model in a file of the first version to another, as one of the newest.
pub fn upgrade_files<S: Shelf>(
    alloc: Global,
    model: &str,
    upgraded: &str,
    shelf: &mut S,
) -> Result<Said, AllocError>
    ensures said { IfOk result (Says (upgrade_meaning model.now upgraded.now) (S.shown shelf.old)
        (S.shown shelf.new)) }
    ensures memory { OnErr result (OnlyReads (S.shown shelf.old) (S.shown shelf.new)) }
    ensures found { IfOk result (λ said. FetchesAs said.status (S.shown shelf.old)
        (S.shown shelf.new)) }
    ensures appended { IfOk result (λ said. AppendsAs (upgraded.now ∷ []) said.status
        (S.shown shelf.old) (S.shown shelf.new)) }
    ensures given { (S.shown shelf.new).given
        ≤ (S.shown shelf.old).given + (file_limit + piece_size) }
{
    match read_first_model(alloc, model, shelf) {
        Ok(instance) => write_upgraded(alloc, &instance, upgraded, shelf),
        Err(Stop::Answered(why)) => UpgradeAnswer::NoInput(why).answer_line(alloc),
        Err(Stop::Memory) => Err(AllocError),
    }
}
