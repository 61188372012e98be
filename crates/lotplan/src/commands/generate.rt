// `gen`: writes a generated model to a file.
ghost use Rattle.std.specs.Prelude.{◌≡◌, ◌∷◌, [], string_bytes, IfOk, OnErr};
ghost use Rattle.report.specs.Generated.{IsModelSize};
ghost use Rattle.lotplan.specs.Meaning.{Says};
ghost use Rattle.lotplan.specs.Generating.{generate_meaning, IsGenerated, generate_line, generate_meant, generate_status};
ghost use Rattle.lotplan.specs.Saying.{IsSaid};
ghost use Rattle.lotplan.specs.Fetching.{FetchesAs};
ghost use Rattle.lotplan.specs.Writing.{AppendsAs};

use crate::said::Said;
use crate::status::Status;
use crate::writing::{unwritten_line, written_line};
use lot_io::{Shelf, write_file};
use report::{GenFault, generate};
use std::alloc::{AllocError, Global};

/// What `gen` answers.
#[derive(Clone, Copy, Debug, PartialEq, Eq)]
pub enum GenerateAnswer<'a> {
    /// The model was written to the file of this name.
    Written(&'a str),
    /// The file of this name could not be written.
    Unwritten(&'a str),
}

impl GenerateAnswer<'_> {
    /// The line and the status.
    pub fn answer_line(&self, alloc: Global) -> Result<Said, AllocError>
        ensures { IfOk result (IsSaid (generate_line (generate_meant self.now))
            (generate_status (generate_meant self.now))) }
    {
        Ok(Said::of(self.line(alloc)?, self.status()))
    }

    /// The status.
    pub fn status(&self) -> Status
        ensures { result ≡ generate_status (generate_meant self.now) }
    {
        match self {
            GenerateAnswer::Written(_) => Status::Done,
            GenerateAnswer::Unwritten(_) => Status::Unwritten,
        }
    }

    /// The line that is printed, with its line feed.
    pub fn line(&self, alloc: Global) -> Result<String, AllocError>
        ensures { IfOk result (λ line. string_bytes line
            ≡ generate_line (generate_meant self.now)) }
    {
        match self {
            GenerateAnswer::Written(file) => written_line(alloc, *file),
            GenerateAnswer::Unwritten(file) => unwritten_line(alloc, *file),
        }
    }
}

// The text of the coupled model of a seed, of so many items and periods.
fn coupled_text(alloc: Global, seed: u64, items: u32, periods: u32) -> Result<Vec<u8>, AllocError>
    requires { IsModelSize items periods }
    ensures { IfOk result (λ text. IsGenerated seed items periods text.items) }
{
    match generate(alloc, seed, items, periods, true) {
        Ok(text) => Ok(text),
        Err(GenFault::Memory) => Err(AllocError),
        Err(GenFault::Range) => unreachable!(),
    }
}

/// Writes the coupled model of a seed, of so many items and periods, to a file. All memory is taken before the file is
/// started.
pub fn generate_file<S: Shelf>(
    alloc: Global,
    seed: u64,
    items: u32,
    periods: u32,
    model: &str,
    shelf: &mut S,
) -> Result<Said, AllocError>
    requires { IsModelSize items periods }
    ensures said { IfOk result (Says (generate_meaning seed items periods model.now)
        (S.shown shelf.old) (S.shown shelf.new)) }
    ensures memory { OnErr result (S.shown shelf.new ≡ S.shown shelf.old) }
    ensures found { IfOk result (λ said. FetchesAs said.status (S.shown shelf.old)
        (S.shown shelf.new)) }
    ensures appended { IfOk result (λ said. AppendsAs (model.now ∷ []) said.status
        (S.shown shelf.old) (S.shown shelf.new)) }
    ensures given { (S.shown shelf.new).given ≡ (S.shown shelf.old).given }
{
    let text = coupled_text(alloc, seed, items, periods)?;
    let written = GenerateAnswer::Written(model).answer_line(alloc)?;
    let unwritten = GenerateAnswer::Unwritten(model).answer_line(alloc)?;
    match write_file(shelf, model, text.as_slice()) {
        Ok(()) => Ok(written),
        Err(_) => Ok(unwritten),
    }
}
