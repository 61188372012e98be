// Writing an extract: a file that is made of a feasible plan.
ghost use Rattle.std.specs.Prelude.{◌≡◌, IfOk, OnErr};
ghost use Rattle.lot_io.specs.Outside.{Finds};
ghost use Rattle.lotplan.specs.Extracting.{WritesAndSays};

use crate::said::Said;
use crate::status::Status;
use crate::writing::{Output, unwritten_line, write_all};
use lot_io::Shelf;
use std::alloc::{AllocError, Global};

/// Writes the bytes of an extract to a file, and says `WORD COUNT`, or that the file could not be written. All memory is
/// taken before the file is started.
pub fn write_extract<S: Shelf>(
    alloc: Global,
    word: &str,
    count: u64,
    file: &str,
    bytes: &[u8],
    shelf: &mut S,
) -> Result<Said, AllocError>
    ensures said { IfOk result (WritesAndSays word.now count file.now bytes.now (S.shown shelf.old)
        (S.shown shelf.new)) }
    ensures memory { OnErr result (S.shown shelf.new ≡ S.shown shelf.old) }
    ensures found { Finds (S.shown shelf.old) (S.shown shelf.new) }
    ensures given { (S.shown shelf.new).given ≡ (S.shown shelf.old).given }
{
    let written = Said::of(format!(in alloc; "{word} {count}\n")?, Status::Done);
    let unwritten = Said::of(unwritten_line(alloc, file)?, Status::Unwritten);
    let outputs = [Output { name: file, bytes }];
    match write_all(shelf, &outputs) {
        Ok(()) => Ok(written),
        Err(_) => Ok(unwritten),
    }
}
