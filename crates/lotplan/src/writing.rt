// Writing files, and the lines of one that was written and of one that could not be.
ghost use Rattle.std.specs.Prelude.{◌≡◌, ◌<◌, length, map, string_bytes, IfOk, IfErr, OnOk};
ghost use Rattle.lot_io.specs.Outside.{Finds};
ghost use Rattle.lotplan.specs.Writing.{StopsAt, WritesAll, output_of, unwritten_line, written_line};

use lot_io::{Shelf, write_file};
use std::alloc::{AllocError, Global};

/// A file to write: its name, and the bytes that it is to hold.
#[derive(Clone, Copy, Debug)]
pub struct Output<'a, 'b> {
    pub name: &'a str,
    pub bytes: &'b [u8],
}

/// Writes files one after the other, and takes no memory. The error is the place of the one that could not be written,
/// counted from 0: those before it are whole, and none after it was started.
pub fn write_all<S: Shelf>(shelf: &mut S, outputs: &[Output<'_, '_>]) -> Result<(), usize>
    ensures all { OnOk result (WritesAll (map output_of outputs.now) (S.shown shelf.old)
        (S.shown shelf.new)) }
    ensures stops { IfErr result (λ place.
        StopsAt place (map output_of outputs.now) (S.shown shelf.old) (S.shown shelf.new)) }
    ensures place { IfErr result (λ place. place < length outputs.now) }
    ensures found { Finds (S.shown shelf.old) (S.shown shelf.new) }
    ensures given { (S.shown shelf.new).given ≡ (S.shown shelf.old).given }
{
    let Some((first, rest)) = outputs.split_first() else {
        return Ok(());
    };
    if write_file(shelf, first.name, first.bytes).is_err() {
        return Err(0);
    }
    match write_all(shelf, rest) {
        Ok(()) => Ok(()),
        Err(place) => Err(place + 1),
    }
}

/// The line of a file of this name that was written, with its line feed.
pub fn written_line(alloc: Global, file: &str) -> Result<String, AllocError>
    ensures { IfOk result (λ line. string_bytes line ≡ written_line file.now) }
{
    format!(in alloc; "written {file}\n")
}

/// The line of a file of this name that could not be written, with its line feed.
pub fn unwritten_line(alloc: Global, file: &str) -> Result<String, AllocError>
    ensures { IfOk result (λ line. string_bytes line ≡ unwritten_line file.now) }
{
    format!(in alloc; "refused write {file}\n")
}
