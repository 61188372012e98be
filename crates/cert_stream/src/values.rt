// The values of a certificate's lines, one after the other.
ghost use Rattle.std.specs.Prelude.{◌≡◌, ◌≤◌, ◌++◌, ℕ, List, Some, IsTrue, IfOk, IfErr, OnOk};
ghost use Rattle.lot_io.specs.Outside.{OnlyReads};
ghost use Rattle.cert_lines.specs.declared.head.HeadLine.{HeadLine};
ghost use Rattle.cert_lines.specs.Head.{IsHead, head_line};
ghost use Rattle.cert_lines.specs.Limits.{IsVersion};
ghost use Rattle.cert_lines.specs.Line.{HasLine};
ghost use Rattle.cert_lines.specs.Shapes.{LineShape};
ghost use Rattle.certificate.specs.Text.{head_text};
ghost use Rattle.certificate.specs.Values.{value_text};
ghost use Rattle.cert_stream.specs.Reader.{GoesOn, IsBroken, IsSound, rest_in};
ghost use Rattle.cert_stream.specs.Values.{IsGiven, IsHeadGiven, IsHeadValue, IsThisLine, IsValue};

use crate::lines::{LineReader, Next};
use cert_lines::{CertLine, HeadLine, LineFault, read_head, read_line};
use lot_io::{ReadFault, Shelf};
use std::alloc::Global;

/// What comes next of a certificate's text, after its first three lines.
#[derive(Debug, Drop)]
pub enum Value {
    /// A line of one of the forms.
    Line(CertLine),
    /// Bytes that begin with no line of any form.
    Wrong,
    /// Nothing.
    End,
}

/// The value of the next line, if it is one of this number, 1, 2 or 3. It takes no memory.
pub fn next_head<S: Shelf>(
    reader: &mut LineReader,
    shelf: &mut S,
    name: &str,
    place: u32,
) -> Result<Option<HeadLine>, ReadFault>
    requires sound { IsSound reader.old }
    requires low { 1 ≤ place }
    requires high { place ≤ 3 }
    ensures sound { OnOk result (IsSound reader.new) }
    ensures head { IfOk result (λ head. IsTrue (S.shown shelf.old).told
        → IsHeadValue place head (rest_in (S.shown shelf.old) name.now reader.old)
        (rest_in (S.shown shelf.new) name.now reader.new)) }
    ensures given { IfOk result (λ head. IsHeadGiven place head reader.old reader.new) }

    // Where the text goes on with a line of this number, that line is given.
    ensures awaited { IfOk result (λ head. IsTrue (S.shown shelf.old).told → (h : HeadLine)
        → (more : List ℕ)
        → IsHead place (head_line h) h
        → rest_in (S.shown shelf.old) name.now reader.old ≡ head_text h ++ more
        → (head ≡ Some h) × (rest_in (S.shown shelf.new) name.now reader.new ≡ more)) }
    ensures goes_on { OnOk result (GoesOn name.now (S.shown shelf.old) (S.shown shelf.new)
        reader.old reader.new) }
    ensures broken { IfErr result (IsBroken name.now reader.old.at (S.shown shelf.old)
        (S.shown shelf.new)) }
    ensures reads { OnlyReads (S.shown shelf.old) (S.shown shelf.new) }
{
    match reader.next_line(shelf, name)? {
        Next::Line => Ok(read_head(place, &reader.line)),
        _ => Ok(None),
    }
}

/// The value of the next line of a text of this version. Beside the line's value it takes no memory.
pub fn next_value<S: Shelf>(
    alloc: Global,
    reader: &mut LineReader,
    shelf: &mut S,
    name: &str,
    version: u32,
) -> Result<Value, ReadFault>
    requires sound { IsSound reader.old }
    requires version { IsVersion version }
    ensures sound { OnOk result (IsSound reader.new) }
    ensures value { IfOk result (λ value. IsTrue (S.shown shelf.old).told
        → IsValue version value (rest_in (S.shown shelf.old) name.now reader.old)
        (rest_in (S.shown shelf.new) name.now reader.new)) }
    ensures given { IfOk result (λ value. IsGiven version value reader.old reader.new) }

    // Where the text goes on with a line of this version, that line is given.
    ensures awaited { IfOk result (λ value. IsTrue (S.shown shelf.old).told → (l : LineShape)
        → (more : List ℕ)
        → HasLine version l
        → rest_in (S.shown shelf.old) name.now reader.old ≡ value_text l ++ more
        → IsThisLine l more value (rest_in (S.shown shelf.new) name.now reader.new)) }
    ensures goes_on { OnOk result (GoesOn name.now (S.shown shelf.old) (S.shown shelf.new)
        reader.old reader.new) }
    ensures broken { IfErr result (IsBroken name.now reader.old.at (S.shown shelf.old)
        (S.shown shelf.new)) }
    ensures reads { OnlyReads (S.shown shelf.old) (S.shown shelf.new) }
{
    match reader.next_line(shelf, name)? {
        Next::Line => match read_line(alloc, &reader.line, version) {
            Ok(line) => Ok(Value::Line(line)),
            Err(LineFault::NoForm) => Ok(Value::Wrong),
            Err(LineFault::Memory) => Err(ReadFault::Memory),
        },
        Next::Unended => Ok(Value::Wrong),
        Next::TooLong => Ok(Value::Wrong),
        Next::End => Ok(Value::End),
    }
}
