// The claim of a certificate's file, by one pass over its grammar.
ghost use Rattle.std.specs.Prelude.{◌≡◌, ◌≢◌, ◌≤◌, ◌+◌, None, IsTrue, IfOk, IfErr, IsErrOf, OnOk, length};
ghost use Rattle.lot_io.specs.Outside.{Fails, Finds, GrewBy, Misses, OnlyReads, RoseBy, piece_size};
ghost use Rattle.cert_lines.specs.Limits.{IsVersion};
ghost use Rattle.certificate.specs.declared.fault.CertTextFault.{CertTextFault};
ghost use Rattle.certificate.specs.declared.fault.CertTextFault.TheVariants as fault;
ghost use Rattle.certificate.specs.Dues.{IsFaultFrom};
ghost use Rattle.certificate.specs.Stacks.{dues_in};
ghost use Rattle.certificate.specs.Faults.{IsCertTextFault};
ghost use Rattle.cert_stream.specs.Claims.{AreAll, IsFileFault, IsFileOfClaim, IsStep, IsStepGiven, IsTextOfClaim, WhenWhole};
ghost use Rattle.cert_stream.specs.declared.limits.TheConstants.{MAX_BYTES};
ghost use Rattle.cert_stream.specs.Reader.{GoesOn, IsBroken, IsSound, IsTooLong, bytes_of, rest_in};

use crate::ClaimFault;
use crate::heads::read_heads;
use crate::lines::LineReader;
use crate::values::{Value, next_value};
use cert_lines::Claim;
use certificate::{CertTextFault, Dues, Misfit};
use lot_io::{ReadFault, Shelf};
use std::alloc::Global;

/// What the next line was in place of what is needed.
#[derive(Clone, Copy, Debug, PartialEq, Eq)]
pub enum Step {
    /// A line that is needed.
    Taken,
    /// The end of the file, where nothing is needed.
    Ended,
    /// Something else.
    Faulty(CertTextFault),
}

// Takes the next line for what is needed.
fn take_line<S: Shelf>(
    alloc: Global,
    reader: &mut LineReader,
    shelf: &mut S,
    name: &str,
    version: u32,
    dues: &mut Dues,
) -> Result<Step, ReadFault>
    requires sound { IsSound reader.old }
    requires version { IsVersion version }
    ensures sound { OnOk result (IsSound reader.new) }
    ensures step { IfOk result (λ step. IsTrue (S.shown shelf.old).told
        → IsStep version (dues_in dues.old) (rest_in (S.shown shelf.old) name.now reader.old)
        reader.old.number step
        (dues_in dues.new) (rest_in (S.shown shelf.new) name.now reader.new) reader.new.number) }
    ensures given { IfOk result (λ step. IsStepGiven step reader.old reader.new) }
    ensures goes_on { OnOk result (GoesOn name.now (S.shown shelf.old) (S.shown shelf.new)
        reader.old reader.new) }
    ensures broken { IfErr result (IsBroken name.now reader.old.at (S.shown shelf.old)
        (S.shown shelf.new)) }
    ensures reads { OnlyReads (S.shown shelf.old) (S.shown shelf.new) }
{
    let number = reader.number;
    match next_value(alloc, reader, shelf, name, version)? {
        Value::Line(line) => match dues.take(&line) {
            Ok(()) => Ok(Step::Taken),
            Err(Misfit::Unwanted) => Ok(Step::Faulty(CertTextFault::Shape(number))),
            Err(Misfit::Deep) => Ok(Step::Faulty(CertTextFault::Deep(number))),
            Err(Misfit::Memory) => Err(ReadFault::Memory),
        },
        Value::Wrong => Ok(Step::Faulty(CertTextFault::Line(number))),
        Value::End => {
            if dues.are_met() {
                return Ok(Step::Ended);
            }
            Ok(Step::Faulty(CertTextFault::Shape(number)))
        }
    }
}

// The lines after the first three, to the end of the file.
fn read_body<S: Shelf>(
    alloc: Global,
    reader: &mut LineReader,
    shelf: &mut S,
    name: &str,
    version: u32,
    dues: &mut Dues,
) -> Result<Result<(), CertTextFault>, ReadFault>
    requires sound { IsSound reader.old }
    requires version { IsVersion version }
    ensures sound { OnOk result (IsSound reader.new) }
    ensures all { IfOk result (λ read. OnOk read (IsTrue (S.shown shelf.old).told
        → AreAll version (dues_in dues.old) (rest_in (S.shown shelf.old) name.now reader.old))) }
    ensures refused { IfOk result (λ read. IfErr read (λ f. IsTrue (S.shown shelf.old).told
        → IsFaultFrom version (dues_in dues.old) (rest_in (S.shown shelf.old) name.now reader.old)
        reader.old.number f)) }
    ensures plain { IfOk result (λ read. IfErr read (λ f. f ≢ fault.Memory)) }
    ensures goes_on { OnOk result (GoesOn name.now (S.shown shelf.old) (S.shown shelf.new)
        reader.old reader.new) }
    ensures broken { IfErr result (IsBroken name.now reader.old.at (S.shown shelf.old)
        (S.shown shelf.new)) }
    ensures reads { OnlyReads (S.shown shelf.old) (S.shown shelf.new) }
{
    loop {
        match take_line(alloc, reader, shelf, name, version, dues)? {
            Step::Taken => {}
            Step::Ended => return Ok(Ok(())),
            Step::Faulty(fault) => return Ok(Err(fault)),
        }
    }
}

// The claim of the text that a pass begins to read, or why it is no certificate's.
fn walk<S: Shelf>(
    alloc: Global,
    reader: &mut LineReader,
    shelf: &mut S,
    name: &str,
) -> Result<Result<Claim, CertTextFault>, ReadFault>
    requires sound { IsSound reader.old }
    requires first { reader.old.number ≡ 1 }
    ensures sound { OnOk result (IsSound reader.new) }
    ensures text { IfOk result (λ read. IfOk read (λ claim. IsTrue (S.shown shelf.old).told
        → IsTextOfClaim (rest_in (S.shown shelf.old) name.now reader.old) claim)) }
    ensures refused { IfOk result (λ read. IfErr read (λ f. IsTrue (S.shown shelf.old).told
        → IsCertTextFault (rest_in (S.shown shelf.old) name.now reader.old) f)) }
    ensures plain { IfOk result (λ read. IfErr read (λ f. f ≢ fault.Memory)) }
    ensures goes_on { OnOk result (GoesOn name.now (S.shown shelf.old) (S.shown shelf.new)
        reader.old reader.new) }
    ensures broken { IfErr result (IsBroken name.now reader.old.at (S.shown shelf.old)
        (S.shown shelf.new)) }
    ensures reads { OnlyReads (S.shown shelf.old) (S.shown shelf.new) }
{
    let heads = match read_heads(reader, shelf, name)? {
        Ok(heads) => heads,
        Err(fault) => return Ok(Err(fault)),
    };
    let mut dues = Dues::new(alloc, heads.count)?;
    match read_body(alloc, reader, shelf, name, heads.version, &mut dues)? {
        Ok(()) => Ok(Ok(heads.claim)),
        Err(fault) => Ok(Err(fault)),
    }
}

/// The claim of the certificate whose text the file is. One pass goes over the file to its end, also where a line is
/// wrong, so that a fetch that fails later comes before that line.
///
/// It keeps one piece of `PIECE` bytes, one line, and what the text needs next: memory in the greatest number of
/// branches on a path and not in the length of the file.
pub fn read_claim<S: Shelf>(alloc: Global, shelf: &mut S, name: &str) -> Result<Claim, ClaimFault>
    // What the file is. Out of memory stands in for no other refusal.
    ensures claim { IfOk result (λ claim. IsTrue (S.shown shelf.old).told
        → IsFileOfClaim ((S.shown shelf.old).file name.now) claim) }
    ensures text { (f : CertTextFault) → IsErrOf result (ClaimFault.Text f)
        → IsTrue (S.shown shelf.old).told
        → IsFileFault ((S.shown shelf.old).file name.now) f }
    ensures plain { IsErrOf result (ClaimFault.Text fault.Memory) → ⊥ }
    ensures within { WhenWhole result (IsTrue (S.shown shelf.old).told
        → length (bytes_of (S.shown shelf.old) name.now) ≤ MAX_BYTES) }
    ensures given { WhenWhole result (IsTrue (S.shown shelf.old).told
        → GrewBy (length (bytes_of (S.shown shelf.old) name.now)) (S.shown shelf.old).given
        (S.shown shelf.new).given) }
    ensures found { WhenWhole result (Finds (S.shown shelf.old) (S.shown shelf.new)) }

    // Why it may not be read.
    ensures missing { IsErrOf result ClaimFault.Missing
        → Misses (S.shown shelf.old) (S.shown shelf.new) }
    ensures absent { IsErrOf result ClaimFault.Missing → IsTrue (S.shown shelf.old).told
        → (S.shown shelf.old).file name.now ≡ None }
    ensures failed { IsErrOf result ClaimFault.Failed
        → Fails (S.shown shelf.old) (S.shown shelf.new) }
    ensures too_much { IsErrOf result ClaimFault.TooLong
        → RoseBy (MAX_BYTES + 1) (S.shown shelf.old).given (S.shown shelf.new).given }
    ensures too_long { IsErrOf result ClaimFault.TooLong → IsTrue (S.shown shelf.old).told
        → IsTooLong ((S.shown shelf.old).file name.now) }
    ensures long_found { IsErrOf result ClaimFault.TooLong
        → Finds (S.shown shelf.old) (S.shown shelf.new) }
    ensures memory { IsErrOf result ClaimFault.Memory
        → Finds (S.shown shelf.old) (S.shown shelf.new) }

    // Nothing is written, and what is fetched has a limit.
    ensures reads { OnlyReads (S.shown shelf.old) (S.shown shelf.new) }
    ensures given_bound { (S.shown shelf.new).given
        ≤ (S.shown shelf.old).given + MAX_BYTES + piece_size }
{
    let mut reader = LineReader::new(alloc)?;
    let read = walk(alloc, &mut reader, shelf, name)?;
    reader.pass_over(shelf, name)?;
    match read {
        Ok(claim) => Ok(claim),
        Err(fault) => Err(ClaimFault::Text(fault)),
    }
}
