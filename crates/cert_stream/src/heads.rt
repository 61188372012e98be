// The first three lines of a certificate's text.
ghost use Rattle.std.specs.Prelude.{◌≡◌, ◌≢◌, ◌++◌, ℕ, List, Some, IsTrue, IfOk, IfErr, IfSome, IsNone, OnOk};
ghost use Rattle.lot_io.specs.Outside.{OnlyReads};
ghost use Rattle.cert_lines.specs.declared.head.HeadLine.TheVariants as value;
ghost use Rattle.certificate.specs.declared.fault.CertTextFault.TheVariants as fault;
ghost use Rattle.certificate.specs.declared.line_numbers.TheConstants.{FIRST_CUT_LINE};
ghost use Rattle.certificate.specs.Text.{head_values};
ghost use Rattle.certificate.specs.Faults.{AreHeads, IsCertTextFault};
ghost use Rattle.cert_stream.specs.declared.heads.Heads.{Heads};
ghost use Rattle.cert_stream.specs.Heads.{AreTheseHeads, heads_of};
ghost use Rattle.cert_stream.specs.Reader.{GoesOn, IsBroken, IsSound, rest_in};
ghost use Rattle.cert_stream.specs.Values.{IsElsewhere};

use crate::lines::LineReader;
use crate::values::next_head;
use cert_lines::{Claim, HeadLine};
use certificate::CertTextFault;
use lot_io::{ReadFault, Shelf};

/// What the first three lines say.
#[derive(Clone, Copy, Debug, PartialEq, Eq)]
pub struct Heads {
    /// The version of the text.
    pub version: u32,
    /// What it proves.
    pub claim: Claim,
    /// The number of cuts.
    pub count: u32,
}

// The version, where this is the first line.
fn version_of(head: Option<HeadLine>) -> Option<u32>
    ensures some { IfSome result (λ version. head ≡ Some (value.Mark version)) }
    ensures none { IsNone result → IsElsewhere 1 head }
{
    match head {
        Some(HeadLine::Mark(version)) => Some(version),
        _ => None,
    }
}

// The claim, where this is the second line.
fn claim_of(head: Option<HeadLine>) -> Option<Claim>
    ensures some { IfSome result (λ claim. head ≡ Some (value.Claim claim)) }
    ensures none { IsNone result → IsElsewhere 2 head }
{
    match head {
        Some(HeadLine::Claim(claim)) => Some(claim),
        _ => None,
    }
}

// The number of cuts, where this is the third line.
fn count_of(head: Option<HeadLine>) -> Option<u32>
    ensures some { IfSome result (λ count. head ≡ Some (value.Cuts count)) }
    ensures none { IsNone result → IsElsewhere 3 head }
{
    match head {
        Some(HeadLine::Cuts(count)) => Some(count),
        _ => None,
    }
}

/// The first three lines, or the first of them that isn't of its form. It takes no memory.
pub fn read_heads<S: Shelf>(
    reader: &mut LineReader,
    shelf: &mut S,
    name: &str,
) -> Result<Result<Heads, CertTextFault>, ReadFault>
    requires sound { IsSound reader.old }
    requires first { reader.old.number ≡ 1 }
    ensures sound { OnOk result (IsSound reader.new) }
    ensures lines { IfOk result (λ heads.
        IfOk heads (λ h. AreHeads 1 (head_values h.version h.claim h.count))) }
    ensures text { IfOk result (λ heads. IfOk heads (λ h. IsTrue (S.shown shelf.old).told
        → rest_in (S.shown shelf.old) name.now reader.old
        ≡ heads_of h ++ rest_in (S.shown shelf.new) name.now reader.new)) }
    ensures number { IfOk result (λ heads. IfOk heads (λ h. reader.new.number ≡ FIRST_CUT_LINE)) }
    ensures refused { IfOk result (λ heads. IfErr heads (λ f. IsTrue (S.shown shelf.old).told
        → IsCertTextFault (rest_in (S.shown shelf.old) name.now reader.old) f)) }
    ensures plain { IfOk result (λ heads. IfErr heads (λ f. f ≢ fault.Memory)) }

    // Where the text begins with three such lines, those are given.
    ensures awaited { IfOk result (λ heads. IsTrue (S.shown shelf.old).told → (h : Heads)
        → (more : List ℕ)
        → AreHeads 1 (head_values h.version h.claim h.count)
        → rest_in (S.shown shelf.old) name.now reader.old ≡ heads_of h ++ more
        → AreTheseHeads h more heads (rest_in (S.shown shelf.new) name.now reader.new)) }
    ensures goes_on { OnOk result (GoesOn name.now (S.shown shelf.old) (S.shown shelf.new)
        reader.old reader.new) }
    ensures broken { IfErr result (IsBroken name.now reader.old.at (S.shown shelf.old)
        (S.shown shelf.new)) }
    ensures reads { OnlyReads (S.shown shelf.old) (S.shown shelf.new) }
{
    let Some(version) = version_of(next_head(reader, shelf, name, 1)?) else {
        return Ok(Err(CertTextFault::Header(1)));
    };
    let Some(claim) = claim_of(next_head(reader, shelf, name, 2)?) else {
        return Ok(Err(CertTextFault::Header(2)));
    };
    let Some(count) = count_of(next_head(reader, shelf, name, 3)?) else {
        return Ok(Err(CertTextFault::Header(3)));
    };
    Ok(Ok(Heads {
        version,
        claim,
        count,
    }))
}
