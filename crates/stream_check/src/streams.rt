// Certificates in files.
ghost use Rattle.std.specs.Prelude.{◌≡◌, ◌≤◌, ◌+◌, ◌*◌, IfErr, IfOk, IsTrue, length, option_copied};
ghost use Rattle.lot_io.specs.Outside.{GrewBy, OnlyReads};
ghost use Rattle.cert_meaning.specs.Accepts.{IsTrueOf};
ghost use Rattle.cert_checker.specs.Checks.{IsGoodCertificate, plan_given};
ghost use Rattle.stream_check.specs.Streams.{CountsOf, GaveWhole, IsRefusedWith, IsStreamFault, OfBytes, OfCertificate, WhenRead, never_refused, pass_size};

use crate::StreamFault;
use crate::pass::check_text;
use cert_stream::LineReader;
use certificate::Claim;
use lot_io::Shelf;
use lot_model::Instance;
use plan_rules::Plan;
use std::alloc::Global;

/// What a certificate in a file claims, which is not checked. Its text is read to the end, once: an answer, and a refusal
/// for the text, come only where the shelf gave exactly as many bytes as the file has (`whole`).
///
/// The refusals come in this order: `Missing` only where the shelf has no such file, `Failed` only where a fetch failed,
/// `TooLong` only where the file has more than `cert_stream::MAX_BYTES` bytes; then `Text` exactly as `read_certificate`
/// refuses the bytes. It takes time in the length of the file, and memory for one piece of it, one line, and the branches of a path.
///
/// An answer raises none of the shelf's counts of failures. `Missing` raises the count of names that were not found,
/// alone and by one, `Failed` that of fetches that failed, alone and by one, and each other refusal none (`counts`).
pub fn read_claim<S: Shelf>(alloc: Global, shelf: &mut S, name: &str) -> Result<Claim, StreamFault>
    ensures claim { IfOk result (λ claim. IsTrue (S.shown shelf.old).told
        → OfCertificate ((S.shown shelf.old).file name.now) (λ c. c.claim ≡ claim)) }
    ensures fault { IfErr result (IsStreamFault name.now (S.shown shelf.old) (S.shown shelf.new)
        never_refused) }
    ensures whole { WhenRead result (IsTrue (S.shown shelf.old).told
        → OfBytes ((S.shown shelf.old).file name.now)
        (λ bytes. GrewBy (length bytes) (S.shown shelf.old).given (S.shown shelf.new).given)) }
    ensures counts { CountsOf result (S.shown shelf.old) (S.shown shelf.new) }
    ensures reads { OnlyReads (S.shown shelf.old) (S.shown shelf.new) }
    ensures given { (S.shown shelf.new).given ≤ (S.shown shelf.old).given + pass_size }
{
    Ok(cert_stream::read_claim(alloc, shelf, name)?)
}

/// Whether the certificate in a file is accepted, and what it claims. The answer is that of `read_certificate` on the
/// file's bytes, followed by `check`.
///
/// Whatever the file holds, the claim is true of the instance (`claim`): with an optimal cost also the plan is best
/// and costs it. The refusals come in this order: those of `read_claim`, in a first pass, then `Rejected` exactly as
/// `check` refuses the certificate, in a second one. The second pass stops at the first refusal, or at a fetch that fails.
/// So an answer comes only where the shelf gave twice as many bytes as the file has, a refusal for the text only where it
/// gave as many, and `Rejected` only where it gave no fewer (`whole`). Over both passes the shelf's counts of failures go
/// as for `read_claim` (`counts`).
///
/// No tree is kept. It takes memory for the rows of all cuts, the bounds of one path, one cut or leaf with its parts, one
/// piece of the file and one line; and time in the length of the file, read twice, beside that of `check`.
pub fn check_stream<S: Shelf>(
    alloc: Global,
    instance: &Instance,
    shelf: &mut S,
    name: &str,
    plan: Option<&Plan>,
) -> Result<Claim, StreamFault>
    ensures claim { IfOk result (λ claim.
        IsTrueOf instance.now claim (plan_given (option_copied plan.entry))) }
    ensures certified { IfOk result (λ claim. IsTrue (S.shown shelf.old).told
        → OfCertificate ((S.shown shelf.old).file name.now)
        (λ c. (c.claim ≡ claim) × IsGoodCertificate instance.now c (option_copied plan.entry))) }
    ensures fault { IfErr result (IsStreamFault name.now (S.shown shelf.old) (S.shown shelf.new)
        (λ at w. IsTrue (S.shown shelf.old).told → OfCertificate ((S.shown shelf.old).file name.now)
        (λ c. IsRefusedWith instance.now (option_copied plan.entry) c at w))) }
    ensures whole { IsTrue (S.shown shelf.old).told
        → GaveWhole result ((S.shown shelf.old).file name.now) (S.shown shelf.old).given
        (S.shown shelf.new).given }
    ensures counts { CountsOf result (S.shown shelf.old) (S.shown shelf.new) }
    ensures reads { OnlyReads (S.shown shelf.old) (S.shown shelf.new) }
    ensures given { (S.shown shelf.new).given ≤ (S.shown shelf.old).given + 2 * pass_size }
{
    read_claim(alloc, shelf, name)?;
    let mut reader = LineReader::new(alloc)?;
    check_text(alloc, instance, &mut reader, shelf, name, plan)
}
