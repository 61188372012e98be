// One pass over a certificate's file, which checks what it reads.
ghost use Rattle.std.specs.Prelude.{◌≡◌, ◌≤◌, ◌∷◌, [], IsTrue, IfOk, OnOk, length, option_copied, ⊤};
ghost use Rattle.cert_lines.specs.Limits.{IsVersion};
ghost use Rattle.cert_lines.specs.Shapes.{EndLine};
ghost use Rattle.certificate.specs.Limits.{IsTextOf};
ghost use Rattle.certificate.specs.Shapes.{Shape};
ghost use Rattle.cert_meaning.specs.Accepts.{IsTrueOf};
ghost use Rattle.cert_checker.specs.Checks.{IsGoodCertificate, first_line, plan_given};
ghost use Rattle.cert_stream.specs.Reader.{IsSound, bytes_of, rest_in};
ghost use Rattle.stream_check.specs.Heads.{AreHeadsOf};
ghost use Rattle.stream_check.specs.Passes.{Gives, HasLeft, IsStep};
ghost use Rattle.stream_check.specs.Streams.{IsRefusedWith, never_refused};

use crate::StreamFault;
use crate::nodes::check_tree;
use crate::rows::read_rows;
use crate::units::{CertText, next_line};
use cert_checker::judge_claim;
use cert_stream::{Heads, LineReader, Value, next_value, read_heads};
use cert_trees::plans_are_within;
use certificate::{CertLine, CertTextFault, Claim};
use echelon::Explosion;
use lot_io::Shelf;
use lot_model::Instance;
use plan_rules::Plan;
use std::alloc::Global;

// What the first three lines say.
fn read_first<S: Shelf>(
    reader: &mut LineReader,
    shelf: &mut S,
    name: &str,
) -> Result<Heads, StreamFault>
    requires sound { IsSound reader.old }
    requires first { reader.old.number ≡ 1 }
    ensures version { IfOk result (λ heads. IsVersion heads.version) }
    ensures number { OnOk result (reader.new.number ≡ first_line) }
    ensures awaited { (c : Shape) → IsTrue (S.shown shelf.old).told
        → IsTextOf (rest_in (S.shown shelf.old) name.now reader.old) c
        → Gives (λ heads. AreHeadsOf c heads (S.shown shelf.new) name.now reader.new) never_refused
        result }
    ensures step { IsStep name.now (S.shown shelf.old) (S.shown shelf.new) reader.old reader.new
        result }
{
    match read_heads(reader, shelf, name)? {
        Ok(heads) => Ok(heads),
        Err(fault) => Err(StreamFault::Text(fault)),
    }
}

// Whether the last line comes next, and nothing after it.
fn read_end<S: Shelf>(
    reader: &mut LineReader,
    shelf: &mut S,
    text: CertText<'_>,
) -> Result<(), StreamFault>
    requires sound { IsSound reader.old }
    requires version { IsVersion text.version }
    ensures awaited { HasLeft text.entry (S.shown shelf.old) reader.old (EndLine ∷ [])
        → Gives (λ _. ⊤) never_refused result }
    ensures ends { OnOk result (IsTrue (S.shown shelf.old).told
        → length (bytes_of (S.shown shelf.old) text.entry.name.now) ≤ reader.new.at) }
    ensures step { IsStep text.entry.name.now (S.shown shelf.old) (S.shown shelf.new) reader.old
        reader.new result }
{
    let number = reader.number;
    match next_line(reader, shelf, text)? {
        CertLine::End => {}
        _ => return Err(StreamFault::Text(CertTextFault::Shape(number))),
    }
    let last = reader.number;
    match next_value(text.alloc, reader, shelf, text.name, text.version)? {
        Value::Line(_) => Err(StreamFault::Text(CertTextFault::Shape(last))),
        Value::Wrong => Err(StreamFault::Text(CertTextFault::Line(last))),
        Value::End => Ok(()),
    }
}

// What the certificate claims whose text a pass begins to read, if it proves it.
pub fn check_text<S: Shelf>(
    alloc: Global,
    instance: &Instance,
    reader: &mut LineReader,
    shelf: &mut S,
    name: &str,
    plan: Option<&Plan>,
) -> Result<Claim, StreamFault>
    requires sound { IsSound reader.old }
    requires first { reader.old.number ≡ 1 }
    ensures claim { IfOk result (λ claim.
        IsTrueOf instance.now claim (plan_given (option_copied plan.entry))) }
    ensures awaited { (c : Shape) → IsTrue (S.shown shelf.old).told
        → IsTextOf (rest_in (S.shown shelf.old) name.now reader.old) c
        → Gives (λ claim. (c.claim ≡ claim)
        × IsGoodCertificate instance.now c (option_copied plan.entry))
        (IsRefusedWith instance.now (option_copied plan.entry) c) result }
    ensures ends { OnOk result (IsTrue (S.shown shelf.old).told
        → length (bytes_of (S.shown shelf.old) name.now) ≤ reader.new.at) }
    ensures step { IsStep name.now (S.shown shelf.old) (S.shown shelf.new) reader.old reader.new
        result }
{
    plans_are_within();
    let heads = read_first(reader, shelf, name)?;
    if let Err(rejected) = judge_claim(instance, heads.claim, plan) {
        return Err(StreamFault::Rejected(rejected));
    }
    let explosion = Explosion::of(alloc, instance)?;
    let text = CertText {
        alloc,
        name,
        version: heads.version,
    };
    let rows = read_rows(instance, &explosion, reader, shelf, text, heads.count)?;
    check_tree(instance, &rows, heads.claim, reader, shelf, text)?;
    read_end(reader, shelf, text)?;
    Ok(heads.claim)
}
