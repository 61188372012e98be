// The first three lines of a text.
ghost use Rattle.std.specs.Prelude.{◌≡◌, ◌≤◌, ◌<◌, ◌+◌, ◌++◌, ◌^◌, IfErr, IfOk, IfSome, IsNone, length};
ghost use Rattle.cert_lines.specs.declared.head.HeadLine.{HeadLine};
ghost use Rattle.cert_lines.specs.declared.head.HeadLine.TheVariants as value;
ghost use Rattle.cert_lines.specs.Limits.{IsVersion};
ghost use Rattle.certificate.specs.declared.line_numbers.TheConstants.{FIRST_CUT_LINE};
ghost use Rattle.certificate.specs.Text.{head_text, head_values, heads_text};
ghost use Rattle.certificate.specs.Faults.{AreHeads, IsCertTextFault, StartsWithHead};
ghost use Rattle.cert_lines.specs.Head.{IsHead, head_line};

use crate::rest::{Rest, split_line};
use crate::{CertTextFault, Claim, HeadLine, read_head};

// The value of the next line, which is that of this number.
fn next_head(rest: &mut Rest, place: u32) -> Option<HeadLine>
    requires low { 1 ≤ place }
    requires high { place ≤ 3 }
    requires room { rest.old.line + length rest.old.text.now < 2 ^ 64 }
    ensures line { IfSome result (λ h. IsHead place (head_line h) h) }
    ensures text { IfSome result (λ h. rest.old.text.now ≡ head_text h ++ rest.new.text.now) }
    ensures number { IfSome result (λ h. rest.new.line ≡ rest.old.line + 1) }
    ensures room { IfSome result (λ h. rest.new.line + length rest.new.text.now
        ≤ rest.old.line + length rest.old.text.now) }
    ensures none { IsNone result → (h : HeadLine) → StartsWithHead place rest.old.text.now h → ⊥ }
{
    let Some((line, text)) = split_line(rest.text) else {
        return None;
    };
    match read_head(place, line) {
        Some(head) => {
            rest.text = text;
            rest.line += 1;
            Some(head)
        }
        None => None,
    }
}

// The version, on the first line.
fn next_mark(rest: &mut Rest) -> Option<u32>
    requires room { rest.old.line + length rest.old.text.now < 2 ^ 64 }
    ensures line { IfSome result (λ v. IsHead 1 (head_line (value.Mark v)) (value.Mark v)) }
    ensures text { IfSome result (λ v. rest.old.text.now
        ≡ head_text (value.Mark v) ++ rest.new.text.now) }
    ensures number { IfSome result (λ v. rest.new.line ≡ rest.old.line + 1) }
    ensures room { IfSome result (λ v. rest.new.line + length rest.new.text.now
        ≤ rest.old.line + length rest.old.text.now) }
    ensures none { IsNone result → (h : HeadLine) → StartsWithHead 1 rest.old.text.now h → ⊥ }
{
    match next_head(rest, 1) {
        Some(head) => match head {
            HeadLine::Mark(version) => Some(version),
            _ => None,
        },
        None => None,
    }
}

// The claim, on the second line.
fn next_claim(rest: &mut Rest) -> Option<Claim>
    requires room { rest.old.line + length rest.old.text.now < 2 ^ 64 }
    ensures line { IfSome result (λ c. IsHead 2 (head_line (value.Claim c)) (value.Claim c)) }
    ensures text { IfSome result (λ c. rest.old.text.now
        ≡ head_text (value.Claim c) ++ rest.new.text.now) }
    ensures number { IfSome result (λ c. rest.new.line ≡ rest.old.line + 1) }
    ensures room { IfSome result (λ c. rest.new.line + length rest.new.text.now
        ≤ rest.old.line + length rest.old.text.now) }
    ensures none { IsNone result → (h : HeadLine) → StartsWithHead 2 rest.old.text.now h → ⊥ }
{
    match next_head(rest, 2) {
        Some(head) => match head {
            HeadLine::Claim(claim) => Some(claim),
            _ => None,
        },
        None => None,
    }
}

// The number of cuts, on the third line.
fn next_count(rest: &mut Rest) -> Option<u32>
    requires room { rest.old.line + length rest.old.text.now < 2 ^ 64 }
    ensures line { IfSome result (λ n. IsHead 3 (head_line (value.Cuts n)) (value.Cuts n)) }
    ensures text { IfSome result (λ n. rest.old.text.now
        ≡ head_text (value.Cuts n) ++ rest.new.text.now) }
    ensures number { IfSome result (λ n. rest.new.line ≡ rest.old.line + 1) }
    ensures room { IfSome result (λ n. rest.new.line + length rest.new.text.now
        ≤ rest.old.line + length rest.old.text.now) }
    ensures none { IsNone result → (h : HeadLine) → StartsWithHead 3 rest.old.text.now h → ⊥ }
{
    match next_head(rest, 3) {
        Some(head) => match head {
            HeadLine::Cuts(count) => Some(count),
            _ => None,
        },
        None => None,
    }
}

// The version, the claim and the number of cuts.
pub fn read_heads(rest: &mut Rest) -> Result<(u32, Claim, u32), CertTextFault>
    requires first { rest.old.line ≡ 1 }
    requires room { rest.old.line + length rest.old.text.now < 2 ^ 64 }
    ensures version { IfOk result (λ p. IsVersion p.0) }
    ensures lines { IfOk result (λ p. AreHeads 1 (head_values p.0 p.1 p.2)) }
    ensures text { IfOk result (λ p. rest.old.text.now
        ≡ heads_text (head_values p.0 p.1 p.2) ++ rest.new.text.now) }
    ensures number { IfOk result (λ p. rest.new.line ≡ FIRST_CUT_LINE) }
    ensures room { IfOk result (λ p. rest.new.line + length rest.new.text.now
        ≤ rest.old.line + length rest.old.text.now) }
    ensures refused { IfErr result (IsCertTextFault rest.old.text.now) }
{
    let Some(version) = next_mark(rest) else {
        return Err(CertTextFault::Header(1));
    };
    let Some(claim) = next_claim(rest) else {
        return Err(CertTextFault::Header(2));
    };
    let Some(count) = next_count(rest) else {
        return Err(CertTextFault::Header(3));
    };
    Ok((version, claim, count))
}
