// Lines of a text, one after the other.
ghost use Rattle.std.specs.Prelude.{◌≡◌, ◌≢◌, ◌≤◌, ◌<◌, ◌+◌, ◌++◌, ◌^◌, [], IfErr, IfOk, IfSome, IsNone, List, OnOk, length};
ghost use Rattle.cert_lines.specs.Text.{line_text};
ghost use Rattle.cert_lines.specs.Shapes.{line_shape};
ghost use Rattle.cert_lines.specs.Limits.{IsVersion};
ghost use Rattle.cert_lines.specs.Line.{HasLine};
ghost use Rattle.certificate.specs.Values.{value_text};
ghost use Rattle.certificate.specs.Dues.{IsStop, Due};
ghost use Rattle.cert_lines.specs.Text.{HasNoFeed};

use crate::{CertLine, CertTextFault, LineFault, read_line};
use std::alloc::Global;

// What is left of a text, and the number of its first line.
#[derive(Debug, Drop)]
pub struct Rest<'a> {
    pub text: &'a [u8],
    pub line: u64,
}

// The bytes before the first line feed, and those after it.
pub fn split_line(text: &[u8]) -> Option<(&[u8], &[u8])>
    ensures some { IfSome result (λ p. text.now ≡ line_text p.0.now ++ p.1.now) }
    ensures plain { IfSome result (λ p. HasNoFeed p.0.now) }
    ensures none { IsNone result → HasNoFeed text.now }
{
    for (at, byte) in text.iter().enumerate() {
        if *byte == b'\n' {
            return Some((&text[..at], &text[at + 1..]));
        }
    }
    None
}

// The value of the next line of a text of this version.
pub fn next_line(alloc: Global, rest: &mut Rest, version: u32) -> Result<CertLine, CertTextFault>
    requires version { IsVersion version }
    requires room { rest.old.line + length rest.old.text.now < 2 ^ 64 }
    ensures line { IfOk result (λ l. HasLine version (line_shape l)) }
    ensures text { IfOk result (λ l. rest.old.text.now
        ≡ value_text (line_shape l) ++ rest.new.text.now) }
    ensures number { OnOk result (rest.new.line ≡ rest.old.line + 1) }
    ensures room { OnOk result (rest.new.line + length rest.new.text.now
        ≤ rest.old.line + length rest.old.text.now) }
    ensures refused { IfErr result (λ f. (dues : List Due) → (rest.old.text.now ≡ [] → dues ≢ [])
        → IsStop version dues rest.old.text.now rest.old.line f) }
{
    let number = rest.line;
    if rest.text.is_empty() {
        return Err(CertTextFault::Shape(number));
    }
    let Some((line, text)) = split_line(rest.text) else {
        return Err(CertTextFault::Line(number));
    };
    match read_line(alloc, line, version) {
        Ok(value) => {
            rest.text = text;
            rest.line = number + 1;
            Ok(value)
        }
        Err(LineFault::NoForm) => Err(CertTextFault::Line(number)),
        Err(LineFault::Memory) => Err(CertTextFault::Memory),
    }
}
