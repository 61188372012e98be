// The later lines of a certificate's text.
ghost use Rattle.std.specs.Prelude.{◌↔◌, ℕ, IfOk, IfSome, IsErrOf, IsNone, IsTrue, length, map};
ghost use Rattle.item_groups.specs.declared.group.Group.{Group};
ghost use Rattle.cert_lines.specs.Shapes.{CutShape, GroupLine, LineShape, ListLine, ListShape, ReducedLine, cut_shape, line_shape};
ghost use Rattle.cert_lines.specs.Forms.{IsCutOf, IsLineOf};
ghost use Rattle.cert_lines.specs.declared.line.LineFault.TheVariants.{NoForm};
ghost use Rattle.cert_lines.specs.Limits.{IsVersion};
ghost use Rattle.cert_lines.specs.Line.{IsKnown, IsLine, IsWritten};

use crate::fitting::is_known_name;
use crate::forms::{read_branch, read_farkas, read_linear, read_part, read_round};
use crate::limits::{MAX_LINE, REDUCED_CERT_VERSION};
use crate::lists::{read_block, read_ls, read_price};
use crate::reduced::{read_group, read_parts_list, read_reduced};
use crate::words::{is_word, split};
use crate::{Cut, Part, PartList};
use item_groups::Group;
use lin_rows::Column;
use std::alloc::{AllocError, Global};
use thiserror::Error;

/// A line after the first three.
#[derive(Debug, Drop)]
pub enum CertLine {
    /// A cut of one line: `ls`, `price` or `block`.
    Cut(Cut),
    /// A cut by rounding, whose parts are the lines after it.
    Round {
        /// The divisor.
        divisor: u64,
        /// The number of parts.
        parts: u32,
    },
    /// A multiple of a row.
    Part(Part),
    /// A branch.
    Branch {
        /// The column whose range is split.
        column: Column,
        /// The greatest value on the low side.
        at: u64,
    },
    /// A leaf with a bound, whose parts are the lines after it.
    Linear {
        /// The common denominator of the multipliers.
        den: i128,
        /// The number of parts.
        parts: u32,
    },
    /// A leaf without plans, whose parts are the lines after it.
    Farkas {
        /// The number of parts.
        parts: u32,
    },
    /// A leaf that is left to the plan at hand.
    Point,
    /// A leaf over reduced costs, whose parts, lists and groups are the lines after it.
    Reduced {
        /// The common denominator of the multipliers.
        den: u64,
        /// The number of parts.
        parts: u32,
        /// The number of lists of parts.
        lists: u32,
        /// The number of groups.
        groups: u32,
    },
    /// Multiples of rows of one kind, one for each period.
    List(PartList),
    /// A group of items.
    Group(Group),
    /// The last line.
    End,
}

/// Why a line isn't read.
#[derive(Clone, Copy, Debug, PartialEq, Eq, Error)]
pub enum LineFault {
    /// The bytes are too many, or have no form of a line.
    #[error("the line is too long, or has no form of a line")]
    NoForm,
    /// Memory ran out.
    #[error("out of memory")]
    Memory,
}

impl From<AllocError> for LineFault {
    ghost use Rattle.std.specs.Prelude.{◌≡◌};
    ghost use Rattle.cert_lines.specs.declared.line.LineFault.TheVariants.{Memory};

    ghost from_gives = { λ _ e. e ≡ Memory };

    fn from(_: AllocError) -> LineFault {
        LineFault::Memory
    }
}

// The words of a line as a cut.
fn read_cut(alloc: Global, words: &[&[u8]]) -> Result<Option<Cut>, AllocError>
    ensures some { IfOk result (λ read.
        IfSome read (λ c. IsCutOf (map (λ w. w.now) words.now) (cut_shape c))) }
    ensures none { IfOk result (λ read. IsNone read → (c : CutShape)
        → IsCutOf (map (λ w. w.now) words.now) c → ⊥) }
{
    if let Some((item, last, chosen)) = read_ls(alloc, words)? {
        return Ok(Some(Cut::Ls { item, last, chosen }));
    }
    if let Some((item, prices)) = read_price(alloc, words)? {
        return Ok(Some(Cut::Price { item, prices }));
    }
    match read_block(alloc, words)? {
        Some((item, potentials)) => Ok(Some(Cut::Block { item, potentials })),
        None => Ok(None),
    }
}

// The words of a line of a leaf over reduced costs: its first one, a list of multiples, or a group.
fn read_reduced_words(alloc: Global, words: &[&[u8]]) -> Result<Option<CertLine>, AllocError>
    ensures some { IfOk result (λ read. IfSome read (λ l.
        IsLineOf (map (λ w. w.now) words.now) (line_shape l))) }
    ensures no_leaf { IfOk result (λ read. IsNone read → (den parts lists groups : ℕ)
        → IsLineOf (map (λ w. w.now) words.now) (ReducedLine den parts lists groups) → ⊥) }
    ensures no_list { IfOk result (λ read. IsNone read → (a : ListShape)
        → IsLineOf (map (λ w. w.now) words.now) (ListLine a) → ⊥) }
    ensures no_group { IfOk result (λ read. IsNone read → (g : Group)
        → IsLineOf (map (λ w. w.now) words.now) (GroupLine g) → ⊥) }
{
    if let Some((den, parts, lists, groups)) = read_reduced(words) {
        return Ok(Some(CertLine::Reduced {
            den,
            parts,
            lists,
            groups,
        }));
    }
    if let Some(list) = read_parts_list(alloc, words)? {
        return Ok(Some(CertLine::List(list)));
    }
    match read_group(alloc, words)? {
        Some(group) => Ok(Some(CertLine::Group(group))),
        None => Ok(None),
    }
}

// The words of a line are tried against each form.
fn read_words(alloc: Global, words: &[&[u8]]) -> Result<Option<CertLine>, AllocError>
    ensures some { IfOk result (λ read.
        IfSome read (λ l. IsLineOf (map (λ w. w.now) words.now) (line_shape l))) }
    ensures none { IfOk result (λ read. IsNone read → (l : LineShape)
        → IsLineOf (map (λ w. w.now) words.now) l → ⊥) }
{
    if let Some(part) = read_part(words) {
        return Ok(Some(CertLine::Part(part)));
    }
    if let Some((column, at)) = read_branch(words) {
        return Ok(Some(CertLine::Branch { column, at }));
    }
    if let Some((den, parts)) = read_linear(words) {
        return Ok(Some(CertLine::Linear {
            den: den as i128,
            parts,
        }));
    }
    if let Some(parts) = read_farkas(words) {
        return Ok(Some(CertLine::Farkas { parts }));
    }
    if let Some((divisor, parts)) = read_round(words) {
        return Ok(Some(CertLine::Round { divisor, parts }));
    }
    if words.len() == 1 {
        if is_word(words, 0, b"point") {
            return Ok(Some(CertLine::Point));
        }
        if is_word(words, 0, b"end") {
            return Ok(Some(CertLine::End));
        }
        return Ok(None);
    }
    if let Some(line) = read_reduced_words(alloc, words)? {
        return Ok(Some(line));
    }
    match read_cut(alloc, words)? {
        Some(cut) => Ok(Some(CertLine::Cut(cut))),
        None => Ok(None),
    }
}

// The value of a line after the first three, of any version.
fn read_any(alloc: Global, line: &[u8]) -> Result<CertLine, LineFault>
    ensures value { IfOk result (λ l. IsWritten line.now (line_shape l)) }
    ensures no_form { IsErrOf result NoForm → (l : LineShape) → IsWritten line.now l → ⊥ }
{
    if line.len() > MAX_LINE {
        return Err(LineFault::NoForm);
    }
    let words = split(alloc, line)?;
    match read_words(alloc, &words)? {
        Some(read) => Ok(read),
        None => Err(LineFault::NoForm),
    }
}

// Whether a version has the form of a line.
fn is_known(line: &CertLine, version: u32) -> bool
    ensures { IsTrue result ↔ IsKnown version (line_shape line.now) }
{
    match line {
        CertLine::Part(part) => is_known_name(part.row, version),
        CertLine::Reduced { .. } => version >= REDUCED_CERT_VERSION,
        CertLine::List(_) => version >= REDUCED_CERT_VERSION,
        CertLine::Group(_) => version >= REDUCED_CERT_VERSION,
        _ => true,
    }
}

/// The value of a line after the first three of a text of this version, 1 to 3, whose bytes, the line feed not
/// counted, these are. `NoForm` exactly where they are more than `MAX_LINE` or have none of the version's forms.
/// Time and memory grow with the line.
pub fn read_line(alloc: Global, line: &[u8], version: u32) -> Result<CertLine, LineFault>
    requires version { IsVersion version }
    ensures value { IfOk result (λ l. IsLine version line.now (line_shape l)) }
    ensures no_form { IsErrOf result NoForm → (l : LineShape) → IsLine version line.now l → ⊥ }
{
    match read_any(alloc, line) {
        Ok(read) => {
            if !is_known(&read, version) {
                return Err(LineFault::NoForm);
            }
            Ok(read)
        }
        Err(fault) => Err(fault),
    }
}
