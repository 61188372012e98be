// The first three lines of a certificate's text.
ghost use Rattle.std.specs.Prelude.{◌≡◌, ◌≤◌, ◌++◌, ℕ, IfSome, IsNone, decimal};
ghost use Rattle.cert_lines.specs.declared.parts.Claim.{Claim};
ghost use Rattle.cert_lines.specs.declared.head.HeadLine.{HeadLine};
ghost use Rattle.cert_lines.specs.Text.{claim_line, count_line};
ghost use Rattle.cert_lines.specs.declared.head.HeadLine.TheVariants.{Mark};
ghost use Rattle.cert_lines.specs.Limits.{IsSmallClaim, IsVersion};
ghost use Rattle.cert_lines.specs.Head.{IsHead, head_line};

use crate::Claim;
use crate::limits::{FIRST_CERT_VERSION, MAX_CERT_VERSION, MAX_CUTS, MOST_127};
use whole_numbers::read_whole;

/// One of the first three lines.
#[derive(Clone, Copy, Debug, PartialEq, Eq)]
pub enum HeadLine {
    /// What the text is, and its version.
    Mark(u32),
    /// What it proves.
    Claim(Claim),
    /// The number of cuts.
    Cuts(u32),
}

// The number at the end of a line, if this stands before it and it is at most that.
pub(crate) fn number_after(line: &[u8], before: &[u8], most: u128) -> Option<u128>
    ensures some { IfSome result (λ n. (line.now ≡ before.now ++ decimal n) × (n ≤ most)) }
    ensures none { IsNone result → (n : ℕ) → n ≤ most → line.now ≡ before.now ++ decimal n → ⊥ }
{
    match line.strip_prefix(before) {
        Some(rest) => match read_whole(rest, most) {
            Ok(number) => Some(number),
            Err(_) => None,
        },
        None => None,
    }
}

// The version of a line.
fn read_version(line: &[u8]) -> Option<u32>
    ensures some { IfSome result (λ version. (line.now ≡ head_line (Mark version))
        × IsVersion version) }
    ensures none { IsNone result → (version : ℕ) → IsVersion version
        → line.now ≡ head_line (Mark version) → ⊥ }
{
    match number_after(line, b"lotcert ", MAX_CERT_VERSION as u128) {
        Some(version) => {
            if version < FIRST_CERT_VERSION as u128 {
                return None;
            }
            Some(version as u32)
        }
        None => None,
    }
}

// The claim of a line.
fn read_claim(line: &[u8]) -> Option<Claim>
    ensures some { IfSome result (λ claim. (line.now ≡ claim_line claim) × IsSmallClaim claim) }
    ensures none { IsNone result → (claim : Claim) → IsSmallClaim claim
        → line.now ≡ claim_line claim → ⊥ }
{
    if line == b"claim infeasible".as_slice() {
        return Some(Claim::Infeasible);
    }
    if let Some(cost) = number_after(line, b"claim optimal ", MOST_127) {
        return Some(Claim::Optimal(cost));
    }
    match number_after(line, b"claim bound ", MOST_127) {
        Some(bound) => Some(Claim::Bound(bound)),
        None => None,
    }
}

/// The value of line 1, 2 or 3 of a text whose bytes, the line feed not counted, these are. None exactly where
/// they aren't of that line's form. It takes no memory.
pub fn read_head(place: u32, line: &[u8]) -> Option<HeadLine>
    requires low { 1 ≤ place }
    requires high { place ≤ 3 }
    ensures some { IfSome result (IsHead place line.now) }
    ensures none { IsNone result → (head : HeadLine) → IsHead place line.now head → ⊥ }
{
    if place == 1 {
        return match read_version(line) {
            Some(version) => Some(HeadLine::Mark(version)),
            None => None,
        };
    }
    if place == 2 {
        return match read_claim(line) {
            Some(claim) => Some(HeadLine::Claim(claim)),
            None => None,
        };
    }
    match number_after(line, b"cuts ", MAX_CUTS as u128) {
        Some(count) => Some(HeadLine::Cuts(count as u32)),
        None => None,
    }
}
