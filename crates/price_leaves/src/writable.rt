// Whether a proposal has lines in certificates.
ghost use Rattle.std.specs.Prelude.{◌∷◌, ◌↔◌, IfSome, IsTrue, List, map};
ghost use Rattle.std.specs.List.{All};
ghost use Rattle.cert_lines.specs.Line.{HasForm, HasLine};
ghost use Rattle.cert_lines.specs.Shapes.{CutShape, PartLine, cut_first, cut_shape};
ghost use Rattle.cert_lines.specs.declared.limits.TheConstants.{FIRST_CERT_VERSION};
ghost use Rattle.price_leaves.specs.Proposals.{AreRising, IsProposal};

use crate::Priced;
use cert_lines::{Cut, FIRST_CERT_VERSION, MAX_PARTS, Part, is_cut_line, is_part_line};
use lot_model::Instance;

// The item of a block cut, where it comes after an item and isn't past the last one.
fn item_after(cut: &Cut, last: u32, most: u32) -> Option<u32>
    ensures { IfSome result (λ item. (rest : List CutShape) → AreRising most item rest
        → AreRising most last (cut_shape cut.now ∷ rest)) }
{
    match cut {
        Cut::Block { item, .. } if *item > last && *item <= most => Some(*item),
        _ => None,
    }
}

// Whether all are block cuts of items up to a last one, in rising order.
fn are_rising(cuts: &[Cut], most: u32) -> bool
    ensures { IsTrue result → AreRising most 0 (map cut_shape cuts.now) }
{
    let mut last = 0;
    for cut in cuts {
        match item_after(cut, last, most) {
            Some(item) => last = item,
            None => return false,
        }
    }
    true
}

// Whether the first line of each cut is within the limits.
fn are_cut_lines(cuts: &[Cut]) -> bool
    ensures { IsTrue result ↔ All (λ cut. HasForm (cut_first (cut_shape cut))) cuts.now }
{
    cuts.iter().all(|cut| is_cut_line(cut))
}

// Whether each part has a line in texts of the first version.
fn are_part_lines(parts: &[Part]) -> bool
    ensures { IsTrue result ↔ All (λ part. HasLine FIRST_CERT_VERSION (PartLine part)) parts.now }
{
    parts
        .iter()
        .all(|part| is_part_line(*part, FIRST_CERT_VERSION))
}

// Cuts and parts as a proposal, where all of them are within the limits.
pub(crate) fn tested(
    instance: &Instance,
    cuts: Vec<Cut>,
    parts: Vec<Part>,
    den: u64,
) -> Option<Priced>
    ensures { IfSome result (IsProposal instance.now) }
{
    let few = den >= 1 && parts.len() <= MAX_PARTS as usize;
    let written = are_cut_lines(&cuts) && are_part_lines(&parts);
    if few && written && are_rising(&cuts, instance.items()) {
        return Some(Priced {
            cuts,
            parts,
            den: u128::from(den),
        });
    }
    None
}
