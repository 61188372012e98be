// Whether values are those of lines.
ghost use Rattle.std.specs.Prelude.{◌≡◌, ◌↔◌, IsTrue, unsigned_abs, length};
ghost use Rattle.cert_lines.specs.Limits.{IsSmallTimes};
ghost use Rattle.cert_lines.specs.Line.{HasSmallLinks, IsSmallLink};
ghost use Rattle.std.specs.List.{All};
ghost use Rattle.cert_lines.specs.declared.limits.TheConstants.{FIRST_CERT_VERSION};
ghost use Rattle.cert_lines.specs.Shapes.{BlockCut, BranchLine, CutLine, FarkasLine, GroupLine, LinearLine, ListLine, LsCut, PartLine, PriceCut, ReducedLine, RoundLine, block_lists, cut_first, cut_shape, leaf_first, leaf_shape, list_shape, price_lists};
ghost use Rattle.cert_lines.specs.Limits.{Is127, IsSmallClaim};
ghost use Rattle.cert_lines.specs.Line.{HasForm, HasLine, IsFirstName};

use crate::lengths::{
    block_length, branch_length, farkas_length, group_length, linear_length, ls_length,
    part_length, parts_length, price_length, reduced_length, round_length,
};
use crate::limits::{
    FIRST_CERT_VERSION, MAX_GROUPS, MAX_LISTS, MAX_PARTS, MAX_ROUND_PARTS, MOST_127,
    REDUCED_CERT_VERSION,
};
use crate::{Claim, Cut, Leaf, Part, PartList};
use item_groups::{ChainLink, Group};
use lin_rows::{Column, Potentials, Prices, RowName};
use round_cuts::MAX_DIVISOR;

// The greatest length of a line.
const LONGEST: u128 = crate::limits::MAX_LINE as u128;

/// Whether the amount of a claim is below 2^127.
pub fn is_small_claim(claim: Claim) -> bool
    ensures { IsTrue result ↔ IsSmallClaim claim }
{
    match claim {
        Claim::Optimal(amount) | Claim::Bound(amount) => amount <= MOST_127,
        Claim::Infeasible => true,
    }
}

// Whether a number is below 2^127 in absolute value.
fn is_small(number: i128) -> bool
    ensures { IsTrue result ↔ Is127 (unsigned_abs number) }
{
    number.unsigned_abs() <= MOST_127
}

// Whether all steps are below 2^127.
fn are_small(steps: &[u128]) -> bool
    ensures { IsTrue result ↔ All Is127 steps.now }
{
    steps.iter().all(|step| *step <= MOST_127)
}

// Whether the first version has the name of a row.
fn is_first_name(row: RowName) -> bool
    ensures { IsTrue result ↔ IsFirstName row }
{
    match row {
        RowName::Least(_, _) => false,
        RowName::Late(_, _) => false,
        _ => true,
    }
}

// Whether a version has the name of a row.
pub(crate) fn is_known_name(row: RowName, version: u32) -> bool
    ensures { IsTrue result ↔ (version ≡ FIRST_CERT_VERSION → IsFirstName row) }
{
    version != FIRST_CERT_VERSION || is_first_name(row)
}

/// Whether a part has a line in texts of this version: whether it is within the limits.
pub fn is_part_line(part: Part, version: u32) -> bool
    ensures { IsTrue result ↔ HasLine version (PartLine part) }
{
    is_known_name(part.row, version) && is_small(part.times) && part_length(part) <= LONGEST
}

/// Whether the line of a branch is within the limits.
pub fn is_branch_line(column: Column, at: u64) -> bool
    ensures { IsTrue result ↔ HasForm (BranchLine column at) }
{
    branch_length(column, at) <= LONGEST
}

// Whether the line of an inequality by setups is within the limits.
fn is_ls_line(item: u32, last: u32, chosen: &[bool]) -> bool
    ensures { IsTrue result ↔ HasForm (CutLine (LsCut item last chosen.now)) }
{
    last >= 1 && chosen.len() == last as usize && ls_length(item, last, chosen) <= LONGEST
}

// Whether the line of a price row is within the limits.
fn is_price_line(item: u32, prices: &Prices) -> bool
    ensures { IsTrue result ↔ HasForm (CutLine (PriceCut item (price_lists prices.now))) }
{
    price_length(item, prices) <= LONGEST
}

// Whether the line of a block row is within the limits.
fn is_block_line(item: u32, potentials: &Potentials) -> bool
    ensures { IsTrue result ↔ HasForm (CutLine (BlockCut item (block_lists potentials.now))) }
{
    are_small(&potentials.steps) && block_length(item, potentials) <= LONGEST
}

// Whether the first line of a cut by rounding is within the limits.
fn is_round_line(divisor: u64, parts: &[Part]) -> bool
    ensures { IsTrue result ↔ HasForm (RoundLine divisor (length parts.now)) }
{
    divisor >= 1
        && divisor <= MAX_DIVISOR
        && parts.len() <= MAX_ROUND_PARTS as usize
        && round_length(divisor, parts) <= LONGEST
}

/// Whether the first line of a cut is within the limits.
pub fn is_cut_line(cut: &Cut) -> bool
    ensures { IsTrue result ↔ HasForm (cut_first (cut_shape cut.now)) }
{
    match cut {
        Cut::Ls { item, last, chosen } => is_ls_line(*item, *last, chosen),
        Cut::Price { item, prices } => is_price_line(*item, prices),
        Cut::Block { item, potentials } => is_block_line(*item, potentials),
        Cut::Round { divisor, parts } => is_round_line(*divisor, parts),
    }
}

// Whether the first line of a leaf that bounds the cost is within the limits.
fn is_linear_line(den: i128, parts: &[Part]) -> bool
    ensures { IsTrue result ↔ HasForm (LinearLine den (length parts.now)) }
{
    den >= 1
        && is_small(den)
        && parts.len() <= MAX_PARTS as usize
        && linear_length(den, parts) <= LONGEST
}

// Whether the first line of a leaf without plans is within the limits.
fn is_farkas_line(parts: &[Part]) -> bool
    ensures { IsTrue result ↔ HasForm (FarkasLine (length parts.now)) }
{
    parts.len() <= MAX_PARTS as usize && farkas_length(parts) <= LONGEST
}

// Whether the first line of a leaf over reduced costs is within the limits.
fn is_reduced_line(den: u64, parts: &[Part], lists: &[PartList], groups: &[Group]) -> bool
    ensures { IsTrue result
        ↔ HasForm (ReducedLine den (length parts.now) (length lists.now) (length groups.now)) }
{
    parts.len() <= MAX_PARTS as usize
        && lists.len() <= MAX_LISTS as usize
        && groups.len() <= MAX_GROUPS as usize
        && reduced_length(den, parts, lists, groups) <= LONGEST
}

/// Whether a leaf has a first line in texts of this version: whether that line is within the limits,
/// and the version has leaves of this kind.
pub fn is_leaf_line(leaf: &Leaf, version: u32) -> bool
    ensures { IsTrue result ↔ HasLine version (leaf_first (leaf_shape leaf.now)) }
{
    match leaf {
        Leaf::Linear { den, parts } => is_linear_line(*den, parts),
        Leaf::Farkas { parts } => is_farkas_line(parts),
        Leaf::Point => true,
        Leaf::Reduced {
            den,
            parts,
            lists,
            groups,
        } => { version >= REDUCED_CERT_VERSION && is_reduced_line(*den, parts, lists, groups) }
    }
}

// Whether all multipliers are below 2^127 in absolute value.
fn are_small_times(times: &[i128]) -> bool
    ensures { IsTrue result ↔ All IsSmallTimes times.now }
{
    times.iter().all(|number| is_small(*number))
}

/// Whether a list of multiples has a line in texts of this version.
pub fn is_list_line(list: &PartList, version: u32) -> bool
    ensures { IsTrue result ↔ HasLine version (ListLine (list_shape list.now)) }
{
    version >= REDUCED_CERT_VERSION && are_small_times(&list.times) && parts_length(list) <= LONGEST
}

// Whether the numbers of an item of a chain are within the limits.
fn is_small_link(link: ChainLink) -> bool
    ensures { IsTrue result ↔ IsSmallLink link }
{
    link.opening_price <= MOST_127
}

// Whether the numbers of a chain are within the limits; those of one item are.
fn has_small_links(group: &Group) -> bool
    ensures { IsTrue result ↔ HasSmallLinks group.now }
{
    match group {
        Group::Item { .. } | Group::Quantities { .. } => true,
        Group::Late { .. } | Group::LateQuantities { .. } => true,
        Group::Pair { low, top } => is_small_link(*low) && is_small_link(*top),
        Group::Triple { low, mid, top } => {
            is_small_link(*low) && is_small_link(*mid) && is_small_link(*top)
        }
    }
}

/// Whether a group has a line in texts of this version.
pub fn is_group_line(group: &Group, version: u32) -> bool
    ensures { IsTrue result ↔ HasLine version (GroupLine group.now) }
{
    version >= REDUCED_CERT_VERSION && has_small_links(group) && group_length(group) <= LONGEST
}
