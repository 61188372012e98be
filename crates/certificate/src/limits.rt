// The limits of a certificate's text.
ghost use Rattle.std.specs.Prelude.{◌≤◌, ◌↔◌, IsTrue, length, map};
ghost use Rattle.std.specs.List.{All};
ghost use Rattle.cert_lines.specs.declared.limits.TheConstants.{MAX_BRANCHES, MAX_CUTS};
ghost use Rattle.cert_lines.specs.Shapes.{GroupLine, ListLine, PartLine, cut_shape, leaf_shape, list_shape};
ghost use Rattle.cert_lines.specs.Limits.{IsVersion};
ghost use Rattle.cert_lines.specs.Line.{HasLine};
ghost use Rattle.certificate.specs.Shapes.{shape_of, tree_shape};
ghost use Rattle.certificate.specs.Counts.{longest_path};
ghost use Rattle.certificate.specs.Values.{AreLines, body_values, cut_values, leaf_values, tree_values};
ghost use Rattle.certificate.specs.Limits.{IsWritable};

use crate::counts::longest;
use crate::{Certificate, Cut, Leaf, Part, PartList, Tree};
use cert_lines::{
    FIRST_CERT_VERSION, MAX_BRANCHES, MAX_CERT_VERSION, MAX_CUTS, is_branch_line, is_cut_line,
    is_group_line, is_leaf_line, is_list_line, is_part_line, is_small_claim,
};
use item_groups::Group;

// Whether the line of each part is within the limits.
fn have_part_lines(parts: &[Part], version: u32) -> bool
    ensures { IsTrue result ↔ All (λ part. HasLine version (PartLine part)) parts.now }
{
    parts.iter().all(|part| is_part_line(*part, version))
}

// Whether the line of each list is within the limits.
fn have_list_lines(lists: &[PartList], version: u32) -> bool
    ensures { IsTrue result ↔ All (λ a. HasLine version (ListLine (list_shape a))) lists.now }
{
    lists.iter().all(|list| is_list_line(list, version))
}

// Whether the line of each group is within the limits.
fn have_group_lines(groups: &[Group], version: u32) -> bool
    ensures { IsTrue result ↔ All (λ g. HasLine version (GroupLine g)) groups.now }
{
    for group in groups {
        if !is_group_line(group, version) {
            return false;
        }
    }
    true
}

// Whether the lines of a cut are within the limits.
fn has_cut_lines(cut: &Cut, version: u32) -> bool
    ensures { IsTrue result ↔ AreLines version (cut_values (cut_shape cut.now)) }
{
    if !is_cut_line(cut) {
        return false;
    }
    have_part_lines(cut.parts(), version)
}

// Whether the lines of each cut are within the limits.
fn have_cut_lines(cuts: &[Cut], version: u32) -> bool
    ensures { IsTrue result ↔ All (λ cut. AreLines version (cut_values (cut_shape cut))) cuts.now }
{
    cuts.iter().all(|cut| has_cut_lines(cut, version))
}

/// Whether a leaf has its lines in texts of a version: whether all are within the limits, and the version has them. It takes no
/// memory, and time in the number of its parts, lists and groups.
pub fn has_leaf_lines(leaf: &Leaf, version: u32) -> bool
    ensures { IsTrue result ↔ AreLines version (leaf_values (leaf_shape leaf.now)) }
{
    if !is_leaf_line(leaf, version) {
        return false;
    }
    if !have_part_lines(leaf.parts(), version) {
        return false;
    }
    if !have_list_lines(leaf.lists(), version) {
        return false;
    }
    have_group_lines(leaf.groups(), version)
}

// Whether the lines of a tree are within the limits.
fn has_tree_lines(tree: &Tree, version: u32) -> bool
    ensures { IsTrue result ↔ AreLines version (tree_values (tree_shape tree.now)) }
{
    match tree {
        Tree::Branch {
            column,
            at,
            low,
            high,
        } => {
            if !is_branch_line(*column, *at) || !has_tree_lines(low, version) {
                return false;
            }
            has_tree_lines(high, version)
        }
        Tree::Leaf(leaf) => has_leaf_lines(leaf, version),
    }
}

// Whether the lines after the first three are within the limits.
fn has_body_lines(certificate: &Certificate) -> bool
    ensures { IsTrue result ↔ AreLines certificate.now.version
        (body_values (shape_of certificate.now)) }
{
    if !have_cut_lines(&certificate.cuts, certificate.version) {
        return false;
    }
    has_tree_lines(&certificate.tree, certificate.version)
}

// Whether there are not too many cuts.
fn are_few(cuts: &[Cut]) -> bool
    ensures { IsTrue result ↔ (length (map cut_shape cuts.now) ≤ MAX_CUTS) }
{
    cuts.len() <= MAX_CUTS as usize
}

// Whether no path of a tree has too many branches.
fn has_short_paths(tree: &Tree) -> bool
    ensures { IsTrue result ↔ (longest_path (tree_shape tree.now) ≤ MAX_BRANCHES) }
{
    longest(tree) <= MAX_BRANCHES as u64
}

// Whether a number is that of a version.
fn is_version(version: u32) -> bool
    ensures { IsTrue result ↔ IsVersion version }
{
    version >= FIRST_CERT_VERSION && version <= MAX_CERT_VERSION
}

/// Whether a certificate is within the limits of its text: amounts, multipliers, steps and opening prices below 2^127,
/// denominators of at least 1 but in leaves over reduced costs, divisors from 1 to `MAX_DIVISOR`, and as many setups
/// chosen as there are periods; at most `MAX_CUTS` cuts, `MAX_ROUND_PARTS` parts in a cut by rounding, `MAX_PARTS`
/// parts, `MAX_LISTS` lists and `MAX_GROUPS` groups in a leaf, `MAX_BRANCHES` branches on a path, and `MAX_LINE` bytes
/// in a line; a version from `FIRST_CERT_VERSION` to `MAX_CERT_VERSION`, in the first no part that names a least lot
/// or a late one, and leaves over reduced costs from `REDUCED_CERT_VERSION` on. It takes no memory.
pub fn is_writable(certificate: &Certificate) -> bool
    ensures { IsTrue result ↔ IsWritable (shape_of certificate.now) }
{
    is_version(certificate.version)
        && is_small_claim(certificate.claim)
        && are_few(&certificate.cuts)
        && has_short_paths(&certificate.tree)
        && has_body_lines(certificate)
}
