// The text of a certificate.
ghost use Rattle.std.specs.Prelude.{◌≡◌, ◌++◌, IfOk, OnOk, map, string_bytes};
ghost use Rattle.cert_lines.specs.Shapes.{cut_shape, leaf_shape, list_shape};
ghost use Rattle.certificate.specs.Shapes.{shape_of, tree_shape};
ghost use Rattle.certificate.specs.Values.{all_cut_values, cut_values, group_values, leaf_values, list_values, part_values, tree_values, values_text};
ghost use Rattle.certificate.specs.Text.{certificate_text};
ghost use Rattle.certificate.specs.Limits.{IsTextOf, IsWritable};

use crate::{Certificate, Cut, Leaf, Part, PartList, Tree};
use cert_lines::{
    add_branch, add_claim, add_count, add_cut_line, add_group_line, add_leaf_line, add_list_line,
    add_mark, add_part,
};
use item_groups::Group;
use std::alloc::{AllocError, Global};

// Adds a line for each part.
fn add_parts(text: &mut String, parts: &[Part]) -> Result<(), AllocError>
    ensures { OnOk result (string_bytes text.new
        ≡ string_bytes text.old ++ values_text (part_values parts.now)) }
{
    for part in parts {
        add_part(text, *part)?;
    }
    Ok(())
}

// Adds a line for each list.
fn add_lists(text: &mut String, lists: &[PartList]) -> Result<(), AllocError>
    ensures { OnOk result (string_bytes text.new
        ≡ string_bytes text.old ++ values_text (list_values (map list_shape lists.now))) }
{
    for list in lists {
        add_list_line(text, list)?;
    }
    Ok(())
}

// Adds a line for each group.
fn add_groups(text: &mut String, groups: &[Group]) -> Result<(), AllocError>
    ensures { OnOk result (string_bytes text.new
        ≡ string_bytes text.old ++ values_text (group_values groups.now)) }
{
    for group in groups {
        add_group_line(text, group)?;
    }
    Ok(())
}

// Adds a cut, with its parts.
fn add_cut(text: &mut String, cut: &Cut) -> Result<(), AllocError>
    ensures { OnOk result (string_bytes text.new
        ≡ string_bytes text.old ++ values_text (cut_values (cut_shape cut.now))) }
{
    add_cut_line(text, cut)?;
    add_parts(text, cut.parts())?;
    Ok(())
}

// Adds the cuts.
fn add_cuts(text: &mut String, cuts: &[Cut]) -> Result<(), AllocError>
    ensures { OnOk result (string_bytes text.new
        ≡ string_bytes text.old ++ values_text (all_cut_values (map cut_shape cuts.now))) }
{
    for cut in cuts {
        add_cut(text, cut)?;
    }
    Ok(())
}

// Adds a leaf, with its parts, lists and groups.
fn add_leaf(text: &mut String, leaf: &Leaf) -> Result<(), AllocError>
    ensures { OnOk result (string_bytes text.new
        ≡ string_bytes text.old ++ values_text (leaf_values (leaf_shape leaf.now))) }
{
    add_leaf_line(text, leaf)?;
    add_parts(text, leaf.parts())?;
    add_lists(text, leaf.lists())?;
    add_groups(text, leaf.groups())?;
    Ok(())
}

// Adds a tree: a branch, its low side and its high side.
fn add_tree(text: &mut String, tree: &Tree) -> Result<(), AllocError>
    ensures { OnOk result (string_bytes text.new
        ≡ string_bytes text.old ++ values_text (tree_values (tree_shape tree.now))) }
{
    match tree {
        Tree::Branch {
            column,
            at,
            low,
            high,
        } => {
            add_branch(text, *column, *at)?;
            add_tree(text, low)?;
            add_tree(text, high)?;
        }
        Tree::Leaf(leaf) => add_leaf(text, leaf)?,
    }
    Ok(())
}

/// The text of a certificate. The error is out of memory.
///
/// It calls itself once for each branch on the way to a leaf, and takes time in the length of the text.
pub fn write_certificate(alloc: Global, certificate: &Certificate) -> Result<Vec<u8>, AllocError>
    ensures text { IfOk result (λ bytes. bytes.items
        ≡ certificate_text (shape_of certificate.now)) }
    ensures means { IfOk result (λ bytes. IsWritable (shape_of certificate.now)
        → IsTextOf bytes.items (shape_of certificate.now)) }
{
    let mut text = String::from_str(alloc, "")?;
    add_mark(&mut text, certificate.version)?;
    add_claim(&mut text, certificate.claim)?;
    add_count(&mut text, certificate.cuts.len())?;
    add_cuts(&mut text, &certificate.cuts)?;
    add_tree(&mut text, &certificate.tree)?;
    write!(text, "end\n")?;
    Ok(text.into_bytes())
}
