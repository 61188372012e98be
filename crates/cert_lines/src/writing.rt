// The lines of a certificate as texts.
ghost use Rattle.std.specs.Prelude.{◌≡◌, ◌++◌, OnOk, string_bytes};
ghost use Rattle.cert_lines.specs.Text.{bit_text, bits_text, block_head, block_line, branch_line, claim_line, count_line, kind_text, line_text, link_text, list_text, part_line, price_head, price_line, shares_text, signed_list_text};
ghost use Rattle.cert_lines.specs.declared.head.HeadLine.TheVariants.{Mark};
ghost use Rattle.cert_lines.specs.Head.{head_line};
ghost use Rattle.cert_lines.specs.Line.{later_line};
ghost use Rattle.cert_lines.specs.Shapes.{GroupLine, ListLine, block_lists, cut_first, cut_shape, leaf_first, leaf_shape, list_shape, price_lists};
ghost use Rattle.item_groups.specs.declared.group.Group.TheVariants as group;

use crate::{Claim, Cut, Leaf, ListKind, Part, PartList};
use item_groups::{ChainLink, Group, Shares};
use lin_rows::{Column, Potentials, Prices};
use std::alloc::AllocError;

/// Adds the first line, with the version of the text.
pub fn add_mark(text: &mut String, version: u32) -> Result<(), AllocError>
    ensures { OnOk result (string_bytes text.new
        ≡ string_bytes text.old ++ line_text (head_line (Mark version))) }
{
    write!(text, "lotcert {version}\n")?;
    Ok(())
}

/// Adds the claim.
pub fn add_claim(text: &mut String, claim: Claim) -> Result<(), AllocError>
    ensures { OnOk result (string_bytes text.new
        ≡ string_bytes text.old ++ line_text (claim_line claim)) }
{
    match claim {
        Claim::Optimal(cost) => write!(text, "claim optimal {cost}\n")?,
        Claim::Infeasible => write!(text, "claim infeasible\n")?,
        Claim::Bound(bound) => write!(text, "claim bound {bound}\n")?,
    }
    Ok(())
}

/// Adds the number of cuts.
pub fn add_count(text: &mut String, count: usize) -> Result<(), AllocError>
    ensures { OnOk result (string_bytes text.new
        ≡ string_bytes text.old ++ line_text (count_line count)) }
{
    write!(text, "cuts {count}\n")?;
    Ok(())
}

// Adds numbers, each after a space.
fn add_list(text: &mut String, list: &[u64]) -> Result<(), AllocError>
    ensures { OnOk result (string_bytes text.new ≡ string_bytes text.old ++ list_text list.now) }
{
    for number in list {
        write!(text, " {number}")?;
    }
    Ok(())
}

// Adds wide numbers, each after a space.
fn add_wide_list(text: &mut String, list: &[u128]) -> Result<(), AllocError>
    ensures { OnOk result (string_bytes text.new ≡ string_bytes text.old ++ list_text list.now) }
{
    for number in list {
        write!(text, " {number}")?;
    }
    Ok(())
}

// Adds a digit for a truth value.
fn add_bit(text: &mut String, bit: bool) -> Result<(), AllocError>
    ensures { OnOk result (string_bytes text.new ≡ string_bytes text.old ++ bit_text bit) }
{
    if bit {
        write!(text, "1")?;
    } else {
        write!(text, "0")?;
    }
    Ok(())
}

// Adds a digit for each truth value.
fn add_bits(text: &mut String, bits: &[bool]) -> Result<(), AllocError>
    ensures { OnOk result (string_bytes text.new ≡ string_bytes text.old ++ bits_text bits.now) }
{
    for bit in bits {
        add_bit(text, *bit)?;
    }
    Ok(())
}

/// Adds the line of a part.
pub fn add_part(text: &mut String, part: Part) -> Result<(), AllocError>
    ensures { OnOk result (string_bytes text.new
        ≡ string_bytes text.old ++ line_text (part_line part)) }
{
    let Part { row, times } = part;
    write!(text, "part {row} {times}\n")?;
    Ok(())
}

// Adds what stands before the lists of a price row.
fn add_price_head(text: &mut String, item: u32) -> Result<(), AllocError>
    ensures { OnOk result (string_bytes text.new ≡ string_bytes text.old ++ price_head item) }
{
    write!(text, "price {item} w")?;
    Ok(())
}

// Adds what stands before the lists of a block row.
fn add_block_head(text: &mut String, item: u32) -> Result<(), AllocError>
    ensures { OnOk result (string_bytes text.new ≡ string_bytes text.old ++ block_head item) }
{
    write!(text, "block {item} f")?;
    Ok(())
}

// Adds the line of a price row.
fn add_prices(text: &mut String, item: u32, prices: &Prices) -> Result<(), AllocError>
    ensures { OnOk result (string_bytes text.new
        ≡ string_bytes text.old ++ line_text (price_line item (price_lists prices.now))) }
{
    add_price_head(text, item)?;
    add_list(text, &prices.price)?;
    write!(text, " g")?;
    add_list(text, &prices.unit)?;
    write!(text, " h")?;
    add_list(text, &prices.hold)?;
    write!(text, " b")?;
    add_list(text, &prices.back)?;
    write!(text, "\n")?;
    Ok(())
}

// Adds the line of a block row.
fn add_potentials(text: &mut String, item: u32, potentials: &Potentials) -> Result<(), AllocError>
    ensures { OnOk result (string_bytes text.new
        ≡ string_bytes text.old ++ line_text (block_line item (block_lists potentials.now))) }
{
    add_block_head(text, item)?;
    add_list(text, &potentials.setup)?;
    write!(text, " g")?;
    add_list(text, &potentials.unit)?;
    write!(text, " h")?;
    add_list(text, &potentials.hold)?;
    write!(text, " b")?;
    add_list(text, &potentials.back)?;
    write!(text, " p")?;
    add_wide_list(text, &potentials.steps)?;
    write!(text, "\n")?;
    Ok(())
}

/// Adds the line of a cut, without its parts.
pub fn add_cut_line(text: &mut String, cut: &Cut) -> Result<(), AllocError>
    ensures { OnOk result (string_bytes text.new
        ≡ string_bytes text.old ++ line_text (later_line (cut_first (cut_shape cut.now)))) }
{
    match cut {
        Cut::Ls { item, last, chosen } => {
            write!(text, "ls {item} {last} ")?;
            add_bits(text, chosen)?;
            write!(text, "\n")?;
        }
        Cut::Price { item, prices } => add_prices(text, *item, prices)?,
        Cut::Block { item, potentials } => add_potentials(text, *item, potentials)?,
        Cut::Round { divisor, parts } => {
            let count = parts.len();
            write!(text, "round {divisor} {count}\n")?;
        }
    }
    Ok(())
}

/// Adds the first line of a leaf.
pub fn add_leaf_line(text: &mut String, leaf: &Leaf) -> Result<(), AllocError>
    ensures { OnOk result (string_bytes text.new
        ≡ string_bytes text.old ++ line_text (later_line (leaf_first (leaf_shape leaf.now)))) }
{
    match leaf {
        Leaf::Linear { den, parts } => {
            let count = parts.len();
            write!(text, "linear {den} {count}\n")?;
        }
        Leaf::Farkas { parts } => {
            let count = parts.len();
            write!(text, "farkas {count}\n")?;
        }
        Leaf::Point => write!(text, "point\n")?,
        Leaf::Reduced {
            den,
            parts,
            lists,
            groups,
        } => {
            let parts = parts.len();
            let lists = lists.len();
            let groups = groups.len();
            write!(text, "reduced {den} {parts} {lists} {groups}\n")?;
        }
    }
    Ok(())
}

// Adds the name of a kind of rows.
fn add_kind(text: &mut String, kind: ListKind) -> Result<(), AllocError>
    ensures { OnOk result (string_bytes text.new ≡ string_bytes text.old ++ kind_text kind) }
{
    match kind {
        ListKind::Balance => write!(text, "balance")?,
        ListKind::Link => write!(text, "link")?,
        ListKind::Capacity => write!(text, "capacity")?,
        ListKind::Top => write!(text, "top")?,
        ListKind::Least => write!(text, "least")?,
        ListKind::Late => write!(text, "late")?,
    }
    Ok(())
}

// Adds numbers that may be below 0, each after a space.
fn add_signed_list(text: &mut String, list: &[i128]) -> Result<(), AllocError>
    ensures { OnOk result (string_bytes text.new
        ≡ string_bytes text.old ++ signed_list_text list.now) }
{
    for number in list {
        write!(text, " {number}")?;
    }
    Ok(())
}

/// Adds the line of a list of multiples.
pub fn add_list_line(text: &mut String, list: &PartList) -> Result<(), AllocError>
    ensures { OnOk result (string_bytes text.new
        ≡ string_bytes text.old ++ line_text (later_line (ListLine (list_shape list.now)))) }
{
    let index = list.index;
    write!(text, "parts ")?;
    add_kind(text, list.kind)?;
    write!(text, " {index}")?;
    add_signed_list(text, &list.times)?;
    write!(text, "\n")?;
    Ok(())
}

// Adds an item of a chain, and the price at which it is bought before the first period.
fn add_link(text: &mut String, link: ChainLink) -> Result<(), AllocError>
    ensures { OnOk result (string_bytes text.new ≡ string_bytes text.old ++ link_text link) }
{
    let ChainLink {
        item,
        opening_price,
    } = link;
    write!(text, " {item} {opening_price}")?;
    Ok(())
}

// Adds the line of a chain of two items.
fn add_pair(text: &mut String, low: ChainLink, top: ChainLink) -> Result<(), AllocError>
    ensures { OnOk result (string_bytes text.new
        ≡ string_bytes text.old ++ line_text (later_line (GroupLine (group.Pair low top)))) }
{
    write!(text, "pair")?;
    add_link(text, low)?;
    add_link(text, top)?;
    write!(text, "\n")?;
    Ok(())
}

// Adds the line of a chain of three items.
fn add_triple(
    text: &mut String,
    low: ChainLink,
    mid: ChainLink,
    top: ChainLink,
) -> Result<(), AllocError>
    ensures { OnOk result (string_bytes text.new
        ≡ string_bytes text.old ++ line_text (later_line (GroupLine (group.Triple low mid top)))) }
{
    write!(text, "triple")?;
    add_link(text, low)?;
    add_link(text, mid)?;
    add_link(text, top)?;
    write!(text, "\n")?;
    Ok(())
}

// Adds an item with its shares, and the end of the line.
fn add_shares(text: &mut String, item: u32, shares: &Shares) -> Result<(), AllocError>
    ensures { OnOk result (string_bytes text.new
        ≡ string_bytes text.old ++ line_text (shares_text item shares.now)) }
{
    write!(text, " {item}")?;
    add_list(text, shares.as_slice())?;
    write!(text, "\n")?;
    Ok(())
}

/// Adds the line of a group.
pub fn add_group_line(text: &mut String, group: &Group) -> Result<(), AllocError>
    ensures { OnOk result (string_bytes text.new
        ≡ string_bytes text.old ++ line_text (later_line (GroupLine group.now))) }
{
    match group {
        Group::Item { item } => write!(text, "item {item}\n")?,
        Group::Late { item, shares } => {
            write!(text, "late")?;
            add_shares(text, *item, shares)?;
        }
        Group::Quantities { item } => write!(text, "quantities {item}\n")?,
        Group::LateQuantities { item, shares } => {
            write!(text, "late_quantities")?;
            add_shares(text, *item, shares)?;
        }
        Group::Pair { low, top } => add_pair(text, *low, *top)?,
        Group::Triple { low, mid, top } => add_triple(text, *low, *mid, *top)?,
    }
    Ok(())
}

/// Adds the line of a branch.
pub fn add_branch(text: &mut String, column: Column, at: u64) -> Result<(), AllocError>
    ensures { OnOk result (string_bytes text.new
        ≡ string_bytes text.old ++ line_text (branch_line column at)) }
{
    write!(text, "branch {column} {at}\n")?;
    Ok(())
}
