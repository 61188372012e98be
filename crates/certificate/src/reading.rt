// From a text to a certificate.
ghost use Rattle.std.specs.Prelude.{◌≡◌, ◌≤◌, ◌<◌, ◌+◌, ◌++◌, ◌∷◌, ◌^◌, [], IfErr, IfOk, IfSome, IsNone, List, OnOk, length, map, replicate};
ghost use Rattle.cert_lines.specs.Limits.{IsVersion};
ghost use Rattle.cert_lines.specs.declared.limits.TheConstants.{MAX_BRANCHES};
ghost use Rattle.cert_lines.specs.Shapes.{EndLine, GroupLine, ListLine, PartLine, cut_shape, line_shape, list_shape};
ghost use Rattle.certificate.specs.Shapes.{shape_of, tree_shape};
ghost use Rattle.certificate.specs.Limits.{IsTextOf};
ghost use Rattle.certificate.specs.Counts.{longest_path};
ghost use Rattle.certificate.specs.Values.{all_cut_values, cut_values, group_values, list_values, part_values, tree_values};
ghost use Rattle.certificate.specs.Dues.{IsFaultFrom, Due, Takes, a_cut, a_group, a_list, a_part, a_tree, row_dues, the_end};
ghost use Rattle.certificate.specs.Faults.{IsCertTextFault};
ghost use Rattle.certificate.specs.Rest.{AreRead};
ghost use Rattle.certificate.specs.Nodes.{IsHigh, node_values, row_values};

use crate::opening::read_heads;
use crate::rest::{Rest, next_line};
use crate::{CertLine, CertTextFault, Certificate, Cut, Leaf, Part, PartList, Tree};
use cert_lines::MAX_BRANCHES;
use item_groups::Group;
use lin_rows::Column;
use std::alloc::Global;
use std::boxed::Box;

// The part that a line is.
fn part_of(line: CertLine) -> Option<Part>
    ensures some { IfSome result (λ part. line_shape line ≡ PartLine part) }
    ensures none { IsNone result → Takes a_part (line_shape line) → ⊥ }
{
    match line {
        CertLine::Part(part) => Some(part),
        _ => None,
    }
}

// A part.
fn read_part(alloc: Global, rest: &mut Rest, version: u32) -> Result<Part, CertTextFault>
    requires version { IsVersion version }
    requires room { rest.old.line + length rest.old.text.now < 2 ^ 64 }
    ensures part { IfOk result (λ part. AreRead version rest.old rest.new (PartLine part ∷ [])) }
    ensures room { OnOk result (rest.new.line + length rest.new.text.now
        ≤ rest.old.line + length rest.old.text.now) }
    ensures refused { IfErr result (λ f. (later : List Due)
        → IsFaultFrom version (a_part ∷ later) rest.old.text.now rest.old.line f) }
{
    let number = rest.line;
    match part_of(next_line(alloc, rest, version)?) {
        Some(part) => Ok(part),
        None => Err(CertTextFault::Shape(number)),
    }
}

// So many parts.
fn read_parts(
    alloc: Global,
    rest: &mut Rest,
    version: u32,
    count: u32,
) -> Result<Vec<Part>, CertTextFault>
    requires version { IsVersion version }
    requires room { rest.old.line + length rest.old.text.now < 2 ^ 64 }
    ensures parts { IfOk result (λ parts.
        AreRead version rest.old rest.new (part_values parts.items)) }
    ensures count { IfOk result (λ parts. length parts.items ≡ count) }
    ensures room { OnOk result (rest.new.line + length rest.new.text.now
        ≤ rest.old.line + length rest.old.text.now) }
    ensures refused { IfErr result (λ f. (later : List Due)
        → IsFaultFrom version (replicate count a_part ++ later) rest.old.text.now rest.old.line f) }
{
    let mut parts = Vec::new(alloc);
    for _ in 0..count {
        parts.push(read_part(alloc, rest, version)?)?;
    }
    Ok(parts)
}

// The list that a line is.
fn list_of(line: CertLine) -> Option<PartList>
    ensures some { IfSome result (λ list. line_shape line ≡ ListLine (list_shape list)) }
    ensures none { IsNone result → Takes a_list (line_shape line) → ⊥ }
{
    match line {
        CertLine::List(list) => Some(list),
        _ => None,
    }
}

// A list.
fn read_list(alloc: Global, rest: &mut Rest, version: u32) -> Result<PartList, CertTextFault>
    requires version { IsVersion version }
    requires room { rest.old.line + length rest.old.text.now < 2 ^ 64 }
    ensures list { IfOk result (λ list.
        AreRead version rest.old rest.new (ListLine (list_shape list) ∷ [])) }
    ensures room { OnOk result (rest.new.line + length rest.new.text.now
        ≤ rest.old.line + length rest.old.text.now) }
    ensures refused { IfErr result (λ f. (later : List Due)
        → IsFaultFrom version (a_list ∷ later) rest.old.text.now rest.old.line f) }
{
    let number = rest.line;
    match list_of(next_line(alloc, rest, version)?) {
        Some(list) => Ok(list),
        None => Err(CertTextFault::Shape(number)),
    }
}

// So many lists.
fn read_lists(
    alloc: Global,
    rest: &mut Rest,
    version: u32,
    count: u32,
) -> Result<Vec<PartList>, CertTextFault>
    requires version { IsVersion version }
    requires room { rest.old.line + length rest.old.text.now < 2 ^ 64 }
    ensures lists { IfOk result (λ lists.
        AreRead version rest.old rest.new (list_values (map list_shape lists.items))) }
    ensures count { IfOk result (λ lists. length lists.items ≡ count) }
    ensures room { OnOk result (rest.new.line + length rest.new.text.now
        ≤ rest.old.line + length rest.old.text.now) }
    ensures refused { IfErr result (λ f. (later : List Due)
        → IsFaultFrom version (replicate count a_list ++ later) rest.old.text.now rest.old.line f) }
{
    let mut lists = Vec::new(alloc);
    for _ in 0..count {
        lists.push(read_list(alloc, rest, version)?)?;
    }
    Ok(lists)
}

// The group that a line is.
fn group_of(line: CertLine) -> Option<Group>
    ensures some { IfSome result (λ group. line_shape line ≡ GroupLine group) }
    ensures none { IsNone result → Takes a_group (line_shape line) → ⊥ }
{
    match line {
        CertLine::Group(group) => Some(group),
        _ => None,
    }
}

// A group.
fn read_group(alloc: Global, rest: &mut Rest, version: u32) -> Result<Group, CertTextFault>
    requires version { IsVersion version }
    requires room { rest.old.line + length rest.old.text.now < 2 ^ 64 }
    ensures group { IfOk result (λ group.
        AreRead version rest.old rest.new (GroupLine group ∷ [])) }
    ensures room { OnOk result (rest.new.line + length rest.new.text.now
        ≤ rest.old.line + length rest.old.text.now) }
    ensures refused { IfErr result (λ f. (later : List Due)
        → IsFaultFrom version (a_group ∷ later) rest.old.text.now rest.old.line f) }
{
    let number = rest.line;
    match group_of(next_line(alloc, rest, version)?) {
        Some(group) => Ok(group),
        None => Err(CertTextFault::Shape(number)),
    }
}

// So many groups.
fn read_groups(
    alloc: Global,
    rest: &mut Rest,
    version: u32,
    count: u32,
) -> Result<Vec<Group>, CertTextFault>
    requires version { IsVersion version }
    requires room { rest.old.line + length rest.old.text.now < 2 ^ 64 }
    ensures groups { IfOk result (λ groups.
        AreRead version rest.old rest.new (group_values (groups.items))) }
    ensures count { IfOk result (λ groups. length groups.items ≡ count) }
    ensures room { OnOk result (rest.new.line + length rest.new.text.now
        ≤ rest.old.line + length rest.old.text.now) }
    ensures refused { IfErr result (λ f. (later : List Due)
        → IsFaultFrom version (replicate count a_group ++ later) rest.old.text.now rest.old.line
        f) }
{
    let mut groups = Vec::new(alloc);
    for _ in 0..count {
        groups.push(read_group(alloc, rest, version)?)?;
    }
    Ok(groups)
}

// The rows of a leaf over reduced costs: its parts, its lists and its groups.
#[derive(Debug, Drop)]
pub struct ReducedRows {
    pub parts: Vec<Part>,
    pub lists: Vec<PartList>,
    pub groups: Vec<Group>,
}

// So many parts, lists and groups.
fn read_reduced(
    alloc: Global,
    rest: &mut Rest,
    version: u32,
    counts: (u32, u32, u32),
) -> Result<ReducedRows, CertTextFault>
    requires version { IsVersion version }
    requires room { rest.old.line + length rest.old.text.now < 2 ^ 64 }
    ensures rows { IfOk result (λ rows. AreRead version rest.old rest.new (row_values rows)) }
    ensures parts { IfOk result (λ rows. length rows.parts.items ≡ counts.0) }
    ensures lists { IfOk result (λ rows. length rows.lists.items ≡ counts.1) }
    ensures groups { IfOk result (λ rows. length rows.groups.items ≡ counts.2) }
    ensures room { OnOk result (rest.new.line + length rest.new.text.now
        ≤ rest.old.line + length rest.old.text.now) }
    ensures refused { IfErr result (λ f. (later : List Due)
        → IsFaultFrom version (row_dues counts.0 counts.1 counts.2 ++ later) rest.old.text.now
        rest.old.line f) }
{
    let parts = read_parts(alloc, rest, version, counts.0)?;
    let lists = read_lists(alloc, rest, version, counts.1)?;
    let groups = read_groups(alloc, rest, version, counts.2)?;
    Ok(ReducedRows {
        parts,
        lists,
        groups,
    })
}

// A cut, with its parts.
fn read_cut(alloc: Global, rest: &mut Rest, version: u32) -> Result<Cut, CertTextFault>
    requires version { IsVersion version }
    requires room { rest.old.line + length rest.old.text.now < 2 ^ 64 }
    ensures cut { IfOk result (λ cut.
        AreRead version rest.old rest.new (cut_values (cut_shape cut))) }
    ensures room { OnOk result (rest.new.line + length rest.new.text.now
        ≤ rest.old.line + length rest.old.text.now) }
    ensures refused { IfErr result (λ f. (later : List Due)
        → IsFaultFrom version (a_cut ∷ later) rest.old.text.now rest.old.line f) }
{
    let number = rest.line;
    match next_line(alloc, rest, version)? {
        CertLine::Cut(cut) => Ok(cut),
        CertLine::Round {
            divisor,
            parts: count,
        } => {
            let parts = read_parts(alloc, rest, version, count)?;
            Ok(Cut::Round { divisor, parts })
        }
        _ => Err(CertTextFault::Shape(number)),
    }
}

// So many cuts.
fn read_cuts(
    alloc: Global,
    rest: &mut Rest,
    version: u32,
    count: u32,
) -> Result<Vec<Cut>, CertTextFault>
    requires version { IsVersion version }
    requires room { rest.old.line + length rest.old.text.now < 2 ^ 64 }
    ensures cuts { IfOk result (λ cuts.
        AreRead version rest.old rest.new (all_cut_values (map cut_shape cuts.items))) }
    ensures count { IfOk result (λ cuts. length cuts.items ≡ count) }
    ensures room { OnOk result (rest.new.line + length rest.new.text.now
        ≤ rest.old.line + length rest.old.text.now) }
    ensures refused { IfErr result (λ f. (later : List Due)
        → IsFaultFrom version (replicate count a_cut ++ later) rest.old.text.now rest.old.line f) }
{
    let mut cuts = Vec::new(alloc);
    for _ in 0..count {
        cuts.push(read_cut(alloc, rest, version)?)?;
    }
    Ok(cuts)
}

// The first node of a tree.
#[derive(Debug, Drop)]
pub enum Node {
    Branch { column: Column, at: u64 },
    Leaf(Leaf),
}

// The first node of a tree with so many branches above it.
fn read_node(
    alloc: Global,
    rest: &mut Rest,
    version: u32,
    above: u32,
) -> Result<Node, CertTextFault>
    requires version { IsVersion version }
    requires room { rest.old.line + length rest.old.text.now < 2 ^ 64 }
    requires above { above ≤ MAX_BRANCHES }
    ensures node { IfOk result (λ node. AreRead version rest.old rest.new (node_values node)) }
    ensures high { IfOk result (λ node. IsHigh above node) }
    ensures room { OnOk result (rest.new.line + length rest.new.text.now
        ≤ rest.old.line + length rest.old.text.now) }
    ensures refused { IfErr result (λ f. (later : List Due)
        → IsFaultFrom version (a_tree above ∷ later) rest.old.text.now rest.old.line f) }
{
    let number = rest.line;
    match next_line(alloc, rest, version)? {
        CertLine::Branch { column, at } => {
            if above == MAX_BRANCHES {
                return Err(CertTextFault::Deep(number));
            }
            Ok(Node::Branch { column, at })
        }
        CertLine::Linear { den, parts: count } => {
            let parts = read_parts(alloc, rest, version, count)?;
            Ok(Node::Leaf(Leaf::Linear { den, parts }))
        }
        CertLine::Farkas { parts: count } => {
            let parts = read_parts(alloc, rest, version, count)?;
            Ok(Node::Leaf(Leaf::Farkas { parts }))
        }
        CertLine::Point => Ok(Node::Leaf(Leaf::Point)),
        CertLine::Reduced {
            den,
            parts: part_count,
            lists: list_count,
            groups: group_count,
        } => {
            let rows = read_reduced(alloc, rest, version, (part_count, list_count, group_count))?;
            Ok(Node::Leaf(Leaf::Reduced {
                den,
                parts: rows.parts,
                lists: rows.lists,
                groups: rows.groups,
            }))
        }
        _ => Err(CertTextFault::Shape(number)),
    }
}

// A tree with so many branches above it. It calls itself once for each branch on the way to a leaf.
fn read_tree(
    alloc: Global,
    rest: &mut Rest,
    version: u32,
    above: u32,
) -> Result<Tree, CertTextFault>
    requires version { IsVersion version }
    requires room { rest.old.line + length rest.old.text.now < 2 ^ 64 }
    requires above { above ≤ MAX_BRANCHES }
    ensures tree { IfOk result (λ tree.
        AreRead version rest.old rest.new (tree_values (tree_shape tree))) }
    ensures paths { IfOk result (λ tree. above + longest_path (tree_shape tree) ≤ MAX_BRANCHES) }
    ensures room { OnOk result (rest.new.line + length rest.new.text.now
        ≤ rest.old.line + length rest.old.text.now) }
    ensures refused { IfErr result (λ f. (later : List Due)
        → IsFaultFrom version (a_tree above ∷ later) rest.old.text.now rest.old.line f) }
{
    match read_node(alloc, rest, version, above)? {
        Node::Branch { column, at } => {
            let low = read_tree(alloc, rest, version, above + 1)?;
            let high = read_tree(alloc, rest, version, above + 1)?;
            Ok(Tree::Branch {
                column,
                at,
                low: Box::new(alloc, low)?,
                high: Box::new(alloc, high)?,
            })
        }
        Node::Leaf(leaf) => Ok(Tree::Leaf(leaf)),
    }
}

// Whether nothing is left of a text, but for the last line.
fn read_end(alloc: Global, rest: &mut Rest, version: u32) -> Result<(), CertTextFault>
    requires version { IsVersion version }
    requires room { rest.old.line + length rest.old.text.now < 2 ^ 64 }
    ensures end { OnOk result (AreRead version rest.old rest.new (EndLine ∷ [])
        × (rest.new.text.now ≡ [])) }
    ensures refused { IfErr result (λ f.
        IsFaultFrom version (the_end ∷ []) rest.old.text.now rest.old.line f) }
{
    let number = rest.line;
    match next_line(alloc, rest, version)? {
        CertLine::End => {}
        _ => return Err(CertTextFault::Shape(number)),
    }
    if rest.text.is_empty() {
        return Ok(());
    }
    let last = rest.line;
    next_line(alloc, rest, version)?;
    Err(CertTextFault::Shape(last))
}

/// The writable certificate whose text the bytes are, or the first line at which something is wrong. On one
/// line the order is `Header` or `Line`, then `Shape`, then `Deep`.
///
/// It calls itself once for each branch on the way to a leaf, at most `MAX_BRANCHES` deep, and takes time and memory
/// in the length of the bytes.
pub fn read_certificate(alloc: Global, bytes: &[u8]) -> Result<Certificate, CertTextFault>
    ensures text { IfOk result (λ certificate. IsTextOf bytes.now (shape_of certificate)) }
    ensures refused { IfErr result (IsCertTextFault bytes.now) }
{
    let mut rest = Rest {
        text: bytes,
        line: 1,
    };
    let (version, claim, count) = read_heads(&mut rest)?;
    let cuts = read_cuts(alloc, &mut rest, version, count)?;
    let tree = read_tree(alloc, &mut rest, version, 0)?;
    read_end(alloc, &mut rest, version)?;
    Ok(Certificate {
        version,
        claim,
        cuts,
        tree,
    })
}
