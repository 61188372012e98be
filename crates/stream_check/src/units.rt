// The parts, lists, groups, cuts and nodes of a certificate, each read from its lines.
ghost use Rattle.std.specs.Prelude.{◌≡◌, ◌≤◌, ◌<◌, ◌+◌, ◌++◌, ◌∷◌, IfOk, List, OnOk, length, map};
ghost use Rattle.item_groups.specs.declared.group.Group.{Group};
ghost use Rattle.cert_lines.specs.declared.parts.Part.{Part};
ghost use Rattle.cert_lines.specs.Limits.{IsVersion};
ghost use Rattle.cert_lines.specs.Line.{HasLine};
ghost use Rattle.cert_lines.specs.Shapes.{CutShape, GroupLine, LineShape, ListLine, ListShape, PartLine, ReducedLeaf, cut_shape, leaf_shape, line_shape, list_shape};
ghost use Rattle.certificate.specs.Shapes.{TreeShape};
ghost use Rattle.certificate.specs.Values.{Values, cut_values, group_values, leaf_values, list_values, part_values, tree_values};
ghost use Rattle.cert_checker.specs.Cuts.{HasDivisor};
ghost use Rattle.cert_checker.specs.Leaves.{HasDenominator};
ghost use Rattle.cert_stream.specs.Reader.{IsLineFurther, IsSound, left_of};
ghost use Rattle.stream_check.specs.Nodes.{HasCounts, HasNodeDenominator, IsFirstOf, node_values, reduced_values};
ghost use Rattle.stream_check.specs.Passes.{Gives, HasLeft, IsStep};
ghost use Rattle.stream_check.specs.Streams.{never_refused};

use crate::StreamFault;
use cert_stream::{LineReader, Value, next_value};
use certificate::{CertLine, CertTextFault, Cut, Leaf, Part, PartList};
use item_groups::Group;
use lin_rows::Column;
use lot_io::Shelf;
use std::alloc::Global;

/// The text of a certificate in a file, as its lines are read.
#[derive(Clone, Copy)]
pub struct CertText<'a> {
    /// Where the memory for its lines comes from.
    pub alloc: Global,
    /// The name of its file.
    pub name: &'a str,
    /// The version that its first line names.
    pub version: u32,
}

/// The first node of a tree.
#[derive(Debug, Drop)]
pub enum Node {
    /// A branch, whose low side comes next.
    Branch {
        /// The column whose range is split.
        column: Column,
        /// The greatest value on the low side.
        at: u64,
    },
    /// A leaf with its parts.
    Leaf(Leaf),
}

// The next line. It is a fault of the text where it has no form, and where the text ends.
pub fn next_line<S: Shelf>(
    reader: &mut LineReader,
    shelf: &mut S,
    text: CertText<'_>,
) -> Result<CertLine, StreamFault>
    requires sound { IsSound reader.old }
    requires version { IsVersion text.version }
    ensures line { IfOk result (λ line. HasLine text.entry.version (line_shape line)) }
    ensures further { OnOk result (IsLineFurther reader.old reader.new) }
    ensures awaited { (l : LineShape) (ls : Values)
        → HasLeft text.entry (S.shown shelf.old) reader.old (l ∷ ls)
        → Gives (λ line. (line_shape line ≡ l)
        × HasLeft text.entry (S.shown shelf.new) reader.new ls)
        never_refused result }
    ensures step { IsStep text.entry.name.now (S.shown shelf.old) (S.shown shelf.new) reader.old
        reader.new result }
{
    let number = reader.number;
    match next_value(text.alloc, reader, shelf, text.name, text.version)? {
        Value::Line(line) => Ok(line),
        Value::Wrong => Err(StreamFault::Text(CertTextFault::Line(number))),
        Value::End => Err(StreamFault::Text(CertTextFault::Shape(number))),
    }
}

// A part.
fn read_part<S: Shelf>(
    reader: &mut LineReader,
    shelf: &mut S,
    text: CertText<'_>,
) -> Result<Part, StreamFault>
    requires sound { IsSound reader.old }
    requires version { IsVersion text.version }
    ensures further { OnOk result (IsLineFurther reader.old reader.new) }
    ensures awaited { (part : Part) (ls : Values)
        → HasLeft text.entry (S.shown shelf.old) reader.old (PartLine part ∷ ls)
        → Gives (λ read. (read ≡ part) × HasLeft text.entry (S.shown shelf.new) reader.new ls)
        never_refused result }
    ensures step { IsStep text.entry.name.now (S.shown shelf.old) (S.shown shelf.new) reader.old
        reader.new result }
{
    let number = reader.number;
    match next_line(reader, shelf, text)? {
        CertLine::Part(part) => Ok(part),
        _ => Err(StreamFault::Text(CertTextFault::Shape(number))),
    }
}

// Reads `count` parts.
fn read_parts<S: Shelf>(
    reader: &mut LineReader,
    shelf: &mut S,
    text: CertText<'_>,
    count: u32,
) -> Result<Vec<Part>, StreamFault>
    requires sound { IsSound reader.old }
    requires version { IsVersion text.version }
    ensures count { IfOk result (λ parts. length parts.items ≡ count) }
    ensures number { OnOk result (reader.new.number ≡ reader.old.number + count) }
    ensures left { OnOk result (left_of reader.new ≤ left_of reader.old) }
    ensures awaited { (parts : List Part) (ls : Values) → length parts ≡ count
        → HasLeft text.entry (S.shown shelf.old) reader.old (part_values parts ++ ls)
        → Gives (λ read. (read.items ≡ parts)
        × HasLeft text.entry (S.shown shelf.new) reader.new ls)
        never_refused result }
    ensures step { IsStep text.entry.name.now (S.shown shelf.old) (S.shown shelf.new) reader.old
        reader.new result }
{
    let mut parts = Vec::new(text.alloc);
    for _ in 0..count {
        parts.push(read_part(reader, shelf, text)?)?;
    }
    Ok(parts)
}

// A list of parts.
fn read_list<S: Shelf>(
    reader: &mut LineReader,
    shelf: &mut S,
    text: CertText<'_>,
) -> Result<PartList, StreamFault>
    requires sound { IsSound reader.old }
    requires version { IsVersion text.version }
    ensures further { OnOk result (IsLineFurther reader.old reader.new) }
    ensures awaited { (list : ListShape) (ls : Values)
        → HasLeft text.entry (S.shown shelf.old) reader.old (ListLine list ∷ ls)
        → Gives (λ read. (list_shape read ≡ list)
        × HasLeft text.entry (S.shown shelf.new) reader.new ls)
        never_refused result }
    ensures step { IsStep text.entry.name.now (S.shown shelf.old) (S.shown shelf.new) reader.old
        reader.new result }
{
    let number = reader.number;
    match next_line(reader, shelf, text)? {
        CertLine::List(list) => Ok(list),
        _ => Err(StreamFault::Text(CertTextFault::Shape(number))),
    }
}

// Reads `count` lists of parts.
fn read_lists<S: Shelf>(
    reader: &mut LineReader,
    shelf: &mut S,
    text: CertText<'_>,
    count: u32,
) -> Result<Vec<PartList>, StreamFault>
    requires sound { IsSound reader.old }
    requires version { IsVersion text.version }
    ensures count { IfOk result (λ lists. length lists.items ≡ count) }
    ensures number { OnOk result (reader.new.number ≡ reader.old.number + count) }
    ensures left { OnOk result (left_of reader.new ≤ left_of reader.old) }
    ensures awaited { (lists : List ListShape) (ls : Values) → length lists ≡ count
        → HasLeft text.entry (S.shown shelf.old) reader.old (list_values lists ++ ls)
        → Gives (λ read. (map list_shape read.items ≡ lists)
        × HasLeft text.entry (S.shown shelf.new) reader.new ls)
        never_refused result }
    ensures step { IsStep text.entry.name.now (S.shown shelf.old) (S.shown shelf.new) reader.old
        reader.new result }
{
    let mut lists = Vec::new(text.alloc);
    for _ in 0..count {
        lists.push(read_list(reader, shelf, text)?)?;
    }
    Ok(lists)
}

// A group of items.
fn read_group<S: Shelf>(
    reader: &mut LineReader,
    shelf: &mut S,
    text: CertText<'_>,
) -> Result<Group, StreamFault>
    requires sound { IsSound reader.old }
    requires version { IsVersion text.version }
    ensures further { OnOk result (IsLineFurther reader.old reader.new) }
    ensures awaited { (group : Group) (ls : Values)
        → HasLeft text.entry (S.shown shelf.old) reader.old (GroupLine group ∷ ls)
        → Gives (λ read. (read ≡ group) × HasLeft text.entry (S.shown shelf.new) reader.new ls)
        never_refused result }
    ensures step { IsStep text.entry.name.now (S.shown shelf.old) (S.shown shelf.new) reader.old
        reader.new result }
{
    let number = reader.number;
    match next_line(reader, shelf, text)? {
        CertLine::Group(group) => Ok(group),
        _ => Err(StreamFault::Text(CertTextFault::Shape(number))),
    }
}

// Reads `count` groups of items.
fn read_groups<S: Shelf>(
    reader: &mut LineReader,
    shelf: &mut S,
    text: CertText<'_>,
    count: u32,
) -> Result<Vec<Group>, StreamFault>
    requires sound { IsSound reader.old }
    requires version { IsVersion text.version }
    ensures count { IfOk result (λ groups. length groups.items ≡ count) }
    ensures number { OnOk result (reader.new.number ≡ reader.old.number + count) }
    ensures left { OnOk result (left_of reader.new ≤ left_of reader.old) }
    ensures awaited { (groups : List Group) (ls : Values) → length groups ≡ count
        → HasLeft text.entry (S.shown shelf.old) reader.old (group_values groups ++ ls)
        → Gives (λ read. (read.items ≡ groups)
        × HasLeft text.entry (S.shown shelf.new) reader.new ls)
        never_refused result }
    ensures step { IsStep text.entry.name.now (S.shown shelf.old) (S.shown shelf.new) reader.old
        reader.new result }
{
    let mut groups = Vec::new(text.alloc);
    for _ in 0..count {
        groups.push(read_group(reader, shelf, text)?)?;
    }
    Ok(groups)
}

// How many lines of each kind follow the first line of a leaf over reduced costs.
#[derive(Clone, Copy)]
struct Counts {
    parts: u32,
    lists: u32,
    groups: u32,
}

// A leaf over reduced costs, after its first line.
fn read_reduced<S: Shelf>(
    reader: &mut LineReader,
    shelf: &mut S,
    text: CertText<'_>,
    den: u64,
    counts: Counts,
) -> Result<Leaf, StreamFault>
    requires sound { IsSound reader.old }
    requires version { IsVersion text.version }
    ensures den { IfOk result (λ leaf. HasDenominator (leaf_shape leaf)) }
    ensures number { IfOk result (λ leaf. reader.new.number + 1
        ≡ reader.old.number + length (leaf_values (leaf_shape leaf))) }
    ensures left { OnOk result (left_of reader.new ≤ left_of reader.old) }
    ensures awaited { (parts : List Part) (lists : List ListShape) (groups : List Group)
        (ls : Values)
        → HasCounts counts parts lists groups
        → HasLeft text.entry (S.shown shelf.old) reader.old
        (reduced_values parts lists groups ++ ls)
        → Gives (λ leaf. (leaf_shape leaf ≡ ReducedLeaf den parts lists groups)
        × HasLeft text.entry (S.shown shelf.new) reader.new ls)
        never_refused result }
    ensures step { IsStep text.entry.name.now (S.shown shelf.old) (S.shown shelf.new) reader.old
        reader.new result }
{
    let parts = read_parts(reader, shelf, text, counts.parts)?;
    let lists = read_lists(reader, shelf, text, counts.lists)?;
    let groups = read_groups(reader, shelf, text, counts.groups)?;
    Ok(Leaf::Reduced {
        den,
        parts,
        lists,
        groups,
    })
}

// A cut, with its parts.
pub fn read_cut<S: Shelf>(
    reader: &mut LineReader,
    shelf: &mut S,
    text: CertText<'_>,
) -> Result<Cut, StreamFault>
    requires sound { IsSound reader.old }
    requires version { IsVersion text.version }
    ensures divisor { IfOk result (λ cut. HasDivisor (cut_shape cut)) }
    ensures number { IfOk result (λ cut. reader.new.number
        ≡ reader.old.number + length (cut_values (cut_shape cut))) }
    ensures awaited { (cut : CutShape) (ls : Values)
        → HasLeft text.entry (S.shown shelf.old) reader.old (cut_values cut ++ ls)
        → Gives (λ read. (cut_shape read ≡ cut)
        × HasLeft text.entry (S.shown shelf.new) reader.new ls)
        never_refused result }
    ensures step { IsStep text.entry.name.now (S.shown shelf.old) (S.shown shelf.new) reader.old
        reader.new result }
{
    let number = reader.number;
    match next_line(reader, shelf, text)? {
        CertLine::Cut(cut) => Ok(cut),
        CertLine::Round {
            divisor,
            parts: count,
        } => {
            let parts = read_parts(reader, shelf, text, count)?;
            Ok(Cut::Round { divisor, parts })
        }
        _ => Err(StreamFault::Text(CertTextFault::Shape(number))),
    }
}

// The first node of a tree: a branch, or a leaf with the lines after its first.
pub fn read_node<S: Shelf>(
    reader: &mut LineReader,
    shelf: &mut S,
    text: CertText<'_>,
) -> Result<Node, StreamFault>
    requires sound { IsSound reader.old }
    requires version { IsVersion text.version }
    ensures den { IfOk result HasNodeDenominator }
    ensures number { IfOk result (λ node. reader.new.number
        ≡ reader.old.number + length (node_values node)) }
    ensures left { OnOk result (left_of reader.new < left_of reader.old) }
    ensures awaited { (tree : TreeShape) (ls : Values)
        → HasLeft text.entry (S.shown shelf.old) reader.old (tree_values tree ++ ls)
        → Gives (λ node. (more : Values) × IsFirstOf node tree more
        × HasLeft text.entry (S.shown shelf.new) reader.new (more ++ ls))
        never_refused result }
    ensures step { IsStep text.entry.name.now (S.shown shelf.old) (S.shown shelf.new) reader.old
        reader.new result }
{
    let number = reader.number;
    match next_line(reader, shelf, text)? {
        CertLine::Branch { column, at } => Ok(Node::Branch { column, at }),
        CertLine::Linear { den, parts: count } => {
            let parts = read_parts(reader, shelf, text, count)?;
            Ok(Node::Leaf(Leaf::Linear { den, parts }))
        }
        CertLine::Farkas { parts: count } => {
            let parts = read_parts(reader, shelf, text, count)?;
            Ok(Node::Leaf(Leaf::Farkas { parts }))
        }
        CertLine::Point => Ok(Node::Leaf(Leaf::Point)),
        CertLine::Reduced {
            den,
            parts,
            lists,
            groups,
        } => {
            let counts = Counts {
                parts,
                lists,
                groups,
            };
            Ok(Node::Leaf(read_reduced(reader, shelf, text, den, counts)?))
        }
        _ => Err(StreamFault::Text(CertTextFault::Shape(number))),
    }
}
