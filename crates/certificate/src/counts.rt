// How large a tree is.
ghost use Rattle.std.specs.Prelude.{◌≡◌, ◌-◌, ◌^◌, length, min};
ghost use Rattle.cert_lines.specs.Shapes.{cut_shape, leaf_shape};
ghost use Rattle.certificate.specs.Values.{cut_values, leaf_values};
ghost use Rattle.certificate.specs.Counts.{longest, nodes};

use crate::{Cut, Leaf, Tree};

/// The number of branches and leaves of a tree, and 2^64 - 1 where there are more. It takes no memory.
pub fn nodes(tree: &Tree) -> u64
    ensures { result ≡ min (nodes tree.now) (2 ^ 64 - 1) }
{
    match tree {
        Tree::Branch { low, high, .. } => nodes(low).saturating_add(nodes(high)).saturating_add(1),
        Tree::Leaf(_) => 1,
    }
}

/// The greatest number of branches on a path of a tree, and 2^64 - 1 where there are more. It takes no
/// memory.
pub fn longest(tree: &Tree) -> u64
    ensures { result ≡ min (longest tree.now) (2 ^ 64 - 1) }
{
    match tree {
        Tree::Branch { low, high, .. } => longest(low).max(longest(high)).saturating_add(1),
        Tree::Leaf(_) => 0,
    }
}

/// How many lines a cut has, those of its parts included. It takes no memory.
pub fn cut_lines_count(cut: &Cut) -> u64
    ensures { result ≡ length (cut_values (cut_shape cut.now)) }
{
    1 + cut.parts().len() as u64
}

/// How many lines a leaf has, those of its parts, lists and groups included. It takes no memory.
pub fn leaf_lines_count(leaf: &Leaf) -> u64
    ensures { result ≡ length (leaf_values (leaf_shape leaf.now)) }
{
    1 + leaf.parts().len() as u64 + leaf.lists().len() as u64 + leaf.groups().len() as u64
}
