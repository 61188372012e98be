// A certificate's tree from a tree whose leaves carry what they say.
ghost use Rattle.std.specs.Prelude.{◌≡◌, IfOk};
ghost use Rattle.certificate.specs.Counts.{longest as tree_longest, nodes as tree_nodes};
ghost use Rattle.tree_search.specs.Counts.{longest, nodes};
ghost use Rattle.tree_search.specs.Stripped.{IsStripped};

use crate::Sought;
use certificate::Tree;
use std::alloc::{AllocError, Global};
use std::boxed::Box;

/// The tree without what its leaves say. It calls itself once for each branch on the way to a leaf.
pub fn strip(alloc: Global, sought: Sought) -> Result<Tree, AllocError>
    ensures stripped { IfOk result (IsStripped sought) }
    ensures nodes { IfOk result (λ tree. tree_nodes tree ≡ nodes sought) }
    ensures longest { IfOk result (λ tree. tree_longest tree ≡ longest sought) }
{
    match sought {
        Sought::Branch {
            column,
            at,
            low,
            high,
            ..
        } => {
            let left = strip(alloc, Box::into_inner(low))?;
            let right = strip(alloc, Box::into_inner(high))?;
            Ok(Tree::Branch {
                column,
                at,
                low: Box::new(alloc, left)?,
                high: Box::new(alloc, right)?,
            })
        }
        Sought::Leaf(proposal) => Ok(Tree::Leaf(proposal.leaf)),
    }
}
