// The certificate that a plan is best which was made item by item.
ghost use Rattle.std.specs.Prelude.{◌≡◌, ◌≤◌, IfOk, length, map};
ghost use Rattle.lot_sizing.specs.declared.limits.TheConstants.{MAX_ITEMS};
ghost use Rattle.cert_lines.specs.Shapes.{cut_shape};
ghost use Rattle.certificate.specs.Shapes.{shape_of};
ghost use Rattle.uncoupled.specs.Blocks.{block_cuts, blocks_shape, each_once};

use certificate::{Certificate, Claim, Cut, FIRST_CERT_VERSION, Leaf, Part, Tree};
use lin_rows::{Potentials, RowName};
use std::alloc::{AllocError, Global};

// A block cut of each item, in their order.
fn item_cuts(alloc: Global, lists: Vec<Potentials>) -> Result<Vec<Cut>, AllocError>
    requires { length lists.items ≤ MAX_ITEMS }
    ensures { IfOk result (λ cuts. map cut_shape cuts.items ≡ block_cuts 1 lists.items) }
{
    let mut cuts = Vec::with_capacity(alloc, lists.len())?;
    let mut item = 1;
    for potentials in lists {
        cuts.push(Cut::Block { item, potentials })?;
        item += 1;
    }
    Ok(cuts)
}

// The parts of a leaf that takes each of `count` cuts once.
fn cuts_once(alloc: Global, count: u32) -> Result<Vec<Part>, AllocError>
    requires { count ≤ MAX_ITEMS }
    ensures { IfOk result (λ parts. parts.items ≡ each_once 1 count) }
{
    let mut parts = Vec::with_capacity(alloc, count as usize)?;
    for cut in 1..count + 1 {
        parts.push(Part {
            row: RowName::Cut(cut),
            times: 1,
        })?;
    }
    Ok(parts)
}

/// The certificate that no plan costs less than this, in money, by the potentials of each item.
///
/// A block cut of an item says that it costs at least its last potential, and the holding of what is left of its
/// opening stock. The leaf takes each cut once: the sum takes no column more often than it costs, and its right
/// side is the plan's cost.
pub(crate) fn blocks_certificate(
    alloc: Global,
    cost: u128,
    lists: Vec<Potentials>,
) -> Result<Certificate, AllocError>
    requires { length lists.items ≤ MAX_ITEMS }
    ensures { IfOk result (λ made. shape_of made ≡ blocks_shape cost lists.items) }
{
    let parts = cuts_once(alloc, lists.len() as u32)?;
    Ok(Certificate {
        version: FIRST_CERT_VERSION,
        claim: Claim::Optimal(cost),
        cuts: item_cuts(alloc, lists)?,
        tree: Tree::Leaf(Leaf::Linear { den: 1, parts }),
    })
}
