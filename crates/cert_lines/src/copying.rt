// Copies of cuts and leaves.
ghost use Rattle.std.specs.Prelude.{◌≡◌, IfOk, map};
ghost use Rattle.cert_lines.specs.Shapes.{block_lists, cut_shape, leaf_shape, list_shape, price_lists};

use crate::{Cut, Leaf, PartList};
use item_groups::{Group, Shares};
use lin_rows::{Potentials, Prices};
use std::alloc::{AllocError, Global};

// A copy of the lists of a price row.
fn copy_prices(alloc: Global, prices: &Prices) -> Result<Prices, AllocError>
    ensures { IfOk result (λ copy. price_lists copy ≡ price_lists prices.now) }
{
    Ok(Prices {
        price: prices.price.to_vec(alloc)?,
        unit: prices.unit.to_vec(alloc)?,
        hold: prices.hold.to_vec(alloc)?,
        back: prices.back.to_vec(alloc)?,
    })
}

// A copy of the lists of a block row.
fn copy_potentials(alloc: Global, potentials: &Potentials) -> Result<Potentials, AllocError>
    ensures { IfOk result (λ copy. block_lists copy ≡ block_lists potentials.now) }
{
    Ok(Potentials {
        setup: potentials.setup.to_vec(alloc)?,
        unit: potentials.unit.to_vec(alloc)?,
        hold: potentials.hold.to_vec(alloc)?,
        back: potentials.back.to_vec(alloc)?,
        steps: potentials.steps.to_vec(alloc)?,
    })
}

/// A copy of a cut. The error is out of memory.
pub fn copy_cut(alloc: Global, cut: &Cut) -> Result<Cut, AllocError>
    ensures { IfOk result (λ copy. cut_shape copy ≡ cut_shape cut.now) }
{
    match cut {
        Cut::Ls { item, last, chosen } => Ok(Cut::Ls {
            item: *item,
            last: *last,
            chosen: chosen.to_vec(alloc)?,
        }),
        Cut::Price { item, prices } => Ok(Cut::Price {
            item: *item,
            prices: copy_prices(alloc, prices)?,
        }),
        Cut::Block { item, potentials } => Ok(Cut::Block {
            item: *item,
            potentials: copy_potentials(alloc, potentials)?,
        }),
        Cut::Round { divisor, parts } => Ok(Cut::Round {
            divisor: *divisor,
            parts: parts.to_vec(alloc)?,
        }),
    }
}

// A copy of a list of multiples.
fn copy_list(alloc: Global, list: &PartList) -> Result<PartList, AllocError>
    ensures { IfOk result (λ copy. list_shape copy ≡ list_shape list.now) }
{
    Ok(PartList {
        kind: list.kind,
        index: list.index,
        times: list.times.to_vec(alloc)?,
    })
}

// A copy of lists of multiples.
fn copy_lists(alloc: Global, lists: &[PartList]) -> Result<Vec<PartList>, AllocError>
    ensures { IfOk result (λ copy. map list_shape copy.items ≡ map list_shape lists.now) }
{
    let mut copy = Vec::new(alloc);
    for list in lists {
        copy.push(copy_list(alloc, list)?)?;
    }
    Ok(copy)
}

// A copy of shares.
fn copy_shares(alloc: Global, shares: &Shares) -> Result<Shares, AllocError>
    ensures { IfOk result (λ copy. copy ≡ shares.now) }
{
    Ok(Shares::new(shares.as_slice().to_vec(alloc)?))
}

// A copy of a group.
fn copy_group(alloc: Global, group: &Group) -> Result<Group, AllocError>
    ensures { IfOk result (λ copy. copy ≡ group.now) }
{
    match group {
        Group::Item { item } => Ok(Group::Item { item: *item }),
        Group::Late { item, shares } => Ok(Group::Late {
            item: *item,
            shares: copy_shares(alloc, shares)?,
        }),
        Group::Quantities { item } => Ok(Group::Quantities { item: *item }),
        Group::LateQuantities { item, shares } => Ok(Group::LateQuantities {
            item: *item,
            shares: copy_shares(alloc, shares)?,
        }),
        Group::Pair { low, top } => Ok(Group::Pair {
            low: *low,
            top: *top,
        }),
        Group::Triple { low, mid, top } => Ok(Group::Triple {
            low: *low,
            mid: *mid,
            top: *top,
        }),
    }
}

// A copy of groups.
fn copy_groups(alloc: Global, groups: &[Group]) -> Result<Vec<Group>, AllocError>
    ensures { IfOk result (λ copy. copy.items ≡ groups.now) }
{
    let mut copy = Vec::new(alloc);
    for group in groups {
        copy.push(copy_group(alloc, group)?)?;
    }
    Ok(copy)
}

/// A copy of a leaf. The error is out of memory.
pub fn copy_leaf(alloc: Global, leaf: &Leaf) -> Result<Leaf, AllocError>
    ensures { IfOk result (λ copy. leaf_shape copy ≡ leaf_shape leaf.now) }
{
    match leaf {
        Leaf::Linear { den, parts } => Ok(Leaf::Linear {
            den: *den,
            parts: parts.to_vec(alloc)?,
        }),
        Leaf::Farkas { parts } => Ok(Leaf::Farkas {
            parts: parts.to_vec(alloc)?,
        }),
        Leaf::Point => Ok(Leaf::Point),
        Leaf::Reduced {
            den,
            parts,
            lists,
            groups,
        } => Ok(Leaf::Reduced {
            den: *den,
            parts: parts.to_vec(alloc)?,
            lists: copy_lists(alloc, lists)?,
            groups: copy_groups(alloc, groups)?,
        }),
    }
}
