// What all items cost apart, and its leaf.
ghost use Rattle.std.specs.Prelude.{◌≡◌, ◌+◌, ◌-◌, ◌<◌, ◌≤◌, ◌^◌, ℕ, IfOk, OnOk, map, unsigned_abs};
ghost use Rattle.lot_sizing.specs.Best.{IsFloor};
ghost use Rattle.echelon.specs.Weights.{IsExplosionOf};
ghost use Rattle.lin_rows.specs.Combining.{AreOfProblem};
ghost use Rattle.cert_lines.specs.Shapes.{cut_shape, leaf_shape};
ghost use Rattle.cert_lines.specs.declared.limits.TheConstants.{MAX_PARTS};
ghost use Rattle.certificate.specs.Values.{AreLines, leaf_values};
ghost use Rattle.cert_meaning.specs.Laws.{HoldAtPlans};
ghost use Rattle.cert_checker.specs.Cuts.{IsItem};
ghost use Rattle.item_bound.specs.Apart.{IsApart};
ghost use Rattle.item_bound.specs.Cuts.{AreCutsAnywhere, SayAnywhere, leaf_from};
ghost use Rattle.item_bound.specs.Steps.{AreApartTo};

use crate::Apart;
use crate::item::{OwnCut, own_cut};
use cert_checker::echelon_for;
use cert_meaning::leaves_bound;
use cert_trees::plans_are_within;
use certificate::{Cut, Leaf, Part};
use echelon::Explosion;
use lin_rows::{Row, RowName};
use lot_model::Instance;
use std::alloc::{AllocError, Global};

// The right side of a row, by its absolute value.
fn right_amount(row: &Row) -> u128
    ensures { result ≡ unsigned_abs row.now.right }
{
    row.right().unsigned_abs()
}

// Adds what the next item costs apart, and its cut, where it is lead-free.
fn add_item(
    alloc: Global,
    instance: &Instance,
    explosion: &Explosion,
    item: u32,
    found: &mut Apart,
) -> Result<(), AllocError>
    requires explosion { IsExplosionOf instance.now explosion.now }
    requires item { IsItem instance.now item }
    requires before { AreApartTo instance.now (item - 1) found.old }
    ensures { OnOk result (AreApartTo instance.now item found.new) }
{
    let Some(echelon) = echelon_for(alloc, instance, explosion, item)? else {
        return Ok(());
    };
    let OwnCut { potentials, row } = own_cut(alloc, instance, &echelon, item)?;
    found.amount += right_amount(&row);
    found.cuts.push(Cut::Block { item, potentials })?;
    found.rows.push(row)?;
    Ok(())
}

/// What the items cost apart: for each lead-free item the least cost of a net plan of its echelon
/// at the item's own costs, and the holding of what is left of opening stocks (`amount`). No
/// feasible plan costs less (`floor`).
///
/// Holding and owing cost something only where the item goes into no other one: in the echelon of a
/// component stand the stocks of the items that it goes into, whose costs are these items' own.
/// Each lead-free item has a block cut by these costs and the potentials of the recursion (Pochet
/// and Wolsey), in the order of items. Its row holds at every feasible plan (`hold`), and it has
/// this row, and a line of certificates, wherever it stands among other cuts (`cuts`). So a leaf
/// that takes each of them once says the amount (`leaf`): `apart_leaf` makes it.
///
/// It takes time in the number of items times that of periods times that of items and periods, and
/// memory for the cuts and their rows. The error is that memory ran out.
pub fn apart(alloc: Global, instance: &Instance) -> Result<Apart, AllocError>
    ensures amount { IfOk result (λ found. IsApart instance.now found.amount) }
    ensures floor { IfOk result (λ found. IsFloor instance.now found.amount) }
    ensures small { IfOk result (λ found. found.amount < 2 ^ 127) }
    ensures cuts { IfOk result (λ found.
        AreCutsAnywhere instance.now (map cut_shape found.cuts.items) found.rows.items) }
    ensures hold { IfOk result (λ found. HoldAtPlans instance.now found.rows.items) }
    ensures columns_exist { IfOk result (λ found. AreOfProblem instance.now found.rows.items) }
    ensures leaf { IfOk result (λ found. SayAnywhere instance.now found.rows.items found.amount) }
{
    leaves_bound();
    plans_are_within();
    let explosion = Explosion::of(alloc, instance)?;
    let mut found = Apart {
        amount: 0,
        cuts: Vec::new(alloc),
        rows: Vec::new(alloc),
    };
    for item in 1..instance.items() + 1 {
        add_item(alloc, instance, &explosion, item, &mut found)?;
    }
    Ok(found)
}

/// The leaf that takes each of so many cuts once, which stand after so many other cuts: `before` is
/// 0 where the first of them is the first cut of all. It has lines in texts of every version, where
/// it has no more parts than a leaf may have (`lines`). The error is that memory ran out.
pub fn apart_leaf(alloc: Global, before: u32, count: u32) -> Result<Leaf, AllocError>
    requires { before + count < 2 ^ 32 }
    ensures shape { IfOk result (λ leaf. leaf_shape leaf ≡ leaf_from before count) }
    ensures lines { IfOk result (λ leaf. count ≤ MAX_PARTS → (version : ℕ) →
        AreLines version (leaf_values (leaf_from before count))) }
{
    let mut parts = Vec::with_capacity(alloc, count as usize)?;
    for place in 0..count {
        parts.push(Part {
            row: RowName::Cut(before + place + 1),
            times: 1,
        })?;
    }
    Ok(Leaf::Linear { den: 1, parts })
}
