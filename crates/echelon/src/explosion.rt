// The weights of an instance's items, and their order along the bill.
ghost use Rattle.std.specs.Prelude.{◌≡◌, ◌≤◌, ◌-◌, ◌+◌, ℕ, length, IfOk, slice_index_or, []};
ghost use Rattle.lot_sizing.specs.Problem.{entry, item_count};
ghost use Rattle.lot_sizing.specs.Totals.{IsRanking};
ghost use Rattle.lot_sizing.specs.declared.limits.TheConstants.{MAX_ITEMS};
ghost use Rattle.echelon.specs.Weights.{IsExplosionOf, IsRow, weight_in};
ghost use Rattle.echelon.specs.Order.{IsOrderedTo};

use bill::totals_exist;
use lot_model::Instance;
use std::alloc::{AllocError, Global};
use std::marker::Model;

/// How many units of each item one unit of each item takes over all paths of the bill, and the items in
/// an order in which each stands before its components.
#[derive(Debug, Drop)]
pub struct Explosion {
    weights: Vec<Vec<u64>>,
    order: Vec<u32>,
}

impl Model for Explosion {
    ghost use Rattle.std.specs.Prelude.{map};
    ghost use Rattle.echelon.specs.Weights.{Exploded};

    ghost Value = { Exploded };

    ghost view = { λ a. record { weights = map (λ v. v.items) a.weights.items; order = a.order.items } };
}

// The weights of an item in each item.
fn row_of(alloc: Global, instance: &Instance, item: u32) -> Result<Vec<u64>, AllocError>
    requires low { 1 ≤ item }
    requires high { item ≤ item_count instance.now }
    ensures { IfOk result (λ row. IsRow instance.now item (item_count instance.now) row.items) }
{
    let mut row = Vec::with_capacity(alloc, instance.items() as usize)?;
    for other in 1..instance.items() + 1 {
        row.push(instance.weight(item, other))?;
    }
    Ok(row)
}

// The items of one rank are put after those of the ranks before.
fn order_rank(order: &mut Vec<u32>, ranks: &[u32], rank: u32) -> Result<(), AllocError>
    requires before { IsOrderedTo (entry ranks.now) (length ranks.now) rank 1 order.now.items }
    requires count { length ranks.now ≤ MAX_ITEMS }
    ensures { IfOk result (λ _.
        IsOrderedTo (entry ranks.now) (length ranks.now) rank (length ranks.now + 1)
        order.new.items) }
{
    for item in 1..ranks.len() as u32 + 1 {
        if ranks[(item - 1) as usize] == rank {
            order.push(item)?;
        }
    }
    Ok(())
}

// The items by rank, and by number where ranks are equal.
fn order_of(alloc: Global, ranks: &[u32]) -> Result<Vec<u32>, AllocError>
    requires count { length ranks.now ≤ MAX_ITEMS }
    ensures { IfOk result (λ order.
        IsOrderedTo (entry ranks.now) (length ranks.now) (length ranks.now + 1) 1 order.items) }
{
    let mut order = Vec::with_capacity(alloc, ranks.len())?;
    for rank in 0..ranks.len() as u32 + 1 {
        order_rank(&mut order, ranks, rank)?;
    }
    Ok(order)
}

impl Explosion {
    /// The weights and the order of an instance's items. The error is that memory ran out.
    ///
    /// It takes time in the square of the number of items.
    pub fn of(alloc: Global, instance: &Instance) -> Result<Explosion, AllocError>
        ensures { IfOk result (IsExplosionOf instance.now) }
    {
        totals_exist();
        let mut weights = Vec::with_capacity(alloc, instance.items() as usize)?;
        for item in 1..instance.items() + 1 {
            weights.push(row_of(alloc, instance, item)?)?;
        }
        let order = order_of(alloc, instance.ranks())?;
        Ok(Explosion { weights, order })
    }

    /// The weight of an item in another: how many units of it one unit of the other takes over all
    /// paths, with one of an item in itself. It takes no memory.
    pub fn weight(&self, item: u32, in_item: u32) -> u64
        requires low { 1 ≤ item }
        requires high { item ≤ length self.now.weights }
        requires other_low { 1 ≤ in_item }
        requires other_high { in_item ≤ length (slice_index_or self.now.weights (item - 1) []) }
        ensures { result ≡ weight_in self.now item in_item }
    {
        let row: &[u64] = &self.weights[(item - 1) as usize];
        row[(in_item - 1) as usize]
    }

    /// Every item once, each before its components. It takes no memory.
    pub fn order(&self) -> &[u32]
        ensures { result.now ≡ self.now.order }
    {
        &self.order
    }
}
