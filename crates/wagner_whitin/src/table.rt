// The least cost up to each position, and the last block of a cheapest way to serve them.
ghost use Rattle.std.specs.Prelude.{◌≡◌, ℕ, length, IfOk};
ghost use Rattle.lot_sizing.specs.Single.{IsWithinBounds, position_count, positions, potential, CoverFrom, blocks_cost};
ghost use Rattle.echelon.specs.Views.{single_of_item};
ghost use Rattle.wagner_whitin.specs.Solution.{IsSolution};
ghost use Rattle.wagner_whitin.specs.Tables.{AreCostSums, AreServerBlocks, IsTable};

use crate::cost_sums::CostSums;
use crate::server_blocks;
use echelon::{Block, Blocks, SingleItem};
use std::alloc::{AllocError, Global};

/// The least cost up to each position, and the last block of each.
#[derive(Drop)]
pub struct LeastCosts {
    pub potentials: Vec<u128>,
    pub lasts: Vec<Block>,
}

/// The table of all positions.
pub fn least_costs(alloc: Global, single: &SingleItem) -> Result<LeastCosts, AllocError>
    requires within { IsWithinBounds (single_of_item single.now) }
    ensures { IfOk result (λ table.
        IsTable (single_of_item single.now) (position_count (single_of_item single.now))
        table.potentials.items table.lasts.items) }
{
    let needed = echelon::positions(alloc, single)?;
    let cost_sums = CostSums::of(alloc, single)?;
    let mut blocks = vec![in alloc; None; single.net.len()]?;
    let mut potentials = Vec::with_capacity(alloc, needed.len())?;
    let mut lasts = Vec::with_capacity(alloc, needed.len())?;
    for place in 0..needed.len() {
        let period = needed[place];
        let limit = server_blocks::last_server(single, period);
        server_blocks::serve(single, &cost_sums, &potentials, period, limit, &mut blocks);
        let Some(best) = server_blocks::cheapest(&blocks, limit) else {
            unreachable!();
        };
        lasts.push(Block {
            first: best.first,
            last: place as u32 + 1,
            server: best.server,
        })?;
        potentials.push(best.cost)?;
    }
    Ok(LeastCosts { potentials, lasts })
}

// The blocks of a cheapest way to serve all positions, found from the last one back.
fn trace(alloc: Global, single: &SingleItem, table: &LeastCosts) -> Result<Vec<Block>, AllocError>
    requires within { IsWithinBounds (single_of_item single.now) }
    requires table { IsTable (single_of_item single.now)
        (position_count (single_of_item single.now)) table.now.potentials.items
        table.now.lasts.items }
    ensures cover { IfOk result (λ blocks. CoverFrom (single_of_item single.now) 0 blocks.items) }
    ensures cost { IfOk result (λ blocks. blocks_cost (single_of_item single.now) blocks.items
        ≡ potential table.now.potentials.items (position_count (single_of_item single.now))) }
{
    let mut blocks = Vec::new(alloc);
    let mut place = table.lasts.len();
    while place > 0 {
        let block = table.lasts[place - 1];
        blocks.push(block)?;
        place = (block.first - 1) as usize;
    }
    blocks.reverse();
    Ok(blocks)
}

/// What the table of all positions says: a cheapest way to serve them, with the potentials that prove it.
pub fn solution(alloc: Global, single: &SingleItem, table: LeastCosts) -> Result<Blocks, AllocError>
    requires within { IsWithinBounds (single_of_item single.now) }
    requires table { IsTable (single_of_item single.now)
        (position_count (single_of_item single.now)) table.potentials.items table.lasts.items }
    ensures { IfOk result (IsSolution (single_of_item single.now)) }
{
    lot_sizing::last_potential_is_floor();
    lot_sizing::blocks_serve();
    let blocks = trace(alloc, single, &table)?;
    let cost = server_blocks::last_potential(&table.potentials);
    Ok(Blocks {
        cost,
        blocks,
        potentials: table.potentials,
    })
}
