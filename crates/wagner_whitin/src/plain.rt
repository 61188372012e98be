// The recursion in its plainest form: each last block of each server is tried and added up anew.
ghost use Rattle.std.specs.Prelude.{◌≡◌, ◌≤◌, ◌<◌, ◌⊎◌, ◌+◌, ◌-◌, ◌*◌, ℕ, length, IfOk};
ghost use Rattle.lot_sizing.specs.declared.Block.{Block};
ghost use Rattle.lot_sizing.specs.Single.{IsBlock, IsLeastNetCost, IsServer, IsWithinBounds, block_cost, period_count, period_of, position_count, positions, potential};
ghost use Rattle.echelon.specs.Views.{single_of_item};
ghost use Rattle.wagner_whitin.specs.Tables.{AreCostSums, IsCandidate, IsCheapestLast, IsTable, most_cost, most_for_one};

use crate::cost_sums::CostSums;
use crate::server_blocks::{last_potential, last_server, serving_cost};
use crate::table::{self, LeastCosts};
use echelon::{Block, SingleItem};
use std::alloc::{AllocError, Global};

// What a block costs, added up position by position.
fn block_cost(single: &SingleItem, cost_sums: &CostSums, needed: &[u32], block: Block) -> u128
    requires within { IsWithinBounds (single_of_item single.now) }
    requires cost_sums { AreCostSums (single_of_item single.now) cost_sums.now }
    requires needed { needed.now ≡ positions (single_of_item single.now) }
    requires block { IsBlock (single_of_item single.now) block }
    ensures value { result ≡ block_cost (single_of_item single.now) block }
    ensures small { result ≤ (block.last + 1 - block.first) * most_for_one }
{
    let mut cost = single.setup[(block.server - 1) as usize] as u128;
    for place in block.first..block.last + 1 {
        let period = needed[(place - 1) as usize];
        cost += serving_cost(single, cost_sums, block.server, period);
    }
    cost
}

// A last block, and what all up to its end costs.
#[derive(Clone, Copy)]
pub struct Candidate {
    pub cost: u128,
    pub block: Block,
}

// The cheaper of two.
fn cheaper(one: Candidate, other: Candidate) -> Candidate
    ensures either { (result ≡ one) ⊎ (result ≡ other) }
    ensures least { (result.cost ≤ one.cost) × (result.cost ≤ other.cost) }
{
    if other.cost < one.cost { other } else { one }
}

// The cheapest block that serves these positions, after the potential of those before.
fn cheapest_server(
    single: &SingleItem,
    cost_sums: &CostSums,
    needed: &[u32],
    before: u128,
    first: u32,
    last: u32,
) -> Candidate
    requires within { IsWithinBounds (single_of_item single.now) }
    requires cost_sums { AreCostSums (single_of_item single.now) cost_sums.now }
    requires needed { needed.now ≡ positions (single_of_item single.now) }
    requires low { 1 ≤ first }
    requires order { first ≤ last }
    requires high { last ≤ position_count (single_of_item single.now) }
    requires before { before ≤ most_cost }
    ensures candidate { IsCandidate (single_of_item single.now) before first last result }
{
    let period = needed[(first - 1) as usize];
    let own = Block {
        first,
        last,
        server: period,
    };
    let mut best = Candidate {
        cost: before + block_cost(single, cost_sums, needed, own),
        block: own,
    };
    for server in 1..last_server(single, period) + 1 {
        let block = Block {
            first,
            last,
            server,
        };
        let cost = before + block_cost(single, cost_sums, needed, block);
        best = cheaper(best, Candidate { cost, block });
    }
    best
}

// The potential of the position before another, and 0 before the first one.
fn potential_before(potentials: &[u128], position: u32) -> u128
    requires low { 1 ≤ position }
    requires high { position ≤ length potentials.now + 1 }
    ensures { result ≡ potential potentials.now (position - 1) }
{
    if position == 1 {
        return 0;
    }
    potentials[(position - 2) as usize]
}

// The cheapest block that ends with the position after those of the potentials.
fn cheapest_last(
    single: &SingleItem,
    cost_sums: &CostSums,
    needed: &[u32],
    potentials: &[u128],
) -> Candidate
    requires within { IsWithinBounds (single_of_item single.now) }
    requires cost_sums { AreCostSums (single_of_item single.now) cost_sums.now }
    requires needed { needed.now ≡ positions (single_of_item single.now) }
    requires some { length potentials.now < position_count (single_of_item single.now) }
    requires small { (k : ℕ) → k ≤ length potentials.now
        → potential potentials.now k ≤ k * most_for_one }
    ensures { IsCheapestLast (single_of_item single.now) potentials.now (length potentials.now + 1)
        result }
{
    let last = potentials.len() as u32 + 1;
    let mut best = cheapest_server(
        single,
        cost_sums,
        needed,
        last_potential(potentials),
        last,
        last,
    );
    for first in 1..last {
        let before = potential_before(potentials, first);
        best = cheaper(
            best,
            cheapest_server(single, cost_sums, needed, before, first, last),
        );
    }
    best
}

// The table of all positions, each by its cheapest last block.
fn plain_costs(alloc: Global, single: &SingleItem) -> Result<LeastCosts, AllocError>
    requires within { IsWithinBounds (single_of_item single.now) }
    ensures { IfOk result (λ table.
        IsTable (single_of_item single.now) (position_count (single_of_item single.now))
        table.potentials.items table.lasts.items) }
{
    let needed = echelon::positions(alloc, single)?;
    let cost_sums = CostSums::of(alloc, single)?;
    let mut potentials = Vec::with_capacity(alloc, needed.len())?;
    let mut lasts = Vec::with_capacity(alloc, needed.len())?;
    for _ in 0..needed.len() {
        let best = cheapest_last(single, &cost_sums, &needed, &potentials);
        lasts.push(best.block)?;
        potentials.push(best.cost)?;
    }
    Ok(LeastCosts { potentials, lasts })
}

/// The least cost of serving an item, with or without backlog, by trying each last block of each server and
/// adding it up anew: the plain form of `solve_over_servers`, for comparison.
///
/// It takes time in the number of periods times the third power of that of positions. The one error is
/// that memory runs out.
pub fn plain_least_cost(alloc: Global, single: &SingleItem) -> Result<u128, AllocError>
    requires within { IsWithinBounds (single_of_item single.now) }
    ensures least { IfOk result (IsLeastNetCost (single_of_item single.now)) }
{
    let table = plain_costs(alloc, single)?;
    let found = table::solution(alloc, single, table)?;
    Ok(found.cost)
}
