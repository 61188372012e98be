// The cheapest last block of each server.
ghost use Rattle.std.specs.Prelude.{◌≡◌, ◌≤◌, ◌<◌, ◌+◌, ◌*◌, ◌↔◌, ◌⊎◌, ℕ, length, Option, Some, IfSome};
ghost use Rattle.lot_sizing.specs.declared.limits.TheConstants.{MAX_PERIODS};
ghost use Rattle.lot_sizing.specs.Single.{IsWithinBounds, IsServer, net_demand, period_count, period_of, position_count, potential, unit_price};
ghost use Rattle.echelon.specs.Views.{single_of_item};
ghost use Rattle.wagner_whitin.specs.Tables.{AreCostSums, AreServerBlocks, BlockCostsAtMost, IsServerBlock, IsServerBlockOrNone, most_for_one, most_serving, block_at};

use crate::cost_sums::CostSums;
use echelon::SingleItem;

/// The cheapest last block of a server that ends with a position, and what all up to it costs.
#[derive(Clone, Copy)]
pub struct ServerBlock {
    pub cost: u128,
    pub first: u32,
    pub server: u32,
}

/// The potential of the last position, and 0 where there is none.
pub fn last_potential(potentials: &[u128]) -> u128
    ensures value { result ≡ potential potentials.now (length potentials.now) }
{
    match potentials.last() {
        Some(last) => *last,
        None => 0,
    }
}

/// What it costs that a server serves a period, its setup aside.
pub fn serving_cost(single: &SingleItem, cost_sums: &CostSums, server: u32, period: u32) -> u128
    requires within { IsWithinBounds (single_of_item single.now) }
    requires cost_sums { AreCostSums (single_of_item single.now) cost_sums.now }
    requires low { 1 ≤ period }
    requires high { period ≤ period_count (single_of_item single.now) }
    requires server { IsServer (single_of_item single.now) server period }
    ensures value { result ≡ net_demand (single_of_item single.now) period
        * unit_price (single_of_item single.now) server period }
    ensures small { result ≤ most_serving }
{
    let net = single.net[(period - 1) as usize];
    let price = cost_sums.of_unit(single, server, period);
    net * price as u128
}

// A block that goes on, or a fresh one where that costs less.
fn cheaper_start(block: Option<ServerBlock>, fresh: ServerBlock) -> ServerBlock
    ensures no_more { result.cost ≤ fresh.cost }
    ensures start { ((result ≡ fresh) × IfSome block (λ old. fresh.cost ≤ old.cost))
        ⊎ ((block ≡ Some result) × (result.cost ≤ fresh.cost)) }
{
    match block {
        Some(old) if old.cost <= fresh.cost => old,
        _ => fresh,
    }
}

// A server's block with one position more: the block goes on, or begins with the position.
fn extended(
    single: &SingleItem,
    cost_sums: &CostSums,
    potentials: &[u128],
    server: u32,
    period: u32,
    block: Option<ServerBlock>,
) -> ServerBlock
    requires within { IsWithinBounds (single_of_item single.now) }
    requires cost_sums { AreCostSums (single_of_item single.now) cost_sums.now }
    requires count { length potentials.now < MAX_PERIODS }
    requires period { period ≡ period_of (single_of_item single.now) (length potentials.now + 1) }
    requires low { 1 ≤ period }
    requires high { period ≤ period_count (single_of_item single.now) }
    requires server { IsServer (single_of_item single.now) server period }
    requires small { potential potentials.now (length potentials.now)
        ≤ length potentials.now * most_for_one }
    requires block { IsServerBlockOrNone (single_of_item single.now) potentials.now server
        (length potentials.now) block }
    ensures { IsServerBlock (single_of_item single.now) potentials.now server
        (length potentials.now + 1) result }
{
    let serving = serving_cost(single, cost_sums, server, period);
    let setup = single.setup[(server - 1) as usize];
    let fresh = ServerBlock {
        cost: last_potential(potentials) + setup as u128,
        first: potentials.len() as u32 + 1,
        server,
    };
    let start = cheaper_start(block, fresh);
    ServerBlock {
        cost: start.cost + serving,
        first: start.first,
        server,
    }
}

/// The last period that may serve a period: itself, or where backlog is allowed the last of all.
pub fn last_server(single: &SingleItem, period: u32) -> u32
    requires within { IsWithinBounds (single_of_item single.now) }
    requires low { 1 ≤ period }
    requires high { period ≤ period_count (single_of_item single.now) }
    ensures high { result ≤ period_count (single_of_item single.now) }
    ensures self_serves { period ≤ result }
    ensures servers { (server : ℕ) → 1 ≤ server
        → (IsServer (single_of_item single.now) server period ↔ (server ≤ result)) }
{
    match &single.back {
        Some(_) => single.net.len() as u32,
        None => period,
    }
}

/// One position more, of the period, in the block of each server that may serve it.
pub fn serve(
    single: &SingleItem,
    cost_sums: &CostSums,
    potentials: &[u128],
    period: u32,
    limit: u32,
    blocks: &mut [Option<ServerBlock>],
)
    requires within { IsWithinBounds (single_of_item single.now) }
    requires cost_sums { AreCostSums (single_of_item single.now) cost_sums.now }
    requires count { length potentials.now < MAX_PERIODS }
    requires some { length potentials.now < position_count (single_of_item single.now) }
    requires period { period ≡ period_of (single_of_item single.now) (length potentials.now + 1) }
    requires low { 1 ≤ period }
    requires high { period ≤ period_count (single_of_item single.now) }
    requires small { potential potentials.now (length potentials.now)
        ≤ length potentials.now * most_for_one }
    requires limit { limit ≤ period_count (single_of_item single.now) }
    requires servers { (server : ℕ) → 1 ≤ server
        → (IsServer (single_of_item single.now) server period ↔ (server ≤ limit)) }
    requires blocks { AreServerBlocks (single_of_item single.now) potentials.now
        (length potentials.now) blocks.now }
    ensures { AreServerBlocks (single_of_item single.now) potentials.now (length potentials.now + 1)
        blocks.new }
{
    for server in 1..limit + 1 {
        let block = blocks[(server - 1) as usize];
        blocks[(server - 1) as usize] = Some(extended(
            single, cost_sums, potentials, server, period, block,
        ));
    }
}

// The cheaper of two blocks, where there are both.
fn cheaper(one: Option<ServerBlock>, other: Option<ServerBlock>) -> Option<ServerBlock>
    ensures either { (result ≡ one) ⊎ (result ≡ other) }
    ensures least { (x : ℕ) → BlockCostsAtMost one x → BlockCostsAtMost result x }
    ensures least_other { (x : ℕ) → BlockCostsAtMost other x → BlockCostsAtMost result x }
{
    let Some(left) = one else {
        return other;
    };
    let Some(right) = other else {
        return one;
    };
    Some(if right.cost < left.cost { right } else { left })
}

/// The cheapest block of the first servers, if one of them has a block.
pub fn cheapest(blocks: &[Option<ServerBlock>], limit: u32) -> Option<ServerBlock>
    requires high { limit ≤ length blocks.now }
    requires count { length blocks.now ≤ MAX_PERIODS }
    ensures kept { IfSome result (λ block. (server : ℕ) × (1 ≤ server) × (server ≤ limit)
        × (block_at blocks.now server ≡ Some block)) }
    ensures least { (server x : ℕ) → 1 ≤ server → server ≤ limit
        → BlockCostsAtMost (block_at blocks.now server) x → BlockCostsAtMost result x }
{
    let mut best = None;
    for server in 1..limit + 1 {
        best = cheaper(best, blocks[(server - 1) as usize]);
    }
    best
}
