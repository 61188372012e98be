// What a unit costs that one period makes for another.
ghost use Rattle.std.specs.Prelude.{◌≡◌, ◌≤◌, length, ℕ, IfOk, IfSome};
ghost use Rattle.lot_sizing.specs.Problem.{AllAtMost, entry};
ghost use Rattle.lot_sizing.specs.declared.limits.TheConstants.{MAX_AMOUNT, MAX_PERIODS};
ghost use Rattle.lot_sizing.specs.Single.{IsWithinBounds, IsServer, period_count, unit_price};
ghost use Rattle.echelon.specs.Views.{single_of_item};
ghost use Rattle.wagner_whitin.specs.Tables.{AreSums, AreCostSums, most_price};

use echelon::SingleItem;
use std::alloc::{AllocError, Global};

/// The sums of the costs of holding and of owing a unit, over the first periods.
#[derive(Drop)]
pub struct CostSums {
    pub held: Vec<u64>,
    pub owed: Vec<u64>,
}

/// The sums of the first numbers, that of none first.
pub fn sums(alloc: Global, costs: &[u64]) -> Result<Vec<u64>, AllocError>
    requires count { length costs.now ≤ MAX_PERIODS }
    requires small { AllAtMost MAX_AMOUNT costs.now }
    ensures { IfOk result (λ sums. AreSums (length costs.now) (entry costs.now) sums.items) }
{
    let mut sums = Vec::with_capacity(alloc, costs.len() + 1)?;
    let mut sum = 0u64;
    sums.push(sum)?;
    for period in 1..costs.len() + 1 {
        sum += costs[period - 1];
        sums.push(sum)?;
    }
    Ok(sums)
}

// The sums of the costs of owing a unit; none where no backlog is allowed.
fn owed_sums(alloc: Global, single: &SingleItem) -> Result<Vec<u64>, AllocError>
    requires within { IsWithinBounds (single_of_item single.now) }
    ensures { IfOk result (λ sums.
        IfSome (single_of_item single.now).back
        (λ costs. AreSums (period_count (single_of_item single.now)) (entry costs) sums.items)) }
{
    match &single.back {
        Some(costs) => sums(alloc, costs),
        None => Ok(Vec::new(alloc)),
    }
}

impl CostSums {
    /// The sums of an item's costs.
    pub fn of(alloc: Global, single: &SingleItem) -> Result<CostSums, AllocError>
        requires within { IsWithinBounds (single_of_item single.now) }
        ensures { IfOk result (AreCostSums (single_of_item single.now)) }
    {
        Ok(CostSums {
            held: sums(alloc, &single.hold)?,
            owed: owed_sums(alloc, single)?,
        })
    }

    /// The cost of a unit that a server makes for a period. It takes no time in the periods between.
    pub fn of_unit(&self, single: &SingleItem, server: u32, period: u32) -> u64
        requires within { IsWithinBounds (single_of_item single.now) }
        requires cost_sums { AreCostSums (single_of_item single.now) self.now }
        requires low { 1 ≤ period }
        requires high { period ≤ period_count (single_of_item single.now) }
        requires server { IsServer (single_of_item single.now) server period }
        ensures value { result ≡ unit_price (single_of_item single.now) server period }
        ensures small { result ≤ most_price }
    {
        let unit = single.unit[(server - 1) as usize];
        let from = (server - 1) as usize;
        let to = (period - 1) as usize;
        if server <= period {
            unit + (self.held[to] - self.held[from])
        } else {
            unit + (self.owed[from] - self.owed[to])
        }
    }
}
