// The sums from which lines are read.
ghost use Rattle.std.specs.Prelude.{◌≡◌, IfOk};
ghost use Rattle.lot_sizing.specs.Problem.{entry};
ghost use Rattle.lot_sizing.specs.Single.{IsWithinBounds, period_count, position_count, positions};
ghost use Rattle.echelon.specs.Views.{single_of_item};
ghost use Rattle.wagner_whitin.specs.Tables.{AreSums};
ghost use Rattle.wagner_whitin.specs.Lines.{AreLineSums, held_at, net_at};

use crate::cost_sums::sums;
use crate::lines::LineSums;
use echelon::SingleItem;
use std::alloc::{AllocError, Global};

// The sums of the net demands of the first positions.
fn net_sums(alloc: Global, single: &SingleItem, needed: &[u32]) -> Result<Vec<u64>, AllocError>
    requires within { IsWithinBounds (single_of_item single.now) }
    requires needed { needed.now ≡ positions (single_of_item single.now) }
    ensures { IfOk result (λ sums.
        AreSums (position_count (single_of_item single.now)) (net_at (single_of_item single.now))
        sums.items) }
{
    let mut sums = Vec::with_capacity(alloc, needed.len() + 1)?;
    let mut sum = 0u64;
    sums.push(sum)?;
    for place in 0..needed.len() {
        sum += single.net[(needed[place] - 1) as usize] as u64;
        sums.push(sum)?;
    }
    Ok(sums)
}

// The sums of what it costs to hold the net demands of the first positions from the first period on.
fn held_net_sums(
    alloc: Global,
    single: &SingleItem,
    needed: &[u32],
    held: &[u64],
) -> Result<Vec<u128>, AllocError>
    requires within { IsWithinBounds (single_of_item single.now) }
    requires needed { needed.now ≡ positions (single_of_item single.now) }
    requires held { AreSums (period_count (single_of_item single.now))
        (entry (single_of_item single.now).hold) held.now }
    ensures { IfOk result (λ sums.
        AreSums (position_count (single_of_item single.now)) (held_at (single_of_item single.now))
        sums.items) }
{
    let mut sums = Vec::with_capacity(alloc, needed.len() + 1)?;
    let mut sum = 0u128;
    sums.push(sum)?;
    for place in 0..needed.len() {
        let before = (needed[place] - 1) as usize;
        let net = single.net[before];
        let price = held[before];
        sum += net * price as u128;
        sums.push(sum)?;
    }
    Ok(sums)
}

impl LineSums {
    /// The sums of an item, whose periods with a net demand are handed in.
    pub fn of(alloc: Global, single: &SingleItem, needed: &[u32]) -> Result<LineSums, AllocError>
        requires within { IsWithinBounds (single_of_item single.now) }
        requires needed { needed.now ≡ positions (single_of_item single.now) }
        ensures { IfOk result (AreLineSums (single_of_item single.now)) }
    {
        let held = sums(alloc, &single.hold)?;
        let net = net_sums(alloc, single, needed)?;
        let held_net = held_net_sums(alloc, single, needed, &held)?;
        Ok(LineSums {
            held,
            net,
            held_net,
        })
    }
}
