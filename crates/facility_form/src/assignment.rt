// What each period makes for each other one.
ghost use Rattle.std.specs.Prelude.{◌≡◌, ◌≤◌, ◌<◌, ◌+◌, ◌^◌, ℕ, List, length, IfOk, slice_index_or};
ghost use Rattle.lot_sizing.specs.Sums.{sum_to};
ghost use Rattle.lot_sizing.specs.Problem.{entry};
ghost use Rattle.facility_form.specs.Overlap.{AreSumsOf, Serves, overlap};

use std::alloc::{AllocError, Global};
use std::marker::Model;

/// What each period makes for each other one, where what is made first serves what is asked for first.
#[derive(Drop)]
pub struct Assignment {
    made: Vec<u128>,
    asked: Vec<u128>,
}

impl Model for Assignment {
    ghost use Rattle.facility_form.specs.Overlap.{Sums};

    ghost Value = { Sums };

    ghost view = { λ a. record { made = a.made.items; asked = a.asked.items } };
}

// The sums of the first quantities, that of none first.
fn sums_made(alloc: Global, make: &[u64]) -> Result<Vec<u128>, AllocError>
    ensures size { IfOk result (λ sums. length sums.items ≡ length make.now + 1) }
    ensures each { IfOk result (λ sums. (t : ℕ) → t ≤ length make.now
        → slice_index_or sums.items t 0 ≡ sum_to t (entry make.now)) }
{
    let mut sums = Vec::with_capacity(alloc, make.len() + 1)?;
    let mut sum = 0u128;
    sums.push(sum)?;
    for place in 0..make.len() {
        sum += make[place] as u128;
        sums.push(sum)?;
    }
    Ok(sums)
}

// The sums of the first net demands, that of none first.
fn sums_asked(alloc: Global, net: &[u128]) -> Result<Vec<u128>, AllocError>
    requires small { sum_to (length net.now) (entry net.now) < 2 ^ 128 }
    ensures size { IfOk result (λ sums. length sums.items ≡ length net.now + 1) }
    ensures each { IfOk result (λ sums. (t : ℕ) → t ≤ length net.now
        → slice_index_or sums.items t 0 ≡ sum_to t (entry net.now)) }
{
    let mut sums = Vec::with_capacity(alloc, net.len() + 1)?;
    let mut sum = 0u128;
    sums.push(sum)?;
    for place in 0..net.len() {
        sum += net[place];
        sums.push(sum)?;
    }
    Ok(sums)
}

/// What each period makes for each other one. The lists have an entry for each period, and as much is made
/// in all as is asked for.
///
/// What is made for a period over all periods is what it asks for, and what a period makes for all is at
/// most what it makes. The error is that memory ran out.
pub fn assign(alloc: Global, make: &[u64], net: &[u128]) -> Result<Assignment, AllocError>
    requires periods { length make.now ≡ length net.now }
    requires enough { sum_to (length net.now) (entry net.now)
        ≤ sum_to (length make.now) (entry make.now) }
    ensures sums { IfOk result (AreSumsOf make.now net.now) }
    ensures serves { IfOk result (λ _. Serves (length make.now) (entry make.now) (entry net.now)) }
{
    let made = sums_made(alloc, make)?;
    let asked = sums_asked(alloc, net)?;
    Ok(Assignment { made, asked })
}

impl Assignment {
    /// How much a period makes for another one, both counted from 1. It takes no memory.
    pub fn served(&self, server: u32, period: u32) -> u128
        requires server_low { 1 ≤ server }
        requires server_high { server < length self.now.made }
        requires low { 1 ≤ period }
        requires high { period < length self.now.asked }
        ensures { (make net : List ℕ) → AreSumsOf make net self.now
            → result ≡ overlap (entry make) (entry net) server period }
    {
        let end = self.made[server as usize].min(self.asked[period as usize]);
        let start = self.made[(server - 1) as usize].max(self.asked[(period - 1) as usize]);
        end.saturating_sub(start)
    }
}
