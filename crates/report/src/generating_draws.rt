// What is drawn of a model.
ghost use Rattle.std.specs.Prelude.{◌≡◌, ◌≤◌, ◌<◌, ◌^◌, IfOk};
ghost use Rattle.report.specs.Draws.{draw_item, generator_of, most_demand, pick, pick_if, picks};

use rand_core::utils::NextWord;
use rand_pcg::Lcg64Xsh32;
use std::alloc::{AllocError, Global};
use std::marker::Model;

/// What is drawn of an item: a demand and a setup cost for each period, a hold cost for all of them, and a
/// backlog cost for all of them, if there is one.
#[derive(Drop)]
pub struct DrawnItem {
    /// The item's number, counted from 1.
    pub number: u32,
    /// Units asked for, in each period.
    pub demand: Vec<u32>,
    /// Money for a setup, in each period.
    pub setup_cost: Vec<u32>,
    /// Money for a unit in stock at the end of a period.
    pub hold_cost: u32,
    /// Money for a unit owed at the end of a period.
    pub backlog_cost: Option<u32>,
}

impl Model for DrawnItem {
    ghost use Rattle.report.specs.Draws.{Drawn};

    ghost Value = { Drawn };

    ghost view = { λ a. record { number = a.number; demand = a.demand.items; setup_cost = a.setup_cost.items; hold_cost = a.hold_cost; backlog_cost = a.backlog_cost } };
}

/// The stream of words of the generator: that of the example programs of PCG's author.
pub const STREAM: u64 = 54;

/// The generator of a seed.
pub fn generator(seed: u64) -> Lcg64Xsh32
    ensures { result ≡ generator_of seed }
{
    Lcg64Xsh32::new(seed, STREAM)
}

// A number from low to high, by the next word.
fn pick(rng: &mut Lcg64Xsh32, low: u32, high: u32) -> u32
    requires order { low ≤ high }
    requires room { high < 2 ^ 31 }
    ensures { (result, rng.new) ≡ pick low high rng.old }
{
    low + rng.next_word() % (high - low + 1)
}

// So many numbers from low to high.
fn picks(
    alloc: Global,
    rng: &mut Lcg64Xsh32,
    low: u32,
    high: u32,
    count: u32,
) -> Result<Vec<u32>, AllocError>
    requires order { low ≤ high }
    requires room { high < 2 ^ 31 }
    ensures { IfOk result (λ list. (list.items, rng.new) ≡ picks low high count rng.old) }
{
    let mut list = Vec::with_capacity(alloc, count as usize)?;
    for _done in 0..count {
        list.push(pick(rng, low, high))?;
    }
    Ok(list)
}

// A number from low to high, if one is wanted; else no word is taken.
fn pick_if(rng: &mut Lcg64Xsh32, wanted: bool, low: u32, high: u32) -> Option<u32>
    requires order { low ≤ high }
    requires room { high < 2 ^ 31 }
    ensures { (result, rng.new) ≡ pick_if wanted low high rng.old }
{
    if wanted {
        Some(pick(rng, low, high))
    } else {
        None
    }
}

// The largest demand of an item.
fn most_demand(coupled: bool, number: u32) -> u32
    ensures is { result ≡ most_demand coupled number }
    ensures small { result ≤ 99 }
{
    if !coupled {
        99
    } else if number % 3 == 1 {
        49
    } else {
        9
    }
}

/// The next item, in the order of its draws.
pub fn draw_item(
    alloc: Global,
    rng: &mut Lcg64Xsh32,
    coupled: bool,
    number: u32,
    periods: u32,
) -> Result<DrawnItem, AllocError>
    ensures { IfOk result (λ item. (item, rng.new) ≡ draw_item coupled periods number rng.old) }
{
    let most = most_demand(coupled, number);
    let demand = picks(alloc, rng, 0, most, periods)?;
    let setup_cost = picks(alloc, rng, 100, 299, periods)?;
    let hold_cost = pick(rng, 1, 3);
    let backlog_cost = pick_if(rng, !coupled && number % 2 == 1, 2, 6);
    Ok(DrawnItem {
        number,
        demand,
        setup_cost,
        hold_cost,
        backlog_cost,
    })
}
