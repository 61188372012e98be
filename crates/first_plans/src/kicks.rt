// Plans that are improved once more after random changes of their setups.
ghost use Rattle.std.specs.Prelude.{◌≡◌, ◌≤◌, IfOk, IfSome, OnOk};
ghost use Rattle.lot_sizing.specs.Problem.{item_count};
ghost use Rattle.plan_rules.specs.Cells.{Fits};
ghost use Rattle.first_plans.specs.Made.{IsMade, IsNoDearer};
ghost use Rattle.first_plans.specs.Trials.{IsTrial};

use crate::improving::{Improving, improved_so};
use crate::trials::{Trial, change};
use heur_build::built_plan;
use heur_items::copy_grid;
use lot_model::Instance;
use plan_rules::{Grid, Planned};
use rand_core::utils::NextWord;
use rand_pcg::Lcg64Xsh32;
use std::alloc::{AllocError, Global};
use work_clock::Deadline;

// How many random changes a kick makes.
const CHANGES: u32 = 5;

// The generator of the random changes is begun with this seed, on this stream.
const SEED: u64 = 1;

const STREAM: u64 = 54;

// A random number from 1 to so much.
fn draw(words: &mut Lcg64Xsh32, most: u32) -> u32
    requires { 1 ≤ most }
    ensures low { 1 ≤ result }
    ensures high { result ≤ most }
{
    1 + words.next_word() % most
}

// A random change: a setup of an item in a period, put in, left out or moved to a period beside it.
fn drawn(instance: &Instance, words: &mut Lcg64Xsh32) -> Trial
    requires items { 1 ≤ item_count instance.now }
    requires periods { 1 ≤ instance.now.periods }
    ensures { IsTrial instance.now result }
{
    let item = draw(words, instance.items());
    let from = draw(words, instance.periods());
    let to = match draw(words, 3) {
        1 if from > 1 => from - 1,
        2 if from < instance.periods() => from + 1,
        _ => from,
    };
    let along = draw(words, 3) == 1;
    Trial {
        item,
        from,
        to,
        along,
    }
}

// Changes some wanted setups.
fn kick(instance: &Instance, wanted: &mut Grid, words: &mut Lcg64Xsh32)
    requires items { 1 ≤ item_count instance.now }
    requires periods { 1 ≤ instance.now.periods }
    requires wanted { Fits instance.now wanted.old }
    ensures { Fits instance.now wanted.new }
{
    for _change in 0..CHANGES {
        let trial = drawn(instance, words);
        change(instance, wanted, trial);
    }
}

// A plan, where one was built, and how many more may be built.
#[derive(Drop)]
struct Attempt {
    found: Option<Planned>,
    tries: u32,
}

// Builds the plan with some of a plan's setups changed, and improves it.
fn try_kick(
    alloc: Global,
    instance: &Instance,
    best: &Planned,
    words: &mut Lcg64Xsh32,
    tries: u32,
    until: Deadline,
) -> Result<Attempt, AllocError>
    requires items { 1 ≤ item_count instance.now }
    requires periods { 1 ≤ instance.now.periods }
    requires made { IsMade instance.now best.now }
    ensures { IfOk result (λ kicked. IfSome kicked.found (IsMade instance.now)) }
{
    let mut wanted = Grid::filled(alloc, instance.items(), instance.periods(), 0)?;
    copy_grid(instance, &best.plan.setup, &mut wanted);
    kick(instance, &mut wanted, words);
    let Some(start) = built_plan(alloc, instance, &wanted)? else {
        return Ok(Attempt { found: None, tries });
    };
    let Improving {
        best: found,
        tries: left,
        ..
    } = improved_so(alloc, instance, start, tries, until)?;
    Ok(Attempt {
        found: Some(found),
        tries: left,
    })
}

// Keeps the plan that is built and improved after some changes, if it is cheaper, and gives how many more may be built.
fn kick_once(
    alloc: Global,
    instance: &Instance,
    best: &mut Planned,
    words: &mut Lcg64Xsh32,
    tries: u32,
    until: Deadline,
) -> Result<u32, AllocError>
    requires items { 1 ≤ item_count instance.now }
    requires periods { 1 ≤ instance.now.periods }
    requires made { IsMade instance.now best.old }
    ensures { OnOk result (IsNoDearer instance.now best.old best.new) }
{
    let Attempt { found, tries } = try_kick(alloc, instance, best, words, tries, until)?;
    if let Some(planned) = found {
        if planned.cost < best.cost {
            *best = planned;
        }
    }
    Ok(tries)
}

/// The best plan that is found from this one when some of its setups are changed at random, so many times, and what is
/// built with them is improved. In all so many plans may be built. It ends early when it is time.
///
/// The error is that memory ran out; the plan is lost then.
pub(crate) fn kicked(
    alloc: Global,
    instance: &Instance,
    planned: Planned,
    kicks: u32,
    tries: u32,
    until: Deadline,
) -> Result<Planned, AllocError>
    requires made { IsMade instance.now planned }
    ensures { IfOk result (IsNoDearer instance.now planned) }
{
    let mut best = planned;
    if instance.items() == 0 || instance.periods() == 0 {
        return Ok(best);
    }
    let mut words = Lcg64Xsh32::new(SEED, STREAM);
    let mut left = tries;
    for _kick in 0..kicks {
        if until.is_past() {
            return Ok(best);
        }
        left = kick_once(alloc, instance, &mut best, &mut words, left, until)?;
    }
    Ok(best)
}
