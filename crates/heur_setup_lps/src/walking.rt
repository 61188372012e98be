// A walk over setups from a plan to cheaper ones.
ghost use Rattle.std.specs.Prelude.{◌≤◌, ◌<◌, IfOk, IfSome};
ghost use Rattle.lot_sizing.specs.Problem.{item_count};
ghost use Rattle.plan_rules.specs.Cells.{Fits};
ghost use Rattle.plan_rules.specs.Rows.{IfFound};
ghost use Rattle.own_plan.specs.Made.{IsMade};
ghost use Rattle.heur_setup_lps.specs.Within.{IsCheaper, IsFew};

use crate::limits::MAX_STEP_TIMES;
use crate::planning::{is_few, planned_on};
use crate::program::Base;
use heur_items::copy_grid;
use lot_model::Instance;
use plan_rules::{Grid, Planned};
use rand_core::utils::NextWord;
use rand_pcg::Lcg64Xsh32;
use std::alloc::{AllocError, Global};
use work_clock::Deadline;

// The random changes are drawn on this stream.
const STREAM: u64 = 54;

// The most setups that are changed at a time.
const CHANGES: u32 = 3;

// A random number from 1 to so much.
fn draw(words: &mut Lcg64Xsh32, most: u32) -> u32
    requires { 1 ≤ most }
    ensures low { 1 ≤ result }
    ensures high { result ≤ most }
{
    1 + words.next_word() % most
}

// A period beside this one, or this one.
fn beside(words: &mut Lcg64Xsh32, periods: u32, period: u32) -> u32
    requires low { 1 ≤ period }
    requires high { period ≤ periods }
    ensures low { 1 ≤ result }
    ensures high { result ≤ periods }
{
    match draw(words, 3) {
        1 if period > 1 => period - 1,
        2 if period < periods => period + 1,
        _ => period,
    }
}

// Changes a setup: one that is made is left out, or moved to a period beside it, and one that isn't is put in.
fn change(instance: &Instance, setup: &mut Grid, words: &mut Lcg64Xsh32)
    requires items { 1 ≤ item_count instance.now }
    requires periods { 1 ≤ instance.now.periods }
    requires setup { Fits instance.now setup.old }
    ensures { Fits instance.now setup.new }
{
    let item = draw(words, instance.items());
    let period = draw(words, instance.periods());
    let other = beside(words, instance.periods(), period);
    if setup.get(item, period) == 0 {
        setup.set(item, period, 1);
        return;
    }
    setup.set(item, period, 0);
    if other != period {
        setup.set(item, other, 1);
    }
}

// Changes some setups.
fn change_some(instance: &Instance, setup: &mut Grid, words: &mut Lcg64Xsh32)
    requires items { 1 ≤ item_count instance.now }
    requires periods { 1 ≤ instance.now.periods }
    requires setup { Fits instance.now setup.old }
    ensures { Fits instance.now setup.new }
{
    for _change in 0..draw(words, CHANGES) {
        change(instance, setup, words);
    }
}

/// The grid once more.
pub(crate) fn copy(alloc: Global, instance: &Instance, from: &Grid) -> Result<Grid, AllocError>
    requires { Fits instance.now from.now }
    ensures { IfOk result (Fits instance.now) }
{
    let mut to = Grid::filled(alloc, instance.items(), instance.periods(), 0)?;
    copy_grid(instance, from, &mut to);
    Ok(to)
}

// The plan by the program of these setups with some of them changed.
fn changed(
    alloc: Global,
    instance: &Instance,
    base: &Base,
    setup: &Grid,
    words: &mut Lcg64Xsh32,
) -> Result<Option<Planned>, AllocError>
    requires items { 1 ≤ item_count instance.now }
    requires periods { 1 ≤ instance.now.periods }
    requires setup { Fits instance.now setup.now }
    ensures { IfFound result (IsMade instance.now) }
{
    let mut other = copy(alloc, instance, setup)?;
    change_some(instance, &mut other, words);
    planned_on(alloc, instance, base, &other, &other, MAX_STEP_TIMES)
}

// Keeps a plan that was found, if it costs less than the best one so far, and than this.
fn keep_below(_instance: &Instance, limit: u128, best: &mut Option<Planned>, found: Option<Planned>)
    requires found { IfSome found (IsMade _instance.now) }
    requires best { IfSome best.old (IsCheaper _instance.now limit) }
    ensures { IfSome best.new (IsCheaper _instance.now limit) }
{
    if let Some(planned) = found {
        let least = match best {
            Some(other) => other.cost,
            None => limit,
        };
        if planned.cost < least {
            *best = Some(planned);
        }
    }
}

// The plan by the program of the setups of the best plan so far, which is this one until a cheaper one is found, with some of
// them changed.
fn changed_best(
    alloc: Global,
    instance: &Instance,
    base: &Base,
    planned: &Planned,
    best: &Option<Planned>,
    words: &mut Lcg64Xsh32,
) -> Result<Option<Planned>, AllocError>
    requires items { 1 ≤ item_count instance.now }
    requires periods { 1 ≤ instance.now.periods }
    requires planned { IsMade instance.now planned.now }
    requires best { IfSome best.now (IsCheaper instance.now planned.now.cost) }
    ensures { IfFound result (IsMade instance.now) }
{
    match best {
        Some(found) => changed(alloc, instance, base, &found.plan.setup, words),
        None => changed(alloc, instance, base, &planned.plan.setup, words),
    }
}

// The best plan that is found by so many changes, or by fewer where it is time to end.
fn walked_on(
    alloc: Global,
    instance: &Instance,
    base: &Base,
    planned: &Planned,
    seed: u64,
    tries: u32,
) -> Result<Option<Planned>, AllocError>
    requires items { 1 ≤ item_count instance.now }
    requires periods { 1 ≤ instance.now.periods }
    requires planned { IsMade instance.now planned.now }
    ensures { IfFound result (IsCheaper instance.now planned.now.cost) }
{
    let limit = planned.cost;
    let setup = &planned.plan.setup;
    let mut best = None;
    let same = planned_on(alloc, instance, base, setup, setup, MAX_STEP_TIMES)?;
    keep_below(instance, limit, &mut best, same);
    let mut words = Lcg64Xsh32::new(seed, STREAM);
    for _try in 0..tries {
        if base.is_over() {
            return Ok(best);
        }
        let found = changed_best(alloc, instance, base, planned, &best, &mut words)?;
        keep_below(instance, limit, &mut best, found);
    }
    Ok(best)
}

/// The cheapest plan that is found from this one, if one is cheaper: first by the program where its setups are given, and then
/// when some of them are changed at random, so many times, each time from the best plan so far, and planned by the program
/// where they are given. The changes are the same each time that `seed` is the same. None too where the model has more than
/// `MAX_GRID_CELLS` items times periods. It ends early when it is time.
///
/// The error is that memory ran out. Each change takes the time of a few programs.
pub fn walked(
    alloc: Global,
    instance: &Instance,
    planned: &Planned,
    seed: u64,
    tries: u32,
    until: Deadline,
) -> Result<Option<Planned>, AllocError>
    requires planned { IsMade instance.now planned.now }
    ensures plan { IfFound result (IsMade instance.now) }
    ensures cheaper { IfFound result (λ found. found.cost < planned.now.cost) }
    ensures few { IfFound result (λ _. IsFew instance.now) }
{
    if instance.items() == 0 || instance.periods() == 0 || !is_few(instance) {
        return Ok(None);
    }
    let base = Base::of(alloc, instance, until)?;
    walked_on(alloc, instance, &base, planned, seed, tries)
}
