// Plans that are improved by changing one wanted setup after the other.
ghost use Rattle.std.specs.Prelude.{◌≡◌, ◌≤◌, IfOk, IfSome, OnOk};
ghost use Rattle.lot_sizing.specs.Problem.{item_count};
ghost use Rattle.plan_rules.specs.Cells.{Fits};
ghost use Rattle.first_plans.specs.Made.{IsMade, IsNoDearer};
ghost use Rattle.first_plans.specs.Trials.{IsImproved, IsImproving, IsTrial};

use crate::trials::{Trial, change, is_worth_trying};
use heur_build::built_plan;
use heur_items::{copy_grid, improve_by_items};
use lot_model::Instance;
use plan_rules::{Grid, Planned};
use std::alloc::{AllocError, Global};
use work_clock::Deadline;

// The most times that all changes are tried.
const SWEEPS: u32 = 20;

/// A plan while it is improved.
#[derive(Drop)]
pub struct Improving {
    /// The setups that are wanted, those of the best plan.
    pub wanted: Grid,
    /// The best plan so far.
    pub best: Planned,
    /// How many plans may still be built.
    pub tries: u32,
    /// When that is to end.
    pub until: Deadline,
}

// Keeps the cheaper one of two plans.
fn keep_cheaper(_instance: &Instance, state: &mut Improving, found: Option<Planned>)
    requires state { IsImproving _instance.now state.old }
    requires found { IfSome found (IsMade _instance.now) }
    ensures { IsImproved _instance.now state.old state.new }
{
    if let Some(planned) = found {
        if planned.cost < state.best.cost {
            state.best = planned;
        }
    }
}

// Builds the plan with a change of the wanted setups, and keeps it if it is cheaper.
fn try_change(
    alloc: Global,
    instance: &Instance,
    state: &mut Improving,
    trial: Trial,
) -> Result<(), AllocError>
    requires trial { IsTrial instance.now trial }
    requires state { IsImproving instance.now state.old }
    ensures { OnOk result (IsImproved instance.now state.old state.new) }
{
    if state.tries == 0 || !is_worth_trying(instance, &state.wanted, trial) {
        return Ok(());
    }
    state.tries -= 1;
    change(instance, &mut state.wanted, trial);
    let found = built_plan(alloc, instance, &state.wanted)?;
    keep_cheaper(instance, state, found);
    copy_grid(instance, &state.best.plan.setup, &mut state.wanted);
    Ok(())
}

// Tries the changes of an item's setup in a period, alone or with its components.
fn try_period(
    alloc: Global,
    instance: &Instance,
    state: &mut Improving,
    item: u32,
    period: u32,
    along: bool,
) -> Result<(), AllocError>
    requires item_low { 1 ≤ item }
    requires item_high { item ≤ item_count instance.now }
    requires low { 1 ≤ period }
    requires high { period ≤ instance.now.periods }
    requires state { IsImproving instance.now state.old }
    ensures { OnOk result (IsImproved instance.now state.old state.new) }
{
    let first = if period > 1 { period - 1 } else { period };
    let last = if period < instance.periods() {
        period + 1
    } else {
        period
    };
    for to in first..last + 1 {
        let trial = Trial {
            item,
            from: period,
            to,
            along,
        };
        try_change(alloc, instance, state, trial)?;
    }
    Ok(())
}

// Tries the changes of an item's setups, if it isn't time to end.
fn try_item(
    alloc: Global,
    instance: &Instance,
    state: &mut Improving,
    item: u32,
) -> Result<(), AllocError>
    requires item_low { 1 ≤ item }
    requires item_high { item ≤ item_count instance.now }
    requires state { IsImproving instance.now state.old }
    ensures { OnOk result (IsImproved instance.now state.old state.new) }
{
    if state.until.is_past() {
        return Ok(());
    }
    for period in 1..instance.periods() + 1 {
        try_period(alloc, instance, state, item, period, false)?;
        try_period(alloc, instance, state, item, period, true)?;
    }
    Ok(())
}

// Tries all changes once.
fn sweep(alloc: Global, instance: &Instance, state: &mut Improving) -> Result<(), AllocError>
    requires state { IsImproving instance.now state.old }
    ensures { OnOk result (IsImproved instance.now state.old state.new) }
{
    for item in 1..instance.items() + 1 {
        try_item(alloc, instance, state, item)?;
    }
    Ok(())
}

// Tries all changes again, as long as that brings something.
fn sweeps(alloc: Global, instance: &Instance, state: &mut Improving) -> Result<(), AllocError>
    requires state { IsImproving instance.now state.old }
    ensures { OnOk result (IsImproved instance.now state.old state.new) }
{
    for _sweep in 0..SWEEPS {
        let before = state.best.cost;
        sweep(alloc, instance, state)?;
        if state.best.cost == before {
            return Ok(());
        }
    }
    Ok(())
}

/// The best plan that is found from this one by making its items' lots anew and by changes of its setups, and how many plans
/// may still be built. It ends early when it is time.
pub fn improved_so(
    alloc: Global,
    instance: &Instance,
    planned: Planned,
    tries: u32,
    until: Deadline,
) -> Result<Improving, AllocError>
    requires made { IsMade instance.now planned }
    ensures state { IfOk result (IsImproving instance.now) }
    ensures cheap { IfOk result (λ found. found.best.cost ≤ planned.cost) }
{
    let mut best = planned;
    improve_by_items(alloc, instance, &mut best)?;
    let mut wanted = Grid::filled(alloc, instance.items(), instance.periods(), 0)?;
    copy_grid(instance, &best.plan.setup, &mut wanted);
    let mut state = Improving {
        wanted,
        best,
        tries,
        until,
    };
    sweeps(alloc, instance, &mut state)?;
    Ok(state)
}

/// A feasible plan that costs no more than this one. First the lots of one item after the other are made anew, where others
/// cost less while those of the other items stay. Then setups are put in, left out and moved to the periods beside theirs,
/// one after the other, alone or with those of all components, the plan is built anew, and what is cheaper is kept. It ends
/// when no such change is cheaper, or so many plans have been built.
///
/// It takes memory for six grids, and the time of so many calls of `built_plan`. The error is that memory ran
/// out; the plan is lost then.
pub fn improved(
    alloc: Global,
    instance: &Instance,
    planned: Planned,
    tries: u32,
) -> Result<Planned, AllocError>
    requires made { IsMade instance.now planned }
    ensures { IfOk result (IsNoDearer instance.now planned) }
{
    let Improving { best, .. } = improved_so(alloc, instance, planned, tries, Deadline::none())?;
    Ok(best)
}
