// `demo`: plans two generated models in memory, and prints what `plan` prints of each.
ghost use Rattle.std.specs.Prelude.{◌≡◌, ◌≤◌, Ok, IfOk};
ghost use Rattle.lot_sizing.specs.Problem.{Problem};
ghost use Rattle.instance_reader.specs.Model.{BytesMean};
ghost use Rattle.own_plan.specs.OwnPeriod.{HasOwnPeriod};
ghost use Rattle.report.specs.Generated.{IsModelSize, generated};
ghost use Rattle.lotplan.specs.Planning.{plan_meant};
ghost use Rattle.lotplan.specs.Showing.{DemoSays, IsShown};

use crate::commands::plan::{PlanAnswer, answer_of, found_of};
use crate::said::Said;
use crate::sought::only;
use crate::status::Status;
use instance_reader::{ReadModelFault, read_instance};
use lot_model::{Instance, an_instance_breaks_no_rule};
use report::{GenFault, generate};
use search_plugins::{Heuristic, Proposer, Watch};
use std::alloc::{AllocError, Global};

/// How many items the uncoupled model has.
pub const FREE_ITEMS: u32 = 12;

/// How many periods it has.
pub const FREE_PERIODS: u32 = 60;

/// The most nodes that the tree of the certificate of the uncoupled model may have.
pub const FREE_BUDGET: u64 = 1_000;

/// How many items the coupled model has.
pub const COUPLED_ITEMS: u32 = 3;

/// How many periods it has.
pub const COUPLED_PERIODS: u32 = 4;

/// The most nodes that the tree of the certificate of the coupled model may have.
pub const COUPLED_BUDGET: u64 = 40;

// The instance that a text means.
fn meant_instance(alloc: Global, text: &[u8]) -> Result<Instance, AllocError>
    requires { (problem : Problem) × BytesMean text.now (Ok problem) }
    ensures { IfOk result (λ instance. BytesMean text.now (Ok instance)) }
{
    match read_instance(alloc, text) {
        Ok(instance) => Ok(instance),
        Err(ReadModelFault::Memory) => Err(AllocError),
        Err(ReadModelFault::Refused(_)) => unreachable!(),
    }
}

// The model of a seed, of so many items and periods.
fn generated_instance(
    alloc: Global,
    seed: u64,
    items: u32,
    periods: u32,
    coupled: bool,
) -> Result<Instance, AllocError>
    requires { IsModelSize items periods }
    ensures same { IfOk result (λ instance. instance ≡ generated seed items periods coupled) }
    ensures own { IfOk result HasOwnPeriod }
{
    match generate(alloc, seed, items, periods, coupled) {
        Ok(text) => meant_instance(alloc, text.as_slice()),
        Err(GenFault::Memory) => Err(AllocError),
        Err(GenFault::Range) => unreachable!(),
    }
}

// What `plan` answers of an instance that has a feasible own-period plan, once it is written.
fn plan_shown<P: Proposer, H: Heuristic<P::Hint>, W: Watch>(
    alloc: Global,
    proposer: &P,
    heuristic: &H,
    watch: &mut W,
    instance: &Instance,
    budget: u64,
) -> Result<PlanAnswer<'static>, AllocError>
    requires budget { 1 ≤ budget }
    requires own { HasOwnPeriod instance.now }
    ensures { IfOk result (λ answer. IsShown instance.now budget (plan_meant answer)) }
{
    an_instance_breaks_no_rule(instance);
    let found = found_of(
        alloc,
        proposer,
        heuristic,
        watch,
        instance,
        only(budget),
        None,
    )?;
    Ok(answer_of(instance, &found))
}

// What `plan` answers of the model of a seed, of so many items and periods.
fn plan_generated<P: Proposer, H: Heuristic<P::Hint>, W: Watch>(
    alloc: Global,
    proposer: &P,
    heuristic: &H,
    watch: &mut W,
    seed: u64,
    items: u32,
    periods: u32,
    coupled: bool,
    budget: u64,
) -> Result<PlanAnswer<'static>, AllocError>
    requires size { IsModelSize items periods }
    requires budget { 1 ≤ budget }
    ensures { IfOk result (λ answer. IsShown (generated seed items periods coupled) budget
        (plan_meant answer)) }
{
    let instance = generated_instance(alloc, seed, items, periods, coupled)?;
    plan_shown(alloc, proposer, heuristic, watch, &instance, budget)
}

/// Plans two models of a seed: one of `FREE_ITEMS` items and `FREE_PERIODS` periods that isn't coupled, and then a coupled
/// one of `COUPLED_ITEMS` items and `COUPLED_PERIODS` periods. No file is read or written. Gives the lines that `plan`
/// prints of each, after a line that names it.
pub fn show_plans<P: Proposer, H: Heuristic<P::Hint>, W: Watch>(
    alloc: Global,
    proposer: &P,
    heuristic: &H,
    watch: &mut W,
    seed: u64,
) -> Result<Said, AllocError>
    ensures { IfOk result (DemoSays seed) }
{
    let free = plan_generated(
        alloc,
        proposer,
        heuristic,
        watch,
        seed,
        FREE_ITEMS,
        FREE_PERIODS,
        false,
        FREE_BUDGET,
    )?;
    let coupled = plan_generated(
        alloc,
        proposer,
        heuristic,
        watch,
        seed,
        COUPLED_ITEMS,
        COUPLED_PERIODS,
        true,
        COUPLED_BUDGET,
    )?;
    let (first, second) = (free.line(alloc)?, coupled.line(alloc)?);
    let text = format!(in alloc; "free\n{first}coupled\n{second}")?;
    Ok(Said::of(text, Status::Done))
}
