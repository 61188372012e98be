// What is said at the root of a search, before any branch.
ghost use Rattle.std.specs.Prelude.{◌≡◌, ◌↔◌, ℕ, [], IfOk, IsNone};
ghost use Rattle.lot_sizing.specs.Problem.{IsUncoupled};
ghost use Rattle.search_result.specs.declared.found.RootSays.TheVariants.{Skipped, Uncoupled};
ghost use Rattle.lp_root.specs.RootSteps.{IsReady};
ghost use Rattle.lp_root.specs.Root.{AreWritable, BoundsPlans, HasFigures, IsTooLarge, IsTried, RootMeans, root_cuts};

use crate::round::{Rounds, make_round};
use crate::round_leaf::{Root, Verdict, without_leaf};
use crate::separation::RootCuts;
use bill::totals_exist;
use echelon::Explosion;
use lot_model::{Instance, an_instance_breaks_no_rule, is_uncoupled};
use lp_relaxation::{
    MAX_CELLS, RoundProgram, base_program, closed_values_are_floors, empty_is_impossible,
};
use search_result::RootSays;
use std::alloc::{AllocError, Global};

/// The most rounds.
pub const MAX_ROUNDS: u32 = 30;

// What is said without a round.
fn without_cuts(alloc: Global, says: RootSays) -> Root
    ensures says { result.says ≡ says }
    ensures cuts { result.cuts.items ≡ [] }
    ensures leaf { IsNone result.leaf }
{
    Root {
        says,
        cuts: Vec::new(alloc),
        leaf: None,
    }
}

// What is said in the end, over the cuts of the rounds.
fn root_of(verdict: Verdict, list: RootCuts) -> Root
    ensures says { result.says ≡ verdict.says }
    ensures cuts { result.cuts ≡ list.cuts }
    ensures leaf { result.leaf ≡ verdict.leaf }
{
    Root {
        says: verdict.says,
        cuts: list.cuts,
        leaf: verdict.leaf,
    }
}

// The rounds from the program of all base rows on.
fn make_rounds(
    alloc: Global,
    instance: &Instance,
    program: RoundProgram,
) -> Result<Root, AllocError>
    requires tried { IsTried instance.now }
    requires ready { IsReady instance.now [] program }
    ensures means { IfOk result (RootMeans instance.now) }
    ensures writable { IfOk result (λ found.
        AreWritable instance.now (root_cuts found) found.leaf) }
{
    let explosion = Explosion::of(alloc, instance)?;
    let list = RootCuts {
        cuts: Vec::new(alloc),
        rows: Vec::new(alloc),
    };
    let mut state = Rounds { program, list };
    for round in 1..MAX_ROUNDS + 1 {
        if let Some(verdict) = make_round(alloc, instance, &explosion, round, &mut state)? {
            return Ok(root_of(verdict, state.list));
        }
    }
    // The last round has found more.
    let stopped = without_leaf(RootSays::Stopped { round: MAX_ROUNDS });
    Ok(root_of(stopped, state.list))
}

/// What is said at the root of an instance: the value of its relaxation with all (l,S) inequalities
/// (Barany, Van Roy and Wolsey, 1984), where rounds of solving and separating find it.
///
/// The program of a round has all rows that the rules of plans make, in the order of
/// `lp_relaxation::base_names` with an equal row twice, and then the rows of the cuts so far. A round
/// solves it from its slack basis by the least-index rule, with at most `MAX_PIVOTS` pivots. At a
/// least point it separates for each lead-free item and each last period, in order; each set found
/// becomes a cut. At most `MAX_ROUNDS` rounds are made. What it says:
///
/// - `Uncoupled`: exactly where the model is uncoupled.
/// - `Skipped`: exactly where it isn't, and the first round's tableau has more than `MAX_CELLS`
///   cells.
/// - `Closed`: the relaxation closes to this amount of money, so that no plan costs less; the leaf
///   is `Linear` and says the amount over the rows of the cuts, without a path.
/// - `Empty`: the relaxation has no point, so that there is no plan; the leaf is `Farkas` and says
///   so.
/// - `Stopped`: the round's run has more pivots than it may, or it was the last round and found more
///   cuts.
/// - `Passed`: a number of the round doesn't fit 128 bits: a cell of its tableau; a step of the
///   separation of an item and a last period; or a number of its leaf, or a sum of absolute values
///   in it, is 2^127 or more.
///
/// Each cut has its row, which holds at every plan. A leaf is there exactly after `Closed` and
/// `Empty`. Cuts and leaf have lines in a certificate of `MAX_CERT_VERSION` and, where the model is plain, of
/// `FIRST_CERT_VERSION` too: there are at most `MAX_CUTS` cuts and `MAX_PARTS` parts (of `cert_lines`), and each
/// number is below 2^127 in absolute value. The error is that memory ran out.
///
/// It keeps one program, its tableau and the cuts; it makes a tableau anew in each round.
pub fn root(alloc: Global, instance: &Instance) -> Result<Root, AllocError>
    ensures means { IfOk result (RootMeans instance.now) }
    ensures writable { IfOk result (λ found.
        AreWritable instance.now (root_cuts found) found.leaf) }
    ensures uncoupled { IfOk result (λ found. found.says ≡ Uncoupled ↔ IsUncoupled instance.now) }
    ensures skipped { IfOk result (λ found. (cells : ℕ)
        → found.says ≡ Skipped cells ↔ IsTooLarge instance.now cells) }
    ensures bounds { IfOk result (λ found. BoundsPlans instance.now found.says) }
    ensures figures { HasFigures instance.now }
{
    totals_exist();
    closed_values_are_floors();
    empty_is_impossible();
    an_instance_breaks_no_rule(instance);
    if is_uncoupled(instance) {
        return Ok(without_cuts(alloc, RootSays::Uncoupled));
    }
    let program = base_program(alloc, instance)?;
    let cells = program.lp.cells();
    if cells > MAX_CELLS {
        return Ok(without_cuts(alloc, RootSays::Skipped { cells }));
    }
    make_rounds(alloc, instance, program)
}
