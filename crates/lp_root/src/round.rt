// One round of the root.
ghost use Rattle.std.specs.Prelude.{◌≡◌, ◌≤◌, ◌+◌, ◌-◌, ◌++◌, ◌∷◌, [], false, List, IfOk, IfSome, IsNone, length, take};
ghost use Rattle.std.specs.List.{All};
ghost use Rattle.lin_rows.specs.declared.base.RowName.TheVariants.{Cut};
ghost use Rattle.lin_rows.specs.Columns.{IsColumn, column_count};
ghost use Rattle.tableau.specs.Program.{IsProgram, column_count as width_of, row_count, with_row};
ghost use Rattle.lp_relaxation.specs.declared.limits.TheConstants.{MAX_PIVOTS, MAX_ROUND_CUTS, MAX_ROUND_SIZE};
ghost use Rattle.lp_relaxation.specs.Laws.{HasSmallNumbers};
ghost use Rattle.lp_relaxation.specs.Sides.{side, turned_row};
ghost use Rattle.rational.specs.Rational.{ℚ};
ghost use Rattle.echelon.specs.Weights.{IsExplosionOf};
ghost use Rattle.cert_lines.specs.Shapes.{CutShape};
ghost use Rattle.tableau.specs.declared.outcome.Outcome.TheVariants.{Empty, Least};
ghost use Rattle.tableau.specs.Outcomes.{IsCertain, IsOutcome};
ghost use Rattle.lp_root.specs.declared.at_root.TheConstants.{MAX_ROUNDS};
ghost use Rattle.search_result.specs.declared.found.PassedAt.TheVariants.{Cell, Separation};
ghost use Rattle.search_result.specs.declared.found.RootSays.TheVariants.{Passed};
ghost use Rattle.lp_root.specs.RootSteps.{AreRootCuts, AreRounds, EndsRounds, GrowsRound, IsReady, shapes};

use crate::round_leaf::{Verdict, farkas_leaf, linear_leaf, without_leaf};
use crate::separation::{LastPeriod, RootCuts, separate_all};
use echelon::Explosion;
use frac128::Frac;
use lin_rows::{Point, Row, RowName};
use lot_model::{Instance, an_instance_breaks_no_rule};
use lp_relaxation::{
    MAX_PIVOTS, RoundProgram, push_row, rounds_are_few, rounds_close, rounds_grow, rounds_refute,
};
use ls_cuts::lesser_separates;
use search_result::{PassedAt, RootSays};
use std::alloc::{AllocError, Global};
use tableau::Outcome;

// The cuts so far with their rows, and the program that has them.
#[derive(Debug, Drop)]
pub(crate) struct Rounds {
    pub(crate) program: RoundProgram,
    pub(crate) list: RootCuts,
}

// Puts the row of a cut, whose number is one more than that of the last, into the program, as that of
// the next round.
fn push_cut(
    alloc: Global,
    instance: &Instance,
    number: u32,
    cut: &Row,
    round: &mut RoundProgram,
) -> Result<(), AllocError>
    requires columns { All (λ a. IsColumn instance.now a.column) cut.now.terms }
    requires small { HasSmallNumbers cut.now }
    requires unequal { cut.now.equal ≡ false }
    requires program { IsProgram round.old.lp }
    requires width { width_of round.old.lp ≡ column_count instance.now }
    requires few { width_of round.old.lp + row_count round.old.lp ≤ MAX_ROUND_SIZE }
    ensures lp { IfOk result (λ _. round.new.lp
        ≡ with_row round.old.lp (turned_row instance.now false cut.now)) }
    ensures sides { IfOk result (λ _. round.new.sides.items
        ≡ round.old.sides.items ++ (side (Cut number) false ∷ [])) }
    ensures fits { IfOk result (λ _. IsProgram round.new.lp) }
    ensures round { IfOk result (λ _. GrowsRound instance.now number cut.now round.old round.new) }
{
    rounds_grow();
    push_row(alloc, instance, RowName::Cut(number), cut, round)?;
    Ok(())
}

// Puts the rows of the cuts from a place on into the program.
fn push_rows(
    alloc: Global,
    instance: &Instance,
    rows: &[Row],
    from: usize,
    program: &mut RoundProgram,
) -> Result<(), AllocError>
    requires rows { (cuts : List CutShape) × AreRootCuts instance.now cuts rows.now }
    requires few { length rows.now ≤ MAX_ROUND_CUTS }
    requires from { from ≤ length rows.now }
    requires ready { IsReady instance.now (take from rows.now) program.old }
    ensures ready { IfOk result (λ _. IsReady instance.now rows.now program.new) }
{
    rounds_are_few();
    an_instance_breaks_no_rule(instance);
    for index in from..rows.len() {
        push_cut(alloc, instance, index as u32 + 1, &rows[index], program)?;
    }
    Ok(())
}

// What is said where a step of the separation doesn't fit.
fn separation_passed(round: u32, end: LastPeriod) -> Verdict
    ensures says { result.says ≡ Passed round (Separation end.item end.l) }
    ensures leaf { IsNone result.leaf }
{
    let LastPeriod { item, l } = end;
    let at = PassedAt::Separation { item, l };
    without_leaf(RootSays::Passed { round, at })
}

// The least point of a program, and the multipliers of its rows that show it.
#[derive(Debug, Drop)]
struct LeastPoint {
    point: Vec<Frac>,
    multipliers: Vec<Frac>,
}

// A round that ends at a least point: the cuts that it finds are put, and their rows into the program;
// or what is said.
fn least_round(
    alloc: Global,
    instance: &Instance,
    explosion: &Explosion,
    round: u32,
    least: LeastPoint,
    state: &mut Rounds,
) -> Result<Option<Verdict>, AllocError>
    requires explosion { IsExplosionOf instance.now explosion.now }
    requires low { 1 ≤ round }
    requires high { round ≤ MAX_ROUNDS }
    requires rounds { AreRounds instance.now (round - 1) state.old }
    requires least { (value : ℚ) × IsOutcome state.old.program.lp MAX_PIVOTS
        (Least least.point least.multipliers value)
        × IsCertain state.old.program.lp (Least least.point least.multipliers value) }
    ensures goes { IfOk result (λ end. IsNone end → AreRounds instance.now round state.new) }
    ensures ends { IfOk result (λ end.
        IfSome end (λ verdict.
        EndsRounds instance.now verdict (shapes state.new.list) state.new.list.rows.items)) }
{
    lesser_separates();
    rounds_close();
    let LeastPoint { point, multipliers } = least;
    let before = state.list.rows.len();
    let point = Point::new(instance, point);
    if let Some(end) = separate_all(alloc, instance, explosion, &point, &mut state.list)? {
        return Ok(Some(separation_passed(round, end)));
    }
    if state.list.rows.len() > before {
        push_rows(
            alloc,
            instance,
            &state.list.rows,
            before,
            &mut state.program,
        )?;
        return Ok(None);
    }
    let (rows, sides) = (&state.list.rows, &state.program.sides);
    let verdict = linear_leaf(alloc, instance, rows, sides, &multipliers, round)?;
    Ok(Some(verdict))
}

// What is said where a cell of the tableau doesn't fit.
fn cell_passed(round: u32, pivot: u32, row: u32, column: u32) -> Verdict
    ensures says { result.says ≡ Passed round (Cell pivot row column) }
    ensures leaf { IsNone result.leaf }
{
    let at = PassedAt::Cell { pivot, row, column };
    without_leaf(RootSays::Passed { round, at })
}

// A round in which no point meets the rows.
fn empty_round(
    alloc: Global,
    instance: &Instance,
    explosion: &Explosion,
    round: u32,
    multipliers: Vec<Frac>,
    state: &Rounds,
) -> Result<Verdict, AllocError>
    requires explosion { IsExplosionOf instance.now explosion.now }
    requires low { 1 ≤ round }
    requires high { round ≤ MAX_ROUNDS }
    requires rounds { AreRounds instance.now (round - 1) state.now }
    requires outcome { IsOutcome state.now.program.lp MAX_PIVOTS (Empty multipliers) }
    requires certain { IsCertain state.now.program.lp (Empty multipliers) }
    ensures { IfOk result (λ verdict.
        EndsRounds instance.now verdict (shapes state.now.list) state.now.list.rows.items) }
{
    rounds_refute();
    let (rows, sides) = (&state.list.rows, &state.program.sides);
    farkas_leaf(alloc, instance, rows, sides, &multipliers, round)
}

// A round: the cuts that it finds are put, and their rows into the program; or what is said.
pub(crate) fn make_round(
    alloc: Global,
    instance: &Instance,
    explosion: &Explosion,
    round: u32,
    state: &mut Rounds,
) -> Result<Option<Verdict>, AllocError>
    requires explosion { IsExplosionOf instance.now explosion.now }
    requires low { 1 ≤ round }
    requires high { round ≤ MAX_ROUNDS }
    requires rounds { AreRounds instance.now (round - 1) state.old }
    ensures goes { IfOk result (λ end. IsNone end → AreRounds instance.now round state.new) }
    ensures ends { IfOk result (λ end.
        IfSome end (λ verdict.
        EndsRounds instance.now verdict (shapes state.new.list) state.new.list.rows.items)) }
{
    match state.program.lp.solve(alloc, MAX_PIVOTS)? {
        Outcome::Least {
            point,
            multipliers,
            value: _,
        } => {
            let least = LeastPoint { point, multipliers };
            least_round(alloc, instance, explosion, round, least, state)
        }
        Outcome::Empty { multipliers } => {
            let verdict = empty_round(alloc, instance, explosion, round, multipliers, state)?;
            Ok(Some(verdict))
        }
        Outcome::Stopped { pivots: _ } => Ok(Some(without_leaf(RootSays::Stopped { round }))),
        Outcome::Passed { pivot, row, column } => Ok(Some(cell_passed(round, pivot, row, column))),
    }
}
