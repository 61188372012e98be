// Which (l,S) row a point violates most.
ghost use Rattle.std.specs.Prelude.{◌≡◌, ◌≤◌, ◌∷◌, ◌++◌, [], pos, length, IfErr, IfOk, MatchOption, MatchResult};
ghost use Rattle.std.specs.Option.{SomeIff};
ghost use Rattle.rational.specs.Rational.{whole, ◌+ℚ◌};
ghost use Rattle.echelon.specs.Views.{IsEchelonWithinBounds, asked_of_echelon, marked};
ghost use Rattle.echelon.specs.declared.net.TheConstants.{MAX_ASKED};
ghost use Rattle.lin_rows.specs.Points.{read_at};
ghost use Rattle.valid_inequalities.specs.Inequalities.{demand_between};
ghost use Rattle.echelon_rows.specs.Rows.{echelon_in};
ghost use Rattle.ls_cuts.specs.Points.{AreMet, IsMostViolated, left_side, owed_part};
ghost use Rattle.ls_cuts.specs.Steps.{AreLesser, IsFound, IsNoneFound, SomePasses, StartFits};
ghost use Rattle.ls_cuts.specs.declared.fault.SepFault.TheVariants.{Passed128};

use crate::backlogs::owed;
use crate::choices::{choose, is_less, whole};
use crate::demand::demand_to;
use crate::fault::SepFault;
use crate::laws::lesser_separates;
use echelon::EchelonItem;
use frac128::Frac;
use lin_rows::Point;
use std::alloc::{AllocError, Global};

// The opening stock and what is owed in the end, where their steps fit.
fn start(echelon: &EchelonItem, point: &Point, l: u32) -> Option<Frac>
    requires within { IsEchelonWithinBounds echelon.now }
    ensures { SomeIff result (StartFits (echelon_in echelon.now) (read_at point.now) l)
        (whole (pos echelon.now.opening) +ℚ owed_part (echelon_in echelon.now) (read_at point.now)
        l) }
{
    match owed(echelon, point, l) {
        Some(last) => whole(echelon.opening).add(last),
        None => None,
    }
}

// The periods whose setups add less than they make, and what the left side of their row comes to.
#[derive(Debug, Drop)]
struct Evaluation {
    // Whether each period is chosen.
    chosen: Vec<bool>,
    // The opening stock, what is owed in the end, and the lesser parts.
    left: Frac,
}

// Puts the mark of one more period.
fn push_mark(marks: &mut Vec<bool>, mark: bool) -> Result<(), AllocError>
    ensures { IfOk result (λ _. marks.new.items ≡ marks.old.items ++ (mark ∷ [])) }
{
    marks.push(mark)?;
    Ok(())
}

// The evaluation of an l up to which so much is asked for, where each step fits.
fn evaluate(
    alloc: Global,
    echelon: &EchelonItem,
    point: &Point,
    l: u32,
    asked: u128,
) -> Result<Evaluation, SepFault>
    requires within { IsEchelonWithinBounds echelon.now }
    requires high { l ≤ length echelon.now.demand.items }
    requires asked { asked ≡ demand_between (asked_of_echelon echelon.now) 1 l }
    requires small { asked ≤ MAX_ASKED }
    ensures lesser { IfOk result (λ found.
        AreLesser (echelon_in echelon.now) (read_at point.now) l found.chosen.items) }
    ensures left { IfOk result (λ found. found.left
        ≡ left_side (echelon_in echelon.now) (read_at point.now) l (marked found.chosen.items)) }
    ensures passed { IfErr result (λ fault. fault ≡ Passed128
        → SomePasses (echelon_in echelon.now) (read_at point.now) l) }
{
    let mut chosen = Vec::with_capacity(alloc, l as usize)?;
    let mut left = match start(echelon, point, l) {
        Some(first) => first,
        None => return Err(SepFault::Passed128),
    };
    let mut rest = asked;
    for period in 1..l + 1 {
        let choice = match choose(echelon, point, rest, period) {
            Some(choice) => choice,
            None => return Err(SepFault::Passed128),
        };
        match left.add(choice.part) {
            Some(next) => left = next,
            None => return Err(SepFault::Passed128),
        }
        push_mark(&mut chosen, choice.chosen)?;
        rest -= echelon.demand[period as usize - 1];
    }
    Ok(Evaluation { chosen, left })
}

// What the evaluation of an l gives.
fn find(
    alloc: Global,
    echelon: &EchelonItem,
    point: &Point,
    l: u32,
) -> Result<Option<Vec<bool>>, SepFault>
    requires within { IsEchelonWithinBounds echelon.now }
    requires high { l ≤ length echelon.now.demand.items }
    ensures answer { IfOk result (λ found.
        MatchOption found (IsNoneFound (echelon_in echelon.now) (read_at point.now) l)
        (λ marks. IsFound (echelon_in echelon.now) (read_at point.now) l marks.items)) }
    ensures passed { IfErr result (λ fault. fault ≡ Passed128
        → SomePasses (echelon_in echelon.now) (read_at point.now) l) }
{
    let asked = demand_to(echelon, l);
    let found = evaluate(alloc, echelon, point, l, asked)?;
    if is_less(found.left, whole(asked)) {
        Ok(Some(found.chosen))
    } else {
        Ok(None)
    }
}

/// The set `S`, by a mark for each period up to `l`, whose (l,S) row a point violates most, and None where the
/// point violates no (l,S) row of this echelon and `l` (Barany, Van Roy and Wolsey, 1984).
///
/// With the names of `ls_row`, each period adds the lesser of what it makes and of D(t,l) times its setup with
/// R\[t-1\], and is in `S` exactly where the second is less. So no set has a lesser left side, whatever the sign of
/// the point's values; a set is found exactly where this side, with O and R\[l\], is below D(1,l).
///
/// It is evaluated in fractions of 128 bits: R\[t\] is added up from 0 by items whose backlog is a column and whose
/// weight isn't 0, and the left side from O + R\[l\] by periods. `Passed128` comes exactly where one of these steps
/// doesn't fit; the other error is that memory ran out. It takes time in `l` times the number of items, and the
/// memory of the marks.
pub fn separate(
    alloc: Global,
    echelon: &EchelonItem,
    point: &Point,
    l: u32,
) -> Result<Option<Vec<bool>>, SepFault>
    requires within { IsEchelonWithinBounds echelon.now }
    requires low { 1 ≤ l }
    requires high { l ≤ length echelon.now.demand.items }
    ensures answer { IfOk result (λ found.
        MatchOption found (IsNoneFound (echelon_in echelon.now) (read_at point.now) l)
        (λ marks. IsFound (echelon_in echelon.now) (read_at point.now) l marks.items)) }
    ensures exact { IfOk result (λ found.
        MatchOption found (AreMet (echelon_in echelon.now) (read_at point.now) l)
        (λ marks. IsMostViolated (echelon_in echelon.now) (read_at point.now) l
        (marked marks.items))) }
    ensures passed { MatchResult result
        (λ _. SomePasses (echelon_in echelon.now) (read_at point.now) l → ⊥)
        (λ fault. fault ≡ Passed128 → SomePasses (echelon_in echelon.now) (read_at point.now) l) }
{
    lesser_separates();
    find(alloc, echelon, point, l)
}
