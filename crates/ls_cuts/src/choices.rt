// The lesser part of a period.
ghost use Rattle.std.specs.Prelude.{◌≡◌, ◌↔◌, ◌≤◌, pos, length, if◌then◌else◌, IsTrue, MatchOption};
ghost use Rattle.std.specs.Option.{SomeIff};
ghost use Rattle.rational.specs.Rational.{whole, ◌+ℚ◌, ◌*ℚ◌, ◌≤ℚ◌};
ghost use Rattle.echelon.specs.Views.{IsEchelonWithinBounds};
ghost use Rattle.echelon.specs.declared.net.TheConstants.{MAX_ASKED};
ghost use Rattle.lin_rows.specs.Points.{read_at};
ghost use Rattle.echelon_rows.specs.Rows.{echelon_in};
ghost use Rattle.ls_cuts.specs.Steps.{IsChoice, PeriodFits, ShareFits};

use crate::backlogs::owed;
use echelon::EchelonItem;
use frac128::Frac;
use lin_rows::{Column, Point};
use std::cmp::Ordering;

// A whole number of an echelon's units.
pub(crate) fn whole(number: u128) -> Frac
    requires { number ≤ MAX_ASKED }
    ensures { result ≡ whole (pos number) }
{
    Frac::whole(number as i128).unwrap()
}

// What a setup adds: its demand, with what is owed before, where both steps fit.
fn share(demand: u128, setup: Frac, owed: Frac) -> Option<Frac>
    requires { demand ≤ MAX_ASKED }
    ensures { SomeIff result (ShareFits (whole (pos demand)) setup owed)
        (whole (pos demand) *ℚ setup +ℚ owed) }
{
    match whole(demand).mul(setup) {
        Some(product) => product.add(owed),
        None => None,
    }
}

// Whether a number is less than another.
pub(crate) fn is_less(a: Frac, b: Frac) -> bool
    ensures { IsTrue result ↔ (b ≤ℚ a → ⊥) }
{
    a.compare(b) == Ordering::Less
}

// The lesser part of a period, and whether it is the setup's.
#[derive(Clone, Copy, Debug)]
pub(crate) struct Choice {
    // Whether the period is chosen.
    pub chosen: bool,
    // What it adds.
    pub part: Frac,
}

// The lesser of two parts.
fn lesser(share: Frac, make: Frac) -> Choice
    ensures chosen { IsTrue result.chosen ↔ (make ≤ℚ share → ⊥) }
    ensures part { result.part ≡ (if result.chosen then share else make) }
{
    if is_less(share, make) {
        Choice {
            chosen: true,
            part: share,
        }
    } else {
        Choice {
            chosen: false,
            part: make,
        }
    }
}

// The choice of a period from which on so much is asked for, where its steps fit.
pub(crate) fn choose(
    echelon: &EchelonItem,
    point: &Point,
    demand: u128,
    period: u32,
) -> Option<Choice>
    requires within { IsEchelonWithinBounds echelon.now }
    requires low { 1 ≤ period }
    requires small { demand ≤ MAX_ASKED }
    ensures { MatchOption result
        (PeriodFits (echelon_in echelon.now) (read_at point.now) demand period → ⊥)
        (λ r. IsChoice (echelon_in echelon.now) (read_at point.now) demand period r.chosen r.part) }
{
    let item = echelon.item;
    let make = point.value(Column::X { item, period });
    let setup = point.value(Column::Y { item, period });
    match owed(echelon, point, period - 1) {
        Some(before) => match share(demand, setup, before) {
            Some(found) => Some(lesser(found, make)),
            None => None,
        },
        None => None,
    }
}
