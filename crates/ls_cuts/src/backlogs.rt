// What an echelon owes at fractions of the columns.
ghost use Rattle.std.specs.Prelude.{◌≡◌, ◌≤◌, length};
ghost use Rattle.std.specs.Option.{SomeIff};
ghost use Rattle.rational.specs.Rational.{◌+ℚ◌, ◌*ℚ◌};
ghost use Rattle.echelon.specs.Views.{IsEchelonWithinBounds};
ghost use Rattle.lin_rows.specs.Points.{read_at};
ghost use Rattle.echelon_rows.specs.Rows.{echelon_in, owed_times};
ghost use Rattle.ls_cuts.specs.Points.{owed_part, owed_term};
ghost use Rattle.ls_cuts.specs.Steps.{AddFits, ItemFits, OwedFits};

use echelon::EchelonItem;
use frac128::Frac;
use lin_rows::{Column, Point};

// A sum with a multiple, where both steps fit.
fn add_times(sum: Frac, times: Frac, value: Frac) -> Option<Frac>
    ensures { SomeIff result (AddFits sum times value) (sum +ℚ times *ℚ value) }
{
    match times.mul(value) {
        Some(product) => sum.add(product),
        None => None,
    }
}

// How much of the echelon's backlog the backlog of an item is.
fn owed_times(echelon: &EchelonItem, item: u32, period: u32) -> u64
    requires within { IsEchelonWithinBounds echelon.now }
    requires low { 1 ≤ item }
    requires high { item ≤ length echelon.now.weights.items }
    ensures { result ≡ owed_times (echelon_in echelon.now) item period }
{
    let place = item as usize - 1;
    if period >= 1 && (period as usize) < echelon.demand.len() && echelon.backs[place] {
        echelon.weights[place]
    } else {
        0
    }
}

// What an item owes is added, where its steps fit.
fn add_owed(echelon: &EchelonItem, point: &Point, item: u32, period: u32, sum: Frac) -> Option<Frac>
    requires within { IsEchelonWithinBounds echelon.now }
    requires low { 1 ≤ item }
    requires high { item ≤ length echelon.now.weights.items }
    ensures { SomeIff result (ItemFits (echelon_in echelon.now) (read_at point.now) item period sum)
        (sum +ℚ owed_term (echelon_in echelon.now) (read_at point.now) item period) }
{
    let times = owed_times(echelon, item, period);
    if times == 0 {
        return Some(sum);
    }
    let value = point.value(Column::R { item, period });
    add_times(sum, Frac::from(times), value)
}

// What the echelon owes at the end of a period, item by item, where each step fits. An echelon that may not be owed
// has no steps.
pub(crate) fn owed(echelon: &EchelonItem, point: &Point, period: u32) -> Option<Frac>
    requires within { IsEchelonWithinBounds echelon.now }
    ensures { SomeIff result (OwedFits (echelon_in echelon.now) (read_at point.now) period)
        (owed_part (echelon_in echelon.now) (read_at point.now) period) }
{
    if !echelon.backlogged {
        return Some(Frac::from(0u64));
    }
    let mut sum = Frac::from(0u64);
    for item in 1..echelon.weights.len() as u32 + 1 {
        match add_owed(echelon, point, item, period, sum) {
            Some(next) => sum = next,
            None => return None,
        }
    }
    Some(sum)
}
