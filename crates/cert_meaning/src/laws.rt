// Laws about accepted certificates, each the contract of a function that does nothing.
ghost use Rattle.std.specs.Prelude.{◌≡◌, Some};
ghost use Rattle.lot_sizing.specs.Best.{IsBest};
ghost use Rattle.lot_sizing.specs.Plan.{cost};
ghost use Rattle.cert_meaning.specs.Worked.{IsAcceptedHere, IsKnownModel, by_branches, by_cuts, by_reduced_costs, model, plan};
ghost use Rattle.cert_meaning.specs.Laws.{AcceptedByBoth, AcceptedIsTrue, AcceptedOverRanges, CutRowsAreOne, CutRowsByPlaces, CutRowsGoOn, CutsHold, EchelonRowsAreOne, FitsByBoth, LeavesBound, PlainIsLinear, SaysAreOne, SmallCutsGoOn, WholeByBoth};

use cert_trees::{plans_are_within, ranges_are_left};
use echelon_rows::{cost_rows_hold, priced_is_net};
use late_starts::charges_cover;
use lin_rows::{sums_bound, sums_hold, sums_refute};
use lot_sizing::{echelons_balance, totals_are_bounded, totals_are_one, weights_are_one};
use reduced_leaf::{known_exists, reduced_by_both, reduced_sum_bounds, reduced_sums_are_one};
use valid_inequalities::{block_holds, ls_holds, price_holds};

/// The claim of an accepted certificate is true of all plans: the plan that goes with it is best and costs
/// what is claimed, no plan is feasible, or every feasible plan costs at least what is claimed.
pub fn accepted_is_true()
    ensures { AcceptedIsTrue }
{
    accepted_over_ranges();
    plans_are_within();
}

/// The claim of a certificate that is accepted over ranges of quantities and setups is true of all plans within them.
pub fn accepted_over_ranges()
    ensures { AcceptedOverRanges }
{
    cuts_hold();
    leaves_bound();
}

/// What a leaf says is so of each feasible plan within the ranges that meets the path to the leaf, where the rows
/// of the cuts hold: there is none, or it costs at least as much.
pub fn leaves_bound()
    ensures { LeavesBound }
{
    totals_are_bounded();
    sums_bound();
    sums_refute();
    ranges_are_left();
    reduced_sum_bounds();
}

/// The rows of cuts hold at every feasible plan, and the problem has their columns.
pub fn cuts_hold()
    ensures { CutsHold }
{
    totals_are_bounded();
    echelons_balance();
    ls_holds();
    price_holds();
    block_holds();
    priced_is_net();
    cost_rows_hold();
    sums_hold();
}

/// A leaf says one thing.
pub fn says_are_one()
    ensures { SaysAreOne }
{
    reduced_sums_are_one();
}

/// Without groups a leaf over reduced costs says what linear duality says of its parts, and with a denominator of 0
/// what Farkas' lemma says of them.
pub fn plain_is_linear()
    ensures { PlainIsLinear }
{
    known_exists();
    charges_cover();
}

/// Cuts have one list of rows, in a problem within the limits.
pub fn cut_rows_are_one()
    ensures { CutRowsAreOne }
{}

/// Cuts have as many rows, the row of each is made of those of the earlier ones, and the first rows are those of the
/// first cuts (`places`). With one cut more they have its row more (`more`), and their sums stay small where its
/// sums are (`small`).
pub fn cut_rows_go_on()
    ensures places { CutRowsByPlaces }
    ensures more { CutRowsGoOn }
    ensures small { SmallCutsGoOn }
{}

/// What a program makes of an echelon that it has is what acceptance means by the problem's weights: the (l,S)
/// row, the price row, the block row, and the item by itself with the prices of a cut.
pub fn echelon_rows_are_one()
    ensures { EchelonRowsAreOne }
{}

/// A problem in which no item is its own component has one list of largest totals and one of weights. So it
/// doesn't matter for acceptance which are taken, nor which ranges that agree at quantities and setups
/// (`accepted`); nor for fitting (`fits`). The whole ranges agree (`ranges`).
pub fn acceptance_is_one()
    ensures accepted { AcceptedByBoth }
    ensures fits { FitsByBoth }
    ensures ranges { WholeByBoth }
{
    totals_are_one();
    weights_are_one();
    reduced_by_both();
}

/// A worked example: a certificate by branches is accepted with its plan and fits (`branches`), so does one by cuts of
/// all four kinds (`cuts`), and one of a single leaf over reduced costs (`reduced`), in a problem within the limits
/// whose largest totals and weights are known (`known`). So the plan is best (`best`), and it costs 23 (`costs`).
pub fn worked_are_accepted()
    ensures known { IsKnownModel }
    ensures branches { IsAcceptedHere by_branches }
    ensures cuts { IsAcceptedHere by_cuts }
    ensures reduced { IsAcceptedHere by_reduced_costs }
    ensures best { IsBest model plan }
    ensures costs { cost model plan ≡ 23 }
{
    accepted_is_true();
    reduced_sums_are_one();
}
