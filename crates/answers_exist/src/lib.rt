//! Laws of existence for `bound` and `check`: the base bound of each problem comes to something, each text is a
//! certificate's or has a first fault, and each certificate is accepted or refused.
//!
//! Family: search. It stands on `lp_bounds`, `cert_checker`, `cert_stream`, `existence` and `group_existence`; `lotplan`
//! stands on it.
//!
//! The laws of `existence` speak of models, plans and exact runs, those of `group_existence` of the groups of leaves, and
//! one of `late_starts` of what such groups charge on backlogs. These go on to what is made of them: with all of them all
//! words and files call for a status. The proofs go through all lines within the limits, all columns and all blocks; no
//! program does that.
#![tactic(auto)]

ghost use Rattle.answers_exist.specs.Bounding.{BoundsComeOut};
ghost use Rattle.answers_exist.specs.Checking.{CertificatesComeOut, PlansAreHeld, TextsComeOut};

use bill::totals_exist;
use cert_meaning::{cut_rows_go_on, cuts_hold, echelon_rows_are_one};
use cert_stream::taken_are_bodies;
use cert_trees::plans_are_within;
use existence::{plans_are_judged, runs_come_out};
use group_existence::{groups_are_judged, numbers_exist};
use late_starts::charges_cover;
use lot_sizing::{least_stocks_are_best, totals_are_one, weights_are_one};
use lp_bounds::base_bounds_are_floors;
use lp_relaxation::{base_names_are_all, empty_is_said, least_is_said};
use reduced_leaf::{known_exists, reduced_by_both, reduced_sums_are_one};

/// A problem in which no item is its own component has a program of its base rows. Its tableau has too many cells;
/// or there is a base bound, no point meets the base rows, or the exact run comes to a number that doesn't fit 128 bits.
pub fn bounds_come_out()
    ensures { BoundsComeOut }
{
    totals_exist();
    totals_are_one();
    base_names_are_all();
    least_is_said();
    empty_is_said();
    runs_come_out();
    base_bounds_are_floors();
}

/// All bytes are the text of a certificate within the limits, or have a first fault that isn't out of memory.
pub fn texts_come_out()
    ensures { TextsComeOut }
{
    taken_are_bodies();
}

/// Each certificate that has a text, with a plan or without one, is accepted with small sums, or has a line and a cause
/// that are the first for which it isn't: the same, whichever largest totals and weights of the problem are taken.
pub fn certificates_come_out()
    ensures { CertificatesComeOut }
{
    totals_exist();
    totals_are_one();
    weights_are_one();
    echelon_rows_are_one();
    cuts_hold();
    cut_rows_go_on();
    least_stocks_are_best();
    plans_are_within();
    plans_are_judged();
    known_exists();
    charges_cover();
    numbers_exist();
    groups_are_judged();
    reduced_sums_are_one();
    reduced_by_both();
}

/// The plan of the records of a plan file is held by four grids.
pub fn plans_are_held()
    ensures { PlansAreHeld }
{}
