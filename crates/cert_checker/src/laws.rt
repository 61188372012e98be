// Laws about checks, each the contract of a function that does nothing.
ghost use Rattle.cert_checker.specs.Laws.{CertifiedIsNotRefused, ChecksAreOne, GoodIsNotFaulty, LinesAreBytes};

use bill::totals_exist;
use cert_meaning::{cut_rows_are_one, cut_rows_go_on, says_are_one};
use plan_rules::judgement_is_one;
use reduced_leaf::reduced_sums_are_one;

/// The text of a certificate has no more lines than bytes. So one that was read has few enough for `check`.
pub fn lines_are_bytes()
    ensures { LinesAreBytes }
{}

/// A certificate has one refusal: two of them name the same line and the same cause, places and numbers included. So
/// what `check` answers of a refused certificate is one thing, but where memory ran out.
pub fn checks_are_one()
    ensures { ChecksAreOne }
{
    judgement_is_one();
    cut_rows_go_on();
    cut_rows_are_one();
    says_are_one();
    reduced_sums_are_one();
}

/// A certificate that is accepted, and whose sums stay below 2^127, has no refusal.
pub fn certified_is_not_refused()
    ensures { CertifiedIsNotRefused }
{
    judgement_is_one();
    cut_rows_go_on();
    cut_rows_are_one();
    says_are_one();
    reduced_sums_are_one();
}

/// In a problem in which no item is its own component no certificate is both: what `check` promises where it accepts one and what
/// it promises where it refuses one exclude each other, since there are largest totals and weights of which both are said.
pub fn good_is_not_faulty()
    ensures { GoodIsNotFaulty }
{
    totals_exist();
    certified_is_not_refused();
}
