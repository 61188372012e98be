// Whether a certificate is accepted.
ghost use Rattle.std.specs.Prelude.{◌≡◌, ◌+◌, ◌<◌, ◌^◌, length, map, IfErr, IfOk, option_copied};
ghost use Rattle.std.specs.List.{All};
ghost use Rattle.echelon.specs.Weights.{IsExplosionOf};
ghost use Rattle.lin_rows.specs.Combining.{AreOfProblem};
ghost use Rattle.cert_lines.specs.Shapes.{cut_shape};
ghost use Rattle.certificate.specs.Limits.{IsWritable};
ghost use Rattle.certificate.specs.Shapes.{shape_of};
ghost use Rattle.certificate.specs.Values.{all_cut_values};
ghost use Rattle.cert_meaning.specs.Accepts.{IsTrueOf};
ghost use Rattle.cert_meaning.specs.Laws.{HoldAtPlans};
ghost use Rattle.cert_checker.specs.Cuts.{HasDivisor};
ghost use Rattle.cert_checker.specs.Checks.{CutsHaveFault, HasFault, HaveGoodRows, IsGoodCertificate, IsNeverRefused, first_line, line_count, plan_given};

use crate::claims::judge_claim;
use crate::walk::walk;
use crate::{CheckFault, NamedSums, cut_row_in};
use bill::totals_exist;
use cert_meaning::{accepted_is_true, cut_rows_are_one, cut_rows_go_on, says_are_one};
use cert_trees::plans_are_within;
use certificate::{Certificate, Cut, FIRST_CUT_LINE, cut_lines_count};
use echelon::Explosion;
use lin_rows::Row;
use lot_model::{Instance, an_instance_breaks_no_rule};
use plan_rules::{Plan, judgement_is_one};
use reduced_leaf::reduced_sums_are_one;
use std::alloc::Global;

// The rows of cuts, and the line after them.
#[derive(Debug, Drop)]
struct CutRows {
    rows: Vec<Row>,
    next: u64,
}

// The rows of cuts, each made of those of the earlier ones.
fn cut_rows(
    alloc: Global,
    instance: &Instance,
    explosion: &Explosion,
    cuts: &[Cut],
) -> Result<CutRows, CheckFault>
    requires explosion { IsExplosionOf instance.now explosion.now }
    requires divisors { All HasDivisor (map cut_shape cuts.now) }
    requires lines { first_line + length (all_cut_values (map cut_shape cuts.now)) < 2 ^ 64 }
    ensures good { IfOk result (λ made.
        HaveGoodRows instance.now (map cut_shape cuts.now) made.rows.items) }
    ensures hold { IfOk result (λ made. HoldAtPlans instance.now made.rows.items) }
    ensures columns_exist { IfOk result (λ made. AreOfProblem instance.now made.rows.items) }
    ensures next { IfOk result (λ made. made.next
        ≡ first_line + length (all_cut_values (map cut_shape cuts.now))) }
    ensures fault { IfErr result (CutsHaveFault instance.now (map cut_shape cuts.now)) }
{
    cut_rows_go_on();
    let mut rows = Vec::new(alloc);
    let mut line = FIRST_CUT_LINE;
    for cut in cuts {
        let row = cut_row_in(alloc, instance, explosion, &rows, cut, line)?;
        rows.push(row)?;
        line += cut_lines_count(cut);
    }
    Ok(CutRows { rows, next: line })
}

// Whether a certificate is accepted.
fn examine(
    alloc: Global,
    instance: &Instance,
    certificate: &Certificate,
    plan: Option<&Plan>,
) -> Result<(), CheckFault>
    requires writable { IsWritable (shape_of certificate.now) }
    requires lines { line_count (shape_of certificate.now) < 2 ^ 63 }
    ensures certified { IfOk result (λ _.
        IsGoodCertificate instance.now (shape_of certificate.now) (option_copied plan.entry)) }
    ensures fault { IfErr result (HasFault instance.now (shape_of certificate.now)
        (option_copied plan.entry)) }
{
    plans_are_within();
    if let Err(rejected) = judge_claim(instance, certificate.claim, plan) {
        return Err(CheckFault::Rejected(rejected));
    }
    let explosion = Explosion::of(alloc, instance)?;
    let cuts = cut_rows(alloc, instance, &explosion, &certificate.cuts)?;
    let mut named = NamedSums::new(alloc, instance)?;
    let mut path = Vec::new(alloc);
    walk(
        alloc,
        instance,
        &mut named,
        &cuts.rows,
        certificate.claim,
        &mut path,
        &certificate.tree,
        cuts.next,
    )?;
    Ok(())
}

/// Whether a certificate proves its claim of an instance, with the plan that was given.
///
/// On Ok the claim is true of all plans (`claim`): the plan that was given is feasible, costs what is claimed, and no
/// feasible plan costs less; no plan is feasible; or every feasible plan costs at least what is claimed. Amounts
/// are in money. Only an optimal cost asks for a plan; with another claim none is looked at. The certificate is then
/// accepted by the definition of `cert_meaning`, and its sums stay below 2^127 (`certified`).
///
/// Otherwise it is refused with the first thing that is wrong, and its line in the certificate's text (`fault`):
///
/// 1. The plan, on `CLAIM_LINE`: there is none (`PlanMissing`), it breaks a rule (`Plan`), or it costs another amount than
///    is claimed (`Costs`).
/// 2. The cuts, in their order, the first that has no row as `cut_row` says: a number or a list that is out of
///    range (`Range`), an item that isn't lead-free (`Lead`), potentials that rise by too much (`Block`); of a cut by
///    rounding a part that names no row (`Range`) or takes an inequality a negative number of times (`Sign`), on
///    the line of that part, or sums that reach 2^127 (`TooLarge`).
/// 3. The tree, in the order of its text: a branch that doesn't split what its path leaves to a quantity or a
///    setup in two, neither part empty (`Range`); a leaf that says nothing, as `leaf_bound` says; and a leaf that
///    says less than is claimed (`Short`). That no plan lies in a leaf is enough for every claim, and an amount is
///    enough for an infeasible problem nowhere.
///
/// A certificate that is accepted, and whose sums stay below 2^127, is never refused (`never`): where there is
/// memory the answer is Ok exactly for these.
///
/// It calls itself once for each branch on the way to a leaf, at most `MAX_BRANCHES` deep. It keeps the rows of all
/// cuts, the bounds of one path and the sums of the columns, which serve all leaves; it takes time in the number of parts
/// times the number of their terms, and for each branch in the length of its path.
pub fn check(
    alloc: Global,
    instance: &Instance,
    certificate: &Certificate,
    plan: Option<&Plan>,
) -> Result<(), CheckFault>
    requires writable { IsWritable (shape_of certificate.now) }
    requires lines { line_count (shape_of certificate.now) < 2 ^ 63 }
    ensures certified { IfOk result (λ _.
        IsGoodCertificate instance.now (shape_of certificate.now) (option_copied plan.entry)) }
    ensures claim { IfOk result (λ _.
        IsTrueOf instance.now certificate.now.claim (plan_given (option_copied plan.entry))) }
    ensures fault { IfErr result (HasFault instance.now (shape_of certificate.now)
        (option_copied plan.entry)) }
    ensures never { IfErr result (IsNeverRefused instance.now (shape_of certificate.now)
        (option_copied plan.entry)) }
{
    totals_exist();
    accepted_is_true();
    judgement_is_one();
    cut_rows_go_on();
    cut_rows_are_one();
    says_are_one();
    reduced_sums_are_one();
    an_instance_breaks_no_rule(instance);
    examine(alloc, instance, certificate, plan)
}
