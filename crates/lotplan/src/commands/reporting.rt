// `report`: judges the plan in a file, by the model in another, and tells of it.
ghost use Rattle.std.specs.Prelude.{◌≤◌, ◌+◌, ◌*◌, IfOk};
ghost use Rattle.lot_sizing.specs.Plan.{IsFeasible};
ghost use Rattle.lot_io.specs.Outside.{OnlyReads, piece_size};
ghost use Rattle.plan_rules.specs.Held.{AllFit, plan_of};
ghost use Rattle.lotplan.specs.Meaning.{Says};
ghost use Rattle.lotplan.specs.Reading.{file_limit};
ghost use Rattle.lotplan.specs.Reporting.{report_meaning, report_text};
ghost use Rattle.lotplan.specs.Saying.{IsSaid};
ghost use Rattle.lotplan.specs.declared.status.Status.TheVariants.{Done};
ghost use Rattle.lotplan.specs.Fetching.{FetchesAs};

use crate::commands::judge::{NotFeasible, read_feasible};
use crate::said::Said;
use crate::status::Status;
use command_line::ReportForm;
use lot_io::Shelf;
use lot_model::Instance;
use plan_report::{full_line, table_text};
use plan_rules::Plan;
use report::summary;
use std::alloc::{AllocError, Global};

// Sums up a feasible plan.
fn sum_up(alloc: Global, instance: &Instance, given: &Plan) -> Result<Said, AllocError>
    requires fits { AllFit instance.now given.now }
    requires feasible { IsFeasible instance.now (plan_of given.now) }
    ensures { IfOk result (IsSaid (report_text ReportForm.Summary instance.now (plan_of given.now))
        Done) }
{
    Ok(Said {
        line: summary(alloc, instance, given)?,
        status: Status::Done,
    })
}

// Tells of a feasible plan in a form.
fn report_given(
    alloc: Global,
    instance: &Instance,
    given: &Plan,
    form: ReportForm,
) -> Result<Said, AllocError>
    requires fits { AllFit instance.now given.now }
    requires feasible { IsFeasible instance.now (plan_of given.now) }
    ensures { IfOk result (IsSaid (report_text form instance.now (plan_of given.now)) Done) }
{
    match form {
        ReportForm::Summary => sum_up(alloc, instance, given),
        ReportForm::Full => Ok(Said::of(full_line(alloc, instance, given)?, Status::Done)),
        ReportForm::Tables => Ok(Said::of(table_text(alloc, instance, given)?, Status::Done)),
    }
}

/// Reports on the plan in a file, by the model in another: in this form where it is feasible, and else what `judge` says.
pub fn report_files<S: Shelf>(
    alloc: Global,
    model: &str,
    plan: &str,
    form: ReportForm,
    shelf: &mut S,
) -> Result<Said, AllocError>
    ensures said { IfOk result (Says (report_meaning model.now plan.now form) (S.shown shelf.old)
        (S.shown shelf.new)) }
    ensures reads { OnlyReads (S.shown shelf.old) (S.shown shelf.new) }
    ensures found { IfOk result (λ said. FetchesAs said.status (S.shown shelf.old)
        (S.shown shelf.new)) }
    ensures given { (S.shown shelf.new).given
        ≤ (S.shown shelf.old).given + 2 * (file_limit + piece_size) }
{
    match read_feasible(alloc, model, plan, shelf) {
        Ok(read) => report_given(alloc, &read.instance, &read.plan, form),
        Err(NotFeasible::Judged(answer)) => answer.answer_line(alloc),
        Err(NotFeasible::Memory) => Err(AllocError),
    }
}
