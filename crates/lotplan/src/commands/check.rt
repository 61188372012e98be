// `check`: checks the certificate in a file, by the model and the plan in two others.
ghost use Rattle.std.specs.Prelude.{◌≡◌, ◌≤◌, ◌+◌, ◌*◌, string_bytes, IfOk, option_copied};
ghost use Rattle.lot_io.specs.Outside.{OnlyReads, piece_size};
ghost use Rattle.stream_check.specs.Streams.{pass_size};
ghost use Rattle.lotplan.specs.Meaning.{Says};
ghost use Rattle.lotplan.specs.Checking.{check_meaning, GivenExplains, IsRefusal, PlannedExplains, ProofExplains, accepted_line, check_line, check_meant, check_status, no_certificate_line, rejected_line};
ghost use Rattle.lotplan.specs.Drawing.{WithPlanExplains};
ghost use Rattle.lotplan.specs.Reading.{file_limit};
ghost use Rattle.lotplan.specs.Saying.{IsSaid};
ghost use Rattle.lotplan.specs.Fetching.{FetchesAs};

use crate::model_file::{PlanStop, ReadAnswer, Stop, no_plan_line, read_model, read_plan_file};
use crate::said::Said;
use crate::status::Status;
use cert_checker::{Rejected, Why};
use certificate::{CertTextFault, Claim, texts_mean_one_thing};
use lot_io::Shelf;
use lot_model::Instance;
use plan_file::PlanFault;
use plan_rules::Plan;
use std::alloc::{AllocError, Global};
use stream_check::{StreamFault, check_stream, read_claim};

/// What `check` answers.
#[derive(Clone, Copy, Debug, PartialEq, Eq)]
pub enum CheckAnswer<'a> {
    /// The certificate is accepted, and proves this.
    Accepted(Claim),
    /// The certificate file holds no certificate.
    NoCertificate(CertTextFault),
    /// The plan file holds no plan.
    NoPlan(PlanFault),
    /// The certificate is refused.
    Rejected(Rejected),
    /// A file gave nothing to go on with.
    NoInput(ReadAnswer<'a>),
}

impl CheckAnswer<'_> {
    /// The line and the status.
    pub fn answer_line(&self, alloc: Global) -> Result<Said, AllocError>
        ensures { IfOk result (IsSaid (check_line (check_meant self.now))
            (check_status (check_meant self.now))) }
    {
        Ok(Said::of(self.line(alloc)?, self.status()))
    }

    /// The status.
    pub fn status(&self) -> Status
        ensures { result ≡ check_status (check_meant self.now) }
    {
        match self {
            CheckAnswer::Accepted(_) => Status::Done,
            CheckAnswer::NoCertificate(_) => Status::Faulty,
            CheckAnswer::NoPlan(_) => Status::Faulty,
            CheckAnswer::Rejected(_) => Status::Faulty,
            CheckAnswer::NoInput(why) => why.status(),
        }
    }

    /// The line that is printed, with its line feed.
    pub fn line(&self, alloc: Global) -> Result<String, AllocError>
        ensures { IfOk result (λ line. string_bytes line ≡ check_line (check_meant self.now)) }
    {
        match self {
            CheckAnswer::Accepted(claim) => line_of_claim(alloc, claim),
            CheckAnswer::NoCertificate(fault) => line_of_text(alloc, fault),
            CheckAnswer::NoPlan(fault) => no_plan_line(alloc, fault),
            CheckAnswer::Rejected(rejected) => line_of_refusal(alloc, rejected),
            CheckAnswer::NoInput(why) => why.line(alloc),
        }
    }
}

// The line of an accepted certificate.
fn line_of_claim(alloc: Global, claim: &Claim) -> Result<String, AllocError>
    ensures { IfOk result (λ line. string_bytes line ≡ accepted_line claim.now) }
{
    match claim {
        Claim::Optimal(cost) => format!(in alloc; "accepted optimal {cost}\n"),
        Claim::Infeasible => String::from_str(alloc, "accepted infeasible\n"),
        Claim::Bound(bound) => format!(in alloc; "accepted bound {bound}\n"),
    }
}

// The line of a text that is no certificate's.
fn line_of_text(alloc: Global, fault: &CertTextFault) -> Result<String, AllocError>
    ensures { IfOk result (λ line. string_bytes line ≡ no_certificate_line fault.now) }
{
    match fault {
        CertTextFault::Header(line) => format!(in alloc; "rejected C1 line {line}\n"),
        CertTextFault::Line(line) => format!(in alloc; "rejected C2 line {line}\n"),
        CertTextFault::Shape(line) => format!(in alloc; "rejected C3 line {line}\n"),
        CertTextFault::Deep(line) => format!(in alloc; "rejected C11 line {line}\n"),
        CertTextFault::Memory => String::from_str(alloc, "out of memory\n"),
    }
}

// The line of a refused certificate. Those that the plan refuses are all on the line of the claim,
// which isn't printed.
fn line_of_refusal(alloc: Global, rejected: &Rejected) -> Result<String, AllocError>
    ensures { IfOk result (λ line. string_bytes line
        ≡ rejected_line rejected.now.line rejected.now.why) }
{
    let line = rejected.line;
    match rejected.why {
        Why::Range => format!(in alloc; "rejected C4 line {line}\n"),
        Why::Sign => format!(in alloc; "rejected C5 line {line}\n"),
        Why::Column(column) => format!(in alloc; "rejected C6 line {line} {column}\n"),
        Why::Short { says } => format!(in alloc; "rejected C7 line {line} says {says}\n"),
        Why::NotPoint => format!(in alloc; "rejected C8 line {line}\n"),
        Why::Block {
            first,
            last,
            server,
        } => format!(in alloc; "rejected C9 line {line} {first} {last} {server}\n"),
        Why::TooLarge => format!(in alloc; "rejected C10 line {line}\n"),
        Why::Plan(rule) => format!(in alloc; "rejected C12 {rule}\n"),
        Why::Costs { plan, claim } => format!(in alloc; "rejected C12 {plan} {claim}\n"),
        Why::PlanMissing => String::from_str(alloc, "rejected C13\n"),
        Why::Lead => format!(in alloc; "rejected C14 line {line}\n"),
        Why::Work => format!(in alloc; "rejected C15 line {line}\n"),
    }
}

// What is answered where the certificate file gave nothing to go on with, or is refused.
fn refusal<'a>(certificate: &'a str, fault: StreamFault) -> Result<CheckAnswer<'a>, AllocError>
    ensures { IfOk result (λ answer. IsRefusal certificate.entry.now fault (check_meant answer)) }
{
    match fault {
        StreamFault::Missing => Ok(CheckAnswer::NoInput(ReadAnswer::Missing(certificate))),
        StreamFault::Failed => Ok(CheckAnswer::NoInput(ReadAnswer::Unread(certificate))),
        StreamFault::TooLong => Ok(CheckAnswer::NoInput(ReadAnswer::TooLong(certificate))),
        StreamFault::Text(fault) => Ok(CheckAnswer::NoCertificate(fault)),
        StreamFault::Rejected(rejected) => Ok(CheckAnswer::Rejected(rejected)),
        StreamFault::Memory => Err(AllocError),
    }
}

// Checks the certificate in a file with this plan, or with none.
fn check_given<'a, S: Shelf>(
    alloc: Global,
    instance: &Instance,
    given: Option<&Plan>,
    certificate: &'a str,
    shelf: &mut S,
) -> Result<CheckAnswer<'a>, AllocError>
    ensures answer { IfOk result (λ answer.
        GivenExplains instance.now (option_copied given.entry) certificate.entry.now
        (S.shown shelf.old) (S.shown shelf.new) (check_meant answer)) }
    ensures reads { OnlyReads (S.shown shelf.old) (S.shown shelf.new) }
    ensures found { IfOk result (λ answer. FetchesAs (check_status (check_meant answer))
        (S.shown shelf.old) (S.shown shelf.new)) }
    ensures given { (S.shown shelf.new).given ≤ (S.shown shelf.old).given + 2 * pass_size }
{
    match check_stream(alloc, instance, shelf, certificate, given) {
        Ok(claim) => Ok(CheckAnswer::Accepted(claim)),
        Err(fault) => refusal(certificate, fault),
    }
}

// Checks the certificate in a file with the plan in another.
fn check_planned<'a, S: Shelf>(
    alloc: Global,
    instance: &Instance,
    plan: &'a str,
    certificate: &'a str,
    shelf: &mut S,
) -> Result<CheckAnswer<'a>, AllocError>
    ensures answer { IfOk result (λ answer.
        PlannedExplains instance.now plan.entry.now certificate.entry.now (S.shown shelf.old)
        (S.shown shelf.new) (check_meant answer)) }
    ensures reads { OnlyReads (S.shown shelf.old) (S.shown shelf.new) }
    ensures found { IfOk result (λ answer. FetchesAs (check_status (check_meant answer))
        (S.shown shelf.old) (S.shown shelf.new)) }
    ensures given { (S.shown shelf.new).given
        ≤ (S.shown shelf.old).given + ((file_limit + piece_size) + 2 * pass_size) }
{
    match read_plan_file(alloc, instance, plan, shelf) {
        Ok(given) => check_given(alloc, instance, Some(&given), certificate, shelf),
        Err(PlanStop::NoPlan(fault)) => Ok(CheckAnswer::NoPlan(fault)),
        Err(PlanStop::Answered(why)) => Ok(CheckAnswer::NoInput(why)),
        Err(PlanStop::Memory) => Err(AllocError),
    }
}

/// Checks the certificate in a file with this plan, which goes with it where an optimal cost is claimed.
pub fn check_with<'a, S: Shelf>(
    alloc: Global,
    instance: &Instance,
    plan: &Plan,
    certificate: &'a str,
    shelf: &mut S,
) -> Result<CheckAnswer<'a>, AllocError>
    ensures answer { IfOk result (λ answer.
        WithPlanExplains instance.now plan.now certificate.entry.now (S.shown shelf.old)
        (S.shown shelf.new) (check_meant answer)) }
    ensures reads { OnlyReads (S.shown shelf.old) (S.shown shelf.new) }
    ensures found { IfOk result (λ answer. FetchesAs (check_status (check_meant answer))
        (S.shown shelf.old) (S.shown shelf.new)) }
    ensures given { (S.shown shelf.new).given ≤ (S.shown shelf.old).given + 3 * pass_size }
{
    texts_mean_one_thing();
    match read_claim(alloc, shelf, certificate) {
        Ok(Claim::Optimal(_)) => check_given(alloc, instance, Some(plan), certificate, shelf),
        Ok(Claim::Infeasible) => check_given(alloc, instance, None, certificate, shelf),
        Ok(Claim::Bound(_)) => check_given(alloc, instance, None, certificate, shelf),
        Err(fault) => refusal(certificate, fault),
    }
}

// Checks the certificate in a file. The plan is read where an optimal cost is claimed.
fn check_claim<'a, S: Shelf>(
    alloc: Global,
    instance: &Instance,
    plan: &'a str,
    certificate: &'a str,
    shelf: &mut S,
) -> Result<CheckAnswer<'a>, AllocError>
    ensures answer { IfOk result (λ answer.
        ProofExplains instance.now plan.entry.now certificate.entry.now (S.shown shelf.old)
        (S.shown shelf.new) (check_meant answer)) }
    ensures reads { OnlyReads (S.shown shelf.old) (S.shown shelf.new) }
    ensures found { IfOk result (λ answer. FetchesAs (check_status (check_meant answer))
        (S.shown shelf.old) (S.shown shelf.new)) }
    ensures given { (S.shown shelf.new).given
        ≤ (S.shown shelf.old).given + ((file_limit + piece_size) + 3 * pass_size) }
{
    texts_mean_one_thing();
    match read_claim(alloc, shelf, certificate) {
        Ok(Claim::Optimal(_)) => check_planned(alloc, instance, plan, certificate, shelf),
        Ok(Claim::Infeasible) => check_given(alloc, instance, None, certificate, shelf),
        Ok(Claim::Bound(_)) => check_given(alloc, instance, None, certificate, shelf),
        Err(fault) => refusal(certificate, fault),
    }
}

/// Checks the certificate in a file, by the model and the plan in two others.
pub fn check_files<S: Shelf>(
    alloc: Global,
    model: &str,
    plan: &str,
    certificate: &str,
    shelf: &mut S,
) -> Result<Said, AllocError>
    ensures said { IfOk result (Says (check_meaning model.now plan.now certificate.now)
        (S.shown shelf.old) (S.shown shelf.new)) }
    ensures reads { OnlyReads (S.shown shelf.old) (S.shown shelf.new) }
    ensures found { IfOk result (λ said. FetchesAs said.status (S.shown shelf.old)
        (S.shown shelf.new)) }
    ensures given { (S.shown shelf.new).given
        ≤ (S.shown shelf.old).given + (2 * (file_limit + piece_size) + 3 * pass_size) }
{
    match read_model(alloc, model, shelf) {
        Ok(instance) => {
            let answer = check_claim(alloc, &instance, plan, certificate, shelf)?;
            answer.answer_line(alloc)
        }
        Err(Stop::Answered(why)) => CheckAnswer::NoInput(why).answer_line(alloc),
        Err(Stop::Memory) => Err(AllocError),
    }
}
