// `plan`: plans the model in a file, and writes the plan that was found and the certificate of what is claimed to two
// others.
ghost use Rattle.std.specs.Prelude.{◌≡◌, ◌≢◌, ◌≤◌, ◌+◌, ◌*◌, ◌∷◌, [], length, string_bytes, Some, None, IfOk, IfSome, OnErr, option_map};
ghost use Rattle.cert_lines.specs.declared.limits.TheConstants.{LOTS_CERT_VERSION, MAX_CERT_VERSION};
ghost use Rattle.lot_io.specs.Outside.{Finds, OnlyReads, piece_size};
ghost use Rattle.branching.specs.Search.{IsGoodPlan, cost_of};
ghost use Rattle.command_line.specs.Meant.{search_by};
ghost use Rattle.lotplan.specs.Meaning.{Says};
ghost use Rattle.lotplan.specs.Finding.{IsFound};
ghost use Rattle.lotplan.specs.Planning.{IsAnswerTo, plan_meaning, WriteSays, plan_line, plan_meant, plan_status, root_line, start_files};
ghost use Rattle.lotplan.specs.Reading.{file_limit};
ghost use Rattle.lotplan.specs.Saying.{IsSaid};
ghost use Rattle.lotplan.specs.Fetching.{FetchesAs};
ghost use Rattle.lotplan.specs.Writing.{AppendsAs};

use crate::commands::judge::{FeasiblePlan, NotFeasible, read_feasible};
use crate::model_file::{ReadAnswer, Stop, read_model};
use crate::said::Said;
use crate::sought::{Sought, sought_by};
use crate::status::Status;
use crate::writing::{Output, unwritten_line, write_all};
use branching::{Limits, Plugins, Wanted, search_all};
use certificate::{Claim, write_certificate};
use command_line::{Names, Search};
use lot_io::Shelf;
use lot_model::Instance;
use plan_file::write_plan;
use plan_rules::{Plan, judge};
use search_plugins::{Heuristic, Limited, Proposer, Watch};
use search_result::{Found, RootSays};
use std::alloc::{AllocError, Global};

/// What `plan` answers.
#[derive(Clone, Copy, Debug, PartialEq, Eq)]
pub enum PlanAnswer<'a> {
    /// A best plan and its certificate were written.
    Optimal {
        /// What was said at the root.
        root: RootSays,
        /// The number of nodes of the certificate's tree.
        nodes: u64,
        /// What the plan costs, in money.
        cost: u128,
    },
    /// No plan is feasible, and the certificate of that was written.
    Infeasible {
        /// What was said at the root.
        root: RootSays,
        /// The number of nodes of the certificate's tree.
        nodes: u64,
    },
    /// A plan and the certificate of a bound below its cost were written.
    Between {
        /// What was said at the root.
        root: RootSays,
        /// The number of nodes of the certificate's tree.
        nodes: u64,
        /// What each plan costs at least, in money.
        bound: u128,
        /// What the plan costs, in money.
        cost: u128,
    },
    /// No plan was found, and the certificate of a bound was written.
    Above {
        /// What was said at the root.
        root: RootSays,
        /// The number of nodes of the certificate's tree.
        nodes: u64,
        /// What each plan costs at least, in money.
        bound: u128,
    },
    /// The plan file or the certificate file, of this name, could not be written.
    Unwritten(&'a str),
    /// The model file gave no instance.
    NoInput(ReadAnswer<'a>),
}

impl PlanAnswer<'_> {
    /// The lines and the status.
    pub fn answer_line(&self, alloc: Global) -> Result<Said, AllocError>
        ensures { IfOk result (IsSaid (plan_line (plan_meant self.now))
            (plan_status (plan_meant self.now))) }
    {
        Ok(Said::of(self.line(alloc)?, self.status()))
    }

    /// The status.
    pub fn status(&self) -> Status
        ensures { result ≡ plan_status (plan_meant self.now) }
    {
        match self {
            PlanAnswer::Optimal { .. } => Status::Done,
            PlanAnswer::Infeasible { .. } => Status::NoPlan,
            PlanAnswer::Between { .. } | PlanAnswer::Above { .. } => Status::Undecided,
            PlanAnswer::Unwritten(_) => Status::Unwritten,
            PlanAnswer::NoInput(why) => why.status(),
        }
    }

    /// The lines that are printed, each with its line feed.
    pub fn line(&self, alloc: Global) -> Result<String, AllocError>
        ensures { IfOk result (λ line. string_bytes line ≡ plan_line (plan_meant self.now)) }
    {
        match self {
            PlanAnswer::Optimal { root, nodes, cost } => {
                let root = line_of_root(alloc, root)?;
                format!(in alloc; "{root}nodes {nodes}\noptimal {cost}\n")
            }
            PlanAnswer::Infeasible { root, nodes } => {
                let root = line_of_root(alloc, root)?;
                format!(in alloc; "{root}nodes {nodes}\ninfeasible\n")
            }
            PlanAnswer::Between {
                root,
                nodes,
                bound,
                cost,
            } => {
                let root = line_of_root(alloc, root)?;
                format!(in alloc; "{root}nodes {nodes}\nundecided {bound} plan {cost}\n")
            }
            PlanAnswer::Above { root, nodes, bound } => {
                let root = line_of_root(alloc, root)?;
                format!(in alloc; "{root}nodes {nodes}\nundecided {bound}\n")
            }
            PlanAnswer::Unwritten(file) => unwritten_line(alloc, *file),
            PlanAnswer::NoInput(why) => why.line(alloc),
        }
    }
}

// The line of what was said at the root.
fn line_of_root(alloc: Global, root: &RootSays) -> Result<String, AllocError>
    ensures { IfOk result (λ line. string_bytes line ≡ root_line root.now) }
{
    match root {
        RootSays::Uncoupled => String::from_str(alloc, "root uncoupled\n"),
        RootSays::Skipped { .. } => String::from_str(alloc, "root skipped\n"),
        RootSays::Closed(bound) => format!(in alloc; "root closed {bound}\n"),
        RootSays::Empty => String::from_str(alloc, "root empty\n"),
        RootSays::Stopped { .. } => String::from_str(alloc, "root stopped\n"),
        RootSays::Passed { .. } => String::from_str(alloc, "root passed\n"),
    }
}

// What a feasible plan costs.
fn cost_of(instance: &Instance, plan: &Plan) -> u128
    requires { IsGoodPlan instance.now plan.now }
    ensures { result ≡ cost_of instance.now plan.now }
{
    match judge(instance, plan) {
        Ok(cost) => cost,
        Err(_) => unreachable!(),
    }
}

/// What is answered once what was found is written.
pub fn answer_of(instance: &Instance, found: &Found) -> PlanAnswer<'static>
    requires { IfSome found.now.plan (IsGoodPlan instance.now) }
    ensures { IsAnswerTo instance.now found.now.certificate.claim found.now.plan found.now.root
        found.now.nodes (plan_meant result) }
{
    let (root, nodes) = (found.root, found.nodes);
    match found.certificate.claim {
        Claim::Optimal(cost) => PlanAnswer::Optimal { root, nodes, cost },
        Claim::Infeasible => PlanAnswer::Infeasible { root, nodes },
        Claim::Bound(bound) => match &found.plan {
            Some(plan) => PlanAnswer::Between {
                root,
                nodes,
                bound,
                cost: cost_of(instance, plan),
            },
            None => PlanAnswer::Above { root, nodes, bound },
        },
    }
}

// Writes the plan that was found, and then the certificate. All memory is taken before the first of the two files is started.
fn write_both<'a, S: Shelf>(
    alloc: Global,
    instance: &Instance,
    sought: Sought,
    found: &Found,
    chosen: &Plan,
    plan: &'a str,
    certificate: &'a str,
    shelf: &mut S,
) -> Result<Said, AllocError>
    requires found { IsFound instance.now sought found.now }
    requires chosen { found.now.plan ≡ Some chosen.now }
    requires apart { plan.now ≢ certificate.now }
    ensures said { IfOk result (WriteSays instance.now sought plan.now certificate.now
        (S.shown shelf.old) (S.shown shelf.new)) }
    ensures memory { OnErr result (S.shown shelf.new ≡ S.shown shelf.old) }
    ensures found { Finds (S.shown shelf.old) (S.shown shelf.new) }
    ensures appended { IfOk result (λ said. AppendsAs (plan.now ∷ certificate.now ∷ []) said.status
        (S.shown shelf.old) (S.shown shelf.new)) }
    ensures given { (S.shown shelf.new).given ≡ (S.shown shelf.old).given }
{
    let bytes = write_plan(alloc, instance, chosen)?;
    let proof = write_certificate(alloc, &found.certificate)?;
    let written = answer_of(instance, found).answer_line(alloc)?;
    let unplanned = PlanAnswer::Unwritten(plan).answer_line(alloc)?;
    let unproved = PlanAnswer::Unwritten(certificate).answer_line(alloc)?;
    let outputs = [
        Output {
            name: plan,
            bytes: bytes.as_slice(),
        },
        Output {
            name: certificate,
            bytes: proof.as_slice(),
        },
    ];
    match write_all(shelf, &outputs) {
        Ok(()) => Ok(written),
        Err(0) => Ok(unplanned),
        Err(_) => Ok(unproved),
    }
}

// Writes the certificate alone, where no plan was found.
fn write_proof<S: Shelf>(
    alloc: Global,
    instance: &Instance,
    sought: Sought,
    found: &Found,
    plan: &str,
    certificate: &str,
    shelf: &mut S,
) -> Result<Said, AllocError>
    requires found { IsFound instance.now sought found.now }
    requires none { found.now.plan ≡ None }
    requires apart { plan.now ≢ certificate.now }
    ensures said { IfOk result (WriteSays instance.now sought plan.now certificate.now
        (S.shown shelf.old) (S.shown shelf.new)) }
    ensures memory { OnErr result (S.shown shelf.new ≡ S.shown shelf.old) }
    ensures found { Finds (S.shown shelf.old) (S.shown shelf.new) }
    ensures appended { IfOk result (λ said. AppendsAs (plan.now ∷ certificate.now ∷ []) said.status
        (S.shown shelf.old) (S.shown shelf.new)) }
    ensures given { (S.shown shelf.new).given ≡ (S.shown shelf.old).given }
{
    let proof = write_certificate(alloc, &found.certificate)?;
    let written = answer_of(instance, found).answer_line(alloc)?;
    let unproved = PlanAnswer::Unwritten(certificate).answer_line(alloc)?;
    let outputs = [Output {
        name: certificate,
        bytes: proof.as_slice(),
    }];
    match write_all(shelf, &outputs) {
        Ok(()) => Ok(written),
        Err(_) => Ok(unproved),
    }
}

// Writes what was found: the plan file, where there is a plan, and then the certificate file.
fn write_found<S: Shelf>(
    alloc: Global,
    instance: &Instance,
    sought: Sought,
    found: &Found,
    plan: &str,
    certificate: &str,
    shelf: &mut S,
) -> Result<Said, AllocError>
    requires found { IsFound instance.now sought found.now }
    requires apart { plan.now ≢ certificate.now }
    ensures said { IfOk result (WriteSays instance.now sought plan.now certificate.now
        (S.shown shelf.old) (S.shown shelf.new)) }
    ensures memory { OnErr result (S.shown shelf.new ≡ S.shown shelf.old) }
    ensures found { Finds (S.shown shelf.old) (S.shown shelf.new) }
    ensures appended { IfOk result (λ said. AppendsAs (plan.now ∷ certificate.now ∷ []) said.status
        (S.shown shelf.old) (S.shown shelf.new)) }
    ensures given { (S.shown shelf.new).given ≡ (S.shown shelf.old).given }
{
    match &found.plan {
        Some(chosen) => write_both(
            alloc,
            instance,
            sought,
            found,
            chosen,
            plan,
            certificate,
            shelf,
        ),
        None => write_proof(alloc, instance, sought, found, plan, certificate, shelf),
    }
}

/// What the search finds of an instance, from a plan of it or from none. The watcher is told of it, and asked whether it is to end
/// only where it may be.
pub fn found_of<P: Proposer, H: Heuristic<P::Hint>, W: Watch>(
    alloc: Global,
    proposer: &P,
    heuristic: &H,
    watch: &mut W,
    instance: &Instance,
    sought: Sought,
    first: Option<Plan>,
) -> Result<Found, AllocError>
    requires budget { 1 ≤ sought.budget }
    requires oldest { LOTS_CERT_VERSION ≤ sought.newest }
    requires latest { sought.newest ≤ MAX_CERT_VERSION }
    requires first { IfSome first (IsGoodPlan instance.now) }
    requires begins { sought.begins ≡ option_map (cost_of instance.now) first }
    ensures { IfOk result (IsFound instance.now sought) }
{
    let plugins = Plugins {
        proposer,
        heuristic,
    };
    let watch = Limited {
        told: watch,
        is_limited: sought.may_stop,
    };
    let wanted = Wanted {
        budget: sought.budget,
        first,
        limits: Limits { gap: sought.gap },
        newest: sought.newest,
    };
    let found = search_all(alloc, &plugins, watch, instance, wanted)?;
    Ok(found)
}

// Plans an instance, and writes the plan that was found, where there is one, and the certificate of what is claimed.
fn plan_instance<S: Shelf, P: Proposer, H: Heuristic<P::Hint>, W: Watch>(
    alloc: Global,
    proposer: &P,
    heuristic: &H,
    watch: &mut W,
    instance: &Instance,
    sought: Sought,
    first: Option<Plan>,
    names: Names<'_>,
    shelf: &mut S,
) -> Result<Said, AllocError>
    requires budget { 1 ≤ sought.budget }
    requires oldest { LOTS_CERT_VERSION ≤ sought.newest }
    requires latest { sought.newest ≤ MAX_CERT_VERSION }
    requires first { IfSome first (IsGoodPlan instance.now) }
    requires begins { sought.begins ≡ option_map (cost_of instance.now) first }
    requires apart { names.plan.now ≢ names.certificate.now }
    ensures said { IfOk result (WriteSays instance.now sought names.entry.plan.now
        names.entry.certificate.now (S.shown shelf.old) (S.shown shelf.new)) }
    ensures memory { OnErr result (S.shown shelf.new ≡ S.shown shelf.old) }
    ensures found { Finds (S.shown shelf.old) (S.shown shelf.new) }
    ensures appended { IfOk result (λ said. AppendsAs
        (names.entry.plan.now ∷ names.entry.certificate.now ∷ []) said.status (S.shown shelf.old)
        (S.shown shelf.new)) }
    ensures given { (S.shown shelf.new).given ≡ (S.shown shelf.old).given }
{
    let found = found_of(alloc, proposer, heuristic, watch, instance, sought, first)?;
    write_found(
        alloc,
        instance,
        sought,
        &found,
        names.plan,
        names.certificate,
        shelf,
    )
}

// Plans the model in a file, from no plan.
fn plan_model<S: Shelf, P: Proposer, H: Heuristic<P::Hint>, W: Watch>(
    alloc: Global,
    proposer: &P,
    heuristic: &H,
    watch: &mut W,
    names: Names<'_>,
    search: Search<'_>,
    shelf: &mut S,
) -> Result<Said, AllocError>
    requires budget { 1 ≤ search.budget }
    requires oldest { LOTS_CERT_VERSION ≤ search.newest }
    requires latest { search.newest ≤ MAX_CERT_VERSION }
    requires start { search.start ≡ None }
    requires apart { names.plan.now ≢ names.certificate.now }
    ensures said { IfOk result (Says (plan_meaning names.entry.model.now names.entry.plan.now
        names.entry.certificate.now (search_by search.entry)) (S.shown shelf.old)
        (S.shown shelf.new)) }
    ensures memory { OnErr result (OnlyReads (S.shown shelf.old) (S.shown shelf.new)) }
    ensures found { IfOk result (λ said. FetchesAs said.status (S.shown shelf.old)
        (S.shown shelf.new)) }
    ensures appended { IfOk result (λ said. AppendsAs
        (names.entry.plan.now ∷ names.entry.certificate.now ∷ []) said.status (S.shown shelf.old)
        (S.shown shelf.new)) }
    ensures given { (S.shown shelf.new).given
        ≤ (S.shown shelf.old).given + (file_limit + piece_size) }
{
    match read_model(alloc, names.model, shelf) {
        Ok(instance) => plan_instance(
            alloc,
            proposer,
            heuristic,
            watch,
            &instance,
            sought_by(search, None),
            None,
            names,
            shelf,
        ),
        Err(Stop::Answered(why)) => PlanAnswer::NoInput(why).answer_line(alloc),
        Err(Stop::Memory) => Err(AllocError),
    }
}

// Plans the model in a file, from the plan in another, which is judged first.
fn plan_from<S: Shelf, P: Proposer, H: Heuristic<P::Hint>, W: Watch>(
    alloc: Global,
    proposer: &P,
    heuristic: &H,
    watch: &mut W,
    names: Names<'_>,
    search: Search<'_>,
    start: &str,
    shelf: &mut S,
) -> Result<Said, AllocError>
    requires budget { 1 ≤ search.budget }
    requires oldest { LOTS_CERT_VERSION ≤ search.newest }
    requires latest { search.newest ≤ MAX_CERT_VERSION }
    requires start { option_map (λ f. f.now) search.start ≡ Some start.now }
    requires apart { names.plan.now ≢ names.certificate.now }
    ensures said { IfOk result (Says (plan_meaning names.entry.model.now names.entry.plan.now
        names.entry.certificate.now (search_by search.entry)) (S.shown shelf.old)
        (S.shown shelf.new)) }
    ensures memory { OnErr result (OnlyReads (S.shown shelf.old) (S.shown shelf.new)) }
    ensures found { IfOk result (λ said. FetchesAs said.status (S.shown shelf.old)
        (S.shown shelf.new)) }
    ensures appended { IfOk result (λ said. AppendsAs
        (names.entry.plan.now ∷ names.entry.certificate.now ∷ []) said.status (S.shown shelf.old)
        (S.shown shelf.new)) }
    ensures given { (S.shown shelf.new).given
        ≤ (S.shown shelf.old).given + 2 * (file_limit + piece_size) }
{
    match read_feasible(alloc, names.model, start, shelf) {
        Ok(read) => {
            let sought = sought_by(search, Some(read.cost));
            let FeasiblePlan { instance, plan, .. } = read;
            plan_instance(
                alloc,
                proposer,
                heuristic,
                watch,
                &instance,
                sought,
                Some(plan),
                names,
                shelf,
            )
        }
        Err(NotFeasible::Judged(answer)) => answer.answer_line(alloc),
        Err(NotFeasible::Memory) => Err(AllocError),
    }
}

/// Plans the model in a file, and writes the plan that was found and the certificate of what is claimed to two others. Where
/// a file to start from is named, its plan is judged before anything is written, and the search starts from it.
pub fn plan_files<S: Shelf, P: Proposer, H: Heuristic<P::Hint>, W: Watch>(
    alloc: Global,
    proposer: &P,
    heuristic: &H,
    watch: &mut W,
    names: Names<'_>,
    search: Search<'_>,
    shelf: &mut S,
) -> Result<Said, AllocError>
    requires budget { 1 ≤ search.budget }
    requires oldest { LOTS_CERT_VERSION ≤ search.newest }
    requires latest { search.newest ≤ MAX_CERT_VERSION }
    requires apart { names.plan.now ≢ names.certificate.now }
    ensures said { IfOk result (Says (plan_meaning names.entry.model.now names.entry.plan.now
        names.entry.certificate.now (search_by search.entry)) (S.shown shelf.old)
        (S.shown shelf.new)) }
    ensures memory { OnErr result (OnlyReads (S.shown shelf.old) (S.shown shelf.new)) }
    ensures found { IfOk result (λ said. FetchesAs said.status (S.shown shelf.old)
        (S.shown shelf.new)) }
    ensures appended { IfOk result (λ said. AppendsAs
        (names.entry.plan.now ∷ names.entry.certificate.now ∷ []) said.status (S.shown shelf.old)
        (S.shown shelf.new)) }
    ensures given { (S.shown shelf.new).given
        ≤ (S.shown shelf.old).given
        + (1 + length (start_files (option_map (λ f. f.now) search.entry.start)))
        * (file_limit + piece_size) }
{
    match search.start {
        Some(start) => plan_from(
            alloc, proposer, heuristic, watch, names, search, start, shelf,
        ),
        None => plan_model(alloc, proposer, heuristic, watch, names, search, shelf),
    }
}
