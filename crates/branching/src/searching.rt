// The search of a model.
ghost use Rattle.std.specs.Prelude.{◌≡◌, ◌≤◌, ◌↔◌, Bool, IfOk, IfSome};
ghost use Rattle.cert_lines.specs.declared.limits.TheConstants.{LOTS_CERT_VERSION, MAX_CERT_VERSION};
ghost use Rattle.lot_sizing.specs.Problem.{IsUncoupled};
ghost use Rattle.search_result.specs.Found.{IsProved};
ghost use Rattle.search_result.specs.declared.found.RootSays.TheVariants.{Empty, Uncoupled};
ghost use Rattle.certificate.specs.Shapes.{shape_of};
ghost use Rattle.branching.specs.Answer.{IsAnswer, IsAnswerWithin, StartsWell};
ghost use Rattle.branching.specs.Search.{DecidesSmall, GoesTogether, HasEvidence, IfBound, IsNoLessThanApart, IsSaidAtRoot, IsUndecided, IsVersionOf, KeepsFirst, KeepsOwn, UsesRoot, WithRows};
ghost use Rattle.incumbent.specs.Good.{IsGoodPlan, IsGoodWithin};
ghost use Rattle.incumbent.specs.Kept.{IsFirstBest, IsFirstWithin};
ghost use Rattle.branching.specs.SearchWithin.{HasEvidenceWithin, IsProvedWithin, IsUndecidedWithin};
ghost use Rattle.node_domains.specs.Within.{AreGiven, IsWhole, given_ranges};

use crate::beginning::begin;
use crate::finishing::finish;
use crate::guiding::Model;
use crate::impossible::none_found;
use crate::knowing::Known;
use crate::plugged::{Guided, Plugins, State, Watched};
use crate::versions::usual_version;
use crate::wanted::{Start, Wanted};
use crate::whole::whole_is_proved;
use cert_checker::NamedSums;
use echelon::Explosion;
use incumbent::best_to_begin;
use item_bound::{apart, apart_is_one};
use lot_model::Instance;
use lp_root::root;
use node_domains::{Ranges, lie_in_whole, lies_within, listed};
use plan_rules::{Plan, Planned};
use search_plugins::{Heuristic, Proposer, Space, Watch};
use search_result::{Found, RootSays};
use std::alloc::{AllocError, Global};
use tree_search as engine;
use uncoupled::plan_uncoupled;

// The best plan to begin with, after those that are proposed.
fn best_at_start<T, H: Heuristic<T>>(
    alloc: Global,
    heuristic: &H,
    instance: &Instance,
    ranges: &Ranges,
    first: Option<Plan>,
    effort: &mut H::State,
) -> Result<Option<Planned>, AllocError>
    requires { IsFirstWithin instance.now ranges.now first }
    ensures { IfOk result (IsFirstBest instance.now ranges.now first) }
{
    let mut best = best_to_begin(alloc, instance, ranges, first)?;
    let space = Space { instance, ranges };
    heuristic.at_start(alloc, space, effort, &mut best)?;
    Ok(best)
}

// What a search within the ranges finds.
fn searched<P: Proposer, H: Heuristic<P::Hint>, W: Watch + Drop>(
    alloc: Global,
    plugins: &Plugins<'_, P, H>,
    watch: W,
    start: Start<'_>,
    wanted: Wanted,
) -> Result<Found, AllocError>
    requires start { StartsWell start wanted }
    requires coupled { IsWhole start.instance.now (given_ranges start.ranges.now)
        → start.said.says ≡ Uncoupled → ⊥ }
    requires some { start.said.says ≡ Empty → ⊥ }
    ensures { IfOk result
        (IsAnswerWithin start.entry.instance.now (given_ranges start.entry.ranges.now) wanted
        (W.may_stop watch)) }
{
    let Start {
        instance,
        ranges,
        said,
        apart,
    } = start;
    let Wanted {
        budget,
        first,
        limits,
        newest,
    } = wanted;
    let (proposer, heuristic) = (plugins.proposer, plugins.heuristic);
    apart_is_one();
    lie_in_whole(instance);
    whole_is_proved(instance);
    let says = said.says;
    let mut effort = heuristic.begin(alloc, instance)?;
    let best = best_at_start(alloc, heuristic, instance, ranges, first, &mut effort)?;
    let begun = begin(alloc, instance, said, apart)?;
    let explosion = Explosion::of(alloc, instance)?;
    let sums = NamedSums::new(alloc, instance)?;
    let model = Model {
        instance,
        ranges,
        explosion,
        version: newest,
        root: says,
        least: begun.least,
        first: begun.first,
    };
    let known = Known {
        cuts: begun.cuts,
        rows: begun.rows,
        best,
        sums,
    };
    let guided = Guided {
        model,
        proposer,
        heuristic,
    };
    let work = State {
        known,
        notes: proposer.begin(alloc, instance)?,
        effort,
    };
    let mut state = Watched {
        work,
        watch,
        is_ended: false,
    };
    let list = listed(alloc, instance, ranges)?;
    let found = engine::search(alloc, &guided, list, &mut state, budget, limits)?;
    finish(alloc, &guided.model, state.work.known, found)
}

// What is found of a model without coupling: its best plan, where that lies within the ranges; that there is none; and
// otherwise what a search finds.
fn alone<P: Proposer, H: Heuristic<P::Hint>, W: Watch + Drop>(
    alloc: Global,
    plugins: &Plugins<'_, P, H>,
    watch: W,
    start: Start<'_>,
    wanted: Wanted,
) -> Result<Found, AllocError>
    requires start { StartsWell start wanted }
    requires uncoupled { start.said.says ≡ Uncoupled }
    ensures { IfOk result
        (IsAnswerWithin start.entry.instance.now (given_ranges start.entry.ranges.now) wanted
        (W.may_stop watch)) }
{
    let (instance, ranges) = (start.instance, start.ranges);
    apart_is_one();
    lie_in_whole(instance);
    let found = plan_uncoupled(alloc, instance)?;
    if lies_within(instance, ranges, &found.plan) {
        return Ok(found);
    }
    searched(alloc, plugins, watch, start, wanted)
}

// What is found of a model of which the root says that its relaxation has no point.
fn impossible(start: Start<'_>, wanted: Wanted) -> Found
    requires start { StartsWell start wanted }
    requires none { start.said.says ≡ Empty }
    ensures { (stopping : Bool)
        → IsAnswerWithin start.entry.instance.now (given_ranges start.entry.ranges.now) wanted
        stopping result }
{
    let (instance, ranges) = (start.instance, start.ranges);
    whole_is_proved(instance);
    let version = usual_version(instance);
    none_found(instance, ranges, version, start.said)
}

// What is found, by the outcome of the root LP: items planned one by one, no plan, or a search.
fn answer<P: Proposer, H: Heuristic<P::Hint>, W: Watch + Drop>(
    alloc: Global,
    plugins: &Plugins<'_, P, H>,
    watch: W,
    start: Start<'_>,
    wanted: Wanted,
) -> Result<Found, AllocError>
    requires start { StartsWell start wanted }
    ensures { IfOk result
        (IsAnswerWithin start.entry.instance.now (given_ranges start.entry.ranges.now) wanted
        (W.may_stop watch)) }
{
    match start.said.says {
        RootSays::Uncoupled => alone(alloc, plugins, watch, start, wanted),
        RootSays::Empty => Ok(impossible(start, wanted)),
        _ => searched(alloc, plugins, watch, start, wanted),
    }
}

/// Searches a best plan of a model within ranges of its quantities and setups, and proves what is found of the plans that
/// lie in them: the certificate is accepted over the ranges, with the plan.
///
/// `ranges` have the instance's shape, lie within `Ranges::all` and have no low number above its high number. Of what is
/// `wanted`, `budget` is the most nodes that the certificate's tree may have, branches and leaves. `first` is a plan within the
/// ranges to begin with: there is one in the answer then, which costs no more. A plan in the answer lies within the ranges.
///
/// | Claim | Where |
/// |---|---|
/// | `Optimal` | no plan within the ranges costs less than the plan, which costs this amount of money |
/// | `Infeasible` | no plan within the ranges is feasible |
/// | `Bound` | every plan within the ranges costs at least this amount, which is below the cost of the plan, if there is one. The cause is one of four, below |
///
/// A bound is claimed only for one of these causes. Two more nodes would pass the budget. Or all leaves that are left open have
/// the `MAX_BRANCHES` branches above them that a path may have. Or there is a plan, and its cost lies no more than the gap of
/// the limits above the amount, in hundredths of a percent of that cost. Or the watcher may end the search (`may_stop`).
///
/// The text of the certificate is of the least version that has its lines, from the usual one on: the first where the model is
/// plain, and else `LOTS_CERT_VERSION`. It is of none above `newest`: leaves with lines of later versions are not taken.
///
/// No amount is below what the items cost apart. A bound is said by some leaf; at each leaf that says it, some point of the
/// relaxation without cuts on the path to it costs no more, or that relaxation wasn't found, for the exact cause that
/// `path_relaxation` names, or the root's program was too large to be tried. The ranges are no bounds of the path: they
/// tell in what a choice of quantities and setups may be looked for.
///
/// Over the whole ranges all holds that `search_all` promises (`whole`).
///
/// All of it holds for any proposer, heuristic and watcher. Leaves that are proposed are judged, and cuts and places to branch on
/// are tested; a heuristic may put a feasible plan within the ranges, which costs no more, in the place of the best one. The
/// watcher is told of the nodes of the tree and of the passes over it, and is asked whether the search is to end: before each pass
/// and before each branch. The work at the root and the evidence for a bound aren't ended so.
///
/// The error is that memory ran out, by a plugin's word too. It takes memory for a tableau and for the tree with its leaves. A
/// tree of more than `MAX_NODES` nodes, 2^45, is given up with the same error.
pub fn search<P: Proposer, H: Heuristic<P::Hint>, W: Watch + Drop>(
    alloc: Global,
    plugins: &Plugins<'_, P, H>,
    watch: W,
    instance: &Instance,
    ranges: Ranges,
    wanted: Wanted,
) -> Result<Found, AllocError>
    requires budget { 1 ≤ wanted.budget }
    requires oldest { LOTS_CERT_VERSION ≤ wanted.newest }
    requires latest { wanted.newest ≤ MAX_CERT_VERSION }
    requires ranges { AreGiven instance.now ranges }
    requires first { IfSome wanted.first (IsGoodWithin instance.now (given_ranges ranges)) }
    ensures proved { IfOk result (IsProvedWithin instance.now (given_ranges ranges)) }
    ensures plan { IfOk result (λ found.
        IfSome found.plan (IsGoodWithin instance.now (given_ranges ranges))) }
    ensures within { IfOk result (λ found. found.nodes ≤ wanted.budget) }
    ensures kept { IfOk result (λ found. KeepsFirst instance.now wanted.first found.plan) }
    ensures goes { IfOk result (λ found.
        GoesTogether instance.now found.certificate.claim found.plan) }
    ensures cause { IfOk result (λ found. IfBound found.certificate.claim (λ amount.
        WithRows instance.now found
        (IsUndecidedWithin instance.now (given_ranges ranges) wanted.budget wanted.limits
        (W.may_stop watch) found))) }
    ensures evidence { IfOk result (λ found.
        IfBound found.certificate.claim
        (λ amount. WithRows instance.now found
        (HasEvidenceWithin instance.now (given_ranges ranges) found amount))) }
    ensures root { IfOk result (λ found. IsSaidAtRoot instance.now found.root) }
    ensures uncoupled { IfOk result (λ found. found.root ≡ Uncoupled ↔ IsUncoupled instance.now) }
    ensures apart { IfOk result (λ found. IsNoLessThanApart instance.now found.certificate.claim) }
    ensures version { IfOk result (λ found.
        IsVersionOf instance.now wanted.newest (shape_of found.certificate)) }
    ensures whole { IfOk result (λ found. IsWhole instance.now (given_ranges ranges)
        → IsAnswer instance.now wanted (W.may_stop watch) found) }
{
    let said = root(alloc, instance)?;
    let apart = apart(alloc, instance)?;
    let start = Start {
        instance,
        ranges: &ranges,
        said,
        apart,
    };
    let found = answer(alloc, plugins, watch, start, wanted)?;
    Ok(found)
}

/// Searches a best plan of a model, over all ranges, and proves what is found: the certificate is accepted with the plan.
///
/// Of what is `wanted`, `budget` is the most nodes that the certificate's tree may have, branches and leaves. `first` is a plan to
/// begin with: there is one in the answer then, which costs no more. Where the own-period plan is feasible there is one too,
/// which costs no more than that.
///
/// | Claim | Where |
/// |---|---|
/// | `Optimal` | the plan is best and costs this amount of money |
/// | `Infeasible` | no plan is feasible |
/// | `Bound` | every plan costs at least this amount, which is below the cost of the plan, if there is one. The cause is one of four, below |
///
/// A bound is claimed only for one of these causes. Two more nodes would pass the budget. Or all leaves that are left open have
/// the `MAX_BRANCHES` branches above them that a path may have. Or there is a plan, and its cost lies no more than the gap of
/// the limits above the amount, in hundredths of a percent of that cost. Or the watcher may end the search (`may_stop`).
///
/// The text of the certificate is of the least version that has its lines, from the usual one on: the first where the model is
/// plain, and else `LOTS_CERT_VERSION`. It is of none above `newest`: leaves with lines of later versions are not taken.
///
/// No amount is below what the items cost apart or what the root closes to. A bound is said by some leaf; at each leaf
/// that says it, some point of the relaxation without cuts on the path to it costs no more, or that relaxation wasn't
/// found, for the exact cause that `path_relaxation` names, or the root's program was too large to be tried.
///
/// An uncoupled model takes one node, and so does a model of which the root says that its relaxation has no point
/// (`Empty`). A root that is skipped, stopped or passed doesn't say so, and then one node isn't promised. A budget of
/// about twice the number of all choices of quantities and setups decides every model whose largest totals and setups
/// have at most `MAX_BRANCHES` binary digits over all items and periods, where there is no gap and the watcher may not end the
/// search.
///
/// All of it holds for any proposer, heuristic and watcher. Leaves that are proposed are judged, and cuts and places to branch on
/// are tested; a heuristic may put a feasible plan, which costs no more, in the place of the best one. The
/// watcher is told of the nodes of the tree and of the passes over it, and is asked whether the search is to end: before each pass
/// and before each branch. The work at the root and the evidence for a bound aren't ended so.
///
/// The error is that memory ran out, by a plugin's word too. It takes memory for a tableau and for the tree with its leaves. A
/// tree of more than `MAX_NODES` nodes, 2^45, is given up with the same error.
pub fn search_all<P: Proposer, H: Heuristic<P::Hint>, W: Watch + Drop>(
    alloc: Global,
    plugins: &Plugins<'_, P, H>,
    watch: W,
    instance: &Instance,
    wanted: Wanted,
) -> Result<Found, AllocError>
    requires budget { 1 ≤ wanted.budget }
    requires oldest { LOTS_CERT_VERSION ≤ wanted.newest }
    requires latest { wanted.newest ≤ MAX_CERT_VERSION }
    requires first { IfSome wanted.first (IsGoodPlan instance.now) }
    ensures proved { IfOk result (IsProved instance.now) }
    ensures plan { IfOk result (λ found. IfSome found.plan (IsGoodPlan instance.now)) }
    ensures within { IfOk result (λ found. found.nodes ≤ wanted.budget) }
    ensures kept { IfOk result (λ found. KeepsFirst instance.now wanted.first found.plan) }
    ensures own { IfOk result (λ found. KeepsOwn instance.now found.plan) }
    ensures goes { IfOk result (λ found.
        GoesTogether instance.now found.certificate.claim found.plan) }
    ensures cause { IfOk result (λ found. IfBound found.certificate.claim (λ amount.
        WithRows instance.now found
        (IsUndecided instance.now wanted.budget wanted.limits (W.may_stop watch) found))) }
    ensures evidence { IfOk result (λ found.
        IfBound found.certificate.claim
        (λ amount. WithRows instance.now found (HasEvidence instance.now found amount))) }
    ensures root { IfOk result (λ found. IsSaidAtRoot instance.now found.root) }
    ensures uncoupled { IfOk result (λ found. found.root ≡ Uncoupled ↔ IsUncoupled instance.now) }
    ensures uses { IfOk result (λ found. UsesRoot found found.root) }
    ensures apart { IfOk result (λ found. IsNoLessThanApart instance.now found.certificate.claim) }
    ensures complete { IfOk result (λ found.
        DecidesSmall instance.now wanted.budget wanted.limits (W.may_stop watch)
        found.certificate.claim) }
    ensures version { IfOk result (λ found.
        IsVersionOf instance.now wanted.newest (shape_of found.certificate)) }
{
    lie_in_whole(instance);
    let ranges = Ranges::all(alloc, instance)?;
    search(alloc, plugins, watch, instance, ranges, wanted)
}
