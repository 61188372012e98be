// How a search went that ended open, and whether more nodes are worth a try.

use explain_lookup::{line_with, number_at};
use std::alloc::{AllocError, Global};

/// How a search went. Nodes are counted from 1 in the order in which they got their leaves.
#[derive(Clone, Copy, Debug, Default, PartialEq, Eq)]
pub struct Course {
    /// So many nodes have a leaf.
    pub nodes: u64,
    /// The node at which the bound rose last. None where that isn't known.
    pub bound_since: Option<u64>,
    /// The node at which the best plan was found, or the first that came after it. None where there is no plan.
    pub plan_since: Option<u64>,
    /// Whether the time ended it.
    pub is_over: bool,
}

// What ended a search that left the answer open: the number of nodes or the depth of the tree, a gap that is small enough, or the
// time.
#[derive(Clone, Copy)]
enum End {
    Nodes,
    Gap,
    Time,
}

// From which nodes the bound and the plan are, behind a number of nodes; nothing where neither is known.
fn since(alloc: Global, course: Course) -> Result<String, AllocError> {
    match (course.bound_since, course.plan_since) {
        (Some(bound), Some(plan)) => format!(in alloc;
            ": the bound is from node {bound}, the plan from node {plan}"
        ),
        (Some(bound), None) => format!(in alloc; ": the bound is from node {bound}"),
        (None, Some(plan)) => format!(in alloc; ": the plan is from node {plan}"),
        (None, None) => Ok(String::new(alloc)),
    }
}

// Whether bound and plan are known, and neither changed in the second half of the search.
fn has_stopped(course: Course) -> bool {
    let Some(bound) = course.bound_since else {
        return false;
    };
    let last = bound.max(course.plan_since.unwrap_or(0));
    last <= course.nodes / 2
}

// Whether a cost is above a bound by at most so many hundredths of a percent of it.
fn is_near(bound: u128, cost: u128, gap: u32) -> bool {
    let above = cost.saturating_sub(bound).checked_mul(10_000);
    match (above, cost.checked_mul(u128::from(gap))) {
        (Some(above), Some(most)) => above <= most,
        _ => false,
    }
}

// What ended a search, by its line `undecided ..` and the gap that was asked for.
fn end_of(line: &str, course: Course, gap: Option<u32>) -> End {
    match (number_at(line, 1), number_at(line, 3), gap) {
        (Some(bound), Some(cost), Some(gap)) if is_near(bound, cost, gap) => End::Gap,
        _ if course.is_over => End::Time,
        _ => End::Nodes,
    }
}

// What more nodes may be good for.
fn more_nodes(has_plan: bool, has_stopped: bool) -> &'static str {
    match (has_plan, has_stopped) {
        (true, false) => "More may narrow the gap (`--nodes N`).",
        (false, false) => {
            "More may find a plan (`--nodes N`), and a larger `end_max` leaves more room for one."
        }
        (true, true) => {
            "Neither changed in the second half, so more nodes will hardly narrow the gap."
        }
        (false, true) => {
            "It didn't change in the second half, so more nodes will hardly help; a larger `end_max` leaves more room for a plan."
        }
    }
}

// How a search that was ended may be gone on with.
fn advice(
    alloc: Global,
    file: &str,
    end: End,
    has_plan: bool,
    has_stopped: bool,
) -> Result<String, AllocError> {
    match (end, has_plan) {
        (End::Nodes, _) => String::from_str(alloc, more_nodes(has_plan, has_stopped)),
        (End::Gap, _) => format!(in alloc;
            "The gap of `--gap` was reached; `plan` with `--start {file}` goes on from this plan, with a smaller gap or none."
        ),
        (End::Time, true) => format!(in alloc;
            "The time of `--seconds` was up; `plan` with `--start {file}` goes on from this plan."
        ),
        (End::Time, false) => String::from_str(
            alloc,
            "The time of `--seconds` was up. More may find a plan, and a larger `end_max` leaves more room for one.",
        ),
    }
}

/// What may be done about a search that ended open, by what was printed; nothing where no number of nodes was. `file` is the plan
/// file, and `gap` the gap that was asked for, in hundredths of a percent of the cost.
pub(crate) fn on_nodes(
    alloc: Global,
    file: &str,
    printed: &str,
    course: Option<Course>,
    gap: Option<u32>,
) -> Result<String, AllocError> {
    let Some(nodes) = number_at(line_with(printed, "nodes"), 1) else {
        return Ok(String::new(alloc));
    };
    let line = line_with(printed, "undecided");
    let has_plan = number_at(line, 3).is_some();
    let course = course.unwrap_or_default();
    let end = end_of(line, course, gap);
    let since = since(alloc, course)?;
    let advice = advice(alloc, file, end, has_plan, has_stopped(course))?;
    let word = if nodes == 1 { "node" } else { "nodes" };
    format!(in alloc; "The search took {nodes} {word}{since}. {advice}\n")
}
