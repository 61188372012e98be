// Words on what `plan`, `bound` and `check` answer.

use crate::course::{Course, on_nodes};
use crate::gap::percent;
use crate::reasons::reason;
use explain_lookup::{line_with, number_at, plain, word_at};
use lot_model::Instance;
use std::alloc::{AllocError, Global};

// What is said of a plan file that wasn't written.
fn unwritten(alloc: Global, file: &str) -> Result<String, AllocError> {
    format!(in alloc; "No plan was written: {file} is as it was.\n")
}

// Words on a model that has no plan.
fn on_infeasible(alloc: Global, instance: &Instance) -> Result<String, AllocError> {
    match reason(alloc, instance)? {
        Some(words) => Ok(words),
        None => String::from_str(
            alloc,
            "No plan meets all rules, and no item or resource shows why by itself: they do so together. Raise `capacity`, `end_max` or `opening` until there is a plan, and lower them one by one.\n",
        ),
    }
}

// Words on a plan that may be too dear.
fn on_gap(alloc: Global, file: &str, bound: u128, cost: u128) -> Result<String, AllocError> {
    let (most, share) = (cost.saturating_sub(bound), percent(alloc, bound, cost)?);
    format!(in alloc;
        "The plan in {file} is good for use: it costs {cost}, and no plan costs less than {bound}, so it is too dear by {most} at most, {share} percent.\n"
    )
}

// Words on a search that ended open.
fn on_undecided(alloc: Global, file: &str, line: &str) -> Result<String, AllocError> {
    let Some(bound) = number_at(line, 1) else {
        return Ok(String::new(alloc));
    };
    if let Some(cost) = number_at(line, 3) {
        return on_gap(alloc, file, bound, cost);
    }
    let mut words = format!(in alloc;
        "No plan was found, and none was shown to be impossible; one would cost at least {bound}.\n"
    )?;
    words.push_str(unwritten(alloc, file)?.as_str())?;
    Ok(words)
}

// What a root line means that gives no bound.
fn on_root(line: &str) -> &'static str {
    match word_at(line, 1) {
        "skipped" => {
            "`root skipped`: the model is too large for the linear program at the root; bounds come from the other nodes alone.\n"
        }
        "stopped" => {
            "`root stopped`: the linear program at the root wasn't solved within its limit of steps; bounds come from the other nodes alone.\n"
        }
        "passed" => {
            "`root passed`: a number of the linear program at the root grew past 128 bits; nothing is wrong with the model, and bounds come from the other nodes alone.\n"
        }
        _ => "",
    }
}

// Words on what `bound` answers of a model without a bound.
fn on_no_bound(word: &str) -> &'static str {
    match word {
        "skipped" => {
            "The model is too large for the linear program of `bound`: it would have more than 2,000,000 cells. `plan` gives a bound.\n"
        }
        "passed" => {
            "A number of the linear program grew past 128 bits, so that it says no bound; nothing is wrong with the model. `plan` gives a bound.\n"
        }
        _ => "",
    }
}

// Words on an answer of `plan` that leaves the search open.
fn on_open(
    alloc: Global,
    file: &str,
    printed: &str,
    course: Option<Course>,
    gap: Option<u32>,
) -> Result<String, AllocError> {
    let mut words = on_undecided(alloc, file, line_with(printed, "undecided"))?;
    words.push_str(on_nodes(alloc, file, printed, course, gap)?.as_str())?;
    words.push_str(on_root(line_with(printed, "root")))?;
    Ok(words)
}

/// Words on an answer: `infeasible`, `undecided ..` with the lines above it, what `bound` prints where it has no bound, and
/// `accepted ..` of a certificate that claims no plan's cost; none where what was printed says nothing of these.
///
/// `file` is the plan file of the command, `course` how its search went, where that is known, and `gap` the gap that it asked for, in
/// hundredths of a percent of the cost. A reason why there is no plan is one that a single item or resource shows: too
/// much opening stock, too long a lead time, a least lot without room, too little time on a resource up to some period.
/// It takes time in the number of items times that of periods times those of items and resources.
pub fn words_on_answer(
    alloc: Global,
    instance: &Instance,
    file: &str,
    printed: &str,
    course: Option<Course>,
    gap: Option<u32>,
) -> Result<String, AllocError> {
    let name = plain(alloc, file)?;
    let file = name.as_str();
    if !line_with(printed, "undecided").is_empty() {
        return on_open(alloc, file, printed, course, gap);
    }
    if !line_with(printed, "infeasible").is_empty() {
        let mut words = on_infeasible(alloc, instance)?;
        words.push_str(unwritten(alloc, file)?.as_str())?;
        return Ok(words);
    }
    match word_at(printed, 0) {
        "empty" => on_infeasible(alloc, instance),
        "accepted" if word_at(printed, 1) == "bound" || word_at(printed, 1) == "infeasible" => {
            format!(in alloc; "{file} was not read: the certificate claims no plan's cost.\n")
        }
        word => String::from_str(alloc, on_no_bound(word)),
    }
}
