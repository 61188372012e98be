// Words on a certificate that was rejected.

use explain_lookup::{number_at, plain, quoted, word_at};
use std::alloc::{AllocError, Global};

// A line of a file, counted from 1, without its line feed. None where there is none.
fn line_of(bytes: &[u8], number: u128) -> Option<&[u8]> {
    if bytes.is_empty() {
        return None;
    }
    let mut count = 0u128;
    for line in bytes.split(|byte| *byte == b'\n') {
        count = count.saturating_add(1);
        if count == number {
            return Some(line);
        }
    }
    None
}

// Whether a file's second line claims something else than a plan's cost.
fn claims_no_cost(bytes: &[u8]) -> bool {
    match line_of(bytes, 2) {
        Some(line) => {
            line.starts_with(b"claim bound".as_slice())
                || line.starts_with(b"claim infeasible".as_slice())
        }
        None => false,
    }
}

// What a code says of the line at which it was found.
fn meaning(code: &str) -> &'static str {
    match code {
        "C1" => {
            "A certificate begins with a line `lotcert 1`, `lotcert 2` or `lotcert 3`, one with its claim, and one with the number of its cuts. The file is none, or was changed by hand.\nPlan again.\n"
        }
        "C2" => {
            "No line of a certificate looks like this. The file is cut off, or was changed by hand.\nPlan again.\n"
        }
        "C3" => {
            "Another line is wanted there. The file is cut off, or was changed by hand.\nPlan again.\n"
        }
        "C11" => "The tree is deeper than 2,000 branches there.\n",
        "C4" => {
            "It speaks of an item, a period or a row that the model hasn't. Mostly the certificate is one of another model, or the model was changed since.\nPlan again.\n"
        }
        "C7" => {
            "It shows less than the certificate claims. Mostly the model was changed since, or is another one.\nPlan again.\n"
        }
        "C14" => {
            "The inequality holds for items without lead times alone. Mostly the model was changed since.\nPlan again.\n"
        }
        "C5" =>
            "A row that is no equation is taken a negative number of times: the certificate proves nothing.\n",
        "C6" =>
            "A column is taken more often than the leaf allows: the certificate proves nothing of this model.\nMostly the model was changed since. Plan again.\n",
        "C8" =>
            "The leaf leaves a quantity or a setup more than one value: the certificate proves nothing.\n",
        "C9" =>
            "The potentials rise by more than the block costs: the certificate proves nothing of this model.\nMostly the model was changed since. Plan again.\n",
        "C10" => "Its numbers add up to 2^127 or more: the certificate can't be checked.\n",
        "C15" =>
            "Finding the number of the group is past the limits of work: the certificate can't be checked.\n",
        _ => "",
    }
}

// Words on the line of a file at which something is wrong.
fn on_line(
    alloc: Global,
    file: &str,
    bytes: &[u8],
    code: &str,
    number: u128,
) -> Result<String, AllocError> {
    let sentence = meaning(code);
    if sentence.is_empty() {
        return Ok(String::new(alloc));
    }
    let mut words = match line_of(bytes, number) {
        Some(line) if !line.is_empty() => {
            let shown = quoted(alloc, line)?;
            format!(in alloc; "{file}, line {number}: {shown}\n")?
        }
        Some(_) => format!(in alloc;
            "{file}, line {number}: the line is empty, or the file ends there\n"
        )?,
        None => format!(in alloc; "{file}, line {number}:\n")?,
    };
    words.push_str(sentence)?;
    Ok(words)
}

// Words on a plan whose cost isn't the one that is claimed.
fn on_cost(alloc: Global, line: &str) -> Result<String, AllocError> {
    match (number_at(line, 2), number_at(line, 3)) {
        (Some(cost), Some(claimed)) => {
            format!(in alloc;
                "The plan costs {cost}, and the certificate claims {claimed}: it is a certificate of another plan.\nCheck the plan that was written with it, or plan again.\n"
            )
        }
        _ => Ok(String::new(alloc)),
    }
}

/// Words on a certificate that was rejected; none where the line says nothing of one.
///
/// `line` is what was printed: `rejected C ..`. The bytes may be none where the file is too long to be read whole; the words then
/// don't show the line at fault.
pub fn words_on_certificate(
    alloc: Global,
    file: &str,
    bytes: &[u8],
    line: &str,
) -> Result<String, AllocError> {
    if word_at(line, 0) != "rejected" {
        return Ok(String::new(alloc));
    }
    if word_at(line, 1) == "C12" {
        return on_cost(alloc, line);
    }
    let Some(number) = number_at(line, 3) else {
        return Ok(String::new(alloc));
    };
    let name = plain(alloc, file)?;
    let mut words = on_line(alloc, name.as_str(), bytes, word_at(line, 1), number)?;
    if !words.is_empty() && claims_no_cost(bytes) {
        words.push_str("The plan was not read: the certificate claims no plan's cost.\n")?;
    }
    Ok(words)
}
