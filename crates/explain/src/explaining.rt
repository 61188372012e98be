// Words on a run, by what it printed.
ghost use Rattle.lot_io.specs.Outside.{OnlyReads};

use crate::files::{Files, bytes_in, model_in, named_files};
use crate::same_file::on_same_file;
use crate::word_words::on_words;
use explain_answer::{Course, words_on_answer, words_on_certificate};
use explain_lookup::word_at;
use explain_model::words_on_model;
use explain_plan::{words_on_plan, words_on_schedule};
use lot_io::Shelf;
use lot_model::Instance;
use plan_file::{PlanFault, read_plan};
use plan_rules::Plan;
use std::alloc::{AllocError, Global};

/// What was seen of a run beside its lines.
#[derive(Clone, Copy, Debug, Default, PartialEq, Eq)]
pub struct Seen<'a> {
    /// An output that wasn't written, and the other name of the same file.
    pub same: Option<(&'a str, &'a str)>,
    /// How the search went, where there was one.
    pub course: Option<Course>,
}

// The statuses that no printed line tells: nothing is wrong, the words were no command or asked for help, the lines could not be
// printed, and memory ran out.
const DONE: u8 = 0;

const NO_COMMAND: u8 = 4;

const UNPRINTED: u8 = 9;

const NO_MEMORY: u8 = 10;

// Words on a file that gave no bytes or took none; nothing where the line says nothing of one.
fn on_access(word: &str) -> &'static str {
    match word {
        "missing" =>
            "There is no such file, seen from the folder in which the program was started.\n",
        "read" => "It may be a folder, or you may not have the right to read it.\n",
        "write" => {
            "The folder may not be there, you may not have the right to write, or the disk may be full.\n"
        }
        "long" =>
            "A model, a plan or a schedule has at most 16,777,216 bytes. It may be another file than you meant.\n",
        _ => "",
    }
}

// Words on a line `refused ..` that names a file.
fn on_file(
    alloc: Global,
    files: Option<Files<'_>>,
    printed: &str,
    seen: Seen<'_>,
) -> Result<String, AllocError> {
    match (word_at(printed, 1), seen.same) {
        ("write", Some((name, other))) => on_same_file(alloc, files, name, other),
        (word, _) => String::from_str(alloc, on_access(word)),
    }
}

// Words on a line `refused ..`.
fn on_refusal<S: Shelf>(
    alloc: Global,
    files: Files<'_>,
    printed: &str,
    seen: Seen<'_>,
    shelf: &mut S,
) -> Result<String, AllocError>
    ensures { OnlyReads (S.shown shelf.old) (S.shown shelf.new) }
{
    if word_at(printed, 1) != "model" {
        return on_file(alloc, Some(files), printed, seen);
    }
    match bytes_in(alloc, shelf, files.model)? {
        Some(bytes) => words_on_model(alloc, files.model, bytes.as_slice(), printed.trim()),
        None => Ok(String::new(alloc)),
    }
}

// Words on a plan file.
fn on_plan_file<S: Shelf>(
    alloc: Global,
    instance: &Instance,
    files: Files<'_>,
    printed: &str,
    shelf: &mut S,
) -> Result<String, AllocError>
    ensures { OnlyReads (S.shown shelf.old) (S.shown shelf.new) }
{
    match bytes_in(alloc, shelf, files.plan)? {
        Some(bytes) => words_on_plan(alloc, instance, files.plan, bytes.as_slice(), printed),
        None => Ok(String::new(alloc)),
    }
}

// The plan in a file. None where it holds none.
fn plan_in<S: Shelf>(
    alloc: Global,
    instance: &Instance,
    name: &str,
    shelf: &mut S,
) -> Result<Option<Plan>, AllocError>
    ensures { OnlyReads (S.shown shelf.old) (S.shown shelf.new) }
{
    let Some(bytes) = bytes_in(alloc, shelf, name)? else {
        return Ok(None);
    };
    match read_plan(alloc, instance, bytes.as_slice()) {
        Ok(plan) => Ok(Some(plan)),
        Err(PlanFault::Memory) => Err(AllocError),
        Err(_) => Ok(None),
    }
}

// Words on a schedule file.
fn on_schedule_file<S: Shelf>(
    alloc: Global,
    instance: &Instance,
    files: Files<'_>,
    printed: &str,
    shelf: &mut S,
) -> Result<String, AllocError>
    ensures { OnlyReads (S.shown shelf.old) (S.shown shelf.new) }
{
    let plan = plan_in(alloc, instance, files.plan, shelf)?;
    match bytes_in(alloc, shelf, files.other)? {
        Some(bytes) => words_on_schedule(
            alloc,
            instance,
            plan.as_ref(),
            files.other,
            bytes.as_slice(),
            printed,
        ),
        None => Ok(String::new(alloc)),
    }
}

// Words on a certificate file.
fn on_certificate_file<S: Shelf>(
    alloc: Global,
    files: Files<'_>,
    printed: &str,
    shelf: &mut S,
) -> Result<String, AllocError>
    ensures { OnlyReads (S.shown shelf.old) (S.shown shelf.new) }
{
    match bytes_in(alloc, shelf, files.other)? {
        Some(bytes) => words_on_certificate(alloc, files.other, bytes.as_slice(), printed),
        None => words_on_certificate(alloc, files.other, &[], printed),
    }
}

// Words on what was printed of a model that was read.
fn on_model_read<S: Shelf>(
    alloc: Global,
    instance: &Instance,
    files: Files<'_>,
    printed: &str,
    seen: Seen<'_>,
    shelf: &mut S,
) -> Result<String, AllocError>
    ensures { OnlyReads (S.shown shelf.old) (S.shown shelf.new) }
{
    match (word_at(printed, 0), word_at(printed, 1)) {
        ("plan", _) | ("broken", _) => on_plan_file(alloc, instance, files, printed, shelf),
        ("slot", _) | ("rejected", "slot") => {
            on_schedule_file(alloc, instance, files, printed, shelf)
        }
        ("rejected", _) if word_at(printed, 2) == "broken" => {
            on_plan_file(alloc, instance, files, printed, shelf)
        }
        ("rejected", _) => on_certificate_file(alloc, files, printed, shelf),
        _ => words_on_answer(alloc, instance, files.plan, printed, seen.course, files.gap),
    }
}

// Words on what a command printed.
fn on_printed<S: Shelf>(
    alloc: Global,
    files: Files<'_>,
    printed: &str,
    seen: Seen<'_>,
    shelf: &mut S,
) -> Result<String, AllocError>
    ensures { OnlyReads (S.shown shelf.old) (S.shown shelf.new) }
{
    if word_at(printed, 0) == "refused" {
        return on_refusal(alloc, files, printed, seen, shelf);
    }
    match model_in(alloc, shelf, files.model)? {
        Some(instance) => on_model_read(alloc, &instance, files, printed, seen, shelf),
        None => Ok(String::new(alloc)),
    }
}

// Words on the line of a later part that makes no model, by the word after `refused rest`.
fn on_rest(word: &str) -> &'static str {
    match word {
        "first" =>
            "No period is left to be planned: the number of periods that stay has to be less than `periods`.\n",
        "lead" =>
            "An item has a lead time. Its lots on the way would have to be carried over, which `replan` can't do. Write the later \
             periods as a model of their own, with what is on the way taken off their demand.\n",
        _ =>
            "What the first periods leave in stock, or owe, is more than a model may have. Choose larger units, or other first \
             periods.\n",
    }
}

// Words on what was printed where first periods stay and later ones are planned.
fn on_replanned<'a, S: Shelf>(
    alloc: Global,
    files: Files<'a>,
    later: (&'a str, &'a str),
    printed: &str,
    seen: Seen<'_>,
    shelf: &mut S,
) -> Result<String, AllocError>
    ensures { OnlyReads (S.shown shelf.old) (S.shown shelf.new) }
{
    match (word_at(printed, 0), word_at(printed, 1)) {
        ("refused", "rest") => String::from_str(alloc, on_rest(word_at(printed, 2))),
        ("infeasible", _) => String::from_str(
            alloc,
            "The first periods can't stay as the plan file has them: a resource has too little time for them, a lot has no setup, or \
             something is owed that may not be late. `judge` names the first rule that the plan breaks. No file was written.\n",
        ),
        ("root", _) => {
            let files = Files {
                model: later.0,
                plan: later.1,
                other: files.other,
                later: None,
                gap: None,
            };
            on_printed(alloc, files, printed, seen, shelf)
        }
        _ => on_printed(alloc, files, printed, seen, shelf),
    }
}

/// Words on a run with these words, which ended with this status and printed this, and of which this was seen; none for the
/// status 0, and for the status 4 only where words are refused that make a command.
///
/// Each sentence ends with a line feed. The files that the words name are read again, so what was changed since is seen as it is now.
/// Where the files don't show what the line says, there are no words. The error is want of memory.
pub fn explain<S: Shelf>(
    alloc: Global,
    words: &[String],
    status: u8,
    printed: &str,
    seen: Seen<'_>,
    shelf: &mut S,
) -> Result<String, AllocError>
    ensures reads { OnlyReads (S.shown shelf.old) (S.shown shelf.new) }
{
    match status {
        DONE => Ok(String::new(alloc)),
        NO_COMMAND if printed.trim() == "refused words" => on_words(alloc, words),
        NO_COMMAND => Ok(String::new(alloc)),
        UNPRINTED => String::from_str(alloc, "The lines of the answer could not be printed.\n"),
        NO_MEMORY => String::from_str(alloc, "Memory ran out. No file was changed.\n"),
        _ => match named_files(alloc, words, printed)? {
            Some(files) => match files.later {
                Some(later) => on_replanned(alloc, files, later, printed, seen, shelf),
                None => on_printed(alloc, files, printed, seen, shelf),
            },
            None => on_file(alloc, None, printed, seen),
        },
    }
}
