// The files of a command, and what they hold.
ghost use Rattle.lot_io.specs.Outside.{OnlyReads};

use command_line::{Command, Names, Reading, Search, read_words};
use explain_lookup::word_at;
use instance_reader::{ReadModelFault, read_instance};
use lot_io::{ReadFault, Shelf, read_file};
use lot_model::Instance;
use plan_file::MAX_FILE;
use std::alloc::{AllocError, Global};

/// The files of a command; a name is empty where the command has none such.
#[derive(Clone, Copy, Debug)]
pub(crate) struct Files<'a> {
    /// The model file.
    pub(crate) model: &'a str,
    /// The plan file.
    pub(crate) plan: &'a str,
    /// The certificate or the schedule.
    pub(crate) other: &'a str,
    /// The model file and the plan file of the later periods, where first ones stay.
    pub(crate) later: Option<(&'a str, &'a str)>,
    /// The gap at which the search may end, in hundredths of a percent of the cost.
    pub(crate) gap: Option<u32>,
}

// The plan file of a plan that what was printed is about: where it names a fault of one, the file to start from.
fn planned_file<'a>(names: Names<'a>, search: Search<'a>, printed: &str) -> &'a str {
    match (search.start, word_at(printed, 0)) {
        (Some(start), "plan") | (Some(start), "broken") => start,
        _ => names.plan,
    }
}

// The files of a command that reads a model, and which printed this.
fn files_of<'a>(command: Command<'a>, printed: &str) -> Option<Files<'a>> {
    match command {
        Command::Plan { names, search } => Some(Files {
            model: names.model,
            plan: planned_file(names, search, printed),
            other: names.certificate,
            later: None,
            gap: search.gap,
        }),
        Command::Check(names) => Some(Files {
            model: names.model,
            plan: names.plan,
            other: names.certificate,
            later: None,
            gap: None,
        }),
        Command::Judge(names) | Command::Report { names, .. } => Some(Files {
            model: names.model,
            plan: names.plan,
            other: "",
            later: None,
            gap: None,
        }),
        Command::Schedule(names) | Command::CheckSchedule(names) => Some(Files {
            model: names.model,
            plan: names.plan,
            other: names.schedule,
            later: None,
            gap: None,
        }),
        Command::Peg(names) => Some(Files {
            model: names.model,
            plan: names.plan,
            other: "",
            later: None,
            gap: None,
        }),
        Command::Draw { names, certificate } => Some(Files {
            model: names.model,
            plan: names.plan,
            other: certificate.unwrap_or(""),
            later: None,
            gap: None,
        }),
        Command::Replan { names, .. } => Some(Files {
            model: names.model,
            plan: names.plan,
            other: names.certificate,
            later: Some((names.next_model, names.next_plan)),
            gap: None,
        }),
        // What is completed is a table, and no plan file that words on plans could be about.
        Command::Complete(names) => Some(Files {
            model: names.model,
            plan: "",
            other: "",
            later: None,
            gap: None,
        }),
        Command::Upgrade(names) => Some(Files {
            model: names.model,
            plan: "",
            other: "",
            later: None,
            gap: None,
        }),
        Command::Bound(model) => Some(Files {
            model,
            plan: "",
            other: "",
            later: None,
            gap: None,
        }),
        Command::Name | Command::Generate { .. } | Command::Demo(_) => None,
    }
}

/// The files that words name which printed this. None where they are no command, or one that reads no model.
pub(crate) fn named_files<'a>(
    alloc: Global,
    words: &'a [String],
    printed: &str,
) -> Result<Option<Files<'a>>, AllocError> {
    match read_words(alloc, words) {
        Ok(Reading::Command(command)) => Ok(files_of(command, printed)),
        Ok(Reading::Text(_)) => Ok(None),
        Err(_) => Err(AllocError),
    }
}

/// What a file holds. None where it can't be read whole.
pub(crate) fn bytes_in<S: Shelf>(
    alloc: Global,
    shelf: &mut S,
    name: &str,
) -> Result<Option<Vec<u8>>, AllocError>
    ensures { OnlyReads (S.shown shelf.old) (S.shown shelf.new) }
{
    match read_file(alloc, shelf, name, MAX_FILE) {
        Ok(bytes) => Ok(Some(bytes)),
        Err(ReadFault::Memory) => Err(AllocError),
        Err(_) => Ok(None),
    }
}

/// The model in a file. None where it holds none.
pub(crate) fn model_in<S: Shelf>(
    alloc: Global,
    shelf: &mut S,
    name: &str,
) -> Result<Option<Instance>, AllocError>
    ensures { OnlyReads (S.shown shelf.old) (S.shown shelf.new) }
{
    let Some(bytes) = bytes_in(alloc, shelf, name)? else {
        return Ok(None);
    };
    match read_instance(alloc, bytes.as_slice()) {
        Ok(instance) => Ok(Some(instance)),
        Err(ReadModelFault::Memory) => Err(AllocError),
        Err(_) => Ok(None),
    }
}
