// The command that words are.
ghost use Rattle.std.specs.Prelude.{◌≡◌, ◌≢◌, IfOk, codes, map, option_map, string_bytes};
ghost use Rattle.clap.specs.Words.{first_of, found_of, kind_of, rows_of, subcommand_rows_of};
ghost use Rattle.clap.specs.declared.error.kind.ErrorKind.TheVariants.{OutOfMemory};
ghost use Rattle.command_line.specs.Meant.{IsRefusedText, request_by, read_as};
ghost use Rattle.command_line.specs.Words.{command_of, request_by_matches, request_in, seconds_of};

use crate::commands::{Command, Reading};
use crate::grammar::planner;
use crate::requests::{self, PlanTexts, ReplanTexts};
use clap::ArgMatches;
use clap::error::{Error, ErrorKind};
use std::alloc::{AllocError, Global};

/// What the words after the program's name are: the command that `clap`'s matches of them give, if its names and
/// numbers are in order, or else no command, as a call for help or for the version.
///
/// Names of files aren't empty, don't begin with `-`, and no two of a command are the same. Numbers are decimal
/// digits with no sign and no 0 before others: a seed is below 2^64, items are 1 to `MAX_ITEMS`, periods 1
/// to `FIRST_VERSION_PERIODS`, the periods that stay below 2^32, and the nodes of `--nodes` 1 to `LARGEST_BUDGET`;
/// without that option they are `USUAL_BUDGET`. The gap of `--gap` is a percentage from 0 to 100 with at most two decimals behind
/// a point, and the seconds of `--seconds` are 1 to `LARGEST_SECONDS`. The version of `--certificate` is `OLDEST_CERTIFICATE` to
/// `NEWEST_CERTIFICATE`; without that option it is the latter. `--progress` changes no command, and of `--full` and
/// `--table` only one is there. The text of help, of the version and of words that `clap` refuses is
/// its own; words that it takes, and whose names or numbers aren't in order, are refused by `refused words` and a
/// line feed.
///
/// `Err` comes where memory runs out. The cost grows with the length of the words.
pub fn read_words<'a>(alloc: Global, words: &'a [String]) -> Result<Reading<'a>, AllocError>
    ensures means { IfOk result (λ r. read_as r ≡ command_of (map string_bytes words.entry.now)) }
    ensures refused { IfOk result (IsRefusedText (map string_bytes words.entry.now)) }
{
    let program = planner(alloc)?;
    match program.try_get_matches_from(words) {
        Ok(matches) => match command_in(&matches) {
            Some(command) => Ok(Reading::Command(command)),
            None => Ok(Reading::Text("refused words\n".to_string(alloc)?)),
        },
        Err(error) => Ok(Reading::Text(text_of_error(alloc, &error)?)),
    }
}

/// The seconds after which the words let the search of a plan end, if they are a plan with `--seconds`. It is for a program that
/// has a clock.
///
/// `Err` comes where memory runs out.
pub fn seconds_asked(alloc: Global, words: &[String]) -> Result<Option<u32>, AllocError>
    ensures { IfOk result (λ seconds. seconds
        ≡ seconds_of (command_of (map string_bytes words.now))) }
{
    match read_words(alloc, words)? {
        Reading::Command(Command::Plan { search, .. }) => Ok(search.seconds),
        _ => Ok(None),
    }
}

// The command that matches give, if its names and numbers are in order.
fn command_in<'a>(matches: &ArgMatches<'a>) -> Option<Command<'a>>
    ensures { option_map request_by result ≡ request_by_matches (subcommand_rows_of matches.now) }
{
    match matches.subcommand() {
        Some((name, given)) => request_in(name, given),
        None => Some(Command::Name),
    }
}

// The text that is printed where a step of the parse stopped at the words: of help, of the version, or of why.
fn text_of_error(alloc: Global, error: &Error) -> Result<String, AllocError>
    ensures { IfOk result (λ _. kind_of error.now ≢ OutOfMemory) }
{
    match error.kind() {
        ErrorKind::OutOfMemory => Err(AllocError),
        _ => error.to_string(alloc),
    }
}

// The text of an argument, if it was given.
fn text_of<'a>(given: &ArgMatches<'a>, id: &str) -> Option<&'a str>
    ensures { option_map (λ s. s.now) result ≡ first_of id.now (rows_of (found_of given.now)) }
{
    given.get_str(id)
}

// What a subcommand asks for.
fn request_in<'a>(name: &str, given: &ArgMatches<'a>) -> Option<Command<'a>>
    ensures { option_map request_by result ≡ request_in name.now (rows_of (found_of given.now)) }
{
    match name {
        "plan" => requests::plan(PlanTexts {
            model: text_of(given, "M"),
            plan: text_of(given, "P"),
            certificate: text_of(given, "C"),
            nodes: text_of(given, "nodes"),
            start: text_of(given, "start"),
            gap: text_of(given, "gap"),
            seconds: text_of(given, "seconds"),
            version: text_of(given, "certificate"),
        }),
        "judge" => requests::judge(text_of(given, "M"), text_of(given, "P")),
        "check" => requests::check(
            text_of(given, "M"),
            text_of(given, "P"),
            text_of(given, "C"),
        ),
        "report" => requests::report(
            text_of(given, "M"),
            text_of(given, "P"),
            text_of(given, "full"),
            text_of(given, "table"),
        ),
        "gen" => requests::generate(
            text_of(given, "N"),
            text_of(given, "ITEMS"),
            text_of(given, "PERIODS"),
            text_of(given, "M"),
        ),
        "demo" => requests::demo(text_of(given, "N")),
        "upgrade" => requests::upgrade(text_of(given, "M"), text_of(given, "M2")),
        "bound" => requests::bound(text_of(given, "M")),
        "schedule" => requests::schedule(
            text_of(given, "M"),
            text_of(given, "P"),
            text_of(given, "S"),
        ),
        "schedcheck" => requests::check_schedule(
            text_of(given, "M"),
            text_of(given, "P"),
            text_of(given, "S"),
        ),
        "peg" => requests::peg(
            text_of(given, "M"),
            text_of(given, "P"),
            text_of(given, "Q"),
        ),
        "complete" => requests::complete(
            text_of(given, "M"),
            text_of(given, "P"),
            text_of(given, "P2"),
        ),
        "draw" => requests::draw(
            text_of(given, "M"),
            text_of(given, "P"),
            text_of(given, "H"),
            text_of(given, "proof"),
        ),
        "replan" => requests::replan(ReplanTexts {
            model: text_of(given, "M"),
            plan: text_of(given, "P"),
            periods: text_of(given, "F"),
            next_model: text_of(given, "M2"),
            next_plan: text_of(given, "P2"),
            certificate: text_of(given, "C"),
            nodes: text_of(given, "nodes"),
        }),
        _ => None,
    }
}
