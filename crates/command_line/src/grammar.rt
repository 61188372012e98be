// The command line as it is declared to `clap`.
ghost use Rattle.std.specs.Prelude.{◌≡◌, IfOk, false, map};
ghost use Rattle.clap.specs.Words.{app_of, rule_of};
ghost use Rattle.clap.specs.declared.builder.command.Command.TheViews.{out-Command};
ghost use Rattle.command_line.specs.Grammar.{argument_rule, base_app, choice, placed, planner_app, subcommand};
ghost use Rattle.command_line.specs.Choices.{choice_of};

use crate::table::{Argument, COMMANDS, Choice, Row};
use clap::{Arg, ArgAction, Command};
use std::alloc::{AllocError, Global};

const VERSION: &str = "1";

const ABOUT: &str = "Plans lots and setups at the least cost, with a certificate that proves it.

Names of files are distinct and don't begin with `-`. With no words it prints its name and version.";

const ENDS: &str = "Ends with
  0   what was asked for is done, and the printed line is proved
  1   no plan exists
  2   undecided
  3   the file is no plan, no certificate or no schedule, or breaks a rule
  4   the words are no command; a call for help or for the version, as this, is none
  5   the model is refused
  6   a file is absent
  7   a file could not be read
  8   a file could not be written
  9   the lines could not be printed
  10  out of memory
  11  a file is too long
  13  the later periods make no model

Example: lotplan plan model.toml plan.csv plan.cert";

fn required<'a>(alloc: Global, argument: Argument) -> Arg<'a>
    ensures rule { rule_of result ≡ argument_rule argument.id.now }
    ensures local { result.global ≡ false }
{
    Arg::new(alloc, argument.id)
        .required(true)
        .help(argument.help)
}

// An option, with a text or without.
fn optional<'a>(alloc: Global, given: Choice) -> Arg<'a>
    ensures rule { rule_of result ≡ choice (choice_of given) }
    ensures local { result.global ≡ false }
{
    let option = Arg::new(alloc, given.id).long(given.id).help(given.help);
    match given.text {
        Some(text) => option.value_name(text),
        None => option.action(ArgAction::SetTrue),
    }
}

// The command of a row, without its options.
#[tactic(auto, using(crate::proofs::Rows::argument_more))]
fn placed<'a>(alloc: Global, row: Row) -> Result<Command<'a>, AllocError>
    ensures shape { IfOk result (λ c. app_of c
        ≡ placed row.name.now (map (λ a. a.id.now) row.arguments.now)) }
    ensures local { IfOk result (λ c. (out-Command c).has_globals ≡ false) }
{
    let mut command = Command::new(alloc, row.name)
        .about(row.about)
        .after_help(row.prints);
    for argument in row.arguments {
        command = command.arg(required(alloc, *argument))?;
    }
    Ok(command)
}

// The command of a row.
#[tactic(auto, using(crate::proofs::Rows::option_more))]
fn command<'a>(alloc: Global, row: Row) -> Result<Command<'a>, AllocError>
    ensures shape { IfOk result (λ c. app_of c
        ≡ subcommand row.name.now (map (λ a. a.id.now) row.arguments.now)
        (map choice_of row.options.now)) }
    ensures local { IfOk result (λ c. (out-Command c).has_globals ≡ false) }
{
    let mut command = placed(alloc, row)?;
    for option in row.options {
        command = command.arg(optional(alloc, *option))?;
    }
    Ok(command)
}

// The program, before its commands.
fn base<'a>(alloc: Global) -> Result<Command<'a>, AllocError>
    ensures { IfOk result (λ c. app_of c ≡ base_app) }
{
    Command::new(alloc, "lotplan")
        .no_binary_name(true)
        .disable_help_subcommand(true)
        .version(VERSION)
        .about(ABOUT)
        .after_help(ENDS)
        .bin_name("lotplan")
}

// The program with a command for each row of the table.
#[tactic(auto, using(crate::proofs::Rows::row_more))]
pub(crate) fn planner<'a>(alloc: Global) -> Result<Command<'a>, AllocError>
    ensures { IfOk result (λ c. app_of c ≡ planner_app) }
{
    let mut program = base(alloc)?;
    for row in COMMANDS {
        program = program.subcommand(command(alloc, row)?)?;
    }
    Ok(program)
}
