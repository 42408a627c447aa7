//! The program as `clap` knows it, made from the table of commands.
//!
//! ```text
//! each row of the table ──┬─ name and help texts ──┬─ command ── program with its commands
//!                         └─ rows of arguments ────┘
//! ```

ghost use Rattle.std.specs.Prelude.{◌≡◌, ◌∷◌, [], IfOk, map, true, false};
ghost use Rattle.clap.specs.Words.{app_of, rule_of, shape_of};
ghost use Rattle.clap.specs.declared.builder.command.Command.TheViews.{out-Command as fields_of};
ghost use Rattle.arguments.specs.Application.{census_app, named, placed, program, rule_in, shape_in};
ghost use Rattle.arguments.specs.Application.{with_commands, with_rules};
ghost use Rattle.arguments.specs.Entries.{command_of, entry_of};
ghost use Rattle.arguments.specs.Table.{commands, gather_command, name_command, run_command, show_command};
ghost use Rattle.arguments.specs.Table.{soup_command, take_command, work_command};

use crate::commands::{CommandRow, GATHER, NAME, RUN, SHOW, SOUP, TAKE, WORK};
use crate::options::{Parameter, Place, ValueKind};
use clap::builder::ValueParser;
use clap::{Arg, ArgAction, Command};
use memory::OutOfMemory;
use requests::version::VERSION;
use std::alloc::Global;

/// What help says about the program.
const ABOUT: &str = "Runs soups and patterns of Conway's Game of Life and other Life-like rules,\n\
         and names, draws and counts the objects that they leave";

/// What help shows after the commands.
const EXAMPLES: &str = "To begin with:\n  \
         census take --seed abc --count 100     a census of 100 soups\n  \
         census soup --seed abc 12              one of its soups\n  \
         census show xs7_178c                   draws an object\n\n\
         Run `census help take` for details of a command.";

/// Returns the program as `clap` knows it, with all its commands.
///
/// # Errors
///
/// `OutOfMemory` if memory runs out.
pub fn census_command<'a>(alloc: Global) -> Result<Command<'a>, OutOfMemory>
    ensures { IfOk result (λ command. app_of command ≡ census_app) }
{
    with_commands(alloc, program(alloc), &rows())
}

/// Returns the rows of all commands, in the order in which help lists them. The long rows have functions of their own,
/// because one function with all rows takes twice as long to prove.
fn rows() -> [CommandRow; 7]
    ensures { map command_of result ≡ commands }
{
    let [run, name, show, soup] = short_rows();
    [run, name, show, soup, take_row(), work_row(), gather_row()]
}

/// Returns the rows of `run`, `name`, `show` and `soup`.
fn short_rows() -> [CommandRow; 4]
    ensures { map command_of result ≡ run_command ∷ name_command ∷ show_command ∷ soup_command ∷ [] }
{
    [RUN, NAME, SHOW, SOUP]
}

/// Returns the row of `take`.
fn take_row() -> CommandRow
    ensures { command_of result ≡ take_command }
{
    TAKE
}

/// Returns the row of `work`.
fn work_row() -> CommandRow
    ensures { command_of result ≡ work_command }
{
    WORK
}

/// Returns the row of `gather`.
fn gather_row() -> CommandRow
    ensures { command_of result ≡ gather_command }
{
    GATHER
}

/// Returns the program without its commands. The program requires a command, and shows help if it is called without
/// arguments.
fn program<'a>(alloc: Global) -> Command<'a>
    ensures { app_of result ≡ program }
{
    Command::new(alloc, "census")
        .about(ABOUT)
        .version(VERSION)
        .after_help(EXAMPLES)
        .subcommand_required(true)
        .arg_required_else_help(true)
}

/// Adds the commands of these rows to the program, in this order.
fn with_commands<'a>(
    alloc: Global,
    program: Command<'a>,
    rows: &[CommandRow],
) -> Result<Command<'a>, OutOfMemory>
    ensures { IfOk result (λ new.
        app_of new ≡ with_commands (app_of program.entry) (map shape_in (map command_of rows.now))) }
{
    let mut program = program;
    for row in rows {
        let command = command(alloc, row)?;
        program = program.subcommand(command)?;
    }
    Ok(program)
}

/// Returns the command of a row.
fn command<'a>(alloc: Global, row: &CommandRow) -> Result<Command<'a>, OutOfMemory>
    ensures shape { IfOk result (λ command. shape_of command ≡ shape_in (command_of row.now)) }
    ensures local { IfOk result (λ command. (fields_of command).has_globals ≡ false) }
{
    let command = Command::new(alloc, row.name)
        .about(row.about)
        .long_about(row.long_about)
        .after_help(row.after_help);
    with_parameters(alloc, command, row.parameters)
}

/// Adds the arguments of these rows to the command, in this order.
fn with_parameters<'a>(
    alloc: Global,
    command: Command<'a>,
    rows: &[Parameter],
) -> Result<Command<'a>, OutOfMemory>
    ensures app { IfOk result (λ new.
        app_of new ≡ with_rules (app_of command.entry) (map rule_in (map entry_of rows.now))) }
    ensures local { (fields_of command.entry).has_globals ≡ false →
        IfOk result (λ new. (fields_of new).has_globals ≡ false) }
{
    let mut command = command;
    for row in rows {
        command = command.arg(parameter(alloc, row))?;
    }
    Ok(command)
}

/// Returns the argument of a row.
fn parameter<'a>(alloc: Global, row: &Parameter) -> Arg<'a>
    ensures rule { rule_of result ≡ rule_in (entry_of row.now) }
    ensures local { result.global ≡ false }
{
    match row.kind {
        ValueKind::Text => with_value(alloc, row),
        ValueKind::Flag => Arg::new(alloc, row.name)
            .long(row.name)
            .action(ArgAction::SetTrue)
            .help(row.help),
        ValueKind::Number(least, most) => {
            with_value(alloc, row).value_parser(ValueParser::unsigned(least, most))
        }
        ValueKind::OptionalNumber(least, most) => {
            with_place(alloc, row).value_parser(ValueParser::unsigned(least, most))
        }
    }
}

/// Returns the argument of a row. The argument takes any text as its value, and is required if the row has no default.
fn with_value<'a>(alloc: Global, row: &Parameter) -> Arg<'a>
    ensures rule { rule_of result ≡ placed (entry_of row.now) }
    ensures local { result.global ≡ false }
{
    let parameter = with_place(alloc, row);
    match row.default {
        Some(text) => parameter.default_value(text),
        None => parameter.required(true),
    }
}

/// Returns the argument of a row with its name, its place and its help, but without a default or a range.
fn with_place<'a>(alloc: Global, row: &Parameter) -> Arg<'a>
    ensures rule { rule_of result ≡ named (entry_of row.now) }
    ensures local { result.global ≡ false }
{
    let parameter = Arg::new(alloc, row.name).help(row.help);
    let parameter = match row.heading {
        Some(heading) => parameter.help_heading(heading),
        None => parameter,
    };
    match row.place {
        Place::Position => parameter,
        Place::Named(shown) => parameter.long(row.name).value_name(shown),
    }
}
