//! Reads the arguments of a call: the result is a request, or an error with its text.
//!
//! ```text
//! arguments ──┬─ only --version or -V ──────────────────> Request::Version
//!             └─ clap ──┬─ a command with its values ──> its request
//!                       └─ an error ──────────────────> a text that ends with a line feed, or out of memory
//! ```

ghost use Rattle.std.specs.Prelude.{◌≡◌, ◌≢◌, ◌<◌, false, None, Some, IfOk, IfErr, IfSome, IsTrue, length, map};
ghost use Rattle.std.specs.Prelude.{option_and_then, string_bytes};
ghost use Rattle.memory.specs.Witness.{out_of_memory};
ghost use Rattle.clap.specs.Words.{found_of, kind_of, rows_of, subcommand_rows_of};
ghost use Rattle.arguments.specs.Calls.{AskForTheirValues, AsksForVersion, NoCommandAsksForNothing};
ghost use Rattle.arguments.specs.Calls.{OthersAskForNothing};
ghost use Rattle.arguments.specs.Unasked.{IsUsage, IsUsageText, SaysWhy};
ghost use Rattle.arguments.specs.Requests.{AreInTheirRanges, asked_by, asks_version, request_in};

use crate::application::census_command;
use crate::reading::{
    gather_request, name_request, run_request, show_request, soup_request, take_request,
    work_request,
};
use crate::request::Request;
use clap::ArgMatches;
use clap::error::ErrorKind;
use memory::OutOfMemory;
use std::alloc::Global;
use std::convert::AsStr;

/// The usage text if the text of `clap`'s error is empty.
const NOT_UNDERSTOOD: &str = "error: the words are not understood";

/// The usage text if `clap` finds no fault, but the arguments give no request. This happens only if arguments of `run`
/// contradict each other.
const CONTRADICTION: &str =
    "error: `--sizes` can't be used with `--coordinates`, and its FROM is at most N\n\n\
    For more information, try '--help'.";

/// Why arguments give no request.
#[derive(Debug, Drop)]
pub enum Unasked {
    /// The arguments weren't understood, contradict each other, or ask for help. The text ends with a line feed.
    Usage(String),
    /// Memory ran out while `clap` read the arguments.
    Unread(clap::Error),
    /// Memory ran out for the table of commands, or for a text.
    Memory(OutOfMemory),
}

impl<E: Into<OutOfMemory>> From<E> for Unasked {
    ghost use Rattle.arguments.specs.declared.calls.Unasked.TheVariants.{Memory};

    ghost from_gives = { λ _ unasked. unasked ≡ Memory out_of_memory };

    fn from(refused: E) -> Unasked {
        Unasked::Memory(refused.into())
    }
}

/// Returns what the arguments ask for. The first argument is the program's name.
///
/// # Errors
///
/// - [`Unasked::Usage`] if `clap` finds a fault in the arguments, if arguments of `run` contradict each other, or if
///   the arguments ask for help.
/// - [`Unasked::Unread`] and [`Unasked::Memory`] if memory runs out.
pub fn request_of<'a, S: AsStr>(alloc: Global, arguments: &'a [S]) -> Result<Request<'a>, Unasked>
    ensures asked { IfOk result (λ request. asked_by (map S.text arguments.entry.now) ≡ Some request) }
    ensures ranges { IfOk result AreInTheirRanges }
    ensures usage { IfErr result (λ unasked. IsUsage unasked → asked_by (map S.text arguments.entry.now) ≡ None) }
    ensures why { IfErr result SaysWhy }
    ensures version { IfErr result (λ _. asks_version (map S.text arguments.entry.now) ≡ false) }
{
    if asks_version(arguments) {
        return Ok(Request::Version);
    }
    let command = census_command(alloc)?;
    match command.try_get_matches_from(arguments) {
        Ok(matches) => {
            let request = request_in(&matches);
            drop(matches);
            match request {
                Some(request) => Ok(request),
                None => Err(usage(alloc, CONTRADICTION)),
            }
        }
        Err(error) => Err(unasked_by(alloc, error)),
    }
}

/// The law that a command asks for the values of the arguments that are given, in any order, and for the defaults of
/// those that aren't.
#[tactic(auto, using(crate::proofs::LawLemmas::ask_for_their_values))]
pub fn commands_ask_for_their_values()
    ensures { AskForTheirValues }
{}

/// The law that a call of a command asks for nothing if a required argument is missing or if, after lawful arguments,
/// an argument is given twice, a value is out of its range, an option is unknown, or `--help` is given.
#[tactic(auto, using(crate::proofs::RefuseLemmas::others_ask_for_nothing))]
pub fn others_ask_for_nothing()
    ensures { OthersAskForNothing }
{}

/// The law that `--version` and `-V` ask for the version.
#[tactic(auto, using(crate::proofs::LawLemmas::asks_for_version))]
pub fn asks_for_version()
    ensures { AsksForVersion }
{}

/// The law that a call asks for nothing if it has no arguments, if its first argument is an unknown command, or if its
/// only argument is `--help`.
#[tactic(auto, using(crate::proofs::RefuseLemmas::no_command_asks_for_nothing))]
pub fn no_command_asks_for_nothing()
    ensures { NoCommandAsksForNothing }
{}

/// Checks whether the arguments are only the program's name and `--version` or `-V`.
pub fn asks_version<S: AsStr>(arguments: &[S]) -> bool
    ensures { result ≡ asks_version (map S.text arguments.now) }
{
    match arguments {
        [_, argument] => argument.as_str() == "--version" || argument.as_str() == "-V",
        _ => false,
    }
}

/// Returns the request of the command that `clap` found, or `None` if it found no command, a value is missing, or
/// arguments of `run` contradict each other.
fn request_in<'a>(matches: &ArgMatches<'a>) -> Option<Request<'a>>
    ensures request { result ≡ option_and_then request_in (subcommand_rows_of matches.now) }
    ensures ranges { IfSome result AreInTheirRanges }
{
    let (name, found) = matches.subcommand()?;
    request_named(name, found)
}

/// Returns the request of the command with this name, or `None` if there is no such command, a value is missing, or
/// arguments of `run` contradict each other.
fn request_named<'a>(name: &str, found: &ArgMatches<'a>) -> Option<Request<'a>>
    ensures request { result ≡ request_in (name.now, rows_of (found_of found.now)) }
    ensures ranges { IfSome result AreInTheirRanges }
{
    match name {
        "run" => run_request(found),
        "name" => name_request(found),
        "show" => show_request(found),
        "soup" => soup_request(found),
        "take" => take_request(found),
        "work" => work_request(found),
        "gather" => gather_request(found),
        _ => None,
    }
}

/// Returns [`Unasked::Unread`] if memory ran out while `clap` read the arguments. Otherwise returns [`Unasked::Usage`]
/// with the text of `clap`'s error, or [`Unasked::Memory`] if memory runs out for this text.
fn unasked_by(alloc: Global, error: clap::Error) -> Unasked
    ensures usage { IsUsage result → kind_of error ≢ ErrorKind.OutOfMemory }
    ensures why { SaysWhy result }
{
    if matches!(error.kind(), ErrorKind::OutOfMemory) {
        return Unasked::Unread(error);
    }
    match text_of(alloc, &error) {
        Ok(text) => Unasked::Usage(text),
        Err(refused) => Unasked::Memory(refused),
    }
}

/// Returns [`Unasked::Usage`] with this text, or [`Unasked::Memory`] if memory runs out.
fn usage(alloc: Global, text: &str) -> Unasked
    ensures { SaysWhy result }
{
    match usage_text(alloc, text) {
        Ok(text) => Unasked::Usage(text),
        Err(refused) => Unasked::Memory(refused),
    }
}

/// Returns the text of `clap`'s error, as the program prints it.
fn text_of(alloc: Global, error: &clap::Error) -> Result<String, OutOfMemory>
    ensures { IfOk result (λ text. IsUsageText (string_bytes text)) }
{
    let text = error.to_string(alloc)?;
    usage_text(alloc, text.as_str())
}

/// Returns the text, with a line feed added unless [`is_ended`] holds for it. An empty text is replaced by
/// [`NOT_UNDERSTOOD`].
fn usage_text(alloc: Global, text: &str) -> Result<String, OutOfMemory>
    ensures { IfOk result (λ text. IsUsageText (string_bytes text)) }
{
    let text = some_text(text);
    let mut told = String::from_str(alloc, text)?;
    if is_ended(text.as_bytes()) {
        return Ok(told);
    }
    told.push_str("\n")?;
    Ok(told)
}

/// Returns the text, or [`NOT_UNDERSTOOD`] if the text is empty.
fn some_text(text: &str) -> &str
    ensures { 0 < length result.now }
{
    if text.is_empty() {
        NOT_UNDERSTOOD
    } else {
        text
    }
}

/// Checks whether a text ends with a line feed and has something before it.
fn is_ended(text: &[u8]) -> bool
    ensures { IsTrue result → IsUsageText text.now }
{
    match text.split_last() {
        Some((last, prefix)) => *last == b'\n' && !prefix.is_empty(),
        None => false,
    }
}
