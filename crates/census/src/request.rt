//! Runs the command that the arguments of a call ask for.
//!
//! ```text
//! arguments ── request_of ──┬─ request ── do_request ──┬─ take, work, gather
//!                           │                          └─ do_pattern_request ── run, name, show, soup, --version
//!                           └─ a usage text, or out of memory
//! ```

ghost use Rattle.std.specs.Prelude.{◌≡◌, ◌≢◌, ◌⊎◌, false, map, string_bytes};
ghost use Rattle.memory.specs.Witness.{out_of_memory};
ghost use Rattle.pattern_commands.specs.Complaints.{complaint_line};
ghost use Rattle.pattern_commands.specs.Status.{exit_code};
ghost use Rattle.arguments.specs.Requests.{AreInTheirRanges};
ghost use Rattle.arguments.specs.Unasked.{IsUsage, SaysWhy};
ghost use Rattle.pattern_commands.specs.Streams.{HasLine, stream};
ghost use Rattle.census.specs.ProgramEnds.{LeavesAlone};
ghost use Rattle.census.specs.Requests.{DoesArguments, DoesRequest, Spares, TellsUsage, is_over_sets};

use arguments::calls::{Unasked, request_of};
use arguments::request::Request;
use commands::gather::do_gather;
use commands::machine::Machine;
use commands::progress_line::ProgressLine;
use commands::reporting::do_take_reporting;
use commands::take::do_take;
use commands::work::do_work;
use pattern_commands::ending::complaint::Complaint;
use pattern_commands::ending::status::Status;
use pattern_commands::name::do_name;
use pattern_commands::run::do_run;
use pattern_commands::show::do_show;
use pattern_commands::sizes::do_sizes;
use pattern_commands::soup::do_soup;
use pattern_commands::version::do_version;
use plane_core::output::Out;
use requests::form::RunForm;
use std::alloc::Global;
use std::io::{Read, Write};
use std::sync::Wait;
use std::thread::Threads;
use std::time::Clock;

/// Does what `arguments` ask for, and returns the status. The first argument is the program's name.
///
/// No earlier write to either writer may have failed. If the arguments ask for nothing, the status is `Usage`, a text
/// on standard error says why, and nothing is read or printed. The machine's observer receives the progress.
///
/// # Errors
///
/// As for [`do_request`], or `Memory` if memory runs out while the arguments are read.
pub fn do_arguments<T: Threads + Wait + Sync, R: Read, W: Write, E: Write, P: Write, C: Clock>(
    machine: &mut Machine<'_, T, E, ProgressLine<P, C>>,
    arguments: &[String],
    input: &mut R,
    output: &mut Out<W>,
) -> Status
    requires output { output.old.failed ≡ false }
    requires errors { machine.old.errors.failed ≡ false }
    ensures command { result ≢ Status.Usage → DoesArguments (map string_bytes arguments.now) (R.remaining input.old) result
        (stream W.contents output.old output.new) (stream E.contents machine.old.errors machine.new.errors) }
    ensures leaves { LeavesAlone (map string_bytes arguments.now) (exit_code result)
        (stream E.contents machine.old.errors machine.new.errors)
        (input.new ≡ input.old) (output.new ≡ output.old) (output.new ≡ output.old) }
{
    match request_of(machine.alloc, arguments) {
        Ok(request) => do_request(machine, &request, input, output),
        Err(unasked) => end_unasked(unasked, &mut machine.errors),
    }
}

/// Reports why the arguments give no request: writes the usage text, or that memory ran out. A failure to write this is
/// not reported.
fn end_unasked<E: Write>(unasked: Unasked, errors: &mut Out<E>) -> Status
    requires why { SaysWhy unasked }
    requires errors { errors.old.failed ≡ false }
    ensures { (IsUsage unasked × (result ≡ Status.Usage) × TellsUsage (stream E.contents errors.old errors.new))
        ⊎ ((result ≡ Status.Memory) × HasLine (stream E.contents errors.old errors.new)
        (complaint_line (Complaint.Memory out_of_memory))) }
{
    match unasked {
        Unasked::Usage(text) => end_with_usage(text.as_bytes(), errors),
        // By `why`, memory ran out while `clap` read the arguments.
        Unasked::Unread(_) => {
            let _ = errors.put(b"census: out of memory\n");
            Status::Memory
        }
        Unasked::Memory(error) => Complaint::Memory(error).end_command(errors),
    }
}

/// Writes a usage text. A failure to write it is not reported.
fn end_with_usage<E: Write>(text: &[u8], errors: &mut Out<E>) -> Status
    requires { errors.old.failed ≡ false }
    ensures status { result ≡ Status.Usage }
    ensures line { HasLine (stream E.contents errors.old errors.new) text.now }
{
    let _ = errors.put(text);
    Status::Usage
}

/// Does what a request asks for, and returns the status.
///
/// Each number of the request has to be in its range, and no earlier write to either writer may have failed. Nothing of
/// the input is read if the request doesn't need the input, or if the request's rule, profile, seed or set is refused.
/// The machine's observer receives the progress, and nothing else depends on the observer.
///
/// # Errors
///
/// Those of the request's own function: [`do_run`], [`do_sizes`], [`do_name`], [`do_show`], [`do_soup`], [`do_take`],
/// [`do_take_reporting`], [`do_work`], [`do_gather`] or [`do_version`].
fn do_request<T: Threads + Wait + Sync, R: Read, W: Write, E: Write, P: Write, C: Clock>(
    machine: &mut Machine<'_, T, E, ProgressLine<P, C>>,
    request: &Request<'_>,
    input: &mut R,
    output: &mut Out<W>,
) -> Status
    requires request { AreInTheirRanges request.now }
    requires output { output.old.failed ≡ false }
    requires errors { machine.old.errors.failed ≡ false }
    ensures ends { DoesRequest (R.remaining input.old) result
        (stream W.contents output.old output.new) (stream E.contents machine.old.errors machine.new.errors)
        request.now }
    ensures spares { Spares request.now result (input.new ≡ input.old) (output.new ≡ output.old) }
{
    match request {
        Request::Take {
            plan,
            workers,
            progress,
            report_from,
        } => {
            machine.observer.ask(*progress);
            match report_from {
                Some(from) => do_take_reporting(machine, plan, *workers, *from, output),
                None => do_take(machine, plan, *workers, output),
            }
        }
        Request::Work { plan, worker } => {
            do_work(machine.alloc, plan, *worker, output, &mut machine.errors)
        }
        Request::Gather { plan, workers } => do_gather(
            machine.alloc,
            plan,
            *workers,
            input,
            output,
            &mut machine.errors,
        ),
        _ => do_pattern_request(machine.alloc, request, input, output, &mut machine.errors),
    }
}

/// Does what a request about one pattern asks for, or prints the version.
fn do_pattern_request<R: Read, W: Write, E: Write>(
    alloc: Global,
    request: &Request<'_>,
    input: &mut R,
    output: &mut Out<W>,
    errors: &mut Out<E>,
) -> Status
    requires request { AreInTheirRanges request.now }
    requires one_pattern { is_over_sets request.now ≡ false }
    requires output { output.old.failed ≡ false }
    requires errors { errors.old.failed ≡ false }
    ensures ends { DoesRequest (R.remaining input.old) result
        (stream W.contents output.old output.new) (stream E.contents errors.old errors.new) request.now }
    ensures spares { Spares request.now result (input.new ≡ input.old) (output.new ≡ output.old) }
{
    match request {
        Request::Run {
            generations,
            form,
            rule,
        } => {
            let rule = rule.as_str();
            match *form {
                RunForm::Pattern(form) => {
                    do_run(alloc, *generations, form, rule, input, output, errors)
                }
                RunForm::Sizes { from } => {
                    do_sizes(alloc, from, *generations, rule, input, output, errors)
                }
            }
        }
        Request::Name { profile, rule } => {
            do_name(alloc, *profile, rule.as_str(), input, output, errors)
        }
        Request::Show { code, form } => do_show(alloc, code.as_str(), *form, output, errors),
        Request::Soup { seed, number, form } => {
            do_soup(alloc, seed.as_str(), *number, *form, output, errors)
        }
        Request::Version => do_version(output, errors),
        Request::Take { .. } | Request::Work { .. } | Request::Gather { .. } => unreachable!(),
    }
}
