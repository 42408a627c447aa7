//! `take` with the report lines of late soups on standard error.
//!
//! ```text
//! plan ── open_haul ── haul ── report_by_crew ── haul ── finish ── haul text
//!             │                     │
//!          refused           out of memory, or a line wasn't written
//! ```

ghost use Rattle.std.specs.Prelude.{◌≡◌, ◌≢◌, ◌≤◌, ◌↔◌, [], ℕ, Err, IfErr, IfOk, List, MatchResult, None, Option, Some};
ghost use Rattle.std.specs.Prelude.{false, length, true};
ghost use Rattle.memory.specs.Witness.{out_of_memory};
ghost use Rattle.haul_core.specs.Keeping.{numbers_in};
ghost use Rattle.haul_core.specs.Missing.{AreAll, IsComplete, missing_of};
ghost use Rattle.haul_core.specs.Reports.{IsWorker};
ghost use Rattle.pattern_commands.specs.Complaints.{status_of};
ghost use Rattle.pattern_commands.specs.Ends.{Ends};
ghost use Rattle.pattern_commands.specs.Profiles.{AreInRange};
ghost use Rattle.pattern_commands.specs.Reached.{Reaches};
ghost use Rattle.pattern_commands.specs.Streams.{Has, stream};
ghost use Rattle.commands.specs.ReportSteps.{HasPutBy, HasReportedBy, StopsReporting};
ghost use Rattle.commands.specs.Reporting.{reporting_behaviour};
ghost use Rattle.commands.specs.Take.{PrintsCensus};

use crate::finish::finish_unless;
use crate::machine::Machine;
use crate::opening::open_haul;
use crate::report_sink::{FaultGate, ReportSink};
use crew::progress_observer::ProgressObserver;
use crew::take::{CrewError, take};
use haul_core::book::haul::Haul;
use pattern_commands::ending::complaint::Complaint;
use pattern_commands::ending::end_command;
use pattern_commands::ending::status::Status;
use plane_core::output::{Out, WriteError};
use requests::plan::Plan;
use std::io::{self, Write};
use std::sync::Wait;
use std::sync::atomic::AtomicBool;
use std::thread::Threads;

/// Does what [`do_take`](crate::take::do_take) does, and also reports late soups: the report line of each soup that is
/// unsettled, or whose checkpoint is `from` or later, is written to standard error while the census runs.
///
/// Each line is written once, whole, and in one write if it has at most 4,096 bytes. The lines are in the order in
/// which the reports arrive from the workers. The machine's observer is paused while a line is written.
///
/// # Errors
///
/// As for `do_take`, and `Failed` if a line can't be written. Then nothing is written to the output, and each worker
/// surveys at most one more soup. If memory runs out, each line that was begun was written completely.
pub fn do_take_reporting<W: Write, E: Write, T: Threads + Wait + Sync, H: ProgressObserver>(
    machine: &mut Machine<'_, T, E, H>,
    plan: &Plan<'_>,
    workers: u8,
    from: u32,
    output: &mut Out<W>,
) -> Status
    requires workers { IsWorker workers }
    requires profile { AreInRange plan.now.profile }
    requires output { output.old.failed ≡ false }
    requires errors { machine.old.errors.failed ≡ false }
    ensures ends { (reader : Option (List ℕ)) (bytes : List ℕ)
        → Ends (reporting_behaviour plan.now workers from) reader bytes result
        (stream W.contents output.old output.new) (stream E.contents machine.old.errors machine.new.errors) }
    ensures exact { result ≡ Status.Done
        → PrintsCensus plan.now (W.contents output.old.writer) (W.contents output.new.writer) }
    ensures untouched { result ≡ Status.Refused → output.new ≡ output.old }
    ensures no_memory { result ≡ Status.Memory → output.new ≡ output.old }
{
    let outcome = print_reporting(machine, plan, workers, from, output);
    end_command(outcome, &mut machine.errors)
}

/// Opens a haul, completes it while late soups are reported, prints it, and returns how many soups are missing.
fn print_reporting<W: Write, E: Write, T: Threads + Wait + Sync, H: ProgressObserver>(
    machine: &mut Machine<'_, T, E, H>,
    plan: &Plan<'_>,
    workers: u8,
    from: u32,
    output: &mut Out<W>,
) -> Result<u64, Complaint>
    requires workers { IsWorker workers }
    requires profile { AreInRange plan.now.profile }
    requires output { output.old.failed ≡ false }
    requires errors { machine.old.errors.failed ≡ false }
    ensures reached { (reader : Option (List ℕ)) (bytes : List ℕ)
        → Reaches (reporting_behaviour plan.now workers from) reader bytes result
        (stream W.contents output.old output.new) (stream E.contents machine.old.errors machine.new.errors) }
    ensures untouched { IfErr result (λ complaint. status_of complaint ≡ Status.Refused → output.new ≡ output.old) }
    ensures no_memory { IfErr result (λ complaint. complaint ≡ Complaint.Memory out_of_memory
        → output.new ≡ output.old) }
{
    let haul = open_haul(machine.alloc, plan, workers)?;
    let (mut haul, taken) = report_by_crew(machine, haul, workers, from);
    finish_unless(taken, &mut haul, output)
}

/// Lets a crew take what is missing in an open haul, and writes the report lines of late soups. Returns the haul and a
/// result: `Ok` if the haul is to be printed, and otherwise why it isn't.
fn report_by_crew<E: Write, T: Threads + Wait + Sync, H: ProgressObserver>(
    machine: &mut Machine<'_, T, E, H>,
    haul: Haul,
    workers: u8,
    from: u32,
) -> (Haul, Result<(), Complaint>)
    requires some { 1 ≤ workers }
    requires few { workers ≤ haul.terms.workers }
    requires open { haul.closed ≡ false }
    ensures { HasReportedBy E.contents workers from haul result.0 machine.old.errors machine.new.errors result.1 }
{
    let has_failed = AtomicBool::new(false);
    let (taken, fault) = take_reporting(machine, haul, workers, from, &has_failed);
    let has_failed = machine.errors.failed();
    match taken {
        Ok(haul) => (haul, end_of_crew(has_failed, fault, None)),
        Err((haul, why)) => (haul, end_of_crew(has_failed, fault, Some(why))),
    }
}

/// Lets a crew take what is missing in an open haul, and writes the report lines of late soups. Returns what `take`
/// returns, and the witness of the write that failed, if one failed. `has_failed` is set once a write has failed.
fn take_reporting<E: Write, T: Threads + Wait + Sync, H: ProgressObserver>(
    machine: &mut Machine<'_, T, E, H>,
    haul: Haul,
    workers: u8,
    from: u32,
    has_failed: &AtomicBool,
) -> (Result<Haul, (Haul, CrewError)>, Option<WriteError>)
    requires some { 1 ≤ workers }
    requires few { workers ≤ haul.terms.workers }
    requires open { haul.closed ≡ false }
    ensures heard { MatchResult result.0
        (λ done. HasPutBy E.contents workers from haul done machine.old.errors machine.new.errors)
        (λ back. HasPutBy E.contents workers from haul back.0 machine.old.errors machine.new.errors) }
    ensures complete { IfOk result.0 (λ done. IsComplete done.terms.ranges done.taken) }
    ensures all { IfOk result.0 (λ done. AreAll done.terms.ranges (numbers_in done.taken)) }
{
    let gate = FaultGate { has_failed };
    let mut sink = ReportSink {
        from,
        errors: &mut machine.errors,
        progress: &mut machine.observer,
        has_failed,
        fault: None,
    };
    let taken = take(
        machine.alloc,
        machine.threads,
        haul,
        workers,
        &gate,
        &mut sink,
    );
    (taken, sink.fault)
}

/// Returns `Ok` if the haul is to be printed, and otherwise why it isn't: a write has failed or, if none has failed,
/// the crew didn't complete the haul.
fn end_of_crew(
    has_failed: bool,
    fault: Option<WriteError>,
    why: Option<CrewError>,
) -> Result<(), Complaint>
    ensures whole { IfOk result (λ _. (has_failed ≡ false) × (why ≡ None)) }
    ensures stops { IfErr result (StopsReporting has_failed) }
{
    if has_failed {
        return Err(write_failed(fault));
    }
    match why {
        None => Ok(()),
        Some(CrewError::Memory(error)) => Err(Complaint::Memory(error)),
        // Neither occurs: the gate stops a worker only after a failed write, and only a closed haul gives `Closed`. But
        // the contracts that are used here don't say so.
        Some(CrewError::Stopped { .. } | CrewError::Closed) => Err(write_failed(fault)),
    }
}

/// Returns the complaint that a line wasn't written, with the witness `fault` if there is one.
fn write_failed(fault: Option<WriteError>) -> Complaint
    ensures { StopsReporting true result }
{
    match fault {
        Some(error) => Complaint::WriteFailed(error),
        None => Complaint::WriteFailed(no_room()),
    }
}

/// A writer without room: each write takes no byte.
#[derive(Clone, Copy)]
struct NoRoom;

impl Write for NoRoom {
    ghost contents = { λ _. Some [] };

    fn write(&mut self, _buf: &[u8]) -> io::Result<usize> {
        Ok(0)
    }

    fn flush(&mut self) -> io::Result<()> {
        Ok(())
    }
}

/// Returns the error of a write to a writer without room, for a failed write whose own error isn't known. In fact, that
/// error is always known, because the sink keeps it, but no contract says so.
fn no_room() -> WriteError {
    let mut output = Out::new(NoRoom);
    match output.put(b"\n") {
        Ok(()) => unreachable!(),
        Err(error) => error,
    }
}
