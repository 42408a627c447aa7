//! `take`: the complete haul of a set of soups.
//!
//! ```text
//! plan ── open_haul ── haul ── complete_by_crew ── haul ── finish ── haul text
//!             │                     │                        │
//!          refused           out of memory          missing soups, if a gate stopped a worker
//! ```

ghost use Rattle.std.specs.Prelude.{◌≡◌, ◌≢◌, ◌≤◌, ◌↔◌, [], ℕ, Err, List, Option, IfErr, IfOk, false, length};
ghost use Rattle.memory.specs.Witness.{out_of_memory};
ghost use Rattle.haul_core.specs.Missing.{IsComplete, missing_of};
ghost use Rattle.haul_core.specs.Reports.{IsWorker};
ghost use Rattle.pattern_commands.specs.Complaints.{status_of};
ghost use Rattle.pattern_commands.specs.Ends.{Ends};
ghost use Rattle.pattern_commands.specs.Reached.{Reaches};
ghost use Rattle.pattern_commands.specs.Profiles.{AreInRange};
ghost use Rattle.commands.specs.Stopped.{gated_behaviour};
ghost use Rattle.pattern_commands.specs.Streams.{Stream, Has, stream, IsUntouched};
ghost use Rattle.commands.specs.Take.{PrintsCensus, take_behaviour};
ghost use Rattle.commands.specs.TakeSteps.{EndsCrew, HasLetIn, HasTakenMore};

use crate::finish::finish_unless;
use crate::machine::Machine;
use crate::opening::open_haul;
use crew::gate::{Gate, OpenGate};
use crew::progress_observer::ProgressObserver;
use crew::take::{CrewError, take};
use haul_core::book::haul::Haul;
use pattern_commands::ending::complaint::Complaint;
use pattern_commands::ending::end_command;
use pattern_commands::ending::status::Status;
use plane_core::output::Out;
use requests::plan::Plan;
use std::io::Write;
use std::sync::Wait;
use std::thread::Threads;

/// Surveys all soups of a plan with `workers` workers, 1 to 16, and writes the haul text.
///
/// Each worker has a thread of its own. The output is the same for any number of workers. Each number of the profile
/// has to be in its range, and no earlier write to either writer may have failed. The seed is checked first, then the
/// profile, the rule, the list of ranges, the size of the ranges, and finally whether two ranges share a number.
/// Nothing is written to `output` before the haul is complete. The machine's observer receives the progress, and
/// nothing else depends on the observer. `census take` is this call with the standard streams.
///
/// # Errors
///
/// The status is `Refused` if the seed, the rule or the list of ranges isn't valid, if the horizon is below the period,
/// if a range ends past 2^40, or if the ranges have more than 2^24 numbers together or share a number; `Memory` if
/// memory runs out or no thread can be started; and `Failed` if the output can't be written. In these cases, a line is
/// written to standard error. A failure to write that line is not reported.
pub fn do_take<W: Write, E: Write, T: Threads + Wait + Sync, H: ProgressObserver>(
    machine: &mut Machine<'_, T, E, H>,
    plan: &Plan<'_>,
    workers: u8,
    output: &mut Out<W>,
) -> Status
    requires workers { IsWorker workers }
    requires profile { AreInRange plan.now.profile }
    requires output { output.old.failed ≡ false }
    requires errors { machine.old.errors.failed ≡ false }
    ensures ends { (reader : Option (List ℕ)) (bytes : List ℕ)
        → Ends (take_behaviour plan.now) reader bytes result
        (stream W.contents output.old output.new) (stream E.contents machine.old.errors machine.new.errors) }
    ensures exact { result ≡ Status.Done
        → PrintsCensus plan.now (W.contents output.old.writer) (W.contents output.new.writer) }
    ensures untouched { result ≡ Status.Refused → output.new ≡ output.old }
    ensures no_memory { result ≡ Status.Memory → output.new ≡ output.old }
{
    do_take_with(machine, plan, workers, &OpenGate, output)
}

/// Does what [`do_take`] does, with a gate that may stop workers.
///
/// # Errors
///
/// As for `do_take`, and `Incomplete` if the gate stopped a worker and soups are missing. Then the haul text of what
/// was taken was written, and a line on standard error says how many soups are missing.
pub fn do_take_with<
    W: Write,
    E: Write,
    G: Gate + Sync,
    T: Threads + Wait + Sync,
    H: ProgressObserver,
>(
    machine: &mut Machine<'_, T, E, H>,
    plan: &Plan<'_>,
    workers: u8,
    gate: &G,
    output: &mut Out<W>,
) -> Status
    requires workers { IsWorker workers }
    requires profile { AreInRange plan.now.profile }
    requires output { output.old.failed ≡ false }
    requires errors { machine.old.errors.failed ≡ false }
    ensures ends { (reader : Option (List ℕ)) (bytes : List ℕ)
        → Ends (gated_behaviour (G.may_stop gate.now) (G.lets gate.now) plan.now workers) reader bytes result
        (stream W.contents output.old output.new) (stream E.contents machine.old.errors machine.new.errors) }
    ensures untouched { result ≡ Status.Refused → output.new ≡ output.old }
    ensures no_memory { result ≡ Status.Memory → output.new ≡ output.old }
{
    let outcome = print_haul(machine, plan, workers, gate, output);
    end_command(outcome, &mut machine.errors)
}

/// Opens a haul, completes it as far as the gate allows, prints it, and returns how many soups are missing.
fn print_haul<W: Write, E: Write, G: Gate + Sync, T: Threads + Wait + Sync, H: ProgressObserver>(
    machine: &mut Machine<'_, T, E, H>,
    plan: &Plan<'_>,
    workers: u8,
    gate: &G,
    output: &mut Out<W>,
) -> Result<u64, Complaint>
    requires workers { IsWorker workers }
    requires profile { AreInRange plan.now.profile }
    requires output { output.old.failed ≡ false }
    ensures reached { (reader : Option (List ℕ)) (bytes : List ℕ) (errors : Stream) → IsUntouched errors
        → Reaches (gated_behaviour (G.may_stop gate.now) (G.lets gate.now) plan.now workers) reader bytes result
        (stream W.contents output.old output.new) errors }
    ensures untouched { IfErr result (λ complaint. status_of complaint ≡ Status.Refused → output.new ≡ output.old) }
    ensures no_memory { IfErr result (λ complaint. complaint ≡ Complaint.Memory out_of_memory
        → output.new ≡ output.old) }
    ensures silent { machine.new.errors ≡ machine.old.errors }
{
    let haul = open_haul(machine.alloc, plan, workers)?;
    let (mut haul, taken) = complete_by_crew(machine, haul, workers, gate);
    haul.recall_taken_is_subset();
    finish_unless(taken, &mut haul, output)
}

/// Lets a crew take what is missing in an open haul, and returns the haul. With `Ok`, either the haul is complete or
/// the gate stopped a worker. With an error, memory ran out, and the haul has what was taken until then.
fn complete_by_crew<E: Write, G: Gate + Sync, T: Threads + Wait + Sync, H: ProgressObserver>(
    machine: &mut Machine<'_, T, E, H>,
    haul: Haul,
    workers: u8,
    gate: &G,
) -> (Haul, Result<(), Complaint>)
    requires some { 1 ≤ workers }
    requires few { workers ≤ haul.terms.workers }
    requires open { haul.closed ≡ false }
    ensures grown { HasTakenMore haul result.0 }
    ensures let_in { HasLetIn (G.lets gate.now) workers haul result.0 }
    ensures ends { IfOk result.1 (λ _. EndsCrew (G.may_stop gate.now) haul result.0) }
    ensures memory { IfErr result.1 (λ complaint. complaint ≡ Complaint.Memory out_of_memory) }
    ensures silent { machine.new.errors ≡ machine.old.errors }
{
    let taken = take(
        machine.alloc,
        machine.threads,
        haul,
        workers,
        gate,
        &mut machine.observer,
    );
    match taken {
        Ok(haul) => (haul, Ok(())),
        Err((haul, why)) => match why {
            CrewError::Stopped { .. } => (haul, Ok(())),
            CrewError::Memory(error) => (haul, Err(Complaint::Memory(error))),
            CrewError::Closed => unreachable!(),
        },
    }
}
