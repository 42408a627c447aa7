//! `take`: the call that runs a crew of workers.
//!
//! ```text
//! take ── complete_haul ── run_in_scope ── run_crew ── starts worker 3
//!                                            run_crew ── starts worker 2
//!                                              run_crew ── starts worker 1
//!                                                receive_all: until all started workers are done
//!                                              worker 1 is back
//!                                            worker 2 is back
//!                                          worker 3 is back
//! ```
ghost use Rattle.std.specs.Prelude.{◌≡◌, ◌≢◌, ◌<◌, ◌≤◌, ◌↔◌, ℕ, All, Err, IfErr, IfOk, IfSome, MatchResult, None, Some};
ghost use Rattle.std.specs.Prelude.{count_by, false, is_ok, is_some, length, nat_eq, not, true, vec_capacity};
ghost use Rattle.std.specs.List.{IsDistinct};
ghost use Rattle.haul_core.specs.Keeping.{numbers_in};
ghost use Rattle.haul_core.specs.Missing.{AreAll, IsComplete, missing_of};
ghost use Rattle.haul_core.specs.Reports.{IsWorker};
ghost use Rattle.handover.specs.Belts.{IsWhole, silent};
ghost use Rattle.crew.specs.CrewSteps.{HasAddedEndpoint, HasRunAll, MayRun, cause_of, collector_of, stopped_with};
ghost use Rattle.crew.specs.Crews.{Collected, HasHeard};
ghost use Rattle.crew.specs.Workers.{Leaves, Returns, StopsAt, lacks_memory, was_started};
ghost use Rattle.crew.specs.Takes.{EndsWith, HasHeardCrew, HasTaken, was_missing};
ghost use Rattle.handover.specs.Tickets.{AreAllBelow, drawn_by_all, fresh, how_many_heard};
ghost use Rattle.crew.specs.declared.take.CrewError.TheVariants as CrewError;

use crate::collector::collect;
use crate::crew_setup::CrewSetup;
use crate::endpoints::Endpoints;
use crate::gate::Gate;
use crate::note::Note;
use crate::progress_observer::ProgressObserver;
use crate::shared::Shared;
use crate::worker::{End, WorkerResult, run_worker};
use handover::belt::{ReceiverPass, SenderPass};
use handover::tickets::Pass;
use haul_core::book::haul::Haul;
use memory::OutOfMemory;
use std::alloc::Global;
use std::sync::Wait;
use std::sync::atomic::Ordering;
use std::thread::{Promise, PromisedHandle, Scope, Threads};
use std::{fmt, thread};
use thiserror::Error;

/// Why a crew didn't complete a haul.
#[derive(Clone, Copy, PartialEq, Eq, Error)]
pub enum CrewError {
    /// The haul is closed.
    Closed,
    /// The gate stopped a worker. If it stopped several, this is the one with the lowest number.
    Stopped { worker: u8 },
    /// Memory ran out, or a thread could not be started.
    Memory(OutOfMemory),
}

impl fmt::Display for CrewError {
    fn fmt<W: fmt::Write>(&self, f: &mut fmt::Formatter<W>) -> fmt::Result {
        match self {
            CrewError::Closed => f.write_str("closed"),
            CrewError::Stopped { worker } => write!(f, "worker {worker} was stopped"),
            CrewError::Memory(_) => f.write_str("out of memory"),
        }
    }
}

/// Shows the message, as `Display` does.
impl fmt::Debug for CrewError {
    fn fmt<W: fmt::Write>(&self, f: &mut fmt::Formatter<W>) -> fmt::Result {
        fmt::Display::fmt(self, f)
    }
}

/// Completes a haul: `workers` workers survey the missing soups, each in a thread of its own, and their reports are
/// offered to the haul.
///
/// `workers` is from 1 to the haul's number of workers. A worker asks the gate before each survey, and surveys nothing
/// more once the gate stops it. The haul stays open. The observer is called in the thread that called `take`. It
/// receives the number of soups that the haul has taken, and each report before the haul does.
///
/// # Errors
///
/// There are only these errors. The first that applies is returned, together with the haul, which keeps what it has
/// taken:
///
/// - [`CrewError::Closed`] if the haul is closed. The haul is returned unchanged.
/// - [`CrewError::Stopped`] if the gate stopped a worker and the haul isn't complete.
/// - [`CrewError::Memory`] if memory ran out, or a thread could not be started, and the haul isn't complete.
///
/// Another call continues with what is missing.
///
/// # Examples
///
/// `crates/tour_tests/src/threads.rt` completes a haul with two workers.
pub fn take<G: Gate + Sync, R: Threads + Wait + Sync, H: ProgressObserver>(
    alloc: Global,
    rt: &R,
    haul: Haul,
    workers: u8,
    gate: &G,
    observer: &mut H,
) -> Result<Haul, (Haul, CrewError)>
    requires some { 1 ≤ workers }
    requires few { workers ≤ haul.terms.workers }
    ensures closed { haul.closed ≡ true → result ≡ Err (haul, CrewError.Closed) }
    ensures open { IfErr result (λ back. back.1 ≡ CrewError.Closed → haul.closed ≡ true) }
    ensures taken { haul.closed ≡ false
        → MatchResult result (HasTaken (G.lets gate.now) workers haul)
        (λ back. HasTaken (G.lets gate.now) workers haul back.0) }
    ensures complete { IfOk result (λ done. IsComplete done.terms.ranges done.taken) }
    ensures all { IfOk result (λ done. AreAll done.terms.ranges (numbers_in done.taken)) }
    ensures stopped { (worker : ℕ)
        → IfErr result (λ back. back.1 ≡ CrewError.Stopped worker
        → StopsAt (G.may_stop gate.now) (was_missing haul) worker) }
    ensures within { (worker : ℕ)
        → IfErr result (λ back. back.1 ≡ CrewError.Stopped worker → (1 ≤ worker) × (worker ≤ workers)) }
    ensures incomplete { IfErr result
        (λ back. back.1 ≢ CrewError.Closed → ¬ IsComplete back.0.terms.ranges back.0.taken) }
    ensures ends { IfErr result (λ back. back.1 ≢ CrewError.Closed
        → EndsWith (G.may_stop gate.now) (G.lets gate.now) (was_missing haul) workers back.1) }
    ensures heard { haul.closed ≡ false → MatchResult result
        (λ done. HasHeardCrew (G.lets gate.now) workers haul done
        (λ reports. H.hears observer.old reports observer.new))
        (λ back. HasHeardCrew (G.lets gate.now) workers haul back.0
        (λ reports. H.hears observer.old reports observer.new)) }
{
    if haul.is_closed() {
        return Err((haul, CrewError::Closed));
    }
    observer.begin(haul.count(), workers);
    let (haul, cause) = complete_haul(alloc, rt, haul, workers, gate, observer);
    observer.end();
    if haul.is_complete() {
        return Ok(haul);
    }
    let Some(cause) = cause else { unreachable!() };
    Err((haul, cause))
}

/// Runs workers that survey what is missing in a haul. Returns the haul, and why soups may still be missing. If the
/// reason is `None`, the haul is complete.
fn complete_haul<G: Gate + Sync, R: Threads + Wait + Sync, H: ProgressObserver>(
    alloc: Global,
    rt: &R,
    haul: Haul,
    workers: u8,
    gate: &G,
    observer: &mut H,
) -> (Haul, Option<CrewError>)
    requires some { 1 ≤ workers }
    requires few { workers ≤ haul.terms.workers }
    requires open { haul.closed ≡ false }
    ensures taken { HasTaken (G.lets gate.now) workers haul result.0 }
    ensures complete { result.1 ≡ None → IsComplete result.0.terms.ranges result.0.taken }
    ensures stopped { (worker : ℕ)
        → result.1 ≡ Some (CrewError.Stopped worker) → StopsAt (G.may_stop gate.now) (was_missing haul) worker }
    ensures within { (worker : ℕ)
        → result.1 ≡ Some (CrewError.Stopped worker) → (1 ≤ worker) × (worker ≤ workers) }
    ensures open { result.1 ≢ Some CrewError.Closed }
    ensures ends { IfSome result.1 (EndsWith (G.may_stop gate.now) (G.lets gate.now) (was_missing haul) workers) }
    ensures heard { HasHeardCrew (G.lets gate.now) workers haul result.0
        (λ reports. H.hears observer.old reports observer.new) }
{
    if haul.is_complete() {
        return (haul, None);
    }
    let setup = match CrewSetup::new(alloc, &haul, workers) {
        Ok(setup) => setup,
        Err(error) => return (haul, Some(CrewError::Memory(error))),
    };
    let CrewSetup {
        shared,
        endpoints,
        receiver,
        back,
    } = setup;
    let crew = Crew {
        endpoints,
        haul,
        receiver,
        back,
        away: 0,
        stopped: None,
        lacking: None,
    };
    let crew = run_in_scope(alloc, rt, &shared, gate, crew, observer);
    end_crew(shared, crew)
}

/// Runs a crew in a scope of threads.
fn run_in_scope<G: Gate + Sync, R: Threads + Wait + Sync, H: ProgressObserver>(
    alloc: Global,
    rt: &R,
    shared: &Shared,
    gate: &G,
    crew: Crew,
    observer: &mut H,
) -> Crew
    requires { MayRun shared.now crew }
    ensures all { HasRunAll (G.may_stop gate.now) (G.lets gate.now) shared.now crew result }
    ensures heard { HasHeard crew.receiver result.receiver (λ reports. H.hears observer.old reports observer.new) }
{
    let (crew, _observer) = thread::scope(
        thread::scope_env(),
        rt,
        move |scope| -> (Crew, &mut H)
            requires { MayRun shared.now crew }
            ensures all { HasRunAll (G.may_stop gate.entry.now) (G.lets gate.entry.now) shared.entry.now crew result.0 }
            ensures heard { HasHeard crew.receiver result.0.receiver
                (λ reports. H.hears observer.entry.now reports result.1.now) }
            ensures same { result.1.ghost_name ≡ observer.entry.ghost_name }
        {
            let mut crew = crew;
            run_crew(alloc, rt, scope, shared, gate, &mut crew, observer);
            (crew, observer)
        },
    );
    crew
}

/// Returns the haul of a crew whose workers are all back, and why soups may still be missing, or `None` if there is no
/// reason.
fn end_crew(shared: Shared, crew: Crew) -> (Haul, Option<CrewError>)
    requires passes { All (λ p. p.series ≡ shared.tickets) crew.back.passes.items }
    requires senders { All (λ s. s.belt ≡ shared.belt.name) crew.back.senders.items }
    requires receiver { crew.receiver.belt ≡ shared.belt }
    ensures drawn { length crew.back.passes.items ≡ shared.tickets.passes → 0 < how_many_heard crew.back.passes.items
        → AreAllBelow shared.tickets.count (drawn_by_all crew.back.passes.items) }
    ensures once { (n : ℕ) → count_by (nat_eq n) (drawn_by_all crew.back.passes.items) ≤ 1 }
    ensures whole { All (IsWhole crew.receiver.got) crew.back.senders.items }
    ensures haul { result.0 ≡ crew.haul }
    ensures distinct { IsDistinct nat_eq (numbers_in crew.haul.taken) }
    ensures none { (length (missing_of crew.haul.terms.ranges crew.haul.taken) ≡ 0)
        ↔ IsComplete crew.haul.terms.ranges crew.haul.taken }
    ensures cause { result.1 ≡ cause_of crew.stopped crew.lacking }
{
    let Crew {
        haul,
        receiver,
        back: Endpoints { passes, senders },
        stopped,
        lacking,
        ..
    } = crew;
    let Shared { tickets, belt, .. } = shared;
    // For the prover: if all passes are back and one of them got `None`, all numbers were drawn.
    tickets.gather(passes);
    // For the prover: what was received from a worker is a prefix of what it presented.
    drop(belt.gather(senders, receiver));
    haul.recall_taken_is_subset();
    haul.recall_complete_if_none_missing();
    (haul, cause(stopped, lacking))
}

/// Returns why soups may be missing: a gate stopped a worker or, if none was stopped, memory ran out. Returns `None` if
/// neither happened.
fn cause(stopped: Option<u8>, lacking: Option<OutOfMemory>) -> Option<CrewError>
    ensures { result ≡ cause_of stopped lacking }
{
    match (stopped, lacking) {
        (Some(worker), _) => Some(CrewError::Stopped { worker }),
        (None, Some(error)) => Some(CrewError::Memory(error)),
        (None, None) => None,
    }
}

/// What a worker's thread promises: to return the worker's result.
#[derive(Drop)]
struct Duty<'s, G> {
    worker: u8,
    shared: &'s Shared,
    gate: &'s G,
}

impl<'s, G: Gate> Promise<WorkerResult> for Duty<'s, G> {
    ghost kept_by = { λ d worker_result.
        Returns (G.may_stop d.gate.now) (G.lets d.gate.now) d.shared.now d.worker worker_result };
}

/// The state of a crew while it runs.
#[derive(Drop)]
struct Crew {
    /// The endpoints of the workers that aren't started yet.
    endpoints: Endpoints,
    haul: Haul,
    /// The collector's pass.
    receiver: ReceiverPass<Note>,
    /// The endpoints of the workers that have ended.
    back: Endpoints,
    /// The number of workers that were started and haven't come back.
    away: u8,
    /// The lowest number of a worker that has come back and was stopped.
    stopped: Option<u8>,
    /// A witness that memory was refused (for a thread, a survey or a report), or `None` if no memory was refused.
    lacking: Option<OutOfMemory>,
}

/// Starts a worker for each pair of endpoints, beginning with the last pair. Then collects the workers' reports, and
/// waits for the workers to end, beginning with the first.
fn run_crew<'s, E, G: Gate + Sync, R: Threads + Wait + Sync, H: ProgressObserver>(
    alloc: Global,
    rt: &'s R,
    scope: &'s Scope<'s, E>,
    shared: &'s Shared,
    gate: &'s G,
    crew: &mut Crew,
    observer: &mut H,
)
    requires { MayRun shared.now crew.old }
    ensures all { HasRunAll (G.may_stop gate.now) (G.lets gate.now) shared.now crew.old crew.new }
    ensures heard { HasHeard crew.old.receiver crew.new.receiver
        (λ reports. H.hears observer.old reports observer.new) }
{
    let Some((pass, sender)) = crew.endpoints.remove_last() else {
        receive_all(rt, shared, crew, observer);
        return;
    };
    let worker = sender.number();
    let begun = start_worker(alloc, rt, scope, shared, gate, pass, sender);
    let started = u8::from(begun.is_ok());
    crew.away += started;
    run_crew(alloc, rt, scope, shared, gate, crew, observer);
    crew.away -= started;
    note_result(
        crew,
        join_worker(
            rt,
            Duty {
                worker,
                shared,
                gate,
            },
            begun,
        ),
    );
}

/// Collects the reports of the workers that were started, until all of these workers are done.
fn receive_all<R: Wait, H: ProgressObserver>(
    rt: &R,
    shared: &Shared,
    crew: &mut Crew,
    observer: &mut H,
)
    requires { crew.old.receiver.belt ≡ shared.now.belt }
    ensures collected { Collected (collector_of crew.old.away crew.old) (collector_of 0 crew.new)
        (not (is_some crew.new.lacking)) }
    ensures back { crew.new.back ≡ crew.old.back }
    ensures stopped { crew.new.stopped ≡ crew.old.stopped }
    ensures away { crew.new.away ≡ crew.old.away }
    ensures heard { HasHeard crew.old.receiver crew.new.receiver
        (λ reports. H.hears observer.old reports observer.new) }
{
    let away = crew.away;
    observer.started(away);
    let collected = collect(
        rt,
        &shared.belt,
        &mut crew.receiver,
        &mut crew.haul,
        away,
        observer,
    );
    crew.lacking = collected.err();
}

/// Starts a worker in a thread of its own, and returns the thread's handle. If no thread can be started, the worker is
/// called off and ends in this thread, and its result is returned.
fn start_worker<'s, E, G: Gate + Sync, R: Threads + Wait + Sync>(
    alloc: Global,
    rt: &'s R,
    scope: &'s Scope<'s, E>,
    shared: &'s Shared,
    gate: &'s G,
    pass: Pass,
    sender: SenderPass<Note>,
) -> Result<PromisedHandle<WorkerResult, Duty<'s, G>>, WorkerResult>
    requires pass { pass ≡ fresh shared.now.tickets }
    requires sender { sender ≡ silent shared.now.belt.name sender.number }
    requires worker { IsWorker sender.number }
    ensures worker { IfOk result (λ handle. handle.promise.worker ≡ sender.number) }
    ensures shared { IfOk result (λ handle. handle.promise.shared ≡ shared.entry) }
    ensures gate { IfOk result (λ handle. handle.promise.gate ≡ gate.entry) }
    ensures here { IfErr result (Leaves (G.may_stop gate.now) (G.lets gate.now) shared.now sender.number) }
    ensures unstarted { IfErr result (λ worker_result. was_started worker_result.end ≡ false) }
{
    let worker = sender.number();
    let duty = Duty {
        worker,
        shared,
        gate,
    };
    let worker_result = move || -> WorkerResult
        requires { (pass ≡ fresh shared.now.tickets) × (sender ≡ silent shared.now.belt.name sender.number)
            × IsWorker sender.number }
        ensures { Returns (G.may_stop gate.entry.now) (G.lets gate.entry.now) shared.entry.now sender.number result }
    { run_worker(alloc, rt, shared, gate, pass, sender) };
    match scope.spawn_with(duty, worker_result) {
        Ok(handle) => Ok(handle),
        Err(refused) => {
            let (here, error) = OutOfMemory::of_start(refused);
            shared.called_off.store(u64::from(worker), Ordering::SeqCst);
            let WorkerResult { pass, sender, .. } = here();
            let end = End::Unstarted(error);
            Err(WorkerResult { pass, sender, end })
        }
    }
}

/// Waits until a worker has ended, and returns its result. If the worker has no thread, its result is already in
/// `begun`.
fn join_worker<'s, G: Gate, R: Threads>(
    rt: &R,
    duty: Duty<'s, G>,
    begun: Result<PromisedHandle<WorkerResult, Duty<'s, G>>, WorkerResult>,
) -> WorkerResult
    requires thread { IfOk begun (λ handle. handle.promise ≡ duty) }
    requires here { IfErr begun (Leaves (G.may_stop duty.gate.now) (G.lets duty.gate.now) duty.shared.now duty.worker) }
    requires unstarted { IfErr begun (λ worker_result. was_started worker_result.end ≡ false) }
    ensures left { Leaves (G.may_stop duty.entry.gate.now) (G.lets duty.entry.gate.now) duty.entry.shared.now
        duty.entry.worker result }
    ensures started { was_started result.end ≡ is_ok begun.entry }
{
    match begun {
        Ok(handle) => handle.join(rt),
        Err(worker_result) => worker_result,
    }
}

/// Records the result of one more worker that has come back.
fn note_result(crew: &mut Crew, worker_result: WorkerResult)
    requires passes { length crew.old.back.passes.items < vec_capacity crew.old.back.passes }
    requires senders { length crew.old.back.senders.items < vec_capacity crew.old.back.senders }
    ensures back { HasAddedEndpoint worker_result.pass worker_result.sender crew.old.back crew.new.back }
    ensures stopped { crew.new.stopped ≡ stopped_with crew.old.stopped worker_result.sender.number worker_result.end }
    ensures answered { crew.new.lacking ≡ None → crew.old.lacking ≡ None }
    ensures memory { crew.new.lacking ≡ None → lacks_memory worker_result.end ≡ false }
    ensures haul { crew.new.haul ≡ crew.old.haul }
    ensures receiver { crew.new.receiver ≡ crew.old.receiver }
    ensures away { crew.new.away ≡ crew.old.away }
{
    let WorkerResult { pass, sender, end } = worker_result;
    crew.stopped = first_stopped(crew.stopped, sender.number(), end);
    crew.lacking = any_lack(crew.lacking, end);
    crew.back.add(pass, sender);
}

/// Returns the first stopped worker among those that have come back: `stopped` if there is one, otherwise `worker` if
/// it was stopped, and otherwise `None`.
fn first_stopped(stopped: Option<u8>, worker: u8, end: End) -> Option<u8>
    ensures { result ≡ stopped_with stopped worker end }
{
    match (stopped, end) {
        (None, End::Stopped) => Some(worker),
        _ => stopped,
    }
}

/// Returns a witness that memory was refused, either to the worker that ended in this way or earlier. Returns `None` if
/// no memory was refused.
fn any_lack(lacking: Option<OutOfMemory>, end: End) -> Option<OutOfMemory>
    ensures before { result ≡ None → lacking ≡ None }
    ensures here { result ≡ None → lacks_memory end ≡ false }
{
    match end {
        End::Memory(error) | End::Unstarted(error) => Some(error),
        End::Drained | End::Stopped | End::CalledOff => lacking,
    }
}
