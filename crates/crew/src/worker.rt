//! A worker's loop: draw a number, ask the gate, survey the soup, and report, until no number is left, the gate stops
//! the worker, or memory runs out.
//!
//! ```text
//! tickets ── place ──> number ── gate ──> survey ── report ──> belt
//!    │                             │         │                  │
//! none left                     stopped   no memory     and at the end: done
//! ```
ghost use Rattle.std.specs.Prelude.{◌≡◌, true};
ghost use Rattle.haul_core.specs.Reports.{IsWorker};
ghost use Rattle.handover.specs.Belts.{silent};
ghost use Rattle.crew.specs.Workers.{AreNotDone, HasWorked, Returns, has_begun};
ghost use Rattle.handover.specs.Tickets.{fresh};

use crate::gate::{Gate, Stop};
use crate::note::Note;
use crate::shared::Shared;
use handover::belt::SenderPass;
use handover::tickets::Pass;
use haul_core::report::{Report, ReportError};
use memory::OutOfMemory;
use std::alloc::Global;
use std::sync::Wait;
use std::sync::atomic::Ordering;
use survey_core::surveyor::Surveyor;

/// How a worker ended.
#[derive(Clone, Copy)]
pub(crate) enum End {
    /// No number was left.
    Drained,
    /// The gate stopped the worker.
    Stopped,
    /// Memory ran out.
    Memory(OutOfMemory),
    /// The worker was called off before it began, because no thread could be started for it. `start_worker` replaces
    /// this end by `Unstarted`.
    CalledOff,
    /// No thread could be started for the worker.
    Unstarted(OutOfMemory),
}

/// The result of a worker's run: its pass, its sender, and how it ended.
#[derive(Drop)]
pub(crate) struct WorkerResult {
    pub(crate) pass: Pass,
    pub(crate) sender: SenderPass<Note>,
    pub(crate) end: End,
}

/// Runs a worker until it ends. Its last note is `Done`, unless the worker was called off.
pub(crate) fn run_worker<G: Gate, R: Wait>(
    alloc: Global,
    rt: &R,
    shared: &Shared,
    gate: &G,
    pass: Pass,
    sender: SenderPass<Note>,
) -> WorkerResult
    requires pass { pass ≡ fresh shared.now.tickets }
    requires worker { IsWorker sender.number }
    requires sender { sender ≡ silent shared.now.belt.name sender.number }
    ensures { Returns (G.may_stop gate.now) (G.lets gate.now) shared.now sender.number result }
{
    let mut pass = pass;
    let mut sender = sender;
    let worker = sender.number();
    if shared.called_off.load(Ordering::SeqCst) == u64::from(worker) {
        let end = End::CalledOff;
        return WorkerResult { pass, sender, end };
    }
    let end = survey_all(alloc, rt, shared, gate, &mut pass, &mut sender);
    shared.belt.present(rt, &mut sender, Note::Done { worker });
    WorkerResult { pass, sender, end }
}

/// Makes a surveyor for the worker, surveys soups with it until the worker ends, and presents each report. This is a
/// function of its own because a function that owned a surveyor, a pass and a sender would be expensive to prove at
/// each exit.
fn survey_all<G: Gate, R: Wait>(
    alloc: Global,
    rt: &R,
    shared: &Shared,
    gate: &G,
    pass: &mut Pass,
    sender: &mut SenderPass<Note>,
) -> End
    requires pass { pass.old ≡ fresh shared.now.tickets }
    requires worker { IsWorker sender.old.number }
    requires sender { sender.old ≡ silent shared.now.belt.name sender.old.number }
    ensures worked { HasWorked (G.may_stop gate.now) (G.lets gate.now) shared.now sender.old.number result pass.new
        sender.new }
    ensures begun { has_begun result ≡ true }
    ensures not_done { AreNotDone sender.new.notes }
{
    let mut surveyor = Surveyor::new(alloc);
    survey_left(alloc, rt, shared, gate, pass, sender, &mut surveyor)
}

/// Surveys the soup of one number after another and presents its report, until no number is left, the gate stops the
/// worker, or memory runs out.
#[tactic(auto, using(crate::proofs::WorkerLemmas::reported_none))]
fn survey_left<G: Gate, R: Wait>(
    alloc: Global,
    rt: &R,
    shared: &Shared,
    gate: &G,
    pass: &mut Pass,
    sender: &mut SenderPass<Note>,
    surveyor: &mut Surveyor,
) -> End
    requires pass { pass.old ≡ fresh shared.now.tickets }
    requires worker { IsWorker sender.old.number }
    requires sender { sender.old ≡ silent shared.now.belt.name sender.old.number }
    ensures worked { HasWorked (G.may_stop gate.now) (G.lets gate.now) shared.now sender.old.number result pass.new
        sender.new }
    ensures begun { has_begun result ≡ true }
    ensures not_done { AreNotDone sender.new.notes }
{
    let worker = sender.number();
    for _ in rt.forever() {
        let Some(place) = shared.tickets.draw(pass) else {
            return End::Drained;
        };
        let number = shared.missing[place as usize];
        match gate.before(worker, number) {
            Ok(()) => {}
            Err(Stop) => return End::Stopped,
        }
        let report = match Report::make_with_surveyor(
            alloc,
            surveyor,
            &shared.job,
            worker,
            number,
        ) {
            Ok(report) => report,
            Err(ReportError::Memory(error)) => return End::Memory(error),
            Err(ReportError::BadWorker) => unreachable!(),
        };
        shared
            .belt
            .present_one_of_many(rt, sender, Note::Report(report));
    }
    unreachable!()
}
