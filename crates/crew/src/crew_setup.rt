//! What a crew starts with: what its workers share, and the endpoints of each worker.
ghost use Rattle.std.specs.Prelude.{◌≡◌, ◌≤◌, IfOk, false};
ghost use Rattle.crew.specs.CrewSteps.{IsSetUp};

use crate::endpoints::Endpoints;
use crate::note::Note;
use crate::shared::Shared;
use handover::belt::{Belt, ReceiverPass};
use handover::tickets::{Tickets, TicketsError};
use haul_core::book::haul::Haul;
use memory::OutOfMemory;
use std::alloc::Global;
use std::sync::atomic::AtomicU64;

/// The most notes on the belt: four for each of sixteen workers, so that a worker rarely waits for the collector.
const ROOM: usize = 64;

/// What a crew starts with.
#[derive(Drop)]
pub(crate) struct CrewSetup {
    pub(crate) shared: Shared,
    pub(crate) endpoints: Endpoints,
    pub(crate) receiver: ReceiverPass<Note>,
    /// Room for the endpoints of workers that have ended.
    pub(crate) back: Endpoints,
}

impl CrewSetup {
    /// Returns the setup for `workers` workers that survey the missing soups of an open haul.
    pub(crate) fn new(alloc: Global, haul: &Haul, workers: u8) -> Result<CrewSetup, OutOfMemory>
        requires some { 1 ≤ workers }
        requires few { workers ≤ haul.now.terms.workers }
        requires open { haul.now.closed ≡ false }
        ensures { IfOk result (IsSetUp haul.now workers) }
    {
        haul.recall_workers_are_few();
        let missing = haul.missing()?;
        let (tickets, passes) = match Tickets::open(alloc, missing.len() as u64, workers) {
            Ok(opened) => opened,
            Err(TicketsError::Memory(error)) => return Err(error),
            Err(TicketsError::BadCount | TicketsError::BadPasses) => unreachable!(),
        };
        let back = Endpoints::with_room(alloc, workers)?;
        // The belt is opened last, because each later `?` would drop the belt, which is expensive to prove.
        let (belt, senders, receiver) = Belt::open(alloc, ROOM, workers)?;
        let shared = Shared {
            job: haul.job(),
            tickets,
            belt,
            missing,
            called_off: AtomicU64::new(0),
        };
        Ok(CrewSetup {
            shared,
            endpoints: Endpoints { passes, senders },
            receiver,
            back,
        })
    }
}
