//! The endpoints of a crew's workers: for each worker a pass to draw numbers, and a sender for its notes. Workers are
//! started from the last to the first, and come back from the first to the last:
//!
//! ```text
//! to be started   1 2 3   1 2     1       -
//! back            -       -       -       1, 1 2, 1 2 3
//! ```
ghost use Rattle.std.specs.Prelude.{◌≡◌, ◌<◌, [], IfNone, IfOk, IfSome, length, vec_capacity};
ghost use Rattle.crew.specs.CrewSteps.{HaveRoom, HasAddedEndpoint, IsTakenOut};

use crate::note::Note;
use handover::belt::SenderPass;
use handover::tickets::Pass;
use memory::OutOfMemory;
use std::alloc::Global;

/// A pass and a sender for each of several workers.
#[derive(Drop)]
pub(crate) struct Endpoints {
    pub(crate) passes: Vec<Pass>,
    pub(crate) senders: Vec<SenderPass<Note>>,
}

impl Endpoints {
    /// Returns empty lists of endpoints, with room for the endpoints of `workers` workers.
    pub(crate) fn with_room(alloc: Global, workers: u8) -> Result<Endpoints, OutOfMemory>
        ensures { IfOk result (HaveRoom workers) }
    {
        let passes = Vec::with_capacity(alloc, usize::from(workers))?;
        let senders = Vec::with_capacity(alloc, usize::from(workers))?;
        Ok(Endpoints { passes, senders })
    }

    /// Appends a worker's endpoints, for which there is room.
    pub(crate) fn add(&mut self, pass: Pass, sender: SenderPass<Note>)
        requires passes { length self.old.passes.items < vec_capacity self.old.passes }
        requires senders { length self.old.senders.items < vec_capacity self.old.senders }
        ensures { HasAddedEndpoint pass sender self.old self.new }
    {
        self.passes.push_reserved(pass);
        self.senders.push_reserved(sender);
    }

    /// Removes and returns the endpoints of the last worker, or `None` if there are none.
    pub(crate) fn remove_last(&mut self) -> Option<(Pass, SenderPass<Note>)>
        requires { length self.old.passes.items ≡ length self.old.senders.items }
        ensures none { IfNone result (self.old.senders.items ≡ []) }
        ensures taken_out { IfSome result (λ endpoint. IsTakenOut endpoint self.old self.new) }
    {
        let sender = self.senders.pop()?;
        let Some(pass) = self.passes.pop() else {
            unreachable!()
        };
        Some((pass, sender))
    }
}
