//! What all workers of a crew share.
ghost use Rattle.std.specs.Prelude.{◌≡◌, ◌<◌, All, vec_len};
ghost use Rattle.ranges.specs.Ranges.{number_bound};

use crate::note::Note;
use handover::belt::Belt;
use handover::tickets::Tickets;
use std::sync::atomic::AtomicU64;
use survey_core::job::Job;

/// What all workers share.
#[derive(Drop)]
pub(crate) struct Shared {
    pub(crate) job: Job,
    pub(crate) tickets: Tickets,
    pub(crate) belt: Belt<Note>,
    /// The numbers to survey. A ticket is an index into this list.
    pub(crate) missing: Vec<u64>,
    /// The number of the latest worker for which no thread could be started, or 0 if there is none. A worker that finds
    /// its own number here ends at once.
    pub(crate) called_off: AtomicU64,
    ghost listed: { tickets.count ≡ vec_len missing },
    ghost below: { All (λ n. n < number_bound) missing.items },
}
