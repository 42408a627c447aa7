//! The result of a crew's run in plain numbers, which a test gets instead of the haul. A test that owned the haul would
//! be expensive to prove, because the haul would be dropped at each exit of the test.
ghost use Rattle.std.specs.Prelude.{◌≡◌, ◌≤◌};

use crate::small::haul_of;
use crew::gate::{Gate, OpenGate};
use crew::progress_observer::{NoObserver, ProgressObserver};
use crew::take::{CrewError, take};
use haul_core::book::haul::Haul;
use std::sync::Wait;
use std::test::Fail;
use std::thread::Threads;
use survey_core::job::Job;

/// The result of a crew's run.
#[derive(Clone, Copy)]
pub(crate) struct Left {
    /// Why the haul was not complete, or `None` if it was.
    pub(crate) fault: Option<CrewError>,
    pub(crate) missing: u64,
    /// The number of soups that the haul had taken from each worker. The index is the worker's number.
    pub(crate) counts: [u64; 17],
    /// Whether another call of `take`, under a gate that stops nobody, completed the haul.
    pub(crate) completed: bool,
}

impl Left {
    /// Returns the number of soups that the haul had taken from a worker.
    pub(crate) fn count_of(&self, worker: u8) -> u64 {
        match self.counts.get(usize::from(worker)) {
            Some(count) => *count,
            None => 0,
        }
    }
}

fn counts_in(taken: &[(u8, u64)]) -> [u64; 17] {
    let mut counts = [0u64; 17];
    for (worker, _) in taken {
        if let Some(count) = counts.get_mut(usize::from(*worker)) {
            *count = count.saturating_add(1);
        }
    }
    counts
}

/// Lets workers take what is missing in a haul. Returns the haul, and why it isn't complete, or `None` if it is.
pub(crate) fn go_on<G: Gate + Sync, R: AllocGlobal + Threads + Wait + Sync, H: ProgressObserver>(
    rt: &R,
    haul: Haul,
    workers: u8,
    gate: &G,
    observer: &mut H,
) -> (Haul, Option<CrewError>)
    requires some { 1 ≤ workers }
    requires few { workers ≤ haul.terms.workers }
    ensures { result.0.terms ≡ haul.terms }
{
    match take(rt.alloc(), rt, haul, workers, gate, observer) {
        Ok(haul) => (haul, None),
        Err((haul, fault)) => (haul, Some(fault)),
    }
}

/// Lets `workers` workers take the first `count` soups of a job under `gate`, and then lets them take the missing soups
/// under a gate that stops nobody. Returns the result of the first run, and whether the second completed the haul.
pub(crate) fn left_by<G: Gate + Sync, R: AllocGlobal + Threads + Wait + Sync>(
    rt: &R,
    job: Job,
    count: u64,
    workers: u8,
    gate: &G,
) -> Result<Left, Fail>
    requires { 1 ≤ workers }
{
    let haul = haul_of(rt.alloc(), job, count, workers)?;
    let (haul, fault) = go_on(rt, haul, workers, gate, &mut NoObserver);
    let missing = haul.missing_count();
    let counts = counts_in(haul.taken());
    let (_, later) = go_on(rt, haul, workers, &OpenGate, &mut NoObserver);
    Ok(Left {
        fault,
        missing,
        counts,
        completed: later.is_none(),
    })
}
