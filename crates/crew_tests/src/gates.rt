//! Tests crews under gates that stop workers, or that hold workers until others have come to the gate.
ghost use Rattle.std.specs.Prelude.{◌≡◌, ◌<◌, ◌≤◌, ◌⊎◌};

use crate::left::{Left, go_on, left_by};
use crate::small::{haul_of, small_job};
use crew::gate::{Gate, OpenGate, Stop};
use crew::progress_observer::NoObserver;
use crew::take::CrewError;
use haul_core::book::haul::Haul;
use plane_core::plane::cell::Cell;
use plane_core::plane::pattern::{FromCellsError, Pattern};
use plane_core::plane::rule::Rule;
use std::alloc::Global;
use std::sync::Wait;
use std::sync::atomic::{AtomicU64, Ordering};
use std::test::Fail;
use std::thread::Threads;

/// How often a gate looks for other workers before it gives up.
const TURNS: u32 = 1_000_000;

/// A count of how often workers have come to a gate. A worker can wait until the count reaches a given number. Each
/// turn of waiting advances a block by one generation, so that the turn takes some time.
#[derive(Drop)]
pub(crate) struct Patience {
    alloc: Global,
    block: Pattern,
    come: AtomicU64,
}

const BLOCK: [Cell; 4] = [
    Cell { x: 0, y: 0 },
    Cell { x: 1, y: 0 },
    Cell { x: 0, y: 1 },
    Cell { x: 1, y: 1 },
];

impl Patience {
    pub(crate) fn new(alloc: Global) -> Result<Patience, FromCellsError> {
        let block = Pattern::from_cells(alloc, &BLOCK)?;
        Ok(Patience {
            alloc,
            block,
            come: AtomicU64::new(0),
        })
    }

    fn come(&self) {
        self.come.fetch_add(1, Ordering::SeqCst);
    }

    /// Waits until workers have come `number` times, for at most `TURNS` turns. Returns `Stop` if they haven't by then.
    fn wait_for(&self, number: u64) -> Result<(), Stop> {
        for _ in 0..TURNS {
            if self.come.load(Ordering::SeqCst) >= number {
                return Ok(());
            }
            drop(self.block.step(self.alloc, &Rule::life()));
        }
        Err(Stop)
    }
}

/// A gate that holds each of sixteen workers at its k-th soup until all workers have come to their k-th soup.
#[derive(Drop)]
struct Lockstep {
    patience: Patience,
}

impl Gate for Lockstep {
    ghost may_stop = { λ _ worker number. Unit {0} };

    ghost lets = { λ _ worker number. Unit {0} };

    // The workers take the soups in rounds of sixteen: soups 0 to 15, soups 16 to 31, and so on. A worker goes on only
    // when the gate has been asked about all soups of the worker's round.
    fn before(&self, _worker: u8, number: u64) -> Result<(), Stop> {
        self.patience.come();
        let rounds = (number / 16).saturating_add(1);
        self.patience.wait_for(rounds.saturating_mul(16))
    }
}

#[test]
fn works_in_sixteen_threads(rt: HostRuntime) -> Result<(), Fail> {
    let job = small_job()?;
    let gate = Lockstep {
        patience: Patience::new(rt.alloc())?,
    };
    let left = left_by(&rt, job, 48, 16, &gate)?;
    assert!(rt; left.missing == 0);
    for worker in 1..17 {
        assert!(rt; left.count_of(worker) == 3, "worker {worker}");
    }
    Ok(())
}

/// A gate that stops the workers from `first` to `last`, and lets the others go on only after all of these were
/// stopped.
#[derive(Drop)]
pub(crate) struct StopsSome {
    pub(crate) first: u8,
    pub(crate) last: u8,
    pub(crate) patience: Patience,
}

impl Gate for StopsSome {
    ghost may_stop = { λ _ worker number. Unit {0} };

    ghost lets = { λ gate worker number. (worker < gate.first) ⊎ (gate.last < worker) };

    fn before(&self, worker: u8, _number: u64) -> Result<(), Stop> {
        if self.first <= worker && worker <= self.last {
            self.patience.come();
            return Err(Stop);
        }
        let stopped = self.last.saturating_sub(self.first).saturating_add(1);
        self.patience.wait_for(u64::from(stopped))
    }
}

/// Returns the result of sixteen workers on forty soups, if the workers from `first` to `last` are stopped.
fn left_by_stops<R: AllocGlobal + Threads + Wait + Sync>(
    rt: &R,
    first: u8,
    last: u8,
) -> Result<Left, Fail> {
    let job = small_job()?;
    let gate = StopsSome {
        first,
        last,
        patience: Patience::new(rt.alloc())?,
    };
    left_by(rt, job, 40, 16, &gate)
}

#[test]
fn tells_each_of_sixteen_that_is_stopped(rt: HostRuntime) -> Result<(), Fail> {
    for worker in 1..17 {
        let left = left_by_stops(&rt, worker, worker)?;
        assert!(rt;
            left.fault == Some(CrewError::Stopped { worker }),
            "worker {worker}"
        );
        assert!(rt;
            left.missing == 1 && left.count_of(worker) == 0,
            "worker {worker}"
        );
        assert!(rt; left.completed, "worker {worker}");
    }
    Ok(())
}

// If several workers were stopped, the one with the lowest number is reported.
#[test]
fn tells_the_least_that_is_stopped(rt: HostRuntime) -> Result<(), Fail> {
    for worker in 1..17 {
        let left = left_by_stops(&rt, worker, 16)?;
        assert!(rt;
            left.fault == Some(CrewError::Stopped { worker }),
            "worker {worker}"
        );
        assert!(rt; left.missing > 0 && left.completed, "worker {worker}");
    }
    Ok(())
}

/// A gate that stops every worker after `calls` calls of all workers together.
#[derive(Drop)]
pub(crate) struct Shutter {
    calls: u64,
    called: AtomicU64,
}

impl Shutter {
    pub(crate) fn after(calls: u64) -> Shutter {
        Shutter {
            calls,
            called: AtomicU64::new(0),
        }
    }
}

impl Gate for Shutter {
    ghost may_stop = { λ _ worker number. Unit {0} };

    ghost lets = { λ _ worker number. Unit {0} };

    fn before(&self, _worker: u8, _number: u64) -> Result<(), Stop> {
        if self.called.fetch_add(1, Ordering::SeqCst) < self.calls {
            Ok(())
        } else {
            Err(Stop)
        }
    }
}

/// Lets workers go on with a haul under a gate that stops every worker after `calls` soups. Returns the haul, and
/// whether the workers took `calls` soups, or all missing soups if there were fewer. If `calls` is 0, worker 1 also has
/// to be reported as stopped.
fn goes_on_for<R: AllocGlobal + Threads + Wait + Sync>(
    rt: &R,
    haul: Haul,
    workers: u8,
    calls: u64,
) -> (Haul, bool)
    requires some { 1 ≤ workers }
    requires few { workers ≤ haul.terms.workers }
    ensures { result.0.terms ≡ haul.terms }
{
    let before = haul.missing_count();
    let (haul, fault) = go_on(rt, haul, workers, &Shutter::after(calls), &mut NoObserver);
    let right = haul.missing_count() == before.saturating_sub(calls);
    // If each worker is stopped at its first call, worker 1 is reported, which has the lowest number.
    let is_first = fault == Some(CrewError::Stopped { worker: 1 });
    (haul, right && (calls > 0 || is_first))
}

/// Checks whether workers take `calls` of `soups` soups before a gate stops every worker, then `calls` more before a
/// second gate stops every worker, and then the rest.
fn goes_on_after<R: AllocGlobal + Threads + Wait + Sync>(
    rt: &R,
    soups: u64,
    workers: u8,
    calls: u64,
) -> Result<bool, Fail> {
    if workers < 1 || 16 < workers {
        return Err(Fail::new("there are 1 to 16 workers"));
    }
    let haul = haul_of(rt.alloc(), small_job()?, soups, 16)?;
    let (haul, is_right) = goes_on_for(rt, haul, workers, calls);
    let (haul, is_right_again) = goes_on_for(rt, haul, workers, calls);
    let (haul, fault) = go_on(rt, haul, workers, &OpenGate, &mut NoObserver);
    let is_complete = haul.is_complete();
    drop(haul);
    Ok(is_right && is_right_again && is_complete && fault.is_none())
}

/// How many soups are taken before a gate stops every worker: counts near multiples of eight, because the collector is
/// woken with every eighth note, and near 64, because the belt has room for 64 notes.
const CALLS: [u64; 19] = [
    0, 1, 2, 3, 4, 5, 6, 7, 8, 9, 15, 16, 17, 63, 64, 65, 127, 128, 129,
];

#[test]
fn goes_on_after_any_number_of_soups(rt: HostRuntime) -> Result<(), Fail> {
    for soups in [8, 300] {
        for workers in [1, 2, 3, 7] {
            for calls in CALLS {
                assert!(rt;
                    goes_on_after(&rt, soups, workers, calls)?,
                    "{calls} of {soups} soups, {workers} workers"
                );
            }
        }
    }
    Ok(())
}

#[test]
fn sixteen_workers_take_many_soups(rt: HostRuntime) -> Result<(), Fail> {
    for _ in 0..20 {
        let left = left_by(&rt, small_job()?, 2000, 16, &OpenGate)?;
        assert!(rt; left.missing == 0);
    }
    Ok(())
}
