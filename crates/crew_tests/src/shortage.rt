//! Tests crews that run out of memory. Whichever allocation is refused, each of these tests passes, or fails only
//! because memory ran out. `checks/program/memory` refuses each allocation in turn.
ghost use Rattle.std.specs.Prelude.{◌≡◌, ◌≢◌, ◌≤◌};

use crate::left::left_by;
use crate::small::small_job;
use crew::gate::{Gate, OpenGate, Stop};
use crew::take::CrewError;
use plane_core::plane::rule::Rule;
use std::process::Abort;
use std::sync::Wait;
use std::sync::atomic::{AtomicU64, Ordering};
use std::test::Fail;
use std::thread::Threads;
use survey_core::job::Job;

/// Lets `workers` workers take `count` soups. Asserts that they complete the haul or memory runs out, and that another
/// call of `take` completes the haul, which is possible only if the haul is still open.
fn assert_taken<R: Abort + AllocGlobal + Threads + Wait + Sync>(
    rt: &R,
    job: Job,
    count: u64,
    workers: u8,
) -> Result<(), Fail>
    requires { 1 ≤ workers }
{
    let left = left_by(rt, job, count, workers, &OpenGate)?;
    assert!(rt; matches!(left.fault, None | Some(CrewError::Memory(_))));
    assert!(rt; left.completed);
    Ok(())
}

#[test]
fn without_memory_one_worker_leaves_the_haul_open(rt: HostRuntime) -> Result<(), Fail> {
    assert_taken(&rt, small_job()?, 4, 1)
}

#[test]
fn without_memory_two_workers_leave_the_haul_open(rt: HostRuntime) -> Result<(), Fail> {
    assert_taken(&rt, small_job()?, 4, 2)
}

// A worker whose thread can't be started must not survey soups in the thread that starts the crew. It would sleep
// forever once the belt is full: the belt has room for 64 notes, and nobody receives any before all threads are
// started. Under this rule all cells die at once, so a soup takes few allocations.
#[test]
fn without_memory_two_hundred_soups_are_taken(rt: HostRuntime) -> Result<(), Fail> {
    let job = Job {
        rule: Rule::read("bs")?,
        ..small_job()?
    };
    assert_taken(&rt, job, 200, 2)
}

/// A gate that stops the second worker, and notes that it did.
#[derive(Drop)]
struct StopsSecond {
    stops: AtomicU64,
}

impl Gate for StopsSecond {
    ghost may_stop = { λ _ worker number. worker ≡ 2 };

    ghost lets = { λ _ worker number. worker ≢ 2 };

    fn before(&self, worker: u8, _number: u64) -> Result<(), Stop> {
        if worker != 2 {
            return Ok(());
        }
        self.stops.store(1, Ordering::SeqCst);
        Err(Stop)
    }
}

// If one worker was stopped and another had no memory, the stop is reported.
#[test]
fn without_memory_a_stop_is_told(rt: HostRuntime) -> Result<(), Fail> {
    let gate = StopsSecond {
        stops: AtomicU64::new(0),
    };
    let left = left_by(&rt, small_job()?, 8, 2, &gate)?;
    let stopped = gate.stops.load(Ordering::SeqCst) != 0;
    let right = match left.fault {
        None => true,
        Some(CrewError::Stopped { worker }) => stopped && worker == 2,
        Some(CrewError::Memory(_)) => !stopped,
        Some(_) => false,
    };
    assert!(rt; right);
    assert!(rt; left.fault.is_none() == (left.missing == 0));
    Ok(())
}
