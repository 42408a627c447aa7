//! Tests that a gate is asked once for each soup, by the worker that takes the soup, and before the soup is surveyed.
use crate::gates::Shutter;
use crate::left::go_on;
use crate::small::{haul_of, small_job};
use crew::gate::{Gate, Stop};
use crew::progress_observer::NoObserver;
use crew::take::CrewError;
use haul_core::book::haul::Haul;
use memory::OutOfMemory;
use plane_core::plane::rule::Rule;
use std::alloc::Global;
use std::sync::Wait;
use std::sync::atomic::{AtomicU64, Ordering};
use std::test::Fail;
use std::thread::Threads;
use survey_core::job::Job;
use survey_core::profile::Profile;

/// What each call of a `Register` adds to the sum for a soup, besides the worker's number.
const CALL: u64 = 1000;

/// A gate that stops nobody. It keeps a sum for each soup. Each call for the soup adds `CALL` and the worker's number.
#[derive(Drop)]
struct Register {
    sums: Vec<AtomicU64>,
}

impl Register {
    fn new(alloc: Global, soups: u64) -> Result<Register, OutOfMemory> {
        let mut sums = Vec::new(alloc);
        for _ in 0..soups {
            sums.push(AtomicU64::new(0))?;
        }
        Ok(Register { sums })
    }

    /// Checks whether the gate was asked once for this soup, by this worker.
    fn has_asked(&self, worker: u8, number: u64) -> bool {
        match self.sums.get(number as usize) {
            Some(sum) => sum.load(Ordering::SeqCst) == u64::from(worker) + CALL,
            None => false,
        }
    }
}

impl Gate for Register {
    ghost may_stop = { λ _ worker number. Unit {0} };

    ghost lets = { λ _ worker number. Unit {0} };

    fn before(&self, worker: u8, number: u64) -> Result<(), Stop> {
        if let Some(sum) = self.sums.get(number as usize) {
            sum.fetch_add(u64::from(worker) + CALL, Ordering::SeqCst);
        }
        Ok(())
    }
}

/// Returns the number of taken soups for which the gate was asked once, by the worker that took the soup.
fn asked_for(register: &Register, haul: &Haul) -> u64 {
    let mut count = 0_u64;
    for (worker, number) in haul.taken() {
        if register.has_asked(*worker, *number) {
            count = count.saturating_add(1);
        }
    }
    count
}

/// Lets `workers` workers take `soups` soups. Returns for how many of the soups the gate was asked once, by the worker
/// that took the soup.
fn counted<R: AllocGlobal + Threads + Wait + Sync>(
    rt: &R,
    soups: u64,
    workers: u8,
) -> Result<u64, Fail> {
    if workers < 1 || 16 < workers {
        return Err(Fail::new("there are 1 to 16 workers"));
    }
    let register = Register::new(rt.alloc(), soups)?;
    let haul = haul_of(rt.alloc(), small_job()?, soups, 16)?;
    let (haul, _) = go_on(rt, haul, workers, &register, &mut NoObserver);
    let asked = asked_for(&register, &haul);
    drop(haul);
    Ok(asked)
}

#[test]
fn the_gate_is_asked_once_for_each_soup(rt: HostRuntime) -> Result<(), Fail> {
    for workers in [1, 2, 4, 7] {
        let asked = counted(&rt, 12_000, workers)?;
        assert!(rt; asked == 12_000, "{workers} workers");
    }
    Ok(())
}

/// Returns why a crew of three doesn't complete its haul if the gate stops each worker at its first soup. Under the
/// rule b2s, a soup explodes, and its only checkpoint after generation 0 is generation 10,000, so that a survey takes
/// minutes.
fn stopped_at_once<R: AllocGlobal + Threads + Wait + Sync>(
    rt: &R,
) -> Result<Option<CrewError>, Fail> {
    let job = Job {
        rule: Rule::read("b2s")?,
        profile: Profile::new(1, 1, 10_000, 10_000)?,
        ..small_job()?
    };
    let haul = haul_of(rt.alloc(), job, 8, 3)?;
    let (haul, fault) = go_on(rt, haul, 3, &Shutter::after(0), &mut NoObserver);
    drop(haul);
    Ok(fault)
}

// If a soup were surveyed before the gate is asked, the test would take longer than the minute that `rt` allows.
#[test]
fn the_gate_is_asked_before_a_survey(rt: HostRuntime) -> Result<(), Fail> {
    assert!(rt; stopped_at_once(&rt)? == Some(CrewError::Stopped { worker: 1 }));
    Ok(())
}
