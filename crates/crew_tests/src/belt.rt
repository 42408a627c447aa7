//! Tests a haul that two threads fill through a belt.
ghost use Rattle.std.specs.Prelude.{◌≡◌, ◌<◌};

use crate::small::{haul_of, small_job};
use crew::collector::collect;
use crew::note::Note;
use crew::progress_observer::NoObserver;
use handover::belt::{Belt, SenderPass};
use haul_core::book::haul::Haul;
use haul_core::report::Report;
use memory::OutOfMemory;
use std::alloc::Global;
use std::process::Abort;
use std::sync::Wait;
use std::test::Fail;
use std::thread::{Threads, join};
use survey_core::job::Job;

/// Presents a worker's reports on a hundred soups, from soup `first` on, and then the note that the worker is done.
fn present_hundred<R: Wait>(
    alloc: Global,
    rt: &R,
    belt: &Belt<Note>,
    pass: SenderPass<Note>,
    job: &Job,
    first: u64,
) -> SenderPass<Note>
    requires belt { pass.belt ≡ belt.now.name }
    requires small { first < 1000 }
    ensures { result.belt ≡ pass.belt }
{
    let mut pass = pass;
    let worker = pass.number();
    for number in first..first + 100 {
        if let Ok(report) = Report::make(alloc, job, worker, number) {
            belt.present(rt, &mut pass, Note::Report(report));
        }
    }
    belt.present(rt, &mut pass, Note::Done { worker });
    pass
}

/// Fills a haul of two hundred soups through a belt with room for one note, with two sending threads and a collector.
/// Returns whether the collector had enough memory.
fn collected<R: Abort + AllocGlobal + Threads + Wait + Sync>(
    rt: &R,
    job: &Job,
    haul: &mut Haul,
) -> Result<bool, OutOfMemory> {
    let alloc = rt.alloc();
    let (belt, mut senders, mut receiver) = Belt::open(alloc, 1, 2)?;
    let Some(second) = senders.pop() else {
        panic!(rt; "no second sender")
    };
    let Some(first) = senders.pop() else {
        panic!(rt; "no first sender")
    };
    let (_, others) = join(
        rt,
        || present_hundred(alloc, rt, &belt, first, job, 0),
        || -> (SenderPass<Note>, bool)
            requires { (second.belt ≡ belt.name) × (receiver.belt ≡ belt) }
        {
            join(
                rt,
                || present_hundred(alloc, rt, &belt, second, job, 100),
                || collect(rt, &belt, &mut receiver, haul, 2, &mut NoObserver).is_ok(),
            )
        },
    );
    Ok(others.1)
}

#[test]
fn collects_from_threads(rt: HostRuntime) -> Result<(), Fail> {
    let job = small_job()?;
    let mut haul = haul_of(rt.alloc(), job, 200, 2)?;
    assert!(rt; collected(&rt, &job, &mut haul).unwrap_or(false));
    assert!(rt; haul.missing_count() == 0);
    Ok(())
}
