//! Tests which calls an observer receives.
ghost use Rattle.std.specs.Prelude.{◌≤◌};

use crate::left::go_on;
use crate::small::{haul_of, small_job};
use crew::gate::OpenGate;
use crew::progress_observer::ProgressObserver;
use haul_core::report::Report;
use std::sync::Wait;
use std::test::Fail;
use std::thread::Threads;

/// An observer that notes how many workers were asked for, how many were started, and how often `begin` and `end` were
/// called.
#[derive(Clone, Copy)]
struct Roll {
    asked: u8,
    started: u8,
    begun: u8,
    ended: u8,
}

impl ProgressObserver for Roll {
    fn begin(&mut self, _whole: u64, workers: u8) {
        self.asked = workers;
        self.begun = self.begun.saturating_add(1);
    }

    fn started(&mut self, workers: u8) {
        self.started = workers;
    }

    fn report(&mut self, _report: &Report) {}

    fn taken(&mut self, _count: u64) {}

    fn end(&mut self) {
        self.ended = self.ended.saturating_add(1);
    }

    ghost hears_none = { λ _. tt };

    ghost hears_more = { λ _ _ _ _ _ _ _. tt };
}

/// Returns what an observer has noted while `workers` workers took soups. `asked` is 0 if the haul isn't complete.
fn heard_by<R: AllocGlobal + Threads + Wait + Sync>(rt: &R, workers: u8) -> Result<Roll, Fail>
    requires some { 1 ≤ workers }
    requires few { workers ≤ 16 }
{
    let mut roll = Roll {
        asked: 0,
        started: 0,
        begun: 0,
        ended: 0,
    };
    let haul = haul_of(rt.alloc(), small_job()?, 20, 16)?;
    let (_, fault) = go_on(rt, haul, workers, &OpenGate, &mut roll);
    if fault.is_some() {
        roll.asked = 0;
    }
    Ok(roll)
}

#[test]
fn tells_the_observer_how_many_were_started(rt: HostRuntime) -> Result<(), Fail> {
    for workers in 1..17 {
        let roll = heard_by(&rt, workers)?;
        assert!(rt;
            roll.asked == workers && roll.started == workers,
            "{workers} workers"
        );
        assert!(rt; roll.begun == 1 && roll.ended == 1, "{workers} workers");
    }
    Ok(())
}
