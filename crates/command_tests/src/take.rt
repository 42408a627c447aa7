//! Tests of the command `take` with a progress line, and with a gate that stops workers.

ghost use Rattle.haul_core.specs.Reports.{IsWorker};

use crate::progress::line_on;
use crate::setup::{machine_of, plan_of};
use crate::streams::{Left, slow_writer};
use commands::take::do_take_with;
use crew::gate::{Gate, OpenGate, Stop};
use crew::progress_observer::{NoObserver, ProgressObserver};
use pattern_commands::ending::status::Status;
use plane_core::output::Out;
use std::sync::Wait;
use std::sync::atomic::{AtomicU64, Ordering};
use std::thread::Threads;

/// Takes the first `count` soups with `workers` workers, this gate and this observer.
fn left_by<G: Gate + Sync, R: AllocGlobal + Threads + Wait + Sync, H: ProgressObserver + Drop>(
    rt: &R,
    count: u64,
    workers: u8,
    gate: &G,
    observer: H,
) -> Left
    requires { IsWorker workers }
{
    let mut output = Out::new(slow_writer(rt.alloc(), 0));
    let mut machine = machine_of(rt, slow_writer(rt.alloc(), 0), observer);
    let plan = plan_of(count, "");
    let status = do_take_with(&mut machine, &plan, workers, gate, &mut output);
    Left::new(status, output, machine.errors)
}

// The progress line is due at 0, 200, 400 and 600 milliseconds. The progress is reported before each of the worker's
// five notes (four reports and `Done`), and at the end.
#[test]
fn takes_soups_under_a_line_of_progress(rt: HostRuntime) {
    let mut screen = Vec::new(rt.alloc());
    let line = line_on(&rt, &mut screen, true);
    let left = left_by(&rt, 4, 1, &OpenGate, line);
    assert!(rt; left.has_printed(rt.alloc(), Status::Done, 4, 4, b""));
    let told =
        b"\r0 of 4 soups\r1 of 4 soups, 5 a second\r3 of 4 soups, 7 a second\r4 of 4 soups, 6 a second\
        \r                        \r";
    assert!(rt; screen.as_slice() == told.as_slice());
}

/// A gate that stops each of three workers when the worker asks for the second time.
#[derive(Drop)]
struct OneEach {
    calls: [AtomicU64; 4],
}

impl Gate for OneEach {
    ghost may_stop = { λ _ worker number. Unit {0} };

    ghost lets = { λ _ worker number. Unit {0} };

    fn before(&self, worker: u8, _number: u64) -> Result<(), Stop> {
        let Some(calls) = self.calls.get(usize::from(worker)) else {
            return Err(Stop);
        };
        if calls.fetch_add(1, Ordering::SeqCst) == 0 {
            Ok(())
        } else {
            Err(Stop)
        }
    }
}

#[test]
fn prints_what_was_taken_before_a_stop(rt: HostRuntime) {
    let gate = OneEach {
        calls: [
            AtomicU64::new(0),
            AtomicU64::new(0),
            AtomicU64::new(0),
            AtomicU64::new(0),
        ],
    };
    let left = left_by(&rt, 8, 3, &gate, NoObserver);
    assert!(rt;
        left.has_printed(
            rt.alloc(),
            Status::Incomplete,
            8,
            3,
            b"census: incomplete, 5 missing\n"
        )
    );
}
