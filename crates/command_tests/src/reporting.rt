//! Tests of `take --report-from`, which also writes the report lines of late soups.

use crate::progress::line_on;
use crate::setup::{machine_of, plan_of};
use crate::streams::{FaultyWriter, Left, quick_writer, slow_writer};
use commands::reporting::do_take_reporting;
use crew::progress_observer::{NoObserver, ProgressObserver};
use pattern_commands::ending::status::Status;
use plane_core::output::Out;
use std::sync::Wait;
use std::thread::Threads;

// Under the profile of `plan_of`, none of these soups settles. An unsettled soup counts as late.
const LINES: &[u8] = b"report 2 rule=b3s23 profile=1,1,1,0 seed= worker=1 soup=0 unsettled\n\
    report 2 rule=b3s23 profile=1,1,1,0 seed= worker=1 soup=1 unsettled\n\
    report 2 rule=b3s23 profile=1,1,1,0 seed= worker=1 soup=2 unsettled\n";

/// The number of bytes of each line of `LINES`.
const LINE: usize = 68;

/// Takes soups 0 to 2 and those of the list `also` with one worker, and reports unsettled soups.
fn left_by<R: AllocGlobal + Threads + Wait + Sync, H: ProgressObserver + Drop>(
    rt: &R,
    also: &str,
    output: FaultyWriter,
    errors: FaultyWriter,
    observer: H,
) -> Left {
    let mut output = Out::new(output);
    let mut machine = machine_of(rt, errors, observer);
    let plan = plan_of(3, also);
    let status = do_take_reporting(&mut machine, &plan, 1, 100_001, &mut output);
    Left::new(status, output, machine.errors)
}

/// Takes soups 0 to 2 with one worker, and reports unsettled soups on standard error, which is this writer.
fn left_by_errors<R: AllocGlobal + Threads + Wait + Sync>(rt: &R, errors: FaultyWriter) -> Left {
    left_by(rt, "", slow_writer(rt.alloc(), 0), errors, NoObserver)
}

#[test]
fn writes_each_line_in_one_write(rt: HostRuntime) {
    let left = left_by_errors(&rt, quick_writer(rt.alloc(), 0));
    assert!(rt; left.has_printed(rt.alloc(), Status::Done, 3, 3, LINES));
    assert!(rt; left.errors.writes == 3);
}

#[test]
fn refuses_before_a_line(rt: HostRuntime) {
    let left = left_by(
        &rt,
        "2+1",
        slow_writer(rt.alloc(), 0),
        slow_writer(rt.alloc(), 0),
        NoObserver,
    );
    assert!(rt; left.is(Status::Refused, b"", b"census: ranges overlap\n"));
}

// Each write has one line, and nothing is written after a failed write.
#[test]
fn ends_if_a_line_is_not_written(rt: HostRuntime) {
    for bad in 1..4 {
        let left = left_by_errors(&rt, quick_writer(rt.alloc(), bad));
        assert!(rt;
            left.is(Status::Failed, b"", &LINES[..(bad - 1) * LINE]),
            "write {bad}"
        );
    }
}

#[test]
fn ends_if_a_line_is_cut(rt: HostRuntime) {
    for bad in [1, LINE, LINE + 1, 3 * LINE] {
        let left = left_by_errors(&rt, slow_writer(rt.alloc(), bad));
        assert!(rt;
            left.is(Status::Failed, b"", &LINES[..bad - 1]),
            "write {bad}"
        );
        assert!(rt; left.errors.writes == bad, "write {bad}");
    }
}

#[test]
fn tells_that_the_haul_is_cut_after_all_lines(rt: HostRuntime) {
    let left = left_by(
        &rt,
        "",
        slow_writer(rt.alloc(), 12),
        slow_writer(rt.alloc(), 0),
        NoObserver,
    );
    assert!(rt; left.status == Status::Failed);
    assert!(rt; left.output.taken.as_slice() == b"@VERSION 2\n".as_slice());
    assert!(rt; left.errors.taken.as_slice().starts_with(LINES));
    assert!(rt;
        left.errors
            .taken
            .as_slice()
            .ends_with(b"soup=2 unsettled\ncensus: write failed\n")
    );
}

// The clock is read at the beginning, and at each of the five calls of `taken`: at 0, 100, 200 milliseconds and so on.
// A progress line that was wiped for a report line is drawn again as it was.
#[test]
fn wipes_the_line_of_progress(rt: HostRuntime) {
    let mut screen = Vec::new(rt.alloc());
    let line = line_on(&rt, &mut screen, true);
    let left = left_by(
        &rt,
        "",
        slow_writer(rt.alloc(), 0),
        slow_writer(rt.alloc(), 0),
        line,
    );
    assert!(rt; left.has_printed(rt.alloc(), Status::Done, 3, 3, LINES));
    let told = b"\r0 of 3 soups\r            \r\r0 of 3 soups\
        \r1 of 3 soups, 5 a second\r                        \r\r1 of 3 soups, 5 a second\
        \r                        \r\r1 of 3 soups, 5 a second\
        \r3 of 3 soups, 7 a second\
        \r                        \r";
    assert!(rt; screen.as_slice() == told.as_slice());
}
