//! Tests of the progress line.

use crate::streams::slow_writer;
use commands::progress_line::ProgressLine;
use crew::progress_observer::ProgressObserver;
use std::cell::Cell;
use std::io::{self, Write};
use std::time::{Clock, Duration};

/// A clock on which `step` milliseconds pass between two readings, and which shows `now` at the next reading.
#[derive(Drop)]
pub(crate) struct Ticking {
    now: Cell<u64>,
    step: u64,
}

impl Clock for Ticking {
    fn monotonic(&self) -> io::Result<Duration> {
        let now = self.now.get();
        self.now.set(now.saturating_add(self.step));
        Ok(Duration::from_millis(now))
    }

    fn since_1970(&self) -> io::Result<Duration> {
        Ok(Duration::from_millis(0))
    }
}

/// Returns a progress line on this writer, with a clock that begins at 0 and on which 100 milliseconds pass between two
/// readings.
pub(crate) fn line_on<W: Write>(
    rt: &impl AllocGlobal,
    writer: W,
    is_shown: bool,
) -> ProgressLine<W, Ticking> {
    line_by(rt, writer, is_shown, 100)
}

/// Returns a progress line on this writer, with a clock that begins at 0 and on which `step` milliseconds pass between
/// two readings.
fn line_by<W: Write>(
    rt: &impl AllocGlobal,
    writer: W,
    is_shown: bool,
    step: u64,
) -> ProgressLine<W, Ticking> {
    let clock = Ticking {
        now: Cell::new(0),
        step,
    };
    ProgressLine::new(rt.alloc(), writer, clock, is_shown)
}

/// Reports to the line that all sixteen workers were started, and then that 1, 2, 2 and 3 of twelve soups were taken.
/// The line reads the clock at the beginning, and at each of the four counts.
fn tell(line: &mut impl ProgressObserver) {
    tell_by(line, 16);
}

/// Reports to the line that `started` of sixteen workers were started, and then that 1, 2, 2 and 3 of twelve soups were
/// taken.
fn tell_by(line: &mut impl ProgressObserver, started: u8) {
    line.begin(12, 16);
    line.started(started);
    for count in [1, 2, 2, 3] {
        line.taken(count);
    }
    line.end();
}

// The line is due at 0, 200 and 400 milliseconds. 2 soups in 200 milliseconds are 10 a second, and 3 soups in 400
// milliseconds are 7.5 a second.
const TOLD: &[u8] = b"\r0 of 12 soups\
    \r2 of 12 soups, 10 a second\
    \r3 of 12 soups, 7 a second \
    \r                          \r";

#[test]
fn tells_and_wipes_its_line(rt: HostRuntime) {
    let mut screen = Vec::new(rt.alloc());
    let mut line = line_on(&rt, &mut screen, true);
    tell(&mut line);
    line.taken(4);
    line.end();
    assert!(rt; screen.as_slice() == TOLD);
}

/// Returns what a progress line writes. `is_shown` says whether the line is shown in any case, and `is_asked` says
/// whether it is asked for.
fn told(rt: &impl AllocGlobal, is_shown: bool, is_asked: bool) -> Vec<u8> {
    let mut screen = Vec::new(rt.alloc());
    let mut line = line_on(rt, &mut screen, is_shown);
    line.ask(is_asked);
    tell(&mut line);
    screen
}

// A line that is asked for is shown. On a terminal (`is_shown`), the line is shown whether it is asked for or not.
#[test]
fn tells_nothing_unless_it_is_to_be_shown(rt: HostRuntime) {
    assert!(rt; told(&rt, false, false).is_empty());
    assert!(rt; told(&rt, false, true).as_slice() == TOLD);
    assert!(rt; told(&rt, true, false).as_slice() == TOLD);
}

// What is written if only three of the sixteen workers were started: `TOLD` with 17 more characters about the workers,
// except in its first line.
const TOLD_OF_THREE: &[u8] = b"\r0 of 12 soups\
    \r2 of 12 soups, 10 a second, 3 of 16 workers\
    \r3 of 12 soups, 7 a second, 3 of 16 workers \
    \r                                           \r";

#[test]
fn tells_how_many_workers_were_started(rt: HostRuntime) {
    let mut screen = Vec::new(rt.alloc());
    let mut line = line_on(&rt, &mut screen, true);
    tell_by(&mut line, 3);
    assert!(rt; screen.as_slice() == TOLD_OF_THREE);
}

// An hour has 3,600 seconds: 3,599 soups in one hour are less than one a second, 8,000,000 in two hours are 1,111 a
// second, and 2^24 in three hours are 1,553 a second.
const TOLD_BY_HOURS: &[u8] = b"\r0 of 16777216 soups\
    \r3599 of 16777216 soups, 0 a second\
    \r8000000 of 16777216 soups, 1111 a second\
    \r16777216 of 16777216 soups, 1553 a second\
    \r                                         \r";

#[test]
fn tells_the_rate_after_hours(rt: HostRuntime) {
    let mut screen = Vec::new(rt.alloc());
    let mut line = line_by(&rt, &mut screen, true, 3_600_000);
    line.begin(1 << 24, 16);
    line.started(16);
    for count in [3_599, 8_000_000, 1 << 24] {
        line.taken(count);
    }
    line.end();
    assert!(rt; screen.as_slice() == TOLD_BY_HOURS);
}

#[test]
fn a_failed_write_is_the_last(rt: HostRuntime) {
    let mut screen = slow_writer(rt.alloc(), 21);
    let mut line = line_on(&rt, &mut screen, true);
    tell(&mut line);
    assert!(rt; screen.taken.as_slice() == &TOLD[..20]);
}
