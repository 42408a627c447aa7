//! Tests of how the command `gather` uses its streams.

use crate::setup::plan_of;
use crate::streams::{
    FaultyReader, FaultyWriter, Left, quick_writer, reader, reader_by, slow_writer,
};
use commands::gather::do_gather;
use pattern_commands::ending::status::Status;
use plane_core::output::Out;
use std::alloc::Global;
use std::io::ErrorKind;

/// Report lines of version 1 about soups 3 and 0 of the empty seed. The soups aren't still lifes, so they don't settle
/// under this profile. The third line repeats the first line, and the fourth line is cut off.
const LINES: &[u8] = b"report 1 rule=b3s23 profile=1,1,1,0 seed= worker=1 soup=3 unsettled\n\
    report 1 rule=b3s23 profile=1,1,1,0 seed= worker=2 soup=0 unsettled\n\
    report 1 rule=b3s23 profile=1,1,1,0 seed= worker=1 soup=3 unsettled\n\
    report 1 rule=b3s23 profile=1,1,1,0 seed= wor\n";

const TOLD: &[u8] = b"line 3: double of 3 by 1\n\
    line 4: bad line at 42\n\
    census: incomplete, 2 missing\n";

/// The length of the first two lines of `TOLD`, in bytes. They are about report lines that weren't taken. The third
/// line of `TOLD` is about missing soups.
const TOLD_OF_LINES: usize = 48;

/// Runs `gather` on an input, for soups 0 to 3 and workers 1 and 2.
fn left_by(
    alloc: Global,
    mut input: FaultyReader<'_>,
    output: FaultyWriter,
    errors: FaultyWriter,
) -> Left {
    let mut output = Out::new(output);
    let mut errors = Out::new(errors);
    let plan = plan_of(4, "");
    let status = do_gather(alloc, &plan, 2, &mut input, &mut output, &mut errors);
    Left::new(status, output, errors)
}

/// Runs `gather` on `LINES`, with one byte per read. Read number `bad` fails with an error of this kind.
fn left_by_reads(alloc: Global, bad: usize, kind: ErrorKind) -> Left {
    left_by(
        alloc,
        reader(LINES, bad, kind),
        slow_writer(alloc, 0),
        slow_writer(alloc, 0),
    )
}

// Each read gives one byte. The third line ends with byte 204, and its fault is written before read 205.
#[test]
fn tells_a_failed_read(rt: HostRuntime) {
    for bad in [1, 2, 69, 204] {
        let left = left_by_reads(rt.alloc(), bad, ErrorKind::Other);
        assert!(rt;
            left.is(Status::Failed, b"", b"census: read failed\n"),
            "read {bad}"
        );
    }
    let left = left_by_reads(rt.alloc(), 205, ErrorKind::Other);
    assert!(rt;
        left.is(
            Status::Failed,
            b"",
            b"line 3: double of 3 by 1\ncensus: read failed\n"
        )
    );
}

// The first two reads give all lines, and the third read fails.
#[test]
fn tells_all_lines_before_a_failed_read(rt: HostRuntime) {
    let left = left_by(
        rt.alloc(),
        reader_by(LINES, 140, 3, ErrorKind::Other),
        slow_writer(rt.alloc(), 0),
        slow_writer(rt.alloc(), 0),
    );
    assert!(rt;
        left.is(
            Status::Failed,
            b"",
            b"line 3: double of 3 by 1\nline 4: bad line at 42\ncensus: read failed\n"
        )
    );
}

/// Runs `gather` on `LINES`, with this writer as standard error.
fn left_by_writes(alloc: Global, errors: FaultyWriter) -> Left {
    left_by(
        alloc,
        reader(LINES, 0, ErrorKind::Other),
        slow_writer(alloc, 0),
        errors,
    )
}

// If a line about a report line can't be written, the command fails and prints no haul. If the line about missing soups
// can't be written, the haul and the status are the same as without this failure.
#[test]
fn ends_if_a_line_is_not_told(rt: HostRuntime) {
    for bad in [1, 26, TOLD_OF_LINES] {
        let left = left_by_writes(rt.alloc(), slow_writer(rt.alloc(), bad));
        assert!(rt;
            left.is(Status::Failed, b"", &TOLD[..bad - 1]),
            "write {bad}"
        );
    }
    for bad in [TOLD_OF_LINES + 1, TOLD.len()] {
        let left = left_by_writes(rt.alloc(), slow_writer(rt.alloc(), bad));
        assert!(rt;
            left.has_printed(rt.alloc(), Status::Incomplete, 4, 2, &TOLD[..bad - 1]),
            "write {bad}"
        );
    }
}

#[test]
fn tells_each_line_in_one_write(rt: HostRuntime) {
    let left = left_by_writes(rt.alloc(), quick_writer(rt.alloc(), 0));
    assert!(rt; left.has_printed(rt.alloc(), Status::Incomplete, 4, 2, TOLD));
    assert!(rt; left.errors.writes == 3);
}

// Write 1 is the line about report line 3, and write 2 is the line about report line 4.
#[test]
fn ends_if_a_write_is_interrupted(rt: HostRuntime) {
    for (bad, told) in [(1, 0), (2, 25)] {
        let left = left_by_writes(rt.alloc(), quick_writer(rt.alloc(), bad));
        assert!(rt; left.is(Status::Failed, b"", &TOLD[..told]), "write {bad}");
    }
}

#[test]
fn tells_an_interrupted_read(rt: HostRuntime) {
    for bad in [1, 2, 69, 204] {
        let left = left_by_reads(rt.alloc(), bad, ErrorKind::Interrupted);
        assert!(rt;
            left.is(Status::Failed, b"", b"census: read failed\n"),
            "read {bad}"
        );
    }
}
