//! Tests of how `run`, `run --sizes` and `show` use their streams, and of `send_buffered`.

use crate::streams::{FaultyReader, FaultyWriter, Left, quick_writer, reader, slow_writer};
use pattern_commands::ending::status::Status;
use pattern_commands::output::send_buffered;
use pattern_commands::run::do_run;
use pattern_commands::show::do_show;
use pattern_commands::sizes::do_sizes;
use plane_core::output::Out;
use requests::form::PatternForm;
use std::alloc::Global;
use std::io::{self, BufWriter, ErrorKind, Write};
use std::test::Fail;

const BLINKER: &[u8] = b"OOO\n";

const UPRIGHT: &[u8] = b"O\nO\nO\n";

/// The coordinates of the blinker after one generation.
const COORDINATES: &[u8] = b"1 -1\n1 0\n1 1\n";

/// The lines of `run --sizes` for the blinker from generation 0 to 2. Each line has the generation, the population, and
/// the first column, first row, last column and last row.
const SIZES: &[u8] = b"0 3 0 0 2 0\n1 3 1 -1 1 1\n2 3 0 0 2 0\n";

/// Runs an input for one generation of Life, and writes the result as plaintext.
fn left_by(
    input: FaultyReader<'_>,
    output: FaultyWriter,
    errors: FaultyWriter,
    alloc: Global,
) -> Left {
    left_in_form(PatternForm::Plaintext, input, output, errors, alloc)
}

/// Runs an input for one generation of Life, and writes the result in this form.
fn left_in_form(
    form: PatternForm,
    mut input: FaultyReader<'_>,
    output: FaultyWriter,
    errors: FaultyWriter,
    alloc: Global,
) -> Left {
    let mut output = Out::new(output);
    let mut errors = Out::new(errors);
    let status = do_run(
        alloc,
        1,
        form,
        "b3s23",
        &mut input,
        &mut output,
        &mut errors,
    );
    Left::new(status, output, errors)
}

/// Runs the blinker for one generation, and writes its coordinates, one byte per write. Write number `bad` fails.
fn left_by_coordinates(alloc: Global, bad: usize) -> Left {
    left_in_form(
        PatternForm::Coordinates,
        reader(BLINKER, 0, ErrorKind::Other),
        slow_writer(alloc, bad),
        slow_writer(alloc, 0),
        alloc,
    )
}

/// Writes the sizes of the blinker from generation 0 to 2, one byte per write. Write number `bad` fails.
fn left_by_sizes(alloc: Global, bad: usize) -> Left {
    let mut input = reader(BLINKER, 0, ErrorKind::Other);
    let mut output = Out::new(slow_writer(alloc, bad));
    let mut errors = Out::new(slow_writer(alloc, 0));
    let status = do_sizes(alloc, 0, 2, "b3s23", &mut input, &mut output, &mut errors);
    Left::new(status, output, errors)
}

/// Runs the blinker for one generation, with one byte per read. Read number `bad` fails with an error of this kind.
fn left_by_reads(alloc: Global, bad: usize, kind: ErrorKind) -> Left {
    left_by(
        reader(BLINKER, bad, kind),
        slow_writer(alloc, 0),
        slow_writer(alloc, 0),
        alloc,
    )
}

/// Runs the blinker for one generation, with this writer as standard output.
fn left_by_writes(alloc: Global, output: FaultyWriter) -> Left {
    left_by(
        reader(BLINKER, 0, ErrorKind::Other),
        output,
        slow_writer(alloc, 0),
        alloc,
    )
}

// There are four reads of one byte each, and a fifth read that finds the end of the input. No read follows.
#[test]
fn tells_each_failed_read(rt: HostRuntime) {
    for bad in 1..6 {
        let left = left_by_reads(rt.alloc(), bad, ErrorKind::Other);
        assert!(rt;
            left.is(Status::Failed, b"", b"census: read failed\n"),
            "read {bad}"
        );
    }
    let left = left_by_reads(rt.alloc(), 6, ErrorKind::Other);
    assert!(rt; left.is(Status::Done, UPRIGHT, b""));
}

#[test]
fn tells_each_failed_write(rt: HostRuntime) {
    for bad in 1..7 {
        let left = left_by_writes(rt.alloc(), slow_writer(rt.alloc(), bad));
        let taken = &UPRIGHT[..bad - 1];
        assert!(rt;
            left.is(Status::Failed, taken, b"census: write failed\n"),
            "write {bad}"
        );
    }
    let left = left_by_writes(rt.alloc(), slow_writer(rt.alloc(), 7));
    assert!(rt; left.is(Status::Done, UPRIGHT, b""));
}

#[test]
fn tells_each_failed_write_of_coordinates(rt: HostRuntime) {
    for bad in 1..14 {
        let left = left_by_coordinates(rt.alloc(), bad);
        let taken = &COORDINATES[..bad - 1];
        assert!(rt;
            left.is(Status::Failed, taken, b"census: write failed\n"),
            "write {bad}"
        );
    }
    let left = left_by_coordinates(rt.alloc(), 14);
    assert!(rt; left.is(Status::Done, COORDINATES, b""));
}

#[test]
fn tells_each_failed_write_of_sizes(rt: HostRuntime) {
    for bad in 1..38 {
        let left = left_by_sizes(rt.alloc(), bad);
        let taken = &SIZES[..bad - 1];
        assert!(rt;
            left.is(Status::Failed, taken, b"census: write failed\n"),
            "write {bad}"
        );
    }
    let left = left_by_sizes(rt.alloc(), 38);
    assert!(rt; left.is(Status::Done, SIZES, b""));
}

#[test]
fn tells_an_interrupted_read(rt: HostRuntime) {
    for bad in 1..6 {
        let left = left_by_reads(rt.alloc(), bad, ErrorKind::Interrupted);
        assert!(rt;
            left.is(Status::Failed, b"", b"census: read failed\n"),
            "read {bad}"
        );
    }
}

#[test]
fn tells_an_interrupted_write(rt: HostRuntime) {
    for bad in 1..4 {
        let left = left_by_writes(rt.alloc(), quick_writer(rt.alloc(), bad));
        assert!(rt; left.status == Status::Failed, "write {bad}");
    }
}

// The lines on standard error are made of several pieces, but each line is one write.
#[test]
fn tells_a_refusal_in_one_write(rt: HostRuntime) {
    let alloc = rt.alloc();
    let input = reader(b"..\n.x", 0, ErrorKind::Other);
    let left = left_by(input, slow_writer(alloc, 0), quick_writer(alloc, 0), alloc);
    assert!(rt;
        left.is(
            Status::Refused,
            b"",
            b"census: bad byte at line 2 column 2\n"
        )
    );
    assert!(rt; left.errors.writes == 1);
    let mut output = Out::new(slow_writer(alloc, 0));
    let mut errors = Out::new(quick_writer(alloc, 0));
    let status = do_show(
        alloc,
        "33y",
        PatternForm::Plaintext,
        &mut output,
        &mut errors,
    );
    let left = Left::new(status, output, errors);
    assert!(rt; left.is(Status::Refused, b"", b"census: short run in code at 2\n"));
    assert!(rt; left.errors.writes == 1);
}

/// A writer whose writes succeed and whose flush fails.
#[derive(Drop)]
struct Unflushed;

impl Write for Unflushed {
    fn write(&mut self, buf: &[u8]) -> io::Result<usize> {
        Ok(buf.len())
    }

    fn flush(&mut self) -> io::Result<()> {
        Err(io::Error::from(ErrorKind::Other))
    }
}

// A line reports the first failure. The lines about the later failures can't be written, but the status is the same.
#[test]
fn tells_a_failed_flush(rt: HostRuntime) -> Result<(), Fail> {
    let mut buffered = BufWriter::new(rt.alloc(), Unflushed)?;
    let mut errors = Out::new(slow_writer(rt.alloc(), 22));
    for before in [Status::Done, Status::Incomplete, Status::Done] {
        let status = send_buffered(before, &mut buffered, &mut errors);
        assert!(rt; status == Status::Failed);
    }
    assert!(rt; errors.into_inner().taken.as_slice() == b"census: write failed\n".as_slice());
    Ok(())
}
