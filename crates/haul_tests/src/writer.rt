//! Tests that write a haul text or a report line to a writer that fails before the end.

ghost use Rattle.std.specs.Prelude.{◌≡◌, false};

use crate::setup::{offer, quick_job, range};
use haul_core::book::census::Census;
use haul_core::book::haul::Haul;
use haul_core::book::haul_text::write_haul;
use haul_core::report::Report;
use haul_core::report::write::write_report_line;
use plane_core::output::Out;
use std::alloc::Global;
use std::io;
use std::io::{ErrorKind, Write};
use std::test::Fail;

// A writer that takes `room` bytes, and then fails.
#[derive(Drop)]
struct Short {
    taken: Vec<u8>,
    room: usize,
}

impl Write for Short {
    fn write(&mut self, buf: &[u8]) -> io::Result<usize> {
        let count = buf.len().min(self.room.saturating_sub(self.taken.len()));
        if count == 0 {
            return Err(io::Error::from(ErrorKind::Other));
        }
        self.taken.extend_from_slice(&buf[..count])?;
        Ok(count)
    }

    fn flush(&mut self) -> io::Result<()> {
        Ok(())
    }
}

/// Returns an `Out` whose writer takes `room` bytes, and then fails.
fn out_with_room(alloc: Global, room: usize) -> Out<Short>
    ensures { result.failed ≡ false }
{
    let taken = Vec::new(alloc);
    Out::new(Short { taken, room })
}

/// Checks whether the writer has taken exactly the first `room` bytes of the text.
fn has_prefix(out: Out<Short>, room: usize, text: &[u8]) -> bool {
    let taken = out.into_inner().taken;
    taken.len() == room && text.starts_with(taken.as_slice())
}

const TWO_OF_FOUR: &[u8] = b"@VERSION 2
@ROOT seed=
@RULE b3s23
@SYMMETRY C1
@PROFILE 1 1 1 0
@RANGE 0 4
@NUM_SOUPS 2
@NUM_UNSETTLED 2
@NUM_FOR_GOOD 0
@NUM_OBJECTS 0

@CENSUS TABLE

@SAMPLE_SOUPIDS
";

/// Returns the census of a haul of soups 0 to 3 that has taken soups 3 and 0.
fn two_of_four(alloc: Global) -> Result<Census, Fail> {
    let mut haul = Haul::open(alloc, quick_job("")?, &[range(0, 4)], 1)?;
    offer(alloc, &mut haul, 3);
    offer(alloc, &mut haul, 0);
    let census = haul.census();
    drop(haul);
    Ok(census?)
}

/// Writes the haul text of the census to a writer that takes only `room` bytes. Checks whether this fails, and whether
/// the bytes taken are the first `room` bytes of `TWO_OF_FOUR`.
fn haul_stops(alloc: Global, census: &Census, room: usize) -> bool {
    let mut out = out_with_room(alloc, room);
    let stopped = write_haul(census, &mut out).is_err();
    stopped && has_prefix(out, room, TWO_OF_FOUR)
}

#[test]
fn a_haul_text_stops_where_the_writer_does(rt: HostRuntime) -> Result<(), Fail> {
    let census = two_of_four(rt.alloc())?;
    for room in [0, 1, 30, 100, 160] {
        assert!(rt; haul_stops(rt.alloc(), &census, room), "at {room}");
    }
    Ok(())
}

const UNSETTLED: &[u8] = b"report 2 rule=b3s23 profile=1,1,1,0 seed= worker=2 soup=0 unsettled\n";

/// Writes the line of the report to a writer that takes only `room` bytes. Checks whether this fails, and whether the
/// bytes taken are the first `room` bytes of `UNSETTLED`.
fn line_stops(alloc: Global, report: &Report, room: usize) -> bool {
    let mut out = out_with_room(alloc, room);
    let stopped = write_report_line(report, &mut out).is_err();
    stopped && has_prefix(out, room, UNSETTLED)
}

#[test]
fn a_line_stops_where_the_writer_does(rt: HostRuntime) -> Result<(), Fail> {
    let report = Report::make(rt.alloc(), &quick_job("")?, 2, 0)?;
    for room in [0, 1, 20, 50, 67] {
        assert!(rt; line_stops(rt.alloc(), &report, room), "at {room}");
    }
    Ok(())
}
