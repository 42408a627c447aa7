//! Tests that the command `work` flushes each line before it begins the next line.

use crate::setup::plan_of;
use commands::work::do_work;
use pattern_commands::ending::status::Status;
use plane_core::output::Out;
use std::alloc::Global;
use std::io::{self, ErrorKind, Write};

/// The length of `report 2 rule=b3s23 profile=1,1,1,0 seed= worker=2 soup=0 unsettled` with its line feed.
const LINE: usize = 68;

/// A writer that counts the bytes, the flushes, and the lines that begin before the previous line was flushed. After
/// `most` flushes, every flush fails.
#[derive(Drop)]
struct Counting {
    written: usize,
    sent: usize,
    flushes: u64,
    most: u64,
    is_open: bool,
    late: u64,
}

impl Write for Counting {
    fn write(&mut self, buf: &[u8]) -> io::Result<usize> {
        if self.is_open && buf.starts_with(b"report") {
            self.late = self.late.saturating_add(1);
        }
        self.is_open = true;
        self.written = self.written.saturating_add(buf.len());
        Ok(buf.len())
    }

    fn flush(&mut self) -> io::Result<()> {
        if self.flushes == self.most {
            return Err(io::Error::from(ErrorKind::Other));
        }
        self.flushes = self.flushes.saturating_add(1);
        self.sent = self.written;
        self.is_open = false;
        Ok(())
    }
}

/// Runs `work` for the first `count` soups and those of the list `also`, with a writer that flushes at most `most`
/// times.
fn left_by(alloc: Global, count: u64, also: &str, most: u64) -> (Status, Counting) {
    let mut output = Out::new(Counting {
        written: 0,
        sent: 0,
        flushes: 0,
        most,
        is_open: false,
        late: 0,
    });
    let mut errors = Out::new(Vec::new(alloc));
    let plan = plan_of(count, also);
    let status = do_work(alloc, &plan, 2, &mut output, &mut errors);
    (status, output.into_inner())
}

// If a line can't be flushed, the command fails, and this line is the last one that is written.
#[test]
fn tells_a_failed_flush_of_a_line(rt: HostRuntime) {
    for most in 0..2 {
        let (status, counted) = left_by(rt.alloc(), 2, "", most);
        assert!(rt; status == Status::Failed);
        assert!(rt; counted.sent == most as usize * LINE);
        assert!(rt; counted.written == most as usize * LINE + LINE);
    }
    let (status, counted) = left_by(rt.alloc(), 2, "", 2);
    assert!(rt; status == Status::Done && counted.sent == 2 * LINE);
}

// Each line is flushed before the next line is begun, also with many soups, and with the highest soup numbers.
#[test]
fn sends_each_of_many_lines_on(rt: HostRuntime) {
    let (status, counted) = left_by(rt.alloc(), 12_000, "1099511627774+2", u64::MAX);
    assert!(rt; status == Status::Done);
    assert!(rt; counted.flushes == 12_002 && counted.late == 0);
}
