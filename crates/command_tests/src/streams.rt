//! Streams that have a fault, and what a command leaves on them.
use pattern_commands::ending::status::Status;
use plane_core::output::Out;
use std::alloc::Global;
use std::io::{self, ErrorKind, Read, Write};

/// A reader of a text that returns at most `most` bytes per read. Read number `bad`, counted from 1, fails with an
/// error of kind `kind`. If `bad` is 0, no read fails.
#[derive(Drop)]
pub(crate) struct FaultyReader<'a> {
    text: &'a [u8],
    most: usize,
    reads: usize,
    bad: usize,
    kind: ErrorKind,
}

/// Returns a reader of a text that returns one byte per read, with a fault at read number `bad`, counted from 1.
pub(crate) fn reader(text: &[u8], bad: usize, kind: ErrorKind) -> FaultyReader<'_> {
    reader_by(text, 1, bad, kind)
}

/// Returns a reader of a text that returns at most `most` bytes per read, with a fault at read number `bad`, counted
/// from 1.
pub(crate) fn reader_by(text: &[u8], most: usize, bad: usize, kind: ErrorKind) -> FaultyReader<'_> {
    FaultyReader {
        text,
        most,
        reads: 0,
        bad,
        kind,
    }
}

impl Read for FaultyReader<'_> {
    fn read(&mut self, buf: &mut [u8]) -> io::Result<usize> {
        self.reads = self.reads.saturating_add(1);
        if self.reads == self.bad {
            return Err(io::Error::from(self.kind));
        }
        let count = self.text.len().min(self.most).min(buf.len());
        let (given, remainder) = self.text.split_at(count);
        buf[..count].copy_from_slice(given);
        self.text = remainder;
        Ok(count)
    }
}

/// A writer that takes at most `most` bytes per write. Write number `bad`, counted from 1, fails with an error of kind
/// `kind`. If `bad` is 0, no write fails.
#[derive(Drop)]
pub(crate) struct FaultyWriter {
    pub(crate) taken: Vec<u8>,
    pub(crate) writes: usize,
    most: usize,
    bad: usize,
    kind: ErrorKind,
}

/// Returns a writer that takes one byte per write, with a fault at write number `bad`, counted from 1.
pub(crate) fn slow_writer(alloc: Global, bad: usize) -> FaultyWriter {
    FaultyWriter {
        taken: Vec::new(alloc),
        writes: 0,
        most: 1,
        bad,
        kind: ErrorKind::Other,
    }
}

/// Returns a writer that takes all bytes of each write, and is interrupted at write number `bad`, counted from 1.
pub(crate) fn quick_writer(alloc: Global, bad: usize) -> FaultyWriter {
    FaultyWriter {
        taken: Vec::new(alloc),
        writes: 0,
        most: usize::MAX,
        bad,
        kind: ErrorKind::Interrupted,
    }
}

impl Write for FaultyWriter {
    fn write(&mut self, buf: &[u8]) -> io::Result<usize> {
        self.writes = self.writes.saturating_add(1);
        if self.writes == self.bad {
            return Err(io::Error::from(self.kind));
        }
        let count = buf.len().min(self.most);
        self.taken.extend_from_slice(&buf[..count])?;
        Ok(count)
    }

    fn flush(&mut self) -> io::Result<()> {
        Ok(())
    }
}

/// What a command left: its status, and its two writers.
#[derive(Drop)]
pub(crate) struct Left {
    pub(crate) status: Status,
    pub(crate) output: FaultyWriter,
    pub(crate) errors: FaultyWriter,
}

impl Left {
    pub(crate) fn new(
        status: Status,
        output: Out<FaultyWriter>,
        errors: Out<FaultyWriter>,
    ) -> Left {
        Left {
            status,
            output: output.into_inner(),
            errors: errors.into_inner(),
        }
    }

    /// Checks whether the command ended with this status and these bytes on its streams.
    pub(crate) fn is(&self, status: Status, output: &[u8], errors: &[u8]) -> bool {
        self.status == status
            && self.output.taken.as_slice() == output
            && self.errors.taken.as_slice() == errors
    }
}
