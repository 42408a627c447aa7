//! Tests of `Out`, which puts bytes into a writer and remembers a failure. The tests use writers that fail, and a
//! writer that takes one byte per write.
use memory::OutOfMemory;
use plane_core::output::Out;
use std::alloc::Global;
use std::io;
use std::io::{ErrorKind, Write};
use std::test::Fail;

/// A writer that takes at most `most` bytes per write, and notes a flush. Write number `bad`, counted from 1, fails
/// with an error of the kind `fault`, or takes nothing if `fault` is `None`.
#[derive(Drop)]
struct Faulty {
    taken: Vec<u8>,
    writes: usize,
    most: usize,
    bad: usize,
    fault: Option<ErrorKind>,
    flushed: bool,
}

impl Write for Faulty {
    fn write(&mut self, buf: &[u8]) -> io::Result<usize> {
        self.writes = self.writes.saturating_add(1);
        if self.writes == self.bad {
            return match self.fault {
                Some(kind) => Err(io::Error::from(kind)),
                None => Ok(0),
            };
        }
        let count = buf.len().min(self.most);
        self.taken.extend_from_slice(&buf[..count])?;
        Ok(count)
    }

    fn flush(&mut self) -> io::Result<()> {
        self.flushed = true;
        Ok(())
    }
}

/// Returns a writer that takes at most `most` bytes per write, and has the fault at write number `bad`. If `bad` is 0,
/// it has no fault.
fn writer_with(alloc: Global, most: usize, bad: usize, fault: Option<ErrorKind>) -> Faulty {
    Faulty {
        taken: Vec::new(alloc),
        writes: 0,
        most,
        bad,
        fault,
        flushed: false,
    }
}

/// Puts two pieces into a writer that takes at most two bytes per write, or only the first piece if putting it fails.
fn put_two(alloc: Global, bad: usize, fault: Option<ErrorKind>) -> Out<Faulty> {
    let mut out = Out::new(writer_with(alloc, 2, bad, fault));
    if out.put(b"abc").is_ok() {
        let _ = out.put(b"defg");
    }
    out
}

/// The number of a bad write, counted from 1, and the bytes that are taken before this write. There are at most four
/// writes, so if the number is 5, no write fails.
const PREFIXES: [(usize, &[u8]); 5] = [
    (1, b""),
    (2, b"ab"),
    (3, b"abc"),
    (4, b"abcde"),
    (5, b"abcdefg"),
];

#[test]
fn stops_at_the_first_fault(rt: HostRuntime) {
    for (bad, prefix) in PREFIXES {
        for fault in [
            Some(ErrorKind::BrokenPipe),
            Some(ErrorKind::Interrupted),
            None,
        ] {
            let out = put_two(rt.alloc(), bad, fault);
            assert!(rt; out.failed() == (bad < 5), "at {bad}");
            let writer = out.into_inner();
            assert!(rt; writer.taken.as_slice() == prefix, "at {bad}");
            assert!(rt; writer.writes == bad.min(4), "at {bad}");
            assert!(rt; !writer.flushed, "at {bad}");
        }
    }
}

/// Returns `count` bytes, each different from the next.
fn bytes(alloc: Global, count: u32) -> Result<Vec<u8>, OutOfMemory> {
    let mut bytes = Vec::new(alloc);
    for number in 0..count {
        bytes.push((number % 251) as u8)?;
    }
    Ok(bytes)
}

// The clauses of `put` would allow it to fail after many writes, even if no write has failed.
#[test]
fn puts_a_piece_in_as_many_writes_as_it_takes(rt: HostRuntime) -> Result<(), Fail> {
    let piece = bytes(rt.alloc(), 20_000)?;
    let mut out = Out::new(writer_with(rt.alloc(), 1, 0, None));
    assert!(rt; out.put(piece.as_slice()).is_ok());
    let writer = out.into_inner();
    assert!(rt; writer.writes == 20_000 && writer.taken.as_slice() == piece.as_slice());
    Ok(())
}
