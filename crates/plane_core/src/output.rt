//! `Out`, a writer that remembers whether a write has failed, and `WriteError`, the error of a failed write.
ghost use Rattle.std.specs.Prelude.{◌≡◌, ◌<◌, [], false};
ghost use Rattle.plane_core.specs.Outputs.{Writes};

use std::fmt;
use std::io::{self, ErrorKind, Write};
use std::marker::Model;
use thiserror::Error;

/// The witness that a write failed or took no byte. It is made only from a writer's error, or by a write that took no
/// byte.
#[derive(Clone, Copy, PartialEq, Eq, Error)]
pub struct WriteError {
    /// The kind of the writer's error, or `None` if the writer took no byte.
    kind: Option<ErrorKind>,
}

impl fmt::Display for WriteError {
    fn fmt<W: fmt::Write>(&self, f: &mut fmt::Formatter<W>) -> fmt::Result {
        f.write_str("write failed")
    }
}

/// Shows the message, as `Display` does.
impl fmt::Debug for WriteError {
    fn fmt<W: fmt::Write>(&self, f: &mut fmt::Formatter<W>) -> fmt::Result {
        fmt::Display::fmt(self, f)
    }
}

impl WriteError {
    /// Returns the witness for a writer's error.
    pub fn of_stream(error: &io::Error) -> WriteError {
        WriteError {
            kind: Some(error.kind()),
        }
    }
}

/// A writer that remembers that a write failed.
///
/// Contracts see the writer and whether a write has failed.
#[derive(Debug, Drop)]
pub struct Out<V: Write> {
    writer: V,
    failed: bool,
}

impl<V: Write> Model for Out<V> {
    ghost use Rattle.plane_core.specs.Outputs.{Output};

    ghost Value = { Output V };

    ghost view = { λ o. record { writer = o.writer; failed = o.failed } };
}

impl<V: Write> Out<V> {
    /// Returns an `Out` over the writer. No write has failed yet.
    pub fn new(writer: V) -> Self
        ensures writer { result.writer ≡ writer }
        ensures failed { result.failed ≡ false }
    {
        Out {
            writer,
            failed: false,
        }
    }

    /// Checks whether a write has failed.
    pub fn failed(&self) -> bool
        ensures { result ≡ self.now.failed }
    {
        let Out { failed, .. } = self;
        *failed
    }

    /// Returns the writer, even if a write has failed.
    pub fn into_inner(self) -> V
        ensures { result ≡ self.writer }
    {
        self.writer
    }

    /// Writes the whole piece. Nothing is flushed. No earlier write may have failed.
    ///
    /// # Errors
    ///
    /// [`WriteError`] if a write fails, for whatever reason, or takes none of the remaining bytes. A prefix of the
    /// piece may have been written, and the `Out` is marked as failed.
    pub fn put(&mut self, piece: &[u8]) -> Result<(), WriteError>
        requires { self.old.failed ≡ false }
        ensures { Writes V.contents self.old self.new result piece.now }
    {
        let mut remainder = piece;
        while !remainder.is_empty() {
            match self.writer.write(remainder) {
                Ok(0) => {
                    self.failed = true;
                    return Err(WriteError { kind: None });
                }
                Ok(taken) => remainder = &remainder[taken..],
                Err(error) => {
                    self.failed = true;
                    return Err(WriteError::of_stream(&error));
                }
            }
        }
        Ok(())
    }

    /// Flushes the writer, which passes on everything that it has buffered. No earlier write may have failed.
    ///
    /// # Errors
    ///
    /// [`WriteError`] if the flush fails. The `Out` is marked as failed.
    pub fn flush(&mut self) -> Result<(), WriteError>
        requires { self.old.failed ≡ false }
        ensures { Writes V.contents self.old self.new result [] }
    {
        match self.writer.flush() {
            Ok(()) => Ok(()),
            Err(error) => {
                self.failed = true;
                Err(WriteError::of_stream(&error))
            }
        }
    }
}
