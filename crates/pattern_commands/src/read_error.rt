//! A failed read.

ghost use Rattle.std.specs.Prelude.{◌≢◌};
ghost use Rattle.std.specs.IoError.{error_kind};
ghost use Rattle.std.specs.declared.io.ErrorKind.TheVariants.{OutOfMemory};

use std::io::{self, ErrorKind};

/// The witness of a failed read, made from the error of a stream.
#[derive(Clone, Copy, Debug, PartialEq, Eq)]
pub struct ReadError {
    /// The kind of the stream's error.
    kind: ErrorKind,
}

impl ReadError {
    /// Returns the witness for the error of a stream. The error's kind must not be `OutOfMemory`.
    pub fn of_stream(error: &io::Error) -> ReadError
        requires { error_kind error.now ≢ OutOfMemory }
    {
        ReadError { kind: error.kind() }
    }
}
