//! The error "out of memory", which is also a witness that memory was refused.
//!
//! A contract can't require that there is memory, so it would also accept a body that reports "out of memory" without
//! cause. To rule such bodies out, an [`OutOfMemory`] is made only from an error that says that memory or a thread was
//! refused: its only field is private, and each function that makes an `OutOfMemory` takes such an error. Any crate
//! could build such an error itself, so `checks/repository/errors` refuses code of the program that does.
#![tactic(auto)]

ghost use Rattle.std.specs.Prelude.{◌≡◌};
ghost use Rattle.std.specs.IoError.{error_kind};
ghost use Rattle.std.specs.declared.io.ErrorKind.TheVariants as ErrorKind;
ghost use Rattle.memory.specs.Witness.{out_of_memory};

use std::alloc::{AllocError, AllocFailed};
use std::thread::SpawnError;
use std::{fmt, io};
use thiserror::Error;

/// The witness that a call was refused memory.
#[derive(Clone, Copy, PartialEq, Eq, Error)]
pub struct OutOfMemory {
    refused: AllocError,
}

impl fmt::Display for OutOfMemory {
    fn fmt<W: fmt::Write>(&self, f: &mut fmt::Formatter<W>) -> fmt::Result {
        f.write_str("out of memory")
    }
}

/// Shows the message, as `Display` does.
impl fmt::Debug for OutOfMemory {
    fn fmt<W: fmt::Write>(&self, f: &mut fmt::Formatter<W>) -> fmt::Result {
        fmt::Display::fmt(self, f)
    }
}

impl From<AllocError> for OutOfMemory {
    ghost from_gives = { λ _ e. e ≡ out_of_memory };

    fn from(refused: AllocError) -> OutOfMemory {
        OutOfMemory { refused }
    }
}

/// Makes the witness that there was no memory for a value. The value is dropped.
impl<T: Drop> From<AllocFailed<T>> for OutOfMemory {
    ghost from_gives = { λ _ e. e ≡ out_of_memory };

    fn from(failed: AllocFailed<T>) -> OutOfMemory {
        OutOfMemory {
            refused: AllocError::from(failed),
        }
    }
}

impl OutOfMemory {
    /// Returns the witness for the error of a stream. The error's kind has to be `OutOfMemory`.
    pub fn of_stream(error: &io::Error) -> OutOfMemory
        requires { error_kind error.now ≡ ErrorKind.OutOfMemory }
        ensures { result ≡ out_of_memory }
    {
        let _told = error;
        OutOfMemory {
            refused: AllocError,
        }
    }

    /// Returns the closure for which no thread could be started, and the witness of this refusal. A refused thread
    /// counts as refused memory.
    pub fn of_start<F>(failed: SpawnError<F>) -> (F, OutOfMemory)
        ensures closure { result.0 ≡ failed.value }
        ensures witness { result.1 ≡ out_of_memory }
    {
        let SpawnError { value } = failed;
        (
            value,
            OutOfMemory {
                refused: AllocError,
            },
        )
    }
}
