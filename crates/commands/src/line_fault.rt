//! Why a report line isn't taken, and the line on standard error that says why.

ghost use Rattle.std.specs.Prelude.{◌≡◌, ◌++◌, codes, decimal, false};
ghost use Rattle.plane_core.specs.Outputs.{Writes};
ghost use Rattle.commands.specs.GatheredLines.{fault_line, line_fault_text};

use code_core::decimal::put_number;
use pattern_commands::output::LineBuffer;
use plane_core::output::{Out, WriteError};
use std::io::Write;

/// Why a report line was not taken.
#[derive(Clone, Copy)]
pub enum LineFault {
    /// The line isn't a claim's line, or is longer than 2^24 bytes. `place` is the offset of the first wrong or missing
    /// field, or 2^24 if the first 2^24 bytes of a longer line have no fault.
    BadLine { place: usize },
    /// The line is about another job.
    OtherJob,
    /// The line's finding isn't the finding of its soup.
    Disagrees,
    /// The number of the line's worker is higher than the haul's number of workers.
    UnknownWorker { worker: u8 },
    /// The line's soup isn't in the haul's set.
    OutOfRange { number: u64 },
    /// The line's soup was taken before, from worker `worker`.
    Double { number: u64, worker: u8 },
}

impl LineFault {
    /// Writes the diagnostic that report line `number`, counted from 1, has this fault. This is one write and takes no
    /// memory.
    ///
    /// # Errors
    ///
    /// [`WriteError`] if a write fails.
    pub(crate) fn write_line<E: Write>(
        self,
        number: u64,
        errors: &mut Out<E>,
    ) -> Result<(), WriteError>
        requires { errors.old.failed ≡ false }
        ensures { Writes E.contents errors.old errors.new result (fault_line number self) }
    {
        let mut line = Out::new(LineBuffer::new());
        match self.put_line(number, &mut line) {
            Ok(()) => errors.put(line.into_inner().as_slice()),
            Err(_) => self.put_line(number, errors),
        }
    }

    /// Writes the diagnostic about report line `number`, piece by piece.
    fn put_line<E: Write>(self, number: u64, errors: &mut Out<E>) -> Result<(), WriteError>
        requires { errors.old.failed ≡ false }
        ensures { Writes E.contents errors.old errors.new result (fault_line number self) }
    {
        put_number(errors, b"line ", number)?;
        errors.put(b": ")?;
        self.put_text(errors)?;
        errors.put(b"\n")
    }

    /// Writes the text of the fault, which is a part of the diagnostic.
    fn put_text<E: Write>(self, errors: &mut Out<E>) -> Result<(), WriteError>
        requires { errors.old.failed ≡ false }
        ensures { Writes E.contents errors.old errors.new result (line_fault_text self) }
    {
        match self {
            LineFault::BadLine { place } => put_number(errors, b"bad line at ", place),
            LineFault::OtherJob => errors.put(b"other job"),
            LineFault::Disagrees => errors.put(b"disagrees"),
            LineFault::UnknownWorker { worker } => {
                put_number(errors, b"unknown worker ", worker)
            }
            LineFault::OutOfRange { number } => put_number(errors, b"out of range ", number),
            LineFault::Double { number, worker } => put_double(errors, number, worker),
        }
    }
}

/// Writes which soup was taken before, and from which worker.
fn put_double<E: Write>(errors: &mut Out<E>, number: u64, worker: u8) -> Result<(), WriteError>
    requires { errors.old.failed ≡ false }
    ensures { Writes E.contents errors.old errors.new result
        (codes "double of " ++ decimal number ++ (codes " by " ++ decimal worker)) }
{
    put_number(errors, b"double of ", number)?;
    put_number(errors, b" by ", worker)
}
