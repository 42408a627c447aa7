//! Why a command didn't do all that was asked, and the line and the status that say so.

ghost use Rattle.std.specs.Prelude.{◌≡◌, false};
ghost use Rattle.plane_core.specs.Outputs.{Writes};
ghost use Rattle.pattern_commands.specs.Complaints.{complaint_line, complaint_text, missing_line, status_of};
ghost use Rattle.pattern_commands.specs.Streams.{stream, HasLine};

use crate::ending::error_line::ErrorText;
use crate::ending::refusal::Refusal;
use crate::ending::status::Status;
use crate::input::InputError;
use crate::read_error::ReadError;
use code_core::reader::{WechslerError, WechslerFault};
use memory::OutOfMemory;
use plane_core::output::{Out, WriteError};
use plane_core::plaintext::{PlaintextError, PlaintextFault};
use plane_core::plane::rule::RuleFault;
use ranges::range_list::ListError;
use std::io::Write;
use survey_core::seed::SeedFault;

/// Why a command didn't do all that was asked. A complaint determines the last line on standard error and the status.
#[derive(Clone, Copy)]
pub enum Complaint {
    /// A text was refused.
    Refused(Refusal),
    /// Memory ran out.
    Memory(OutOfMemory),
    /// A read failed.
    ReadFailed(ReadError),
    /// The input is longer than the command may read. This is reported as a failed read.
    TooLong,
    /// A write to standard output failed, or a write of diagnostics or report lines to standard error.
    WriteFailed(WriteError),
}

impl Complaint {
    /// Returns the status of a command that ends with this complaint.
    pub fn status(self) -> Status
        ensures { result ≡ status_of self }
    {
        match self {
            Complaint::Refused(_) => Status::Refused,
            Complaint::Memory(_) => Status::Memory,
            Complaint::ReadFailed(_) | Complaint::TooLong | Complaint::WriteFailed(_) => {
                Status::Failed
            }
        }
    }

    /// Writes the complaint's line in one write. No earlier write to `errors` may have failed. This takes no memory.
    ///
    /// # Errors
    ///
    /// [`WriteError`] if a write fails.
    pub fn write_line<E: Write>(self, errors: &mut Out<E>) -> Result<(), WriteError>
        requires { errors.old.failed ≡ false }
        ensures { Writes E.contents errors.old errors.new result (complaint_line self) }
    {
        ErrorText::Complaint(self).write_line(errors)
    }

    /// Writes the text of the complaint's line piece by piece.
    pub(crate) fn put_text<E: Write>(self, errors: &mut Out<E>) -> Result<(), WriteError>
        requires { errors.old.failed ≡ false }
        ensures { Writes E.contents errors.old errors.new result (complaint_text self) }
    {
        match self {
            Complaint::Refused(refusal) => refusal.put_text(errors),
            Complaint::Memory(_) => errors.put(b"out of memory"),
            Complaint::ReadFailed(_) | Complaint::TooLong => errors.put(b"read failed"),
            Complaint::WriteFailed(_) => errors.put(b"write failed"),
        }
    }

    /// Writes the complaint's line and returns the complaint's status. A failure to write the line is not reported.
    pub fn end_command<E: Write>(self, errors: &mut Out<E>) -> Status
        requires { errors.old.failed ≡ false }
        ensures status { result ≡ status_of self }
        ensures line { HasLine (stream E.contents errors.old errors.new) (complaint_line self) }
    {
        let _ = self.write_line(errors);
        self.status()
    }
}

/// Writes the line that says how many soups are missing, in one write. No earlier write to `errors` may have failed.
///
/// # Errors
///
/// [`WriteError`] if a write fails.
pub fn put_missing<E: Write>(missing: u64, errors: &mut Out<E>) -> Result<(), WriteError>
    requires { errors.old.failed ≡ false }
    ensures { Writes E.contents errors.old errors.new result (missing_line missing) }
{
    ErrorText::Missing(missing).write_line(errors)
}

impl From<RuleFault> for Complaint {
    ghost use Rattle.pattern_commands.specs.Inputs.{rule_complaint};

    ghost from_gives = { λ error complaint. complaint ≡ rule_complaint error };

    fn from(error: RuleFault) -> Complaint {
        Complaint::Refused(match error {
            RuleFault::BadRule { place } => Refusal::BadRule { place },
            RuleFault::BirthZero => Refusal::BirthZero,
        })
    }
}

impl From<PlaintextError> for Complaint {
    ghost use Rattle.pattern_commands.specs.Inputs.{plaintext_complaint};

    ghost from_gives = { λ error complaint. complaint ≡ plaintext_complaint error };

    fn from(error: PlaintextError) -> Complaint {
        match error {
            PlaintextError::Fault(PlaintextFault::BadByte { line, column }) => {
                Complaint::Refused(Refusal::BadByte { line, column })
            }
            PlaintextError::Fault(PlaintextFault::TooLarge) => {
                Complaint::Refused(Refusal::PatternTooLarge)
            }
            PlaintextError::Memory(error) => Complaint::Memory(error),
        }
    }
}

impl From<WechslerError> for Complaint {
    ghost use Rattle.pattern_commands.specs.Show.{reader_complaint};

    ghost from_gives = { λ error complaint. complaint ≡ reader_complaint error };

    fn from(error: WechslerError) -> Complaint {
        match error {
            WechslerError::Fault(WechslerFault::TooLong) => {
                Complaint::Refused(Refusal::CodeTooLong)
            }
            WechslerError::Fault(WechslerFault::BadByte { place }) => {
                Complaint::Refused(Refusal::CodeBadByte { place })
            }
            WechslerError::Fault(WechslerFault::ShortRun { place }) => {
                Complaint::Refused(Refusal::CodeShortRun { place })
            }
            WechslerError::Fault(WechslerFault::Empty) => Complaint::Refused(Refusal::CodeEmpty),
            WechslerError::Memory(error) => Complaint::Memory(error),
        }
    }
}

impl From<SeedFault> for Complaint {
    ghost use Rattle.pattern_commands.specs.Soup.{seed_complaint};

    ghost from_gives = { λ error complaint. complaint ≡ seed_complaint error };

    fn from(error: SeedFault) -> Complaint {
        Complaint::Refused(match error {
            SeedFault::TooLong => Refusal::SeedTooLong,
            SeedFault::BadByte { place } => Refusal::SeedBadByte { place },
        })
    }
}

impl From<ListError> for Complaint {
    ghost use Rattle.pattern_commands.specs.Inputs.{list_complaint};

    ghost from_gives = { λ error complaint. complaint ≡ list_complaint error };

    fn from(error: ListError) -> Complaint {
        match error {
            ListError::BadList { place } => Complaint::Refused(Refusal::BadList { place }),
            ListError::Memory(error) => Complaint::Memory(error),
        }
    }
}

impl From<OutOfMemory> for Complaint {
    ghost use Rattle.pattern_commands.specs.declared.ending.complaint.Complaint.TheVariants.{Memory};

    ghost from_gives = { λ error complaint. complaint ≡ Memory error };

    fn from(error: OutOfMemory) -> Complaint {
        Complaint::Memory(error)
    }
}

impl From<InputError> for Complaint {
    ghost use Rattle.pattern_commands.specs.Inputs.{input_complaint};

    ghost from_gives = { λ fault complaint. complaint ≡ input_complaint fault };

    fn from(fault: InputError) -> Complaint {
        match fault {
            InputError::Unreadable(error) => Complaint::ReadFailed(error),
            InputError::TooLong => Complaint::TooLong,
            InputError::Memory(error) => Complaint::Memory(error),
        }
    }
}

impl From<WriteError> for Complaint {
    ghost use Rattle.pattern_commands.specs.declared.ending.complaint.Complaint.TheVariants.{WriteFailed};

    ghost from_gives = { λ error complaint. complaint ≡ WriteFailed error };

    fn from(error: WriteError) -> Complaint {
        Complaint::WriteFailed(error)
    }
}
