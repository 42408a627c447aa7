//! The last line of standard error: `census: `, a text, and a line feed.

ghost use Rattle.std.specs.Prelude.{◌≡◌, false};
ghost use Rattle.plane_core.specs.Outputs.{Writes};
ghost use Rattle.pattern_commands.specs.Complaints.{error_line, text_of_error};

use crate::ending::complaint::Complaint;
use crate::output::LineBuffer;
use code_core::decimal::put_number;
use plane_core::output::{Out, WriteError};
use std::io::Write;

/// What the last line of standard error says.
#[derive(Clone, Copy)]
pub(crate) enum ErrorText {
    /// Why a command didn't do all that was asked.
    Complaint(Complaint),
    /// How many soups are missing.
    Missing(u64),
}

impl ErrorText {
    /// Writes the line in one write. No earlier write to `errors` may have failed. This takes no memory.
    ///
    /// # Errors
    ///
    /// [`WriteError`] if a write fails.
    pub(crate) fn write_line<E: Write>(self, errors: &mut Out<E>) -> Result<(), WriteError>
        requires { errors.old.failed ≡ false }
        ensures { Writes E.contents errors.old errors.new result (error_line (text_of_error self)) }
    {
        let mut line = Out::new(LineBuffer::new());
        match self.put_line(&mut line) {
            Ok(()) => errors.put(line.into_inner().as_slice()),
            Err(_) => self.put_line(errors),
        }
    }

    /// Writes the line piece by piece.
    fn put_line<E: Write>(self, errors: &mut Out<E>) -> Result<(), WriteError>
        requires { errors.old.failed ≡ false }
        ensures { Writes E.contents errors.old errors.new result (error_line (text_of_error self)) }
    {
        errors.put(b"census: ")?;
        self.put_text(errors)?;
        errors.put(b"\n")
    }

    /// Writes the text of the line piece by piece.
    fn put_text<E: Write>(self, errors: &mut Out<E>) -> Result<(), WriteError>
        requires { errors.old.failed ≡ false }
        ensures { Writes E.contents errors.old errors.new result (text_of_error self) }
    {
        match self {
            ErrorText::Complaint(complaint) => complaint.put_text(errors),
            ErrorText::Missing(missing) => put_missing_text(missing, errors),
        }
    }
}

/// Writes the text that says how many soups are missing.
fn put_missing_text<E: Write>(missing: u64, errors: &mut Out<E>) -> Result<(), WriteError>
    requires { errors.old.failed ≡ false }
    ensures { Writes E.contents errors.old errors.new result (text_of_error (ErrorText.Missing missing)) }
{
    put_number(errors, b"incomplete, ", missing)?;
    errors.put(b" missing")
}
