//! A pattern as a text, in one of its forms, and how a command that writes this text ends.

ghost use Rattle.std.specs.Prelude.{◌≡◌, false};
ghost use Rattle.plane_core.specs.Outputs.{Writes};
ghost use Rattle.pattern_commands.specs.Found.{EndsFound};
ghost use Rattle.pattern_commands.specs.PatternText.{pattern_text};
ghost use Rattle.pattern_commands.specs.Streams.{stream};

use crate::coordinates::put_cells;
use crate::ending::complaint::Complaint;
use crate::ending::status::Status;
use plane_core::output::{Out, WriteError};
use plane_core::plane::pattern::Pattern;
use requests::form::PatternForm;
use std::io::Write;

/// Ends a command: writes the pattern that the command has found, in this form, or the line of the complaint, and
/// returns the status. A failure to write the line is not reported.
pub(crate) fn end_with_pattern<W: Write, E: Write>(
    found: Result<Pattern, Complaint>,
    form: PatternForm,
    output: &mut Out<W>,
    errors: &mut Out<E>,
) -> Status
    requires output { output.old.failed ≡ false }
    requires errors { errors.old.failed ≡ false }
    ensures { EndsFound (pattern_text form) found result W.contents output.old output.new
        (stream E.contents errors.old errors.new) }
{
    let pattern = match found {
        Ok(pattern) => pattern,
        Err(complaint) => return complaint.end_command(errors),
    };
    match put_pattern(&pattern, form, output) {
        Ok(()) => Status::Done,
        Err(error) => Complaint::WriteFailed(error).end_command(errors),
    }
}

/// Writes the pattern in this form. This takes no memory.
fn put_pattern<W: Write>(
    pattern: &Pattern,
    form: PatternForm,
    output: &mut Out<W>,
) -> Result<(), WriteError>
    requires { output.old.failed ≡ false }
    ensures { Writes W.contents output.old output.new result (pattern_text form pattern.now) }
{
    match form {
        PatternForm::Plaintext => pattern.write_plaintext(output),
        PatternForm::Coordinates => put_cells(pattern.cells(), output),
    }
}
