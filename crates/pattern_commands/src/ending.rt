//! How a command ends: its last line on standard error, if there is one, and its status.

ghost use Rattle.std.specs.Prelude.{◌≡◌, OnOk, false, true};
ghost use Rattle.pattern_commands.specs.Complaints.{complaint_line, status_of};
ghost use Rattle.pattern_commands.specs.Ends.{HasLast, status_after};
ghost use Rattle.pattern_commands.specs.Streams.{stream, HasLine};
ghost use Rattle.pattern_commands.specs.TextSteps.{none_missing};

/// Why a command didn't do all that was asked.
pub mod complaint;
/// The last line of standard error.
mod error_line;
/// Why a text was refused.
pub mod refusal;
/// How a command ended, as a shell sees it.
pub mod status;

use crate::ending::complaint::{Complaint, put_missing};
use crate::ending::status::Status;
use plane_core::output::Out;
use std::io::Write;

/// Ends a command with `outcome`: the number of soups that are missing, or a complaint. Writes the last line of
/// standard error, if there is one, and returns the status. An earlier write to `errors` may have failed only if
/// `outcome` is a complaint, and then nothing more is written. A failure to write the line is not reported.
pub fn end_command<E: Write>(outcome: Result<u64, Complaint>, errors: &mut Out<E>) -> Status
    requires { OnOk outcome (errors.old.failed ≡ false) }
    ensures status { result ≡ status_after outcome }
    ensures last { HasLast outcome (stream E.contents errors.old errors.new) }
    ensures stays { errors.old.failed ≡ true → errors.new.failed ≡ true }
{
    match outcome {
        Ok(0) => Status::Done,
        Ok(missing) => {
            let _ = put_missing(missing, errors);
            Status::Incomplete
        }
        Err(complaint) => end_with_complaint(complaint, errors),
    }
}

/// Ends a command for which no soups can be missing, in the same way as [`end_command`]. No earlier write to `errors`
/// may have failed.
pub fn end_text_command<E: Write>(outcome: Result<(), Complaint>, errors: &mut Out<E>) -> Status
    requires { errors.old.failed ≡ false }
    ensures status { result ≡ status_after (none_missing outcome) }
    ensures last { HasLast (none_missing outcome) (stream E.contents errors.old errors.new) }
{
    match outcome {
        Ok(()) => end_command(Ok(0), errors),
        Err(complaint) => end_command(Err(complaint), errors),
    }
}

/// Writes the line of a complaint, unless an earlier write to `errors` failed, and returns the complaint's status.
fn end_with_complaint<E: Write>(complaint: Complaint, errors: &mut Out<E>) -> Status
    ensures status { result ≡ status_of complaint }
    ensures line { HasLine (stream E.contents errors.old errors.new) (complaint_line complaint) }
    ensures stays { errors.old.failed ≡ true → errors.new.failed ≡ true }
{
    if errors.failed() {
        return complaint.status();
    }
    complaint.end_command(errors)
}
