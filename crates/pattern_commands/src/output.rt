//! Flushes a command's buffered output when the command has ended, and provides a buffer for a line of standard error.

ghost use Rattle.std.specs.Prelude.{◌≡◌, ◌≢◌, true, false, []};
ghost use Rattle.std.specs.Io.Buffered.{writer_buffer, writer_contents};
ghost use Rattle.std.specs.Io.KnownBytes.{Keeps};
ghost use Rattle.pattern_commands.specs.Complaints.{write_failed_line};
ghost use Rattle.pattern_commands.specs.Status.{has_printed};
ghost use Rattle.pattern_commands.specs.Streams.{stream, HasLine};

use crate::ending::complaint::Complaint;
use crate::ending::end_command;
use crate::ending::status::Status;
use arrayvec::ArrayVec;
use plane_core::output::{Out, WriteError};
use std::alloc::Global;
use std::io::{BufWriter, Write};

/// A buffer for a line of standard error, so that the line is one write and isn't mixed with lines of other programs.
/// Each line is shorter than the buffer. A longer line would be written in pieces.
pub type LineBuffer = ArrayVec<u8, 128>;

/// Flushes what a command has left in the buffer, and returns the status with which the process ends. This is the
/// command's own `status`, or `Failed` if the command printed its text and the flush fails.
///
/// If `status` is neither `Done` nor `Incomplete`, nothing is written, and the buffer isn't touched. If the flush
/// fails, a line is written to `errors`, unless an earlier write to `errors` failed. A failure to write that line is
/// not reported.
pub fn send_buffered<W: Write + Drop, E: Write>(
    status: Status,
    buffered: &mut BufWriter<W, Global>,
    errors: &mut Out<E>,
) -> Status
    ensures done { result ≡ Status.Done → (status ≡ Status.Done) × (writer_buffer buffered.new ≡ []) }
    ensures incomplete { result ≡ Status.Incomplete → (status ≡ Status.Incomplete) × (writer_buffer buffered.new ≡ []) }
    ensures bytes { Keeps (writer_contents W.contents buffered.old) (writer_contents W.contents buffered.new) }
    ensures untouched { has_printed status ≡ false → buffered.new ≡ buffered.old }
    ensures silent { result ≡ status → errors.new ≡ errors.old }
    ensures kept { has_printed status ≡ false → (result ≡ status) × (errors.new ≡ errors.old) }
    ensures failed { result ≢ status → result ≡ Status.Failed }
    ensures stays { errors.old.failed ≡ true → errors.new.failed ≡ true }
    ensures line { result ≢ status → errors.old.failed ≡ false
        → HasLine (stream E.contents errors.old errors.new) write_failed_line }
{
    if !has_printed(status) {
        return status;
    }
    match buffered.flush() {
        Ok(()) => status,
        Err(error) => {
            let complaint = Complaint::WriteFailed(WriteError::of_stream(&error));
            end_command(Err(complaint), errors)
        }
    }
}

/// Checks whether a command with this status has printed its whole text.
fn has_printed(status: Status) -> bool
    ensures { result ≡ has_printed status }
{
    matches!(status, Status::Done | Status::Incomplete)
}
