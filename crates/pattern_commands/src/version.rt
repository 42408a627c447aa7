//! `--version`: the program's name and version.

ghost use Rattle.std.specs.Prelude.{◌≡◌, ◌≢◌, ℕ, List, Option, false};
ghost use Rattle.plane_core.specs.Outputs.{Writes};
ghost use Rattle.pattern_commands.specs.Ends.{Ends};
ghost use Rattle.pattern_commands.specs.Streams.{stream};
ghost use Rattle.pattern_commands.specs.Version.{version_behaviour, version_line};

use crate::ending::complaint::Complaint;
use crate::ending::status::Status;
use plane_core::output::{Out, WriteError};
use requests::version::VERSION;
use std::io::Write;

/// Writes the program's name and version, as a line.
///
/// No earlier write to either writer may have failed. This takes no memory.
///
/// # Errors
///
/// The status is `Failed` if the output can't be written. Then a line is written to `errors`. A failure to write that
/// line is not reported.
pub fn do_version<W: Write, E: Write>(output: &mut Out<W>, errors: &mut Out<E>) -> Status
    requires output { output.old.failed ≡ false }
    requires errors { errors.old.failed ≡ false }
    ensures ends { (reader : Option (List ℕ)) (bytes : List ℕ) → Ends version_behaviour reader bytes result
        (stream W.contents output.old output.new) (stream E.contents errors.old errors.new) }
    ensures failed { result ≢ Status.Done → result ≡ Status.Failed }
    ensures status { result ≢ Status.Refused }
    ensures no_memory { result ≢ Status.Memory }
{
    match put_line(output) {
        Ok(()) => Status::Done,
        Err(error) => Complaint::WriteFailed(error).end_command(errors),
    }
}

/// Writes `census`, a space, the version and a line feed.
fn put_line<W: Write>(output: &mut Out<W>) -> Result<(), WriteError>
    requires { output.old.failed ≡ false }
    ensures { Writes W.contents output.old output.new result version_line }
{
    output.put(b"census ")?;
    output.put(VERSION.as_bytes())?;
    output.put(b"\n")
}
