//! Runs the program: from the arguments of the process to its output and its exit code.
//!
//! ```text
//! arguments ── do_arguments ── buffer ── send_buffered ── standard output
//!              └─ status ────────────────┴─ code
//! ```

ghost use Rattle.std.specs.Prelude.{◌≡◌, ◌≢◌, ℕ, List, [], Option, IsErr, Some, IfOk, IfErr, IsOkAnd, IsSomeAnd, false};
ghost use Rattle.std.specs.Prelude.{map, string_bytes};
ghost use Rattle.std.specs.Io.Buffered.{writer_buffer, writer_contents, writer_inner};
ghost use Rattle.std.specs.IoError.{error_kind};
ghost use Rattle.memory.specs.Witness.{out_of_memory};
ghost use Rattle.pattern_commands.specs.Complaints.{complaint_line};
ghost use Rattle.pattern_commands.specs.Status.{exit_code, has_printed};
ghost use Rattle.pattern_commands.specs.Ends.{Ends};
ghost use Rattle.pattern_commands.specs.Streams.{HasLine, Stream, stream};
ghost use Rattle.pattern_commands.specs.Version.{version_behaviour};
ghost use Rattle.census.specs.Headline.{GatherPrintsItsLines, PrintsWhatIsAsked};
ghost use Rattle.census.specs.Program.{IsDone, not_text_line};
ghost use Rattle.census.specs.ProgramEnds.{ProgramEnds};
ghost use Rattle.census.specs.Requests.{TellsUsage};

use crate::request::do_arguments;
use arguments::calls::asks_version;
use commands::machine::Machine;
use commands::progress_line::ProgressLine;
use memory::OutOfMemory;
use pattern_commands::ending::complaint::Complaint;
use pattern_commands::ending::status::Status;
use pattern_commands::output::send_buffered;
use pattern_commands::version::do_version;
use plane_core::output::Out;
use std::alloc::Global;
use std::io::{self, BufWriter, ErrorKind, Read, Write};
use std::sync::Wait;
use std::thread::Threads;
use std::time::Clock;

/// What the program leaves when it ends.
#[derive(Drop)]
pub struct Ended<W: Write + Drop> {
    /// The exit code.
    pub code: u8,
    /// The writer of standard output, or `None` if there was no memory for its buffer.
    pub output: Option<W>,
}

/// Runs the program: does what `arguments` ask for, and returns the exit code.
///
/// `arguments` are those of `std::env::args`: the first is the program's name, and arguments that aren't UTF-8 are an
/// error. `output` is written through a buffer and given back. No earlier write to standard error may have failed. The
/// machine's observer writes the progress line to a writer of its own, and nothing else depends on the observer.
pub fn run_program<
    T: Threads + Wait + Sync,
    R: Read,
    W: Write + Drop,
    E: Write,
    P: Write,
    C: Clock,
>(
    machine: &mut Machine<'_, T, E, ProgressLine<P, C>>,
    arguments: io::Result<Vec<String>>,
    input: &mut R,
    output: W,
) -> Ended<W>
    requires { machine.old.errors.failed ≡ false }

    // With code 0, the arguments are texts, what they ask for was done, and the writer has received the whole answer.
    ensures done { result.code ≡ 0 → IsOkAnd arguments (λ list. IsSomeAnd result.output (λ writer.
        IsDone (map string_bytes list.items) (R.remaining input.old) (W.contents output) (W.contents writer)
        (stream E.contents machine.old.errors machine.new.errors) 0)) }

    // With code 0, after a call of `take`, `name` or `gather` with permitted options, the writer has what the call asks
    // for.
    ensures headline { result.code ≡ 0 → IsOkAnd arguments (λ list. IsSomeAnd result.output (λ writer.
        PrintsWhatIsAsked (map string_bytes list.items) (R.remaining input.old) (W.contents output)
        (W.contents writer))) }

    // With code 6, after a call of `gather` with permitted options, soups are missing, and the writer has the haul of
    // those soups for which the input has a correct line.
    ensures headline_incomplete { result.code ≡ 6 → IsOkAnd arguments (λ list. IsSomeAnd result.output (λ writer.
        GatherPrintsItsLines (map string_bytes list.items) (R.remaining input.old) (W.contents output)
        (W.contents writer) 6)) }

    // What each code means, if the arguments are texts.
    ensures ends { IfOk arguments (λ list. ProgramEnds W.contents (map string_bytes list.items) (R.remaining input.old)
        result.code output result.output (stream E.contents machine.old.errors machine.new.errors)
        (input.new ≡ input.old)) }

    // With code 2, a text on standard error says why, whatever the arguments are.
    ensures tells_usage { result.code ≡ 2 → TellsUsage (stream E.contents machine.old.errors machine.new.errors) }

    // If the arguments couldn't be read, the code is 4 if memory ran out, and otherwise 2, because they aren't UTF-8.
    // Nothing was read from the input or written to the output.
    ensures not_text { IfErr arguments (λ error. error_kind error ≢ ErrorKind.OutOfMemory → (result.code ≡ 2)
        × HasLine (stream E.contents machine.old.errors machine.new.errors) not_text_line) }
    ensures no_memory { IfErr arguments (λ error. error_kind error ≡ ErrorKind.OutOfMemory → (result.code ≡ 4)
        × HasLine (stream E.contents machine.old.errors machine.new.errors)
        (complaint_line (Complaint.Memory out_of_memory))) }
    ensures unread_arguments { IsErr arguments → (input.new ≡ input.old) × (result.output ≡ Some output) }
{
    match arguments {
        Ok(arguments) => {
            let (status, output) = do_buffered(machine, arguments.as_slice(), input, output);
            Ended {
                code: status.exit_code(),
                output,
            }
        }
        Err(error) => {
            let status = end_with_unread_arguments(&error, &mut machine.errors);
            Ended {
                code: status.exit_code(),
                output: Some(output),
            }
        }
    }
}

/// Does what `arguments` ask for, and writes to `output` through a buffer. Only the version, which takes no memory, is
/// written without the buffer. Returns the status and `output`, or the status and `None` if there was no memory for the
/// buffer.
fn do_buffered<T: Threads + Wait + Sync, R: Read, W: Write + Drop, E: Write, P: Write, C: Clock>(
    machine: &mut Machine<'_, T, E, ProgressLine<P, C>>,
    arguments: &[String],
    input: &mut R,
    output: W,
) -> (Status, Option<W>)
    requires { machine.old.errors.failed ≡ false }
    ensures { ProgramEnds W.contents (map string_bytes arguments.now) (R.remaining input.old)
        (exit_code result.0) output result.1 (stream E.contents machine.old.errors machine.new.errors)
        (input.new ≡ input.old) }
{
    if asks_version(arguments) {
        let (status, writer) = print_version(output, &mut machine.errors);
        return (status, Some(writer));
    }
    match BufWriter::new(machine.alloc, output) {
        Ok(buffered) => {
            let (status, writer) = do_and_send(machine, arguments, input, buffered);
            (status, Some(writer))
        }
        Err(error) => {
            let refused = OutOfMemory::of_stream(&error);
            (
                Complaint::Memory(refused).end_command(&mut machine.errors),
                None,
            )
        }
    }
}

/// Does what `arguments` ask for, and writes to `buffered`, which is empty at first and is flushed at the end. Returns
/// the status and the writer below the buffer.
fn do_and_send<T: Threads + Wait + Sync, R: Read, W: Write + Drop, E: Write, P: Write, C: Clock>(
    machine: &mut Machine<'_, T, E, ProgressLine<P, C>>,
    arguments: &[String],
    input: &mut R,
    buffered: BufWriter<W, Global>,
) -> (Status, W)
    requires errors { machine.old.errors.failed ≡ false }
    requires empty { writer_buffer buffered ≡ [] }
    ensures { ProgramEnds W.contents (map string_bytes arguments.now) (R.remaining input.old)
        (exit_code result.0) (writer_inner buffered) (Some result.1)
        (stream E.contents machine.old.errors machine.new.errors) (input.new ≡ input.old) }
{
    let mut output = Out::new(buffered);
    let status = do_arguments(machine, arguments, input, &mut output);
    let mut buffered = output.into_inner();
    let status = send_buffered(status, &mut buffered, &mut machine.errors);
    let (writer, _) = buffered.into_parts();
    (status, writer)
}

/// Prints the version. Returns the status and the writer.
fn print_version<W: Write + Drop, E: Write>(output: W, errors: &mut Out<E>) -> (Status, W)
    requires { errors.old.failed ≡ false }
    ensures ends { (written : Stream) × (written.before ≡ W.contents output) × (written.after ≡ W.contents result.1)
        × ((reader : Option (List ℕ)) (bytes : List ℕ)
        → Ends version_behaviour reader bytes result.0 written (stream E.contents errors.old errors.new)) }
    ensures failed { result.0 ≢ Status.Done → result.0 ≡ Status.Failed }
{
    let mut output = Out::new(output);
    let status = do_version(&mut output, errors);
    (status, output.into_inner())
}

/// Reports that the arguments aren't text, or that memory ran out while they were read.
fn end_with_unread_arguments<E: Write>(error: &io::Error, errors: &mut Out<E>) -> Status
    requires { errors.old.failed ≡ false }
    ensures unprinted { has_printed result ≡ false }
    ensures not_text { error_kind error.now ≢ ErrorKind.OutOfMemory → (result ≡ Status.Usage)
        × HasLine (stream E.contents errors.old errors.new) not_text_line }
    ensures no_memory { error_kind error.now ≡ ErrorKind.OutOfMemory → (result ≡ Status.Memory)
        × HasLine (stream E.contents errors.old errors.new) (complaint_line (Complaint.Memory out_of_memory)) }
    ensures tells_usage { result ≡ Status.Usage → TellsUsage (stream E.contents errors.old errors.new) }
{
    match error.kind() {
        ErrorKind::OutOfMemory => Complaint::Memory(OutOfMemory::of_stream(error)).end_command(
            errors,
        ),
        _ => end_with_not_text(errors),
    }
}

/// Reports that the arguments aren't text. A failure to write the line is not reported.
fn end_with_not_text<E: Write>(errors: &mut Out<E>) -> Status
    requires { errors.old.failed ≡ false }
    ensures status { result ≡ Status.Usage }
    ensures line { HasLine (stream E.contents errors.old errors.new) not_text_line }
{
    let _ = errors.put(b"census: the words are not UTF-8\n");
    Status::Usage
}
