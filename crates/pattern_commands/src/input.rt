//! Inputs that are read completely, up to a limit.

ghost use Rattle.std.specs.Prelude.{◌≡◌, ◌≢◌, ◌<◌, ◌≤◌, ◌+◌, ◌^◌, ℕ, Err, List, IfOk, IfSome, OnErr, is_ok, length, take};
ghost use Rattle.std.specs.Prelude.{vec_len};
ghost use Rattle.std.specs.Io.KnownBytes.{Consumes, IsAtEnd, Keeps};
ghost use Rattle.memory.specs.Witness.{out_of_memory};
ghost use Rattle.pattern_commands.specs.Answers.{IsInput};
ghost use Rattle.pattern_commands.specs.Found.{HasFound, ruled_pattern};
ghost use Rattle.pattern_commands.specs.Inputs.{HasReadAtMost, LiesWithin999, Reads, pattern_of, rule_named};
ghost use Rattle.pattern_commands.specs.declared.input.InputError.TheVariants.{TooLong};

use crate::ending::complaint::Complaint;
use crate::read_error::ReadError;
use memory::OutOfMemory;
use plane_core::plane::pattern::Pattern;
use plane_core::plane::rule::Rule;
use std::alloc::Global;
use std::io::{self, ErrorKind, Read};

/// The most bytes that an input with a pattern may have: 2^24.
pub const INPUT_LIMIT: usize = 16_777_216;

/// The number of bytes that one read asks for: 2^16.
pub const READ_LENGTH: usize = 65_536;

/// Why an input was not read to its end.
#[derive(Clone, Copy)]
pub enum InputError {
    /// A read failed.
    Unreadable(ReadError),
    /// The input is longer than the limit.
    TooLong,
    /// Memory ran out, for a read or for the bytes that were read.
    Memory(OutOfMemory),
}

impl InputError {
    /// Returns the error for a failed read.
    pub fn of_stream(error: &io::Error) -> InputError
        ensures { result ≢ TooLong }
    {
        match error.kind() {
            ErrorKind::OutOfMemory => InputError::Memory(OutOfMemory::of_stream(error)),
            _ => InputError::Unreadable(ReadError::of_stream(error)),
        }
    }
}

impl<E: Into<OutOfMemory>> From<E> for InputError {
    ghost use Rattle.pattern_commands.specs.declared.input.InputError.TheVariants.{Memory};

    ghost from_gives = { λ _ e. e ≡ Memory out_of_memory };

    fn from(refused: E) -> InputError {
        InputError::Memory(refused.into())
    }
}

/// Reads all that the reader has left. If that is more than [`INPUT_LIMIT`] bytes, stops after the first read that goes
/// past the limit.
///
/// # Errors
///
/// `TooLong` if there are more than [`INPUT_LIMIT`] bytes; `Memory` if memory runs out; and `Unreadable` if a read
/// fails for any other reason.
pub fn read_input<R: Read>(alloc: Global, input: &mut R) -> Result<Vec<u8>, InputError>
    ensures whole { IfOk result (λ bytes. IfSome (R.remaining input.old) (λ reader. bytes.items ≡ reader)) }
    ensures short { IfOk result (λ bytes. vec_len bytes ≤ 2 ^ 24) }
    ensures long { result ≡ Err TooLong → IfSome (R.remaining input.old) (λ reader. 2 ^ 24 < length reader) }
    ensures little { HasReadAtMost (2 ^ 24 + 2 ^ 16) (R.remaining input.old) (R.remaining input.new) }
{
    let mut bytes = Vec::new(alloc);
    let mut buffer = vec![in alloc; 0u8; READ_LENGTH]?;
    while bytes.len() <= INPUT_LIMIT {
        let taken = read_once(input, &mut buffer)?;
        if taken == 0 {
            return Ok(bytes);
        }
        bytes.extend_from_slice(&buffer.as_slice()[..taken])?;
    }
    Err(InputError::TooLong)
}

/// Reads once, into the beginning of a buffer, and returns the number of bytes read. If the buffer isn't empty, 0 means
/// that the input is at its end.
///
/// # Errors
///
/// `Memory` if the read fails because memory ran out, and `Unreadable` if it fails for any other reason.
pub fn read_once<R: Read>(input: &mut R, buffer: &mut Vec<u8>) -> Result<usize, InputError>
    ensures len { vec_len buffer.new ≡ vec_len buffer.old }
    ensures bound { IfOk result (λ n. n ≤ vec_len buffer.new) }
    ensures read { IfOk result (λ n. Consumes (R.remaining input.old) (R.remaining input.new)
        (take n buffer.new.items)) }
    ensures end { IfOk result (λ n. n ≡ 0 → 0 < vec_len buffer.old → IsAtEnd (R.remaining input.new)) }
    ensures short { result ≢ Err TooLong }
    ensures kept { OnErr result (Keeps (R.remaining input.old) (R.remaining input.new)) }
{
    match input.read(buffer.as_mut_slice()) {
        Ok(taken) => Ok(taken),
        Err(error) => Err(InputError::of_stream(&error)),
    }
}

/// Reads a plaintext pattern. The input is read to its end before it is parsed.
///
/// # Errors
///
/// `ReadFailed` if a read fails, `TooLong` if there are more than [`INPUT_LIMIT`] bytes, `BadByte` or `PatternTooLarge`
/// if the bytes aren't a pattern of at most 1,000 by 1,000 cells, and `Memory` if memory runs out.
pub fn read_pattern<R: Read>(alloc: Global, input: &mut R) -> Result<Pattern, Complaint>
    ensures read { (bytes : List ℕ) × IsInput (R.remaining input.old) bytes × Reads (pattern_of bytes) result }
    ensures little { HasReadAtMost (2 ^ 24 + 2 ^ 16) (R.remaining input.old) (R.remaining input.new) }
    ensures small { IfOk result LiesWithin999 }
{
    let bytes = read_input(alloc, input)?;
    Ok(Pattern::read_plaintext(alloc, bytes.as_slice())?)
}

/// Reads a rule, and then a plaintext pattern. If the rule is refused, the input isn't read.
///
/// # Errors
///
/// `BadRule` or `BirthZero` if `rule_text` isn't a rule, and the errors of [`read_pattern`].
pub(crate) fn read_ruled_pattern<R: Read>(
    alloc: Global,
    rule_text: &str,
    input: &mut R,
) -> Result<(Rule, Pattern), Complaint>
    ensures found { HasFound (is_ok (rule_named rule_text.now))
        (λ bytes found. ruled_pattern rule_text.now bytes ≡ found) R.remaining input.old input.new result }
    ensures small { IfOk result (λ read. LiesWithin999 read.1) }
{
    let rule = Rule::read(rule_text)?;
    let pattern = read_pattern(alloc, input)?;
    Ok((rule, pattern))
}
