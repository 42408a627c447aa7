//! An input, line by line.
//!
//! ```text
//! input   a report ⏎   another report ⏎   the last
//! size    9            15                 8
//! end     Feed         Feed               Input
//! ```
//!
//! Only the first 2^24 bytes of a line and the byte after them are kept, so the memory for a line is limited even if
//! the input has no line feed.

ghost use Rattle.std.specs.Prelude.{◌≡◌, ◌≢◌, ◌≤◌, ◌+◌, ◌^◌, ◌++◌, ℕ, [], Err, List};
ghost use Rattle.std.specs.Prelude.{IfErr, IfOk, OnErr, length, take};
ghost use Rattle.std.specs.Io.KnownBytes.{Keeps, prepend_known};
ghost use Rattle.pattern_commands.specs.Inputs.{HasReadAtMost, input_complaint};
ghost use Rattle.pattern_commands.specs.declared.input.InputError.TheVariants.{TooLong};
ghost use Rattle.commands.specs.LinesSoFar.{most_ahead};
ghost use Rattle.commands.specs.Lines.{HasPiece, HasReadLine, HasReadPart, IsLongerThan, IsPieceOf};

use crate::ahead::Ahead;
use memchr::memchr;
use memory::OutOfMemory;
use pattern_commands::input::InputError;
use std::alloc::Global;
use std::io::Read;

/// The most bytes of a line that are examined: 2^24, far more than a report line of a census has.
pub(crate) const LINE_LIMIT: usize = 16_777_216;

/// The most bytes that an input of `gather` may have, and so the most bytes of a line: 2^32.
pub(crate) const GATHER_LIMIT: u64 = 4_294_967_296;

/// What ends a line.
#[derive(Clone, Copy)]
pub(crate) enum LineEnd {
    /// A line feed.
    Feed,
    /// The end of the input.
    Input,
}

/// What was read for a line.
#[derive(Clone, Copy)]
pub(crate) struct LineRead {
    /// The number of bytes, including the line feed.
    pub(crate) size: u64,
    /// What ends the line.
    pub(crate) end: LineEnd,
}

/// The part of a line that is available without another read.
#[derive(Clone, Copy)]
struct Piece {
    /// The number of bytes of the part, without the line feed.
    length: usize,
    /// The number of bytes of the part, with the line feed if the line ends with one here.
    size: usize,
    /// What ends the line, or `None` if the line goes on after this part.
    end: Option<LineEnd>,
}

/// The lines of an input. The input isn't held here: each call of [`next`](Self::next) borrows it.
#[derive(Drop)]
pub(crate) struct Lines {
    /// What was read beyond the latest line.
    ahead: Ahead,
    /// The first 2^24 + 1 bytes of the latest line, without the line feed that ends it.
    line: Vec<u8>,
}

impl Lines {
    /// Returns the lines of an input, of which nothing has been read yet.
    pub(crate) fn new(alloc: Global) -> Result<Lines, OutOfMemory>
        ensures { IfOk result (λ lines. lines.ahead ≡ []) }
    {
        Ok(Lines {
            ahead: Ahead::new(alloc)?,
            line: Vec::new(alloc),
        })
    }

    /// Returns the first 2^24 + 1 bytes of the latest line, without the line feed that ends it.
    pub(crate) fn line(&self) -> &[u8]
        ensures { result.now ≡ self.now.line.items }
    {
        self.line.as_slice()
    }

    /// Reads the next line, of at most `room` bytes including its line feed. At the end of the input, nothing is read
    /// and the line is empty.
    ///
    /// # Errors
    ///
    /// `TooLong` if the line has more than `room` bytes including its line feed; `Memory` if memory runs out; and
    /// `Unreadable` if a read fails for any other reason.
    pub(crate) fn next<R: Read>(&mut self, input: &mut R, room: u64) -> Result<LineRead, InputError>
        requires { room ≤ 2 ^ 32 }
        ensures read { IfOk result (HasReadLine room (prepend_known self.old.ahead (R.remaining input.old))
            (prepend_known self.new.ahead (R.remaining input.new)) self.new.line.items) }
        ensures long { result ≡ Err TooLong → IsLongerThan room (prepend_known self.old.ahead (R.remaining input.old)) }
        ensures part { IfErr result (λ error. HasReadPart (prepend_known self.old.ahead (R.remaining input.old))
            (prepend_known self.new.ahead (R.remaining input.new)) (input_complaint error)) }
        ensures little { HasReadAtMost (room + 2 ^ 16) (prepend_known self.old.ahead (R.remaining input.old))
            (R.remaining input.new) }
        ensures few { length self.new.ahead ≤ 2 ^ 16 }
        ensures most { IfErr result (λ error. length self.new.ahead ≤ most_ahead (input_complaint error)) }
    {
        self.line.clear();
        let mut size = 0u64;
        loop {
            let piece = read_piece(input, &mut self.ahead, &mut self.line)?;
            size += piece.size as u64;
            if size > room {
                return Err(InputError::TooLong);
            }
            if let Some(end) = piece.end {
                return Ok(LineRead { size, end });
            }
        }
    }
}

/// Appends the available part of a line to `line`, which keeps at most 2^24 + 1 bytes. If nothing is available, reads
/// once first.
fn read_piece<R: Read>(
    input: &mut R,
    ahead: &mut Ahead,
    line: &mut Vec<u8>,
) -> Result<Piece, InputError>
    requires { length line.old.items ≤ 2 ^ 24 + 1 }
    ensures short { result ≢ Err TooLong }
    ensures kept { OnErr result (Keeps (prepend_known ahead.old (R.remaining input.old))
        (prepend_known ahead.new (R.remaining input.new))) }
    ensures read { IfOk result (λ read. (piece : List ℕ)
        × (line.new.items ≡ take (2 ^ 24 + 1) (line.old.items ++ piece))
        × HasPiece (prepend_known ahead.old (R.remaining input.old)) (prepend_known ahead.new (R.remaining input.new))
        piece read) }
    ensures few { IfOk result (λ read. read.size + length ahead.new ≤ 2 ^ 16) }
    ensures left { length ahead.new ≤ 2 ^ 16 }
    ensures most { IfErr result (λ error. length ahead.new ≤ most_ahead (input_complaint error)) }
{
    ahead.fill(input)?;
    let unread = ahead.unread();
    let piece = first_piece(unread);
    line.extend_from_slice(&unread[..piece.length])?;
    line.truncate(LINE_LIMIT + 1);
    ahead.consume(piece.size);
    Ok(piece)
}

/// Returns the part of a line at the beginning of these bytes: all bytes before the first line feed, or all bytes if
/// there is none. If `bytes` is empty, the input has ended.
fn first_piece(bytes: &[u8]) -> Piece
    ensures { IsPieceOf bytes.now result }
{
    match memchr(b'\n', bytes) {
        Some(length) => Piece {
            length,
            size: length + 1,
            end: Some(LineEnd::Feed),
        },
        None if bytes.is_empty() => Piece {
            length: 0,
            size: 0,
            end: Some(LineEnd::Input),
        },
        None => Piece {
            length: bytes.len(),
            size: bytes.len(),
            end: None,
        },
    }
}
