//! Reads texts in extended Wechsler format (LifeWiki, "Apgcode") back to patterns.
//!
//! ```text
//! 0ccz11   ->   strip 0: columns 0, c, c      Each column of a strip has five cells, which count
//!               strip 1: columns 1, 1         1, 2, 4, 8 and 16, from the top.
//! ```
ghost use Rattle.std.specs.Prelude.{◌≡◌, ◌≢◌, ◌↔◌, ◌<◌, ◌≤◌, ◌+◌, ◌*◌, ◌++◌, ◌∷◌, [], ℕ, List, Some, None, Ok, Err};
ghost use Rattle.std.specs.Prelude.{true, length, pos, IfOk, IfErr, OnOk, IsErrOf, MatchResult, IfSome, IfNone};
ghost use Rattle.std.specs.Result.{result_err};
ghost use Rattle.memory.specs.Witness.{out_of_memory};
ghost use Rattle.plane_core.specs.declared.plane.cell.Cell.{Cell};
ghost use Rattle.plane_core.specs.plane.Cells.{cell_at};
ghost use Rattle.code_core.specs.Columns.{is_lit, lit_cells, cells_from};
ghost use Rattle.code_core.specs.Tokens.{IsToken, Spells, is_character};
ghost use Rattle.code_core.specs.Reading.{wechsler_pattern, wechsler_read, character_value, single, Says};
ghost use Rattle.code_core.specs.ReadingFaults.{IsBadByte, IsShortRun, TextsAreRead, wechsler_fault_text};
ghost use Rattle.code_core.specs.ReadingSteps.{Begins, IsStuck, fault_without_token, is_column};
ghost use Rattle.code_core.specs.declared.reader.Token.{Token};
ghost use Rattle.code_core.specs.declared.reader.WechslerFault.{WechslerFault};
ghost use Rattle.code_core.specs.declared.reader.WechslerFault.TheVariants.{TooLong, BadByte, ShortRun, Empty};
ghost use Rattle.code_core.specs.declared.reader.WechslerError.{WechslerError};
ghost use Rattle.code_core.specs.declared.reader.WechslerError.TheVariants.{Memory};

use memory::OutOfMemory;
use plane_core::plane::cell::Cell;
use plane_core::plane::pattern::{FromCellsError, Pattern};
use std::alloc::Global;
use std::fmt;
use thiserror::Error;

/// The longest text that is read, in bytes. The cells of such a text fit on the plane, because each byte either moves
/// on by at most 39 columns to the right, or begins a new strip of five rows.
pub const TEXT_LIMIT: usize = 10_000;

/// What is wrong with a text. `place` counts bytes from 0.
#[derive(Clone, Copy, PartialEq, Eq, Error)]
pub enum WechslerFault {
    /// The text is longer than 10,000 bytes.
    TooLong,
    /// The byte at `place` isn't one of `0` to `9` and `a` to `z`.
    BadByte { place: usize },
    /// The `y` at `place` begins a run and isn't followed by one of `0` to `9` and `a` to `z`.
    ShortRun { place: usize },
    /// No column has a live cell.
    Empty,
}

impl fmt::Display for WechslerFault {
    ghost output = { λ fault. Some (wechsler_fault_text fault) };

    fn fmt<W: fmt::Write>(&self, f: &mut fmt::Formatter<W>) -> fmt::Result {
        match self {
            WechslerFault::TooLong => f.write_str("text longer than 10000 bytes"),
            WechslerFault::BadByte { place } => write!(f, "bad byte at {place}"),
            WechslerFault::ShortRun { place } => write!(f, "run without a length at {place}"),
            WechslerFault::Empty => f.write_str("no live cell"),
        }
    }
}

/// Writes the message, as `Display` does.
impl fmt::Debug for WechslerFault {
    fn fmt<W: fmt::Write>(&self, f: &mut fmt::Formatter<W>) -> fmt::Result {
        fmt::Display::fmt(self, f)
    }
}

/// Why no pattern was read.
#[derive(Clone, Copy, PartialEq, Eq, Error)]
pub enum WechslerError {
    /// The text is too long, or doesn't describe a pattern with a live cell.
    Fault(WechslerFault),
    /// Memory ran out.
    Memory(OutOfMemory),
}

impl fmt::Display for WechslerError {
    fn fmt<W: fmt::Write>(&self, f: &mut fmt::Formatter<W>) -> fmt::Result {
        match self {
            WechslerError::Fault(fault) => fault.fmt(f),
            WechslerError::Memory(_) => f.write_str("out of memory"),
        }
    }
}

/// Writes the message, as `Display` does.
impl fmt::Debug for WechslerError {
    fn fmt<W: fmt::Write>(&self, f: &mut fmt::Formatter<W>) -> fmt::Result {
        fmt::Display::fmt(self, f)
    }
}

impl<E: Into<OutOfMemory>> From<E> for WechslerError {
    ghost from_gives = { λ _ e. e ≡ Memory out_of_memory };

    fn from(refused: E) -> WechslerError {
        WechslerError::Memory(refused.into())
    }
}

/// A piece of a text in extended Wechsler format.
#[derive(Clone, Copy)]
pub(crate) enum Token {
    /// A column with a live cell, by its value from 1 to 31.
    Column(u8),
    /// A run of 1 to 39 empty columns.
    Gap(u8),
    /// The end of a strip and the beginning of the next.
    NextStrip,
}

/// Returns the pattern of a text in extended Wechsler format (LifeWiki, "Apgcode"), with the top left cell of its first
/// strip at (0, 0).
///
/// The text has at most 10,000 bytes. It describes strips of five rows, from the top, which are separated by `z`. In a
/// strip, columns are listed from the left. Each of `0` to `9` and `a` to `v` is one column with a value from 0 to 31:
/// the sum of its live cells, where the top cell counts 1 and the cells below it count 2, 4, 8 and 16. `w` and `x` are
/// two and three empty columns. `y` and another character, `0` to `9` or `a` to `z`, are 4 to 39 empty columns.
///
/// Texts that `wechsler` never writes are read too, such as texts with a run of empty columns at a strip's end, with
/// two runs one after another, or with empty strips at the end.
///
/// # Errors
///
/// - [`WechslerError::Fault`] if the text is too long or doesn't describe a pattern with a live cell. A fault is found
///   before any memory is asked for. The fault is `TooLong` if the text has more than 10,000 bytes. Otherwise it is the
///   first `BadByte` or `ShortRun` from the left, or `Empty` if there is neither of these and no cell is alive.
/// - [`WechslerError::Memory`] if memory runs out.
pub fn read_wechsler(alloc: Global, text: &str) -> Result<Pattern, WechslerError>
    ensures pattern { IfOk result (λ read. wechsler_read text.now ≡ Ok read) }
    ensures fault { (fault : WechslerFault) →
        IsErrOf result (WechslerError.Fault fault) ↔ (wechsler_read text.now ≡ Err fault) }

    // The result is the pattern that the text describes. Each text of at most 10,000 bytes that describes a pattern
    // with a live cell is read, unless memory runs out.
    ensures says { IfOk result (Says text.now) }
    ensures complete { (cells : List Cell) → Says text.now cells → cells ≢ [] → length text.now ≤ 10000
        → MatchResult result (λ read. read ≡ cells) (λ error. error ≡ Memory out_of_memory) }

    // The last four clauses say exactly when each fault is returned.
    ensures too_long { IsErrOf result (WechslerError.Fault TooLong) ↔ (10000 < length text.now) }
    ensures bad_byte { (place : ℕ) → length text.now ≤ 10000 →
        (IsErrOf result (WechslerError.Fault (BadByte place)) ↔ IsBadByte text.now place) }
    ensures short_run { (place : ℕ) → length text.now ≤ 10000 →
        (IsErrOf result (WechslerError.Fault (ShortRun place)) ↔ IsShortRun text.now place) }
    ensures empty { length text.now ≤ 10000 →
        (IsErrOf result (WechslerError.Fault Empty) ↔ Says text.now []) }
{
    read(alloc, text.as_bytes())
}

/// The law that reading the text of a pattern gives the pattern again, moved to the corner (0, 0).
#[tactic(auto, using(crate::proofs::RoundTrip::texts_are_read))]
pub fn texts_are_read()
    ensures { TextsAreRead }
{}

/// Returns the pattern of a text, as [`read_wechsler`] does.
fn read(alloc: Global, text: &[u8]) -> Result<Pattern, WechslerError>
    ensures pattern { IfOk result (λ read. wechsler_read text.now ≡ Ok read) }
    ensures fault { (fault : WechslerFault) →
        IsErrOf result (WechslerError.Fault fault) ↔ (wechsler_read text.now ≡ Err fault) }
{
    if text.len() > TEXT_LIMIT {
        return Err(WechslerError::Fault(WechslerFault::TooLong));
    }
    if let Some(fault) = fault_in(text) {
        return Err(WechslerError::Fault(fault));
    }
    pattern_in(alloc, text)
}

/// Returns the fault of a text, or `None` if it has no fault. The length of the text isn't checked.
#[tactic(auto, using(crate::proofs::TokenReading::shorter, crate::proofs::ReaderLoops::Passed_none, crate::proofs::ReaderLoops::Passed_more))]
fn fault_in(text: &[u8]) -> Option<WechslerFault>
    ensures { result ≡ result_err (wechsler_pattern text.now) }
{
    let mut remainder = text;
    let mut has_cell = false;
    while let Some((token, more)) = first_token(remainder) {
        has_cell |= is_column(token);
        remainder = more;
    }
    if let Some(fault) = fault_at(text.len() - remainder.len(), remainder) {
        return Some(fault);
    }
    if has_cell {
        None
    } else {
        Some(WechslerFault::Empty)
    }
}

/// Returns the fault at `place` of a text, where no token begins, or `None` if the text ends there. `remainder` is the
/// text from `place` on.
fn fault_at(place: usize, remainder: &[u8]) -> Option<WechslerFault>
    ensures { result ≡ fault_without_token place remainder.now }
{
    let Some(byte) = remainder.first() else {
        return None;
    };
    if is_character(*byte) {
        Some(WechslerFault::ShortRun { place })
    } else {
        Some(WechslerFault::BadByte { place })
    }
}

/// Returns the pattern of a text that has no fault.
///
/// # Errors
///
/// Only `Memory`.
#[tactic(auto, using(crate::proofs::TokenReading::shorter))]
fn pattern_in(alloc: Global, text: &[u8]) -> Result<Pattern, WechslerError>
    requires short { length text.now ≤ TEXT_LIMIT }
    requires sound { result_err (wechsler_pattern text.now) ≡ None }
    ensures pattern { IfOk result (λ read. wechsler_pattern text.now ≡ Ok read) }
    ensures memory { IfErr result (λ error. error ≡ Memory out_of_memory) }
{
    let mut cells = Vec::new(alloc);
    let mut head = Head { strip: 0, x: 0 };
    let mut remainder = text;
    while let Some((token, more)) = first_token(remainder) {
        head = push_token(&mut cells, head, token)?;
        remainder = more;
    }
    match Pattern::from_cells(alloc, cells.as_slice()) {
        Ok(pattern) => Ok(pattern),
        Err(FromCellsError::Memory(error)) => Err(WechslerError::Memory(error)),
        Err(FromCellsError::OutOfPlane { .. }) => unreachable!(),
    }
}

/// The place of the next column of a text: column `x` of strip `strip`, both counted from 0.
#[derive(Clone, Copy)]
struct Head {
    strip: u32,
    x: u32,
}

/// Appends the live cells of a token to the list, and returns the place of the next column.
fn push_token(cells: &mut Vec<Cell>, head: Head, token: Token) -> Result<Head, OutOfMemory>
    requires strip { head.strip ≤ TEXT_LIMIT }
    requires column { head.x ≤ 39 * TEXT_LIMIT }
    requires token { IsToken token }
    ensures cells { IfOk result (λ next. (tokens : List Token) →
        cells.new.items ++ cells_from next.strip next.x tokens
        ≡ cells.old.items ++ cells_from head.strip head.x (token ∷ tokens)) }
    ensures strip { IfOk result (λ next. next.strip ≤ head.strip + 1) }
    ensures column { IfOk result (λ next. next.x ≤ head.x + 39) }
{
    match token {
        Token::Column(value) => {
            push_column(cells, head, value)?;
            Ok(Head {
                x: head.x + 1,
                ..head
            })
        }
        Token::Gap(count) => Ok(Head {
            x: head.x + u32::from(count),
            ..head
        }),
        Token::NextStrip => Ok(Head {
            strip: head.strip + 1,
            x: 0,
        }),
    }
}

/// Appends the live cells of a column to the list. The column is at `head`, and has this value.
fn push_column(cells: &mut Vec<Cell>, head: Head, value: u8) -> Result<(), OutOfMemory>
    requires strip { head.strip ≤ TEXT_LIMIT }
    requires column { head.x ≤ 39 * TEXT_LIMIT }
    ensures { OnOk result (cells.new.items ≡ cells.old.items ++ lit_cells head.strip head.x value) }
{
    for i in 0..5 {
        if is_lit(value, i) {
            cells.push(cell_of(head, i))?;
        }
    }
    Ok(())
}

/// Returns the cell in row `i`, 0 to 4, of the column at `head`.
fn cell_of(head: Head, i: u32) -> Cell
    requires strip { head.strip ≤ TEXT_LIMIT }
    requires column { head.x ≤ 39 * TEXT_LIMIT }
    requires row { i < 5 }
    ensures { result ≡ cell_at (pos head.x) (pos (5 * head.strip + i)) }
{
    Cell {
        y: (5 * head.strip + i) as i32,
        x: head.x as i32,
    }
}

/// Checks whether the cell in row `i`, 0 to 4, is alive in a column with this value. In the value, this cell counts 2
/// to the power `i`.
fn is_lit(value: u8, i: u32) -> bool
    requires { i < 5 }
    ensures { result ≡ is_lit value i }
{
    (value >> i) % 2 == 1
}

/// Returns the first token of a text and the text after it, or `None` if the text is empty or begins with a fault.
fn first_token(text: &[u8]) -> Option<(Token, &[u8])>
    ensures token { IfSome result (λ first. Begins text.now first.0 first.1.now) }
    ensures none { IfNone result (IsStuck text.now) }
{
    let Some((byte, remainder)) = text.split_first() else {
        return None;
    };
    if !is_character(*byte) {
        return None;
    }
    if *byte != MANY_EMPTY {
        return Some((single(*byte), remainder));
    }
    let Some((length, remainder)) = remainder.split_first() else {
        return None;
    };
    if !is_character(*length) {
        return None;
    }
    Some((Token::Gap(character_value(*length) + 4), remainder))
}

/// Checks whether a token is a column with a live cell.
fn is_column(token: Token) -> bool
    ensures { result ≡ is_column token }
{
    matches!(token, Token::Column(_))
}

/// The character for a run of one empty column.
const ONE_EMPTY: u8 = b'0';

/// The character for a run of two empty columns.
const TWO_EMPTY: u8 = b'w';

/// The character for a run of three empty columns.
const THREE_EMPTY: u8 = b'x';

/// The character that begins a run of 4 to 39 empty columns. The next character gives the length.
const MANY_EMPTY: u8 = b'y';

/// The character that ends a strip.
const STRIP_END: u8 = b'z';

/// Returns the token of a character other than `y`.
#[tactic(auto, unfolding(crate::specs::Reading::single))]
fn single(byte: u8) -> Token
    requires { is_character byte ≡ true }
    ensures { result ≡ single byte }
{
    match byte {
        ONE_EMPTY => Token::Gap(1),
        TWO_EMPTY => Token::Gap(2),
        THREE_EMPTY => Token::Gap(3),
        STRIP_END => Token::NextStrip,
        _ => Token::Column(character_value(byte)),
    }
}

/// Checks whether a byte is one of `0` to `9` and `a` to `z`.
#[tactic(auto, unfolding(crate::specs::Tokens::is_character))]
fn is_character(byte: u8) -> bool
    ensures { result ≡ is_character byte }
{
    byte.is_ascii_digit() || byte.is_ascii_lowercase()
}

/// Returns the value of a character, 0 to 35.
#[tactic(auto, unfolding(crate::specs::Tokens::is_character, crate::specs::Reading::character_value))]
fn character_value(byte: u8) -> u8
    requires { is_character byte ≡ true }
    ensures value { result ≡ character_value byte }
    ensures bound { result ≤ 35 }
{
    if byte.is_ascii_digit() {
        byte - b'0'
    } else {
        byte - b'a' + 10
    }
}
