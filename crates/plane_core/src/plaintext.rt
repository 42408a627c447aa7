//! Patterns as plaintext (LifeWiki, "Plaintext"): a line for each row, `O` for a live cell and `.` for a dead one.
//!
//! ```text
//! !Name: Glider
//! .O.
//! ..O
//! OOO
//! ```
ghost use Rattle.std.specs.Prelude.{◌≡◌, ◌==◌, ◌↔◌, ◌<◌, ◌≤◌, ◌++◌, Option, None, List, [], ◌∷◌, IfOk, IsErrOf, OnOk, length};
ghost use Rattle.std.specs.Prelude.{ℕ, pos, Ok, Err};
ghost use Rattle.std.specs.Prelude.{Some, IfSome, replicate, true, false, drop};
ghost use Rattle.std.specs.List.{prefix_len};
ghost use Rattle.std.specs.Ordering.{int_eq};
ghost use Rattle.plane_core.specs.Outputs.{Writes};
ghost use Rattle.plane_core.specs.plane.Bounds.{box_of, at_corner};
ghost use Rattle.plane_core.specs.PlaintextWalk.{IsBox, IsAhead};
ghost use Rattle.std.specs.Str.Lines.{strip_carriage_return};
ghost use Rattle.plane_core.specs.plane.Cells.{IsPattern, cell_at, has};
ghost use Rattle.plane_core.specs.declared.plane.cell.Cell.{Cell};
ghost use Rattle.plane_core.specs.declared.plaintext.PlaintextFault.{PlaintextFault};
ghost use Rattle.plane_core.specs.plane.Generations.{lies_within};
ghost use Rattle.plane_core.specs.Plaintext.{fault_text, is_live, first_fault, live_cells, pattern, row_text};
ghost use Rattle.plane_core.specs.Plaintext.{plain, FitsThousandSquare};
ghost use Rattle.plane_core.specs.PlaintextPlaces.{byte_at, dot, is_comment, line_feed, places_of_row, places, side_limit};

use crate::output::{Out, WriteError};
use crate::plane::bounds::Bounds;
use crate::plane::cell::Cell;
use crate::plane::pattern::Pattern;
use memory::OutOfMemory;
use std::alloc::Global;
use std::fmt::{self, Display};
use std::io::Write;
use thiserror::Error;

/// The most columns, and the most rows, that a text may have, including dead cells. Any number of empty lines may
/// follow.
pub const PLAINTEXT_SIDE_LIMIT: usize = 1_000;

const DEAD: u8 = b'.';

const LIVE: u8 = b'O';

/// Another byte that is read as a live cell. It is never written.
const STAR: u8 = b'*';

/// The first byte of a comment.
const COMMENT: u8 = b'!';

const LINE_FEED: u8 = b'\n';

/// A run of dead cells. A longer run is written in several pieces.
const DEAD_CELLS: [u8; 64] = [DEAD; 64];

/// Why a text isn't a plaintext pattern.
#[derive(Clone, Copy, PartialEq, Eq, Error)]
pub enum PlaintextFault {
    /// A byte of a row isn't `.`, `O` or `*`. Lines and columns count from 1.
    BadByte { line: usize, column: usize },
    /// There is a `.`, `O` or `*` past the 1,000th column or the 1,000th row.
    TooLarge,
}

impl fmt::Display for PlaintextFault {
    ghost output = { λ fault. Some (fault_text fault) };

    fn fmt<W: fmt::Write>(&self, f: &mut fmt::Formatter<W>) -> fmt::Result {
        match self {
            PlaintextFault::BadByte { line, column } => {
                write!(f, "bad byte at line {line} column {column}")
            }
            PlaintextFault::TooLarge => f.write_str("pattern larger than 1000 by 1000"),
        }
    }
}

/// Shows the message, as `Display` does.
impl fmt::Debug for PlaintextFault {
    fn fmt<W: fmt::Write>(&self, f: &mut fmt::Formatter<W>) -> fmt::Result {
        fmt::Display::fmt(self, f)
    }
}

/// Why a text was not read.
#[derive(Clone, Copy, PartialEq, Eq, Error)]
pub enum PlaintextError {
    /// The text isn't a plaintext pattern.
    Fault(PlaintextFault),
    /// Memory ran out.
    Memory(OutOfMemory),
}

impl fmt::Display for PlaintextError {
    fn fmt<W: fmt::Write>(&self, f: &mut fmt::Formatter<W>) -> fmt::Result {
        match self {
            PlaintextError::Fault(fault) => fault.fmt(f),
            PlaintextError::Memory(refused) => refused.fmt(f),
        }
    }
}

/// Shows the message, as `Display` does.
impl fmt::Debug for PlaintextError {
    fn fmt<W: fmt::Write>(&self, f: &mut fmt::Formatter<W>) -> fmt::Result {
        fmt::Display::fmt(self, f)
    }
}

impl Pattern {
    /// Reads a plaintext pattern file (LifeWiki, "Plaintext").
    ///
    /// Lines end with a line feed, which the last line may lack. A carriage return at the end of a line is dropped. A
    /// line that begins with `!` is a comment. Each other line is the next row, from y = 0 on, and its bytes are the
    /// cells from x = 0 on: `.` is dead, `O` and `*` are alive. There may be up to 1,000 columns and 1,000 rows,
    /// including dead cells. Any number of empty lines may follow.
    ///
    /// # Errors
    ///
    /// [`PlaintextError::Fault`] with the first fault of the text, whether there is memory or not. Otherwise
    /// [`PlaintextError::Memory`] if memory runs out.
    pub fn read_plaintext(alloc: Global, input: &[u8]) -> Result<Pattern, PlaintextError>
        ensures pattern { IfOk result (λ read. pattern input.now ≡ Ok read) }
        ensures cells { IfOk result (λ read. (x y : ℕ) →
            has read (cell_at (pos x) (pos y)) ≡ is_live (byte_at input.now x y)) }
        ensures small { IfOk result (λ read. lies_within 999 read ≡ true) }
        ensures fault { (fault : PlaintextFault) →
            IsErrOf result (PlaintextError.Fault fault) ↔ (pattern input.now ≡ Err fault) }
    {
        if let Some(fault) = fault_in(input) {
            return Err(PlaintextError::Fault(fault));
        }
        match pattern_in(alloc, input) {
            Ok(pattern) => Ok(pattern),
            Err(refused) => Err(PlaintextError::Memory(refused)),
        }
    }

    /// Writes the pattern as plaintext (LifeWiki, "Plaintext"): the rows of its smallest box, from the top. Each row
    /// has a `.` or an `O` for each column of the box, and ends with a line feed. Nothing is written for the empty
    /// pattern. No earlier write to the `Out` may have failed.
    ///
    /// This takes no memory. Each live cell is a write of one byte, so the writer should be buffered, for example by a
    /// `BufWriter`.
    ///
    /// # Errors
    ///
    /// [`WriteError`] if a write fails or takes no byte. A prefix of the text may have been written.
    pub fn write_plaintext<V: Write>(&self, out: &mut Out<V>) -> Result<(), WriteError>
        requires { out.old.failed ≡ false }
        ensures { Writes V.contents out.old out.new result (plain self.now) }
    {
        let Some(bounds) = self.bounds() else {
            return Ok(());
        };
        let mut remainder = self.cells();
        for y in bounds.top..bounds.bottom + 1 {
            write_row(out, remainder, bounds, y)?;
            remainder = below(remainder, y);
        }
        Ok(())
    }
}

/// The law that the plaintext of a pattern is read as the same pattern, moved to the corner (0, 0), if the pattern's
/// box is at most 1,000 by 1,000.
#[tactic(auto, using(crate::proofs::lemmas::plaintext::PlaintextRoundTrip::round_trip))]
pub fn round_trip()
    ensures { (cells : List Cell) → IsPattern cells → IfSome (box_of cells) FitsThousandSquare
        → pattern (plain cells) ≡ Ok (at_corner cells) }
{}

/// Returns the line without a carriage return at its end.
fn without_return(line: &[u8]) -> &[u8]
    ensures { result.now ≡ strip_carriage_return line.now }
{
    match line {
        [prefix @ .., b'\r'] => prefix,
        _ => line,
    }
}

/// Checks whether the byte ends a line.
fn is_line_feed(byte: &u8) -> bool
    ensures { result ≡ (byte.now == line_feed) }
{
    *byte == LINE_FEED
}

/// Checks whether the line is a comment: it begins with `!`.
fn is_comment(line: &[u8]) -> bool
    ensures { result ≡ is_comment line.now }
{
    matches!(line, [COMMENT, ..])
}

/// Checks whether the byte is a live cell: `O` or `*`.
fn is_live(byte: u8) -> bool
    ensures { result ≡ is_live byte }
{
    byte == LIVE || byte == STAR
}

/// Returns the first fault of a row, or `None` if it has no fault. The row is row `y` of the pattern, counted from 0,
/// and line `line` of the text, counted from 1.
fn fault_in_row(line: usize, y: usize, row: &[u8]) -> Option<PlaintextFault>
    ensures { result ≡ first_fault (places_of_row (y, (line, row.now))) }
{
    for (x, byte) in row.iter().enumerate() {
        let is_cell = (*byte == DEAD) | is_live(*byte);
        if !is_cell {
            return Some(PlaintextFault::BadByte {
                line,
                column: x + 1,
            });
        }
        let is_small = (x < PLAINTEXT_SIDE_LIMIT) & (y < PLAINTEXT_SIDE_LIMIT);
        if !is_small {
            return Some(PlaintextFault::TooLarge);
        }
    }
    None
}

/// Returns the first fault of a text, or `None` if it has no fault.
fn fault_in(text: &[u8]) -> Option<PlaintextFault>
    ensures { result ≡ first_fault (places text.now) }
{
    let mut number = 0;
    let mut y = 0;
    for line in text.split(is_line_feed) {
        let line = without_return(line);
        number += 1;
        if !is_comment(line) {
            if let Some(fault) = fault_in_row(number, y, line) {
                return Some(fault);
            }
            y += 1;
        }
    }
    None
}

/// Appends the live cells of row `y` to the list. All bytes of the row are in the first 1,000 columns and rows.
#[tactic(auto, using(crate::proofs::lemmas::plaintext::PlaintextRows::live_here, crate::proofs::lemmas::plaintext::PlaintextRows::dead_here, crate::proofs::lemmas::plaintext::PlaintextRows::no_cell_past))]
fn push_row(cells: &mut Vec<Cell>, y: usize, row: &[u8]) -> Result<(), OutOfMemory>
    requires { (x : ℕ) → x < length row.now → (x < side_limit) × (y < side_limit) }
    ensures { OnOk result
        (cells.new.items ≡ cells.old.items ++ live_cells (places_of_row (y, (0, row.now)))) }
{
    for (x, byte) in row.iter().enumerate() {
        if is_live(*byte) {
            cells.push(Cell {
                y: y as i32,
                x: x as i32,
            })?;
        }
    }
    Ok(())
}

/// Returns the pattern of a text that has no fault.
fn pattern_in(alloc: Global, text: &[u8]) -> Result<Pattern, OutOfMemory>
    requires { first_fault (places text.now) ≡ None }
    ensures pattern { IfOk result (λ read. read ≡ live_cells (places text.now)) }
    ensures cells { IfOk result (λ read. (x y : ℕ) →
        has read (cell_at (pos x) (pos y)) ≡ is_live (byte_at text.now x y)) }
{
    let mut cells = Vec::new(alloc);
    let mut y = 0;
    for line in text.split(is_line_feed) {
        let row = without_return(line);
        if !is_comment(row) {
            push_row(&mut cells, y, row)?;
            y += 1;
        }
    }
    Ok(Pattern::from_ordered(cells))
}

/// Writes `gap` dead cells, and then a byte.
fn put_after_gap<V: Write>(out: &mut Out<V>, gap: u32, byte: u8) -> Result<(), WriteError>
    requires { out.old.failed ≡ false }
    ensures { Writes V.contents out.old out.new result (replicate gap dot ++ byte ∷ []) }
{
    let mut left = gap as usize;
    while left > 0 {
        let some = left.min(DEAD_CELLS.len());
        out.put(&DEAD_CELLS[..some])?;
        left -= some;
    }
    out.put(&[byte])
}

/// Returns the number of cells at the beginning of the list that are in row `y`.
fn row_len(cells: &[Cell], y: i32) -> usize
    ensures value { result ≡ prefix_len (λ c. int_eq c.y y) cells.now }
    ensures bound { result ≤ length cells.now }
{
    let mut len = 0;
    while len < cells.len() && cells[len].y == y {
        len += 1;
    }
    len
}

/// Returns the list without the cells of row `y` at its beginning.
fn below(cells: &[Cell], y: i32) -> &[Cell]
    ensures { result.now ≡ drop (prefix_len (λ c. int_eq c.y y) cells.now) cells.now }
{
    &cells[row_len(cells, y)..]
}

/// Writes row `y` of the box and a line feed. None of the cells is above this row or beside the box.
fn write_row<V: Write>(
    out: &mut Out<V>,
    cells: &[Cell],
    bounds: Bounds,
    y: i32,
) -> Result<(), WriteError>
    requires fresh { out.old.failed ≡ false }
    requires bounds { IsBox bounds }
    requires cells { IsAhead y bounds cells.now }
    ensures { Writes V.contents out.old out.new result (row_text cells.now bounds y) }
{
    let mut x = bounds.left;
    for cell in &cells[..row_len(cells, y)] {
        put_after_gap(out, x.abs_diff(cell.x), LIVE)?;
        x = cell.x + 1;
    }
    put_after_gap(out, x.abs_diff(bounds.right + 1), LINE_FEED)
}
