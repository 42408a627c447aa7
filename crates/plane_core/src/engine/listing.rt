//! Lists the cells of a board in order: row by row, and each row from the left.
//!
//! The rows are read in bands of eight. Each word column has a span: the rows that may have a live cell. Bands above
//! all spans, or below all spans, are skipped. Most word columns have no live cell in a band. Then either the span
//! doesn't reach the band, or one test shows that the eight words are 0. In each band, the word columns from the first
//! to the last one with a live cell are read. They are in brackets here:
//!
//! ```text
//! word column   0     1     2     3     4
//! band 0        .     .     .     .     .
//! band 1        .    [#]    .     .     .
//! band 2        .    [#]   [.]   [#]    .
//! band 3        .     .     .     .     .
//! ```
ghost use Rattle.std.specs.Prelude.{◌≡◌, ◌+◌, ◌*◌, ◌/◌, ◌<◌, ◌≤◌, ◌^◌, ◌+ℤ◌, ℕ, length, pos};
ghost use Rattle.std.specs.Prelude.{slice_index, IfOk, IsTrue, OnOk, unsigned_abs};
ghost use Rattle.std.specs.Int.{bit_at};
ghost use Rattle.plane_core.specs.plane.Bounds.{AreSidesWithin};
ghost use Rattle.plane_core.specs.plane.Cells.{cell_at, plane_bound};
ghost use Rattle.plane_core.specs.engine.Frames.{FillsFrame, IsFrame, bounds_of, word_of};
ghost use Rattle.plane_core.specs.engine.OnBoard.{cells_on};
ghost use Rattle.plane_core.specs.engine.RowSpans.{HasRow, LieInWordColumns, LieInSpans};
ghost use Rattle.plane_core.specs.engine.Listing.{HasRead, HasReadRows, IsBandEmpty};
ghost use Rattle.plane_core.specs.engine.Listing.{IsWordColumnEmpty};
ghost use Rattle.plane_core.specs.declared.plane.cell.Cell.{Cell};

use crate::engine::frame::Frame;
use crate::engine::row_spans::{RowSpan, hull_of};
use crate::plane::cell::Cell;
use crate::plane::pattern::{Pattern, in_order};
use memory::OutOfMemory;
use std::alloc::Global;

/// Returns the pattern that a board on the plane shows. Its live cells are all in the spans. The list of cells has room
/// for `room` cells from the start. The cells are listed in order, so `in_order` doesn't sort them.
pub(crate) fn list(
    alloc: Global,
    at: Frame,
    words: &[u64],
    spans: &[RowSpan],
    room: usize,
) -> Result<Pattern, OutOfMemory>
    requires frame { IsFrame at }
    requires plane { AreSidesWithin plane_bound (bounds_of at) }
    requires long { FillsFrame at words.now }
    requires spans { length spans.now ≡ at.word_columns }
    requires live { LieInSpans at spans.now (cells_on at words.now) }
    ensures { IfOk result (λ pattern. pattern ≡ cells_on at words.now) }
{
    let mut cells = Vec::with_capacity(alloc, room)?;
    let hull = hull_of(at, spans);
    let word_columns = hull.word_columns.below(at.word_columns);
    // The bands that contain all rows of the hull.
    let first = hull.rows.from.min(at.rows) / 8;
    let end = (hull.rows.end.min(at.rows) + 7) / 8;
    for band in first..end {
        read_band(at, words, spans, word_columns, band, &mut cells)?;
    }
    Ok(Pattern::from_ordered(in_order(cells)))
}

/// Appends the live cells of a word to a list. `first` is the cell of bit 0.
pub(crate) fn read_word(word: u64, first: Cell, cells: &mut Vec<Cell>) -> Result<(), OutOfMemory>
    requires { unsigned_abs first.x ≤ 2 ^ 24 }
    ensures { OnOk result (HasRead word first cells.old.items 64 cells.new.items) }
{
    let mut done = 0;
    while done < 64 {
        let remainder = word >> done;
        if remainder == 0 {
            return Ok(());
        }
        let i = done + remainder.trailing_zeros() as usize;
        cells.push(along(first, i))?;
        done = i + 1;
    }
    Ok(())
}

/// Returns the cell that is `columns` columns, at most 63, to the right of `cell`.
pub(crate) fn along(cell: Cell, columns: usize) -> Cell
    requires cell { unsigned_abs cell.x ≤ 2 ^ 24 }
    requires columns { columns < 64 }
    ensures { result ≡ cell_at (cell.x +ℤ pos columns) cell.y }
{
    Cell {
        x: cell.x + columns as i32,
        y: cell.y,
    }
}

/// Returns the word of a row of a word column.
#[inline(always)]
fn word_at(at: Frame, words: &[u64], word_column: usize, row: usize) -> u64
    requires frame { IsFrame at }
    requires word_column { word_column < at.word_columns }
    requires row { row < at.rows }
    requires long { FillsFrame at words.now }
    ensures { (i : ℕ) → i < 64 → bit_at result i ≡ bit_at (slice_index words.now (word_of at word_column row)) i }
{
    words[at.index(word_column, row)]
}

/// Appends the live cells of a band of eight rows to a list, row by row. They are all in the given word columns.
fn read_band(
    at: Frame,
    words: &[u64],
    spans: &[RowSpan],
    word_columns: RowSpan,
    band: usize,
    cells: &mut Vec<Cell>,
) -> Result<(), OutOfMemory>
    requires frame { IsFrame at }
    requires band { band < at.rows / 8 }
    requires long { FillsFrame at words.now }
    requires spans { length spans.now ≡ at.word_columns }
    requires live { LieInSpans at spans.now (cells_on at words.now) }
    requires order { word_columns.from ≤ word_columns.end }
    requires most { word_columns.end ≤ at.word_columns }
    requires word_columns { LieInWordColumns at spans.now word_columns }
    ensures { OnOk result
        (HasReadRows at words.now (8 * band) cells.old.items
        → HasReadRows at words.now (8 * band + 8) cells.new.items) }
{
    let alive = word_columns_of_band(at, words, spans, word_columns, band);
    if alive.from == alive.end {
        return Ok(());
    }
    for row in 8 * band..8 * band + 8 {
        for word_column in alive.from..alive.end {
            let word = word_at(at, words, word_column, row);
            read_word(word, at.corner(word_column, row), cells)?;
        }
    }
    Ok(())
}

/// Returns the word columns from the first to the last one with a live cell in a band. They are among `word_columns`.
/// If no cell of the band is alive, the result is an empty span.
fn word_columns_of_band(
    at: Frame,
    words: &[u64],
    spans: &[RowSpan],
    word_columns: RowSpan,
    band: usize,
) -> RowSpan
    requires frame { IsFrame at }
    requires band { band < at.rows / 8 }
    requires long { FillsFrame at words.now }
    requires spans { length spans.now ≡ at.word_columns }
    requires live { LieInSpans at spans.now (cells_on at words.now) }
    requires order { word_columns.from ≤ word_columns.end }
    requires most { word_columns.end ≤ at.word_columns }
    requires word_columns { LieInWordColumns at spans.now word_columns }
    ensures order { result.from ≤ result.end }
    ensures most { result.end ≤ at.word_columns }
    ensures left { IsBandEmpty at words.now band 0 result.from }
    ensures right { IsBandEmpty at words.now band result.end at.word_columns }
{
    let mut from = word_columns.from;
    while from < word_columns.end && is_word_column_empty(at, words, spans, from, band) {
        from += 1;
    }
    let mut end = word_columns.end;
    while end > from && is_word_column_empty(at, words, spans, end - 1, band) {
        end -= 1;
    }
    RowSpan { from, end }
}

/// Checks whether no cell of a band is alive in a word column.
fn is_word_column_empty(
    at: Frame,
    words: &[u64],
    spans: &[RowSpan],
    word_column: usize,
    band: usize,
) -> bool
    requires frame { IsFrame at }
    requires word_column { word_column < at.word_columns }
    requires band { band < at.rows / 8 }
    requires long { FillsFrame at words.now }
    requires spans { length spans.now ≡ at.word_columns }
    requires live { LieInSpans at spans.now (cells_on at words.now) }
    ensures { IsTrue result → IsWordColumnEmpty at words.now band word_column }
{
    let rows = spans[word_column];
    let first = 8 * band;
    let is_missed = (rows.end <= first) | (first + 8 <= rows.from);
    if is_missed {
        return true;
    }
    let from = at.index(word_column, first);
    let mut columns = 0;
    for k in 0..8 {
        columns |= words[from + k];
    }
    columns == 0
}
