//! The next generation of a board, as a list. The board doesn't change.
//!
//! Windows are laid side by side over all live cells, in bands of 32 rows. Each window is run for one generation, and
//! the cells of a band are listed row by row, so they are in order:
//!
//! ```text
//!            window 0    window 1    window 2
//! band 0   | . . O . . | . . . . . | . O . . . |     A window has 4 more rows above its band, and as many below it. A
//!          | . . O . . | . . . . . | . O O . . |     window without a live cell, such as window 1, isn't run.
//! band 1   | . . . . . | . . . . . | . . . . . |
//! ```
ghost use Rattle.std.specs.Prelude.{◌≡◌, ◌+◌, ◌*◌, ◌/◌, ◌^◌, ◌<◌, ◌≤◌, ℕ, All, IfOk, IfSome, IsTrue, List, OnOk, slice_index, true};
ghost use Rattle.std.specs.Prelude.{unsigned_abs};
ghost use Rattle.std.specs.Int.{bit_at};
ghost use Rattle.plane_core.specs.declared.plane.cell.Cell.{Cell};
ghost use Rattle.plane_core.specs.engine.Frames.{FillsFrame, IsFrame, Shows};
ghost use Rattle.plane_core.specs.engine.NextListing.{AreBandOf, AreNextRows, AreOnBoard, HasListedRows, HasRim, IsNextWindowOf};
ghost use Rattle.plane_core.specs.engine.NextListing.{LiesInHull};
ghost use Rattle.plane_core.specs.engine.OnBoard.{cells_on};
ghost use Rattle.plane_core.specs.engine.WindowIo.{cell_on};
ghost use Rattle.plane_core.specs.plane.Cells.{InOrder};
ghost use Rattle.plane_core.specs.plane.Generations.{after, next};
ghost use Rattle.plane_core.specs.windows.RuleLogic.{rule_of};

use crate::engine::board::Board;
use crate::engine::frame::Frame;
use crate::engine::listing::{along, read_word};
use crate::engine::row_spans::{Hull, hull_of};
use crate::engine::window_io::read_rows;
use crate::plane::cell::Cell;
use crate::plane::pattern::{Pattern, in_order};
use crate::windows::geometry::{INNER_COLUMN_MASK, INNER_COLUMNS, MARGIN};
use crate::windows::row_packing::{packed, unpacked};
use crate::windows::rule_logic::RuleLogic;
use crate::windows::window::generation;
use memory::OutOfMemory;
use std::alloc::Global;

/// The number of cells for which the list has room from the start.
const ROOM: usize = 128;

/// The number of rows of a window.
const ROWS: usize = 40;

/// The number of rows of a band, which are the inner rows of its windows.
const BAND_ROWS: usize = ROWS - 2 * MARGIN;

/// A window after one generation, of which only the inner part is known to be correct.
#[derive(Clone, Copy)]
pub(crate) struct NextRows {
    /// The column of the board in which the window begins.
    pub(crate) x: usize,
    pub(crate) rows: [u64; ROWS],
}

impl Board {
    /// Returns the next generation of the pattern that the board shows. Returns `None` if the board is known to be
    /// empty, or if the rows and columns that may have a live cell come near its border.
    ///
    /// # Errors
    ///
    /// `OutOfMemory` if memory runs out.
    pub fn next_pattern(&self, alloc: Global) -> Result<Option<Pattern>, OutOfMemory>
        ensures { IfOk result (λ found. IfSome found (λ pattern. pattern ≡ next self.now.rule self.now.cells)) }
    {
        let hull = hull_of(self.at, self.spans.as_slice());
        let Some(cells) = list_next(alloc, self.at, self.words.as_slice(), hull, &self.logic)?
        else {
            return Ok(None);
        };
        Ok(Some(Pattern::from_ordered(in_order(cells))))
    }
}

/// Lists the cells that are alive one generation later. All cells that are alive now are in the hull. Returns `None` if
/// the hull is empty, or if the hull or a window that covers it comes near the border of the board.
fn list_next(
    alloc: Global,
    at: Frame,
    words: &[u64],
    hull: Hull,
    rule: &RuleLogic,
) -> Result<Option<Vec<Cell>>, OutOfMemory>
    requires frame { IsFrame at }
    requires long { FillsFrame at words.now }
    requires hull { LiesInHull at hull (cells_on at words.now) }
    ensures { IfOk result (λ found. IfSome found
        (λ cells. AreOnBoard at (after (rule_of rule.now) (cells_on at words.now) 1) cells.items)) }
{
    if !has_rim(at, hull) {
        return Ok(None);
    }
    let mut cells = Vec::with_capacity(alloc, ROOM)?;
    let mut windows = Vec::new(alloc);
    // The inner part of the first window begins one column and one row before the hull.
    let from = 64 * hull.word_columns.from - (MARGIN + 1);
    let end = 64 * hull.word_columns.end;
    let mut y = hull.rows.from - (MARGIN + 1);
    while y + MARGIN <= hull.rows.end {
        let inside = run_band(words, at, from, end, y, rule, &mut windows)?;
        if !inside {
            return Ok(None);
        }
        list_band(at, y, windows.as_slice(), &mut cells)?;
        y += BAND_ROWS;
    }
    Ok(Some(cells))
}

/// Checks whether the hull isn't empty, and the board has a word column on each side of the hull, at least five rows
/// above it, and at least one row below it.
fn has_rim(at: Frame, hull: Hull) -> bool
    ensures { IsTrue result → HasRim at hull }
{
    let columns = hull.word_columns;
    let rows = hull.rows;
    if columns.from == 0 || columns.from >= columns.end || columns.end >= at.word_columns {
        return false;
    }
    MARGIN < rows.from && rows.from < rows.end && rows.end < at.rows
}

/// Runs windows side by side for one generation, from column `from` and row `y` on, so that their inner parts have all
/// columns from `from + 4` to `end`, both included. Windows that then have no live cell are left out of the list.
/// Returns whether all windows are on the board, each with a word column to the right of the one in which it begins.
fn run_band(
    words: &[u64],
    at: Frame,
    from: usize,
    end: usize,
    y: usize,
    rule: &RuleLogic,
    windows: &mut Vec<NextRows>,
) -> Result<bool, OutOfMemory>
    requires frame { IsFrame at }
    requires long { FillsFrame at words.now }
    requires from { from ≤ end }
    requires end { end ≤ 64 * at.word_columns }
    requires y { y ≤ at.rows }
    ensures rows { IfOk result (λ inside. inside ≡ true → y + 40 ≤ at.rows) }
    ensures band { IfOk result (λ inside. inside ≡ true → (cells : List Cell) → InOrder cells → Shows at words.now cells
        → AreBandOf at y (from + 4) (end + 1) (after (rule_of rule.now) cells 1) windows.new.items) }
{
    windows.clear();
    if y + ROWS > at.rows {
        return Ok(false);
    }
    let mut x = from;
    while x + MARGIN <= end {
        if x / 64 + 1 >= at.word_columns {
            return Ok(false);
        }
        let rows = next_rows(words, at, x, y, rule);
        let empty = is_empty(&rows);
        if !empty {
            windows.push(NextRows { x, rows })?;
        }
        x += INNER_COLUMNS;
    }
    Ok(true)
}

/// Returns the rows, one generation later, of a window that begins in column `x` and row `y` of the board.
fn next_rows(words: &[u64], at: Frame, x: usize, y: usize, rule: &RuleLogic) -> [u64; ROWS]
    requires long { FillsFrame at words.now }
    requires word_columns { x / 64 + 1 < at.word_columns }
    requires rows { y + 40 ≤ at.rows }
    ensures { AreNextRows at words.now (rule_of rule.now) x y result }
{
    let rows = read_rows::<ROWS>(words, at, x, y);
    let empty = is_empty(&rows);
    if empty {
        return rows;
    }
    let mut window = packed::<ROWS, 10>(&rows);
    generation(&mut window, rule);
    unpacked(&window)
}

/// Checks whether no row has a live cell. No branch depends on a row, so that four rows are tested at once.
fn is_empty(rows: &[u64; ROWS]) -> bool
    ensures { IsTrue result → (r i : ℕ) → r < 40 → bit_at (slice_index rows.now r) i ≡ 0 }
{
    let mut all = 0;
    for r in 0..ROWS {
        all |= rows[r];
    }
    all == 0
}

/// Lists the cells of a band row by row, each row from the left.
fn list_band(
    at: Frame,
    y: usize,
    windows: &[NextRows],
    cells: &mut Vec<Cell>,
) -> Result<(), OutOfMemory>
    requires frame { IsFrame at }
    requires rows { y + 40 ≤ at.rows }
    requires columns { All (λ window. window.x / 64 < at.word_columns) windows.now }
    ensures { OnOk result ((next : List Cell) → All (IsNextWindowOf at y next) windows.now
        → HasListedRows at y 36 next windows.now cells.old.items cells.new.items) }
{
    for r in MARGIN..MARGIN + BAND_ROWS {
        for window in windows {
            let first = cell_on(at, window.x, y + r);
            read_word(window.rows[r] & INNER_COLUMN_MASK, first, cells)?;
        }
    }
    Ok(())
}

/// Returns the cell in a column and a row of the board.
fn cell_on(at: Frame, column: usize, row: usize) -> Cell
    requires frame { IsFrame at }
    requires column { column / 64 < at.word_columns }
    requires row { row < at.rows }
    ensures is { result ≡ cell_on at column row }
    ensures small { unsigned_abs result.x ≤ 2 ^ 24 }
{
    along(at.corner(column / 64, row), column % 64)
}
