//! How far the pattern of a board reaches in a diagonal direction, if some of its cells are ignored.
//!
//! The depth of a cell says how far it is in the direction. In each word column, only the rows that may have a live
//! cell are read, from the outermost row inwards, and only as long as a row could have a cell that is deeper than the
//! deepest so far:
//!
//! ```text
//! . . . . . . . O
//! . . . . . . O .
//! . . . O . . . .     Here the direction is right and down. The last row is read first, and has cell d. A cell of
//! . . . . . . . .     a higher row is deeper only if it is more columns to the right of d than it is rows above d.
//! . . . d . . . .
//! ```
ghost use Rattle.std.specs.Prelude.{◌≡◌, ◌==◌, ◌-◌, ◌<◌, ◌≤◌, ◌+ℤ◌, ℕ, IfSome, pos};
ghost use Rattle.std.specs.Prelude.{slice_index};
ghost use Rattle.std.specs.Int.{bit_at};
ghost use Rattle.plane_core.specs.plane.Bounds.{AreSidesWithin};
ghost use Rattle.plane_core.specs.plane.Cells.{cell_at, plane_bound, same_cell};
ghost use Rattle.plane_core.specs.engine.Directions.{GoesDeeper, IsSeen, NoDeeper, depth_in, inner_row};
ghost use Rattle.plane_core.specs.engine.Frames.{FillsFrame, IsFrame, board_cell, bounds_of, word_of};
ghost use Rattle.plane_core.specs.plane.Frontiers.{LiesUpTo};
ghost use Rattle.plane_core.specs.engine.OnBoard.{cells_on};
ghost use Rattle.plane_core.specs.plane.Without.{without};

use crate::engine::board::Board;
use crate::engine::direction::Direction;
use crate::engine::frame::Frame;
use crate::engine::listing::along;
use crate::engine::row_spans::RowSpan;
use crate::plane::cell::Cell;
use crate::plane::orientation::Orientation;
use crate::plane::pattern::Pattern;

impl Board {
    /// Returns how far the pattern without `cells` reaches in a diagonal direction: when it is turned by `way`, the sum
    /// of column and row of each remaining cell is at most this number. Returns `None` if no cell remains.
    pub fn frontier_without(&self, way: Orientation, cells: &Pattern) -> Option<i32>
        ensures { IfSome result (λ m. LiesUpTo way m (without self.now.cells cells.now)) }
    {
        let at = self.at;
        let words = self.words.as_slice();
        let spans = self.spans.as_slice();
        let direction = way.direction();
        let gone = cells.cells();
        let mut found = None;
        for word_column in 0..at.word_columns {
            let rows = spans[word_column].below(at.rows);
            if rows.from == rows.end {
                continue;
            }
            found = deepest_in_word_column(at, words, word_column, rows, direction, gone, found);
        }
        found
    }
}

/// Returns the depth of the deepest cell that was found so far or is in these rows of a word column, if there is one.
/// The cells of `gone` are ignored.
fn deepest_in_word_column(
    at: Frame,
    words: &[u64],
    word_column: usize,
    rows: RowSpan,
    way: Direction,
    gone: &[Cell],
    found: Option<i32>,
) -> Option<i32>
    requires frame { IsFrame at }
    requires plane { AreSidesWithin plane_bound (bounds_of at) }
    requires long { FillsFrame at words.now }
    requires word_column { word_column < at.word_columns }
    requires order { rows.from ≤ rows.end }
    requires end { rows.end ≤ at.rows }
    ensures deeper { GoesDeeper way (without (cells_on at words.now) gone.now) found result }
    ensures seen { (row : ℕ) → rows.from ≤ row → row < rows.end
        → IsSeen at way (without (cells_on at words.now) gone.now) word_column row result }
{
    let mut deepest = found;
    let mut step = 0;
    loop {
        let end = rows_to_see(at, word_column, rows, way, deepest);
        step = next_live(at, words, word_column, rows, way, step, end);
        if step >= end {
            return deepest;
        }
        let row = row_inwards(rows, way, step);
        deepest = deepest_in_row(at, words, word_column, row, way, gone, deepest);
        step += 1;
    }
}

/// Returns how many rows of a word column, from the outermost row on, could have a cell that is deeper than the deepest
/// cell so far.
fn rows_to_see(
    at: Frame,
    word_column: usize,
    rows: RowSpan,
    way: Direction,
    found: Option<i32>,
) -> usize
    requires frame { IsFrame at }
    requires plane { AreSidesWithin plane_bound (bounds_of at) }
    requires word_column { word_column < at.word_columns }
    requires order { rows.from ≤ rows.end }
    requires end { rows.end ≤ at.rows }
    ensures most { result ≤ rows.end - rows.from }
    ensures beyond { NoDeeper at way word_column rows result found }
{
    let count = rows.end - rows.from;
    let Some(deepest) = found else {
        return count;
    };
    if count == 0 {
        return 0;
    }
    let row = row_inwards(rows, way, 0);
    let outermost = depth_at(at, word_column, row, way.outer_column(), way);
    if outermost <= deepest {
        return 0;
    }
    count.min(outermost.abs_diff(deepest) as usize)
}

/// Finds the next row of the word column that has a live cell, beginning with the row that is `from` steps inwards.
/// Returns how many steps inwards the found row is. If there is no such row before step `end`, the result is `end` or
/// more.
fn next_live(
    at: Frame,
    words: &[u64],
    word_column: usize,
    rows: RowSpan,
    way: Direction,
    from: usize,
    end: usize,
) -> usize
    requires frame { IsFrame at }
    requires long { FillsFrame at words.now }
    requires word_column { word_column < at.word_columns }
    requires order { rows.from ≤ rows.end }
    requires rows { rows.end ≤ at.rows }
    requires end { end ≤ rows.end - rows.from }
    ensures later { from ≤ result }
    ensures dead { (step : ℕ) → from ≤ step → step < result
        → slice_index words.now (word_of at word_column (inner_row way.down rows step)) ≡ 0 }
{
    let mut step = from;
    while step < end {
        if words[at.index(word_column, row_inwards(rows, way, step))] != 0 {
            return step;
        }
        step += 1;
    }
    step
}

/// Returns the row that is `step` steps inwards from the outermost of these rows.
#[inline(always)]
fn row_inwards(rows: RowSpan, way: Direction, step: usize) -> usize
    requires { step < rows.end - rows.from }
    ensures row { result ≡ inner_row way.down rows step }
    ensures low { rows.from ≤ result }
    ensures high { result < rows.end }
{
    if way.down {
        rows.end - (step + 1)
    } else {
        rows.from + step
    }
}

/// Returns the depth of the deepest cell that was found so far or is in this row of a word column, if there is one. The
/// cells of `gone` are ignored.
fn deepest_in_row(
    at: Frame,
    words: &[u64],
    word_column: usize,
    row: usize,
    way: Direction,
    gone: &[Cell],
    found: Option<i32>,
) -> Option<i32>
    requires frame { IsFrame at }
    requires plane { AreSidesWithin plane_bound (bounds_of at) }
    requires long { FillsFrame at words.now }
    requires word_column { word_column < at.word_columns }
    requires row { row < at.rows }
    ensures deeper { GoesDeeper way (without (cells_on at words.now) gone.now) found result }
    ensures seen { IsSeen at way (without (cells_on at words.now) gone.now) word_column row result }
{
    let first = at.corner(word_column, row);
    let mut gone_here = 0;
    for cell in gone {
        gone_here |= bit_of(*cell, first);
    }
    let word = words[at.index(word_column, row)] & !gone_here;
    if word == 0 {
        return found;
    }
    let depth = depth_at(at, word_column, row, way.farthest(word), way);
    Some(found.unwrap_or(depth).max(depth))
}

/// Returns the depth of the cell in column `column`, 0 to 63, of a row of a word column.
#[inline(always)]
fn depth_at(at: Frame, word_column: usize, row: usize, column: usize, way: Direction) -> i32
    requires frame { IsFrame at }
    requires plane { AreSidesWithin plane_bound (bounds_of at) }
    requires word_column { word_column < at.word_columns }
    requires row { row < at.rows }
    requires column { column < 64 }
    ensures { result ≡ depth_in way (board_cell at word_column row column) }
{
    way.depth(along(at.corner(word_column, row), column))
}

/// Returns a word with the bit of `cell`, if the cell is among the 64 cells of a row from `first` on, or 0 otherwise.
fn bit_of(cell: Cell, first: Cell) -> u64
    ensures { (i : ℕ) → i < 64 → (bit_at result i == 1) ≡ same_cell (cell_at (first.x +ℤ pos i) first.y) cell }
{
    if cell.y != first.y || cell.x < first.x {
        return 0;
    }
    let column = cell.x.abs_diff(first.x);
    if column >= 64 {
        return 0;
    }
    1 << column
}
