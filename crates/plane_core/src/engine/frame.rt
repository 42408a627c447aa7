//! The frame of a board: where the board is, and where a cell is in its words.
//!
//! A board consists of word columns, which are 64 columns wide. The words of a word column follow one another, one for
//! each row:
//!
//! ```text
//!          word column 0                 word column 1
//! row 0    word 0                 word 0 + rows
//! row 1    word 1                 word 1 + rows
//! row 2    word 2                 word 2 + rows
//! ```
ghost use Rattle.std.specs.Prelude.{◌≡◌, ◌+◌, ◌*◌, ◌<◌, ◌≤◌, ◌^◌, ◌-ℤ◌, ◌≤ℤ◌, ◌-◌, ◌↔◌, true, false, pos};
ghost use Rattle.std.specs.Prelude.{IfSome, IsTrue, OnSome};
ghost use Rattle.std.specs.Prelude.{unsigned_abs};
ghost use Rattle.plane_core.specs.plane.Bounds.{IsWithin};
ghost use Rattle.plane_core.specs.plane.Cells.{plane_bound};
ghost use Rattle.plane_core.specs.engine.Frames.{HasFewWords, IsFrame, LieOn, bounds_of, board_cell, word_of};
ghost use Rattle.plane_core.specs.plane.Generations.{lies_within};
ghost use Rattle.plane_core.specs.plane.Bounds.{AreSidesWithin};
ghost use Rattle.plane_core.specs.declared.plane.cell.Cell.{Cell};

use crate::plane::bounds::Bounds;
use crate::plane::cell::{BOUND, Cell};
use crate::plane::coordinate::{apart, back};
use crate::plane::pattern::Pattern;

/// The frame of a board: its first column and row, the number of word columns, and the number of rows, which is a
/// multiple of eight.
#[derive(Clone, Copy)]
pub(crate) struct Frame {
    pub(crate) left: i32,
    pub(crate) top: i32,
    pub(crate) word_columns: usize,
    pub(crate) rows: usize,
}

/// The number of columns and rows that [`Frame::round`] adds on each side, beyond the cells that the pattern may reach.
/// Windows extend at most 36 columns or rows beyond these cells.
const BOARD_MARGIN: u32 = 40;

/// The fewest columns and rows on each side of a pattern that is shown in the middle of a board.
const ROOM: u32 = 200;

impl Frame {
    /// Returns a frame around the pattern that is usually large enough for `generations` generations, or `None` if a
    /// board isn't worth it. A board is worth it if the pattern has a cell and isn't too near to the edge of the plane,
    /// and the words take at most about 2 MiB and another 2 KiB per cell.
    pub(crate) fn round(pattern: &Pattern, generations: u32) -> Option<Frame>
        requires { generations ≤ 1000 }
        ensures frame { IfSome result IsFrame }
        ensures plane { IfSome result (λ at. AreSidesWithin plane_bound (bounds_of at)) }
        ensures on { IfSome result (λ at. LieOn at pattern.now) }
        ensures inside { OnSome result (lies_within (plane_bound - generations) pattern.now ≡ true) }
        ensures words { IfSome result (λ at. HasFewWords at pattern.now) }
    {
        let Some(bounds) = pattern.bounds() else {
            return None;
        };
        let margin = generations + BOARD_MARGIN;
        if farthest(bounds) > BOUND - margin - 64 {
            return None;
        }
        let at = Frame::round_box(bounds, margin);
        if at.is_sparse(pattern.population()) {
            return None;
        }
        Some(at)
    }

    /// Returns a frame around the pattern for one generation, or `None` if a board isn't worth it or would have too
    /// many words: at least 32 per cell, and 32 more.
    pub(crate) fn for_a_step(pattern: &Pattern) -> Option<Frame>
        ensures frame { IfSome result IsFrame }
        ensures plane { IfSome result (λ at. AreSidesWithin plane_bound (bounds_of at)) }
        ensures on { IfSome result (λ at. LieOn at pattern.now) }
        ensures inside { OnSome result (lies_within (plane_bound - 1) pattern.now ≡ true) }
        ensures words { IfSome result (λ at. HasFewWords at pattern.now) }
    {
        let Some(at) = Frame::round(pattern, 1) else {
            return None;
        };
        if at.count() / 32 > pattern.population() {
            return None;
        }
        Some(at)
    }

    /// Returns a frame around the box, with at least `margin` more columns and rows on each side.
    fn round_box(bounds: Bounds, margin: u32) -> Frame
        requires margin { margin ≤ 2000 }
        requires across { bounds.left ≤ℤ bounds.right }
        requires down { bounds.top ≤ℤ bounds.bottom }
        requires sides { AreSidesWithin (plane_bound - margin - 64) bounds }
        ensures frame { IsFrame result }
        ensures plane { AreSidesWithin plane_bound (bounds_of result) }
        ensures on { (c : Cell) → IsWithin bounds c → IsWithin (bounds_of result) c }
    {
        let width = apart(bounds.left, bounds.right) + 2 * margin + 1;
        let height = apart(bounds.top, bounds.bottom) + 2 * margin + 1;
        Frame {
            left: back(bounds.left, margin),
            top: back(bounds.top, margin),
            word_columns: (width / 64 + 1) as usize,
            rows: (height / 8 * 8 + 8) as usize,
        }
    }

    /// Returns the frame of the same size with the pattern in its middle, or `None` if the pattern has no room there or
    /// is too near to the edge of the plane. For the empty pattern, the frame stays where it is.
    pub(crate) fn centred(self, pattern: &Pattern) -> Option<Frame>
        requires frame { IsFrame self }
        requires plane { AreSidesWithin plane_bound (bounds_of self) }
        ensures frame { IfSome result IsFrame }
        ensures plane { IfSome result (λ at. AreSidesWithin plane_bound (bounds_of at)) }
        ensures on { IfSome result (λ at. LieOn at pattern.now) }
        ensures word_columns { IfSome result (λ at. at.word_columns ≡ self.word_columns) }
        ensures rows { IfSome result (λ at. at.rows ≡ self.rows) }
    {
        let Some(bounds) = pattern.bounds() else {
            return Some(self);
        };
        self.round_middle(bounds)
    }

    /// Returns the frame of the same size with the box in its middle, or `None` if the box has no room there or is too
    /// near to the edge of the plane.
    fn round_middle(self, bounds: Bounds) -> Option<Frame>
        requires frame { IsFrame self }
        requires across { bounds.left ≤ℤ bounds.right }
        requires down { bounds.top ≤ℤ bounds.bottom }
        ensures frame { IfSome result IsFrame }
        ensures plane { IfSome result (λ at. AreSidesWithin plane_bound (bounds_of at)) }
        ensures on { IfSome result (λ at. (c : Cell) → IsWithin bounds c → IsWithin (bounds_of at) c) }
        ensures word_columns { IfSome result (λ at. at.word_columns ≡ self.word_columns) }
        ensures rows { IfSome result (λ at. at.rows ≡ self.rows) }
    {
        let columns = 64 * self.word_columns as u32;
        let rows = self.rows as u32;
        let around = columns + rows;
        if around > BOUND {
            return None;
        }
        if farthest(bounds) > BOUND - around {
            return None;
        }
        let width = apart(bounds.left, bounds.right) + 1;
        let height = apart(bounds.top, bounds.bottom) + 1;
        let room = 2 * ROOM;
        if width + room > columns {
            return None;
        }
        if height + room > rows {
            return None;
        }
        Some(Frame {
            left: back(bounds.left, (columns - width) / 2),
            top: back(bounds.top, (rows - height) / 2),
            word_columns: self.word_columns,
            rows: self.rows,
        })
    }

    /// Checks whether there are many more words than cells: at least 262,144 words, which take 2 MiB, plus 256 per
    /// cell, and 256 more.
    fn is_sparse(self, population: usize) -> bool
        requires { IsFrame self }
        ensures { result ≡ false → self.word_columns * self.rows ≤ 256 * population + 262400 }
    {
        let count = self.count();
        count > 262_144 && (count - 262_144) / 256 > population
    }

    /// Returns the number of words of the board.
    pub(crate) fn count(self) -> usize
        requires { IsFrame self }
        ensures count { result ≡ self.word_columns * self.rows }
        ensures small { result < 2 ^ 40 }
    {
        self.word_columns * self.rows
    }

    /// Returns the place of a word in the list of words: the word of row `row` of word column `word_column`.
    pub(crate) fn index(self, word_column: usize, row: usize) -> usize
        requires frame { IsFrame self }
        requires word_column { word_column < self.word_columns }
        requires row { row < self.rows }
        ensures index { result ≡ word_of self word_column row }
        ensures inside { result < self.word_columns * self.rows }
        ensures small { result < 2 ^ 40 }
    {
        word_column * self.rows + row
    }

    /// Returns the leftmost cell of a row of a word column.
    pub(crate) fn corner(self, word_column: usize, row: usize) -> Cell
        requires frame { IsFrame self }
        requires word_column { word_column < self.word_columns }
        requires row { row < self.rows }
        ensures corner { result ≡ board_cell self word_column row 0 }
        ensures small { unsigned_abs result.x ≤ 2 ^ 24 }
    {
        Cell {
            x: self.left + (64 * word_column) as i32,
            y: self.top + row as i32,
        }
    }

    /// Checks whether the cell is on the board.
    pub(crate) fn has(self, cell: Cell) -> bool
        requires { IsFrame self }
        ensures { IsTrue result ↔ IsWithin (bounds_of self) cell }
    {
        if cell.x < self.left || cell.x >= self.left + (64 * self.word_columns) as i32 {
            return false;
        }
        if cell.y < self.top || cell.y >= self.top + self.rows as i32 {
            return false;
        }
        true
    }

    /// Returns how many columns of the board are to the left of the cell.
    pub(crate) fn across(self, cell: Cell) -> usize
        requires frame { IsFrame self }
        requires within { IsWithin (bounds_of self) cell }
        ensures { pos result ≡ cell.x -ℤ self.left }
    {
        (cell.x - self.left) as usize
    }

    /// Returns how many rows of the board are above the cell.
    pub(crate) fn down(self, cell: Cell) -> usize
        requires frame { IsFrame self }
        requires within { IsWithin (bounds_of self) cell }
        ensures { pos result ≡ cell.y -ℤ self.top }
    {
        (cell.y - self.top) as usize
    }
}

/// Returns the largest distance of a side of the box from the origin.
#[tactic(auto, using(crate::proofs::lemmas::engine::FrameFits::sides_below))]
pub(crate) fn farthest(bounds: Bounds) -> u32
    ensures { AreSidesWithin result bounds }
{
    let across = bounds.left.unsigned_abs().max(bounds.right.unsigned_abs());
    let down = bounds.top.unsigned_abs().max(bounds.bottom.unsigned_abs());
    across.max(down)
}
