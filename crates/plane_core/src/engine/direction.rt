//! The four diagonal directions, and how deep a cell is in each:
//!
//! ```text
//!  left and up  .       . right and up       A cell that is one column or one row further in the direction is
//!                 \   /                      deeper by 1. To the right and down, the depth is the sum of the
//!                   x                        column and the row. In the other directions, columns are counted
//!                 /   \                      from right to left, or rows from the bottom up, or both.
//! left and down '       ' right and down
//! ```
ghost use Rattle.std.specs.Prelude.{◌≡◌, ◌<◌, ◌≤◌, ◌≤ℤ◌, ℕ, pos, true, unsigned_abs};
ghost use Rattle.std.specs.Int.{bit_at};
ghost use Rattle.plane_core.specs.plane.Cells.{on_plane, plane_bound};
ghost use Rattle.plane_core.specs.engine.Directions.{counted, depth_in, outer_column};
ghost use Rattle.plane_core.specs.plane.Frontiers.{depth};
ghost use Rattle.plane_core.specs.plane.Orientations.{turned_cell};
ghost use Rattle.plane_core.specs.declared.plane.cell.Cell.{Cell};

use crate::plane::cell::Cell;
use crate::plane::coordinate::negated;
use crate::plane::orientation::Orientation;

/// A diagonal direction: to the right or to the left, and down or up.
#[derive(Clone, Copy)]
pub(crate) struct Direction {
    pub(crate) right: bool,
    pub(crate) down: bool,
}

impl Orientation {
    /// Returns the direction that points to the right and down after the plane is turned by this orientation. Each
    /// direction belongs to two orientations.
    pub(crate) fn direction(self) -> Direction
        ensures { (c : Cell) → depth_in result c ≡ depth (turned_cell self c) }
    {
        match self {
            Orientation::Same | Orientation::Diagonal => Direction {
                right: true,
                down: true,
            },
            Orientation::Quarter | Orientation::Flip => Direction {
                right: true,
                down: false,
            },
            Orientation::ThreeQuarter | Orientation::Mirror => Direction {
                right: false,
                down: true,
            },
            Orientation::Half | Orientation::AntiDiagonal => Direction {
                right: false,
                down: false,
            },
        }
    }
}

impl Direction {
    /// Returns how deep a cell of the plane is in this direction.
    pub(crate) fn depth(self, cell: Cell) -> i32
        requires { on_plane cell ≡ true }
        ensures { result ≡ depth_in self cell }
    {
        counted(self.right, cell.x) + counted(self.down, cell.y)
    }

    /// Returns the column of a word column, 0 or 63, that is farthest in the direction.
    pub(crate) fn outer_column(self) -> usize
        ensures column { result ≡ outer_column self.right }
        ensures small { result < 64 }
    {
        if self.right { 63 } else { 0 }
    }

    /// Returns the column of the word's live cell that is farthest in the direction. `word` isn't 0.
    pub(crate) fn farthest(self, word: u64) -> usize
        requires { 0 < word }
        ensures small { result < 64 }
        ensures one { bit_at word result ≡ 1 }
        ensures far { (i : ℕ) → bit_at word i ≡ 1 → counted self.right (pos i) ≤ℤ counted self.right (pos result) }
    {
        if self.right {
            63 - word.leading_zeros() as usize
        } else {
            word.trailing_zeros() as usize
        }
    }
}

/// Returns the coordinate `at` if it is counted forwards, and `-at` if it is counted backwards.
fn counted(forwards: bool, at: i32) -> i32
    requires { unsigned_abs at ≤ plane_bound }
    ensures counted { result ≡ counted forwards at }
    ensures small { unsigned_abs result ≤ plane_bound }
{
    if forwards { at } else { negated(at) }
}
