//! A window of a leap: where it is on the plane, and how many rows it has.
//!
//! A window has 64 columns and 20 to 56 rows, and all cells outside of it are taken for dead. So after four
//! generations, only the inner part of the window is correct. It begins four cells inside the border:
//!
//! ```text
//! +--------------------+
//! |    4 of border     |
//! |  +--------------+  |
//! |  |  inner part  |  |   56 columns, and 8 rows less than the window
//! |  +--------------+  |
//! |                    |
//! +--------------------+
//! ```
ghost use Rattle.std.specs.Prelude.{◌≡◌, ◌<◌, ◌≤◌, ◌+ℤ◌, IsTrue, pos};
ghost use Rattle.plane_core.specs.engine.ActiveBoxes.{IsInReach};
ghost use Rattle.plane_core.specs.engine.LeapWindows.{IsOnBoard};

use crate::engine::frame::Frame;

/// The first column and row of a window, and how many rows it has.
#[derive(Clone, Copy)]
pub(crate) struct LeapWindow {
    pub(crate) left: i32,
    pub(crate) top: i32,
    pub(crate) rows: usize,
}

impl LeapWindow {
    /// Checks whether the window is on the board and has 8 to 64 rows. The board must also have a word column to the
    /// right of the one in which the window begins.
    #[inline(always)]
    pub(crate) fn is_on_board(self, at: Frame) -> bool
        ensures { IsTrue result → IsOnBoard at self }
    {
        if self.left < at.left || self.top < at.top {
            return false;
        }
        if self.rows < 8 || self.rows > 64 {
            return false;
        }
        let x = self.left.abs_diff(at.left) as usize;
        let y = self.top.abs_diff(at.top) as usize;
        x / 64 + 1 < at.word_columns && y + self.rows <= at.rows
    }

    /// Returns the column of the plane that is column `i` of the window.
    #[inline(always)]
    pub(crate) fn column(self, i: u32) -> i32
        requires reach { IsInReach self }
        requires i { i < 64 }
        ensures { result ≡ self.left +ℤ pos i }
    {
        self.left + i as i32
    }

    /// Returns the row of the plane that is row `r` of the window.
    #[inline(always)]
    pub(crate) fn row(self, r: u32) -> i32
        requires reach { IsInReach self }
        requires r { r < 64 }
        ensures { result ≡ self.top +ℤ pos r }
    {
        self.top + r as i32
    }
}
