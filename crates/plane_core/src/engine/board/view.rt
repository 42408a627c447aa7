//! A view: sixty-four rows that are read from a board around the middle of a box.
//!
//! ```text
//! board
//! +-------------------------------------+
//! |        view                         |
//! |        +----------+                 |     Each cell that differs two generations later is in an active box of the
//! |        |   +--+   |        +-+      |     board, or near one. So one-sided tests look there. If a box is larger
//! |        |   +--+   |        +-+      |     than a view, the view shows its middle.
//! |        |    box   |       box       |
//! |        +----------+                 |
//! +-------------------------------------+
//! ```
ghost use Rattle.std.specs.Prelude.{◌<◌, ◌^◌, IfSome};
ghost use Rattle.plane_core.specs.plane.Cells.{InOrder};
ghost use Rattle.plane_core.specs.windows.Rows.{ShowsInAllRows};
ghost use Rattle.plane_core.specs.engine.Frames.{IsViewFrame};

use crate::engine::board::Board;
use crate::engine::frame::Frame;
use crate::engine::window_io::read_rows;
use crate::plane::bounds::Bounds;

/// The rows of a view, and where they are: `at` is the frame of a board with one word column and 64 rows.
#[derive(Clone, Copy)]
pub(crate) struct View {
    pub(crate) at: Frame,
    pub(crate) rows: [u64; 64],
}

impl Board {
    /// Returns the view around the middle of the box. Returns `None` if the view isn't completely on the board, or if
    /// the board has no word column to the right of the one in which the view begins.
    pub(crate) fn view(&self, bounds: Bounds) -> Option<View>
        ensures frame { IfSome result (λ view. IsViewFrame view.at) }
        ensures shown { IfSome result
            (λ view. ShowsInAllRows view.at.left view.at.top view.rows self.now.cells) }
        ensures order { IfSome result (λ _. InOrder self.now.cells) }
    {
        let at = self.at;
        let Some(x) = first_of(bounds.left, bounds.right, at.left) else {
            return None;
        };
        let Some(y) = first_of(bounds.top, bounds.bottom, at.top) else {
            return None;
        };
        if x / 64 + 1 >= at.word_columns || y + 64 > at.rows {
            return None;
        }
        Some(View {
            at: Frame {
                left: at.left + x as i32,
                top: at.top + y as i32,
                word_columns: 1,
                rows: 64,
            },
            rows: read_rows(self.words.as_slice(), at, x, y),
        })
    }
}

/// Returns the longer side of the box: the distance between its first and last column, or between its first and last
/// row.
pub(crate) fn longer_side(bounds: Bounds) -> u32 {
    let across = bounds.left.abs_diff(bounds.right);
    across.max(bounds.top.abs_diff(bounds.bottom))
}

/// Returns the first column (or row) of a view whose middle is halfway between `from` and `to`. The result is counted
/// from `start`, the first column (or row) of the board. Returns `None` if `from` or `to` is before `start`, or if the
/// view would begin before `start`.
#[tactic(auto, using(crate::proofs::lemmas::engine::FrameFits::middle_low))]
fn first_of(from: i32, to: i32, start: i32) -> Option<usize>
    ensures { IfSome result (λ first. first < 2 ^ 32) }
{
    if from < start || to < start {
        return None;
    }
    let twice = from.abs_diff(start) as usize + to.abs_diff(start) as usize;
    if twice < 64 {
        None
    } else {
        Some((twice - 64) / 2)
    }
}
