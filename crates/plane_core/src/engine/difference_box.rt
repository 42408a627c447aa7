//! The box around the cells in which two windows differ.
//!
//! ```text
//!   rows         columns   0011010...
//!    0   . . . . . . .
//!    1   . . . X . . .     The box reaches from the first to the last column and row in which something differs. So it
//!    1   . . X . . X .     contains each cell whose column and row are both marked.
//!    0   . . . . . . .
//! ```
ghost use Rattle.std.specs.Prelude.{◌≡◌, ℕ, IfSome, List, MatchOption};
ghost use Rattle.std.specs.Int.{bit_at};
ghost use Rattle.plane_core.specs.engine.ActiveBoxes.{HasBits, HoldsDifference, IsInReach, box_bound};
ghost use Rattle.plane_core.specs.plane.Bounds.{AreSidesWithin};
ghost use Rattle.plane_core.specs.engine.LeapWindows.{MarksDifferences};
ghost use Rattle.plane_core.specs.declared.plane.cell.Cell.{Cell};

use crate::engine::leap_window::LeapWindow;
use crate::plane::bounds::Bounds;

/// The columns and the rows of a window in which something differs: a bit for each, counted from the left and from the
/// top.
#[derive(Clone, Copy)]
pub(crate) struct DifferenceMask {
    pub(crate) columns: u64,
    pub(crate) rows: u64,
}

/// The first and the last bit of a word that are 1.
#[derive(Clone, Copy)]
struct BitSpan {
    first: u32,
    last: u32,
}

impl DifferenceMask {
    /// Returns a box that contains each cell of the window's inner part whose column and row are both marked, or `None`
    /// if there is no such cell.
    pub(crate) fn bounds(self, window: LeapWindow) -> Option<Bounds>
        requires { IsInReach window }
        ensures difference { (one other : List Cell) → MarksDifferences window one other self
            → HoldsDifference window one other result }
        ensures sides { IfSome result (AreSidesWithin box_bound) }
    {
        let Some(across) = span_of(self.columns) else {
            return None;
        };
        let Some(down) = span_of(self.rows) else {
            return None;
        };
        Some(Bounds {
            left: window.column(across.first),
            top: window.row(down.first),
            right: window.column(across.last),
            bottom: window.row(down.last),
        })
    }
}

/// Returns the first and the last bit of the word that are 1, or `None` if the word is 0.
#[inline(always)]
#[tactic(auto, using(crate::proofs::lemmas::engine::DifferenceBoxLemmas::spans))]
fn span_of(word: u64) -> Option<BitSpan>
    ensures { MatchOption result ((i : ℕ) → bit_at word i ≡ 0) (HasBits word) }
{
    if word == 0 {
        return None;
    }
    Some(BitSpan {
        first: word.trailing_zeros(),
        last: 63 - word.leading_zeros(),
    })
}
