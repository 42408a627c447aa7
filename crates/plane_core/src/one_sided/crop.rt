//! Crops: the rows of a window that contain a cluster, as a smaller window, in which tests take less time.
//!
//! ```text
//!  0  . . . . . . . .
//!  1  . . . . . . . .     . . . . . . . .   0
//!  2  . . O O . . . .     . . O O . . . .   1     The crop begins with row 1. No live cell is outside of the crop.
//!  3  . . . O O . . .     . . . O O . . .   2
//!  4  . . . . . . . .     . . . . . . . .   3
//!  5  . . . . . . . .
//! ```
ghost use Rattle.std.specs.Prelude.{◌≡◌, ◌+◌, ◌*◌, ◌<◌, ◌≤◌, ℕ, IsTrue, slice_index};
ghost use Rattle.plane_core.specs.one_sided.Crops.{IsCrop, LiesInCrop};

use crate::windows::row_packing::{packed, unpacked};
use std::simd::u64x4;

/// The fewest empty rows of a crop, above and below its live rows together. With fewer empty rows, live cells soon
/// reach the crop's rim.
const ROOM: usize = 8;

/// The first and the last row with a live cell in a window. They only decide which crops are tried.
#[derive(Clone, Copy)]
pub(crate) struct LiveRows {
    pub(crate) first: usize,
    pub(crate) last: usize,
}

impl LiveRows {
    /// Returns the live rows of a window. If the window has no live cell, the row numbers mean nothing.
    pub(crate) fn of(rows: &[u64; 64]) -> LiveRows {
        LiveRows {
            first: first_live(rows),
            last: last_live(rows),
        }
    }

    /// Checks whether a crop of `rows` rows leaves room for the pattern to grow, or has all 64 rows.
    pub(crate) fn leave_room_in(self, rows: usize) -> bool {
        let height = self.last.saturating_sub(self.first).saturating_add(1);
        rows >= 64 || height.saturating_add(ROOM) <= rows
    }

    /// Returns the first row of a crop of `rows` rows that has the live rows in its middle, as far as the window
    /// allows.
    pub(crate) fn crop_round(self, rows: usize) -> usize {
        let ends = self.first.saturating_add(self.last).saturating_add(1);
        (ends.saturating_sub(rows) / 2).min(64usize.saturating_sub(rows))
    }
}

/// Returns the first row with a live cell, or 63 if there is none.
fn first_live(rows: &[u64; 64]) -> usize {
    for r in 0..64 {
        if rows[r] != 0 {
            return r;
        }
    }
    63
}

/// Returns the last row with a live cell, or 0 if there is none.
fn last_live(rows: &[u64; 64]) -> usize {
    for r in (0..64).rev() {
        if rows[r] != 0 {
            return r;
        }
    }
    0
}

/// Returns the R rows from row `from` on as a window of N vectors.
pub(crate) fn crop<const R: usize, const N: usize>(rows: &[u64; 64], from: usize) -> [u64x4; N]
    requires some { 0 < N }
    requires rows { R ≡ 4 * N }
    requires low { from + R ≤ 64 }
    ensures { IsCrop N from rows.now result }
{
    let mut part = [0; R];
    for r in 0..R {
        part[r] = rows[from + r];
    }
    packed(&part)
}

/// Returns 64 rows: from row `from` on, they are the R rows of the window, and all other rows are empty.
pub(crate) fn uncrop<const R: usize, const N: usize>(window: &[u64x4; N], from: usize) -> [u64; 64]
    requires some { 0 < N }
    requires rows { R ≡ 4 * N }
    requires low { from + R ≤ 64 }
    ensures crop { IsCrop N from result window.now }
    ensures lies { LiesInCrop R from result }
{
    let part: [u64; R] = unpacked(window);
    let mut rows = [0; 64];
    for r in 0..R {
        rows[from + r] = part[r];
    }
    rows
}

/// Returns `true` only if all live cells are in the R rows from row `from` on.
pub(crate) fn lies_in_crop<const R: usize>(rows: &[u64; 64], from: usize) -> bool
    requires few { R ≤ 64 }
    ensures { IsTrue result → LiesInCrop R from rows.now }
{
    if from > 64 - R {
        return false;
    }
    are_dark(rows, 0, from) && are_dark(rows, from + R, 64)
}

/// Checks whether no cell is alive in the rows from `first` to before `end`.
fn are_dark(rows: &[u64; 64], first: usize, end: usize) -> bool
    requires { end ≤ 64 }
    ensures { IsTrue result → (r : ℕ) → first ≤ r → r < end → slice_index rows.now r ≡ 0 }
{
    let mut all = 0;
    for r in first..end {
        all |= rows[r];
    }
    all == 0
}
