//! Where two windows differ in their inner parts.
//!
//! The windows are compared, and no branch depends on a cell. The differences are collected in two words, one for the
//! columns and one for the rows:
//!
//! ```text
//!   . . . .      . . . .      . . . .   rows
//!   . o o .  and . o . o  :   . . x x    1
//!   . o . .      . o . .      . . . .    0
//!                    columns  0 0 1 1
//! ```
ghost use Rattle.std.specs.Prelude.{◌≡◌, ◌+◌, ◌*◌, ◌<◌, ◌≤◌, IsTrue, ℕ};
ghost use Rattle.plane_core.specs.windows.LaneSums.{bit_of};
ghost use Rattle.plane_core.specs.engine.WindowIo.{inner_mask};
ghost use Rattle.plane_core.specs.engine.WindowDifferences.{DiffersOnlyIn};

use crate::engine::difference_box::DifferenceMask;
use crate::windows::geometry::{INNER_COLUMN_MASK, MARGIN};
use crate::windows::window_queries::{either, in_any_lane};
use std::simd::cmp::SimdPartialEq;
use std::simd::u64x4;

/// Returns the mask of the inner columns if `inside`, or 0 otherwise.
#[inline(always)]
fn inner_if(inside: bool) -> u64
    ensures { IsTrue inside → result ≡ inner_mask }
{
    if inside { INNER_COLUMN_MASK } else { 0 }
}

/// Returns where two windows differ in vector `k`, within their inner parts. `one` and `other` are vector `k` of the
/// two windows.
#[inline(always)]
fn differing<const N: usize>(one: u64x4, other: u64x4, k: usize) -> u64x4
    requires low { k < N }
    requires few { N ≤ 16 }
    ensures { (j i : ℕ) → j < 4 → 4 ≤ i → i < 60 → 4 ≤ j * N + k → j * N + k + 4 < 4 * N → bit_of result j i ≡ 0
        → bit_of one j i ≡ bit_of other j i }
{
    (one ^ other)
        & u64x4::from_array([
            inner_if(k >= MARGIN),
            INNER_COLUMN_MASK,
            INNER_COLUMN_MASK,
            inner_if(k + MARGIN < N),
        ])
}

/// Marks the rows of vector `k` that have a 1 in `places`. Lane `j` of the vector is row `j * N + k` of the window. If
/// lane `j` of `places` isn't 0, lane `j` of the result has only the bit with the number of this row. Otherwise lane
/// `j` of the result is 0.
#[inline(always)]
fn marked<const N: usize>(places: u64x4, k: usize) -> u64x4
    requires low { k < N }
    requires few { N ≤ 16 }
    ensures { (j i : ℕ) → j < 4 → bit_of result j (j * N + k) ≡ 0 → bit_of places j i ≡ 0 }
{
    let rows = u64x4::from_array([1 << k, 1 << (N + k), 1 << (2 * N + k), 1 << (3 * N + k)]);
    places
        .simd_ne(u64x4::splat(0))
        .select(rows, u64x4::splat(0))
}

/// Returns where two windows differ in their inner parts.
#[inline(always)]
pub(crate) fn difference_of<const N: usize>(one: &[u64x4; N], other: &[u64x4; N]) -> DifferenceMask
    requires { N ≤ 16 }
    ensures { DiffersOnlyIn N result one.now other.now }
{
    let mut columns = u64x4::splat(0);
    let mut rows = u64x4::splat(0);
    for k in 0..N {
        let places = differing::<N>(one[k], other[k], k);
        columns = either(columns, places);
        rows = either(rows, marked::<N>(places, k));
    }
    DifferenceMask {
        columns: in_any_lane(columns),
        rows: in_any_lane(rows),
    }
}
