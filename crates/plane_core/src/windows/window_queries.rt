//! Questions about a window: which cells of a row are alive, which columns have a live cell, which row is the first
//! with a live cell, and whether the rim is clear. Two windows can also be compared.
//!
//! ```text
//! . . . . . . .
//! . . O O . . .     row 1 is the first with a live cell
//! . . . O . . .     columns 2 and 3 have live cells
//! . . . . . . .     the rim is clear
//! ```
ghost use Rattle.std.specs.Prelude.{◌≡◌, ◌*◌, ◌<◌, ◌≤◌, ℕ, IfSome, IsTrue, max};
ghost use Rattle.std.specs.Int.{bit_at};
ghost use Rattle.plane_core.specs.windows.LonePatterns.{AreAlike, AreVectors, IsColumns, IsFirstRow, IsRimClear, IsVector};
ghost use Rattle.plane_core.specs.windows.LaneSums.{bit_of};
ghost use Rattle.plane_core.specs.windows.Windows.{row_at};

use std::simd::u64x4;

/// Returns the columns that have a live cell, as a word with a 1 for each of them.
#[inline(always)]
pub(crate) fn columns_of<const N: usize>(window: &[u64x4; N]) -> u64
    ensures columns { IsColumns N window.now result }
    ensures whole { AreVectors N window.now }
{
    let mut all = u64x4::splat(0);
    for k in 0..N {
        all = either(all, window[k]);
    }
    in_any_lane(all)
}

/// Returns the bits that are 1 in `a` or in `b`.
#[inline(always)]
pub(crate) fn either(a: u64x4, b: u64x4) -> u64x4
    ensures bits { (j i : ℕ) → j < 4 → bit_of result j i ≡ max (bit_of a j i) (bit_of b j i) }
    ensures vector { IsVector b }
{
    a | b
}

/// Returns the bits that are 1 in at least one of the four lanes.
#[inline(always)]
#[tactic(auto, using(crate::proofs::lemmas::one_sided::NeverRecursLemmas::four_words))]
pub(crate) fn in_any_lane(vector: u64x4) -> u64
    ensures { (i : ℕ) → bit_at result i
        ≡ max (max (bit_of vector 0 i) (bit_of vector 1 i)) (max (bit_of vector 2 i) (bit_of vector 3 i)) }
{
    let words = vector.to_array();
    (words[0] | words[1]) | (words[2] | words[3])
}

/// Returns row `r` of the window.
#[inline(always)]
pub(crate) fn row<const N: usize>(window: &[u64x4; N], r: usize) -> u64
    requires some { 0 < N }
    requires low { r < 4 * N }
    ensures { result ≡ row_at N window.now r }
{
    window[r % N].to_array()[r / N]
}

/// Checks whether no live cell is on the rim. `columns` are the columns of the window that have a live cell.
#[inline(always)]
pub(crate) fn is_rim_clear<const N: usize>(window: &[u64x4; N], columns: u64) -> bool
    requires some { 0 < N }
    requires few { N ≤ 16 }
    requires columns { IsColumns N window.now columns }
    ensures { IsTrue result → IsRimClear N window.now }
{
    if row(window, 0) != 0 {
        return false;
    }
    if row(window, 4 * N - 1) != 0 {
        return false;
    }
    if columns & 1 != 0 {
        return false;
    }
    columns >> 63 == 0
}

/// Checks whether two windows have the same cells.
pub(crate) fn are_alike<const N: usize>(one: &[u64x4; N], other: &[u64x4; N]) -> bool
    ensures { IsTrue result → AreAlike N one.now other.now }
{
    let mut differ = u64x4::splat(0);
    for k in 0..N {
        differ = marked(differ, one[k], other[k]);
    }
    in_any_lane(differ) == 0
}

/// Returns `marks` after setting to 1 each bit at which `a` and `b` differ.
#[inline(always)]
fn marked(marks: u64x4, a: u64x4, b: u64x4) -> u64x4
    ensures before { (j i : ℕ) → j < 4 → bit_of result j i ≡ 0 → bit_of marks j i ≡ 0 }
    ensures same { (j i : ℕ) → j < 4 → bit_of result j i ≡ 0 → bit_of a j i ≡ bit_of b j i }
{
    marks | (a ^ b)
}

/// Returns the first row with a live cell, or `None` if the window has no live cell.
pub(crate) fn first_row<const N: usize>(window: &[u64x4; N]) -> Option<usize>
    requires some { 0 < N }
    requires few { N ≤ 16 }
    ensures { IfSome result (IsFirstRow N window.now) }
{
    for r in 0..4 * N {
        if row(window, r) != 0 {
            return Some(r);
        }
    }
    None
}
