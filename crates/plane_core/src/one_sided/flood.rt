//! Grows a cluster from one of its cells, in a window of 64 rows:
//!
//! ```text
//! . O . . O      . O . . O      . 2 . . O     S is the start. Cells within 2 of it are found next, then cells within 2
//! . . . . O      . . . . O      . . . . O     of those. When nothing new is found, one pass over all rows checks
//! . O . . O      . 1 . . O      . 1 . . O     whether this is the whole cluster.
//! . S . . O      . S . . O      . S . . O
//! ```
//!
//! Near the border of the window, some cells may be wrong, and the cells outside of the window aren't known. So a flood
//! that comes within four cells of the border is rejected.
ghost use Rattle.std.specs.Prelude.{◌≡◌, ◌<◌, ◌≤◌, ℕ, IsTrue};
ghost use Rattle.std.specs.Int.{bit_at};
ghost use Rattle.plane_core.specs.one_sided.Floods.{AreNear, HasGrown, IsClosed, IsFlooded, IsWellInside, LiesInside};
ghost use Rattle.plane_core.specs.windows.Rows.{bit_in};

use crate::windows::geometry::{INNER_COLUMN_MASK, MARGIN};

/// Live cells that are at most this number of columns and rows apart are in the same cluster.
const REACH: usize = 2;

/// The number of rows of the window.
const ROWS: usize = 64;

/// The end of the rows that have `REACH` more rows below them.
const END: usize = ROWS - REACH;

/// The end of the rows and columns that are well inside the window: at least four cells inside its border.
const INNER_END: usize = ROWS - MARGIN;

/// A bit for each of the columns that have `REACH` more columns on both sides: columns 2 to 61.
const COLUMN_MASK: u64 = 0x3fff_ffff_ffff_fffc;

/// The most rounds, each of which grows the flood down and up once. A cluster that winds so much that it needs more
/// rounds is rejected.
const ROUNDS: usize = 64;

/// Grows the cluster of the cell in row `row` and column `column`, and stores it in `flood`. Returns `true` only if the
/// cluster is complete and well inside the window. `false` says nothing.
pub(crate) fn flood(rows: &[u64; 64], flood: &mut [u64; 64], row: usize, column: u32) -> bool
    ensures { IsTrue result → IsFlooded rows.now flood.new row column }
{
    let left = column as usize;
    if row < MARGIN || row >= INNER_END || left < MARGIN || left >= INNER_END {
        return false;
    }
    if (rows[row] >> column) & 1 == 0 {
        return false;
    }
    *flood = [0; 64];
    flood[row] = 1 << column;
    let mut first = row - REACH;
    let mut end = row + REACH + 1;
    for _ in 0..ROUNDS {
        end = grow_down(rows, flood, first, end);
        let grown = grow_up(rows, flood, first, end);
        first = grown.first;
        if grown.new == 0 {
            return lies_inside(flood) && is_closed(rows, flood);
        }
    }
    false
}

/// Grows the flood downwards from row `first` to the row before `end`, and further down as long as the flood is near
/// the next row. Returns the row after the last one that was grown.
fn grow_down(rows: &[u64; 64], flood: &mut [u64; 64], first: usize, end: usize) -> usize
    requires { 2 ≤ first }
    ensures grown { HasGrown rows.now flood.old flood.new }
    ensures low { result ≤ 62 }
{
    for r in first..END {
        if r >= end && flood[r - 2] | flood[r - 1] == 0 {
            return r;
        }
        grow_row(rows, flood, r);
    }
    END
}

/// The result of growing upwards: the new bits of all rows together, and the first row that may have a bit of the flood
/// near it.
#[derive(Clone, Copy)]
struct Grown {
    new: u64,
    first: usize,
}

/// Grows the flood upwards from the row before `end` to row `first`, and further up as long as the flood is near the
/// next row.
fn grow_up(rows: &[u64; 64], flood: &mut [u64; 64], first: usize, end: usize) -> Grown
    requires { end ≤ 62 }
    ensures grown { HasGrown rows.now flood.old flood.new }
    ensures low { 2 ≤ result.first }
{
    let mut new = 0;
    for r in (REACH..end).rev() {
        if r < first && flood[r + 1] | flood[r + 2] == 0 {
            return Grown { new, first: r + 1 };
        }
        new |= grow_row(rows, flood, r);
    }
    Grown { new, first: REACH }
}

/// Grows the flood in row `r`. Returns the new bits.
#[inline(always)]
fn grow_row(rows: &[u64; 64], flood: &mut [u64; 64], r: usize) -> u64
    requires low { 2 ≤ r }
    requires high { r < 62 }
    ensures { HasGrown rows.now flood.old flood.new }
{
    let here = flood[r];
    let near = near_rows(flood, r);
    let grown = here | (beside(beside(near)) & rows[r] & COLUMN_MASK);
    flood[r] = grown;
    grown ^ here
}

/// Returns the bits of row `r` and of the rows that are at most two away, together.
#[inline(always)]
fn near_rows(flood: &[u64; 64], r: usize) -> u64
    requires low { 2 ≤ r }
    requires high { r < 62 }
    ensures from { (i : ℕ) → bit_at result i ≡ 1 → (q : ℕ) × (AreNear 2 r q) × (bit_in flood.now q i ≡ 1) }
    ensures all { (q i : ℕ) → AreNear 2 r q → bit_in flood.now q i ≡ 1 → bit_at result i ≡ 1 }
{
    flood[r - 2] | flood[r - 1] | flood[r] | flood[r + 1] | flood[r + 2]
}

/// Returns the bits of a word and the bits next to them.
#[inline(always)]
fn beside(word: u64) -> u64
    ensures from { (i : ℕ) → bit_at result i ≡ 1 → (i < 64) × (j : ℕ) × (AreNear 1 i j) × (bit_at word j ≡ 1) }
    ensures all { (i j : ℕ) → i < 64 → AreNear 1 i j → bit_at word j ≡ 1 → bit_at result i ≡ 1 }
{
    word << 1 | word | word >> 1
}

/// Checks whether the flood is well inside the window. No branch depends on a row, so that four rows are tested at
/// once.
fn lies_inside(flood: &[u64; 64]) -> bool
    ensures { IsTrue result → LiesInside flood.now }
{
    let mut all = 0;
    for r in 0..ROWS {
        all |= outside(flood[r], r);
    }
    all == 0
}

/// Returns the bits of a row of the flood that aren't well inside the window.
#[inline(always)]
fn outside(word: u64, r: usize) -> u64
    ensures { (i : ℕ) → bit_at result i ≡ 0 → bit_at word i ≡ 1 → IsWellInside r i }
{
    if r < MARGIN || r >= INNER_END {
        return word;
    }
    word & !INNER_COLUMN_MASK
}

/// Checks whether the flood contains every live cell that is near it.
fn is_closed(rows: &[u64; 64], flood: &[u64; 64]) -> bool
    ensures { IsTrue result → IsClosed rows.now flood.now }
{
    let mut all = 0;
    for r in REACH..END {
        let cells = beside(beside(near_rows(flood, r))) & rows[r];
        all |= cells & (cells ^ flood[r]);
    }
    all == 0
}
