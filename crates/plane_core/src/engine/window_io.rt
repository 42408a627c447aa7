//! Reads windows from a board, and puts their inner parts back.
//!
//! A window may begin in any column, so each of its rows is usually in two word columns of the board:
//!
//! ```text
//!   word column x / 64        |  the word column after it
//!   ..........[aaaaaaaa|bbbbbbbbbbbb].......
//!             column x
//! ```
ghost use Rattle.std.specs.Prelude.{◌≡◌, ◌≢◌, ◌==◌, ◌+◌, ◌-◌, ◌*◌, ◌/◌, ◌<◌, ◌≤◌, ℕ, ◌+ℤ◌, pos, length};
ghost use Rattle.std.specs.Prelude.{◌⊎◌, if◌then◌else◌, slice_index};
ghost use Rattle.std.specs.Int.{bit_at};
ghost use Rattle.plane_core.specs.engine.Frames.{FillsFrame, IsFrame};
ghost use Rattle.plane_core.specs.engine.WindowIo.{AreRowsPut, AreRowsRead, IsPutBack, IsRowPut};
ghost use Rattle.plane_core.specs.engine.LeapWindows.{IsOnBoard};

use crate::engine::frame::Frame;
use crate::engine::leap_window::LeapWindow;
use crate::windows::geometry::{INNER_COLUMN_MASK, MARGIN};
use crate::windows::lane_sums::choice;
use crate::windows::row_packing::{four_words, set_words};
use std::simd::u64x4;

/// Returns the column of the board in which a window begins.
#[inline(always)]
pub(crate) fn column_of(at: Frame, window: LeapWindow) -> usize
    requires frame { IsFrame at }
    requires on_board { IsOnBoard at window }
    ensures is { window.left ≡ at.left +ℤ pos result }
    ensures word_columns { result / 64 + 1 < at.word_columns }
{
    (window.left - at.left) as usize
}

/// Returns the row of the board in which a window begins.
#[inline(always)]
pub(crate) fn row_of(at: Frame, window: LeapWindow) -> usize
    requires frame { IsFrame at }
    requires on_board { IsOnBoard at window }
    ensures is { window.top ≡ at.top +ℤ pos result }
    ensures rows { result + window.rows ≤ at.rows }
{
    (window.top - at.top) as usize
}

/// Reads the rows of a window that begins in column `x` and row `y` of the board. Each row consists of the end of a
/// word of word column `x / 64` and the beginning of a word of the next word column. Four rows are read at a time, and
/// the remaining rows one by one.
#[inline(always)]
pub(crate) fn read_rows<const R: usize>(words: &[u64], at: Frame, x: usize, y: usize) -> [u64; R]
    requires long { FillsFrame at words.now }
    requires word_columns { x / 64 + 1 < at.word_columns }
    requires rows { y + R ≤ at.rows }
    ensures { AreRowsRead at words.now x y R result }
{
    let first = x / 64 * at.rows + y;
    let second = first + at.rows;
    let shift = x % 64;
    let mut rows = [0; R];
    let mut r = 0;
    while R - r >= 4 {
        let four = joined(
            four_words(words, first + r),
            four_words(words, second + r),
            shift,
        );
        set_words(&mut rows, r, four);
        r += 4;
    }
    while r < R {
        rows[r] = (words[first + r] >> shift) | (words[second + r] << 1 << (63 - shift));
        r += 1;
    }
    rows
}

/// Returns four rows: each consists of the end of a word of `first`, from column `shift` on, and the beginning of a
/// word of `second`.
#[inline(always)]
fn joined(first: [u64; 4], second: [u64; 4], shift: usize) -> [u64; 4]
    requires { shift < 64 }
    ensures first { (j i : ℕ) → j < 4 → i + shift < 64
        → bit_at (slice_index result j) i ≡ bit_at (slice_index first j) (i + shift) }
    ensures second { (j i : ℕ) → j < 4 → i < 64 → 64 ≤ i + shift
        → bit_at (slice_index result j) i ≡ bit_at (slice_index second j) (i + shift - 64) }
{
    let ends = u64x4::from_array(first) >> u64x4::splat(shift as u64);
    let beginnings = u64x4::from_array(second) << 1 << u64x4::splat(63 - shift as u64);
    (ends | beginnings).to_array()
}

/// Returns the part of `word`, a row of a window, that is in the first of the row's two word columns. The row begins in
/// column `shift` of this word column.
#[inline(always)]
fn in_first(word: u64, shift: usize) -> u64
    requires { shift < 64 }
    ensures low { (i : ℕ) → i < shift → bit_at result i ≡ 0 }
    ensures high { (i : ℕ) → shift ≤ i → i < 64 → bit_at result i ≡ bit_at word (i - shift) }
{
    word << shift
}

/// Returns the part of `word`, a row of a window, that is in the second of the row's two word columns. The row begins
/// in column `shift` of the first of them.
#[inline(always)]
#[tactic(auto, using(crate::proofs::lemmas::windows::ShiftLemmas::bit_second))]
fn in_second(word: u64, shift: usize) -> u64
    requires { shift < 64 }
    ensures { (i : ℕ) → bit_at result i ≡ bit_at word (i + 64 - shift) }
{
    word >> 1 >> (63 - shift)
}

/// Replaces the bits of word `i` with those of `value` wherever the mask has a 1.
#[inline(always)]
fn put_word(words: &mut [u64], i: usize, mask: u64, value: u64)
    requires { i < length words.old }
    ensures at { (b : ℕ) → bit_at (slice_index words.new i) b
        ≡ (if bit_at mask b == 1 then bit_at value b else bit_at (slice_index words.old i) b) }
    ensures others { (m : ℕ) → m ≢ i → slice_index words.new m ≡ slice_index words.old m }
{
    let old = words[i];
    words[i] = old ^ ((old ^ value) & mask);
}

/// Replaces the bits of four words, from word `i` on, with those of the values wherever the mask has a 1. All four
/// words are read before one is written, so that the compiler can use vectors.
#[inline(always)]
fn put_words(words: &mut [u64], i: usize, mask: u64, values: [u64; 4])
    requires { i + 4 ≤ length words.old }
    ensures at { (j b : ℕ) → j < 4 → bit_at (slice_index words.new (i + j)) b
        ≡ (if bit_at mask b == 1 then bit_at (slice_index values j) b else bit_at (slice_index words.old (i + j)) b) }
    ensures others { (m : ℕ) → (m < i) ⊎ (i + 4 ≤ m) → slice_index words.new m ≡ slice_index words.old m }
{
    let old = u64x4::from_array(four_words(words, i));
    let new = choice(u64x4::splat(mask), u64x4::from_array(values), old);
    set_words(words, i, new.to_array());
}

/// Returns, for each of the four rows from row `r` on, the part that is in the first of the row's two word columns. The
/// rows begin in column `shift` of this word column.
#[inline(always)]
fn in_first_of(rows: &[u64; 64], r: usize, shift: usize) -> [u64; 4]
    requires rows { r + 4 ≤ 64 }
    requires shift { shift < 64 }
    ensures { (j i : ℕ) → j < 4 → shift ≤ i → i < 64
        → bit_at (slice_index result j) i ≡ bit_at (slice_index rows.now (r + j)) (i - shift) }
{
    let mut values = [0; 4];
    for j in 0..4 {
        values[j] = in_first(rows[r + j], shift);
    }
    values
}

/// Returns, for each of the four rows from row `r` on, the part that is in the second of the row's two word columns.
/// The rows begin in column `shift` of the first of them.
#[inline(always)]
fn in_second_of(rows: &[u64; 64], r: usize, shift: usize) -> [u64; 4]
    requires rows { r + 4 ≤ 64 }
    requires shift { shift < 64 }
    ensures { (j i : ℕ) → j < 4
        → bit_at (slice_index result j) i ≡ bit_at (slice_index rows.now (r + j)) (i + 64 - shift) }
{
    let mut values = [0; 4];
    for j in 0..4 {
        values[j] = in_second(rows[r + j], shift);
    }
    values
}

/// Puts back the inner columns of a window's row. The row begins in column `x` and row `y` of the board.
#[inline(always)]
fn write_row(words: &mut [u64], at: Frame, x: usize, y: usize, word: u64)
    requires long { FillsFrame at words.old }
    requires word_columns { x / 64 + 1 < at.word_columns }
    requires rows { y < at.rows }
    ensures { IsRowPut at x y word words.old words.new }
{
    let i = x / 64 * at.rows + y;
    let shift = x % 64;
    put_word(
        words,
        i,
        in_first(INNER_COLUMN_MASK, shift),
        in_first(word, shift),
    );
    put_word(
        words,
        i + at.rows,
        in_second(INNER_COLUMN_MASK, shift),
        in_second(word, shift),
    );
}

/// Puts back the inner columns of four rows of a window, from row `r` on. Row `r` begins in column `x` and row `y` of
/// the board.
#[inline(always)]
fn write_rows(words: &mut [u64], at: Frame, x: usize, y: usize, rows: &[u64; 64], r: usize)
    requires long { FillsFrame at words.old }
    requires word_columns { x / 64 + 1 < at.word_columns }
    requires inside { y + 4 ≤ at.rows }
    requires rows { r + 4 ≤ 64 }
    ensures { AreRowsPut at x y r rows.now words.old words.new }
{
    let i = x / 64 * at.rows + y;
    let shift = x % 64;
    let first = in_first_of(rows, r, shift);
    let second = in_second_of(rows, r, shift);
    put_words(words, i, in_first(INNER_COLUMN_MASK, shift), first);
    put_words(
        words,
        i + at.rows,
        in_second(INNER_COLUMN_MASK, shift),
        second,
    );
}

/// Puts back the inner part of a window: the inner columns of its rows from 4 to before `end`. The window begins in
/// column `x` and row `y` of the board. Four rows are put back at a time, and the remaining rows one by one.
#[inline(always)]
pub(crate) fn write(words: &mut [u64], at: Frame, x: usize, y: usize, end: usize, rows: &[u64; 64])
    requires long { FillsFrame at words.old }
    requires word_columns { x / 64 + 1 < at.word_columns }
    requires rows { y + end ≤ at.rows }
    requires some { 4 ≤ end }
    requires few { end ≤ 64 }
    ensures { IsPutBack at x y end rows.now words.old words.new }
{
    let mut r = MARGIN;
    while end - r >= 4 {
        write_rows(words, at, x, y + r, rows, r);
        r += 4;
    }
    while r < end {
        write_row(words, at, x, y + r, rows[r]);
        r += 1;
    }
}
