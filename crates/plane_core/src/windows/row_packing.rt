//! Converts the rows of a window between a list and vectors. For example, a window of 40 rows has ten vectors:
//!
//! ```text
//!             lane 0    lane 1    lane 2    lane 3
//! vector 0    row 0     row 10    row 20    row 30
//! vector 1    row 1     row 11    row 21    row 31
//!   ..
//! vector 9    row 9     row 19    row 29    row 39
//! ```
//!
//! Four vectors are converted at a time: the rows 0 to 3, 10 to 13, 20 to 23 and 30 to 33 are the vectors 0 to 3,
//! transposed like a matrix.
ghost use Rattle.std.specs.Prelude.{◌≡◌, ◌+◌, ◌*◌, ◌<◌, ◌≤◌, ◌⊎◌, ◌∷◌, [], ℕ, length, slice_index};
ghost use Rattle.plane_core.specs.windows.Windows.{lane_at, row_at};

use std::simd::u64x4;

/// Returns the four words from word `i` on.
#[inline(always)]
pub(crate) fn four_words(words: &[u64], i: usize) -> [u64; 4]
    requires { i + 4 ≤ length words.now }
    ensures { (j : ℕ) → j < 4 → slice_index result j ≡ slice_index words.now (i + j) }
{
    let mut four = [0; 4];
    for j in 0..4 {
        four[j] = words[i + j];
    }
    four
}

/// Stores `four` in the words `i` to `i` + 3.
#[inline(always)]
pub(crate) fn set_words(words: &mut [u64], i: usize, four: [u64; 4])
    requires { i + 4 ≤ length words.old }
    ensures at { (j : ℕ) → j < 4 → slice_index words.new (i + j) ≡ slice_index four j }
    ensures others { (m : ℕ) → (m < i) ⊎ (i + 4 ≤ m) → slice_index words.new m ≡ slice_index words.old m }
{
    for j in 0..4 {
        words[i + j] = four[j];
    }
}

/// Returns four vectors, transposed like a matrix: lane j of vector i of the result is lane i of vector j of the
/// arguments.
#[inline(always)]
fn turned(a: u64x4, b: u64x4, c: u64x4, d: u64x4) -> [u64x4; 4]
    ensures { (i j : ℕ) → i < 4 → j < 4 → lane_at result i j ≡ lane_at (a ∷ b ∷ c ∷ d ∷ []) j i }
{
    let even_of_two = a.shuffle(b, [0, 4, 2, 6]);
    let odd_of_two = a.shuffle(b, [1, 5, 3, 7]);
    let even_of_others = c.shuffle(d, [0, 4, 2, 6]);
    let odd_of_others = c.shuffle(d, [1, 5, 3, 7]);
    [
        even_of_two.shuffle(even_of_others, [0, 1, 4, 5]),
        odd_of_two.shuffle(odd_of_others, [0, 1, 4, 5]),
        even_of_two.shuffle(even_of_others, [2, 3, 6, 7]),
        odd_of_two.shuffle(odd_of_others, [2, 3, 6, 7]),
    ]
}

/// Sets four vectors of a window, from vector `k` on. `rows` are all rows of the window, in order.
#[inline(always)]
fn pack_four<const R: usize, const N: usize>(rows: &[u64; R], window: &mut [u64x4], k: usize)
    requires rows { R ≡ 4 * N }
    requires long { length window.old ≡ N }
    requires vectors { k + 4 ≤ N }
    ensures made { (i j : ℕ) → i < 4 → j < 4
        → lane_at window.new (k + i) j ≡ slice_index rows.now (j * N + (k + i)) }
    ensures others { (m j : ℕ) → m < k → lane_at window.new m j ≡ lane_at window.old m j }
{
    let four = turned(
        u64x4::from_array(four_words(rows, k)),
        u64x4::from_array(four_words(rows, N + k)),
        u64x4::from_array(four_words(rows, 2 * N + k)),
        u64x4::from_array(four_words(rows, 3 * N + k)),
    );
    for i in 0..4 {
        window[k + i] = four[i];
    }
}

/// Returns the window with these rows.
#[inline(always)]
pub(crate) fn packed<const R: usize, const N: usize>(rows: &[u64; R]) -> [u64x4; N]
    requires some { 0 < N }
    requires rows { R ≡ 4 * N }
    ensures { (r : ℕ) → r < R → row_at N result r ≡ slice_index rows.now r }
{
    let mut window = [u64x4::splat(0); N];
    let mut k = 0;
    while N - k >= 4 {
        pack_four::<R, N>(rows, &mut window, k);
        k += 4;
    }
    while k < N {
        window[k] = u64x4::from_array([rows[k], rows[N + k], rows[2 * N + k], rows[3 * N + k]]);
        k += 1;
    }
    window
}

/// Stores the rows of the vectors `k` to `k` + 3 of a window at their places in `rows`.
#[inline(always)]
fn unpack_four<const N: usize>(window: &[u64x4; N], rows: &mut [u64], k: usize)
    requires vectors { k + 4 ≤ N }
    requires rows { 4 * N ≤ length rows.old }
    ensures made { (i j : ℕ) → i < 4 → j < 4
        → slice_index rows.new (j * N + (k + i)) ≡ lane_at window.now (k + i) j }
    ensures others { (m j : ℕ) → m < k → j < 4
        → slice_index rows.new (j * N + m) ≡ slice_index rows.old (j * N + m) }
{
    let four = turned(window[k], window[k + 1], window[k + 2], window[k + 3]);
    set_words(rows, k, four[0].to_array());
    set_words(rows, N + k, four[1].to_array());
    set_words(rows, 2 * N + k, four[2].to_array());
    set_words(rows, 3 * N + k, four[3].to_array());
}

/// Stores the rows of a window, in order, at the beginning of `rows`.
#[inline(always)]
pub(crate) fn unpack<const N: usize>(window: &[u64x4; N], rows: &mut [u64])
    requires some { 0 < N }
    requires rows { 4 * N ≤ length rows.old }
    ensures { (r : ℕ) → r < 4 * N → slice_index rows.new r ≡ row_at N window.now r }
{
    let mut k = 0;
    while N - k >= 4 {
        unpack_four(window, rows, k);
        k += 4;
    }
    while k < N {
        let lanes = window[k].to_array();
        rows[k] = lanes[0];
        rows[N + k] = lanes[1];
        rows[2 * N + k] = lanes[2];
        rows[3 * N + k] = lanes[3];
        k += 1;
    }
}

/// Returns the rows of a window in order.
#[inline(always)]
pub(crate) fn unpacked<const N: usize, const R: usize>(window: &[u64x4; N]) -> [u64; R]
    requires some { 0 < N }
    requires rows { R ≡ 4 * N }
    ensures { (r : ℕ) → r < R → slice_index result r ≡ row_at N window.now r }
{
    let mut rows = [0; R];
    unpack(window, &mut rows);
    rows
}
