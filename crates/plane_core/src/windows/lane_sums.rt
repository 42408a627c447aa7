//! Sums of live cells, computed for all bits of four words at once: a vector has a word in each of its four lanes.
//!
//! The cells are added in binary, and each binary digit of the sums is a vector, so that one operation works on 256
//! cells:
//!
//! ```text
//!            lane 0      lane 1      lane 2      lane 3
//! ones      01100101    00000000    11010001    00010000
//! twos      00100100    00000000    01000001    11000000
//! ```
ghost use Rattle.std.specs.Prelude.{◌≡◌, ◌==◌, ◌+◌, ◌<◌, ℕ, if◌then◌else◌, slice_index};
ghost use Rattle.plane_core.specs.windows.Words.{one_if};
ghost use Rattle.plane_core.specs.windows.LaneSums.{AreBeside, bit_of, row_sum, sum_of, total_of};

use std::simd::u64x4;

/// A sum of up to three cells in two binary digits, for each bit of four words.
#[derive(Clone, Copy)]
pub(crate) struct Sum {
    pub(crate) ones: u64x4,
    pub(crate) twos: u64x4,
}

/// Two sums within a row, for each cell: the sum of its two neighbours (`beside`), and the sum of these and the cell
/// itself (`all`).
#[derive(Clone, Copy)]
pub(crate) struct RowSums {
    pub(crate) beside: Sum,
    pub(crate) all: Sum,
}

/// A sum of up to nine cells in four binary digits, for each bit of four words.
#[derive(Clone, Copy)]
pub(crate) struct Total {
    pub(crate) ones: u64x4,
    pub(crate) twos: u64x4,
    pub(crate) fours: u64x4,
    pub(crate) eights: u64x4,
}

/// Adds three vectors bit by bit: each sum is the number of 1s at one place of `a`, `b` and `c`.
#[inline(always)]
#[tactic(auto, using(crate::proofs::lemmas::windows::LaneLemmas::lane_adder))]
pub(crate) fn added(a: u64x4, b: u64x4, c: u64x4) -> Sum
    ensures { (j i : ℕ) → j < 4 → sum_of result j i ≡ bit_of a j i + bit_of b j i + bit_of c j i }
{
    Sum {
        ones: a ^ b ^ c,
        twos: (a & b) | ((a ^ b) & c),
    }
}

/// Returns the row sums of a vector: for each bit, the sum of the two bits beside it, and the sum of these and the bit
/// itself.
#[inline(always)]
pub(crate) fn across(words: u64x4) -> RowSums
    ensures all { (j i : ℕ) → j < 4 → i < 64 → sum_of result.all j i ≡ row_sum (slice_index words j) i }
    ensures beside { AreBeside result words }
{
    let left = words << 1;
    let right = words >> 1;
    RowSums {
        beside: Sum {
            ones: left ^ right,
            twos: left & right,
        },
        all: added(left, right, words),
    }
}

/// Returns the total of the sums of three rows.
#[inline(always)]
pub(crate) fn summed(up: Sum, here: Sum, down: Sum) -> Total
    ensures { (j i : ℕ) → j < 4 → total_of result j i ≡ sum_of up j i + sum_of here j i + sum_of down j i }
{
    let low = added(up.ones, here.ones, down.ones);
    // `high` counts twos: its `ones` have the weight 2, and its `twos` the weight 4.
    let high = added(up.twos, here.twos, down.twos);
    let carry = low.twos & high.ones;
    Total {
        ones: low.ones,
        twos: low.twos ^ high.ones,
        fours: high.twos ^ carry,
        eights: high.twos & carry,
    }
}

/// Returns the bit of `yes` wherever `test` has a 1, and the bit of `no` wherever `test` has a 0.
#[inline(always)]
#[tactic(auto, using(crate::proofs::lemmas::windows::LaneLemmas::lane_choice))]
pub(crate) fn choice(test: u64x4, yes: u64x4, no: u64x4) -> u64x4
    ensures { (j i : ℕ) → j < 4
        → bit_of result j i ≡ (if bit_of test j i == 1 then bit_of yes j i else bit_of no j i) }
{
    no ^ ((no ^ yes) & test)
}

/// Returns a 1 wherever exactly one of the four bits is 1.
#[inline(always)]
#[tactic(auto, using(crate::proofs::lemmas::windows::RuleLogicLemmas::lane_only_one))]
pub(crate) fn only_one(a: u64x4, b: u64x4, c: u64x4, d: u64x4) -> u64x4
    ensures { (j i : ℕ) → j < 4
        → bit_of result j i ≡ one_if (bit_of a j i + bit_of b j i + bit_of c j i + bit_of d j i == 1) }
{
    let odd = (a ^ b) ^ (c ^ d);
    let two = (a & b) | (c & d);
    odd ^ (odd & two)
}

/// Returns the sums, each moved to the next lane. The first lane becomes 0.
#[inline(always)]
pub(crate) fn later_sum(sum: Sum) -> Sum
    ensures first { (i : ℕ) → sum_of result 0 i ≡ 0 }
    ensures others { (j i : ℕ) → j < 3 → sum_of result (j + 1) i ≡ sum_of sum j i }
{
    let none = u64x4::splat(0);
    Sum {
        ones: none.shuffle(sum.ones, [3, 4, 5, 6]),
        twos: none.shuffle(sum.twos, [3, 4, 5, 6]),
    }
}

/// Returns the sums, each moved to the previous lane. The last lane becomes 0.
#[inline(always)]
pub(crate) fn earlier_sum(sum: Sum) -> Sum
    ensures others { (j i : ℕ) → j < 3 → sum_of result j i ≡ sum_of sum (j + 1) i }
    ensures last { (i : ℕ) → sum_of result 3 i ≡ 0 }
{
    let none = u64x4::splat(0);
    Sum {
        ones: sum.ones.shuffle(none, [1, 2, 3, 4]),
        twos: sum.twos.shuffle(none, [1, 2, 3, 4]),
    }
}
