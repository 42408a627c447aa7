//! A rule as operations on words, which compute the cells that are alive next. The total of a cell is the number of
//! live cells in its neighbourhood, including the cell itself.
//!
//! For each total from 0 to 9, words of equal bits give the answers (whether a cell is alive next) for dead and live
//! cells. The binary digits of the total choose between these answers, by bit operations. So no branch depends on a
//! cell or on the rule. Here, `d ? y : n` is `y` where the digit `d` is 1, and `n` where it is 0:
//!
//! ```text
//! eights ?  ones ? 9 : 8
//!        :  fours ?  twos ?  ones ? 7 : 6
//!                         :  ones ? 5 : 4
//!                 :  twos ?  ones ? 3 : 2
//!                         :  ones ? 1 : 0
//! ```
//!
//! Life is run most often. It needs fewer operations, which count only the eight neighbours. It has a type of its own,
//! [`Life`], so that the loop of a generation is compiled once for Life and once for all other rules.
ghost use Rattle.std.specs.Prelude.{◌≡◌, ◌==◌, ◌+◌, ◌-◌, ◌*◌, ◌<◌, ◌≤◌, ◌%◌, true, ℕ, slice_index};
ghost use Rattle.std.specs.Int.{bit_at};
ghost use Rattle.plane_core.specs.windows.LaneSums.{AnswersRows, AreBeside, bit_of};
ghost use Rattle.plane_core.specs.plane.Rules.{Numbers, is_birth, is_survival};
ghost use Rattle.plane_core.specs.plane.Generations.{lives_by};
ghost use Rattle.plane_core.specs.windows.Words.{life, one_if};

use crate::plane::rule::Rule;
use crate::windows::lane_sums::{RowSums, Sum, added, choice, only_one, summed};
use std::simd::u64x4;

/// Decides which cells are alive next.
pub(crate) trait CellLogic {
    ghost rule: { Self → Numbers };

    /// Returns the words one generation after `now`, from the sums of the rows of `now` (`here`), of the rows above
    /// them (`up`) and of the rows below them (`down`).
    fn next_cells(&self, up: Sum, here: RowSums, down: Sum, now: u64x4) -> u64x4
        requires { AreBeside here now }
        ensures { AnswersRows (rule self.now) up here.all down now result };
}

/// Conway's Life.
#[derive(Clone, Copy)]
pub(crate) struct Life;

impl CellLogic for Life {
    ghost rule = { λ _. life };

    #[inline(always)]
    fn next_cells(&self, up: Sum, here: RowSums, down: Sum, now: u64x4) -> u64x4 {
        // A cell is alive next if it has three live neighbours, or if it is alive and has two. The number of live
        // neighbours is `low.ones` plus twice the sum of the four digits that `only_one` gets. So it is two or three if
        // and only if exactly one of these digits is 1.
        let low = added(up.ones, down.ones, here.beside.ones);
        only_one(up.twos, down.twos, here.beside.twos, low.twos) & (low.ones | now)
    }
}

/// The answers of a rule, as words of equal bits. For each total (the number of live cells in a neighbourhood, 0 to 9),
/// there is the answer for a dead cell, and whether the answer for a live cell differs.
#[derive(Clone, Copy)]
pub(crate) struct RuleTables {
    rule: Rule,
    dead: [u64; 10],
    change: [u64; 10],
    ghost dead_right: { (n i : ℕ) → n < 10 → i < 64 → bit_at (slice_index dead n) i ≡ one_if (is_birth rule n) },
    ghost change_right: { (n i : ℕ) → n < 10 → i < 64 → bit_at (slice_index change n) i
        ≡ (one_if (is_birth rule n) + one_if (is_survival rule (n - 1))) % 2 },
}

impl RuleTables {
    /// Returns the tables of a rule.
    pub(crate) fn new(rule: &Rule) -> RuleTables
        ensures { result.rule ≡ rule.now }
    {
        let mut dead = [0; 10];
        let mut change = [0; 10];
        for n in 0..10 {
            let born = rule.births(n as u8);
            dead[n] = word_of(born);
            change[n] = word_of(born != rule.survives((n as u8).saturating_sub(1)));
        }
        RuleTables {
            rule: *rule,
            dead,
            change,
        }
    }

    /// Returns which cells are alive next if the total of each is `n`.
    #[inline(always)]
    fn at_one(&self, n: usize, now: u64x4) -> u64x4
        requires { n ≤ 9 }
        ensures { (j i : ℕ) → j < 4 → i < 64
            → bit_of result j i ≡ one_if (lives_by self.now.rule n (bit_of now j i == 1)) }
    {
        u64x4::splat(self.dead[n]) ^ (u64x4::splat(self.change[n]) & now)
    }

    /// Returns which cells are alive next. The total of a cell is `n`, plus 1 if its bit of `ones` is 1.
    #[inline(always)]
    fn at_two(&self, n: usize, ones: u64x4, now: u64x4) -> u64x4
        requires { n ≤ 8 }
        ensures { (j i : ℕ) → j < 4 → i < 64
            → bit_of result j i ≡ one_if (lives_by self.now.rule (n + bit_of ones j i) (bit_of now j i == 1)) }
    {
        choice(ones, self.at_one(n + 1, now), self.at_one(n, now))
    }

    /// Returns which cells are alive next. The total of a cell is `n`, plus 1 if its bit of `ones` is 1, and plus 2 if
    /// its bit of `twos` is 1.
    #[inline(always)]
    fn at_four(&self, n: usize, ones: u64x4, twos: u64x4, now: u64x4) -> u64x4
        requires { n ≤ 6 }
        ensures { (j i : ℕ) → j < 4 → i < 64 → bit_of result j i
            ≡ one_if (lives_by self.now.rule (n + bit_of ones j i + 2 * bit_of twos j i) (bit_of now j i == 1)) }
    {
        choice(
            twos,
            self.at_two(n + 2, ones, now),
            self.at_two(n, ones, now),
        )
    }
}

impl CellLogic for RuleTables {
    ghost rule = { λ logic. logic.rule };

    #[inline(always)]
    fn next_cells(&self, up: Sum, here: RowSums, down: Sum, now: u64x4) -> u64x4 {
        let total = summed(up, here.all, down);
        let high = self.at_two(8, total.ones, now);
        let low = choice(
            total.fours,
            self.at_four(4, total.ones, total.twos, now),
            self.at_four(0, total.ones, total.twos, now),
        );
        choice(total.eights, high, low)
    }
}

/// Returns a word of 64 equal bits.
fn word_of(bit: bool) -> u64
    ensures { (i : ℕ) → i < 64 → bit_at result i ≡ one_if bit }
{
    if bit { u64::MAX } else { 0 }
}
