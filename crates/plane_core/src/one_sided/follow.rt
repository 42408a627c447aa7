//! Follows a pattern that is by itself in a window, generation by generation, until it is known not to recur, may have
//! recurred, or is too large for the window. The window stays correct as long as no live cell reaches its rim:
//!
//! ```text
//! +----------------+    A generation that is a translate of the start has the same rows, if rows and columns are
//! |                |    counted from the first ones with a live cell. Usually it is enough to compare which columns
//! |    OO.         |    have a live cell.
//! |     OO.        |
//! |      O         |    If a generation equals an earlier one, all later generations repeat earlier ones, none of
//! +----------------+    which was a translate of the start.
//! ```
ghost use Rattle.std.specs.Prelude.{◌≡◌, ◌+◌, ◌-◌, ◌*◌, ◌/◌, ◌^◌, ◌<◌, ◌≤◌, ℕ, ℤ, IfSome, IsTrue, List, max};
ghost use Rattle.std.specs.Int.{bit_at};
ghost use Rattle.plane_core.specs.windows.RuleLogic.{rule_of};
ghost use Rattle.plane_core.specs.plane.Bounds.{shifted};
ghost use Rattle.plane_core.specs.windows.LonePatterns.{AreAlike, Holds, IsColumns, IsFirstRow};
ghost use Rattle.plane_core.specs.windows.LonePatterns.{IsRimClear, IsVector, AreVectors};
ghost use Rattle.plane_core.specs.one_sided.FollowedPatterns.{EndsInWindow, IsFollowed};
ghost use Rattle.plane_core.specs.windows.LaneSums.{bit_of};
ghost use Rattle.plane_core.specs.windows.Windows.{row_at};
ghost use Rattle.plane_core.specs.declared.plane.cell.Cell.{Cell};

use crate::windows::rule_logic::RuleLogic;
use crate::windows::window::generation;
use crate::windows::window_queries::{are_alike, columns_of, first_row, is_rim_clear, row};
use std::simd::u64x4;

/// How the search for a translate of the start ended.
#[derive(Clone, Copy)]
pub(crate) enum Followed {
    /// No generation from 1 to `most` is a translate of the start.
    NeverAgain,
    /// A generation may be a translate of the start.
    PerhapsAgain,
    /// After this number of generations, none of which is a translate of the start, the pattern is too large for the
    /// window.
    Outgrown(u32),
}

/// Follows a pattern up to generation `most`. `start` shows the pattern, and `now` shows generation `made` of it, with
/// which the run begins. All of the pattern is in the window. If the pattern outgrows the window, `now` shows the last
/// generation that was made.
pub(crate) fn follow<const N: usize>(
    start: &[u64x4; N],
    now: &mut [u64x4; N],
    made: u32,
    rule: &RuleLogic,
    most: u32,
) -> Followed
    requires some { 0 < N }
    requires few { N ≤ 16 }
    requires followed { IsFollowed (rule_of rule.now) N start.now now.old made }
    ensures { EndsInWindow result (rule_of rule.now) N start.now now.new most }
{
    let from = columns_of(start);
    if from == 0 {
        return Followed::PerhapsAgain;
    }
    let mut columns = columns_of(now);
    let mut kept = *now;
    let mut kept_columns = columns;
    for age in made..most {
        if !is_rim_clear(now, columns) {
            return Followed::Outgrown(age);
        }
        generation(now, rule);
        columns = columns_of(now);
        if may_be_again(start, from, now, columns) {
            return Followed::PerhapsAgain;
        }
        // Usually the columns with a live cell differ.
        if columns == kept_columns && are_alike(now, &kept) {
            return Followed::NeverAgain;
        }
        // Most clusters that settle end up with period 1 or 2. So every fourth generation is kept and compared with the
        // next ones.
        if age % 4 == 1 {
            kept = *now;
            kept_columns = columns;
        }
    }
    Followed::NeverAgain
}

/// Returns row `r` of the window, or an empty row if `r` is past its end.
fn row_or_none<const N: usize>(window: &[u64x4; N], r: usize) -> u64
    requires some { 0 < N }
    requires few { N ≤ 16 }
    ensures inside { r < 4 * N → result ≡ row_at N window.now r }
    ensures outside { 4 * N ≤ r → result ≡ 0 }
{
    if r < 4 * N { row(window, r) } else { 0 }
}

/// Checks whether `now` may show a translate of the pattern that `start` shows. `from` and `columns` are the columns of
/// `start` and of `now` that have a live cell. First these columns are compared, counted from the first of them. If
/// they are the same, the rows are compared, counted from the first row and the first column with a live cell.
fn may_be_again<const N: usize>(
    start: &[u64x4; N],
    from: u64,
    now: &[u64x4; N],
    columns: u64,
) -> bool
    requires some { 0 < N }
    requires few { N ≤ 16 }
    requires alive { 0 < from }
    requires from { IsColumns N start.now from }
    requires columns { IsColumns N now.now columns }
    requires whole { AreVectors N start.now }
    requires whole_now { AreVectors N now.now }
    ensures { (cells : List Cell) (left top dx dy : ℤ) → Holds N left top start.now cells
        → Holds N left top now.now (shifted dx dy cells) → IsTrue result }
{
    if columns == 0 {
        return false;
    }
    let first_column = from.trailing_zeros();
    let second_column = columns.trailing_zeros();
    if from >> first_column != columns >> second_column {
        return false;
    }
    let Some(first) = first_row(start) else {
        return true;
    };
    let Some(second) = first_row(now) else {
        return true;
    };
    for r in 0..4 * N {
        if row_or_none(start, first + r) >> first_column
            != row_or_none(now, second + r) >> second_column
        {
            return false;
        }
    }
    true
}
