//! Windows: pieces of the plane, 64 columns wide, stored in vectors.
//!
//! A window of N vectors has 4 N rows. Row r is lane r / N of vector r % N. So the rows above and below a vector's rows
//! are in the neighbouring vectors. The rows above the first vector's rows are the rows of the last vector, moved to
//! the next lane. The rows below the last vector's rows are the rows of the first vector, moved to the previous lane:
//!
//! ```text
//!            lane 0    lane 1    lane 2    lane 3
//! vector 0   row 0     row 10    row 20    row 30
//! vector 1   row 1     row 11    row 21    row 31
//!   ..
//! vector 9   row 9     row 19    row 29    row 39
//! ```
//!
//! Everything around the window is taken for dead. So cells of the window may become wrong, and with each generation,
//! wrong cells reach one cell further inside.
ghost use Rattle.std.specs.Prelude.{◌≡◌, ◌+◌, ◌<◌, [], slice_index_or};
ghost use Rattle.plane_core.specs.windows.LaneSums.{AreBeside};
ghost use Rattle.plane_core.specs.windows.RuleLogic.{rule_of};
ghost use Rattle.plane_core.specs.windows.Windows.{IsLaterWindow, IsNextWindow, IsVectorMade};

use crate::windows::lane_sums::{RowSums, Sum, across, earlier_sum, later_sum};
use crate::windows::rule_logic::RuleLogic;
use crate::windows::rule_tables::{CellLogic, Life};
use std::simd::u64x4;

/// Advances the window by one generation. The loop is compiled separately for Life.
#[inline(always)]
pub(crate) fn generation<const N: usize>(window: &mut [u64x4; N], rule: &RuleLogic)
    requires { 0 < N }
    ensures { IsNextWindow (rule_of rule.now) N window.old window.new }
{
    match rule {
        RuleLogic::Life => generation_with_logic(window, &Life),
        RuleLogic::Any(rule) => generation_with_logic(window, rule),
    }
}

/// Advances the window by one generation. The sums of a vector are computed once, and are used for this vector and for
/// the vectors above and below it. Three vectors are computed per iteration, so that no sums have to be moved from one
/// register to another.
#[inline(always)]
fn generation_with_logic<const N: usize, A: CellLogic>(window: &mut [u64x4; N], rule: &A)
    requires { 0 < N }
    ensures { IsNextWindow (A.rule rule.now) N window.old window.new }
{
    let first = across(window[0]);
    let mut up = later_sum(across(window[N - 1]).all);
    let mut here = first;
    let mut k = 0;
    while N - k > 3 {
        let second = next_vector(window, rule, k, up, here);
        let third = next_vector(window, rule, k + 1, here.all, second);
        let fourth = next_vector(window, rule, k + 2, second.all, third);
        up = third.all;
        here = fourth;
        k += 3;
    }
    while N - k > 1 {
        let down = next_vector(window, rule, k, up, here);
        up = here.all;
        here = down;
        k += 1;
    }
    window[N - 1] = rule.next_cells(up, here, earlier_sum(first.all), window[N - 1]);
}

/// Advances vector `k` by one generation, given the sums `up` of the rows above it and its own sums `here`. Returns the
/// sums of the rows below it.
#[inline(always)]
fn next_vector<const N: usize, A: CellLogic>(
    window: &mut [u64x4; N],
    rule: &A,
    k: usize,
    up: Sum,
    here: RowSums,
) -> RowSums
    requires low { k + 1 < N }
    requires beside { AreBeside here (slice_index_or window.old k []) }
    ensures { IsVectorMade (A.rule rule.now) k up here result window.old window.new }
{
    let below = across(window[k + 1]);
    window[k] = rule.next_cells(up, here, below.all, window[k]);
    below
}

/// Advances the window by `count` generations. The loops are compiled separately for Life.
#[inline(always)]
pub(crate) fn generations<const N: usize>(window: &mut [u64x4; N], rule: &RuleLogic, count: usize)
    requires { 0 < N }
    ensures { IsLaterWindow (rule_of rule.now) N window.old window.new count }
{
    match rule {
        RuleLogic::Life => generations_with_logic(window, &Life, count),
        RuleLogic::Any(rule) => generations_with_logic(window, rule, count),
    }
}

/// Advances the window by `count` generations.
#[inline(always)]
pub(crate) fn generations_with_logic<const N: usize, A: CellLogic>(
    window: &mut [u64x4; N],
    rule: &A,
    count: usize,
)
    requires { 0 < N }
    ensures { IsLaterWindow (A.rule rule.now) N window.old window.new count }
{
    for _ in 0..count {
        generation_with_logic(window, rule);
    }
}
