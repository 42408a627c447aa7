//! A one-sided test that a cluster diverges: run alone, the cluster has a live cell that the whole pattern doesn't have
//! in the same generation. An example:
//!
//! ```text
//! the whole            in generation 3      a cluster alone,
//!                                           in generation 3
//! . . . . . . . .      . . . O O . . .      . . . . . . . .
//! . . O . . O . .      . . O . . O . .      . . . . . . . .     Run alone, the blinker on the left has the cells x in
//! . . O . . O . .      . O . . . . O .      . O x x . . . .     generation 3, but the whole doesn't. So the blinker
//! . . O . . O . .      . . O . . O . .      . . . . . . . .     isn't one of the objects of a pattern at rest.
//! . . . . . . . .      . . . O O . . .      . . . . . . . .
//! ```
//!
//! The whole and the cluster are both run in windows. With each generation, the correct part of a window begins one
//! cell further inside.
ghost use Rattle.std.specs.Prelude.{◌+◌, ◌≤◌, ◌<◌, IsTrue};
ghost use Rattle.plane_core.specs.windows.RuleLogic.{rule_of};
ghost use Rattle.plane_core.specs.one_sided.RestlessClusters.{HasDivergingCell, DivergesFromWhole};

use crate::one_sided::crop::LiveRows;
use crate::windows::rule_logic::RuleLogic;
use crate::windows::window::generation;
use crate::windows::window_queries::{in_any_lane, row};
use std::simd::u64x4;

/// The most generations for which a cluster is run and compared with the whole. A cluster that diverges later usually
/// never recurs either, which the test `never_recurs` shows.
const LIMIT: u32 = 11;

/// A live cell of another cluster is near a cluster if it is at most this number of columns and rows away. Of a hundred
/// clusters that diverge, 97 have such a cell near them.
const NEAR: usize = 4;

/// Returns `true` only if the cluster that `alone` shows diverges within `most` generations from the pattern that
/// `whole` shows. Both windows are correct at least `depth` cells inside their border. `false` says nothing.
pub(crate) fn diverges_from_whole<const N: usize>(
    whole: &[u64x4; N],
    alone: &[u64x4; N],
    rule: &RuleLogic,
    depth: usize,
    most: u32,
) -> bool
    requires some { 10 ≤ N }
    requires few { N ≤ 16 }
    requires depth { depth ≤ 2 }
    ensures { IsTrue result → DivergesFromWhole (rule_of rule.now) N whole.now alone.now depth most }
{
    let mut whole = *whole;
    let mut alone = *alone;
    for made in 0..most.min(LIMIT) {
        generation(&mut whole, rule);
        generation(&mut alone, rule);
        if made % 4 == 2 {
            if has_diverging_cell(&whole, &alone, depth + 1 + made as usize) {
                return true;
            }
        }
    }
    false
}

/// Checks whether a live cell of another cluster is near the cluster, whose live rows are given. This only decides
/// whether it is worthwhile to run the cluster and compare it with the whole.
pub(crate) fn is_near_others(rows: &[u64; 64], cluster: &[u64; 64], live: LiveRows) -> bool {
    let mut others = 0;
    let mut columns = 0;
    let end = live.last.saturating_add(NEAR + 1).min(64);
    for r in live.first.saturating_sub(NEAR)..end {
        others |= rows[r] ^ cluster[r];
        columns |= cluster[r];
    }
    for _ in 0..NEAR {
        columns |= columns << 1 | columns >> 1;
    }
    others & columns != 0
}

/// Checks whether `alone` has a live cell that `whole` doesn't have, at least `depth` cells inside the border.
fn has_diverging_cell<const N: usize>(whole: &[u64x4; N], alone: &[u64x4; N], depth: usize) -> bool
    requires some { 10 ≤ N }
    requires few { N ≤ 16 }
    requires depth { depth < 20 }
    ensures { IsTrue result → HasDivergingCell N whole.now alone.now depth }
{
    // The columns that are at least `depth` inside the border.
    let inside = u64::MAX >> (2 * depth) << depth;
    if diverging_columns(whole, alone) & inside == 0 {
        return false;
    }
    for r in depth..4 * N - depth {
        let here = row(alone, r);
        let diverging = here & (here ^ row(whole, r)) & inside;
        if diverging != 0 {
            return true;
        }
    }
    false
}

/// Returns the columns in which `alone` has a live cell that `whole` doesn't have.
fn diverging_columns<const N: usize>(whole: &[u64x4; N], alone: &[u64x4; N]) -> u64 {
    let mut all = u64x4::splat(0);
    for k in 0..N {
        all = all | (alone[k] & (alone[k] ^ whole[k]));
    }
    in_any_lane(all)
}
