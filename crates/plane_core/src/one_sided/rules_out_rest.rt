//! A one-sided test that the pattern in a window isn't at rest, using one of its clusters:
//!
//! ```text
//! . . . . . . . .      The window shows a piece of the pattern. The test looks for a live cell that is dead two
//! . O O . . . S .      generations later, and grows its cluster, which is S here. Run alone, the cluster may diverge
//! . O O . . S S .      from the whole, or never recur. In both cases, the pattern doesn't consist of objects at rest.
//! . . . . . . S .
//! ```
//!
//! Most patterns that aren't at rest are rejected by a single cluster.
ghost use Rattle.std.specs.Prelude.{◌≤◌, IsTrue};
ghost use Rattle.plane_core.specs.windows.RuleLogic.{rule_of};
ghost use Rattle.plane_core.specs.one_sided.RestlessClusters.{AreAllRestless, DivergesInRows};

use crate::one_sided::active_cells::{changing_cells, first_cell};
use crate::one_sided::crop::{LiveRows, crop, lies_in_crop};
use crate::one_sided::diverges::{diverges_from_whole, is_near_others};
use crate::one_sided::flood::flood;
use crate::one_sided::never_recurs::never_recurs;
use crate::windows::row_packing::unpacked;
use crate::windows::rule_logic::RuleLogic;
use std::simd::u64x4;

/// Returns `true` only if no pattern of which the window shows a piece is at rest: each such pattern has a cluster that
/// diverges from it within `horizon` generations, or doesn't recur within `period` generations. The window is correct
/// at least `depth` cells inside its border. `false` says nothing.
pub(crate) fn rules_out_rest(
    window: &[u64x4; 16],
    rule: &RuleLogic,
    depth: usize,
    horizon: u32,
    period: u32,
) -> bool
    requires { depth ≤ 2 }
    ensures { IsTrue result → AreAllRestless (rule_of rule.now) 16 window.now depth horizon period }
{
    let rows = unpacked(window);
    let Some(spot) = first_cell(&changing_cells(&rows, rule)) else {
        return false;
    };
    let mut cluster = [0; 64];
    let whole = flood(&rows, &mut cluster, spot.row, spot.column);
    if !whole {
        return false;
    }
    let live = LiveRows::of(&cluster);
    if is_near_others(&rows, &cluster, live)
        && diverges_in_crop(&rows, &cluster, live, rule, depth, horizon)
    {
        return true;
    }
    never_recurs(&cluster, rule, period)
}

/// Returns `true` only if the cluster diverges from the whole within `horizon` generations. Both are run in the 40 rows
/// around the cluster, whose live rows are given. `false` says nothing.
fn diverges_in_crop(
    rows: &[u64; 64],
    cluster: &[u64; 64],
    live: LiveRows,
    rule: &RuleLogic,
    depth: usize,
    horizon: u32,
) -> bool
    requires { depth ≤ 2 }
    ensures { IsTrue result → DivergesInRows (rule_of rule.now) rows.now cluster.now depth horizon }
{
    let from = live.crop_round(40);
    if !lies_in_crop::<40>(cluster, from) {
        return false;
    }
    let whole: [u64x4; 10] = crop::<40, 10>(rows, from);
    let alone: [u64x4; 10] = crop::<40, 10>(cluster, from);
    diverges_from_whole(&whole, &alone, rule, depth, horizon)
}
