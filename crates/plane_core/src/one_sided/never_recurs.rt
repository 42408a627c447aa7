//! A one-sided test that a pattern never recurs. The pattern is run by itself in a window of few rows. If it reaches
//! the rim, the run goes on in a larger window:
//!
//! ```text
//!                      . . . . . . . .
//! . . . . . . . .      . . . . . . . .
//! . . . O O . . .      . . . O O . . .     If a cell is alive in the first or the last row of the small window,
//! . . O O . . . .      . . O O . . . .     the pattern is copied into the next larger window. No generation is
//! . . . O . . . .      . . . O . . . .     run twice.
//!                      . . . . . . . .
//! ```
//!
//! Most patterns are found not to recur while they have few rows.
ghost use Rattle.std.specs.Prelude.{◌≡◌, ◌*◌, ◌<◌, ◌≤◌, ℤ, IsTrue, List};
ghost use Rattle.plane_core.specs.windows.RuleLogic.{rule_of};
ghost use Rattle.plane_core.specs.plane.Generations.{NeverRecurs};
ghost use Rattle.plane_core.specs.windows.LonePatterns.{FillsRows};
ghost use Rattle.plane_core.specs.one_sided.FollowedPatterns.{EndsInRows, IsFollowedInRows};
ghost use Rattle.plane_core.specs.declared.plane.cell.Cell.{Cell};

use crate::one_sided::crop::{LiveRows, crop, lies_in_crop, uncrop};
use crate::one_sided::follow::{Followed, follow};
use crate::windows::rule_logic::RuleLogic;
use std::simd::u64x4;

/// Returns `true` only if no generation from 1 to `most` is a translate of the pattern. The 64 rows of `start` show all
/// of the pattern. `false` says nothing.
pub(crate) fn never_recurs(start: &[u64; 64], rule: &RuleLogic, most: u32) -> bool
    ensures { IsTrue result → (cells : List Cell) (left top : ℤ) → FillsRows left top start.now cells
        → NeverRecurs (rule_of rule.now) cells most }
{
    let live = LiveRows::of(start);
    let mut now = *start;
    let mut made = 0;
    // In windows of 16, 24, 32 rows, and so on, up to 64.
    for size in 2..9 {
        match follow_by_size(size, start, &mut now, live, made, rule, most) {
            Followed::NeverAgain => return true,
            Followed::PerhapsAgain => return false,
            Followed::Outgrown(generations) => made = generations,
        }
    }
    false
}

/// Follows the pattern in a window of `8 * size` rows, 16 to 64.
fn follow_by_size(
    size: usize,
    start: &[u64; 64],
    now: &mut [u64; 64],
    live: LiveRows,
    made: u32,
    rule: &RuleLogic,
    most: u32,
) -> Followed
    requires { IsFollowedInRows (rule_of rule.now) start.now now.old made }
    ensures { EndsInRows result (rule_of rule.now) start.now now.new most }
{
    match size {
        2 => follow_in::<16, 4>(start, now, live, made, rule, most),
        3 => follow_in::<24, 6>(start, now, live, made, rule, most),
        4 => follow_in::<32, 8>(start, now, live, made, rule, most),
        5 => follow_in::<40, 10>(start, now, live, made, rule, most),
        6 => follow_in::<48, 12>(start, now, live, made, rule, most),
        7 => follow_in::<56, 14>(start, now, live, made, rule, most),
        _ => follow_in::<64, 16>(start, now, live, made, rule, most),
    }
}

/// Follows the pattern in a window of R rows, from generation `made`, which `now` shows. If the pattern outgrows the
/// window, `now` shows the last generation that was made. A pattern with too many rows outgrows the window at once.
fn follow_in<const R: usize, const N: usize>(
    start: &[u64; 64],
    now: &mut [u64; 64],
    live: LiveRows,
    made: u32,
    rule: &RuleLogic,
    most: u32,
) -> Followed
    requires some { 0 < N }
    requires few { N ≤ 16 }
    requires rows { R ≡ 4 * N }
    requires followed { IsFollowedInRows (rule_of rule.now) start.now now.old made }
    ensures { EndsInRows result (rule_of rule.now) start.now now.new most }
{
    if !live.leave_room_in(R) {
        return Followed::Outgrown(made);
    }
    let from = live.crop_round(R);
    if !lies_in_crop::<R>(start, from) || !lies_in_crop::<R>(now, from) {
        return Followed::Outgrown(made);
    }
    let first: [u64x4; N] = crop::<R, N>(start, from);
    let mut window: [u64x4; N] = crop::<R, N>(now, from);
    match follow(&first, &mut window, made, rule, most) {
        Followed::NeverAgain => Followed::NeverAgain,
        Followed::PerhapsAgain => Followed::PerhapsAgain,
        Followed::Outgrown(later) => {
            *now = uncrop::<R, N>(&window, from);
            Followed::Outgrown(later)
        }
    }
}
