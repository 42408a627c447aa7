//! Shows early, without examining all clusters, that the pattern of a board isn't at rest. It is enough that one
//! cluster diverges from the pattern or never recurs.
//!
//! Active boxes are tried one after another, and in the view of each, one cluster is tested:
//!
//! ```text
//! boxes      small  LARGE  small  small  LARGE  small
//! tried       3rd    1st    4th           2nd           Boxes larger than those of small oscillators come first.
//! ```
//!
//! At most four boxes are tried. If they show nothing, the board usually consists of objects at rest.
ghost use Rattle.std.specs.Prelude.{◌≤◌, IsTrue};
ghost use Rattle.plane_core.specs.plane.Generations.{after};
ghost use Rattle.plane_core.specs.one_sided.RestlessClusters.{HasRestlessCluster};

use crate::engine::board::Board;
use crate::engine::board::view::longer_side;
use crate::one_sided::rules_out_rest::rules_out_rest;
use crate::plane::bounds::Bounds;
use crate::windows::row_packing::packed;
use crate::windows::window::generations;

/// The most columns and rows of the active box of a small oscillator.
const SMALL: u32 = 6;

/// The most boxes that are tried.
const TRIES: u32 = 4;

/// The size of an active box.
#[derive(Clone, Copy, PartialEq, Eq)]
enum BoxSize {
    /// At most as large as the active box of a small oscillator.
    Small,
    Large,
}

impl BoxSize {
    /// Returns the size of a box.
    fn of(bounds: Bounds) -> BoxSize {
        if longer_side(bounds) < SMALL {
            BoxSize::Small
        } else {
            BoxSize::Large
        }
    }
}

/// A question about the pattern `ahead` generations later: whether some cluster diverges within `horizon` generations,
/// or doesn't recur within `period` generations. `ahead` is 0 or 1.
#[derive(Clone, Copy)]
struct RestQuestion {
    ahead: u32,
    horizon: u32,
    period: u32,
}

impl Board {
    /// Returns `true` only if the pattern is not at rest `ahead` generations later: one of its clusters then diverges
    /// from it within `horizon` generations, or doesn't recur within `period` generations. `ahead` is 0 or 1. `false`
    /// says nothing.
    pub fn rules_out_rest(&self, ahead: u32, horizon: u32, period: u32) -> bool
        requires { ahead ≤ 1 }
        ensures { IsTrue result
            → HasRestlessCluster self.now.rule (after self.now.rule self.now.cells ahead) horizon period }
    {
        let asked = RestQuestion {
            ahead,
            horizon,
            period,
        };
        let mut tries = TRIES;
        if self.try_boxes(asked, BoxSize::Large, &mut tries) {
            return true;
        }
        self.try_boxes(asked, BoxSize::Small, &mut tries)
    }

    /// Tests the boxes of one size until no tries are left. A test looks at the view of a box. If the view isn't on the
    /// board, the box only uses up a try. `true` is a proof that the pattern isn't at rest, and `false` says nothing.
    fn try_boxes(&self, asked: RestQuestion, size: BoxSize, tries: &mut u32) -> bool
        requires { asked.ahead ≤ 1 }
        ensures { IsTrue result → HasRestlessCluster self.now.rule
            (after self.now.rule self.now.cells asked.ahead) asked.horizon asked.period }
    {
        let logic = self.logic();
        for bounds in self.active_boxes() {
            if *tries == 0 {
                return false;
            }
            if BoxSize::of(*bounds) != size {
                continue;
            }
            *tries -= 1;
            let Some(view) = self.view(*bounds) else {
                continue;
            };
            let mut window = packed(&view.rows);
            let ahead = asked.ahead as usize;
            generations(&mut window, logic, ahead);
            if rules_out_rest(&window, logic, ahead, asked.horizon, asked.period) {
                return true;
            }
        }
        false
    }
}
