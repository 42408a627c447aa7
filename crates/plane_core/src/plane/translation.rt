//! The displacement between two patterns:
//!
//! ```text
//! O O . . .      . . . . .
//! . O . . .      . . . O O      The second pattern is the first one, moved by (3, 1).
//! . . . . .      . . . . O
//! ```
ghost use Rattle.std.specs.Prelude.{◌≡◌, ◌-ℤ◌, true};
ghost use Rattle.plane_core.specs.plane.Bounds.{FindsShift};
ghost use Rattle.plane_core.specs.plane.Cells.{on_plane};

use crate::plane::cell::Cell;
use crate::plane::coordinate::difference;
use crate::plane::pattern::Pattern;

impl Pattern {
    /// Returns the displacement (dx, dy) by which this pattern has to be moved to become the other, or `None` if no
    /// displacement does this. The result is (0, 0) if both patterns are empty.
    pub fn shift_to(&self, other: &Pattern) -> Option<(i32, i32)>
        ensures { FindsShift self.now other.now result }
    {
        let (cells, others) = (self.cells(), other.cells());
        if cells.len() != others.len() {
            return None;
        }
        let [first, ..] = cells else {
            return Some((0, 0));
        };
        let step = step_between(*first, others[0]);
        for (i, cell) in cells.iter().enumerate() {
            if step_between(*cell, others[i]) != step {
                return None;
            }
        }
        Some(step)
    }
}

/// Returns the displacement (dx, dy) from one cell of the plane to another.
#[tactic(auto, unfolding(crate::specs::plane::Cells::on_plane))]
fn step_between(from: Cell, to: Cell) -> (i32, i32)
    requires from { on_plane from ≡ true }
    requires to { on_plane to ≡ true }
    ensures { result ≡ (to.x -ℤ from.x, to.y -ℤ from.y) }
{
    (difference(from.x, to.x), difference(from.y, to.y))
}
