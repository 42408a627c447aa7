//! Cells of the plane. The cells of patterns have coordinates from -1,000,000 to 1,000,000.
//!
//! ```text
//!          x = 0     1     2
//! y = 0   (0, 0) (1, 0) (2, 0)      In order: row by row, and in a row from the left.
//! y = 1   (0, 1) (1, 1) (2, 1)
//! ```
ghost use Rattle.std.specs.Prelude.{◌≡◌, ◌≤◌, true, unsigned_abs};
ghost use Rattle.plane_core.specs.plane.Cells.{moved_by, near_plane, on_plane, on_edge};

use crate::plane::coordinate::stepped;

/// The largest absolute value of a coordinate of a pattern's cell: coordinates are from -1,000,000 to 1,000,000.
pub const BOUND: u32 = 1_000_000;

/// A cell of the plane: x grows to the right, y grows downwards.
///
/// Cells are ordered row by row from the top, and in a row from the left. The derived order compares `y`, which is the
/// first field, and then `x`.
#[derive(Clone, Copy, Debug, PartialEq, Eq, PartialOrd, Ord, Hash)]
pub struct Cell {
    pub y: i32,
    pub x: i32,
}

impl Cell {
    /// Checks whether a pattern may have this cell: the absolute value of each coordinate is at most [`BOUND`].
    #[tactic(auto, unfolding(crate::specs::plane::Cells::on_plane))]
    pub fn is_on_plane(self) -> bool
        ensures { result ≡ on_plane self }
    {
        self.x.unsigned_abs() <= BOUND && self.y.unsigned_abs() <= BOUND
    }

    /// Checks whether the absolute value of a coordinate is [`BOUND`], so that a neighbour is off the plane.
    #[tactic(auto, unfolding(crate::specs::plane::Cells::on_edge))]
    pub fn is_on_edge(self) -> bool
        ensures { result ≡ on_edge self }
    {
        self.x.unsigned_abs() == BOUND || self.y.unsigned_abs() == BOUND
    }

    /// Returns the cell (x + dx, y + dy). `dx` and `dy` are from -2 to 2, and this cell is at most one step off the
    /// plane.
    #[tactic(auto, unfolding(crate::specs::plane::Cells::near_plane))]
    pub(crate) fn moved(self, dx: i32, dy: i32) -> Cell
        requires near { near_plane self ≡ true }
        requires right { unsigned_abs dx ≤ 2 }
        requires down { unsigned_abs dy ≤ 2 }
        ensures { result ≡ moved_by dx dy self }
    {
        let x = stepped(self.x, dx);
        let y = stepped(self.y, dy);
        Cell { y, x }
    }
}
