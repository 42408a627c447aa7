//! Boxes of cells, and the smallest box around a pattern:
//!
//! ```text
//! +-----+
//! |..O..|
//! |O...O|      Each side of the smallest box touches a live cell.
//! |.OO..|
//! +-----+
//! ```
ghost use Rattle.std.specs.Prelude.{◌≡◌, ◌↔◌, [], ℕ, IsNone, IfSome};
ghost use Rattle.plane_core.specs.plane.Bounds.{IsRoundBoth, AreSidesWithin, IsLeastBox, IsWithin, box_at, box_of, grown, widened};
ghost use Rattle.plane_core.specs.declared.plane.cell.Cell.{Cell};

use crate::plane::cell::Cell;
use crate::plane::pattern::Pattern;

/// A box of cells: the columns `left` to `right` and the rows `top` to `bottom`, both ends included.
#[derive(Clone, Copy, Debug, PartialEq, Eq)]
pub struct Bounds {
    pub left: i32,
    pub top: i32,
    pub right: i32,
    pub bottom: i32,
}

impl Pattern {
    /// Returns the smallest box around the pattern, or `None` for the empty pattern.
    pub fn bounds(&self) -> Option<Bounds>
        ensures bounds { result ≡ box_of self.now }
        ensures none { IsNone result ↔ (self.now ≡ []) }
        ensures least { IfSome result (IsLeastBox self.now) }
    {
        let mut bounds = None;
        for cell in self.cells() {
            bounds = Some(grown(bounds, *cell));
        }
        bounds
    }
}

impl Bounds {
    /// Returns the box of one cell.
    pub(crate) fn at(cell: Cell) -> Bounds
        ensures { result ≡ box_at cell }
    {
        Bounds {
            left: cell.x,
            top: cell.y,
            right: cell.x,
            bottom: cell.y,
        }
    }

    /// Returns the smallest box that contains this box and the cell.
    pub(crate) fn widened(self, cell: Cell) -> Bounds
        ensures { result ≡ widened cell self }
    {
        Bounds {
            left: cell.x.min(self.left),
            top: cell.y.min(self.top),
            right: cell.x.max(self.right),
            bottom: cell.y.max(self.bottom),
        }
    }

    /// Returns the smallest box that contains both boxes.
    #[inline(always)]
    pub fn joined(self, other: Bounds) -> Bounds
        ensures least { IsRoundBoth self other result }
        ensures one { (c : Cell) → IsWithin self c → IsWithin result c }
        ensures other { (c : Cell) → IsWithin other c → IsWithin result c }
        ensures sides { (n : ℕ) → AreSidesWithin n self → AreSidesWithin n other → AreSidesWithin n result }
    {
        Bounds {
            left: self.left.min(other.left),
            top: self.top.min(other.top),
            right: self.right.max(other.right),
            bottom: self.bottom.max(other.bottom),
        }
    }
}

/// Returns the smallest box that contains `bounds` and the cell, or the box of the cell if `bounds` is `None`.
pub(crate) fn grown(bounds: Option<Bounds>, cell: Cell) -> Bounds
    ensures { result ≡ grown cell bounds }
{
    match bounds {
        None => Bounds::at(cell),
        Some(bounds) => bounds.widened(cell),
    }
}
