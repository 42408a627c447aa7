//! Active boxes: each cell of a board that differs two generations later is in a box, or within 2 of a box.
//!
//! When a board is loaded, there is a box for each group of cells that are close together. After a leap of two or four
//! generations, there is a box for each window in which a cell differs from its state two generations earlier. So a
//! part of the pattern with period 1 or 2 costs nothing:
//!
//! ```text
//! +-----+
//! |.XX. |      .XX.       The cells of the glider change, and have a box. The block doesn't, and has none.
//! |X.X. |      .XX.       Each cell that is not within 2 of a box is the same two generations later.
//! |..X. |
//! +-----+
//! ```
ghost use Rattle.std.specs.Prelude.{◌≡◌, ℕ, true, All, OnOk};
ghost use Rattle.plane_core.specs.plane.Bounds.{IsWithin};
ghost use Rattle.plane_core.specs.engine.ActiveBoxes.{AreWider, HoldAll, IsInOne};
ghost use Rattle.plane_core.specs.plane.Generations.{lies_within};
ghost use Rattle.plane_core.specs.plane.Bounds.{AreSidesWithin};
ghost use Rattle.plane_core.specs.declared.plane.cell.Cell.{Cell};

use crate::plane::bounds::Bounds;
use crate::plane::cell::Cell;
use memory::OutOfMemory;

/// The number of boxes, counted from the end of the list, that are tried before a part gets a box of its own.
const LAST_BOXES: usize = 16;

/// Widens boxes of the list, and adds new boxes, so that the boxes contain these cells too. If memory runs out, the
/// boxes contain at least what they contained before.
pub(crate) fn put_in_boxes(cells: &[Cell], boxes: &mut Vec<Bounds>) -> Result<(), OutOfMemory>
    ensures wider { AreWider boxes.old.items boxes.new.items }
    ensures held { OnOk result (HoldAll boxes.new.items cells.now) }
    ensures sides { (n : ℕ) → lies_within n cells.now ≡ true → All (AreSidesWithin n) boxes.old.items
        → All (AreSidesWithin n) boxes.new.items }
{
    for cell in cells {
        put_in_box(Bounds::at(*cell), boxes)?;
    }
    Ok(())
}

/// Puts a part of a pattern, which is given by its bounds, into a box. The last sixteen boxes are tried, beginning with
/// the last. The first one that is found near the part is widened so that it contains the part. If no box is near, the
/// part becomes a new box. If memory runs out, the boxes contain at least what they contained before.
pub(crate) fn put_in_box(part: Bounds, boxes: &mut Vec<Bounds>) -> Result<(), OutOfMemory>
    ensures wider { AreWider boxes.old.items boxes.new.items }
    ensures held { OnOk result ((c : Cell) → IsWithin part c → IsInOne boxes.new.items c) }
    ensures sides { (n : ℕ) → AreSidesWithin n part → All (AreSidesWithin n) boxes.old.items
        → All (AreSidesWithin n) boxes.new.items }
{
    // Usually the last box is near.
    let mut i = boxes.len();
    let earliest = i.saturating_sub(LAST_BOXES);
    while i > earliest {
        i -= 1;
        if is_near(boxes[i], part) {
            let wide = boxes[i].joined(part);
            boxes[i] = wide;
            return Ok(());
        }
    }
    boxes.push(part)?;
    Ok(())
}

/// Checks whether the part is at most eight columns and rows from the box, and both together fit one window. All sides
/// are on the plane or close to it, so no difference wraps around.
#[inline(always)]
fn is_near(bounds: Bounds, part: Bounds) -> bool {
    part.left.wrapping_sub(bounds.right) <= 8
        && bounds.left.wrapping_sub(part.right) <= 8
        && part.top.wrapping_sub(bounds.bottom) <= 8
        && bounds.top.wrapping_sub(part.bottom) <= 8
        && fit_window(bounds.joined(part))
}

/// Checks whether the box, with a margin of four columns and rows, fits the inner part of a window of 40 rows.
#[inline(always)]
fn fit_window(bounds: Bounds) -> bool {
    bounds.left.abs_diff(bounds.right) < 48 && bounds.top.abs_diff(bounds.bottom) < 24
}
