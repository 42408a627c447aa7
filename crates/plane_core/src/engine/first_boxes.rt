//! The first boxes of a board, which contain all cells of a pattern. Cells that are close together in a row form a run,
//! which is put in a box as a whole, because a dense pattern has many more cells than runs:
//!
//! ```text
//! +-------------+
//! | OOO.O.OO... |      Three rows, and a run in each. A run is put in the box of the runs above it, if
//! | .O.OO.OOOO. |      the run is near the box and the box stays small enough for one window.
//! | ..OO..O.O.. |
//! +-------------+
//! ```
ghost use Rattle.std.specs.Prelude.{◌≡◌, ℕ, true, All, OnOk};
ghost use Rattle.plane_core.specs.plane.Bounds.{AreSidesWithin};
ghost use Rattle.plane_core.specs.engine.ActiveBoxes.{HoldAll};
ghost use Rattle.plane_core.specs.plane.Generations.{lies_within};
ghost use Rattle.plane_core.specs.declared.plane.cell.Cell.{Cell};

use crate::engine::active_boxes::put_in_box;
use crate::plane::bounds::Bounds;
use crate::plane::cell::Cell;
use memory::OutOfMemory;

/// The most columns from one cell of a run to the next.
const GAP: u32 = 8;

/// The most columns of a run. With a margin of four columns on each side, the run fits the inner part of a window.
const LENGTH: u32 = 48;

/// Replaces the list `boxes` by boxes that contain all cells, one box for each group of cells that are close together.
/// With a margin of four columns and rows, each box fits the inner part of a window. So a trail across the plane gets
/// several boxes along it instead of one large box.
pub(crate) fn boxes_round(cells: &[Cell], boxes: &mut Vec<Bounds>) -> Result<(), OutOfMemory>
    ensures held { OnOk result (HoldAll boxes.new.items cells.now) }
    ensures sides { (n : ℕ) → lies_within n cells.now ≡ true → All (AreSidesWithin n) boxes.new.items }
{
    boxes.clear();
    let Some(first) = cells.first() else {
        return Ok(());
    };
    let mut run = Bounds::at(*first);
    for cell in cells {
        if is_at_end(run, *cell) {
            run = run.widened(*cell);
            continue;
        }
        put_in_box(run, boxes)?;
        run = Bounds::at(*cell);
    }
    put_in_box(run, boxes)
}

/// Checks whether the cell is in the row of the run and near the run's end, and the run with the cell is short enough.
#[inline(always)]
fn is_at_end(run: Bounds, cell: Cell) -> bool {
    cell.y == run.top && cell.x.abs_diff(run.right) <= GAP && cell.x.abs_diff(run.left) < LENGTH
}
