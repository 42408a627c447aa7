//! The images of a pattern in the eight orientations, as rows of bits. The pattern's box has at most 40 columns and 40
//! rows. The place of a cell's image follows from the cell's distances from the sides of this box, so no list of the
//! image's cells is made:
//!
//! ```text
//! pattern      distances of one cell from       its image
//!              the sides of the box             in `Quarter`
//! . O .
//! . . O <--    left 2, right 0                  O . .
//! O O O        top 1, bottom 1                  O . O
//!                                               O O .  <-- column 1 (bottom), row 2 (left)
//! ```
//!
//! In each orientation, two of the four distances are the column and the row of the cell's image.
ghost use Rattle.std.specs.Prelude.{◌≡◌, ◌<◌, Some, pos};
ghost use Rattle.plane_core.specs.plane.Bounds.{box_of};
ghost use Rattle.plane_core.specs.plane.Cells.{cell_at, distance};
ghost use Rattle.plane_core.specs.plane.Orientations.{turned};
ghost use Rattle.plane_core.specs.windows.Rows.{ShowsInAllRows};
ghost use Rattle.code_core.specs.Images.{image_box, image_cell};

use crate::wechsler::{CODE_SIDE_LIMIT, last_column, last_row};
use plane_core::plane::bounds::Bounds;
use plane_core::plane::cell::Cell;
use plane_core::plane::orientation::Orientation;

/// Returns the rows of a pattern's image in an orientation, moved to the corner (0, 0). Bit i of a row is the cell in
/// column i. `bounds` is the box of the pattern.
pub(crate) fn image_rows(cells: &[Cell], bounds: Bounds, orientation: Orientation) -> [u64; 64]
    requires bounds { box_of cells.now ≡ Some bounds }
    requires width { distance bounds.left bounds.right < CODE_SIDE_LIMIT }
    requires height { distance bounds.top bounds.bottom < CODE_SIDE_LIMIT }
    ensures { ShowsInAllRows (pos 0) (pos 0) result (turned orientation cells.now) }
{
    let mut rows = [0; 64];
    for cell in cells {
        let place = place_in_image(*cell, bounds, orientation);
        let row = place.row as usize;
        rows[row] |= 1 << place.column;
    }
    rows
}

/// Returns the box of a pattern's image in an orientation, moved to the corner (0, 0). `bounds` is the box of the
/// pattern.
pub(crate) fn image_box(bounds: Bounds, orientation: Orientation) -> Bounds
    requires width { distance bounds.left bounds.right < CODE_SIDE_LIMIT }
    requires height { distance bounds.top bounds.bottom < CODE_SIDE_LIMIT }
    ensures { result ≡ image_box orientation bounds }
{
    let across = last_column(bounds) as i32;
    let down = last_row(bounds) as i32;
    match orientation {
        Orientation::Same | Orientation::Half | Orientation::Mirror | Orientation::Flip => {
            box_to(across, down)
        }
        Orientation::Quarter
        | Orientation::ThreeQuarter
        | Orientation::Diagonal
        | Orientation::AntiDiagonal => box_to(down, across),
    }
}

/// Returns the box from (0, 0) to column `right` and row `bottom`.
fn box_to(right: i32, bottom: i32) -> Bounds
    ensures { result ≡ record { left = pos 0; top = pos 0; right = right; bottom = bottom } }
{
    Bounds {
        left: 0,
        top: 0,
        right,
        bottom,
    }
}

/// A place in an image: its column and its row, counted from 0.
#[derive(Clone, Copy)]
struct Place {
    column: u32,
    row: u32,
}

/// Returns where a cell of a pattern is in the pattern's image. `bounds` is the box of the pattern.
#[inline(always)]
fn place_in_image(cell: Cell, bounds: Bounds, orientation: Orientation) -> Place
    ensures { cell_at (pos result.column) (pos result.row) ≡ image_cell orientation bounds cell }
{
    let left = bounds.left.abs_diff(cell.x);
    let right = cell.x.abs_diff(bounds.right);
    let top = bounds.top.abs_diff(cell.y);
    let bottom = cell.y.abs_diff(bounds.bottom);
    match orientation {
        Orientation::Same => in_column_and_row(left, top),
        Orientation::Quarter => in_column_and_row(bottom, left),
        Orientation::Half => in_column_and_row(right, bottom),
        Orientation::ThreeQuarter => in_column_and_row(top, right),
        Orientation::Mirror => in_column_and_row(right, top),
        Orientation::Flip => in_column_and_row(left, bottom),
        Orientation::Diagonal => in_column_and_row(top, left),
        Orientation::AntiDiagonal => in_column_and_row(bottom, right),
    }
}

/// Returns the place in this column and row.
#[inline(always)]
fn in_column_and_row(column: u32, row: u32) -> Place
    ensures column { result.column ≡ column }
    ensures row { result.row ≡ row }
{
    Place { column, row }
}
