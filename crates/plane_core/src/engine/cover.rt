//! Covers the boxes, and a margin of four columns and rows around each, with the inner parts of windows.
//!
//! First, boxes that are close together are united into rectangles, if that is cheaper. Then windows are laid side by
//! side over each rectangle, so that their inner parts leave no gap. The windows have as few rows as possible:
//!
//! ```text
//! +-------+-------+        The rectangle in the middle has 90 columns and 78 rows. Four inner parts of 56 columns
//! | +-----+-----+ |        and 40 rows cover it, two above and two below. They reach as far past its left side as
//! | |     |     | |        past its right side, and as far past its top as past its bottom.
//! +-------+-------+
//! | |     |     | |
//! | +-----+-----+ |
//! +-------+-------+
//! ```
ghost use Rattle.std.specs.Prelude.{◌≡◌, ◌+◌, ◌*◌, ◌/◌, ◌^◌, ◌<◌, ◌≤◌, ◌⊎◌, All};
ghost use Rattle.std.specs.Prelude.{OnOk, unsigned_abs};
ghost use Rattle.plane_core.specs.plane.Bounds.{IsWithin};
ghost use Rattle.plane_core.specs.engine.ActiveBoxes.{AreCovered, IsInOne, IsNearOne, box_bound, rectangle_bound};
ghost use Rattle.plane_core.specs.engine.Covers.{AreSideBySide, IsInRow};
ghost use Rattle.plane_core.specs.plane.Bounds.{AreSidesWithin};
ghost use Rattle.plane_core.specs.plane.Cells.{distance};
ghost use Rattle.plane_core.specs.engine.LeapWindows.{IsCovered, IsInnerCell};
ghost use Rattle.plane_core.specs.declared.plane.cell.Cell.{Cell};

use crate::engine::leap_window::LeapWindow;
use crate::plane::bounds::Bounds;
use crate::windows::geometry::{self, LEAST_ROWS, MOST_ROWS};
use memory::OutOfMemory;

/// The number of rectangles, counted from the end of the list, with which a box may be united.
const UNITED_AT_ONCE: usize = 16;

/// The number of columns and rows on each side of a window that may be wrong after four generations.
const MARGIN: i32 = geometry::MARGIN as i32;

/// The number of columns of a window that are correct after four generations.
const INNER_COLUMNS: u32 = geometry::INNER_COLUMNS as u32;

/// The number of columns from the first column of a window to that of the next window beside it.
const SPACING: i32 = INNER_COLUMNS as i32;

/// The largest number of rows of a window that are correct after four generations.
const MOST_INNER_ROWS: u32 = geometry::MOST_INNER_ROWS as u32;

/// The number of rows of a window that are above or below its inner rows.
const OUTER_ROWS: u32 = 2 * geometry::MARGIN as u32;

/// The most rows by which a union may cost more than its two rectangles.
const MOST_SLACK: u64 = 64;

/// Spans of equal length, side by side: where the first span begins, and how many spans there are.
#[derive(Clone, Copy)]
struct Spans {
    first: i32,
    count: u32,
}

/// Replaces the list `windows` by windows over the boxes, so that each cell within 4 of a box is in the inner part of a
/// window. `rectangles` is used only during the call.
pub(crate) fn cover(
    boxes: &[Bounds],
    rectangles: &mut Vec<Bounds>,
    windows: &mut Vec<LeapWindow>,
) -> Result<(), OutOfMemory>
    requires { All (AreSidesWithin box_bound) boxes.now }
    ensures { OnOk result (AreCovered windows.new.items boxes.now) }
{
    unite(boxes, rectangles)?;
    windows.clear();
    for rectangle in rectangles.as_slice() {
        lay(*rectangle, windows)?;
    }
    Ok(())
}

/// Replaces the list `rectangles` by rectangles around the boxes, with a margin of four columns and rows.
fn unite(boxes: &[Bounds], rectangles: &mut Vec<Bounds>) -> Result<(), OutOfMemory>
    requires { All (AreSidesWithin box_bound) boxes.now }
    ensures near { OnOk result ((c : Cell) → IsNearOne 4 boxes.now c → IsInOne rectangles.new.items c) }
    ensures sides { OnOk result (All (AreSidesWithin rectangle_bound) rectangles.new.items) }
{
    rectangles.clear();
    let slack = slack(boxes.len());
    for bounds in boxes {
        let with_margin = Bounds {
            left: bounds.left - MARGIN,
            top: bounds.top - MARGIN,
            right: bounds.right + MARGIN,
            bottom: bounds.bottom + MARGIN,
        };
        let rectangle = absorbed(rectangles, with_margin, slack);
        rectangles.push(rectangle)?;
    }
    Ok(())
}

/// Returns the rectangle, united with those of the last sixteen rectangles of the list for which [`pays`] is `true`.
/// These rectangles are removed from the list.
fn absorbed(rectangles: &mut Vec<Bounds>, rectangle: Bounds, slack: u64) -> Bounds
    requires all_sides { All (AreSidesWithin rectangle_bound) rectangles.old.items }
    requires sides { AreSidesWithin rectangle_bound rectangle }
    ensures held { (c : Cell) → IsWithin rectangle c ⊎ IsInOne rectangles.old.items c
        → IsWithin result c ⊎ IsInOne rectangles.new.items c }
    ensures all_sides { All (AreSidesWithin rectangle_bound) rectangles.new.items }
    ensures sides { AreSidesWithin rectangle_bound result }
{
    let mut i = rectangles.len();
    let earliest = i.saturating_sub(UNITED_AT_ONCE);
    let mut all = rectangle;
    while i > earliest {
        i -= 1;
        if !pays(rectangles[i], all, slack) {
            continue;
        }
        let other = rectangles.swap_remove(i);
        all = other.joined(all);
    }
    all
}

/// Returns how much more a union may cost than its two rectangles, in rows. The result grows with the number of boxes.
/// If there are many boxes, the pattern is dense. Rectangles that overlap without being united would then grow into
/// each other from leap to leap, and more and more windows would run the same cells.
fn slack(boxes: usize) -> u64 {
    (boxes as u64 / 8).saturating_mul(4).min(MOST_SLACK)
}

/// Checks whether the smallest rectangle that contains both costs at most as much as the two together, plus `slack`.
/// Usually the two are far apart: if a column or a row of windows fits between them, a union saves nothing, and the
/// result is `false`. All sides are on the plane or close to it, so no difference wraps around.
#[inline(always)]
fn pays(one: Bounds, other: Bounds, slack: u64) -> bool {
    let rows = MOST_INNER_ROWS as i32;
    other.left.wrapping_sub(one.right) <= SPACING
        && one.left.wrapping_sub(other.right) <= SPACING
        && other.top.wrapping_sub(one.bottom) <= rows
        && one.top.wrapping_sub(other.bottom) <= rows
        && cost_of(one.joined(other))
            <= cost_of(one)
                .saturating_add(cost_of(other))
                .saturating_add(slack)
}

/// Returns the approximate cost, in rows, of running the windows that cover the rectangle. A window has about 12 rows
/// more than it covers, and a fixed cost that equals the cost of 8 rows. No branch depends on the rectangle. The
/// product is far below 2^64, so it doesn't wrap around.
#[inline(always)]
fn cost_of(rectangle: Bounds) -> u64 {
    let across = rectangle.left.abs_diff(rectangle.right) / INNER_COLUMNS + 1;
    let length = rectangle.top.abs_diff(rectangle.bottom);
    let down = length / MOST_INNER_ROWS + 1;
    u64::from(across).wrapping_mul(u64::from(length) + 20 * u64::from(down))
}

/// Returns the number of rows of each window, if windows cover `length + 1` rows of cells. There are as few windows as
/// possible, each with as few rows as possible: a multiple of four, from 20 to 56.
#[inline(always)]
fn window_rows(length: u32) -> u32
    ensures enough { length < 48 → length + 9 ≤ result }
    ensures some { 8 < result }
    ensures few { result ≤ 64 }
{
    // Usually one window is high enough, and a division would take longer than the other steps together.
    let inner = if length < MOST_INNER_ROWS {
        length + 1
    } else {
        length / (length / MOST_INNER_ROWS + 1) + 1
    };
    (inner.saturating_add(OUTER_ROWS + 3) / 4 * 4)
        .max(LEAST_ROWS as u32)
        .min(MOST_ROWS as u32)
}

/// Lays windows over a rectangle. Usually one window is enough.
#[inline(always)]
fn lay(rectangle: Bounds, windows: &mut Vec<LeapWindow>) -> Result<(), OutOfMemory>
    requires { AreSidesWithin rectangle_bound rectangle }
    ensures kept { OnOk result ((c : Cell) → IsCovered windows.old.items c → IsCovered windows.new.items c) }
    ensures laid { OnOk result ((c : Cell) → IsWithin rectangle c → IsCovered windows.new.items c) }
{
    let across = rectangle.left.abs_diff(rectangle.right);
    let down = rectangle.top.abs_diff(rectangle.bottom);
    if across >= INNER_COLUMNS || down >= MOST_INNER_ROWS {
        return lay_rows(rectangle, windows);
    }
    windows.push(one_window(rectangle, across, down))?;
    Ok(())
}

/// Returns a window with a rectangle of `across + 1` columns and `down + 1` rows in its middle. The window may reach
/// one column further past the rectangle on the right than on the left, and one row further below than above.
#[inline(always)]
fn one_window(rectangle: Bounds, across: u32, down: u32) -> LeapWindow
    requires sides { AreSidesWithin rectangle_bound rectangle }
    requires columns { across ≡ distance rectangle.left rectangle.right }
    requires rows { down ≡ distance rectangle.top rectangle.bottom }
    requires few_columns { across < 56 }
    requires few_rows { down < 48 }
    ensures { (c : Cell) → IsWithin rectangle c → IsInnerCell result c }
{
    let rows = window_rows(down);
    LeapWindow {
        left: rectangle.left - MARGIN - ((INNER_COLUMNS - 1 - across) / 2) as i32,
        top: rectangle.top - MARGIN - ((rows - OUTER_ROWS - 1 - down) / 2) as i32,
        rows: rows as usize,
    }
}

/// Lays windows over a rectangle, row by row.
#[inline(always)]
fn lay_rows(rectangle: Bounds, windows: &mut Vec<LeapWindow>) -> Result<(), OutOfMemory>
    requires { AreSidesWithin rectangle_bound rectangle }
    ensures kept { OnOk result ((c : Cell) → IsCovered windows.old.items c → IsCovered windows.new.items c) }
    ensures laid { OnOk result ((c : Cell) → IsWithin rectangle c → IsCovered windows.new.items c) }
{
    let across = side_by_side(rectangle.left, rectangle.right, INNER_COLUMNS);
    let rows = window_rows(rectangle.top.abs_diff(rectangle.bottom));
    let inner = rows - OUTER_ROWS;
    let down = side_by_side(rectangle.top, rectangle.bottom, inner);
    let length = down.first.abs_diff(rectangle.bottom);
    let mut laid = 0;
    while laid <= length {
        lay_row(across, down.first + laid as i32, rows as usize, windows)?;
        laid += inner;
    }
    Ok(())
}

/// Lays windows side by side. Their inner parts begin in row `top`.
fn lay_row(
    across: Spans,
    top: i32,
    rows: usize,
    windows: &mut Vec<LeapWindow>,
) -> Result<(), OutOfMemory>
    requires top { unsigned_abs top ≤ 2 ^ 26 }
    requires first { unsigned_abs across.first ≤ 2 ^ 26 }
    requires count { across.count ≤ 2 ^ 20 }
    ensures kept { OnOk result ((c : Cell) → IsCovered windows.old.items c → IsCovered windows.new.items c) }
    ensures laid { OnOk result ((c : Cell) → IsInRow across top rows c → IsCovered windows.new.items c) }
{
    for i in 0..across.count {
        let column = across.first + SPACING * i as i32;
        windows.push(LeapWindow {
            left: column - MARGIN,
            top: top - MARGIN,
            rows,
        })?;
    }
    Ok(())
}

/// Returns spans of `size` numbers each, side by side, that cover the numbers from `first` to `last`. They reach as far
/// past one end as past the other, or one number further past `last`.
#[inline(always)]
fn side_by_side(first: i32, last: i32, size: u32) -> Spans
    requires first { unsigned_abs first ≤ rectangle_bound }
    requires last { unsigned_abs last ≤ rectangle_bound }
    requires some { 1 ≤ size }
    requires size { size ≤ 64 }
    ensures { AreSideBySide first last size result }
{
    let length = first.abs_diff(last);
    let count = spans_needed(length, size);
    let beside = count * size - length - 1;
    Spans {
        first: first - (beside / 2) as i32,
        count,
    }
}

/// Returns how many spans of `size` numbers cover `length + 1` numbers.
#[inline(always)]
#[tactic(auto, using(crate::proofs::lemmas::engine::CoverLemmas::one_is_enough))]
fn spans_needed(length: u32, size: u32) -> u32
    requires length { length ≤ 2 ^ 26 }
    requires size { 1 ≤ size }
    ensures { result ≡ length / size + 1 }
{
    // Usually one span is enough, and a division would take longer than all the rest.
    if length < size {
        return 1;
    }
    length / size + 1
}
