//! A window that contains only a small pattern. The next generation of the pattern is computed in the window:
//!
//! ```text
//!  cells             window               cells
//! (3, 1)         . . . . . . .           (2, 2)
//! (3, 2)    ->   . . . O . . .     ->    (3, 2)
//! (3, 3)         . . . O . . .           (4, 2)
//!                . . . O . . .
//! ```
ghost use Rattle.std.specs.Prelude.{◌≡◌, IfOk, IfSome, true};
ghost use Rattle.plane_core.specs.plane.Bounds.{AreSidesWithin};
ghost use Rattle.plane_core.specs.plane.Cells.{InOrder, has, plane_bound};
ghost use Rattle.plane_core.specs.engine.Frames.{IsFrame, bounds_of};
ghost use Rattle.plane_core.specs.plane.Generations.{next};
ghost use Rattle.plane_core.specs.engine.OnBoard.{cells_on};
ghost use Rattle.plane_core.specs.engine.LoneWindows.{IsInland};
ghost use Rattle.plane_core.specs.windows.LonePatterns.{FillsRows, Holds, IsInWindow};
ghost use Rattle.plane_core.specs.declared.plane.cell.Cell.{Cell};

use crate::engine::frame::{Frame, farthest};
use crate::engine::listing::list;
use crate::engine::row_spans::RowSpan;
use crate::plane::cell::Cell;
use crate::plane::coordinate::{apart, back};
use crate::plane::pattern::Pattern;
use crate::plane::rule::Rule;
use crate::windows::row_packing::{packed, unpacked};
use crate::windows::rule_logic::RuleLogic;
use crate::windows::window::generation;
use crate::windows::window_queries::{columns_of, is_rim_clear};
use memory::OutOfMemory;
use std::alloc::Global;
use std::simd::u64x4;

/// The largest distance from the origin that a side of a pattern's box may have: far from the edge of the plane.
const INLAND: u32 = 900_000;

/// The number of cells for which the list of a window's pattern has room from the start.
const ROOM: usize = 20;

/// The first column and row of a window.
#[derive(Clone, Copy)]
pub(crate) struct WindowOrigin {
    pub(crate) left: i32,
    pub(crate) top: i32,
}

/// Returns the next generation of a pattern, or `None` if the pattern is empty, too large for a window, or too far from
/// the origin.
pub(crate) fn next_in_window(
    alloc: Global,
    rule: &Rule,
    pattern: &Pattern,
) -> Result<Option<Pattern>, OutOfMemory>
    ensures { IfOk result (λ made. IfSome made (λ later. later ≡ next rule.now pattern.now)) }
{
    let Some(origin) = origin_round(pattern) else {
        return Ok(None);
    };
    let mut window = window_of(origin, pattern.cells());
    if !is_rim_clear(&window, columns_of(&window)) {
        return Ok(None);
    }
    generation(&mut window, &RuleLogic::new(rule));
    // The window as a board of one word column.
    let at = Frame {
        left: origin.left,
        top: origin.top,
        word_columns: 1,
        rows: 64,
    };
    let later = pattern_of(alloc, at, &unpacked(&window))?;
    Ok(Some(later))
}

/// Returns the pattern that the rows of a window show. `at` is the window as a board of one word column.
pub(crate) fn pattern_of(alloc: Global, at: Frame, rows: &[u64; 64]) -> Result<Pattern, OutOfMemory>
    requires frame { IsFrame at }
    requires plane { AreSidesWithin plane_bound (bounds_of at) }
    requires word_columns { at.word_columns ≡ 1 }
    requires rows { at.rows ≡ 64 }
    ensures { IfOk result (λ pattern. pattern ≡ cells_on at rows.now) }
{
    let spans = [RowSpan { from: 0, end: 64 }];
    list(alloc, at, rows, &spans, ROOM)
}

/// Returns the origin of a window that has the pattern in its middle, far from the edge of the plane. Returns `None` if
/// the pattern is empty, larger than 62 by 62 cells, or too far from the origin of the plane.
pub(crate) fn origin_round(pattern: &Pattern) -> Option<WindowOrigin>
    ensures inland { IfSome result IsInland }
    ensures inside { IfSome result
        (λ origin. (c : Cell) → has pattern.now c ≡ true → IsInWindow 16 origin.left origin.top c) }
{
    let Some(bounds) = pattern.bounds() else {
        return None;
    };
    if farthest(bounds) > INLAND {
        return None;
    }
    let width = apart(bounds.left, bounds.right);
    let height = apart(bounds.top, bounds.bottom);
    if width > 61 || height > 61 {
        return None;
    }
    Some(WindowOrigin {
        left: back(bounds.left, (63 - width) / 2),
        top: back(bounds.top, (63 - height) / 2),
    })
}

/// Returns the window at this origin that shows these cells.
pub(crate) fn window_of(origin: WindowOrigin, cells: &[Cell]) -> [u64x4; 16]
    requires order { InOrder cells.now }
    requires inside { (c : Cell) → has cells.now c ≡ true → IsInWindow 16 origin.left origin.top c }
    ensures { Holds 16 origin.left origin.top result cells.now }
{
    packed(&rows_of(origin, cells))
}

/// Returns the rows of the window at this origin that shows these cells.
pub(crate) fn rows_of(origin: WindowOrigin, cells: &[Cell]) -> [u64; 64]
    requires order { InOrder cells.now }
    requires inside { (c : Cell) → has cells.now c ≡ true → IsInWindow 16 origin.left origin.top c }
    ensures { FillsRows origin.left origin.top result cells.now }
{
    let mut rows = [0; 64];
    for cell in cells {
        let across = (cell.x - origin.left) as usize;
        let down = (cell.y - origin.top) as usize;
        rows[down] |= 1 << across;
    }
    rows
}
