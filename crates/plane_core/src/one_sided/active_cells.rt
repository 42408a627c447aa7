//! The live cells in the middle of a window that are dead two generations later. A part with period 1 or 2 has no such
//! cells:
//!
//! ```text
//! . . . . . . . .      . . . . . . . .
//! . O O . . . O .      . . . . . . 1 .      Two cells of the glider are dead two generations later. The cells of the
//! . O O . . . . O      . . . . . . . .      block are alive.
//! . . . . . O O O      . . . . . . 1 .
//! ```
use crate::one_sided::crop::{crop, uncrop};
use crate::windows::geometry::INNER_COLUMN_MASK;
use crate::windows::rule_logic::RuleLogic;
use crate::windows::window::generations;
use std::simd::u64x4;

/// The columns in the middle of a window. In each row, a changing cell is looked for in these columns first.
const MIDDLE: u64 = 0x0000_0fff_fff0_0000;

/// A row and a column of a window.
#[derive(Clone, Copy)]
pub(crate) struct Spot {
    pub(crate) row: usize,
    pub(crate) column: u32,
}

/// Returns the live cells in columns 4 to 59 of rows 16 to 47 that are dead two generations later. In the first two and
/// in the last two of these rows, the result may be wrong. This does no harm, because the cells are only places to grow
/// a cluster from.
pub(crate) fn changing_cells(rows: &[u64; 64], rule: &RuleLogic) -> [u64; 64] {
    let window: [u64x4; 8] = crop::<32, 8>(rows, 16);
    let mut cells = window;
    generations(&mut cells, rule, 2);
    for k in 0..8 {
        // The cells that are alive and differ two generations later.
        cells[k] = window[k] & (window[k] ^ cells[k]) & u64x4::splat(INNER_COLUMN_MASK);
    }
    uncrop::<32, 8>(&cells, 16)
}

/// Returns a cell whose bit is 1 in rows 18 to 45, or `None` if there is no such cell. The rows in the middle come
/// first.
pub(crate) fn first_cell(rows: &[u64; 64]) -> Option<Spot> {
    for d in 0..14 {
        if rows[31 - d] != 0 {
            return Some(spot_in(31 - d, rows[31 - d]));
        }
        if rows[32 + d] != 0 {
            return Some(spot_in(32 + d, rows[32 + d]));
        }
    }
    None
}

/// Returns the leftmost cell of a row, among the cells in the middle columns if there are any. `cells` isn't 0.
fn spot_in(row: usize, cells: u64) -> Spot {
    let middle = cells & MIDDLE;
    let found = if middle == 0 { cells } else { middle };
    Spot {
        row,
        column: found.trailing_zeros(),
    }
}
