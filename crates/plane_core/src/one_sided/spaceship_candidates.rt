//! Candidates for spaceships: clusters of a few cells that change.
//!
//! In the view of a box, the live cells that are dead two generations later are found, and their clusters are grown,
//! one after another:
//!
//! ```text
//! . . . . . . . . . .      . . . . . . . . . .
//! . . O . . . . O . .      . . x . . . . . . .     Two cells are found. The cluster of the first has five cells. The
//! . . . O . . . O . .      . . . . . . . . . .     second cell is one of them, so no cluster is grown from it. The
//! . O O O . . . O . .      . . x . . . . . . .     blinker has no cell that differs two generations later.
//! . . . . . . . . . .      . . . . . . . . . .
//! ```
//!
//! A lone spaceship has a small box, so only small boxes are examined, and only those that are ahead of all other boxes
//! in some diagonal direction.
ghost use Rattle.std.specs.Prelude.{All, IfOk, List, OnOk};
ghost use Rattle.plane_core.specs.plane.Cells.{InOrder};
ghost use Rattle.plane_core.specs.clusters.Clusters.{IsCluster};
ghost use Rattle.plane_core.specs.windows.Rows.{ShowsInRows};
ghost use Rattle.plane_core.specs.engine.Frames.{IsViewFrame};
ghost use Rattle.plane_core.specs.declared.plane.cell.Cell.{Cell};

use crate::engine::board::Board;
use crate::engine::board::view::longer_side;
use crate::engine::frame::Frame;
use crate::engine::lone_window::pattern_of;
use crate::one_sided::active_cells::{changing_cells, first_cell};
use crate::one_sided::flood::flood;
use crate::plane::bounds::Bounds;
use crate::plane::pattern::Pattern;
use memory::OutOfMemory;
use std::alloc::Global;

/// The most boxes that are examined.
const BOXES: u32 = 32;

/// The most columns and rows of a spaceship's active box. A heavyweight spaceship needs nine. A spaceship that has just
/// left a larger group shares the group's box, and soon gets a box of its own.
const SPACESHIP: u32 = 10;

/// The most clusters that are grown for each box.
const FLOODS: u32 = 8;

/// The most cells of a candidate. A heavyweight spaceship has up to 18.
const MOST: u32 = 20;

impl Board {
    /// Returns some clusters of the pattern that change, each with a few cells. It isn't specified which clusters these
    /// are.
    ///
    /// # Errors
    ///
    /// `OutOfMemory` if memory runs out.
    pub fn small_clusters(&self, alloc: Global) -> Result<Vec<Pattern>, OutOfMemory>
        ensures { IfOk result (λ clusters. All (IsCluster self.now.cells) clusters.items) }
    {
        let boxes = self.active_boxes();
        let mut clusters = Vec::new(alloc);
        let mut tries = BOXES;
        for bounds in boxes {
            if tries == 0 {
                break;
            }
            // What changes in a small box is usually a spaceship. Larger boxes are skipped.
            if longer_side(*bounds) >= SPACESHIP || !leads_somewhere(boxes, *bounds) {
                continue;
            }
            tries -= 1;
            let Some(view) = self.view(*bounds) else {
                continue;
            };
            let mut changing = changing_cells(&view.rows, self.logic());
            add_grown(alloc, view.at, &view.rows, &mut changing, &mut clusters)?;
        }
        Ok(clusters)
    }
}

/// Checks whether the box is ahead of all others in some diagonal direction. If it isn't, no cluster in the box can be
/// ahead of the rest of the pattern until other clusters have been removed.
fn leads_somewhere(boxes: &[Bounds], bounds: Bounds) -> bool {
    let mut right_down = true;
    let mut right_up = true;
    let mut left_down = true;
    let mut left_up = true;
    for other in boxes {
        // How far the box is to the right of the other one, to its left, below it and above it. If such a number isn't
        // positive, the box isn't on that side.
        let right = bounds.left.saturating_sub(other.right);
        let left = other.left.saturating_sub(bounds.right);
        let down = bounds.top.saturating_sub(other.bottom);
        let up = other.top.saturating_sub(bounds.bottom);
        // Boxes that touch the box don't count, because a spaceship may have boxes from more than one window.
        if right.max(left).max(down).max(up) <= 1 {
            continue;
        }
        right_down &= right.saturating_add(down) > 0;
        right_up &= right.saturating_add(up) > 0;
        left_down &= left.saturating_add(down) > 0;
        left_up &= left.saturating_add(up) > 0;
        if !(right_down | right_up | left_down | left_up) {
            return false;
        }
    }
    true
}

/// Grows clusters from the changing cells of a view, and appends the small clusters that aren't in the list yet. A
/// cluster may be in the list already, because two boxes may be near each other. The cells of each cluster that is
/// grown are removed from `changing`.
fn add_grown(
    alloc: Global,
    at: Frame,
    rows: &[u64; 64],
    changing: &mut [u64; 64],
    clusters: &mut Vec<Pattern>,
) -> Result<(), OutOfMemory>
    requires { IsViewFrame at }
    ensures { OnOk result ((cells : List Cell) → InOrder cells → ShowsInRows at.left at.top rows.now cells
        → All (IsCluster cells) clusters.old.items → All (IsCluster cells) clusters.new.items) }
{
    for _ in 0..FLOODS {
        let Some(spot) = first_cell(changing) else {
            return Ok(());
        };
        let mut cluster = [0; 64];
        let whole = flood(rows, &mut cluster, spot.row, spot.column);
        let population = strike_out(changing, &cluster);
        if !whole || population > MOST {
            continue;
        }
        let pattern = pattern_of(alloc, at, &cluster)?;
        if has(clusters.as_slice(), &pattern) {
            continue;
        }
        clusters.push(pattern)?;
    }
    Ok(())
}

/// Removes the cells of the cluster from `cells`. Returns the population of the cluster.
fn strike_out(cells: &mut [u64; 64], cluster: &[u64; 64]) -> u32 {
    let mut count = 0u32;
    for row in 0..64 {
        cells[row] &= !cluster[row];
        // The count is at most 4,096, so nothing wraps around.
        count = count.wrapping_add(cluster[row].count_ones());
    }
    count
}

/// Checks whether the cluster is in the list.
fn has(clusters: &[Pattern], cluster: &Pattern) -> bool {
    for other in clusters {
        if other.cells() == cluster.cells() {
            return true;
        }
    }
    false
}
