//! Computes a generation from one sorted list of cells, without a board.
//!
//! ```text
//! a pattern    how often each cell is listed     alive next, under Life
//!  . . . .               1 1 1 .                        . . . .
//!  . O . .               2 3 3 1                        . O O .
//!  . O O .               2 3 3 1                        . O O .
//!  . . . .               1 2 2 1                        . . . .
//! ```
//!
//! Each live cell lists the nine cells of its neighbourhood. When the list is sorted, equal cells are next to each
//! other. So the number of times that a cell is listed is the number of live cells in its neighbourhood:
//!
//! ```text
//! (0, 0)   (1, 0)   (2, 0)   (0, 1) (0, 1)   (1, 1) (1, 1) (1, 1)   (2, 1) (2, 1) (2, 1)   (3, 1)   ..
//! ```
//!
//! This number includes the cell itself if it is alive. So the four cells with a 3 are alive next under Life: one of
//! them is dead and has three live neighbours, and the other three are alive and have two live neighbours.
ghost use Rattle.std.specs.Prelude.{◌≡◌, false, true, flat_map, IfOk};
ghost use Rattle.std.specs.List.{list_all};
ghost use Rattle.plane_core.specs.plane.Cells.{near_plane, on_plane};
ghost use Rattle.plane_core.specs.plane.Generations.{neighbourhood, next, touches_edge};

use crate::plane::cell::Cell;
use crate::plane::pattern::Pattern;
use crate::plane::rule::Rule;
use memory::OutOfMemory;
use std::alloc::Global;

impl Pattern {
    /// Returns the next generation, computed from a list of cells. No cell may be on the edge of the plane.
    pub(crate) fn counted(&self, alloc: Global, rule: &Rule) -> Result<Pattern, OutOfMemory>
        requires { touches_edge self.now ≡ false }
        ensures { IfOk result (λ pattern. pattern ≡ next rule.now self.now) }
    {
        let mut near = neighbourhoods(alloc, self.cells())?;
        near.sort_unstable();
        // The cells that are alive next are moved to the beginning of `near`.
        let mut kept = 0;
        let mut count = 0;
        let end = near.len();
        for place in 0..end {
            count += 1;
            let cell = near[place];
            if place + 1 < end && near[place + 1] == cell {
                continue;
            }
            // If the cell is alive, `count` includes it, so it has `count` - 1 live neighbours. Whether it is alive is
            // looked up only if a live cell and a dead cell would have different fates.
            let stays = rule.survives(count - 1);
            let born = rule.births(count);
            let lives = if stays == born {
                born
            } else {
                self.has(cell.x, cell.y) == stays
            };
            if lives {
                near[kept] = cell;
                kept += 1;
            }
            count = 0;
        }
        near.truncate(kept);
        Ok(Pattern::from_ordered(near))
    }
}

/// Returns the nine cells of each cell's neighbourhood, one neighbourhood after another.
fn neighbourhoods(alloc: Global, cells: &[Cell]) -> Result<Vec<Cell>, OutOfMemory>
    requires { list_all on_plane cells.now ≡ true }
    ensures { IfOk result (λ near. near.items ≡ flat_map neighbourhood cells.now) }
{
    let mut near = Vec::new(alloc);
    for cell in cells {
        near.extend_from_slice(&neighbourhood(*cell))?;
    }
    Ok(near)
}

/// Returns the cell and the eight cells around it.
#[tactic(auto, using(crate::proofs::lemmas::plane::NeighbourhoodLemmas::nine_cells))]
fn neighbourhood(cell: Cell) -> [Cell; 9]
    requires { near_plane cell ≡ true }
    ensures { result ≡ neighbourhood cell }
{
    [
        cell.moved(-1, -1),
        cell.moved(0, -1),
        cell.moved(1, -1),
        cell.moved(-1, 0),
        cell,
        cell.moved(1, 0),
        cell.moved(-1, 1),
        cell.moved(0, 1),
        cell.moved(1, 1),
    ]
}
