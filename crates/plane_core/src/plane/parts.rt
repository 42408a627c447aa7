//! Finds where a pattern can be cut into two parts, each of which can be run by itself. The parts are so far apart that
//! they don't meet in the generations of the run.
//!
//! Cells are listed row by row, so a cut between two rows is a place in the list where a cell is far enough below the
//! cell before it. If there is no such place, columns and rows are exchanged, and the pattern is cut between two of its
//! columns. Each part is cut again. So a spaceship that is far from the rest of a pattern is run by itself.
ghost use Rattle.std.specs.Prelude.{◌<◌, IfSome, OnSome};
ghost use Rattle.plane_core.specs.plane.Parts.{IsCut};

use crate::plane::pattern::Pattern;

impl Pattern {
    /// Returns the number of cells above a cut, or `None` if there is no cut or `cuts` is 0. `cuts` is the number of
    /// cuts that may still be nested in one another, including this one. A cut is between two successive cells whose
    /// rows are more than `far` apart. The first cut at or after the middle of the list is chosen, or the last cut if
    /// all cuts are before the middle.
    pub(crate) fn cut(&self, far: u32, cuts: u32) -> Option<usize>
        ensures cut { IfSome result (IsCut far self.now) }
        ensures cuts { OnSome result (0 < cuts) }
    {
        if cuts == 0 {
            return None;
        }
        let cells = self.cells();
        let mut cut = None;
        for i in 1..cells.len() {
            if cells[i].y.abs_diff(cells[i - 1].y) > far {
                cut = Some(i);
                if i >= cells.len() / 2 {
                    return cut;
                }
            }
        }
        cut
    }

    /// Checks whether the pattern should be turned, so that it can be cut between two columns that are more than `far`
    /// apart. Turning costs time, since the cells have to be sorted again. The result is `false` only if there is no
    /// such cut. To find out, the columns are divided into at most 64 stripes of equal width. If a stripe is at most
    /// half as wide as `far`, each gap at which the pattern can be cut contains an empty stripe.
    pub(crate) fn is_worth_a_turn(&self, far: u32) -> bool {
        let Some(bounds) = self.bounds() else {
            return false;
        };
        let last = bounds.left.abs_diff(bounds.right);
        if last <= far {
            return false;
        }
        let width = last / 64 + 1;
        if width > far / 2 {
            return true;
        }
        let mut stripes = 0u64;
        for cell in self.cells() {
            stripes |= 1 << (cell.x.abs_diff(bounds.left) / width % 64);
        }
        stripes.count_ones() <= last / width
    }
}
