//! Removes cells from a board.
//!
//! Cells near the removed ones may change from now on. So before cells are removed, active boxes are added or widened
//! until they contain these cells:
//!
//! ```text
//! +-----+                    +-----+
//! |.OO. |      O             |.OO. |
//! |OO.. |     O      ->      |OO.. |   +---+     The removed cells are in a new box, or in a wider one. So the
//! |.O.. |     OOO            |.O.. |   |   |     next leap runs whatever may change there.
//! +-----+                    +-----+   +---+
//! ```
ghost use Rattle.std.specs.Prelude.{◌≡◌, ◌*◌, OnErr, OnOk};
ghost use Rattle.plane_core.specs.engine.Frames.{FillsFrame, IsFrame};
ghost use Rattle.plane_core.specs.engine.OnBoard.{cells_on};
ghost use Rattle.plane_core.specs.plane.Without.{without};

use crate::engine::active_boxes::put_in_boxes;
use crate::engine::board::Board;
use crate::engine::frame::Frame;
use crate::plane::cell::Cell;
use crate::plane::pattern::Pattern;
use memory::OutOfMemory;

impl Board {
    /// Removes these cells from the board. Cells that aren't alive on it are ignored.
    ///
    /// # Errors
    ///
    /// `OutOfMemory` if memory runs out. The board then shows the same pattern as before.
    pub fn take_out(&mut self, cells: &Pattern) -> Result<(), OutOfMemory>
        ensures rule { self.new.rule ≡ self.old.rule }
        ensures cells { OnOk result (self.new.cells ≡ without self.old.cells cells.now) }
        ensures kept { OnErr result (self.new.cells ≡ self.old.cells) }
    {
        let gone = cells.cells();
        put_in_boxes(gone, &mut self.boxes)?;
        take_off(self.at, self.words.as_mut_slice(), gone);
        Ok(())
    }
}

/// Removes the cells that are on the board, and ignores the others.
fn take_off(at: Frame, words: &mut [u64], cells: &[Cell])
    requires frame { IsFrame at }
    requires long { FillsFrame at words.old }
    ensures { cells_on at words.new ≡ without (cells_on at words.old) cells.now }
{
    for cell in cells {
        if !at.has(*cell) {
            continue;
        }
        let across = at.across(*cell);
        let i = at.index(across / 64, at.down(*cell));
        words[i] &= !(1 << (across % 64));
    }
}
