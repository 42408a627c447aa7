//! How a board advances. If the number of generations is odd, an odd leap is made first. Leaps of four generations
//! follow, and then a leap of two if at least two generations are left.
//!
//! ```text
//! advance(most: 11)    a leap of 3, while the boxes hold all live cells
//!                      a leap of 4
//!                      a leap of 4
//! ```
//!
//! The active boxes say nothing about an odd number of generations: a blinker outside all boxes is the same after two
//! generations, but not after one. So an odd leap is made first, while the boxes hold all live cells.
ghost use Rattle.std.specs.Prelude.{◌≡◌, ◌%◌, ◌≤◌, ℕ, IfOk, IsTrue, true};
ghost use Rattle.plane_core.specs.plane.Generations.{after};

use crate::engine::board::Board;
use crate::engine::cover::cover;
use crate::engine::leap::{put_all, run_all};
use memory::OutOfMemory;
use std::mem::swap;

impl Board {
    /// Advances by at most `most` generations, and returns the number made. The number is smaller than `most` if the
    /// next leap would come too near to the border of the board. If `most` is odd, the number may also be `most` - 1,
    /// because an odd leap is made only while the boxes hold all live cells.
    ///
    /// # Errors
    ///
    /// `OutOfMemory` if memory runs out. Then nothing is known about what the board shows.
    pub fn advance(&mut self, most: u32) -> Result<u32, OutOfMemory>
        ensures rule { self.new.rule ≡ self.old.rule }
        ensures most { IfOk result (λ made. made ≤ most) }
        ensures after { IfOk result (λ made. self.new.cells ≡ after self.old.rule self.old.cells made) }
    {
        let mut made = 0;
        if most % 2 == 1 {
            // A leap of one or three, so that a multiple of four is left.
            made = self.leap(most % 4)?;
        }
        while most - made >= 2 {
            let still = self.is_still();
            if still {
                return Ok(made + (most - made) / 2 * 2);
            }
            // A leap of four, or of two if fewer than four generations are left.
            let count = (most - made).min(4) / 2 * 2;
            let leapt = self.leap(count)?;
            if leapt == 0 {
                return Ok(made);
            }
            made += leapt;
        }
        Ok(made)
    }

    /// Returns `true` only if no even number of generations changes anything. `false` says nothing.
    pub fn is_still(&self) -> bool
        ensures { IsTrue result → (n : ℕ) → n % 2 ≡ 0 → after self.now.rule self.now.cells n ≡ self.now.cells }
    {
        self.boxes.is_empty()
    }

    /// Makes one leap of `count` generations, 1 to 4, and returns the number made: all, or none. None are made if the
    /// leap would come too near to the border of the board, or if `count` is odd and the boxes aren't known to hold all
    /// live cells.
    fn leap(&mut self, count: u32) -> Result<u32, OutOfMemory>
        requires some { 1 ≤ count }
        requires few { count ≤ 4 }
        ensures rule { self.new.rule ≡ self.old.rule }
        ensures most { IfOk result (λ made. made ≤ count) }
        ensures after { IfOk result (λ made. self.new.cells ≡ after self.old.rule self.old.cells made) }
    {
        if !are_enough(self.holds_all, count) {
            return Ok(0);
        }
        cover(
            self.boxes.as_slice(),
            &mut self.next_boxes,
            &mut self.windows,
        )?;
        let windows = self.windows.as_slice();
        let inside = run_all(
            self.words.as_slice(),
            self.at,
            windows,
            &self.logic,
            count as usize,
            &mut self.held,
            &mut self.next_boxes,
        )?;
        if !inside {
            return Ok(0);
        }
        // Nothing fails from here on.
        put_all(
            self.words.as_mut_slice(),
            self.spans.as_mut_slice(),
            self.at,
            windows,
            self.held.as_slice(),
        );
        swap(&mut self.boxes, &mut self.next_boxes);
        self.holds_all = count % 2 == 1;
        Ok(count)
    }
}

/// Checks whether boxes suffice for a leap of `count` generations. For an odd number they have to hold all live cells.
fn are_enough(hold_all: bool, count: u32) -> bool
    ensures { IsTrue result → count % 2 ≡ 1 → hold_all ≡ true }
{
    hold_all || count % 2 == 0
}
