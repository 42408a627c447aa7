//! Boards: a pattern in words of bits, which advances by leaps of up to four generations.
//!
//! A board has a list of boxes: each cell that isn't the same two generations later is in a box, or within 2 of one. So
//! a leap runs windows that cover the boxes, and everything else stays as it is:
//!
//! ```text
//! +--------+                     a box of cells that change
//! | .OO    |   +-----------+
//! | OO.    |   |  window   |     Only the inner part of a window is correct after four generations, and is put back.
//! |  O     |   | +-------+ |
//! +--------+   | | inner | |     After a leap of two or four generations, the new boxes are where its last generation
//!              | +-------+ |     differs from the generation two before it.
//!              +-----------+
//! ```
ghost use Rattle.std.specs.Prelude.{◌≡◌, [], IfOk, IfSome, true, false};
ghost use Rattle.plane_core.specs.engine.Frames.{HasFewWords, IsFrame, LieOn, bounds_of};
ghost use Rattle.plane_core.specs.windows.RuleLogic.{rule_of};
ghost use Rattle.plane_core.specs.plane.Cells.{plane_bound};
ghost use Rattle.plane_core.specs.plane.Bounds.{AreSidesWithin};

mod advance;
mod next_pattern;
mod reach;
mod removal;
pub(crate) mod view;

use crate::engine::first_boxes::boxes_round;
use crate::engine::frame::Frame;
use crate::engine::leap_window::LeapWindow;
use crate::engine::listing::list;
use crate::engine::loading::fill;
use crate::engine::row_spans::{RowSpan, empty};
use crate::plane::bounds::Bounds;
use crate::plane::pattern::Pattern;
use crate::plane::rule::Rule;
use crate::windows::rule_logic::RuleLogic;
use memory::OutOfMemory;
use std::alloc::Global;
use std::marker::Model;

/// The number of word columns of a large board: 64, and one more, because a window needs a word column to its right.
const LARGE_WORD_COLUMNS: usize = 65;

/// The number of rows of a large board: 4,096, and 72 more. If the number of rows were a multiple of 512, the same row
/// of several word columns would share a place in the processor's cache.
const LARGE_ROWS: usize = 4168;

/// The first column of a large board. The word columns, without the last one, are centred on the origin.
const LARGE_LEFT: i32 = -32 * (LARGE_WORD_COLUMNS as i32 - 1);

/// The first row of a large board. The rows are centred on the origin.
const LARGE_TOP: i32 = -(LARGE_ROWS as i32) / 2;

/// The number of word columns of a small board, which is made quickly because it has few words: 8, and one more.
const SMALL_WORD_COLUMNS: usize = 9;

/// The number of rows of a small board: 512, and 72 more.
const SMALL_ROWS: usize = 584;

/// The first column of a small board. The word columns, without the last one, are centred on the origin.
const SMALL_LEFT: i32 = -32 * (SMALL_WORD_COLUMNS as i32 - 1);

/// The first row of a small board. The rows are centred on the origin.
const SMALL_TOP: i32 = -(SMALL_ROWS as i32) / 2;

/// The most generations for which [`Board::around`] makes a board.
const MOST_AROUND: u32 = 1000;

/// The number of cells for which the list of a board's pattern has room from the start. These cells take a kilobyte.
const ROOM: usize = 128;

/// A pattern on a board, and a rule.
pub struct Board {
    at: Frame,
    logic: RuleLogic,
    words: Vec<u64>,
    /// For each word column, the rows that may have a live cell.
    spans: Vec<RowSpan>,
    boxes: Vec<Bounds>,
    /// Whether the boxes are known to hold all live cells.
    holds_all: bool,
    // The lists of a leap. They are kept from one leap to the next, because new ones each time would cost a tenth of
    // all instructions.
    next_boxes: Vec<Bounds>,
    windows: Vec<LeapWindow>,
    held: Vec<[u64; 64]>,
}

impl Model for Board {
    ghost use Rattle.plane_core.specs.windows.RuleLogic.{rule_of};
    ghost use Rattle.plane_core.specs.engine.Boards.{IsSpannedBoard, Running};
    ghost use Rattle.plane_core.specs.engine.OnBoard.{cells_on};

    ghost Value = { Running };

    ghost view = { λ b. record { rule = rule_of b.logic; cells = cells_on b.at b.words.items } };

    ghost invariant = { λ b.
        IsSpannedBoard b.at (rule_of b.logic) b.words.items b.boxes.items b.holds_all b.spans.items };
}

// Written out, because a derived drop is proved anew wherever a board is dropped.
impl Drop for Board {
    fn drop(self) {
        let Board {
            at: _,
            logic: _,
            words,
            spans,
            boxes,
            holds_all: _,
            next_boxes,
            windows,
            held,
        } = self;
        drop(words);
        drop(spans);
        drop(boxes);
        drop(next_boxes);
        drop(windows);
        drop(held);
    }
}

impl Board {
    /// Makes an empty large board around the origin, for patterns that are shown one after another. It has 4,096
    /// columns, one more word column, and 4,168 rows.
    ///
    /// # Errors
    ///
    /// `OutOfMemory` if memory runs out.
    pub fn large(alloc: Global, rule: &Rule) -> Result<Board, OutOfMemory>
        ensures rule { IfOk result (λ board. board.rule ≡ rule.now) }
        ensures cells { IfOk result (λ board. board.cells ≡ []) }
    {
        let at = Frame {
            left: LARGE_LEFT,
            top: LARGE_TOP,
            word_columns: LARGE_WORD_COLUMNS,
            rows: LARGE_ROWS,
        };
        Board::blank(alloc, rule, at)
    }

    /// Makes an empty board as `large` does, but with 512 columns, one more word column, and 584 rows. This takes a
    /// fiftieth of the time.
    ///
    /// # Errors
    ///
    /// `OutOfMemory` if memory runs out.
    pub fn small(alloc: Global, rule: &Rule) -> Result<Board, OutOfMemory>
        ensures rule { IfOk result (λ board. board.rule ≡ rule.now) }
        ensures cells { IfOk result (λ board. board.cells ≡ []) }
    {
        let at = Frame {
            left: SMALL_LEFT,
            top: SMALL_TOP,
            word_columns: SMALL_WORD_COLUMNS,
            rows: SMALL_ROWS,
        };
        Board::blank(alloc, rule, at)
    }

    /// Makes a board that shows the pattern and usually has room for `generations` generations. Returns `None` if the
    /// pattern is empty or too near to the edge of the plane, if `generations` is over 1,000, or if the board would
    /// take more than about 2 MiB and another 2 KiB per cell of the pattern.
    ///
    /// # Errors
    ///
    /// `OutOfMemory` if memory runs out.
    pub fn around(
        alloc: Global,
        rule: &Rule,
        pattern: &Pattern,
        generations: u32,
    ) -> Result<Option<Board>, OutOfMemory>
        ensures rule { IfOk result (λ made. IfSome made (λ board. board.rule ≡ rule.now)) }
        ensures cells { IfOk result (λ made. IfSome made (λ board. board.cells ≡ pattern.now)) }
    {
        if generations > MOST_AROUND {
            return Ok(None);
        }
        let Some(at) = Frame::round(pattern, generations) else {
            return Ok(None);
        };
        let board = Board::lay(alloc, rule, at, pattern)?;
        Ok(Some(board))
    }

    /// Makes a board that shows the pattern and has the frame `at`.
    pub(crate) fn lay(
        alloc: Global,
        rule: &Rule,
        at: Frame,
        pattern: &Pattern,
    ) -> Result<Board, OutOfMemory>
        requires frame { IsFrame at }
        requires plane { AreSidesWithin plane_bound (bounds_of at) }
        requires on { LieOn at pattern.now }
        requires words { HasFewWords at pattern.now }
        ensures rule { IfOk result (λ board. board.rule ≡ rule.now) }
        ensures cells { IfOk result (λ board. board.cells ≡ pattern.now) }
    {
        let mut words = vec![in alloc; 0u64; at.count()]?;
        let mut spans = vec![in alloc; RowSpan::empty(); at.word_columns]?;
        let mut boxes = Vec::new(alloc);
        let cells = pattern.cells();
        boxes_round(cells, &mut boxes)?;
        fill(at, words.as_mut_slice(), spans.as_mut_slice(), cells);
        Ok(Board {
            at,
            logic: RuleLogic::new(rule),
            words,
            spans,
            boxes,
            holds_all: true,
            next_boxes: Vec::new(alloc),
            windows: Vec::new(alloc),
            held: Vec::new(alloc),
        })
    }

    /// Makes an empty board.
    fn blank(alloc: Global, rule: &Rule, at: Frame) -> Result<Board, OutOfMemory>
        requires frame { IsFrame at }
        requires plane { AreSidesWithin plane_bound (bounds_of at) }
        requires words { HasFewWords at [] }
        ensures rule { IfOk result (λ board. board.rule ≡ rule.now) }
        ensures cells { IfOk result (λ board. board.cells ≡ []) }
    {
        let none = Pattern::from_ordered(Vec::new(alloc));
        Board::lay(alloc, rule, at, &none)
    }

    /// Shows another pattern under a rule, in the middle of the board. Returns `false` if the board has no room for the
    /// pattern, or the pattern is too near to the edge of the plane. The board then shows the empty pattern.
    ///
    /// # Errors
    ///
    /// `OutOfMemory` if memory runs out. Then nothing is known about what the board shows.
    pub fn show(&mut self, rule: &Rule, pattern: &Pattern) -> Result<bool, OutOfMemory>
        ensures rule { self.new.rule ≡ rule.now }
        ensures shown { IfOk result (λ shown. shown ≡ true → self.new.cells ≡ pattern.now) }
        ensures none { IfOk result (λ shown. shown ≡ false → self.new.cells ≡ []) }
    {
        empty(
            self.at,
            self.words.as_mut_slice(),
            self.spans.as_mut_slice(),
        );
        self.boxes.clear();
        self.holds_all = true;
        self.logic = RuleLogic::new(rule);
        let Some(at) = self.at.centred(pattern) else {
            return Ok(false);
        };
        let cells = pattern.cells();
        boxes_round(cells, &mut self.boxes)?;
        self.at = at;
        fill(
            at,
            self.words.as_mut_slice(),
            self.spans.as_mut_slice(),
            cells,
        );
        Ok(true)
    }

    /// Returns the active boxes. One-sided tests use them only to choose where to look, so no contract says anything
    /// about them.
    pub(crate) fn active_boxes(&self) -> &[Bounds] {
        self.boxes.as_slice()
    }

    /// Returns the rule, as operations on words.
    pub(crate) fn logic(&self) -> &RuleLogic
        ensures { rule_of result.now ≡ self.now.rule }
    {
        &self.logic
    }

    /// Returns the pattern that the board shows.
    ///
    /// # Errors
    ///
    /// `OutOfMemory` if memory runs out.
    pub fn pattern(&self, alloc: Global) -> Result<Pattern, OutOfMemory>
        ensures { IfOk result (λ pattern. pattern ≡ self.now.cells) }
    {
        list(
            alloc,
            self.at,
            self.words.as_slice(),
            self.spans.as_slice(),
            ROOM,
        )
    }
}
