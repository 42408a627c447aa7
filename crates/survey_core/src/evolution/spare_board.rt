//! The board that a worker keeps from one pattern to the next, so that its memory needn't be allocated and cleared
//! again.
//!
//! ```text
//! first soups          a small board, which is made quickly
//! a soup outgrows it   the next board that is made is large, and is kept
//! ```
ghost use Rattle.std.specs.Prelude.{◌≡◌, IfOk, IfSome};

use memory::OutOfMemory;
use plane_core::engine::board::Board;
use plane_core::plane::pattern::Pattern;
use plane_core::plane::rule::Rule;
use std::alloc::Global;

/// A board for the next pattern.
#[derive(Drop)]
pub(crate) struct SpareBoard {
    /// The board, or `None` if a pattern is on it or the next board isn't made yet.
    board: Option<Board>,
    /// The size of the next board that is made.
    size: Size,
}

/// The size of a board.
#[derive(Clone, Copy)]
enum Size {
    /// A board that is quick to make, and has room for most patterns.
    Small,
    /// A larger board, which is made once a pattern had no room on a small board.
    Large,
}

impl SpareBoard {
    /// Returns a `SpareBoard` that has no board yet. This takes no memory.
    pub(crate) fn none() -> SpareBoard {
        SpareBoard {
            board: None,
            size: Size::Small,
        }
    }

    /// Returns a board that shows `pattern` under `rule`: the spare board, or a new one. The board belongs to the
    /// caller, who gives it back with [`give_back`](SpareBoard::give_back) or [`outgrow`](SpareBoard::outgrow).
    ///
    /// Returns `None` if there is no memory for a board, or if the board has no room for the pattern.
    ///
    /// # Errors
    ///
    /// `OutOfMemory` if memory runs out while the pattern is laid on the board.
    pub(crate) fn board_showing(
        &mut self,
        alloc: Global,
        rule: &Rule,
        pattern: &Pattern,
    ) -> Result<Option<Board>, OutOfMemory>
        ensures rule { IfOk result (λ shown. IfSome shown (λ board. board.rule ≡ rule.now)) }
        ensures cells { IfOk result (λ shown. IfSome shown (λ board. board.cells ≡ pattern.now)) }
    {
        let kept = match (self.board.take(), self.size) {
            (Some(board), _) => Some(board),
            (None, Size::Small) => Board::small(alloc, rule).ok(),
            (None, Size::Large) => Board::large(alloc, rule).ok(),
        };
        let Some(mut board) = kept else {
            return Ok(None);
        };
        let has_room = board.show(rule, pattern)?;
        if has_room {
            return Ok(Some(board));
        }
        self.outgrow(board);
        Ok(None)
    }

    /// Takes back a board, to show the next pattern on it.
    pub(crate) fn give_back(&mut self, board: Board) {
        self.board = Some(board);
    }

    /// Takes back a board that had no room for a pattern. A small board is dropped, and the next board that is made is
    /// large. A large board is kept.
    pub(crate) fn outgrow(&mut self, board: Board) {
        match self.size {
            Size::Small => self.size = Size::Large,
            Size::Large => self.board = Some(board),
        }
    }
}
