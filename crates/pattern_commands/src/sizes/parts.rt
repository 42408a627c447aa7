//! A pattern in parts that don't meet for some generations. Each part has a board of its own.
//!
//! The pattern is cut between rows that are far apart:
//!
//! ```text
//! .O....
//! OO....        part 0
//! ......
//! ......        at least 2n rows without a cell: the parts don't meet for n generations
//! ......
//! ...OO.        part 1
//! ```

ghost use Rattle.std.specs.Prelude.{◌≡◌, ◌++◌, ◌*◌, ◌<◌, ◌≤◌, [], ◌∷◌, ℕ, IfOk, IfSome, flat_map, length, map, true};
ghost use Rattle.plane_core.specs.plane.Cells.{InOrder, IsPattern};
ghost use Rattle.pattern_commands.specs.SizeSteps.{IsGap, RunApart, advanced, pattern_size};

use crate::sizes::size::Size;
use memory::OutOfMemory;
use plane_core::engine::board::Board;
use plane_core::plane::cell::Cell;
use plane_core::plane::pattern::{FromCellsError, Pattern};
use plane_core::plane::rule::Rule;
use std::alloc::Global;

/// Makes a board for each part of a pattern, usually with room for `generations` generations. Returns `None` if
/// [`Board::around`] makes no board for some part.
pub(crate) fn boards_for(
    alloc: Global,
    rule: &Rule,
    pattern: &Pattern,
    generations: u32,
) -> Result<Option<Vec<Board>>, OutOfMemory>
    requires { generations ≤ 1000 }
    ensures { IfOk result (λ made. IfSome made (λ boards. RunApart rule.now pattern.now generations boards.items)) }
{
    let cells = pattern.cells();
    let mut boards = Vec::new(alloc);
    let mut from = 0;
    while from < cells.len() {
        let end = part_end(cells, from, 2 * generations);
        let Some(board) = board_for(alloc, rule, &cells[from..end], generations)? else {
            return Ok(None);
        };
        boards.push(board)?;
        from = end;
    }
    Ok(Some(boards))
}

/// Returns the end of the part that begins at place `from`: the first later place whose cell is more than `far` rows
/// below the cell before it, or the number of cells if there is no such place.
fn part_end(cells: &[Cell], from: usize, far: u32) -> usize
    requires order { InOrder cells.now }
    requires from { from < length cells.now }
    ensures later { from < result }
    ensures within { result ≤ length cells.now }
    ensures gap { IsGap far cells.now result }
{
    for end in from + 1..cells.len() {
        if cells[end].y.abs_diff(cells[end - 1].y) > far {
            return end;
        }
    }
    cells.len()
}

/// Makes a board for a part of a pattern. Returns `None` if [`Board::around`] makes no board for the part.
fn board_for(
    alloc: Global,
    rule: &Rule,
    part: &[Cell],
    generations: u32,
) -> Result<Option<Board>, OutOfMemory>
    requires { IsPattern part.now }
    ensures { IfOk result (λ made. IfSome made (λ board. board ≡ record { rule = rule.now; cells = part.now })) }
{
    let part = pattern_of(alloc, part)?;
    Board::around(alloc, rule, &part, generations)
}

/// Returns the pattern of these cells.
fn pattern_of(alloc: Global, cells: &[Cell]) -> Result<Pattern, OutOfMemory>
    requires { IsPattern cells.now }
    ensures { IfOk result (λ pattern. pattern ≡ cells.now) }
{
    match Pattern::from_cells(alloc, cells) {
        Ok(pattern) => Ok(pattern),
        Err(FromCellsError::Memory(error)) => Err(error),
        Err(FromCellsError::OutOfPlane { .. }) => unreachable!(),
    }
}

/// Advances each board by one generation. Returns `false` if some board has no room for the next generation.
pub(crate) fn advance_each(boards: &mut [Board]) -> Result<bool, OutOfMemory>
    ensures { IfOk result (λ all. all ≡ true → boards.new ≡ map advanced boards.old) }
{
    for board in boards.iter_mut() {
        let made = board.advance(1)?;
        if made == 0 {
            return Ok(false);
        }
    }
    Ok(true)
}

/// Returns the size of the pattern that the boards show together, or `None` if a `usize` can't count its cells.
pub(crate) fn size_together(alloc: Global, boards: &[Board]) -> Result<Option<Size>, OutOfMemory>
    ensures { IfOk result
        (λ found. IfSome found (λ size. size ≡ pattern_size (flat_map (λ board. board.cells) boards.now))) }
{
    let mut together = Size::none();
    for board in boards {
        let Some(more) = together.joined(size_on(alloc, board)?) else {
            return Ok(None);
        };
        together = more;
    }
    Ok(Some(together))
}

/// Returns the size of the pattern that the board shows.
fn size_on(alloc: Global, board: &Board) -> Result<Size, OutOfMemory>
    ensures { IfOk result (λ size. size ≡ pattern_size board.now.cells) }
{
    let pattern = board.pattern(alloc)?;
    Ok(Size::of(&pattern))
}
