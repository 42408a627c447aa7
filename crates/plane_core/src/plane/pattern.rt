//! Patterns: finite sets of live cells. A pattern is kept as the list of its cells in order, with each cell once.
ghost use Rattle.std.specs.Prelude.{◌≡◌, ◌+◌, ◌≤◌, ◌++◌, List, [], ◌∷◌, length, take, IfOk, IfErr, IsTrue, OnOk, position, None};
ghost use Rattle.memory.specs.Witness.{out_of_memory};
ghost use Rattle.std.specs.declared.cmp.Ordering.TheVariants.{Less};
ghost use Rattle.plane_core.specs.plane.Cells.{InOrder, IsPattern, SetsHaveOneList, cell_at, cell_cmp, has, set_of, off_plane};
ghost use Rattle.plane_core.specs.plane.Refusals.{RefusesCells};
ghost use Rattle.plane_core.specs.declared.plane.cell.Cell.{Cell};
ghost use Rattle.plane_core.specs.declared.plane.pattern.FromCellsError.TheVariants.{Memory};

use crate::plane::cell::Cell;
use memory::OutOfMemory;
use std::alloc::Global;
use std::fmt::{self, Display};
use std::marker::Model;
use thiserror::Error;

/// Why a list of cells isn't a pattern.
#[derive(Clone, Copy, PartialEq, Eq, Error)]
pub enum FromCellsError {
    /// The cell at `index`, counted from 0, is the first cell past the bound of the plane.
    OutOfPlane { index: usize },
    /// Memory ran out.
    Memory(OutOfMemory),
}

impl fmt::Display for FromCellsError {
    fn fmt<W: fmt::Write>(&self, f: &mut fmt::Formatter<W>) -> fmt::Result {
        match self {
            FromCellsError::OutOfPlane { index } => {
                write!(f, "cell {index} lies past the bound of the plane")
            }
            FromCellsError::Memory(refused) => refused.fmt(f),
        }
    }
}

/// Shows the message, as `Display` does.
impl fmt::Debug for FromCellsError {
    fn fmt<W: fmt::Write>(&self, f: &mut fmt::Formatter<W>) -> fmt::Result {
        fmt::Display::fmt(self, f)
    }
}

impl<E: Into<OutOfMemory>> From<E> for FromCellsError {
    ghost from_gives = { λ _ e. e ≡ Memory out_of_memory };

    fn from(refused: E) -> FromCellsError {
        FromCellsError::Memory(refused.into())
    }
}

/// A finite set of live cells, with coordinates from -1,000,000 to 1,000,000 ([`BOUND`](crate::plane::cell::BOUND)).
#[derive(Debug)]
pub struct Pattern {
    cells: Vec<Cell>,
}

impl Model for Pattern {
    ghost Value = { List Cell };

    ghost view = { λ p. p.cells.items };

    ghost invariant = { λ p. IsPattern p.cells.items };
}

// This isn't derived, because a derived drop is proved anew wherever a pattern is dropped.
impl Drop for Pattern {
    fn drop(self) {
        let Pattern { cells } = self;
        drop(cells);
    }
}

impl Pattern {
    /// Returns the pattern with the cells of a list, which may be in any order and may repeat cells.
    ///
    /// # Errors
    ///
    /// `OutOfPlane` if a cell is past the bound, even if there is no memory. It has the index of the first such cell,
    /// counted from 0. Otherwise `Memory` if memory runs out.
    ///
    /// # Examples
    ///
    /// `crates/tour_tests/src/patterns.rt` makes a glider, runs it, and finds and names its objects.
    pub fn from_cells(alloc: Global, cells: &[Cell]) -> Result<Pattern, FromCellsError>
        ensures set { IfOk result (λ pattern. pattern ≡ set_of cells.now) }
        ensures members { IfOk result (λ pattern. (c : Cell) → has pattern c ≡ has cells.now c) }
        ensures plane { OnOk result (position off_plane cells.now ≡ None) }
        ensures refused { IfErr result (RefusesCells cells.now) }
    {
        for (index, cell) in cells.iter().enumerate() {
            if !cell.is_on_plane() {
                return Err(FromCellsError::OutOfPlane { index });
            }
        }
        let cells = Vec::from_slice(alloc, cells)?;
        Ok(Pattern {
            cells: in_order(cells),
        })
    }

    /// Returns the pattern with these cells, which must already be in order, with each cell once.
    pub(crate) fn from_ordered(cells: Vec<Cell>) -> Pattern
        requires { IsPattern cells.items }
        ensures { result ≡ cells.items }
    {
        Pattern { cells }
    }

    /// Adds a cell, which must come after all cells of the pattern.
    pub(crate) fn push(&mut self, cell: Cell) -> Result<(), OutOfMemory>
        requires { IsPattern (self.old ++ cell ∷ []) }
        ensures { OnOk result (self.new ≡ self.old ++ cell ∷ []) }
    {
        self.cells.push(cell)?;
        Ok(())
    }

    /// Returns a copy of the pattern.
    ///
    /// # Errors
    ///
    /// `OutOfMemory` if memory runs out.
    pub fn copy(&self, alloc: Global) -> Result<Pattern, OutOfMemory>
        ensures { IfOk result (λ pattern. pattern ≡ self.now) }
    {
        let cells = Vec::from_slice(alloc, self.cells())?;
        Ok(Pattern::from_ordered(cells))
    }

    /// Returns the union of both patterns. This is fastest if all cells of `other` come after those of `self`.
    ///
    /// # Errors
    ///
    /// `OutOfMemory` if memory runs out. `self` is consumed in this case, too.
    pub fn united(self, other: &Pattern) -> Result<Pattern, OutOfMemory>
        ensures { IfOk result (λ whole. whole ≡ set_of (self ++ other.now)) }
    {
        let Pattern { mut cells } = self;
        let count = cells.len();
        cells.extend_from_slice(other.cells())?;
        merge(cells.as_mut_slice(), count, other.cells());
        Ok(Pattern {
            cells: in_order(cells),
        })
    }

    /// Returns all cells in order, with each cell once.
    pub fn cells(&self) -> &[Cell]
        ensures cells { result.now ≡ self.now }
        ensures pattern { IsPattern self.now }
    {
        self.cells.as_slice()
    }

    /// Recalls for the prover that the cells are in order, with each cell once. At run time, the call does nothing.
    #[inline(always)]
    pub fn recall_order(&self)
        ensures { IsPattern self.now }
    {
        let _ = &self.cells;
    }

    /// Returns the number of cells.
    pub fn population(&self) -> usize
        ensures { result ≡ length self.now }
    {
        self.cells.len()
    }

    /// Checks whether the cell (x, y) is in the pattern.
    pub fn has(&self, x: i32, y: i32) -> bool
        ensures { result ≡ has self.now (cell_at x y) }
    {
        self.cells().binary_search(&Cell { y, x }).is_ok()
    }
}

/// Merges `others` into `cells`, of which only the first `count` are in use. The remaining places are just enough for
/// `others`. The merge works from the end, and stops when all of `others` are in place. If both lists are in order, so
/// is the result:
///
/// ```text
/// a b f g h . .      `others` is c e
/// a b . . f g h      h, g and f move two places on
/// a b c e f g h      e and c are in place
/// ```
fn merge(cells: &mut [Cell], count: usize, others: &[Cell])
    requires { length cells.old ≡ count + length others.now }
    ensures { (c : Cell) → has cells.new c ≡ has (take count cells.old ++ others.now) c }
{
    let mut i = count;
    let mut j = others.len();
    while j > 0 {
        let comes_later = comes_later(cells, i, others[j - 1]);
        if comes_later {
            i -= 1;
            cells[i + j] = cells[i];
            continue;
        }
        j -= 1;
        cells[i + j] = others[j];
    }
}

/// Checks whether the last of the first `count` cells comes after `cell`. Returns `false` if `count` is 0.
fn comes_later(cells: &[Cell], count: usize, cell: Cell) -> bool
    requires { count ≤ length cells.now }
    ensures { IsTrue result → 1 ≤ count }
{
    count > 0 && cell < cells[count - 1]
}

/// The law that a set of cells has only one list in order. So two patterns with the same cells are the same list.
#[tactic(auto, using(crate::proofs::lemmas::plane::SetLemmas::same_lists))]
pub fn sets_have_one_list()
    ensures { SetsHaveOneList }
{}

/// Returns the cells in order, with each cell once. Cells that were read from a board usually are in order already.
/// Then they aren't sorted again.
pub(crate) fn in_order(cells: Vec<Cell>) -> Vec<Cell>
    ensures { result.items ≡ set_of cells.items }
{
    let mut set = cells;
    if !are_in_order(set.as_slice()) {
        set.sort_unstable();
        set.dedup();
    }
    set
}

/// Checks whether each cell comes before the next one. No branch depends on a cell.
fn are_in_order(cells: &[Cell]) -> bool
    ensures { IsTrue result → InOrder cells.now }
{
    let mut ordered = true;
    for place in 1..cells.len() {
        ordered &= comes_before(cells[place - 1], cells[place]);
    }
    ordered
}

/// Checks whether a cell comes before another, without a branch.
#[inline(always)]
fn comes_before(one: Cell, other: Cell) -> bool
    ensures { IsTrue result → cell_cmp one other ≡ Less }
{
    (one.y < other.y) | ((one.y == other.y) & (one.x < other.x))
}
