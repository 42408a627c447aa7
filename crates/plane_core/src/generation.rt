//! Computes the next generation of a pattern, or a generation much later.
//!
//! ```text
//! run:  stretch (at most 256 generations)  ->  stretch  ->  ..
//!
//! stretch:  cut into parts that are far apart  ->  a board for each part  ->  the parts together
//!           or, if some part can't be run on a board, one step
//!
//! step:  in a window, or on a board, or computed cell by cell
//! ```
ghost use Rattle.std.specs.Prelude.{◌≡◌, ◌≢◌, ℕ, ◌+◌, ◌-◌, ◌*◌, ◌<◌, ◌≤◌, true, false};
ghost use Rattle.std.specs.Prelude.{IfOk, IfErr, IfSome, OnOk, OnSome, IsErrOf};
ghost use Rattle.memory.specs.Witness.{out_of_memory};
ghost use Rattle.plane_core.specs.plane.Cells.{IsPattern, has, plane_bound};
ghost use Rattle.plane_core.specs.plane.Generations.{next, after, lives, touches_edge, lies_within, NextMoved, NextTurned};
ghost use Rattle.plane_core.specs.plane.Generations.{CellsFollowTheRule};
ghost use Rattle.plane_core.specs.plane.Generations.{SpeedFromOrigin, SpeedOfCells, SpeedOfLight};
ghost use Rattle.plane_core.specs.plane.Bounds.{AreSidesWithin};
ghost use Rattle.plane_core.specs.engine.Frames.{HasFewWords, IsFrame, LieOn, bounds_of};
ghost use Rattle.plane_core.specs.plane.Parts.{FarPatternsRunAlone, HasRun, IsCut};
ghost use Rattle.plane_core.specs.plane.Refusals.{RefusesStep};
ghost use Rattle.plane_core.specs.declared.plane.cell.Cell.{Cell};
ghost use Rattle.plane_core.specs.declared.generation.StepError.TheVariants.{Memory};

use crate::engine::board::Board;
use crate::engine::frame::Frame;
use crate::engine::lone_window::next_in_window;
use crate::plane::cell::Cell;
use crate::plane::pattern::Pattern;
use crate::plane::rule::Rule;
use memory::OutOfMemory;
use std::alloc::Global;
use std::fmt::{self, Display};
use thiserror::Error;

/// Why the next generation of a pattern can't be computed.
#[derive(Clone, Copy, PartialEq, Eq, Error)]
pub enum StepError {
    /// A cell is on the edge of the plane, so a neighbour would be past it.
    Edge,
    /// Memory ran out.
    Memory(OutOfMemory),
}

impl fmt::Display for StepError {
    fn fmt<W: fmt::Write>(&self, f: &mut fmt::Formatter<W>) -> fmt::Result {
        match self {
            StepError::Edge => f.write_str("a cell lies on the edge of the plane"),
            StepError::Memory(refused) => refused.fmt(f),
        }
    }
}

/// Shows the message, as `Display` does.
impl fmt::Debug for StepError {
    fn fmt<W: fmt::Write>(&self, f: &mut fmt::Formatter<W>) -> fmt::Result {
        fmt::Display::fmt(self, f)
    }
}

impl StepError {
    /// Returns the `OutOfMemory` of an error that isn't `Edge`. This is for callers whose pattern can't reach the edge
    /// of the plane.
    pub fn refusal(self) -> OutOfMemory
        requires inland { self ≢ StepError.Edge }
    {
        match self {
            StepError::Memory(refused) => refused,
            StepError::Edge => unreachable!(),
        }
    }
}

/// The most generations that [`Pattern::run`] runs on one board. After them, the pattern is read back and a new board
/// is made, so that a board needs only some 300 columns and rows on each side of the pattern.
const STRETCH: u32 = 256;

/// The most cuts that may be nested in one another. A part that results from this many nested cuts isn't cut again.
const CUTS: u32 = 40;

impl<E: Into<OutOfMemory>> From<E> for StepError {
    ghost from_gives = { λ _ e. e ≡ Memory out_of_memory };

    fn from(refused: E) -> StepError {
        StepError::Memory(refused.into())
    }
}

impl Pattern {
    /// Returns the next generation under the rule.
    ///
    /// The memory is proportional to the population. A pattern that fits a window is run in one, and a pattern that
    /// needs at most 32 words per live cell is run on a board. In both cases, the time is proportional to the
    /// population too. Otherwise the generation is computed cell by cell, and sorting takes most of the time.
    ///
    /// # Errors
    ///
    /// `Edge` if a cell has a coordinate of -1,000,000 or 1,000,000, whether there is memory or not, and even if no
    /// cell would be born past the edge of the plane. Otherwise `Memory` if memory runs out.
    pub fn step(&self, alloc: Global, rule: &Rule) -> Result<Pattern, StepError>
        ensures next { IfOk result (λ pattern. pattern ≡ next rule.now self.now) }
        // Each cell of the plane is alive in the next generation exactly if the rule's numbers say so.
        ensures every_cell { IfOk result (λ pattern. (c : Cell) → has pattern c ≡ lives rule.now self.now c) }
        ensures inside { OnOk result (touches_edge self.now ≡ false) }
        ensures refused { IfErr result (RefusesStep self.now) }
    {
        if self.touches_edge() {
            return Err(StepError::Edge);
        }
        if let Some(pattern) = next_in_window(alloc, rule, self)? {
            return Ok(pattern);
        }
        if let Some(pattern) = self.run_on(alloc, rule, Frame::for_a_step(self), 1)? {
            return Ok(pattern);
        }
        Ok(self.counted(alloc, rule)?)
    }

    /// Checks whether a cell has a coordinate of -1,000,000 or 1,000,000. In that case, there is no next generation,
    /// because a neighbour of the cell is off the plane.
    pub fn touches_edge(&self) -> bool
        ensures { result ≡ touches_edge self.now }
    {
        for cell in self.cells() {
            if cell.is_on_edge() {
                return true;
            }
        }
        false
    }

    /// Returns the pattern after `generations` generations under the rule. After 0 generations this is a copy.
    ///
    /// # Errors
    ///
    /// The first failure ends the run and is returned.
    ///
    /// - `Edge` if a generation before the last has a cell with a coordinate of -1,000,000 or 1,000,000. If the pattern
    ///   itself has such a cell and `generations` isn't 0, the error is `Edge` whether there is memory or not.
    /// - `Memory` if memory runs out.
    ///
    /// # Examples
    ///
    /// `crates/tour_tests/src/patterns.rt` runs a glider for four generations.
    pub fn run(&self, alloc: Global, rule: &Rule, generations: u32) -> Result<Pattern, StepError>
        ensures after { IfOk result (λ pattern. pattern ≡ after rule.now self.now generations) }
        ensures inside { OnOk result ((g : ℕ) → g < generations → touches_edge (after rule.now self.now g) ≡ false) }
        // The error isn't `Edge` if the pattern is too far from the edge to reach it before the last generation, at one
        // cell per generation.
        ensures never_edge { (reach : ℕ) → lies_within reach self.now ≡ true → reach + generations ≤ plane_bound
            → result ≢ Err StepError.Edge }
        // If the pattern itself touches the edge and `generations` isn't 0, the error is `Edge`, whether there is
        // memory or not.
        ensures edge_first { 1 ≤ generations → touches_edge self.now ≡ true → result ≡ Err StepError.Edge }
        ensures edge { IsErrOf result StepError.Edge
            → (g : ℕ) × (g < generations) × (touches_edge (after rule.now self.now g) ≡ true) }
    {
        if generations > 0 && self.touches_edge() {
            return Err(StepError::Edge);
        }
        let mut pattern = self.copy(alloc)?;
        let mut made = 0;
        while made < generations {
            let count = (generations - made).min(STRETCH);
            match pattern.run_in_parts(alloc, rule, count, CUTS)? {
                Some(later) => {
                    pattern = later;
                    made += count;
                }
                None => {
                    pattern = pattern.step(alloc, rule)?;
                    made += 1;
                }
            }
        }
        Ok(pattern)
    }

    /// Returns the pattern after `generations` generations. Each part that is far from the others is run on a board of
    /// its own. Returns `None` if, for some part, a board isn't worth it or is too small. Cuts are nested at most
    /// `cuts` deep.
    #[cycle(run_in_parts)]
    fn run_in_parts(
        &self,
        alloc: Global,
        rule: &Rule,
        generations: u32,
        cuts: u32,
    ) -> Result<Option<Pattern>, OutOfMemory>
        requires generations { generations ≤ 1000 }
        requires cuts { cuts ≤ 40 }
        ensures { IfOk result (λ ran. IfSome ran (HasRun rule.now self.now generations)) }
    {
        let far = 2 * generations;
        if let Some(cut) = self.cut(far, cuts) {
            return self.run_sides(alloc, rule, generations, cuts - 1, cut);
        }
        if self.is_worth_a_turn(far) {
            let turned = self.transposed(alloc)?;
            if let Some(cut) = turned.cut(far, cuts) {
                let Some(later) = turned.run_sides(alloc, rule, generations, cuts - 1, cut)? else {
                    return Ok(None);
                };
                let whole = later.transposed(alloc)?;
                return Ok(Some(whole));
            }
        }
        self.run_on(alloc, rule, Frame::round(self, generations), generations)
    }

    /// Runs the first `cut` cells and the others separately, as [`run_in_parts`](Pattern::run_in_parts) does, and
    /// returns the union of the results.
    #[cycle(run_in_parts)]
    fn run_sides(
        &self,
        alloc: Global,
        rule: &Rule,
        generations: u32,
        cuts: u32,
        cut: usize,
    ) -> Result<Option<Pattern>, OutOfMemory>
        requires generations { generations ≤ 1000 }
        requires cuts { cuts ≤ 40 }
        requires cut { IsCut (2 * generations) self.now cut }
        ensures { IfOk result (λ ran. IfSome ran (HasRun rule.now self.now generations)) }
    {
        let (above, below) = self.cells().split_at(cut);
        let Some(above) = Pattern::run_side(alloc, rule, generations, cuts, above)? else {
            return Ok(None);
        };
        let Some(below) = Pattern::run_side(alloc, rule, generations, cuts, below)? else {
            return Ok(None);
        };
        let whole = above.united(&below)?;
        Ok(Some(whole))
    }

    /// Runs the cells on one side of a cut, as [`run_in_parts`](Pattern::run_in_parts) does.
    #[cycle(run_in_parts)]
    fn run_side(
        alloc: Global,
        rule: &Rule,
        generations: u32,
        cuts: u32,
        cells: &[Cell],
    ) -> Result<Option<Pattern>, OutOfMemory>
        requires generations { generations ≤ 1000 }
        requires cuts { cuts ≤ 40 }
        requires cells { IsPattern cells.now }
        ensures { IfOk result (λ ran. IfSome ran (HasRun rule.now cells.now generations)) }
    {
        let side = Pattern::from_ordered(Vec::from_slice(alloc, cells)?);
        side.run_in_parts(alloc, rule, generations, cuts)
    }

    /// Returns the pattern after `generations` generations on a board with the frame `at`. Returns `None` if there is
    /// no frame, because a board isn't worth it, or if the pattern comes too near to the border of the board.
    #[tactic(auto, using(crate::proofs::lemmas::plane::PartLemmas::ran_on_board))]
    fn run_on(
        &self,
        alloc: Global,
        rule: &Rule,
        at: Option<Frame>,
        generations: u32,
    ) -> Result<Option<Pattern>, OutOfMemory>
        requires frame { IfSome at IsFrame }
        requires plane { IfSome at (λ at. AreSidesWithin plane_bound (bounds_of at)) }
        requires on { IfSome at (λ at. LieOn at self.now) }
        requires inside { OnSome at (lies_within (plane_bound - generations) self.now ≡ true) }
        requires words { IfSome at (λ at. HasFewWords at self.now) }
        ensures { IfOk result (λ ran. IfSome ran (HasRun rule.now self.now generations)) }
    {
        let Some(at) = at else {
            return Ok(None);
        };
        let mut board = Board::lay(alloc, rule, at, self)?;
        shown_after(alloc, &mut board, generations)
    }
}

/// The law of the next generation: a cell is alive in the next generation of any pattern exactly if the rule's numbers
/// say so.
pub fn cells_follow_the_rule()
    ensures { CellsFollowTheRule }
{}

/// The law of the speed of light: in g generations, no pattern spreads by more than g cells in any direction.
pub fn speed_of_light()
    ensures boxes { SpeedOfLight }
    ensures origin { SpeedFromOrigin }
    ensures cells { SpeedOfCells }
{}

/// The law of far patterns: two patterns that are more than 2g apart run for g generations as if each were alone.
#[tactic(auto, using(crate::proofs::lemmas::plane::PartLemmas::far_patterns))]
pub fn far_patterns_run_alone()
    ensures { FarPatternsRunAlone }
{}

/// The laws of isotropy: the next generation of a moved or turned pattern is the next generation of the pattern, moved
/// or turned in the same way.
pub fn isotropy()
    ensures moved { NextMoved }
    ensures turned { NextTurned }
{}

/// Returns the pattern that the board shows after `generations` generations, or `None` if the board has no room for
/// these generations.
fn shown_after(
    alloc: Global,
    board: &mut Board,
    generations: u32,
) -> Result<Option<Pattern>, OutOfMemory>
    ensures { IfOk result
        (λ shown. IfSome shown (λ pattern. pattern ≡ after board.old.rule board.old.cells generations)) }
{
    let made = board.advance(generations)?;
    if made < generations {
        return Ok(None);
    }
    Ok(Some(board.pattern(alloc)?))
}
