//! Patterns that are far from the edge of the plane. Making such a pattern, or advancing it, fails only if memory runs
//! out.
ghost use Rattle.std.specs.Prelude.{◌≡◌, ◌≤◌, ◌↔◌, IfOk, IsTrue, true};
ghost use Rattle.plane_core.specs.plane.Cells.{set_of};
ghost use Rattle.plane_core.specs.plane.Generations.{after, lies_within, next};
ghost use Rattle.survey_core.specs.UnderWay.{survey_reach};

use memory::OutOfMemory;
use plane_core::plane::cell::Cell;
use plane_core::plane::pattern::{FromCellsError, Pattern};
use plane_core::plane::rule::Rule;
use std::alloc::Global;

/// Returns the pattern of these cells, none of which touches the edge of the plane.
pub(crate) fn pattern_of(alloc: Global, cells: &[Cell]) -> Result<Pattern, OutOfMemory>
    requires { lies_within 999999 cells.now ≡ true }
    ensures { IfOk result (λ pattern. pattern ≡ set_of cells.now) }
{
    match Pattern::from_cells(alloc, cells) {
        Ok(pattern) => Ok(pattern),
        Err(FromCellsError::Memory(error)) => Err(error),
        Err(FromCellsError::OutOfPlane { .. }) => unreachable!(),
    }
}

/// Returns the next generation of a pattern that doesn't touch the edge of the plane.
pub(crate) fn next(alloc: Global, rule: &Rule, pattern: &Pattern) -> Result<Pattern, OutOfMemory>
    requires { lies_within 999999 pattern.now ≡ true }
    ensures { IfOk result (λ later. later ≡ next rule.now pattern.now) }
{
    match pattern.step(alloc, rule) {
        Ok(later) => Ok(later),
        Err(error) => Err(error.refusal()),
    }
}

/// Returns the pattern after `generations` generations, at most 10,001. The pattern's coordinates must be from -101,000
/// to 101,000, so that it can't reach the edge of the plane until then.
pub(crate) fn run_on(
    alloc: Global,
    rule: &Rule,
    generations: u32,
    pattern: &Pattern,
) -> Result<Pattern, OutOfMemory>
    requires near { lies_within survey_reach pattern.now ≡ true }
    requires few { generations ≤ 10001 }
    ensures { IfOk result (λ later. later ≡ after rule.now pattern.now generations) }
{
    match pattern.run(alloc, rule, generations) {
        Ok(later) => Ok(later),
        Err(error) => Err(error.refusal()),
    }
}

/// Checks whether the two lists are the same.
pub(crate) fn are_same(one: &[Cell], other: &[Cell]) -> bool
    ensures { IsTrue result ↔ (one.now ≡ other.now) }
{
    one == other
}
