//! Finds how a pattern recurs, and its phases: generations are made until one of them is the pattern again, moved or
//! not, or until a limit is reached.
//!
//! ```text
//! phase 0  ->  phase 1  ->  ..  ->  phase p - 1  ->  phase 0 again, moved by (dx, dy)
//! ```
ghost use Rattle.std.specs.Prelude.{◌≡◌, ◌≢◌, ◌++◌, ◌<◌, ◌≤◌, ◌+◌, suc, [], ◌∷◌, Err};
ghost use Rattle.std.specs.Prelude.{OnOk};
ghost use Rattle.code_core.specs.Recurrences.{IsCycle, Recurs, SearchEnds};

use plane_core::generation::StepError;
use plane_core::plane::pattern::Pattern;
use plane_core::plane::rule::Rule;
use std::alloc::Global;

/// How a pattern recurs: after `period` generations, and not earlier, it is the same pattern again, moved by (dx, dy).
/// [`Recurrence::find`] follows a pattern until it recurs.
#[derive(Clone, Copy, Debug, PartialEq, Eq)]
pub struct Recurrence {
    /// The smallest number of generations after which the pattern recurs, at least 1.
    pub period: u32,
    /// The number of cells by which the pattern moves to the right in a period. It is negative if the pattern moves to
    /// the left.
    pub dx: i32,
    /// The number of cells by which the pattern moves down in a period. It is negative if the pattern moves up.
    pub dy: i32,
}

impl Recurrence {
    /// Returns how `pattern` recurs under `rule`, or `None` if none of the generations 1 to `limit` is the pattern
    /// again, moved or not. Unless a quick test shows that the pattern doesn't recur, its generations are made in
    /// order, up to `limit` or until one of them is the pattern again.
    ///
    /// `pattern` must not be empty, and `limit` must be from 1 to 64.
    ///
    /// # Errors
    ///
    /// - [`StepError::Edge`] if a generation whose successor is needed has a cell with a coordinate of -1,000,000 or
    ///   1,000,000. This can't happen if every cell starts at least `limit` cells inside that bound. If `pattern`
    ///   itself has such a cell, the error is returned before any memory is asked for.
    /// - [`StepError::Memory`] if memory runs out.
    ///
    /// The first error ends the search.
    pub fn find(
        alloc: Global,
        pattern: &Pattern,
        rule: &Rule,
        limit: u32,
    ) -> Result<Option<Recurrence>, StepError>
        requires pattern { pattern.now ≢ [] }
        requires least { 1 ≤ limit }
        requires most { limit ≤ 64 }
        ensures { SearchEnds (Recurs rule.now pattern.now limit) rule.now pattern.now limit result }
    {
        match follow_or_reject(alloc, pattern, rule, limit)? {
            Some(cycle) => Ok(Some(cycle.recurrence)),
            None => Ok(None),
        }
    }
}

/// The largest number of live cells of a pattern whose generations are kept from the start. A pattern with more live
/// cells is first followed without keeping its generations, to find out whether it recurs.
const MOST_KEPT: usize = 4096;

/// A pattern that recurs: its phases, beginning with the pattern itself, and how it recurs.
#[derive(Drop)]
pub struct Cycle {
    pub phases: Vec<Pattern>,
    pub recurrence: Recurrence,
}

/// Follows the pattern as [`follow`] does, unless a quick test shows that the pattern doesn't recur within `limit`
/// generations. Then returns `None`. A pattern that touches the edge isn't tested: the error is returned first.
pub(crate) fn follow_or_reject(
    alloc: Global,
    pattern: &Pattern,
    rule: &Rule,
    limit: u32,
) -> Result<Option<Cycle>, StepError>
    requires pattern { pattern.now ≢ [] }
    requires least { 1 ≤ limit }
    ensures { SearchEnds (λ cycle. IsCycle rule.now pattern.now limit cycle.phases.items cycle.recurrence)
        rule.now pattern.now limit result }
{
    if pattern.touches_edge() {
        return Err(StepError::Edge);
    }
    // Most patterns that don't recur are small. For a small pattern, this test is much faster than making the phases.
    if pattern.surely_changes(rule, limit) {
        return Ok(None);
    }
    follow(alloc, pattern, rule, limit)
}

/// Follows the pattern until it recurs, and returns its phases and how it recurs. Returns `None` if none of the
/// generations 1 to `limit` is the pattern again, moved or not.
///
/// `pattern` must not be empty, and `limit` must be at least 1.
///
/// # Errors
///
/// Those of [`Recurrence::find`].
pub fn follow(
    alloc: Global,
    pattern: &Pattern,
    rule: &Rule,
    limit: u32,
) -> Result<Option<Cycle>, StepError>
    requires pattern { pattern.now ≢ [] }
    requires least { 1 ≤ limit }
    ensures { SearchEnds (λ cycle. IsCycle rule.now pattern.now limit cycle.phases.items cycle.recurrence)
        rule.now pattern.now limit result }
{
    if pattern.population() > MOST_KEPT {
        // The generations of a large pattern take much memory, so they are kept only if the pattern is known to recur.
        let Some(_) = search(alloc, pattern, rule, limit)? else {
            return Ok(None);
        };
    }
    keep_phases(alloc, pattern, rule, limit)
}

/// Returns how the pattern recurs, or `None` if none of the generations 1 to `limit` is the pattern again, moved or
/// not. Each generation is dropped when the next one has been made.
fn search(
    alloc: Global,
    pattern: &Pattern,
    rule: &Rule,
    limit: u32,
) -> Result<Option<Recurrence>, StepError>
    requires pattern { pattern.now ≢ [] }
    requires least { 1 ≤ limit }
    ensures { SearchEnds (Recurs rule.now pattern.now limit) rule.now pattern.now limit result }
{
    if pattern.touches_edge() {
        return Err(StepError::Edge);
    }
    let mut latest = pattern.copy(alloc)?;
    for age in 0..limit {
        let next = latest.step(alloc, rule)?;
        if let Some((dx, dy)) = pattern.shift_to(&next) {
            return Ok(Some(recurrence_at(age, dx, dy)));
        }
        latest = next;
    }
    Ok(None)
}

/// Follows the pattern as [`follow`] does, but keeps its generations from the start, however large the pattern is.
fn keep_phases(
    alloc: Global,
    pattern: &Pattern,
    rule: &Rule,
    limit: u32,
) -> Result<Option<Cycle>, StepError>
    requires pattern { pattern.now ≢ [] }
    requires least { 1 ≤ limit }
    ensures { SearchEnds (λ cycle. IsCycle rule.now pattern.now limit cycle.phases.items cycle.recurrence)
        rule.now pattern.now limit result }
{
    if pattern.touches_edge() {
        return Err(StepError::Edge);
    }
    let mut phases = Vec::new(alloc);
    let mut latest = pattern.copy(alloc)?;
    for age in 0..limit {
        let next = latest.step(alloc, rule)?;
        phases.push(latest)?;
        if let Some((dx, dy)) = pattern.shift_to(&next) {
            let recurrence = recurrence_at(age, dx, dy);
            return Ok(Some(Cycle { phases, recurrence }));
        }
        latest = next;
    }
    Ok(None)
}

/// Returns the recurrence with a period of `age` + 1 generations and a move by (dx, dy).
fn recurrence_at(age: u32, dx: i32, dy: i32) -> Recurrence
    requires { age < u32.MAX }
    ensures { result ≡ record { period = suc age; dx = dx; dy = dy } }
{
    Recurrence {
        period: age + 1,
        dx,
        dy,
    }
}
