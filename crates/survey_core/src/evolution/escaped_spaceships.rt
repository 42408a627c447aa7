//! Escaped spaceships: nothing else in the pattern can ever catch up with them, so they may be removed from the board.
//!
//! ```text
//! O O . . . . . . .     The depth of a cell is the sum of its column and its row. Under a slow rule such as Life, the
//! . O O . . . . . .     greatest depth of the rest grows by at most 1 in two generations. On average, the depth of a
//! . . . . . . . . .     glider grows by 1 in two generations, since in four generations the glider moves one cell
//! . . . . . . . . .     right and one cell down. If the glider's bounding box begins at least seven deeper than the
//! . . . . . . . O .     deepest cell of the rest, as here (depths 10 and 3), the rest never catches the glider. The
//! . . . . . . . . O     same holds in the three other diagonal directions.
//! . . . . . . O O O
//! ```
//!
//! A spaceship is kept as it was when it was removed, with the time of the removal. For a later time, its cells are
//! moved by its displacement once for each whole period, and run for the remaining generations.

ghost use Rattle.std.specs.Prelude.{◌≡◌, ◌≢◌, ◌+◌, ◌≤◌, ◌^◌, [], IfOk, IfSome, IsTrue, true, unsigned_abs};
ghost use Rattle.std.specs.Prelude.{◌+ℤ◌, ◌*ℤ◌, ◌≤ℤ◌, pos};
ghost use Rattle.plane_core.specs.plane.Bounds.{IsWithin};
ghost use Rattle.plane_core.specs.plane.Cells.{cell_at};
ghost use Rattle.plane_core.specs.plane.Frontiers.{depth};
ghost use Rattle.plane_core.specs.plane.Generations.{after, lies_within};
ghost use Rattle.plane_core.specs.plane.Orientations.{turned_cell};
ghost use Rattle.plane_core.specs.declared.plane.cell.Cell.{Cell};
ghost use Rattle.survey_core.specs.evolution.SplitPatterns.{HasSmallNumbers, IsTraced};
ghost use Rattle.survey_core.specs.evolution.EscapedSpaceships.{BeginsPast, IsForemost, IsPartOf, SpaceshipsRunAlone};
ghost use Rattle.survey_core.specs.evolution.SplitPatterns.{latest_time, spaceship_at};
ghost use Rattle.survey_core.specs.evolution.EscapedSpaceships.{SpaceshipsStayAhead};
ghost use Rattle.survey_core.specs.shapes.Envelopes.{times};
ghost use Rattle.survey_core.specs.UnderWay.{survey_reach};

use crate::far_from_edge::run_on;
use crate::shapes::envelope_bounds::{EnvelopeBounds, difference};
use crate::shapes::memo::Memo;
use code_core::recurrence::Recurrence;
use memory::OutOfMemory;
use plane_core::engine::board::Board;
use plane_core::plane::bounds::Bounds;
use plane_core::plane::orientation::Orientation;
use plane_core::plane::pattern::Pattern;
use plane_core::plane::rule::Rule;
use plane_core::plane::transform::PlaceError;
use std::alloc::Global;

/// The search for escaped spaceships skips a part of the board if the memo doesn't know the part's shape and a test
/// shows that the part doesn't recur within this many generations. Nearly all spaceships that soups of Life leave recur
/// within four generations.
const SHORT: u32 = 8;

/// A spaceship that was removed from a board.
#[derive(Drop)]
pub(crate) struct Spaceship {
    /// The spaceship's cells when it was removed.
    pub(crate) cells: Pattern,
    /// The number of generations that the board had made when the spaceship was removed.
    pub(crate) since: u32,
    /// The period and the displacement of the spaceship.
    pub(crate) recurrence: Recurrence,
}

/// The laws of spaceships. Under a slow rule, the rest of a pattern never comes within two cells of a spaceship that is
/// ahead of it. So each generation of the pattern is the union of the rest and the spaceship, each run alone.
pub fn spaceships_are_never_caught()
    ensures ahead { SpaceshipsStayAhead }
    ensures alone { SpaceshipsRunAlone }
{}

/// Returns `part`, a part of the board, as a spaceship that is removed at `time`. Returns `None` if the part doesn't
/// recur within `limit` generations (1 to 64), if the board has no other cells or the part isn't shown to stay ahead of
/// them, or if [`is_unlikely`] guesses that the part isn't a spaceship.
pub(crate) fn spaceship_of(
    alloc: Global,
    rule: &Rule,
    limit: u32,
    board: &Board,
    part: &Pattern,
    time: u32,
    memo: &mut Memo,
) -> Result<Option<Spaceship>, OutOfMemory>
    requires least { 1 ≤ limit }
    requires most { limit ≤ 64 }
    requires some { part.now ≢ [] }
    requires near { lies_within survey_reach part.now ≡ true }
    requires part { IsPartOf board.now.cells part.now }
    ensures foremost { IfOk result
        (λ found. IfSome found
        (λ spaceship. IsForemost rule.now board.now.cells spaceship.recurrence spaceship.cells)) }
    ensures cells { IfOk result (λ found. IfSome found (λ spaceship. spaceship.cells ≡ part.now)) }
    ensures since { IfOk result (λ found. IfSome found (λ spaceship. spaceship.since ≡ time)) }
    ensures small { IfOk result (λ found. IfSome found HasSmallNumbers) }
{
    part.recall_order();
    if is_unlikely(rule, limit, part, memo) {
        return Ok(None);
    }
    let Some(envelope) = memo.envelope(alloc, rule, limit, part)? else {
        return Ok(None);
    };
    let way = way_of(envelope.recurrence);
    let fast = is_fast(way, envelope.recurrence);
    if !fast {
        return Ok(None);
    }
    let Some(frontier) = board.frontier_without(way, part) else {
        return Ok(None);
    };
    let is_ahead = begins_past(way, frontier, &envelope);
    if !is_ahead {
        return Ok(None);
    }
    let cells = part.copy(alloc)?;
    Ok(Some(Spaceship {
        cells,
        since: time,
        recurrence: envelope.recurrence,
    }))
}

/// Guesses whether a part of a board isn't a spaceship: the guess is `true` if the memo doesn't know the part's shape
/// and a cheap test shows that the part doesn't recur within `SHORT` generations, or within `limit` if that is less.
/// The guess may be wrong for a spaceship whose period is over `SHORT` and whose shape the memo doesn't know. Such
/// a spaceship then stays on the board. The guess saves time, since few changing clusters are spaceships. A part whose
/// shape the memo knows isn't tested, since it usually is a spaceship that isn't ahead yet.
fn is_unlikely(rule: &Rule, limit: u32, part: &Pattern, memo: &Memo) -> bool {
    !memo.knows(rule, limit, part) && part.surely_changes(rule, limit.min(SHORT))
}

/// Returns an orientation that turns the displacement of a spaceship so that it points to the right and down.
fn way_of(recurrence: Recurrence) -> Orientation {
    if recurrence.dx >= 0 {
        if recurrence.dy >= 0 {
            Orientation::Same
        } else {
            Orientation::Flip
        }
    } else if recurrence.dy >= 0 {
        Orientation::Mirror
    } else {
        Orientation::Half
    }
}

/// Checks whether a pattern with this recurrence, turned by the orientation, gets on average at least one cell deeper
/// in two generations.
fn is_fast(way: Orientation, recurrence: Recurrence) -> bool
    ensures { IsTrue result
        → pos recurrence.period ≤ℤ (pos 2 *ℤ depth (turned_cell way (cell_at recurrence.dx recurrence.dy))) }
{
    let Recurrence { period, dx, dy } = recurrence;
    // The cell to which the origin is moved in a period, as a box.
    let step = Bounds {
        left: dx,
        top: dy,
        right: dx,
        bottom: dy,
    };
    i64::from(period) <= 2 * least_depth(way, step)
}

/// Checks whether the bounding box of all phases, turned by the orientation, begins far enough past the frontier.
fn begins_past(way: Orientation, frontier: i32, envelope: &EnvelopeBounds) -> bool
    ensures { IsTrue result → BeginsPast way frontier envelope.now }
{
    let EnvelopeBounds { recurrence, bounds } = *envelope;
    twice_least(frontier, recurrence.period) <= 2 * least_depth(way, bounds)
}

/// Returns twice the smallest depth that suffices for a spaceship with this period: if all cells of its phases are at
/// least so deep, the spaceship is ahead of everything up to the frontier.
fn twice_least(frontier: i32, period: u32) -> i64
    ensures { result ≡ ((pos 2 *ℤ frontier) +ℤ pos (period + 10)) }
{
    2 * i64::from(frontier) + i64::from(period) + 10
}

/// Returns the least depth of the cells of a box after they are turned by the orientation. The depth of a cell is the
/// sum of its column and its row.
fn least_depth(way: Orientation, bounds: Bounds) -> i64
    ensures least { (c : Cell) → IsWithin bounds c → result ≤ℤ depth (turned_cell way c) }
    ensures small { unsigned_abs result ≤ 2 ^ 33 }
{
    let Bounds {
        left,
        top,
        right,
        bottom,
    } = bounds;
    match way {
        Orientation::Same | Orientation::Diagonal => sum(left, top),
        Orientation::Quarter | Orientation::Flip => difference(bottom, left),
        Orientation::ThreeQuarter | Orientation::Mirror => difference(right, top),
        Orientation::Half | Orientation::AntiDiagonal => -sum(right, bottom),
    }
}

/// Returns `one` + `other`.
fn sum(one: i32, other: i32) -> i64
    ensures sum { result ≡ one +ℤ other }
    ensures small { unsigned_abs result ≤ 2 ^ 33 }
{
    i64::from(one) + i64::from(other)
}

/// Returns the cells of the spaceship at `time`. The spaceship is displaced once for each whole period since its
/// removal, and run only for the remaining generations.
pub(crate) fn at_time(
    alloc: Global,
    rule: &Rule,
    spaceship: &Spaceship,
    time: u32,
) -> Result<Pattern, OutOfMemory>
    requires traced { IsTraced rule.now time spaceship.now }
    requires early { time ≤ latest_time + 10001 }
    ensures { IfOk result (λ cells. cells ≡ spaceship_at rule.now time spaceship.now) }
{
    let age = time - spaceship.since;
    let Recurrence { period, dx, dy } = spaceship.recurrence;
    let cycles = age / period;
    let phase = run_on(alloc, rule, age % period, &spaceship.cells)?;
    match phase.shift(alloc, steps(cycles, dx), steps(cycles, dy)) {
        Ok(cells) => Ok(cells),
        Err(PlaceError::Memory(error)) => Err(error),
        Err(PlaceError::OutOfPlane) => unreachable!(),
    }
}

/// Returns `count` times `step`.
fn steps(count: u32, step: i32) -> i32
    requires few { count ≤ 1000000 }
    requires small { unsigned_abs step ≤ 64 }
    ensures { result ≡ times count step }
{
    count as i32 * step
}
