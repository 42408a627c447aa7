//! The envelope of a cluster that recurs: the bounding box of all its phases, which moves along with it. These are the
//! four phases of the glider, its envelope, and the envelope a cycle of four generations later:
//!
//! ```text
//! .O..    ....    ....    ....    0000.
//! ..O.    O.O.    ..O.    .O..    0bbb1     0: only in the envelope of cycle 0
//! OOO.    .OO.    O.O.    ..OO    0bbb1     1: only in the envelope of cycle 1
//! ....    .O..    .OO.    .OO.    0bbb1     b: in both envelopes
//!                                 .1111
//! ```
//!
//! Two clusters stay apart if their envelopes, one of them grown by 2, have no cell in common in any cycle up to the
//! horizon. Only the displacement of one envelope relative to the other counts. Once an envelope is past a side of the
//! other and doesn't come back to that side, they never meet, and later cycles aren't tested. For a cluster that recurs
//! in place, a cycle may have any length. Two clusters that move with different periods are assumed to come near each
//! other, and are run. Two still lifes stay apart even if their boxes overlap, since clusters are apart at first, and
//! still lifes never change.

ghost use Rattle.std.specs.Prelude.{◌≡◌, ◌↔◌, ◌+◌, ◌*◌, ◌/◌, ◌-ℤ◌, ◌+ℤ◌, ◌<◌, ◌≤◌, ◌<ℤ◌, ◌≤ℤ◌, ◌⊎◌, ◌^◌};
ghost use Rattle.std.specs.Prelude.{pos};
ghost use Rattle.std.specs.Prelude.{ℕ, All, IsTrue, List, get_or, length, unsigned_abs};
ghost use Rattle.std.specs.Int.{int_max, int_min};
ghost use Rattle.plane_core.specs.plane.Bounds.{IsWithin};
ghost use Rattle.plane_core.specs.declared.plane.cell.Cell.{Cell};
ghost use Rattle.survey_core.specs.shapes.Envelopes.{IsStillLife, Serves, SpaceshipsMoveByCycles, StayApart, StayClear};
ghost use Rattle.survey_core.specs.shapes.Envelopes.{gap_stays, gaps_of, is_clear, is_past};

use code_core::recurrence::{Cycle, Recurrence};
use plane_core::plane::bounds::Bounds;
use plane_core::plane::pattern::Pattern;

/// How a cluster recurs, and a box that contains all its phases.
#[derive(Clone, Copy)]
pub(crate) struct EnvelopeBounds {
    pub(crate) recurrence: Recurrence,
    pub(crate) bounds: Bounds,
}

impl EnvelopeBounds {
    /// Returns the envelope of a pattern with these phases.
    pub(crate) fn of(pattern: &Pattern, cycle: &Cycle) -> EnvelopeBounds
        ensures recurrence { result.recurrence ≡ cycle.now.recurrence }
        ensures within { (g : ℕ) (none : List Cell) → g < length cycle.now.phases.items
            → All (IsWithin result.bounds) (get_or cycle.now.phases.items g none) }
    {
        let phases = cycle.phases.as_slice();
        let mut bounds = box_round(pattern);
        for phase in phases {
            bounds = bounds.joined(box_round(phase));
        }
        EnvelopeBounds {
            recurrence: cycle.recurrence,
            bounds,
        }
    }
}

/// Returns the bounding box of the pattern, or an arbitrary box if the pattern is empty.
pub(crate) fn box_round(pattern: &Pattern) -> Bounds
    ensures { All (IsWithin result) pattern.now }
{
    match pattern.bounds() {
        Some(bounds) => bounds,
        None => Bounds {
            left: 0,
            top: 0,
            right: 0,
            bottom: 0,
        },
    }
}

/// Returns `true` only if patterns with these envelopes stay apart up to the horizon. `false` says nothing.
pub(crate) fn stay_apart(horizon: u32, one: &EnvelopeBounds, other: &EnvelopeBounds) -> bool
    requires { horizon ≤ 4096 }
    ensures { IsTrue result → StayApart horizon one.now other.now }
{
    if are_still_and_apart(one, other) || are_still_lives(one, other) {
        return true;
    }
    // The length of a cycle that serves both envelopes, if any length does.
    let period = if is_still(one) {
        other.recurrence.period
    } else {
        one.recurrence.period
    };
    if period == 0 || !serves(period, one) || !serves(period, other) {
        return false;
    }
    are_clear_for(one, other, cycles_in(horizon, period))
}

/// Returns `true` only if both patterns recur in place, and at least two empty columns or rows lie between their boxes.
/// For nearly all pairs the result is `true`, and for most of these a single comparison of two row numbers shows it.
fn are_still_and_apart(one: &EnvelopeBounds, other: &EnvelopeBounds) -> bool
    ensures { IsTrue result → (horizon : ℕ) → StayApart horizon one.now other.now }
{
    if !is_still(one) {
        return false;
    }
    if !is_still(other) {
        return false;
    }
    are_boxes_apart(one.bounds, other.bounds)
}

/// Checks whether both patterns are still lifes. These never change, so they stay apart even if their boxes overlap.
fn are_still_lives(one: &EnvelopeBounds, other: &EnvelopeBounds) -> bool
    ensures { IsTrue result → (horizon : ℕ) → StayApart horizon one.now other.now }
{
    is_still_life(one) && is_still_life(other)
}

/// Checks whether the pattern is a still life.
fn is_still_life(envelope: &EnvelopeBounds) -> bool
    ensures { IsTrue result → IsStillLife envelope.now }
{
    envelope.recurrence.period == 1 && is_still(envelope)
}

/// Checks whether there are at least two empty columns or rows between the boxes. The first test is whether `other`
/// lies above `one`. If `other` is an earlier cluster, it nearly always does, since clusters are ordered by their first
/// rows.
pub(crate) fn are_boxes_apart(one: Bounds, other: Bounds) -> bool
    ensures { result ≡ is_clear one other (pos 0) (pos 0) }
{
    let above = is_past(other.bottom, 0, one.top, 0);
    if above {
        return true;
    }
    let gaps = Gaps::between(one, other, Offset { x: 0, y: 0 });
    gaps.right | gaps.left | gaps.below | gaps.above
}

/// Returns how many cycles begin up to the horizon. Most objects recur after 1, 2 or 4 generations, and then no
/// division is needed.
#[inline(always)]
fn cycles_in(horizon: u32, period: u32) -> u32
    requires horizon { horizon ≤ 4096 }
    requires period { 1 ≤ period }
    ensures { result ≡ horizon / period + 1 }
{
    match period {
        1 => horizon + 1,
        2 => horizon / 2 + 1,
        4 => horizon / 4 + 1,
        _ => horizon / period + 1,
    }
}

/// Checks whether the envelope can be followed in cycles of `period` generations: `period` is the pattern's period, or
/// the pattern recurs in place, so that a cycle may have any length.
fn serves(period: u32, envelope: &EnvelopeBounds) -> bool
    ensures { IsTrue result → Serves period envelope.now }
{
    period == envelope.recurrence.period || is_still(envelope)
}

/// Checks whether the pattern recurs in place.
fn is_still(envelope: &EnvelopeBounds) -> bool
    ensures { IsTrue result ↔ ((envelope.now.recurrence.dx ≡ pos 0) × (envelope.now.recurrence.dy ≡ pos 0)) }
{
    envelope.recurrence.dx == 0 && envelope.recurrence.dy == 0
}

/// Returns `true` only if at least two empty columns or rows lie between the boxes in each of the first `cycles`
/// cycles. Once there is a gap that no later cycle narrows, later cycles aren't tested.
// This isn't inlined, because it would take registers that the caller's loop over pairs needs.
#[inline(never)]
fn are_clear_for(one: &EnvelopeBounds, other: &EnvelopeBounds, cycles: u32) -> bool
    requires { cycles ≤ 4097 }
    ensures { IsTrue result → StayClear cycles one.now other.now }
{
    let step = step(one, other);
    let mut offset = Offset { x: 0, y: 0 };
    for _ in 0..cycles {
        let gaps = Gaps::between(one.bounds, other.bounds, offset);
        if gaps.stay(step) {
            return true;
        }
        let are_clear = gaps.right | gaps.left | gaps.below | gaps.above;
        if !are_clear {
            return false;
        }
        offset = offset.moved(step);
    }
    true
}

/// How far one box has moved relative to another.
#[derive(Clone, Copy)]
struct Offset {
    x: i64,
    y: i64,
}

impl Offset {
    /// Returns the offset after another step.
    fn moved(self, step: Offset) -> Offset
        requires across { unsigned_abs self.x + unsigned_abs step.x ≤ 2 ^ 46 }
        requires down { unsigned_abs self.y + unsigned_abs step.y ≤ 2 ^ 46 }
        ensures x { result.x ≡ self.x +ℤ step.x }
        ensures y { result.y ≡ self.y +ℤ step.y }
    {
        Offset {
            x: self.x + step.x,
            y: self.y + step.y,
        }
    }
}

/// Returns how far `other` moves relative to `one` in a cycle.
fn step(one: &EnvelopeBounds, other: &EnvelopeBounds) -> Offset
    ensures x { result.x ≡ other.now.recurrence.dx -ℤ one.now.recurrence.dx }
    ensures y { result.y ≡ other.now.recurrence.dy -ℤ one.now.recurrence.dy }
    ensures across { unsigned_abs result.x ≤ 2 ^ 33 }
    ensures down { unsigned_abs result.y ≤ 2 ^ 33 }
{
    Offset {
        x: difference(one.recurrence.dx, other.recurrence.dx),
        y: difference(one.recurrence.dy, other.recurrence.dy),
    }
}

/// Returns `other` - `one`.
pub(crate) fn difference(one: i32, other: i32) -> i64
    ensures step { result ≡ other -ℤ one }
    ensures small { unsigned_abs result ≤ 2 ^ 33 }
{
    i64::from(other) - i64::from(one)
}

/// For each side of a box: whether another box lies beyond this side, with at least two empty columns or rows between
/// the boxes.
#[derive(Clone, Copy)]
struct Gaps {
    right: bool,
    left: bool,
    below: bool,
    above: bool,
}

impl Gaps {
    /// Returns the sides of `one` beyond which `other` lies after a move by `offset`.
    fn between(one: Bounds, other: Bounds, offset: Offset) -> Gaps
        requires across { unsigned_abs offset.x ≤ 2 ^ 46 }
        requires down { unsigned_abs offset.y ≤ 2 ^ 46 }
        ensures { result ≡ gaps_of one other offset.x offset.y }
    {
        Gaps {
            right: is_past(one.right, 0, other.left, offset.x),
            left: is_past(other.right, offset.x, one.left, 0),
            below: is_past(one.bottom, 0, other.top, offset.y),
            above: is_past(other.bottom, offset.y, one.top, 0),
        }
    }

    /// Checks whether there is a gap that no further step narrows.
    fn stay(self, step: Offset) -> bool
        ensures { result ≡ gap_stays self step.x step.y }
    {
        (self.right & (step.x >= 0))
            | (self.left & (step.x <= 0))
            | (self.below & (step.y >= 0))
            | (self.above & (step.y <= 0))
    }
}

/// Checks whether the column or row `begin`, moved by `s`, is more than two past the column or row `end`, moved by `t`.
fn is_past(end: i32, t: i64, begin: i32, s: i64) -> bool
    requires end { unsigned_abs t ≤ 2 ^ 46 }
    requires begin { unsigned_abs s ≤ 2 ^ 46 }
    ensures { result ≡ is_past end t begin s }
{
    two_past(placed(end, t)) < placed(begin, s)
}

/// Returns the column or row `at`, moved by `by`.
fn placed(at: i32, by: i64) -> i64
    requires { unsigned_abs by ≤ 2 ^ 46 }
    ensures place { result ≡ at +ℤ by }
    ensures small { unsigned_abs result ≤ 2 ^ 47 }
{
    i64::from(at) + by
}

/// Returns the column or row two further on.
fn two_past(at: i64) -> i64
    requires { unsigned_abs at ≤ 2 ^ 47 }
    ensures { result ≡ at +ℤ pos 2 }
{
    at + 2
}

/// The law of a pattern that recurs after p generations, with some displacement: its generation n * p + r is its
/// generation r, moved by n times the displacement.
#[tactic(auto, using(crate::proofs::lemmas::shapes::EnvelopeLemmas::after_cycles))]
pub fn spaceships_move_by_cycles()
    ensures { SpaceshipsMoveByCycles }
{}
