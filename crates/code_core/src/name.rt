//! Names a pattern, in two steps. First the pattern is followed until it recurs, which gives its kind, its period and
//! its phases. Then the texts of all phases in the eight orientations are compared, and the apgcode ends with the least
//! one. A shorter text is less than a longer one, and texts of the same length are in ASCII order.
//!
//! ```text
//! generation 0    generation 1    generation 2
//!     ...             .O.             ...
//!     OOO             .O.             OOO       it recurs in place after 2 generations: xp2
//!     ...             .O.             ...
//!
//! lying: 111      upright: 7                    two texts, of which 7 is the shorter one: xp2_7
//! ```
//!
//! The phases are kept, so they aren't made again for their texts. No text is made for a pattern that doesn't recur.

ghost use Rattle.std.specs.Prelude.{Option, ℕ, ◌≡◌, ◌≢◌, ◌<◌, ◌≤◌, [], Some, Err, length, option_map};
ghost use Rattle.std.specs.Prelude.{string_bytes, IfOk};
ghost use Rattle.std.specs.Cmp.{IsTotalOrder};
ghost use Rattle.plane_core.specs.plane.Rules.{Numbers};
ghost use Rattle.code_core.specs.Names.{CodesAreDetermined, CodesHaveTheirShape};
ghost use Rattle.code_core.specs.Names.{IsCode, OnlyEqualTextsTie, IsLeastOf, kind_of, number_of, text_cmp};
ghost use Rattle.code_core.specs.Least.{Among, IsImageAt, IsImageOf, IsNameBy, earlier_text};
ghost use Rattle.code_core.specs.Recurrences.{IsCycle, SearchEnds};

use crate::apgcode::{Apgcode, Kind};
use crate::recurrence::{Cycle, Recurrence, follow_or_reject};
use crate::wechsler::image_text;
use memory::OutOfMemory;
use plane_core::generation::StepError;
use plane_core::plane::orientation::{Orientation, orientations};
use plane_core::plane::pattern::Pattern;
use plane_core::plane::rule::Rule;
use std::alloc::Global;
use std::cmp::Ordering;

/// Returns the apgcode of `pattern` under `rule` (LifeWiki, "Apgcode"), or `None` if none of the generations 1 to
/// `limit` is the pattern again, moved or not. All generations of a pattern that recurs have the same apgcode, and the
/// apgcode stays the same if the pattern is moved, turned or mirrored.
///
/// `pattern` must not be empty, and `limit` must be from 1 to 64.
///
/// # Errors
///
/// - [`StepError::Edge`] if a generation whose successor is needed has a cell with a coordinate of -1,000,000 or
///   1,000,000. This can't happen if every cell starts at least `limit` cells inside that bound. If `pattern` itself
///   has such a cell, the error is returned before any memory is asked for.
/// - [`StepError::Memory`] if memory runs out.
///
/// Unless a quick test shows that the pattern doesn't recur, its generations are made in order, up to `limit` or until
/// one of them is the pattern again. The first error ends the search.
///
/// # Examples
///
/// `crates/tour_tests/src/patterns.rt` names a glider.
pub fn name(
    alloc: Global,
    pattern: &Pattern,
    rule: &Rule,
    limit: u32,
) -> Result<Option<Apgcode>, StepError>
    requires pattern { pattern.now ≢ [] }
    requires least { 1 ≤ limit }
    requires most { limit ≤ 64 }
    ensures { SearchEnds (IsCode rule.now pattern.now limit) rule.now pattern.now limit result }
{
    match follow_or_reject(alloc, pattern, rule, limit)? {
        Some(cycle) => Ok(Some(name_of(alloc, pattern, &cycle)?)),
        None => Ok(None),
    }
}

/// The laws of the order by which the least text is found (shorter texts first, then ASCII order): it is total, and
/// only equal texts tie.
pub fn text_order_is_total()
    ensures total { IsTotalOrder text_cmp }
    ensures ties { OnlyEqualTextsTie }
{}

/// The law that a pattern that isn't empty has at most one apgcode under a rule and a limit.
pub fn codes_are_determined()
    ensures { CodesAreDetermined }
{}

/// The law that an apgcode has 1 to 400 bytes, each one of `a` to `z`, `0` to `9` and `_`, if the population and the
/// limit fit in 64 bits.
pub fn codes_have_their_shape()
    ensures { CodesHaveTheirShape }
{}

/// Returns the apgcode of a pattern that recurs as `cycle` says. It is the same apgcode that [`name`] finds.
///
/// # Errors
///
/// [`OutOfMemory`] if memory runs out.
pub fn name_of(alloc: Global, pattern: &Pattern, cycle: &Cycle) -> Result<Apgcode, OutOfMemory>
    ensures { IfOk result (λ code. (rule : Numbers) (limit : ℕ)
        → IsCycle rule pattern.now limit cycle.now.phases.items cycle.now.recurrence
        → IsCode rule pattern.now limit code) }
{
    let least = least_text(alloc, cycle.phases.as_slice())?;
    let kind = kind_of(cycle.recurrence);
    let number = number_of(kind, pattern, cycle.recurrence);
    Apgcode::make(alloc, kind, number, least.as_deref())
}

/// Returns the number in an apgcode: the population of a still life, and the period of any other object.
fn number_of(kind: Kind, pattern: &Pattern, recurrence: Recurrence) -> u64
    ensures { result ≡ number_of kind pattern.now recurrence }
{
    match kind {
        Kind::Still => pattern.population() as u64,
        Kind::Oscillator | Kind::Ship => u64::from(recurrence.period),
    }
}

/// Returns the kind of a pattern with this recurrence.
fn kind_of(recurrence: Recurrence) -> Kind
    ensures { result ≡ kind_of recurrence }
{
    match (recurrence.dx, recurrence.dy, recurrence.period) {
        (0, 0, 1) => Kind::Still,
        (0, 0, _) => Kind::Oscillator,
        _ => Kind::Ship,
    }
}

/// Returns the least text of the phases in all orientations, or `None` if no phase has a text.
fn least_text(alloc: Global, phases: &[Pattern]) -> Result<Option<String>, OutOfMemory>
    ensures { IfOk result
        (λ found. IsLeastOf (Among (IsImageOf phases.now) (length phases.now)) (option_map string_bytes found)) }
{
    let mut least = None;
    for phase in phases {
        let found = least_image(alloc, phase, orientations())?;
        least = earlier(least, found);
    }
    Ok(least)
}

/// Returns the least text of a pattern in these orientations, or `None` if it has no text.
fn least_image(
    alloc: Global,
    pattern: &Pattern,
    orientations: &[Orientation],
) -> Result<Option<String>, OutOfMemory>
    ensures { IfOk result
        (λ found. IsLeastOf (Among (IsImageAt orientations.now pattern.now) (length orientations.now))
        (option_map string_bytes found)) }
{
    let mut least = None;
    for orientation in orientations {
        let found = image_text(alloc, pattern, *orientation)?;
        least = earlier(least, found);
    }
    Ok(least)
}

/// Returns the one of two texts that comes first in [`text_order`], the only text if just one is given, or `None` if
/// none is given.
fn earlier(one: Option<String>, other: Option<String>) -> Option<String>
    ensures { option_map string_bytes result
        ≡ earlier_text (option_map string_bytes one) (option_map string_bytes other) }
{
    let Some(first) = one else {
        return other;
    };
    let Some(second) = other else {
        return Some(first);
    };
    match text_order(first.as_str(), second.as_str()) {
        Ordering::Less | Ordering::Equal => Some(first),
        Ordering::Greater => Some(second),
    }
}

/// Compares two texts: a shorter one comes first, and texts of the same length are in ASCII order.
fn text_order(one: &str, other: &str) -> Ordering
    ensures { result ≡ text_cmp one.now other.now }
{
    one.len().cmp(&other.len()).then(one.cmp(other))
}
