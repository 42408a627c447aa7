//! A table of clusters that recur, since nearly every soup leaves the same few shapes:
//!
//! ```text
//! slot    rule      limit    shape    recurs                         apgcode
//! 516     b3s23     64       OOO      after 2 generations, in place  xp2_7
//! 517     -
//! 518     b3s23     64       OO       after 1 generation, in place   xs4_33
//!                            OO
//! ```
//!
//! The slot is chosen by a hash of the cells relative to the first cell, so a shape has the same slot wherever it is.
//! An entry is about a cluster if rule and limit are the same, and if the shape, displaced, is the cluster. Then the
//! cluster recurs like the shape and has the shape's apgcode, and its envelope is that of the shape, displaced.
//! Otherwise the cluster is run. If it recurs and isn't large, it is named, and what is found replaces the entry.
//!
//! The choice of the slot and of what is kept can't make a finding wrong: if the memo forgets a shape, a survey only
//! takes longer.

ghost use Rattle.std.specs.Prelude.{◌≡◌, ◌≢◌, ◌++◌, ◌+ℤ◌, ◌≤◌, [], All, IfNone, IfOk, IfSome, IsTrue, List, length, take, true};
ghost use Rattle.plane_core.specs.declared.plane.cell.Cell.{Cell};
ghost use Rattle.plane_core.specs.plane.Cells.{InOrder};
ghost use Rattle.plane_core.specs.plane.Generations.{NeverRecurs, lies_within};
ghost use Rattle.code_core.specs.Names.{IsCode};
ghost use Rattle.code_core.specs.Recurrences.{IsCycle};
ghost use Rattle.survey_core.specs.shapes.Memos.{IsAbout};
ghost use Rattle.survey_core.specs.shapes.RecurringShapes.{RecursWithin};
ghost use Rattle.survey_core.specs.shapes.Envelopes.{AreEnvelopes, IsEnvelope};
ghost use Rattle.survey_core.specs.UnderWay.{survey_reach};

use crate::shapes::envelope_bounds::EnvelopeBounds;
use crate::shapes::slot::slot_of;
use code_core::apgcode::Apgcode;
use code_core::name::{name, name_of};
use code_core::recurrence::{Cycle, follow};
use memory::OutOfMemory;
use plane_core::plane::bounds::Bounds;
use plane_core::plane::pattern::Pattern;
use plane_core::plane::rule::Rule;
use std::alloc::Global;
use std::marker::Model;

/// The number of slots of a memo. Soups leave several hundred shapes again and again, and several thousand shapes only
/// once.
const SLOTS: usize = 4096;

/// The most cells of a shape that is kept. Larger shapes hardly ever occur twice, and would take memory.
const MOST_CELLS: usize = 64;

/// A table of the shapes of clusters that recur, with what is known of each shape. A memo can be used for any rules and
/// profiles, one after another. It affects only how long a survey takes, never the finding.
pub(crate) struct Memo {
    slots: Vec<Option<Known>>,
}

/// What is known of a shape under a rule and a limit.
struct Known {
    rule: Rule,
    limit: u32,
    shape: Pattern,
    envelope: EnvelopeBounds,
    code: Apgcode,
}

impl Model for Known {
    ghost use Rattle.survey_core.specs.shapes.Memos.{Fact, IsKnown};

    ghost Value = { Fact };

    ghost view = { λ k.
        record { rule = k.rule; limit = k.limit; shape = k.shape; envelope = k.envelope; code = k.code } };

    ghost invariant = { λ k. IsKnown
        (record { rule = k.rule; limit = k.limit; shape = k.shape; envelope = k.envelope; code = k.code }) };
}

// This isn't derived, because a derived drop is proved anew wherever a memo is dropped.
impl Drop for Memo {
    fn drop(self) {
        let Memo { slots } = self;
        drop(slots);
    }
}

impl Drop for Known {
    fn drop(self) {
        let Known {
            rule: _,
            limit: _,
            shape,
            envelope: _,
            code,
        } = self;
        drop(shape);
        drop(code);
    }
}

impl Memo {
    /// Returns a memo that knows no shape yet. It has room for 4,096 shapes, and takes half a megabyte, or about three
    /// megabytes if all shapes are large. If there is no memory for its slots, it has no slots and remembers no shape.
    pub(crate) fn new(alloc: Global) -> Memo {
        let Ok(mut slots) = Vec::with_capacity(alloc, SLOTS) else {
            return Memo::without_room(alloc);
        };
        for _ in 0..SLOTS {
            let Ok(()) = slots.push(None) else {
                return Memo::without_room(alloc);
            };
        }
        Memo { slots }
    }

    /// Returns a memo without slots, which remembers no shape. It takes no memory.
    pub(crate) fn without_room(alloc: Global) -> Memo {
        Memo {
            slots: Vec::new(alloc),
        }
    }

    /// Returns the envelopes of `patterns`, or `None` if one of them doesn't recur within `limit` generations. `limit`
    /// is from 1 to 64.
    pub(crate) fn envelopes(
        &mut self,
        alloc: Global,
        rule: &Rule,
        limit: u32,
        patterns: &[Pattern],
    ) -> Result<Option<Vec<EnvelopeBounds>>, OutOfMemory>
        requires least { 1 ≤ limit }
        requires most { limit ≤ 64 }
        requires order { All InOrder patterns.now }
        requires some { All (λ pattern. pattern ≢ []) patterns.now }
        requires near { All (λ pattern. lies_within survey_reach pattern ≡ true) patterns.now }
        ensures envelopes { IfOk result
            (λ found. IfSome found (λ envelopes. AreEnvelopes rule.now limit patterns.now envelopes.items)) }
        ensures never { IfOk result (λ found. IfNone found (¬ All (RecursWithin rule.now limit) patterns.now)) }
    {
        let known = self.recalled_envelopes(alloc, rule, limit, patterns)?;
        let (_, others) = patterns.split_at(known.len());
        // Following a large pattern takes long. So a quick test is tried on all others first: if one of them doesn't
        // recur, this test usually shows it.
        if self.any_surely_changes(rule, limit, others) {
            return Ok(None);
        }
        self.other_envelopes(alloc, rule, limit, others, known)
    }

    /// Returns the envelopes of the patterns before the first one that isn't remembered. Usually all patterns are
    /// remembered.
    fn recalled_envelopes(
        &self,
        alloc: Global,
        rule: &Rule,
        limit: u32,
        patterns: &[Pattern],
    ) -> Result<Vec<EnvelopeBounds>, OutOfMemory>
        ensures few { IfOk result (λ envelopes. length envelopes.items ≤ length patterns.now) }
        ensures envelopes { IfOk result (λ envelopes. AreEnvelopes rule.now limit
            (take (length envelopes.items) patterns.now) envelopes.items) }
    {
        let mut envelopes = Vec::with_capacity(alloc, patterns.len())?;
        for pattern in patterns {
            let Some(envelope) = self.recalled_envelope(rule, limit, pattern) else {
                return Ok(envelopes);
            };
            envelopes.push(envelope)?;
        }
        Ok(envelopes)
    }

    /// Returns the known envelopes, followed by the envelopes of the other patterns, or `None` if one of the other
    /// patterns doesn't recur within `limit` generations.
    fn other_envelopes(
        &mut self,
        alloc: Global,
        rule: &Rule,
        limit: u32,
        others: &[Pattern],
        known: Vec<EnvelopeBounds>,
    ) -> Result<Option<Vec<EnvelopeBounds>>, OutOfMemory>
        requires least { 1 ≤ limit }
        requires most { limit ≤ 64 }
        requires order { All InOrder others.now }
        requires some { All (λ pattern. pattern ≢ []) others.now }
        requires near { All (λ pattern. lies_within survey_reach pattern ≡ true) others.now }
        ensures envelopes { (first : List (List Cell)) → AreEnvelopes rule.now limit first known.items
            → IfOk result (λ found. IfSome found
            (λ envelopes. AreEnvelopes rule.now limit (first ++ others.now) envelopes.items)) }
        ensures never { IfOk result (λ found. IfNone found (¬ All (RecursWithin rule.now limit) others.now)) }
    {
        let mut envelopes = known;
        for pattern in others {
            let Some(envelope) = self.envelope(alloc, rule, limit, pattern)? else {
                return Ok(None);
            };
            envelopes.push(envelope)?;
        }
        Ok(Some(envelopes))
    }

    /// Returns `true` only if one of `patterns` doesn't recur within `limit` generations. `false` says nothing.
    fn any_surely_changes(&self, rule: &Rule, limit: u32, patterns: &[Pattern]) -> bool
        ensures { IsTrue result → ¬ All (RecursWithin rule.now limit) patterns.now }
    {
        for pattern in patterns {
            if self.recalled(rule, limit, pattern).is_some() {
                continue;
            }
            if pattern.surely_changes(rule, limit) {
                return true;
            }
        }
        false
    }

    /// Returns the envelope of `pattern`, or `None` if it doesn't recur within `limit` generations. A pattern that
    /// recurs is named and kept in its slot, unless it is large. `limit` is from 1 to 64.
    pub(crate) fn envelope(
        &mut self,
        alloc: Global,
        rule: &Rule,
        limit: u32,
        pattern: &Pattern,
    ) -> Result<Option<EnvelopeBounds>, OutOfMemory>
        requires least { 1 ≤ limit }
        requires most { limit ≤ 64 }
        requires order { InOrder pattern.now }
        requires some { pattern.now ≢ [] }
        requires near { lies_within survey_reach pattern.now ≡ true }
        ensures envelope { IfOk result (λ found. IfSome found (IsEnvelope rule.now limit pattern.now)) }
        ensures never { IfOk result (λ found. IfNone found (¬ RecursWithin rule.now limit pattern.now)) }
    {
        if let Some(envelope) = self.recalled_envelope(rule, limit, pattern) {
            return Ok(Some(envelope));
        }
        let Some(cycle) = cycle_of(alloc, rule, limit, pattern)? else {
            return Ok(None);
        };
        let envelope = EnvelopeBounds::of(pattern, &cycle);
        self.keep(alloc, rule, limit, pattern, &cycle, envelope)?;
        Ok(Some(envelope))
    }

    /// Names `pattern`, whose cycle is `cycle`, and keeps what is known of it in its slot. Does nothing if the pattern
    /// is large, or if the memo has no slots.
    fn keep(
        &mut self,
        alloc: Global,
        rule: &Rule,
        limit: u32,
        pattern: &Pattern,
        cycle: &Cycle,
        envelope: EnvelopeBounds,
    ) -> Result<(), OutOfMemory>
        requires cycle { IsCycle rule.now pattern.now limit cycle.now.phases.items cycle.now.recurrence }
        requires envelope { IsEnvelope rule.now limit pattern.now envelope }
    {
        let slot = slot_of(pattern, self.slots.len());
        if slot >= self.slots.len() || pattern.population() > MOST_CELLS {
            return Ok(());
        }
        let code = name_of(alloc, pattern, cycle)?;
        let shape = pattern.copy(alloc)?;
        self.slots[slot] = Some(Known {
            rule: *rule,
            limit,
            shape,
            envelope,
            code,
        });
        Ok(())
    }

    /// Returns the apgcode of a pattern, or `None` if the pattern isn't remembered.
    pub(crate) fn known_code(&self, rule: &Rule, limit: u32, pattern: &Pattern) -> Option<&Apgcode>
        ensures { IfSome result (λ code. IsCode rule.now pattern.now limit code.now) }
    {
        let Some((known, _)) = self.recalled(rule, limit, pattern) else {
            return None;
        };
        Some(&known.code)
    }

    /// Checks whether a pattern is remembered.
    pub(crate) fn knows(&self, rule: &Rule, limit: u32, pattern: &Pattern) -> bool {
        self.recalled(rule, limit, pattern).is_some()
    }

    /// Returns the envelope of a pattern: the envelope of the shape that is kept, moved to the pattern. Returns `None`
    /// if the pattern isn't remembered, or if the numbers of its envelope don't fit in 32 bits.
    fn recalled_envelope(
        &self,
        rule: &Rule,
        limit: u32,
        pattern: &Pattern,
    ) -> Option<EnvelopeBounds>
        ensures { IfSome result (IsEnvelope rule.now limit pattern.now) }
    {
        let Some((known, shift)) = self.recalled(rule, limit, pattern) else {
            return None;
        };
        let EnvelopeBounds { recurrence, bounds } = known.envelope;
        let Some((left, right)) = moved(bounds.left, bounds.right, shift.0) else {
            return None;
        };
        let Some((top, bottom)) = moved(bounds.top, bounds.bottom, shift.1) else {
            return None;
        };
        let bounds = Bounds {
            left,
            top,
            right,
            bottom,
        };
        Some(EnvelopeBounds { recurrence, bounds })
    }

    /// Returns what is known of a pattern, and the displacement of the pattern from the shape that is kept, or `None`
    /// if the pattern isn't remembered.
    fn recalled(&self, rule: &Rule, limit: u32, pattern: &Pattern) -> Option<(&Known, (i32, i32))>
        ensures { IfSome result (λ found. IsAbout rule.now limit pattern.now found.1 found.0.now) }
    {
        let slots = self.slots.as_slice();
        let Some(Some(known)) = slots.get(slot_of(pattern, slots.len())) else {
            return None;
        };
        if known.limit != limit || known.rule != *rule {
            return None;
        }
        let Some(shift) = known.shape.shift_to(pattern) else {
            return None;
        };
        Some((known, shift))
    }
}

/// Returns the columns or rows `first` and `last`, moved by `by`, or `None` if one of them then doesn't fit in 32 bits.
fn moved(first: i32, last: i32, by: i32) -> Option<(i32, i32)>
    ensures first { IfSome result (λ to. to.0 ≡ first +ℤ by) }
    ensures last { IfSome result (λ to. to.1 ≡ last +ℤ by) }
{
    first.checked_add(by).zip(last.checked_add(by))
}

/// Returns the apgcode of a pattern that recurs within `limit` generations. `limit` is from 1 to 64.
pub(crate) fn code_of(
    alloc: Global,
    rule: &Rule,
    limit: u32,
    pattern: &Pattern,
) -> Result<Apgcode, OutOfMemory>
    requires least { 1 ≤ limit }
    requires most { limit ≤ 64 }
    requires some { pattern.now ≢ [] }
    requires near { lies_within survey_reach pattern.now ≡ true }
    requires recurs { RecursWithin rule.now limit pattern.now }
    ensures { IfOk result (IsCode rule.now pattern.now limit) }
{
    match name(alloc, pattern, rule, limit) {
        Ok(Some(code)) => Ok(code),
        Ok(None) => unreachable!(),
        Err(error) => Err(error.refusal()),
    }
}

/// Returns the phases and the recurrence of a pattern, or `None` if it doesn't recur within `limit` generations, 1 to
/// 64.
fn cycle_of(
    alloc: Global,
    rule: &Rule,
    limit: u32,
    pattern: &Pattern,
) -> Result<Option<Cycle>, OutOfMemory>
    requires least { 1 ≤ limit }
    requires most { limit ≤ 64 }
    requires some { pattern.now ≢ [] }
    requires near { lies_within survey_reach pattern.now ≡ true }
    ensures cycle { IfOk result (λ found. IfSome found
        (λ cycle. IsCycle rule.now pattern.now limit cycle.phases.items cycle.recurrence)) }
    ensures never { IfOk result (λ found. IfNone found (NeverRecurs rule.now pattern.now limit)) }
{
    match follow(alloc, pattern, rule, limit) {
        Ok(found) => Ok(found),
        Err(error) => Err(error.refusal()),
    }
}
