//! Sets of soup numbers, as ranges.
//!
//! ```text
//! 10+2, 0+4, 4+1      any ranges: first+count
//! 0+5, 10+2           their normal form: ascending, none empty, none touching the next
//! ```

ghost use Rattle.std.specs.Prelude.{◌≡◌, ◌↔◌, ◌≤◌, ◌+◌, ◌++◌, IfOk, IfNone, IfSome, IsTrue, All, OnOk, Some, if◌then◌else◌};
ghost use Rattle.std.specs.List.{filter, list_any};
ghost use Rattle.std.specs.List.Sorted.{IsNonDecreasingBy, IsPermutation};
ghost use Rattle.ranges.specs.RangeLists.{pair_text, written};
ghost use Rattle.ranges.specs.RangeSteps.{Ascending, has_numbers, shares};
ghost use Rattle.ranges.specs.Ranges.{AreBelow, AreNormal, AreSmall, IsNormalForm, OneNormalForm, Overlap, ShareNumber};
ghost use Rattle.ranges.specs.Ranges.{end_of, is_in, is_in_range, number_bound, size_of};

use memory::OutOfMemory;
use std::alloc::Global;
use std::fmt;
use std::marker::Model;

/// The bound of soup numbers: each is below 2^40. That is enough for any census, and the sum of two soup numbers fits
/// into a `u64`.
pub const NUMBER_BOUND: u64 = 1 << 40;

/// The most soup numbers that a haul may have when it is opened, 2^24, so that the haul fits into memory.
pub const MOST_NUMBERS: u64 = 1 << 24;

/// The `count` soup numbers from `first` on.
#[derive(Clone, Copy, Debug, PartialEq, Eq)]
pub struct Range {
    pub first: u64,
    pub count: u64,
}

/// Shows the range as it is written in a list: `first+count`, such as `10+2`.
impl fmt::Display for Range {
    ghost output = { λ range. Some (pair_text (written range)) };

    fn fmt<W: fmt::Write>(&self, f: &mut fmt::Formatter<W>) -> fmt::Result {
        let Range { first, count } = *self;
        write!(f, "{first}+{count}")
    }
}

impl Range {
    /// Checks whether `number` is in the range.
    fn has(&self, number: u64) -> bool
        ensures { result ≡ is_in_range number self.now }
    {
        self.first <= number && number - self.first < self.count
    }

    /// Checks whether the range's end, `first + count`, is at most 2^40.
    fn is_below(&self) -> bool
        ensures { IsTrue result ↔ (end_of self.now ≤ number_bound) }
    {
        self.first <= NUMBER_BOUND && self.count <= NUMBER_BOUND - self.first
    }

    /// Checks whether the two ranges have a number in common.
    fn shares(&self, other: &Range) -> bool
        requires own { end_of self.now ≤ number_bound }
        requires others { end_of other.now ≤ number_bound }
        ensures { result ≡ shares self.now other.now }
    {
        let first = self.first.max(other.first);
        let end = (self.first + self.count).min(other.first + other.count);
        first < end
    }
}

/// Ranges in normal form: they ascend, none is empty, and at least one number is left out between two of them.
#[derive(Debug, Drop)]
pub struct Ranges {
    ranges: Vec<Range>,
}

impl Model for Ranges {
    ghost use Rattle.std.specs.Prelude.{List};
    ghost use Rattle.ranges.specs.Ranges.{AreBelow, AreNormal, number_bound};
    ghost use Rattle.ranges.specs.declared.range.Range.{Range as Numbers};

    ghost Value = { List Numbers };

    ghost view = { λ r. r.ranges.items };

    ghost invariant = { λ r. AreNormal r.ranges.items × AreBelow number_bound r.ranges.items };
}

impl Ranges {
    /// Returns the ranges in ascending order.
    pub fn as_slice(&self) -> &[Range]
        ensures ranges { result.now ≡ self.now }
        ensures normal { AreNormal self.now }
        ensures below { AreBelow number_bound self.now }
    {
        self.ranges.as_slice()
    }

    /// Checks whether `number` is in the set. Only the last range that begins at `number` or before it can have the
    /// number, and a binary search finds that range.
    pub fn has(&self, number: u64) -> bool
        ensures { result ≡ is_in self.now number }
    {
        let ranges = self.as_slice();
        let begun = ranges.partition_point(|range| range.first <= number);
        match ranges[..begun].last() {
            Some(range) => range.has(number),
            None => false,
        }
    }

    /// Returns the normal form of `ranges`. No two of them may share a number, and none may end past 2^40.
    ///
    /// # Errors
    ///
    /// [`OutOfMemory`] if memory runs out.
    pub fn normal_form(alloc: Global, ranges: &[Range]) -> Result<Ranges, OutOfMemory>
        requires below { AreBelow number_bound ranges.now }
        requires apart { ¬ Overlap ranges.now }
        ensures form { IfOk result (IsNormalForm ranges.now) }
        ensures size { IfOk result (λ normal. size_of normal ≡ size_of ranges.now) }
        ensures below { IfOk result (AreBelow number_bound) }
    {
        let ascending = ascending(alloc, ranges)?;
        let ranges = joined(alloc, ascending.as_slice())?;
        Ok(Ranges { ranges })
    }

    /// Returns the union of two sets that share no number.
    ///
    /// # Errors
    ///
    /// [`OutOfMemory`] if memory runs out.
    pub fn union(&self, alloc: Global, other: &Ranges) -> Result<Ranges, OutOfMemory>
        requires apart { ¬ ShareNumber self.now other.now }
        ensures form { IfOk result (IsNormalForm (self.now ++ other.now)) }
        ensures size { IfOk result (λ union. size_of union ≡ size_of self.now + size_of other.now) }
        ensures below { IfOk result (AreBelow number_bound) }
    {
        let mut both = Vec::from_slice(alloc, self.as_slice())?;
        both.extend_from_slice(other.as_slice())?;
        Ranges::normal_form(alloc, both.as_slice())
    }

    /// Checks whether the two sets have a number in common.
    pub fn share_number(&self, other: &Ranges) -> bool
        ensures { IsTrue result ↔ ShareNumber self.now other.now }
    {
        let ranges = self.as_slice();
        for range in other.as_slice() {
            if shares_any(*range, ranges) {
                return true;
            }
        }
        false
    }

    /// Returns a copy of the ranges.
    ///
    /// # Errors
    ///
    /// [`OutOfMemory`] if memory runs out.
    pub fn copy(&self, alloc: Global) -> Result<Ranges, OutOfMemory>
        ensures { IfOk result (λ ranges. ranges ≡ self.now) }
    {
        let Ranges { ranges } = self;
        let ranges = Vec::from_slice(alloc, ranges.as_slice())?;
        Ok(Ranges { ranges })
    }
}

/// The law that a set has one normal form: ranges in normal form that give the same set are the same list.
#[tactic(auto, using(crate::proofs::NormalLemmas::normal_forms))]
pub fn one_normal_form()
    ensures { OneNormalForm }
{}

/// Returns the sum of the ranges' counts, or `None` if a range ends past 2^40 or the sum is more than 2^24.
pub fn small_size(ranges: &[Range]) -> Option<u64>
    ensures small { IfSome result (λ size. (size ≡ size_of ranges.now) × AreSmall ranges.now) }
    ensures large { IfNone result (¬ AreSmall ranges.now) }
{
    let mut size = 0;
    for range in ranges {
        let below = range.is_below();
        if !below || range.count > MOST_NUMBERS - size {
            return None;
        }
        size += range.count;
    }
    Some(size)
}

/// Returns the ranges that aren't empty, in ascending order.
fn ascending(alloc: Global, ranges: &[Range]) -> Result<Vec<Range>, OutOfMemory>
    ensures ordered { IfOk result (λ ordered. IsNonDecreasingBy (λ r. r.first) ordered.items) }
    ensures same { IfOk result (λ ordered. IsPermutation (filter has_numbers ranges.now) ordered.items) }
{
    let mut ordered = with_numbers(alloc, ranges)?;
    ordered.sort_by_key(|range| range.first)?;
    Ok(ordered)
}

/// Returns the ranges that aren't empty, in the same order.
fn with_numbers(alloc: Global, ranges: &[Range]) -> Result<Vec<Range>, OutOfMemory>
    ensures { IfOk result (λ some. some.items ≡ filter has_numbers ranges.now) }
{
    let mut some = Vec::new(alloc);
    for range in ranges {
        if range.count > 0 {
            some.push(*range)?;
        }
    }
    Ok(some)
}

/// Returns the ranges, with each series of ranges that touch joined into one range. The given ranges have to ascend and
/// share no number, and none of them may be empty.
fn joined(alloc: Global, ascending: &[Range]) -> Result<Vec<Range>, OutOfMemory>
    requires ascending { Ascending ascending.now }
    requires below { AreBelow number_bound ascending.now }
    ensures form { IfOk result (λ joined. IsNormalForm ascending.now joined.items) }
    ensures size { IfOk result (λ joined. size_of joined.items ≡ size_of ascending.now) }
    ensures below { IfOk result (λ joined. AreBelow number_bound joined.items) }
{
    let mut joined = Vec::new(alloc);
    let Some((first, more)) = ascending.split_first() else {
        return Ok(joined);
    };
    let mut latest = *first;
    for range in more {
        if latest.first + latest.count == range.first {
            latest.count += range.count;
        } else {
            joined.push(latest)?;
            latest = *range;
        }
    }
    joined.push(latest)?;
    Ok(joined)
}

/// Checks whether two of the ranges have a number in common.
pub fn overlap(ranges: &[Range]) -> bool
    requires { AreBelow number_bound ranges.now }
    ensures { IsTrue result ↔ Overlap ranges.now }
{
    for (place, range) in ranges.iter().enumerate() {
        let met = shares_any(*range, &ranges[..place]);
        if met {
            return true;
        }
    }
    false
}

/// Checks whether `range` has a number in common with one of the others.
fn shares_any(range: Range, others: &[Range]) -> bool
    requires own { end_of range ≤ number_bound }
    requires others { AreBelow number_bound others.now }
    ensures { result ≡ list_any (shares range) others.now }
{
    for other in others {
        if range.shares(other) {
            return true;
        }
    }
    false
}
