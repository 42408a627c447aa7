//! Reads a list of ranges in two passes. The first pass looks for a fault, and needs no memory. If there is no fault,
//! the second pass collects the ranges.
//!
//! ```text
//! 0+4,10+2     the ranges are read one after another: 0+4, then 10+2
//!     ^        once 0+4 is read, the remainder of the text begins here
//! ```

ghost use Rattle.std.specs.Prelude.{◌≡◌, ◌≢◌, ◌⊎◌, ◌≤◌, ◌+◌, ◌*◌, ◌^◌, ◌∷◌, [], ℕ, List, false, option_map, IfErr};
ghost use Rattle.std.specs.Prelude.{IfNone, IfOk, IfSome, IsErrOf, MatchResult};
ghost use Rattle.memory.specs.Witness.{out_of_memory};
ghost use Rattle.ranges.specs.RangeListSteps.{BeginsDecimal, BeginsNoDecimal, BeginsRange, IsNoRange, LacksComma};
ghost use Rattle.ranges.specs.RangeListSteps.{Passes, Starts, has_digit};
ghost use Rattle.ranges.specs.RangeLists.{FitU64, IsListText, list_text};
ghost use Rattle.ranges.specs.RangeListFaults.{BeginsLargeDecimal, IsFirstListFault};
ghost use Rattle.ranges.specs.declared.range.Range.{Range as Numbers};
ghost use Rattle.ranges.specs.declared.range_list.ListError.TheVariants.{BadList, Memory};

use crate::range::Range;
use memory::OutOfMemory;
use std::alloc::Global;
use std::fmt;
use thiserror::Error;

/// Why a text can't be read as a list of ranges.
#[derive(Clone, Copy, PartialEq, Eq, Error)]
pub enum ListError {
    /// The byte at `place` isn't allowed there, the text ends there too early, or a decimal of 2^64 or more begins
    /// there. Places count bytes from 0.
    BadList { place: usize },
    /// Memory ran out.
    Memory(OutOfMemory),
}

impl fmt::Display for ListError {
    fn fmt<W: fmt::Write>(&self, f: &mut fmt::Formatter<W>) -> fmt::Result {
        match self {
            ListError::BadList { place } => write!(f, "bad range list at {place}"),
            ListError::Memory(_) => f.write_str("out of memory"),
        }
    }
}

/// Shows the message, as `Display` does.
impl fmt::Debug for ListError {
    fn fmt<W: fmt::Write>(&self, f: &mut fmt::Formatter<W>) -> fmt::Result {
        fmt::Display::fmt(self, f)
    }
}

impl<E: Into<OutOfMemory>> From<E> for ListError {
    ghost from_gives = { λ _ e. e ≡ Memory out_of_memory };

    fn from(refused: E) -> ListError {
        ListError::Memory(refused.into())
    }
}

impl Range {
    /// Reads a list of ranges such as `0+4,10+2`: the first number of each range, a `+` and the count, and a `,`
    /// between two ranges. Numbers are decimals below 2^64 without leading zeros. The empty text is the list without a
    /// range.
    ///
    /// # Errors
    ///
    /// - [`ListError::BadList`] if the text isn't the text of a list, even if there is no memory. The place is that of
    ///   the leftmost fault.
    /// - [`ListError::Memory`] if memory runs out.
    pub fn read_list(alloc: Global, text: &str) -> Result<Vec<Range>, ListError>
        // If ranges are read, `text` is the text of their list. If `text` is the text of a list of ranges whose first
        // numbers and counts are below 2^64, these ranges are read, unless memory runs out.
        ensures fit { IfOk result (λ read. FitU64 read.items) }
        ensures ranges { IfOk result (λ read. list_text read.items ≡ text.now) }
        ensures complete { (ranges : List Numbers) → FitU64 ranges → list_text ranges ≡ text.now
            → MatchResult result (λ read. read.items ≡ ranges) (λ error. error ≡ Memory out_of_memory) }

        // These clauses say when each error is returned.
        ensures bad_list { (place : ℕ) → IsErrOf result (BadList place) → IsFirstListFault text.now place }
        ensures memory { IsErrOf result (Memory out_of_memory) → IsListText text.now }
    {
        let text = text.as_bytes();
        if let Some(place) = fault_in(text) {
            return Err(ListError::BadList { place });
        }
        let ranges = ranges_in(alloc, text)?;
        Ok(ranges)
    }
}

/// Returns the place of the first fault of a text, or `None` if the text is the text of a list of ranges.
#[tactic(auto, using(crate::proofs::ListLemmas::passed_first))]
fn fault_in(text: &[u8]) -> Option<usize>
    ensures fault { IfSome result (IsFirstListFault text.now) }
    ensures refused { IfSome result (λ _. ¬ IsListText text.now) }
    ensures none { IfNone result (IsListText text.now) }
{
    let mut remainder = unless_empty(text);
    while let Some(here) = remainder {
        match next_range(here) {
            Ok((_, more)) => remainder = more,
            Err(there) => return Some(text.len() - there.len()),
        }
    }
    None
}

/// Returns the ranges of a text that has no fault.
#[tactic(auto, using(crate::proofs::ListLemmas::passed_first))]
fn ranges_in(alloc: Global, text: &[u8]) -> Result<Vec<Range>, OutOfMemory>
    requires { IsListText text.now }
    ensures fit { IfOk result (λ read. FitU64 read.items) }
    ensures text { IfOk result (λ read. list_text read.items ≡ text.now) }
{
    let mut ranges = Vec::new(alloc);
    let mut remainder = unless_empty(text);
    while let Some(here) = remainder {
        match next_range(here) {
            Ok((range, more)) => {
                ranges.push(range)?;
                remainder = more;
            }
            Err(_) => unreachable!(),
        }
    }
    Ok(ranges)
}

/// Returns `None` if the text is empty, so that there is no range to read, and the text itself otherwise.
fn unless_empty(text: &[u8]) -> Option<&[u8]>
    ensures { Starts text.now (option_map (λ remainder. remainder.now) result) }
{
    if text.is_empty() { None } else { Some(text) }
}

/// Returns the range at the beginning of a text and, if a comma follows the range, the text after the comma. If there
/// is no range, or if something other than a comma or the end of the text follows it, the error is the text from the
/// fault on.
fn next_range(text: &[u8]) -> Result<(Range, Option<&[u8]>), &[u8]>
    ensures ok { IfOk result (λ next. Passes text.now next.0 (option_map (λ remainder. remainder.now) next.1)) }
    ensures err { IfErr result (λ remainder. IsNoRange text.now remainder.now ⊎ LacksComma text.now remainder.now) }
{
    let (range, remainder) = first_range(text)?;
    match remainder {
        [] => Ok((range, None)),
        [b',', more @ ..] => Ok((range, Some(more))),
        _ => Err(remainder),
    }
}

/// Returns the range at the beginning of a text and the text after it, or the text from the fault on.
fn first_range(text: &[u8]) -> Result<(Range, &[u8]), &[u8]>
    ensures ok { IfOk result (λ first. BeginsRange text.now first.0 first.1.now) }
    ensures err { IfErr result (λ remainder. IsNoRange text.now remainder.now) }
{
    let Some((first, remainder)) = first_decimal(text) else {
        return Err(text);
    };
    let [b'+', remainder @ ..] = remainder else {
        return Err(remainder);
    };
    let Some((count, remainder)) = first_decimal(remainder) else {
        return Err(remainder);
    };
    Ok((Range { first, count }, remainder))
}

/// Returns the decimal at the beginning of a text and the text after it, or `None` if there is no digit or the number
/// is 2^64 or more. A decimal that begins with `0` consists of this digit only.
#[tactic(auto, using(crate::proofs::DecimalLemmas::begins_zero))]
pub fn first_decimal(text: &[u8]) -> Option<(u64, &[u8])>
    ensures some { IfSome result (λ first. BeginsDecimal text.now first.0 first.1.now) }
    ensures none { IfNone result (BeginsNoDecimal text.now) }
{
    let (digit, remainder) = first_digit(text)?;
    if digit == 0 {
        return Some((0, remainder));
    }
    more_digits(digit, remainder)
}

/// Reads the rest of a decimal: the digits at the beginning of `text`. The decimal's first digit, which isn't 0, has
/// been read before. Returns the whole number and the text after its digits, or `None` if the number is 2^64 or more.
#[tactic(auto, using(crate::proofs::DecimalLemmas::reading_first, crate::proofs::DecimalLemmas::reading_done))]
fn more_digits(first: u8, text: &[u8]) -> Option<(u64, &[u8])>
    requires least { 1 ≤ first }
    requires most { first ≤ 9 }
    ensures some { IfSome result (λ read. BeginsDecimal ((48 + first) ∷ text.now) read.0 read.1.now) }
    ensures none { IfNone result (BeginsLargeDecimal ((48 + first) ∷ text.now)) }
{
    let mut number = u64::from(first);
    let mut remainder = text;
    while let Some((digit, more)) = first_digit(remainder) {
        number = with_digit(number, digit)?;
        remainder = more;
    }
    Some((number, remainder))
}

/// Returns the number with the digit appended, or `None` if the result is 2^64 or more.
fn with_digit(number: u64, digit: u8) -> Option<u64>
    requires { digit ≤ 9 }
    ensures some { IfSome result (λ more. more ≡ 10 * number + digit) }
    ensures none { IfNone result (2 ^ 64 ≤ 10 * number + digit) }
{
    number.checked_mul(10)?.checked_add(u64::from(digit))
}

/// Returns the value of the digit at the beginning of a text, and the text after it, or `None` if there is no digit.
fn first_digit(text: &[u8]) -> Option<(u8, &[u8])>
    ensures some { IfSome result (λ first. text.now ≡ (48 + first.0) ∷ first.1.now) }
    ensures digit { IfSome result (λ first. first.0 ≤ 9) }
    ensures none { IfNone result (has_digit text.now ≡ false) }
{
    let (byte, remainder) = text.split_first()?;
    if byte.is_ascii_digit() {
        Some((*byte - b'0', remainder))
    } else {
        None
    }
}
