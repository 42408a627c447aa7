//! Reads a report line in two passes. The first pass looks for a fault, and needs no memory. If there is no fault, the
//! second pass makes the claim.

ghost use Rattle.std.specs.Prelude.{◌≡◌, ◌↔◌, ◌-◌, ℕ, IfNone, IfOk, IfSome, IsErrOf, IsTrue, MatchResult, Some, length};
ghost use Rattle.std.specs.Prelude.{option_map};
ghost use Rattle.memory.specs.Witness.{out_of_memory};
ghost use Rattle.haul_core.specs.ClaimSteps.{HasReadStart, IsAfter, MayFollow, claimed};
ghost use Rattle.haul_core.specs.Claims.{IsClaimLine, IsFirstFaultOf, error_text};
ghost use Rattle.haul_core.specs.FieldSteps.{SpellsField};
ghost use Rattle.haul_core.specs.ReportLines.{claim_line, count_field};
ghost use Rattle.haul_core.specs.LawfulClaims.{Claimed, IsClaim};
ghost use Rattle.haul_core.specs.declared.report.claim.read_start.LineStart.{LineStart as Before};
ghost use Rattle.haul_core.specs.declared.report.claim.read_line.LineError.TheVariants.{BadLine, Memory};

use crate::report::claim::claimed_code::ClaimedCode;
use crate::report::claim::read_field::{count_in, cut_at};
use crate::report::claim::read_start::{LineStart, start_in};
use crate::report::claim::{Claim, SettledClaim};
use memory::OutOfMemory;
use std::alloc::Global;
use std::fmt;
use thiserror::Error;

/// Why a line can't be read as a claim. `census gather` doesn't print the messages of this type, but diagnostics of its
/// own.
#[derive(Clone, Copy, PartialEq, Eq, Error)]
pub enum LineError {
    /// The field that begins at `place` isn't allowed there, or a field is missing at the end of the line. Places count
    /// bytes from 0.
    BadLine { place: usize },
    /// Memory ran out.
    Memory(OutOfMemory),
}

impl fmt::Display for LineError {
    ghost output = { λ error. Some (error_text error) };

    fn fmt<W: fmt::Write>(&self, f: &mut fmt::Formatter<W>) -> fmt::Result {
        match self {
            LineError::BadLine { place } => write!(f, "bad line at {place}"),
            LineError::Memory(_) => f.write_str("out of memory"),
        }
    }
}

/// Shows the message, as `Display` does.
impl fmt::Debug for LineError {
    fn fmt<W: fmt::Write>(&self, f: &mut fmt::Formatter<W>) -> fmt::Result {
        fmt::Display::fmt(self, f)
    }
}

impl<E: Into<OutOfMemory>> From<E> for LineError {
    ghost from_gives = { λ _ e. e ≡ Memory out_of_memory };

    fn from(refused: E) -> LineError {
        LineError::Memory(refused.into())
    }
}

impl Claim {
    /// Reads a report line of version 1 or 2, without the line feed that ends it.
    ///
    /// # Errors
    ///
    /// - [`LineError::BadLine`] if the line isn't the line of a claim, even if there is no memory. The place is where
    ///   the first wrong field begins. If no field is wrong but one is missing, the place is the length of the line.
    /// - [`LineError::Memory`] if memory runs out.
    pub fn read_line(alloc: Global, line: &[u8]) -> Result<Claim, LineError>
        // If a claim is returned, it is lawful, and `line` is its line. If a lawful claim has this line, this claim is
        // returned, unless memory runs out.
        ensures lawful { IfOk result IsClaim }
        ensures line { IfOk result (λ read. claim_line read ≡ line.now) }
        ensures complete { (claim : Claimed) → IsClaim claim → claim_line claim ≡ line.now
            → MatchResult result (λ read. read ≡ claim) (λ error. error ≡ Memory out_of_memory) }

        // These clauses say when each error is returned.
        ensures bad_line { (place : ℕ) → IsErrOf result (BadLine place) → IsFirstFaultOf line.now place }
        ensures memory { IsErrOf result (Memory out_of_memory) → IsClaimLine line.now }
    {
        if let Some(place) = fault_in(line) {
            return Err(LineError::BadLine { place });
        }
        let claim = claim_in(alloc, line)?;
        Ok(claim)
    }
}

/// Returns the place of the first fault of a line, or `None` if the line is the line of a claim.
fn fault_in(line: &[u8]) -> Option<usize>
    ensures fault { IfSome result (IsFirstFaultOf line.now) }
    ensures refused { IfSome result (λ _. ¬ IsClaimLine line.now) }
    ensures none { IfNone result (IsClaimLine line.now) }
{
    match start_in(line) {
        Ok((_, counts)) => fault_in_counts(line, counts),
        Err(there) => Some(place_of(line, there)),
    }
}

/// Returns the place of the first fault among the counts of a line, or `None` if there is none.
fn fault_in_counts(line: &[u8], counts: Option<&[u8]>) -> Option<usize>
    requires { (start : Before) × HasReadStart line.now start (option_map (λ remainder. remainder.now) counts) }
    ensures fault { IfSome result (IsFirstFaultOf line.now) }
    ensures refused { IfSome result (λ _. ¬ IsClaimLine line.now) }
    ensures none { IfNone result (IsClaimLine line.now) }
{
    let mut last = None;
    let mut remainder = counts;
    while let Some(here) = remainder {
        let (field, more) = cut_at(b' ', here);
        let Some((code, _)) = count_after(last, field) else {
            return Some(place_of(line, here));
        };
        last = Some(code);
        remainder = more;
    }
    None
}

/// Returns the place in a line at which its suffix `there` begins.
fn place_of(line: &[u8], there: &[u8]) -> usize
    ensures { result ≡ length line.now - length there.now }
{
    line.len().saturating_sub(there.len())
}

/// Returns the claim of a line that has no fault.
fn claim_in(alloc: Global, line: &[u8]) -> Result<Claim, OutOfMemory>
    requires { IsClaimLine line.now }
    ensures lawful { IfOk result IsClaim }
    ensures line { IfOk result (λ claim. claim_line claim ≡ line.now) }
{
    match start_in(line) {
        Ok((start, counts)) => with_counts(alloc, line, start, counts),
        Err(_) => unreachable!(),
    }
}

/// Returns the claim of a line that has no fault. `start` is what the line says before its counts, and `counts` is the
/// text of the counts, from which they are read.
fn with_counts(
    alloc: Global,
    line: &[u8],
    start: LineStart,
    counts: Option<&[u8]>,
) -> Result<Claim, OutOfMemory>
    requires line { IsClaimLine line.now }
    requires start { HasReadStart line.now start (option_map (λ remainder. remainder.now) counts) }
    ensures lawful { IfOk result IsClaim }
    ensures line { IfOk result (λ claim. claim_line claim ≡ line.now) }
{
    let mut read = Vec::new(alloc);
    let mut last = None;
    let mut remainder = counts;
    while let Some(here) = remainder {
        let (field, more) = cut_at(b' ', here);
        let Some((code, count)) = count_after(last, field) else {
            unreachable!();
        };
        read.push((ClaimedCode::make(alloc, code)?, count))?;
        last = Some(code);
        remainder = more;
    }
    Ok(claim_of(start, read))
}

/// Returns the claim of a line with this start and these counts.
fn claim_of(start: LineStart, counts: Vec<(ClaimedCode, u64)>) -> Claim
    requires { IsClaim (claimed start counts.items) }
    ensures claim { result ≡ claimed start counts.items }
    ensures lawful { IsClaim result }
{
    let settled = match start.settled {
        Some(at_rest) => Some(SettledClaim {
            checkpoint: at_rest.checkpoint,
            for_good: at_rest.for_good,
            counts,
        }),
        None => None,
    };
    Claim {
        version: start.version,
        job: start.job,
        worker: start.worker,
        number: start.number,
        settled,
    }
}

/// Returns the code and the number of a count, or `None` if the field isn't a count, or if its code doesn't come after
/// the code `last`.
fn count_after<'a>(last: Option<&[u8]>, field: &'a [u8]) -> Option<(&'a [u8], u64)>
    ensures { SpellsField (MayFollow (option_map (λ own. own.now) last.entry)) count_field field.now
        (option_map (λ object. (object.0.now, object.1)) result) }
{
    let (code, count) = count_in(field)?;
    if is_after(last, code) {
        Some((code, count))
    } else {
        None
    }
}

/// Checks whether a code comes after the code `last` in ASCII order. Without a `last`, each code does.
fn is_after(last: Option<&[u8]>, code: &[u8]) -> bool
    ensures { IsTrue result ↔ IsAfter (option_map (λ own. own.now) last.entry) code.now }
{
    match last {
        Some(last) => last.cmp(code).is_lt(),
        None => true,
    }
}
