//! Joins two hauls. The joined haul is built as a third haul, so the two are unchanged if memory runs out.

ghost use Rattle.std.specs.Prelude.{◌≡◌, ◌++◌, List, IfErr, IfNone, IfOk, IfSome, OnOk, map, nat_eq};
ghost use Rattle.std.specs.List.{IsDistinct};
ghost use Rattle.haul_core.specs.Books.{StandsFor};
ghost use Rattle.haul_core.specs.Joins.{CanJoin, Hinders, IsJoined, joined_arrivals};
ghost use Rattle.haul_core.specs.Keeping.{numbers_in};
ghost use Rattle.haul_core.specs.declared.book.arrival.Arrival.{Arrival};

use crate::book::haul::Haul;
use indexmap::IndexMap;
use memory::OutOfMemory;
use std::alloc::Global;
use std::fmt;
use survey_core::job::is_same_job;
use thiserror::Error;

/// Why two hauls were not joined.
#[derive(Clone, Copy, PartialEq, Eq, Error)]
pub enum JoinError {
    /// One of the hauls isn't closed.
    Open,
    /// The hauls are of different jobs.
    OtherJob,
    /// A number is in both sets.
    Overlap,
    /// Memory ran out.
    Memory(OutOfMemory),
}

impl fmt::Display for JoinError {
    fn fmt<W: fmt::Write>(&self, f: &mut fmt::Formatter<W>) -> fmt::Result {
        f.write_str(match self {
            JoinError::Open => "open",
            JoinError::OtherJob => "other job",
            JoinError::Overlap => "ranges overlap",
            JoinError::Memory(_) => "out of memory",
        })
    }
}

/// Shows the message, as `Display` does.
impl fmt::Debug for JoinError {
    fn fmt<W: fmt::Write>(&self, f: &mut fmt::Formatter<W>) -> fmt::Result {
        fmt::Display::fmt(self, f)
    }
}

impl Haul {
    /// Joins two hauls into one. The joined haul is closed, and has taken what the first haul took, followed by what
    /// the second haul took. Its number of workers is the higher of the two, and its set may have more than 2^24
    /// numbers.
    ///
    /// # Errors
    ///
    /// Both hauls, unchanged, and the first of these that holds:
    ///
    /// - [`JoinError::Open`] if one of the hauls isn't closed.
    /// - [`JoinError::OtherJob`] if the hauls are of different jobs.
    /// - [`JoinError::Overlap`] if a number is in both sets.
    /// - [`JoinError::Memory`] if memory runs out.
    pub fn join(self, other: Haul) -> Result<Haul, (Haul, Haul, JoinError)>
        // These clauses say that the hauls could be joined, what the joined haul is, and which arrivals lead to it.
        ensures can { OnOk result (CanJoin self other) }
        ensures joined { IfOk result (IsJoined self other) }
        ensures stands { (before after : List Arrival) → StandsFor before self → StandsFor after other
            → IfOk result (StandsFor (joined_arrivals self.terms before other.terms after)) }

        // The first clause says when each error is returned, and the second says that both hauls come back unchanged.
        ensures hinders { IfErr result (λ refused. Hinders self other refused.2) }
        ensures kept { IfErr result (λ refused. (refused.0 ≡ self) × (refused.1 ≡ other)) }
    {
        match try_join(&self, &other) {
            Ok(joined) => {
                // Dropped by calls. If the two hauls were dropped at the end of the function, the function's proof
                // would take many times as long.
                drop(self);
                drop(other);
                Ok(joined)
            }
            Err(error) => Err((self, other, error)),
        }
    }
}

/// Joins two hauls into a new one, or returns why they can't be joined.
fn try_join(first: &Haul, second: &Haul) -> Result<Haul, JoinError>
    ensures can { OnOk result (CanJoin first.now second.now) }
    ensures joined { IfOk result (IsJoined first.now second.now) }
    ensures hinders { IfErr result (Hinders first.now second.now) }
{
    if let Some(error) = hindrance(first, second) {
        return Err(error);
    }
    match joined(first, second) {
        Ok(joined) => Ok(joined),
        Err(error) => Err(JoinError::Memory(error)),
    }
}

/// Returns why the hauls can't be joined, or `None` if only a lack of memory can prevent it.
fn hindrance(first: &Haul, second: &Haul) -> Option<JoinError>
    ensures some { IfSome result (Hinders first.now second.now) }
    ensures none { IfNone result (CanJoin first.now second.now) }
{
    if !first.closed || !second.closed {
        return Some(JoinError::Open);
    }
    if !is_same_job(&first.job, &second.job) {
        return Some(JoinError::OtherJob);
    }
    if first.ranges.share_number(&second.ranges) {
        return Some(JoinError::Overlap);
    }
    None
}

/// Returns the joined haul of two hauls.
fn joined(first: &Haul, second: &Haul) -> Result<Haul, OutOfMemory>
    requires { CanJoin first.now second.now }
    ensures { IfOk result (IsJoined first.now second.now) }
{
    let alloc = first.alloc;
    let ranges = first.ranges.union(alloc, &second.ranges)?;
    let taken = all_taken(alloc, first.taken.as_slice(), second.taken.as_slice())?;
    let worker_of = by_number(alloc, taken.as_slice())?;
    let totals = first.totals.joined(alloc, &second.totals)?;
    Ok(Haul {
        alloc,
        job: first.job,
        ranges,
        count: first.count + second.count,
        workers: first.workers.max(second.workers),
        closed: true,
        taken,
        worker_of,
        totals,
    })
}

/// Returns the worker and the number of each report taken: first those of the first haul, then those of the second.
fn all_taken(
    alloc: Global,
    first: &[(u8, u64)],
    second: &[(u8, u64)],
) -> Result<Vec<(u8, u64)>, OutOfMemory>
    ensures { IfOk result (λ taken. taken.items ≡ first.now ++ second.now) }
{
    let mut taken = Vec::from_slice(alloc, first)?;
    taken.extend_from_slice(second)?;
    Ok(taken)
}

/// Returns the worker of each taken number.
fn by_number(alloc: Global, taken: &[(u8, u64)]) -> Result<IndexMap<u64, u8>, OutOfMemory>
    requires { IsDistinct nat_eq (numbers_in taken.now) }
    ensures { IfOk result (λ worker_of. worker_of.entries ≡ map (λ t. (t.1, t.0)) taken.now) }
{
    let mut worker_of = IndexMap::new(alloc);
    for entry in taken {
        worker_of.insert(entry.1, entry.0)?;
    }
    Ok(worker_of)
}
