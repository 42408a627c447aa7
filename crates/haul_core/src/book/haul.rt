//! A haul, from its opening to its closing.
//!
//! ```text
//! open ──> nothing taken ── offer ──> soups taken ── close ──> closed
//!                             │            │
//!                        or refused    census, missing, is_complete (also possible before and after)
//! ```

ghost use Rattle.std.specs.Prelude.{◌≡◌, ◌⊎◌, ◌↔◌, ◌<◌, ◌≤◌, ◌+◌, ◌^◌, ◌++◌, ◌∷◌, [], ℕ, All, List, Option, None, Some};
ghost use Rattle.std.specs.Prelude.{IfErr, IfOk, IsErrOf, IsTrue, OnErr, OnOk, false, is_err, length, nat_eq, true};
ghost use Rattle.std.specs.Prelude.{vec_capacity, vec_len};
ghost use Rattle.std.specs.List.{IsDistinct};
ghost use Rattle.std.specs.List.Sorted.{IsStrictlyIncreasing};
ghost use Rattle.memory.specs.Witness.{out_of_memory};
ghost use Rattle.indexmap.specs.IndexMap.{get, spare};
ghost use Rattle.haul_core.specs.Books.{StandsFor, has_closing};
ghost use Rattle.haul_core.specs.Refusals.{IsReply, refusal_of};
ghost use Rattle.haul_core.specs.Replies.{refusal_at, reply_of, IsAnswered};
ghost use Rattle.haul_core.specs.Censuses.{IsCensus};
ghost use Rattle.haul_core.specs.Keeping.{numbers_in};
ghost use Rattle.haul_core.specs.Missing.{AreAll, IsComplete, missing_of};
ghost use Rattle.ranges.specs.Ranges.{AreBelow, AreNormal, AreSmall, IsNormalForm, Overlap, is_in, number_bound};
ghost use Rattle.ranges.specs.Ranges.{size_of};
ghost use Rattle.haul_core.specs.Reports.{IsWorker};
ghost use Rattle.haul_core.specs.Scores.{Extends, HasScores};
ghost use Rattle.haul_core.specs.declared.book.arrival.Arrival.{Arrival};
ghost use Rattle.haul_core.specs.declared.book.arrival.Arrival.TheVariants as arrival;
ghost use Rattle.haul_core.specs.declared.book.haul.OpenError.TheVariants.{BadRange, BadWorkers, Memory};
ghost use Rattle.haul_core.specs.declared.book.haul.OpenError.TheVariants.{Overlap as SharedNumber};

/// Joining two hauls.
pub mod join;

use crate::book::census::Census;
use crate::book::census_rows::{Rows, sum_of_totals};
use crate::book::missing::missing;
use crate::book::refused::{OfferError, Refused};
use crate::book::scores::Totals;
use crate::report::{Report, is_worker};
use indexmap::IndexMap;
use memory::OutOfMemory;
use ranges::range::{Range, Ranges, overlap, small_size};
use std::alloc::Global;
use std::fmt;
use std::marker::Model;
use survey_core::finding::Finding;
use survey_core::job::{Job, is_same_job};
use thiserror::Error;

/// The error of closing a haul that is already closed.
#[derive(Clone, Copy, PartialEq, Eq, Error)]
pub struct AlreadyClosed;

impl fmt::Display for AlreadyClosed {
    fn fmt<W: fmt::Write>(&self, f: &mut fmt::Formatter<W>) -> fmt::Result {
        f.write_str("already closed")
    }
}

/// Shows the message, as `Display` does.
impl fmt::Debug for AlreadyClosed {
    fn fmt<W: fmt::Write>(&self, f: &mut fmt::Formatter<W>) -> fmt::Result {
        fmt::Display::fmt(self, f)
    }
}

/// Why no haul was opened.
#[derive(Clone, Copy, PartialEq, Eq, Error)]
pub enum OpenError {
    /// The number of workers isn't from 1 to 16.
    BadWorkers,
    /// A range ends past 2^40, or the counts of the ranges add up to more than 2^24.
    BadRange,
    /// Two ranges share a number.
    Overlap,
    /// Memory ran out.
    Memory(OutOfMemory),
}

impl fmt::Display for OpenError {
    fn fmt<W: fmt::Write>(&self, f: &mut fmt::Formatter<W>) -> fmt::Result {
        f.write_str(match self {
            OpenError::BadWorkers => "bad number of workers",
            OpenError::BadRange => "range too large",
            OpenError::Overlap => "ranges overlap",
            OpenError::Memory(_) => "out of memory",
        })
    }
}

/// Shows the message, as `Display` does.
impl fmt::Debug for OpenError {
    fn fmt<W: fmt::Write>(&self, f: &mut fmt::Formatter<W>) -> fmt::Result {
        fmt::Display::fmt(self, f)
    }
}

impl<E: Into<OutOfMemory>> From<E> for OpenError {
    ghost from_gives = { λ _ e. e ≡ Memory out_of_memory };

    fn from(refused: E) -> OpenError {
        OpenError::Memory(refused.into())
    }
}

/// The soups of a job that have been taken, the worker of each, and the totals of their objects.
///
/// A haul is opened for a job, a set of soup numbers and a number of workers. It takes each number of its set at most
/// once. Contracts see what it was opened for, whether it is closed, and the worker and number of each report taken.
pub struct Haul {
    alloc: Global,
    job: Job,
    ranges: Ranges,
    count: u64,
    workers: u8,
    closed: bool,
    taken: Vec<(u8, u64)>,
    worker_of: IndexMap<u64, u8>,
    totals: Totals,
}

impl Model for Haul {
    ghost use Rattle.haul_core.specs.Books.{Held};
    ghost use Rattle.haul_core.specs.Keeping.{KeepsBook};

    ghost Value = { Held };

    ghost view = { λ h. record {
      terms = record { job = h.job; ranges = h.ranges; workers = h.workers };
      closed = h.closed;
      taken = h.taken.items;
    } };

    ghost invariant = { λ h. KeepsBook
        (record {
          terms = record { job = h.job; ranges = h.ranges; workers = h.workers };
          closed = h.closed;
          taken = h.taken.items;
        }) h.count h.worker_of.entries
        (record { scores = h.totals.scores.entries; unsettled = h.totals.unsettled; for_good = h.totals.for_good }) };
}

// Written out, because a derived drop is proved again wherever a haul is dropped.
impl Drop for Haul {
    fn drop(self) {
        let Haul {
            alloc: _,
            job: _,
            ranges,
            count: _,
            workers: _,
            closed: _,
            taken,
            worker_of,
            totals,
        } = self;
        drop(ranges);
        drop(taken);
        drop(worker_of);
        drop(totals);
    }
}

impl Haul {
    /// Opens a haul for `job`, for the soup numbers of `ranges`, and for `workers` workers, numbered from 1.
    ///
    /// # Errors
    ///
    /// The first of these that holds:
    ///
    /// - [`OpenError::BadWorkers`] if the number of workers isn't from 1 to 16.
    /// - [`OpenError::BadRange`] if a range ends past 2^40, or the counts of the ranges add up to more than 2^24.
    /// - [`OpenError::Overlap`] if two ranges share a number.
    /// - [`OpenError::Memory`] if memory runs out.
    ///
    /// # Examples
    ///
    /// `crates/tour_tests/src/hauls.rt` opens a haul, offers four reports, and writes its census.
    pub fn open(alloc: Global, job: Job, ranges: &[Range], workers: u8) -> Result<Haul, OpenError>
        // The haul has what was passed in, and has taken nothing.
        ensures job { IfOk result (λ haul. haul.terms.job ≡ job) }
        ensures ranges { IfOk result (λ haul. IsNormalForm ranges.now haul.terms.ranges) }
        ensures workers { IfOk result (λ haul. haul.terms.workers ≡ workers) }
        ensures stands { IfOk result (StandsFor []) }

        // These clauses say when each error except `Memory` is returned.
        ensures bad_workers { IsErrOf result BadWorkers ↔ ¬ IsWorker workers }
        ensures bad_range { IsErrOf result BadRange ↔ (IsWorker workers × ¬ AreSmall ranges.now) }
        ensures overlap { IsErrOf result SharedNumber ↔ (IsWorker workers × AreSmall ranges.now × Overlap ranges.now) }
    {
        let known = is_worker(workers);
        if !known {
            return Err(OpenError::BadWorkers);
        }
        let Some(count) = small_size(ranges) else {
            return Err(OpenError::BadRange);
        };
        let shared = overlap(ranges);
        if shared {
            return Err(OpenError::Overlap);
        }
        let ranges = Ranges::normal_form(alloc, ranges)?;
        Ok(Haul {
            alloc,
            job,
            ranges,
            count,
            workers,
            closed: false,
            taken: Vec::new(alloc),
            worker_of: IndexMap::new(alloc),
            totals: Totals::none(alloc),
        })
    }

    /// Closes the haul, which then takes no more reports.
    ///
    /// # Errors
    ///
    /// [`AlreadyClosed`] if the haul was closed before.
    pub fn close(&mut self) -> Result<(), AlreadyClosed>
        ensures reply { (arrivals : List Arrival) → StandsFor arrivals self.old → is_err result ≡ has_closing arrivals }
        ensures stands { (arrivals : List Arrival) → StandsFor arrivals self.old
            → StandsFor (arrivals ++ arrival.Closing ∷ []) self.new }
        ensures again { is_err result ≡ self.old.closed }
        ensures closed { self.new.closed ≡ true }
        ensures taken { self.new.taken ≡ self.old.taken }
        ensures terms { self.new.terms ≡ self.old.terms }
        ensures kept { OnErr result (self.new ≡ self.old) }
    {
        if self.closed {
            return Err(AlreadyClosed);
        }
        self.closed = true;
        Ok(())
    }

    /// Checks whether the haul is closed.
    pub fn is_closed(&self) -> bool
        ensures { result ≡ self.now.closed }
    {
        self.closed
    }

    /// Returns the job.
    pub fn job(&self) -> Job
        ensures { result ≡ self.now.terms.job }
    {
        self.job
    }

    /// Returns the number of workers, 1 to 16.
    pub fn workers(&self) -> u8
        ensures workers { result ≡ self.now.terms.workers }
        ensures few { IsWorker self.now.terms.workers }
    {
        self.workers
    }

    /// Returns the set of soup numbers, in normal form.
    pub fn ranges(&self) -> &[Range]
        ensures ranges { result.now ≡ self.now.terms.ranges }
        ensures normal { AreNormal self.now.terms.ranges }
        ensures below { AreBelow number_bound self.now.terms.ranges }
    {
        let Haul { ranges, .. } = self;
        ranges.as_slice()
    }

    /// Returns the number of soups in the set.
    pub fn count(&self) -> u64
        ensures { result ≡ size_of self.now.terms.ranges }
    {
        self.count
    }

    /// Returns the worker and the number of each report taken, in order. No number occurs twice, and each is in the
    /// set.
    pub fn taken(&self) -> &[(u8, u64)]
        ensures taken { result.now ≡ self.now.taken }
        ensures distinct { IsDistinct nat_eq (numbers_in self.now.taken) }
        ensures within { All (λ t. is_in self.now.terms.ranges t.1 ≡ true) self.now.taken }
    {
        let Haul { taken, .. } = self;
        taken.as_slice()
    }

    /// Recalls, for a proof, that the numbers taken are distinct and in the haul's set.
    pub fn recall_taken_is_subset(&self)
        ensures distinct { IsDistinct nat_eq (numbers_in self.now.taken) }
        ensures within { All (λ t. is_in self.now.terms.ranges t.1 ≡ true) self.now.taken }
    {
        self.taken();
    }

    /// Recalls, for a proof, that there are 1 to 16 workers.
    pub fn recall_workers_are_few(&self)
        ensures { IsWorker self.now.terms.workers }
    {
        self.workers();
    }

    /// Recalls, for a proof, that a haul is complete if and only if nothing is missing.
    pub fn recall_complete_if_none_missing(&self)
        ensures { (length (missing_of self.now.terms.ranges self.now.taken) ≡ 0)
            ↔ IsComplete self.now.terms.ranges self.now.taken }
    {
        self.missing_count();
    }

    /// Returns the numbers of the set that haven't been taken, ascending.
    ///
    /// # Errors
    ///
    /// [`OutOfMemory`] if memory runs out.
    pub fn missing(&self) -> Result<Vec<u64>, OutOfMemory>
        ensures missing { IfOk result (λ missing. missing.items ≡ missing_of self.now.terms.ranges self.now.taken) }
        ensures ascending { IfOk result (λ missing. IsStrictlyIncreasing missing.items) }
        ensures below { IfOk result (λ missing. All (λ n. n < number_bound) missing.items) }
        ensures few { self.now.closed ≡ false → IfOk result (λ missing. length missing.items ≤ 2 ^ 24) }
    {
        let Haul {
            alloc,
            ranges,
            worker_of,
            ..
        } = self;
        missing(*alloc, ranges.as_slice(), worker_of)
    }

    /// Returns how many numbers of the set haven't been taken. This takes constant time.
    pub fn missing_count(&self) -> u64
        ensures count { result ≡ length (missing_of self.now.terms.ranges self.now.taken) }
        ensures none { (result ≡ 0) ↔ IsComplete self.now.terms.ranges self.now.taken }
    {
        let Haul { count, taken, .. } = self;
        *count - taken.len() as u64
    }

    /// Checks whether each number of the set has been taken.
    pub fn is_complete(&self) -> bool
        ensures complete { IsTrue result ↔ IsComplete self.now.terms.ranges self.now.taken }
        ensures all { IsTrue result → AreAll self.now.terms.ranges (numbers_in self.now.taken) }
    {
        let Haul { count, taken, .. } = self;
        *count == taken.len() as u64
    }

    /// Returns the census of the soups that were taken, whether the haul is open or closed.
    ///
    /// A soup has fewer than 2^64 objects. A haul from [`open`](Self::open) has at most 2^24 soups, so it has fewer
    /// than 2^88 objects. A haul from [`join`](Self::join) has at most 2^40 soups, so it has fewer than 2^104 objects.
    ///
    /// # Errors
    ///
    /// [`OutOfMemory`] if memory runs out.
    pub fn census(&self) -> Result<Census, OutOfMemory>
        ensures counted { IfOk result
            (IsCensus self.now.terms.job self.now.terms.ranges (numbers_in self.now.taken)) }
        ensures bounded { IfOk result (λ census. census.objects < 2 ^ 104) }
        ensures bounded_opened { IfOk result (λ census. census.soups ≤ 2 ^ 24 → census.objects < 2 ^ 88) }
    {
        let Haul {
            alloc,
            job,
            ranges,
            count,
            taken,
            totals,
            ..
        } = self;
        let rows = Rows::of_scores(*alloc, &totals.scores)?;
        let objects = sum_of_totals(rows.as_slice());
        Ok(Census {
            job: *job,
            ranges: ranges.copy(*alloc)?,
            count: *count,
            soups: taken.len() as u64,
            unsettled: totals.unsettled,
            for_good: totals.for_good,
            objects,
            rows,
        })
    }

    /// Offers a report. An open haul takes the report if it is of the haul's job and by one of the haul's workers, and
    /// if its soup is in the haul's set and hasn't been taken yet. The time is proportional to the number of codes in
    /// the report, and grows with the logarithm of the number of ranges.
    ///
    /// # Errors
    ///
    /// [`Refused`] with the report and the first [`OfferError`] that applies, in the order of the variants. The haul is
    /// unchanged.
    pub fn offer(&mut self, report: Report) -> Result<(), Refused>
        ensures reply { (arrivals : List Arrival) → StandsFor arrivals self.old
            → IsReply (reply_of result) (refusal_of self.old.terms arrivals report) }
        ensures state { IsReply (reply_of result) (refusal_at self.old report) }
        ensures stands { (arrivals : List Arrival) → StandsFor arrivals self.old → IsAnswered (reply_of result)
            → StandsFor (arrivals ++ arrival.Offer report ∷ []) self.new }
        ensures taken { OnOk result (self.new.taken ≡ self.old.taken ++ (report.worker, report.number) ∷ []) }
        ensures terms { self.new.terms ≡ self.old.terms }
        ensures closed { self.new.closed ≡ self.old.closed }
        ensures kept { OnErr result (self.new ≡ self.old) }
        ensures report { IfErr result (λ refused. refused.report ≡ report) }
    {
        if let Some(reason) = self.refusal(&report) {
            return Err(Refused { report, reason });
        }
        let finding = report.finding();
        match make_room(
            self.alloc,
            &mut self.taken,
            &mut self.worker_of,
            &mut self.totals,
            finding,
        ) {
            Ok(()) => {}
            Err(error) => {
                let reason = OfferError::Memory(error);
                return Err(Refused { report, reason });
            }
        }
        note(
            &mut self.taken,
            &mut self.worker_of,
            report.worker(),
            report.number(),
        );
        self.totals.add(report.finding(), report.number());
        // Dropped by a call. If the report were dropped at the end of the function, the function's proof would take
        // twice as long.
        drop(report);
        Ok(())
    }

    /// Returns why a report is refused, or `None` if only a lack of memory can prevent it from being taken.
    fn refusal(&self, report: &Report) -> Option<OfferError>
        ensures { result ≡ refusal_at self.now report.now }
    {
        if self.closed {
            return Some(OfferError::Closed);
        }
        if !is_same_job(&self.job, &report.job()) {
            return Some(OfferError::OtherJob);
        }
        if self.workers < report.worker() {
            return Some(OfferError::UnknownWorker);
        }
        if !self.ranges.has(report.number()) {
            return Some(OfferError::OutOfRange);
        }
        let worker = *self.worker_of.get(&report.number())?;
        Some(OfferError::Double { worker })
    }
}

/// Makes room for a report with this finding. What contracts see of a haul doesn't change.
fn make_room(
    alloc: Global,
    taken: &mut Vec<(u8, u64)>,
    worker_of: &mut IndexMap<u64, u8>,
    totals: &mut Totals,
    finding: &Finding,
) -> Result<(), OutOfMemory>
    ensures taken { taken.new.items ≡ taken.old.items }
    ensures workers { worker_of.new.entries ≡ worker_of.old.entries }
    ensures extends { Extends totals.old.scores.entries totals.new.scores.entries }
    ensures unsettled { totals.new.unsettled ≡ totals.old.unsettled }
    ensures for_good { totals.new.for_good ≡ totals.old.for_good }
    ensures room { OnOk result (vec_len taken.new + 1 ≤ vec_capacity taken.new) }
    ensures spare { OnOk result (1 ≤ spare worker_of.new) }
    ensures scores { OnOk result (HasScores finding.now totals.new.scores.entries) }
{
    taken.reserve(1)?;
    worker_of.reserve(1)?;
    totals.make_room(alloc, finding)
}

/// Records in `taken` and in `worker_of` which worker reported the soup with this number. Both need room for one more
/// entry, and the number has to be new.
fn note(taken: &mut Vec<(u8, u64)>, worker_of: &mut IndexMap<u64, u8>, worker: u8, number: u64)
    requires room { vec_len taken.old + 1 ≤ vec_capacity taken.old }
    requires spare { 1 ≤ spare worker_of.old }
    requires new { get nat_eq worker_of.old number ≡ None }
    ensures taken { taken.new.items ≡ taken.old.items ++ (worker, number) ∷ [] }
    ensures workers { worker_of.new.entries ≡ worker_of.old.entries ++ (number, worker) ∷ [] }
{
    taken.push((worker, number)).unwrap();
    worker_of.insert(number, worker).unwrap();
}
