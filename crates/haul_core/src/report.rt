//! Reports on soups, and report lines. What a line says is only a claim, right or wrong. The claim becomes a report
//! once the soup has been surveyed again and the finding agrees with the claim.
//!
//! ```text
//!           write                  read                check
//! report  --------->  line  --------------->  claim  --------->  report
//!                       |                       |
//!                  bad line at 45           disagrees
//! ```

ghost use Rattle.std.specs.Prelude.{◌≡◌, ◌<◌, ◌↔◌, IfOk, IsErrOf, IsTrue};
ghost use Rattle.memory.specs.Witness.{out_of_memory};
ghost use Rattle.ranges.specs.Ranges.{number_bound};
ghost use Rattle.haul_core.specs.Reports.{IsReport, IsReportOf, IsWorker};
ghost use Rattle.haul_core.specs.declared.report.ReportError.TheVariants.{BadWorker, Memory};

/// Claims: what report lines say.
pub mod claim;
/// Reports as lines of text.
pub mod write;

use memory::OutOfMemory;
use std::alloc::Global;
use std::fmt;
use std::marker::Model;
use survey_core::finding::Finding;
use survey_core::job::Job;
use survey_core::surveyor::Surveyor;
use thiserror::Error;

/// The most workers that a haul may have: enough threads for most machines. Workers are numbered from 1.
pub(crate) const MOST_WORKERS: u8 = 16;

/// Why no report was made.
#[derive(Clone, Copy, PartialEq, Eq, Error)]
pub enum ReportError {
    /// The worker isn't from 1 to 16.
    BadWorker,
    /// Memory ran out.
    Memory(OutOfMemory),
}

impl fmt::Display for ReportError {
    fn fmt<W: fmt::Write>(&self, f: &mut fmt::Formatter<W>) -> fmt::Result {
        f.write_str(match self {
            ReportError::BadWorker => "bad worker",
            ReportError::Memory(_) => "out of memory",
        })
    }
}

/// Shows the message, as `Display` does.
impl fmt::Debug for ReportError {
    fn fmt<W: fmt::Write>(&self, f: &mut fmt::Formatter<W>) -> fmt::Result {
        fmt::Display::fmt(self, f)
    }
}

impl<E: Into<OutOfMemory>> From<E> for ReportError {
    ghost from_gives = { λ _ e. e ≡ Memory out_of_memory };

    fn from(refused: E) -> ReportError {
        ReportError::Memory(refused.into())
    }
}

/// What a worker reports about a soup: the job, the worker, the soup's number, and its finding.
///
/// A report is always correct: the invariant `IsReport` says that `finding` is the finding of this soup, under the
/// job's rule and profile.
#[derive(Debug, Drop)]
pub struct Report {
    job: Job,
    worker: u8,
    number: u64,
    finding: Finding,
}

impl Model for Report {
    ghost use Rattle.haul_core.specs.Reports.{IsReport, Reported};

    ghost Value = { Reported };

    ghost view = { λ r. record { job = r.job; worker = r.worker; number = r.number; finding = r.finding } };

    ghost invariant = { λ r. IsReport
        (record { job = r.job; worker = r.worker; number = r.number; finding = r.finding }) };
}

impl Report {
    /// Surveys soup `number` of the job, and returns the report of `worker` on it. The number has to be below 2^40.
    ///
    /// # Errors
    ///
    /// - [`ReportError::BadWorker`] if the worker isn't from 1 to 16.
    /// - [`ReportError::Memory`] if memory runs out.
    pub fn make(alloc: Global, job: &Job, worker: u8, number: u64) -> Result<Report, ReportError>
        requires { number < number_bound }
        ensures report { IfOk result (IsReportOf job.now worker number) }
        ensures bad_worker { IsErrOf result BadWorker ↔ ¬ IsWorker worker }
    {
        let mut surveyor = Surveyor::without_memo(alloc);
        Report::make_with_surveyor(alloc, &mut surveyor, job, worker, number)
    }

    /// Makes the same report as [`make`](Report::make), using a surveyor that may have surveyed other soups before.
    /// Using one surveyor for many soups is faster.
    ///
    /// # Errors
    ///
    /// Those of [`make`](Report::make).
    pub fn make_with_surveyor(
        alloc: Global,
        surveyor: &mut Surveyor,
        job: &Job,
        worker: u8,
        number: u64,
    ) -> Result<Report, ReportError>
        requires { number < number_bound }
        ensures report { IfOk result (IsReportOf job.now worker number) }
        ensures bad_worker { IsErrOf result BadWorker ↔ ¬ IsWorker worker }
    {
        if !is_worker(worker) {
            return Err(ReportError::BadWorker);
        }
        let finding = surveyor.survey(alloc, job, number)?;
        Ok(Report {
            job: *job,
            worker,
            number,
            finding,
        })
    }

    /// Returns the job.
    pub fn job(&self) -> Job
        ensures { result ≡ self.now.job }
    {
        self.job
    }

    /// Returns the worker, 1 to 16.
    pub fn worker(&self) -> u8
        ensures worker { result ≡ self.now.worker }
        ensures report { IsReport self.now }
    {
        self.worker
    }

    /// Returns the number of the soup, below 2^40.
    pub fn number(&self) -> u64
        ensures number { result ≡ self.now.number }
        ensures report { IsReport self.now }
    {
        self.number
    }

    /// Returns the finding of the soup.
    pub fn finding(&self) -> &Finding
        ensures finding { result.now ≡ self.now.finding }
        ensures report { IsReport self.now }
    {
        &self.finding
    }

    /// Returns the finding, and drops the rest.
    pub(crate) fn into_finding(self) -> Finding
        ensures { result ≡ self.finding }
    {
        self.finding
    }
}

/// Checks whether `worker` is from 1 to 16.
pub(crate) fn is_worker(worker: u8) -> bool
    ensures { IsTrue result ↔ IsWorker worker }
{
    1 <= worker && worker <= MOST_WORKERS
}
