//! `gather`: the haul of report lines.
//!
//! ```text
//! input ── line ── claim ── report ── haul ── census ── haul text
//!            │       │         │
//!            └───────┴─────────┴── or the line's fault, on standard error
//! ```

ghost use Rattle.std.specs.Prelude.{◌≡◌, ◌≢◌, ◌<◌, ◌≤◌, Ok, Result, ◌+◌, ◌^◌, ◌++◌, ◌∷◌, [], ℕ, List, Option, Some};
ghost use Rattle.std.specs.Prelude.{IfErr, IfOk, OnErr, OnOk, false, length, take};
ghost use Rattle.std.specs.Io.KnownBytes.{prepend_known};
ghost use Rattle.memory.specs.Witness.{out_of_memory};
ghost use Rattle.haul_core.specs.Reports.{IsWorker, Reported};
ghost use Rattle.plane_core.specs.Outputs.{Output};
ghost use Rattle.pattern_commands.specs.Answers.{IsInput};
ghost use Rattle.pattern_commands.specs.Complaints.{status_of};
ghost use Rattle.pattern_commands.specs.Ends.{Ends};
ghost use Rattle.pattern_commands.specs.Reached.{Reaches};
ghost use Rattle.commands.specs.Gather.{HasReadUpTo, IsSame, gather_reads, gather_behaviour, haul_behaviour};
ghost use Rattle.commands.specs.Gathering.{gather_opens};
ghost use Rattle.pattern_commands.specs.Inputs.{HasReadAtMost};
ghost use Rattle.pattern_commands.specs.Profiles.{AreInRange};
ghost use Rattle.pattern_commands.specs.Streams.{stream};
ghost use Rattle.haul_core.specs.Books.{StandsFor};
ghost use Rattle.haul_core.specs.declared.book.arrival.Arrival.{Arrival};
ghost use Rattle.commands.specs.GatherSteps.{EndsLine, EndsLinesAt, EndsNext};
ghost use Rattle.commands.specs.GatherSteps.{HasGatheredLines, HasGatheredShort, HasGatheredTo};
ghost use Rattle.commands.specs.Lines.{HasReadPart};
ghost use Rattle.commands.specs.LinesSoFar.{HasCome, HasComeBy, most_ahead};
ghost use Rattle.haul_core.specs.ClaimChecks.{Fails};
ghost use Rattle.haul_core.specs.LawfulClaims.{Claimed};
ghost use Rattle.commands.specs.GatheredLines.{Claims, IsChecked, IsPrefixFault, IsExamined, ComesOf, offer_fault};
ghost use Rattle.haul_core.specs.declared.book.refused.OfferError.TheVariants as offer_error;

use crate::finish::finish;
use crate::line_fault::LineFault;
use crate::lines::{GATHER_LIMIT, LINE_LIMIT, LineEnd, LineRead, Lines};
use crate::opening::open_haul;
use haul_core::book::haul::Haul;
use haul_core::book::refused::OfferError;
use haul_core::report::Report;
use haul_core::report::claim::Claim;
use haul_core::report::claim::check::CheckError;
use haul_core::report::claim::read_line::LineError;
use memory::OutOfMemory;
use pattern_commands::ending::complaint::Complaint;
use pattern_commands::ending::end_command;
use pattern_commands::ending::status::Status;
use plane_core::output::Out;
use requests::plan::Plan;
use std::alloc::Global;
use std::io::{Read, Write};
use survey_core::finding::findings_are_determined;
use survey_core::job::Job;
use survey_core::surveyor::Surveyor;

/// Reads report lines, checks each, offers it to a haul over the soups of a plan, and writes the haul text of what was
/// taken.
///
/// A line ends with a line feed, which the last line may lack. If a line isn't taken, its number, counted from 1, and
/// its fault are written to `errors`, and reading continues. Only the first 2^24 bytes of a line are examined: a longer
/// line is bad at the first fault in these bytes, or at 2^24 if they have no fault. Each number of the profile has to
/// be in its range, `workers` is from 1 to 16, and no earlier write to either writer may have failed. Refusals are
/// tested in the order of [`do_take`](crate::take::do_take), before anything is read. Only the haul, one line, a buffer
/// and a surveyor are kept in memory. `census gather` is this call with the standard streams.
///
/// # Errors
///
/// The status is `Incomplete` if soups are missing. Then the haul was written, and a line on `errors` says how many are
/// missing. The status is `Refused` as for `do_take`; `Memory` if memory runs out; and `Failed` if the input can't be
/// read or has more than 2^32 bytes, or if the output or a line on `errors` can't be written. With `Refused` and
/// `Memory`, and after a failed read, nothing was written to the output. A failure to write the last line on `errors`
/// is not reported.
///
/// If the call ends because memory runs out, a read fails or the input is too long, all lines before some place of the
/// input were processed, except perhaps the last of them. At most 2^16 bytes were read beyond that place, and none if a
/// read failed.
pub fn do_gather<R: Read, W: Write, E: Write>(
    alloc: Global,
    plan: &Plan<'_>,
    workers: u8,
    input: &mut R,
    output: &mut Out<W>,
    errors: &mut Out<E>,
) -> Status
    requires workers { IsWorker workers }
    requires profile { AreInRange plan.now.profile }
    requires output { output.old.failed ≡ false }
    requires errors { errors.old.failed ≡ false }
    ensures ends { (bytes : List ℕ) × IsInput (R.remaining input.old) bytes
        × (end : Ends (gather_behaviour plan.now workers) (R.remaining input.old) bytes result
        (stream W.contents output.old output.new) (stream E.contents errors.old errors.new))
        × HasReadUpTo (gather_opens plan.now workers) R.remaining input.old input.new end.so_far end.outcome }
    ensures little { HasReadAtMost (2 ^ 32 + 2 ^ 16) (R.remaining input.old) (R.remaining input.new) }
    ensures unread { gather_reads plan.now ≡ false → input.new ≡ input.old }
    ensures untouched { result ≡ Status.Refused → (input.new ≡ input.old) × (output.new ≡ output.old) }
    ensures no_memory { result ≡ Status.Memory → output.new ≡ output.old }
{
    let outcome = open_and_gather(alloc, plan, workers, input, output, errors);
    end_command(outcome, errors)
}

/// Opens the haul, gathers the lines, writes the haul text, and returns how many soups are missing.
fn open_and_gather<R: Read, W: Write, E: Write>(
    alloc: Global,
    plan: &Plan<'_>,
    workers: u8,
    input: &mut R,
    output: &mut Out<W>,
    errors: &mut Out<E>,
) -> Result<u64, Complaint>
    requires workers { IsWorker workers }
    requires profile { AreInRange plan.now.profile }
    requires output { output.old.failed ≡ false }
    requires errors { errors.old.failed ≡ false }
    ensures gathers { (bytes : List ℕ) × IsInput (R.remaining input.old) bytes
        × Reaches (gather_behaviour plan.now workers) (R.remaining input.old) bytes result
        (stream W.contents output.old output.new) (stream E.contents errors.old errors.new) }
    ensures place { HasReadUpTo (gather_opens plan.now workers) R.remaining input.old input.new
        (stream E.contents errors.old errors.new) result }
    ensures little { HasReadAtMost (2 ^ 32 + 2 ^ 16) (R.remaining input.old) (R.remaining input.new) }
    ensures fine { OnOk result (errors.new.failed ≡ false) }
    ensures unread { gather_reads plan.now ≡ false → input.new ≡ input.old }
    ensures untouched { IfErr result (λ complaint. status_of complaint ≡ Status.Refused
        → (input.new ≡ input.old) × (output.new ≡ output.old)) }
    ensures no_memory { IfErr result (λ complaint. complaint ≡ Complaint.Memory out_of_memory
        → output.new ≡ output.old) }
{
    let haul = open_haul(alloc, plan, workers)?;
    let mut gatherer = Gatherer {
        alloc,
        haul,
        surveyor: Surveyor::new(alloc),
    };
    gatherer.gather_and_finish(input, output, errors)
}

/// A haul that gathers report lines, and the surveyor that checks them.
#[derive(Drop)]
struct Gatherer {
    alloc: Global,
    haul: Haul,
    surveyor: Surveyor,
}

impl Gatherer {
    /// Gathers the lines of the input in the haul, which is empty at first. Then writes the haul text, and returns how
    /// many soups are missing.
    fn gather_and_finish<R: Read, W: Write, E: Write>(
        &mut self,
        input: &mut R,
        output: &mut Out<W>,
        errors: &mut Out<E>,
    ) -> Result<u64, Complaint>
        requires haul { StandsFor [] self.old.haul }
        requires output { output.old.failed ≡ false }
        requires errors { errors.old.failed ≡ false }
        ensures gathers { (bytes : List ℕ) × IsInput (R.remaining input.old) bytes
            × Reaches (haul_behaviour self.old.haul.terms) (R.remaining input.old) bytes result
            (stream W.contents output.old output.new) (stream E.contents errors.old errors.new) }
        ensures place { HasReadUpTo (IsSame self.old.haul.terms) R.remaining input.old input.new
            (stream E.contents errors.old errors.new) result }
        ensures little { HasReadAtMost (2 ^ 32 + 2 ^ 16) (R.remaining input.old) (R.remaining input.new) }
        ensures fine { OnOk result (errors.new.failed ≡ false) }
        ensures accepted { IfErr result (λ complaint. status_of complaint ≢ Status.Refused) }
        ensures no_memory { IfErr result (λ complaint. complaint ≡ Complaint.Memory out_of_memory
            → output.new ≡ output.old) }
    {
        self.gather_lines(input, errors)?;
        finish(&mut self.haul, output)
    }

    /// Reads the input line by line, checks each line, and offers its report to the haul, which is empty at first. The
    /// fault of a line is written to `errors`.
    fn gather_lines<R: Read, E: Write>(
        &mut self,
        input: &mut R,
        errors: &mut Out<E>,
    ) -> Result<(), Complaint>
        requires haul { StandsFor [] self.old.haul }
        requires errors { errors.old.failed ≡ false }
        ensures terms { self.new.haul.terms ≡ self.old.haul.terms }
        ensures gathered { OnOk result (HasGatheredShort (R.remaining input.old) (R.remaining input.new)
            (stream E.contents errors.old errors.new) self.new.haul) }
        ensures ended { IfErr result (EndsLinesAt self.old.haul.terms (R.remaining input.old) (R.remaining input.new)
            (stream E.contents errors.old errors.new)) }
        ensures little { HasReadAtMost (2 ^ 32 + 2 ^ 16) (R.remaining input.old) (R.remaining input.new) }
        ensures fine { OnOk result (errors.new.failed ≡ false) }
    {
        let mut lines = Lines::new(self.alloc)?;
        let mut size = 0u64;
        for before in 0..GATHER_LIMIT + 1 {
            let read = self.gather_next(input, &mut lines, GATHER_LIMIT - size, before, errors)?;
            size += read.size;
            if let LineEnd::Input = read.end {
                return Ok(());
            }
        }
        Err(Complaint::TooLong)
    }

    /// Reads line number `before` + 1, of at most `room` bytes, and gathers it. If no input is left, the line is empty
    /// and isn't gathered. Returns the size of the line and what ended it.
    fn gather_next<R: Read, E: Write>(
        &mut self,
        input: &mut R,
        lines: &mut Lines,
        room: u64,
        before: u64,
        errors: &mut Out<E>,
    ) -> Result<LineRead, Complaint>
        requires before { before ≤ 2 ^ 32 }
        requires room { room ≤ 2 ^ 32 }
        requires errors { errors.old.failed ≡ false }
        ensures terms { self.new.haul.terms ≡ self.old.haul.terms }
        ensures short { IfOk result (λ read. read.size ≤ room) }
        ensures going { (reader : Option (List ℕ)) (first : Output E) (size : ℕ)
            → HasGatheredLines (record {
              reader = reader;
              left = prepend_known lines.old.ahead (R.remaining input.old);
              errors = stream E.contents first errors.old;
              count = before;
              size = size;
            }) self.old.haul
            → IfOk result (λ read. HasGatheredTo (record {
              reader = reader;
              left = prepend_known lines.new.ahead (R.remaining input.new);
              errors = stream E.contents first errors.new;
              count = before + 1;
              size = size + read.size;
            }) self.new.haul read.end) }
        ensures fine { OnOk result (errors.new.failed ≡ false) }
        ensures ended { IfErr result (EndsNext room (prepend_known lines.old.ahead (R.remaining input.old)) errors.old
            errors.new) }
        ensures part { IfErr result (HasReadPart (prepend_known lines.old.ahead (R.remaining input.old))
            (prepend_known lines.new.ahead (R.remaining input.new))) }
        ensures little { HasReadAtMost (room + 2 ^ 16) (prepend_known lines.old.ahead (R.remaining input.old))
            (R.remaining input.new) }
        ensures few { length lines.new.ahead ≤ 2 ^ 16 }
        ensures most { IfErr result (λ complaint. length lines.new.ahead ≤ most_ahead complaint) }
    {
        let read = lines.next(input, room)?;
        if read.size > 0 {
            self.gather_line(lines.line(), before, errors)?;
        }
        Ok(read)
    }

    /// Offers the report of line number `before` + 1 to the haul. If the line has a fault, writes the fault to
    /// `errors`. `kept` has the first 2^24 + 1 bytes of the line.
    fn gather_line<E: Write>(
        &mut self,
        kept: &[u8],
        before: u64,
        errors: &mut Out<E>,
    ) -> Result<(), Complaint>
        requires before { before ≤ 2 ^ 32 }
        requires errors { errors.old.failed ≡ false }
        ensures terms { self.new.haul.terms ≡ self.old.haul.terms }
        ensures come { (line : List ℕ) (lines : List (List ℕ)) (diagnostics : List ℕ)
            → kept.now ≡ take (2 ^ 24 + 1) line
            → before ≡ length lines → HasCome lines self.old.haul diagnostics
            → OnOk result (HasComeBy (lines ++ line ∷ []) self.new.haul diagnostics
            (stream E.contents errors.old errors.new)) }
        ensures fine { OnOk result (errors.new.failed ≡ false) }
        ensures ended { IfErr result (EndsLine errors.old errors.new) }
    {
        if let Some(fault) = self.offer_line(kept)? {
            fault.write_line(before + 1, errors)?;
        }
        Ok(())
    }

    /// Offers the report of a line to the haul. Returns the line's fault, or `None` if there is none to report. `kept`
    /// has the first 2^24 + 1 bytes of the line.
    fn offer_line(&mut self, kept: &[u8]) -> Result<Option<LineFault>, OutOfMemory>
        ensures terms { self.new.haul.terms ≡ self.old.haul.terms }
        ensures come { (line : List ℕ) (arrivals : List Arrival) → kept.now ≡ take (2 ^ 24 + 1) line
            → StandsFor arrivals self.old.haul
            → IfOk result (λ fault. (arrived : List Arrival)
            × ComesOf self.old.haul.terms arrivals line arrived fault × StandsFor (arrivals ++ arrived) self.new.haul) }
    {
        let report = match report_of(self.alloc, kept, &self.haul.job(), &mut self.surveyor)? {
            Ok(report) => report,
            Err(fault) => return Ok(Some(fault)),
        };
        let worker = report.worker();
        let number = report.number();
        match self.haul.offer(report) {
            Ok(()) => Ok(None),
            Err(refused) => fault_of(refused.reason, worker, number),
        }
    }
}

/// Returns the report of a line, or the line's fault. `kept` has the line's first 2^24 + 1 bytes.
fn report_of(
    alloc: Global,
    kept: &[u8],
    job: &Job,
    surveyor: &mut Surveyor,
) -> Result<Result<Report, LineFault>, OutOfMemory>
    ensures { (line : List ℕ) → kept.now ≡ take (2 ^ 24 + 1) line → IfOk result (IsExamined job.now line) }
{
    if kept.len() > LINE_LIMIT {
        let place = prefix_fault(alloc, &kept[..LINE_LIMIT])?;
        return Ok(Err(LineFault::BadLine { place }));
    }
    checked_report(alloc, kept, job, surveyor)
}

/// Returns the place of the first fault of a line that is longer than 2^24 bytes. `prefix` has the first 2^24 bytes of
/// the line. If they have no fault, the place is 2^24.
fn prefix_fault(alloc: Global, prefix: &[u8]) -> Result<usize, OutOfMemory>
    ensures { IfOk result (IsPrefixFault prefix.now) }
{
    match Claim::read_line(alloc, prefix) {
        Ok(_) => Ok(LINE_LIMIT),
        Err(LineError::BadLine { place }) => Ok(place),
        Err(LineError::Memory(error)) => Err(error),
    }
}

/// Reads the claim of a line and checks it. Returns the report that the claim becomes, or the line's fault.
fn checked_report(
    alloc: Global,
    line: &[u8],
    job: &Job,
    surveyor: &mut Surveyor,
) -> Result<Result<Report, LineFault>, OutOfMemory>
    ensures { IfOk result (IsChecked job.now line.now) }
{
    let claim = match Claim::read_line(alloc, line) {
        Ok(claim) => claim,
        Err(LineError::BadLine { place }) => return Ok(Err(LineFault::BadLine { place })),
        Err(LineError::Memory(error)) => return Err(error),
    };
    match claim.check_with_surveyor(alloc, surveyor, job) {
        Ok(report) => Ok(Ok(report)),
        Err((_, error)) => fault_of_check(&error),
    }
}

/// Returns the fault of a line whose claim wasn't confirmed because of `error`, in the form in which [`checked_report`]
/// returns it.
fn fault_of_check(error: &CheckError) -> Result<Result<Report, LineFault>, OutOfMemory>
    ensures { (job : Job) (line : List ℕ) (claim : Claimed) → Claims line claim → Fails claim job error.now
        → IfOk result (IsChecked job line) }
{
    match error {
        CheckError::OtherJob => Ok(Err(LineFault::OtherJob)),
        CheckError::Disagrees { .. } => {
            // For the prover: a soup has only one finding, so a claim that disagrees with it agrees with no finding of
            // the soup.
            findings_are_determined();
            Ok(Err(LineFault::Disagrees))
        }
        CheckError::Memory(error) => Err(*error),
    }
}

/// Returns the fault of a report line that the haul refused for `reason`. The report is from worker `worker`, on soup
/// `number`.
fn fault_of(reason: OfferError, worker: u8, number: u64) -> Result<Option<LineFault>, OutOfMemory>
    ensures fault { (report : Reported) → report.worker ≡ worker → report.number ≡ number
        → IfOk result (λ fault. fault ≡ offer_fault report (Some reason)) }
    ensures answered { IfOk result (λ _. reason ≢ offer_error.Memory out_of_memory) }
{
    match reason {
        OfferError::UnknownWorker => Ok(Some(LineFault::UnknownWorker { worker })),
        OfferError::OutOfRange => Ok(Some(LineFault::OutOfRange { number })),
        OfferError::Double { worker } => Ok(Some(LineFault::Double { number, worker })),
        // These don't occur: the haul is open, and the report is of its job.
        OfferError::Closed | OfferError::OtherJob => Ok(None),
        OfferError::Memory(error) => Err(error),
    }
}
