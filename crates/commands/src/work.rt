//! `work`: the report lines of a set of soups, from one worker.
//!
//! ```text
//! plan ── soups_of ── ranges ── soup by soup: report ── line ── sent on
//!            │                                  │         │
//!         refused                         out of memory   write failed
//! ```

ghost use Rattle.std.specs.Prelude.{◌≡◌, ◌<◌, ◌≤◌, ◌∷◌, [], ℕ, List, Option, IfErr, false};
ghost use Rattle.memory.specs.Witness.{out_of_memory};
ghost use Rattle.ranges.specs.Ranges.{AreBelow, end_of, number_bound};
ghost use Rattle.haul_core.specs.ReportLines.{report_text};
ghost use Rattle.haul_core.specs.Reports.{IsWorker};
ghost use Rattle.plane_core.specs.Outputs.{Writes};
ghost use Rattle.pattern_commands.specs.Complaints.{status_of};
ghost use Rattle.pattern_commands.specs.Ends.{Ends};
ghost use Rattle.pattern_commands.specs.Profiles.{AreInRange};
ghost use Rattle.pattern_commands.specs.Streams.{stream};
ghost use Rattle.haul_core.specs.Missing.{numbers_of_range, numbers_of};
ghost use Rattle.pattern_commands.specs.TextSteps.{ReachesText};
ghost use Rattle.commands.specs.Work.{work_right, work_behaviour};
ghost use Rattle.commands.specs.WorkSteps.{EndsAtLine, Puts, reports_on};

use crate::opening::soups_of;
use haul_core::report::write::write_report_line;
use haul_core::report::{Report, ReportError};
use pattern_commands::ending::complaint::Complaint;
use pattern_commands::ending::end_text_command;
use pattern_commands::ending::status::Status;
use plane_core::output::{Out, WriteError};
use ranges::range::{Range, Ranges, one_normal_form};
use requests::plan::Plan;
use std::alloc::Global;
use std::io::Write;
use survey_core::finding::findings_are_determined;
use survey_core::job::Job;
use survey_core::surveyor::Surveyor;

/// Surveys all soups of a plan for worker `worker`, 1 to 16, and writes a report line for each, in ascending order of
/// the soups' numbers.
///
/// Each line is flushed as soon as it is complete. Each number of the profile has to be in its range, and no earlier
/// write to either writer may have failed. Refusals are tested in the order of [`do_take`](crate::take::do_take).
/// `census work` is this call with the standard streams.
///
/// # Errors
///
/// The status is `Refused` as for `do_take`; `Memory` if memory runs out, and then each line that was begun was written
/// completely; and `Failed` if the output can't be written. In these cases, a line is written to `errors`. A failure to
/// write that line is not reported.
pub fn do_work<W: Write, E: Write>(
    alloc: Global,
    plan: &Plan<'_>,
    worker: u8,
    output: &mut Out<W>,
    errors: &mut Out<E>,
) -> Status
    requires worker { IsWorker worker }
    requires profile { AreInRange plan.now.profile }
    requires output { output.old.failed ≡ false }
    requires errors { errors.old.failed ≡ false }
    ensures ends { (reader : Option (List ℕ)) (bytes : List ℕ)
        → Ends (work_behaviour plan.now worker) reader bytes result
        (stream W.contents output.old output.new) (stream E.contents errors.old errors.new) }
    ensures untouched { result ≡ Status.Refused → output.new ≡ output.old }
    ensures whole_lines { result ≡ Status.Memory
        → EndsAtLine plan.now worker (stream W.contents output.old output.new) }
{
    let outcome = work(alloc, plan, worker, output);
    end_text_command(outcome, errors)
}

/// Reads the plan, and writes the report lines of all of its soups.
fn work<W: Write>(
    alloc: Global,
    plan: &Plan<'_>,
    worker: u8,
    output: &mut Out<W>,
) -> Result<(), Complaint>
    requires worker { IsWorker worker }
    requires profile { AreInRange plan.now.profile }
    requires output { output.old.failed ≡ false }
    ensures reached { ReachesText false false (work_right plan.now worker) result
        (stream W.contents output.old output.new) }
    ensures untouched { IfErr result (λ complaint. status_of complaint ≡ Status.Refused → output.new ≡ output.old) }
    ensures whole_lines { IfErr result (λ complaint. complaint ≡ Complaint.Memory out_of_memory
        → EndsAtLine plan.now worker (stream W.contents output.old output.new)) }
{
    let soups = soups_of(alloc, plan)?;
    // For the prover: a soup has only one finding, and a set of soups only one normal form. So only one text is right,
    // and what is written is always a prefix of it.
    findings_are_determined();
    one_normal_form();
    put_all(alloc, &soups.job, worker, &soups.ranges, output)
}

/// Writes the report lines of all soups of a set.
fn put_all<W: Write>(
    alloc: Global,
    job: &Job,
    worker: u8,
    ranges: &Ranges,
    output: &mut Out<W>,
) -> Result<(), Complaint>
    requires worker { IsWorker worker }
    requires output { output.old.failed ≡ false }
    ensures { Puts (reports_on job.now worker (numbers_of ranges.now)) result
        (stream W.contents output.old output.new) }
{
    let mut surveyor = Surveyor::new(alloc);
    put_reports(alloc, job, worker, ranges.as_slice(), &mut surveyor, output)
}

/// Writes the report lines of the soups of these ranges.
fn put_reports<W: Write>(
    alloc: Global,
    job: &Job,
    worker: u8,
    ranges: &[Range],
    surveyor: &mut Surveyor,
    output: &mut Out<W>,
) -> Result<(), Complaint>
    requires worker { IsWorker worker }
    requires ranges { AreBelow number_bound ranges.now }
    requires output { output.old.failed ≡ false }
    ensures { Puts (reports_on job.now worker (numbers_of ranges.now)) result
        (stream W.contents output.old output.new) }
{
    for range in ranges {
        put_range(alloc, job, worker, *range, surveyor, output)?;
    }
    Ok(())
}

/// Writes the report lines of the soups of a range.
fn put_range<W: Write>(
    alloc: Global,
    job: &Job,
    worker: u8,
    range: Range,
    surveyor: &mut Surveyor,
    output: &mut Out<W>,
) -> Result<(), Complaint>
    requires worker { IsWorker worker }
    requires range { end_of range ≤ number_bound }
    requires output { output.old.failed ≡ false }
    ensures { Puts (reports_on job.now worker (numbers_of_range range)) result
        (stream W.contents output.old output.new) }
{
    for number in range.first..range.first + range.count {
        put_report(alloc, job, worker, number, surveyor, output)?;
    }
    Ok(())
}

/// Surveys a soup and writes its report line.
fn put_report<W: Write>(
    alloc: Global,
    job: &Job,
    worker: u8,
    number: u64,
    surveyor: &mut Surveyor,
    output: &mut Out<W>,
) -> Result<(), Complaint>
    requires worker { IsWorker worker }
    requires number { number < number_bound }
    requires output { output.old.failed ≡ false }
    ensures { Puts (reports_on job.now worker (number ∷ [])) result (stream W.contents output.old output.new) }
{
    let report = match Report::make_with_surveyor(alloc, surveyor, job, worker, number) {
        Ok(report) => report,
        Err(ReportError::Memory(error)) => return Err(Complaint::Memory(error)),
        Err(ReportError::BadWorker) => unreachable!(),
    };
    put_line(&report, output)?;
    Ok(())
}

/// Writes the line of a report and flushes it, so that no line waits for the next one.
fn put_line<W: Write>(report: &Report, output: &mut Out<W>) -> Result<(), WriteError>
    requires { output.old.failed ≡ false }
    ensures { Writes W.contents output.old output.new result (report_text report.now) }
{
    write_report_line(report, output)?;
    output.flush()
}
