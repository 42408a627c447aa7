//! The report lines of late soups, which `take --report-from` writes to standard error while its census runs.
//!
//! ```text
//! collector ── report ──> late? ── no ───> nothing
//!                           └── yes ─> progress wiped ── line ── progress drawn again
//!                                                         └── failed: the gate stops every worker
//! ```

ghost use Rattle.std.proofs.Common.{◌∙◌, subst};
ghost use Rattle.std.specs.Prelude.{◌≡◌, false, refl};
ghost use Rattle.haul_core.specs.ReportLines.{report_text};
ghost use Rattle.haul_core.specs.Reports.{IsReport};
ghost use Rattle.plane_core.specs.Outputs.{Writes};
ghost use Rattle.commands.specs.LateReports.{PutsReports, is_late};
ghost use Rattle.commands.specs.PutLaws.{puts_more, puts_none};

use arrayvec::ArrayVec;
use crew::gate::{Gate, Stop};
use crew::progress_observer::ProgressObserver;
use haul_core::report::Report;
use haul_core::report::write::write_report_line;
use plane_core::output::{Out, WriteError};
use std::io::Write;
use std::sync::atomic::{AtomicBool, Ordering};
use survey_core::finding::Finding;

/// A buffer for a report line, so that the line is one write. A line of more than 4,096 bytes is written field by
/// field.
type ReportBuffer = ArrayVec<u8, 4096>;

/// A gate that stops every worker once a write has failed.
#[derive(Clone, Copy)]
pub(crate) struct FaultGate<'a> {
    /// Whether a write has failed.
    pub(crate) has_failed: &'a AtomicBool,
}

impl<'a> Gate for FaultGate<'a> {
    ghost may_stop = { λ _ worker number. Unit {0} };

    ghost lets = { λ _ worker number. Unit {0} };

    fn before(&self, _worker: u8, _number: u64) -> Result<(), Stop> {
        if self.has_failed.load(Ordering::SeqCst) {
            return Err(Stop);
        }
        Ok(())
    }
}

/// An observer that writes the report line of each late soup, and passes the progress on to another observer.
#[derive(Drop)]
pub(crate) struct ReportSink<'a, 's, E: Write, H> {
    /// The generation from which soups count as late. A soup is late if its checkpoint is this generation or later, or
    /// if it is unsettled.
    pub(crate) from: u32,
    /// Where the lines are written.
    pub(crate) errors: &'a mut Out<E>,
    /// Receives the progress.
    pub(crate) progress: &'a mut H,
    /// Set once a write has failed.
    pub(crate) has_failed: &'s AtomicBool,
    /// The witness of the write that failed, or `None` if no write has failed.
    pub(crate) fault: Option<WriteError>,
}

impl<'a, 's, E: Write, H: ProgressObserver> ProgressObserver for ReportSink<'a, 's, E, H> {
    ghost hears = { λ s reports t. (t.errors.ghost_name ≡ s.errors.ghost_name)
        × (t.progress.ghost_name ≡ s.progress.ghost_name) × (t.from ≡ s.from)
        × PutsReports E.contents s.from s.errors.now t.errors.now reports };

    fn begin(&mut self, whole: u64, workers: u8) {
        self.progress.begin(whole, workers);
    }

    fn started(&mut self, workers: u8) {
        self.progress.started(workers);
    }

    fn report(&mut self, report: &Report) {
        let is_late = is_late(report, self.from);
        if !is_late || self.errors.failed() {
            return;
        }
        self.progress.pause();
        self.fault = put_line(report, self.errors).err();
        self.has_failed
            .store(self.fault.is_some(), Ordering::SeqCst);
        self.progress.resume();
    }

    fn taken(&mut self, count: u64) {
        self.progress.taken(count);
    }

    fn end(&mut self) {
        self.progress.end();
    }

    ghost hears_none = { λ s. (refl, refl, refl, puts_none E.contents s.from s.errors.now) };

    ghost hears_more = { λ s m t xs ys p q. (
      q.0 ∙ p.0,
      q.1 ∙ p.1,
      q.2 ∙ p.2,
      puts_more E.contents s.from s.errors.now m.errors.now t.errors.now xs ys p.3
          (subst (λ n. PutsReports E.contents n m.errors.now t.errors.now ys) p.2 q.3),
    ) };
}

/// Checks whether the soup of a report is unsettled, or its checkpoint is `from` or later.
fn is_late(report: &Report, from: u32) -> bool
    ensures late { result ≡ is_late from report.now.finding }
    ensures right { IsReport report.now }
{
    match report.finding() {
        Finding::Settled { checkpoint, .. } => *checkpoint >= from,
        Finding::Unsettled => true,
    }
}

/// Writes the line of a report, in one write if it has at most 4,096 bytes. This takes no memory.
fn put_line<E: Write>(report: &Report, errors: &mut Out<E>) -> Result<(), WriteError>
    requires { errors.old.failed ≡ false }
    ensures { Writes E.contents errors.old errors.new result (report_text report.now) }
{
    let mut line = Out::new(ReportBuffer::new());
    match write_report_line(report, &mut line) {
        Ok(()) => errors.put(line.into_inner().as_slice()),
        Err(_) => write_report_line(report, errors),
    }
}
