//! The progress line on a terminal, which shows how many soups have been taken.
//!
//! ```text
//! begin     \r0 of 40 soups
//! taken     \r12 of 40 soups, 4100 a second      replaces the previous line, at most five times a second
//! end       \r                              \r   wiped
//! ```

ghost use Rattle.std.specs.Prelude.{◌≡◌, None, Some, false};
ghost use Rattle.std.specs.declared.time.Instant.{Instant as Moment};
ghost use Rattle.commands.specs.Progress.{milliseconds_from, per_second};

use crew::progress_observer::ProgressObserver;
use haul_core::report::Report;
use memory::OutOfMemory;
use plane_core::output::Out;
use std::alloc::Global;
use std::io::Write;
use std::time::{Clock, Instant};

/// The shortest time between two updates of the line, in milliseconds.
const PAUSE: u128 = 200;

/// A line on a terminal that shows how many soups of a haul have been taken and how many are taken per second. If the
/// system started fewer workers than were asked for, the line also shows how many workers there are.
///
/// The line is written when the haul is begun, and then from time to time, each time in place of the previous line. At
/// the end it is wiped. If there is no memory for a line, that line is left out. After a failed write, or if the clock
/// can't be read at the beginning, nothing is written.
#[derive(Drop)]
pub struct ProgressLine<W: Write, C: Clock> {
    alloc: Global,
    output: Out<W>,
    clock: C,
    is_shown: bool,
    whole: u64,
    workers: u8,
    at_work: u8,
    started: Option<Instant>,
    latest: Option<Instant>,
    count: u64,
    width: usize,
}

impl<W: Write, C: Clock> ProgressLine<W, C> {
    /// Returns the progress line of a writer. Nothing has been written yet. If `is_shown` is false, nothing will be
    /// written, unless [`ask`](Self::ask) asks for the line.
    pub fn new(alloc: Global, writer: W, clock: C, is_shown: bool) -> Self
        ensures unbegun { result.latest ≡ None }
        ensures shown { result.is_shown ≡ is_shown }
    {
        ProgressLine {
            alloc,
            output: Out::new(writer),
            clock,
            is_shown,
            whole: 0,
            workers: 0,
            at_work: 0,
            started: None,
            latest: None,
            count: 0,
            width: 0,
        }
    }

    /// If `is_asked`, shows the line for each haul that is begun from now on. Otherwise changes nothing.
    pub fn ask(&mut self, is_asked: bool)
        ensures hidden { self.old.is_shown ≡ false → is_asked ≡ false → self.new ≡ self.old }
    {
        self.is_shown |= is_asked;
    }

    /// Writes the line for `count` soups in place of the previous line.
    fn show(&mut self, count: u64, now: Instant) {
        self.latest = Some(now);
        self.count = count;
        if let Ok(line) = self.line(count, now) {
            self.width = self.width.max(line.len());
            self.put(line.as_str(), "");
        }
    }

    /// Writes `line` from the left edge of the screen, then spaces that cover the rest of any longer earlier line, and
    /// then `after`.
    fn put(&mut self, line: &str, after: &str) {
        let width = self.width;
        let Ok(text) = format!(in self.alloc; "\r{line:<width$}{after}") else {
            return;
        };
        if !self.output.failed() {
            let _ = self.output.put(text.as_bytes());
        }
    }

    /// Returns the text of the line.
    fn line(&self, count: u64, now: Instant) -> Result<String, OutOfMemory> {
        let crew = self.crew()?;
        self.line_with(count, now, crew.as_str())
    }

    /// Returns the text of the line. At its end is `crew`, which says something about the workers or is empty.
    fn line_with(&self, count: u64, now: Instant, crew: &str) -> Result<String, OutOfMemory> {
        let whole = self.whole;
        match self.rate(count, now) {
            Some(rate) => Ok(format!(in self.alloc;
                "{count} of {whole} soups, {rate} a second{crew}"
            )?),
            None => Ok(format!(in self.alloc; "{count} of {whole} soups{crew}")?),
        }
    }

    /// Returns what the line says about the workers: nothing if all were started.
    fn crew(&self) -> Result<String, OutOfMemory> {
        if self.at_work == self.workers {
            return Ok(String::new(self.alloc));
        }
        let crew = format!(in self.alloc; ", {} of {} workers", self.at_work, self.workers)?;
        Ok(crew)
    }

    /// Returns how many soups were taken per second since the census began, or `None` if it hasn't begun or began less
    /// than a millisecond ago.
    fn rate(&self, count: u64, now: Instant) -> Option<u128>
        ensures unbegun { self.now.started ≡ None → result ≡ None }
        ensures rate { (started : Moment) → self.now.started ≡ Some started
            → result ≡ per_second count (milliseconds_from started now) }
    {
        per_second(count, now.duration_since(self.started?).as_millis())
    }
}

/// Returns the number of soups per second, rounded down, if `count` soups were taken in `milliseconds` milliseconds.
/// Returns `None` if `milliseconds` is 0.
fn per_second(count: u64, milliseconds: u128) -> Option<u128>
    ensures { result ≡ per_second count milliseconds }
{
    (u128::from(count) * 1000).checked_div(milliseconds)
}

impl<W: Write, C: Clock> ProgressObserver for ProgressLine<W, C> {
    fn begin(&mut self, whole: u64, workers: u8)
        ensures hidden { self.old.is_shown ≡ false → self.new ≡ self.old }
    {
        if !self.is_shown {
            return;
        }
        let Ok(now) = Instant::now(&self.clock) else {
            return;
        };
        self.whole = whole;
        self.workers = workers;
        self.at_work = workers;
        self.started = Some(now);
        self.show(0, now);
    }

    fn started(&mut self, workers: u8) {
        self.at_work = workers;
    }

    fn report(&mut self, _report: &Report) {}

    fn taken(&mut self, count: u64)
        ensures unbegun { self.old.latest ≡ None → self.new ≡ self.old }
    {
        let Some(latest) = self.latest else {
            return;
        };
        let Ok(now) = Instant::now(&self.clock) else {
            return;
        };
        if now.duration_since(latest).as_millis() >= PAUSE {
            self.show(count, now);
        }
    }

    /// Wipes the line.
    fn pause(&mut self)
        ensures unbegun { self.old.latest ≡ None → self.new ≡ self.old }
    {
        if self.latest.is_some() {
            self.put("", "\r");
        }
    }

    /// Writes the line again.
    fn resume(&mut self)
        ensures unbegun { self.old.latest ≡ None → self.new ≡ self.old }
    {
        if let Some(latest) = self.latest {
            self.show(self.count, latest);
        }
    }

    fn end(&mut self)
        ensures unbegun { self.old.latest ≡ None → self.new ≡ self.old }
    {
        if self.latest.take().is_some() {
            self.put("", "\r");
        }
    }

    ghost hears_none = { λ _. tt };

    ghost hears_more = { λ _ _ _ _ _ _ _. tt };
}
