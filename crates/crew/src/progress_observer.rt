//! Progress callbacks.
ghost use Rattle.std.specs.Prelude.{◌++◌, ◌∷◌, [], List, ⊤};
ghost use Rattle.haul_core.specs.Reports.{Reported};

use haul_core::report::Report;

/// Callbacks that receive the progress of a haul, and the workers' reports.
///
/// Contracts hold for any observer, so an observer can't change what a call promises to return or to write to its
/// output. With [`hears`], an observer promises what it does with reports. The contract of `take` says which reports
/// the observer has received.
pub trait ProgressObserver {
    /// Says that an observer received these reports, in this order, between two of its states.
    ghost hears: { Self → List Reported → Self → Type 0 } = { λ _ _ _. ⊤ };

    /// Called before the first soup: `workers` workers are to complete a haul over `whole` soups.
    fn begin(&mut self, _whole: u64, _workers: u8)
        ensures { hears self.old [] self.new }
    {}

    /// Called after the threads were started. `workers` is the number of workers for which a thread was started.
    fn started(&mut self, _workers: u8)
        ensures { hears self.old [] self.new }
    {}

    /// Called for each report that a worker has sent, before it is offered to the haul.
    fn report(&mut self, report: &Report)
        ensures { hears self.old (report.now ∷ []) self.new };

    /// Called from time to time: `count` soups of the haul have been taken so far.
    fn taken(&mut self, count: u64)
        ensures { hears self.old [] self.new };

    /// Called before something else is written where the progress is shown.
    fn pause(&mut self) {}

    /// Called after something else was written where the progress is shown.
    fn resume(&mut self) {}

    /// Called at the end: no more soups will be taken.
    fn end(&mut self)
        ensures { hears self.old [] self.new }
    {}

    /// `hears` holds between a state and itself for the empty list of reports.
    ghost hears_none: { (s : Self) → hears s [] s };

    /// An observer that has received some reports and then others has received all of them, in this order.
    ghost hears_more: { (s m t : Self) (xs ys : List Reported) → hears s xs m → hears m ys t → hears s (xs ++ ys) t };
}

/// An observer that ignores all progress and all reports.
#[derive(Clone, Copy, Debug)]
pub struct NoObserver;

impl ProgressObserver for NoObserver {
    fn report(&mut self, _report: &Report) {}

    fn taken(&mut self, _count: u64) {}

    ghost hears_none = { λ _. tt };

    ghost hears_more = { λ _ _ _ _ _ _ _. tt };
}
