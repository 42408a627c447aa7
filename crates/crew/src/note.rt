//! The notes that workers put on the belt.
use haul_core::report::Report;

/// A message from a worker to the collector.
#[derive(Debug, Drop)]
pub enum Note {
    /// A soup was surveyed.
    Report(Report),
    /// The worker sends nothing more.
    Done { worker: u8 },
}
