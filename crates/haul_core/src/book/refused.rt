//! Why a haul refuses a report.

use crate::report::Report;
use memory::OutOfMemory;
use std::fmt;
use thiserror::Error;

/// Why a report is refused. `census gather` doesn't print the messages of this type. It prints diagnostics of its own,
/// some of which also name the soup.
#[derive(Clone, Copy, PartialEq, Eq, Error)]
pub enum OfferError {
    /// The haul is closed.
    Closed,
    /// The report is of another job.
    OtherJob,
    /// The number of the report's worker is higher than the haul's number of workers.
    UnknownWorker,
    /// The number of the report's soup isn't in the haul's set.
    OutOfRange,
    /// The haul has already taken a report on this soup, by `worker`.
    Double { worker: u8 },
    /// Memory ran out.
    Memory(OutOfMemory),
}

impl fmt::Display for OfferError {
    fn fmt<W: fmt::Write>(&self, f: &mut fmt::Formatter<W>) -> fmt::Result {
        let text = match self {
            OfferError::Closed => "closed",
            OfferError::OtherJob => "other job",
            OfferError::UnknownWorker => "unknown worker",
            OfferError::OutOfRange => "out of range",
            OfferError::Double { worker } => return write!(f, "double of a report by {worker}"),
            OfferError::Memory(_) => "out of memory",
        };
        f.write_str(text)
    }
}

/// Shows the message, as `Display` does.
impl fmt::Debug for OfferError {
    fn fmt<W: fmt::Write>(&self, f: &mut fmt::Formatter<W>) -> fmt::Result {
        fmt::Display::fmt(self, f)
    }
}

/// A report that wasn't taken, and why.
#[derive(Debug, Drop)]
pub struct Refused {
    pub report: Report,
    pub reason: OfferError,
}
