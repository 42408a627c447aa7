//! What arrives at a haul, and the replies.

use crate::book::refused::OfferError;
use crate::report::Report;

/// What arrives at a haul.
#[derive(Debug, Drop)]
pub enum Arrival {
    /// An offer of a report.
    Offer(Report),
    /// A closing of the haul.
    Closing,
}

/// The reply to an arrival.
#[derive(Clone, Copy, Debug, PartialEq, Eq)]
pub enum Reply {
    /// The report is taken.
    Taken,
    /// The report is refused.
    Refused(OfferError),
    /// The haul is closed from now on.
    NowClosed,
    /// The haul was closed before.
    AlreadyClosed,
}
