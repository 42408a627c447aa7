//! What threads exchange without a lock: numbers that they draw, and notes that they send to one receiver.
#![tactic(auto)]

/// A counter of changes, on which threads sleep.
mod event_count;
/// A queue from several senders to one receiver.
pub mod belt;
/// Numbers that threads draw, each once.
pub mod tickets;
