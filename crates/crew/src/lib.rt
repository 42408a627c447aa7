//! A crew: worker threads that survey the soups of one haul together, without a lock.
#![tactic(auto)]

/// The collector, which offers what it receives to a haul.
pub mod collector;
/// Gates, which may stop a worker.
pub mod gate;
/// The messages from workers to the collector.
pub mod note;
/// The endpoints of workers: passes and senders.
mod endpoints;
/// A worker's loop.
mod worker;
/// What all workers share.
mod shared;
/// What a crew starts with.
mod crew_setup;
/// Progress callbacks.
pub mod progress_observer;
/// The workers, and the call that runs them.
pub mod take;
