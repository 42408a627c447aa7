//! What `take` gets from the machine that it runs on.

use plane_core::output::Out;
use std::alloc::Global;
use std::io::Write;

/// What `take` gets from the machine that it runs on: memory, threads, standard error, and an observer of its progress.
///
/// Of these, the other commands get only the allocator and standard error, because they start no threads and report no
/// progress.
#[derive(Drop)]
pub struct Machine<'a, T, E: Write, H> {
    /// The allocator.
    pub alloc: Global,
    /// Starts threads, and waits for them.
    pub threads: &'a T,
    /// Standard error.
    pub errors: Out<E>,
    /// Receives the progress.
    pub observer: H,
}
