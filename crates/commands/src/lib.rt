//! The commands for sets of soups: `take`, `work` and `gather`.
//!
//! Each command is a function that takes plain values. [`do_take`](take::do_take) is an example. The program reads the
//! values from its arguments, and lends the streams of the process. `pattern_commands` has the other commands, and
//! defines how a command ends.
#![tactic(auto)]

/// Input that was read and isn't used yet.
mod ahead;
/// How a haul is closed and printed.
mod finish;
/// `gather`: the haul of report lines.
pub mod gather;
/// Why a report line was not taken.
pub mod line_fault;
/// Inputs that are read line by line.
mod lines;
/// What `take` gets from the machine: memory, threads, standard error and an observer.
pub mod machine;
/// Opening a haul over the soups of a plan.
mod opening;
/// The progress line.
pub mod progress_line;
/// The report lines of late soups.
mod report_sink;
/// `take` with report lines of late soups.
pub mod reporting;
/// `take`: the haul of a set of soups.
pub mod take;
/// `work`: the report lines of a set of soups.
pub mod work;
