//! The commands for a single pattern, and how every command of the program ends.
//!
//! Each command is a function of plain values, a reader and writers, such as [`do_run`](run::do_run). The program reads
//! the values from its arguments, and lends the streams of the process. The commands for sets of soups are in the crate
//! `commands`, which depends on this one and shares its complaints, statuses and endings.
#![tactic(auto)]

/// The coordinates of live cells.
mod coordinates;
/// How a command ends: its last line on standard error, and its status.
pub mod ending;
/// Inputs that are read completely.
pub mod input;
/// `name`: when a pattern settles, and of which objects it then consists.
pub mod name;
/// Buffers for the output of a command, and for a line of standard error.
pub mod output;
/// Writing a pattern in one of its two forms.
mod pattern_text;
/// The profile with four given numbers.
pub mod profile;
/// A failed read.
pub mod read_error;
/// `run`: a pattern after a number of generations.
pub mod run;
/// `show`: the object of a code.
pub mod show;
/// `run --sizes`: the population and the bounding box of each generation.
pub mod sizes;
/// `soup`: a random start pattern.
pub mod soup;
/// `--version`: the program's name and version.
pub mod version;
