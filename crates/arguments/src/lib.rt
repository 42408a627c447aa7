//! What the arguments of a call of `census` ask for, as plain values.
//!
//! ```text
//! options, commands (tables)  ->  application (how clap reads arguments)
//!         \                              |
//!          `--------------------->  reading  ->  Request
//! ```
//!
//! This crate knows nothing about Life. It takes a rule, a seed or a code as a text and doesn't parse the text.
#![tactic(auto)]

/// The commands and their arguments, as `clap` knows them.
pub mod application;
/// Reads the arguments of a call, and returns a request or an error.
pub mod calls;
/// The table of commands.
pub mod commands;
/// The table of options.
pub mod options;
/// The request of a command, from the values of its arguments.
pub mod reading;
/// Requests: each command with its values.
pub mod request;
/// The values of arguments, each looked up by its row.
pub mod values;
