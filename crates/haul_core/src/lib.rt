//! Hauls: which soups of a job have been taken, which worker reported each of them, and which objects they left.
#![tactic(auto)]

/// The book: hauls, what arrives at them, and their census.
pub mod book;
/// Reports on soups, and report lines.
pub mod report;
