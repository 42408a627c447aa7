//! What a call of `census` asks for, as plain values: texts, the numbers of a profile, sets of soups, plans.
//!
//! The crate `arguments` reads these values from a call, and the crates of the commands take them, so `arguments` and
//! those crates don't need each other.
#![tactic(auto)]

/// The forms in which patterns are printed.
pub mod form;
/// Plans of a census, and what they consist of.
pub mod plan;
/// The version of the program.
pub mod version;
