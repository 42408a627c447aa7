//! Laws that people would quote, as theorems. Each is a function with an empty body, whose contract is the law.
//!
//! Nothing in the program needs these laws, so only `bin/test` proves them. There is a module for each crate that the
//! laws are about. A law that a crate itself needs is in that crate, beside its definitions.
#![tactic(auto)]

/// Laws of apgcodes.
pub mod codes;
/// Laws of what `gather` and `take` print.
pub mod gathering;
/// Laws of what a haul takes, of censuses and their texts, and of report lines.
pub mod hauls;
/// Laws of what `name` prints.
pub mod names;
/// Laws of sets of soup numbers.
pub mod sets;
/// Laws of soups, findings and patterns at rest.
pub mod surveys;
