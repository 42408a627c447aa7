//! Finite patterns of a Life-like cellular automaton. Their cells have coordinates from -1,000,000 to 1,000,000.
//!
//! Contracts see a [`Pattern`](plane::pattern::Pattern) as the list of its cells in order, each once. This list stands
//! for the set of these cells.
//!
//! The main modules, each of which uses only the modules below it and `output`:
//!
//! ```text
//! generation     step and run, with the cheapest representation
//! one_sided      quick tests whose `true` is a proof and whose `false` says nothing
//! engine         boards: leaps of up to four generations in windows
//! windows        64 columns of cells in vectors, and a rule as operations on them
//! clusters       the objects of a pattern
//! plane          cells, patterns, rules, orientations
//! ```
#![tactic(auto)]

/// Clusters: the objects of a pattern.
pub mod clusters;
/// Boards, which advance by leaps of up to four generations.
pub mod engine;
/// The next generation, and later ones.
pub mod generation;
/// One-sided tests: `true` is a proof, and `false` says nothing.
pub mod one_sided;
/// A writer that remembers that a write failed.
pub mod output;
/// Cells, patterns, rules and orientations.
pub mod plane;
/// Plaintext pattern files.
pub mod plaintext;
/// Windows: pieces of the plane in vectors of words.
mod windows;
