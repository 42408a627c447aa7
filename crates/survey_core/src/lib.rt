//! Soups, and what becomes of a pattern: when it is at rest, and which objects are left then.
//!
//! No module in this list uses one above it, except that `surveyor` returns the `Finding` of `finding`:
//!
//! ```text
//! finding        what becomes of a soup
//! surveyor       checkpoint after checkpoint, until the pattern is at rest; what is kept from soup to soup
//! evolution      a pattern between two checkpoints, as a list or on a board without its escaped spaceships
//! rest           whether a pattern is at rest
//! shapes         what is known of a cluster: how it recurs, its envelope, its apgcode
//! far_from_edge  patterns far from the edge of the plane, where a step fails only if memory runs out
//! ```
#![tactic(auto)]

/// A pattern between two checkpoints.
pub mod evolution;
/// Patterns so far from the edge that no step leaves the plane.
mod far_from_edge;
/// What a survey finds.
pub mod finding;
/// Seed, profile and rule together.
pub mod job;
/// When a pattern counts as settled.
pub mod profile;
/// When a pattern is at rest.
pub mod rest;
/// Seeds: the texts from which soups are made.
pub mod seed;
/// What is known of a cluster's shape.
pub mod shapes;
/// Random patterns of 16 by 16 cells.
pub mod soup;
/// What a worker keeps from soup to soup.
pub mod surveyor;
