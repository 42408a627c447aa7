//! The plane: cells, patterns (finite sets of cells), rules, and the transforms that move and turn patterns.

/// Bounding boxes.
pub mod bounds;
/// Cells of the plane, and their order.
pub mod cell;
/// Sums and differences of coordinates.
pub mod coordinate;
/// How fast patterns grow in diagonal directions.
pub mod frontier_speed;
mod list_generation;
/// Locality: how far the influence of a cell reaches in a number of generations.
pub mod locality;
/// The eight orientations.
pub mod orientation;
mod parts;
/// Patterns: finite sets of cells.
pub mod pattern;
/// Rules by birth and survival numbers.
pub mod rule;
/// Moving and turning patterns.
pub mod transform;
/// The translation from one pattern to another.
pub mod translation;
