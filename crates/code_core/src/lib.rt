//! The names of the objects of Life-like cellular automata: extended Wechsler texts and apgcodes (LifeWiki, "Apgcode").
#![tactic(auto)]

/// Apgcodes as values: their texts, kinds and numbers.
pub mod apgcode;
/// Writing numbers in decimal.
pub mod decimal;
mod image_rows;
/// The name of a pattern that recurs.
pub mod name;
/// The pattern of an extended Wechsler text.
pub mod reader;
/// How a pattern recurs, and its phases.
pub mod recurrence;
/// The extended Wechsler text of a pattern.
pub mod wechsler;
