//! Sets of numbers below 2^40 as ranges, and lists of ranges as texts.
#![tactic(auto)]

/// Sets of soup numbers.
pub mod range;
/// Lists of ranges as texts.
pub mod range_list;
