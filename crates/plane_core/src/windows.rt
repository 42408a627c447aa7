//! Windows: pieces of the plane, 64 columns wide, stored in vectors of words. A rule is applied to whole vectors.

pub(crate) mod geometry;
pub(crate) mod lane_sums;
pub(crate) mod row_packing;
pub(crate) mod rule_logic;
pub(crate) mod rule_tables;
pub(crate) mod window;
pub(crate) mod window_queries;
