//! One-sided tests: `true` is a proof that a pattern isn't at rest or doesn't recur, and `false` says nothing. To show
//! that a pattern isn't at rest, one of its clusters is enough. So which cluster is tested, and when, is a free choice
//! that needs no proof.

pub(crate) mod active_cells;
pub(crate) mod crop;
pub(crate) mod diverges;
/// A test that the pattern of a board isn't at rest, because of one cluster.
pub mod early_reject;
pub(crate) mod flood;
pub(crate) mod follow;
pub(crate) mod never_recurs;
/// Tests on a small pattern, which is run alone in windows.
pub mod quick_test;
pub(crate) mod rules_out_rest;
/// Small clusters that may be escaping spaceships.
pub mod spaceship_candidates;
