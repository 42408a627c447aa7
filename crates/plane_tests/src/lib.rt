//! Tests of the public calls of `plane_core`. They are in a crate of their own, because
//! tests in `plane_core` itself would make the prover prove it twice.
#![tactic(auto)]

#[cfg(test)]
mod boards;
#[cfg(test)]
mod output;
#[cfg(test)]
mod pictures;
#[cfg(test)]
mod places;
#[cfg(test)]
mod runs;
#[cfg(test)]
mod shortage;
#[cfg(test)]
mod sizes;
#[cfg(test)]
mod texts;
