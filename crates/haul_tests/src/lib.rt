//! Tests of the public calls of `haul_core` and `ranges`. They are in a crate of their own, because tests in these two
//! crates themselves would make the prover prove both crates twice.
#![tactic(auto)]

#[cfg(test)]
mod book;
#[cfg(test)]
mod claim;
#[cfg(test)]
mod join;
#[cfg(test)]
mod large;
#[cfg(test)]
mod nothing;
#[cfg(test)]
mod range_list;
#[cfg(test)]
mod refusals;
#[cfg(test)]
mod setup;
#[cfg(test)]
mod shortage;
#[cfg(test)]
mod writer;
