//! Tests of the public calls of `crew` and `handover`. They are in a crate of their own, because tests in
//! the two crates themselves would make the prover prove both crates twice.
#![tactic(auto)]

#[cfg(test)]
mod asked;
#[cfg(test)]
mod belt;
#[cfg(test)]
mod gates;
#[cfg(test)]
mod left;
#[cfg(test)]
mod progress_observer;
#[cfg(test)]
mod resume;
#[cfg(test)]
mod shortage;
#[cfg(test)]
mod small;
#[cfg(test)]
mod tickets;
