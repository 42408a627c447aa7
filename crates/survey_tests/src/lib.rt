//! Tests of the public calls of `survey_core`. They are in a crate of their own, because
//! tests in `survey_core` itself would make the prover prove it twice.
#![tactic(auto)]

#[cfg(test)]
mod finding;
#[cfg(test)]
mod profile;
#[cfg(test)]
mod soup;
