//! Tests of the public calls of `commands` and `pattern_commands`. They are in a crate of their own, because
//! tests in the two crates themselves would make the prover prove both crates twice. The cases in `checks/cases` test
//! what can be tested with the built program.
#![tactic(auto)]

#[cfg(test)]
mod gather;
#[cfg(test)]
mod progress;
#[cfg(test)]
mod reporting;
#[cfg(test)]
mod run;
#[cfg(test)]
mod setup;
#[cfg(test)]
mod streams;
#[cfg(test)]
mod take;
#[cfg(test)]
mod work;
