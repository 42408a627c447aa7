//! Tests of the public calls of `code_core`. They are in a crate of their own, because
//! tests in `code_core` itself would make the prover prove it twice.
#![tactic(auto)]

#[cfg(test)]
mod name;
#[cfg(test)]
mod reader;
#[cfg(test)]
mod recurrence;
#[cfg(test)]
mod wechsler;
