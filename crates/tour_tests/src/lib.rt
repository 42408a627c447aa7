//! A tour of the libraries: short examples of the calls that a user meets first. CI proves them and runs them.
#![tactic(auto)]

#[cfg(test)]
mod hauls;
#[cfg(test)]
mod patterns;
#[cfg(test)]
mod soups;
#[cfg(test)]
mod threads;
