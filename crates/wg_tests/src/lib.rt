//! Tests over the public calls of the other crates. A crate that has a test is proved once more with it, so they stand
//! in one of their own.
//!
//! `callers` has for each crate the example in its overview, so that it is proved and run. They go by the layers of
//! the crates, from numbers to the program. `tables` has what neither a contract says nor the program prints: what it
//! prints stands in the rows of `wg_cli`.
#![tactic(auto)]

#[cfg(test)]
mod callers;
#[cfg(test)]
mod tables;
