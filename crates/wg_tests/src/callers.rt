//! The examples of the overviews. The line before each function names the crate in whose overview its body stands.

mod format;
mod graphs;
mod numbers;
mod program;
mod reading;
mod writing;
