//! The crates as a library for C: archives that lie in the caller's memory.
//!
//! Each call is told all that it needs, and keeps nothing: there is no handle to open or to close. An archive is its
//! parameters ([`WgParams`]), the bytes of its graph file, and the offsets of its records. A call answers a status, the
//! number that the program would exit with, and fills what it is lent. `webgraph.h` declares the calls.
#![tactic(auto)]

mod checking;
mod fault;
mod lists;
mod many;
mod offsets;
mod outdegrees;
mod params;
mod properties;
mod range;
mod ranking;
mod spot;
mod status;
mod verifying;
mod writing;

pub use fault::WgFault;
pub use params::WgParams;
pub use verifying::WgWide;
