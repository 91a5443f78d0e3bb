//! Laws of what jobs come to, each the contract of a function without a body.
//!
//! They hold of the definitions of `wg_outcomes`, whoever does a job: that the grammar leaves one reading of every
//! file, that what is written is accepted and read back, and that what is ranked and verified is proven.
//!
//! ```rust
//! wg_laws::readings();
//! wg_laws::built_archives();
//! ```
#![tactic(auto)]

mod laws;

pub use laws::{
    built_archives, certificates, converted_archives, imported_archives, joined_archives,
    quotients, rankings, readings, spotted_pages,
};
