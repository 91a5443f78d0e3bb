//! The properties of an archive: a text of keys and values, in the form of Java's property files.
//!
//! [`read`] gives the parameters of a text or its first fault, [`PropFault`], and [`write`] gives the text of
//! parameters. A line is a comment if it begins with `#` or `!`; else it has a key, and after `=`, `:` or blanks its
//! value:
//!
//! ```text
//! #BVGraph properties
//! version=0
//! nodes=3
//! compressionflags=OUTDEGREES_DELTA | REFERENCES_GAMMA
//! graphclass=it.unimi.dsi.webgraph.BVGraph
//! ```
//!
//! The text goes through three steps. One pass cuts it into lines, takes the pair of each, and keeps for each of the
//! ten keys where its last value stands. Then the values are validated one by one in the order of the keys, numbers by
//! `wg_num`, and at last the flags, which say in which codes the fields of a record are. Only the ten places are held,
//! and no memory is taken; the cost is linear in the text, however long its lines, values and blanks are. Of what Java
//! allows besides, a line that goes on in the next is a fault, and any other backslash is a byte like the rest.
//!
//! Parameters that are written and read again:
//!
//! ```rust
//! let params = usual(3, 4, 7, 3, 4)?;
//! let text = wg_properties::write(rt.alloc(), &params)?;
//! let again = wg_properties::read(text.as_slice())?;
//! assert!(rt; again.nodes() == 3 && again.arcs() == 4);
//! assert!(rt; again.residuals() == Code::Zeta(3));
//! Ok(())
//! ```
//!
//! A text that is written takes some 200 bytes, in a `List8`. The function of [`laws`] states that it is read
//! again, and that no prefix of it is that lacks more than the last LF.
#![tactic(auto)]

mod fault;
mod flags;
mod judge;
mod keys;
pub mod laws;
mod pairs;
mod values;
mod writing;

pub use fault::PropFault;
pub use judge::read;
pub use wg_params::key_name;
pub use writing::write;
