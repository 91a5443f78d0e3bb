//! The commands that make an archive of archives: `recode`, `transpose`, `union`, `quotient`.
//!
//! Each is a function over any outside, with one clause: `DoesOrEnds` of its job (`wg_outcomes`). A command is a chain
//! of steps: those of `wg_readings`, which read its inputs and validate them, then the encoding of the greedy archive
//! in memory, and last [`wg_writing::build_archive`], which writes that archive and prints its line. So no file is
//! touched before all inputs are validated and the archive is whole.
//!
//! The archive `t` of the graph of the archive `web` with each arc the other way round, in any depot:
//!
//! ```rust
//! let input = Name::new(alloc, "web")?;
//! let output = Name::new(alloc, "t")?;
//! let done = transpose(alloc, &input, &output, &default_layout(), depot, out);
//! assert!(rt; done.is_ok());
//! Ok(())
//! ```
//!
//! `recode` reads the graph in pieces, once. `union` holds the bytes of two graph files, and goes through their lists
//! side by side; `transpose` and `quotient` hold those of one, and go through its lists once for each range of pages or
//! of classes. Before that `transpose` goes through them once, to validate them and to count the arcs; `quotient`
//! twice, since its map is read once the graph is validated.
//!
//! Choices:
//!
//! - `union` sweeps over both archives side by side. A sweep needs no offsets and no memory for a page, and knows no
//!   chain that is too deep. The bits of both are held, since what is joined is what was validated; reading the files
//!   again would validate each record twice. Only the number of arcs can pass its limit, before OUT is touched.
//!   *Revisit if* two archives do not fit into memory beside their union, or if pages have labels, on which they can
//!   disagree.
//! - No clause says how many passes are made. `encode_transposed` and `encode_quotient` cut the graph into ranges by
//!   its number of arcs, and any number gives the same archive. For a clause `Lists` would have to count its
//!   beginnings. *Revisit if* passes have to be stated by contract, as the records that `show` opens are.
#![tactic(auto)]

mod counting;
mod loaded;
pub mod quotient;
mod quotienting;
mod ranging;
pub mod recode;
pub mod transpose;
mod transposing;
pub mod union;
mod uniting;
