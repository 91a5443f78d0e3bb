//! The commands that write an archive of a text: `build` and `import`; and `bulk`, which builds that of a generated
//! graph in memory.
//!
//! Each is a function over any outside, with one clause: `DoesOrEnds` of its job (`wg_outcomes`); `bulk`, which makes
//! no call of a depot, has it of any depot by `DoesAlone`. `build` and `import` read their text in pieces, line after
//! line, and encode the list of a page when the page is over; they hold the archive in memory, one list, and a piece
//! with the line that it cuts. The last step, [`wg_writing::build_archive`], writes that archive and prints its line.
//! So no file is touched before the text is validated to its end and the archive is whole.
//!
//! The archive `g` of two pages, of the arc list that is the file `a` of any depot:
//!
//! ```rust
//! let list = Name::new(alloc, "a")?;
//! let base = Name::new(alloc, "g")?;
//! let done = build(alloc, &list, &base, 2, &default_layout(), depot, out);
//! assert!(rt; done.is_ok());
//! Ok(())
//! ```
//!
//! Choices:
//!
//! - `bulk` ranks the archive that it built, not the graph that it generated. So it runs the whole program, over a
//!   depot in memory: to build, validate, read and rank. Each graph within the limits has an accepted archive, so
//!   `bulk` has no status for a fault in it. *Revisit if* it takes so many pages that a graph of them is too much to
//!   hold.
//! - Its rounds go along the lists of the graph in memory: along runs they took as long or a little less, for more
//!   memory. *Revisit if* it does many more rounds.
#![tactic(auto)]

pub mod build;
pub mod bulk;
mod generated;
pub mod import;
mod importing;
mod listing;
