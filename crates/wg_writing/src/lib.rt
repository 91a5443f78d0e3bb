//! The archive of a command that writes one: encoded in memory, and then written.
//!
//! A command encodes its lists one after the other by an [`ArchiveEncoder`](wg_encoder::ArchiveEncoder), or a graph at
//! once ([`encode_graph`]). Until then no file is touched. [`build_archive`] is the one way out: it creates the three
//! files, fills them, the properties last, and prints the line of what the archive holds. Its contract alone says what
//! stands in the files and on the output after each failure.
//!
//! ```text
//! lists --> new, add, finish --> EncodedArchive --> build_archive: create, fill --> three files, the line
//! ```
//!
//! The archive of a graph of one arc:
//!
//! ```rust
//! let graph = wg_arcs::read(rt.alloc(), b"0 1\n", 2)?;
//! let params = params_of(&default_layout(), graph.nodes(), graph.arcs());
//! let Ok(archive) = encode_graph(rt.alloc(), &params, &graph) else {
//!     return Err("out of memory".into());
//! };
//! let base = Name::new(rt.alloc(), "g")?;
//! let mut depot = SteadyDepot::new(rt.alloc(), 4096);
//! let mut out = SteadySink::new(rt.alloc(), 4096);
//! let done = build_archive(rt.alloc(), &params, &archive, &base, &mut depot, &mut out);
//! assert!(rt; done.is_ok());
//! assert!(rt; depot.holds("g.properties"));
//! Ok(())
//! ```
//!
//! Encoding takes the memory of the archive, of the lists of a window and of one record; writing that of three names.
#![tactic(auto)]

mod building;
mod encoding;
mod writing;

pub use building::build_archive;
pub use encoding::encode_graph;
