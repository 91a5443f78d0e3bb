//! The commands that look up single pages of an archive and print their successors: `show` and `spot`.
//!
//! Each is a function over any outside, with one clause: `DoesOrEnds` of its job (`wg_outcomes`). A command is a
//! chain of steps: those of `wg_readings`, which read the files of an archive, and last one that prints.
//!
//! The successors of a page of an archive in memory are printed:
//!
//! ```rust
//! let mut depot = SteadyDepot::new(rt.alloc(), 4096);
//! let text = wg_properties::write(rt.alloc(), &usual(3, 4, 7, 3, 4)?)?;
//! depot.put_file("web.properties", text.as_slice())?;
//! depot.put_file("web.graph", b"\x7D\xC6\xE0")?;
//! // 1 0001101 00111 010: the words of 0, 12, 6 and 1
//! depot.put_file("web.offsets", b"\x8D\x3A")?;
//! let base = Name::new(rt.alloc(), "web")?;
//! let mut out = SteadySink::new(rt.alloc(), 4096);
//! let done = spot(rt.alloc(), &base, 1, &mut depot, &mut out);
//! assert!(rt; done.is_ok());
//! assert!(rt; out.bytes() == b"1 1 2\n".as_slice());
//! Ok(())
//! ```
//!
//! [`show`] holds the graph file whole, reads the offsets in pieces, and validates both; it reads pages by their
//! offsets, prints their successors as they come, and opens each record of their chains of references once
//! ([`show::show_pages`] counts them). [`spot`] holds neither file: it keeps samples of the offsets, and reads no
//! record of the graph file but those that one page refers to, a step of its own (`successors_of_page`).
//!
//! Choices:
//!
//! - [`show`] looks for all pages before it prints one, so that a refusal leaves the output empty. A number too great
//!   for any archive is still a valid argument, since only the properties tell which pages exist. *Revisit if* pages
//!   are asked for by the million.
//! - [`show`] keeps each offset, where [`spot`] keeps samples: an `Archive` borrows its `Offsets`, whose `place`
//!   answers at once and is never refused. By samples it would read up to 1024 words, of a file that may fail, wherever
//!   a page is opened. *Revisit if* offsets come from an index that needs no validation, or if `Archive` gets an error
//!   for what it has not read.
//! - The contract of [`show`] does not tell apart the two ways of `Archive::read`, iterators and lists. *Revisit if*
//!   calls through 255 boxes prove slower than making the list.
//! - [`spot`] goes to any bit by one read, which begins with the byte of the bit before: the file has that byte exactly
//!   if it has so many bits. So the read tells whether a record begins past the end, and brings its front. The graph
//!   file is looked for before the offsets and its records are read after them, so a depot that changes in between can
//!   end the job at that file twice, each with its cause. The price is that `BASE.graph` can't be a pipe. *Revisit if*
//!   single pages are to be read from pipes.
//! - The heads of a chain are validated before its records, since only references tell which records are needed. The
//!   limit on chains is checked with the records. The arcs before a page are not known, so its outdegree is compared
//!   with the number of all arcs. *Revisit if* keeping the heads of long chains costs more than reading them twice.
#![tactic(auto)]

mod chain_files;
mod chains;
mod found_file;
mod sampled;
pub mod show;
mod shown;
pub mod spot;
