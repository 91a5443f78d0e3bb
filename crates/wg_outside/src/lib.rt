//! The outside of a program, by two traits: a [`Depot`] of named files, and a [`Sink`] of bytes.
//!
//! Whoever reads or writes is generic over these traits, and its contract says which bytes it read and wrote wherever
//! the outside can tell them. [`read_whole`] reads a file into a [`List8`], [`append_all`] writes to a file,
//! [`write_all`] and [`write_pieces`] write to a sink; each loops until all is done or a call is refused. A
//! [`FileSink`] is a file of any depot. The crate `wg_io` has depots and sinks, and passes on all that stands here.
//!
//! [`PROPERTIES`], [`GRAPH`] and [`OFFSETS`] are what the names of an archive's files end in.
//!
//! A file of a depot, written as a sink and read whole:
//!
//! ```rust
//! let mut depot = SteadyDepot::new(rt.alloc(), 4096);
//! let mut arcs = FileSink::new(&mut depot, "arcs");
//! write_pieces(&mut arcs, &[b"0 1\n".as_slice(), b"1 0\n".as_slice()])?;
//! let bytes = read_whole(rt.alloc(), &mut depot, "arcs")?;
//! assert!(rt; bytes.as_slice() == b"0 1\n1 0\n".as_slice());
//! Ok(())
//! ```
//!
//! An error is never made up: `Failed`, `Absent` and `Memory` come from an outside only if it counted them, which is
//! how a contract far above can say that a failed job was the outside's fault.
//!
//! No call holds memory but for the bytes that it answers.
//!
//! Choices:
//!
//! - The first read of a file asks for the byte at offset 2^46, so that a file that is too long is refused before any
//!   of it is held; one that grows meanwhile is refused when it passes the limit. *Revisit if* there are archives of
//!   more than 64 TiB.
//! - The counts of a sink fall at no write. That they do not over several, of any sink, is said by a relation of its
//!   type, `later`, which leads on from write to write. *Revisit if* a contract of many calls can be had without it.
//! - What reads and writes stands on the traits alone, so the depots and sinks are a crate of their own, `wg_io`:
//!   nearly all crates are proved beside it. *Revisit if* it takes no longer to prove than this one.
//! - A count stands still at 2^64 - 1, and an error comes only if its count rose or stands there. So calls stay total,
//!   and no run reaches that value. A depot may count by name or for all names together; the clauses of `run` name the
//!   file, and are weaker if the depot counts more coarsely. *Revisit if* a caller has to know by contract which file
//!   of the system failed, or if numbers without a limit cost nothing at run time.
//! - Calls that write are not counted, so no clause says that nine commands never write to the system's folder. A token
//!   without bytes, as `wg_random::Steps`, could count them at no cost, but only one sum for all names; it would be a
//!   type parameter of `FolderDepot` and `main`, and a ghost member of every depot. *Revisit if* a token can count by
//!   name, or if `FolderDepot` gets a type parameter anyway.
#![tactic(auto)]

mod appending;
mod depot;
mod file_sink;
mod limits;
mod output;
mod pieces;
mod sink;
mod suffixes;
mod whole;

pub use appending::append_all;
pub use depot::{Depot, ReadError, WriteError};
pub use file_sink::FileSink;
pub use limits::MOST_BYTES;
pub use output::Output;
pub use pieces::{write_all, write_pieces};
pub use sink::Sink;
pub use suffixes::{GRAPH, OFFSETS, PROPERTIES};
pub use whole::{List8, LoadError, read_whole};
