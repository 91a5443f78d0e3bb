//! Depots of files and sinks of bytes: those of the system, and others in memory, with and without faults.
//!
//! | outside | files | bytes |
//! |---|---|---|
//! | of the system: tells no bytes | [`FolderDepot`] | [`StdSink`] |
//! | in memory | [`SteadyDepot`] | [`SteadySink`] |
//! | in memory, with a call that is to fail | [`MemoryDepot`] | [`MemorySink`] |
//! | one file of so many zeros | [`ZeroDepot`] | |
//!
//! The traits that they implement, [`Depot`] and [`Sink`], with all that reads and writes by them, are those of
//! `wg_outside`, and stand here too.
//!
//! A file in memory that is read whole, and one that is not there:
//!
//! ```rust
//! let mut depot = SteadyDepot::new(rt.alloc(), 4096);
//! depot.put_file("arcs", b"0 1\n")?;
//! append_all(&mut depot, "arcs", b"1 0\n")?;
//! let bytes = read_whole(rt.alloc(), &mut depot, "arcs")?;
//! assert!(rt; bytes.as_slice() == b"0 1\n1 0\n".as_slice());
//! let other = read_whole(rt.alloc(), &mut depot, "weights");
//! assert!(rt; other.err() == Some(LoadError::Absent));
//! Ok(())
//! ```
//!
//! Each depot and each sink counts what it refuses; the counts stand still at 2^64 - 1.
//!
//! A depot of the system holds the names of at most eight open files and of each open pipe. The depots and sinks in memory hold
//! their own bytes, and a depot looks a name up by going through all of them.
//!
//! Choices:
//!
//! - Common file systems refuse to seek to the offset that a file is first read at, 2^46, and answer a positioned read
//!   with no bytes: so each read of `FolderDepot` gives its offset. A pipe, which has no offsets, is read in order, and
//!   its first such question is answered with no bytes. *Revisit if* a system without positioned reads has to be
//!   served.
//! - `FolderDepot` keeps open the last four files that it began to read, and the last four to write, and finds a name
//!   among them by looking at each. *Revisit if* a command reads five or more in turn, so that each piece opens one.
//! - A write of no bytes is a failure: otherwise a full disk could be tried for ever. *Revisit if* a system is met
//!   that writes nothing and means to go on.
//! - A depot or a sink that is to fail does so at the call that a test names, and nowhere else: each error path can
//!   be run, and a contract says exactly what happens. *Revisit if* failing every call in turn finds more.
#![tactic(auto)]

mod calls;
mod folder;
mod held;
mod memory_depot;
mod memory_sink;
mod open_files;
mod pipe;
mod steady_depot;
mod steady_sink;
mod stream;
mod tally;
mod zero_depot;

pub use folder::FolderDepot;
pub use memory_depot::MemoryDepot;
pub use memory_sink::MemorySink;
pub use steady_depot::SteadyDepot;
pub use steady_sink::SteadySink;
pub use stream::StdSink;
pub use wg_outside::{
    Depot, FileSink, GRAPH, List8, LoadError, MOST_BYTES, OFFSETS, Output, PROPERTIES, ReadError,
    Sink, WriteError, append_all, read_whole, write_all, write_pieces,
};
pub use zero_depot::ZeroDepot;
