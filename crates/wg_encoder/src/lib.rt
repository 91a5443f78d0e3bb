//! Writes the greedy archive of a graph, which `wg_greedy` defines: for each page the shortest of its candidates.
//!
//! An [`Encoder`] goes through the lists of a graph, those of pages 0, 1 and so on, and keeps a copy of those that a
//! reference may name, with their depths: at most as many as the archive's window, each with room for at most twice its
//! numbers, and 32 bytes beside it. Of the page that comes next it tells the candidates, what each of them takes in
//! bits, and which one is written; to count these bits makes no record. No record has 2 ^ 64 bits or more.
//!
//! [`Encoder::next`] writes the next list, and [`Encoder::finish`] ends the two files once all are written. Both take
//! the archive's name, and write the files of its suffixes. The words of the offsets file are 0 and the length of each
//! record. An encoder has a writer of 4096 bytes for each of the files, and as much for marks. If a call of the depot
//! fails, the [`EncodeError`] names the file, and both files are prefixes of those that were to be written.
//!
//! An [`ArchiveEncoder`] takes lists that come one after the other, and writes no file: what will be the three files is
//! held in memory, as an [`EncodedArchive`], which tells how many bits its records have and how many of them refer to a
//! page before. Out of memory alone can stop it. [`encode`] does so for a whole graph. The bytes are the same for each
//! number of arcs that the archive is said to have, so this number may be told once all lists are encoded.
//!
//! The archive of a graph of three pages, in memory:
//!
//! ```rust
//! let graph = wg_arcs::read(rt.alloc(), b"0 1\n0 2\n1 1\n1 2\n", 3)?;
//! let params = usual(graph.nodes(), graph.arcs(), 7, 3, 4)?;
//! let archive = encode(rt.alloc(), params, &graph)?;
//! assert!(rt; archive.bits() == 19 && archive.referring() == 1);
//! assert!(rt; archive.graph() == b"\x7D\xC6\xE0".as_slice());
//! Ok(())
//! ```
//!
//! The functions of [`laws`] state that no candidate's record is shorter than the one that is written, that the bytes
//! of the files are their bits, and that these files are accepted and have the graph.
//!
//! Choices:
//!
//! - What a candidate takes is counted down from what the best so far takes: no sum can overflow, and a candidate is
//!   left when nothing is left. From a limit that no record reaches the same count is exact, so that `cost` and the
//!   choice have one body. *Revisit if* sums that are counted up cost less.
//! - A list of 1 to 64 numbers is marked once (`wg_marks`), and a candidate's blocks and extras are counted by sets of
//!   bits: one look-up for each member of the list that is referred to takes the place of a pass over both lists. A
//!   longer list is counted by that pass, as is one of which two numbers have one slot, and a candidate of which
//!   [`Encoder::cost`] is asked. The count is the same. *Revisit if* most time goes into longer lists.
//! - A list that shares no successor with the page's is not counted: the record would have the same extras as without
//!   a reference, with the blocks on top and a word for the reference that is no shorter (`proofs/Disjoint.antt`). In
//!   the generated graphs seven of ten candidates are such, and without their counts `recode` took a quarter fewer
//!   instructions (2026-11-27). *Revisit if* they are few in real crawls.
//! - A candidate is a number with a test, and no type of its own, which would have to carry the encoder's state; and
//!   `cost` is asked of the page that comes next, since of others the depths are gone or not known yet. *Revisit if*
//!   a look ahead needs them.
//! - An encoder takes the archive's name with each call, and keeps the names of the two files while it stays the
//!   same: to make them for each record would take memory each time. *Revisit if* a name can be lent for as long as
//!   an encoder lives.
//! - The word of a record's length is put with the next record, and the last by `finish`; so `new` puts nothing, and
//!   needs no depot. *Revisit if* the offsets file gets another form.
//! - A struct can't hold lists that have left its memory. So `HasWritten` and `HasEncoded` say of any lists that they
//!   are those that were handed in: context, lengths and bits are those of the greedy archive of these. That there
//!   are such lists is an invariant of an [`ArchiveEncoder`], a `ListEncoder` over a depot in memory, by which its
//!   files are there at the end. *Revisit if* a struct can hold lists that are only in the proof.
#![tactic(auto)]

mod archive;
mod archive_encoder;
mod blocks;
mod choice;
mod common;
mod cost;
mod encoder;
mod error;
mod extras;
mod gap;
mod held;
mod intervals;
mod kept;
mod list_encoder;
mod lists;
mod making;
mod names;
mod paging;
mod parts;
mod record;
mod residuals;
mod sharing;
mod summary;

pub use archive::EncodedArchive;
pub use archive_encoder::{ArchiveEncoder, encode};
pub use encoder::Encoder;
pub use error::EncodeError;
pub use wg_greedy::laws;
