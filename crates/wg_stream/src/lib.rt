//! The records of an archive, all of them in order: from any source of words, or from a file that is read in pieces.
//!
//! [`Pages`] reads record after record, and checks what follows the last: the tail and the number of arcs. It keeps the
//! lists that a reference may reach, and lends each page's list in turn. [`read_graph`] is a loop over it that keeps
//! the lists; whoever reads an archive in another way writes a loop of its own.
//!
//! [`Reader`] lends the lists of a graph file of a depot, which need not fit into memory. It owns a [`Pages`] and a
//! `Stretch` of `wg_source`, the bytes that are held; a `FileSource` over these is the source of its words. It has the
//! two verbs of [`Pages`], with the same errors; its `next` goes on from one to the other, and names the first error
//! again.
//!
//! ```text
//! file in pieces --> Stretch --> FileSource --> Pages::next --> the list of the page --> kept, printed, counted
//!                                                |    ^
//!                                                v    |
//!                                              window of the lists before
//! ```
//!
//! A [`Sweep`] goes over the lists of bytes that are known to stand for a graph, in order and as often as one likes,
//! and decodes each list from the bits again. It takes all its memory when it is made, so that later calls cannot run
//! out of memory: rows for the pages that a reference reaches, and one. [`pass`] finds how long they have to be, in one
//! pass over all records.
//!
//! ```text
//! record of page x --decode_behind--> row --lent--> list of x      then the row is kept in the place of that of x - W
//!                                      ^
//! rows of the W pages before ----------+  the list that the record refers to
//! ```
//!
//! The first list of the graph file of an archive of three pages, in any depot:
//!
//! ```rust
//! let mut reader = Reader::new(alloc, usual(3, 4, 7, 3, 4)?, "web.graph")?;
//! assert!(rt; reader.next(depot)? == Some([1, 2].as_slice()));
//! assert!(rt; reader.at() == 12);
//! Ok(())
//! ```
//!
//! Memory is held for the lists of the window, each with room for at most twice its numbers, and for a few lists more
//! while a record is read. A stretch is one piece of 4096 bytes; no bytes of a record are kept, however long it is.
//! That a [`Reader`] keeps no more lists than the window has, that neither these nor the five whose memory serves for
//! later lists are ever longer than there are pages, and that it holds at most [`MOST_HELD`](wg_source::MOST_HELD)
//! bytes, is said by clauses of its calls.
//!
//! Of a source that cannot tell its bits it is still known that each list ascends, that its numbers are pages, and that
//! all lists together have no more numbers than arcs are promised.
//!
//! Choices:
//!
//! - A [`Reader`] that met an error is closed, since a later call would begin inside a record: it names the first error
//!   again and reads nothing. *Revisit if* a reader has to go on behind a fault, to count faults.
//! - The rows of a [`Sweep`] are taken at once, each with room for the greatest outdegree, so that no later step runs
//!   out of memory. An archive with a window of thousands and a page of a million successors asks for rows that it
//!   never fills. To bound them by the greatest sum of lists over a window would take a pass more, or a number more in
//!   the one that validates. *Revisit if* such archives come.
#![tactic(auto)]

mod first;
mod pages;
mod passed;
mod reader;
mod records;
mod standing;
mod state;
mod stream_error;
mod sweep;

pub use first::First;
pub use pages::Pages;
pub use passed::{Passed, pass};
pub use reader::Reader;
pub use records::read_graph;
pub use stream_error::StreamError;
pub use sweep::Sweep;
