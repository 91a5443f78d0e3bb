//! The grammar of archives: which bits are the record of a page, and which are a graph file.
//!
//! A graph file holds one record for each page, in order, and then a tail of zero bits, at most [`MOST_TAIL`]. The
//! fields of the record of page `x` come in this order:
//!
//! | field | there | stored as |
//! |---|---|---|
//! | outdegree | always; 0 ends the record | itself |
//! | reference | if the archive has a window | how many pages back; 0 for none |
//! | block count | if there is a reference | itself |
//! | blocks | if there is a reference | the first as it is, later ones less 1 |
//! | interval count | if not all successors are copied, and the archive has intervals | itself |
//! | left end and length of each interval | | the first left end folded as the distance from `x`, later ones as the distance from the end of the interval before, less 1; a length less the least length |
//! | residuals | while successors are missing | the first folded as the distance from `x`, later ones as the distance from the residual before, less 1 |
//!
//! The definitions say what comes next, what is refused and why, which list a record has, and which graph a file holds;
//! the functions of [`laws`] state that each file is one graph or has one first fault, and that the graph has one
//! ascending list of pages for each page and the promised arcs. [`Progress`] is what a reader of records runs: it tells
//! the next [`Need`], a field and its code, and validates the value that was read there. A refused field is named by a
//! [`Fault`], and the first fault of a whole archive by an [`ArchiveFault`]. [`tail_fault`] validates the tail.
//!
//! Words and tail are read from a [`Source`], wherever its bits come from; whoever reads records is generic over it. A
//! cursor over bytes in memory is a source that refuses nothing; one that takes its bytes in pieces from a file may
//! refuse a word, since a read may fail. A [`ReadError`] is a fault, a refusal of the source, or a lack of memory.
//!
//! The record of the last page, with an outdegree that is refused, and one that ends it:
//!
//! ```rust
//! let params = usual(3, 4, 7, 3, 4)?;
//! // page 2 is the last, and each of the 4 arcs stands before it
//! let mut progress = Progress::start(&params, 2, 4);
//! if let Need::Read(field, code) = progress.need() {
//!     assert!(rt; field == Field::Outdegree && code == Code::Gamma);
//!     assert!(rt; progress.accept(1, None) == Err(Kind::Total));
//! }
//! if let Need::Read(_, _) = progress.need() {
//!     assert!(rt; progress.accept(0, None) == Ok(()));
//! }
//! assert!(rt; progress.need() == Need::End);
//! Ok(())
//! ```
//!
//! Nothing here takes memory, and each call takes constant time; a word from memory costs what [`wg_codes::read`]
//! costs.
//!
//! Choices:
//!
//! - The order of two faults of one field is fixed: a truncated word and no word come first; an outdegree is compared
//!   with the pages and then with the arcs, a reference with its reach and then with the chain. *Revisit if* another
//!   checker of the format names them the other way round.
//! - That a successor stands twice is seen only when the list is whole, and may come from a copy, an interval and a
//!   residual together. So it is a fault of the whole record, at its first bit, after those of all fields. Of
//!   `copied` the sum of all blocks is wrong, and the last run has no block of its own: it stands at the bit after
//!   the blocks. *Revisit if* a writer of such records is found, and has to know which successor it is.
//! - [`ArchiveFault`] has the faults of the offsets file too, so that a status, a text and a place of each stand
//!   together; the grammar of the graph file has none of them. *Revisit if* the two have to be told apart by type.
//! - A [`Progress`] is seen as numbers, from which `need_of` tells what comes next, since a condition of `accept` can't
//!   cite a call. What it validates and leaves is said by `exact` alone, over lists. The definitions of `Steps` serve
//!   its private functions, whose clauses can cite no private definition. *Revisit if* a condition can cite what a call
//!   answers.
#![tactic(auto)]

mod cursor;
mod error;
mod fault;
pub mod laws;
mod need;
mod progress;
mod source;
mod tail;

pub use error::ReadError;
pub use fault::{ArchiveFault, Fault, Field, Kind, OffsetWord};
pub use need::Need;
pub use progress::{Progress, Referenced};
pub use source::Source;
pub use tail::{MOST_TAIL, tail_fault};
