//! The offsets of an archive: where each record of the graph file begins.
//!
//! An offsets file holds one word for each page and one more, in gamma or delta, and then a tail of zero bits. The
//! first word is 0, and each later one is the length of a record, in bits. So the sums of the words are the offsets of
//! the records ([`Offsets::place`]), and the last of them is the offset after the last record.
//!
//! [`OffsetWords`] reads such a file word by word, from any source, and keeps the last offset only. [`read`] reads
//! bytes in memory, and keeps all of them as [`Offsets`]; each names the first fault of the file.
//! [`Offsets::first_mismatch`] compares the lengths of records that two of them tell, as those of a file and those of
//! the records that were read; a [`Comparison`] does so record after record. The function of [`laws`] states that each
//! file has one list of offsets or one first fault.
//!
//! [`Samples`] keep the offset of one page in [`SAMPLED`] of a file that was read to its end, and find that of any
//! other by the words in between, which are read again.
//!
//! An offsets file of two bytes, and one that is cut off:
//!
//! ```rust
//! // 1 0001101 00111 010: the words of 0, 12, 6 and 1
//! let offsets = wg_offsets::read(rt.alloc(), b"\x8D\x3A", 3, Code::Gamma)?;
//! assert!(rt; offsets.place(1) == 12 && offsets.place(2) == 18);
//! assert!(rt; offsets.end() == 19);
//! let cut = wg_offsets::read(rt.alloc(), b"\x8D", 3, Code::Gamma);
//! let word = OffsetWord::Cut(2);
//! assert!(rt; cut.err() == Some(OffsetsError::Word(word)));
//! Ok(())
//! ```
//!
//! Offsets hold 8 bytes for each offset, and samples 16 bytes for each 1024 pages. Memory is taken as the words come,
//! and never by the number of pages that an archive claims; words and a comparison take none. Reading costs a pass
//! over the file. To look up an offset takes constant time, and by samples that of reading at most 1024 words.
//!
//! Choices:
//!
//! - The definition `pages_that_differ` is the ascending list of all pages whose two lengths differ, and the fault
//!   names its first, so that no definition needs a loop. *Revisit if* all of these pages are to be named.
//! - A sample is an offset and the bit of the file after its word: 16 MB for 10^9 pages. The head of a record, and then
//!   the whole record, each take up to 1024 words again; one call gives the offset of a page and that of the next, from
//!   one reading. If the file has changed, a word that is refused now is a fault of the offsets. The price is that
//!   `BASE.offsets` is read twice, so it can't be a pipe, unless it is at most one piece long. *Revisit if* chains get
//!   so long that these words take longer than the pass over the file.
#![tactic(auto)]

mod comparing;
mod error;
pub mod laws;
mod offset_words;
mod places;
mod reading;
mod samples;

pub use comparing::Comparison;
pub use error::OffsetsError;
pub use offset_words::OffsetWords;
pub use places::{MOST_PLACE, Offsets};
pub use reading::read;
pub use samples::{Extent, SAMPLED, Samples};
