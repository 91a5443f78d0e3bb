//! Pages of an archive by their offsets.
//!
//! [`Records`] are the bits of a graph file that were checked and stand for one graph, with the offset of each record:
//! by a pass of their own, or with what one that was made has found ([`Records::of_pass`]). An [`Archive`] is made of
//! them, by their own offsets or by those of an offsets file that agrees. There are two ways to a page. Both follow
//! the references down, with a tick of [`Steps`] for each record of the chain, and then go up the same chain again.
//!
//! [`Archive::open`] gives the successors of a page one by one. It makes an iterator for each page of the chain, each
//! in the box of the next, and no list.
//!
//! ```text
//! page x --reference--> page --reference--> ... --> page without a reference     down: the pages stand in an array
//! Successors <--in a box-- Successors <--in a box-- ... <-- Successors           up: a box for each page but x
//! ```
//!
//! [`Archive::list`] makes the whole list, and the lists of all other pages of the chain before it. It serves a chain
//! of any length; one of more than [`CHAIN_PAGES`](wg_iterators::CHAIN_PAGES) pages is not opened, since a call of
//! `next` would go down through all of them.
//!
//! ```text
//! page x --reference--> page --reference--> ... --> page without a reference     down: the pages stand in a list
//! list of x <--copied-- list <--copied-- ... <-- list                            up: two lists, used in turn
//! ```
//!
//! [`Archive::read`] serves a chain of any length too, and makes lists only if the chain is too long to be opened.
//! It goes down once, as for a list, and then up the one way or the other. So it opens each record once.
//!
//! [`spot_from`] reads a page of an archive that was not checked, by the offsets and the same chain alone, from any
//! source that goes to any offset of its bits and tells where the record of a page lies ([`Located`]); of a file in a
//! depot it reads no other record. [`spot`] does so from bytes in memory, by offsets that are held. The heads of these
//! records are validated first, from the page down, and then the whole records, from the last one up, and the answer is
//! the list of the page or the first fault. The functions of [`laws`] state that there is one answer, and that it is
//! the page's list of the graph if the archive is accepted.
//!
//! [`Records::sweep`] needs no offsets: it makes a [`Sweep`](wg_stream::Sweep) over the lists of all pages, for which
//! the records are not passed over again.
//!
//! A graph file of three bytes, checked, and its lists in order and again:
//!
//! ```rust
//! let records = Records::check(rt.alloc(), b"\x7D\xC6\xE0", usual(3, 4, 7, 3, 4)?)?;
//! assert!(rt; records.offset(1) == 12);
//! let mut lists = records.sweep(rt.alloc())?;
//! assert!(rt; lists.next_list() == Some([1, 2].as_slice()));
//! assert!(rt; lists.next_list() == Some([1, 2].as_slice()));
//! assert!(rt; lists.next_list() == Some([].as_slice()));
//! Ok(())
//! ```
//!
//! Opening a page takes two lines beside the call, and three conditions that say what the blank is of:
//!
//! ```text
//! opened::<Brand>(alloc, &archive, Blank::new(1))      whoever begins to count; the proof of this call names the ledger
//! let mut steps = Steps::<L>::open(blank);             in `fn opened<L: Ledger>(.., blank: Blank)`
//! archive.open(alloc, page, &mut steps)?               one tick for each record that is opened
//! ```
//!
//! | call | memory | time |
//! |---|---|---|
//! | [`Records::check`] | an offset, 8 bytes, for each page; while it runs, the lists of a window | that of all bits and lists |
//! | [`Archive::check`] | none | that of the offsets |
//! | [`Records::of_pass`], [`Records::archive`] | none | constant |
//! | [`Archive::open`] | a box for each reference of the chain | that of the words of the chain's records |
//! | [`Archive::list`] | a number for each page of the chain, and two of its lists | that of the words and the lists of the chain's records |
//! | [`Archive::read`] | a number for each page of the chain; and a box for each reference, or two lists | that of the words, and of the lists if they are made |
//! | [`spot`], [`spot_from`] | a number for each page of the chain, and at most 6 lists | that of the words and the lists of the chain's records; the source is asked twice where each of them lies |
//! | [`Records::sweep`] | a row for each page that a reference reaches, and one | that of the rows |
//!
//! A page that does not exist, a chain that is too long to be opened, and out of memory are answered by [`OpenError`]
//! and [`ListError`]; there is no other reason, since the archive was checked. Why a file is no archive is reported by
//! [`CheckError`] and [`ArchiveFault`](wg_grammar::ArchiveFault), and why a page of one that was not checked has no
//! list by [`SpotError`], or by [`ReadError`](wg_grammar::ReadError), which also tells why a word was refused.
//!
//! Choices:
//!
//! - The records of a checked archive are proper. So the way down reads their heads by
//!   [`reference`](wg_decoder::proper::reference), and the way up of [`Archive::list`] goes by iterators over lent
//!   lists: neither validates a word again. [`spot_from`] validates, and reads both by the calls that name faults.
//!   *Revisit if* these take no more time.
#![tactic(auto)]

mod archive;
mod chain;
mod error;
pub mod laws;
mod listing;
mod located;
mod reading;
mod records;
mod steps;
mod unchecked;

pub use archive::Archive;
pub use chain::{spot, spot_from};
pub use error::{CheckError, ListError, OpenError, SpotError};
pub use located::Located;
pub use reading::Page;
pub use records::Records;
pub use steps::Steps;
