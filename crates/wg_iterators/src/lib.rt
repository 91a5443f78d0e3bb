//! The successors of one page, given one by one, straight from the bits of an archive.
//!
//! A [`Successors`] stands on one record, and has three fronts: members copied from the list of the page that the
//! record refers to, numbers inside intervals, and residuals. Each front reads its words with a cursor of its own, when
//! its next number is asked for, and keeps that number until it is given; [`Successors::next`] gives the least of the
//! three. What is copied comes through a mask, either from the [`Successors`] of the referenced page, in a `Box`
//! ([`Successors::begin`]), or from its list, if that was made before and is lent ([`Successors::begin_on`]).
//!
//! ```text
//! referenced page, or its list --> mask --> copied ---\
//! intervals -----------------------------> inside ----+--> the least --> next
//! residuals -----------------------------> residual -/
//! ```
//!
//! Here `archive` is a `wg_random::Archive`, which puts a [`Successors`] on the record of page 1:
//!
//! ```rust
//! let mut successors = archive.open(alloc, 1, steps)?;
//! assert!(rt; successors.outdegree() == 2);
//! assert!(rt; successors.next() == Some(1));
//! assert!(rt; successors.next() == Some(2));
//! assert!(rt; successors.next().is_none());
//! Ok(())
//! ```
//!
//! To begin is to pass the words of a record once, and to find where its fronts begin; an iterator is made of them and
//! of what is below. So the words of blocks and intervals are read twice, and no others. Words and residuals are read
//! by the calls of [`wg_decoder::proper`]. Whoever walks down to the referenced page first asks
//! [`reference`](wg_decoder::proper::reference), which reads the two words at the head of a record.
//!
//! **Memory** is that of the values themselves: an iterator holds three cursors, one of them with 64 bits at hand, and
//! three numbers, no list, and one box for each page below, which the caller makes. No call takes memory.
//!
//! **Cost.** To begin takes the time of the record's own words, however many pages are below, since no number is read
//! before it is asked for. All numbers together take the time of the record's words and of the members below, whether
//! the mask copies them or not. Over a lent list those are its members; over other iterators, the members of all lists
//! below, since a number that is copied through several pages is given once by each of them, and a call of `next` goes
//! down through them all. Therefore at most [`CHAIN_PAGES`] pages stand on each other.
//!
//! **Errors.** There are none: all calls ask for a proper record at the cursor, which a checked archive has.
#![tactic(auto)]

mod below;
mod coming;
mod fields;
mod front;
mod passing;
mod successors;

pub use below::CHAIN_PAGES;
pub use successors::Successors;
