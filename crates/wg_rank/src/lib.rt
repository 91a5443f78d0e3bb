//! Bounds of PageRank, after Page and Brin: for each page an interval that holds its share, in whole numbers.
//!
//! [`Bounds`] has a lower and an upper bound for each page, in units of 10^-24. They begin at 0 and 1, and each
//! [`Bounds::round`] takes the damping's part of what flows along the arcs and from the dangling pages, and teleport's
//! part, all rounded down in the lower bounds and up in the upper ones. The lower bounds leave some rest of 1; no share
//! is above its lower bound by more than that. After `k` rounds the intervals hold every exact iterate from the `k`-th
//! on and every stationary vector, they lie within the earlier ones, and their width is bounded by a stated term, which
//! shrinks as the damping's power does. [`laws`] says the same of bounds before the first round.
//!
//! Data flow of a round, in one pass along the lists of [`wg_graph::Lists`]:
//!
//! ```text
//! low, high --> share: each page's shares, to each of its successors --> what flows in, what dangling pages hold
//!                                                                               |
//!        new low, high <-- cut <-- settle: the damping's part, and teleport's <-+
//! ```
//!
//! Three ways lead to the same bounds. [`Bounds::round`] reads the lists of successors in each round. [`Bounds::pull`]
//! does so too, or goes along what was made of them once: [`wg_transpose::InArcs`], with the room for a round beside
//! them, are a [`Pulling`]. Runs are of use if the pages that link to one page are often neighbours, as those of a
//! folder, so that a few runs hold many arcs. First it adds up what each page gives to each of its successors, over all
//! pages below each page; a dangling page gives nothing there. What the pages of a run give is then the difference of
//! two such sums. If runs are rare, the pages that link to each page are listed one by one, and it is written what each
//! page gives to each of its successors; what flows to a page is then the sum over its list.
//!
//! ```text
//! low, high --> share: each page's shares, added up --> flow: a difference a run ---------------> what flows in
//! low, high --> share: each page's shares ------------> flow: one for each page that links there -> what flows in
//! ```
//!
//! What flows in is not kept for all pages there. It is added up for 128 pages, which are then settled: these sums wait
//! for memory, and wait together.
//!
//! One round over the graph of two pages with the arc from page 0 to page 1, where [`wg_num::UNITS`] make 1:
//!
//! ```rust
//! let graph = wg_arcs::read(rt.alloc(), b"0 1\n", 2)?;
//! let mut bounds = Bounds::new(rt.alloc(), 2, 850)?;
//! assert!(rt; bounds.low(0) == 0 && bounds.high(0) == UNITS);
//! bounds.round(&mut GraphLists::new(&graph));
//! assert!(rt; bounds.low(0) == 75 * (UNITS / 1000));
//! assert!(rt; bounds.high(0) == UNITS / 2);
//! Ok(())
//! ```
//!
//! A [`Certificate`] is what others can check without the rounds: a damping and the lower bounds alone.
//! [`write_certificate`] adds its text to a file, and [`read_certificate`] reads it or names its first fault, a
//! [`CertFault`]. [`judge`] does one round of lower bounds alone, over any graph with as many pages: if it lowers none
//! of them, they enclose every stationary vector, with what they leave of 1, whoever made them; else it names the first
//! page whose bound falls. The bounds that rounds find never fall.
//!
//! ```text
//! damping 850                      in thousandths
//! pages 2                          decimal, and a line for each of them:
//! 0.075000000000000000000000       its lower bound, with all 24 digits
//! 0.075000000000000000000000
//! ```
//!
//! Each line ends in LF, which the last may lack, and before which one CR is no part of the line. No line may be empty
//! or come after the last bound, and the bounds add up to at most 1. Each text gives either one certificate or one
//! fault ([`laws::certificate_texts`]).
//!
//! | call | memory | time |
//! |---|---|---|
//! | [`Bounds::new`] | four numbers of 16 bytes for each page | that of the pages |
//! | [`Bounds::weighted`] | the same, and 8 bytes for each page | that of the pages |
//! | [`Pulling::new`] | 32 bytes for each page | that of the pages |
//! | [`Bounds::round`] | none | quotients by its outdegree and by 1000 for each page, and two sums for each arc |
//! | [`Bounds::pull`] along runs | none | the same for each page; a difference and a sum of four lanes for each run |
//! | [`Bounds::pull`] along lists of predecessors | none | the same for each page; a sum of four lanes for each arc |
//! | [`write_certificate`] | none | that of the text |
//! | [`read_certificate`] | 16 bytes for each page, taken as its lines come | that of the text |
//! | [`judge`] | 16 bytes more for each page, for what flows to it below | that of a round, with one sum for each arc |
//!
//! Bounds take no memory after they are made. By those of [`Bounds::weighted`], teleport goes to the pages by weights.
//! The two sums of what flows to a page lie side by side, so that an arc reaches one place in memory. Between rounds
//! they say nothing, and [`Bounds::into_parts`] hands them on as room. [`judge`] does a round of lower bounds alone,
//! along lists of successors; each new bound is compared as it is made, and kept nowhere.
//!
//! A round divides each page's two bounds by its outdegree, once and not for each arc, and what flows in by 1000; by
//! weights it also divides teleport's two parts for each page, and if each weight is 1 once for all. A quotient by an
//! outdegree of at most 2048 is two products with its inverse; those of outdegrees below 256 are made once a round, and
//! take 2 KiB. Along runs and lists of predecessors, what a page gives is cut at 40 bits, below and above, into four
//! lanes of 64 bits, which are added up modulo 2^64. What at most 2^24 pages give fits the lanes; longer runs of larger
//! graphs, and longer lists, are taken in parts of so many pages. No other sum passes 128 bits: what flows to a page is
//! at most one whole for each page, so below 2^36 * 10^24, and the damping multiplies it by less than 2^10; a weight is
//! below 2^32, and teleport's part of 1 is at most 1000 * 10^24 before it is divided.
//!
//! Choices:
//!
//! - [`judge`] repeats only the pass along the lists: a round adds two sums for each arc, and `judge` one. *Revisit if*
//!   the two can be one without a cost for each arc.
//! - An inverse is in units of 2^-63, rounded down and 1 more. It gives the exact quotient of a number if number times
//!   outdegree is below 2^63, so a bound is cut at 40 bits, for outdegrees up to 2048. A quotient is rounded up by
//!   adding the divisor less 1 first. *Revisit if* a division of 64 bits takes no longer than two products.
//! - Divisions by the sum of the weights stand in functions that are called. Inline, the compiler made one division in
//!   the loop over the pages for both cases, with weights and without. *Revisit if* the two are one loop each.
//! - `round` and [`judge`] take `L: Lists`: clauses could not name the graph of an `&mut impl Lists`. *Revisit if* they
//!   can.
//! - [`read_certificate`] answers more than 2^36 - 1 pages as if out of memory, since no archive has them. *Revisit if*
//!   one has.
#![tactic(auto)]

mod advancing;
mod bounds;
mod certificate;
mod dividing;
mod divisor;
mod driving;
mod fault;
mod gathering;
mod inflows;
mod judging;
mod lanes;
pub mod laws;
mod limits;
mod list_pulling;
mod parts;
mod pulled;
mod pulling;
mod reading;
mod run_pulling;
mod settling;
mod spreading;
mod teleport;
mod ways;
mod writing;

pub use bounds::Bounds;
pub use certificate::Certificate;
pub use driving::{last_bounds, room_for};
pub use fault::{CertError, CertFault, CertKind, JudgeError};
pub use gathering::Gather;
pub use judging::judge;
pub use limits::MOST_WEIGHT;
pub(crate) use limits::UNITS;
pub use pulled::{Pulled, bounds_by_rounds, pulled_for};
pub use pulling::{Along, Pulling};
pub use reading::read_certificate;
pub use ways::{MOST_ROUND_ROOM, PAGE_ROUND_ROOM, Way, way_for};
pub use writing::write_certificate;
