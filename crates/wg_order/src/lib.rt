//! Pages ranked by the bounds of their PageRank, and the positions that the bounds leave to each.
//!
//! A [`Ranking`] sorts the pages of a [`wg_rank::Bounds`] by lower bounds falling, then by upper bounds falling, then
//! by numbers rising; and it sorts the upper bounds by themselves. If the lower bound of one page is above the upper
//! bound of another, the first has the greater share, whatever the exact shares are ([`Ranking::surely_above`]). So a
//! page stands after those that are surely above it ([`Ranking::best`]) and before those that are surely below it
//! ([`Ranking::worst`]). Both are counted by a binary search of a sorted list:
//!
//! ```text
//! Bounds --> low, high --> ranked (the ranking) --> best
//!                    \---> rising (upper bounds) --> worst
//! ```
//!
//! A [`RankingSummary`] says what a ranking comes to, and needs less time for it: both bounds are sorted by themselves.
//!
//! [`FirstPages`] has the first pages of the ranking alone, with the positions that they have in it. They are selected,
//! and no other pages are sorted, nor are the upper bounds:
//!
//! ```text
//! Bounds --> low, high --> first (as many pages as are asked for) --> best
//!                    \---> counts (of the upper bounds below each) --> worst
//! ```
//!
//! Two rounds at a low damping settle the ranking of the graph with the arc from page 0 to page 1:
//!
//! ```rust
//! let graph = wg_arcs::read(rt.alloc(), b"0 1\n", 2)?;
//! let mut lists = GraphLists::new(&graph);
//! let mut bounds = Bounds::new(rt.alloc(), 2, 100)?;
//! bounds.round(&mut lists);
//! bounds.round(&mut lists);
//! let ranking = Ranking::of(bounds);
//! assert!(rt; ranking.page(0) == 1 && ranking.page(1) == 0);
//! assert!(rt; ranking.surely_above(1, 0));
//! assert!(rt; ranking.best(1) == 1 && ranking.worst(1) == 1);
//! Ok(())
//! ```
//!
//! The function of [`laws`] states that any bounds have one ranking.
//!
//! [`Ranking::of`] takes the bounds over and sorts in the room of their rounds, so it takes no memory: bounds and
//! ranking together hold the 64 bytes for each page that the bounds held. [`RankingSummary::of`] and [`FirstPages::of`]
//! do so too.
//! [`Ranking::new`] takes as many of its own, for any number of [`Ranking::fill`], which copies bounds and leaves them
//! as they are; with those bounds that is 128 for each page.
//!
//! Choices:
//!
//! - The last position of a page needs the order of the upper bounds and not whose they are, so the numbers are
//!   copied and sorted, at 2^24 pages in a tenth of the time that sorting pages by them took (2026-11-28). Pages are
//!   sorted by bounds that are looked up, the upper ones only if the lower ones are equal. Sorted beside copies of
//!   their lower bounds they would take a fifth of that time, but 16 bytes a page more than there is room for.
//!   *Revisit if* whole rankings are what most ask for.
//! - A few first pages are had by one selection and one pass over the upper bounds. An upper bound is below the lower
//!   bounds of the first so many pages, as these fall: it is counted at the last of them alone, which a binary search
//!   finds, and the counts are added up from the last page on. So the time is in the pages and in the logarithm of how
//!   many are asked for, for each upper bound that is below any of their lower bounds.
//! - What is surely above a page comes before it, and so is among the first pages, if the lower bound of that page is
//!   not above its own upper bound. Nothing here says so of all bounds, though those of a graph are such. So
//!   [`FirstPages::best`] looks, and counts among all pages if it is not so.
//! - [`Ranking::new`] answers more than 2^36 - 1 pages as if out of memory: any caller may ask for so many, and no
//!   fault is defined, since no archive has them. *Revisit if* one has.
//! - The clauses of `select_nth_unstable_by` tell which parts it lends, and not what it leaves afterwards, so the first
//!   pages are copied while they are lent. *Revisit if* those clauses tell it.
#![tactic(auto)]

mod arranging;
mod counting;
mod first_pages;
pub mod laws;
mod ranking;
mod sorting;
mod summary;

pub use first_pages::FirstPages;
pub use ranking::Ranking;
pub use summary::RankingSummary;
