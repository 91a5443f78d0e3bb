//! The transposed graph: each arc the other way round; and for each page the pages that link to it, as runs of pages
//! that follow one another, or listed one by one.
//!
//! It is made by two kinds of passes over the arcs. The first counts how many arcs lead to each page, so that each
//! page's list has its place in one array of lists; the second puts the source of each arc into the list of its target.
//! The sources come in ascending order, and so each list ascends without a sort.
//!
//! ```text
//! lists of the graph --> count: arcs to each page --> set_starts: where each list begins
//!                                                              |
//! lists of the graph --> place: each source, at the next place of its target's list --> ends, lists
//! ```
//!
//! [`transpose`] makes the whole graph in memory, in two passes. A [`Transposer`] gives its lists range after range of
//! pages, for a graph whose lists are read in order: one pass counts, and then each range takes one, in which the arcs
//! that lead to other pages are left out. So it holds the lists of one range only. Who goes along the lists for another
//! reason counts by [`count_arcs`] as they come, and spares the first pass. [`Ranges`] are lists of any kind that come
//! so: a pass of one's own is [`Placing`], and goes by [`put_in_range`]; [`set_starts`] begins it for lists that stand
//! in one array all at once.
//!
//! A pass takes time in proportion to the arcs and pages. `transpose` takes memory twice, at the beginning, and that
//! is that of the graph made: 8 bytes for each arc and 8 for each page. A `Transposer` takes 8 bytes for each page when
//! it is made, and for each range 8 for each arc that leads to it. The starts become the ends of the lists in the same
//! array, as the sources are placed. With the room that [`range_room`] gives, there are 15 ranges at most.
//!
//! The pages of a folder link to the same menu, and so the list of the pages that link to one page is made of runs: few
//! [`PageRun`]s tell of many arcs. Of a sum over the predecessors of a page, each run is then one difference: of the
//! sums over all pages before its end, and before its begin. Runs are made straight from lists of successors, in two
//! passes. Both take the same step for an arc from page u to page v: if the last run to v ends before u, it is made one
//! page longer, and else a run of u alone begins. So it is known how many runs there are before memory for them is
//! taken. If they are nearly as many as the arcs, [`RunCounts::list`] makes whole lists in place of them: both are
//! [`InArcs`].
//!
//! ```text
//! lists of the graph --> RunCounts::of: how many runs and arcs lead to each page, outdegrees
//!                              |
//! lists of the graph --> RunCounts::fill: the runs to each page, one page after the other --> Runs
//! ```
//!
//! A graph of five pages: pages 0, 1, 2 and 4 link to page 4, and page 1 links to page 0 too:
//!
//! ```rust
//! let graph = wg_arcs::read(rt.alloc(), b"0 4\n1 0\n1 4\n2 4\n4 4\n", 5)?;
//! let transposed = transpose(rt.alloc(), &graph)?;
//! assert!(rt; transposed.list(3) == [].as_slice());
//! assert!(rt; transposed.list(4) == [0, 1, 2, 4].as_slice());
//! let counts = RunCounts::of(rt.alloc(), &mut GraphLists::new(&graph))?;
//! let runs = counts.fill(rt.alloc(), &mut GraphLists::new(&graph))?;
//! let to_last = [PageRun { from: 0, to: 3 }, PageRun { from: 4, to: 5 }];
//! assert!(rt; runs.nodes() == 5 && runs.of_page(4) == to_last.as_slice());
//! assert!(rt; runs.of_page(3).is_empty() && runs.degree(1) == 2);
//! Ok(())
//! ```
//!
//! Counting takes 24 bytes for each page, of which 12 are given back in the end; filling takes 8 for each run, and
//! listing 4 for each arc, both before their pass. There are no runs or in-lists yet of graphs of 2^32 pages or more.
//!
//! Choices:
//!
//! - A range ends with the page by which it has as many arcs as are asked for. If it stopped before, a page to which
//!   many arcs lead could double the number of passes; the price is the list of one page more. Sorting all arcs by
//!   their targets would take one pass, and 8 to 16 bytes an arc. *Revisit if* passes over the lists cost more than to
//!   sort.
#![tactic(auto)]

mod counting;
mod counts;
mod filling;
mod in_arc;
mod in_arcs;
pub mod laws;
mod placing;
mod ranges;
mod run;
mod run_counting;
mod spans;
mod transposer;
mod transposing;

pub use counting::count_arcs;
pub use counts::RunCounts;
pub use in_arc::InArc;
pub use in_arcs::{InArcs, InLists, Runs};
pub use ranges::{Placing, Ranges, put_in_range, range_room, set_starts};
pub use run::{MOST_PAGES_IN_RUNS, PageRun};
pub use transposer::Transposer;
pub use transposing::transpose;
