//! Unions and quotients of graphs.
//!
//! The union of two graphs has as many pages as the larger, and an arc exactly if one of them has it. It is made
//! page after page: each list comes number by number, as a [`Coming`] does; [`Merge`] gives the numbers of two, which
//! are never held side by side; [`add_union`] makes them the successors of a page, and [`union`] does so for all pages
//! of two graphs in memory. [`next_union`] holds no graph: of two graphs whose lists are lent one by one, wherever they
//! come from, it puts the numbers of one page into a list. The successors of a page of an archive come from its bits:
//! `Successors` of `wg_iterators` is a [`Coming`], too.
//!
//! ```text
//! ListWalk, Successors --\                                     /--> add_union --> GraphBuilder
//!                         Merge: each number once, ascending --
//! ListWalk, Successors --/                                     \--> next_union --> List
//! ```
//!
//! The quotient of a graph by classes of its pages is the graph of the classes: an arc leads from class to class
//! exactly if one leads from some page of the one to some page of the other. It is made as a graph is transposed, by
//! counting and then placing: the classes that the arcs of a class lead to stand one after the other in one array, as
//! they come, and its list is these, sorted, each once. A [`Quotienter`] gives the lists range after range of classes,
//! for a graph whose lists are read in order: one pass counts, and then each range takes one. So it holds what the arcs
//! of one range lead to, and not the graph. [`quotient`] makes the whole graph in memory, of one range.
//!
//! ```text
//! lists of the graph --> count: arcs that leave each class --> set_starts: where each list begins
//!                                                              |
//! lists of the graph --> place: the class of each target, at the next place of the list of its source's class
//!                                                              |
//!                                        sorted, each once: the list of a class
//! ```
//!
//! The union of two graphs:
//!
//! ```rust
//! let first = wg_arcs::read(rt.alloc(), b"0 1\n", 2)?;
//! let second = wg_arcs::read(rt.alloc(), b"0 2\n1 2\n", 3)?;
//! let both = union(rt.alloc(), &first, &second)?;
//! assert!(rt; both.nodes() == 3);
//! assert!(rt; both.list(0) == [1, 2].as_slice());
//! Ok(())
//! ```
//!
//! Both take time in proportion to the pages, classes and arcs, but that the arcs of each class are sorted. What each
//! holds is stated at the functions.
//!
//! Choices:
//!
//! - [`Coming`] is a trait of this crate, and readers of archives implement it. So unions read no bits, and
//!   `wg_outcomes` need not wait for those readers. It asks for `Drop`, since a type can own two of them only if these
//!   can be dropped. *Revisit if* this crate reads archives.
//! - An arc inside a class stays, from the class to itself. So the quotient by classes of one page each is the graph
//!   again. Whoever wants none of these arcs drops them from the list that `arcs` prints. *Revisit if* most users do.
//! - The list of a class is sorted when it is handed over, in 8 bytes for each arc of that class. To place arcs in
//!   order would take a second pass and as much memory again. *Revisit if* sorting a class takes longer than the pass
//!   that places.
#![tactic(auto)]

mod adding;
mod coming;
mod counting;
mod error;
mod gathering;
pub mod laws;
mod merge;
mod paging;
mod placing;
mod quotienter;
mod uniting;

pub use adding::add_union;
pub use coming::{Coming, ListWalk};
pub use error::ShapeError;
pub use gathering::quotient;
pub use merge::Merge;
pub use paging::next_union;
pub use quotienter::Quotienter;
pub use uniting::union;
