//! Graphs of pages, lists of pages, and what several crates say of them.
//!
//! A [`Graph`] is a number of pages and, for each page, the ascending list of its successors. It is made by a
//! [`GraphBuilder`], which takes arcs in ascending order, or whole lists, page by page. [`Lists`] is a graph whose
//! lists are read in order, wherever they come from; [`GraphLists`] reads those of a [`Graph`].
//!
//! A graph of three pages, and its first list as it is lent:
//!
//! ```rust
//! let mut builder = GraphBuilder::new(rt.alloc(), 3)?;
//! builder.push_list(&[1, 2])?;
//! assert!(rt; builder.fits(1, 2) && !builder.fits(0, 2));
//! builder.push(1, 2)?;
//! let graph = builder.finish()?;
//! assert!(rt; graph.arcs() == 3);
//! let mut lists = GraphLists::new(&graph);
//! assert!(rt; lists.next_list() == Some([1, 2].as_slice()));
//! Ok(())
//! ```
//!
//! [`List`] holds numbers in order, as the successors of one page; a [`Row`] does so in memory that is taken once, and
//! never wants more. The numbers of a row may wait at the end of its memory, so that others are joined to them where
//! they stand. [`join`] joins to an ascending list the numbers of another that come one after the other, and
//! [`List::put_union`] merges two ascending lists. [`Members`] tells of one number after the other whether it stands in
//! an ascending list, and gives the members below a number one by one. The definitions say what a graph is, which lists
//! ascend, which ascending list a set of numbers has, and which members of a referenced list its copy blocks copy; the
//! lemmas on them serve every crate that copies, joins or writes lists.
//!
//! A graph holds 8 bytes for each arc and 8 for each page, and lends any list in constant time. Building it takes time
//! in proportion to its arcs and pages. [`GraphBuilder::new`] takes no memory for the pages that are claimed;
//! [`GraphBuilder::push`] takes it for those up to the one of its arc, and [`GraphBuilder::finish`] for all others.
//!
//! Choices:
//!
//! - A row has memory for eight numbers more than it may hold, so that runs are written eight numbers at a time, past
//!   their ends: most are shorter than a piece. *Revisit if* a call to copy so few numbers costs nothing.
//! - Before residuals are joined, the members that are not below the first of them are moved to the end of the row's
//!   memory, and each goes back before the first number above it. So no second row is needed, but members are moved
//!   more often. Those below a residual are copied one by one: four at a time, and compared without a branch for
//!   each, a round of PageRank took a tenth longer (2026-11-28). *Revisit if* ranking is to be faster: before
//!   intervals all members wait still.
#![tactic(auto)]

mod builder;
mod cutting;
mod graph;
mod joining;
mod list;
mod lists;
mod members;
mod merging;
mod pieces;
mod row;

pub use builder::GraphBuilder;
pub use graph::Graph;
pub use joining::join;
pub use list::List;
pub use lists::{GraphLists, Lists};
pub use members::Members;
pub use row::Row;
