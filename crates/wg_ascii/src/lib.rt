//! Graphs as ASCIIGraph texts: the number of pages, and then a line of successors for each page. WebGraph's
//! `ASCIIGraph` has them in files `.graph-txt`.
//!
//! [`write`] puts the text of a graph to a sink: the words of a line are parted by one space, and each line is ended by
//! LF. [`print_nodes`] and [`print_list`] print one line of it through a buffer, for a graph whose lists come one after
//! the other.
//!
//! [`read`] reads such a text into a graph, or names its first faulty line, an [`AsciiError::Line`]. It also takes
//! other blanks between the words and round them, a CR before the end of a line, a last line that is not ended, and
//! lines of blanks after those of the pages. No line is skipped: a line without words is a page without successors.
//! There are no comments. The successors of a page ascend, and are below the number of pages; the pages and the arcs
//! are within the limits of an archive. Line by line, and on a line word by word, the first fault is named:
//!
//! - `Shape`: the first line is not one word, or a word is not the decimal text of a number below 2^64;
//! - `Range`: the first line tells more pages than an archive may have, or a successor is no page;
//! - `Order`: a successor is not above the one before it;
//! - `TooMany`: a successor is one arc more than an archive may have;
//! - `Extra`: a word stands on a line after those of the pages, whatever the word is;
//! - `Missing`: the text ends before this line, which is the first or that of a page.
//!
//! [`PageLines`] reads it line by line, by the same rules, for whoever has not the whole text at once: it takes lines
//! off a text, and keeps what says whether the next one is in order.
//!
//! A text that is read and written again, and one that ends too early:
//!
//! ```rust
//! let graph = wg_ascii::read(rt.alloc(), b" 3\n1  2\n2\n\n")?;
//! let mut sink = SteadySink::new(rt.alloc(), 4096);
//! wg_ascii::write(&graph, &mut sink)?;
//! assert!(rt; sink.bytes() == b"3\n1 2\n2\n\n".as_slice());
//! let short = wg_ascii::read(rt.alloc(), b"3\n1 2\n2\n");
//! let kind = AsciiKind::Missing;
//! assert!(rt; short.err() == Some(AsciiError::Line { line: 4, kind }));
//! Ok(())
//! ```
//!
//! Writing takes no memory, and time in proportion to the pages and to the digits of the arcs. Reading goes over the
//! text once, and over a line that is not as it is written a few times. [`read`] holds the graph and the list of one
//! page, 8 bytes for each arc and each page, and takes memory as the lines come, and none by the number of pages that
//! the first line tells; a `PageLines` holds nothing.
//!
//! Choices:
//!
//! - The definition of a text has no reader in it: it compares the words of each line with the decimal texts of the
//!   page's successors. The first fault is a definition of its own, and a law says that each text has exactly one of
//!   the two. As each line after the first is a page, there is no room for comments. *Revisit if* common writers of
//!   `.graph-txt` put them in.
#![tactic(auto)]

mod fault;
pub mod laws;
mod lists;
mod page_lines;
mod plain;
mod reading;
mod words;
mod writing;

pub use fault::{AsciiError, AsciiKind};
pub use page_lines::PageLines;
pub use reading::read;
pub use writing::{print_list, print_nodes, write};
