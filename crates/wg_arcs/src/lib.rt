//! Graphs as texts, a line for each arc; and lists of numbers as texts.
//!
//! [`write_list`] puts the lines of a page to a sink, each its two pages in decimal digits, parted by a space, and
//! [`write`] those of each page of a graph in turn: the text of the graph, arc by arc, ascending. Both call the sink at
//! least once for each page that has arcs. What they are made of is [`print_list`], which prints the lines of a page
//! through a buffer of the caller: whoever has many short lists keeps one buffer for all of them, and so the sink is
//! called once for some hundred lines.
//!
//! [`read`] reads such a text into a graph, or names its first faulty line, an [`ArcsError::Line`]. It also takes
//! blanks between the numbers and round them, lines without words, comments that begin with `#`, and a CR before the
//! end of a line. The arcs must ascend, and no page may be as large as the number of pages, which is given.
//!
//! [`ArcLines`] reads it line by line, by the same rules, for whoever has not the whole text at once: it takes the
//! first line off a text, and keeps what says whether the next one is in order.
//!
//! A text that is read and written again, and one whose second line is faulty:
//!
//! ```rust
//! let graph = wg_arcs::read(rt.alloc(), b"# two arcs\n0 1\n 1\t2", 3)?;
//! let mut sink = SteadySink::new(rt.alloc(), 4096);
//! wg_arcs::write(&graph, &mut sink)?;
//! assert!(rt; sink.bytes() == b"0 1\n1 2\n".as_slice());
//! let twice = wg_arcs::read(rt.alloc(), b"0 1\n0 1\n", 3);
//! let kind = ArcsKind::Order;
//! assert!(rt; twice.err() == Some(ArcsError::Line { line: 2, kind }));
//! Ok(())
//! ```
//!
//! [`read_numbers`] reads a text of as many numbers as are wanted, each below a limit and on a line of its own, or
//! names its first fault, a [`NumbersFault`]: the first faulty line, or, if no line is faulty, that numbers are
//! missing. Blanks, lines without words, comments and a CR are as in the text of a graph. Each text gives either its
//! numbers or one fault, and numbers written one on a line are read as these numbers ([`laws::numbers_texts`]).
//!
//! Writing takes no memory, and time in proportion to the pages, and to the digits of the arcs. Reading goes over the
//! text once; it holds the graph or the numbers, 8 bytes each, and takes memory as they come.
//!
//! Choices:
//!
//! - Weights are whole numbers, below 2^32: every product of a round fits 128 bits, and reading a text rounds nothing.
//!   All weights 0 is a fault, since teleport would lead nowhere; a graph without pages has no weights and is valid.
//!   *Revisit if* weights come as fractions that no common factor makes whole.
//! - A map of classes is the same text with another limit. The number of classes is given beside it, as that of pages
//!   beside an arc list, since any class may be empty, the last one too. *Revisit if* most users have names of classes.
#![tactic(auto)]

mod arc_lines;
mod fault;
pub mod laws;
mod numbers;
mod numbers_fault;
mod plain;
mod reading;
mod words;
mod writing;

pub use arc_lines::ArcLines;
pub use fault::{ArcsError, ArcsKind};
pub use numbers::read_numbers;
pub use numbers_fault::{NumbersError, NumbersFault, NumbersKind};
pub use reading::read;
pub use writing::{print_list, write, write_list};
