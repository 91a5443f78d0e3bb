//! Numbers and short texts into any sink, through a fixed buffer; and files that are read in whole lines.
//!
//! [`Lines`] prints a number in decimal digits, a byte, a text of up to [`MOST_PIECE`] bytes, or a line of two numbers.
//! What was printed goes out in order, and all of it once it is flushed; if the sink refuses a write, a proper prefix
//! of it is out. An error comes from the sink alone.
//!
//! [`LineReader`] reads a file in pieces, and lends the lines that end in a piece, each of them whole. The lines are
//! those of the file, however the depot cuts it; an error is one that [`read_whole`](wg_outside::read_whole) would
//! give.
//!
//! A line of text, and one of two numbers:
//!
//! ```rust
//! let mut sink = SteadySink::new(rt.alloc(), 4096);
//! let mut lines = Lines::new();
//! lines.text(&mut sink, b"# one arc\n")?;
//! lines.pair(&mut sink, 0, 345)?;
//! lines.flush(&mut sink)?;
//! assert!(rt; sink.bytes() == b"# one arc\n0 345\n".as_slice());
//! Ok(())
//! ```
//!
//! `Lines` holds its buffer of 8192 bytes and takes no memory. Each call takes time in proportion to what it prints,
//! and now and then to the buffer. A `LineReader` holds part of one line and up to 65536 bytes behind it, and goes over
//! each byte twice: to copy it, and to look for the last end of a line.
//!
//! Choices:
//!
//! - All lines that end in a piece are lent at once, so that a caller reads lines in their plain form by one pass,
//!   with no call for each and no search for its end. *Revisit if* files are read whose lines are mostly longer than
//!   a piece.
//! - `print_list` of `wg_arcs` and `wg_ascii` print through the caller's buffer, so that the sink is called once for
//!   some hundred lines and not for each page. A sink that gathers what it is given would copy each line once more. All
//!   this is a crate of its own, since most crates on `wg_outside` print nothing. *Revisit if* a buffer can be lent to
//!   whoever writes a line.
#![tactic(auto)]

mod lines;
mod reading;

pub use lines::{Lines, MOST_PIECE, MOST_START};
pub use reading::LineReader;
