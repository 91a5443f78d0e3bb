//! What two short lists of successors have in common, as sets of bits, with the copy blocks and extras of these sets.
//!
//! Whoever counts what a list takes by one reference after the other marks the list once, in [`Marks`]: a table has the
//! place of each number in the slot of its low bits. A [`Marked`] list is one of which each number has a slot of its
//! own. [`Marked::common`] looks up the members of a referenced list, and needs no pass over the list: bit i of a word
//! tells whether number i of the list stands in the other one. From these words [`BlocksLeft`] gives the copy blocks
//! one by one, and [`Extras`] the successors that are not copied. They also tell if no interval of four or more numbers
//! is among those.
//!
//! The blocks and extras of a list:
//!
//! ```rust
//! let list = [1, 5, 7, 9];
//! let mut marks = Marks::new();
//! marks.mark(list.as_slice());
//! if let Some(marked) = Marked::of(&marks, list.as_slice()) {
//!     if let Some(common) = marked.common([1, 3, 5, 7].as_slice()) {
//!         // of 1, 3, 5 and 7 the first is copied, the second is skipped, and all that is left is copied
//!         let mut blocks = BlocksLeft::of(common.theirs, 4);
//!         assert!(rt; blocks.next() == Some(1) && blocks.next() == Some(1) && blocks.next() == None);
//!         let mut extras = Extras::of(list.as_slice(), common.ours);
//!         assert!(rt; extras.next() == Some(9) && extras.next() == None);
//!     }
//! }
//! Ok(())
//! ```
//!
//! Nothing takes memory but the table, of 4096 bytes.
//!
//! Choices:
//!
//! - Both lists have at most 64 numbers, so that a set is one word. *Revisit if* most arcs lie in longer lists.
//! - The table has places alone, and is never cleared: a place is held against the list, so one that is left from
//!   another list harms nothing. If two numbers of a list have one slot, it is not marked. *Revisit if* many lists
//!   have such numbers.
#![tactic(auto)]

mod bits;
mod blocks;
mod extras;
mod marked;
mod marks;
mod spans;

pub use blocks::BlocksLeft;
pub use extras::Extras;
pub use marked::{Common, Marked};
pub use marks::Marks;
