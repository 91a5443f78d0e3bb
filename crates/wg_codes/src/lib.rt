//! The codes of BVGraph: unary, gamma, delta, zeta and nibble, each of which writes a number as a word of bits.
//!
//! [`read`] tells what stands at a cursor: a whole word, which it moves over, or one of two faults ([`Read`]).
//! [`write`] puts a word through a writer, [`length`] counts its bits without writing it, and [`holds`] tells which
//! values have one; [`word_in`] tells a word by the 64 bits that it is at the front of. [`fold`] and [`unfold`] turn
//! whole numbers of either sign into values and back; [`unfold_from`] gives the number that is so far from another, and
//! [`number_of_gap`] the one that a stored gap means, whether something comes before it or not. The function of
//! [`laws`] does nothing: its contract says what holds of the words themselves, whoever reads them.
//!
//! Two words that stand at a cursor, and a third that the end of the bits cuts off:
//!
//! ```rust
//! // 00101 in gamma, and then 1011 in zeta
//! let mut cursor = Cursor::new(Bits::of(b"\x2D\x80"), 0);
//! assert!(rt; wg_codes::read(Code::Gamma, &mut cursor) == Read::Value(4));
//! assert!(rt; wg_codes::read(Code::Zeta(3), &mut cursor) == Read::Value(2));
//! assert!(rt; wg_codes::read(Code::Gamma, &mut cursor) == Read::Cut);
//! assert!(rt; length(Code::Gamma, 4) == 5);
//! assert!(rt; fold(-2) == 3);
//! assert!(rt; unfold(3) == -2);
//! ```
//!
//! Each code stands in a module of its own, with its reader, its writer and its length side by side. All that takes a
//! [`Code`] works for a `Zeta(k)` with `k` from 1 to 31 and for every other code.
//!
//! No call takes memory. A word is read and written by a fixed number of loads and shifts, and never bit by bit; a
//! word of gamma or zeta that can be seen at a glance, as nearly all can, by one load. Two loops are left: unary goes
//! over 64 zeros at a time, and nibble digit by digit, over at most 21.
//!
//! Choices:
//!
//! - A code ends at a greatest value, and a longer word is no word. So a reader can stop after as many zeros as any
//!   word has, and each value fits a `u64`. These values are above all numbers that a record or an offset can have,
//!   but for a block count in unary, which ends at 2^32 - 1. *Revisit if* an archive has greater values; the limits
//!   of pages and arcs have to grow first.
//! - [`word_in`] knows words that can be seen at a [`glance`](wg_bits::Cursor::glance), which takes one load. Longer
//!   words, in gamma from the value 2^29 - 1 on and in zeta 3 from 2^42 - 1 on, are read in steps. *Revisit if*
//!   graphs with so far distances are in use.
//! - No table has the short words of zeta. It could have those of 11 bits at most, as 9 of 100 residuals of the
//!   generated archives were (2026-11-27), so that looking up would cost more than it saves. *Revisit if* zeta takes
//!   a tenth of validating real crawls.
//! - A word that is not known at a glance is read by a function that is never inlined, takes a copy of the cursor and
//!   answers how far to move. If it borrowed the cursor, that would lie in memory wherever words are read, and
//!   validating took a thirteenth longer (2026-11-28). *Revisit if* the compiler keeps a borrowed number in a register.
#![tactic(auto)]

mod any;
mod delta;
mod folding;
mod gamma;
mod headed;
pub mod laws;
mod nibble;
mod outcome;
mod unary;
mod zeta;

pub use any::{holds, length, read, word_in, write};
pub use folding::{fold, number_of_gap, unfold, unfold_from};
pub use outcome::{Read, Word};
pub use unary::MOST_ZEROS;
