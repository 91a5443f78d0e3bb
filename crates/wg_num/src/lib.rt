//! What texts are made of: whole numbers below 2^64 in decimal digits, parts of 1, lines, words, and blanks.
//!
//! [`read_decimal`] accepts the one text that [`decimal_into`] writes of a number and nothing else: no sign, no blanks,
//! no zeros at the front. Each goes over at most the first 20 digits of its text. [`leading_15_digits`] takes up to 15
//! digits off the front of a text. [`units_text`] writes a part of 1, in units of 10^-24, with all its 24 digits, and
//! [`read_units`] accepts that text and nothing else. [`first_line`] cuts a text after its first line, and
//! [`first_word`] a line after its first word; [`without_blanks_before`] and [`without_blanks_after`] drop spaces and
//! tabs. Each lends parts of its text, and goes over the part that it cuts off or drops. No call takes memory.
//!
//! A number and its digits, and a quarter in units:
//!
//! ```rust
//! assert!(rt; read_decimal(b"1024") == Some(1024));
//! assert!(rt; read_decimal(b"01024").is_none());
//! let mut buffer = [0; 20];
//! let count = decimal_into(1024, &mut buffer);
//! assert!(rt; &buffer[..count] == b"1024".as_slice());
//! let quarter = units_text(UNITS / 4);
//! assert!(rt; quarter.as_slice() == b"0.250000000000000000000000".as_slice());
//! ```
#![tactic(auto)]

mod decimal;
mod digits;
mod lines;
mod units;
mod words;

pub use decimal::{decimal_at, decimal_into, leading_15_digits, read_decimal};
pub use lines::{first_line, is_blank, without_blanks_after, without_blanks_before};
pub use units::{UNITS, UnitsText, read_units, units_text};
pub use words::first_word;
