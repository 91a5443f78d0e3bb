//! The intervals of a record, taken as the numbers inside them.
//!
//! An interval is a run of successors that follow one another: a record stores its left end and its length. An
//! [`IntervalWalk`] gives the numbers inside the intervals, one after the other, ascending, and contracts see it as the
//! list of those to come. It reads the words of an interval when it reaches it, with a cursor of its own, so it keeps
//! a few numbers alone.
//!
//! Whoever writes a record needs the intervals among the successors that are not copied: [`split`] gives them and the
//! numbers in none, the residuals, as a [`Split`], in one pass, and [`Split::fill`] splits those of the next record in
//! the same memory. A [`Run`] gives the maximal runs of consecutive numbers one by one, for those who only count. The
//! function of [`laws`] states that a split loses nothing, and leaves nothing in residuals that could stand in an
//! interval.
//!
//! A list that is split:
//!
//! ```rust
//! // runs of at least 3 numbers are intervals: a left end, and a length
//! let parts = split(rt.alloc(), &[0, 1, 2, 4, 5, 9], 3)?;
//! assert!(rt; parts.intervals.as_slice() == [0, 3].as_slice());
//! assert!(rt; parts.residuals.as_slice() == [4, 5, 9].as_slice());
//! Ok(())
//! ```
//!
//! Nothing but a [`Split`] takes memory. A step of a walk reads two words if it begins an interval, and two more for
//! each empty one before it.
#![tactic(auto)]

mod interval;
pub mod laws;
mod parts;
mod run;
mod splitting;
mod walk;

pub use parts::Split;
pub use run::Run;
pub use splitting::split;
pub use walk::IntervalWalk;
