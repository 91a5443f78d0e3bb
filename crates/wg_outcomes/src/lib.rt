//! What a job comes to: which of its inputs are validated in which order, what it prints and writes, how it may end,
//! and what stands on its output and in its files then.
//!
//! `Commands` has an equation for each command: from what its inputs hold to its output or its first fault.
//! `Performs` is the whole contract of a job: the status is the one of that equation, or running out of memory or a
//! fault of the outside came in its place; faults are reported only if their counts rose; and for each status it
//! says what stands on the output, in the three files of a written archive and in a written certificate. `DoesOrEnds`
//! says the same of a command that is a function with a [`Result`], and `DoesAlone` of one that makes no call of a
//! depot.
//!
//! A [`Status`] is how a run ended, an [`Ending`] a status with what the properties promise, arcs or pages, if its
//! error line names that:
//!
//! ```rust
//! let missing = Ending::of(Status::Missing(Input::Properties));
//! assert!(rt; missing.status.code() == 6);
//! let second = as_second(missing);
//! assert!(rt; second.status == Status::Missing(Input::SecondProperties));
//! ```
//!
//! The equations take the graph of a file from a function that reads all graph files (`Readings`); `wg_laws` states
//! that the grammar leaves exactly one. Besides, the crate has what commands of both kinds share: short texts, and what
//! is printed in one call.
//!
//! Choices:
//!
//! - A fault holds what was found in its own file. So what ends a job carries the number that the properties promise
//!   beside the status. *Revisit if* more than one number of another file has to go with a fault.
#![tactic(auto)]

mod ending;
mod files;
mod layouts;
mod names;
mod outcome;
mod outputs;
mod print;
mod second;
mod status;
mod text;

pub use ending::Ending;
pub use files::{create_file, fill_file};
pub use layouts::params_of;
pub use names::suffix;
pub use outcome::{BULK_ROUNDS, Outcome};
pub use outputs::{output_ending, writing_ending};
pub use print::{print_ok, print_piece, print_rest};
pub use second::{as_second, second_input};
pub use status::{Input, SecondFault, Status, WeightsFault};
pub use text::{MOST_TEXT, Text};
