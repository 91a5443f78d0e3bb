//! The program over any outside: the words' job, done over a depot of files, with its output and a line on standard
//! error.
//!
//! [`run`] is the one call. It asks `wg_words` for the job, has `perform` do it by the commands of `wg_lookups`,
//! `wg_queries`, `wg_builds` and `wg_transforms`, reports how it ended, and returns the [`Status`]. Its contract spells
//! out what is promised of a job (`Performs`), by the words and by what each input holds: which status comes, what
//! stands on the output and in the files, and that faults of the outside are reported only if their counts rose.
//! Besides it says which line is reported (`line_of`). [`run_in_memory`] is the same over files and outputs in memory,
//! which are never at fault. [`report`] writes such a line alone, for whoever can't collect the words.
//!
//! Besides this crate a caller needs `wg_io` alone, for its depot and its sinks: the words, the status and all that a
//! status names are exported here.
//!
//! An ASCIIGraph text in memory is imported as an archive:
//!
//! ```rust
//! let mut words = wg_cli::Words::new(rt.alloc());
//! for word in ["import", "web.txt", "web"] {
//!     words.push(word)?;
//! }
//! let mut depot = SteadyDepot::new(rt.alloc(), 4096);
//! depot.put_file("web.txt", b"3\n1 2\n1 2\n\n")?;
//! let mut out = SteadySink::new(rt.alloc(), 4096);
//! let mut err = SteadySink::new(rt.alloc(), 4096);
//! let status = run_in_memory(rt.alloc(), &words, &mut depot, &mut out, &mut err);
//! assert!(rt; status == wg_cli::Status::Done);
//! assert!(rt; depot.holds("web.graph"));
//! Ok(())
//! ```
//!
//! Choices:
//!
//! - The error line takes no memory, so that it comes even if memory has run out: each of its texts has at most 192
//!   bytes, and names go out in pieces. *Revisit if* a line has to say more.
#![tactic(auto)]

mod dispatch;
mod file_name;
mod names;
mod program;
mod reporting;
mod steady;
mod texts;

pub use program::run;
pub use reporting::report;
pub use steady::run_in_memory;
pub use wg_arcs::{ArcsKind, NumbersFault, NumbersKind};
pub use wg_ascii::AsciiKind;
pub use wg_grammar::{ArchiveFault, Fault, Field, Kind, OffsetWord};
pub use wg_outcomes::{Input, SecondFault, Status, WeightsFault};
pub use wg_outside::Output;
pub use wg_params::Key;
pub use wg_properties::PropFault;
pub use wg_rank::{CertFault, CertKind};
pub use wg_words::Words;

#[cfg(test)]
mod tests;
