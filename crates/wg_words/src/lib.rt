//! The job that the words of a command line ask for.
//!
//! [`Words`] holds the words after the program's name. [`job`] reads them with `clap`, by the one table of commands and
//! options in `forms`, and answers the [`Job`]: an enum with a variant for each command, which owns the names and
//! numbers that the words give. The commands that write an archive are one variant: beside the name and the layout of
//! the archive, [`Origin`] says where its graph comes from. There is no job if `clap` refuses the words, a request for
//! help being such a refusal, or if a value is out of its range. The definition of the job, `job_of`, is over the
//! matches that `clap` defines for these words.
//!
//! The words of a command, and the job that they ask for:
//!
//! ```rust
//! let mut words = Words::new(rt.alloc());
//! for word in ["show", "web", "7", "0"] {
//!     words.push(word)?;
//! }
//! match wg_words::job(rt.alloc(), &words)? {
//!     Job::Show { base, pages } => {
//!         assert!(rt; base.as_str() == "web");
//!         assert!(rt; pages.as_slice() == [7, 0].as_slice());
//!     }
//!     _ => return Err("another job".into()),
//! }
//! Ok(())
//! ```
//!
//! A command that writes an archive takes the options of `options`, and its job has a [`Layout`](wg_params::Layout):
//! what the words say of the archive's parameters, all but the numbers of pages and arcs. No such job reads one of the
//! files that it writes. The commands that read an archive and write another share `Conversion`.
//!
//! `rank` and `verify` may name a file of weights. The certificate that `rank` writes is none of the files that it
//! reads, which the definitions say by `KeepsInputs`.
//!
//! A number is read from the text of its option by [`wg_num::read_decimal`], and by none of `clap`'s parsers: digits
//! alone, no 0 before others, at most its limit. An option that is absent gives its default. The pages of `show` are a
//! list of such numbers, of which each below 2^64 will do: which pages there are is known only when the archive has
//! been read.
//!
//! A command more is a variant of `Job` or `Origin`, an entry of the table, and an arm of `asked` with its twin in the
//! definitions.
//!
//! Choices:
//!
//! - There is no help text: the manual has the words. *Revisit if* users ask for one; the words that ask for it are
//!   to be defined then.
//! - What is only read may be any file: `verify g g.graph` is a job, and ends by naming a fault of that text. Only an
//!   output that is also an input is refused, by its name. *Revisit if* a fault in such a file misleads whoever mixed
//!   up two names.
#![tactic(auto)]

mod asked;
mod codes;
mod commands;
mod conversion;
mod defaults;
mod files;
mod forms;
mod jobs;
mod layout;
mod name;
mod options;
mod values;
mod words;

pub use asked::job;
pub use defaults::DEFAULT_DAMPING;
pub use jobs::{Job, JobError, Origin, RankJob, VerifyJob, WriteJob};
pub use layout::default_layout;
pub use name::Name;
pub use words::Words;
