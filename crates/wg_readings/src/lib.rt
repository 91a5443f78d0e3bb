//! The files of an archive, texts of graphs, weights, certificates and maps, as a job reads them: each is read and
//! validated, and the job goes on with what it holds, or ends.
//!
//! [`load_params`], [`load_graph`], [`load_weights`], [`load_certificate`] and [`load_map`] read a file whole;
//! [`judge_graph`], [`judge_files`] and [`judge_offsets`] go through the files in pieces, and so do [`open_graph`],
//! [`next_record`] and [`end_records`], record by record. [`passed_of_graph`] finds where the records of a graph file
//! are, and [`lists_of_records`] decodes their lists, as often as one likes. [`open_lines`] and [`next_lines`] lend the
//! lines of a file, which the caller validates.
//!
//! Each promises that it is a step of a validation (`Judged`): it either yields a value or ends the job with a
//! [`Status`](wg_outcomes::Status), and later inputs do not matter, unless running out of memory or a fault of the
//! outside came in its place (`Steps`). A fault or an absence is reported only if its count rose, and no file
//! changes. Which steps a job takes, and what it prints and writes, is said in `wg_outcomes`; the lemmas here on steps
//! of jobs are what the commands are proved by.
//!
//! The parameters of an archive, and how a job ends whose archive is not there:
//!
//! ```rust
//! let mut depot = SteadyDepot::new(rt.alloc(), 4096);
//! let text = wg_properties::write(rt.alloc(), &usual(3, 4, 7, 3, 4)?)?;
//! depot.put_file("web.properties", text.as_slice())?;
//! let web = Name::new(rt.alloc(), "web")?;
//! let Ok(params) = load_params(rt.alloc(), &mut depot, &web) else {
//!     return Err("no parameters".into());
//! };
//! assert!(rt; params.arcs() == 4);
//! let other = Name::new(rt.alloc(), "other")?;
//! let Err(ending) = load_params(rt.alloc(), &mut depot, &other) else {
//!     return Err("parameters of no file".into());
//! };
//! assert!(rt; ending.status == Status::Missing(Input::Properties));
//! Ok(())
//! ```
//!
//! A validation takes the graph of a file from a function that reads all graph files (`Readings`); the grammar leaves
//! exactly one such function. The second archive of a job is read as a first is, and
//! [`as_second`](wg_outcomes::as_second) turns the ending that this gives.
#![tactic(auto)]

mod archive;
mod claims;
mod classes;
mod judge;
mod lines;
mod loading;
mod pairing;
mod records;
mod weights;

pub use archive::{bad_archive, find_pages, graph_ending, lists_of_records, passed_of_graph};
pub use judge::{judge_files, judge_graph, judge_offsets};
pub use lines::{next_lines, open_lines, unread};
pub use loading::{load, load_certificate, load_graph, load_map, load_params, load_weights};
pub use pairing::word_ending;
pub use records::{end_records, next_record, open_graph};
