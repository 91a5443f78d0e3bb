//! The commands that read an archive whole and print: `check`, `arcs`, `ascii`, `offsets`, `rank`, `verify`.
//!
//! Each is a function over any outside, with one clause: `DoesOrEnds` of its job (`wg_outcomes`). A command is a
//! chain of steps: those of `wg_readings`, which read the files of an archive and validate them, and last one that
//! prints. `rank` writes a certificate too, if it is asked for one. A command more is an equation of `judged`, the
//! lists of its inputs and outputs, and a module beside [`check`] with that clause; its proof is a line for each
//! exit, by the lemmas of `wg_readings` on steps of jobs.
//!
//! The arcs of an archive in memory are printed:
//!
//! ```rust
//! let mut depot = SteadyDepot::new(rt.alloc(), 4096);
//! let text = wg_properties::write(rt.alloc(), &usual(3, 4, 7, 3, 4)?)?;
//! depot.put_file("web.properties", text.as_slice())?;
//! depot.put_file("web.graph", b"\x7D\xC6\xE0")?;
//! let base = Name::new(rt.alloc(), "web")?;
//! let mut out = SteadySink::new(rt.alloc(), 4096);
//! let done = print_records(rt.alloc(), &base, Listing::Arcs, &mut depot, &mut out);
//! assert!(rt; done.is_ok());
//! assert!(rt; out.bytes() == b"0 1\n0 2\n1 1\n1 2\n".as_slice());
//! Ok(())
//! ```
//!
//! [`check`] and [`printing`] read the graph in pieces, and [`check`] the offsets, so that an archive need not fit into
//! memory; all other inputs are held whole until they are read.
#![tactic(auto)]

mod certificate;
pub mod check;
mod print;
pub mod printing;
pub mod rank;
pub mod verify;
