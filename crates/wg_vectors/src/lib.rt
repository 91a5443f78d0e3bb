//! Worked values to hold the other crates against, and graphs from a seed. The tables come from the formats'
//! descriptions and not from a program.
//!
//! [`VECTORS`] has words of the five codes, [`NO_WORDS`] bits that are no word, and [`FOLDS`] numbers of either sign
//! with their values. `wg_tests` runs each of them through `wg_codes`, both ways.
//!
//! [`COPIED`] is an archive bit by bit, with the list of each page and the offset of each record. All other worked
//! archives are rows of `wg_cli`, over which the program runs. [`bytes_of`] turns the text of some bits into bytes,
//! and [`usual`] makes parameters in the default codes.
//!
//! The worked archive, bit by bit, and a graph that is generated from the seed 7:
//!
//! ```rust
//! // 011 1 1 1011 100  011 01 1  1
//! let bytes = bytes_of(rt.alloc(), COPIED.graph)?;
//! assert!(rt; bytes.as_slice() == b"\x7D\xC6\xE0".as_slice());
//! assert!(rt; COPIED.places == [0, 12, 18, 19].as_slice());
//! let graph = generate(rt.alloc(), 7, 1000)?;
//! assert!(rt; graph.nodes() == 1000);
//! Ok(())
//! ```
//!
//! [`generate`] draws a graph of up to [`wg_params::MOST_GENERATED`] pages that is like a web graph: lists share
//! members with lists close before them, and have intervals. The definition says each list, and so the same seed gives
//! the same graph in any program that follows it.
//!
//! ```text
//! seed --> for each page, in order: copy from a list close before --> scatter --> add an interval --> its list
//!             state of the generator, from page to page; the lists so far, in the graph that grows
//! ```
//!
//! Choices:
//!
//! - A page is drawn into a buffer of 78 numbers, ascending, by binary search and insertion: to append is the common
//!   case, and nothing is sorted or taken for a page. *Revisit if* generated pages get many more successors.
//! - No table has unary words of 2^32 zeros, which take 512 MB. *Revisit if* a source of bits that are made as they
//!   are read can stand for a test.
#![tactic(auto)]

mod archives;
mod bits;
mod codes;
mod drafting;
mod generating;
pub mod laws;
mod parameters;

pub use archives::{COPIED, Sample};
pub use bits::bytes_of;
pub use codes::{FOLDS, Folded, NO_WORDS, NoWord, VECTORS, Vector};
pub use generating::generate;
pub use parameters::usual;
