//! What the greedy archive of a graph is, and its laws.
//!
//! A page may be written with no reference, or with one to a page before it that has a list to copy from. For each of
//! these candidates there is one canonical record: the copy blocks are those of `wg_blocks`, the intervals and
//! residuals those of `wg_intervals`. The greedy archive has for each page, in order, the candidate with the fewest
//! bits, and of several the one with the smallest reference. The references that were chosen before bear on it by their
//! depths alone, if the archive limits chains.
//!
//! The definitions give the fields of a record with their codes and stored values, the reference that is chosen, and
//! the bytes of the two files. The functions of [`laws`] do nothing, and hold no memory. They state that no candidate's
//! record is shorter than the one that is written, that the bytes of the files are their bits, and that these files are
//! accepted and have the graph.
//!
//! A law is its function's contract, which holds wherever it is called:
//!
//! ```rust
//! wg_greedy::laws::greedy_archives();
//! ```
//!
//! Choices:
//!
//! - The shortest archive under a limit of chains would need a look ahead: a page gives up its shortest record for
//!   the sake of later ones. The greedy archive needs the depths of the window alone. *Revisit if* a look ahead
//!   spares some bits in a hundred on real crawls.
//! - A page without successors has one record, whatever its reference. So the tie goes to 0, and the definition needs
//!   no case for it. *Revisit if* the definition has to leave out such pages for another reason.
//! - The archive is defined apart from the encoder that writes it, in `wg_encoder`: what a job comes to
//!   is stated by what is defined here. *Revisit if* another writer needs definitions of its own.
#![tactic(auto)]

pub mod laws;
