//! Records that are known to be proper, as those of a checked archive are.
//!
//! A word that is known to stand there needs no test, so these readers have no errors, and take no memory. They read
//! through a [`Lookahead`], a cursor with some bits at hand.
//!
//! [`decode_into`] puts the whole list of a record into a [`Row`](wg_graph::Row) at once, over a lent list, and moves
//! the cursor over the record. So whoever reads all records in order needs no offsets, and takes no memory while it
//! reads; [`reference`] is asked before, so that the list that is referred to can be found. [`decode_behind`] takes the
//! head that [`read_head`] has read for this. Each word is read once, in the order of the record; runs of members are
//! copied while their blocks come, intervals are joined to them as runs, and then the residuals, all in the one row,
//! where the members wait meanwhile.
//!
//! Whoever gives the successors of a page one by one, as `wg_iterators` does, stops between two fields. So the parts are
//! public too: the words ([`value`], [`value_where`]), the head, a block ([`block_of`]), and the [`Residuals`] to come.

mod block;
mod copying;
mod decoding;
mod head;
mod joining;
mod lookahead;
mod residuals;

pub use block::block_of;
pub use decoding::{decode_behind, decode_into};
pub use head::{RecordHead, read_head, reference};
pub use lookahead::{Lookahead, value, value_where};
pub use residuals::Residuals;
