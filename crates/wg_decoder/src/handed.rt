//! Records at a cursor, when the page that they refer to is handed in.
ghost use Rattle.std.specs.Prelude.{◌≡◌, ◌<◌, ◌≤◌, Ok, Err, IfOk, OnErr};
ghost use Rattle.std.specs.Option.{ForSome};
ghost use Rattle.wg_graph.specs.Ascending.{Ascends, Below};
ghost use Rattle.wg_grammar.specs.Record.{ReadsRecord};
ghost use Rattle.wg_decoder.specs.Answer.{IfFault};
ghost use Rattle.wg_decoder.specs.Apart.{page_on};
ghost use Rattle.wg_decoder.specs.Handed.{page_of, handed, FitsHead};
ghost use Rattle.wg_decoder.specs.Remembered.{known_of};

use crate::reading::error_of;
use crate::{DecodeError, Decoded, Spares, decode_over};
use std::alloc::Global;
use wg_bits::Cursor;
use wg_graph::List;
use wg_params::Params;

/// A page that a reference names: its successors, and how many references lead on from it, one after the other.
#[derive(Clone, Copy, Debug)]
pub struct Known<'a> {
    /// Its successors, ascending.
    pub list: &'a List,
    /// How many references lead on from it; 0, if its record has none.
    pub depth: u64,
}

// The record at the cursor over this list and depth. The cursor stands still if there is an error.
fn decode_at(
    alloc: Global,
    params: &Params,
    page: u64,
    arcs_before: u64,
    named: &[u64],
    depth: u64,
    cursor: &mut Cursor<'_>,
) -> Result<Decoded, DecodeError>
    requires page { page < params.now.nodes }
    requires before { arcs_before ≤ params.now.arcs }
    requires ascends { Ascends 0 named.now }
    requires below { Below params.now.nodes named.now }
    requires depth { 0 < page → depth < page }
    ensures bits { cursor.new.bits ≡ cursor.old.bits }
    ensures reads { IfOk result (λ d. ReadsRecord params.now
        (page_on params.now page arcs_before (page_of named.now depth)) cursor.old.bits cursor.old.at
        (Ok (record { known = known_of d; end = cursor.new.at }))) }
    ensures fault { IfFault result (λ e. ReadsRecord params.now
        (page_on params.now page arcs_before (page_of named.now depth)) cursor.old.bits cursor.old.at (Err e)) }
    ensures still { OnErr result (cursor.new ≡ cursor.old) }
    ensures ascends { IfOk result (λ d. Ascends 0 d.list) }
    ensures below { IfOk result (λ d. Below params.now.nodes d.list) }
    ensures deep { IfOk result (λ d. d.depth ≤ page) }
{
    let start = cursor.at();
    let mut spares = Spares::new(alloc);
    match decode_over(params, page, arcs_before, named, depth, &mut spares, cursor) {
        Ok(decoded) => Ok(decoded),
        Err(unread) => {
            cursor.seek_back(start);
            Err(error_of(unread))
        }
    }
}

/// The record at the cursor, of a page with `arcs_before` arcs before it, which refers to the page that is handed in.
/// Call [`head`](crate::head) there first: hand in a page exactly if the reference that it answers is not 0. The cursor
/// moves over the record, and stands still if it is refused or memory runs out. Memory is taken as successors come, and
/// not by the outdegree; it costs a word of each field, and a pass over the list that is handed in.
pub fn decode_on(
    alloc: Global,
    params: &Params,
    page: u64,
    arcs_before: u64,
    known: Option<Known<'_>>,
    cursor: &mut Cursor<'_>,
) -> Result<Decoded, DecodeError>
    requires page { page < params.now.nodes }
    requires before { arcs_before ≤ params.now.arcs }
    requires ascends { ForSome known (λ k. Ascends 0 k.list.now) }
    requires below { ForSome known (λ k. Below params.now.nodes k.list.now) }
    requires depth { ForSome known (λ k. k.depth < page) }
    requires head { FitsHead params.now page arcs_before cursor.old.bits cursor.old.at known }
    ensures bits { cursor.new.bits ≡ cursor.old.bits }
    ensures reads { IfOk result (λ d. ReadsRecord params.now
        (page_on params.now page arcs_before (handed known.entry)) cursor.old.bits cursor.old.at
        (Ok (record { known = known_of d; end = cursor.new.at }))) }
    ensures fault { IfFault result (λ e. ReadsRecord params.now
        (page_on params.now page arcs_before (handed known.entry)) cursor.old.bits cursor.old.at (Err e)) }
    ensures still { OnErr result (cursor.new ≡ cursor.old) }
    ensures ascends { IfOk result (λ d. Ascends 0 d.list) }
    ensures below { IfOk result (λ d. Below params.now.nodes d.list) }
    ensures depth { IfOk result (λ d. d.depth ≤ page) }
{
    match known {
        Some(known) => {
            let list = known.list.as_slice();
            decode_at(alloc, params, page, arcs_before, list, known.depth, cursor)
        }
        None => decode_at(alloc, params, page, arcs_before, &[], 0, cursor),
    }
}
