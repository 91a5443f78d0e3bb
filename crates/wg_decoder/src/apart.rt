//! Records on their own, when no page before is known but the one that they refer to.
ghost use Rattle.std.specs.Prelude.{◌<◌, ◌≤◌, Bool, List as ListOf, Ok, Err, IfOk};
ghost use Rattle.wg_graph.specs.Ascending.{Ascends, Below};
ghost use Rattle.wg_grammar.specs.Context.{Known};
ghost use Rattle.wg_grammar.specs.Record.{ReadsRecord};
ghost use Rattle.wg_grammar.specs.Errors.{OnFault, OnRefusal};
ghost use Rattle.wg_decoder.specs.Apart.{page_on};
ghost use Rattle.wg_decoder.specs.Remembered.{known_of};
ghost use Rattle.wg_decoder.specs.Spare.{NoneLonger};

use crate::behind::Alone;
use crate::reading::decode_from;
use crate::{Decoded, Spares};
use wg_grammar::{Fault, ReadError, Source};
use wg_params::Params;

/// The record that comes next from a source, of a page with `arcs_before` arcs before it. Nothing is known of the pages
/// before but one, which its reference names, if it has one: its list and its depth. The source moves over the
/// record, and may stand anywhere in it if it is refused, memory runs out or a word was refused. No list of the spares
/// grows beyond the pages that there are, whatever the answer.
pub fn decode_over<S: Source>(
    params: &Params,
    page: u64,
    arcs_before: u64,
    named: &[u64],
    depth: u64,
    spares: &mut Spares,
    source: &mut S,
) -> Result<Decoded, ReadError<Fault, S::Refusal>>
    requires page { page < params.now.nodes }
    requires before { arcs_before ≤ params.now.arcs }
    requires ascends { Ascends 0 named.now }
    requires below { Below params.now.nodes named.now }
    requires depth { 0 < page → depth < page }
    ensures later { S.later source.old source.new }
    ensures refused { OnRefusal result (S.caused source.old source.new) }
    ensures reads { (bits : ListOf Bool) → S.reads_from source.old bits
        → IfOk result (λ d. let k : Known = record { list = named.now; depth = depth } in
        ReadsRecord params.now (page_on params.now page arcs_before k) bits (S.offset source.old)
        (Ok (record { known = known_of d; end = S.offset source.new }))) }
    ensures fault { (bits : ListOf Bool) → S.reads_from source.old bits
        → OnFault result (λ e. let k : Known = record { list = named.now; depth = depth } in
        ReadsRecord params.now (page_on params.now page arcs_before k) bits (S.offset source.old) (Err e)) }
    ensures deep { IfOk result (λ d. d.depth ≤ page) }
    ensures ascends { IfOk result (λ d. Ascends 0 d.list) }
    ensures below { IfOk result (λ d. Below params.now.nodes d.list) }
    ensures short { NoneLonger params.now.nodes spares.old → NoneLonger params.now.nodes spares.new }
{
    let behind = Alone {
        window: params.window(),
        list: named,
        depth,
    };
    decode_from(params, page, arcs_before, &behind, spares, source)
}
