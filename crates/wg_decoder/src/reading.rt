//! A whole record.
ghost use Rattle.std.specs.Prelude.{◌≡◌, ◌+◌, ◌<◌, ◌≤◌, Bool, List as ListOf, length, Ok, Err, IfOk, OnErr};
ghost use Rattle.wg_graph.specs.Ascending.{Ascends, Below};
ghost use Rattle.wg_grammar.specs.Record.{ReadsRecord};
ghost use Rattle.wg_decoder.specs.Stages.Members.{IsRest};
ghost use Rattle.wg_grammar.specs.Errors.{OnFault, OnRefusal};
ghost use Rattle.wg_decoder.specs.Answer.{context_at, known_error, IfFault};
ghost use Rattle.wg_decoder.specs.Remembered.{known_of, Serves};
ghost use Rattle.wg_decoder.specs.Spare.{NoneLonger};

use crate::behind::Behind;
use crate::heads::{Head, read_head};
use crate::members::members;
use crate::spares::lend;
use crate::{DecodeError, Decoded, Spares, Window};
use std::alloc::Global;
use std::convert::Infallible;
use wg_bits::Cursor;
use wg_grammar::{Fault, Field, Kind, ReadError, Source};
use wg_params::Params;

/// The rest of a record that begins at the bit `start` and whose head has been read. Its reference names a page with
/// this list, and leads to this depth.
#[inline(always)]
pub(crate) fn decode_members<S: Source>(
    params: &Params,
    page: u64,
    start: u64,
    head: Head,
    named: &[u64],
    depth: u64,
    spares: &mut Spares,
    source: &mut S,
) -> Result<Decoded, ReadError<Fault, S::Refusal>>
    requires page { page < params.now.nodes }
    requires there { head.reference ≤ params.now.window }
    requires named_ascends { Ascends 0 named.now }
    requires named_below { Below params.now.nodes named.now }
    ensures later { S.later source.old source.new }
    ensures refused { OnRefusal result (S.caused source.old source.new) }
    ensures reads { (bits : ListOf Bool) → S.reads_from source.old bits → IfOk result (λ d.
        IsRest params.now page start head.outdegree head.reference named.now depth bits (S.offset source.old)
        (Ok (record { known = known_of d; end = S.offset source.new }))) }
    ensures fault { (bits : ListOf Bool) → S.reads_from source.old bits → OnFault result (λ e.
        IsRest params.now page start head.outdegree head.reference named.now depth bits (S.offset source.old) (Err e)) }
    ensures depth { IfOk result (λ d. d.depth ≤ depth) }
    ensures ascends { IfOk result (λ d. Ascends 0 d.list) }
    ensures below { IfOk result (λ d. Below params.now.nodes d.list) }
    ensures few { IfOk result (λ d. length d.list ≤ head.outdegree) }
    ensures short { NoneLonger params.now.nodes spares.old → NoneLonger params.now.nodes spares.new }
{
    let mut list = lend(&mut spares.furthest, spares.alloc, head.outdegree as usize);
    if head.outdegree == 0 {
        return Ok(Decoded { list, depth: 0 });
    }
    members(&mut list, spares, params, page, head, named, source)?;
    if (list.as_slice().len() as u64) < head.outdegree {
        return Err(ReadError::Fault(Fault {
            page,
            at: start,
            field: Field::Record,
            kind: Kind::Twice,
        }));
    }
    Ok(Decoded { list, depth })
}

/// The record that comes next from a source, of a page with `arcs_before` arcs before it. The source moves over the
/// record, and may stand anywhere in it if it is refused, memory runs out or a word was refused. Of the pages behind
/// only those count that a reference may name; a [`Window`] keeps them. No list of the spares grows beyond the pages
/// that there are, whatever the answer.
#[inline(always)]
pub fn decode_from<S: Source, B: Behind>(
    params: &Params,
    page: u64,
    arcs_before: u64,
    behind: &B,
    spares: &mut Spares,
    source: &mut S,
) -> Result<Decoded, ReadError<Fault, S::Refusal>>
    requires page { page < params.now.nodes }
    requires before { arcs_before ≤ params.now.arcs }
    requires serves { Serves params.now page (B.pages behind.now) }
    ensures later { S.later source.old source.new }
    ensures refused { OnRefusal result (S.caused source.old source.new) }
    ensures reads { (bits : ListOf Bool) → S.reads_from source.old bits
        → IfOk result (λ d. ReadsRecord params.now (context_at page arcs_before (B.pages behind.now)) bits
        (S.offset source.old) (Ok (record { known = known_of d; end = S.offset source.new }))) }
    ensures fault { (bits : ListOf Bool) → S.reads_from source.old bits
        → OnFault result (λ e. ReadsRecord params.now (context_at page arcs_before (B.pages behind.now)) bits
        (S.offset source.old) (Err e)) }
    ensures depth { IfOk result (λ d. d.depth ≤ page) }
    ensures ascends { IfOk result (λ d. Ascends 0 d.list) }
    ensures below { IfOk result (λ d. Below params.now.nodes d.list) }
    ensures total { IfOk result (λ d. arcs_before + length d.list ≤ params.now.arcs) }
    ensures short { NoneLonger params.now.nodes spares.old → NoneLonger params.now.nodes spares.new }
{
    let start = source.at();
    let head = read_head(params, page, arcs_before, behind, source)?;
    let named = behind.list_at(head.reference);
    let depth = behind.depth_at(page, head.reference);
    decode_members(params, page, start, head, named, depth, spares, source)
}

// Bits in memory refuse no word.
pub(crate) fn error_of(unread: ReadError<Fault, Infallible>) -> DecodeError
    ensures { result ≡ known_error unread }
{
    match unread {
        ReadError::Fault(fault) => DecodeError::Fault(fault),
        ReadError::Memory => DecodeError::Memory,
        ReadError::Refused(never) => match never {},
    }
}

/// The record at the cursor, of a page with `arcs_before` arcs before it. The cursor moves over the record, and stands
/// still if it is refused or memory runs out. Memory is taken as successors come, and not by the outdegree; it
/// costs a word of each field, and a pass over the list that is referred to. Of the window only the pages count that a
/// reference may name.
pub fn decode(
    alloc: Global,
    params: &Params,
    page: u64,
    arcs_before: u64,
    window: &Window,
    cursor: &mut Cursor<'_>,
) -> Result<Decoded, DecodeError>
    requires page { page < params.now.nodes }
    requires before { arcs_before ≤ params.now.arcs }
    requires serves { Serves params.now page window.now.behind }
    ensures bits { cursor.new.bits ≡ cursor.old.bits }
    ensures reads { IfOk result (λ d. ReadsRecord params.now (context_at page arcs_before window.now.behind)
        cursor.old.bits cursor.old.at (Ok (record { known = known_of d; end = cursor.new.at }))) }
    ensures fault { IfFault result (λ e. ReadsRecord params.now (context_at page arcs_before window.now.behind)
        cursor.old.bits cursor.old.at (Err e)) }
    ensures still { OnErr result (cursor.new ≡ cursor.old) }
    ensures ascends { IfOk result (λ d. Ascends 0 d.list) }
    ensures below { IfOk result (λ d. Below params.now.nodes d.list) }
    ensures depth { IfOk result (λ d. d.depth ≤ page) }
    ensures total { IfOk result (λ d. arcs_before + length d.list ≤ params.now.arcs) }
{
    let start = cursor.at();
    let mut spares = Spares::new(alloc);
    match decode_from(params, page, arcs_before, window, &mut spares, cursor) {
        Ok(decoded) => Ok(decoded),
        Err(unread) => {
            cursor.seek_back(start);
            Err(error_of(unread))
        }
    }
}
