//! The list of a page of an archive that was not checked.
ghost use Rattle.std.specs.Prelude.{◌≡◌, ◌+◌, ◌-◌, ◌<◌, ◌≤◌, ℕ, Bool, List as ListOf, length, drop, get_or, Some, Ok, Err, IfOk, IfErr, OnOk};
ghost use Rattle.wg_outside.specs.declared.limits.TheConstants.{MOST_BYTES};
ghost use Rattle.wg_bits.specs.Bits.{bits_of};
ghost use Rattle.wg_grammar.specs.Context.{Known};
ghost use Rattle.wg_decoder.specs.Chains.{ChainReads};
ghost use Rattle.wg_grammar.specs.Errors.{OnFault, OnRefusal};
ghost use Rattle.wg_random.specs.Chain.{ArePages, Fall};
ghost use Rattle.wg_random.specs.Spot.{ChainAnswers, IsWholeChain, SpotAnswers};

use crate::located::Indexed;
use crate::unchecked::{read_record, reference};
use crate::{Located, SpotError, Steps};
use std::alloc::Global;
use std::mem::replace;
use std::sync::ledger::Ledger;
use wg_bits::{Bits, Cursor};
use wg_decoder::Spares;
use wg_grammar::{ArchiveFault, ReadError};
use wg_graph::List;
use wg_offsets::Offsets;
use wg_params::Params;

// Follows the references from page `x`, validates each head, and answers the pages of this chain, `x` first.
fn chain<L: Ledger, S: Located>(
    alloc: Global,
    params: &Params,
    x: u64,
    source: &mut S,
    steps: &mut Steps<L>,
) -> Result<List, ReadError<ArchiveFault, S::Refusal>>
    requires many { S.records source.old ≡ params.now.nodes }
    requires page { x < params.now.nodes }
    ensures reached { S.reached source.old source.new }
    ensures refused { OnRefusal result (S.caused source.old source.new) }
    ensures some { IfOk result (λ chain. 0 < length chain) }
    ensures pages { IfOk result (λ chain. ArePages params.now.nodes chain (length chain - 1)) }
    ensures fall { IfOk result Fall }
    ensures chain { (bits : ListOf Bool) (offsets : ListOf ℕ) → S.reads_from source.old bits
        → S.lies_by source.old offsets
        → IfOk result (IsWholeChain params.now bits offsets x) }
    ensures ticks { IfOk result (λ chain. steps.new ≡ steps.old + length chain) }
    ensures error { (bits : ListOf Bool) (offsets : ListOf ℕ) → S.reads_from source.old bits
        → S.lies_by source.old offsets
        → IfErr result (λ e. ChainAnswers params.now bits offsets x steps.old steps.new (Err e)) }
{
    let mut chain = List::new(alloc);
    chain.push(x)?;
    let mut page = x;
    'down: loop {
        steps.tick();
        let back = reference(params, page, source)?;
        if back == 0 {
            return Ok(chain);
        }
        page -= back;
        chain.push(page)?;
    }
}

// The list of the first page of a chain. The records of its pages are validated from the last one up, each over the one
// before.
fn climb<S: Located>(
    alloc: Global,
    params: &Params,
    chain: &[u64],
    source: &mut S,
) -> Result<List, ReadError<ArchiveFault, S::Refusal>>
    requires many { S.records source.old ≡ params.now.nodes }
    requires some { 0 < length chain.now }
    requires pages { ArePages params.now.nodes chain.now (length chain.now - 1) }
    requires fall { Fall chain.now }
    ensures reached { S.reached source.old source.new }
    ensures refused { OnRefusal result (S.caused source.old source.new) }
    ensures reads { (bits : ListOf Bool) (offsets : ListOf ℕ) → S.reads_from source.old bits
        → S.lies_by source.old offsets
        → (x : ℕ) → IsWholeChain params.now bits offsets x chain.now → IfOk result (λ list. (k : Known)
        × ChainReads params.now bits offsets (get_or chain.now 0 0) (drop 1 chain.now) (Ok k)
        × (list ≡ k.list)) }
    ensures fault { (bits : ListOf Bool) (offsets : ListOf ℕ) → S.reads_from source.old bits
        → S.lies_by source.old offsets
        → (x : ℕ) → IsWholeChain params.now bits offsets x chain.now → OnFault result (λ f.
        ChainReads params.now bits offsets (get_or chain.now 0 0) (drop 1 chain.now) (Err f)) }
{
    let mut spares = Spares::new(alloc);
    let mut left = chain.len() - 1;
    let mut known = read_record(params, chain[left], &[], 0, &mut spares, source)?;
    'up: while left > 0 {
        left -= 1;
        let below = known.list.as_slice();
        let above = read_record(params, chain[left], below, known.depth, &mut spares, source)?;
        spares.take_back(replace(&mut known, above).list);
    }
    Ok(known.list)
}

/// The successors of a page of an archive that was not checked, or the first fault that its chain of references shows.
/// Of the source the records of this chain are read and nothing else.
///
/// The chain begins with the page. The heads of its pages are validated first, from the page down, each on its own:
/// with no limit on chains, and as though no outdegrees came before it. A record that begins past the last bit is cut
/// at its outdegree. Then the whole records are validated, from the last page of the chain up, each against the list
/// and the depth of the page that it refers to; a proper record must end where the offsets say that the next one
/// begins. The first fault in this order is answered. No other record is read, nor the tail, nor the number of arcs; if
/// the archive is accepted, the list is that of its graph.
///
/// Each page of the chain is counted by a tick, and the source is asked twice where its record lies. Beside that it
/// takes time in proportion to the words and the lists of these records, and holds a number for each page of the chain
/// and a few lists. Memory is taken as pages and successors come.
pub fn spot_from<L: Ledger, S: Located>(
    alloc: Global,
    params: &Params,
    page: u64,
    source: &mut S,
    steps: &mut Steps<L>,
) -> Result<List, ReadError<ArchiveFault, S::Refusal>>
    requires many { S.records source.old ≡ params.now.nodes }
    requires page { page < params.now.nodes }
    ensures reached { S.reached source.old source.new }
    ensures refused { OnRefusal result (S.caused source.old source.new) }
    ensures answer { (bits : ListOf Bool) (offsets : ListOf ℕ) → S.reads_from source.old bits
        → S.lies_by source.old offsets
        → ChainAnswers params.now bits offsets page steps.old steps.new result }
{
    let chain = chain(alloc, params, page, source, steps)?;
    climb(alloc, params, chain.as_slice(), source)
}

/// Like [`spot_from`], for a graph file in memory, where a page that does not exist is an error. If chains have a
/// limit, a page with a list has no more references than that; one with a fault may have more, since the heads are
/// validated with no limit.
pub fn spot<L: Ledger>(
    alloc: Global,
    bytes: &[u8],
    offsets: &Offsets,
    params: &Params,
    page: u64,
    steps: &mut Steps<L>,
) -> Result<List, SpotError>
    requires short { length bytes.now ≤ MOST_BYTES }
    requires many { length offsets.now ≡ params.now.nodes + 1 }
    ensures answer { SpotAnswers params.now (bits_of bytes.now) offsets.now page steps.old steps.new result }
    ensures few { (limit : ℕ) → params.now.chain ≡ Some limit
        → OnOk result (steps.new ≤ steps.old + limit + 1) }
{
    if page >= params.nodes() {
        return Err(SpotError::NoPage);
    }
    let mut source = Indexed {
        source: Cursor::new(Bits::of(bytes), 0),
        offsets,
    };
    match spot_from(alloc, params, page, &mut source, steps) {
        Ok(list) => Ok(list),
        Err(error) => match error {
            ReadError::Fault(fault) => Err(SpotError::Archive(fault)),
            ReadError::Memory => Err(SpotError::Memory),
            ReadError::Refused(never) => match never {},
        },
    }
}
