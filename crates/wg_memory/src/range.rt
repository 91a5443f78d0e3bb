//! The successors of a range of pages.
ghost use Rattle.std.specs.Prelude.{◌≡◌, ◌+◌, ◌-◌, ◌<◌, ◌≤◌, ◌++◌, ◌∷◌, [], length, get_or, Ok, Err, IfOk, IfErr, OnOk};
ghost use Rattle.std.specs.List.{range_with_len};
ghost use Rattle.wg_outside.specs.declared.limits.TheConstants.{MOST_BYTES};
ghost use Rattle.wg_bits.specs.Bits.{bits_of};
ghost use Rattle.wg_graph.specs.Pieces.{pieces, EndsAt};
ghost use Rattle.wg_grammar.specs.Context.{Known};
ghost use Rattle.wg_grammar.specs.Errors.{OnFault, OnRefusal};
ghost use Rattle.wg_decoder.specs.Chains.{HeadReads, SpotReads};
ghost use Rattle.wg_decoder.specs.Handed.{page_of};
ghost use Rattle.wg_decoder.specs.Remembered.{known_of};
ghost use Rattle.wg_memory.specs.Answers.{Falls};
ghost use Rattle.wg_memory.specs.Many.{AreSpots, StopsAt, end_before};
ghost use Rattle.wg_memory.specs.Range.{AreKnown};

use crate::arrays::{put, put_one};
use crate::many::{Stop, Stopped};
use crate::placed::Fall;
use crate::records::{read_record, reference};
use crate::spot::successors;
use std::alloc::Global;
use wg_decoder::{Decoded, Spares};
use wg_grammar::{ArchiveFault, ReadError};
use wg_graph::List;
use wg_params::Params;

// How many references lead on from a page, one after the other, if it has a list.
fn depth_of(
    params: &Params,
    graph: &[u8],
    places: &[u64],
    page: u64,
) -> Result<u64, ReadError<ArchiveFault, Fall>>
    requires short { length graph.now ≤ MOST_BYTES }
    requires many { length places.now ≡ params.now.nodes + 1 }
    requires page { page < params.now.nodes }
    ensures depth { IfOk result (λ d. (k : Known)
        → SpotReads params.now (bits_of graph.now) places.now page (Ok k) → k.depth ≡ d) }
    ensures fault { OnFault result (λ f. SpotReads params.now (bits_of graph.now) places.now page (Err f)) }
    ensures falls { OnRefusal result (λ r. Falls places.now r.page) }
{
    // tells the limits
    params.nodes();
    let mut depth = 0;
    let mut here = page;
    'down: loop {
        let back = reference(params, graph, places, here)?;
        if back == 0 {
            return Ok(depth);
        }
        here -= back;
        depth += 1;
    }
}

// Where the lists before this index end.
#[inline(always)]
fn start_at(ends: &[u64], index: usize) -> u64
    requires { index ≤ length ends.now }
    ensures { result ≡ end_before ends.now index }
{
    if index == 0 { 0 } else { ends[index - 1] }
}

// The list at this index.
#[inline(always)]
fn list_at<'a>(ends: &'a [u64], lists: &'a [u64], index: usize) -> &'a [u64]
    requires index { index < length ends.now }
    requires whole { EndsAt 0 ends.now (length lists.now) }
    ensures { result.now ≡ get_or (pieces 0 ends.now lists.now) index [] }
{
    let start = start_at(ends, index) as usize;
    let end = ends[index] as usize;
    &lists[start..end]
}

// The record of a page, over the page so many pages back that it refers to.
fn read_over(
    params: &Params,
    graph: &[u8],
    places: &[u64],
    page: u64,
    back: u64,
    named: &[u64],
    depth: u64,
    spares: &mut Spares,
) -> Result<Decoded, ReadError<ArchiveFault, Fall>>
    requires short { length graph.now ≤ MOST_BYTES }
    requires many { length places.now ≡ params.now.nodes + 1 }
    requires page { page < params.now.nodes }
    requires back { 0 < back }
    requires head { HeadReads params.now (bits_of graph.now) places.now page (Ok back) }
    requires known { SpotReads params.now (bits_of graph.now) places.now (page - back)
        (Ok (page_of named.now depth)) }
    ensures list { IfOk result (λ d. SpotReads params.now (bits_of graph.now) places.now page (Ok (known_of d))) }
    ensures fault { OnFault result (λ f. SpotReads params.now (bits_of graph.now) places.now page (Err f)) }
    ensures falls { OnRefusal result (λ r. Falls places.now r.page) }
{
    // tells the limits
    params.nodes();
    read_record(params, graph, places, page, named, depth, spares)
}

// The record of a page that refers so many pages back, where nothing is known yet of that page.
fn read_alone(
    alloc: Global,
    params: &Params,
    graph: &[u8],
    places: &[u64],
    page: u64,
    back: u64,
    spares: &mut Spares,
) -> Result<Decoded, ReadError<ArchiveFault, Fall>>
    requires short { length graph.now ≤ MOST_BYTES }
    requires many { length places.now ≡ params.now.nodes + 1 }
    requires page { page < params.now.nodes }
    requires back { 0 < back }
    requires before { back ≤ page }
    requires head { HeadReads params.now (bits_of graph.now) places.now page (Ok back) }
    ensures list { IfOk result (λ d. SpotReads params.now (bits_of graph.now) places.now page (Ok (known_of d))) }
    ensures fault { OnFault result (λ f. SpotReads params.now (bits_of graph.now) places.now page (Err f)) }
    ensures falls { OnRefusal result (λ r. Falls places.now r.page) }
{
    let depth = depth_of(params, graph, places, page - back)?;
    let list = successors(alloc, params, graph, places, page - back)?;
    let named = list.as_slice();
    read_over(params, graph, places, page, back, named, depth, spares)
}

// The page after those that were read of a range: their lists end there, and have these depths. A page that comes
// before the range is read by its chain of references.
fn read_page(
    alloc: Global,
    params: &Params,
    graph: &[u8],
    places: &[u64],
    first: u64,
    ends: &[u64],
    lists: &[u64],
    depths: &[u64],
    spares: &mut Spares,
) -> Result<Decoded, ReadError<ArchiveFault, Fall>>
    requires short { length graph.now ≤ MOST_BYTES }
    requires many { length places.now ≡ params.now.nodes + 1 }
    requires page { first + length ends.now < params.now.nodes }
    requires whole { EndsAt 0 ends.now (length lists.now) }
    requires known { AreKnown params.now (bits_of graph.now) places.now first (pieces 0 ends.now lists.now)
        depths.now }
    ensures list { IfOk result (λ d. SpotReads params.now (bits_of graph.now) places.now (first + length ends.now)
        (Ok (known_of d))) }
    ensures fault { OnFault result (λ f. SpotReads params.now (bits_of graph.now) places.now
        (first + length ends.now) (Err f)) }
    ensures falls { OnRefusal result (λ r. Falls places.now r.page) }
{
    let page = first + ends.len() as u64;
    let back = reference(params, graph, places, page)?;
    if back == 0 {
        return read_record(params, graph, places, page, &[], 0, spares);
    }
    if back > ends.len() as u64 {
        return read_alone(alloc, params, graph, places, page, back, spares);
    }
    let index = ends.len() - back as usize;
    let named = list_at(ends, lists, index);
    read_over(
        params,
        graph,
        places,
        page,
        back,
        named,
        depths[index],
        spares,
    )
}

// The page after those that were read of a range, if there is one, and if there is room for its list; its depth is
// put behind theirs.
fn next_page(
    alloc: Global,
    params: &Params,
    graph: &[u8],
    places: &[u64],
    first: u64,
    ends: &[u64],
    lists: &[u64],
    room: usize,
    depths: &mut List,
    spares: &mut Spares,
) -> Result<List, Stop>
    requires short { length graph.now ≤ MOST_BYTES }
    requires many { length places.now ≡ params.now.nodes + 1 }
    requires whole { EndsAt 0 ends.now (length lists.now) }
    requires known { AreKnown params.now (bits_of graph.now) places.now first (pieces 0 ends.now lists.now)
        depths.old }
    ensures list { IfOk result (λ list. length list ≤ room) }
    ensures known { IfOk result (λ list. AreKnown params.now (bits_of graph.now) places.now first
        (pieces 0 ends.now lists.now ++ list ∷ []) depths.new) }
    ensures stops { IfErr result (StopsAt params.now (bits_of graph.now) places.now (first + length ends.now)
        (length lists.now) (length lists.now + room)) }
{
    if params.nodes() <= first || params.nodes() - first <= ends.len() as u64 {
        return Err(Stop::NoPage);
    }
    let behind = depths.as_slice();
    match read_page(
        alloc, params, graph, places, first, ends, lists, behind, spares,
    ) {
        Ok(read) => {
            if read.list.as_slice().len() > room {
                return Err(Stop::NoRoom);
            }
            match depths.push(read.depth) {
                Ok(()) => Ok(read.list),
                Err(_) => Err(Stop::Unread(ReadError::Memory)),
            }
        }
        Err(error) => Err(Stop::Unread(error)),
    }
}

/// The successors of the pages from `first` on, as many as `ends` has room for, as [`successors`] tells them: one list
/// after the other in `out`, and for each page where its list ends, in `ends`. It stops at the first page that is not
/// read. Each record of the range is decoded once, over the lists of the range that stand in `out` already; a page
/// before the range is read by its chain of references, each time that a record of the range refers to it. It holds a
/// number for each page of the range and a few lists.
pub fn read_range(
    alloc: Global,
    params: &Params,
    graph: &[u8],
    places: &[u64],
    first: u64,
    ends: &mut [u64],
    out: &mut [u64],
) -> Result<(), Stopped>
    requires short { length graph.now ≤ MOST_BYTES }
    requires many { length places.now ≡ params.now.nodes + 1 }
    ensures all { OnOk result (AreSpots params.now (bits_of graph.now) places.now
        (range_with_len first (length ends.old)) (length ends.old) ends.new out.new) }
    ensures some { IfErr result (λ s. AreSpots params.now (bits_of graph.now) places.now
        (range_with_len first (length ends.old)) s.done ends.new out.new) }
    ensures within { IfErr result (λ s. s.done < length ends.old) }
    ensures stops { IfErr result (λ s. StopsAt params.now (bits_of graph.now) places.now (first + s.done)
        (end_before ends.new s.done) (length out.new) s.why) }
{
    let mut spares = Spares::new(alloc);
    let mut depths = List::new(alloc);
    let mut used = 0;
    for index in 0..ends.len() {
        let room = out.len() - used;
        let read = next_page(
            alloc,
            params,
            graph,
            places,
            first,
            &ends[..index],
            &out[..used],
            room,
            &mut depths,
            &mut spares,
        );
        match read {
            Ok(list) => {
                used = put(out, used, list.as_slice());
                put_one(ends, index, used as u64);
                spares.take_back(list);
            }
            Err(why) => {
                return Err(Stopped {
                    done: index as u64,
                    why,
                });
            }
        }
    }
    Ok(())
}
