//! Single records in memory.
ghost use Rattle.std.specs.Prelude.{◌≡◌, ◌+◌, ◌<◌, ◌≤◌, length, Ok, Err, IfOk};
ghost use Rattle.wg_outside.specs.declared.limits.TheConstants.{MOST_BYTES};
ghost use Rattle.wg_bits.specs.Bits.{bits_of};
ghost use Rattle.wg_graph.specs.Ascending.{Ascends, Below};
ghost use Rattle.wg_grammar.specs.declared.fault.Field.{Field};
ghost use Rattle.wg_grammar.specs.declared.fault.Kind.{Kind};
ghost use Rattle.wg_grammar.specs.declared.fault.ArchiveFault.{ArchiveFault};
ghost use Rattle.wg_grammar.specs.Context.{Known};
ghost use Rattle.wg_grammar.specs.Errors.{OnFault, OnRefusal};
ghost use Rattle.wg_decoder.specs.Chains.{start_of, HeadReads, RecordReads, IsHeadFault};
ghost use Rattle.wg_decoder.specs.Handed.{page_of};
ghost use Rattle.wg_decoder.specs.Remembered.{known_of};
ghost use Rattle.wg_memory.specs.Answers.{Falls};

use crate::placed::{Fall, Placed};
use wg_bits::{Bits, Cursor};
use wg_decoder::{Decoded, Spares, decode_over, head_from};
use wg_grammar::{ArchiveFault, Fault, Field, Kind, ReadError, Source};
use wg_params::Params;
use wg_source::Seek;

// The bits from the record of a page on. If it begins past the last bit, its outdegree is cut.
fn at_record<'a>(
    graph: &'a [u8],
    places: &'a [u64],
    page: u64,
) -> Result<Placed<'a>, ReadError<ArchiveFault, Fall>>
    requires short { length graph.now ≤ MOST_BYTES }
    requires page { page + 1 < length places.now }
    ensures bits { IfOk result (λ s. s.source.bits ≡ bits_of graph.now) }
    ensures at { IfOk result (λ s. s.source.at ≡ start_of places.now page) }
    ensures places { IfOk result (λ s. s.places.now ≡ places.now) }
    ensures onward { IfOk result (λ s. start_of places.now page ≤ start_of places.now (page + 1)) }
    ensures past { OnFault result (λ f. (length (bits_of graph.now) ≤ start_of places.now page)
        × (f ≡ ArchiveFault.Record (record {
          page = page;
          at = start_of places.now page;
          field = Field.Outdegree;
          kind = Kind.Cut;
        }))) }
    ensures falls { OnRefusal result (λ r. Falls places.now r.page) }
{
    let start = places[page as usize];
    if places[page as usize + 1] < start {
        return Err(ReadError::Refused(Fall { page }));
    }
    let mut source = Placed {
        source: Cursor::new(Bits::of(graph), 0),
        places,
    };
    match source.go_to(start) {
        Ok(true) => Ok(source),
        Ok(false) => Err(ReadError::Fault(ArchiveFault::Record(Fault {
            page,
            at: start,
            field: Field::Outdegree,
            kind: Kind::Cut,
        }))),
        Err(refusal) => Err(ReadError::Refused(refusal)),
    }
}

/// How many pages back the record of a page refers; 0 for none. Its head alone is read and validated.
pub fn reference(
    params: &Params,
    graph: &[u8],
    places: &[u64],
    page: u64,
) -> Result<u64, ReadError<ArchiveFault, Fall>>
    requires short { length graph.now ≤ MOST_BYTES }
    requires many { length places.now ≡ params.now.nodes + 1 }
    requires page { page < params.now.nodes }
    ensures reads { IfOk result (λ r. HeadReads params.now (bits_of graph.now) places.now page (Ok r)) }
    ensures fault { OnFault result (IsHeadFault params.now (bits_of graph.now) places.now page) }
    ensures falls { OnRefusal result (λ r. Falls places.now r.page) }
    ensures near { IfOk result (λ r. r ≤ page) }
{
    let mut source = at_record(graph, places, page)?;
    let head = head_from(params, page, 0, &mut source)?;
    Ok(head.reference)
}

/// The record of a page. It refers to a page with this list and depth, or to none.
pub fn read_record(
    params: &Params,
    graph: &[u8],
    places: &[u64],
    page: u64,
    named: &[u64],
    depth: u64,
    spares: &mut Spares,
) -> Result<Decoded, ReadError<ArchiveFault, Fall>>
    requires short { length graph.now ≤ MOST_BYTES }
    requires many { length places.now ≡ params.now.nodes + 1 }
    requires page { page < params.now.nodes }
    requires ascends { Ascends 0 named.now }
    requires below { Below params.now.nodes named.now }
    requires depth { 0 < page → depth < page }
    ensures reads { IfOk result (λ d. RecordReads params.now (bits_of graph.now) places.now page
        (page_of named.now depth) (Ok (known_of d))) }
    ensures fault { OnFault result (λ f. RecordReads params.now (bits_of graph.now) places.now page
        (page_of named.now depth) (Err f)) }
    ensures falls { OnRefusal result (λ r. Falls places.now r.page) }
{
    let mut source = at_record(graph, places, page)?;
    let decoded = decode_over(params, page, 0, named, depth, spares, &mut source)?;
    let start = places[page as usize];
    let next = places[page as usize + 1];
    let end = source.at();
    if end != next {
        return Err(ReadError::Fault(ArchiveFault::Length {
            page,
            found: end - start,
            stored: next - start,
        }));
    }
    Ok(decoded)
}
