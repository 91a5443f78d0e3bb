//! Single records of an archive that was not checked.
ghost use Rattle.std.specs.Prelude.{◌≡◌, ◌≢◌, ◌+◌, ◌-◌, ◌<◌, ◌≤◌, ℕ, Bool, List as ListOf, length, Ok, Err, IfOk, IfErr, OnOk};
ghost use Rattle.wg_graph.specs.Ascending.{Ascends, Below};
ghost use Rattle.wg_grammar.specs.declared.fault.Field.{Field};
ghost use Rattle.wg_grammar.specs.declared.fault.Kind.{Kind};
ghost use Rattle.wg_grammar.specs.declared.fault.ArchiveFault.{ArchiveFault};
ghost use Rattle.wg_grammar.specs.Context.{Known};
ghost use Rattle.wg_decoder.specs.Remembered.{known_of};
ghost use Rattle.wg_decoder.specs.Chains.{start_of, HeadReads, RecordReads, IsHeadFault};
ghost use Rattle.wg_grammar.specs.Errors.{OnFault, OnRefusal};

use crate::Located;
use wg_decoder::{Decoded, Spares, decode_over, head_from};
use wg_grammar::{ArchiveFault, Fault, Field, Kind, ReadError};
use wg_offsets::Extent;
use wg_params::Params;

// Goes to the record of a page, and tells where it lies. If that begins past the last bit, its outdegree is cut.
fn go_to_record<S: Located>(
    page: u64,
    source: &mut S,
) -> Result<Extent, ReadError<ArchiveFault, S::Refusal>>
    requires { page < S.records source.old }
    ensures reached { S.reached source.old source.new }
    ensures refused { OnRefusal result (S.caused source.old source.new) }
    ensures onward { IfOk result (λ e. e.start ≤ e.end) }
    ensures at { IfOk result (λ e. S.offset source.new ≡ e.start) }
    ensures lies { (offsets : ListOf ℕ) → S.lies_by source.old offsets
        → IfOk result (λ e. (e.start ≡ start_of offsets page) × (e.end ≡ start_of offsets (page + 1))) }
    ensures past { (bits : ListOf Bool) (offsets : ListOf ℕ) → S.reads_from source.old bits
        → S.lies_by source.old offsets
        → OnFault result (λ f. (length bits ≤ start_of offsets page) × (f ≡ ArchiveFault.Record (record {
          page = page;
          at = start_of offsets page;
          field = Field.Outdegree;
          kind = Kind.Cut;
        }))) }
{
    let extent = match source.extent(page) {
        Ok(extent) => extent,
        Err(refusal) => return Err(ReadError::Refused(refusal)),
    };
    match source.go_to(extent.start) {
        Ok(true) => Ok(extent),
        Ok(false) => Err(ReadError::Fault(ArchiveFault::Record(Fault {
            page,
            at: extent.start,
            field: Field::Outdegree,
            kind: Kind::Cut,
        }))),
        Err(refusal) => Err(ReadError::Refused(refusal)),
    }
}

/// How many pages back the record of a page refers; 0 for none. Its head alone is read and validated.
pub fn reference<S: Located>(
    params: &Params,
    page: u64,
    source: &mut S,
) -> Result<u64, ReadError<ArchiveFault, S::Refusal>>
    requires many { S.records source.old ≡ params.now.nodes }
    requires page { page < params.now.nodes }
    ensures reached { S.reached source.old source.new }
    ensures refused { OnRefusal result (S.caused source.old source.new) }
    ensures reads { (bits : ListOf Bool) (offsets : ListOf ℕ) → S.reads_from source.old bits
        → S.lies_by source.old offsets
        → IfOk result (λ r. HeadReads params.now bits offsets page (Ok r)) }
    ensures fault { (bits : ListOf Bool) (offsets : ListOf ℕ) → S.reads_from source.old bits
        → S.lies_by source.old offsets → OnFault result (IsHeadFault params.now bits offsets page) }
    ensures near { IfOk result (λ r. r ≤ page) }
{
    go_to_record(page, source)?;
    let head = head_from(params, page, 0, source)?;
    Ok(head.reference)
}

// Compares where the record of a page ends with where the next one begins.
fn compare(extent: Extent, page: u64, end: u64) -> Result<(), ArchiveFault>
    requires found { extent.start ≤ end }
    requires stored { extent.start ≤ extent.end }
    ensures same { OnOk result (end ≡ extent.end) }
    ensures other { IfErr result (λ f. (end ≢ extent.end)
        × (f ≡ ArchiveFault.Length page (end - extent.start) (extent.end - extent.start))) }
{
    if end == extent.end {
        return Ok(());
    }
    Err(ArchiveFault::Length {
        page,
        found: end - extent.start,
        stored: extent.end - extent.start,
    })
}

/// The record of a page. It refers to a page with this list and depth, or to none.
pub fn read_record<S: Located>(
    params: &Params,
    page: u64,
    named: &[u64],
    depth: u64,
    spares: &mut Spares,
    source: &mut S,
) -> Result<Decoded, ReadError<ArchiveFault, S::Refusal>>
    requires many { S.records source.old ≡ params.now.nodes }
    requires page { page < params.now.nodes }
    requires ascends { Ascends 0 named.now }
    requires below { Below params.now.nodes named.now }
    requires depth { 0 < page → depth < page }
    ensures reached { S.reached source.old source.new }
    ensures refused { OnRefusal result (S.caused source.old source.new) }
    ensures reads { (bits : ListOf Bool) (offsets : ListOf ℕ) → S.reads_from source.old bits
        → S.lies_by source.old offsets
        → IfOk result (λ d. let below : Known = record { list = named.now; depth = depth } in
        RecordReads params.now bits offsets page below (Ok (known_of d))) }
    ensures fault { (bits : ListOf Bool) (offsets : ListOf ℕ) → S.reads_from source.old bits
        → S.lies_by source.old offsets
        → OnFault result (λ f. let below : Known = record { list = named.now; depth = depth } in
        RecordReads params.now bits offsets page below (Err f)) }
    ensures ascends { IfOk result (λ d. Ascends 0 d.list) }
    ensures below { IfOk result (λ d. Below params.now.nodes d.list) }
    ensures deep { IfOk result (λ d. d.depth ≤ page) }
{
    let extent = go_to_record(page, source)?;
    let decoded = decode_over(params, page, 0, named, depth, spares, source)?;
    match compare(extent, page, source.at()) {
        Ok(()) => Ok(decoded),
        Err(fault) => Err(ReadError::Fault(fault)),
    }
}
