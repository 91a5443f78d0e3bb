//! The successors of one page.
ghost use Rattle.std.specs.Prelude.{◌≡◌, ◌+◌, ◌<◌, ◌≤◌, length, Err, IfOk};
ghost use Rattle.wg_outside.specs.declared.limits.TheConstants.{MOST_BYTES};
ghost use Rattle.wg_bits.specs.Bits.{bits_of};
ghost use Rattle.wg_decoder.specs.Chains.{SpotReads};
ghost use Rattle.wg_grammar.specs.Errors.{OnFault, OnRefusal};
ghost use Rattle.wg_memory.specs.Answers.{Falls, HasList};

use crate::placed::{Fall, Placed};
use std::alloc::Global;
use std::marker::Brand;
use std::sync::ledger::{Blank, Ledger};
use wg_bits::{Bits, Cursor};
use wg_grammar::{ArchiveFault, ReadError};
use wg_graph::List;
use wg_params::Params;
use wg_random::{Steps, spot_from};

// The successors of a page, by the records of its chain of references alone; how many records are read is counted by
// nobody.
fn counted<L: Ledger>(
    alloc: Global,
    params: &Params,
    graph: &[u8],
    places: &[u64],
    page: u64,
    blank: Blank,
) -> Result<List, ReadError<ArchiveFault, Fall>>
    requires name { blank.name ≡ L.name }
    requires parts { blank.parts ≡ L.parts }
    requires some { 0 < blank.parts }
    requires short { length graph.now ≤ MOST_BYTES }
    requires many { length places.now ≡ params.now.nodes + 1 }
    requires page { page < params.now.nodes }
    ensures list { IfOk result (HasList params.now (bits_of graph.now) places.now page) }
    ensures fault { OnFault result (λ f. SpotReads params.now (bits_of graph.now) places.now page (Err f)) }
    ensures falls { OnRefusal result (λ r. Falls places.now r.page) }
{
    let mut steps = Steps::<L>::open(blank);
    let mut source = Placed {
        source: Cursor::new(Bits::of(graph), 0),
        places,
    };
    spot_from(alloc, params, page, &mut source, &mut steps)
}

/// The successors of a page of an archive that nobody has checked, or the first fault of its chain of references, or a
/// page whose record would end before it begins. Only the records of this chain are read, and validated. The places
/// tell where each record begins, and last where the last one ends; nobody need have validated them. It holds a number
/// for each page of the chain and a few lists.
pub fn successors(
    alloc: Global,
    params: &Params,
    graph: &[u8],
    places: &[u64],
    page: u64,
) -> Result<List, ReadError<ArchiveFault, Fall>>
    requires short { length graph.now ≤ MOST_BYTES }
    requires many { length places.now ≡ params.now.nodes + 1 }
    requires page { page < params.now.nodes }
    ensures list { IfOk result (HasList params.now (bits_of graph.now) places.now page) }
    ensures fault { OnFault result (λ f. SpotReads params.now (bits_of graph.now) places.now page (Err f)) }
    ensures falls { OnRefusal result (λ r. Falls places.now r.page) }
{
    counted::<Brand>(alloc, params, graph, places, page, Blank::new(1))
}
