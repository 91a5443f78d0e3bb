//! The outdegrees of all pages.
ghost use Rattle.std.specs.Prelude.{◌≡◌, ◌≤◌, [], Err, length, OnOk};
ghost use Rattle.wg_outside.specs.declared.limits.TheConstants.{MOST_BYTES};
ghost use Rattle.wg_bits.specs.Bits.{bits_of};
ghost use Rattle.wg_grammar.specs.Archive.{ReadsGraph};
ghost use Rattle.wg_grammar.specs.Errors.{OnFault};
ghost use Rattle.wg_stream.specs.Prefix.{AreBehind};
ghost use Rattle.wg_memory.specs.Checking.{AreOutdegrees};

use crate::arrays::put_one;
use std::alloc::Global;
use std::convert::Infallible;
use wg_bits::{Bits, Cursor};
use wg_grammar::{ArchiveFault, ReadError};
use wg_params::Params;
use wg_stream::Pages;

// Reads the records of all pages, and checks what follows them.
fn outdegrees_on(
    source: &mut Cursor<'_>,
    pages: &mut Pages,
    outdegrees: &mut [u64],
) -> Result<(), ReadError<ArchiveFault, Infallible>>
    requires none { pages.old.page ≡ 0 }
    requires start { source.old.at ≡ 0 }
    requires behind { AreBehind source.old.bits pages.old 0 [] }
    requires many { length outdegrees.old ≡ pages.old.params.nodes }
    ensures outdegrees { OnOk result (AreOutdegrees pages.old.params source.old.bits outdegrees.new) }
    ensures fault { OnFault result (λ f. ReadsGraph pages.old.params source.old.bits (Err f)) }
{
    for page in 0..outdegrees.len() {
        pages.next(source)?;
        put_one(outdegrees, page, pages.list().len() as u64);
    }
    pages.finish(source)
}

/// Reads and validates a whole graph file, and puts the outdegree of each page into an array. If the file has a fault,
/// the first one is the answer, and what stands in the array has no meaning. It holds the lists of a window.
pub fn read_outdegrees(
    alloc: Global,
    params: Params,
    graph: &[u8],
    outdegrees: &mut [u64],
) -> Result<(), ReadError<ArchiveFault, Infallible>>
    requires short { length graph.now ≤ MOST_BYTES }
    requires many { length outdegrees.old ≡ params.nodes }
    ensures outdegrees { OnOk result (AreOutdegrees params (bits_of graph.now) outdegrees.new) }
    ensures fault { OnFault result (λ f. ReadsGraph params (bits_of graph.now) (Err f)) }
{
    let mut source = Cursor::new(Bits::of(graph), 0);
    let mut pages = Pages::new(alloc, params);
    outdegrees_on(&mut source, &mut pages, outdegrees)
}
