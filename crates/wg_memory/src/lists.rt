//! All lists of an archive.
ghost use Rattle.std.specs.Prelude.{◌≡◌, ◌≤◌, [], Err, length, OnOk};
ghost use Rattle.wg_outside.specs.declared.limits.TheConstants.{MOST_BYTES};
ghost use Rattle.wg_bits.specs.Bits.{bits_of};
ghost use Rattle.wg_grammar.specs.Archive.{ReadsGraph};
ghost use Rattle.wg_grammar.specs.Errors.{OnFault};
ghost use Rattle.wg_stream.specs.Prefix.{AreBehind};
ghost use Rattle.wg_memory.specs.Answers.{AreLists};

use crate::arrays::{put, put_one};
use std::alloc::Global;
use std::convert::Infallible;
use wg_bits::{Bits, Cursor};
use wg_grammar::{ArchiveFault, ReadError};
use wg_params::Params;
use wg_stream::Pages;

// Reads the records of all pages into the arrays, and checks what follows them.
fn lists_on(
    source: &mut Cursor<'_>,
    pages: &mut Pages,
    ends: &mut [u64],
    all: &mut [u64],
) -> Result<(), ReadError<ArchiveFault, Infallible>>
    requires none { pages.old.page ≡ 0 }
    requires no_arcs { pages.old.arcs ≡ 0 }
    requires start { source.old.at ≡ 0 }
    requires behind { AreBehind source.old.bits pages.old 0 [] }
    requires ends { length ends.old ≡ pages.old.params.nodes }
    requires all { length all.old ≡ pages.old.params.arcs }
    ensures lists { OnOk result (AreLists pages.old.params source.old.bits ends.new all.new) }
    ensures fault { OnFault result (λ f. ReadsGraph pages.old.params source.old.bits (Err f)) }
{
    let mut arcs = 0;
    for page in 0..ends.len() {
        pages.next(source)?;
        arcs = put(all, arcs, pages.list());
        put_one(ends, page, arcs as u64);
    }
    pages.finish(source)
}

/// Reads and validates a whole graph file into two arrays: the successors of page 0, those of page 1 and so on, one
/// after the other, in `all`; and for each page where its successors end, in `ends`. If the file has a fault, the first
/// one is the answer, and what stands in the arrays has no meaning. It holds the lists of a window.
pub fn read_lists(
    alloc: Global,
    params: Params,
    graph: &[u8],
    ends: &mut [u64],
    all: &mut [u64],
) -> Result<(), ReadError<ArchiveFault, Infallible>>
    requires short { length graph.now ≤ MOST_BYTES }
    requires ends { length ends.old ≡ params.nodes }
    requires all { length all.old ≡ params.arcs }
    ensures lists { OnOk result (AreLists params (bits_of graph.now) ends.new all.new) }
    ensures fault { OnFault result (λ f. ReadsGraph params (bits_of graph.now) (Err f)) }
{
    let mut source = Cursor::new(Bits::of(graph), 0);
    let mut pages = Pages::new(alloc, params);
    lists_on(&mut source, &mut pages, ends, all)
}
