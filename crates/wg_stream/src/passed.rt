//! One pass over all records of an archive.
ghost use Rattle.std.specs.Prelude.{◌≡◌, ◌≤◌, [], Err, IfOk, length};
ghost use Rattle.wg_outside.specs.declared.limits.TheConstants.{MOST_BYTES};
ghost use Rattle.wg_bits.specs.Bits.{bits_of};
ghost use Rattle.wg_grammar.specs.Archive.{ReadsGraph};
ghost use Rattle.wg_grammar.specs.Errors.{OnFault};
ghost use Rattle.wg_stream.specs.Prefix.{AreBehind};
ghost use Rattle.wg_stream.specs.Sweeping.{PassFinds};

use crate::Pages;
use std::alloc::Global;
use std::convert::Infallible;
use wg_bits::{Bits, Cursor};
use wg_grammar::{ArchiveFault, ReadError};
use wg_offsets::Offsets;
use wg_params::Params;

/// What a pass finds.
#[derive(Debug, Drop)]
pub struct Passed {
    /// The offset of each record, and last the end of the last one.
    pub offsets: Offsets,
    /// The greatest outdegree, 0 if there are no pages.
    pub greatest: u64,
}

/// Validates the records of all pages, the tail and the number of arcs. It takes the time of all bits and lists, holds
/// the lists of a window while it runs, and takes 8 bytes a page, as the records come.
pub fn pass(
    alloc: Global,
    bytes: &[u8],
    params: Params,
) -> Result<Passed, ReadError<ArchiveFault, Infallible>>
    requires { length bytes.now ≤ MOST_BYTES }
    ensures finds { IfOk result (λ found. PassFinds params (bits_of bytes.now) found.offsets found.greatest) }
    ensures fault { OnFault result (λ f. ReadsGraph params (bits_of bytes.now) (Err f)) }
{
    let nodes = params.nodes();
    let mut source = Cursor::new(Bits::of(bytes), 0);
    let mut pages = Pages::new(alloc, params);
    let mut offsets = Offsets::new(alloc);
    let greatest = pass_on(nodes, &mut source, &mut pages, &mut offsets)?;
    Ok(Passed { offsets, greatest })
}

// Validates the records from the first page on, and what follows them, if no offset is kept yet; it gives the greatest
// outdegree.
fn pass_on(
    nodes: u64,
    source: &mut Cursor<'_>,
    pages: &mut Pages,
    offsets: &mut Offsets,
) -> Result<u64, ReadError<ArchiveFault, Infallible>>
    requires nodes { nodes ≡ pages.old.params.nodes }
    requires none { pages.old.page ≡ 0 }
    requires start { source.old.at ≡ 0 }
    requires empty { offsets.old ≡ [] }
    requires behind { AreBehind source.old.bits pages.old 0 [] }
    ensures finds { IfOk result (λ greatest. PassFinds pages.old.params source.old.bits offsets.new greatest) }
    ensures fault { OnFault result (λ f. ReadsGraph pages.old.params source.old.bits (Err f)) }
{
    let mut greatest = 0;
    offsets.push(0)?;
    for _page in 0..nodes {
        pages.next(source)?;
        offsets.push(source.at())?;
        greatest = greatest.max(pages.list().len() as u64);
    }
    pages.finish(source)?;
    Ok(greatest)
}
