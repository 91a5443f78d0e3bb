//! One pass over the records of a graph file, which validates them and counts the arcs that lead to each page.
ghost use Rattle.std.specs.Prelude.{◌≡◌, ◌≤◌, [], All, Err, IfOk, length};
ghost use Rattle.wg_outside.specs.declared.limits.TheConstants.{MOST_BYTES};
ghost use Rattle.wg_bits.specs.Bits.{bits_of};
ghost use Rattle.wg_grammar.specs.Archive.{ReadsGraph};
ghost use Rattle.wg_params.specs.declared.limits.TheConstants.{MOST_PAGES};
ghost use Rattle.wg_grammar.specs.Errors.{OnFault};
ghost use Rattle.wg_stream.specs.Prefix.{AreBehind};
ghost use Rattle.wg_transforms.specs.Counting.{CountsArcs};

use std::alloc::Global;
use std::convert::Infallible;
use wg_bits::{Bits, Cursor};
use wg_grammar::{ArchiveFault, ReadError};
use wg_params::Params;
use wg_stream::Pages;
use wg_transpose::count_arcs;

/// What a pass finds.
#[derive(Drop)]
pub(crate) struct Counted {
    /// How many arcs lead to each page.
    pub(crate) counts: Vec<u64>,
    /// The greatest outdegree, 0 if there are no pages.
    pub(crate) greatest: u64,
}

/// Validates the records of all pages, the tail and the number of arcs, as [`wg_stream::pass`] does, and counts the
/// arcs at their targets. It holds the lists of a window while it runs, and takes 8 bytes a page at once.
pub(crate) fn count_records(
    alloc: Global,
    bytes: &[u8],
    params: Params,
) -> Result<Counted, ReadError<ArchiveFault, Infallible>>
    requires { length bytes.now ≤ MOST_BYTES }
    ensures finds { IfOk result (λ found. CountsArcs params (bits_of bytes.now) found.greatest found.counts.items) }
    ensures fault { OnFault result (λ f. ReadsGraph params (bits_of bytes.now) (Err f)) }
{
    let nodes = params.nodes();
    let mut counts = vec![in alloc; 0; nodes as usize]?;
    let mut source = Cursor::new(Bits::of(bytes), 0);
    let mut pages = Pages::new(alloc, params);
    let greatest = count_on(nodes, &mut source, &mut pages, &mut counts)?;
    Ok(Counted { counts, greatest })
}

// Validates the records from the first page on, and what follows them, and counts the arcs at their targets, if none is
// counted yet; it gives the greatest outdegree.
fn count_on(
    nodes: u64,
    source: &mut Cursor<'_>,
    pages: &mut Pages,
    counts: &mut [u64],
) -> Result<u64, ReadError<ArchiveFault, Infallible>>
    requires nodes { nodes ≡ pages.old.params.nodes }
    requires few { nodes ≤ MOST_PAGES }
    requires none { pages.old.page ≡ 0 }
    requires start { source.old.at ≡ 0 }
    requires each { length counts.old ≡ nodes }
    requires zeros { All (λ count. count ≡ 0) counts.old }
    requires behind { AreBehind source.old.bits pages.old 0 [] }
    ensures finds { IfOk result (λ greatest. CountsArcs pages.old.params source.old.bits greatest counts.new) }
    ensures fault { OnFault result (λ f. ReadsGraph pages.old.params source.old.bits (Err f)) }
{
    let mut greatest = 0;
    for _page in 0..nodes {
        pages.next(source)?;
        let list = pages.list();
        count_arcs(list, counts);
        greatest = greatest.max(list.len() as u64);
    }
    pages.finish(source)?;
    Ok(greatest)
}
