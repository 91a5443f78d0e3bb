//! The archive of the union of two graphs, encoded in memory, page after page.
ghost use Rattle.std.specs.Prelude.{◌≡◌, ◌<◌, ◌≤◌, max, [], IfErr, IfOk};
ghost use Rattle.wg_params.specs.Parameters.{IsWithinLimits, params_of};
ghost use Rattle.wg_params.specs.declared.limits.TheConstants.{MOST_ARCS, MOST_PAGES};
ghost use Rattle.wg_graph.specs.Digraph.{arc_count};
ghost use Rattle.wg_encoder.specs.ArchiveInMemory.{HasEncoded};
ghost use Rattle.wg_shape.specs.Graphs.{union_graph};
ghost use Rattle.wg_transforms.specs.Uniting.{IsUniting};
ghost use Rattle.wg_writing.specs.Writing.{IsArchiveOf};

use std::alloc::Global;
use wg_encoder::{ArchiveEncoder, EncodedArchive};
use wg_graph::{List, Lists};
use wg_outcomes::params_of;
use wg_params::{Layout, MOST_ARCS, Params};
use wg_shape::{ShapeError, next_union};

// Encodes the list that comes next; `list` has room for it.
fn add_next<A: Lists, B: Lists>(
    encoder: ArchiveEncoder,
    first: &mut A,
    second: &mut B,
    list: &mut List,
) -> Result<ArchiveEncoder, ShapeError>
    requires page { encoder.page < encoder.params.nodes }
    requires way { IsUniting (A.graph first.old) (A.place first.old) (B.graph second.old) (B.place second.old) encoder }
    ensures way { IfOk result (λ e.
        IsUniting (A.graph first.old) (A.place first.new) (B.graph second.old) (B.place second.new) e) }
    ensures params { IfOk result (λ e. e.params ≡ encoder.params) }
    ensures page { IfOk result (λ e. encoder.page < e.page) }
    ensures too_many { IfErr result (λ e. e ≡ ShapeError.TooManyArcs
        → MOST_ARCS < arc_count (union_graph (A.graph first.old) (B.graph second.old))) }
    ensures first { A.graph first.new ≡ A.graph first.old }
    ensures second { B.graph second.new ≡ B.graph second.old }
{
    next_union(first, second, list)?;
    if MOST_ARCS - encoder.arcs() < list.as_slice().len() as u64 {
        return Err(ShapeError::TooManyArcs);
    }
    let encoder = encoder.add(list.as_slice())?;
    Ok(encoder)
}

// Encodes the lists of all pages.
fn add_lists<A: Lists, B: Lists>(
    alloc: Global,
    mut encoder: ArchiveEncoder,
    first: &mut A,
    second: &mut B,
) -> Result<ArchiveEncoder, ShapeError>
    requires none { encoder.page ≡ 0 }
    requires encoded { HasEncoded encoder [] }
    requires nodes { encoder.params.nodes ≡ max (A.graph first.old).nodes (B.graph second.old).nodes }
    requires most { encoder.params.arcs ≡ MOST_ARCS }
    ensures params { IfOk result (λ e. e.params ≡ encoder.params) }
    ensures all { IfOk result (λ e. e.page ≡ e.params.nodes) }
    ensures encoded { IfOk result (λ e. HasEncoded e (union_graph (A.graph first.old) (B.graph second.old)).lists) }
    ensures too_many { IfErr result (λ e. e ≡ ShapeError.TooManyArcs
        → MOST_ARCS < arc_count (union_graph (A.graph first.old) (B.graph second.old))) }
{
    let nodes = first.nodes().max(second.nodes());
    let mut list = List::new(alloc);
    first.begin();
    second.begin();
    'pages: while encoder.page() < nodes {
        encoder = add_next(encoder, first, second, &mut list)?;
    }
    Ok(encoder)
}

/// The archive of the union of two graphs, and its parameters. It goes through the lists of both once, side by side,
/// and each list of the union is encoded as it comes: it holds the archive and one list. [`ShapeError::TooManyArcs`]
/// tells that there are more arcs than an archive may have.
pub fn encode_union<A: Lists, B: Lists>(
    alloc: Global,
    layout: &Layout,
    first: &mut A,
    second: &mut B,
) -> Result<(Params, EncodedArchive), ShapeError>
    requires layout { IsWithinLimits (params_of layout.now 0 0) }
    requires first { (A.graph first.old).nodes ≤ MOST_PAGES }
    requires second { (B.graph second.old).nodes ≤ MOST_PAGES }
    ensures made { IfOk result (λ made.
        IsArchiveOf layout.now (union_graph (A.graph first.old) (B.graph second.old)) made) }
    ensures few { IfOk result (λ _. arc_count (union_graph (A.graph first.old) (B.graph second.old)) ≤ MOST_ARCS) }
    ensures too_many { IfErr result (λ e. e ≡ ShapeError.TooManyArcs
        → MOST_ARCS < arc_count (union_graph (A.graph first.old) (B.graph second.old))) }
{
    let nodes = first.nodes().max(second.nodes());
    // how many arcs there are is known at the end
    let begun = ArchiveEncoder::new(alloc, params_of(layout, nodes, MOST_ARCS))?;
    let encoder = add_lists(alloc, begun, first, second)?;
    let params = params_of(layout, nodes, encoder.arcs());
    let archive = encoder.finish(alloc, &params)?;
    Ok((params, archive))
}
