//! The union of two graphs in memory.
ghost use Rattle.std.specs.Prelude.{◌≡◌, ◌<◌, IfErr, IfOk};
ghost use Rattle.wg_params.specs.declared.limits.TheConstants.{MOST_ARCS};
ghost use Rattle.wg_graph.specs.Digraph.{IsGraph, arc_count, successors};
ghost use Rattle.wg_shape.specs.Graphs.{IsUnion, union_graph};

use crate::{ListWalk, Merge, ShapeError, add_union};
use std::alloc::Global;
use wg_graph::{Graph, GraphBuilder};

// The successors of a page; none if the graph does not have it.
fn list_of(graph: &Graph, page: u64) -> &[u64]
    ensures list { result.now ≡ successors graph.now page }
    ensures proper { IsGraph graph.now }
{
    if page < graph.nodes() {
        graph.list(page)
    } else {
        &[]
    }
}

/// The graph with as many pages as the larger of two graphs, and with the arcs of both. It takes time in proportion to
/// the pages and arcs, and no memory but that of the graph made. [`ShapeError::TooManyArcs`] tells that there are more
/// arcs than a graph may have.
pub fn union(alloc: Global, first: &Graph, second: &Graph) -> Result<Graph, ShapeError>
    ensures union { IfOk result (λ u. IsUnion first.now second.now u) }
    ensures exact { IfOk result (λ u. u ≡ union_graph first.now second.now) }
    ensures too_many { IfErr result (λ e. e ≡ ShapeError.TooManyArcs
        → MOST_ARCS < arc_count (union_graph first.now second.now)) }
{
    let nodes = first.nodes().max(second.nodes());
    let mut builder = GraphBuilder::new(alloc, nodes)?;
    for page in 0..nodes {
        let one = ListWalk::new(list_of(first, page));
        let other = ListWalk::new(list_of(second, page));
        add_union(&mut builder, page, Merge::new(one, other))?;
    }
    let made = builder.finish()?;
    Ok(made)
}
