ghost use Rattle.std.specs.Prelude.{◌≡◌, ℕ, ◌≤◌, length, replicate, IfOk};
ghost use Rattle.wg_params.specs.declared.limits.TheConstants.{MOST_ARCS, MOST_PAGES};
ghost use Rattle.wg_graph.specs.Digraph.{IsGraph, arc_count};
ghost use Rattle.wg_graph.specs.Arcs.{has_arc};
ghost use Rattle.wg_graph.specs.Pieces.{cut, IsCut};
ghost use Rattle.wg_transpose.specs.Transposed.{transposed};

use crate::counting::count;
use crate::placing::Sources;
use crate::ranges::fill;
use std::alloc::{AllocError, Global};
use wg_graph::{Graph, GraphLists};

// Fills in the lists of the transposed graph, one after the other, and their ends.
fn fill_all(graph: &Graph, ends: &mut [u64], all: &mut [u64])
    requires few_pages { graph.now.nodes ≤ MOST_PAGES }
    requires few_arcs { arc_count graph.now ≤ MOST_ARCS }
    requires ends { ends.old ≡ replicate graph.now.nodes 0 }
    requires all { length all.old ≡ arc_count graph.now }
    ensures whole { IsCut (length ends.new) ends.new all.new }
    ensures exact { cut (length ends.new) ends.new all.new ≡ transposed graph.now }
{
    let mut sources = Sources {
        lists: GraphLists::new(graph),
    };
    count(&mut sources.lists, ends);
    fill(&mut sources, 0, ends, all);
}

/// The graph with each arc the other way round. It takes time in proportion to the arcs and pages, and no memory but
/// that of the graph made.
pub fn transpose(alloc: Global, graph: &Graph) -> Result<Graph, AllocError>
    ensures nodes { IfOk result (λ t. t.nodes ≡ graph.now.nodes) }
    ensures reversed { IfOk result (λ t. (u v : ℕ) → has_arc t v u ≡ has_arc graph.now u v) }
    ensures proper { IfOk result (λ t. IsGraph t) }
    ensures arcs { IfOk result (λ t. arc_count t ≡ arc_count graph.now) }
    ensures exact { IfOk result (λ t. t ≡ transposed graph.now) }
{
    let mut ends = vec![in alloc; 0; graph.nodes() as usize]?;
    let mut all = vec![in alloc; 0; graph.arcs() as usize]?;
    fill_all(graph, &mut ends, &mut all);
    Ok(Graph::from_parts(ends, all))
}
