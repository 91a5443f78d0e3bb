//! The archive of a graph, encoded in memory at once. Out of memory alone ends it.
ghost use Rattle.std.specs.Prelude.{◌≡◌, IfOk, IfErr};
ghost use Rattle.wg_graph.specs.Digraph.{arc_count};
ghost use Rattle.wg_writing.specs.Writing.{archive_of};

use std::alloc::Global;
use wg_encoder::{EncodedArchive, encode};
use wg_graph::Graph;
use wg_outcomes::{Ending, Status};
use wg_params::Params;

/// The archive of a graph.
pub fn encode_graph(alloc: Global, params: &Params, graph: &Graph) -> Result<EncodedArchive, Ending>
    requires nodes { params.now.nodes ≡ graph.now.nodes }
    requires arcs { params.now.arcs ≡ arc_count graph.now }
    ensures encoded { IfOk result (λ a. a ≡ archive_of params.now graph.now) }
    ensures only { IfErr result (λ e. e.status ≡ Status.Memory) }
{
    Ok(encode(alloc, *params, graph)?)
}
