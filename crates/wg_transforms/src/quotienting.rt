//! The archive of a quotient, encoded in memory, range after range of classes.
ghost use Rattle.std.specs.Prelude.{◌≡◌, ◌≤◌, length, IfErr, IfOk};
ghost use Rattle.wg_params.specs.Parameters.{IsWithinLimits, params_of};
ghost use Rattle.wg_params.specs.declared.limits.TheConstants.{MOST_ARCS, MOST_PAGES};
ghost use Rattle.wg_graph.specs.Ascending.{Below};
ghost use Rattle.wg_graph.specs.Digraph.{arc_count};
ghost use Rattle.wg_shape.specs.Quotient.{quotient_of};
ghost use Rattle.wg_writing.specs.Writing.{IsArchiveOf};

use crate::ranging::archive_of_ranges;
use std::alloc::Global;
use wg_encoder::EncodedArchive;
use wg_graph::Lists;
use wg_outcomes::{Ending, Status};
use wg_params::{Layout, Params};
use wg_shape::Quotienter;
use wg_transpose::range_room;

/// The archive of the graph of classes of the pages of a graph, which has so many arcs and whose lists are read in
/// order; and its parameters. It goes along the lists once for each range of classes, at most 15 times, and once
/// before. Beside the archive it holds 8 bytes a class, 8 an arc of the pages of one range, which are a fourteenth of
/// the arcs or 2^24 of them, if that is more, and those of one class; and 8 an arc of one class.
pub fn encode_quotient<L: Lists + Drop>(
    alloc: Global,
    layout: &Layout,
    lists: L,
    arcs: u64,
    classes_of: &[u64],
    classes: u64,
) -> Result<(Params, EncodedArchive), Ending>
    requires layout { IsWithinLimits (params_of layout.now 0 0) }
    requires few_pages { (L.graph lists).nodes ≤ MOST_PAGES }
    requires few_arcs { arc_count (L.graph lists) ≤ MOST_ARCS }
    requires each { length classes_of.now ≡ (L.graph lists).nodes }
    requires below { Below classes classes_of.now }
    requires few { classes ≤ MOST_PAGES }
    ensures made { IfOk result (λ made.
        IsArchiveOf layout.now (quotient_of (L.graph lists) classes_of.now classes) made) }
    ensures only { IfErr result (λ e. e.status ≡ Status.Memory) }
{
    let ranges = Quotienter::new(alloc, lists, classes_of, classes)?;
    Ok(archive_of_ranges(alloc, layout, ranges, range_room(arcs))?)
}
