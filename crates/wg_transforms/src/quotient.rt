//! The command `quotient`: an archive of the graph of classes of pages.
ghost use Rattle.std.specs.Prelude.{◌≤◌};
ghost use Rattle.wg_params.specs.Parameters.{IsWithinLimits, params_of};
ghost use Rattle.wg_params.specs.declared.limits.TheConstants.{MOST_PAGES};
ghost use Rattle.wg_words.specs.Jobs.{writing};
ghost use Rattle.wg_words.specs.declared.jobs.Origin.TheVariants.{Quotient};
ghost use Rattle.wg_outcomes.specs.Performs.{DoesOrEnds};

use crate::quotienting::encode_quotient;
use std::alloc::Global;
use wg_graph::Lists;
use wg_outcomes::{Ending, Input};
use wg_outside::{Depot, Sink};
use wg_params::Layout;
use wg_readings::{lists_of_records, load, load_map, load_params};
use wg_words::Name;
use wg_writing::build_archive;

/// Writes the greedy archive of the graph of classes of an archive's pages, in the layout that is given, and prints the
/// line of what it holds: an arc leads from class to class exactly if one leads from a page of the first to a page of
/// the second. The map has a line for each page with its class, which is below their number. It validates the whole
/// graph, and then the map, before it touches a file.
///
/// It holds the bytes of the graph file, from which it decodes the lists again for each range of classes, and a row of
/// the greatest outdegree for each page that a reference reaches and one more. Beside them it holds 8 bytes a page for
/// the map, and the bytes of its file until it is read; 8 a class, 8 an arc of the pages of one range of classes, 8 an
/// arc of one class, and the archive that it makes.
pub fn quotient<D: Depot, O: Sink>(
    alloc: Global,
    input: &Name,
    map: &Name,
    output: &Name,
    classes: u64,
    layout: &Layout,
    depot: &mut D,
    out: &mut O,
) -> Result<(), Ending>
    requires layout { IsWithinLimits (params_of layout.now 0 0) }
    requires few { classes ≤ MOST_PAGES }
    ensures { DoesOrEnds ⟦<D as Depot>⟧ ⟦<O as Sink>⟧ (writing output.now layout.now (Quotient input.now map.now classes))
        depot.old depot.new out.old out.new result }
{
    let params = load_params(alloc, depot, input)?;
    let bytes = load(alloc, depot, input, Input::Graph)?;
    let lists = lists_of_records(alloc, &params, bytes.as_slice())?;
    let classes_of = load_map(alloc, lists.nodes(), classes, depot, map)?;
    let arcs = params.arcs();
    let (made, archive) = encode_quotient(
        alloc,
        layout,
        lists,
        arcs,
        classes_of.as_slice(),
        classes,
    )?;
    build_archive(alloc, &made, &archive, output, depot, out)
}
