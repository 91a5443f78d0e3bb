//! The command `transpose`: an archive of the transposed graph.
ghost use Rattle.wg_params.specs.Parameters.{IsWithinLimits, params_of};
ghost use Rattle.wg_words.specs.Jobs.{writing};
ghost use Rattle.wg_words.specs.declared.jobs.Origin.TheVariants.{Transpose};
ghost use Rattle.wg_outcomes.specs.Performs.{DoesOrEnds};

use crate::transposing::{encode_transposed, ranges_of_records};
use std::alloc::Global;
use wg_outcomes::{Ending, Input};
use wg_outside::{Depot, Sink};
use wg_params::Layout;
use wg_readings::{load, load_params};
use wg_words::Name;
use wg_writing::build_archive;

/// Writes the greedy archive of an archive's graph with each arc the other way round, in the layout that is given,
/// and prints the line of what it holds. It validates the whole graph before it touches a file, and holds the bytes of
/// its file, from which it decodes the lists again for each range of pages, and a row of the greatest outdegree for
/// each page that a reference reaches and one more. Beside them it holds 8 bytes a page, which it takes before the
/// records are validated; 8 an arc of one range of pages, and the archive that it makes.
pub fn transpose<D: Depot, O: Sink>(
    alloc: Global,
    input: &Name,
    output: &Name,
    layout: &Layout,
    depot: &mut D,
    out: &mut O,
) -> Result<(), Ending>
    requires { IsWithinLimits (params_of layout.now 0 0) }
    ensures { DoesOrEnds ⟦<D as Depot>⟧ ⟦<O as Sink>⟧ (writing output.now layout.now (Transpose input.now))
        depot.old depot.new out.old out.new result }
{
    let params = load_params(alloc, depot, input)?;
    let bytes = load(alloc, depot, input, Input::Graph)?;
    let ranges = ranges_of_records(alloc, &params, bytes.as_slice())?;
    let (made, archive) = encode_transposed(alloc, layout, ranges, params.arcs())?;
    build_archive(alloc, &made, &archive, output, depot, out)
}
