//! The command `build`: an archive from a list of arcs.
ghost use Rattle.std.specs.Prelude.{◌≤◌};
ghost use Rattle.wg_params.specs.Parameters.{IsWithinLimits, params_of};
ghost use Rattle.wg_params.specs.declared.limits.TheConstants.{MOST_PAGES};
ghost use Rattle.wg_words.specs.Jobs.{writing};
ghost use Rattle.wg_words.specs.declared.jobs.Origin.TheVariants.{Build};
ghost use Rattle.wg_outcomes.specs.Performs.{DoesOrEnds};

use crate::listing::encode_list;
use std::alloc::Global;
use wg_outcomes::Ending;
use wg_outside::{Depot, Sink};
use wg_params::Layout;
use wg_words::Name;
use wg_writing::build_archive;

/// Writes the greedy archive of a graph that is listed arc by arc, and prints the line of what it holds. It goes
/// through the list once, and validates all of it before it touches a file. It holds up to 65536 bytes of the list and
/// the line that they cut, the list of one page, and the archive, in most graphs little more than a byte an arc and two
/// a page, and up to twice that while it grows.
pub fn build<D: Depot, O: Sink>(
    alloc: Global,
    arcs: &Name,
    base: &Name,
    nodes: u64,
    layout: &Layout,
    depot: &mut D,
    out: &mut O,
) -> Result<(), Ending>
    requires nodes { nodes ≤ MOST_PAGES }
    requires layout { IsWithinLimits (params_of layout.now 0 0) }
    ensures { DoesOrEnds ⟦<D as Depot>⟧ ⟦<O as Sink>⟧ (writing base.now layout.now (Build arcs.now nodes))
        depot.old depot.new out.old out.new result }
{
    let (params, archive) = encode_list(alloc, nodes, layout, depot, arcs)?;
    build_archive(alloc, &params, &archive, base, depot, out)
}
