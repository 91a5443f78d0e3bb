//! The command `import`: an archive from the ASCIIGraph text of a graph.
ghost use Rattle.wg_params.specs.Parameters.{IsWithinLimits, params_of};
ghost use Rattle.wg_words.specs.Jobs.{writing};
ghost use Rattle.wg_words.specs.declared.jobs.Origin.TheVariants.{Import};
ghost use Rattle.wg_outcomes.specs.Performs.{DoesOrEnds};

use crate::importing::encode_text;
use std::alloc::Global;
use wg_outcomes::Ending;
use wg_outside::{Depot, Sink};
use wg_params::Layout;
use wg_words::Name;
use wg_writing::build_archive;

/// Writes the greedy archive of a graph that is listed page by page, and prints the line of what it holds. It goes
/// through the text once, and validates all of it before it touches a file. It holds up to 65536 bytes of the text and
/// the line that they cut, the list of one page, and the archive, in most graphs little more than a byte an arc and two
/// a page, and up to twice that while it grows.
pub fn import<D: Depot, O: Sink>(
    alloc: Global,
    text: &Name,
    base: &Name,
    layout: &Layout,
    depot: &mut D,
    out: &mut O,
) -> Result<(), Ending>
    requires { IsWithinLimits (params_of layout.now 0 0) }
    ensures { DoesOrEnds ⟦<D as Depot>⟧ ⟦<O as Sink>⟧ (writing base.now layout.now (Import text.now))
        depot.old depot.new out.old out.new result }
{
    let (params, archive) = encode_text(alloc, layout, depot, text)?;
    build_archive(alloc, &params, &archive, base, depot, out)
}
