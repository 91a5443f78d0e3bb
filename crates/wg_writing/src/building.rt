//! The one way out of the commands that write an archive: from the archive in memory to its files, and the line of
//! what it holds.
ghost use Rattle.std.specs.Prelude.{◌≡◌};
ghost use Rattle.wg_params.specs.declared.layout.Layout.{Layout};
ghost use Rattle.wg_graph.specs.Digraph.{Digraph};
ghost use Rattle.wg_outcomes.specs.Performs.{Builds};
ghost use Rattle.wg_outcomes.specs.Written.{params_for};
ghost use Rattle.wg_writing.specs.Writing.{archive_of};

use crate::writing::write_archive;
use std::alloc::Global;
use wg_encoder::EncodedArchive;
use wg_outcomes::{Ending, print_ok};
use wg_outside::{Depot, Sink};
use wg_params::Params;
use wg_words::Name;

/// Writes an archive that is held in memory, of a graph with these parameters, and prints the line of what it holds.
/// It takes the memory of three names.
pub fn build_archive<D: Depot, O: Sink>(
    alloc: Global,
    params: &Params,
    archive: &EncodedArchive,
    base: &Name,
    depot: &mut D,
    out: &mut O,
) -> Result<(), Ending>
    ensures builds { (l : Layout) (g : Digraph) → params.now ≡ params_for l g → archive.now ≡ archive_of params.now g
        → Builds ⟦<D as Depot>⟧ ⟦<O as Sink>⟧ l g base.now depot.old depot.new out.old out.new result }
    ensures later { O.later out.old out.new }
{
    write_archive(alloc, archive, base, depot)?;
    print_ok(out, params, archive.bits())
}
