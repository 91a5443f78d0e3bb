//! The command `union`: an archive of the arcs of two.
ghost use Rattle.std.specs.Prelude.{◌≡◌, ◌⊎◌, ◌<◌, ◌≤◌, IfErr, IfOk};
ghost use Rattle.wg_params.specs.Parameters.{IsWithinLimits, params_of};
ghost use Rattle.wg_params.specs.declared.limits.TheConstants.{MOST_ARCS, MOST_PAGES};
ghost use Rattle.wg_graph.specs.Digraph.{arc_count};
ghost use Rattle.wg_grammar.specs.Archive.{Accepted};
ghost use Rattle.wg_grammar.specs.Laws.{accepted_graph};
ghost use Rattle.wg_shape.specs.Graphs.{union_graph};
ghost use Rattle.wg_words.specs.Jobs.{writing};
ghost use Rattle.wg_words.specs.declared.jobs.Origin.TheVariants.{Union};
ghost use Rattle.wg_transforms.specs.Loaded.{IsLoaded};
ghost use Rattle.wg_writing.specs.Writing.{IsArchiveOf};
ghost use Rattle.wg_outcomes.specs.Performs.{DoesOrEnds};

use crate::loaded::{Loaded, load_archive, load_second};
use crate::uniting::encode_union;
use std::alloc::Global;
use wg_encoder::EncodedArchive;
use wg_outcomes::{Ending, Status};
use wg_outside::{Depot, Sink};
use wg_params::{Layout, Params};
use wg_shape::ShapeError;
use wg_stream::Sweep;
use wg_words::Name;
use wg_writing::build_archive;

/// Writes the greedy archive of the union of two archives' graphs, in the layout that is given, and prints the line of
/// what it holds. All of the first archive is validated before the second is read, and both before a file is touched.
/// It holds the bytes of both graph files, and 8 bytes a page of an archive while its offsets are validated. Then the
/// lists of both are gone through side by side, and those of the union encoded as they come: each archive has rows for
/// the lists that a reference may reach, with room for its greatest outdegree, and the archive that is made takes, in
/// most graphs, little more than a byte an arc and two a page, and up to twice that while it grows.
pub fn union<D: Depot, O: Sink>(
    alloc: Global,
    first: &Name,
    second: &Name,
    output: &Name,
    layout: &Layout,
    depot: &mut D,
    out: &mut O,
) -> Result<(), Ending>
    requires { IsWithinLimits (params_of layout.now 0 0) }
    ensures { DoesOrEnds ⟦<D as Depot>⟧ ⟦<O as Sink>⟧ (writing output.now layout.now (Union first.now second.now))
        depot.old depot.new out.old out.new result }
{
    let one = load_archive(alloc, depot, first)?;
    let other = load_second(alloc, depot, second)?;
    let (params, archive) = united(alloc, layout, one, other)?;
    build_archive(alloc, &params, &archive, output, depot, out)
}

// The lists of an archive's graph.
fn lists_of<'a>(alloc: Global, archive: &'a Loaded) -> Result<Sweep<'a>, Ending>
    requires { (a : Accepted) × IsLoaded archive.now a }
    ensures graph { (a : Accepted) → IsLoaded archive.now a
        → IfOk result (λ s. s.graph ≡ accepted_graph archive.now.params a) }
    ensures few { IfOk result (λ s. s.graph.nodes ≤ MOST_PAGES) }
    ensures only { IfErr result (λ e. e.status ≡ Status.Memory) }
{
    let bytes = archive.bytes.as_slice();
    Ok(Sweep::with_room(alloc, bytes, archive.params, archive.greatest)?)
}

// The archive of the union of the graphs of two archives, which are let go, and its parameters.
fn united(
    alloc: Global,
    layout: &Layout,
    first: Loaded,
    second: Loaded,
) -> Result<(Params, EncodedArchive), Ending>
    requires layout { IsWithinLimits (params_of layout.now 0 0) }
    requires first { (a : Accepted) × IsLoaded first a }
    requires second { (b : Accepted) × IsLoaded second b }
    ensures made { (a b : Accepted) → IsLoaded first a → IsLoaded second b → IfOk result (λ made.
        IsArchiveOf layout.now (union_graph (accepted_graph first.params a) (accepted_graph second.params b)) made) }
    ensures few { (a b : Accepted) → IsLoaded first a → IsLoaded second b → IfOk result (λ _.
        arc_count (union_graph (accepted_graph first.params a) (accepted_graph second.params b)) ≤ MOST_ARCS) }
    ensures only { IfErr result (λ e. (e.status ≡ Status.Memory) ⊎ (e.status ≡ Status.TooManyArcs)) }
    ensures too_many { (a b : Accepted) → IsLoaded first a → IsLoaded second b
        → IfErr result (λ e. e.status ≡ Status.TooManyArcs
        → MOST_ARCS < arc_count (union_graph (accepted_graph first.params a) (accepted_graph second.params b))) }
{
    let mut one = lists_of(alloc, &first)?;
    let mut other = lists_of(alloc, &second)?;
    match encode_union(alloc, layout, &mut one, &mut other) {
        Ok(made) => Ok(made),
        Err(ShapeError::TooManyArcs) => Err(Ending::of(Status::TooManyArcs)),
        Err(ShapeError::Memory) => Err(Ending::of(Status::Memory)),
    }
}
