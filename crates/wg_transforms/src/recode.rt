//! The command `recode`: an archive of the same graph in another layout.
ghost use Rattle.std.specs.Prelude.{◌≡◌, Err, IfErr, IfOk};
ghost use Rattle.wg_params.specs.Parameters.{IsWithinLimits, params_of};
ghost use Rattle.wg_words.specs.Jobs.{writing};
ghost use Rattle.wg_words.specs.declared.jobs.Origin.TheVariants.{Recode};
ghost use Rattle.wg_outcomes.specs.Performs.{DoesOrEnds};
ghost use Rattle.wg_readings.specs.Loading.{LoadsGraphBy};
ghost use Rattle.wg_transforms.specs.Recoding.{RecodesBy};

use std::alloc::Global;
use wg_encoder::{ArchiveEncoder, EncodedArchive};
use wg_outcomes::{Ending, params_of};
use wg_outside::{Depot, Sink};
use wg_params::{Layout, Params};
use wg_readings::{end_records, load_params, next_record, open_graph};
use wg_words::Name;
use wg_writing::build_archive;

/// Writes the greedy archive of an archive's graph, in the layout that is given, and prints the line of what it
/// holds. It goes through the graph file once, and validates the whole graph before it touches a file. It holds a piece
/// of the file, and twice the lists that a reference may reach, with a few that wait to be used again; one record; and
/// the archive that it makes, in most graphs little more than a byte an arc and two a page, and up to twice that while
/// it grows.
pub fn recode<D: Depot, O: Sink>(
    alloc: Global,
    input: &Name,
    output: &Name,
    layout: &Layout,
    depot: &mut D,
    out: &mut O,
) -> Result<(), Ending>
    requires { IsWithinLimits (params_of layout.now 0 0) }
    ensures { DoesOrEnds ⟦<D as Depot>⟧ ⟦<O as Sink>⟧ (writing output.now layout.now (Recode input.now))
        depot.old depot.new out.old out.new result }
{
    let params = load_params(alloc, depot, input)?;
    let made = params_of(layout, params.nodes(), params.arcs());
    let archive = recoded(alloc, &params, &made, depot, input)?;
    build_archive(alloc, &made, &archive, output, depot, out)
}

// The archive with other parameters, in memory. Each list is validated, and encoded as it comes; after a fault the
// archive is let go.
fn recoded<D: Depot>(
    alloc: Global,
    params: &Params,
    made: &Params,
    depot: &mut D,
    input: &Name,
) -> Result<EncodedArchive, Ending>
    requires nodes { made.now.nodes ≡ params.now.nodes }
    requires arcs { made.now.arcs ≡ params.now.arcs }
    ensures makes { IfOk result (λ a. RecodesBy ⟦<D as Depot>⟧ input.now params.now made.now depot.old depot.new a) }
    ensures ends { IfErr result (λ e. LoadsGraphBy ⟦<D as Depot>⟧ input.now params.now depot.old depot.new (Err e)) }
{
    let mut reader = open_graph(alloc, params, input)?;
    let mut encoder = ArchiveEncoder::new(alloc, *made)?;
    for _page in 0..params.nodes() {
        next_record(&mut reader, depot, params)?;
        encoder = encoder.add(reader.list())?;
    }
    end_records(&mut reader, depot, params)?;
    let archive = encoder.finish(alloc, made)?;
    Ok(archive)
}
